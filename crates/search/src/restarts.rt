//! When a search begins anew.
//!
//! A search that began with a bad choice can stay under it for long. So from time to time all decisions are undone. How many
//! conflicts come between two restarts follows the sequence 1, 1, 2, 1, 1, 2, 4, 1, 1, 2, 1, 1, 2, 4, 8, .., which is within a
//! factor of the best one whatever the problem (Luby, Sinclair and Zuckerman, 1993). Beside that it begins anew where a solution is worth about
//! as much as the bound of the relaxation.

use super::run::Run;
use propagate::Propagator;

/// So many conflicts come before the first restart; later numbers are multiples of it.
const CONFLICTS: u64 = 100;

/// Where the sequence is, in Knuth's form of it (the second number of each pair, in which the first one counts up), and how many
/// conflicts are left until the next restart.
#[derive(Clone, Copy, Debug)]
pub(crate) struct Restarts {
    counter: u64,
    multiple: u64,
    left: u64,
    /// How many there were, with those that the sequence does not ask for.
    count: u64,
}

impl Restarts {
    pub(crate) fn new() -> Self {
        Restarts {
            counter: 1,
            multiple: 1,
            left: CONFLICTS,
            count: 0,
        }
    }

    /// How many there were, whatever they came from.
    pub(crate) fn count(self) -> u64 {
        self.count
    }

    /// The next number of the sequence: where the last one was the greatest power of two that divides the counter the sequence
    /// begins anew, and else the number doubles.
    fn advance(&mut self) {
        let lowest = self.counter & self.counter.wrapping_neg();
        if lowest == self.multiple {
            self.counter = self.counter.saturating_add(1);
            self.multiple = 1;
        } else {
            self.multiple = self.multiple.saturating_mul(2);
        }
    }

    /// One more.
    fn note(&mut self) {
        self.count = self.count.saturating_add(1);
    }

    /// Counts a conflict; whether the search is to begin anew behind it.
    fn count_conflict(&mut self) -> bool {
        self.left = self.left.saturating_sub(1);
        if self.left > 0 {
            return false;
        }
        self.advance();
        self.left = CONFLICTS.saturating_mul(self.multiple);
        true
    }
}

impl<'a, P: Propagator> Run<'a, P> {
    ghost use Rattle.std.specs.Prelude.{◌≡◌};
    ghost use Rattle.search.specs.Decisions.{AreDecisions};

    /// Whether the best solution is worth about as much as the bound: then there is likely none that is better, which the relaxation shows at
    /// the root.
    fn is_near_bound(&self) -> bool {
        match (self.bound(), self.log.least_value()) {
            (Some(bound), Some(value)) => value <= bound.saturating_add(1),
            _ => false,
        }
    }

    /// Undoes all decisions, and tells the brancher.
    fn begin_anew(&mut self)
        requires { AreDecisions self.old.log self.old.decisions.items }
        ensures log { self.new.log ≡ self.old.log }
        ensures decisions { AreDecisions self.new.log self.new.decisions.items }
    {
        self.decisions.clear();
        self.restarts.note();
        self.advisers.brancher.restarted();
    }

    /// Undoes all decisions, where the best solution is worth about as much as the bound.
    pub(crate) fn begin_anew_if_near_bound(&mut self)
        requires { AreDecisions self.old.log self.old.decisions.items }
        ensures log { self.new.log ≡ self.old.log }
        ensures decisions { AreDecisions self.new.log self.new.decisions.items }
    {
        if self.is_near_bound() {
            self.begin_anew();
        }
    }

    /// Undoes all decisions, where that is due.
    pub(crate) fn begin_anew_if_due(&mut self)
        requires { AreDecisions self.old.log self.old.decisions.items }
        ensures log { self.new.log ≡ self.old.log }
        ensures decisions { AreDecisions self.new.log self.new.decisions.items }
    {
        if self.restarts.count_conflict() {
            self.begin_anew();
        }
    }
}
