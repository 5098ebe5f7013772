//! How far a run has come, as its brancher is told: who prints it decides what becomes of that.

use super::run::Run;
use branching::Progress;
use linear::Integer;
use propagate::Propagator;

/// So many conflicts lie between two times that the brancher is told.
const CONFLICTS_BETWEEN_LINES: u64 = 1000;

impl<'a, P: Propagator> Run<'a, P> {
    ghost use Rattle.std.specs.Prelude.{◌≡◌};

    /// What a solution is worth at least by the relaxation, where there is an objective and that was solved.
    pub(crate) fn bound(&self) -> Option<Integer> {
        self.log.problem().objective()?;
        self.advisers.bound()
    }

    /// Tells how far the search has come.
    pub(crate) fn tell_progress(&mut self)
        ensures log { self.new.log ≡ self.old.log }
        ensures decisions { self.new.decisions.items ≡ self.old.decisions.items }
    {
        let progress = Progress {
            conflicts: self.advisers.conflicts(),
            restarts: self.restarts.count(),
            kept: self.learned.count() as u64,
            best: self.log.least_value(),
            bound: self.bound(),
        };
        self.advisers.brancher.progress(progress);
    }

    /// Tells how far the search has come, where that is due.
    pub(crate) fn tell_progress_if_due(&mut self)
        ensures log { self.new.log ≡ self.old.log }
        ensures decisions { self.new.decisions.items ≡ self.old.decisions.items }
    {
        if self.advisers.conflicts() % CONFLICTS_BETWEEN_LINES == 0 {
            self.tell_progress();
        }
    }
}
