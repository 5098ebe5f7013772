//! When the relaxation is asked, and what a call may do, but for the rounds of cuts at the root: in a dive before each decision, else as often
//! as its share of the work allows.
//!
//! What dives do has limits of its own, and does not count against that share.

use super::advice::{Advice, Node};
use super::dives::Dives;
use super::effort::{Aim, Effort};
use linear::Problem;
use relaxation::Limits;

/// The dives and the share of the work, of a problem that has an objective or not.
#[derive(Clone, Copy, Debug)]
pub(crate) struct Schedule {
    effort: Effort,
    dives: Dives,
    has_objective: bool,
}

/// What it takes to go over so many terms once for each row and each variable; nothing without an objective, where no bound is looked for.
fn pass_of(problem: &Problem, rows: usize, terms: usize) -> u64 {
    if problem.objective().is_none() {
        return 0;
    }
    let lines = problem.names().len().saturating_add(rows);
    lines.saturating_mul(terms) as u64
}

impl Schedule {
    /// Nothing was done yet, of a problem with so many rows, which have so many terms together.
    pub(crate) fn new(problem: &Problem, rows: usize, terms: usize) -> Self {
        Schedule {
            effort: Effort::new(pass_of(problem, rows, terms)),
            dives: Dives::new(),
            has_objective: problem.objective().is_some(),
        }
    }

    /// What a call may do at a node where so much was done so far; none where no call is due.
    pub(crate) fn limits(&mut self, done: u64, node: Node<'_>, aim: Aim) -> Option<Limits> {
        self.begin_dive(node, aim);
        if self.is_dive(node) {
            return Some(self.dives.limits());
        }
        let below = done.saturating_sub(self.dives.done());
        self.effort.limits(below, node, aim)
    }

    /// Begins a dive at the root, if one may begin, as long as there is no solution: without an objective one is as good as another.
    fn begin_dive(&mut self, node: Node<'_>, aim: Aim) {
        if node.decisions == 0 && self.has_objective && aim == Aim::Any {
            self.dives.begin(node, self.effort.at_root());
        }
    }

    /// Whether a call at a node is one of a dive.
    pub(crate) fn is_dive(self, node: Node<'_>) -> bool {
        self.dives.are_open(node)
    }

    /// Takes note of a better solution: a dive ends, and a call at the root is due.
    pub(crate) fn note_solution(&mut self) {
        self.dives.end();
        self.effort.ask_root();
    }

    /// Whether rounds of cuts may begin with a call at a node. A problem that is solved without a conflict wants no cuts, so none begin before
    /// there was one; nor where there is no bound to be raised.
    pub(crate) fn wants_cuts(self, node: Node<'_>) -> bool {
        node.decisions == 0 && node.conflicts > 0 && self.has_objective
    }

    /// How much the calls at the root have done.
    pub(crate) fn at_root(self) -> u64 {
        self.effort.at_root()
    }

    /// A call at a node has cost so much, and come to an answer.
    pub(crate) fn note(&mut self, node: Node<'_>, cost: u64, advice: &Advice) {
        if node.decisions == 0 {
            self.effort.note_root(cost);
            return;
        }
        if self.is_dive(node) {
            self.dives.note(cost);
            return;
        }
        match advice {
            Advice::Conflict(_) | Advice::Forcing(_) => self.effort.reward(),
            Advice::Cut(_) | Advice::Values | Advice::Nothing => self.effort.charge(cost),
        }
    }
}
