//! What an adviser is asked, and what it answers.

use linear::{Lit, Seq};
use proof_steps::Item;

/// Where a search stands: propagation has come to its end, and met no conflict.
#[derive(Clone, Copy, Debug)]
pub struct Node<'a> {
    /// The literals that are decided or forced, in any order.
    pub standing: &'a [Lit],
    /// How many decisions are open.
    pub decisions: usize,
    /// From how many conflicts the search has learned so far.
    pub conflicts: u64,
    /// How many terms the search has looked at so far, about.
    pub searched: u64,
}

/// What an adviser answers.
#[derive(Debug, Drop)]
pub enum Advice {
    /// The items of a `pol` line whose constraint is false under the literals that stand.
    Conflict(Seq<Item>),
    /// The items of a `pol` line whose constraint forces a literal more.
    Forcing(Seq<Item>),
    /// The items of a `pol` line whose constraint the best point of the relaxation violates, at the root. Nothing more is said of it.
    Cut(Seq<Item>),
    /// The relaxation has a best point, to which `leanings` lead.
    Values,
    /// Nothing was asked of the relaxation, or nothing came of it.
    Nothing,
}

/// What came of the calls so far.
#[derive(Clone, Copy, Debug, PartialEq, Eq)]
pub struct Figures {
    /// How often the relaxation was solved, or its limits were reached.
    pub calls: u64,
    /// How many lines were handed out that are false under what stood.
    pub conflicts: u64,
    /// How many lines were handed out that force a literal.
    pub forcings: u64,
    /// How many cuts were handed out.
    pub cuts: u64,
    /// How often multipliers summed up to nothing that says anything.
    pub failed: u64,
}

impl Figures {
    /// No call yet.
    pub(crate) fn new() -> Self {
        Figures {
            calls: 0,
            conflicts: 0,
            forcings: 0,
            cuts: 0,
            failed: 0,
        }
    }

    /// Counts a call, and what it came to.
    pub(crate) fn count_call(&mut self, advice: &Advice) {
        self.calls = self.calls.saturating_add(1);
        match advice {
            Advice::Conflict(_) => self.conflicts = self.conflicts.saturating_add(1),
            Advice::Forcing(_) => self.forcings = self.forcings.saturating_add(1),
            Advice::Cut(_) => self.count_cut(),
            Advice::Values | Advice::Nothing => {}
        }
    }

    /// Counts a cut, as one that is handed out without a call.
    pub(crate) fn count_cut(&mut self) {
        self.cuts = self.cuts.saturating_add(1);
    }

    /// Counts multipliers that summed up to nothing.
    pub(crate) fn count_failure(&mut self) {
        self.failed = self.failed.saturating_add(1);
    }
}
