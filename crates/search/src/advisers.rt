//! Who advises a search: a rule of choice, and the relaxation of its problem.
//!
//! Neither is believed. A literal that is picked is looked up before it is decided, and a line that the relaxation comes to is summed up
//! exactly before it is handed out, and judged again by the log. So what they say costs time at most.

ghost use Rattle.std.specs.Prelude.{◌≡◌, IfOk, IfSome};
ghost use Rattle.search.specs.Advised.{IsAdvised};
ghost use Rattle.proof_log.specs.Log.{CanBeWritten};

use super::searched::Searched;
use bounding::{Advice, Adviser, Node};
use branching::Brancher;
use linear::{Integer, Lit, Seq};
use proof_log::Log;
use proof_steps::{Item, Step};
use propagate::{Id, Propagator};
use std::alloc::{AllocError, Global};

/// A line that the relaxation comes to where a search stands.
#[derive(Debug, Drop)]
pub(crate) struct Line {
    /// The `pol` step.
    pub(crate) step: Step,
    pub(crate) effect: Effect,
}

/// What a line says where the search stands.
#[derive(Clone, Copy, Debug, PartialEq, Eq)]
pub(crate) enum Effect {
    /// Its constraint has negative slack.
    Conflict,
    /// Its constraint forces a literal.
    Forcing,
    /// The best point of the relaxation violates its constraint. Under what stands it says nothing.
    Cut,
}

/// The line of these items, where it can be written.
fn line_of<'a, P: Propagator>(log: &Log<'a, P>, items: Seq<Item>, effect: Effect) -> Option<Line>
    ensures step { IfSome result (λ line. line.step ≡ Step.Pol items) }
    ensures effect { IfSome result (λ line. line.effect ≡ effect) }
    ensures writable { IfSome result (λ line. CanBeWritten log.now line.step) }
{
    let step = Step::Pol(items);
    if !log.can_write(&step) {
        return None;
    }
    Some(Line { step, effect })
}

/// The advisers of one search.
#[derive(Drop)]
pub(crate) struct Advisers {
    pub(crate) brancher: Box<dyn Brancher>,
    /// None where the problem is too large for one.
    relaxation: Option<Adviser>,
    /// From how many conflicts the search has learned.
    conflicts: u64,
    searched: Searched,
}

impl Advisers {
    /// Those of a search that begins, whose log has the file's constraints.
    pub(crate) fn new<'a, P: Propagator>(
        alloc: Global,
        log: &Log<'a, P>,
        brancher: Box<dyn Brancher>,
    ) -> Result<Self, AllocError> {
        let mut brancher = brancher;
        brancher.begin(log.problem());
        Ok(Advisers {
            brancher,
            relaxation: Adviser::new(alloc, log.problem(), log.kernel())?,
            conflicts: 0,
            searched: Searched::new(log.problem()),
        })
    }

    /// A line that says something under the literals that stand, where the relaxation is asked and comes to one that can be written. They came
    /// with so many open decisions, and so many came since the search began.
    pub(crate) fn ask<'a, P: Propagator>(
        &mut self,
        log: &Log<'a, P>,
        standing: &[Lit],
        decisions: usize,
        literals: u64,
    ) -> Result<Option<Line>, AllocError>
        ensures { IfOk result (λ found. IfSome found (IsAdvised log.now standing.now)) }
    {
        let Some(adviser) = &mut self.relaxation else {
            return Ok(None);
        };
        self.searched.follow(literals);
        let node = Node {
            standing,
            decisions,
            conflicts: self.conflicts,
            searched: self.searched.terms(),
        };
        match adviser.ask(log.kernel(), node)? {
            Advice::Conflict(items) => Ok(line_of(log, items, Effect::Conflict)),
            Advice::Forcing(items) => {
                self.brancher.lean(adviser.leanings());
                Ok(line_of(log, items, Effect::Forcing))
            }
            Advice::Cut(items) => Ok(line_of(log, items, Effect::Cut)),
            Advice::Values => {
                self.brancher.lean(adviser.leanings());
                self.brancher.prefer(adviser.preferred());
                Ok(None)
            }
            Advice::Nothing => Ok(None),
        }
    }

    /// An improving solution was logged last.
    pub(crate) fn improve<'a, P: Propagator>(&mut self, log: &Log<'a, P>) {
        if let Some(adviser) = &mut self.relaxation {
            adviser.improve(log.kernel());
        }
    }

    /// A cut was logged last. The ids of those that the relaxation has no use for any more.
    pub(crate) fn take_cut<'a, P: Propagator>(
        &mut self,
        alloc: Global,
        log: &Log<'a, P>,
    ) -> Result<Vec<Id>, AllocError> {
        let Some(adviser) = &mut self.relaxation else {
            return Ok(Vec::new(alloc));
        };
        adviser.take_cut(log.kernel())?;
        Ok(adviser.take_slack_cuts())
    }

    /// From how many conflicts the search has learned.
    pub(crate) fn conflicts(&self) -> u64 {
        self.conflicts
    }

    /// The search has learned from a conflict, whose analysis came by constraints of so many terms, of none where an adviser came to it; what
    /// it keeps of all that it learned has so many.
    pub(crate) fn count_conflict(&mut self, met: usize, kept: u64) {
        self.conflicts = self.conflicts.saturating_add(1);
        self.searched.analyse(met, kept);
    }

    /// The bound of the relaxation at the root, where there is one. It may be wrong.
    pub(crate) fn bound(&self) -> Option<Integer> {
        match &self.relaxation {
            Some(adviser) => adviser.bound(),
            None => None,
        }
    }
}
