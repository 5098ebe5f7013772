//! A run of the search: what it keeps between two turns, and a turn.
//!
//! A turn decides until there is a conflict, a line of an adviser or a solution, or undoes decisions that a conflict does not take (`descent`).
//! From a decision to what its conflict teaches it goes in this order:
//!
//! 1. `descent` brings what stands in step with the open decisions (`retracing`), decides a literal, and notes what it forces (`standing`), up to
//!    the conflict. Where decisions that stood before lead to it, `overtaken` undoes those that it does not take, and that is the turn.
//! 2. `endings`: with no decision open the search is at its end, and at the last conflict that it may meet it stops.
//! 3. `conflict` has `cutting` learn what the analysis derives, or else `clause` that the decisions do not all hold: either writes a line, and
//!    undoes decisions. What came with these is taken off (`retracing`) before a derived constraint is learned, since it is asked what that says
//!    without them; behind a clause of decisions it is taken off when the next turn begins.
//! 4. `conflict` counts it. As far as that is due it is told how far the search has come (`progress`), half of what was learned is forgotten
//!    (`forgetting`, over `learned`), all decisions are undone (`restarts`), and what is outdone goes (`forgetting`, over `outdone`).
//!
//! What a solution does is told in `solution`, and what a line of an adviser does in `advice`.
//!
//! Each turn takes an id of the log or leaves fewer decisions open with all else as it was, and ids are numbered below a limit; so a run ends,
//! whatever its advisers say.

use super::advisers::Advisers;
use super::descent::{Descent, descend};
use super::endings::end_stopped;
use super::found::Found;
use super::learned::LearnedConstraints;
use super::outdone::Outdone;
use super::restarts::Restarts;
use super::standing::Standing;
use analysis::Analyser;
use linear::Lit;
use proof_log::Log;
use propagate::{Id, Propagator};
use std::alloc::{AllocError, Global};

/// A run of the search, as it stands between two turns.
#[derive(Drop)]
pub(crate) struct Run<'a, P: Propagator> {
    pub(crate) alloc: Global,
    /// All that is known.
    pub(crate) log: Log<'a, P>,
    /// The literals that are decided, the first one first.
    pub(crate) decisions: Vec<Lit>,
    /// What they extended to when that was last asked, with what was decided since.
    pub(crate) standing: Standing,
    pub(crate) restarts: Restarts,
    pub(crate) learned: LearnedConstraints,
    pub(crate) outdone: Outdone,
    pub(crate) analyser: Analyser,
    pub(crate) advisers: Advisers,
    /// An advised constraint that has negative slack where it came, and forces nothing sooner: one analysis begins with it, and then it
    /// goes.
    pub(crate) passing: Option<Id>,
}

impl<'a, P: Propagator> Run<'a, P> {
    ghost use Rattle.std.specs.Prelude.{◌≡◌, ◌<◌, [], IfOk, IfSome, IsNone, OnOk, length};
    ghost use Rattle.proof_log.specs.Log.{GoesOn};
    ghost use Rattle.search.specs.Decisions.{AreDecisions};
    ghost use Rattle.search.specs.Solving.{BearsOut};
    ghost use Rattle.search.specs.Undoing.{NearsEnd};

    /// A run that begins, with no decision, and nothing that stands.
    pub(crate) fn new(
        alloc: Global,
        log: Log<'a, P>,
        standing: Standing,
        advisers: Advisers,
    ) -> Self
        ensures log { result.log ≡ log.entry }
        ensures decisions { result.decisions.items ≡ [] }
    {
        Run {
            alloc,
            log,
            decisions: Vec::new(alloc),
            standing,
            restarts: Restarts::new(),
            learned: LearnedConstraints::new(alloc),
            outdone: Outdone::new(alloc),
            analyser: Analyser::new(alloc),
            advisers,
            passing: None,
        }
    }

    /// All that is known.
    pub(crate) fn into_log(self) -> Log<'a, P>
        ensures { result ≡ self.entry.log }
    {
        self.log
    }

    /// How many variables the file has.
    fn variables(&self) -> u32
        ensures { result ≡ length self.now.log.problem.names }
    {
        // That they are few is known by the log's type; this makes it known here.
        self.log.reveal();
        self.log.names().len() as u32
    }

    /// Takes turns until something is found.
    pub(crate) fn finish(&mut self, limit: u64) -> Result<Found, AllocError>
        requires decisions { AreDecisions self.old.log self.old.decisions.items }
        requires within { self.old.log.biting < limit }
        ensures goes_on { OnOk result (GoesOn self.old.log self.new.log) }
        ensures found { IfOk result (BearsOut limit self.new.log) }
        ensures within { OnOk result (self.new.log.biting < limit) }
    {
        'turns: loop {
            if let Some(found) = self.turn(limit)? {
                return Ok(found);
            }
        }
    }

    /// Decides until there is a conflict, a line of an adviser or a solution, and learns from that; or undoes decisions that a conflict does
    /// not take.
    fn turn(&mut self, limit: u64) -> Result<Option<Found>, AllocError>
        requires decisions { AreDecisions self.old.log self.old.decisions.items }
        requires within { self.old.log.biting < limit }
        ensures goes_on { GoesOn self.old.log self.new.log }
        ensures found { IfOk result (λ end. IfSome end (BearsOut limit self.new.log)) }
        ensures within { OnOk result (self.new.log.biting < limit) }
        ensures nears_end { IfOk result (λ end. IsNone end
            → NearsEnd self.old.log self.old.decisions.items self.new.log self.new.decisions.items) }
        ensures decisions { OnOk result (AreDecisions self.new.log self.new.decisions.items) }
    {
        let count = self.variables();
        let end = descend(
            self.alloc,
            &mut self.log,
            &mut self.decisions,
            &mut self.standing,
            count,
            &mut self.advisers,
        )?;
        match end {
            Descent::Conflict(conflict) => {
                let ended = self.meet_conflict(conflict, limit)?;
                Ok(ended)
            }
            Descent::Undone => Ok(None),
            Descent::Advised(line) => {
                if !self.log.has_room() {
                    return Ok(Some(end_stopped(&mut self.log, limit)?));
                }
                self.take_advice(line)?;
                Ok(None)
            }
            Descent::Fixpoint(assigned) => {
                let ended = self.meet_solution(assigned, limit)?;
                Ok(ended)
            }
        }
    }
}
