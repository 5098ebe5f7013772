//! What a run does at a conflict: unless it ends there, it learns, goes back, and counts.
//!
//! What the analysis derives is asked for first, since it bites sooner and says more; the clause of the decisions is always at hand. Either undoes
//! decisions, so that what was learned says something new there. That a conflict taught something is noted behind that, since what is due then
//! may undo all decisions, and delete what was learned.

use super::clause::learn_clause;
use super::cutting::learn_constraint;
use super::endings::{end_exhausted, end_stopped, may_stop};
use super::found::Found;
use super::run::Run;
use analysis::Size;
use propagate::{Id, Propagator};
use std::alloc::AllocError;

impl<'a, P: Propagator> Run<'a, P> {
    ghost use Rattle.std.specs.Prelude.{◌≡◌, ◌≢◌, ◌<◌, ◌+◌, [], IfOk, IfSome, IsNone, OnOk};
    ghost use Rattle.proof_rules.specs.State.{HasRoom, constraints};
    ghost use Rattle.search.specs.Conflicts.{LeadsAtLast};
    ghost use Rattle.proof_log.specs.Log.{GoesOn};
    ghost use Rattle.search.specs.Decisions.{AreDecisions};
    ghost use Rattle.search.specs.Solving.{BearsOut, TakesId};
    ghost use Rattle.search.specs.Undoing.{IsUndone};

    /// Learns from a conflict under the decisions, unless the search is at its end there, or may stop.
    pub(crate) fn meet_conflict(
        &mut self,
        conflict: Option<Id>,
        limit: u64,
    ) -> Result<Option<Found>, AllocError>
        requires decisions { AreDecisions self.old.log self.old.decisions.items }
        requires within { self.old.log.biting < limit }
        requires conflict { LeadsAtLast (constraints self.old.log.state) self.old.decisions.items }
        ensures goes_on { GoesOn self.old.log self.new.log }
        ensures found { IfOk result (λ end. IfSome end (BearsOut limit self.new.log)) }
        ensures within { OnOk result (self.new.log.biting < limit) }
        ensures learned { IfOk result (λ end. IsNone end → TakesId self.old.log.state self.new.log.state) }
        ensures decisions { OnOk result (AreDecisions self.new.log self.new.decisions.items) }
    {
        if self.decisions.is_empty() {
            return Ok(Some(end_exhausted(&mut self.log)?));
        }
        if may_stop(&self.log, limit) {
            return Ok(Some(end_stopped(&mut self.log, limit)?));
        }
        self.resolve(conflict)?;
        self.count_analysed()?;
        Ok(None)
    }

    /// Learns from a conflict under the decisions, as long as an id is left.
    fn resolve(&mut self, conflict: Option<Id>) -> Result<(), AllocError>
        requires some { self.old.decisions.items ≢ [] }
        requires decisions { AreDecisions self.old.log self.old.decisions.items }
        requires conflict { LeadsAtLast (constraints self.old.log.state) self.old.decisions.items }
        requires room { HasRoom self.old.log.state }
        ensures goes_on { GoesOn self.old.log self.new.log }
        ensures learned { OnOk result (TakesId self.old.log.state self.new.log.state) }
        ensures biting { OnOk result (self.new.log.biting ≡ self.old.log.biting + 1) }
        ensures decisions { OnOk result (AreDecisions self.new.log self.new.decisions.items) }
        ensures undone { OnOk result (IsUndone self.old.decisions.items self.new.decisions.items) }
    {
        let is_learned = learn_constraint(
            self.alloc,
            &mut self.log,
            &mut self.decisions,
            &mut self.standing,
            conflict,
            &mut self.analyser,
            &mut self.advisers.brancher,
        )?;
        if !is_learned {
            let size = Size::of_decisions(self.decisions.len());
            self.analyser.met.note_learned(size);
            learn_clause(
                self.alloc,
                &mut self.log,
                &mut self.decisions,
                &mut self.advisers.brancher,
            )?;
        }
        Ok(())
    }

    /// Keeps what was logged last among what was learned, until it is forgotten.
    fn keep_learned(&mut self) -> Result<(), AllocError>
        ensures log { self.new.log ≡ self.old.log }
        ensures decisions { self.new.decisions.items ≡ self.old.decisions.items }
    {
        let Some(size) = self.analyser.met.learned else {
            return Ok(());
        };
        self.learned.push(self.log.kernel().last_id(), size)
    }

    /// Notes what an analysis came by, and counts its conflict.
    fn count_analysed(&mut self) -> Result<(), AllocError>
        requires { AreDecisions self.old.log self.old.decisions.items }
        ensures goes_on { GoesOn self.old.log self.new.log }
        ensures next { OnOk result (self.new.log.state.next ≡ self.old.log.state.next) }
        ensures biting { OnOk result (self.new.log.biting ≡ self.old.log.biting) }
        ensures decisions { OnOk result (AreDecisions self.new.log self.new.decisions.items) }
    {
        self.keep_learned()?;
        self.learned.meet(self.analyser.met.ids.as_slice());
        self.drop_passing()?;
        let met = self.analyser.met.variables.len();
        self.count_conflict(met)
    }

    /// Counts a conflict that taught something, whose analysis came by constraints of so many terms; forgets half of what was learned, and
    /// begins anew, where that is due.
    pub(crate) fn count_conflict(&mut self, met: usize) -> Result<(), AllocError>
        requires { AreDecisions self.old.log self.old.decisions.items }
        ensures goes_on { GoesOn self.old.log self.new.log }
        ensures next { OnOk result (self.new.log.state.next ≡ self.old.log.state.next) }
        ensures biting { OnOk result (self.new.log.biting ≡ self.old.log.biting) }
        ensures decisions { AreDecisions self.new.log self.new.decisions.items }
    {
        self.advisers.count_conflict(met, self.learned.terms());
        self.learned.count_conflict();
        self.tell_progress_if_due();
        self.forget_if_due()?;
        self.begin_anew_if_due();
        self.forget_outdone_if_due()
    }
}
