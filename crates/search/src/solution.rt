//! What a run does with a solution.
//!
//! Without an objective it is what was looked for. With one it is logged as a better solution, which adds a constraint that asks for a better
//! one still, and the search goes on.

use super::endings::{end_solved, end_stopped};
use super::found::Found;
use super::run::Run;
use linear::{Lit, Seq};
use proof_steps::Step;
use propagate::Propagator;
use std::alloc::AllocError;

impl<'a, P: Propagator> Run<'a, P> {
    ghost use Rattle.std.specs.Prelude.{◌≡◌, IfOk, IfSome, IsNone, OnOk};
    ghost use Rattle.search.specs.Decisions.{AreDecisions};
    ghost use Rattle.search.specs.Descents.{IsSettled};
    ghost use Rattle.proof_log.specs.Log.{CanBeWritten, GoesOn, IsLegal};
    ghost use Rattle.search.specs.Solving.{BearsOut, TakesId};

    /// Tells the brancher of a solution, and logs it.
    pub(crate) fn meet_solution(
        &mut self,
        assigned: Seq<Lit>,
        limit: u64,
    ) -> Result<Option<Found>, AllocError>
        requires decisions { AreDecisions self.old.log self.old.decisions.items }
        requires settled { IsSettled self.old.log assigned }
        ensures goes_on { GoesOn self.old.log self.new.log }
        ensures found { IfOk result (λ end. IfSome end (BearsOut limit self.new.log)) }
        ensures improved { IfOk result (λ end. IsNone end → TakesId self.old.log.state self.new.log.state) }
        ensures biting { OnOk result (self.new.log.biting ≡ self.old.log.biting) }
        ensures decisions { OnOk result (AreDecisions self.new.log self.new.decisions.items) }
    {
        // The decisions stay, unless the bound is near: with the constraint that asks for a better solution they lead to a conflict, which
        // teaches more than to begin anew.
        self.advisers.brancher.solution(assigned.as_slice());
        let end = self.accept(assigned, limit)?;
        self.begin_anew_if_near_bound();
        self.tell_progress();
        Ok(end)
    }

    /// Logs a better solution. The constraint that asked for it is of no use then.
    fn improve(&mut self, assigned: Seq<Lit>) -> Result<(), AllocError>
        requires writable { CanBeWritten self.old.log (Step.Soli assigned) }
        requires legal { IsLegal self.old.log (Step.Soli assigned) }
        ensures goes_on { GoesOn self.old.log self.new.log }
        ensures id { OnOk result (TakesId self.old.log.state self.new.log.state) }
        ensures biting { OnOk result (self.new.log.biting ≡ self.old.log.biting) }
        ensures decisions { self.new.decisions.items ≡ self.old.decisions.items }
    {
        let asked = self.log.asking();
        self.log.improve(assigned)?;
        self.advisers.improve(&self.log);
        self.outdone.push_any(asked)?;
        self.forget_outdone()?;
        Ok(())
    }

    /// Logs a solution. Where there is an objective the search goes on for a better one.
    fn accept(&mut self, assigned: Seq<Lit>, limit: u64) -> Result<Option<Found>, AllocError>
        requires { IsSettled self.old.log assigned }
        ensures goes_on { GoesOn self.old.log self.new.log }
        ensures found { IfOk result (λ end. IfSome end (BearsOut limit self.new.log)) }
        ensures improved { IfOk result (λ end. IsNone end → TakesId self.old.log.state self.new.log.state) }
        ensures biting { OnOk result (self.new.log.biting ≡ self.old.log.biting) }
        ensures decisions { self.new.decisions.items ≡ self.old.decisions.items }
    {
        // What holds of every log is known by its type; this makes it known here.
        self.log.reveal();
        if self.log.problem().objective().is_none() {
            self.log.take(Step::Sol(assigned))?;
            return Ok(Some(end_solved(&mut self.log)?));
        }
        if !self.log.has_room() {
            return Ok(Some(end_stopped(&mut self.log, limit)?));
        }
        self.improve(assigned)?;
        Ok(None)
    }
}
