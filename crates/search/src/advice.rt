//! What a search does with a line of its advisers.
//!
//! The line is logged, so its constraint is live, and what it forces is forced from the next turn on. Where it has negative slack under
//! what stands, the search goes back to where it says something first, as behind an analysis. If it forces a literal there it
//! has taught what a conflict teaches. If it has negative slack there, an analysis begins with it, and what that comes to says more: then
//! it goes, with others like it, for sums of many constraints make each later propagation dearer. A cut is kept for the relaxation alone, as long as it is tight
//! there.

ghost use Rattle.std.specs.Prelude.{◌≡◌};

use super::advisers::{Effect, Line};
use super::cutting::variables_of;
use super::run::Run;
use analysis::{Bite, Size, bite_on};
use linear::Var;
use propagate::{Id, Propagator};
use std::alloc::{AllocError, Global};

/// A constraint that forces a literal where an adviser came to it is kept as if its literals were of so many levels.
const LEVELS_OF_FORCING: u32 = 2;

/// What is to be known of an advised constraint.
#[derive(Drop)]
struct Advised {
    id: Id,
    variables: Vec<Var>,
    /// Where it says something first, if it does at all.
    bite: Option<Bite>,
}

impl<'a, P: Propagator> Run<'a, P> {
    ghost use Rattle.std.specs.Prelude.{◌≡◌, OnOk};
    ghost use Rattle.proof_rules.specs.State.{HasRoom};
    ghost use Rattle.search.specs.Advised.{IsDerived};
    ghost use Rattle.proof_log.specs.Log.{GoesOn};
    ghost use Rattle.search.specs.Decisions.{AreDecisions};
    ghost use Rattle.search.specs.Solving.{TakesId};

    /// What is to be known of the constraint that was logged last.
    fn last_advised(&self) -> Result<Option<Advised>, AllocError> {
        let Ok(id) = Id::try_from(self.log.kernel().last_id()) else {
            return Ok(None);
        };
        let Some(constraint) = self.log.kernel().constraint(id) else {
            return Ok(None);
        };
        Ok(Some(Advised {
            id,
            variables: variables_of(self.alloc, constraint)?,
            bite: bite_on(self.alloc, constraint, self.standing.trail())?,
        }))
    }

    /// Logs a line, and goes on from what it says.
    pub(crate) fn take_advice(&mut self, line: Line) -> Result<(), AllocError>
        requires decisions { AreDecisions self.old.log self.old.decisions.items }
        requires derived { IsDerived self.old.log line }
        requires room { HasRoom self.old.log.state }
        ensures goes_on { GoesOn self.old.log self.new.log }
        ensures id { OnOk result (TakesId self.old.log.state self.new.log.state) }
        ensures biting { OnOk result (self.new.log.biting ≡ self.old.log.biting) }
        ensures decisions { OnOk result (AreDecisions self.new.log self.new.decisions.items) }
    {
        let Line { step, effect } = line;
        self.log.take(step)?;
        let Some(advised) = self.last_advised()? else {
            return Ok(());
        };
        self.follow(&advised, effect)?;
        Ok(())
    }

    /// Goes on from what an advised constraint says.
    fn follow(&mut self, advised: &Advised, effect: Effect) -> Result<(), AllocError>
        requires { AreDecisions self.old.log self.old.decisions.items }
        ensures goes_on { GoesOn self.old.log self.new.log }
        ensures next { OnOk result (self.new.log.state.next ≡ self.old.log.state.next) }
        ensures biting { OnOk result (self.new.log.biting ≡ self.old.log.biting) }
        ensures decisions { OnOk result (AreDecisions self.new.log self.new.decisions.items) }
    {
        match effect {
            Effect::Forcing => self.keep(advised, LEVELS_OF_FORCING),
            Effect::Conflict => self.take_conflict(advised),
            Effect::Cut => self.take_cut(),
        }
    }

    /// A cut becomes a row of the relaxation, as long as it is tight; it is not among what was learned. Those that are no rows any more are
    /// deleted.
    fn take_cut(&mut self) -> Result<(), AllocError>
        ensures goes_on { GoesOn self.old.log self.new.log }
        ensures next { OnOk result (self.new.log.state.next ≡ self.old.log.state.next) }
        ensures biting { OnOk result (self.new.log.biting ≡ self.old.log.biting) }
        ensures decisions { self.new.decisions.items ≡ self.old.decisions.items }
    {
        let dropped = self.advisers.take_cut(self.alloc, &self.log)?;
        self.outdone.push_all(dropped.as_slice())?;
        self.forget_outdone()
    }

    /// Keeps an advised constraint among what was learned, until it is forgotten.
    fn keep(&mut self, advised: &Advised, levels: u32) -> Result<(), AllocError>
        ensures log { self.new.log ≡ self.old.log }
        ensures decisions { self.new.decisions.items ≡ self.old.decisions.items }
    {
        let number = u64::from(advised.id);
        let literals = advised.variables.len();
        self.learned.push(number, Size { literals, levels })
    }

    /// Goes back to where an advised constraint with negative slack says something first.
    fn take_conflict(&mut self, advised: &Advised) -> Result<(), AllocError>
        requires { AreDecisions self.old.log self.old.decisions.items }
        ensures goes_on { GoesOn self.old.log self.new.log }
        ensures next { OnOk result (self.new.log.state.next ≡ self.old.log.state.next) }
        ensures biting { OnOk result (self.new.log.biting ≡ self.old.log.biting) }
        ensures decisions { OnOk result (AreDecisions self.new.log self.new.decisions.items) }
    {
        self.advisers.brancher.met(advised.variables.as_slice());
        let Some(bite) = advised.bite else {
            return self.keep(advised, LEVELS_OF_FORCING);
        };
        self.decisions.truncate(bite.level as usize);
        if bite.is_falsified {
            self.passing = Some(advised.id);
            return Ok(());
        }
        self.advisers
            .brancher
            .conflict(advised.variables.as_slice());
        self.keep(advised, bite.levels)?;
        // An adviser came to it, and no analysis.
        self.count_conflict(0)
    }

    /// The advised constraint that waited for an analysis, if there is one, is of no use any more.
    pub(crate) fn drop_passing(&mut self) -> Result<(), AllocError>
        ensures log { self.new.log ≡ self.old.log }
        ensures decisions { self.new.decisions.items ≡ self.old.decisions.items }
    {
        self.outdone.push_any(self.passing)?;
        self.passing = None;
        Ok(())
    }
}
