//! What a run deletes from time to time: half of what it has learned (`learned`), and what is of no use any more (`outdone`).
//!
//! A constraint in which a literal of the trail is forced stays, whatever else is due.

use super::run::Run;
use propagate::Propagator;
use std::alloc::AllocError;

impl<'a, P: Propagator> Run<'a, P> {
    ghost use Rattle.std.specs.Prelude.{◌≡◌, OnOk};
    ghost use Rattle.proof_log.specs.Log.{GoesOn};

    /// Forgets half of what was learned, and what is outdone, where that is due.
    pub(crate) fn forget_if_due(&mut self) -> Result<(), AllocError>
        ensures goes_on { GoesOn self.old.log self.new.log }
        ensures next { OnOk result (self.new.log.state.next ≡ self.old.log.state.next) }
        ensures biting { OnOk result (self.new.log.biting ≡ self.old.log.biting) }
        ensures decisions { self.new.decisions.items ≡ self.old.decisions.items }
    {
        if !self.learned.put_off_if_due() {
            return Ok(());
        }
        let trail = self.standing.trail();
        let gone = self.learned.take_half(self.alloc, trail)?;
        self.log.forget(self.alloc, gone.as_slice())?;
        self.forget_outdone()
    }

    /// Deletes the constraints that are outdone by now where that is cheap, since nothing is decided, or where there are many: to take one out
    /// takes back what was given, with all that it forced.
    pub(crate) fn forget_outdone_if_due(&mut self) -> Result<(), AllocError>
        ensures goes_on { GoesOn self.old.log self.new.log }
        ensures next { OnOk result (self.new.log.state.next ≡ self.old.log.state.next) }
        ensures biting { OnOk result (self.new.log.biting ≡ self.old.log.biting) }
        ensures decisions { self.new.decisions.items ≡ self.old.decisions.items }
    {
        if !self.decisions.is_empty() && !self.outdone.are_many() {
            return Ok(());
        }
        self.forget_outdone()
    }

    /// Deletes the constraints that are outdone by now, but for those in which a literal of the trail is forced.
    pub(crate) fn forget_outdone(&mut self) -> Result<(), AllocError>
        ensures goes_on { GoesOn self.old.log self.new.log }
        ensures next { OnOk result (self.new.log.state.next ≡ self.old.log.state.next) }
        ensures biting { OnOk result (self.new.log.biting ≡ self.old.log.biting) }
        ensures decisions { self.new.decisions.items ≡ self.old.decisions.items }
    {
        let trail = self.standing.trail();
        let gone = self.outdone.take(self.alloc, trail)?;
        self.log.forget(self.alloc, gone.as_slice())
    }
}
