//! The constraints that are of no use any more: those that asked for a better solution, once one is there, cuts that the relaxation
//! has dropped, and advised constraints that an analysis has begun with.
//!
//! The constraint of the last improving solution asks for more than all before it, a cut is there for the relaxation alone, and what the
//! analysis came to says more than what it began with: so these only make propagation dearer. They go some at a time, each once no literal of
//! the trail is forced in it.

use super::learned::reasons_of;
use analysis::SearchTrail;
use propagate::Id;
use std::alloc::{AllocError, Global};

/// So many are many.
const MANY: usize = 60;

/// Those that are live still, by rising id.
#[derive(Drop)]
pub(crate) struct Outdone {
    ids: Vec<Id>,
}

impl Outdone {
    ghost use Rattle.std.specs.Prelude.{All, IfOk};
    ghost use Rattle.search.specs.Undoing.{IsNoReason};

    /// None yet.
    pub(crate) fn new(alloc: Global) -> Self {
        Outdone {
            ids: Vec::new(alloc),
        }
    }

    /// One more.
    pub(crate) fn push(&mut self, id: Id) -> Result<(), AllocError> {
        self.ids.push(id)?;
        Ok(())
    }

    /// One more, if there is one.
    pub(crate) fn push_any(&mut self, id: Option<Id>) -> Result<(), AllocError> {
        if let Some(id) = id {
            self.push(id)?;
        }
        Ok(())
    }

    /// Some more.
    pub(crate) fn push_all(&mut self, ids: &[Id]) -> Result<(), AllocError> {
        for id in ids {
            self.push(*id)?;
        }
        Ok(())
    }

    /// Whether there are many.
    pub(crate) fn are_many(&self) -> bool {
        self.ids.len() >= MANY
    }

    /// Takes out those in which no literal of a trail is forced.
    pub(crate) fn take(&mut self, alloc: Global, trail: &SearchTrail) -> Result<Vec<Id>, AllocError>
        ensures { IfOk result (λ gone. All (IsNoReason trail.now.entries) gone.items) }
    {
        let reasons = reasons_of(alloc, trail)?;
        let mut gone = Vec::new(alloc);
        let mut kept = Vec::new(alloc);
        for id in &self.ids {
            if reasons.contains(*id) {
                kept.push(*id)?;
            } else {
                gone.push(*id)?;
            }
        }
        self.ids = kept;
        Ok(gone)
    }
}
