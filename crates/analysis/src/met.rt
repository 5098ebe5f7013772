//! What an analysis came by: for rules of choice and of forgetting, which live on it. Nothing rests on it, so it has no contract.

use super::size::Size;
use linear::Var;
use normal_form::Normal;
use propagate::Id;
use std::alloc::{AllocError, Global};

/// The constraints that were added up in the analysis of a conflict. It is kept from one analysis to the next for its memory.
#[derive(Drop)]
pub struct Met {
    /// The variables of the constraints as they were added, each as often as it stands in one. What is weakened out of a reason first is not
    /// among them: it had no part in the conflict, and of a wide reason it is nearly all.
    pub variables: Vec<Var>,
    /// The ids of the constraints, the conflict's first.
    pub ids: Vec<Id>,
    /// How large what was learned is; none where nothing was.
    pub learned: Option<Size>,
}

impl Met {
    /// Nothing.
    pub(crate) fn new(alloc: Global) -> Self {
        Met {
            variables: Vec::new(alloc),
            ids: Vec::new(alloc),
            learned: None,
        }
    }

    /// Nothing any more.
    pub fn clear(&mut self) {
        self.variables.clear();
        self.ids.clear();
        self.learned = None;
    }

    /// One constraint more, as it is added: that of an id, or what is left of it.
    pub(crate) fn note(&mut self, id: Id, constraint: &Normal) -> Result<(), AllocError> {
        self.ids.push(id)?;
        for place in 0..constraint.len() {
            self.variables.push(constraint.term(place).var)?;
        }
        Ok(())
    }

    /// Notes how large what was learned is. Where what an analysis came to was not taken, that is something else.
    pub fn note_learned(&mut self, size: Size) {
        self.learned = Some(size);
    }
}
