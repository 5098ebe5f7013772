//! The variables that a pass over a sum has come by.
//!
//! A sum marks a variable once more where its terms had cancelled and others came, so a pass over its marks would count such a variable twice. The
//! table is kept from one pass to the next: a pass has a number, and a variable that was come by has that number.

use linear::Var;
use std::alloc::{AllocError, Global};

/// By variable, the number of the pass that came by it last.
#[derive(Debug, Drop)]
pub(crate) struct Seen {
    passes: Vec<u64>,
    pass: u64,
}

impl Seen {
    /// No variable, and no pass.
    pub(crate) fn new(alloc: Global) -> Self {
        Seen {
            passes: Vec::new(alloc),
            pass: 0,
        }
    }

    /// A new pass, that has come by no variable.
    pub(crate) fn begin(&mut self) {
        self.pass = self.pass.saturating_add(1);
    }

    /// Makes room for a variable.
    fn widen(&mut self, count: usize) -> Result<(), AllocError> {
        if self.passes.len() < count {
            self.passes.resize(count, 0)?;
        }
        Ok(())
    }

    /// Comes by a variable; whether that is the first time in this pass.
    pub(crate) fn is_first(&mut self, variable: Var) -> Result<bool, AllocError> {
        let place = variable.0 as usize;
        self.widen(place + 1)?;
        if place >= self.passes.len() || self.passes[place] == self.pass {
            return Ok(false);
        }
        self.passes[place] = self.pass;
        Ok(true)
    }
}
