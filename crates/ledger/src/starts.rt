//! Where the search for a literal that is to watch a clause goes on.
//!
//! The terms of a clause are gone through round about: from behind the literal at which the last search in it ended, which watches the clause
//! since, to the last one, and then from the first one on. So where its literals fall one after another each is passed once or twice, and not by each later search anew
//! (Gent, Optimal implementation of watched literals and more general techniques, 2013). Where literals are backtracked nothing is taken back.
//! That is a matter of time alone, so no clause speaks of it: wherever a search begins, it finds a literal where there is one.

use std::alloc::{AllocError, Global};

/// For the clause of each place the index at which the next search in it begins, counted from behind the two literals that watch it.
#[derive(Drop)]
pub(crate) struct Starts {
    indices: Vec<u32>,
}

impl Starts {
    /// No place.
    pub(crate) fn new(alloc: Global) -> Self {
        Starts {
            indices: Vec::new(alloc),
        }
    }

    /// Where a search in the clause of a place begins, counted from behind the two that watch it.
    pub(crate) fn get(&self, place: usize) -> usize {
        match self.indices.get(place) {
            Some(index) => *index as usize,
            None => 0,
        }
    }

    /// The next search in the clause of a place begins at an index, counted from behind the two that watch it.
    pub(crate) fn set(&mut self, place: usize, index: usize) {
        if place < self.indices.len() {
            self.indices[place] = u32::try_from(index).unwrap_or(0);
        }
    }

    /// Makes room for the places below a number.
    pub(crate) fn widen(&mut self, count: usize) -> Result<(), AllocError> {
        for _ in self.indices.len()..count {
            self.indices.push(0)?;
        }
        Ok(())
    }
}
