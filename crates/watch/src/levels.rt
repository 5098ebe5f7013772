//! The literals that were given last, and for each how high the trail stood before it, and how many constraints were there.
//!
//! An assignment that begins as the last one did goes on from where they part, so that a search that decides one literal
//! more pays for what that one forces. A constraint that was there, and forced nothing more, when a literal was given does so again
//! when it is taken back: only those that came since are to be looked at then.

ghost use Rattle.std.specs.Prelude.{◌≡◌, ◌<◌, ◌≤◌, ◌++◌, ◌∷◌, [], ℕ, OnErr, OnOk, length, slice_index_or, take};

use linear::Lit;
use std::alloc::{AllocError, Global};
use std::marker::Model;

/// Given literals with heights of the trail and counts of settled constraints.
#[derive(Drop)]
pub(crate) struct Levels {
    given: Vec<Lit>,
    heights: Vec<usize>,
    settled: Vec<usize>,
}

impl Model for Levels {
    ghost use Rattle.std.specs.Prelude.{◌≡◌, ℕ, List, length};
    ghost use Rattle.linear.specs.declared.term.Lit.{Lit};

    ghost Value = { List Lit × List ℕ × List ℕ };

    ghost view = { λ l. (l.given.items, l.heights.items, l.settled.items) };

    ghost invariant = { λ l. (length l.heights.items ≡ length l.given.items) × (length l.settled.items ≡ length l.given.items) };
}

impl Levels {
    /// No literal.
    pub(crate) fn new(alloc: Global) -> Self
        ensures { result ≡ ([], [], []) }
    {
        Levels {
            given: Vec::new(alloc),
            heights: Vec::new(alloc),
            settled: Vec::new(alloc),
        }
    }

    /// How many literals there are.
    pub(crate) fn count(&self) -> usize
        ensures { result ≡ length self.now.0 }
    {
        self.given.len()
    }

    /// Where the literal of a level begins.
    pub(crate) fn height(&self, level: usize) -> usize
        requires { level < length self.now.0 }
        ensures value { (end : ℕ) → result ≡ slice_index_or self.now.1 level end }
    {
        self.heights[level]
    }

    /// How many constraints were settled when a level began.
    pub(crate) fn settled(&self, level: usize) -> usize
        requires { level < length self.now.0 }
        ensures value { result ≡ slice_index_or self.now.2 level 0 }
    {
        self.settled[level]
    }

    /// How many literals at the beginning of an assignment are the first ones here.
    pub(crate) fn agreement(&self, given: &[Lit]) -> usize
        ensures few { result ≤ length self.now.0 }
        ensures same { take result self.now.0 ≡ take result given.now }
        ensures short { result ≤ length given.now }
    {
        let end = self.given.len().min(given.len());
        for index in 0..end {
            if self.given[index] != given[index] {
                return index;
            }
        }
        end
    }

    /// One literal more, which begins at a height, where so many constraints were settled.
    pub(crate) fn push(
        &mut self,
        literal: Lit,
        height: usize,
        settled: usize,
    ) -> Result<(), AllocError>
        ensures ok { OnOk result (self.new ≡ (self.old.0 ++ literal ∷ [], self.old.1 ++ height ∷ [], self.old.2 ++ settled ∷ [])) }
        ensures err { OnErr result (self.new ≡ self.old) }
    {
        self.given.reserve(1)?;
        self.heights.reserve(1)?;
        self.settled.reserve(1)?;
        self.given.push_reserved(literal);
        self.heights.push_reserved(height);
        self.settled.push_reserved(settled);
        Ok(())
    }

    /// The first literals alone.
    pub(crate) fn truncate(&mut self, count: usize)
        ensures { self.new ≡ (take count self.old.0, take count self.old.1, take count self.old.2) }
    {
        self.given.truncate(count);
        self.heights.truncate(count);
        self.settled.truncate(count);
    }
}
