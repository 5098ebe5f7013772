//! The clause arena: the literals of clauses by place, all in one array.
//!
//! A list of its own would cost each clause a block of memory, and a look at a clause reads where its list begins, so that is said in eight bytes. Clauses come and go at the end alone, as a stack, so the literals of the last one
//! are the last of the array. Those of a clause that is taken out stay where they are until the places are made anew.

ghost use Rattle.std.specs.Prelude.{◌≡◌, ◌-◌, ◌<◌, ◌++◌, ◌∷◌, [], List, OnErr, OnOk, Some, length, slice_index_or, slice_set, take};
ghost use Rattle.linear.specs.declared.term.Lit.{Lit};
ghost use Rattle.ledger.specs.Watched.{AreLiteralsOf, IsPairOf, pair_of};

use super::narrow::narrow;
use super::pair::Pair;
use super::watched_first::append_literals;
use linear::Lit;
use normal_form::Normal;
use std::alloc::{AllocError, Global};
use std::marker::Model;

/// Where a list begins in the array, and how long it is.
#[derive(Clone, Copy, Debug)]
pub(crate) struct Span {
    start: u32,
    len: u32,
}

/// A list of literals for each place, empty where its clause is not watched.
#[derive(Drop)]
pub(crate) struct Arena {
    literals: Vec<Lit>,
    spans: Vec<Span>,
}

impl Model for Arena {
    ghost use Rattle.std.specs.Prelude.{List, length, map};
    ghost use Rattle.linear.specs.declared.term.Lit.{Lit};
    ghost use Rattle.ledger.specs.Spans.{AreSpans, piece};

    ghost Value = { List (List Lit) };

    ghost view = { λ l. map (piece l.literals.items) l.spans.items };

    ghost invariant = { λ l. AreSpans (length l.literals.items) l.spans.items };
}

impl Arena {
    /// No place.
    pub(crate) fn new(alloc: Global) -> Self
        ensures { result ≡ [] }
    {
        Arena {
            literals: Vec::new(alloc),
            spans: Vec::new(alloc),
        }
    }

    /// How many places there are.
    pub(crate) fn len(&self) -> usize
        ensures { result ≡ length self.now }
    {
        self.spans.len()
    }

    /// The list of a place, empty where there is no such place.
    pub(crate) fn row(&self, place: usize) -> &[Lit]
        ensures { result.now ≡ slice_index_or self.now place [] }
    {
        match self.spans.get(place) {
            Some(span) => {
                let behind = &self.literals[span.start as usize..];
                &behind[..span.len as usize]
            }
            None => &[],
        }
    }

    /// The literals of a clause at the next place, two of them before the others.
    pub(crate) fn push(&mut self, clause: &Normal, pair: Pair) -> Result<(), AllocError>
        requires { IsPairOf clause.now pair }
        ensures ok { OnOk result ((ls : List Lit) × (self.new ≡ self.old ++ ls ∷ []) × (pair_of ls ≡ Some pair) × AreLiteralsOf clause.now ls) }
        ensures err { OnErr result (self.new ≡ self.old) }
    {
        self.spans.reserve(1)?;
        let before = self.literals.len();
        let start = narrow(before)?;
        append_literals(&mut self.literals, clause, pair)?;
        let len = narrow(self.literals.len() - before)?;
        self.spans.push_reserved(Span { start, len });
        Ok(())
    }

    /// An empty list at the next place.
    pub(crate) fn push_none(&mut self) -> Result<(), AllocError>
        ensures ok { OnOk result (self.new ≡ self.old ++ [] ∷ []) }
        ensures err { OnErr result (self.new ≡ self.old) }
    {
        let start = narrow(self.literals.len())?;
        self.spans.push(Span { start, len: 0 })?;
        Ok(())
    }

    /// Takes the last place off, if there is one.
    pub(crate) fn pop(&mut self)
        ensures { self.new ≡ take (length self.old - 1) self.old }
    {
        if let Some(span) = self.spans.pop() {
            self.literals.truncate(span.start as usize);
        }
    }

    /// Makes the list of a place empty.
    pub(crate) fn clear(&mut self, place: usize)
        requires { place < length self.old }
        ensures { self.new ≡ slice_set self.old place [] }
    {
        self.spans[place].len = 0;
    }

    /// Puts a literal in the place of another one in a list.
    pub(crate) fn set(&mut self, place: usize, index: usize, literal: Lit)
        requires place { place < length self.old }
        requires index { index < length (slice_index_or self.old place []) }
        ensures { self.new ≡ slice_set self.old place (slice_set (slice_index_or self.old place []) index literal) }
    {
        let start = self.spans[place].start as usize;
        self.literals[start + index] = literal;
    }
}
