//! Signed terms, kept small where their coefficients are.
//!
//! A file may have millions of terms, and they are kept to the end: a solution is judged by the terms as they are written. Of most files
//! no coefficient reaches 2^29, and a term then takes eight bytes. A larger one stands in a list of its own, and its place there is kept
//! instead, so that a single large coefficient makes no other term larger.

ghost use Rattle.std.specs.Prelude.{◌≡◌, ◌+◌, ◌<◌, ◌≤◌, ◌^◌, ◌++◌, ◌∷◌, [], MatchOption, OnOk, OnErr, length, take, slice_index_or, unsigned_abs};
ghost use Rattle.linear.specs.Packed.{small_term, large_mark};

use super::term::{Term, Var};
use std::alloc::{AllocError, Global};
use std::marker::Model;

/// Sizes of coefficients below this one are packed.
const MANY: u128 = (1 << 30) - 1;

/// What a term that is not packed has in the place of its coefficient and its sign.
const LARGE: u32 = u32::MAX;

/// A term in eight bytes.
#[derive(Clone, Copy, Debug)]
struct PackedTerm {
    /// Four times the size of the coefficient, two more where it is below 0, and one more where the literal is negated; or `LARGE`.
    packed: u32,
    /// The variable, or the place among the large terms.
    number: u32,
}

impl PackedTerm {
    /// The packed form of a term, if its coefficient fits.
    #[inline(always)]
    fn of(term: Term) -> Option<PackedTerm>
        ensures { MatchOption result (2 ^ 30 ≤ unsigned_abs term.coef + 1) (λ p. (p.packed < large_mark) × (small_term p ≡ term)) }
    {
        let size = term.coef.unsigned_abs();
        if size >= MANY {
            return None;
        }
        let signs = u32::from(term.coef < 0) * 2 + u32::from(term.negated);
        Some(PackedTerm {
            packed: size as u32 * 4 + signs,
            number: term.var.0,
        })
    }

    /// The term that it stands for, where it is packed.
    #[inline(always)]
    fn small(self) -> Term
        ensures { result ≡ small_term self }
    {
        let size = i128::from(self.packed / 4);
        let coef = if (self.packed / 2) % 2 == 1 {
            -size
        } else {
            size
        };
        Term {
            coef,
            var: Var(self.number),
            negated: self.packed % 2 == 1,
        }
    }
}

/// A list of terms.
#[derive(Debug, Drop)]
pub(crate) struct PackedTerms {
    packed: Vec<PackedTerm>,
    large: Vec<Term>,
}

impl Model for PackedTerms {
    ghost use Rattle.std.specs.Prelude.{List, All, map};
    ghost use Rattle.linear.specs.declared.term.Term.{Term};
    ghost use Rattle.linear.specs.Packed.{term_of, StandsAmong};

    ghost Value = { List Term };

    ghost view = { λ t. map (term_of t.large.items) t.packed.items };

    ghost invariant = { λ t. All (StandsAmong t.large.items) t.packed.items };
}

impl PackedTerms {
    /// No terms.
    pub(crate) fn new(alloc: Global) -> Self
        ensures { result ≡ [] }
    {
        PackedTerms {
            packed: Vec::new(alloc),
            large: Vec::new(alloc),
        }
    }

    /// How many terms there are.
    pub(crate) fn len(&self) -> usize
        ensures { result ≡ length self.now }
    {
        self.packed.len()
    }

    /// The term at a place.
    #[inline(always)]
    pub(crate) fn get(&self, place: usize) -> Term
        requires { place < length self.now }
        ensures { result ≡ slice_index_or self.now place result }
    {
        let packed = self.packed[place];
        if packed.packed == LARGE {
            // Field by field: a copy of the whole would take with it what lies between fields, for small terms too.
            let term = self.large[packed.number as usize];
            Term {
                coef: term.coef,
                var: term.var,
                negated: term.negated,
            }
        } else {
            packed.small()
        }
    }

    /// Puts a term at the end. Where memory runs out the list stays as it was.
    #[inline(always)]
    pub(crate) fn push(&mut self, term: Term) -> Result<(), AllocError>
        ensures ok { OnOk result (self.new ≡ self.old ++ term ∷ []) }
        ensures err { OnErr result (self.new ≡ self.old) }
    {
        match PackedTerm::of(term) {
            Some(packed) => {
                self.packed.push(packed)?;
                Ok(())
            }
            None => self.push_large(term),
        }
    }

    /// Puts a term at the end that stands among the large ones. More of them than 32 bits can number count as too little memory.
    #[inline(never)]
    fn push_large(&mut self, term: Term) -> Result<(), AllocError>
        ensures ok { OnOk result (self.new ≡ self.old ++ term ∷ []) }
        ensures err { OnErr result (self.new ≡ self.old) }
    {
        let Ok(number) = u32::try_from(self.large.len()) else {
            return Err(AllocError);
        };
        self.packed.reserve(1)?;
        self.large.push(term)?;
        self.packed.push_reserved(PackedTerm {
            packed: LARGE,
            number,
        });
        Ok(())
    }

    /// Leaves the first so many terms, or all where there are no more.
    pub(crate) fn truncate(&mut self, len: usize)
        ensures { self.new ≡ take len self.old }
    {
        self.packed.truncate(len);
    }
}
