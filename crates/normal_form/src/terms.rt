//! The terms of a normal constraint, kept small where their coefficients are.
//!
//! Coefficients may be up to 2^120, and of most files none reaches 2^31. A constraint is kept for as long as its id lives, so what is small
//! is less to fill, to read and to give back. The terms before the first coefficient of 2^31 or more take eight bytes each, that one and all
//! after it three times as much (`wide_term`). Nobody above sees which.

ghost use Rattle.std.specs.Prelude.{◌≡◌, ◌≤◌, ◌<◌, ◌^◌, ◌++◌, ◌∷◌, [], IfOk, MatchOption, OnOk, OnErr, length, slice_index_or};
ghost use Rattle.normal_form.specs.declared.term.NormalTerm.{NormalTerm};
ghost use Rattle.normal_form.specs.Terms.{unpacked, with_coefficient};

use super::term::NormalTerm;
use super::wide_term::WideTerm;
use linear::Var;
use std::alloc::{AllocError, Global};
use std::marker::Model;

/// Coefficients below this one are packed.
const LARGE: u128 = 1 << 31;

/// A term whose coefficient is small, beside which the sign of its literal stands.
#[derive(Clone, Copy, Debug)]
struct PackedTerm {
    /// Twice the coefficient, and one more where the literal is negated.
    packed: u32,
    var: Var,
}

impl PackedTerm {
    /// The term that it stands for.
    #[inline(always)]
    fn unpacked(self) -> NormalTerm
        ensures { result ≡ unpacked self }
    {
        NormalTerm {
            coef: u128::from(self.packed / 2),
            var: self.var,
            negated: self.packed % 2 == 1,
        }
    }

    /// The same with a coefficient that is no greater.
    fn lowered(self, coef: u128) -> PackedTerm
        requires { coef ≤ (unpacked self).coef }
        ensures { unpacked result ≡ record { coef = coef; var = self.var; negated = (unpacked self).negated } }
    {
        PackedTerm {
            packed: coef as u32 * 2 + self.packed % 2,
            var: self.var,
        }
    }
}

/// The packed form of a term, if its coefficient fits.
#[inline(always)]
fn packed(term: NormalTerm) -> Option<PackedTerm>
    ensures { MatchOption result (2 ^ 31 ≤ term.coef) (λ packed. unpacked packed ≡ term) }
{
    if term.coef >= LARGE {
        return None;
    }
    Some(PackedTerm {
        packed: term.coef as u32 * 2 + u32::from(term.negated),
        var: term.var,
    })
}

/// A list of terms: packed ones, and after them the rest from the first large one on.
#[derive(Debug, Drop)]
pub(crate) struct Terms {
    packed: Vec<PackedTerm>,
    rest: Vec<WideTerm>,
}

impl Model for Terms {
    ghost use Rattle.std.specs.Prelude.{List, map, ◌++◌};
    ghost use Rattle.normal_form.specs.declared.term.NormalTerm.{NormalTerm};
    ghost use Rattle.normal_form.specs.Terms.{unpacked, widened};

    ghost Value = { List NormalTerm };

    ghost view = { λ t. map unpacked t.packed.items ++ map widened t.rest.items };
}

impl Terms {
    /// No terms.
    pub(crate) fn new(alloc: Global) -> Self
        ensures { result ≡ [] }
    {
        Terms {
            packed: Vec::new(alloc),
            rest: Vec::new(alloc),
        }
    }

    /// No terms, and room for so many small ones.
    pub(crate) fn with_capacity(alloc: Global, count: usize) -> Result<Self, AllocError>
        ensures { IfOk result (λ terms. terms ≡ []) }
    {
        Ok(Terms {
            packed: Vec::with_capacity(alloc, count)?,
            rest: Vec::new(alloc),
        })
    }

    /// How many terms there are.
    pub(crate) fn len(&self) -> usize
        ensures { result ≡ length self.now }
    {
        self.packed.len() + self.rest.len()
    }

    /// The term at a place.
    #[inline(always)]
    pub(crate) fn get(&self, place: usize) -> NormalTerm
        requires { place < length self.now }
        ensures { result ≡ slice_index_or self.now place result }
    {
        let packed = self.packed.len();
        if place < packed {
            self.packed[place].unpacked()
        } else {
            self.rest[place - packed].widened()
        }
    }

    /// Puts a term at the end. Where memory runs out the list stays as it was.
    #[inline(always)]
    pub(crate) fn push(&mut self, term: NormalTerm) -> Result<(), AllocError>
        ensures ok { OnOk result (self.new ≡ self.old ++ term ∷ []) }
        ensures err { OnErr result (self.new ≡ self.old) }
    {
        if self.rest.is_empty() {
            if let Some(packed) = packed(term) {
                self.packed.push(packed)?;
                return Ok(());
            }
        }
        self.rest.push(WideTerm::of(term))?;
        Ok(())
    }

    /// Gives the term at a place a coefficient that is no greater than it has, where it stands.
    pub(crate) fn lower(&mut self, place: usize, coef: u128)
        requires place { place < length self.old }
        requires no_greater { (d : NormalTerm) → coef ≤ (slice_index_or self.old place d).coef }
        ensures { self.new ≡ with_coefficient self.old place coef }
    {
        let packed = self.packed.len();
        if place < packed {
            self.packed[place] = self.packed[place].lowered(coef);
        } else {
            let term = self.rest[place - packed].widened();
            self.rest[place - packed] = WideTerm::of(NormalTerm {
                coef,
                var: term.var,
                negated: term.negated,
            });
        }
    }

    /// Takes all terms away. The memory stays.
    pub(crate) fn clear(&mut self)
        ensures { self.new ≡ [] }
    {
        self.packed.clear();
        self.rest.clear();
    }

    /// Gives back room that the packed terms do not use, unless it is little.
    pub(crate) fn trim(&mut self)
        ensures { self.new ≡ self.old }
    {
        let unused = self.packed.capacity().saturating_sub(self.packed.len());
        if unused > self.packed.len() / 4 {
            self.packed.shrink_to_fit();
        }
    }

    /// Another list of the same terms.
    pub(crate) fn copy(&self, alloc: Global) -> Result<Terms, AllocError>
        ensures { IfOk result (λ terms. terms ≡ self.now) }
    {
        Ok(Terms {
            packed: Vec::from_slice(alloc, self.packed.as_slice())?,
            rest: Vec::from_slice(alloc, self.rest.as_slice())?,
        })
    }
}
