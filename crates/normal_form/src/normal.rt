//! Normal constraints. How the terms are kept is private: they are read one at a time, by value.
//!
//! The coefficient sum is kept beside the terms, since a contradiction is seen from it in one step, and since it
//! bounds every sum over some of the terms: what is below the limit needs no test on the way. The limit, 2^120, leaves
//! room in the code's numbers for the sum of two constraints and a sign.

ghost use Rattle.std.specs.Prelude.{◌≡◌, ◌<◌, ◌≤◌, ◌-◌, ◌^◌, ◌↔◌, min, IfOk, IsErrOf, OnErr, length, slice_index_or, []};
ghost use Rattle.linear.specs.Largest.{most_names};
ghost use Rattle.normal_form.specs.Normal.{IsNormal, Rises, Fits, total, variable_bound};

use super::fault::CutFault;
use super::term::NormalTerm;
use super::terms::Terms;
use std::alloc::{AllocError, Global};
use std::default::MadeWith;
use std::marker::Model;

/// The limit of coefficient sums and of degrees.
pub const LARGEST_SUM: u128 = 1 << 120;

/// A normal constraint: a degree, and terms with coefficients above 0 in strictly rising order of their
/// variables. Its coefficient sum and its degree are at most `2^120`.
#[derive(Debug, Drop)]
pub struct Normal {
    pub(crate) terms: Terms,
    pub(crate) coefficient_sum: u128,
    pub(crate) bound: u128,
}

impl Model for Normal {
    ghost use Rattle.std.specs.Prelude.{◌≡◌};
    ghost use Rattle.normal_form.specs.Normal.{NormalConstraint, IsNormal, total};

    ghost Value = { NormalConstraint };

    ghost view = { λ n. record { terms = n.terms; degree = n.bound } };

    ghost invariant = { λ n. IsNormal (record { terms = n.terms; degree = n.bound }) × (n.coefficient_sum ≡ total n.terms) };
}

impl Normal {
    /// The constraint of these terms with this degree, where it is within the limits.
    pub(crate) fn from_parts(
        terms: Terms,
        capped_sum: u128,
        degree: u128,
    ) -> Result<Normal, CutFault>
        requires rises { Rises 0 terms }
        requires sum { capped_sum ≡ min (total terms) (2 ^ 128 - 1) }
        ensures terms { IfOk result (λ n. n.terms ≡ terms) }
        ensures degree { IfOk result (λ n. n.degree ≡ degree) }
        ensures normal { IfOk result IsNormal }
        ensures too_large { IsErrOf result CutFault.TooLarge ↔ (Fits (record { terms = terms; degree = degree }) → ⊥) }
        ensures others { OnErr result (IsErrOf result CutFault.TooLarge) }
    {
        if capped_sum > LARGEST_SUM || degree > LARGEST_SUM {
            return Err(CutFault::TooLarge);
        }
        Ok(Normal::from_fitting(terms, capped_sum, degree))
    }

    /// The constraint of these terms with this degree, which are within the limits.
    pub(crate) fn from_fitting(terms: Terms, capped_sum: u128, degree: u128) -> Normal
        requires rises { Rises 0 terms }
        requires sum { capped_sum ≡ min (total terms) (2 ^ 128 - 1) }
        requires fits { Fits (record { terms = terms; degree = degree }) }
        ensures terms { result.terms ≡ terms }
        ensures degree { result.degree ≡ degree }
        ensures normal { IsNormal result }
    {
        Normal {
            terms,
            coefficient_sum: capped_sum,
            bound: degree,
        }
    }

    /// How many terms it has: as many as variables occur.
    pub fn len(&self) -> usize
        ensures value { result ≡ length self.now.terms }
        ensures normal { IsNormal self.now }
    {
        self.terms.len()
    }

    /// The term at a place, in rising order of variables.
    pub fn term(&self, place: usize) -> NormalTerm
        requires { place < length self.now.terms }
        ensures value { result ≡ slice_index_or self.now.terms place result }
    {
        self.terms.get(place)
    }

    /// The least number above all its variables: that of the last term is the greatest.
    pub fn variable_count(&self) -> usize
        ensures value { result ≡ variable_bound self.now.terms }
        ensures limit { result ≤ most_names }
    {
        let count = self.len();
        if count == 0 {
            return 0;
        }
        self.term(count - 1).var.0 as usize + 1
    }

    /// The terms, in rising order of variables.
    pub(crate) fn terms(&self) -> &Terms
        ensures value { result.now ≡ self.now.terms }
        ensures normal { IsNormal self.now }
    {
        &self.terms
    }

    /// The degree: what the true literals must add up to at least.
    pub fn degree(&self) -> u128
        ensures value { result ≡ self.now.degree }
        ensures normal { IsNormal self.now }
    {
        self.bound
    }

    /// The sum of all coefficients. It is kept, not added up at each call.
    pub fn sum(&self) -> u128
        ensures value { result ≡ total self.now.terms }
        ensures normal { IsNormal self.now }
    {
        self.coefficient_sum
    }

    /// Gives back memory that it does not use, unless it is little: for a constraint that is to be kept, of terms of which many have
    /// cancelled.
    pub fn trim(&mut self)
        ensures { self.new ≡ self.old }
    {
        self.terms.trim();
    }

    /// Another constraint that is the same.
    pub fn copy(&self, alloc: Global) -> Result<Normal, AllocError>
        ensures value { IfOk result (λ n. n ≡ self.now) }
    {
        Ok(Normal {
            terms: self.terms.copy(alloc)?,
            coefficient_sum: self.coefficient_sum,
            bound: self.bound,
        })
    }
}

impl MadeWith<Global> for Normal {
    ghost use Rattle.std.specs.Prelude.{◌≡◌, []};

    ghost is_made_with = { λ n. (n.terms ≡ []) × (n.degree ≡ 0) };

    /// The constraint without terms, of degree 0, which holds everywhere.
    fn made_with(alloc: Global) -> Normal {
        Normal {
            terms: Terms::new(alloc),
            coefficient_sum: 0,
            bound: 0,
        }
    }
}
