//! Constraints under a substitution.
//!
//! Two variables may have one image, or opposite ones, so terms may add up or cancel: the terms with images put in are
//! signed terms in any order, and their normal form is made as that of a written constraint. An image 1 takes its
//! coefficient off the right side, and an image 0 leaves nothing. No coefficient is made, only moved or taken away, so
//! neither sum nor degree grows, and running out of memory is the only fault.

ghost use Rattle.std.specs.Prelude.{◌≡◌, ◌+◌, ◌≤◌, ◌↔◌, ◌++◌, ◌+ℤ◌, IfOk, OnOk, map, unsigned_abs};
ghost use Rattle.linear.specs.Valuation.{Valuation};
ghost use Rattle.normal_form.specs.Normal.{Holds, IsNormal, largest_sum, total};
ghost use Rattle.normal_form.specs.NormalOf.{IsTooLarge};
ghost use Rattle.substitution.specs.Images.{after};
ghost use Rattle.substitution.specs.Under.{term_at, constant_at, terms_under, constant_under, signed_term, substituted, IsUnder};

use super::image::Image;
use super::substitution::Substitution;
use linear::{Integer, Relation, Seq, Signed, Term};
use normal_form::{Normal, normalize_fitting};
use std::alloc::{AllocError, Global};

/// Terms with images put in so far, and what is constant of them.
#[derive(Drop)]
pub(crate) struct Partial {
    pub(crate) terms: Vec<Term>,
    pub(crate) constant: Integer,
}

impl Partial {
    /// Puts in a coefficient at an image.
    pub(crate) fn put(&mut self, coef: Integer, image: Image) -> Result<(), AllocError>
        requires { unsigned_abs self.old.constant + unsigned_abs coef ≤ largest_sum }
        ensures terms { OnOk result (self.new.terms.items ≡ self.old.terms.items ++ term_at coef image) }
        ensures constant { OnOk result (self.new.constant ≡ self.old.constant +ℤ constant_at coef image) }
    {
        match image {
            Image::Lit(lit) => self.terms.push(Term::new(coef, lit))?,
            Image::Zero => {}
            Image::One => self.constant += coef,
        }
        Ok(())
    }
}

/// The terms of a constraint with images put in.
fn with_images(
    alloc: Global,
    constraint: &Normal,
    substitution: &Substitution,
) -> Result<Partial, AllocError>
    ensures terms { IfOk result (λ p. p.terms.items ≡ terms_under substitution.now (map signed_term constraint.now.terms)) }
    ensures constant { IfOk result (λ p. p.constant ≡ constant_under substitution.now (map signed_term constraint.now.terms)) }
{
    let mut partial = Partial {
        terms: Vec::with_capacity(alloc, constraint.len())?,
        constant: 0,
    };
    for place in 0..constraint.len() {
        let term = constraint.term(place);
        let image = substitution.image_of_literal(term.literal());
        partial.put(term.coef as i128, image)?;
    }
    Ok(partial)
}

/// The constraint with images put in, before it is brought into normal form.
fn substituted(
    alloc: Global,
    constraint: &Normal,
    substitution: &Substitution,
) -> Result<Signed, AllocError>
    ensures value { IfOk result (λ c. c ≡ substituted constraint.now substitution.now) }
    ensures fits { IfOk result (λ c. IsTooLarge c → ⊥) }
{
    let partial = with_images(alloc, constraint, substitution)?;
    Ok(Signed {
        terms: Seq::from_vec(partial.terms),
        relation: Relation::AtLeast,
        right: constraint.degree() as i128 - partial.constant,
    })
}

/// A constraint under a substitution: the normal form of its terms with the images put in, all at once. It holds
/// exactly where the constraint holds after the substitution, and its coefficient sum and degree are no larger,
/// so it is always within the limits.
pub fn apply(
    alloc: Global,
    constraint: &Normal,
    substitution: &Substitution,
) -> Result<Normal, AllocError>
    ensures under { IfOk result (IsUnder constraint.now substitution.now) }
    ensures normal { IfOk result IsNormal }
    ensures meaning { IfOk result (λ r. (a : Valuation) → Holds a r ↔ Holds (after a substitution.now) constraint.now) }
    ensures sum { IfOk result (λ r. total r.terms ≤ total constraint.now.terms) }
    ensures degree { IfOk result (λ r. r.degree ≤ constraint.now.degree) }
{
    let signed = substituted(alloc, constraint, substitution)?;
    let under = normalize_fitting(alloc, &signed)?;
    Ok(under)
}
