//! Multiplication by a number, by which two constraints are brought to coefficients that cancel when they are added.
//!
//! Whether the result is within the limits is asked of the sum and the degree before any coefficient is multiplied:
//! then no product can leave its type.

ghost use Rattle.std.specs.Prelude.{◌≡◌, ◌↔◌, ◌*◌, ◌≤◌, pos, ◌<ℤ◌, unsigned_abs, IfOk, OnOk, IsErrOf, IsTrue};
ghost use Rattle.linear.specs.Valuation.{Valuation};
ghost use Rattle.normal_form.specs.Normal.{NormalConstraint, IsNormal, Fits, Holds, total, largest_sum};
ghost use Rattle.cut_rules.specs.Rules.{IsMultiple, IsTooLarge};
ghost use Rattle.cut_rules.specs.Steps.{changed, times};

use super::changes::push_kept;
use normal_form::{CutFault, LARGEST_SUM, Normal, NormalBuilder};
use std::alloc::{AllocError, Global};

/// Whether a product is within the limit of coefficient sums and of degrees, `2^120`.
pub fn product_fits(factor: u128, number: u128) -> bool
    ensures { IsTrue result ↔ factor * number ≤ largest_sum }
{
    match factor.checked_mul(number) {
        Some(product) => product <= LARGEST_SUM,
        None => false,
    }
}

/// Whether a multiple of a constraint is within the limits.
fn multiple_fits(constraint: &Normal, factor: u128) -> bool
    ensures fits { IsTrue result ↔ (factor * total constraint.now.terms ≤ largest_sum) × (factor * constraint.now.degree ≤ largest_sum) }
    ensures normal { IsNormal constraint.now }
{
    product_fits(factor, constraint.sum()) && product_fits(factor, constraint.degree())
}

/// The terms, each coefficient times a factor.
fn scaled(alloc: Global, constraint: &Normal, factor: u128) -> Result<NormalBuilder, AllocError>
    requires { factor * total constraint.now.terms ≤ largest_sum }
    ensures { IfOk result (λ b. b ≡ changed (times factor) constraint.now.terms) }
{
    let mut terms = NormalBuilder::with_capacity(alloc, constraint.len())?;
    for place in 0..constraint.len() {
        let term = constraint.term(place);
        push_kept(&mut terms, term, factor * term.coef)?;
    }
    Ok(terms)
}

/// A multiple of a constraint.
fn multiple(alloc: Global, constraint: &Normal, factor: u128) -> Result<Normal, CutFault>
    ensures multiple { IfOk result (IsMultiple factor constraint.now) }
    ensures normal { IfOk result IsNormal }
    ensures keeps { IfOk result (λ r. (a : Valuation) → Holds a constraint.now → Holds a r) }
    ensures too_large { IsErrOf result CutFault.TooLarge → (r : NormalConstraint) × IsTooLarge (IsMultiple factor constraint.now) r }
    ensures within { OnOk result ((r : NormalConstraint) → IsMultiple factor constraint.now r → Fits r) }
    ensures factor { IsErrOf result CutFault.BadFactor → ⊥ }
{
    if !multiple_fits(constraint, factor) {
        return Err(CutFault::TooLarge);
    }
    let terms = scaled(alloc, constraint, factor)?;
    terms.finish(factor * constraint.degree())
}

/// All coefficients and the degree times a factor. `BadFactor` comes exactly for a factor below 1, and else
/// `TooLarge` exactly where the coefficient sum or the degree of the result is above `2^120`.
pub fn multiply(alloc: Global, constraint: &Normal, factor: i128) -> Result<Normal, CutFault>
    ensures multiple { IfOk result (IsMultiple (unsigned_abs factor) constraint.now) }
    ensures normal { IfOk result IsNormal }
    ensures keeps { IfOk result (λ r. (a : Valuation) → Holds a constraint.now → Holds a r) }
    ensures too_large { IsErrOf result CutFault.TooLarge → (r : NormalConstraint) × IsTooLarge (IsMultiple (unsigned_abs factor) constraint.now) r }
    ensures within { OnOk result ((r : NormalConstraint) → IsMultiple (unsigned_abs factor) constraint.now r → Fits r) }
    ensures factor { factor <ℤ pos 1 ↔ IsErrOf result CutFault.BadFactor }
{
    if factor < 1 {
        return Err(CutFault::BadFactor);
    }
    multiple(alloc, constraint, factor.unsigned_abs())
}
