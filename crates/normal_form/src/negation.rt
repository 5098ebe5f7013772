//! The negation of a normal constraint.
//!
//! "Less than A of the coefficients are true" is "more than T - A of them are false", T the coefficient sum: the
//! opposite literals with the same coefficients, at least T - A + 1 of them. The negation is what a constraint that
//! a proof claims by unit propagation is refuted with (RUP of the VeriPB format).

ghost use Rattle.std.specs.Prelude.{◌≡◌, ◌↔◌, ◌<◌, IfOk, IsErrOf, OnOk};
ghost use Rattle.linear.specs.Valuation.{Valuation};
ghost use Rattle.normal_form.specs.Normal.{IsNormal, Holds, total, largest_sum};
ghost use Rattle.normal_form.specs.Negation.{IsNegation};

use super::fault::CutFault;
use super::normal::Normal;
use super::opposites::flip;
use std::alloc::{AllocError, Global};

/// The constraint that holds exactly where this one does not: the opposite literals with the same
/// coefficients, and degree `T - A + 1`, or 0 where that is below 0 (T the coefficient sum, A the degree).
/// `TooLarge` comes exactly for degree 0 with sum `2^120`, whose negation has degree `2^120 + 1`.
pub fn negate(alloc: Global, constraint: &Normal) -> Result<Normal, CutFault>
    ensures form { IfOk result (IsNegation constraint.now) }
    ensures normal { IfOk result IsNormal }
    ensures meaning { IfOk result (λ n. (a : Valuation) → Holds a n ↔ (Holds a constraint.now → ⊥)) }
    ensures too_large { IsErrOf result CutFault.TooLarge → (constraint.now.degree ≡ 0) × (total constraint.now.terms ≡ largest_sum) }
    ensures within { OnOk result ((constraint.now.degree ≡ 0) × (total constraint.now.terms ≡ largest_sum) → ⊥) }
    ensures factor { IsErrOf result CutFault.BadFactor → ⊥ }
{
    let opposite = flip(alloc, constraint.terms())?;
    opposite.finish((constraint.sum() + 1).saturating_sub(constraint.degree()))
}

/// The same of a constraint of a degree above 0, whose negation is always within the limits.
pub fn negate_above_zero(alloc: Global, constraint: &Normal) -> Result<Normal, AllocError>
    requires { 0 < constraint.now.degree }
    ensures form { IfOk result (IsNegation constraint.now) }
    ensures normal { IfOk result IsNormal }
    ensures meaning { IfOk result (λ n. (a : Valuation) → Holds a n ↔ (Holds a constraint.now → ⊥)) }
{
    match negate(alloc, constraint) {
        Ok(negation) => Ok(negation),
        Err(_) => Err(AllocError),
    }
}
