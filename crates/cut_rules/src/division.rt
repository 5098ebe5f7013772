//! Division by a number, rounded up: the rule that cuts off fractions (Chvátal and Gomory).
//!
//! The weighted sum of literals is a whole number at every assignment. With coefficients rounded up it is no less than
//! a fraction of the degree, and so at least that fraction rounded up. In normal form no coefficient is below 0, so
//! rounding each one up keeps the constraint true; the proof format writes it `d`. It makes no number greater, so a constraint that
//! nobody else has is divided where it stands.

ghost use Rattle.std.specs.Prelude.{◌≡◌, ◌↔◌, ◌<◌, pos, ◌<ℤ◌, unsigned_abs, IfOk, OnOk, OnErr, IsErrOf};
ghost use Rattle.std.specs.Int.{div_ceil};
ghost use Rattle.linear.specs.Valuation.{Valuation};
ghost use Rattle.normal_form.specs.Normal.{IsNormal, Holds};
ghost use Rattle.cut_rules.specs.Rules.{IsQuotient};
ghost use Rattle.cut_rules.specs.Steps.{changed, parts};

use super::changes::push_kept;
use normal_form::{CutFault, Normal, NormalBuilder};
use std::alloc::{AllocError, Global};

/// A number divided by another, above 0, and rounded up. Most numbers have 64 bits, and their division costs a tenth of one of 128.
pub fn divided_up(number: u128, divisor: u128) -> u128
    requires { 0 < divisor }
    ensures { result ≡ div_ceil number divisor }
{
    match (u64::try_from(number), u64::try_from(divisor)) {
        (Ok(number), Ok(divisor)) => u128::from(number.div_ceil(divisor)),
        _ => number.div_ceil(divisor),
    }
}

/// The terms, each coefficient divided by a divisor and rounded up.
fn divided(alloc: Global, constraint: &Normal, divisor: u128) -> Result<NormalBuilder, AllocError>
    requires { 0 < divisor }
    ensures { IfOk result (λ b. b ≡ changed (parts divisor) constraint.now.terms) }
{
    let mut terms = NormalBuilder::with_capacity(alloc, constraint.len())?;
    for place in 0..constraint.len() {
        let term = constraint.term(place);
        push_kept(&mut terms, term, divided_up(term.coef, divisor))?;
    }
    Ok(terms)
}

/// The quotient of a constraint.
fn quotient(alloc: Global, constraint: &Normal, divisor: u128) -> Result<Normal, AllocError>
    requires { 0 < divisor }
    ensures quotient { IfOk result (IsQuotient divisor constraint.now) }
    ensures normal { IfOk result IsNormal }
    ensures keeps { IfOk result (λ r. (a : Valuation) → Holds a constraint.now → Holds a r) }
{
    let terms = divided(alloc, constraint, divisor)?;
    let degree = divided_up(constraint.degree(), divisor);
    Ok(terms.finish_fitting(degree))
}

/// All coefficients and the degree divided by a divisor, each rounded up. `BadFactor` comes exactly for a divisor
/// below 1. The result is always within the limits.
pub fn divide(alloc: Global, constraint: &Normal, divisor: i128) -> Result<Normal, CutFault>
    ensures quotient { IfOk result (IsQuotient (unsigned_abs divisor) constraint.now) }
    ensures normal { IfOk result IsNormal }
    ensures keeps { IfOk result (λ r. (a : Valuation) → Holds a constraint.now → Holds a r) }
    ensures fits { IsErrOf result CutFault.TooLarge → ⊥ }
    ensures factor { divisor <ℤ pos 1 ↔ IsErrOf result CutFault.BadFactor }
{
    if divisor < 1 {
        return Err(CutFault::BadFactor);
    }
    Ok(quotient(alloc, constraint, divisor.unsigned_abs())?)
}

/// Divides each coefficient by a divisor where it stands, rounding up.
fn divide_terms(constraint: &mut Normal, divisor: u128)
    requires { 0 < divisor }
    ensures terms { constraint.new.terms ≡ changed (parts divisor) constraint.old.terms }
    ensures degree { constraint.new.degree ≡ constraint.old.degree }
    ensures normal { IsNormal constraint.old }
{
    for place in 0..constraint.len() {
        let coef = divided_up(constraint.term(place).coef, divisor);
        constraint.lower_coefficient(place, coef);
    }
}

/// The same where the constraint stands, which takes no memory. `BadFactor` is the only fault, and after it all is as before.
pub fn divide_in_place(constraint: &mut Normal, divisor: i128) -> Result<(), CutFault>
    ensures quotient { OnOk result (IsQuotient (unsigned_abs divisor) constraint.old constraint.new) }
    ensures keeps { OnOk result ((a : Valuation) → Holds a constraint.old → Holds a constraint.new) }
    ensures unchanged { OnErr result (constraint.new ≡ constraint.old) }
    ensures factor { divisor <ℤ pos 1 ↔ IsErrOf result CutFault.BadFactor }
    ensures others { OnErr result (IsErrOf result CutFault.BadFactor) }
{
    if divisor < 1 {
        return Err(CutFault::BadFactor);
    }
    let divisor = divisor.unsigned_abs();
    divide_terms(constraint, divisor);
    let degree = divided_up(constraint.degree(), divisor);
    constraint.lower_degree(degree);
    Ok(())
}
