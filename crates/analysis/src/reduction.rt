//! A reason made ready for the addition (Elffers and Nordström's division).
//!
//! The conflict has negative slack, and the reason forced the literal, so its slack was below the literal's coefficient. Its
//! other literals that were not false then, and whose coefficient that coefficient does not divide, are weakened away, which
//! leaves the slack as it was; and the rest is divided. The literal then has the coefficient 1, rounding has cost no slack, and the
//! slack, being below 1, is at most 0: so any multiple of it can be added to the conflict, whose slack stays negative.

ghost use Rattle.std.specs.Prelude.{◌≡◌, ◌≢◌, ◌+◌, ◌<◌, All, IfOk, length, take};
ghost use Rattle.normal_form.specs.Normal.{coefficient, only, sum_over};
ghost use Rattle.proof_rules.specs.Expression.{Given, IsPostfixOf};

use super::derivation::Derivation;
use super::search_trail::SearchTrail;
use super::stop::Stop;
use accumulate::Accumulator;
use linear::{Lit, Var};
use normal_form::{Normal, NormalTerm};
use std::alloc::{AllocError, Global};

/// Whether a term is one of a literal.
fn is_of(term: NormalTerm, literal: Lit) -> bool
    ensures { result ≡ only (literal.var.0) literal.negated (term.var.0) term.negated }
{
    term.var.0 == literal.var.0 && term.negated == literal.negated
}

/// What the term at a place adds to the coefficient of a literal.
fn counted(constraint: &Normal, literal: Lit, place: usize) -> u128
    requires { place < length constraint.now.terms }
    ensures { sum_over (only (literal.var.0) literal.negated) (take (place + 1) constraint.now.terms)
        ≡ sum_over (only (literal.var.0) literal.negated) (take place constraint.now.terms) + result }
{
    let term = constraint.term(place);
    if is_of(term, literal) { term.coef } else { 0 }
}

/// The coefficient of a literal.
pub(crate) fn coefficient_of(constraint: &Normal, literal: Lit) -> u128
    ensures { result ≡ coefficient constraint.now (literal.var.0) literal.negated }
{
    let mut coef: u128 = 0;
    for place in 0..constraint.len() {
        coef += counted(constraint, literal, place);
    }
    coef
}

/// The variables of a reason, but for that of the forced literal, that were not false when it was forced, and whose coefficients
/// the divisor does not divide.
fn uneven(
    alloc: Global,
    reason: &Normal,
    literal: Lit,
    divisor: u128,
    trail: &SearchTrail,
    place: usize,
) -> Result<Vec<Var>, AllocError>
    requires { 0 < divisor }
    ensures { IfOk result (λ vars. All (λ x. x.0 ≢ literal.var.0) vars.items) }
{
    let mut uneven = Vec::new(alloc);
    for index in 0..reason.len() {
        let term = reason.term(index);
        if term.var != literal.var
            && term.coef % divisor != 0
            && !trail.is_false_before(term.literal(), place)
        {
            uneven.push(term.var)?;
        }
    }
    Ok(uneven)
}

/// The reason of the literal at a place, with the coefficient 1 there and a slack of at most 0 before that place.
pub(crate) fn reduced(
    alloc: Global,
    reason: Derivation,
    literal: Lit,
    trail: &SearchTrail,
    place: usize,
    sum: &mut Accumulator,
) -> Result<Derivation, Stop>
    ensures derived { (given : Given) → IsPostfixOf given reason.items.items reason.constraint
        → IfOk result (λ d. IsPostfixOf given d.items.items d.constraint) }
    ensures one { IfOk result (λ d. coefficient d.constraint (literal.var.0) literal.negated ≡ 1) }
{
    let divisor = coefficient_of(&reason.constraint, literal);
    if divisor == 0 {
        return Err(Stop::NothingLearned);
    }
    if divisor == 1 {
        return Ok(reason);
    }
    let variables = uneven(alloc, &reason.constraint, literal, divisor, trail, place)?;
    let even = reason.without(alloc, sum, &variables)?;
    Ok(even.divided(divisor)?)
}
