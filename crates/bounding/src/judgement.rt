//! What a sum says under the literals that stand.
//!
//! It has negative slack, and whatever makes these literals true breaks it; or the slack is below the coefficient of a literal that is
//! free, which it forces; or it says nothing.

ghost use Rattle.std.specs.Prelude.{◌≡◌, ◌+◌, ◌<◌, IsTrue, length, take};
ghost use Rattle.linear.specs.declared.term.Lit.{Lit};
ghost use Rattle.normal_form.specs.Normal.{sum_over};
ghost use Rattle.propagate.specs.Slack.{IsForced, not_false};
ghost use Rattle.propagate.specs.Walk.{CanForce};
ghost use Rattle.bounding.specs.Judging.{Says};

use super::standing::Standing;
use linear::Lit;
use normal_form::Normal;

/// What a constraint says.
#[derive(Clone, Copy, Debug, PartialEq, Eq)]
pub(crate) enum Judgement {
    /// Its slack is negative.
    False,
    /// It forces a literal.
    Forces,
    /// Nothing.
    Quiet,
}

/// What the term at a place adds to the sum of the literals that are not made false.
fn counted(constraint: &Normal, standing: &Standing<'_>, place: usize) -> u128
    requires { place < length constraint.now.terms }
    ensures { sum_over (not_false standing.now) (take (place + 1) constraint.now.terms)
        ≡ sum_over (not_false standing.now) (take place constraint.now.terms) + result }
{
    let term = constraint.term(place);
    if standing.has(term.literal().opposite()) {
        0
    } else {
        term.coef
    }
}

/// The sum of the coefficients of the literals that are not made false.
fn open_sum(constraint: &Normal, standing: &Standing<'_>) -> u128
    ensures { result ≡ sum_over (not_false standing.now) constraint.now.terms }
{
    let mut sum: u128 = 0;
    for place in 0..constraint.len() {
        sum += counted(constraint, standing, place);
    }
    sum
}

/// Whether a literal is free and has more than the slack.
fn is_forced(standing: &Standing<'_>, literal: Lit, coef: u128, slack: u128) -> bool
    ensures { IsTrue result → CanForce standing.now slack coef literal }
{
    coef > slack && !standing.has(literal) && !standing.has(literal.opposite())
}

/// Whether a constraint of this slack forces a literal.
fn forces(constraint: &Normal, standing: &Standing<'_>, slack: u128) -> bool
    requires { sum_over (not_false standing.now) constraint.now.terms ≡ constraint.now.degree + slack }
    ensures { IsTrue result → (l : Lit) × IsForced standing.now l constraint.now }
{
    for place in 0..constraint.len() {
        let term = constraint.term(place);
        if is_forced(standing, term.literal(), term.coef, slack) {
            return true;
        }
    }
    false
}

/// What a constraint says under the literals that stand.
pub(crate) fn judge(constraint: &Normal, standing: &Standing<'_>) -> Judgement
    ensures { Says standing.now constraint.now result }
{
    match open_sum(constraint, standing).checked_sub(constraint.degree()) {
        None => Judgement::False,
        Some(slack) => {
            if forces(constraint, standing, slack) {
                Judgement::Forces
            } else {
                Judgement::Quiet
            }
        }
    }
}
