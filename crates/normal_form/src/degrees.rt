//! The degrees of the normal forms of a signed constraint.
//!
//! The degree is the right side, less the coefficients of all negated terms (`c ~x` is `c - c x`), and raised by
//! what the negated literals of the merged terms count; below 0 it is 0, since then the constraint holds everywhere.
//! The right side is any number of the code's type, so the sum may leave the type: it stops at the largest number,
//! which is above the limit too, and is refused there.

ghost use Rattle.std.specs.Prelude.{◌≡◌, ◌-◌, ◌^◌, ◌≤◌, min, map, pos, ◌+ℤ◌, ◌-ℤ◌, neg_ℤ, unsigned_abs, if◌then◌else◌};
ghost use Rattle.normal_form.specs.Normal.{largest_sum, total, sum_over};
ghost use Rattle.normal_form.specs.NormalOf.{size_sum, negated_sum, at_least_zero, sign_changed};

use super::term::NormalTerm;
use super::terms::Terms;
use linear::Term;

/// The coefficient of a negated term, 0 of another.
fn when_negated(term: Term) -> i128
    ensures { result ≡ if term.negated then term.coef else pos 0 }
{
    if term.negated { term.coef } else { 0 }
}

/// The sum of the coefficients of all negated terms.
fn negated_sum(terms: &[Term]) -> i128
    requires { size_sum terms.now ≤ largest_sum }
    ensures value { result ≡ negated_sum terms.now }
    ensures size { unsigned_abs result ≤ largest_sum }
{
    let mut sum: i128 = 0;
    for term in terms {
        sum += when_negated(*term);
    }
    sum
}

/// What a term's negated literal counts.
fn negated_coefficient(term: NormalTerm) -> u128
    ensures { result ≡ if term.negated then term.coef else 0 }
{
    if term.negated { term.coef } else { 0 }
}

/// What the coefficients of the negated literals add up to.
fn negated_total(terms: &Terms) -> i128
    requires { total terms.now ≤ largest_sum }
    ensures value { result ≡ pos (sum_over (λ _ negated. negated) terms.now) }
    ensures size { unsigned_abs result ≤ largest_sum }
{
    let mut sum: u128 = 0;
    for place in 0..terms.len() {
        sum += negated_coefficient(terms.get(place));
    }
    sum as i128
}

/// A number, or 0 where it is below.
pub(crate) fn at_least_zero(number: i128) -> u128
    ensures { result ≡ at_least_zero number }
{
    if number < 0 { 0 } else { number as u128 }
}

/// The degree of `terms >= right`, whose merged terms these are.
pub(crate) fn at_least_degree(right: i128, terms: &[Term], merged: &Terms) -> u128
    requires sizes { size_sum terms.now ≤ largest_sum }
    requires sum { total merged.now ≤ largest_sum }
    ensures { result ≡ min (at_least_zero ((right -ℤ negated_sum terms.now) +ℤ pos (sum_over (λ _ negated. negated) merged.now))) (2 ^ 127 - 1) }
{
    let lift = negated_total(merged) - negated_sum(terms);
    at_least_zero(right.saturating_add(lift))
}

/// The degree of the same with all signs changed, whose merged terms these are.
pub(crate) fn at_most_degree(right: i128, terms: &[Term], merged: &Terms) -> u128
    requires sizes { size_sum terms.now ≤ largest_sum }
    requires sum { total merged.now ≤ largest_sum }
    ensures { result ≡ min (at_least_zero ((neg_ℤ right -ℤ negated_sum (map sign_changed terms.now)) +ℤ pos (sum_over (λ _ negated. negated) merged.now))) (2 ^ 127 - 1) }
{
    let lift = negated_total(merged) + negated_sum(terms);
    at_least_zero(lift.saturating_sub(right))
}
