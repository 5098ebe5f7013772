//! The slack of a constraint under a trail.
//!
//! The slack is what the literals that are not false have more than the degree. Below 0 the constraint cannot be met any
//! more; a literal with more than the slack must be true, or else it could not be met. The code has numbers from 0 on, so
//! it compares the sum with the degree first, and has a slack only where it is not negative.

ghost use Rattle.std.specs.Prelude.{◌≡◌, ◌+◌, ◌<◌, ◌≤◌, MatchOption, length, take};
ghost use Rattle.normal_form.specs.Normal.{sum_over, variable_bound};
ghost use Rattle.propagate.specs.Slack.{IsFalsified, not_false};

use super::trail::Trail;
use normal_form::Normal;

/// What the term at a place adds to the sum of the literals that are not made false.
fn counted(constraint: &Normal, trail: &Trail, place: usize) -> u128
    requires place { place < length constraint.now.terms }
    requires variables { variable_bound constraint.now.terms ≤ trail.now.1 }
    ensures { sum_over (not_false trail.now.0) (take (place + 1) constraint.now.terms)
        ≡ sum_over (not_false trail.now.0) (take place constraint.now.terms) + result }
{
    let term = constraint.term(place);
    if trail.has(term.literal().opposite()) {
        0
    } else {
        term.coef
    }
}

/// The sum of the coefficients of the literals that are not made false.
fn open_sum(constraint: &Normal, trail: &Trail) -> u128
    requires { variable_bound constraint.now.terms ≤ trail.now.1 }
    ensures { result ≡ sum_over (not_false trail.now.0) constraint.now.terms }
{
    let mut sum: u128 = 0;
    for place in 0..constraint.len() {
        sum += counted(constraint, trail, place);
    }
    sum
}

/// The slack of a constraint whose variables the trail has, or `None` where it is negative.
pub(crate) fn slack(constraint: &Normal, trail: &Trail) -> Option<u128>
    requires { variable_bound constraint.now.terms ≤ trail.now.1 }
    ensures { MatchOption result (IsFalsified trail.now.0 constraint.now)
        (λ slack. sum_over (not_false trail.now.0) constraint.now.terms ≡ constraint.now.degree + slack) }
{
    open_sum(constraint, trail).checked_sub(constraint.degree())
}
