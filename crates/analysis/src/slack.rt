//! The slack of a constraint at a level of the trail.
//!
//! The code has numbers from 0 on, so it compares the sum of the literals that are not made false with the degree first, and has
//! a slack only where it is not negative.

ghost use Rattle.std.specs.Prelude.{◌≡◌, ◌+◌, ◌<◌, MatchOption, length, take};
ghost use Rattle.normal_form.specs.Normal.{sum_over};
ghost use Rattle.propagate.specs.Slack.{IsFalsified, not_false};
ghost use Rattle.analysis.specs.Biting.{literals_up_to};

use super::search_trail::SearchTrail;
use normal_form::Normal;

/// What the term at a place adds to the sum of the literals that are not made false.
fn counted(constraint: &Normal, trail: &SearchTrail, level: u32, place: usize) -> u128
    requires { place < length constraint.now.terms }
    ensures { sum_over (not_false (literals_up_to level trail.now.entries)) (take (place + 1) constraint.now.terms)
        ≡ sum_over (not_false (literals_up_to level trail.now.entries)) (take place constraint.now.terms) + result }
{
    let term = constraint.term(place);
    if trail.is_true_at(term.literal().opposite(), level) {
        0
    } else {
        term.coef
    }
}

/// The sum of the coefficients of the literals that are not made false.
fn open_sum(constraint: &Normal, trail: &SearchTrail, level: u32) -> u128
    ensures { result ≡ sum_over (not_false (literals_up_to level trail.now.entries)) constraint.now.terms }
{
    let mut sum: u128 = 0;
    for place in 0..constraint.len() {
        sum += counted(constraint, trail, level, place);
    }
    sum
}

/// The slack of a constraint under the literals up to a level, or `None` where it is negative.
pub(crate) fn slack(constraint: &Normal, trail: &SearchTrail, level: u32) -> Option<u128>
    ensures { MatchOption result (IsFalsified (literals_up_to level trail.now.entries) constraint.now)
        (λ slack. sum_over (not_false (literals_up_to level trail.now.entries)) constraint.now.terms ≡ constraint.now.degree + slack) }
{
    open_sum(constraint, trail, level).checked_sub(constraint.degree())
}
