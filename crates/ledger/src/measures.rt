//! The open sum and the largest coefficient of a constraint: a counter and its limit begin with them, and the sum stands in for the
//! counter of a clause, which has none.

ghost use Rattle.std.specs.Prelude.{◌≡◌, ◌+◌, ◌≤◌, ◌<◌, length, take};
ghost use Rattle.linear.specs.declared.term.Lit.{Lit};
ghost use Rattle.normal_form.specs.Normal.{largest_sum, sum_over, variable_bound};
ghost use Rattle.propagate.specs.Literals.{coefficient_of};
ghost use Rattle.propagate.specs.Slack.{not_false};
ghost use Rattle.ledger.specs.Ledgers.{open_sum};

use normal_form::Normal;
use trail::Assignment;

/// What the term at a place adds to the sum of the literals that are not made false.
fn counted(constraint: &Normal, trail: &Assignment, place: usize) -> u128
    requires place { place < length constraint.now.terms }
    requires variables { variable_bound constraint.now.terms ≤ trail.now.1 }
    ensures { sum_over (not_false trail.now.0) (take (place + 1) constraint.now.terms)
        ≡ sum_over (not_false trail.now.0) (take place constraint.now.terms) + result }
{
    let term = constraint.term(place);
    if trail.has_propagated(term.literal().opposite()) {
        0
    } else {
        term.coef
    }
}

/// What the literals that are not made false add up to.
pub(crate) fn open_sum(constraint: &Normal, trail: &Assignment) -> u128
    requires { variable_bound constraint.now.terms ≤ trail.now.1 }
    ensures { result ≡ open_sum trail.now.0 constraint.now }
{
    let mut sum: u128 = 0;
    for place in 0..constraint.len() {
        sum += counted(constraint, trail, place);
    }
    sum
}

/// The largest coefficient, 0 where there are no terms.
pub(crate) fn largest(constraint: &Normal) -> u128
    ensures each { (l : Lit) → coefficient_of constraint.now l ≤ result }
    ensures limit { result ≤ largest_sum }
{
    let mut largest: u128 = 0;
    for place in 0..constraint.len() {
        largest = largest.max(constraint.term(place).coef);
    }
    largest
}
