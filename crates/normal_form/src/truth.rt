//! Where a normal constraint holds. Nothing here takes memory.

ghost use Rattle.std.specs.Prelude.{◌≡◌, ◌+◌, ◌<◌, ◌≤◌, ◌↔◌, IsTrue, length, take};
ghost use Rattle.linear.specs.Valuation.{Valuation, valuation_of, literal_true};
ghost use Rattle.normal_form.specs.Normal.{Holds, total, sum_over, variable_bound};

use super::normal::Normal;
use linear::Assignment;

/// Whether a constraint holds at an assignment, which has a value for each variable that occurs.
pub fn holds(constraint: &Normal, assignment: &Assignment) -> bool
    requires { variable_bound constraint.now.terms ≤ length assignment.now }
    ensures { IsTrue result ↔ Holds (valuation_of assignment.now) constraint.now }
{
    let mut weight: u128 = 0;
    for place in 0..constraint.len() {
        weight += counted(constraint, assignment, place);
    }
    constraint.degree() <= weight
}

/// What the term at a place adds to the weight: its coefficient where its literal is true.
fn counted(constraint: &Normal, assignment: &Assignment, place: usize) -> u128
    requires place { place < length constraint.now.terms }
    requires values { variable_bound constraint.now.terms ≤ length assignment.now }
    ensures { sum_over (literal_true (valuation_of assignment.now)) (take (place + 1) constraint.now.terms)
        ≡ sum_over (literal_true (valuation_of assignment.now)) (take place constraint.now.terms) + result }
{
    let term = constraint.term(place);
    if assignment.is_true(term.literal()) {
        term.coef
    } else {
        0
    }
}

/// Whether the degree exceeds the coefficient sum, so that the constraint holds nowhere. It takes one step.
pub fn is_contradiction(constraint: &Normal) -> bool
    ensures above { IsTrue result ↔ total constraint.now.terms < constraint.now.degree }
    ensures none { IsTrue result → (a : Valuation) → Holds a constraint.now → ⊥ }
{
    constraint.sum() < constraint.degree()
}
