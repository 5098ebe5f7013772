//! Sums of signed terms under an assignment, added up in the order of the terms. No partial sum can wrap, since the limits
//! bound every term and their number.

ghost use Rattle.std.specs.Prelude.{◌≡◌, ◌↔◌, ◌<◌, length, IsTrue};
ghost use Rattle.linear.specs.Limits.{IsSumWithin, IsConstraintWithin};
ghost use Rattle.linear.specs.Sum.{worth, sum_of, Meets};
ghost use Rattle.linear.specs.Valuation.{valuation_of};

use super::assignment::Assignment;
use super::constraint::Relation;
use super::constraints::LentConstraint;
use super::term::{Integer, Term};

/// What a term adds to a sum: its coefficient where its literal is true.
fn worth(assignment: &Assignment, term: Term) -> Integer
    requires { term.var.0 < length assignment.now }
    ensures { result ≡ worth (valuation_of assignment.now) term }
{
    if assignment.is_true(term.literal()) {
        term.coef
    } else {
        0
    }
}

/// The sum of the terms whose literals are true.
pub(crate) fn sum(assignment: &Assignment, terms: &[Term]) -> Integer
    requires { IsSumWithin (length assignment.now) terms.now }
    ensures { result ≡ sum_of (valuation_of assignment.now) terms.now }
{
    let mut sum = 0;
    for term in terms {
        sum += worth(assignment, *term);
    }
    sum
}

/// The sum of the terms of a constraint whose literals are true.
fn constraint_sum(assignment: &Assignment, constraint: &LentConstraint<'_>) -> Integer
    requires { IsSumWithin (length assignment.now) constraint.now.terms }
    ensures { result ≡ sum_of (valuation_of assignment.now) constraint.now.terms }
{
    let mut sum = 0;
    for place in 0..constraint.len() {
        sum += worth(assignment, constraint.term(place));
    }
    sum
}

/// Whether an assignment meets a constraint.
pub(crate) fn meets(assignment: &Assignment, constraint: &LentConstraint<'_>) -> bool
    requires { IsConstraintWithin (length assignment.now) constraint.now }
    ensures { IsTrue result ↔ Meets (valuation_of assignment.now) constraint.now }
{
    let sum = constraint_sum(assignment, constraint);
    match constraint.relation() {
        Relation::AtLeast => sum >= constraint.right(),
        Relation::Equal => sum == constraint.right(),
    }
}
