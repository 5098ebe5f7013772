//! What one constraint forces, from its largest coefficient on.
//!
//! The first terms are passed over where they are known not to be free, so that what a look costs is what it forces, and not how wide the
//! constraint is.

ghost use Rattle.std.specs.Prelude.{◌≡◌, ◌+◌, ◌<◌, ◌≤◌, length, vec_capacity};
ghost use Rattle.normal_form.specs.Normal.{variable_bound};
ghost use Rattle.propagate.specs.Walk.{CanForce, IsQuiet};
ghost use Rattle.propagate.specs.Passes.{literal_of};
ghost use Rattle.propagate.specs.Slack.{IsForced};
ghost use Rattle.ledger.specs.Forcing.{IsForcedOn};
ghost use Rattle.ledger.specs.Ledgers.{open_sum};
ghost use Rattle.ledger.specs.Orders.{ArePassed, IsDecreasing};
ghost use Rattle.propagate.specs.Trails.{IsFree};
ghost use Rattle.trail.specs.Trails.{on_trail};

use super::order::place_in;
use normal_form::{Normal, NormalTerm};
use trail::Assignment;

/// Assigns the literal of a term of the constraint at a place, whose coefficient is above the slack, where it is free.
fn force_term(
    constraint: &Normal,
    term: NormalTerm,
    slack: u128,
    place: usize,
    trail: &mut Assignment,
    reasons: &mut Vec<Option<usize>>,
)
    requires above { slack < term.coef }
    requires variable { term.var.0 < trail.old.1 }
    requires forces { CanForce (on_trail trail.old) slack term.coef (literal_of term) → IsForced (on_trail trail.old) (literal_of term) constraint.now }
    requires room { trail.old.1 ≤ vec_capacity reasons.old }
    requires as_many { length reasons.old.items ≡ length (on_trail trail.old) }
    ensures propagated { trail.new.0 ≡ trail.old.0 }
    ensures count { trail.new.1 ≡ trail.old.1 }
    ensures capacity { vec_capacity reasons.new ≡ vec_capacity reasons.old }
    ensures forced { IsForcedOn constraint.now place (on_trail trail.old) reasons.old.items (on_trail trail.new) reasons.new.items }
    ensures done { IsFree (on_trail trail.new) (literal_of term) → ⊥ }
{
    let literal = term.literal();
    if !trail.leaves_free(literal) {
        return;
    }
    trail.push(literal);
    reasons.push_reserved(Some(place));
}

/// Assigns all that the constraint at a place forces, where its slack is this: in the order of its terms, from the first that is not passed
/// as far as to the first coefficient that is not above the slack. How many terms are passed then is returned.
pub(crate) fn force_terms(
    constraint: &Normal,
    order: &[u32],
    passed: usize,
    slack: u128,
    place: usize,
    trail: &mut Assignment,
    reasons: &mut Vec<Option<usize>>,
) -> usize
    requires order { IsDecreasing constraint.now.terms order.now }
    requires passed { ArePassed constraint.now.terms order.now (on_trail trail.old) passed }
    requires slack { open_sum (on_trail trail.old) constraint.now ≡ constraint.now.degree + slack }
    requires variables { variable_bound constraint.now.terms ≤ trail.old.1 }
    requires room { trail.old.1 ≤ vec_capacity reasons.old }
    requires as_many { length reasons.old.items ≡ length (on_trail trail.old) }
    ensures propagated { trail.new.0 ≡ trail.old.0 }
    ensures count { trail.new.1 ≡ trail.old.1 }
    ensures capacity { vec_capacity reasons.new ≡ vec_capacity reasons.old }
    ensures forced { IsForcedOn constraint.now place (on_trail trail.old) reasons.old.items (on_trail trail.new) reasons.new.items }
    ensures quiet { IsQuiet (on_trail trail.new) constraint.now }
    ensures passed { ArePassed constraint.now.terms order.now (on_trail trail.new) result }
{
    for index in passed..constraint.len() {
        let term = constraint.term(place_in(order, index));
        if term.coef <= slack {
            return index;
        }
        force_term(constraint, term, slack, place, trail, reasons);
    }
    constraint.len()
}
