//! One pass over all constraints: what each forces is listed, until one is falsified.
//!
//! A constraint's slack does not change by the literals that it forces itself, since no opposite of them stands in it. So
//! all that it forces is listed at once, with its slack computed once; to list one literal and begin anew would read a long
//! constraint as often as it has literals.

ghost use Rattle.std.specs.Prelude.{◌≡◌, ◌+◌, ◌<◌, ◌≤◌, ◌↔◌, ◌++◌, ◌∷◌, [], false, true, All, IfOk, IsTrue, MatchOption, OnOk, length, map};
ghost use Rattle.normal_form.specs.Normal.{sum_over, variable_bound};
ghost use Rattle.propagate.specs.Chain.{IsFixpoint};
ghost use Rattle.linear.specs.Literal.{opposite};
ghost use Rattle.propagate.specs.Literals.{lists};
ghost use Rattle.propagate.specs.Slack.{IsFalsified, not_false};
ghost use Rattle.propagate.specs.Walk.{GoesOn, GoesOnBy, IsFalsifiedAt, IsQuiet, CanForce};

use super::forced::Forced;
use super::slack::slack;
use super::trail::Trail;
use normal_form::Normal;
use std::alloc::AllocError;

/// Whether a literal with this coefficient is forced where the slack is this.
fn is_forced(trail: &Trail, forced: Forced, coef: u128, slack: u128) -> bool
    requires { forced.literal.var.0 < trail.now.1 }
    ensures { IsTrue result ↔ CanForce trail.now.0 slack coef forced.literal }
{
    coef > slack && trail.leaves_free(forced.literal)
}

/// Lists a literal with its reason.
fn list(trail: &mut Trail, steps: &mut Vec<Forced>, forced: Forced) -> Result<(), AllocError>
    requires variable { forced.literal.var.0 < trail.old.1 }
    requires unset { lists trail.old.0 forced.literal ≡ false }
    requires opposite_unset { lists trail.old.0 (opposite forced.literal) ≡ false }
    ensures trail { OnOk result (trail.new ≡ (trail.old.0 ++ forced.literal ∷ [], trail.old.1)) }
    ensures steps { OnOk result (steps.new.items ≡ steps.old.items ++ forced ∷ []) }
{
    trail.push(forced.literal);
    steps.push(forced)?;
    Ok(())
}

/// Lists a literal if it is forced.
fn list_if_forced(
    trail: &mut Trail,
    steps: &mut Vec<Forced>,
    forced: Forced,
    coef: u128,
    slack: u128,
) -> Result<(), AllocError>
    requires { forced.literal.var.0 < trail.old.1 }
    ensures count { OnOk result (trail.new.1 ≡ trail.old.1) }
    ensures listed { OnOk result (CanForce trail.old.0 slack coef forced.literal
        → (trail.new.0 ≡ trail.old.0 ++ forced.literal ∷ []) × (steps.new.items ≡ steps.old.items ++ forced ∷ [])) }
    ensures passed { OnOk result ((CanForce trail.old.0 slack coef forced.literal → ⊥)
        → (trail.new.0 ≡ trail.old.0) × (steps.new.items ≡ steps.old.items)) }
{
    if is_forced(trail, forced, coef, slack) {
        return list(trail, steps, forced);
    }
    Ok(())
}

/// Lists all that a constraint, which stands at this place, forces where its slack is this.
fn list_all(
    constraint: &Normal,
    place: usize,
    slack: u128,
    trail: &mut Trail,
    steps: &mut Vec<Forced>,
) -> Result<(), AllocError>
    requires variables { variable_bound constraint.now.terms ≤ trail.old.1 }
    requires slack { sum_over (not_false trail.old.0) constraint.now.terms ≡ constraint.now.degree + slack }
    ensures count { OnOk result (trail.new.1 ≡ trail.old.1) }
    ensures goes_on { OnOk result (GoesOnBy constraint.now place trail.old.0 steps.old.items trail.new.0 steps.new.items) }
    ensures quiet { OnOk result (IsQuiet trail.new.0 constraint.now) }
{
    for index in 0..constraint.len() {
        let term = constraint.term(index);
        let forced = Forced {
            literal: term.literal(),
            reason: place,
        };
        list_if_forced(trail, steps, forced, term.coef, slack)?;
    }
    Ok(())
}

/// Lists all that a constraint, which stands at this place, forces, unless it is falsified. Answers whether it is.
fn visit(
    constraint: &Normal,
    place: usize,
    trail: &mut Trail,
    steps: &mut Vec<Forced>,
) -> Result<bool, AllocError>
    requires { variable_bound constraint.now.terms ≤ trail.old.1 }
    ensures count { OnOk result (trail.new.1 ≡ trail.old.1) }
    ensures goes_on { OnOk result (GoesOnBy constraint.now place trail.old.0 steps.old.items trail.new.0 steps.new.items) }
    ensures falsified { IfOk result (λ falsified. falsified ≡ true → IsFalsified trail.new.0 constraint.now) }
    ensures quiet { IfOk result (λ falsified. falsified ≡ false → IsQuiet trail.new.0 constraint.now) }
{
    match slack(constraint, trail) {
        Some(slack) => {
            list_all(constraint, place, slack, trail, steps)?;
            Ok(false)
        }
        None => Ok(true),
    }
}

/// Passes over the constraints, and stops at one that is falsified. Where the assignment is as long as before, nothing is
/// forced.
pub(crate) fn pass(
    constraints: &[&Normal],
    trail: &mut Trail,
    steps: &mut Vec<Forced>,
) -> Result<Option<usize>, AllocError>
    requires { All (λ n. variable_bound n.now.terms ≤ trail.old.1) constraints.now }
    ensures count { OnOk result (trail.new.1 ≡ trail.old.1) }
    ensures goes_on { OnOk result (GoesOn (map (λ n. n.now) constraints.now) trail.old.0 steps.old.items trail.new.0 steps.new.items) }
    ensures end { IfOk result (λ falsified. MatchOption falsified
        (length trail.new.0 ≡ length trail.old.0 → IsFixpoint (map (λ n. n.now) constraints.now) trail.new.0)
        (IsFalsifiedAt (map (λ n. n.now) constraints.now) trail.new.0)) }
{
    for place in 0..constraints.len() {
        if visit(constraints[place], place, trail, steps)? {
            return Ok(Some(place));
        }
    }
    Ok(None)
}
