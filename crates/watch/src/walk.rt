//! Chains of forced literals, as long as they go, and back again.
//!
//! A constraint that does not wait in the queue is not falsified and forces nothing under what was propagated: that is so before a walk
//! and after it, so that an empty queue says that all is propagated, and no pass over the constraints ends a walk. What a
//! constraint forces does not change its own slack, so all that it forces is assigned at once, and propagated then, literal by
//! literal. A walk ends with the first conflict that is found. The literals that were not propagated then stay assigned, and what their
//! rows would tell is not asked for: it need not be known of what was propagated, and they are backtracked first.

ghost use Rattle.std.specs.Prelude.{◌≡◌, ◌<◌, ◌≤◌, ◌∷◌, ◌⊎◌, [], None, IfOk, MatchOption, OnOk, length, take};
ghost use Rattle.propagate.specs.Chain.{IsFixpoint};
ghost use Rattle.propagate.specs.Walk.{IsFalsifiedAt, IsQuiet};
ghost use Rattle.ledger.specs.Ledgers.{constraint_at, shown};
ghost use Rattle.watch.specs.Looking.{AreLookedAt, GoesOn, IsForcedOut, IsPropagationEnd, IsVisited, PropagatesOn};

use ledger::{Hint, Ledger, Queue};
use std::alloc::AllocError;

/// Looks at the constraint of a place by its terms: whether it is falsified, and else all that it forces is assigned.
fn look_through(ledger: &mut Ledger, place: usize) -> bool
    requires place { place < length ledger.old.slots }
    requires propagated { ledger.old.propagated ≡ ledger.old.assigned }
    ensures goes_on { GoesOn ledger.old ledger.new }
    ensures propagated { ledger.new.propagated ≡ ledger.old.propagated }
    ensures end { IsForcedOut (shown ledger.old.slots) ledger.new.assigned place result }
{
    match ledger.slack(place) {
        None => true,
        Some(slack) => {
            ledger.force(place, slack);
            false
        }
    }
}

/// Looks at the constraint of a place, by the two literals that watch it where they tell: whether it is falsified, and else
/// all that it forces is assigned.
fn force(ledger: &mut Ledger, place: usize) -> bool
    requires place { place < length ledger.old.slots }
    requires propagated { ledger.old.propagated ≡ ledger.old.assigned }
    ensures goes_on { GoesOn ledger.old ledger.new }
    ensures propagated { ledger.new.propagated ≡ ledger.old.propagated }
    ensures end { IsForcedOut (shown ledger.old.slots) ledger.new.assigned place result }
{
    match ledger.hint(place) {
        Hint::Quiet => false,
        Hint::Forces(literal) => {
            ledger.assign(literal, Some(place));
            false
        }
        Hint::Unknown => look_through(ledger, place),
    }
}

/// Propagates all literals that are assigned, up to a constraint that is falsified, whose place is returned.
fn propagate(ledger: &mut Ledger, queue: &mut Queue) -> Result<Option<usize>, AllocError>
    requires { queue.old.1 ≡ length ledger.old.slots }
    ensures on { PropagatesOn ledger.old ledger.new queue.old.0 queue.new.0 }
    ensures count { queue.new.1 ≡ queue.old.1 }
    ensures idle { ledger.old.propagated ≡ ledger.old.assigned → queue.new.0 ≡ queue.old.0 }
    ensures end { IfOk result (IsPropagationEnd ledger.new) }
{
    while !ledger.is_propagated() {
        let falsified = ledger.propagate_next(queue)?;
        if falsified.is_some() {
            return Ok(falsified);
        }
        ledger.reveal();
    }
    Ok(None)
}

/// Looks at the constraint of a place, and propagates what it forces; the place of one that is falsified then, if there is one.
fn visit(ledger: &mut Ledger, queue: &mut Queue, place: usize) -> Result<Option<usize>, AllocError>
    requires place { place < length ledger.old.slots }
    requires propagated { ledger.old.propagated ≡ ledger.old.assigned }
    requires count { queue.old.1 ≡ length ledger.old.slots }
    requires looked_at { AreLookedAt (shown ledger.old.slots) ledger.old.propagated (place ∷ queue.old.0) }
    ensures goes_on { GoesOn ledger.old ledger.new }
    ensures first { take (length ledger.old.propagated) ledger.new.propagated ≡ ledger.old.propagated }
    ensures count { queue.new.1 ≡ queue.old.1 }
    ensures progress { OnOk result ((queue.new.0 ≡ queue.old.0)
        ⊎ (length ledger.old.assigned < length ledger.new.assigned)) }
    ensures waits { AreLookedAt (shown ledger.old.slots) ledger.new.propagated (place ∷ queue.new.0) }
    ensures end { IfOk result (IsVisited (shown ledger.old.slots) ledger.new queue.new.0) }
{
    if force(ledger, place) {
        return Ok(Some(place));
    }
    propagate(ledger, queue)
}

/// Visits what waits until a constraint is falsified, whose place is returned, or nothing waits and nothing more is forced. Where
/// memory ends or one is falsified, what was not looked at waits.
fn visit_all(ledger: &mut Ledger, queue: &mut Queue) -> Result<Option<usize>, AllocError>
    requires propagated { ledger.old.propagated ≡ ledger.old.assigned }
    requires count { queue.old.1 ≡ length ledger.old.slots }
    requires looked_at { AreLookedAt (shown ledger.old.slots) ledger.old.propagated queue.old.0 }
    ensures goes_on { GoesOn ledger.old ledger.new }
    ensures first { take (length ledger.old.propagated) ledger.new.propagated ≡ ledger.old.propagated }
    ensures count { queue.new.1 ≡ queue.old.1 }
    ensures looked_at { AreLookedAt (shown ledger.old.slots) ledger.new.propagated queue.new.0 }
    ensures end { IfOk result (λ falsified. MatchOption falsified
        ((queue.new.0 ≡ []) × IsFixpoint (shown ledger.old.slots) ledger.new.assigned)
        (IsFalsifiedAt (shown ledger.old.slots) ledger.new.assigned)) }
    ensures propagated { IfOk result (λ falsified. falsified ≡ None → ledger.new.propagated ≡ ledger.new.assigned) }
{
    while let Some(place) = queue.take() {
        match visit(ledger, queue, place) {
            Err(_) => {
                queue.add(place);
                return Err(AllocError);
            }
            Ok(Some(falsified)) => {
                queue.add(place);
                return Ok(Some(falsified));
            }
            Ok(None) => {}
        }
        queue.reveal();
        ledger.reveal();
    }
    Ok(None)
}

/// Adds forced literals until a constraint is falsified, whose place is returned, or nothing waits and
/// nothing more is forced. Where memory ends, what was not looked at waits.
pub(crate) fn propagate_all(
    ledger: &mut Ledger,
    queue: &mut Queue,
) -> Result<Option<usize>, AllocError>
    requires count { queue.old.1 ≡ length ledger.old.slots }
    requires looked_at { AreLookedAt (shown ledger.old.slots) ledger.old.propagated queue.old.0 }
    ensures goes_on { GoesOn ledger.old ledger.new }
    ensures first { take (length ledger.old.propagated) ledger.new.propagated ≡ ledger.old.propagated }
    ensures count { queue.new.1 ≡ queue.old.1 }
    ensures looked_at { AreLookedAt (shown ledger.old.slots) ledger.new.propagated queue.new.0 }
    ensures end { IfOk result (λ falsified. MatchOption falsified
        ((queue.new.0 ≡ []) × IsFixpoint (shown ledger.old.slots) ledger.new.assigned)
        (IsFalsifiedAt (shown ledger.old.slots) ledger.new.assigned)) }
    ensures propagated { IfOk result (λ falsified. falsified ≡ None → ledger.new.propagated ≡ ledger.new.assigned) }
{
    let falsified = propagate(ledger, queue)?;
    if falsified.is_some() {
        return Ok(falsified);
    }
    visit_all(ledger, queue)
}

/// Takes back all literals but the first ones.
pub(crate) fn backtrack(ledger: &mut Ledger, count: usize)
    requires { count ≤ length ledger.old.assigned }
    ensures slots { ledger.new.slots ≡ ledger.old.slots }
    ensures variables { ledger.new.variables ≡ ledger.old.variables }
    ensures assigned { ledger.new.assigned ≡ take count ledger.old.assigned }
    ensures propagated { ledger.new.propagated ≡ take count ledger.old.propagated }
    ensures reasons { ledger.new.reasons ≡ take count ledger.old.reasons }
{
    while ledger.len() > count {
        ledger.unassign_last();
    }
    ledger.reveal();
}
