//! Constraints that come and go at the end, and wait in the queue as they come.
//!
//! A constraint that comes in is only queued: what it forces is found when something is asked. Where memory ends, it stays where it
//! was, and all is as before, but that there may be room for more variables.

ghost use Rattle.std.specs.Prelude.{◌≡◌, ◌<◌, ◌≤◌, ◌++◌, ◌∷◌, [], ℕ, List, Some, None, IfSome, IsSome, OnOk, OnErr, length};
ghost use Rattle.std.specs.Prelude.{map, slice_index_or, take};
ghost use Rattle.linear.specs.Largest.{most_names};
ghost use Rattle.normal_form.specs.Normal.{NormalConstraint, variable_bound};
ghost use Rattle.ledger.specs.Ledgers.{shown};
ghost use Rattle.watch.specs.Looking.{AreLookedAt};

use ledger::{Ledger, Queue};
use normal_form::Normal;
use std::alloc::{AllocError, Global};

/// How many variables the constraint of a slot needs room for.
fn variable_count(slot: &Option<Normal>) -> usize
    ensures value { IfSome slot.now (λ n. variable_bound n.terms ≤ result) }
    ensures few { result ≤ most_names }
{
    match slot {
        Some(constraint) => constraint.variable_count(),
        None => 0,
    }
}

/// Moves what is in a slot to the next place, which then waits.
pub(crate) fn attach_waiting(
    alloc: Global,
    ledger: &mut Ledger,
    queue: &mut Queue,
    slot: &mut Option<Normal>,
) -> Result<(), AllocError>
    requires count { queue.old.1 ≡ length ledger.old.slots }
    requires looked_at { AreLookedAt (shown ledger.old.slots) ledger.old.propagated queue.old.0 }
    ensures assigned { ledger.new.assigned ≡ ledger.old.assigned }
    ensures propagated { ledger.new.propagated ≡ ledger.old.propagated }
    ensures reasons { ledger.new.reasons ≡ ledger.old.reasons }
    ensures count { queue.new.1 ≡ length ledger.new.slots }
    ensures looked_at { AreLookedAt (shown ledger.new.slots) ledger.new.propagated queue.new.0 }
    ensures ok { OnOk result (ledger.new.slots ≡ ledger.old.slots ++ slot.old ∷ []) }
    ensures moved { OnOk result (slot.new ≡ None) }
    ensures err { OnErr result (ledger.new.slots ≡ ledger.old.slots) }
    ensures kept { OnErr result (slot.new ≡ slot.old) }
{
    ledger.widen(alloc, variable_count(slot))?;
    let place = ledger.count();
    queue.reveal();
    queue.grow()?;
    match ledger.attach(slot) {
        Err(_) => {
            queue.shrink();
            return Err(AllocError);
        }
        Ok(()) => {}
    }
    queue.add(place);
    Ok(())
}

/// Adds constraints at the next places, which then wait; where memory ends, some of them.
pub(crate) fn attach_all(
    alloc: Global,
    ledger: &mut Ledger,
    queue: &mut Queue,
    extras: &[Normal],
) -> Result<(), AllocError>
    requires count { queue.old.1 ≡ length ledger.old.slots }
    requires looked_at { AreLookedAt (shown ledger.old.slots) ledger.old.propagated queue.old.0 }
    ensures assigned { ledger.new.assigned ≡ ledger.old.assigned }
    ensures propagated { ledger.new.propagated ≡ ledger.old.propagated }
    ensures reasons { ledger.new.reasons ≡ ledger.old.reasons }
    ensures count { queue.new.1 ≡ length ledger.new.slots }
    ensures looked_at { AreLookedAt (shown ledger.new.slots) ledger.new.propagated queue.new.0 }
    ensures more { (added : List NormalConstraint) × (ledger.new.slots ≡ ledger.old.slots ++ map Some added) }
    ensures ok { OnOk result (ledger.new.slots ≡ ledger.old.slots ++ map Some extras.now) }
{
    for extra in extras {
        let mut slot = Some(extra.copy(alloc)?);
        attach_waiting(alloc, ledger, queue, &mut slot)?;
    }
    Ok(())
}

/// Takes off the places from a number on, which all have constraints, none of them a reason.
pub(crate) fn detach_from(ledger: &mut Ledger, count: usize)
    requires count { count ≤ length ledger.old.slots }
    requires live { (k : ℕ) → count ≤ k → k < length ledger.old.slots
        → IsSome (slice_index_or ledger.old.slots k None) }
    requires reasons { (k place : ℕ) → k < length ledger.old.assigned
        → slice_index_or ledger.old.reasons k None ≡ Some place → place < count }
    ensures { ledger.new ≡ record ledger.old { slots = take count ledger.old.slots; listed = ledger.new.listed } }
{
    while ledger.count() > count {
        ledger.detach();
    }
}
