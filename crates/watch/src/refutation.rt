//! Whether constraints are refuted, by themselves and beside others.
//!
//! What the constraints force from nothing stands at the bottom of the trail. Extra constraints are attached at the
//! end as any others, or their literals are given, where they ask for all of them; and the walk goes on from there: so it costs what
//! they touch. Afterwards the literals above the bottom are backtracked and the extra constraints taken off, and nothing of them is
//! left.

ghost use Rattle.std.specs.Prelude.{◌≡◌, ◌↔◌, ◌≤◌, ◌++◌, All, IfOk, IsTrue, Some, List, length, map, take};
ghost use Rattle.normal_form.specs.Normal.{NormalConstraint};
ghost use Rattle.propagate.specs.Chain.{IsRefuted, IsFixpoint};
ghost use Rattle.ledger.specs.Ledgers.{shown};
ghost use Rattle.watch.specs.Cubes.{IsCube};
ghost use Rattle.watch.specs.Looking.{GoesOn};
ghost use Rattle.watch.specs.Rests.{IsRest};
ghost use Rattle.watch.specs.Roots.{IsRoot};

use super::attaching::{attach_all, detach_from};
use super::cubes::{are_cubes, give_cubes};
use super::rest::{Rest, note};
use super::walk::{backtrack, propagate_all};
use ledger::{Ledger, Queue};
use normal_form::Normal;
use std::alloc::{AllocError, Global};

/// Whether the constraints are refuted. What they force from nothing is then found.
fn propagate_root(ledger: &mut Ledger, queue: &mut Queue) -> Result<bool, AllocError>
    requires { IsRoot ledger.old queue.old.0 queue.old.1 }
    ensures value { IfOk result (λ yes. IsTrue yes ↔ IsRefuted (shown ledger.old.slots)) }
    ensures goes_on { GoesOn ledger.old ledger.new }
    ensures root { IsRoot ledger.new queue.new.0 queue.new.1 }
    ensures fixpoint { IfOk result (λ yes. (IsTrue yes → ⊥)
        → IsFixpoint (shown ledger.new.slots) ledger.new.assigned) }
    ensures propagated { IfOk result (λ yes. (IsTrue yes → ⊥) → ledger.new.propagated ≡ ledger.new.assigned) }
    ensures first { take (length ledger.old.propagated) ledger.new.propagated ≡ ledger.old.propagated }
{
    ledger.reveal();
    Ok(propagate_all(ledger, queue)?.is_some())
}

/// Attaches constraints, and decides whether all are refuted. What stood before comes first.
fn refute_attached(
    alloc: Global,
    ledger: &mut Ledger,
    queue: &mut Queue,
    extras: &[Normal],
) -> Result<bool, AllocError>
    requires { IsRoot ledger.old queue.old.0 queue.old.1 }
    ensures value { IfOk result (λ yes. IsTrue yes ↔ IsRefuted (shown ledger.old.slots ++ extras.now)) }
    ensures literals { take (length ledger.old.assigned) ledger.new.assigned ≡ ledger.old.assigned }
    ensures first { take (length ledger.old.propagated) ledger.new.propagated ≡ ledger.old.propagated }
    ensures more_literals { length ledger.old.assigned ≤ length ledger.new.assigned }
    ensures reasons { take (length ledger.old.assigned) ledger.new.reasons ≡ ledger.old.reasons }
    ensures slots { (added : List NormalConstraint) × (ledger.new.slots ≡ ledger.old.slots ++ map Some added) }
    ensures count { queue.new.1 ≡ length ledger.new.slots }
{
    ledger.reveal();
    attach_all(alloc, ledger, queue, extras)?;
    propagate_root(ledger, queue)
}

/// Assigns the literals of cubes, and decides whether all are refuted. What stood before comes first.
fn refute_given(
    alloc: Global,
    ledger: &mut Ledger,
    queue: &mut Queue,
    cubes: &[Normal],
) -> Result<bool, AllocError>
    requires root { IsRoot ledger.old queue.old.0 queue.old.1 }
    requires cubes { All IsCube cubes.now }
    ensures value { IfOk result (λ yes. IsTrue yes ↔ IsRefuted (shown ledger.old.slots ++ cubes.now)) }
    ensures literals { take (length ledger.old.assigned) ledger.new.assigned ≡ ledger.old.assigned }
    ensures first { take (length ledger.old.propagated) ledger.new.propagated ≡ ledger.old.propagated }
    ensures more_literals { length ledger.old.assigned ≤ length ledger.new.assigned }
    ensures reasons { take (length ledger.old.assigned) ledger.new.reasons ≡ ledger.old.reasons }
    ensures slots { ledger.new.slots ≡ ledger.old.slots }
    ensures count { queue.new.1 ≡ length ledger.new.slots }
{
    ledger.reveal();
    if give_cubes(alloc, ledger, cubes)? {
        return Ok(true);
    }
    let falsified = propagate_all(ledger, queue)?;
    ledger.reveal();
    Ok(falsified.is_some())
}

/// Decides whether all are refuted, with constraints that are attached, or given where they are cubes. What stood before comes first.
fn refute_with(
    alloc: Global,
    ledger: &mut Ledger,
    queue: &mut Queue,
    extras: &[Normal],
) -> Result<bool, AllocError>
    requires { IsRoot ledger.old queue.old.0 queue.old.1 }
    ensures value { IfOk result (λ yes. IsTrue yes ↔ IsRefuted (shown ledger.old.slots ++ extras.now)) }
    ensures literals { take (length ledger.old.assigned) ledger.new.assigned ≡ ledger.old.assigned }
    ensures first { take (length ledger.old.propagated) ledger.new.propagated ≡ ledger.old.propagated }
    ensures more_literals { length ledger.old.assigned ≤ length ledger.new.assigned }
    ensures reasons { take (length ledger.old.assigned) ledger.new.reasons ≡ ledger.old.reasons }
    ensures slots { (added : List NormalConstraint) × (ledger.new.slots ≡ ledger.old.slots ++ map Some added) }
    ensures count { queue.new.1 ≡ length ledger.new.slots }
{
    if are_cubes(extras) {
        refute_given(alloc, ledger, queue, extras)
    } else {
        refute_attached(alloc, ledger, queue, extras)
    }
}

/// Whether fixpoint constraints are refuted beside others. What stood before stands again.
fn refute_beside(
    alloc: Global,
    ledger: &mut Ledger,
    queue: &mut Queue,
    extras: &[Normal],
) -> Result<bool, AllocError>
    requires root { IsRoot ledger.old queue.old.0 queue.old.1 }
    requires fixpoint { IsFixpoint (shown ledger.old.slots) ledger.old.assigned }
    requires propagated { ledger.old.propagated ≡ ledger.old.assigned }
    ensures slots { ledger.new.slots ≡ ledger.old.slots }
    ensures propagated { ledger.new.propagated ≡ ledger.old.propagated }
    ensures root { IsRoot ledger.new queue.new.0 queue.new.1 }
    ensures value { IfOk result (λ yes. IsTrue yes ↔ IsRefuted (shown ledger.old.slots ++ extras.now)) }
{
    let root = ledger.len();
    let count = ledger.count();
    let answer = refute_with(alloc, ledger, queue, extras);
    backtrack(ledger, root);
    detach_from(ledger, count);
    queue.clear(count);
    answer
}

/// Whether the constraints are refuted beside others. What they force from nothing is then found, and noted where there are no others.
pub(crate) fn refute_from_root(
    alloc: Global,
    ledger: &mut Ledger,
    queue: &mut Queue,
    rest: &mut Rest,
    extras: &[Normal],
) -> Result<bool, AllocError>
    requires root { IsRoot ledger.old queue.old.0 queue.old.1 }
    requires rest { IsRest (shown ledger.old.slots) ledger.old.propagated rest.old }
    ensures slots { ledger.new.slots ≡ ledger.old.slots }
    ensures root { IsRoot ledger.new queue.new.0 queue.new.1 }
    ensures rest { IsRest (shown ledger.new.slots) ledger.new.propagated rest.new }
    ensures value { IfOk result (λ yes. IsTrue yes ↔ IsRefuted (shown ledger.old.slots ++ extras.now)) }
{
    if propagate_root(ledger, queue)? {
        return Ok(true);
    }
    note(ledger, rest, extras);
    refute_beside(alloc, ledger, queue, extras)
}
