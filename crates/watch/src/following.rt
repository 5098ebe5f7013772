//! Given literals, followed from where an assignment parts from the one before.
//!
//! Literals above that are backtracked with what they forced. What was settled when the first of them was given is settled again,
//! and only constraints that came since wait; the other literals are given one by one, each with what it forces. So what is kept never
//! depends on what an assignment had in place of another.

ghost use Rattle.std.specs.Prelude.{◌≡◌, ◌<◌, ◌≤◌, ◌⊎◌, ◌++◌, ◌∷◌, [], ℕ, List, false, All, Contains, IfOk, OnErr, OnOk, length, take};
ghost use Rattle.linear.specs.declared.term.Lit.{Lit};
ghost use Rattle.linear.specs.Literal.{opposite};
ghost use Rattle.propagate.specs.Literals.{lists};
ghost use Rattle.watch.specs.Givens.{IsDecided, IsPushed};
ghost use Rattle.watch.specs.Looking.{AreLookedAt, GoesOn};
ghost use Rattle.watch.specs.Keeping.{IsAssumed, IsKept, IsFixpointOrFalsified, falsified_place};
ghost use Rattle.ledger.specs.Ledgers.{constraint_at, shown};
ghost use Rattle.propagate.specs.Walk.{IsQuiet};
ghost use Rattle.watch.specs.Steps.{AreGiven};
ghost use Rattle.propagate.specs.Chain.{IsFixpoint};

use super::assumed::Assumed;
use super::giving::give;
use super::levels::Levels;
use super::walk::{backtrack, propagate_all};
use ledger::{Ledger, Queue};
use linear::Lit;
use propagate::literal_count;
use std::alloc::{AllocError, Global};

/// Queues the constraints from a place on.
pub(crate) fn queue_from(ledger: &Ledger, queue: &mut Queue, first: usize)
    requires { queue.old.1 ≡ length ledger.now.slots }
    ensures count { queue.new.1 ≡ queue.old.1 }
    ensures queued { (k : ℕ) → first ≤ k → k < length ledger.now.slots → Contains queue.new.0 k }
{
    for place in first..ledger.count() {
        queue.add(place);
    }
}

/// Takes back what stands above the first levels. What was settled when the next one began is settled again, and what came since
/// waits.
pub(crate) fn backtrack_to_level(
    ledger: &mut Ledger,
    queue: &mut Queue,
    levels: &mut Levels,
    level: usize,
)
    requires kept { IsKept ledger.old levels.old queue.old.0 queue.old.1 }
    requires level { level ≤ length levels.old.0 }
    ensures slots { ledger.new.slots ≡ ledger.old.slots }
    ensures variables { ledger.new.variables ≡ ledger.old.variables }
    ensures levels { levels.new ≡ (take level levels.old.0, take level levels.old.1, take level levels.old.2) }
    ensures kept { IsKept ledger.new levels.new queue.new.0 queue.new.1 }
{
    if level == levels.count() {
        return;
    }
    backtrack(ledger, levels.height(level));
    queue.clear(ledger.count());
    queue_from(ledger, queue, levels.settled(level));
    levels.truncate(level);
}

/// Adds what is forced, up to a constraint that is falsified, whatever levels there are.
fn propagate_kept(ledger: &mut Ledger, queue: &mut Queue) -> Result<Assumed, AllocError>
    requires count { queue.old.1 ≡ length ledger.old.slots }
    requires looked_at { AreLookedAt (shown ledger.old.slots) ledger.old.propagated queue.old.0 }
    ensures slots { ledger.new.slots ≡ ledger.old.slots }
    ensures variables { ledger.new.variables ≡ ledger.old.variables }
    ensures goes_on { GoesOn ledger.old ledger.new }
    ensures kept { (levels : List Lit × List ℕ × List ℕ) → IsKept ledger.old levels queue.old.0 queue.old.1
        → IsKept ledger.new levels queue.new.0 queue.new.1 }
    ensures falsified { IfOk result (λ a. IsFixpointOrFalsified (shown ledger.old.slots) ledger.new.assigned (falsified_place a)) }
    ensures end { (levels : List Lit × List ℕ × List ℕ) → IsKept ledger.old levels queue.old.0 queue.old.1
        → IfOk result (IsAssumed (shown ledger.old.slots) levels.0 ledger.new.assigned) }
{
    ledger.reveal();
    let falsified = propagate_all(ledger, queue);
    ledger.reveal();
    match falsified? {
        Some(place) => Ok(Assumed::Falsified(place)),
        None => Ok(Assumed::Whole),
    }
}

/// How many constraints are settled, so that they force nothing more: all, where nothing waits, and else none is known to be.
fn settled_count(ledger: &Ledger, queue: &Queue) -> usize
    requires { AreLookedAt (shown ledger.now.slots) ledger.now.propagated queue.now.0 }
    ensures { (k : ℕ) → k < result → (k < length (shown ledger.now.slots)) × (ledger.now.propagated ≡ ledger.now.assigned)
        × IsQuiet ledger.now.propagated (constraint_at (shown ledger.now.slots) k) }
{
    if ledger.is_propagated() && queue.is_empty() {
        ledger.count()
    } else {
        0
    }
}

/// One level more, where the opposite of its literal is not there.
fn open_level(
    ledger: &mut Ledger,
    queue: &Queue,
    levels: &mut Levels,
    literal: Lit,
) -> Result<(), AllocError>
    requires kept { IsKept ledger.old levels.old queue.now.0 queue.now.1 }
    requires variable { literal.var.0 < ledger.old.variables }
    requires free { lists ledger.old.assigned (opposite literal) ≡ false }
    ensures slots { ledger.new.slots ≡ ledger.old.slots }
    ensures variables { ledger.new.variables ≡ ledger.old.variables }
    ensures levels { OnOk result (levels.new.0 ≡ levels.old.0 ++ literal ∷ []) }
    ensures no_levels { OnErr result (levels.new ≡ levels.old) }
    ensures pushed { OnOk result (lists ledger.old.assigned literal ≡ false → IsPushed ledger.old ledger.new literal) }
    ensures kept { IsKept ledger.new levels.new queue.now.0 queue.now.1 }
{
    let settled = settled_count(ledger, queue);
    levels.push(literal, ledger.len(), settled)?;
    give(ledger, literal);
    ledger.reveal();
    Ok(())
}

/// Gives one literal more, with what is forced then.
fn assume(
    ledger: &mut Ledger,
    queue: &mut Queue,
    levels: &mut Levels,
    literal: Lit,
) -> Result<Assumed, AllocError>
    requires kept { IsKept ledger.old levels.old queue.old.0 queue.old.1 }
    requires variable { literal.var.0 < ledger.old.variables }
    ensures slots { ledger.new.slots ≡ ledger.old.slots }
    ensures variables { ledger.new.variables ≡ ledger.old.variables }
    ensures levels { (levels.new.0 ≡ levels.old.0) ⊎ (levels.new.0 ≡ levels.old.0 ++ literal ∷ []) }
    ensures kept { IsKept ledger.new levels.new queue.new.0 queue.new.1 }
    ensures end { IfOk result (IsAssumed (shown ledger.old.slots) (levels.old.0 ++ literal ∷ []) ledger.new.assigned) }
    ensures whole { IfOk result (λ a. a ≡ Assumed.Whole → levels.new.0 ≡ levels.old.0 ++ literal ∷ []) }
{
    if ledger.assigns(literal.opposite()) {
        return Ok(Assumed::Clash);
    }
    open_level(ledger, queue, levels, literal)?;
    propagate_kept(ledger, queue)
}

/// Gives a literal that is free, with what is forced then.
pub(crate) fn decide(
    ledger: &mut Ledger,
    queue: &mut Queue,
    levels: &mut Levels,
    literal: Lit,
) -> Result<Assumed, AllocError>
    requires kept { IsKept ledger.old levels.old queue.old.0 queue.old.1 }
    requires variable { literal.var.0 < ledger.old.variables }
    requires unset { lists ledger.old.assigned literal ≡ false }
    requires opposite_unset { lists ledger.old.assigned (opposite literal) ≡ false }
    ensures slots { ledger.new.slots ≡ ledger.old.slots }
    ensures variables { ledger.new.variables ≡ ledger.old.variables }
    ensures kept { IsKept ledger.new levels.new queue.new.0 queue.new.1 }
    ensures decided { OnOk result (IsDecided ledger.old ledger.new literal) }
    ensures falsified { IfOk result (λ a. IsFixpointOrFalsified (shown ledger.old.slots) ledger.new.assigned (falsified_place a)) }
{
    open_level(ledger, queue, levels, literal)?;
    propagate_kept(ledger, queue)
}

/// Gives the literals of an assignment that are still to come.
fn assume_rest(
    ledger: &mut Ledger,
    queue: &mut Queue,
    levels: &mut Levels,
    given: &[Lit],
) -> Result<Assumed, AllocError>
    requires kept { IsKept ledger.old levels.old queue.old.0 queue.old.1 }
    requires variables { All (λ l. l.var.0 < ledger.old.variables) given.now }
    requires short { length levels.old.0 ≤ length given.now }
    requires first { levels.old.0 ≡ take (length levels.old.0) given.now }
    requires fixpoint { IsFixpoint (shown ledger.old.slots) ledger.old.assigned }
    ensures slots { ledger.new.slots ≡ ledger.old.slots }
    ensures variables { ledger.new.variables ≡ ledger.old.variables }
    ensures first { levels.new.0 ≡ take (length levels.new.0) given.now }
    ensures kept { IsKept ledger.new levels.new queue.new.0 queue.new.1 }
    ensures end { IfOk result (IsAssumed (shown ledger.old.slots) given.now ledger.new.assigned) }
{
    for index in levels.count()..given.len() {
        let assumed = assume(ledger, queue, levels, given[index])?;
        if !assumed.is_whole() {
            return Ok(assumed);
        }
    }
    Ok(Assumed::Whole)
}

/// Takes back what stands from where an assignment parts from the one before, and makes room for the variables of the rest of it. The
/// literals that stay are on the trail, so there is room for theirs, and they are not gone over again.
fn part(
    alloc: Global,
    ledger: &mut Ledger,
    queue: &mut Queue,
    levels: &mut Levels,
    given: &[Lit],
) -> Result<(), AllocError>
    requires kept { IsKept ledger.old levels.old queue.old.0 queue.old.1 }
    ensures slots { ledger.new.slots ≡ ledger.old.slots }
    ensures more { ledger.old.variables ≤ ledger.new.variables }
    ensures variables { OnOk result (All (λ l. l.var.0 < ledger.new.variables) given.now) }
    ensures short { length levels.new.0 ≤ length given.now }
    ensures first { levels.new.0 ≡ take (length levels.new.0) given.now }
    ensures given { AreGiven ledger.new.assigned ledger.new.reasons given.now }
    ensures kept { IsKept ledger.new levels.new queue.new.0 queue.new.1 }
{
    let agreed = levels.agreement(given);
    backtrack_to_level(ledger, queue, levels, agreed);
    ledger.reveal();
    ledger.widen(alloc, literal_count(&given[agreed..]))
}

/// Gives the literals of an assignment, from where it parts from the one before, and makes room for their variables.
pub(crate) fn follow(
    alloc: Global,
    ledger: &mut Ledger,
    queue: &mut Queue,
    levels: &mut Levels,
    given: &[Lit],
) -> Result<Assumed, AllocError>
    requires kept { IsKept ledger.old levels.old queue.old.0 queue.old.1 }
    ensures slots { ledger.new.slots ≡ ledger.old.slots }
    ensures more { ledger.old.variables ≤ ledger.new.variables }
    ensures variables { OnOk result (All (λ l. l.var.0 < ledger.new.variables) given.now) }
    ensures kept { IsKept ledger.new levels.new queue.new.0 queue.new.1 }
    ensures given { AreGiven ledger.new.assigned ledger.new.reasons given.now }
    ensures end { IfOk result (IsAssumed (shown ledger.old.slots) given.now ledger.new.assigned) }
{
    part(alloc, ledger, queue, levels, given)?;
    let fixpoint = propagate_kept(ledger, queue);
    ledger.reveal();
    let assumed = fixpoint?;
    if !assumed.is_whole() {
        return Ok(assumed);
    }
    let answer = assume_rest(ledger, queue, levels, given);
    ledger.reveal();
    answer
}
