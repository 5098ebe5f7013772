//! What literals force that are decided one after another, beside those that were given before them.
//!
//! What those before them force stands on the trail already and was told as it came; so what is told of each is the end of the trail
//! alone, as it stands then. To see that the given literals are those of last time takes a look at each: once for all that are decided
//! together, since a search with many decisions would pay that for every one.

ghost use Rattle.std.specs.Prelude.{◌≡◌, ◌+◌, ◌<◌, ◌++◌, ◌∷◌, [], ℕ, false, List, All, Contains, IfOk, None, OnOk, length, map, slice_index_or, take};
ghost use Rattle.linear.specs.declared.term.Lit.{Lit};
ghost use Rattle.linear.specs.Literal.{opposite};
ghost use Rattle.propagate.specs.declared.trace.Decided.{Decided};
ghost use Rattle.propagate.specs.Content.{AreDecided, AreTaken, IsTraceOfLast};
ghost use Rattle.propagate.specs.Literals.{IsConsistent, lists};
ghost use Rattle.watch.specs.Givens.{IsDecided};
ghost use Rattle.watch.specs.Keeping.{IsKept};
ghost use Rattle.watch.specs.Named.{AreNamed, content_at};
ghost use Rattle.ledger.specs.Ledgers.{shown};
ghost use Rattle.watch.specs.Steps.{AreSteps, IsFound, Underlies, literals_of};

use super::chain::{Chain, Step};
use super::following::{decide, follow};
use super::levels::Levels;
use super::naming::trace_of;
use super::tracing::{chain_over, falsified_place};
use ledger::{Ledger, Queue};
use linear::Lit;
use propagate::{Decided, Id, decided_alone, literal_count, with_last};
use std::alloc::{AllocError, Global};

/// Tells the trail behind a literal, where each one has a reason.
fn tell_behind(alloc: Global, ledger: &Ledger, last: usize) -> Result<Vec<Step>, AllocError>
    requires there { last < length ledger.now.assigned }
    requires forced { (k : ℕ) → last < k → k < length ledger.now.assigned
        → slice_index_or ledger.now.reasons k None ≡ None → ⊥ }
    ensures chain { IfOk result (λ v. AreSteps (shown ledger.now.slots) (take (last + 1) ledger.now.assigned) v.items) }
    ensures all { IfOk result (λ v. take (last + 1) ledger.now.assigned ++ literals_of v.items ≡ ledger.now.assigned) }
{
    let mut steps = Vec::new(alloc);
    let literals = ledger.literals();
    let end = ledger.len();
    for index in last + 1..end {
        let Some(place) = ledger.reason(index) else {
            unreachable!()
        };
        steps.push(Step {
            literal: literals[index],
            place,
        })?;
    }
    Ok(steps)
}

/// The chain from all that is there and a free literal.
fn chain_on(
    alloc: Global,
    ledger: &mut Ledger,
    queue: &mut Queue,
    levels: &mut Levels,
    last: Lit,
) -> Result<Chain, AllocError>
    requires kept { IsKept ledger.old levels.old queue.old.0 queue.old.1 }
    requires variable { last.var.0 < ledger.old.variables }
    requires unset { lists ledger.old.assigned last ≡ false }
    requires opposite_unset { lists ledger.old.assigned (opposite last) ≡ false }
    ensures slots { ledger.new.slots ≡ ledger.old.slots }
    ensures variables { ledger.new.variables ≡ ledger.old.variables }
    ensures kept { IsKept ledger.new levels.new queue.new.0 queue.new.1 }
    ensures decided { OnOk result (IsDecided ledger.old ledger.new last) }
    ensures value { IfOk result (IsFound (shown ledger.old.slots) (ledger.old.assigned ++ last ∷ [])) }
{
    let from = ledger.len();
    let assumed = decide(ledger, queue, levels, last)?;
    ledger.reveal();
    Ok(Chain {
        steps: tell_behind(alloc, ledger, from)?,
        falsified: falsified_place(assumed),
    })
}

/// Decides a literal that is free, and tells by ids what it forces.
fn decide_one(
    alloc: Global,
    ledger: &mut Ledger,
    queue: &mut Queue,
    levels: &mut Levels,
    literal: Lit,
    ids: &[Id],
) -> Result<Decided, AllocError>
    requires kept { IsKept ledger.old levels.old queue.old.0 queue.old.1 }
    requires variable { literal.var.0 < ledger.old.variables }
    requires unset { lists ledger.old.assigned literal ≡ false }
    requires opposite_unset { lists ledger.old.assigned (opposite literal) ≡ false }
    requires ids { length ids.now ≡ length ledger.old.slots }
    ensures slots { ledger.new.slots ≡ ledger.old.slots }
    ensures variables { ledger.new.variables ≡ ledger.old.variables }
    ensures kept { IsKept ledger.new levels.new queue.new.0 queue.new.1 }
    ensures literal { IfOk result (λ d. d.literal ≡ literal) }
    ensures traced { IfOk result (λ d. (places : List (ℕ × ℕ)) (before : List Lit) → AreNamed places ids.now ledger.old.slots → Underlies before ledger.old
        → IsConsistent (before ++ literal ∷ []) × IsTraceOfLast (content_at ledger.old.slots places) before literal d.trace) }
    ensures given { OnOk result ((before : List Lit) → Underlies before ledger.old → Underlies (before ++ literal ∷ []) ledger.new) }
{
    ledger.reveal();
    let chain = chain_on(alloc, ledger, queue, levels, literal)?;
    ledger.reveal();
    Ok(Decided {
        literal,
        trace: trace_of(alloc, chain, ids)?,
    })
}

/// Decides the literals that are free when their turn comes, up to a falsified constraint, behind those that were decided so far.
fn decide_more(
    alloc: Global,
    ledger: &mut Ledger,
    queue: &mut Queue,
    levels: &mut Levels,
    more: &[Lit],
    ids: &[Id],
    decided: &mut Vec<Decided>,
) -> Result<(), AllocError>
    requires kept { IsKept ledger.old levels.old queue.old.0 queue.old.1 }
    requires variables { All (λ l. l.var.0 < ledger.old.variables) more.now }
    requires ids { length ids.now ≡ length ledger.old.slots }
    ensures slots { ledger.new.slots ≡ ledger.old.slots }
    ensures kept { IsKept ledger.new levels.new queue.new.0 queue.new.1 }
    ensures taken { (rest : List Decided) × (decided.new.items ≡ decided.old.items ++ rest) × All (λ d. Contains more.now d.literal) rest
        × ((places : List (ℕ × ℕ)) (before : List Lit) → AreNamed places ids.now ledger.old.slots → Underlies before ledger.old → AreDecided (content_at ledger.old.slots places) before rest) }
{
    for literal in more {
        if ledger.leaves_free(*literal) {
            let one = decide_one(alloc, ledger, queue, levels, *literal, ids)?;
            let ends = one.trace.conflict.is_some();
            decided.push(one)?;
            if ends {
                return Ok(());
            }
        }
    }
    Ok(())
}

/// Decides a free literal, and then others.
fn decide_all(
    alloc: Global,
    ledger: &mut Ledger,
    queue: &mut Queue,
    levels: &mut Levels,
    first: Lit,
    more: &[Lit],
    ids: &[Id],
) -> Result<Vec<Decided>, AllocError>
    requires kept { IsKept ledger.old levels.old queue.old.0 queue.old.1 }
    requires variable { first.var.0 < ledger.old.variables }
    requires unset { lists ledger.old.assigned first ≡ false }
    requires opposite_unset { lists ledger.old.assigned (opposite first) ≡ false }
    requires variables { All (λ l. l.var.0 < ledger.old.variables) more.now }
    requires ids { length ids.now ≡ length ledger.old.slots }
    ensures slots { ledger.new.slots ≡ ledger.old.slots }
    ensures kept { IsKept ledger.new levels.new queue.new.0 queue.new.1 }
    ensures decided { IfOk result (λ v. (places : List (ℕ × ℕ)) (before : List Lit) → AreNamed places ids.now ledger.old.slots → Underlies before ledger.old
        → AreDecided (content_at ledger.old.slots places) before v.items) }
    ensures taken { IfOk result (λ v. AreTaken first more.now v.items) }
{
    let one = decide_one(alloc, ledger, queue, levels, first, ids)?;
    let ends = one.trace.conflict.is_some();
    let mut decided = Vec::new(alloc);
    decided.push(one)?;
    if !ends {
        decide_more(alloc, ledger, queue, levels, more, ids, &mut decided)?;
    }
    Ok(decided)
}

/// One literal behind the given ones, its chain told whole.
fn decide_anew(
    alloc: Global,
    ledger: &mut Ledger,
    queue: &mut Queue,
    levels: &mut Levels,
    before: &[Lit],
    last: Lit,
    ids: &[Id],
) -> Result<Vec<Decided>, AllocError>
    requires kept { IsKept ledger.old levels.old queue.old.0 queue.old.1 }
    requires consistent { IsConsistent (before.now ++ last ∷ []) }
    requires ids { length ids.now ≡ length ledger.old.slots }
    ensures slots { ledger.new.slots ≡ ledger.old.slots }
    ensures kept { IsKept ledger.new levels.new queue.new.0 queue.new.1 }
    ensures decided { IfOk result (λ v. (places : List (ℕ × ℕ)) → AreNamed places ids.now ledger.old.slots
        → AreDecided (content_at ledger.old.slots places) before.now v.items) }
    ensures taken { IfOk result (λ v. (more : List Lit) → AreTaken last more v.items) }
{
    let given = with_last(alloc, before, last)?;
    let chain = chain_over(alloc, ledger, queue, levels, given.as_slice())?;
    decided_alone(alloc, last, trace_of(alloc, chain, ids)?)
}

/// Literals that are decided behind given ones, each with what it forces, where what those force alone is left out. Where they alone come to
/// a conflict, or leave the first one not free, that one alone is decided, and its chain is told whole.
pub(crate) fn traces_of_each(
    alloc: Global,
    ledger: &mut Ledger,
    queue: &mut Queue,
    levels: &mut Levels,
    before: &[Lit],
    first: Lit,
    more: &[Lit],
    ids: &[Id],
) -> Result<Vec<Decided>, AllocError>
    requires kept { IsKept ledger.old levels.old queue.old.0 queue.old.1 }
    requires consistent { IsConsistent (before.now ++ first ∷ []) }
    requires ids { length ids.now ≡ length ledger.old.slots }
    ensures slots { ledger.new.slots ≡ ledger.old.slots }
    ensures kept { IsKept ledger.new levels.new queue.new.0 queue.new.1 }
    ensures decided { IfOk result (λ v. (places : List (ℕ × ℕ)) → AreNamed places ids.now ledger.old.slots
        → AreDecided (content_at ledger.old.slots places) before.now v.items) }
    ensures taken { IfOk result (λ v. AreTaken first more.now v.items) }
{
    ledger.widen(alloc, literal_count(more).max(first.var.0 as usize + 1))?;
    let assumed = follow(alloc, ledger, queue, levels, before)?;
    if !assumed.is_whole() || !ledger.leaves_free(first) {
        return decide_anew(alloc, ledger, queue, levels, before, first, ids);
    }
    ledger.reveal();
    decide_all(alloc, ledger, queue, levels, first, more, ids)
}
