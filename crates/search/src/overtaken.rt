//! Decisions that a conflict does not take.
//!
//! What was learned since a decision was made may lead to a conflict from the decisions before it, or to its opposite. Then the clause that
//! the decisions do not all hold would say nothing new. So the decisions that a conflict does not take are undone before it is looked at,
//! and what is left of it is looked at under the others. Of a conflict to which a new decision led that need not be asked: the literal was
//! free, so the conflict takes it.

ghost use Rattle.std.specs.Prelude.{◌≡◌, ◌↔◌, ◌+◌, ◌-◌, ◌<◌, ◌≤◌, IfOk, IsTrue, OnOk, false, length, take};
ghost use Rattle.propagate.specs.Chain.{IsImpossible, LeadsToConflict};
ghost use Rattle.propagate.specs.Literals.{lists};
ghost use Rattle.proof_rules.specs.State.{constraints};
ghost use Rattle.search.specs.Conflicts.{AreEnough, LeavesEnough, TakesLast};
ghost use Rattle.search.specs.Decisions.{AreDecisions};

use linear::Lit;
use proof_log::Log;
use propagate::{Extending, Propagator, Reach};
use std::alloc::AllocError;

/// Whether a literal is listed.
fn is_listed(literals: &[Lit], literal: Lit) -> bool
    ensures { result ≡ lists literals.now literal }
{
    for listed in literals {
        if *listed == literal {
            return true;
        }
    }
    false
}

/// Whether an assignment leads to a conflict.
fn has_conflict<'a, P: Propagator>(log: &mut Log<'a, P>, given: &[Lit]) -> Result<bool, AllocError>
    ensures same { log.new ≡ log.old }
    ensures value { IfOk result (λ yes. IsTrue yes ↔ IsImpossible (constraints log.old.state) given.now) }
{
    match log.ask(Extending { given })? {
        Reach::Conflict => Ok(true),
        Reach::Closed(_) => Ok(false),
    }
}

/// The number that is asked next: all but one at first, and then the middle.
fn asked(low: usize, high: usize, count: usize) -> usize
    requires { low < high }
    ensures low { low ≤ result }
    ensures high { result < high }
{
    if high == count {
        high - 1
    } else {
        low + (high - low) / 2
    }
}

/// How many of the first decisions it takes for a conflict, where all of them lead to one. With more decisions there is no less
/// of a conflict, so halving finds the number; most of the time it takes all of them, so that is asked first.
fn least_conflict<'a, P: Propagator>(
    log: &mut Log<'a, P>,
    decisions: &[Lit],
) -> Result<usize, AllocError>
    requires { IsImpossible (constraints log.old.state) decisions.now }
    ensures same { log.new ≡ log.old }
    ensures within { IfOk result (λ count. count ≤ length decisions.now) }
    ensures conflict { IfOk result (λ count. IsImpossible (constraints log.old.state) (take count decisions.now)) }
    ensures least { IfOk result (λ count. 0 < count → IsImpossible (constraints log.old.state) (take (count - 1) decisions.now) → ⊥) }
{
    let mut low = 0;
    let mut high = decisions.len();
    while low < high {
        let middle = asked(low, high, decisions.len());
        if has_conflict(log, &decisions[..middle])? {
            high = middle;
        } else {
            low = middle + 1;
        }
    }
    Ok(high)
}

/// How many of the first decisions are left where so many are the least that lead to a conflict: all of these, or those before the
/// last one where they lead to its opposite.
fn left_of<'a, P: Propagator>(
    log: &mut Log<'a, P>,
    decisions: &[Lit],
    count: usize,
) -> Result<usize, AllocError>
    requires within { count ≤ length decisions.now }
    requires conflict { IsImpossible (constraints log.old.state) (take count decisions.now) }
    requires least { 0 < count → IsImpossible (constraints log.old.state) (take (count - 1) decisions.now) → ⊥ }
    ensures same { log.new ≡ log.old }
    ensures within { IfOk result (λ left. left ≤ count) }
    ensures enough { IfOk result (AreEnough (constraints log.old.state) decisions.now) }
    ensures takes { IfOk result (λ left. left ≡ length decisions.now → TakesLast (constraints log.old.state) decisions.now) }
{
    if count == 0 {
        return Ok(0);
    }
    let before = count - 1;
    let last = decisions[before];
    let given = &decisions[..before];
    let Reach::Closed(closed) = log.ask(Extending { given })? else {
        unreachable!()
    };
    if is_listed(closed.as_slice(), last.opposite()) {
        Ok(before)
    } else {
        Ok(count)
    }
}

/// Undoes the decisions that a conflict does not take, to which all of them lead; whether there were any.
pub(crate) fn undo_overtaken<'a, P: Propagator>(
    log: &mut Log<'a, P>,
    decisions: &mut Vec<Lit>,
) -> Result<bool, AllocError>
    requires decisions { AreDecisions log.old decisions.old.items }
    requires conflict { LeadsToConflict (constraints log.old.state) decisions.old.items }
    ensures same { log.new ≡ log.old }
    ensures decisions { OnOk result (AreDecisions log.new decisions.new.items) }
    ensures fewer { IfOk result (λ undone. IsTrue undone → length decisions.new.items < length decisions.old.items) }
    ensures enough { IfOk result (λ undone. IsTrue undone → LeavesEnough (constraints log.old.state) decisions.old.items decisions.new.items) }
    ensures kept { IfOk result (λ undone. undone ≡ false → decisions.new.items ≡ decisions.old.items) }
    ensures takes { IfOk result (λ undone. undone ≡ false → TakesLast (constraints log.old.state) decisions.old.items) }
{
    let count = least_conflict(log, decisions.as_slice())?;
    let left = left_of(log, decisions.as_slice(), count)?;
    if left == decisions.len() {
        return Ok(false);
    }
    decisions.truncate(left);
    Ok(true)
}
