//! Literals that stood on a constraint, backtracked before it goes.
//!
//! What is forced from nothing is kept between calls, and each literal has the constraint that forced it. Those
//! before the first that stands on the constraint are a chain without it, so they stay; the first and all after it
//! go, for they may stand on one another. A constraint that did not wait is still quiet then, unless a literal that
//! goes is one of its own: it may force that one again. So these are queued, and nothing is made anew. What a constraint
//! forced is one of its own literals, so those are looked at, and not the trail. Where all was quiet not far below, the trail is cut there, and
//! only the constraints that came since are queued.

ghost use Rattle.std.specs.Prelude.{◌≡◌, ◌-◌, ◌<◌, ◌≤◌, ℕ, IsTrue, Some, None, length, slice_index_or, take};
ghost use Rattle.linear.specs.declared.term.Lit.{Lit};
ghost use Rattle.ledger.specs.Ledgers.{constraint_at, shown, term_at};
ghost use Rattle.watch.specs.Looking.{AreLookedAt};
ghost use Rattle.watch.specs.Rests.{IsRest};
ghost use Rattle.watch.specs.Roots.{IsRoot};

use super::rest::{Rest, backtrack_to_rest};
use ledger::{Ledger, Queue};

/// So many constraints and literals are soon looked at, sooner than all constraints that have one.
const FEW: usize = 256;

/// Takes the last literal back, if there is one, and queues the constraints that may force it, where it was propagated.
fn backtrack_one(ledger: &mut Ledger, queue: &mut Queue)
    requires count { queue.old.1 ≡ length ledger.old.slots }
    requires looked_at { AreLookedAt (shown ledger.old.slots) ledger.old.propagated queue.old.0 }
    ensures slots { ledger.new.slots ≡ ledger.old.slots }
    ensures variables { ledger.new.variables ≡ ledger.old.variables }
    ensures literals { length ledger.new.assigned ≡ length ledger.old.assigned - 1 }
    ensures assigned { ledger.new.assigned ≡ take (length ledger.new.assigned) ledger.old.assigned }
    ensures reasons { ledger.new.reasons ≡ take (length ledger.new.assigned) ledger.old.reasons }
    ensures count { queue.new.1 ≡ queue.old.1 }
    ensures looked_at { AreLookedAt (shown ledger.old.slots) ledger.new.propagated queue.new.0 }
{
    ledger.reveal();
    if !ledger.is_propagated() {
        ledger.unassign_last();
        return;
    }
    if let Some(literal) = ledger.unassign_last() {
        ledger.queue_places(literal, queue);
    }
}

/// Takes all literals but the first ones back, and queues the constraints that may force one of them.
fn backtrack_and_queue(ledger: &mut Ledger, queue: &mut Queue, count: usize)
    requires count { count ≤ length ledger.old.assigned }
    requires places { queue.old.1 ≡ length ledger.old.slots }
    requires looked_at { AreLookedAt (shown ledger.old.slots) ledger.old.propagated queue.old.0 }
    ensures slots { ledger.new.slots ≡ ledger.old.slots }
    ensures variables { ledger.new.variables ≡ ledger.old.variables }
    ensures assigned { ledger.new.assigned ≡ take count ledger.old.assigned }
    ensures reasons { ledger.new.reasons ≡ take count ledger.old.reasons }
    ensures places { queue.new.1 ≡ queue.old.1 }
    ensures looked_at { AreLookedAt (shown ledger.old.slots) ledger.new.propagated queue.new.0 }
{
    ledger.reveal();
    while ledger.len() > count {
        backtrack_one(ledger, queue);
    }
}

/// Where the literal of a term's variable stands that the constraint of a place forced, if that is before a count, and
/// else the count.
fn forced_before(ledger: &Ledger, place: usize, index: usize, count: usize) -> usize
    requires place { place < length ledger.now.slots }
    requires index { index < length (constraint_at (shown ledger.now.slots) place).terms }
    requires count { count ≤ length ledger.now.assigned }
    ensures fewer { result ≤ count }
    ensures none { (k : ℕ) (d : Lit) → k < result → slice_index_or ledger.now.reasons k None ≡ Some place
        → (slice_index_or ledger.now.assigned k d).var.0
        ≡ (term_at (shown ledger.now.slots) place index).var.0 → ⊥ }
{
    let position = ledger.position(ledger.term(place, index).var.0 as usize);
    if position < count && ledger.reason(position) == Some(place) {
        position
    } else {
        count
    }
}

/// How many literals stand before the first whose reason is the constraint of a place: one of its own.
fn count_before(ledger: &Ledger, place: usize) -> usize
    requires { place < length ledger.now.slots }
    ensures few { result ≤ length ledger.now.assigned }
    ensures as_many { length ledger.now.reasons ≡ length ledger.now.assigned }
    ensures none { (k : ℕ) → k < result → slice_index_or ledger.now.reasons k None ≡ Some place → ⊥ }
{
    let mut count = ledger.len();
    let end = ledger.term_count(place);
    for index in 0..end {
        count = forced_before(ledger, place, index, count);
    }
    count
}

/// Whether a rest stands near below so many literals, and little has come since, beside what is taken back in any case.
fn is_near(ledger: &Ledger, rest: Rest, count: usize) -> bool
    requires { count ≤ length ledger.now.assigned }
    ensures { IsTrue result → rest.height ≤ count }
{
    if rest.height > count {
        return false;
    }
    let since = ledger.count().saturating_sub(rest.count);
    since.saturating_add(count - rest.height) <= FEW.saturating_add(ledger.len() - count)
}

/// Takes literals back, so that the constraint of a place is nobody's reason.
pub(crate) fn release(ledger: &mut Ledger, queue: &mut Queue, rest: &mut Rest, place: usize)
    requires root { IsRoot ledger.old queue.old.0 queue.old.1 }
    requires rest { IsRest (shown ledger.old.slots) ledger.old.propagated rest.old }
    requires place { place < length ledger.old.slots }
    ensures slots { ledger.new.slots ≡ ledger.old.slots }
    ensures root { IsRoot ledger.new queue.new.0 queue.new.1 }
    ensures rest { IsRest (shown ledger.old.slots) ledger.new.propagated rest.new }
    ensures reasons { (k : ℕ) → k < length ledger.new.assigned
        → slice_index_or ledger.new.reasons k None ≡ Some place → ⊥ }
{
    let count = count_before(ledger, place);
    if count == ledger.len() {
        return;
    }
    if is_near(ledger, *rest, count) {
        backtrack_to_rest(ledger, queue, *rest);
        return;
    }
    backtrack_and_queue(ledger, queue, count);
    *rest = Rest::nothing();
}
