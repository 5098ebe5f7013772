//! Counters of constraints, lowered and raised along a list of occurrences.
//!
//! A counter is the open sum of its constraint: what the literals that are not made false add up to. It is a number
//! from 0 on, so no sign is kept; and whether a constraint may be falsified or force something is one comparison with a
//! limit that is made when it comes in, its degree and its largest coefficient.

ghost use Rattle.std.specs.Prelude.{◌≡◌, ◌↔◌, ◌+◌, ◌<◌, ◌≤◌, ◌⊎◌, ℕ, All, Contains, IsTrue, length, slice_index_or};
ghost use Rattle.normal_form.specs.Normal.{largest_sum};
ghost use Rattle.ledger.specs.Ledgers.{constraint_at, shown};
ghost use Rattle.occurrences.specs.Occurrences.{share_of};
ghost use Rattle.occurrences.specs.Rows.{all_in};

use super::queue::Queue;
use normal_form::Normal;
use occurrences::Row;

/// Whether a number is less than the degree of the constraint at a place.
fn falls_short(slots: &[Option<Normal>], place: usize, number: u128) -> bool
    ensures { IsTrue result ↔ number < (constraint_at (shown slots.now) place).degree }
{
    match slots.get(place) {
        Some(Some(constraint)) => number < constraint.degree(),
        _ => false,
    }
}

/// Queues a place whose counter was lowered, where it is below a limit, and before all others where its constraint is
/// falsified then.
fn add_lowered(
    slots: &[Option<Normal>],
    queue: &mut Queue,
    place: usize,
    counter: u128,
    limit: u128,
)
    requires { place < queue.old.1 }
    ensures count { queue.new.1 ≡ queue.old.1 }
    ensures there { (limit ≤ counter) ⊎ Contains queue.new.0 place }
    ensures kept { (k : ℕ) → Contains queue.old.0 k → Contains queue.new.0 k }
{
    if counter >= limit {
        return;
    }
    if falls_short(slots, place, counter) {
        queue.add_first(place);
    } else {
        queue.add(place);
    }
}

/// Lowers the counter at each place of a list, and queues the places whose counter falls below its limit.
pub(crate) fn lower(
    slots: &[Option<Normal>],
    counters: &mut Vec<u128>,
    limits: &[u128],
    queue: &mut Queue,
    list: Row<'_>,
)
    requires places { All (λ o. o.place < length counters.old.items) (all_in list) }
    requires limits { length limits.now ≡ length counters.old.items }
    requires queue { length counters.old.items ≤ queue.old.1 }
    requires enough { (k : ℕ) → k < length counters.old.items
        → share_of k (all_in list) ≤ slice_index_or counters.old.items k 0 }
    ensures length { length counters.new.items ≡ length counters.old.items }
    ensures lowered { (k : ℕ) → k < length counters.old.items
        → slice_index_or counters.new.items k 0 + share_of k (all_in list.entry) ≡ slice_index_or counters.old.items k 0 }
    ensures queued { (k : ℕ) → k < length counters.old.items → 0 < share_of k (all_in list.entry)
        → (slice_index_or limits.now k 0 ≤ slice_index_or counters.new.items k 0) ⊎ Contains queue.new.0 k }
    ensures kept { (k : ℕ) → Contains queue.old.0 k → Contains queue.new.0 k }
    ensures count { queue.new.1 ≡ queue.old.1 }
{
    for index in 0..list.len() {
        let occurrence = list.get(index);
        let place = occurrence.place;
        let rest = counters[place] - occurrence.coef;
        counters[place] = rest;
        add_lowered(slots, queue, place, rest, limits[place]);
    }
}

/// Queues a place where a number is below a limit.
fn add_below(queue: &mut Queue, place: usize, number: u128, limit: u128)
    requires { place < queue.old.1 }
    ensures count { queue.new.1 ≡ queue.old.1 }
    ensures there { (limit ≤ number) ⊎ Contains queue.new.0 place }
    ensures kept { (k : ℕ) → Contains queue.old.0 k → Contains queue.new.0 k }
{
    if number < limit {
        queue.add(place);
    }
}

/// Raises the counter at each place of a list.
pub(crate) fn raise(counters: &mut Vec<u128>, list: Row<'_>)
    requires places { All (λ o. o.place < length counters.old.items) (all_in list) }
    requires room { (k : ℕ) → k < length counters.old.items
        → slice_index_or counters.old.items k 0 + share_of k (all_in list) ≤ largest_sum }
    ensures length { length counters.new.items ≡ length counters.old.items }
    ensures raised { (k : ℕ) → k < length counters.old.items
        → slice_index_or counters.new.items k 0 ≡ slice_index_or counters.old.items k 0 + share_of k (all_in list.entry) }
{
    for index in 0..list.len() {
        let occurrence = list.get(index);
        let place = occurrence.place;
        let sum = counters[place] + occurrence.coef;
        counters[place] = sum;
    }
}

/// Queues the places of a list whose counter is below its limit.
pub(crate) fn queue_below(counters: &[u128], limits: &[u128], queue: &mut Queue, list: Row<'_>)
    requires places { All (λ o. o.place < length counters.now) (all_in list) }
    requires limits { length limits.now ≡ length counters.now }
    requires queue { length counters.now ≤ queue.old.1 }
    ensures queued { (k : ℕ) → 0 < share_of k (all_in list.entry)
        → (slice_index_or limits.now k 0 ≤ slice_index_or counters.now k 0) ⊎ Contains queue.new.0 k }
    ensures kept { (k : ℕ) → Contains queue.old.0 k → Contains queue.new.0 k }
    ensures count { queue.new.1 ≡ queue.old.1 }
{
    for index in 0..list.len() {
        let occurrence = list.get(index);
        let place = occurrence.place;
        add_below(queue, place, counters[place], limits[place]);
    }
}
