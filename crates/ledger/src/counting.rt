//! What a constraint that is counted has: entries in the lists of its literals, and numbers at its place.
//!
//! Most constraints are clauses that two literals watch, and have no numbers. So a list of numbers ends with the last place that is counted:
//! behind it each number is 0, and takes no memory.

ghost use Rattle.std.specs.Prelude.{◌≡◌, ◌+◌, ◌*◌, ◌<◌, ◌≤◌, ◌++◌, ◌∷◌, ℕ, [], None, OnOk, OnErr, length, slice_index_or, slice_set};
ghost use Rattle.std.specs.Prelude.{vec_capacity, vec_len};
ghost use Rattle.normal_form.specs.Normal.{variable_bound};
ghost use Rattle.occurrences.specs.Occurrences.{HasMore, entries_of};

use super::watchers::Watchers;
use normal_form::Normal;
use occurrences::{EntryTable, enter};
use std::alloc::AllocError;

/// Puts in the entries of a constraint that is counted, at the next place.
pub(crate) fn enter_counted(
    table: &mut EntryTable,
    watchers: &mut Watchers,
    constraint: &Normal,
) -> Result<(), AllocError>
    requires { 2 * variable_bound constraint.now.terms ≤ length table.old }
    ensures length { length table.new ≡ length table.old }
    ensures ok { OnOk result (HasMore (entries_of table.old) table.new (length watchers.old.pairs) constraint.now.terms) }
    ensures err { OnErr result (HasMore (entries_of table.old) table.new (length watchers.old.pairs) []) }
    ensures pairs { OnOk result (watchers.new.pairs ≡ watchers.old.pairs ++ None ∷ []) }
    ensures no_pairs { OnErr result (watchers.new.pairs ≡ watchers.old.pairs) }
    ensures others { (k : ℕ) → k < length watchers.old.pairs
        → slice_index_or watchers.new.literals k [] ≡ slice_index_or watchers.old.literals k [] }
    ensures rows { watchers.new.rows ≡ watchers.old.rows }
{
    let place = watchers.len();
    watchers.skip()?;
    match enter(table, place, constraint) {
        Err(_) => {
            watchers.detach();
            Err(AllocError)
        }
        Ok(()) => Ok(()),
    }
}

/// The number at a place.
pub(crate) fn number_at(numbers: &[u128], place: usize) -> u128
    ensures { result ≡ slice_index_or numbers.now place 0 }
{
    if place < numbers.len() {
        numbers[place]
    } else {
        0
    }
}

/// Makes the number at a place 0.
pub(crate) fn set_nought(numbers: &mut Vec<u128>, place: usize)
    ensures { numbers.new.items ≡ slice_set numbers.old.items place 0 }
{
    if place < numbers.len() {
        numbers[place] = 0;
    }
}

/// Puts noughts at the end, as many as there is room for.
fn push_noughts(numbers: &mut Vec<u128>, more: usize)
    requires { vec_len numbers.old + more ≤ vec_capacity numbers.old }
    ensures same { (k : ℕ) → slice_index_or numbers.new.items k 0 ≡ slice_index_or numbers.old.items k 0 }
    ensures count { length numbers.new.items ≡ length numbers.old.items + more }
{
    for _ in 0..more {
        numbers.push_reserved(0);
    }
}

/// Brings the counters and the limits of the places below a number into memory, with room for one more of each.
pub(crate) fn fill_up(
    counters: &mut Vec<u128>,
    limits: &mut Vec<u128>,
    count: usize,
) -> Result<(), AllocError>
    requires few { length counters.old.items ≤ count }
    requires as_many { length limits.old.items ≡ length counters.old.items }
    ensures counters { (k : ℕ) → slice_index_or counters.new.items k 0 ≡ slice_index_or counters.old.items k 0 }
    ensures limits { (k : ℕ) → slice_index_or limits.new.items k 0 ≡ slice_index_or limits.old.items k 0 }
    ensures as_many { length limits.new.items ≡ length counters.new.items }
    ensures more { length counters.old.items ≤ length counters.new.items }
    ensures few { length counters.new.items ≤ count }
    ensures all { OnOk result (length counters.new.items ≡ count) }
    ensures counter { OnOk result (vec_len counters.new < vec_capacity counters.new) }
    ensures limit { OnOk result (vec_len limits.new < vec_capacity limits.new) }
{
    let more = count - counters.len();
    counters.reserve(more)?;
    limits.reserve(more)?;
    push_noughts(counters, more);
    push_noughts(limits, more);
    counters.reserve(1)?;
    limits.reserve(1)
}
