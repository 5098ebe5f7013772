//! The ids of the constraints that have a literal, put into a set.
//!
//! They are read from the lists that are kept for the literal. These two, of constraints that are counted and of clauses that are
//! watched, have an entry for each one that ever came with the literal, and those of constraints that are gone are passed over. The lists
//! are not copied, and each id goes into the set as it comes.

ghost use Rattle.std.specs.Prelude.{◌≡◌, ◌+◌, ◌<◌, ◌≤◌, ◌^◌, ◌∷◌, [], All, IfOk, IfSome, MatchOption, drop, length, slice_index_or};
ghost use Rattle.occurrences.specs.declared.occurrence.Occurrence.{Occurrence};
ghost use Rattle.ledger.specs.Entered.{all_of};
ghost use Rattle.watch.specs.Lent.{AreAdded, ids_at, live_places};

use ledger::{Entries, Ledger};
use propagate::{Id, Ids};
use std::alloc::AllocError;
use std::marker::Model;

/// The entries that are still to be gone through, as the ids of those constraints of them that are there.
#[derive(Drop)]
pub(crate) struct Occurrences<'a> {
    entries: Entries<'a>,
    passed: usize,
    ledger: &'a Ledger,
    ids: &'a [Id],
}

impl<'a> Model for Occurrences<'a> {
    ghost use Rattle.std.specs.Prelude.{◌≡◌, ◌<◌, ◌≤◌, ℕ, List, All, drop, length};
    ghost use Rattle.ledger.specs.Entered.{all_of};
    ghost use Rattle.watch.specs.Lent.{ids_at, live_places};

    ghost Value = { List ℕ };

    ghost view = { λ o. ids_at o.ids.now (live_places o.ledger.now.slots (drop o.passed (all_of o.entries))) };

    ghost invariant = { λ o. (o.passed ≤ length (all_of o.entries)) × (length o.ids.now ≡ length o.ledger.now.slots)
        × All (λ e. e.place < length o.ledger.now.slots) (all_of o.entries) };
}

/// The first entry from an index on whose constraint is there.
fn first_live(entries: Entries<'_>, from: usize, ledger: &Ledger) -> Option<usize>
    requires from { from ≤ length (all_of entries) }
    requires places { All (λ e. e.place < length ledger.now.slots) (all_of entries) }
    ensures few { IfSome result (λ k. k + 1 < 2 ^ 64) }
    ensures found { MatchOption result (live_places ledger.now.slots (drop from (all_of entries.entry)) ≡ [])
        (λ k. (k < length (all_of entries.entry)) × ((d : Occurrence) → live_places ledger.now.slots (drop from (all_of entries.entry))
        ≡ (slice_index_or (all_of entries.entry) k d).place ∷ live_places ledger.now.slots (drop (k + 1) (all_of entries.entry)))) }
{
    for index in from..entries.len() {
        if ledger.get(entries.place(index)).is_some() {
            return Some(index);
        }
    }
    None
}

impl<'a> Occurrences<'a> {
    /// The ids of the constraints at the places of entries, where one is there. All are still to come.
    pub(crate) fn of(entries: Entries<'a>, ledger: &'a Ledger, ids: &'a [Id]) -> Self
        requires places { All (λ e. e.place < length ledger.now.slots) (all_of entries) }
        requires ids { length ids.now ≡ length ledger.now.slots }
        ensures { result ≡ ids_at ids.now (live_places ledger.now.slots (all_of entries.entry)) }
    {
        Occurrences {
            entries,
            passed: 0,
            ledger,
            ids,
        }
    }

    /// The next id, and `None` at the end, then as often as it is asked for.
    fn next(&mut self) -> Option<Id>
        ensures { MatchOption result ((self.old ≡ []) × (self.new ≡ [])) (λ id. self.old ≡ id ∷ self.new) }
    {
        let index = first_live(self.entries, self.passed, self.ledger)?;
        self.passed = index + 1;
        Some(self.ids[self.entries.place(index)])
    }

    /// Adds those that are still to come to a set, and answers it. Where memory runs out the set is gone.
    pub(crate) fn add_to(self, ids: Ids) -> Result<Ids, AllocError>
        ensures { IfOk result (AreAdded self.entry ids) }
    {
        let mut rest = self;
        let mut gathered = ids;
        while let Some(id) = rest.next() {
            gathered.insert(id)?;
        }
        Ok(gathered)
    }
}
