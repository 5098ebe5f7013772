//! The entries of all literals, by the literals' numbers.
//!
//! Small entries and large ones stand in two tables of one shape, and the second has no row as long as no entry is large: so of most
//! files it takes no memory.

ghost use Rattle.std.specs.Prelude.{◌≡◌, ◌-◌, ◌<◌, ◌≤◌, ◌++◌, ◌∷◌, [], ℕ, OnOk, OnErr, length, take, slice_index_or};
ghost use Rattle.std.specs.Prelude.{slice_set};
ghost use Rattle.occurrences.specs.Rows.{all_in};

use super::occurrence::{Occurrence, Row, SmallOccurrence};
use super::table::Table;
use std::alloc::{AllocError, Global};
use std::marker::Model;

/// A list of entries for each number below a bound.
#[derive(Drop)]
pub struct EntryTable {
    small: Table<SmallOccurrence>,
    rest: Table<Occurrence>,
    alloc: Global,
}

impl Model for EntryTable {
    ghost use Rattle.std.specs.Prelude.{◌≤◌, List, length};
    ghost use Rattle.occurrences.specs.declared.occurrence.Occurrence.{Occurrence};
    ghost use Rattle.occurrences.specs.Rows.{joined};

    ghost Value = { List (List Occurrence) };

    ghost view = { λ t. joined t.small t.rest };

    ghost invariant = { λ t. length t.rest ≤ length t.small };
}

impl EntryTable {
    /// No lists.
    pub fn new(alloc: Global) -> Self
        ensures { result ≡ [] }
    {
        EntryTable {
            small: Table::new(alloc),
            rest: Table::new(alloc),
            alloc,
        }
    }

    /// Empty lists for the numbers below a bound that have none.
    pub fn widen(&mut self, bound: usize) -> Result<(), AllocError>
        ensures kept { (k : ℕ) → slice_index_or self.new k [] ≡ slice_index_or self.old k [] }
        ensures longer { length self.old ≤ length self.new }
        ensures ok { OnOk result (bound ≤ length self.new) }
    {
        self.small.widen(self.alloc, bound)
    }

    /// The list of a number, and none above the bound.
    pub fn row(&self, number: usize) -> Row<'_>
        ensures { all_in result ≡ slice_index_or self.now number [] }
    {
        Row {
            small: self.small.row_or_none(number),
            rest: self.rest.row_or_none(number),
        }
    }

    /// One entry more at the end of a list.
    pub fn push(&mut self, number: usize, entry: Occurrence) -> Result<(), AllocError>
        requires { number < length self.old }
        ensures ok { OnOk result (self.new ≡ slice_set self.old number
            (slice_index_or self.old number [] ++ entry ∷ [])) }
        ensures err { OnErr result (self.new ≡ self.old) }
    {
        if self.rest.row_or_none(number).is_empty() {
            if let Some(small) = entry.narrowed() {
                return self.small.push(number, small);
            }
        }
        self.rest.widen(self.alloc, self.small.len())?;
        self.rest.push(number, entry)
    }

    /// A list without its last entry.
    pub fn pop(&mut self, number: usize)
        requires { number < length self.old }
        ensures { self.new ≡ slice_set self.old number
            (take (length (slice_index_or self.old number []) - 1) (slice_index_or self.old number [])) }
    {
        if self.rest.row_or_none(number).is_empty() {
            self.small.pop(number);
        } else {
            self.rest.pop(number);
        }
    }
}
