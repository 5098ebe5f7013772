//! Where a literal stands, in constraints of both kinds.

ghost use Rattle.std.specs.Prelude.{◌≡◌, ◌<◌, length, slice_index_or};
ghost use Rattle.occurrences.specs.declared.occurrence.Occurrence.{Occurrence};
ghost use Rattle.ledger.specs.Entered.{all_of};

use occurrences::Row;

/// Where a literal stands: in constraints that are counted, and in clauses that are watched.
#[derive(Clone, Copy, Debug)]
pub struct Entries<'a> {
    pub(crate) counted: Row<'a>,
    pub(crate) watched: Row<'a>,
}

impl<'a> Entries<'a> {
    /// How many there are.
    pub fn len(self) -> usize
        ensures { result ≡ length (all_of self.entry) }
    {
        self.counted.len() + self.watched.len()
    }

    /// The place of the entry at an index, where those that are counted come first.
    pub fn place(self, index: usize) -> usize
        requires { index < length (all_of self) }
        ensures { (d : Occurrence) → result ≡ (slice_index_or (all_of self.entry) index d).place }
    {
        let counted = self.counted.len();
        if index < counted {
            self.counted.get(index).place
        } else {
            self.watched.get(index - counted).place
        }
    }
}
