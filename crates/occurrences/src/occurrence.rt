//! Where literals stand, and the numbers by which literals are looked up.
//!
//! A constraint changes its slack exactly where the opposite of a new literal stands in it, so each literal has a
//! list of the places where it stands, with its coefficient there: what is touched is found without a look at the
//! rest, and without a look at the constraint. Of clauses that are watched the list tells only which ones have a literal.
//!
//! Propagation reads these lists more than anything else, so an entry takes eight bytes where its numbers fit in 32 bits. The entries
//! before the first one with a larger number are kept small, that one and all after it are not; nobody above sees which.

ghost use Rattle.std.specs.Prelude.{◌≡◌, ◌<◌, ◌≤◌, ◌^◌, ◌⊎◌, MatchOption, length, slice_index_or};
ghost use Rattle.occurrences.specs.declared.occurrence.Occurrence.{Occurrence};
ghost use Rattle.occurrences.specs.Rows.{all_in, widened};

/// A place of a constraint, and the coefficient that a literal has there.
#[derive(Clone, Copy, Debug, PartialEq, Eq)]
pub struct Occurrence {
    pub place: usize,
    pub coef: u128,
}

/// An entry whose numbers fit in 32 bits.
#[derive(Clone, Copy, Debug)]
pub(crate) struct SmallOccurrence {
    place: u32,
    coef: u32,
}

impl SmallOccurrence {
    /// The same entry with wide numbers.
    fn widened(self) -> Occurrence
        ensures { result ≡ widened self }
    {
        Occurrence {
            place: self.place as usize,
            coef: u128::from(self.coef),
        }
    }
}

impl Occurrence {
    /// The small form, if both numbers fit.
    pub(crate) fn narrowed(self) -> Option<SmallOccurrence>
        ensures { MatchOption result ((2 ^ 32 ≤ self.place) ⊎ (2 ^ 32 ≤ self.coef)) (λ small. widened small ≡ self) }
    {
        let place = u32::try_from(self.place).ok()?;
        let coef = u32::try_from(self.coef).ok()?;
        Some(SmallOccurrence { place, coef })
    }
}

/// The entries of one literal: small ones, and after them the rest from the first large one on.
#[derive(Clone, Copy, Debug)]
pub struct Row<'a> {
    pub(crate) small: &'a [SmallOccurrence],
    pub(crate) rest: &'a [Occurrence],
}

impl<'a> Row<'a> {
    /// How many entries there are.
    pub fn len(self) -> usize
        ensures value { result ≡ length (all_in self.entry) }
        ensures few { length (all_in self.entry) < 2 ^ 62 }
    {
        self.small.len() + self.rest.len()
    }

    /// The entry at an index.
    pub fn get(self, index: usize) -> Occurrence
        requires { index < length (all_in self) }
        ensures { (d : Occurrence) → result ≡ slice_index_or (all_in self.entry) index d }
    {
        let small = self.small.len();
        if index < small {
            self.small[index].widened()
        } else {
            self.rest[index - small]
        }
    }
}
