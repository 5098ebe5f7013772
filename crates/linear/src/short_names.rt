//! A short cut to the numbers of the names `x1`, `x2`, .. which nearly all files have.
//!
//! A look-up in the hash set goes to memory three times, for the group of the hash, the header of the key and its bytes, and
//! in a file with many names each of the three misses the cache: reading then waits for names more than for all else. The
//! digits of such a name are a number, so its place can stand in a plain array, and one look finds it. What the array does not
//! have is asked of the set, so the array may lack what it likes, and running out of memory is no fault here. Leading zeros make
//! another name; so the digits are read to the base 11, where each list of digits has a number of its own.

ghost use Rattle.std.specs.Prelude.{◌≡◌, ℕ, ◌<◌, true, List, [], ◌∷◌, length, get_or, IfSome, ◌⊎◌};
ghost use Rattle.linear.specs.ShortNames.{IsShort, IsKeptAt, AreShortPlaces};
ghost use Rattle.linear.specs.Table.{has_name, place_of, IsTable};

use std::alloc::Global;
use std::marker::Model;

/// Numbers from here on get no further digit: with it they have at most six, and the array some megabytes.
const MANY: usize = 161_051;

/// The number of a name that is `x` and a few digits.
fn short_number(name: &[u8]) -> Option<usize>
    ensures { IfSome result (λ number. IsShort name.now number) }
{
    match name {
        [b'x', digits @ ..] => number_of_digits(digits),
        _ => None,
    }
}

/// The number of the name that is `x` and these digits.
fn number_of_digits(digits: &[u8]) -> Option<usize>
    ensures { IfSome result (λ number. IsShort (120 ∷ digits.now) number) }
{
    let mut number: usize = 0;
    for digit in digits {
        if *digit < b'0' || *digit > b'9' || number >= MANY {
            return None;
        }
        number = number * 11 + usize::from(*digit - 47);
    }
    Some(number)
}

/// Places of short names by their numbers, each with 1 more than the place, and 0 where none is kept.
#[derive(Drop)]
pub(crate) struct ShortNames {
    marks: Vec<u32>,
}

impl Model for ShortNames {
    ghost use Rattle.std.specs.Prelude.{ℕ, List};

    ghost Value = { List ℕ };

    ghost view = { λ s. s.marks.items };
}

impl ShortNames {
    /// No place.
    pub(crate) fn new(alloc: Global) -> Self
        ensures { result ≡ [] }
    {
        ShortNames {
            marks: Vec::new(alloc),
        }
    }

    /// The place of a name, where it is kept.
    pub(crate) fn find(&self, name: &[u8]) -> Option<u32>
        ensures { IfSome result (λ place. (names : List (List ℕ)) → IsTable names → AreShortPlaces names self.now
            → (has_name names name.now ≡ true) × (place ≡ place_of names name.now)) }
    {
        self.place(short_number(name)?)
    }

    /// The place that is kept for a number.
    #[inline(always)]
    pub(crate) fn place(&self, number: usize) -> Option<u32>
        ensures { IfSome result (IsKeptAt self.now number) }
    {
        let mark = *self.marks.as_slice().get(number)?;
        mark.checked_sub(1)
    }

    /// Keeps the place of a name that is short, unless memory is refused.
    pub(crate) fn keep(&mut self, name: &[u8], place: u32)
        ensures { (names : List (List ℕ)) → place < length names → get_or names place [] ≡ name.now → AreShortPlaces names self.old
            → AreShortPlaces names self.new }
    {
        if let Some(number) = short_number(name) {
            self.mark(number, place);
        }
    }

    /// Keeps a place for a number, unless memory is refused.
    fn mark(&mut self, number: usize, place: u32)
        ensures { (n p : ℕ) → IsKeptAt self.new n p → IsKeptAt self.old n p ⊎ ((n ≡ number) × (p ≡ place)) }
    {
        let (Some(mark), Some(wanted)) = (place.checked_add(1), number.checked_add(1)) else {
            return;
        };
        if self.marks.len() < wanted && self.marks.resize(wanted, 0).is_err() {
            return;
        }
        self.marks[number] = mark;
    }

    /// Forgets all places.
    pub(crate) fn clear(&mut self)
        ensures { self.new ≡ [] }
    {
        self.marks.clear();
    }
}
