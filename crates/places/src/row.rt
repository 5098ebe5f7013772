//! Where the constraints of ids that follow one another stand: a piece of the table of all places.
//!
//! Ids are given in order, and most of what is derived goes again; so what is there at a time moves along with the ids. A row whose
//! ids are all gone gives its memory back, and how many of them have a place is counted, so that this costs no look at them.

ghost use Rattle.std.specs.Prelude.{◌≡◌, ◌<◌, ◌≤◌, ◌⊎◌, ◌+◌, ◌^◌, ℕ, [], cond, length, MatchOption, None, OnErr, OnOk, Some};
ghost use Rattle.std.specs.BTreeMap.{is_at};
ghost use Rattle.std.specs.Ordering.{nat_cmp};
ghost use Rattle.places.specs.Places.{IsFirstPlaced, place_of};
ghost use Rattle.places.specs.Placed.{before, entries_from, one_if_placed};

use std::alloc::{AllocError, Global};
use std::marker::Model;

/// How many ids share a row.
pub(crate) const ROW_LENGTH: usize = 1024;

/// The places of the ids of one row, by their offsets in it. They take 32 bits, like ids.
#[derive(Drop)]
pub(crate) struct Row {
    /// By offset the number behind its place, 0 where it has none; behind the end none has one.
    numbers: Vec<u32>,
    /// How many offsets have a place.
    placed: usize,
    alloc: Global,
}

impl Model for Row {
    ghost use Rattle.std.specs.Prelude.{◌≡◌, ◌≤◌, ℕ, List, length};
    ghost use Rattle.places.specs.Placed.{entries_from};

    ghost Value = { List (ℕ × ℕ) };

    ghost view = { λ r. entries_from 0 r.numbers.items };

    ghost invariant = { λ r. (length r.numbers.items ≤ 1024) × (r.placed ≡ length (entries_from 0 r.numbers.items)) };
}

/// The number behind a place; none where 32 bits are too few for it.
fn number_behind(place: usize) -> Option<u32>
    ensures { MatchOption result (2 ^ 32 < place + 2) (λ number. number ≡ place + 1) }
{
    u32::try_from(place).ok()?.checked_add(1)
}

/// The place that a number stands behind.
fn place_before(number: u32) -> Option<usize>
    ensures { result ≡ before number }
{
    let place = number.checked_sub(1)?;
    Some(place as usize)
}

/// How many places a number stands behind.
fn count_before(number: u32) -> usize
    ensures { result ≡ one_if_placed number }
{
    number.min(1) as usize
}

/// Makes a row so long that an offset has a number in it.
fn make_room(numbers: &mut Vec<u32>, offset: usize) -> Result<(), AllocError>
    ensures same { (first : ℕ) → entries_from first numbers.new.items ≡ entries_from first numbers.old.items }
    ensures long { OnOk result (offset < length numbers.new.items) }
    ensures no_longer { length numbers.new.items ≤ length numbers.old.items ⊎ length numbers.new.items ≤ offset + 1 }
{
    if numbers.capacity() == 0 {
        numbers.reserve(ROW_LENGTH)?;
    }
    while numbers.len() <= offset {
        numbers.push(0)?;
    }
    Ok(())
}

impl Row {
    /// No offset has a place.
    pub(crate) fn new(alloc: Global) -> Self
        ensures { result ≡ [] }
    {
        Row {
            numbers: Vec::new(alloc),
            placed: 0,
            alloc,
        }
    }

    /// The place of an offset, if it has one.
    pub(crate) fn get(&self, offset: usize) -> Option<usize>
        ensures { result ≡ place_of self.now offset }
    {
        if self.numbers.len() <= offset {
            return None;
        }
        place_before(self.numbers[offset])
    }

    /// Gives an offset a place. A place that 32 bits are too few for is refused as a growth is.
    pub(crate) fn insert(&mut self, offset: usize, place: usize) -> Result<(), AllocError>
        requires { offset < 1024 }
        ensures given { OnOk result ((q : ℕ)
            → place_of self.new q ≡ cond (is_at (nat_cmp offset) q) (Some place) (place_of self.old q)) }
        ensures err { OnErr result (self.new ≡ self.old) }
    {
        let Some(number) = number_behind(place) else {
            return Err(AllocError);
        };
        make_room(&mut self.numbers, offset)?;
        self.placed = self.placed + 1 - count_before(self.numbers[offset]);
        self.numbers[offset] = number;
        Ok(())
    }

    /// Takes the place of an offset away, if it has one.
    pub(crate) fn remove(&mut self, offset: usize) -> Option<usize>
        ensures value { result ≡ place_of self.old offset }
        ensures taken { (q : ℕ) → place_of self.new q ≡ cond (is_at (nat_cmp offset) q) None (place_of self.old q) }
    {
        if self.numbers.len() <= offset {
            return None;
        }
        let number = self.numbers[offset];
        self.placed -= count_before(number);
        self.numbers[offset] = 0;
        place_before(number)
    }

    /// The least offset from one on that has a place.
    pub(crate) fn first_from(&self, offset: usize) -> Option<usize>
        ensures { MatchOption result ((k : ℕ) → offset ≤ k → place_of self.now k ≡ None) (IsFirstPlaced self.now offset) }
    {
        for next in offset..self.numbers.len() {
            if self.numbers[next] > 0 {
                return Some(next);
            }
        }
        None
    }

    /// Gives the memory back where no offset has a place.
    pub(crate) fn give_back(&mut self)
        ensures { self.new ≡ self.old }
    {
        if self.placed == 0 {
            self.numbers = Vec::new(self.alloc);
        }
    }
}
