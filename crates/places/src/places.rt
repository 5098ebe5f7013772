//! Where the constraint of each id stands.
//!
//! Ids are given in order, so that a table by id is short, and each question costs two looks; to search an ordered map costs more than
//! all else that is done for a constraint which comes and goes. The table is a list of rows: of a long proof, with little that is
//! there at a time, only rows with something in them take memory, and a table that is made anew costs what is there. The last row
//! keeps its memory while it is the last, since the next id comes into it.

ghost use Rattle.std.specs.Prelude.{◌≡◌, ◌<◌, ◌≤◌, ◌⊎◌, ◌+◌, ◌/◌, ◌%◌, ℕ, [], cond, length, MatchOption, None, OnErr, OnOk, Some};
ghost use Rattle.std.specs.BTreeMap.{is_at};
ghost use Rattle.std.specs.Ordering.{nat_cmp};
ghost use Rattle.places.specs.Places.{IsNextPlaced, place_of};
ghost use Rattle.places.specs.Placed.{AreRows, rows_from};

use super::row::{ROW_LENGTH, Row};
use propagate::Id;
use std::alloc::{AllocError, Global};
use std::marker::Model;

/// The places of ids.
#[derive(Drop)]
pub struct Places {
    rows: Vec<Row>,
    alloc: Global,
}

impl Model for Places {
    ghost use Rattle.std.specs.Prelude.{◌≤◌, ◌^◌, ℕ, List, length};
    ghost use Rattle.places.specs.Placed.{AreRows, rows_from};

    ghost Value = { List (ℕ × ℕ) };

    ghost view = { λ p. rows_from 0 p.rows.items };

    ghost invariant = { λ p. (length p.rows.items ≤ 2 ^ 22) × AreRows p.rows.items };
}

/// The row of an id.
fn row_of(id: Id) -> usize
    ensures { result ≡ id / 1024 }
{
    id as usize / ROW_LENGTH
}

/// Where an id stands in its row.
fn offset_of(id: Id) -> usize
    ensures { result ≡ id % 1024 }
{
    id as usize % ROW_LENGTH
}

/// Gives the memory of a row back, if nothing is in it and it is not the last one.
fn leave(rows: &mut Vec<Row>, index: usize)
    ensures { rows.new.items ≡ rows.old.items }
{
    if index < rows.len().saturating_sub(1) {
        rows[index].give_back();
    }
}

/// Makes a table so long that a row is in it. The one that was the last is left.
fn make_room(rows: &mut Vec<Row>, alloc: Global, row: usize) -> Result<(), AllocError>
    ensures same { (first : ℕ) → rows_from first rows.new.items ≡ rows_from first rows.old.items }
    ensures are_rows { AreRows rows.old.items → AreRows rows.new.items }
    ensures long { OnOk result (row < length rows.new.items) }
    ensures no_longer { length rows.new.items ≤ length rows.old.items ⊎ length rows.new.items ≤ row + 1 }
{
    while rows.len() <= row {
        rows.push(Row::new(alloc))?;
        let before = rows.len().saturating_sub(2);
        leave(rows, before);
    }
    Ok(())
}

impl Places {
    /// No id has a place.
    pub fn new(alloc: Global) -> Self
        ensures { result ≡ [] }
    {
        Places {
            rows: Vec::new(alloc),
            alloc,
        }
    }

    /// How many rows there are, empty ones too: what it costs to make the table anew, beside what is in it.
    pub fn row_count(&self) -> usize {
        self.rows.len()
    }

    /// The place of an id, if it has one.
    pub fn get(&self, id: Id) -> Option<usize>
        ensures { result ≡ place_of self.now id }
    {
        let row = row_of(id);
        if self.rows.len() <= row {
            return None;
        }
        self.rows[row].get(offset_of(id))
    }

    /// Gives an id a place.
    ///
    /// `AllocError` comes where a growth was refused, or where 32 bits are too few for the place: nothing changes then.
    pub fn insert(&mut self, id: Id, place: usize) -> Result<(), AllocError>
        ensures given { OnOk result ((q : ℕ) → place_of self.new q ≡ cond (is_at (nat_cmp id) q) (Some place) (place_of self.old q)) }
        ensures err { OnErr result (self.new ≡ self.old) }
    {
        let row = row_of(id);
        make_room(&mut self.rows, self.alloc, row)?;
        match self.rows[row].insert(offset_of(id), place) {
            Err(_) => return Err(AllocError),
            Ok(()) => return Ok(()),
        }
    }

    /// Takes the place of an id away, if it has one.
    pub fn remove(&mut self, id: Id) -> Option<usize>
        ensures value { result ≡ place_of self.old id }
        ensures taken { (q : ℕ) → place_of self.new q ≡ cond (is_at (nat_cmp id) q) None (place_of self.old q) }
    {
        let row = row_of(id);
        if self.rows.len() <= row {
            return None;
        }
        let place = self.rows[row].remove(offset_of(id));
        leave(&mut self.rows, row);
        place
    }

    /// The least id above another that has a place.
    pub fn after(&self, id: Id) -> Option<Id>
        ensures { MatchOption result ((k : ℕ) → id < k → place_of self.now k ≡ None) (IsNextPlaced self.now id) }
    {
        let mut offset = offset_of(id) + 1;
        for row in row_of(id)..self.rows.len() {
            if let Some(next) = self.rows[row].first_from(offset) {
                return Some((ROW_LENGTH * row + next) as u32);
            }
            offset = 0;
        }
        None
    }
}
