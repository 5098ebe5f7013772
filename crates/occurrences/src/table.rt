//! Lists of entries, by the numbers of literals.

ghost use Rattle.std.specs.Prelude.{◌≡◌, ◌-◌, ◌<◌, ◌≤◌, ◌++◌, ◌∷◌, ◌⊎◌, [], ℕ, OnOk, OnErr, length, take, slice_index_or};
ghost use Rattle.std.specs.Prelude.{slice_set};
ghost use Rattle.std.specs.List.{swap_remove};

use std::alloc::{AllocError, Global};
use std::marker::Model;

/// A list of entries for each number below a bound.
#[derive(Drop)]
pub struct Table<E> {
    rows: Vec<Vec<E>>,
}

impl<E> Model for Table<E> {
    ghost use Rattle.std.specs.Prelude.{List, map};

    ghost Value = { List (List E) };

    ghost view = { λ t. map (λ v. v.items) t.rows.items };
}

impl<E: Copy> Table<E> {
    /// No lists.
    pub fn new(alloc: Global) -> Self
        ensures { result ≡ [] }
    {
        Table {
            rows: Vec::new(alloc),
        }
    }

    /// Empty lists for the numbers below a bound that have none.
    pub fn widen(&mut self, alloc: Global, bound: usize) -> Result<(), AllocError>
        ensures kept { (k : ℕ) → slice_index_or self.new k [] ≡ slice_index_or self.old k [] }
        ensures longer { length self.old ≤ length self.new }
        ensures most { (length self.new ≡ length self.old) ⊎ (length self.new ≤ bound) }
        ensures ok { OnOk result (bound ≤ length self.new) }
    {
        for _ in self.rows.len()..bound {
            self.rows.push(Vec::new(alloc))?;
        }
        Ok(())
    }

    /// How many lists there are.
    pub fn len(&self) -> usize
        ensures { result ≡ length self.now }
    {
        self.rows.len()
    }

    /// The list of a number.
    pub fn row(&self, number: usize) -> &[E]
        requires { number < length self.now }
        ensures { result.now ≡ slice_index_or self.now number [] }
    {
        self.rows[number].as_slice()
    }

    /// The list of a number, and none above the bound.
    pub fn row_or_none(&self, number: usize) -> &[E]
        ensures { result.now ≡ slice_index_or self.now number [] }
    {
        match self.rows.get(number) {
            Some(row) => row.as_slice(),
            None => &[],
        }
    }

    /// One entry more at the end of a list.
    pub fn push(&mut self, number: usize, entry: E) -> Result<(), AllocError>
        requires { number < length self.old }
        ensures ok { OnOk result (self.new ≡ slice_set self.old number
            (slice_index_or self.old number [] ++ entry ∷ [])) }
        ensures err { OnErr result (self.new ≡ self.old) }
    {
        match self.rows[number].push(entry) {
            Err(_) => return Err(AllocError),
            Ok(()) => return Ok(()),
        }
    }

    /// A list without its last entry.
    pub fn pop(&mut self, number: usize)
        requires { number < length self.old }
        ensures { self.new ≡ slice_set self.old number
            (take (length (slice_index_or self.old number []) - 1) (slice_index_or self.old number [])) }
    {
        self.rows[number].pop();
    }

    /// Takes the entry at an index off a list; the last one takes its place.
    pub fn swap_remove(&mut self, number: usize, index: usize) -> E
        requires number { number < length self.old }
        requires index { index < length (slice_index_or self.old number []) }
        ensures { self.new ≡ slice_set self.old number
            (swap_remove (slice_index_or self.old number []) index result) }
    {
        self.rows[number].swap_remove(index)
    }

    /// Gives a number another list.
    fn replace(&mut self, number: usize, row: Vec<E>)
        requires { number < length self.old }
        ensures { self.new ≡ slice_set self.old number row.items }
    {
        self.rows[number] = row;
    }

    /// One list more at the end.
    fn push_row(&mut self, row: Vec<E>) -> Result<(), AllocError>
        ensures ok { OnOk result (self.new ≡ self.old ++ row.items ∷ []) }
        ensures err { OnErr result (self.new ≡ self.old) }
    {
        match self.rows.push(row) {
            Err(_) => return Err(AllocError),
            Ok(()) => return Ok(()),
        }
    }

    /// Gives a number a list in place of the one that it has. An empty one needs no memory.
    pub fn put(&mut self, alloc: Global, number: usize, row: Vec<E>) -> Result<(), AllocError>
        ensures others { (k : ℕ) → (k ≡ number → ⊥) → slice_index_or self.new k [] ≡ slice_index_or self.old k [] }
        ensures ok { OnOk result (slice_index_or self.new number [] ≡ row.items) }
    {
        let known = self.len();
        if number < known {
            self.replace(number, row);
            return Ok(());
        }
        if row.is_empty() {
            return Ok(());
        }
        self.widen(alloc, number)?;
        self.push_row(row)?;
        Ok(())
    }
}
