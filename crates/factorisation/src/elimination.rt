//! The elimination that makes the triangles of a kernel.
//!
//! Rows and columns with one entry left are taken first: they change no other number, and most kernels come to their end so. Of what is left the
//! shortest row is taken, and in it, of the entries that are not much smaller than its largest, the one in the shortest column (Markowitz 1957),
//! so that few entries come to others.

use super::triangles::{Pivot, Triangles, from_end};
use basis::{Basis, Rows};
use fixed_point::{Entry, Fixed, Number, Work};
use std::alloc::{AllocError, Global};
use std::mem;

/// Pivots up to this are taken for 0, in units of `2^-32`.
const SINGULAR: i64 = 1 << 16;

/// Numbers up to this that are left of others are taken for 0, in units of `2^-32`.
const NOTHING: i64 = 8;

/// A pivot is at least the largest number of its row over this, in units of `2^-32`.
const THRESHOLD: i64 = 10 << 32;

/// The rows and columns that are left, by their places in the basis.
#[derive(Drop)]
struct Elimination {
    alloc: Global,
    rows: Vec<Vec<Entry>>,
    /// Where a column has or had entries.
    columns: Vec<Vec<usize>>,
    /// How many entries a column has.
    counts: Vec<usize>,
    is_row_left: Vec<bool>,
    is_column_left: Vec<bool>,
    /// Rows and columns that had one entry once.
    single_rows: Vec<usize>,
    single_columns: Vec<usize>,
    /// Where a row that is changed has a column: one more than the index of its entry.
    spots: Vec<usize>,
}

/// The row of a pivot, and what it has beside that.
#[derive(Drop)]
struct PivotRow {
    pivot: Fixed,
    others: Vec<Entry>,
}

/// A place of the kernel.
#[derive(Clone, Copy)]
struct Spot {
    row: usize,
    column: usize,
}

/// The index of a column's entry, if a row has it.
fn index_of(row: &[Entry], column: usize) -> Option<usize> {
    for (index, entry) in row.iter().enumerate() {
        if entry.place == column {
            return Some(index);
        }
    }
    None
}

/// Whether something is marked.
fn is_marked(marks: &[bool], place: usize) -> bool {
    marks.get(place) == Some(&true)
}

/// Takes a mark away.
fn unmark(marks: &mut [bool], place: usize) {
    if place < marks.len() {
        marks[place] = false;
    }
}

/// The largest number of a row.
fn largest_of(row: &[Entry]) -> Fixed {
    let mut largest = Fixed::ZERO;
    for entry in row {
        largest = largest.greater(entry.value.size());
    }
    largest
}

impl Elimination {
    /// The kernel of a basis.
    fn of(alloc: Global, rows: &Rows, basis: &Basis) -> Result<Self, AllocError> {
        let count = basis.len();
        let mut elimination = Elimination {
            alloc,
            rows: Vec::with_capacity(alloc, count)?,
            columns: Vec::with_capacity(alloc, count)?,
            counts: Vec::from_elem(alloc, 0, count)?,
            is_row_left: Vec::from_elem(alloc, true, count)?,
            is_column_left: Vec::from_elem(alloc, true, count)?,
            single_rows: Vec::new(alloc),
            single_columns: Vec::new(alloc),
            spots: Vec::from_elem(alloc, 0, count)?,
        };
        for _ in 0..count {
            elimination.columns.push(Vec::new(alloc))?;
        }
        for row in basis.tight() {
            elimination.add_row(rows.row(*row), basis)?;
        }
        elimination.find_singles()?;
        Ok(elimination)
    }

    /// Adds a row.
    fn add_row(&mut self, entries: &[Entry], basis: &Basis) -> Result<(), AllocError> {
        let place = self.rows.len();
        let mut row = Vec::new(self.alloc);
        for entry in entries {
            if let Some(column) = basis.place_of_variable(entry.place) {
                row.push(Entry {
                    place: column,
                    value: entry.value,
                })?;
                self.note_entry(place, column)?;
            }
        }
        self.rows.push(row)?;
        Ok(())
    }

    /// Notes that a row has an entry in a column.
    fn note_entry(&mut self, row: usize, column: usize) -> Result<(), AllocError> {
        if let Some(list) = self.columns.get_mut(column) {
            list.push(row)?;
        }
        if let Some(count) = self.counts.get_mut(column) {
            *count = count.saturating_add(1);
        }
        Ok(())
    }

    /// Notes that a row has no entry in a column any more.
    fn note_no_entry(&mut self, column: usize) -> Result<(), AllocError> {
        if let Some(count) = self.counts.get_mut(column) {
            *count = count.saturating_sub(1);
            if *count == 1 {
                self.single_columns.push(column)?;
            }
        }
        Ok(())
    }

    /// Finds the rows and columns that have one entry at first.
    fn find_singles(&mut self) -> Result<(), AllocError> {
        for (place, row) in self.rows.iter().enumerate() {
            if row.len() == 1 {
                self.single_rows.push(place)?;
            }
        }
        for (place, count) in self.counts.iter().enumerate() {
            if *count == 1 {
                self.single_columns.push(place)?;
            }
        }
        Ok(())
    }

    /// The entries of a row that is left.
    fn row(&self, place: usize) -> &[Entry] {
        match self.rows.get(place) {
            Some(row) => row.as_slice(),
            None => &[],
        }
    }

    /// Where the next pivot is, if one is left.
    fn next(&mut self, work: &mut Work) -> Option<Spot> {
        if let Some(spot) = self.next_single_row() {
            return Some(spot);
        }
        if let Some(spot) = self.next_single_column() {
            return Some(spot);
        }
        work.count(self.rows.len());
        self.shortest()
    }

    /// The entry of a row that has one, if there is such a row.
    fn next_single_row(&mut self) -> Option<Spot> {
        for _ in 0..self.single_rows.len() {
            let row = self.single_rows.pop()?;
            if is_marked(self.is_row_left.as_slice(), row)
                && let [entry] = self.row(row)
            {
                return Some(Spot {
                    row,
                    column: entry.place,
                });
            }
        }
        None
    }

    /// The entry of a column that has one, if there is such a column.
    fn next_single_column(&mut self) -> Option<Spot> {
        for _ in 0..self.single_columns.len() {
            let column = self.single_columns.pop()?;
            if is_marked(self.is_column_left.as_slice(), column)
                && self.counts.get(column) == Some(&1)
                && let Some(row) = self.row_with(column)
            {
                return Some(Spot { row, column });
            }
        }
        None
    }

    /// A row that is left and has an entry in a column.
    fn row_with(&self, column: usize) -> Option<usize> {
        let list = self.columns.get(column)?;
        for row in list {
            if is_marked(self.is_row_left.as_slice(), *row)
                && index_of(self.row(*row), column).is_some()
            {
                return Some(*row);
            }
        }
        None
    }

    /// The best entry of the shortest row.
    fn shortest(&self) -> Option<Spot> {
        let mut least = usize::MAX;
        let mut found = None;
        for (place, row) in self.rows.iter().enumerate() {
            if row.len() < least && is_marked(self.is_row_left.as_slice(), place) {
                least = row.len();
                found = Some(place);
            }
        }
        let row = found?;
        let column = self.best_column(self.row(row))?;
        Some(Spot { row, column })
    }

    /// Of the entries of a row that are not much smaller than its largest, the one in the shortest column.
    fn best_column(&self, row: &[Entry]) -> Option<usize> {
        let least = largest_of(row).over(Fixed::of_units(THRESHOLD));
        let mut shortest = usize::MAX;
        let mut found = None;
        for entry in row {
            let count = self.counts.get(entry.place).copied().unwrap_or(usize::MAX);
            if count < shortest && !least.is_above(entry.value.size()) {
                shortest = count;
                found = Some(entry.place);
            }
        }
        found
    }

    /// Takes the row of a pivot out, with what it has beside the pivot; none where the pivot is about 0.
    fn take_row(&mut self, spot: Spot) -> Result<Option<PivotRow>, AllocError> {
        let Some(row) = self.rows.get_mut(spot.row) else {
            return Ok(None);
        };
        let Some(index) = index_of(row.as_slice(), spot.column) else {
            return Ok(None);
        };
        let mut others = mem::replace(row, Vec::new(self.alloc));
        let Some(pivot) = others.as_slice().get(index).map(|entry| entry.value) else {
            return Ok(None);
        };
        if pivot.size().units() <= SINGULAR {
            return Ok(None);
        }
        if index < others.len() {
            others.swap_remove(index);
        }
        unmark(self.is_row_left.as_mut_slice(), spot.row);
        unmark(self.is_column_left.as_mut_slice(), spot.column);
        for entry in &others {
            self.note_no_entry(entry.place)?;
        }
        Ok(Some(PivotRow { pivot, others }))
    }

    /// Takes a column's entry out of a row, if it is left and has one.
    fn take_entry(&mut self, row: usize, column: usize) -> Option<Fixed> {
        if !is_marked(self.is_row_left.as_slice(), row) {
            return None;
        }
        let entries = self.rows.get_mut(row)?;
        let index = index_of(entries.as_slice(), column)?;
        if index < entries.len() {
            return Some(entries.swap_remove(index).value);
        }
        None
    }

    /// Takes the row of a pivot from all others that have its column; by which multiples, by place of the rows.
    fn eliminate(
        &mut self,
        column: usize,
        pivot: Fixed,
        others: &[Entry],
        work: &mut Work,
    ) -> Result<Vec<Entry>, AllocError> {
        let mut multiples = Vec::new(self.alloc);
        let Some(list) = self.columns.get_mut(column) else {
            return Ok(multiples);
        };
        let list = mem::replace(list, Vec::new(self.alloc));
        for row in &list {
            if let Some(value) = self.take_entry(*row, column) {
                let factor = value.over(pivot);
                multiples.push(Entry {
                    place: *row,
                    value: factor,
                })?;
                self.take_multiple(*row, factor, others)?;
                work.count(others.len().saturating_add(self.row(*row).len()));
            }
        }
        Ok(multiples)
    }

    /// Takes a multiple of some entries from a row.
    fn take_multiple(
        &mut self,
        row: usize,
        factor: Fixed,
        others: &[Entry],
    ) -> Result<(), AllocError> {
        if !others.is_empty() {
            self.mark_spots(row);
            for other in others {
                self.take_product(row, factor, *other)?;
            }
            self.clear_spots(row);
            self.drop_small(row)?;
        }
        if self.row(row).len() == 1 {
            self.single_rows.push(row)?;
        }
        Ok(())
    }

    /// Notes where a row has its columns.
    fn mark_spots(&mut self, row: usize) {
        if let Some(entries) = self.rows.get(row) {
            for (index, entry) in entries.iter().enumerate() {
                if let Some(spot) = self.spots.get_mut(entry.place) {
                    *spot = index.saturating_add(1);
                }
            }
        }
    }

    /// Forgets where a row has its columns.
    fn clear_spots(&mut self, row: usize) {
        if let Some(entries) = self.rows.get(row) {
            for entry in entries {
                if let Some(spot) = self.spots.get_mut(entry.place) {
                    *spot = 0;
                }
            }
        }
    }

    /// Takes a multiple of an entry from a row whose columns are marked.
    fn take_product(&mut self, row: usize, factor: Fixed, other: Entry) -> Result<(), AllocError> {
        let spot = self.spots.get(other.place).copied().unwrap_or(0);
        let Some(entries) = self.rows.get_mut(row) else {
            return Ok(());
        };
        let negated = factor.negated();
        if let Some(index) = spot.checked_sub(1)
            && index < entries.len()
        {
            let value = entries[index].value.plus_product(negated, other.value);
            entries[index] = Entry {
                place: other.place,
                value,
            };
            return Ok(());
        }
        entries.push(Entry {
            place: other.place,
            value: negated.times(other.value),
        })?;
        self.note_entry(row, other.place)
    }

    /// Takes out what is about 0 in a row.
    fn drop_small(&mut self, row: usize) -> Result<(), AllocError> {
        let count = self.row(row).len();
        for step in 0..count {
            if let Some(column) = self.take_small(row, from_end(count, step)) {
                self.note_no_entry(column)?;
            }
        }
        Ok(())
    }

    /// Takes an entry out of a row if it is about 0; its column then.
    fn take_small(&mut self, row: usize, index: usize) -> Option<usize> {
        let entries = self.rows.get_mut(row)?;
        if index < entries.len() && entries[index].value.size().units() <= NOTHING {
            return Some(entries.swap_remove(index).place);
        }
        None
    }
}

/// Names the rows of entries by their numbers, in place of their places in the basis.
fn name_rows(entries: &mut [Entry], basis: &Basis) {
    for entry in entries.iter_mut() {
        if let Some(row) = basis.tight().get(entry.place) {
            entry.place = *row;
        }
    }
}

/// Names the columns of entries by their variables, in place of their places in the basis.
fn name_variables(entries: &mut [Entry], basis: &Basis) {
    for entry in entries.iter_mut() {
        if let Some(variable) = basis.basic().get(entry.place) {
            entry.place = *variable;
        }
    }
}

/// Which rows of earlier pivots have the variable of a pivot. The entries of the rows are by place of the columns.
fn columns_of(
    alloc: Global,
    triangles: &Triangles,
    columns: &[usize],
) -> Result<Vec<Vec<Entry>>, AllocError> {
    let mut pivots = Vec::from_elem(alloc, 0, columns.len())?;
    let mut lists = Vec::with_capacity(alloc, columns.len())?;
    for (place, column) in columns.iter().enumerate() {
        if *column < pivots.len() {
            pivots[*column] = place;
        }
        lists.push(Vec::new(alloc))?;
    }
    for (pivot, row) in triangles.pivots.iter().zip(triangles.upper_rows.iter()) {
        for entry in row {
            let place = pivots.as_slice().get(entry.place).copied().unwrap_or(0);
            if let Some(list) = lists.get_mut(place) {
                list.push(Entry {
                    place: pivot.row,
                    value: entry.value,
                })?;
            }
        }
    }
    Ok(lists)
}

/// The triangles of the kernel of a basis; none where it has no inverse. What it does is counted.
pub(crate) fn triangles_of(
    alloc: Global,
    rows: &Rows,
    basis: &Basis,
    work: &mut Work,
) -> Result<Option<Triangles>, AllocError> {
    let mut elimination = Elimination::of(alloc, rows, basis)?;
    let mut triangles = Triangles::new(alloc);
    let mut columns = Vec::with_capacity(alloc, basis.len())?;
    for _ in 0..basis.len() {
        let Some(spot) = elimination.next(work) else {
            return Ok(None);
        };
        let Some(PivotRow { pivot, others }) = elimination.take_row(spot)? else {
            return Ok(None);
        };
        let mut multiples = elimination.eliminate(spot.column, pivot, others.as_slice(), work)?;
        name_rows(multiples.as_mut_slice(), basis);
        triangles.pivots.push(Pivot {
            row: basis.tight().get(spot.row).copied().unwrap_or(0),
            variable: basis.basic().get(spot.column).copied().unwrap_or(0),
            value: pivot,
        })?;
        triangles.lower.push(multiples)?;
        triangles.upper_rows.push(others)?;
        columns.push(spot.column)?;
    }
    triangles.upper_columns = columns_of(alloc, &triangles, columns.as_slice())?;
    for row in triangles.upper_rows.iter_mut() {
        name_variables(row.as_mut_slice(), basis);
    }
    Ok(Some(triangles))
}
