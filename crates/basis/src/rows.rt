//! The constraints as rows and as columns of numbers in fixed point.
//!
//! A normal constraint `sum a l >= A` over literals becomes `sum a x >= b` over variables: `a ~x` is `a - a x`. Each row is divided by a
//! power of two, its scale, so that its norm is in `[1, 2)`: then what different rows lack compares without norms, and dividing is
//! undone exactly. Columns are not scaled, so that each variable stays between 0 and 1. Numbers that are 0 at that scale are left out;
//! whoever sums the constraints up by the multipliers sees the exact ones.

use fixed_point::{Entry, Fixed};
use normal_form::Normal;
use std::alloc::{AllocError, Global};

/// `sum of entries >= right`, a constraint times `2^-exponent`.
#[derive(Debug, Drop)]
struct ScaledRow {
    entries: Vec<Entry>,
    right: Fixed,
    exponent: u32,
}

/// All rows, and the same by columns. Rows and variables are counted from 0.
#[derive(Debug, Drop)]
pub struct Rows {
    alloc: Global,
    rows: Vec<ScaledRow>,
    columns: Vec<Vec<Entry>>,
}

/// How many bits a number has, from 0 (for 0 alone) to 128.
pub fn bit_length(number: u128) -> u32 {
    match number.checked_ilog2() {
        Some(log) => log.wrapping_add(1),
        None => 0,
    }
}

/// A number up to `2^120`, as one that may have a sign.
fn signed(number: u128) -> i128 {
    number.min(1 << 120) as i128
}

/// A coefficient at a literal as the one at its variable: with its sign changed where the literal is negated.
pub fn at_variable(coefficient: i128, negated: bool) -> i128 {
    if negated {
        coefficient.wrapping_neg()
    } else {
        coefficient
    }
}

/// The largest coefficient.
fn largest_coefficient(constraint: &Normal) -> u128 {
    let mut largest: u128 = 0;
    for place in 0..constraint.len() {
        largest = largest.max(constraint.term(place).coef);
    }
    largest
}

/// The power of two below the norm, at least 1: its exponent. Coefficients are cut to 31 bits first, so that their squares add up.
fn scale(constraint: &Normal) -> u32 {
    let cut = bit_length(largest_coefficient(constraint)).saturating_sub(31);
    let mut squares: u128 = 0;
    for place in 0..constraint.len() {
        let coefficient = constraint.term(place).coef.unbounded_shr(cut);
        squares = squares.saturating_add(coefficient.saturating_mul(coefficient));
    }
    cut.wrapping_add(bit_length(squares).saturating_sub(1) / 2)
}

/// The row of a constraint.
fn scaled_row(alloc: Global, constraint: &Normal) -> Result<ScaledRow, AllocError> {
    let exponent = scale(constraint);
    let mut entries = Vec::with_capacity(alloc, constraint.len())?;
    let mut right = signed(constraint.degree());
    for place in 0..constraint.len() {
        let term = constraint.term(place);
        let size = signed(term.coef);
        if term.negated {
            right = right.saturating_sub(size);
        }
        let value = Fixed::scaled(at_variable(size, term.negated), exponent);
        if !value.is_zero() {
            entries.push(Entry {
                place: term.var.0 as usize,
                value,
            })?;
        }
    }
    Ok(ScaledRow {
        entries,
        right: Fixed::scaled(right, exponent),
        exponent,
    })
}

/// Takes the coefficients of a row out of their columns.
fn leave(columns: &mut Vec<Vec<Entry>>, row: usize, entries: &[Entry]) {
    for entry in entries {
        if let Some(column) = columns.get_mut(entry.place) {
            column.retain(|other| other.place != row);
        }
    }
}

impl Rows {
    /// No rows, over so many variables.
    ///
    /// `AllocError` comes where a growth was refused.
    pub fn new(alloc: Global, variables: usize) -> Result<Self, AllocError> {
        let mut rows = Rows {
            alloc,
            rows: Vec::new(alloc),
            columns: Vec::new(alloc),
        };
        rows.widen(variables)?;
        Ok(rows)
    }

    /// Makes columns for so many variables, where there are fewer. They stand in no row yet.
    ///
    /// `AllocError` comes where a growth was refused; the rows are as they were then, and some of the columns may be there.
    pub fn widen(&mut self, variables: usize) -> Result<(), AllocError> {
        for _ in self.columns.len()..variables {
            self.columns.push(Vec::new(self.alloc))?;
        }
        Ok(())
    }

    /// How many rows there are.
    pub fn count(&self) -> usize {
        self.rows.len()
    }

    /// How many variables have columns.
    pub fn variables(&self) -> usize {
        self.columns.len()
    }

    /// Adds the row of a constraint, at the end. A variable of it that has no column stands in the row alone.
    ///
    /// `AllocError` comes where a growth was refused, and then nothing is added.
    pub fn add(&mut self, constraint: &Normal) -> Result<(), AllocError> {
        let row = scaled_row(self.alloc, constraint)?;
        self.rows.reserve(1)?;
        let place = self.rows.len();
        self.enter(place, row.entries.as_slice())?;
        self.rows.push(row)?;
        Ok(())
    }

    /// Takes the coefficients of a row out, if there is one: it holds everywhere then, and keeps its number and its scale.
    pub fn clear(&mut self, row: usize) {
        if let Some(scaled) = self.rows.get_mut(row) {
            leave(&mut self.columns, row, scaled.entries.as_slice());
            scaled.entries.clear();
            scaled.right = Fixed::ZERO;
        }
    }

    /// Puts the row of a constraint in the place of another one; nothing changes where there is no such row.
    ///
    /// `AllocError` comes where a growth was refused: the row is as it was then, or has no coefficients if its columns were what could not grow.
    pub fn put(&mut self, row: usize, constraint: &Normal) -> Result<(), AllocError> {
        if row >= self.rows.len() {
            return Ok(());
        }
        let scaled = scaled_row(self.alloc, constraint)?;
        self.clear(row);
        self.enter(row, scaled.entries.as_slice())?;
        if row < self.rows.len() {
            self.rows[row] = scaled;
        }
        Ok(())
    }

    /// Enters the coefficients of the row of a place into their columns. Room is made in all of them first.
    fn enter(&mut self, row: usize, entries: &[Entry]) -> Result<(), AllocError> {
        for entry in entries {
            if let Some(column) = self.columns.get_mut(entry.place) {
                column.reserve(1)?;
            }
        }
        for entry in entries {
            if let Some(column) = self.columns.get_mut(entry.place) {
                column.push(Entry {
                    place: row,
                    value: entry.value,
                })?;
            }
        }
        Ok(())
    }

    /// The coefficients of a row that are not 0 at its scale, by variable; none where there is no such row.
    pub fn row(&self, row: usize) -> &[Entry] {
        match self.rows.get(row) {
            Some(scaled) => scaled.entries.as_slice(),
            None => &[],
        }
    }

    /// The coefficients of a variable, by row; none where it has no column.
    pub fn column(&self, variable: usize) -> &[Entry] {
        match self.columns.get(variable) {
            Some(column) => column.as_slice(),
            None => &[],
        }
    }

    /// The right side of a row, at its scale; 0 where there is no such row.
    pub fn right(&self, row: usize) -> Fixed {
        match self.rows.get(row) {
            Some(scaled) => scaled.right,
            None => Fixed::ZERO,
        }
    }

    /// The scale of a row: it is its constraint times `2^-exponent`. The exponent is 0 where there is no such row, and 160 at most.
    pub fn exponent(&self, row: usize) -> u32 {
        match self.rows.get(row) {
            Some(scaled) => scaled.exponent,
            None => 0,
        }
    }
}
