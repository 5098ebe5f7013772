//! The tableau row of what leaves: how it moves with each tight row's slack and each variable at a bound.
//!
//! A violated row is written over the nonbasic variables and the slacks of the tight rows, a basic variable by its row of the inverse.
//! Signs are such that what leaves has to grow. Most entries are 0, so both parts are lists of those that are not.

use super::pricing::Leaving;
use basis::{Basis, Rows};
use factorisation::{Inverse, Scratch};
use fixed_point::{Entry, Fixed, Scattered, Sum, Work};
use std::alloc::{AllocError, Global};

/// Entries up to this are taken for 0, in units of `2^-32`.
const ZERO: i64 = 4;

/// The tableau row that a step looks at.
#[derive(Debug, Drop)]
pub struct TableauRow {
    /// The entries at the slacks of tight rows, by the place of each.
    weights: Vec<Entry>,
    /// The entries at variables that stand at bounds.
    entries: Vec<Entry>,
    /// The coefficients of the basic variables in what leaves, by variable.
    basic: Vec<Entry>,
    /// A number for each tight row.
    numbers: Vec<Fixed>,
    /// Sums by variable.
    sums: Scattered<Sum>,
}

impl TableauRow {
    /// One over no variables.
    pub fn new(alloc: Global) -> Self {
        TableauRow {
            weights: Vec::new(alloc),
            entries: Vec::new(alloc),
            basic: Vec::new(alloc),
            numbers: Vec::new(alloc),
            sums: Scattered::new(alloc),
        }
    }

    /// Makes room for so many variables, where there are fewer.
    ///
    /// `AllocError` comes where a growth was refused: some of it may be there then.
    pub fn widen(&mut self, variables: usize) -> Result<(), AllocError> {
        self.sums.widen(variables)
    }

    /// The entries at the slacks of tight rows, by the place of each.
    pub fn weights(&self) -> &[Entry] {
        self.weights.as_slice()
    }

    /// The entries at variables that stand at bounds.
    pub fn entries(&self) -> &[Entry] {
        self.entries.as_slice()
    }

    /// Makes the row of what leaves.
    ///
    /// `AllocError` comes where a growth was refused: the row is not whole then.
    pub fn form(
        &mut self,
        leaving: Leaving,
        rows: &Rows,
        basis: &Basis,
        inverse: &Inverse,
        scratch: &mut Scratch,
        work: &mut Work,
    ) -> Result<(), AllocError> {
        self.clear();
        match leaving {
            Leaving::Row(row) => {
                self.gather_basic(rows.row(row), basis)?;
                self.sums.add_multiple(Fixed::ONE, rows.row(row))?;
            }
            Leaving::Below(place) => self.gather_one(place, Fixed::ONE, basis)?,
            Leaving::Above(place) => self.gather_one(place, Fixed::ONE.negated(), basis)?,
        }
        inverse.weights(
            scratch,
            self.basic.as_slice(),
            basis,
            &mut self.numbers,
            work,
        )?;
        for (place, number) in self.numbers.iter().enumerate() {
            keep(&mut self.weights, place, *number)?;
        }
        self.take_tight_rows(rows, basis, work)?;
        self.round_entries(basis)
    }

    /// Clears what is left of the row before.
    fn clear(&mut self) {
        self.sums.clear();
        self.weights.clear();
        self.entries.clear();
        self.basic.clear();
    }

    /// Gathers the coefficients of basic variables in a row.
    fn gather_basic(&mut self, row: &[Entry], basis: &Basis) -> Result<(), AllocError> {
        for entry in row {
            if basis.is_basic(entry.place) {
                self.basic.push(*entry)?;
            }
        }
        Ok(())
    }

    /// Gathers a basic variable alone.
    fn gather_one(&mut self, place: usize, value: Fixed, basis: &Basis) -> Result<(), AllocError> {
        if let Some(variable) = basis.basic().get(place) {
            self.basic.push(Entry {
                place: *variable,
                value,
            })?;
        }
        Ok(())
    }

    /// Takes the tight rows times their weights from the sums of their variables.
    fn take_tight_rows(
        &mut self,
        rows: &Rows,
        basis: &Basis,
        work: &mut Work,
    ) -> Result<(), AllocError> {
        for weight in &self.weights {
            if let Some(row) = basis.tight().get(weight.place) {
                let entries = rows.row(*row);
                self.sums.add_multiple(weight.value.negated(), entries)?;
                work.count(entries.len());
            }
        }
        Ok(())
    }

    /// Rounds the sums of the touched variables that are not basic.
    fn round_entries(&mut self, basis: &Basis) -> Result<(), AllocError> {
        for variable in self.sums.touched() {
            if !basis.is_basic(*variable) {
                let value = self.sums.value(*variable).rounded();
                self.entries.push(Entry {
                    place: *variable,
                    value,
                })?;
            }
        }
        Ok(())
    }
}

/// Keeps an entry, unless it is taken for 0.
fn keep(entries: &mut Vec<Entry>, place: usize, value: Fixed) -> Result<(), AllocError> {
    if value.size().units() > ZERO {
        entries.push(Entry { place, value })?;
    }
    Ok(())
}
