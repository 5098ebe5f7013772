//! The point: a value for each variable, and for each row what its left side is above its right side, its activity.
//!
//! Both follow from the basis. A step moves few of them, so they are kept, and made anew at the begin of a call and after a
//! refactorisation.

use super::domain::{Domain, domain_of};
use super::duals::Duals;
use basis::{Basis, Rows};
use factorisation::{Inverse, Scratch};
use fixed_point::{Entry, Fixed, Number, Sum, Work, add_multiple, number_at, put_number};
use std::alloc::{AllocError, Global};

/// The values of the variables, and the activities of the rows.
#[derive(Debug, Drop)]
pub struct Point {
    values: Vec<Fixed>,
    activities: Vec<Fixed>,
    /// What the tight rows still want where the basic variables are 0.
    wanted: Vec<Entry>,
    /// The values of the basic variables, by their places.
    basic: Vec<Fixed>,
}

/// What the left side of a row is above its right side.
fn activity(entries: &[Entry], values: &[Fixed], right: Fixed) -> Fixed {
    let mut sum = Sum::of(right.negated());
    for entry in entries {
        sum = sum.plus_product(entry.value, number_at(values, entry.place));
    }
    sum.rounded()
}

impl Point {
    /// The point of no rows and no variables.
    pub fn new(alloc: Global) -> Self {
        Point {
            values: Vec::new(alloc),
            activities: Vec::new(alloc),
            wanted: Vec::new(alloc),
            basic: Vec::new(alloc),
        }
    }

    /// Makes room for so many rows and variables, where there are fewer.
    ///
    /// `AllocError` comes where a growth was refused: some of it may be there then.
    pub fn widen(&mut self, rows: usize, variables: usize) -> Result<(), AllocError> {
        for _ in self.activities.len()..rows {
            self.activities.push(Fixed::ZERO)?;
        }
        for _ in self.values.len()..variables {
            self.values.push(Fixed::ZERO)?;
        }
        Ok(())
    }

    /// The value of a variable, 0 where it is not there.
    pub fn value(&self, variable: usize) -> Fixed {
        number_at(self.values.as_slice(), variable)
    }

    /// Puts the value of a variable, if it is there.
    pub fn set_value(&mut self, variable: usize, value: Fixed) {
        put_number(self.values.as_mut_slice(), variable, value);
    }

    /// The activities, row by row.
    pub fn activities(&self) -> &[Fixed] {
        self.activities.as_slice()
    }

    /// The activity of a row, as it is kept.
    pub fn activity(&self, row: usize) -> Fixed {
        number_at(self.activities.as_slice(), row)
    }

    /// Puts the activity of a row, if it is there.
    pub fn set_activity(&mut self, row: usize, activity: Fixed) {
        put_number(self.activities.as_mut_slice(), row, activity);
    }

    /// The activity of a row, from its terms.
    pub fn measure(&self, rows: &Rows, row: usize) -> Fixed {
        activity(rows.row(row), self.values.as_slice(), rows.right(row))
    }

    /// Moves a variable, and the activities of its rows with it.
    pub fn shift(&mut self, rows: &Rows, variable: usize, change: Fixed) {
        let value = self.value(variable).plus(change);
        self.set_value(variable, value);
        add_multiple(
            self.activities.as_mut_slice(),
            change,
            rows.column(variable),
        );
    }

    /// Makes the point anew.
    ///
    /// `AllocError` comes where a growth was refused: it is half made then, and has to be made anew.
    pub fn make(
        &mut self,
        rows: &Rows,
        domains: &[Domain],
        basis: &Basis,
        inverse: &Inverse,
        duals: &Duals,
        scratch: &mut Scratch,
        work: &mut Work,
    ) -> Result<(), AllocError> {
        self.put_to_bounds(domains, basis, duals);
        self.gather_wanted(rows, basis)?;
        inverse.product(
            scratch,
            self.wanted.as_slice(),
            basis,
            &mut self.basic,
            work,
        )?;
        for (variable, value) in basis.basic().iter().zip(self.basic.iter()) {
            put_number(self.values.as_mut_slice(), *variable, *value);
        }
        self.measure_all(rows, work);
        work.count(self.values.len());
        Ok(())
    }

    /// Puts each variable to the bound that its reduced cost asks for, and the basic ones to 0.
    fn put_to_bounds(&mut self, domains: &[Domain], basis: &Basis, duals: &Duals) {
        for (variable, value) in self.values.iter_mut().enumerate() {
            *value = if basis.is_basic(variable) {
                Fixed::ZERO
            } else {
                domain_of(domains, variable).better_bound(duals.reduced_cost(variable))
            };
        }
    }

    /// Gathers what the tight rows want where the basic variables are 0.
    fn gather_wanted(&mut self, rows: &Rows, basis: &Basis) -> Result<(), AllocError> {
        self.wanted.clear();
        for row in basis.tight() {
            let value = self.measure(rows, *row).negated();
            self.wanted.push(Entry { place: *row, value })?;
        }
        Ok(())
    }

    /// Makes all activities anew.
    pub fn measure_all(&mut self, rows: &Rows, work: &mut Work) {
        for (row, measured) in self.activities.iter_mut().enumerate() {
            let entries = rows.row(row);
            *measured = activity(entries, self.values.as_slice(), rows.right(row));
            work.count(entries.len());
        }
    }
}
