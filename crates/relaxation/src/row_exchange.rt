//! Rows that leave, and rows that take their places.
//!
//! A basis is told by its tight rows and basic variables, so a row with slack may leave at any time, and nothing else changes. Its place
//! stays: there it is a row without coefficients, which holds everywhere, until another row is put there.

use super::multipliers::Row;
use super::relaxation::Relaxation;
use fixed_point::Fixed;
use normal_form::Normal;
use std::alloc::AllocError;
use tableau::TOLERANCE;

impl Relaxation {
    /// Whether a row has slack at the point of the last call; no for one that is not there.
    pub fn is_slack(&self, row: Row) -> bool {
        match self.point.activities().get(row.0) {
            Some(activity) => activity.units() > TOLERANCE && !self.basis.is_tight(row.0),
            None => false,
        }
    }

    /// Takes a row out, unless it is tight; whether it did. The multipliers of the last call are gone then.
    pub fn remove_row(&mut self, row: Row) -> bool {
        if self.basis.is_tight(row.0) {
            return false;
        }
        self.multipliers.clear();
        self.rows.clear(row.0);
        self.point.set_activity(row.0, Fixed::ZERO);
        true
    }

    /// Puts a constraint in the place of a row that was taken out, and makes room for its variables.
    ///
    /// `AllocError` comes where a growth was refused, and then the row that was taken out holds everywhere, as before.
    pub fn replace_row(&mut self, row: Row, constraint: &Normal) -> Result<(), AllocError> {
        self.steps_since_made = None;
        self.widen(constraint.variable_count())?;
        if self.basis.is_tight(row.0) {
            self.forget_basis();
        }
        self.multipliers.clear();
        self.rows.put(row.0, constraint)
    }
}
