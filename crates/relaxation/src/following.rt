//! A point that follows the domains.
//!
//! Between two calls a search decides some variables and takes others back. The basis and its duals do not know of that, so only the variables
//! whose domains have changed move to other bounds, their rows with them, and then the basic variables, so that the tight rows hold with
//! equality again. To make all anew takes a walk over all terms, which at a node of a large problem is most of a call.
//!
//! It is counted as if all were made anew, so that the relaxation is asked as often as it was when it did that.

use super::relaxation::Relaxation;
use fixed_point::{Entry, Fixed};
use std::alloc::AllocError;
use tableau::domain_of;

impl Relaxation {
    /// Moves the point to where the domains ask for it.
    pub(crate) fn follow_domains(&mut self) -> Result<(), AllocError> {
        self.work.count(self.work_of_making as usize);
        for variable in 0..self.domains.len() {
            self.follow_domain(variable);
        }
        self.gather_residuals()?;
        self.inverse.product(
            &mut self.scratch,
            self.tight_entries.as_slice(),
            &self.basis,
            &mut self.column,
            &mut self.work,
        )?;
        self.move_basic(Fixed::ONE);
        Ok(())
    }

    /// Moves a variable that is not basic to the bound that its reduced cost asks for.
    fn follow_domain(&mut self, variable: usize) {
        if self.basis.is_basic(variable) {
            return;
        }
        let domain = domain_of(self.domains.as_slice(), variable);
        let bound = domain.better_bound(self.duals.reduced_cost(variable));
        let change = bound.minus(self.point.value(variable));
        if !change.is_zero() {
            self.point.shift(&self.rows, variable, change);
        }
    }

    /// The activities of the tight rows.
    fn gather_residuals(&mut self) -> Result<(), AllocError> {
        self.tight_entries.clear();
        for row in self.basis.tight() {
            let value = self.point.activity(*row);
            if !value.is_zero() {
                self.tight_entries.push(Entry { place: *row, value })?;
            }
        }
        Ok(())
    }
}
