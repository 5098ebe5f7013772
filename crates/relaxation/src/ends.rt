//! How a call ends: what it answers is looked at before it is given.
//!
//! Errors of many steps may add up to an answer that is far off, and whoever asked would sum up exactly what is not false, or follow values
//! that satisfy nothing. So the rows times the multipliers are summed up in fixed point, and the activities are measured at the
//! point: both cost what a step costs, or a begin. Where they do not bear the answer out, the triangles of the inverse are made anew, and with
//! them duals and point, once in a call. That is no proof: only the exact sum tells.

use super::multipliers::{Multiplier, Row, Source};
use super::relaxation::Relaxation;
use fixed_point::{Fixed, Number, Sum};
use std::alloc::AllocError;
use tableau::{Domain, Leaving, TOLERANCE, Violation, domain_of};

/// Multipliers up to this are left out, in units of `2^-32`.
const DROPPED: i64 = 32;

/// What a sum comes to at most where a variable of a domain has it as its coefficient.
fn at_most(sum: Sum, domain: Domain) -> Sum {
    match domain {
        Domain::False => Sum::ZERO,
        Domain::True => sum,
        Domain::Free => { if sum.is_negative() { Sum::ZERO } else { sum } }
    }
}

impl Relaxation {
    /// Whether the rows times the multipliers sum up to one that no point satisfies, as far as fixed point tells.
    pub(crate) fn is_false_sum(&mut self) -> Result<bool, AllocError> {
        let right = self.sum_rows()?;
        let mut left = Sum::ZERO;
        for variable in self.sum.touched() {
            let domain = domain_of(self.domains.as_slice(), *variable);
            left = left.plus(at_most(self.sum.value(*variable), domain));
        }
        Ok(left.minus(right).is_negative())
    }

    /// Sums up the rows times the multipliers; the right side of the sum.
    fn sum_rows(&mut self) -> Result<Sum, AllocError> {
        self.sum.clear();
        let mut right = Sum::ZERO;
        for multiplier in &self.multipliers {
            if let Source::Row(row) = multiplier.source() {
                let entries = self.rows.row(row.0);
                self.sum.add_multiple(multiplier.value(), entries)?;
                right = right.plus_product(multiplier.value(), self.rows.right(row.0));
                self.work.count(entries.len());
            }
        }
        Ok(right)
    }

    /// Whether the tight rows hold with equality at the point, and no row is violated, about; the activities are measured for that.
    pub(crate) fn is_accurate(&mut self) -> bool {
        self.point.measure_all(&self.rows, &mut self.work);
        let limit = Fixed::of_units(2 * TOLERANCE);
        for (row, activity) in self.point.activities().iter().enumerate() {
            if limit.negated().is_above(*activity) {
                return false;
            }
            if activity.is_above(limit) && self.basis.is_tight(row) {
                return false;
            }
        }
        true
    }

    /// Notes the multipliers of the bound: the duals, and the improving constraint.
    pub(crate) fn note_bound_multipliers(&mut self) -> Result<(), AllocError> {
        for (row, value) in self
            .basis
            .tight()
            .iter()
            .zip(self.duals.multipliers().iter())
        {
            if value.units() > DROPPED {
                let exponent = self.rows.exponent(*row);
                self.multipliers
                    .push(Multiplier::new(Source::Row(Row(*row)), *value, exponent))?;
            }
        }
        if self.costs.are_given() {
            let exponent = self.costs.exponent();
            self.multipliers
                .push(Multiplier::new(Source::Improving, Fixed::ONE, exponent))?;
        }
        Ok(())
    }

    /// Notes the multipliers of a violation that cannot be repaired: the row itself, and the tight rows that hinder it.
    pub(crate) fn note_farkas_multipliers(
        &mut self,
        violation: Violation,
    ) -> Result<(), AllocError> {
        if let Leaving::Row(row) = violation.leaving {
            let exponent = self.rows.exponent(row);
            self.multipliers.push(Multiplier::new(Source::Row(Row(row)), Fixed::ONE, exponent))?;
        }
        for weight in self.tableau.weights() {
            let value = weight.value.negated();
            if let Some(row) = self.basis.tight().get(weight.place) {
                if value.units() > DROPPED {
                    let exponent = self.rows.exponent(*row);
                    self.multipliers
                        .push(Multiplier::new(Source::Row(Row(*row)), value, exponent))?;
                }
            }
        }
        Ok(())
    }
}
