//! A step: what enters takes the place of what leaves.
//!
//! What enters moves by `theta`, what leaves lacks over its entry, and takes the basic variables along by its column. The inverse notes the
//! exchange, in all four cases alike:
//!
//! | Leaves | Enters | The kernel |
//! |---|---|---|
//! | a row | a variable | gains the row and the variable |
//! | a row | a slack | has the row in the stead of the slack's |
//! | a variable | a variable | has the one in the stead of the other |
//! | a variable | a slack | loses the variable and the slack's row |

use super::relaxation::Relaxation;
use factorisation::Entering;
use fixed_point::{Entry, Fixed};
use std::alloc::AllocError;
use tableau::{Bound, Candidate, Leaving, Violation, domain_of};

impl Relaxation {
    /// Makes a step.
    pub(crate) fn pivot(
        &mut self,
        violation: Violation,
        chosen: Candidate,
    ) -> Result<(), AllocError> {
        let theta = violation.size.over(chosen.entry.size());
        self.form_column(chosen.entering)?;
        self.follow_norms(violation, chosen)?;
        self.move_point(chosen, theta);
        self.duals.take(chosen.ratio, self.tableau.weights(), self.tableau.entries());
        self.note_exchange(violation.leaving, chosen.entering)?;
        self.pivots = self.pivots.saturating_add(1);
        match violation.leaving {
            Leaving::Row(row) => self.tighten(row, chosen, theta),
            Leaving::Below(place) => self.put_to_bound(place, Bound::Lower, chosen, theta),
            Leaving::Above(place) => self.put_to_bound(place, Bound::Upper, chosen, theta),
        }
    }

    /// How the basic variables move, with its sign changed, where what enters grows by one.
    fn form_column(&mut self, entering: Entering) -> Result<(), AllocError> {
        match entering {
            Entering::Slack(place) => self.gather_slack(place)?,
            Entering::Variable(variable) => self.gather_column(variable)?,
        }
        self.inverse.product(
            &mut self.scratch,
            self.tight_entries.as_slice(),
            &self.basis,
            &mut self.column,
            &mut self.work,
        )
    }

    /// The slack of the tight row at a place, which counts against its row.
    fn gather_slack(&mut self, place: usize) -> Result<(), AllocError> {
        self.tight_entries.clear();
        if let Some(row) = self.basis.tight().get(place) {
            self.tight_entries.push(Entry {
                place: *row,
                value: Fixed::ONE.negated(),
            })?;
        }
        Ok(())
    }

    /// The coefficients of a variable in the tight rows.
    fn gather_column(&mut self, variable: usize) -> Result<(), AllocError> {
        self.tight_entries.clear();
        for entry in self.rows.column(variable) {
            if self.basis.is_tight(entry.place) {
                self.tight_entries.push(*entry)?;
            }
        }
        Ok(())
    }

    /// Has the norms follow a step, where they do.
    fn follow_norms(&mut self, violation: Violation, chosen: Candidate) -> Result<(), AllocError> {
        if !self.norms.are_followed() {
            return Ok(());
        }
        self.form_moved(chosen.entering)?;
        self.norms.follow(
            violation.norm,
            chosen.entry,
            chosen.entering,
            &self.basis,
            self.column.as_slice(),
            &self.moved,
        );
        Ok(())
    }

    /// How the rows move, where what enters grows by one.
    fn form_moved(&mut self, entering: Entering) -> Result<(), AllocError> {
        self.moved.clear();
        for (variable, slope) in self.basis.basic().iter().zip(self.column.iter()) {
            if !slope.is_zero() {
                let entries = self.rows.column(*variable);
                self.moved.add_multiple(slope.negated(), entries)?;
                self.work.count(entries.len());
            }
        }
        if let Entering::Variable(variable) = entering {
            let entries = self.rows.column(variable);
            self.moved.add_multiple(Fixed::ONE, entries)?;
            self.work.count(entries.len());
        }
        Ok(())
    }

    /// Moves what enters by `theta`, and the basic variables with it.
    fn move_point(&mut self, chosen: Candidate, theta: Fixed) {
        match chosen.entering {
            Entering::Slack(_) => self.move_basic(theta),
            Entering::Variable(variable) => {
                let change = if chosen.entry.is_negative() {
                    theta.negated()
                } else {
                    theta
                };
                self.move_basic(change);
                self.point.shift(&self.rows, variable, change);
                self.work.count(self.rows.column(variable).len());
            }
        }
    }

    /// Moves the basic variables along, where what enters changes by so much.
    pub(crate) fn move_basic(&mut self, change: Fixed) {
        let negated = change.negated();
        for (variable, slope) in self.basis.basic().iter().zip(self.column.iter()) {
            let shift = slope.times(negated);
            if !shift.is_zero() {
                self.point.shift(&self.rows, *variable, shift);
                self.work.count(self.rows.column(*variable).len());
            }
        }
    }

    /// Notes the step for later products with the inverse.
    fn note_exchange(&mut self, leaving: Leaving, entering: Entering) -> Result<(), AllocError> {
        let column = self.column.as_slice();
        match leaving {
            Leaving::Row(row) => {
                self.inverse
                    .exchange_slack(row, entering, column, &self.rows, &self.basis)
            }
            Leaving::Below(place) | Leaving::Above(place) => {
                self.inverse
                    .exchange_variable(place, entering, column, &self.basis)
            }
        }
    }

    /// A row becomes tight.
    fn tighten(&mut self, row: usize, chosen: Candidate, theta: Fixed) -> Result<(), AllocError> {
        match chosen.entering {
            Entering::Variable(variable) => self.enlarge(row, variable, chosen),
            Entering::Slack(place) => {
                self.loosen(place, theta);
                self.basis.exchange_row(place, row);
                self.duals.set_multiplier(place, chosen.ratio);
                self.point.set_activity(row, Fixed::ZERO);
                Ok(())
            }
        }
    }

    /// The kernel gains a row and a variable.
    fn enlarge(
        &mut self,
        row: usize,
        variable: usize,
        chosen: Candidate,
    ) -> Result<(), AllocError> {
        self.basis.append_row(row)?;
        self.basis.append_variable(variable)?;
        self.duals.append_multiplier(chosen.ratio)?;
        self.duals.set_reduced_cost(variable, Fixed::ZERO);
        Ok(())
    }

    /// A basic variable goes to a bound.
    fn put_to_bound(
        &mut self,
        place: usize,
        bound: Bound,
        chosen: Candidate,
        theta: Fixed,
    ) -> Result<(), AllocError> {
        if let Some(variable) = self.basis.basic().get(place).copied() {
            self.settle(variable, bound, chosen.ratio);
        }
        match chosen.entering {
            Entering::Variable(variable) => {
                self.basis.exchange_variable(place, variable);
                self.duals.set_reduced_cost(variable, Fixed::ZERO);
            }
            Entering::Slack(column) => {
                self.loosen(column, theta);
                self.basis.take_out_row(column);
                self.basis.take_out_variable(place);
                self.duals.take_out_multiplier(column);
            }
        }
        Ok(())
    }

    /// A variable stands at a bound from now on, and its reduced cost is what the step took.
    fn settle(&mut self, variable: usize, bound: Bound, ratio: Fixed) {
        let domain = domain_of(self.domains.as_slice(), variable);
        match bound {
            Bound::Lower => {
                self.point.set_value(variable, domain.lower());
                self.duals.set_reduced_cost(variable, ratio);
            }
            Bound::Upper => {
                self.point.set_value(variable, domain.upper());
                self.duals.set_reduced_cost(variable, ratio.negated());
            }
        }
    }

    /// The tight row of a place has slack from now on.
    fn loosen(&mut self, place: usize, slack: Fixed) {
        if let Some(row) = self.basis.tight().get(place).copied() {
            self.point.set_activity(row, slack);
        }
    }
}
