//! The duals: a multiplier for each tight row, and a reduced cost for each variable.
//!
//! The multipliers are the costs of the basic variables times the inverse; a reduced cost is what is left of a cost once the tight rows times
//! their multipliers are taken from it. Where no multiplier is negative they tell a bound on every solution, whatever the point is:
//! the right sides times the multipliers, and each reduced cost at its better bound.

use super::costs::Costs;
use super::domain::{Domain, domain_of};
use basis::{Basis, Rows};
use factorisation::{Inverse, Scratch};
use fixed_point::{Entry, Fixed, Number, Sum, Work, add_multiple, number_at, put_number};
use std::alloc::{AllocError, Global};

/// The multipliers of the tight rows by their places, and the reduced costs of the variables.
#[derive(Debug, Drop)]
pub struct Duals {
    multipliers: Vec<Fixed>,
    reduced_costs: Vec<Fixed>,
    sums: Vec<Sum>,
    /// The costs of the basic variables that are not 0, by variable.
    basic: Vec<Entry>,
}

impl Duals {
    /// Those of no rows and no variables.
    pub fn new(alloc: Global) -> Self {
        Duals {
            multipliers: Vec::new(alloc),
            reduced_costs: Vec::new(alloc),
            sums: Vec::new(alloc),
            basic: Vec::new(alloc),
        }
    }

    /// Makes room for so many variables, where there are fewer.
    ///
    /// `AllocError` comes where a growth was refused: some of it may be there then.
    pub fn widen(&mut self, variables: usize) -> Result<(), AllocError> {
        for _ in self.reduced_costs.len()..variables {
            self.reduced_costs.push(Fixed::ZERO)?;
        }
        Ok(())
    }

    /// Forgets the multipliers.
    pub fn clear(&mut self) {
        self.multipliers.clear();
    }

    /// The multipliers of the tight rows, by their places.
    pub fn multipliers(&self) -> &[Fixed] {
        self.multipliers.as_slice()
    }

    /// The multiplier at a place, 0 where there is none.
    pub fn multiplier(&self, place: usize) -> Fixed {
        number_at(self.multipliers.as_slice(), place)
    }

    /// Puts a multiplier at a place, if there is such a place.
    pub fn set_multiplier(&mut self, place: usize, multiplier: Fixed) {
        put_number(self.multipliers.as_mut_slice(), place, multiplier);
    }

    /// Puts a multiplier behind the others.
    ///
    /// `AllocError` comes where a growth was refused: nothing changes then.
    pub fn append_multiplier(&mut self, multiplier: Fixed) -> Result<(), AllocError> {
        self.multipliers.push(multiplier)?;
        Ok(())
    }

    /// Takes the multiplier at a place out, and puts the last one there.
    pub fn take_out_multiplier(&mut self, place: usize) {
        if place < self.multipliers.len() {
            self.multipliers.swap_remove(place);
        }
    }

    /// The reduced cost of a variable, 0 where it is not there.
    pub fn reduced_cost(&self, variable: usize) -> Fixed {
        number_at(self.reduced_costs.as_slice(), variable)
    }

    /// Puts the reduced cost of a variable, if it is there.
    pub fn set_reduced_cost(&mut self, variable: usize, reduced_cost: Fixed) {
        put_number(self.reduced_costs.as_mut_slice(), variable, reduced_cost);
    }

    /// Takes a multiple of a tableau row from the multipliers and the reduced costs.
    pub fn take(&mut self, factor: Fixed, weights: &[Entry], entries: &[Entry]) {
        add_multiple(self.multipliers.as_mut_slice(), factor.negated(), weights);
        add_multiple(self.reduced_costs.as_mut_slice(), factor.negated(), entries);
    }

    /// Makes all anew.
    ///
    /// `AllocError` comes where a growth was refused: they are half made then, and have to be made anew.
    pub fn make(
        &mut self,
        rows: &Rows,
        costs: &Costs,
        basis: &Basis,
        inverse: &Inverse,
        scratch: &mut Scratch,
        work: &mut Work,
    ) -> Result<(), AllocError> {
        self.gather_costs(costs, basis)?;
        inverse.weights(
            scratch,
            self.basic.as_slice(),
            basis,
            &mut self.multipliers,
            work,
        )?;
        self.make_reduced_costs(rows, costs, basis, work)?;
        work.count(self.reduced_costs.len());
        Ok(())
    }

    /// Gathers the costs of the basic variables.
    fn gather_costs(&mut self, costs: &Costs, basis: &Basis) -> Result<(), AllocError> {
        self.basic.clear();
        for variable in basis.basic() {
            let value = costs.perturbed(*variable);
            if !value.is_zero() {
                self.basic.push(Entry {
                    place: *variable,
                    value,
                })?;
            }
        }
        Ok(())
    }

    /// The costs less the tight rows times their multipliers; 0 for a basic variable.
    fn make_reduced_costs(
        &mut self,
        rows: &Rows,
        costs: &Costs,
        basis: &Basis,
        work: &mut Work,
    ) -> Result<(), AllocError> {
        self.sums.clear();
        for variable in 0..self.reduced_costs.len() {
            self.sums.push(Sum::of(costs.perturbed(variable)))?;
        }
        for (row, multiplier) in basis.tight().iter().zip(self.multipliers.iter()) {
            if !multiplier.is_zero() {
                add_multiple(
                    self.sums.as_mut_slice(),
                    multiplier.negated(),
                    rows.row(*row),
                );
                work.count(rows.row(*row).len());
            }
        }
        self.round_reduced_costs(basis);
        Ok(())
    }

    /// Rounds the sums to the reduced costs.
    fn round_reduced_costs(&mut self, basis: &Basis) {
        for (variable, (reduced_cost, sum)) in self
            .reduced_costs
            .iter_mut()
            .zip(self.sums.iter())
            .enumerate()
        {
            *reduced_cost = if basis.is_basic(variable) {
                Fixed::ZERO
            } else {
                sum.rounded()
            };
        }
    }

    /// The least multiplier.
    pub fn least_multiplier(&self) -> Fixed {
        let mut least = Fixed::ZERO;
        for multiplier in &self.multipliers {
            if least.is_above(*multiplier) {
                least = *multiplier;
            }
        }
        least
    }

    /// The bound on the costs that they tell, in units of `2^-32`.
    pub fn bound(&self, rows: &Rows, costs: &Costs, domains: &[Domain], basis: &Basis) -> i128 {
        let mut sum = Sum::ZERO;
        for (row, multiplier) in basis.tight().iter().zip(self.multipliers.iter()) {
            if !multiplier.is_negative() {
                sum = sum.plus_product(*multiplier, rows.right(*row));
            }
        }
        sum.units().saturating_add(self.at_bounds(costs, domains))
    }

    /// What the reduced costs come to where each variable stands at the better bound, without what was added to the costs.
    fn at_bounds(&self, costs: &Costs, domains: &[Domain]) -> i128 {
        let mut total: i128 = 0;
        for (variable, reduced_cost) in self.reduced_costs.iter().enumerate() {
            let cost = reduced_cost.minus(costs.added(variable));
            if !domain_of(domains, variable).better_bound(cost).is_zero() {
                total = total.saturating_add(i128::from(cost.units()));
            }
        }
        total
    }
}
