//! The relaxation of a 0-1 problem: its normal constraints over variables from 0 to 1, and its objective.
//!
//! A search adds the constraints once, fixes what it decided and propagated, and asks. Rows and domains may change in any way between calls.

use super::multipliers::{Multiplier, Row};
use basis::{Basis, Rows};
use factorisation::{Inverse, Scratch};
use fixed_point::{Entry, Fixed, Scattered, Sum, Work};
use linear::{Integer, Lit, Term, Var};
use normal_form::Normal;
use std::alloc::{AllocError, Global};
use tableau::{Candidates, Costs, Domain, Duals, Norms, Point, TableauRow, domain_of};

/// How a call of `solve` ends.
#[derive(Clone, Copy, Debug, PartialEq, Eq)]
pub enum End {
    /// No point satisfies all rows: the rows sum up by the multipliers to one that none satisfies.
    Infeasible,
    /// Every point is worth more than the upper bound: the rows and the improving constraint sum up by the multipliers to one that
    /// none satisfies.
    CutOff,
    /// The point of the least cost was found; the multipliers are those of its bound.
    Values,
    /// The limits were reached first, or a step could not be made.
    Limit,
}

/// What a call may do.
#[derive(Clone, Copy, Debug)]
pub struct Limits {
    /// How many steps.
    pub steps: u32,
    /// How many multiplications, about: it may be exceeded by one step and by what every call begins with.
    pub work: u64,
}

/// The linear relaxation, with the basis of its last call.
#[derive(Debug, Drop)]
pub struct Relaxation {
    pub(crate) rows: Rows,
    pub(crate) costs: Costs,
    pub(crate) domains: Vec<Domain>,
    pub(crate) basis: Basis,
    pub(crate) inverse: Inverse,
    pub(crate) scratch: Scratch,
    pub(crate) point: Point,
    pub(crate) duals: Duals,
    pub(crate) norms: Norms,
    pub(crate) tableau: TableauRow,
    pub(crate) candidates: Candidates,
    /// How the basic variables move in a step.
    pub(crate) column: Vec<Fixed>,
    /// How the rows move, where what enters grows by one; formed where norms are followed.
    pub(crate) moved: Scattered<Fixed>,
    /// The coefficients of the variable that enters in tight rows, by row.
    pub(crate) tight_entries: Vec<Entry>,
    pub(crate) multipliers: Vec<Multiplier>,
    /// The sum of the rows by the multipliers.
    pub(crate) sum: Scattered<Sum>,
    /// The bound on the scaled costs, in units of `2^-32`.
    pub(crate) bound: i128,
    /// What the bound has to be above to end a call.
    pub(crate) cutoff: Option<i128>,
    /// Steps since `refactor` made the triangles of the inverse anew, or since the basis was empty.
    pub(crate) pivots: u32,
    /// Steps since duals and point were made anew; none where they have to be, since rows or costs changed.
    pub(crate) steps_since_made: Option<u32>,
    /// What it took to make them.
    pub(crate) work_of_making: u64,
    pub(crate) work: Work,
}

impl Relaxation {
    /// No constraint and no objective over so many variables.
    ///
    /// `AllocError` comes where a growth was refused.
    pub fn new(alloc: Global, variables: usize) -> Result<Self, AllocError> {
        let mut relaxation = Relaxation {
            rows: Rows::new(alloc, 0)?,
            costs: Costs::new(alloc),
            domains: Vec::new(alloc),
            basis: Basis::new(alloc),
            inverse: Inverse::new(alloc),
            scratch: Scratch::new(alloc),
            point: Point::new(alloc),
            duals: Duals::new(alloc),
            norms: Norms::new(alloc),
            tableau: TableauRow::new(alloc),
            candidates: Candidates::new(alloc),
            column: Vec::new(alloc),
            moved: Scattered::new(alloc),
            tight_entries: Vec::new(alloc),
            multipliers: Vec::new(alloc),
            sum: Scattered::new(alloc),
            bound: 0,
            cutoff: None,
            pivots: 0,
            steps_since_made: None,
            work_of_making: 0,
            work: Work::new(),
        };
        relaxation.widen(variables)?;
        Ok(relaxation)
    }

    /// Makes room for so many variables, where there are fewer.
    pub(crate) fn widen(&mut self, variables: usize) -> Result<(), AllocError> {
        if variables > self.rows.variables() {
            self.steps_since_made = None;
            self.rows.widen(variables)?;
            self.costs.widen(variables)?;
            self.duals.widen(variables)?;
            self.tableau.widen(variables)?;
            self.sum.widen(variables)?;
            for _ in self.domains.len()..variables {
                self.domains.push(Domain::Free)?;
            }
        }
        self.basis.widen(self.rows.count(), variables)?;
        self.inverse.widen(self.rows.count())?;
        self.scratch.widen(self.rows.count(), variables)?;
        self.moved.widen(self.rows.count())?;
        self.norms.widen(self.rows.count(), variables)?;
        self.point.widen(self.rows.count(), variables)
    }

    /// Takes an objective to be minimised, in the stead of the one before. Variables beyond those that there are cost nothing.
    ///
    /// `AllocError` comes where a growth was refused, and then the objective is the one before.
    pub fn set_cost(&mut self, terms: &[Term]) -> Result<(), AllocError> {
        self.steps_since_made = None;
        self.costs.set(terms)
    }

    /// Adds a constraint, and makes room for its variables; the row by which it is named from then on.
    ///
    /// `AllocError` comes where a growth was refused; whether the constraint takes part then is not said.
    pub fn add_row(&mut self, constraint: &Normal) -> Result<Row, AllocError> {
        self.steps_since_made = None;
        self.widen(constraint.variable_count())?;
        let row = self.rows.count();
        self.rows.add(constraint)?;
        self.widen(constraint.variable_count())?;
        Ok(Row(row))
    }

    /// Makes a literal true. A variable beyond those that there are stays free.
    pub fn fix(&mut self, literal: Lit) {
        let domain = if literal.negated {
            Domain::False
        } else {
            Domain::True
        };
        self.set_domain(literal.var, domain);
    }

    /// Lets a variable take all values from 0 to 1 again.
    pub fn free(&mut self, variable: Var) {
        self.set_domain(variable, Domain::Free);
    }

    fn set_domain(&mut self, variable: Var, domain: Domain) {
        let place = variable.0 as usize;
        if place < self.domains.len() {
            self.domains[place] = domain;
        }
    }

    /// The multipliers of the last call: none where it reached its limits. They may be wrong: whoever takes them sums up exactly.
    pub fn multipliers(&self) -> &[Multiplier] {
        self.multipliers.as_slice()
    }

    /// The value of a variable at the point of the last call, about from 0 to 1; 0 for one that is not there.
    pub fn value(&self, variable: Var) -> Fixed {
        self.point.value(variable.0 as usize)
    }

    /// The reduced cost of a variable: what the scaled bound grows by for each unit that the variable is off its better bound, below 0 where
    /// that is 1.
    fn reduced_cost(&self, place: usize) -> Fixed {
        self.duals
            .reduced_cost(place)
            .minus(self.costs.added(place))
    }

    /// Whether the reduced cost of some free variable is above what the bound of the last call lacks to the upper bound of that call, so
    /// that the sum of the rows and the improving constraint by the multipliers forces a literal of it.
    pub fn forces_a_literal(&self) -> bool {
        let Some(cutoff) = self.cutoff else {
            return false;
        };
        let gap = cutoff.saturating_sub(self.bound);
        for place in 0..self.domains.len() {
            let cost = self.reduced_cost(place);
            if domain_of(self.domains.as_slice(), place).is_free()
                && i128::from(cost.size().units()) > gap
            {
                return true;
            }
        }
        false
    }

    /// The bound of the last call on the objective's value, rounded down. It may be wrong: for progress lines, and to begin anew where a
    /// solution is about as good.
    pub fn bound(&self) -> Integer {
        self.costs.value(self.bound)
    }

    /// The bound of the last call on the scaled costs, of which the largest is between a half and one, in units of `2^-32`.
    pub fn scaled_bound(&self) -> i128 {
        self.bound
    }

    /// Counts what was done with the point outside, as if it were part of the calls.
    pub fn count_work(&mut self, more: usize) {
        self.work.count(more);
    }

    /// How much was done in all calls: multiplications, about.
    pub fn work_done(&self) -> u64 {
        self.work.done()
    }
}
