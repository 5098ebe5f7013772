//! The inverse of the kernel, which are the coefficients of the basic variables in the tight rows.
//!
//! It is never formed: a product with it is solved for, by the triangles of an earlier kernel and the exchanges since. Both have few entries where
//! the rows have few. As exchanges come, products become dearer and errors add up, so the triangles are made anew from the rows at times.

use super::elimination::triangles_of;
use super::exchange::{Entering, Exchange};
use super::triangles::{Triangles, from_end};
use basis::{Basis, Rows};
use fixed_point::{Entry, Fixed, Scattered, Work};
use std::alloc::{AllocError, Global};

/// After so many exchanges triangles are made anew.
const MOST_EXCHANGES: usize = 100;

/// What a product is solved for in: vectors that are kept for their memory, and say nothing between two products.
#[derive(Debug, Drop)]
pub struct Scratch {
    /// By row, of those that are tight since the triangles were made.
    early: Scattered<Fixed>,
    /// By row, of those that became tight since.
    late: Scattered<Fixed>,
    /// By variable.
    variables: Scattered<Fixed>,
}

impl Scratch {
    /// Room for no rows and no variables.
    pub fn new(alloc: Global) -> Self {
        Scratch {
            early: Scattered::new(alloc),
            late: Scattered::new(alloc),
            variables: Scattered::new(alloc),
        }
    }

    /// Makes room for so many rows and variables, where there are fewer. What has no room counts as 0 in a product.
    ///
    /// `AllocError` comes where a growth was refused; some of the room may be there then.
    pub fn widen(&mut self, rows: usize, variables: usize) -> Result<(), AllocError> {
        self.early.widen(rows)?;
        self.late.widen(rows)?;
        self.variables.widen(variables)
    }

    fn clear(&mut self) {
        self.early.clear();
        self.late.clear();
        self.variables.clear();
    }
}

/// The inverse of the kernel of a basis, which whoever changes that basis keeps up with it. Rows, variables and places are counted from 0.
#[derive(Debug, Drop)]
pub struct Inverse {
    alloc: Global,
    triangles: Triangles,
    exchanges: Vec<Exchange>,
    /// By row, since how many exchanges it is tight; none where it is not.
    since: Vec<Option<usize>>,
    /// What it took to make the triangles.
    cost: u64,
}

impl Inverse {
    /// The inverse of the empty kernel.
    pub fn new(alloc: Global) -> Self {
        Inverse {
            alloc,
            triangles: Triangles::new(alloc),
            exchanges: Vec::new(alloc),
            since: Vec::new(alloc),
            cost: 0,
        }
    }

    /// Makes room for so many rows, where there are fewer: of others it is not noted that they are tight.
    ///
    /// `AllocError` comes where a growth was refused; some of the room may be there then, and the inverse is as it was.
    pub fn widen(&mut self, rows: usize) -> Result<(), AllocError> {
        for _ in self.since.len()..rows {
            self.since.push(None)?;
        }
        Ok(())
    }

    /// Makes it that of the empty kernel.
    pub fn clear(&mut self) {
        self.triangles = Triangles::new(self.alloc);
        self.exchanges.clear();
        for since in self.since.iter_mut() {
            *since = None;
        }
    }

    /// Whether products are so dear that the triangles are to be made anew.
    pub fn is_long(&self) -> bool {
        self.exchanges.len() >= MOST_EXCHANGES
    }

    /// What it takes to make the triangles anew, about: so many multiplications as it took the last time, 0 where they were never made.
    pub fn cost(&self) -> u64 {
        self.cost
    }

    /// Since how many exchanges a row is tight.
    fn since(&self, row: usize) -> Option<usize> {
        match self.since.get(row) {
            Some(since) => *since,
            None => None,
        }
    }

    /// Whether a row is tight since just so many exchanges.
    fn is_since(&self, row: usize, number: usize) -> bool {
        self.since(row) == Some(number)
    }

    /// The inverse times a vector over the tight rows, whose entries that are not 0 are given by row: a number for each basic variable, by its
    /// place in the basis. They are put into `product`, and what was done is counted.
    ///
    /// `AllocError` comes where a growth was refused; what is in `product` means nothing then.
    pub fn product(
        &self,
        scratch: &mut Scratch,
        entries: &[Entry],
        basis: &Basis,
        product: &mut Vec<Fixed>,
        work: &mut Work,
    ) -> Result<(), AllocError> {
        scratch.clear();
        for entry in entries {
            match self.since(entry.place) {
                Some(0) => scratch.early.set(entry.place, entry.value)?,
                Some(_) => scratch.late.set(entry.place, entry.value)?,
                None => {}
            }
        }
        self.triangles
            .solve(&mut scratch.early, &mut scratch.variables, work)?;
        for (number, exchange) in self.exchanges.iter().enumerate() {
            let wanted = self.wanted(exchange, number.saturating_add(1), scratch);
            exchange.solve(wanted, &mut scratch.variables)?;
            work.count(exchange.len());
        }
        product.clear();
        for variable in basis.basic() {
            product.push(scratch.variables.value(*variable))?;
        }
        Ok(())
    }

    /// What the row wants that became tight by an exchange.
    fn wanted(&self, exchange: &Exchange, number: usize, scratch: &Scratch) -> Fixed {
        match exchange.tightened() {
            Some(row) if self.is_since(row, number) => scratch.late.value(row),
            _ => Fixed::ZERO,
        }
    }

    /// A vector over the basic variables, whose entries that are not 0 are given by variable, times the inverse: a number for each tight row, by
    /// its place in the basis. They are put into `weights`, and what was done is counted.
    ///
    /// `AllocError` comes where a growth was refused; what is in `weights` means nothing then.
    pub fn weights(
        &self,
        scratch: &mut Scratch,
        entries: &[Entry],
        basis: &Basis,
        weights: &mut Vec<Fixed>,
        work: &mut Work,
    ) -> Result<(), AllocError> {
        scratch.clear();
        for entry in entries {
            scratch.variables.set(entry.place, entry.value)?;
        }
        self.take_back(scratch, work)?;
        self.triangles
            .solve_transposed(&mut scratch.variables, &mut scratch.early, work)?;
        weights.clear();
        for row in basis.tight() {
            let weight = match self.since(*row) {
                Some(0) => scratch.early.value(*row),
                _ => scratch.late.value(*row),
            };
            weights.push(weight)?;
        }
        Ok(())
    }

    /// Takes the exchanges back, from the last one on.
    fn take_back(&self, scratch: &mut Scratch, work: &mut Work) -> Result<(), AllocError> {
        let count = self.exchanges.len();
        for step in 0..count {
            let place = from_end(count, step);
            if let Some(exchange) = self.exchanges.get(place) {
                let weight = exchange.solve_transposed(&mut scratch.variables)?;
                work.count(exchange.len());
                self.note_weight(exchange, place.saturating_add(1), weight, scratch)?;
            }
        }
        Ok(())
    }

    /// Notes the weight of the row that became tight by an exchange, if it is tight since then.
    fn note_weight(
        &self,
        exchange: &Exchange,
        number: usize,
        weight: Fixed,
        scratch: &mut Scratch,
    ) -> Result<(), AllocError> {
        match exchange.tightened() {
            Some(row) if self.is_since(row, number) => scratch.late.set(row, weight),
            _ => Ok(()),
        }
    }

    /// Notes a step in which the basic variable of a place leaves. The basis is that before the step, and the column the product of the inverse with
    /// what enters: how the basic variables move, with its sign changed, where that grows by one.
    ///
    /// `AllocError` comes where a growth was refused, and then nothing is noted.
    pub fn exchange_variable(
        &mut self,
        place: usize,
        entering: Entering,
        column: &[Fixed],
        basis: &Basis,
    ) -> Result<(), AllocError> {
        let exchange = Exchange::of_variable(self.alloc, place, entering, column, basis)?;
        self.note_exchange(exchange, entering.loosened(basis))
    }

    /// Notes a step in which the slack of a row leaves, so that the row is tight from now on. Basis and column are as in `exchange_variable`.
    ///
    /// `AllocError` comes where a growth was refused, and then nothing is noted.
    pub fn exchange_slack(
        &mut self,
        row: usize,
        entering: Entering,
        column: &[Fixed],
        rows: &Rows,
        basis: &Basis,
    ) -> Result<(), AllocError> {
        let exchange = Exchange::of_slack(self.alloc, row, entering, column, rows, basis)?;
        self.note_exchange(exchange, entering.loosened(basis))
    }

    /// Notes a step, by which a row may have slack from now on.
    fn note_exchange(
        &mut self,
        exchange: Exchange,
        loosened: Option<usize>,
    ) -> Result<(), AllocError> {
        let tightened = exchange.tightened();
        self.exchanges.push(exchange)?;
        let number = self.exchanges.len();
        if let Some(row) = loosened {
            self.note_since(row, None);
        }
        if let Some(row) = tightened {
            self.note_since(row, Some(number));
        }
        Ok(())
    }

    fn note_since(&mut self, row: usize, since: Option<usize>) {
        if row < self.since.len() {
            self.since[row] = since;
        }
    }

    /// Makes the triangles of the basis anew, and forgets the steps; whether its kernel has an inverse, as far as fixed point tells. Where it has
    /// none, the inverse is as it was. What it does is counted as it is done.
    ///
    /// `AllocError` comes where a growth was refused, and then the inverse is as it was too.
    pub fn refactor(
        &mut self,
        rows: &Rows,
        basis: &Basis,
        work: &mut Work,
    ) -> Result<bool, AllocError> {
        let before = work.done();
        let found = triangles_of(self.alloc, rows, basis, work)?;
        let Some(triangles) = found else {
            return Ok(false);
        };
        self.clear();
        self.triangles = triangles;
        for row in basis.tight() {
            self.note_since(*row, Some(0));
        }
        self.cost = work.done().saturating_sub(before);
        Ok(true)
    }
}
