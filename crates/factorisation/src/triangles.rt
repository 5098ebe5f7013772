//! A kernel as the product of two triangles, a lower and an upper one, by which equations are solved forwards and backwards.
//!
//! The kernel of a basis has few entries, and so have its triangles, where the order of the pivots is chosen well (`elimination`); its inverse may be
//! dense. Rows are named by their numbers and columns by their variables, and not by places, which change from step to step.

use fixed_point::{Entry, Fixed, Number, Scattered, Work, number_at};
use std::alloc::{AllocError, Global};

/// A pivot of the elimination: a row that was solved for a variable.
#[derive(Clone, Copy, Debug)]
pub(crate) struct Pivot {
    pub(crate) row: usize,
    pub(crate) variable: usize,
    pub(crate) value: Fixed,
}

/// The triangles of a kernel, pivot by pivot.
#[derive(Debug, Drop)]
pub(crate) struct Triangles {
    pub(crate) pivots: Vec<Pivot>,
    /// By which multiples the row of a pivot was taken from other rows.
    pub(crate) lower: Vec<Vec<Entry>>,
    /// What else the row of a pivot had, by variable.
    pub(crate) upper_rows: Vec<Vec<Entry>>,
    /// Which rows of earlier pivots had the variable of a pivot.
    pub(crate) upper_columns: Vec<Vec<Entry>>,
}

/// The place that is so many steps before the last one of so many.
pub(crate) fn from_end(count: usize, step: usize) -> usize {
    count.saturating_sub(step).saturating_sub(1)
}

/// The list of a pivot.
fn list_of(lists: &[Vec<Entry>], place: usize) -> &[Entry] {
    match lists.get(place) {
        Some(list) => list.as_slice(),
        None => &[],
    }
}

impl Triangles {
    /// Those of the empty kernel.
    pub(crate) fn new(alloc: Global) -> Self {
        Triangles {
            pivots: Vec::new(alloc),
            lower: Vec::new(alloc),
            upper_rows: Vec::new(alloc),
            upper_columns: Vec::new(alloc),
        }
    }

    /// Solves the kernel times a solution over its variables for a right side over its rows, which is used up.
    pub(crate) fn solve(
        &self,
        right: &mut Scattered<Fixed>,
        solution: &mut Scattered<Fixed>,
        work: &mut Work,
    ) -> Result<(), AllocError> {
        self.eliminate(right, work)?;
        let count = self.pivots.len();
        for step in 0..count {
            let place = from_end(count, step);
            if let Some(pivot) = self.pivots.get(place) {
                let column = list_of(self.upper_columns.as_slice(), place);
                solve_pivot(*pivot, column, right, solution, work)?;
            }
        }
        work.count(count);
        Ok(())
    }

    /// Does to a right side what was done to the rows.
    fn eliminate(&self, right: &mut Scattered<Fixed>, work: &mut Work) -> Result<(), AllocError> {
        for (pivot, others) in self.pivots.iter().zip(self.lower.iter()) {
            let value = right.value(pivot.row);
            if !value.is_zero() && !others.is_empty() {
                right.add_multiple(value.negated(), others.as_slice())?;
                work.count(others.len());
            }
        }
        Ok(())
    }

    /// Solves weights over the rows times the kernel for costs over the variables, which are used up.
    pub(crate) fn solve_transposed(
        &self,
        costs: &mut Scattered<Fixed>,
        weights: &mut Scattered<Fixed>,
        work: &mut Work,
    ) -> Result<(), AllocError> {
        for (pivot, row) in self.pivots.iter().zip(self.upper_rows.iter()) {
            let wanted = costs.value(pivot.variable);
            if !wanted.is_zero() {
                let value = wanted.over(pivot.value);
                weights.set(pivot.row, value)?;
                costs.add_multiple(value.negated(), row.as_slice())?;
                work.count(row.len());
            }
        }
        work.count(self.pivots.len());
        self.gather_back(weights, work)
    }

    /// Takes from the weight of each pivot's row what the rows have from which it was taken.
    fn gather_back(
        &self,
        weights: &mut Scattered<Fixed>,
        work: &mut Work,
    ) -> Result<(), AllocError> {
        let count = self.pivots.len();
        for step in 0..count {
            let place = from_end(count, step);
            let others = list_of(self.lower.as_slice(), place);
            if let Some(pivot) = self.pivots.get(place)
                && !others.is_empty()
            {
                take_from_weight(weights, pivot.row, others)?;
                work.count(others.len());
            }
        }
        Ok(())
    }
}

/// Solves for the variable of a pivot, and takes it from the rows of earlier pivots that have it.
fn solve_pivot(
    pivot: Pivot,
    column: &[Entry],
    right: &mut Scattered<Fixed>,
    solution: &mut Scattered<Fixed>,
    work: &mut Work,
) -> Result<(), AllocError> {
    let wanted = right.value(pivot.row);
    if wanted.is_zero() {
        return Ok(());
    }
    let value = wanted.over(pivot.value);
    solution.set(pivot.variable, value)?;
    right.add_multiple(value.negated(), column)?;
    work.count(column.len());
    Ok(())
}

/// Takes the weights of other rows, each times its entry, from the weight of a row.
fn take_from_weight(
    weights: &mut Scattered<Fixed>,
    row: usize,
    others: &[Entry],
) -> Result<(), AllocError> {
    let numbers = weights.numbers();
    let mut value = number_at(numbers, row);
    for other in others {
        value = value.plus_product(number_at(numbers, other.place).negated(), other.value);
    }
    if !value.is_zero() || !weights.value(row).is_zero() {
        weights.set(row, value)?;
    }
    Ok(())
}
