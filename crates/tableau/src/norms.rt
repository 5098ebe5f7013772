//! Norms of what may leave: how long its row of the inverse is, about.
//!
//! What is violated most as it stands is not what is furthest off: its row of the inverse may be long. So what is repaired is the greatest
//! violation over the length of that row (steepest edge: Forrest and Goldfarb, 1992). Lengths are not known, but followed from step to step, from
//! 1 each, by the column that a step forms in any case (Devex: Harris, 1973); where one has grown too large, all begin anew with 1. A relaxation
//! of thousands of rows takes a third to nine tenths of the steps by that. One of a few hundred rows takes fewer too, but none of the searches that
//! were tried was the faster for it, and some took longer; so norms are followed where there are many rows, and 1 elsewhere.

use basis::Basis;
use factorisation::Entering;
use fixed_point::{Fixed, Scattered, number_at, put_number};
use std::alloc::{AllocError, Global};

/// From so many rows on norms are followed.
const MANY_ROWS: usize = 2_000;

/// From this on a norm is too large: `2^12`, in units of `2^-32`.
const TOO_LARGE: i64 = 1 << 44;

/// The norms of what may leave: of rows with slack, and of basic variables. Those of others say nothing.
#[derive(Debug, Drop)]
pub struct Norms {
    rows: Vec<Fixed>,
    variables: Vec<Fixed>,
}

/// Makes all norms 1.
fn put_ones(norms: &mut [Fixed]) {
    for norm in norms.iter_mut() {
        *norm = Fixed::ONE;
    }
}

/// Makes the norm at a place as large as another one, where it is smaller.
fn raise(norms: &mut [Fixed], place: usize, norm: Fixed) {
    if norm.is_above(number_at(norms, place)) {
        put_number(norms, place, norm);
    }
}

impl Norms {
    /// Those of no rows and no variables.
    pub fn new(alloc: Global) -> Self {
        Norms {
            rows: Vec::new(alloc),
            variables: Vec::new(alloc),
        }
    }

    /// Makes room for so many rows and variables, where there are fewer.
    ///
    /// `AllocError` comes where a growth was refused: some of it may be there then.
    pub fn widen(&mut self, rows: usize, variables: usize) -> Result<(), AllocError> {
        for _ in self.rows.len()..rows {
            self.rows.push(Fixed::ONE)?;
        }
        for _ in self.variables.len()..variables {
            self.variables.push(Fixed::ONE)?;
        }
        Ok(())
    }

    /// Whether they are followed: all are 1 else.
    pub fn are_followed(&self) -> bool {
        self.rows.len() >= MANY_ROWS
    }

    /// Makes all of them 1.
    pub fn clear(&mut self) {
        put_ones(self.rows.as_mut_slice());
        put_ones(self.variables.as_mut_slice());
    }

    /// The norm of a row that has slack.
    pub(crate) fn of_row(&self, row: usize) -> Fixed {
        number_at(self.rows.as_slice(), row)
    }

    /// The norm of a basic variable.
    pub(crate) fn of_variable(&self, variable: usize) -> Fixed {
        number_at(self.variables.as_slice(), variable)
    }

    /// What a step makes of them in which something of this norm leaves by this entry. Where what enters grows by one, the basic variables move by
    /// the column, with its sign changed, and the rows as said.
    pub fn follow(
        &mut self,
        norm: Fixed,
        entry: Fixed,
        entering: Entering,
        basis: &Basis,
        column: &[Fixed],
        moved: &Scattered<Fixed>,
    ) {
        let entered = norm.over(entry.size());
        if entered.units() >= TOO_LARGE {
            self.clear();
            return;
        }
        self.follow_variables(entered, basis, column);
        self.follow_rows(entered, moved);
        self.enter(entering, basis, entered.greater(Fixed::ONE));
    }

    /// Raises the norms of basic variables to those of their parts in what enters.
    fn follow_variables(&mut self, entered: Fixed, basis: &Basis, column: &[Fixed]) {
        for (variable, slope) in basis.basic().iter().zip(column.iter()) {
            if !slope.is_zero() {
                let norm = slope.size().times(entered);
                raise(self.variables.as_mut_slice(), *variable, norm);
            }
        }
    }

    /// Raises the norms of rows likewise.
    fn follow_rows(&mut self, entered: Fixed, moved: &Scattered<Fixed>) {
        for row in moved.touched() {
            let norm = moved.value(*row).size().times(entered);
            raise(self.rows.as_mut_slice(), *row, norm);
        }
    }

    /// Gives what enters its norm.
    fn enter(&mut self, entering: Entering, basis: &Basis, norm: Fixed) {
        match entering {
            Entering::Variable(variable) => {
                put_number(self.variables.as_mut_slice(), variable, norm);
            }
            Entering::Slack(place) => {
                if let Some(row) = basis.tight().get(place) {
                    put_number(self.rows.as_mut_slice(), *row, norm);
                }
            }
        }
    }
}
