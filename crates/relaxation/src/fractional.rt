//! The tableau rows of basic variables, of which cuts are made.
//!
//! A basic variable is a sum of tight rows, each times its number in the variable's row of the inverse, and of variables that stand at bounds.
//! Where its value is not a whole number, these rows times the fractional parts of the numbers sum up to a constraint that rounding
//! makes stronger than the point is (Gomory; Chvátal for the sum itself). A row was divided by its scale, and so its number is too: the
//! fractional part is that of the number by which the constraint itself is multiplied.

use super::multipliers::Row;
use super::relaxation::Relaxation;
use factorisation::Scratch;
use fixed_point::{Entry, Fixed, Work};
use linear::Var;
use std::alloc::{AllocError, Global};

/// One, in units of `2^-32`.
const UNITS_OF_ONE: i64 = 1 << 32;

/// Numbers that are this near to whole ones are taken for these, in units of `2^-32`.
const WHOLE: i64 = 1 << 13;

/// A row, and the fractional part of a number by which its constraint is multiplied.
#[derive(Clone, Copy, Debug, PartialEq, Eq)]
pub struct FractionalMultiplier {
    /// The row whose constraint is multiplied.
    pub row: Row,
    /// Above 0 and below 1, in units of `2^-32`.
    pub fraction: u32,
}

impl FractionalMultiplier {
    /// The same row, where the number is the opposite one.
    pub fn opposite(self) -> FractionalMultiplier {
        FractionalMultiplier {
            row: self.row,
            fraction: self.fraction.wrapping_neg(),
        }
    }
}

/// The fractional part of `units * 2^-exponent`, in the same units, 0 where it is about 0 or 1.
fn fractional_part(units: i64, exponent: u32) -> u32 {
    let unscaled = units.unbounded_shr(exponent);
    let part = unscaled.rem_euclid(UNITS_OF_ONE);
    if part < WHOLE || part > UNITS_OF_ONE - WHOLE {
        return 0;
    }
    u32::try_from(part).unwrap_or(0)
}

impl Relaxation {
    /// The basic variable of a place, at the end of the last call; none where there is no such place.
    pub fn basic_variable(&self, place: usize) -> Option<Var> {
        match self.basis.basic().get(place) {
            Some(variable) => u32::try_from(*variable).ok().map(Var),
            None => None,
        }
    }

    /// How many variables are basic, which is how many rows are tight.
    pub fn basic_count(&self) -> usize {
        self.basis.len()
    }

    /// The numbers by which the tight rows make up the basic variable of a place.
    fn weights_of(&self, alloc: Global, place: usize) -> Result<Vec<Fixed>, AllocError> {
        let mut scratch = Scratch::new(alloc);
        scratch.widen(self.rows.count(), self.rows.variables())?;
        let mut weights = Vec::new(alloc);
        let mut work = Work::new();
        let Some(variable) = self.basis.basic().get(place) else {
            return Ok(weights);
        };
        let one = [Entry {
            place: *variable,
            value: Fixed::ONE,
        }];
        self.inverse
            .weights(&mut scratch, &one, &self.basis, &mut weights, &mut work)?;
        Ok(weights)
    }

    /// The fractional parts of the numbers that make up the basic variable of a place. Those that are whole numbers, about, are left out.
    ///
    /// `AllocError` comes where a growth was refused.
    pub fn fractional_multipliers(
        &self,
        alloc: Global,
        place: usize,
    ) -> Result<Vec<FractionalMultiplier>, AllocError> {
        let mut multipliers = Vec::new(alloc);
        let weights = self.weights_of(alloc, place)?;
        for (value, row) in weights.iter().zip(self.basis.tight().iter()) {
            let fraction = fractional_part(value.units(), self.rows.exponent(*row));
            if fraction > 0 {
                multipliers.push(FractionalMultiplier {
                    row: Row(*row),
                    fraction,
                })?;
            }
        }
        Ok(multipliers)
    }
}
