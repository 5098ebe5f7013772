//! The costs of the variables, scaled and perturbed.
//!
//! They are divided by a power of two so that the largest is between a half and one. To each a small number of its own is added, away
//! from 0: among equal costs a dual simplex finds many steps that gain nothing, and may go round in a circle. Bounds are told without
//! what was added. Where there is no objective these numbers are the costs, and large, since then nothing is lost by them.

use basis::{at_variable, bit_length};
use fixed_point::{Fixed, number_at};
use linear::{Integer, Term};
use std::alloc::{AllocError, Global};

/// The costs, of which there is one for each variable.
#[derive(Debug, Drop)]
pub struct Costs {
    alloc: Global,
    scaled: Vec<Fixed>,
    added: Vec<Fixed>,
    exponent: u32,
    constant: Integer,
    is_given: bool,
    /// The sum of the sizes of what is added, in units of `2^-32`.
    all_added: i128,
}

/// A generator of numbers that look random (a linear congruential one, with the constants of Numerical Recipes).
#[derive(Clone, Copy)]
struct Dice {
    state: u32,
}

impl Dice {
    /// The next number from 512 to 1,535.
    fn next(&mut self) -> i64 {
        self.state = self
            .state
            .wrapping_mul(1_664_525)
            .wrapping_add(1_013_904_223);
        i64::from(self.state >> 22).wrapping_add(512)
    }
}

/// The sum of the costs of each variable, and what negated literals cost at 0.
fn summed(terms: &[Term], sums: &mut [Integer]) -> Integer {
    let mut constant: Integer = 0;
    for term in terms {
        if term.negated {
            constant = constant.saturating_add(term.coef);
        }
        let place = term.var.0 as usize;
        if place < sums.len() {
            sums[place] = sums[place].saturating_add(at_variable(term.coef, term.negated));
        }
    }
    constant
}

/// The largest size of some numbers.
fn largest_size(numbers: &[Integer]) -> u128 {
    let mut largest: u128 = 0;
    for number in numbers {
        largest = largest.max(number.unsigned_abs());
    }
    largest
}

impl Costs {
    /// No objective yet.
    pub fn new(alloc: Global) -> Self {
        Costs {
            alloc,
            scaled: Vec::new(alloc),
            added: Vec::new(alloc),
            exponent: 0,
            constant: 0,
            is_given: false,
            all_added: 0,
        }
    }

    /// Makes costs of 0 for so many variables, where there are fewer.
    ///
    /// `AllocError` comes where a growth was refused: some of them may be there then.
    pub fn widen(&mut self, variables: usize) -> Result<(), AllocError> {
        for _ in self.scaled.len()..variables {
            self.scaled.push(Fixed::ZERO)?;
        }
        for _ in self.added.len()..variables {
            self.added.push(Fixed::ZERO)?;
        }
        self.perturb();
        Ok(())
    }

    /// Takes an objective over the variables that there are.
    ///
    /// `AllocError` comes where memory was refused: the costs are as they were then.
    pub fn set(&mut self, terms: &[Term]) -> Result<(), AllocError> {
        let mut sums = Vec::from_elem(self.alloc, 0, self.scaled.len())?;
        self.constant = summed(terms, sums.as_mut_slice());
        self.exponent = bit_length(largest_size(sums.as_slice()));
        self.is_given = self.exponent > 0;
        for (scaled, sum) in self.scaled.iter_mut().zip(sums.iter()) {
            *scaled = Fixed::scaled(*sum, self.exponent);
        }
        self.perturb();
        Ok(())
    }

    /// Chooses what is added to each cost.
    fn perturb(&mut self) {
        let mut dice = Dice { state: 12_345 };
        let mut all_added: i128 = 0;
        for (added, scaled) in self.added.iter_mut().zip(self.scaled.iter()) {
            let number = dice.next();
            *added = if !self.is_given {
                Fixed::of_units(number.wrapping_mul(1 << 22))
            } else if scaled.is_negative() {
                Fixed::of_units(number / 2).negated()
            } else {
                Fixed::of_units(number / 2)
            };
            all_added = all_added.saturating_add(i128::from(added.size().units()));
        }
        self.all_added = all_added;
    }

    /// The cost of a variable with what is added to it.
    pub(crate) fn perturbed(&self, variable: usize) -> Fixed {
        number_at(self.scaled.as_slice(), variable).plus(self.added(variable))
    }

    /// What is added to the cost of a variable.
    pub fn added(&self, variable: usize) -> Fixed {
        number_at(self.added.as_slice(), variable)
    }

    /// The sum of the sizes of what is added to all costs, in units of `2^-32`: by so much a bound may be less than with what is added.
    pub fn all_added(&self) -> i128 {
        self.all_added
    }

    /// Whether there is an objective that is not constant.
    pub fn are_given(&self) -> bool {
        self.is_given
    }

    /// The scale: costs are the objective's coefficients times `2^-exponent`.
    pub fn exponent(&self) -> u32 {
        self.exponent
    }

    /// A value of the objective as a scaled cost, in units of `2^-32`, and a little more, for what rounding may have lost: a bound
    /// above it tells that every solution is worth more.
    pub fn cutoff(&self, value: Integer) -> i128 {
        let cost = value.saturating_sub(self.constant);
        let scaled = cost.saturating_mul(1 << 32).unbounded_shr(self.exponent);
        let size = cost.saturating_abs() >> 20;
        let slack = size.saturating_mul(1 << 32).unbounded_shr(self.exponent);
        scaled.saturating_add(slack).saturating_add(64)
    }

    /// The value of the objective of a scaled cost in units of `2^-32`, rounded down.
    pub fn value(&self, bound: i128) -> Integer {
        let cost = bound.saturating_mul(power_of_two(self.exponent)) >> 32;
        cost.saturating_add(self.constant)
    }
}

/// `2^exponent`, or the largest power of two of its type.
fn power_of_two(exponent: u32) -> i128 {
    1 << exponent.min(126)
}
