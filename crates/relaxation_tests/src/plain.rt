//! Rows over variables from 0 to 1 as plain sums of whole numbers: what they come to, and the best of all assignments.
//!
//! Every number is small enough for its type; sums saturate so that nobody has to show it.

use std::alloc::{AllocError, Global};

/// `sum of coefficients >= right`, the coefficients by variable.
#[derive(Debug, Drop)]
pub(crate) struct PlainRow {
    pub(crate) coefficients: Vec<i128>,
    pub(crate) right: i128,
}

/// Rows, and a sum to be made as small as can be; of no variable where there is none.
#[derive(Debug, Drop)]
pub(crate) struct PlainProblem {
    pub(crate) count: usize,
    pub(crate) rows: Vec<PlainRow>,
    pub(crate) costs: Vec<i128>,
}

/// The number at a place, 0 where there is none.
pub(crate) fn at(numbers: &[i128], place: usize) -> i128 {
    match numbers.get(place) {
        Some(number) => *number,
        None => 0,
    }
}

/// The sum of products, place by place.
pub(crate) fn product(left: &[i128], right: &[i128]) -> i128 {
    let mut sum: i128 = 0;
    for (a, b) in left.iter().zip(right.iter()) {
        sum = sum.saturating_add(a.saturating_mul(*b));
    }
    sum
}

/// The sum of the sizes.
pub(crate) fn sizes(numbers: &[i128]) -> i128 {
    let mut sum: i128 = 0;
    for number in numbers {
        sum = sum.saturating_add(number.saturating_abs());
    }
    sum
}

/// Adds a multiple of some numbers to others, place by place.
pub(crate) fn add_multiple(sums: &mut [i128], factor: i128, numbers: &[i128]) {
    for (sum, number) in sums.iter_mut().zip(numbers.iter()) {
        *sum = sum.saturating_add(factor.saturating_mul(*number));
    }
}

/// The most that a sum of products can come to where each variable is fixed as it is here, or else anything from 0 to 1.
pub(crate) fn greatest(coefficients: &[i128], fixed: &[Option<bool>]) -> i128 {
    let mut sum: i128 = 0;
    for (coefficient, value) in coefficients.iter().zip(fixed.iter()) {
        let most = match value {
            Some(true) => *coefficient,
            Some(false) => 0,
            None => (*coefficient).max(0),
        };
        sum = sum.saturating_add(most);
    }
    sum
}

impl PlainRow {
    fn is_met(&self, values: &[i128]) -> bool {
        product(self.coefficients.as_slice(), values) >= self.right
    }
}

/// The assignment of a number, by its bits.
fn assign(values: &mut [i128], number: u32) {
    let mut rest = number;
    for value in values.iter_mut() {
        *value = i128::from(rest & 1);
        rest >>= 1;
    }
}

/// Whether an assignment has the values that are fixed.
fn agrees(values: &[i128], fixed: &[Option<bool>]) -> bool {
    values.iter().zip(fixed.iter()).all(|(value, fixed)| match fixed {
        Some(true) => *value == 1,
        Some(false) => *value == 0,
        None => true,
    })
}

impl PlainProblem {
    fn is_satisfied(&self, values: &[i128]) -> bool {
        for row in &self.rows {
            if !row.is_met(values) {
                return false;
            }
        }
        true
    }

    /// The least cost of all assignments that satisfy the rows and have the values that are fixed, if there is one.
    pub(crate) fn optimum(
        &self,
        alloc: Global,
        fixed: &[Option<bool>],
    ) -> Result<Option<i128>, AllocError> {
        let mut values = vec![in alloc; 0; self.count]?;
        let mut least: Option<i128> = None;
        for number in 0..(1_u32 << self.count.min(16)) {
            assign(values.as_mut_slice(), number);
            if agrees(values.as_slice(), fixed) && self.is_satisfied(values.as_slice()) {
                let cost = product(self.costs.as_slice(), values.as_slice());
                least = Some(match least {
                    Some(known) => known.min(cost),
                    None => cost,
                });
            }
        }
        Ok(least)
    }
}
