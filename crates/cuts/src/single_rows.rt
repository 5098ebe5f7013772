//! Cuts from one row: what rounding makes of a row that is no cardinality.
//!
//! A tight row of unequal coefficients is a knapsack, of which the point of the relaxation takes parts. Divided by one of its own coefficients
//! it may be rounded to a constraint that the point violates; then what the others are above a multiple is weakened away, or rounded
//! up, as `gomory` does it for sums of rows. The coefficients of literals that have a part of their value are tried out as divisors (Marchand
//! and Wolsey, Aggregation and mixed integer rounding to solve MIPs, 2001), and so is the largest one, which gives covers.

use super::gomory::Rounding;
use super::violation::literal_value;
use kernel::Kernel;
use normal_form::Normal;
use propagate::Propagator;
use relaxation::{Fixed, Relaxation, Row};
use row_sums::Sources;
use std::alloc::{AllocError, Global};
use std::collections::BTreeSet;

/// How many divisors are tried out for a row.
const MOST_DIVISORS: usize = 8;

/// How many roundings there are at most.
const MOST_ROUNDINGS: usize = 200;

/// A literal has a part of its value where that is so far from 0 and from 1: a hundredth, in units of `2^-32`.
const PART: i64 = 42_949_673;

/// Whether a value is neither about 0 nor about 1.
fn is_part(value: i64) -> bool {
    value >= PART && value <= Fixed::ONE.units().saturating_sub(PART)
}

/// Whether coefficients of a constraint differ, where none counts as more than the degree.
fn is_knapsack(constraint: &Normal) -> bool {
    let degree = constraint.degree();
    let mut least = u128::MAX;
    let mut greatest = 0;
    for place in 0..constraint.len() {
        let coefficient = constraint.term(place).coef.min(degree);
        least = least.min(coefficient);
        greatest = greatest.max(coefficient);
    }
    least < greatest
}

/// The divisors that are tried out for a row.
fn divisors(
    alloc: Global,
    constraint: &Normal,
    relaxation: &Relaxation,
) -> Result<BTreeSet<u64>, AllocError> {
    let degree = constraint.degree();
    let mut found = BTreeSet::new(alloc);
    let mut largest = 0;
    for place in 0..constraint.len() {
        let term = constraint.term(place);
        let coefficient = u64::try_from(term.coef.min(degree)).unwrap_or(0);
        largest = largest.max(coefficient);
        if coefficient > 1
            && found.len() < MOST_DIVISORS
            && is_part(literal_value(relaxation, term.literal()))
        {
            found.insert(coefficient)?;
        }
    }
    if largest > 1 {
        found.insert(largest)?;
    }
    Ok(found)
}

/// Adds the roundings of a row.
fn add_roundings<'a, P: Propagator>(
    alloc: Global,
    kernel: &Kernel<'a, P>,
    sources: &Sources,
    relaxation: &Relaxation,
    row: Row,
    found: &mut Vec<Rounding>,
) -> Result<(), AllocError> {
    let Some(constraint) = sources.constraint(kernel, row) else {
        return Ok(());
    };
    if relaxation.is_slack(row) || !is_knapsack(constraint) {
        return Ok(());
    }
    for divisor in &divisors(alloc, constraint, relaxation)? {
        if found.len() < MOST_ROUNDINGS {
            found.push(Rounding::of_row(alloc, row, *divisor)?)?;
        }
    }
    Ok(())
}

/// The roundings of single rows that the point of the last call suggests.
pub(crate) fn row_roundings<'a, P: Propagator>(
    alloc: Global,
    kernel: &Kernel<'a, P>,
    sources: &Sources,
    relaxation: &Relaxation,
) -> Result<Vec<Rounding>, AllocError> {
    let mut found = Vec::new(alloc);
    for place in 0..sources.file_rows() {
        add_roundings(alloc, kernel, sources, relaxation, Row(place), &mut found)?;
    }
    Ok(found)
}
