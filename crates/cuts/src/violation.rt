//! How far the point of the last relaxation is from satisfying a constraint.
//!
//! A cut is worth having where what the point lacks is much beside the norm of its coefficients: that is how far the point is from the cut
//! (its efficacy). Both are counted exactly, in whole numbers. Cuts of many terms, or of large coefficients, make each later call dearer and
//! its fixed point rougher, so they are not taken.

use linear::Lit;
use normal_form::Normal;
use relaxation::{Fixed, Relaxation};

/// The largest coefficient of a cut.
const LARGEST_COEFFICIENT: u128 = 1 << 20;

/// What a cut lacks at least: a thousandth, in units of `2^-32`.
const LEAST_LACK: i128 = 4_294_967;

/// The least square of what a cut lacks over its norm: of 5/1000, in units of `2^-32`.
const LEAST_EFFICACY: u128 = 107_374;

/// The value of a literal at the point of the last call, in units of `2^-32`, from 0 to 1.
pub(crate) fn literal_value(relaxation: &Relaxation, literal: Lit) -> i64 {
    let one = Fixed::ONE.units();
    let value = relaxation.value(literal.var).units().max(0).min(one);
    if literal.negated {
        one.saturating_sub(value)
    } else {
        value
    }
}

/// A number up to `2^62`, as one that may have a sign.
fn signed(number: u128) -> i128 {
    number.min(1 << 62) as i128
}

/// What the left side of a constraint lacks to its degree at the point, in units of `2^-32`.
fn lack(constraint: &Normal, relaxation: &Relaxation) -> i128 {
    let mut lack = signed(constraint.degree()).saturating_mul(1 << 32);
    for place in 0..constraint.len() {
        let term = constraint.term(place);
        let value = i128::from(literal_value(relaxation, term.literal()));
        lack = lack.saturating_sub(signed(term.coef).saturating_mul(value));
    }
    lack
}

/// The sum of the squares of the coefficients; none where one of them is too large.
fn square_of_norm(constraint: &Normal) -> Option<u128> {
    let mut squares: u128 = 0;
    for place in 0..constraint.len() {
        let coefficient = constraint.term(place).coef;
        if coefficient > LARGEST_COEFFICIENT {
            return None;
        }
        squares = squares.saturating_add(coefficient.saturating_mul(coefficient));
    }
    Some(squares)
}

/// The square of the distance from the point to a constraint that it violates, in units of `2^-32`. None where the constraint is no cut, or one
/// that is not worth having.
pub(crate) fn efficacy(
    constraint: &Normal,
    relaxation: &Relaxation,
    most_terms: usize,
) -> Option<u128> {
    if constraint.len() > most_terms {
        return None;
    }
    let squares = square_of_norm(constraint)?;
    let lack = lack(constraint, relaxation);
    if lack < LEAST_LACK {
        return None;
    }
    let rounded = (lack >> 16).unsigned_abs();
    let efficacy = rounded.saturating_mul(rounded).checked_div(squares)?;
    if efficacy < LEAST_EFFICACY {
        None
    } else {
        Some(efficacy)
    }
}
