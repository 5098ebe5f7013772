//! The places of a constraint's terms by decreasing coefficient.
//!
//! A constraint forces literals whose coefficients are above its slack, and no others. Passed from the largest coefficient on, its
//! terms are left at the first that is not above the slack, so that the small ones behind it cost nothing. The terms themselves stand
//! in order of their variables: so their places are kept in this order beside them, in four bytes each. There are none where the
//! coefficients decrease as the terms stand, as those of clauses and of cardinality constraints do.

ghost use Rattle.std.specs.Prelude.{◌≡◌, ◌↔◌, ℕ, ◌<◌, [], IfOk, IsTrue, length, slice_index_or};
ghost use Rattle.normal_form.specs.Normal.{IsNormal};
ghost use Rattle.ledger.specs.Orders.{IsDecreasing, coefficient_at, place_in};

use normal_form::Normal;
use std::alloc::{AllocError, Global};

/// The place at an index of an order: the index itself, where the order ends before it.
pub(crate) fn place_in(order: &[u32], index: usize) -> usize
    ensures { result ≡ place_in order.now index }
{
    match order.get(index) {
        Some(place) => *place as usize,
        None => index,
    }
}

/// The coefficient of the term at a place, 0 behind the last.
fn coefficient_at(constraint: &Normal, place: usize) -> u128
    ensures { result ≡ coefficient_at constraint.now.terms place }
{
    if place < constraint.len() {
        constraint.term(place).coef
    } else {
        0
    }
}

/// Whether the coefficients decrease as the terms stand.
fn decrease(constraint: &Normal) -> bool
    ensures { IsTrue result ↔ IsDecreasing constraint.now.terms [] }
{
    for place in 1..constraint.len() {
        if constraint.term(place - 1).coef < constraint.term(place).coef {
            return false;
        }
    }
    true
}

/// The places of the terms as they stand.
fn places(alloc: Global, constraint: &Normal) -> Result<Vec<u32>, AllocError>
    ensures normal { IsNormal constraint.now }
    ensures count { IfOk result (λ order. length order.items ≡ length constraint.now.terms) }
    ensures each { IfOk result (λ order. (k : ℕ) → k < length constraint.now.terms → slice_index_or order.items k 0 ≡ k) }
{
    let count = constraint.len();
    let mut order = Vec::with_capacity(alloc, count)?;
    // No more terms than variables, so that their places fit.
    let _variables = constraint.variable_count();
    for place in 0..count {
        order.push_reserved(place as u32);
    }
    Ok(order)
}

/// The places of the terms by decreasing coefficient, or none where they decrease as the terms stand.
pub(crate) fn order_of(alloc: Global, constraint: &Normal) -> Result<Vec<u32>, AllocError>
    ensures decreasing { IfOk result (λ order. IsDecreasing constraint.now.terms order.items) }
    ensures none { IfOk result (λ order. IsDecreasing constraint.now.terms [] → order.items ≡ []) }
{
    if decrease(constraint) {
        return Ok(Vec::new(alloc));
    }
    let mut order = places(alloc, constraint)?;
    order.sort_unstable_by_key(|place| u128::MAX - coefficient_at(constraint, *place as usize));
    Ok(order)
}
