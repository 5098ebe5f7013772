//! The rules of cutting planes, and their limits.

use super::support::{HALF, LIMIT, NOT, Written, X, at_least, is, is_fault, not_x};
use cut_rules::{add, axiom, divide, multiply, saturate, weaken};
use linear::Var;
use normal_form::{CutFault, Normal};
use std::alloc::Global;

/// Two constraints and their sum.
#[derive(Clone, Copy)]
struct SumRow {
    left: &'static [Written],
    left_degree: i128,
    right: &'static [Written],
    right_degree: i128,
    sum: &'static [Written],
    degree: u128,
}

const SUMS: [SumRow; 5] = [
    // the halves of an equality cancel
    SumRow {
        left: &[(1, X, 1), (1, X, 2)],
        left_degree: 1,
        right: &[(1, NOT, 1), (1, NOT, 2)],
        right_degree: 2,
        sum: &[],
        degree: 1,
    },
    // of x1 two cancel, and go from the degree too
    SumRow {
        left: &[(3, X, 1), (1, X, 2)],
        left_degree: 2,
        right: &[(2, NOT, 1), (1, X, 2), (1, X, 4)],
        right_degree: 1,
        sum: &[(1, X, 1), (2, X, 2), (1, X, 4)],
        degree: 1,
    },
    // the degree stops at 0
    SumRow {
        left: &[(3, X, 1), (1, X, 2)],
        left_degree: 2,
        right: &[(3, NOT, 1)],
        right_degree: 0,
        sum: &[(1, X, 2)],
        degree: 0,
    },
    // what only looks too large cancels
    SumRow {
        left: &[(LIMIT, X, 1)],
        left_degree: LIMIT,
        right: &[(LIMIT, NOT, 1)],
        right_degree: 1,
        sum: &[],
        degree: 1,
    },
    // at the limit
    SumRow {
        left: &[(HALF, X, 1)],
        left_degree: 0,
        right: &[(HALF, X, 1)],
        right_degree: HALF,
        sum: &[(LIMIT, X, 1)],
        degree: HALF as u128,
    },
];

/// Whether two constraints have this sum.
fn is_sum(
    alloc: Global,
    left: &Normal,
    right: &Normal,
    sum: &[Written],
    degree: u128,
) -> Result<bool, CutFault> {
    let made = add(alloc, left, right)?;
    Ok(is(&made, sum, degree))
}

#[test]
fn sums(rt: HostRuntime) {
    let alloc = rt.alloc();
    for row in &SUMS {
        let left = at_least(alloc, row.left, row.left_degree).expect(&rt, "a constraint");
        let right = at_least(alloc, row.right, row.right_degree).expect(&rt, "a constraint");
        assert!(&rt; is_sum(alloc, &left, &right, row.sum, row.degree).expect(&rt, "a sum"));
        assert!(&rt; is_sum(alloc, &right, &left, row.sum, row.degree).expect(&rt, "a sum"));
    }
}

#[test]
fn sums_beyond_the_limit(rt: HostRuntime) {
    let alloc = rt.alloc();
    let most = at_least(alloc, &[(LIMIT, X, 1)], 0).expect(&rt, "a constraint");
    let more = at_least(alloc, &[(1, X, 2)], 0).expect(&rt, "a constraint");
    assert!(&rt; is_fault(add(alloc, &most, &more), CutFault::TooLarge));
    let high = at_least(alloc, &[], LIMIT).expect(&rt, "a constraint");
    let unit = at_least(alloc, &[(1, X, 2)], 1).expect(&rt, "a constraint");
    assert!(&rt; is_fault(add(alloc, &high, &unit), CutFault::TooLarge));
}

/// Divisors of 5 x1 4 ~x2 >= 3, and the quotients.
const QUOTIENTS: [(i128, &[Written], u128); 3] = [
    (2, &[(3, X, 1), (2, NOT, 2)], 2),
    (i128::MAX, &[(1, X, 1), (1, NOT, 2)], 1),
    (1, &[(5, X, 1), (4, NOT, 2)], 3),
];

#[test]
fn multiples(rt: HostRuntime) {
    let alloc = rt.alloc();
    let one_of_two = at_least(alloc, &[(1, X, 1), (1, X, 2)], 1).expect(&rt, "a constraint");
    let most = multiply(alloc, &one_of_two, HALF).expect(&rt, "a multiple");
    assert!(&rt; is(&most, &[(HALF, X, 1), (HALF, X, 2)], HALF as u128));
    for factor in [HALF + 1, i128::MAX] {
        assert!(&rt; is_fault(multiply(alloc, &one_of_two, factor), CutFault::TooLarge));
    }
}

#[test]
fn factors_and_quotients(rt: HostRuntime) {
    let alloc = rt.alloc();
    let start = at_least(alloc, &[(5, X, 1), (4, NOT, 2)], 3).expect(&rt, "a constraint");
    for factor in [0, -1, -2, i128::MIN] {
        assert!(&rt; is_fault(multiply(alloc, &start, factor), CutFault::BadFactor));
        assert!(&rt; is_fault(divide(alloc, &start, factor), CutFault::BadFactor));
    }
    for (divisor, terms, degree) in &QUOTIENTS {
        let quotient = divide(alloc, &start, *divisor).expect(&rt, "a quotient");
        assert!(&rt; is(&quotient, terms, *degree));
    }
}

/// Variables by which 5 x1 2 ~x2 >= 3 is weakened, and what is left. The degree stops at 0.
const WEAKENINGS: [(u32, &[Written], u128); 3] = [
    (1, &[(2, NOT, 2)], 0),
    (2, &[(5, X, 1)], 1),
    (3, &[(5, X, 1), (2, NOT, 2)], 3),
];

#[test]
fn weakenings(rt: HostRuntime) {
    let alloc = rt.alloc();
    let start = at_least(alloc, &[(5, X, 1), (2, NOT, 2)], 3).expect(&rt, "a constraint");
    for (var, terms, degree) in &WEAKENINGS {
        let weakened = weaken(alloc, &start, Var(*var)).expect(&rt, "a weakening");
        assert!(&rt; is(&weakened, terms, *degree));
    }
}

#[test]
fn saturations(rt: HostRuntime) {
    let alloc = rt.alloc();
    let start = at_least(alloc, &[(5, X, 1), (2, NOT, 2)], 3).expect(&rt, "a constraint");
    let saturated = saturate(alloc, &start).expect(&rt, "a saturation");
    assert!(&rt; is(&saturated, &[(3, X, 1), (2, NOT, 2)], 3));
    // under degree 0 every coefficient becomes 0, and every term goes
    let of_degree_zero = at_least(alloc, &[(2, NOT, 2)], 0).expect(&rt, "a constraint");
    let nothing = saturate(alloc, &of_degree_zero).expect(&rt, "a saturation");
    assert!(&rt; is(&nothing, &[], 0));
}

#[test]
fn axioms(rt: HostRuntime) {
    let made = axiom(rt.alloc(), not_x(7)).expect(&rt, "an axiom");
    assert!(&rt; is(&made, &[(1, NOT, 7)], 0));
}
