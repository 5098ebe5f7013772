//! By which numbers the tight rows make up a basic variable, where the system is inverted by hand.
//!
//! Each row wants one of three of four variables. At the best point each variable is a third and all rows are tight; each variable is a third
//! of the sum of all rows less the row that does not have it. So its numbers are a third, and minus two thirds: the fractional parts are all a third.

use linear::{Relation, Seq, Signed, Term, Var};
use normal_form::{CutFault, Normal, normalize};
use relaxation::{End, FractionalMultiplier, Limits, Relaxation};
use std::alloc::{AllocError, Global};

/// How many variables there are, and rows.
const COUNT: u32 = 4;

/// A third, in units of `2^-32`.
const THIRD: u32 = 1_431_655_765;

/// Two thirds, likewise.
const TWO_THIRDS: u32 = 2_863_311_531;

/// What rounding may take.
const ROUNDED: u32 = 1 << 10;

/// Ample for a few rows.
const LIMITS: Limits = Limits {
    steps: 100,
    work: 100_000,
};

/// A variable, once.
fn once(number: u32) -> Term {
    Term {
        coef: 1,
        var: Var(number),
        negated: false,
    }
}

/// One of all variables but one.
fn row_without(alloc: Global, left_out: u32) -> Result<Normal, CutFault> {
    let mut terms = Vec::new(alloc);
    for number in 0..COUNT {
        if number != left_out {
            terms.push(once(number))?;
        }
    }
    let constraint = Signed {
        terms: Seq::from_vec(terms),
        relation: Relation::AtLeast,
        right: 1,
    };
    normalize(alloc, &constraint)
}

/// What all variables cost together.
fn costs(alloc: Global) -> Result<Vec<Term>, AllocError> {
    let mut costs = Vec::new(alloc);
    for number in 0..COUNT {
        costs.push(once(number))?;
    }
    Ok(costs)
}

/// The relaxation of all four rows.
fn triples(alloc: Global) -> Result<Relaxation, CutFault> {
    let mut relaxation = Relaxation::new(alloc, 0)?;
    for left_out in 0..COUNT {
        let row = row_without(alloc, left_out)?;
        relaxation.add_row(&row)?;
    }
    relaxation.set_cost(costs(alloc)?.as_slice())?;
    Ok(relaxation)
}

/// Whether a row is multiplied by a third, and by two thirds for the opposite.
fn is_third(multiplier: FractionalMultiplier) -> bool {
    let opposite = multiplier.opposite();
    multiplier.fraction.abs_diff(THIRD) <= ROUNDED
        && opposite.fraction.abs_diff(TWO_THIRDS) <= ROUNDED
        && opposite.row == multiplier.row
}

/// Whether a basic variable has a third of each row.
fn has_thirds(alloc: Global, relaxation: &Relaxation, place: usize) -> Result<bool, AllocError> {
    let multipliers = relaxation.fractional_multipliers(alloc, place)?;
    Ok(multipliers.len() == 4 && multipliers.iter().all(|multiplier| is_third(*multiplier)))
}

#[test]
fn each_variable_has_a_third_of_each_row(rt: HostRuntime) {
    let mut relaxation = triples(rt.alloc()).expect(&rt, "a relaxation");
    let end = relaxation.solve(None, LIMITS).expect(&rt, "memory");
    assert_eq!(&rt; end, End::Values);
    assert_eq!(&rt; relaxation.basic_count(), 4);
    for place in 0..4 {
        assert!(&rt; has_thirds(rt.alloc(), &relaxation, place).expect(&rt, "memory"));
    }
}

#[test]
fn a_place_without_a_variable_has_no_row(rt: HostRuntime) {
    let relaxation = triples(rt.alloc()).expect(&rt, "a relaxation");
    let multipliers = relaxation
        .fractional_multipliers(rt.alloc(), 0)
        .expect(&rt, "memory");
    assert!(&rt; multipliers.is_empty());
}
