//! A relaxation of thousands of rows, whose steps are chosen by norms. Each side of a path wants one of its two corners, and every second corner
//! serves all sides; a path has no odd cycle, so its relaxation costs as much.

use linear::{Relation, Seq, Signed, Term, Var};
use normal_form::{CutFault, Normal, normalize};
use relaxation::{End, Limits, Relaxation};
use std::alloc::{AllocError, Global};

/// How many sides the path has.
const SIDES: u32 = 3_000;

/// How many corners serve all of them.
const WANTED: i128 = 1_500;

/// What a corner costs: enough that rounding does not tell on the bound.
const PRICE: i128 = 100;

/// Ample for the path.
const LIMITS: Limits = Limits {
    steps: 100_000,
    work: 100_000_000_000,
};

/// A corner with a coefficient.
fn corner(number: u32, coef: i128) -> Term {
    Term {
        coef,
        var: Var(number),
        negated: false,
    }
}

/// What the corners cost.
fn prices(alloc: Global) -> Result<Vec<Term>, AllocError> {
    let mut prices = Vec::new(alloc);
    for number in 0..=SIDES {
        prices.push(corner(number, PRICE))?;
    }
    Ok(prices)
}

/// The side from a corner to the next one.
fn side(alloc: Global, number: u32) -> Result<Normal, CutFault> {
    let mut corners = Vec::new(alloc);
    corners.push(corner(number, 1))?;
    corners.push(corner(number.saturating_add(1), 1))?;
    let constraint = Signed {
        terms: Seq::from_vec(corners),
        relation: Relation::AtLeast,
        right: 1,
    };
    normalize(alloc, &constraint)
}

/// The relaxation of the path.
fn path(alloc: Global) -> Result<Relaxation, CutFault> {
    let mut relaxation = Relaxation::new(alloc, 0)?;
    for number in 0..SIDES {
        let row = side(alloc, number)?;
        relaxation.add_row(&row)?;
    }
    relaxation.set_cost(prices(alloc)?.as_slice())?;
    Ok(relaxation)
}

#[test]
fn every_second_corner_of_a_path_serves(rt: HostRuntime) {
    let mut relaxation = path(rt.alloc()).expect(&rt, "a relaxation");
    let end = relaxation.solve(None, LIMITS).expect(&rt, "memory");
    assert_eq!(&rt; end, End::Values);
    let bound = relaxation.bound();
    assert!(&rt;
        bound > PRICE * WANTED - PRICE && bound <= PRICE * WANTED,
        "{bound}"
    );
}
