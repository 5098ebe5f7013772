//! Relaxations made by a fixed rule: clauses, cardinalities and knapsacks over at most twelve variables, most of them with a point that
//! satisfies all, some with large numbers, some with no costs.

use super::plain::{PlainProblem, PlainRow, product, sizes};
use linear::{Relation, Seq, Signed, Term, Var};
use normal_form::{CutFault, Normal, normalize};
use std::alloc::{AllocError, Global};

/// Numbers that look as if drawn by lot, the same in each run: a linear congruential generator, of whose states the upper bits serve.
#[derive(Clone, Copy, Debug)]
pub(crate) struct Numbers {
    state: u64,
}

impl Numbers {
    pub(crate) fn new(seed: u64) -> Self {
        Numbers { state: seed }
    }

    /// The next number, below a bound.
    pub(crate) fn below(&mut self, bound: u32) -> u32 {
        self.state = self
            .state
            .wrapping_mul(6_364_136_223_846_793_005)
            .wrapping_add(1_442_695_040_888_963_407);
        let upper = (self.state >> 33) as u32;
        upper.checked_rem(bound).unwrap_or(0)
    }

    /// Whether it comes out, once in so many times.
    pub(crate) fn once_in(&mut self, times: u32) -> bool {
        self.below(times) == 0
    }

    /// A coefficient of at most this size.
    fn coefficient(&mut self, size: u32) -> i128 {
        let span = size.saturating_mul(2).saturating_add(1);
        i128::from(self.below(span)).saturating_sub(i128::from(size))
    }
}

/// What the rows of a problem may be.
#[derive(Clone, Copy, Debug)]
enum Kind {
    Clause,
    Cardinality,
    Knapsack,
    LargeKnapsack,
}

impl Kind {
    fn next(numbers: &mut Numbers) -> Self {
        match numbers.below(6) {
            0 | 1 => Kind::Clause,
            2 => Kind::Cardinality,
            3 | 4 => Kind::Knapsack,
            _ => Kind::LargeKnapsack,
        }
    }

    /// The greatest size of a coefficient.
    fn size(self) -> u32 {
        match self {
            Kind::Clause | Kind::Cardinality => 1,
            Kind::Knapsack => 9,
            Kind::LargeKnapsack => 1_000_000,
        }
    }
}

/// A row that a point meets, or perhaps not where there is none.
fn row(
    alloc: Global,
    numbers: &mut Numbers,
    point: &[i128],
    is_planted: Planted,
) -> Result<PlainRow, AllocError> {
    let kind = Kind::next(numbers);
    let mut coefficients = Vec::with_capacity(alloc, point.len())?;
    for _ in 0..point.len() {
        coefficients.push(numbers.coefficient(kind.size()))?;
    }
    let there = product(coefficients.as_slice(), point);
    let all = sizes(coefficients.as_slice());
    let least = product(coefficients.as_slice(), coefficients.as_slice());
    let right = match (is_planted, kind) {
        (Planted::Yes, Kind::Clause) => there.min(1),
        (Planted::Yes, _) => there.saturating_sub(i128::from(numbers.below(3))),
        (Planted::No, _) => {
            let part = i128::from(numbers.below(8));
            (all.saturating_mul(part) / 8).min(least)
        }
    };
    Ok(PlainRow {
        coefficients,
        right,
    })
}

/// Whether a point is chosen that all rows meet.
#[derive(Clone, Copy, Debug)]
pub(crate) enum Planted {
    Yes,
    No,
}

/// A problem.
pub(crate) fn problem(alloc: Global, numbers: &mut Numbers) -> Result<PlainProblem, AllocError> {
    let count = 1 + numbers.below(12) as usize;
    let planted = if numbers.once_in(4) {
        Planted::No
    } else {
        Planted::Yes
    };
    let mut point = Vec::with_capacity(alloc, count)?;
    for _ in 0..count {
        point.push(i128::from(numbers.below(2)))?;
    }
    let mut rows = Vec::new(alloc);
    for _ in 0..numbers.below(30).saturating_add(1) {
        rows.push(row(alloc, numbers, point.as_slice(), planted)?)?;
    }
    let cost = if numbers.once_in(6) { 0 } else { 9 };
    let mut costs = Vec::with_capacity(alloc, count)?;
    for _ in 0..count {
        costs.push(numbers.coefficient(cost))?;
    }
    Ok(PlainProblem { count, rows, costs })
}

/// The variable of a place.
pub(crate) fn variable(place: usize) -> Var {
    Var(u32::try_from(place).unwrap_or(u32::MAX))
}

/// Terms of these coefficients, place by place.
pub(crate) fn terms_of(alloc: Global, coefficients: &[i128]) -> Result<Vec<Term>, AllocError> {
    let mut terms = Vec::with_capacity(alloc, coefficients.len())?;
    for (place, coefficient) in coefficients.iter().enumerate() {
        terms.push(Term {
            coef: *coefficient,
            var: variable(place),
            negated: false,
        })?;
    }
    Ok(terms)
}

/// The normal constraint of a row.
pub(crate) fn normal(alloc: Global, row: &PlainRow) -> Result<Normal, CutFault> {
    let constraint = Signed {
        terms: Seq::from_vec(terms_of(alloc, row.coefficients.as_slice())?),
        relation: Relation::AtLeast,
        right: row.right,
    };
    normalize(alloc, &constraint)
}
