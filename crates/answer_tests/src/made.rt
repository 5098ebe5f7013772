//! Small problems made by a fixed rule: units, clauses, cardinalities, knapsacks, equalities and mixes of them, with and without an
//! objective, so that some have no solution.

ghost use Rattle.std.specs.Prelude.{◌<◌};

use super::plain::{PlainConstraint, PlainProblem, PlainTerm, worth};
use std::alloc::{AllocError, Global};

/// Numbers that look as if drawn by lot, the same in each run: a linear congruential generator, of whose states the upper bits serve.
#[derive(Clone, Copy, Debug)]
pub(crate) struct Numbers {
    state: u64,
}

impl Numbers {
    pub(crate) fn new(seed: u64) -> Self {
        Numbers { state: seed }
    }

    /// The next number, below a bound.
    pub(crate) fn below(&mut self, bound: u32) -> u32
        requires { 0 < bound }
        ensures { result < bound }
    {
        self.state = self
            .state
            .wrapping_mul(6364136223846793005)
            .wrapping_add(1442695040888963407);
        let upper = (self.state >> 33) as u32;
        upper % bound
    }

    /// True once in so many times.
    fn once_in(&mut self, times: u32) -> bool
        requires { 0 < times }
    {
        self.below(times) == 0
    }

    /// A coefficient from -9 to 9.
    fn coefficient(&mut self) -> i64 {
        i64::from(self.below(19)) - 9
    }
}

/// What a constraint is.
#[derive(Clone, Copy, Debug)]
enum Kind {
    Unit,
    Clause,
    Cardinality,
    Knapsack,
    Equality,
}

impl Kind {
    fn next(numbers: &mut Numbers) -> Self {
        match numbers.below(5) {
            0 => Kind::Unit,
            1 => Kind::Clause,
            2 => Kind::Cardinality,
            3 => Kind::Knapsack,
            _ => Kind::Equality,
        }
    }

    fn has_coefficients(self) -> bool {
        matches!(self, Kind::Knapsack | Kind::Equality)
    }
}

/// Some of the first variables, from a place on and round again.
fn some_places(
    alloc: Global,
    numbers: &mut Numbers,
    variables: u32,
) -> Result<Vec<usize>, AllocError>
    requires { 0 < variables }
{
    let mut places = Vec::new(alloc);
    let first = numbers.below(variables);
    for step in 0..variables {
        if !numbers.once_in(3) {
            places.push((first.wrapping_add(step) % variables) as usize)?;
        }
    }
    Ok(places)
}

/// The terms of some variables, with coefficients or with 1 before each literal.
fn terms_of(
    alloc: Global,
    numbers: &mut Numbers,
    places: &[usize],
    has_coefficients: bool,
) -> Result<Vec<PlainTerm>, AllocError> {
    let mut terms = Vec::new(alloc);
    for place in places {
        let coef = if has_coefficients {
            numbers.coefficient()
        } else {
            1
        };
        terms.push(PlainTerm {
            coef,
            place: *place,
            negated: numbers.once_in(2),
        })?;
    }
    Ok(terms)
}

/// Values of six variables.
type Values = [bool; 6];

fn some_values(numbers: &mut Numbers) -> Values {
    let mut values = [false; 6];
    for value in values.iter_mut() {
        *value = numbers.once_in(2);
    }
    values
}

/// What terms come to under an assignment or, one time in four, under another one.
fn some_worth(numbers: &mut Numbers, terms: &[PlainTerm], hidden: &Values) -> i64 {
    if numbers.once_in(4) {
        worth(terms, &some_values(numbers))
    } else {
        worth(terms, hidden)
    }
}

/// What the terms of a constraint are to come to: where they come to it under one assignment in each of several constraints,
/// these have a solution.
fn right_of(numbers: &mut Numbers, kind: Kind, terms: &[PlainTerm], hidden: &Values) -> i64 {
    let shift = i64::from(numbers.below(3)) - 2;
    let sum = some_worth(numbers, terms, hidden);
    match kind {
        Kind::Unit | Kind::Clause => 1,
        Kind::Knapsack => sum.saturating_add(shift),
        Kind::Cardinality | Kind::Equality => sum,
    }
}

fn some_constraint(
    alloc: Global,
    numbers: &mut Numbers,
    kind: Kind,
    variables: u32,
    hidden: &Values,
) -> Result<PlainConstraint, AllocError>
    requires { 0 < variables }
{
    let mut places = some_places(alloc, numbers, variables)?;
    if matches!(kind, Kind::Unit) {
        places.truncate(1);
    }
    if kind.has_coefficients() && numbers.once_in(4) {
        // a variable that may stand here twice
        places.push(numbers.below(variables) as usize)?;
    }
    let terms = terms_of(alloc, numbers, places.as_slice(), kind.has_coefficients())?;
    let right = right_of(numbers, kind, terms.as_slice(), hidden);
    Ok(PlainConstraint {
        terms,
        is_equality: matches!(kind, Kind::Equality),
        right,
    })
}

fn some_objective(
    alloc: Global,
    numbers: &mut Numbers,
    variables: u32,
) -> Result<Option<Vec<PlainTerm>>, AllocError>
    requires { 0 < variables }
{
    if numbers.once_in(3) {
        return Ok(None);
    }
    let places = some_places(alloc, numbers, variables)?;
    Ok(Some(terms_of(alloc, numbers, places.as_slice(), true)?))
}

/// A problem of at most six variables and at most seven constraints, of one kind or, one time in two, of mixed kinds.
pub(crate) fn some_problem(
    alloc: Global,
    numbers: &mut Numbers,
) -> Result<PlainProblem, AllocError> {
    let variables = numbers.below(6) + 1;
    let objective = some_objective(alloc, numbers, variables)?;
    let hidden = some_values(numbers);
    let is_mixed = numbers.once_in(2);
    let mut kind = Kind::next(numbers);
    let mut constraints = Vec::new(alloc);
    for _ in 0..numbers.below(8) {
        constraints.push(some_constraint(alloc, numbers, kind, variables, &hidden)?)?;
        if is_mixed {
            kind = Kind::next(numbers);
        }
    }
    Ok(PlainProblem {
        objective,
        constraints,
    })
}
