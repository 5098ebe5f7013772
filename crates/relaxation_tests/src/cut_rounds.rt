//! Cuts of problems that are worked out by hand: the first one that the adviser hands out is the one that everybody knows, and once it is a
//! row the point of the relaxation satisfies it. And a row that has slack may leave, so that another one takes its place.

use super::made::normal;
use super::plain::PlainRow;
use bounding::{Advice, Adviser, Node};
use kernel::Kernel;
use linear::{Integer, Problem, Term, Var};
use normal_form::Normal;
use opb_read::read;
use proof_rules::StepFault;
use proof_steps::Step;
use propagate::{Id, Propagator, ScanPropagator};
use relaxation::{End, Limits, Relaxation, Row};
use std::alloc::{AllocError, Global};

/// The corners of a triangle, of which each side wants one: two are wanted.
const TRIANGLE: &str = "min: 2 x1 3 x2 4 x3 ;
1 x1 1 x2 >= 1 ;
1 x2 1 x3 >= 1 ;
1 x1 1 x3 >= 1 ;
";

/// Four literals of which at most one is true, told by a constraint of three and by pairs.
const MIXED: &str = "min: -1 x1 -1 x2 -1 x3 -1 x4 ;
-2 x1 -2 x2 -2 x3 >= -3 ;
-1 x1 -1 x4 >= -1 ;
-3 x2 -3 x4 >= -4 ;
-1 x3 -1 x4 >= -1 ;
";

/// The corners of a pentagon, of which each side wants one: three are wanted.
const PENTAGON: &str = "min: 1 x1 1 x2 1 x3 1 x4 1 x5 ;
1 x1 1 x2 >= 1 ;
1 x2 1 x3 >= 1 ;
1 x3 1 x4 >= 1 ;
1 x4 1 x5 >= 1 ;
1 x1 1 x5 >= 1 ;
";

/// A knapsack that holds one and a half of its items.
const KNAPSACK: &str = "min: -4 x1 -3 x2 -2 x3 ;
-2 x1 -2 x2 -2 x3 >= -3 ;
";

/// A problem whose first cut everybody knows.
#[derive(Clone, Copy, Debug, PartialEq, Eq)]
enum Known {
    /// A triangle is a clique.
    Triangle,
    /// A clique that is told by constraints of two kinds.
    Mixed,
    /// A pentagon is an odd cycle.
    Pentagon,
    /// A knapsack is rounded.
    Knapsack,
}

impl Known {
    fn text(self) -> &'static str {
        match self {
            Known::Triangle => TRIANGLE,
            Known::Mixed => MIXED,
            Known::Pentagon => PENTAGON,
            Known::Knapsack => KNAPSACK,
        }
    }
}

/// What the first cut of a problem is to be: how many terms, each with the coefficient 1, and the degree; and how many variables the point
/// makes true once no cut is left.
#[derive(Clone, Copy)]
struct Expected {
    problem: Known,
    terms: usize,
    degree: u128,
    leaning: usize,
}

/// What the first cut of each of these problems is.
const KNOWN_CUTS: [Expected; 4] = [
    Expected {
        problem: Known::Triangle,
        terms: 3,
        degree: 2,
        leaning: 2,
    },
    Expected {
        problem: Known::Mixed,
        terms: 4,
        degree: 3,
        leaning: 1,
    },
    Expected {
        problem: Known::Pentagon,
        terms: 5,
        degree: 3,
        leaning: 3,
    },
    Expected {
        problem: Known::Knapsack,
        terms: 3,
        degree: 2,
        leaning: 1,
    },
];

/// The root of a search that met a conflict, after which cuts come.
fn root() -> Node<'static> {
    Node {
        standing: &[],
        decisions: 0,
        conflicts: 1,
        searched: 0,
    }
}

/// Whether a constraint has so many terms, each with the coefficient 1, and that degree.
fn is_as_expected(constraint: &Normal, expected: Expected) -> bool {
    constraint.len() == expected.terms
        && constraint.sum() == expected.terms as u128
        && constraint.degree() == expected.degree
}

/// Applies the line of a cut, and gives it to the adviser; whether its constraint is as expected.
fn take<'a, P: Propagator>(
    kernel: &mut Kernel<'a, P>,
    adviser: &mut Adviser,
    advice: Advice,
    expected: Expected,
) -> Result<bool, StepFault> {
    let Advice::Cut(items) = advice else {
        return Ok(false);
    };
    kernel.apply(&Step::Pol(items))?;
    adviser.take_cut(kernel)?;
    let Ok(id) = Id::try_from(kernel.last_id()) else {
        return Ok(false);
    };
    match kernel.constraint(id) {
        Some(constraint) => Ok(is_as_expected(constraint, expected)),
        None => Ok(false),
    }
}

/// Asks until no cut comes any more, and takes each; whether values came at last.
fn take_all<'a, P: Propagator>(
    kernel: &mut Kernel<'a, P>,
    adviser: &mut Adviser,
    expected: Expected,
) -> Result<bool, StepFault> {
    for _ in 0..100 {
        let advice = adviser.ask(kernel, root())?;
        if let Advice::Values = advice {
            return Ok(true);
        }
        take(kernel, adviser, advice, expected)?;
    }
    Ok(false)
}

/// How many variables the point makes true.
fn leaning(adviser: &Adviser) -> usize {
    adviser
        .leanings()
        .iter()
        .filter(|literal| !literal.negated)
        .count()
}

/// Whether the first cut is as expected, and then values come, which lead to as many variables as expected.
fn is_known<'a, P: Propagator>(
    kernel: &mut Kernel<'a, P>,
    adviser: &mut Adviser,
    expected: Expected,
) -> Result<bool, StepFault> {
    let advice = adviser.ask(kernel, root())?;
    let is_first = take(kernel, adviser, advice, expected)?;
    let ends = take_all(kernel, adviser, expected)?;
    Ok(is_first && ends && leaning(adviser) == expected.leaning)
}

/// The same of a problem. What is asked stands in a helper, since each exit here drops kernel and adviser.
fn is_cut<'a, P: Propagator>(
    alloc: Global,
    problem: &'a Problem,
    expected: Expected,
) -> Result<bool, StepFault> {
    let mut kernel: Kernel<'a, P> = Kernel::new(alloc, problem)?;
    match Adviser::new(alloc, problem, &kernel)? {
        Some(mut adviser) => is_known(&mut kernel, &mut adviser, expected),
        None => Ok(false),
    }
}

/// The first problem of the table whose cut is not as expected, or that cannot be read; none where there is no such problem.
fn first_wrong(alloc: Global) -> Result<Option<Known>, StepFault> {
    for expected in KNOWN_CUTS {
        if !is_row_right(alloc, expected)? {
            return Ok(Some(expected.problem));
        }
    }
    Ok(None)
}

/// Reads the problem of a row, and looks at its cut.
fn is_row_right(alloc: Global, expected: Expected) -> Result<bool, StepFault> {
    match read(alloc, expected.problem.text().as_bytes()) {
        Ok(problem) => is_cut::<ScanPropagator>(alloc, &problem, expected),
        Err(_) => Ok(false),
    }
}

#[test]
fn the_first_cut_is_the_known_one(rt: HostRuntime) {
    let wrong = first_wrong(rt.alloc()).expect(&rt, "legal lines");
    assert_eq!(&rt; wrong, None);
}

/// What is asked for where rows leave: ample for two rows.
const LIMITS: Limits = Limits {
    steps: 100,
    work: 1_000_000,
};

/// A row over three variables.
fn row(alloc: Global, coefficients: &[i128], right: i128) -> Result<Normal, StepFault> {
    let row = PlainRow {
        coefficients: Vec::from_slice(alloc, coefficients)?,
        right,
    };
    Ok(normal(alloc, &row)?)
}

/// The costs of three variables.
const COSTS: [Term; 3] = [
    Term {
        coef: 1,
        var: Var(0),
        negated: false,
    },
    Term {
        coef: 2,
        var: Var(1),
        negated: false,
    },
    Term {
        coef: 3,
        var: Var(2),
        negated: false,
    },
];

/// Adds a row.
fn add(
    alloc: Global,
    relaxation: &mut Relaxation,
    coefficients: &[i128],
    right: i128,
) -> Result<Row, StepFault> {
    let row = row(alloc, coefficients, right)?;
    Ok(relaxation.add_row(&row)?)
}

/// Puts a row in the place of one that left.
fn replace(
    alloc: Global,
    relaxation: &mut Relaxation,
    place: Row,
    coefficients: &[i128],
    right: i128,
) -> Result<(), StepFault> {
    let row = row(alloc, coefficients, right)?;
    Ok(relaxation.replace_row(place, &row)?)
}

/// The bound once a row with slack has left and another one has taken its place: the tight row does not leave.
fn bound_after_exchange(
    alloc: Global,
    relaxation: &mut Relaxation,
) -> Result<Option<Integer>, StepFault> {
    let tight = add(alloc, relaxation, &[1, 1, 0], 1)?;
    let slack = add(alloc, relaxation, &[1, 0, -1], 0)?;
    let _ = relaxation.solve(None, LIMITS)?;
    if relaxation.is_slack(tight) || !relaxation.is_slack(slack) || relaxation.remove_row(tight) {
        return Ok(None);
    }
    let _ = relaxation.remove_row(slack);
    replace(alloc, relaxation, slack, &[0, 0, 1], 1)?;
    match relaxation.solve(None, LIMITS)? {
        End::Values if slack == Row(1) => Ok(Some(relaxation.bound())),
        _ => Ok(None),
    }
}

/// The relaxation of three variables, with their costs and no row.
fn with_costs(alloc: Global) -> Result<Relaxation, AllocError> {
    let mut relaxation = Relaxation::new(alloc, 3)?;
    relaxation.set_cost(&COSTS)?;
    Ok(relaxation)
}

#[test]
fn a_row_takes_the_place_of_another(rt: HostRuntime) {
    let mut relaxation = with_costs(rt.alloc()).expect(&rt, "memory");
    let bound = bound_after_exchange(rt.alloc(), &mut relaxation).expect(&rt, "memory");
    assert_eq!(&rt; bound, Some(4));
}
