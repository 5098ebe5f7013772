//! An adviser over a kernel, on problems that are worked out by hand: each line that it hands out is legal, and its constraint says under
//! what stands what the answer calls it.

use bounding::{Advice, Adviser, Node};
use kernel::Kernel;
use linear::{Lit, Problem, Seq, Var};
use normal_form::Normal;
use opb_read::read;
use proof_rules::StepFault;
use proof_steps::{Item, Step};
use propagate::{Id, Propagator, ScanPropagator};
use std::alloc::{AllocError, Global};
use std::process::Abort;

/// Four pigeons in three holes.
const PIGEONS: &str = "1 a1 1 a2 1 a3 >= 1 ;
1 b1 1 b2 1 b3 >= 1 ;
1 c1 1 c2 1 c3 >= 1 ;
1 d1 1 d2 1 d3 >= 1 ;
-1 a1 -1 b1 -1 c1 -1 d1 >= -1 ;
-1 a2 -1 b2 -1 c2 -1 d2 >= -1 ;
-1 a3 -1 b3 -1 c3 -1 d3 >= -1 ;
";

/// One of three, at prices with 2 as their divisor: the cheapest one is at 4.
const PRICES: &str = "min: 4 x1 6 x2 18 x3 ;
1 x1 1 x2 1 x3 >= 1 ;
";

/// The corners of a triangle, of which each side wants one.
const TRIANGLE: &str = "min: 2 x1 3 x2 4 x3 ;
1 x1 1 x2 >= 1 ;
1 x2 1 x3 >= 1 ;
1 x1 1 x3 >= 1 ;
";

/// A literal of a variable, by its place in the file.
fn literal(place: u32, negated: bool) -> Lit {
    Lit {
        var: Var(place),
        negated,
    }
}

/// A node below the root of a search that has done so much that a call is due.
fn below_root(standing: &[Lit]) -> Node<'_> {
    Node {
        standing,
        decisions: 1,
        conflicts: 0,
        searched: 1 << 40,
    }
}

/// The root of a search.
fn root() -> Node<'static> {
    Node {
        standing: &[],
        decisions: 0,
        conflicts: 0,
        searched: 0,
    }
}

/// The root of a search that met a conflict and has done so much that a call is due.
fn after_conflict() -> Node<'static> {
    Node {
        standing: &[],
        decisions: 0,
        conflicts: 1,
        searched: 1 << 40,
    }
}

/// A node below the root of a search that met so many conflicts and has done nothing else, so that no call is due but in a dive.
fn quiet(conflicts: u64) -> Node<'static> {
    Node {
        standing: &[],
        decisions: 1,
        conflicts,
        searched: 0,
    }
}

/// What the literals that are not false come to, less the degree.
fn slack(constraint: &Normal, standing: &[Lit]) -> i128 {
    let mut slack = (constraint.degree().min(1 << 120) as i128).saturating_neg();
    for place in 0..constraint.len() {
        let term = constraint.term(place);
        if standing
            .iter()
            .all(|literal| *literal != term.literal().opposite())
        {
            slack = slack.saturating_add(term.coef.min(1 << 120) as i128);
        }
    }
    slack
}

/// The greatest coefficient of a literal whose variable does not stand.
fn greatest_free(constraint: &Normal, standing: &[Lit]) -> i128 {
    let mut greatest: i128 = 0;
    for place in 0..constraint.len() {
        let term = constraint.term(place);
        if standing.iter().all(|literal| literal.var != term.var) {
            greatest = greatest.max(term.coef.min(1 << 120) as i128);
        }
    }
    greatest
}

/// Applies a line; the slack of its constraint under what stands, and the greatest coefficient of a free literal.
fn apply<'a, P: Propagator>(
    kernel: &mut Kernel<'a, P>,
    items: Seq<Item>,
    standing: &[Lit],
) -> Result<(i128, i128), StepFault> {
    kernel.apply(&Step::Pol(items))?;
    let Ok(id) = Id::try_from(kernel.last_id()) else {
        return Err(StepFault::TooManyIds);
    };
    match kernel.constraint(id) {
        Some(constraint) => Ok((
            slack(constraint, standing),
            greatest_free(constraint, standing),
        )),
        None => Err(StepFault::DeadId),
    }
}

/// Logs an improving solution, and tells the adviser.
fn improve<'a, P: Propagator>(
    alloc: Global,
    kernel: &mut Kernel<'a, P>,
    adviser: &mut Adviser,
    solution: &[Lit],
) -> Result<(), StepFault> {
    kernel.apply(&Step::Soli(Seq::from_vec(solution.to_vec(alloc)?)))?;
    adviser.improve(kernel);
    Ok(())
}

/// A kernel of a problem, and the adviser over it. Problems that are too large for one, of which there is none here, count as out of memory.
fn adviser_of<'a, P: Propagator>(
    alloc: Global,
    problem: &'a Problem,
) -> Result<(Kernel<'a, P>, Adviser), AllocError> {
    let kernel = Kernel::new(alloc, problem)?;
    match Adviser::new(alloc, problem, &kernel)? {
        Some(adviser) => Ok((kernel, adviser)),
        None => Err(AllocError),
    }
}

/// Whether the relaxation is infeasible at the root, and the sum of its multipliers says so, by one.
fn contradicts<'a, P: Propagator>(
    kernel: &mut Kernel<'a, P>,
    adviser: &mut Adviser,
) -> Result<bool, StepFault> {
    let Advice::Conflict(items) = adviser.ask(kernel, root())? else {
        return Ok(false);
    };
    let (slack, _) = apply(kernel, items, &[])?;
    let figures = adviser.figures();
    Ok(slack == -1 && figures.conflicts == 1 && figures.failed == 0)
}

/// Whether a literal is forced at the root, where no solution is worth less than 4.
fn forces_at_root<'a, P: Propagator>(
    kernel: &mut Kernel<'a, P>,
    adviser: &mut Adviser,
) -> Result<bool, StepFault> {
    let Advice::Forcing(items) = adviser.ask(kernel, root())? else {
        return Ok(false);
    };
    let (slack, greatest) = apply(kernel, items, &[])?;
    Ok(slack >= 0 && greatest > slack && adviser.bound() == Some(4))
}

/// Whether a literal is forced, or all is contradicted, below the root.
fn speaks_below<'a, P: Propagator>(
    kernel: &mut Kernel<'a, P>,
    adviser: &mut Adviser,
) -> Result<bool, StepFault> {
    let turned = [literal(0, true)];
    let advice = adviser.ask(kernel, below_root(&turned))?;
    let (Advice::Conflict(items) | Advice::Forcing(items)) = advice else {
        return Ok(false);
    };
    let (slack, greatest) = apply(kernel, items, &turned)?;
    Ok(greatest > slack)
}

/// Whether prices force literals at the root and below it, once the second is known for a solution.
fn forces<'a, P: Propagator>(
    alloc: Global,
    kernel: &mut Kernel<'a, P>,
    adviser: &mut Adviser,
) -> Result<bool, StepFault> {
    let solution = [literal(0, true), literal(1, false), literal(2, true)];
    improve(alloc, kernel, adviser, &solution)?;
    Ok(forces_at_root(kernel, adviser)? && speaks_below(kernel, adviser)?)
}

/// Whether the relaxation of a problem is infeasible.
fn is_contradicted<'a, P: Propagator>(
    alloc: Global,
    problem: &'a Problem,
) -> Result<bool, StepFault> {
    let (mut kernel, mut adviser) = adviser_of::<P>(alloc, problem)?;
    contradicts(&mut kernel, &mut adviser)
}

/// Whether prices of a problem force literals.
fn is_forced<'a, P: Propagator>(alloc: Global, problem: &'a Problem) -> Result<bool, StepFault> {
    let (mut kernel, mut adviser) = adviser_of::<P>(alloc, problem)?;
    forces(alloc, &mut kernel, &mut adviser)
}

/// Whether a dive goes on below the root, before a conflict and so before a cut: a call is due at a node that has done nothing, and all three
/// corners, which are open, are preferred.
fn dives<'a, P: Propagator>(
    kernel: &Kernel<'a, P>,
    adviser: &mut Adviser,
) -> Result<bool, AllocError> {
    let at_root = adviser.ask(kernel, root())?;
    let is_early = adviser.preferred().is_empty();
    let below = adviser.ask(kernel, quiet(0))?;
    Ok(
        matches!((at_root, below), (Advice::Values, Advice::Values))
            && is_early
            && adviser.preferred().len() == 3,
    )
}

/// The cut that comes after a conflict, if one does.
fn cut_of<'a, P: Propagator>(
    kernel: &Kernel<'a, P>,
    adviser: &mut Adviser,
) -> Result<Option<Seq<Item>>, AllocError> {
    match adviser.ask(kernel, after_conflict())? {
        Advice::Cut(items) => Ok(Some(items)),
        _ => Ok(None),
    }
}

/// Whether a cut comes whose line is legal, and the bound is known that the relaxation had before it.
fn cuts<'a, P: Propagator>(
    kernel: &mut Kernel<'a, P>,
    adviser: &mut Adviser,
) -> Result<bool, StepFault> {
    let Some(items) = cut_of(kernel, adviser)? else {
        return Ok(false);
    };
    apply(kernel, items, &[])?;
    Ok(adviser.bound() == Some(4))
}

/// Whether the corners lean to half once a cut is taken, and below one that is decided the two others; nothing is said where nothing has
/// changed.
fn leans<'a, P: Propagator>(
    kernel: &Kernel<'a, P>,
    adviser: &mut Adviser,
) -> Result<bool, AllocError> {
    adviser.take_cut(kernel)?;
    let at_root = adviser.ask(kernel, after_conflict())?;
    let all = adviser.leanings().len();
    let unchanged = adviser.ask(kernel, quiet(100))?;
    let first = [literal(0, false)];
    let below = adviser.ask(kernel, below_root(&first))?;
    let leans = matches!(at_root, Advice::Values) && matches!(below, Advice::Values);
    let others = adviser.leanings().len();
    Ok(leans && matches!(unchanged, Advice::Nothing) && all == 3 && others == 2)
}

/// Whether a dive prefers the corners until a cut comes, and they lean to half then, in five calls with one cut.
fn dives_and_leans<'a, P: Propagator>(
    kernel: &mut Kernel<'a, P>,
    adviser: &mut Adviser,
) -> Result<bool, StepFault> {
    let is_so = dives(kernel, adviser)? && cuts(kernel, adviser)? && leans(kernel, adviser)?;
    let figures = adviser.figures();
    Ok(is_so && figures.calls == 5 && figures.cuts == 1)
}

/// The same of a problem.
fn is_leaning<'a, P: Propagator>(alloc: Global, problem: &'a Problem) -> Result<bool, StepFault> {
    let (mut kernel, mut adviser) = adviser_of::<P>(alloc, problem)?;
    dives_and_leans(&mut kernel, &mut adviser)
}

#[test]
fn pigeons_contradict_each_other(rt: HostRuntime) {
    let problem = read(rt.alloc(), PIGEONS.as_bytes()).expect(&rt, "a problem");
    assert!(&rt; is_contradicted::<ScanPropagator>(rt.alloc(), &problem) == Ok(true));
}

#[test]
fn prices_force_literals(rt: HostRuntime) {
    let problem = read(rt.alloc(), PRICES.as_bytes()).expect(&rt, "a problem");
    assert!(&rt; is_forced::<ScanPropagator>(rt.alloc(), &problem) == Ok(true));
}

#[test]
fn corners_lean(rt: HostRuntime) {
    let problem = read(rt.alloc(), TRIANGLE.as_bytes()).expect(&rt, "a problem");
    assert!(&rt; is_leaning::<ScanPropagator>(rt.alloc(), &problem) == Ok(true));
}
