//! Proofs by the kernel's own calls, with ample memory: what it answers to each step, refused ones in the middle among them, and
//! to each conclusion. What is expected follows from the format: the constraints of a file have the ids 1, 2, .. in order, an
//! equality two of them, and what a step adds has the next one.

ghost use Rattle.std.specs.Prelude.{IfOk};
ghost use Rattle.kernel.specs.Held.{HasAtLeast};

use kernel::Kernel;
use linear::{Constraints, Lit, Names, Problem, Relation, Seq, Var};
use opb_read::read;
use proof_rules::StepFault;
use proof_steps::{Conclusion, Item, Step};
use proof_text::{ProofNames, read_step};
use propagate::{Propagator, ScanPropagator};
use std::alloc::{AllocError, Global};
use std::process::Abort;

/// The file `>= LEAST ; = 0 ;`, whose constraints have the ids 1, and 2 and 3. They have no terms, so that it needs no names.
fn problem(alloc: Global, least: i8) -> Result<Problem, AllocError> {
    let mut constraints = Constraints::new(alloc);
    constraints.push(&[], Relation::AtLeast, i128::from(least))?;
    constraints.push(&[], Relation::Equal, 0)?;
    Ok(Problem::new(Names::new(alloc), None, constraints))
}

/// A step of a table. The assignments of solutions are empty: the file has no variable.
#[derive(Clone, Copy)]
enum Line {
    Pol(&'static [Item]),
    Sol,
    Soli,
    Del(&'static [i128]),
}

/// A step, what the kernel answers to it, and the id that was given last behind it.
#[derive(Clone, Copy)]
struct Row {
    line: Line,
    answer: Result<Option<u32>, StepFault>,
    last_id: u64,
}

fn step(alloc: Global, line: Line) -> Result<Step, AllocError>
    ensures { IfOk result HasAtLeast }
{
    Ok(match line {
        Line::Pol(items) => Step::Pol(Seq::from_vec(Vec::from_slice(alloc, items)?)),
        Line::Sol => Step::Sol(Seq::from_vec(Vec::new(alloc))),
        Line::Soli => Step::Soli(Seq::from_vec(Vec::new(alloc))),
        Line::Del(ids) => Step::Del(Seq::from_vec(Vec::from_slice(alloc, ids)?)),
    })
}

/// What the kernel answers to a step.
fn applied<P: Propagator>(
    alloc: Global,
    kernel: &mut Kernel<'_, P>,
    line: Line,
) -> Result<Option<u32>, StepFault> {
    let step = step(alloc, line)?;
    let applied = kernel.apply(&step)?;
    Ok(applied.id)
}

/// Whether a kernel answers to each step as its row says.
fn answers_each<P: Propagator>(alloc: Global, kernel: &mut Kernel<'_, P>, rows: &[Row]) -> bool {
    for row in rows {
        if applied(alloc, kernel, row.line) != row.answer || kernel.last_id() != row.last_id {
            return false;
        }
    }
    true
}

/// Whether the kernel of the file answers to each step as its row says.
fn answers_are<P: Propagator>(alloc: Global, least: i8, rows: &[Row]) -> Result<bool, StepFault> {
    let problem = problem(alloc, least)?;
    let mut kernel: Kernel<'_, P> = Kernel::new(alloc, &problem)?;
    Ok(answers_each(alloc, &mut kernel, rows))
}

const NOT_FIRST: Lit = Lit {
    var: Var(0),
    negated: true,
};

const NUMBERS: [Row; 2] = [
    Row {
        line: Line::Pol(&[Item::Axiom(NOT_FIRST), Item::Id(3), Item::Add]),
        answer: Ok(Some(4)),
        last_id: 4,
    },
    Row {
        line: Line::Pol(&[Item::Id(-1)]),
        answer: Ok(Some(5)),
        last_id: 5,
    },
];

const REFUSED_IN_THE_MIDDLE: [Row; 3] = [
    Row {
        line: Line::Pol(&[Item::Id(1), Item::Id(4), Item::Add]),
        answer: Err(StepFault::DeadId),
        last_id: 3,
    },
    Row {
        line: Line::Pol(&[Item::Id(1), Item::Id(2)]),
        answer: Err(StepFault::StackShape),
        last_id: 3,
    },
    Row {
        line: Line::Pol(&[Item::Id(3)]),
        answer: Ok(Some(4)),
        last_id: 4,
    },
];

const DELETED: [Row; 10] = [
    Row {
        line: Line::Pol(&[Item::Id(3)]),
        answer: Ok(Some(4)),
        last_id: 4,
    },
    Row {
        line: Line::Del(&[4, 9]),
        answer: Err(StepFault::DeadId),
        last_id: 4,
    },
    Row {
        line: Line::Del(&[4, 0]),
        answer: Err(StepFault::DeadId),
        last_id: 4,
    },
    Row {
        line: Line::Del(&[4, -1]),
        answer: Err(StepFault::DeadId),
        last_id: 4,
    },
    Row {
        line: Line::Pol(&[Item::Id(4)]),
        answer: Ok(Some(5)),
        last_id: 5,
    },
    Row {
        line: Line::Del(&[4, -1]),
        answer: Ok(None),
        last_id: 5,
    },
    Row {
        line: Line::Pol(&[Item::Id(4)]),
        answer: Err(StepFault::DeadId),
        last_id: 5,
    },
    Row {
        line: Line::Pol(&[Item::Id(3)]),
        answer: Ok(Some(6)),
        last_id: 6,
    },
    // the file's own
    Row {
        line: Line::Del(&[1]),
        answer: Ok(None),
        last_id: 6,
    },
    Row {
        line: Line::Pol(&[Item::Id(1)]),
        answer: Err(StepFault::DeadId),
        last_id: 6,
    },
];

const SOLUTION: [Row; 2] = [
    Row {
        line: Line::Soli,
        answer: Err(StepFault::NoObjective),
        last_id: 3,
    },
    Row {
        line: Line::Sol,
        answer: Ok(None),
        last_id: 3,
    },
];

const NO_SOLUTION: [Row; 1] = [Row {
    line: Line::Sol,
    answer: Err(StepFault::SolutionFalse),
    last_id: 3,
}];

/// The least value of the file's first constraint, and steps of a proof.
const RUNS: [(i8, &[Row]); 5] = [
    (0, &NUMBERS),
    (0, &REFUSED_IN_THE_MIDDLE),
    (0, &DELETED),
    (0, &SOLUTION),
    (1, &NO_SOLUTION),
];

#[test]
fn answers_to_steps(rt: HostRuntime) {
    for (least, rows) in &RUNS {
        assert!(&rt; answers_are::<ScanPropagator>(rt.alloc(), *least, rows) == Ok(true));
    }
}

/// What the kernel of a problem answers to its first step.
fn applied_first<P: Propagator>(
    alloc: Global,
    problem: &Problem,
    step: &Step,
) -> Result<Option<u32>, StepFault>
    requires { HasAtLeast step.now }
{
    let mut kernel: Kernel<'_, P> = Kernel::new(alloc, problem)?;
    Ok(kernel.apply(step)?.id)
}

/// What it answers to the step that a line says. A text that is not read counts as out of memory.
fn answer_to_line<P: Propagator>(
    alloc: Global,
    problem: &Problem,
    line: &str,
) -> Result<Option<u32>, StepFault> {
    let mut names = ProofNames::new(alloc, problem.names());
    match read_step(alloc, line.as_bytes(), &mut names) {
        Ok(step) => applied_first::<P>(alloc, problem, &step),
        Err(_) => Err(StepFault::OutOfMemory),
    }
}

/// What the kernel of a file answers to its first step.
fn answer_to_first<P: Propagator>(
    alloc: Global,
    file: &str,
    line: &str,
) -> Result<Option<u32>, StepFault> {
    match read(alloc, file.as_bytes()) {
        Ok(problem) => answer_to_line::<P>(alloc, &problem, line),
        Err(_) => Err(StepFault::OutOfMemory),
    }
}

const TRIANGLE: &str = "min: 2 x1 3 x2 4 x3 ; 1 x1 1 x2 >= 1 ; 1 x2 1 x3 >= 1 ; 1 x1 1 x3 >= 1 ;";

/// Steps of redundance on the triangle. The fault names the least id among the live constraints whose goals are open.
const REDUNDANT: [(&str, Result<Option<u32>, StepFault>); 5] = [
    // of the first and the third
    ("red 1 ~x1 >= 1 ; x1 -> 0", Err(StepFault::GoalOpen(1))),
    // of the second and the third
    ("red 1 ~x3 >= 1 ; x3 -> 0", Err(StepFault::GoalOpen(2))),
    // the third alone: the other two come to degree 0
    (
        "red 1 ~x1 >= 1 ; x1 -> 0 x2 -> 1",
        Err(StepFault::GoalOpen(3)),
    ),
    // none but the new one: all three come to degree 0
    (
        "red 1 ~x1 >= 1 ; x1 -> 1 x2 -> 1",
        Err(StepFault::GoalOpenSelf),
    ),
    // the swap turns the second into the third, and the cheaper one is taken
    ("red 1 x1 1 ~x2 >= 1 ; x1 -> x2 x2 -> x1", Ok(Some(4))),
];

#[test]
fn answers_to_redundance(rt: HostRuntime) {
    for (line, answer) in &REDUNDANT {
        assert!(&rt; answer_to_first::<ScanPropagator>(rt.alloc(), TRIANGLE, line) == *answer);
    }
}

/// A conclusion without a hint.
#[derive(Clone, Copy)]
enum Concluded {
    Nothing,
    Sat,
    Unsat,
}

/// The conclusion that a kernel is asked for.
fn conclusion_of(concluded: Concluded) -> Conclusion {
    match concluded {
        Concluded::Nothing => Conclusion::Nothing,
        Concluded::Sat => Conclusion::Sat(None),
        Concluded::Unsat => Conclusion::Unsat,
    }
}

/// Whether a conclusion is handed out with a best solution.
fn concludes_with_best<P: Propagator>(
    kernel: &mut Kernel<'_, P>,
    concluded: Concluded,
) -> Result<bool, StepFault> {
    let conclusion = conclusion_of(concluded);
    let accepted = kernel.conclude(&conclusion)?;
    Ok(accepted.best().is_some())
}

/// The same behind some steps of a problem.
fn has_best_behind<P: Propagator>(
    alloc: Global,
    problem: &Problem,
    steps: &[Row],
    concluded: Concluded,
) -> Result<bool, StepFault> {
    let mut kernel: Kernel<'_, P> = Kernel::new(alloc, problem)?;
    for row in steps {
        let _answer = applied(alloc, &mut kernel, row.line);
    }
    concludes_with_best(&mut kernel, concluded)
}

/// The same of the file `>= LEAST ; = 0 ;`.
fn has_best<P: Propagator>(
    alloc: Global,
    least: i8,
    steps: &[Row],
    concluded: Concluded,
) -> Result<bool, StepFault> {
    let problem = problem(alloc, least)?;
    has_best_behind::<P>(alloc, &problem, steps, concluded)
}

#[test]
fn answers_to_conclusions(rt: HostRuntime) {
    let alloc = rt.alloc();
    assert!(&rt; has_best::<ScanPropagator>(alloc, 0, &NUMBERS, Concluded::Nothing) == Ok(false));
    assert!(&rt; has_best::<ScanPropagator>(alloc, 0, &SOLUTION, Concluded::Sat) == Ok(true));
    assert!(&rt;
        has_best::<ScanPropagator>(alloc, 1, &NO_SOLUTION, Concluded::Sat)
            == Err(StepFault::UpperNotLogged)
    );
    assert!(&rt; has_best::<ScanPropagator>(alloc, 1, &NO_SOLUTION, Concluded::Unsat) == Ok(false));
    assert!(&rt;
        has_best::<ScanPropagator>(alloc, 0, &SOLUTION, Concluded::Unsat)
            == Err(StepFault::SolutionLogged)
    );
    assert!(&rt;
        has_best::<ScanPropagator>(alloc, 0, &NUMBERS, Concluded::Unsat)
            == Err(StepFault::LowerNotShown)
    );
}
