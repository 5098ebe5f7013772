//! Equal answers over both propagators, the plain one and the fast one. Their contract is one, so this could only fail where it says
//! too little, or where memory runs out.

use kernel::Kernel;
use linear::Problem;
use opb_read::read;
use proof_rules::StepFault;
use proof_text::{ProofNames, read_step};
use propagate::{Propagator, ScanPropagator};
use std::alloc::{AllocError, Global};
use std::process::Abort;
use std::test::Fail;
use watch::WatchPropagator;

/// What a kernel answers to a step: the id of what it added, if anything, or the fault.
type Answer = Result<Option<u32>, StepFault>;

/// A problem and the steps of a proof, legal ones and others, a line each.
struct Run {
    problem: &'static str,
    lines: &'static [&'static str],
}

/// What a kernel answers to a line; none where the line does not read as a step.
fn answer<P: Propagator>(
    alloc: Global,
    kernel: &mut Kernel<'_, P>,
    names: &mut ProofNames<'_>,
    line: &str,
) -> Option<Answer> {
    let Ok(step) = read_step(alloc, line.as_bytes(), names) else {
        return None;
    };
    Some(kernel.apply(&step).map(|applied| applied.id))
}

/// What a kernel answers to the lines, one after another.
fn answer_each<P: Propagator>(
    alloc: Global,
    kernel: &mut Kernel<'_, P>,
    names: &mut ProofNames<'_>,
    lines: &[&str],
) -> Result<Vec<Option<Answer>>, AllocError> {
    let mut answers = Vec::new(alloc);
    for line in lines {
        answers.push(answer(alloc, kernel, names, line))?;
    }
    Ok(answers)
}

/// What a kernel of the problem answers to the lines.
fn answers<P: Propagator>(
    alloc: Global,
    problem: &Problem,
    lines: &[&str],
) -> Result<Vec<Option<Answer>>, StepFault> {
    let mut names = ProofNames::new(alloc, problem.names());
    let mut kernel: Kernel<'_, P> = Kernel::new(alloc, problem)?;
    Ok(answer_each(alloc, &mut kernel, &mut names, lines)?)
}

/// How many lines read as steps, where kernels over both answer alike, and never that memory ran out.
fn agree(alloc: Global, problem: &Problem, lines: &[&str]) -> Result<Option<usize>, StepFault> {
    let plain = answers::<ScanPropagator>(alloc, problem, lines)?;
    let fast = answers::<WatchPropagator>(alloc, problem, lines)?;
    let wanted = Some(Err(StepFault::OutOfMemory));
    if plain == fast && !plain.contains(&wanted) {
        Ok(Some(plain.iter().filter(|answer| answer.is_some()).count()))
    } else {
        Ok(None)
    }
}

/// Whether they answer alike to all lines of a proof that read as steps, whatever is wrong with some of them. Of a text that is
/// no problem nothing is asked.
pub(crate) fn agree_on(alloc: Global, opb: &[u8], proof: &[u8]) -> Result<bool, Fail> {
    let (Ok(problem), Ok(text)) = (read(alloc, opb), str::from_utf8(proof)) else {
        return Ok(true);
    };
    let lines: Vec<&str> = text.lines().collect(alloc)?;
    Ok(matches!(agree(alloc, &problem, lines.as_slice()), Ok(Some(_))))
}

const RUNS: [Run; 5] = [
    Run {
        problem: "1 x1 1 x2 >= 1 ; 1 ~x2 1 x3 >= 1 ; 1 ~x1 1 x3 >= 1 ; 2 x3 1 x4 1 x5 >= 2 ; 1 ~x4 1 ~x5 >= 1 ;",
        lines: &[
            "rup 1 x3 >= 1 ;",
            "rup 1 x1 >= 1 ;",
            "pol 1 2 + 3 +",
            "rup 1 x2 1 x3 >= 1 ;",
            "del id 6",
            "rup 1 x3 >= 1 ;",
            "red 1 ~x4 >= 1 ; x4 -> 0",
            "del id 9",
            "red 1 x5 >= 1 ; x5 -> 1",
            "del id 1",
            "rup 1 x3 1 x4 >= 1 ;",
            "pol -1 2 * -1 + 2 d s",
            "sol x1 x2 x3 ~x4 ~x5",
            "sol ~x1 ~x2",
            "del id 7 8",
            "rup 1 x3 >= 1 ;",
            "rup 1 ~x3 >= 1 ;",
        ],
    },
    Run {
        problem: "min: 2 x1 3 x2 4 x3 ; 1 x1 1 x2 >= 1 ; 1 x2 1 x3 >= 1 ; 1 x1 1 x3 >= 1 ;",
        lines: &[
            "sol x1 ~x2",
            "soli x1 x2 x3",
            "soli x1 x2 ~x3",
            "rup 1 x2 >= 1 ;",
            "pol 1 2 + 3 + 2 d",
            "pol -2 -1 2 * +",
            "rup >= 1 ;",
            "soli x1 x3",
            "del id 4",
            "del id 6",
            "rup >= 1 ;",
            "red 1 x1 >= 1 ; x1 -> 1",
            "red 1 x2 1 ~x3 >= 1 ; x2 -> x3 x3 -> x2",
            "rup 1 x1 1 x2 1 x3 >= 2 ;",
        ],
    },
    Run {
        problem: "1 a1 1 a2 1 a3 >= 1 ; 1 b1 1 b2 1 b3 >= 1 ; 1 c1 1 c2 1 c3 >= 1 ; 1 ~a1 1 ~b1 1 ~c1 >= 2 ; 1 ~a2 1 ~b2 1 ~c2 >= 2 ; 1 ~a3 1 ~b3 1 ~c3 >= 2 ;",
        lines: &[
            "rup 1 ~a1 1 ~b1 >= 1 ;",
            "rup 1 a1 1 b1 >= 1 ;",
            "red 1 a1 1 ~a2 >= 1 ; a1 -> a2 a2 -> a1 b1 -> b2 b2 -> b1 c1 -> c2 c2 -> c1",
            "red 1 a1 1 ~a3 >= 1 ; a1 -> a3 a3 -> a1 b1 -> b3 b3 -> b1 c1 -> c3 c3 -> c1",
            "rup 1 a1 >= 1 ;",
            "del id 8",
            "red 1 b2 1 ~b3 >= 1 ; a2 -> a3 a3 -> a2 b2 -> b3 b3 -> b2 c2 -> c3 c3 -> c2",
            "rup 1 b2 >= 1 ;",
            "red 2 ~most 1 a1 1 b1 1 c1 >= 2 ; most -> 0",
            "red 2 most 1 ~a1 1 ~b1 1 ~c1 >= 2 ; most -> 1",
            "rup 1 ~most >= 1 ;",
            "del id 11",
            "del id 4",
            "rup 1 c3 >= 1 ;",
            "pol 1 2 + 3 + 5 + 6 + 9 + s",
            "sol a1 b2 c3",
            "sol a1",
        ],
    },
    Run {
        problem: "1000000000000 x1 999999999999 x2 3 x3 >= 1000000000001 ; 5 x1 4 x2 3 x3 2 x4 1 x5 = 9 ; 1 x4 1 x5 >= 1 ;",
        lines: &[
            "rup 1 x1 >= 1 ;",
            "pol 1 2 + 3 d",
            "pol 1 1267650600228229401496703205376 * 2 +",
            "pol 2 3 + s x1 w",
            "rup 1 x1 1 x2 >= 2 ;",
            "rup 1 ~x3 1 ~x4 1 ~x5 >= 1 ;",
            "del id 1",
            "del id 5",
            "rup 3 x1 2 x2 >= 3 ;",
            "sol x1 x2 ~x3 ~x4",
            "sol x1 ~x2 x4",
            "sol x1 x4 ~x5",
        ],
    },
    Run {
        problem: "min: 2 x1 2 x2 2 x3 2 x4 5 x5 ; 1 x1 1 x2 1 x3 1 x4 3 x5 >= 3 ; 1 ~x1 1 ~x2 1 x5 >= 1 ;",
        lines: &[
            "soli x1 x2 ~x3 ~x4 x5",
            "del id 3",
            "red -1 x1 -1 x2 -1 x3 -1 x4 >= -2 ; x1 0 x2 0 x3 0 x4 0 x5 1 ; begin",
            "rup 1 x1 1 x2 >= 1 ;",
            "sol x1",
            "end",
            "proofgoal 1",
            "rup 1 x3 1 x4 >= 1 ;",
            "end",
            "proofgoal 1",
            "proofgoal #2",
            "end",
            "pol 4 2 * -1 +",
            "end -1",
            "pol 8",
            "rup 1 x1 1 x2 1 x3 >= 2 ;",
            "end",
            "pol -1 1 + s",
            "rup 1 x5 >= 1 ;",
            "red 1 ~x1 >= 1 ; x1 0 ; begin",
            "proofgoal -2",
            "proofgoal #1",
            "end",
            "end",
            "end",
            "del id 2 -1",
            "rup 1 x5 1 x1 >= 2 ;",
        ],
    },
];

#[test]
fn answers_over_each_propagator(rt: HostRuntime) {
    for run in &RUNS {
        let problem = read(rt.alloc(), run.problem.as_bytes()).expect(&rt, "a problem");
        assert!(&rt; agree(rt.alloc(), &problem, run.lines) == Ok(Some(run.lines.len())));
    }
}
