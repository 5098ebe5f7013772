//! The steps of blocks by the kernel's own calls, refused ones in the middle: a step that may not stand where it does is told so before
//! anything else about it. (From a text these two answers never come, since such a line is a bad one there.)

use super::rows::PIGEONS_IN_HOLES;
use kernel::Kernel;
use linear::Problem;
use opb_read::read;
use proof_rules::StepFault;
use proof_steps::{Conclusion, Lower, Upper};
use proof_text::{ProofNames, read_step};
use propagate::{Propagator, ScanPropagator};
use std::alloc::Global;
use std::process::Abort;

/// What a kernel answers: the id of what was added, if anything, or the fault.
type Answer = Result<Option<u32>, StepFault>;

/// A line, and what a kernel answers to it.
type Row = (&'static str, Answer);

const EITHER: &str = "1 x1 1 x2 >= 1 ;";

const TRIANGLE: &str = "min: 2 x1 3 x2 4 x3 ; 1 x1 1 x2 >= 1 ; 1 x2 1 x3 >= 1 ; 1 x1 1 x3 >= 1 ;";

/// What a kernel answers to a line. One that is not read as a step counts as out of memory.
fn answer<P: Propagator>(
    alloc: Global,
    kernel: &mut Kernel<'_, P>,
    names: &mut ProofNames<'_>,
    line: &str,
) -> Answer {
    let Ok(step) = read_step(alloc, line.as_bytes(), names) else {
        return Err(StepFault::OutOfMemory);
    };
    kernel.apply(&step).map(|applied| applied.id)
}

/// A conclusion without a hint.
#[derive(Clone, Copy)]
enum Concluded {
    Nothing,
    Sat,
    Unsat,
    Bounds,
}

/// Whether a kernel answers to each line as its row says.
fn all_answer<P: Propagator>(
    alloc: Global,
    kernel: &mut Kernel<'_, P>,
    names: &mut ProofNames<'_>,
    rows: &[Row],
) -> bool {
    for (line, wanted) in rows {
        if answer(alloc, kernel, names, line) != *wanted {
            return false;
        }
    }
    true
}

/// The fault of a conclusion, if it has one.
fn fault_of<P: Propagator>(kernel: &mut Kernel<'_, P>, concluded: Concluded) -> Option<StepFault> {
    let conclusion = match concluded {
        Concluded::Nothing => Conclusion::Nothing,
        Concluded::Sat => Conclusion::Sat(None),
        Concluded::Unsat => Conclusion::Unsat,
        Concluded::Bounds => Conclusion::Bounds(Lower::At(0), Upper::Inf, None),
    };
    match kernel.conclude(&conclusion) {
        Ok(_) => None,
        Err(fault) => Some(fault),
    }
}

/// Whether the kernel of a problem answers to each line as its row says, and then to this conclusion with this fault, or with none.
fn kernel_answers<P: Propagator>(
    alloc: Global,
    problem: &Problem,
    rows: &[Row],
    concluded: Concluded,
    fault: Option<StepFault>,
) -> Result<bool, StepFault> {
    let mut names = ProofNames::new(alloc, problem.names());
    let mut kernel: Kernel<'_, P> = Kernel::new(alloc, problem)?;
    Ok(
        all_answer(alloc, &mut kernel, &mut names, rows)
            && fault_of(&mut kernel, concluded) == fault,
    )
}

/// The same of the kernel of a file.
fn answers_are<P: Propagator>(
    alloc: Global,
    file: &str,
    rows: &[Row],
    concluded: Concluded,
    fault: Option<StepFault>,
) -> Result<bool, StepFault> {
    match read(alloc, file.as_bytes()) {
        Ok(problem) => kernel_answers::<P>(alloc, &problem, rows, concluded, fault),
        Err(_) => Err(StepFault::OutOfMemory),
    }
}

/// A whole block, and at each place the steps that may not stand there, with other faults too.
const PLACES: [Row; 29] = [
    // outside
    ("end", Err(StepFault::NoBlock)),
    ("proofgoal #1", Err(StepFault::NoBlock)),
    ("proofgoal 9", Err(StepFault::NoBlock)),
    ("proofgoal #2", Err(StepFault::NoBlock)),
    ("red >= 1 ; ; begin", Ok(Some(6))),
    // in a block
    ("red >= 1 ; ; begin", Err(StepFault::BlockOpen)),
    ("red >= 0 ;", Err(StepFault::BlockOpen)),
    (
        "red 1329227995784915872903807060280344576 x1 1 x2 >= 1 ;",
        Err(StepFault::BlockOpen),
    ),
    ("sol x1 ~x1", Err(StepFault::BlockOpen)),
    ("soli x1", Err(StepFault::BlockOpen)),
    ("del id 9", Err(StepFault::BlockOpen)),
    ("del id", Err(StepFault::BlockOpen)),
    ("proofgoal 9", Err(StepFault::GoalUnknown)),
    ("proofgoal #2", Err(StepFault::GoalUnknown)),
    ("end", Err(StepFault::GoalOpenSelf)),
    ("proofgoal #1", Ok(Some(7))),
    // in a goal
    ("proofgoal #1", Err(StepFault::BlockOpen)),
    ("proofgoal 9", Err(StepFault::BlockOpen)),
    ("red >= 1 ; ; begin", Err(StepFault::BlockOpen)),
    ("soli x1", Err(StepFault::BlockOpen)),
    ("end", Err(StepFault::GoalNotClosed)),
    ("pol 1 2 + 3 + 4 + 5 +", Ok(Some(8))),
    ("end 8", Ok(None)),
    // in the block again
    ("pol 8", Err(StepFault::DeadId)),
    ("proofgoal #1", Err(StepFault::GoalUnknown)),
    ("del id 1", Err(StepFault::BlockOpen)),
    ("end", Ok(Some(9))),
    ("pol 6", Err(StepFault::DeadId)),
    ("pol 9", Ok(Some(10))),
];

/// Steps of blocks: what is refused leaves the block as it was, and names the least id of the goals that are open.
const GOALS: [Row; 12] = [
    ("red >= 1 ; x1 0 x2 0 x3 0 x4 0 ; begin", Ok(Some(6))),
    ("end", Err(StepFault::GoalOpen(1))),
    ("proofgoal 1", Ok(Some(7))),
    ("pol 1 2 + 3 + 4 + 5 +", Ok(Some(8))),
    ("end", Ok(None)),
    ("end", Err(StepFault::GoalOpen(2))),
    ("proofgoal -7", Ok(Some(9))),
    ("pol 1 2 + 3 + 4 + 5 +", Ok(Some(10))),
    ("end", Ok(None)),
    ("end", Err(StepFault::GoalOpenSelf)),
    ("pol 1 2 + 3 + 4 + 5 +", Ok(Some(11))),
    ("end", Ok(Some(12))),
];

/// A block that is left open behind a goal, and one that is left open in a goal.
const LEFT_OPEN: [Row; 3] = [
    ("red 1 x1 1 ~x2 >= 1 ; x1 x2 x2 x1 ; begin", Ok(Some(2))),
    ("proofgoal #1", Ok(Some(3))),
    ("end", Ok(None)),
];

const LEFT_OPEN_IN_A_GOAL: [Row; 2] = [
    ("red 1 ~x1 >= 1 ; x1 0 ; begin", Ok(Some(4))),
    ("proofgoal #2", Ok(Some(5))),
];

#[test]
fn answers_to_steps_of_blocks(rt: HostRuntime) {
    let alloc = rt.alloc();
    assert!(&rt;
        answers_are::<ScanPropagator>(alloc, PIGEONS_IN_HOLES, &PLACES, Concluded::Unsat, None)
            == Ok(true)
    );
    assert!(&rt;
        answers_are::<ScanPropagator>(alloc, PIGEONS_IN_HOLES, &GOALS, Concluded::Unsat, None)
            == Ok(true)
    );
}

/// Conclusions in a block and in a goal of one, on files without and with an objective.
const IN_BLOCKS: [(&str, &[Row], Concluded); 5] = [
    (EITHER, &LEFT_OPEN, Concluded::Nothing),
    (EITHER, &LEFT_OPEN, Concluded::Unsat),
    (EITHER, &LEFT_OPEN, Concluded::Bounds),
    (TRIANGLE, &LEFT_OPEN_IN_A_GOAL, Concluded::Sat),
    (TRIANGLE, &LEFT_OPEN_IN_A_GOAL, Concluded::Bounds),
];

#[test]
fn nothing_is_concluded_in_blocks(rt: HostRuntime) {
    let fault = Some(StepFault::BlockOpen);
    for (file, rows, concluded) in &IN_BLOCKS {
        assert!(&rt;
            answers_are::<ScanPropagator>(rt.alloc(), file, rows, *concluded, fault) == Ok(true)
        );
    }
}
