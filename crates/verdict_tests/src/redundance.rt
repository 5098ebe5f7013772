//! `red`: goals in their order, each shown beside the negation of the new constraint. What is expected follows from the
//! rule, computed by hand.

use super::rows::{Problem, Row, line_is_refused, proof_answers, rows_answer};
use std::test::Fail;

/// Third lines of proofs that are legal there.
const LEGAL: [(Problem, &str); 11] = [
    // a swap: the file's constraint becomes itself, and the new one what its negation shows
    (Problem::Either, "red 1 x1 1 ~x2 >= 1 ; x1 -> x2 x2 -> x1"),
    // where one price is higher, the dearer one of the two may be left out
    (Problem::Cheaper, "red 1 x1 1 ~x2 >= 1 ; x1 -> x2 x2 -> x1"),
    // a new name: its own constraint becomes one of degree 0
    (Problem::First, "red 1 ~x1 1 y1 >= 1 ; y1 -> 1"),
    (Problem::Either, "red 2 ~y1 1 x1 1 x2 >= 2 ; y1 0 ;"),
    // the arrow may be missing; all goals have degree 0
    (Problem::Either, "red 1 x1 >= 1 ; x1 1"),
    (Problem::Either, "red 1 x1 >= 1 ; x1->1"),
    // without a witness, what `rup` shows
    (Problem::SecondEitherWay, "red 1 x2 >= 1 ;"),
    // not both, where the dearer one goes
    (Problem::Cheaper, "red 1 ~x1 1 ~x2 >= 1 ; x2 -> 0"),
    // the objective falls
    (Problem::Reward, "red 1 x1 >= 1 ; x1 -> 1"),
    // degree 0 is shown, also where the negation itself would not fit, whatever becomes of the file
    (
        Problem::First,
        "red 1329227995784915872903807060280344576 ~x1 >= 0 ; x1 -> 0",
    ),
    // a live contradiction shows every goal
    (Problem::Chain, "red 1 ~x1 >= 1 ; x1 -> 0"),
];

#[test]
fn redundant_constraints_are_added(rt: HostRuntime) -> Result<(), Fail> {
    for (problem, line) in &LEGAL {
        let steps = format!(in rt.alloc(); "{line}\npol -1\n")?;
        proof_answers(&rt, *problem, steps.as_str(), "NONE", "accepted NONE\n")?;
    }
    Ok(())
}

/// Third lines of proofs that are refused, and with what.
const REFUSED: [(Problem, &str, &str); 18] = [
    // sums before goals; a live constraint before the new one and before the objective, and that after the new one
    (
        Problem::Either,
        "red 1329227995784915872903807060280344576 x1 1 x2 >= 1 ; x1 -> 0",
        "13 TooLarge",
    ),
    (
        Problem::Triangle,
        "red 1 ~x1 >= 1 ; x1 -> 0 x3 -> 1",
        "15 GoalOpen",
    ),
    (Problem::Price, "red 1 x2 >= 1 ; x1 -> 1", "16 GoalOpenSelf"),
    (Problem::Either, "red 1 ~x1 >= 1 ; x1 -> 0", "15 GoalOpen"),
    (Problem::First, "red 1 ~x1 >= 1 ; x1 -> 0", "15 GoalOpen"),
    (
        Problem::SecondAlone,
        "red 1 x1 1 ~x2 >= 1 ; x1 -> x2 x2 -> x1",
        "15 GoalOpen",
    ),
    (
        Problem::Either,
        "red 1 x1 1 x2 >= 2 ; x1 -> x3 x2 -> x3",
        "15 GoalOpen",
    ),
    (
        Problem::Either,
        "red 1 x1 >= 1 ; x1 -> ~x2",
        "16 GoalOpenSelf",
    ),
    (
        Problem::Either,
        "red 1 ~x1 >= 1 ; x1 -> 1",
        "16 GoalOpenSelf",
    ),
    (
        Problem::Cheaper,
        "red 1 ~x1 >= 1 ; x1 -> 1",
        "16 GoalOpenSelf",
    ),
    (
        Problem::Price,
        "red 1 x1 >= 1 ; x1 -> 1",
        "17 GoalOpenObjective",
    ),
    (
        Problem::Cheaper,
        "red 1 x2 >= 1 ; x2 -> 1",
        "17 GoalOpenObjective",
    ),
    (
        Problem::Cheaper,
        "red 1 ~x1 1 x2 >= 1 ; x1 -> x2 x2 -> x1",
        "17 GoalOpenObjective",
    ),
    // the limits come first
    (
        Problem::Either,
        "red 1329227995784915872903807060280344576 x1 1 x2 >= 0 ; x1 -> 0",
        "13 TooLarge",
    ),
    // lines that are not read
    (
        Problem::Either,
        "red 1 x1 >= 1 ; x1 -> 1 x1 -> 0",
        "5 BadLine",
    ),
    (Problem::Either, "red 1 x1 >= 1 ; begin", "5 BadLine"),
    (Problem::Either, "red 1 x1 >= 1 ; x1 -> 00", "5 BadLine"),
    (Problem::Either, "red 1 x1 = 1 ; x1 -> 1", "4 RuleLeftOut"),
];

#[test]
fn what_is_not_redundant_is_refused(rt: HostRuntime) -> Result<(), Fail> {
    for (problem, line, code) in &REFUSED {
        line_is_refused(&rt, *problem, line, code)?;
    }
    Ok(())
}

/// Redundance among other steps.
const REDUNDANCE_AMONG_OTHER_STEPS: [Row; 10] = [
    // a solution is judged by the file, not by what was added
    Row {
        problem: Problem::Either,
        steps: "red 1 x1 1 ~x2 >= 1 ; x1 -> x2 x2 -> x1\nsol ~x1 x2\n",
        conclusion: "SAT",
        printed: "accepted SAT\nv -x1 x2\n",
    },
    // and completed by what was added
    Row {
        problem: Problem::Either,
        steps: "red 1 x1 1 ~x2 >= 1 ; x1 -> x2 x2 -> x1\nsol ~x1\n",
        conclusion: "SAT",
        printed: "refused line 4 code 20 SolutionConflict\n",
    },
    // an improving constraint is a goal too: nothing shows what it becomes
    Row {
        problem: Problem::FourAndOne,
        steps: "soli x1 x2 ~x3 ~x4 ~x5\nred 1 y1 >= 1 ; x1 -> x5 y1 -> 1\n",
        conclusion: "NONE",
        printed: "refused line 4 code 15 GoalOpen\n",
    },
    Row {
        problem: Problem::FourAndOne,
        steps: "red 1 y1 >= 1 ; x1 -> x5 y1 -> 1\nsoli x1 x2 ~x3 ~x4 ~x5\n",
        conclusion: "NONE",
        printed: "accepted NONE\nv x1 x2 -x3 -x4 -x5\n",
    },
    // an optimum by a swap
    Row {
        problem: Problem::Equal,
        steps: "soli x1 x2\nred 1 x1 1 ~x2 >= 1 ; x1 -> x2 x2 -> x1\nrup 1 x1 >= 1 ;\nsoli x1 ~x2\n",
        conclusion: "BOUNDS 1 1",
        printed: "accepted BOUNDS 1 1\nv x1 -x2\n",
    },
    Row {
        problem: Problem::Equal,
        steps: "soli x1 x2\nred 1 x1 1 ~x2 >= 1 ; x1 -> x2 x2 -> x1\nsoli ~x1 x2\n",
        conclusion: "BOUNDS 1 1",
        printed: "accepted BOUNDS 1 1\nv -x1 x2\n",
    },
    // worse solutions are left out, and the bound stays true of all
    Row {
        problem: Problem::Cheaper,
        steps: "red 1 ~x2 >= 1 ; x1 -> 1 x2 -> 0\n",
        conclusion: "BOUNDS 2 INF",
        printed: "accepted BOUNDS 2 INF\n",
    },
    // the holes are alike, so the first pigeon may sit in the first one
    Row {
        problem: Problem::Pigeons,
        steps: "red 1 x1 >= 1 ; x1 -> x2 x2 -> x1 x3 -> x4 x4 -> x3 x5 -> x6 x6 -> x5\n",
        conclusion: "UNSAT",
        printed: "accepted UNSAT\n",
    },
    // a new name for a majority
    Row {
        problem: Problem::Majorities,
        steps: "red 2 ~m1 1 x1 1 x2 1 x3 >= 2 ; m1 -> 0\nred 2 m1 1 ~x1 1 ~x2 1 ~x3 >= 2 ; m1 -> 1\npol 1 4 + s\npol 2 3 + s\n",
        conclusion: "UNSAT",
        printed: "accepted UNSAT\n",
    },
    // what a step added by a witness can be deleted
    Row {
        problem: Problem::Either,
        steps: "red 1 x1 1 ~x2 >= 1 ; x1 -> x2 x2 -> x1\ndel id 2\npol 2\n",
        conclusion: "NONE",
        printed: "refused line 5 code 10 DeadId\n",
    },
];

#[test]
fn redundance_among_other_steps(rt: HostRuntime) -> Result<(), Fail> {
    rows_answer(&rt, &REDUNDANCE_AMONG_OTHER_STEPS)
}
