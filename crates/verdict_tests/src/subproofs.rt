//! `red` with a subproof: lines that show a goal which propagation does not show. What is expected follows from the rule, computed by
//! hand; of the pigeons the block's negation is id 6 and the goal's id 7, so that the sum of all five, `>= 1`, is id 8.

use super::answers::answers;
use super::rows::{PIGEONS_IN_HOLES, Problem, Row, proof_answers, rows_answer};
use std::process::Abort;
use std::test::Fail;

/// Three pigeons in two holes, which only a sum refutes.
const ONE_GOAL: [Row; 14] = [
    Row {
        problem: Problem::Pigeons,
        steps: "red >= 1 ;\n",
        conclusion: "NONE",
        printed: "refused line 3 code 16 GoalOpenSelf\n",
    },
    Row {
        problem: Problem::Pigeons,
        steps: "red >= 1 ; ; begin\nproofgoal #1\npol 1 2 + 3 + 4 + 5 +\nend 8\nend\n",
        conclusion: "UNSAT",
        printed: "accepted UNSAT\n",
    },
    Row {
        problem: Problem::Pigeons,
        steps: "red >= 1 ; ; begin\nproofgoal #1\nend 8\nend\n",
        conclusion: "UNSAT",
        printed: "refused line 5 code 33 GoalNotClosed\n",
    },
    Row {
        problem: Problem::Pigeons,
        steps: "red >= 1 ; ; begin\nend\n",
        conclusion: "UNSAT",
        printed: "refused line 4 code 16 GoalOpenSelf\n",
    },
    Row {
        problem: Problem::Pigeons,
        steps: "red >= 1 ; ; begin\nproofgoal #2\n",
        conclusion: "UNSAT",
        printed: "refused line 4 code 32 GoalUnknown\n",
    },
    Row {
        problem: Problem::Pigeons,
        steps: "red >= 1 ; ; begin\nproofgoal #1\npol 1 2 + 3 + 4 + 5 +\nend 8\nend\npol 8 1 +\n",
        conclusion: "UNSAT",
        printed: "refused line 8 code 10 DeadId\n",
    },
    Row {
        problem: Problem::Pigeons,
        steps: "red >= 1 ; ; begin\nsol x1\n",
        conclusion: "UNSAT",
        printed: "refused line 4 code 5 BadLine\n",
    },
    // the new constraint is id 9, and the newest one
    Row {
        problem: Problem::Pigeons,
        steps: "red >= 1 ; ; begin\nproofgoal #1\npol 1 2 + 3 + 4 + 5 +\nend\nend\npol 9 -1 +\n",
        conclusion: "UNSAT",
        printed: "accepted UNSAT\n",
    },
    Row {
        problem: Problem::Pigeons,
        steps: "red >= 1 ; ; begin\nproofgoal #1\npol 1 2 + 3 + 4 + 5 +\nend\nend\npol 10\n",
        conclusion: "UNSAT",
        printed: "refused line 8 code 10 DeadId\n",
    },
    // what came in the goal is dead behind its end, by its number and as the newest
    Row {
        problem: Problem::Pigeons,
        steps: "red >= 1 ; ; begin\nproofgoal #1\npol 1 2 + 3 + 4 + 5 +\nend\npol 8\n",
        conclusion: "UNSAT",
        printed: "refused line 7 code 10 DeadId\n",
    },
    Row {
        problem: Problem::Pigeons,
        steps: "red >= 1 ; ; begin\nproofgoal #1\npol 1 2 + 3 + 4 + 5 +\nend\npol 7\n",
        conclusion: "UNSAT",
        printed: "refused line 7 code 10 DeadId\n",
    },
    Row {
        problem: Problem::Pigeons,
        steps: "red >= 1 ; ; begin\nproofgoal #1\npol 1 2 + 3 + 4 + 5 +\nend\npol -1\n",
        conclusion: "UNSAT",
        printed: "refused line 7 code 10 DeadId\n",
    },
    // and what came in the block lives up to the block's
    Row {
        problem: Problem::Pigeons,
        steps: "red >= 1 ; ; begin\nproofgoal #1\npol 1 2 + 3 + 4 + 5 +\nend\npol 6 -3 +\nend\n",
        conclusion: "UNSAT",
        printed: "accepted UNSAT\n",
    },
    Row {
        problem: Problem::Pigeons,
        steps: "red >= 1 ; ; begin\nproofgoal #1\npol 1 2 + 3 + 4 + 5 +\nend\nend\npol 6\n",
        conclusion: "UNSAT",
        printed: "refused line 8 code 10 DeadId\n",
    },
];

#[test]
fn one_goal(rt: HostRuntime) -> Result<(), Fail> {
    rows_answer(&rt, &ONE_GOAL)
}

/// Which goals there are, each once and in any order.
const SEVERAL_GOALS: [Row; 14] = [
    // a live constraint and the new one, the later first; the sum between goals serves both
    Row {
        problem: Problem::Pigeons,
        steps: "red >= 1 ; x1 -> 0 x2 -> 0 ; begin\npol 1 2 + 3 + 4 + 5 +\nproofgoal #1\nend\nproofgoal 1\nend 9 ;\nend ;\n",
        conclusion: "UNSAT",
        printed: "accepted UNSAT\n",
    },
    // by the end all that were not opened: the live ones first, and of these the least id
    Row {
        problem: Problem::Pigeons,
        steps: "red >= 1 ; x1 -> 0 x2 -> 0 ; begin\nend\n",
        conclusion: "NONE",
        printed: "refused line 4 code 15 GoalOpen\n",
    },
    Row {
        problem: Problem::Pigeons,
        steps: "red >= 1 ; x1 -> 0 x2 -> 0 ; begin\nproofgoal 1\npol 1 2 + 3 + 4 + 5 +\nend\nend\n",
        conclusion: "NONE",
        printed: "refused line 7 code 16 GoalOpenSelf\n",
    },
    Row {
        problem: Problem::Pigeons,
        steps: "red >= 1 ; x1 -> 0 x2 -> 0 ; begin\nproofgoal #1\npol 1 2 + 3 + 4 + 5 +\nend\nend\n",
        conclusion: "NONE",
        printed: "refused line 7 code 15 GoalOpen\n",
    },
    // an id may be counted from the newest one, which is that of the negation
    Row {
        problem: Problem::Pigeons,
        steps: "red >= 1 ; x1 -> 0 x2 -> 0 ; begin\nproofgoal -6\npol 1 2 + 3 + 4 + 5 +\nend\nproofgoal 1\n",
        conclusion: "NONE",
        printed: "refused line 7 code 32 GoalUnknown\n",
    },
    Row {
        problem: Problem::Pigeons,
        steps: "red >= 1 ; ; begin\nproofgoal -1\n",
        conclusion: "NONE",
        printed: "refused line 4 code 32 GoalUnknown\n",
    },
    Row {
        problem: Problem::Pigeons,
        steps: "red >= 1 ; ; begin\nproofgoal 6\n",
        conclusion: "NONE",
        printed: "refused line 4 code 32 GoalUnknown\n",
    },
    Row {
        problem: Problem::Pigeons,
        steps: "red >= 1 ; ; begin\npol 1\nproofgoal 7\n",
        conclusion: "NONE",
        printed: "refused line 5 code 32 GoalUnknown\n",
    },
    Row {
        problem: Problem::Pigeons,
        steps: "red >= 1 ; ; begin\nproofgoal 0\n",
        conclusion: "NONE",
        printed: "refused line 4 code 32 GoalUnknown\n",
    },
    Row {
        problem: Problem::Pigeons,
        steps: "red >= 1 ; ; begin\nproofgoal -7\n",
        conclusion: "NONE",
        printed: "refused line 4 code 32 GoalUnknown\n",
    },
    Row {
        problem: Problem::Pigeons,
        steps: "red >= 1 ; ; begin\nproofgoal 1329227995784915872903807060280344576\n",
        conclusion: "NONE",
        printed: "refused line 4 code 32 GoalUnknown\n",
    },
    Row {
        problem: Problem::Pigeons,
        steps: "del id 2\nred >= 1 ; ; begin\nproofgoal 2\n",
        conclusion: "NONE",
        printed: "refused line 5 code 32 GoalUnknown\n",
    },
    // closed goals stay so
    Row {
        problem: Problem::Pigeons,
        steps: "red >= 1 ; ; begin\nproofgoal #1\npol 1 2 + 3 + 4 + 5 +\nend\nproofgoal #1\n",
        conclusion: "NONE",
        printed: "refused line 7 code 32 GoalUnknown\n",
    },
    // one block after another
    Row {
        problem: Problem::Either,
        steps: "red 1 x1 1 ~x2 >= 1 ; x1 -> x2 x2 -> x1 ; begin\nend\nred 1 y1 >= 1 ; y1 1 ; begin\nproofgoal 3\nend\nend\npol 6\n",
        conclusion: "NONE",
        printed: "accepted NONE\n",
    },
];

#[test]
fn several_goals(rt: HostRuntime) -> Result<(), Fail> {
    rows_answer(&rt, &SEVERAL_GOALS)
}

/// Whoever has three of four at 2 each may take a fifth at 5 in their place, which costs no more.
const GOAL_OF_THE_OBJECTIVE: [Row; 8] = [
    Row {
        problem: Problem::Tickets,
        steps: "red -1 x1 -1 x2 -1 x3 -1 x4 >= -2 ; x1 0 x2 0 x3 0 x4 0 x5 1\n",
        conclusion: "NONE",
        printed: "refused line 3 code 17 GoalOpenObjective\n",
    },
    Row {
        problem: Problem::Tickets,
        steps: "red -1 x1 -1 x2 -1 x3 -1 x4 >= -2 ; x1 0 x2 0 x3 0 x4 0 x5 1 ; begin\nend\n",
        conclusion: "NONE",
        printed: "refused line 4 code 17 GoalOpenObjective\n",
    },
    Row {
        problem: Problem::Tickets,
        steps: "red -1 x1 -1 x2 -1 x3 -1 x4 >= -2 ; x1 0 x2 0 x3 0 x4 0 x5 1 ; begin\nproofgoal #2\nend\n",
        conclusion: "NONE",
        printed: "refused line 5 code 33 GoalNotClosed\n",
    },
    Row {
        problem: Problem::Tickets,
        steps: "red -1 x1 -1 x2 -1 x3 -1 x4 >= -2 ; x1 0 x2 0 x3 0 x4 0 x5 1 ; begin\nproofgoal #2\npol 2 2 * 3 +\nend -1\nend\npol 1 5 + s\nsoli ~x1 ~x2 ~x3 ~x4 x5\n",
        conclusion: "BOUNDS 5 5",
        printed: "accepted BOUNDS 5 5\nv -x1 -x2 -x3 -x4 x5\n",
    },
    // a constraint of the block that covers a goal shows it
    Row {
        problem: Problem::Tickets,
        steps: "red -1 x1 -1 x2 -1 x3 -1 x4 >= -2 ; x1 0 x2 0 x3 0 x4 0 x5 1 ; begin\npol 2 2 *\nend\npol 1 4 + s\nsoli x5 ~x1 ~x2 ~x3 ~x4\n",
        conclusion: "BOUNDS 5 5",
        printed: "accepted BOUNDS 5 5\nv -x1 -x2 -x3 -x4 x5\n",
    },
    // one that came in a goal does not, behind the goal's end
    Row {
        problem: Problem::Tickets,
        steps: "red -1 x1 -1 x2 -1 x3 -1 x4 >= -2 ; x1 0 x2 0 x3 0 x4 0 x5 1 ; begin\nproofgoal 1\npol 2 2 *\nend\nend\n",
        conclusion: "NONE",
        printed: "refused line 7 code 17 GoalOpenObjective\n",
    },
    // the constraint of an improving solution has a goal too
    Row {
        problem: Problem::Tickets,
        steps: "soli x1 x2 x3 ~x4 ~x5\nred 1 ~x5 >= 1 ; x5 -> 0 ; begin\nproofgoal 2\nend\nproofgoal 1\nend\n",
        conclusion: "NONE",
        printed: "refused line 8 code 33 GoalNotClosed\n",
    },
    Row {
        problem: Problem::FourAndOne,
        steps: "soli x1 x2 ~x3 ~x4 ~x5\nred 1 y1 >= 1 ; x1 -> x5 y1 -> 1 ; begin\nend\n",
        conclusion: "NONE",
        printed: "refused line 5 code 15 GoalOpen\n",
    },
];

#[test]
fn goal_of_the_objective(rt: HostRuntime) -> Result<(), Fail> {
    rows_answer(&rt, &GOAL_OF_THE_OBJECTIVE)
}

/// First lines of blocks that are legal, and so are their ends with no line between.
const SHOWN_WITHOUT_LINES: [(Problem, &str); 7] = [
    (
        Problem::Either,
        "red 1 x1 1 ~x2 >= 1 ; x1 -> x2 x2 -> x1 ; begin",
    ),
    (Problem::First, "red 1 ~x1 1 y1 >= 1 ; y1 -> 1 ; begin"),
    (Problem::Either, "red 2 ~y1 1 x1 1 x2 >= 2 ; y1 0 ; begin ;"),
    (Problem::Either, "red 1 x1 >= 1;x1->1;begin;"),
    (Problem::SecondEitherWay, "red 1 x2 >= 1 ; ; begin"),
    (Problem::Reward, "red 1 x1 >= 1 ; x1 -> 1 ; begin"),
    (Problem::Chain, "red 1 ~x1 >= 1 ; x1 -> 0 ; begin"),
];

#[test]
fn what_needs_no_lines(rt: HostRuntime) -> Result<(), Fail> {
    for (problem, line) in &SHOWN_WITHOUT_LINES {
        let steps = format!(in rt.alloc(); "{line}\nend\npol -1\n")?;
        proof_answers(&rt, *problem, steps.as_str(), "NONE", "accepted NONE\n")?;
    }
    Ok(())
}

/// First lines of blocks, and what is answered to them, or to the ends of blocks with no line between.
const NOT_SHOWN_WITHOUT_LINES: [(Problem, &str, &str); 13] = [
    // goals in their order, at the end
    (
        Problem::Either,
        "red 1 ~x1 >= 1 ; x1 -> 0 ; begin",
        "line 4 code 15 GoalOpen",
    ),
    (
        Problem::Triangle,
        "red 1 ~x1 >= 1 ; x1 -> 0 x3 -> 1 ; begin",
        "line 4 code 15 GoalOpen",
    ),
    (
        Problem::Price,
        "red 1 x2 >= 1 ; x1 -> 1 ; begin",
        "line 4 code 16 GoalOpenSelf",
    ),
    (
        Problem::Either,
        "red 1 x1 >= 1 ; x1 -> ~x2 ; begin",
        "line 4 code 16 GoalOpenSelf",
    ),
    (
        Problem::Price,
        "red 1 x1 >= 1 ; x1 -> 1 ; begin",
        "line 4 code 17 GoalOpenObjective",
    ),
    // the limits, of the constraint and of its negation, at the first line
    (
        Problem::Either,
        "red 1329227995784915872903807060280344576 x1 1 x2 >= 1 ; x1 -> 1 ; begin",
        "line 3 code 13 TooLarge",
    ),
    (
        Problem::First,
        "red 1329227995784915872903807060280344576 ~x1 >= 0 ; ; begin",
        "line 3 code 13 TooLarge",
    ),
    // lines that open no block
    (
        Problem::Either,
        "red 1 x1 >= 1 ; begin",
        "line 3 code 5 BadLine",
    ),
    (
        Problem::Either,
        "red 1 x1 >= 1 ; ; ; begin",
        "line 3 code 5 BadLine",
    ),
    (
        Problem::Either,
        "red 1 x1 >= 1 ; ; begin begin",
        "line 3 code 5 BadLine",
    ),
    (
        Problem::Either,
        "red 1 x1 >= 1 ; ; end",
        "line 3 code 5 BadLine",
    ),
    (
        Problem::Either,
        "red 1 x1 = 1 ; x1 1 ; begin",
        "line 3 code 4 RuleLeftOut",
    ),
    (Problem::Either, "begin", "line 3 code 4 RuleLeftOut"),
];

#[test]
fn what_lines_would_have_to_show(rt: HostRuntime) -> Result<(), Fail> {
    for (problem, line, answer) in &NOT_SHOWN_WITHOUT_LINES {
        let steps = format!(in rt.alloc(); "{line}\nend\n")?;
        let printed = format!(in rt.alloc(); "refused {answer}\n")?;
        proof_answers(&rt, *problem, steps.as_str(), "NONE", printed.as_str())?;
    }
    Ok(())
}

/// Lines that are refused wherever blocks and goals are: in a block, in a goal of one, and outside.
const NOWHERE: [(&str, &str); 15] = [
    ("foo 1", "3 UnknownRule"),
    ("#1", "3 UnknownRule"),
    ("begin", "4 RuleLeftOut"),
    ("core id 1", "4 RuleLeftOut"),
    ("rup 1 x1 = 1 ;", "4 RuleLeftOut"),
    ("f 5", "5 BadLine"),
    ("pseudo-Boolean proof version 2.0", "5 BadLine"),
    ("conclusion NONE", "5 BadLine"),
    ("end pseudo-Boolean proof", "5 BadLine"),
    ("; end", "5 BadLine"),
    ("pol 1 x", "5 BadLine"),
    (
        "pol 1 1329227995784915872903807060280344577 *",
        "8 IntegerTooLarge",
    ),
    ("pol 9", "10 DeadId"),
    ("pol 1 +", "11 StackShape"),
    ("pol 1 0 d", "12 BadFactor"),
];

/// Lines that are refused in a block.
const IN_A_BLOCK: [(&str, &str); 25] = [
    ("sol x1", "5 BadLine"),
    ("sol 5", "5 BadLine"),
    ("soli x1 x2 x3", "5 BadLine"),
    ("del id 1", "5 BadLine"),
    ("del range 1 2", "5 BadLine"),
    ("del", "5 BadLine"),
    ("red 1 x1 >= 1 ; x1 -> 1", "5 BadLine"),
    ("red 1 x1 = 1 ;", "5 BadLine"),
    ("red >= 1 ; ; begin", "5 BadLine"),
    ("output NONE", "5 BadLine"),
    ("output ALL", "5 BadLine"),
    ("end 7", "5 BadLine"),
    ("end -1", "5 BadLine"),
    ("end 1329227995784915872903807060280344577", "5 BadLine"),
    ("proofgoal", "5 BadLine"),
    ("proofgoal ;", "5 BadLine"),
    ("proofgoal #3", "5 BadLine"),
    ("proofgoal #01", "5 BadLine"),
    ("proofgoal # 1", "5 BadLine"),
    ("proofgoal 1 2", "5 BadLine"),
    ("proofgoal x1", "5 BadLine"),
    (
        "proofgoal 1329227995784915872903807060280344577",
        "8 IntegerTooLarge",
    ),
    ("pol 7", "10 DeadId"),
    (
        "pol 1 1329227995784915872903807060280344576 *",
        "13 TooLarge",
    ),
    ("rup >= 1 ;", "14 NotShown"),
];

/// Lines that are refused in a goal of a block.
const IN_A_GOAL: [(&str, &str); 21] = [
    ("sol x1", "5 BadLine"),
    ("soli", "5 BadLine"),
    ("del id 1", "5 BadLine"),
    ("del spec", "5 BadLine"),
    ("red 1 x1 >= 1 ; x1 -> 1", "5 BadLine"),
    ("red >= 1 ; ; begin", "5 BadLine"),
    ("output NONE", "5 BadLine"),
    ("output ALL", "5 BadLine"),
    ("proofgoal #1", "5 BadLine"),
    ("proofgoal 1", "5 BadLine"),
    ("proofgoal", "5 BadLine"),
    (
        "proofgoal 1329227995784915872903807060280344577",
        "5 BadLine",
    ),
    ("end 7 7", "5 BadLine"),
    ("end x1", "5 BadLine"),
    ("end #1", "5 BadLine"),
    (
        "end 1329227995784915872903807060280344577",
        "8 IntegerTooLarge",
    ),
    ("pol 8", "10 DeadId"),
    (
        "pol 1 1329227995784915872903807060280344576 *",
        "13 TooLarge",
    ),
    ("rup >= 1 ;", "14 NotShown"),
    ("end", "33 GoalNotClosed"),
    ("end 5", "33 GoalNotClosed"),
];

/// Lines of blocks that are refused outside one.
const OUTSIDE: [(&str, &str); 7] = [
    ("proofgoal #1", "5 BadLine"),
    ("proofgoal 1", "5 BadLine"),
    ("proofgoal", "5 BadLine"),
    (
        "proofgoal 1329227995784915872903807060280344577",
        "5 BadLine",
    ),
    ("end", "5 BadLine"),
    ("end 7", "5 BadLine"),
    ("end ;", "5 BadLine"),
];

/// Checks what is answered to each of these lines behind the first lines of a proof of the pigeons, the next one having this number.
fn lines_are_refused<R: Abort + AllocGlobal>(
    rt: &R,
    before: &str,
    number: usize,
    lines: &[(&str, &str)],
) -> Result<(), Fail> {
    for (line, code) in lines {
        let steps = format!(in rt.alloc(); "{before}{line}\n")?;
        let printed = format!(in rt.alloc(); "refused line {number} code {code}\n")?;
        proof_answers(
            rt,
            Problem::Pigeons,
            steps.as_str(),
            "NONE",
            printed.as_str(),
        )?;
    }
    Ok(())
}

const BLOCK: &str = "red >= 1 ; ; begin\n";

const GOAL: &str = "red >= 1 ; ; begin\nproofgoal #1\n";

const ENDED: &str = "red >= 0 ; ; begin\nend\n";

#[test]
fn lines_in_a_block(rt: HostRuntime) -> Result<(), Fail> {
    lines_are_refused(&rt, BLOCK, 4, &NOWHERE)?;
    lines_are_refused(&rt, BLOCK, 4, &IN_A_BLOCK)
}

#[test]
fn lines_in_a_goal(rt: HostRuntime) -> Result<(), Fail> {
    lines_are_refused(&rt, GOAL, 5, &NOWHERE)?;
    lines_are_refused(&rt, GOAL, 5, &IN_A_GOAL)
}

#[test]
fn lines_outside_blocks(rt: HostRuntime) -> Result<(), Fail> {
    lines_are_refused(&rt, "", 3, &NOWHERE)?;
    lines_are_refused(&rt, "", 3, &OUTSIDE)?;
    lines_are_refused(&rt, ENDED, 5, &NOWHERE)?;
    lines_are_refused(&rt, ENDED, 5, &OUTSIDE)
}

/// The negation of a goal is judged by the limits, behind the goal's name.
const LARGE_GOALS: [Row; 4] = [
    Row {
        problem: Problem::First,
        steps: "rup 1329227995784915872903807060280344576 ~x1 >= 0 ;\nred 1 y1 >= 1 ; y1 -> 1 ; begin\nproofgoal 2\n",
        conclusion: "NONE",
        printed: "refused line 5 code 13 TooLarge\n",
    },
    Row {
        problem: Problem::First,
        steps: "rup 1329227995784915872903807060280344576 ~x1 >= 0 ;\nred 1 y1 >= 1 ; y1 -> 1 ; begin\nproofgoal 3\n",
        conclusion: "NONE",
        printed: "refused line 5 code 32 GoalUnknown\n",
    },
    // where it need not be made, the goal is shown
    Row {
        problem: Problem::First,
        steps: "rup 1329227995784915872903807060280344576 ~x1 >= 0 ;\nred 1 y1 >= 1 ; y1 -> 1 ; begin\nend\n",
        conclusion: "NONE",
        printed: "accepted NONE\n",
    },
    Row {
        problem: Problem::First,
        steps: "rup 1329227995784915872903807060280344576 ~x1 >= 0 ;\nred 1 ~x1 1 y1 >= 1 ; x1 -> 1 y1 -> 1 ; begin\nproofgoal 2\nend\nend\n",
        conclusion: "NONE",
        printed: "accepted NONE\n",
    },
];

#[test]
fn negations_of_goals_beyond_the_limits(rt: HostRuntime) -> Result<(), Fail> {
    rows_answer(&rt, &LARGE_GOALS)
}

const PROOF: &str =
    "pseudo-Boolean proof version 2.0\nf 5\nred >= 1 ; ; begin\nproofgoal #1\npol 1 2 + 3 + 4 + 5 +\nend 8\nend\noutput NONE\nconclusion UNSAT\nend pseudo-Boolean proof";

/// The lines of that proof before the last one.
const LINES: [&str; 9] = [
    "pseudo-Boolean proof version 2.0",
    "f 5",
    "red >= 1 ; ; begin",
    "proofgoal #1",
    "pol 1 2 + 3 + 4 + 5 +",
    "end 8",
    "end",
    "output NONE",
    "conclusion UNSAT",
];

/// Checks that a further line is due where the proof is cut to so many bytes.
fn is_cut_short<R: Abort + AllocGlobal>(rt: &R, end: usize, number: usize) -> Result<(), Fail> {
    let Some(cut) = PROOF.as_bytes().get(..end) else {
        return Ok(());
    };
    let text = format!(in rt.alloc(); "refused line {number} code 6 Truncated\n")?;
    answers(rt, PIGEONS_IN_HOLES.as_bytes(), cut, text.as_str())
}

#[test]
fn proof_cut_at_each_line(rt: HostRuntime) -> Result<(), Fail> {
    let mut before: usize = 0;
    let mut number: usize = 1;
    for line in &LINES {
        is_cut_short(&rt, before, number)?;
        before = before.saturating_add(line.len());
        // without its LF the line says the same
        is_cut_short(&rt, before, number)?;
        before = before.saturating_add(1);
        number = number.saturating_add(1);
    }
    assert_eq!(&rt; before, PROOF.len().saturating_sub(24));
    answers(
        &rt,
        PIGEONS_IN_HOLES.as_bytes(),
        PROOF.as_bytes(),
        "accepted UNSAT\n",
    )
}
