//! Worked cases from bytes to the printed verdict and the exit status. The expected texts are those of the formats.
//!
//! The cases stand in tables that the tests walk: a table of constants costs the prover nothing, a call for each case much.

use super::answers::answers;
use super::rows::{PIGEONS_IN_HOLES, Problem, Row, line_is_refused, proof_answers, rows_answer};
use std::test::Fail;

/// A problem, a whole proof, and what is printed.
#[derive(Clone, Copy)]
struct Whole {
    opb: &'static str,
    proof: &'static str,
    text: &'static str,
}

const WHOLE_PROOFS: [Whole; 12] = [
    // three pigeons in two holes
    Whole {
        opb: PIGEONS_IN_HOLES,
        proof: "pseudo-Boolean proof version 2.0\nf 5\npol 1 2 + 3 + 4 + 5 +\noutput NONE\nconclusion UNSAT\nend pseudo-Boolean proof\n",
        text: "accepted UNSAT\n",
    },
    Whole {
        opb: PIGEONS_IN_HOLES,
        proof: "pseudo-Boolean proof version 2.0\nf 5\npol 1 2 +\noutput NONE\nconclusion UNSAT\nend pseudo-Boolean proof\n",
        text: "refused line 5 code 24 LowerNotShown\n",
    },
    Whole {
        opb: PIGEONS_IN_HOLES,
        proof: "pseudo-Boolean proof version 2.0\nf 5\npol 1 2 + 3 + 4 + 5 +\noutput NONE\n",
        text: "refused line 5 code 6 Truncated\n",
    },
    Whole {
        opb: PIGEONS_IN_HOLES,
        proof: "pseudo-Boolean proof version 2.0\nf 4\npol 1 2 + 3 + 4 + 5 +\n",
        text: "refused line 2 code 2 BadCount\n",
    },
    // all rules, and an equality
    Whole {
        opb: "5 x1 2 x2 >= 3 ; -1 x1 >= 0 ;",
        proof: "pseudo-Boolean proof version 2.0\nf 2\npol 1 s x2 w 3 d 2 +\noutput NONE\nconclusion UNSAT\nend pseudo-Boolean proof",
        text: "accepted UNSAT\n",
    },
    Whole {
        opb: "2 x1 2 x2 = 1 ;",
        proof: "pseudo-Boolean proof version 2.0\nf 2\npol 1 2 d 2 2 d +\noutput NONE\nconclusion UNSAT\nend pseudo-Boolean proof\n",
        text: "accepted UNSAT\n",
    },
    Whole {
        opb: "1 x1 1 x2 >= 1",
        proof: "",
        text: "bad problem line 1 code 3 NoSemicolon\n",
    },
    // an equality takes two ids, the `>=` direction first, and is counted twice
    Whole {
        opb: "1 x1 1 x2 1 x3 = 1 ; 1 x1 1 x2 1 x3 >= 2 ;",
        proof: "pseudo-Boolean proof version 2.0\nf 3\npol 2 3 +\noutput NONE\nconclusion UNSAT\nend pseudo-Boolean proof\n",
        text: "accepted UNSAT\n",
    },
    Whole {
        opb: "1 x1 1 x2 1 x3 = 1 ; 1 x1 1 x2 1 x3 >= 2 ;",
        proof: "pseudo-Boolean proof version 2.0\nf 3\npol 1 3 +\noutput NONE\nconclusion UNSAT\nend pseudo-Boolean proof\n",
        text: "refused line 5 code 24 LowerNotShown\n",
    },
    Whole {
        opb: "1 x1 1 x2 1 x3 = 1 ; 1 x1 1 x2 1 x3 >= 2 ;",
        proof: "pseudo-Boolean proof version 2.0\nf 2\n",
        text: "refused line 2 code 2 BadCount\n",
    },
    // a line that counts behind the end line is refused there; comments and blank lines are passed over
    Whole {
        opb: "2 x1 2 x2 = 1 ;",
        proof: "pseudo-Boolean proof version 2.0\nf 2\noutput NONE\nconclusion NONE\nend pseudo-Boolean proof\n* done\n\nf 2",
        text: "refused line 8 code 7 TextAfterEnd\n",
    },
    Whole {
        opb: "2 x1 2 x2 = 1 ;",
        proof: "pseudo-Boolean proof version 2.0\nf 1\n",
        text: "refused line 2 code 2 BadCount\n",
    },
];

#[test]
fn whole_proofs(rt: HostRuntime) -> Result<(), Fail> {
    for case in &WHOLE_PROOFS {
        answers(&rt, case.opb.as_bytes(), case.proof.as_bytes(), case.text)?;
    }
    Ok(())
}

/// Third lines of proofs that are legal there.
const ACCEPTED: [(Problem, &str); 11] = [
    // half of 2^120 twice: what cancels is gone before the limit is asked
    (
        Problem::NotBoth,
        "pol 1 664613997892457936451903530140172288 * 2 664613997892457936451903530140172288 * +",
    ),
    (Problem::NotBoth, "pol 1 3 * 2 d"),
    (Problem::NotBoth, "p 1 ~x1 + ;"),
    (Problem::Either, "pol 1 -1 +"),
    (
        Problem::Either,
        "pol 1 664613997892457936451903530140172288 *",
    ),
    // what a live constraint covers is shown, and what propagation refutes the negation of; hints count for nothing
    (Problem::Either, "rup 1 x1 1 x2 >= 1 ; 7 ~ 99"),
    (
        Problem::Either,
        "rup 1329227995784915872903807060280344576 ~x1 >= 0 ;",
    ),
    (Problem::SecondEitherWay, "rup 1 x2 >= 1 ;"),
    (Problem::Weighted, "rup 1 x1 >= 1 ;"),
    (Problem::TwoOfThree, "u 1 x1 1 x2 1 x3 >= 2 ;"),
    (Problem::TwoOfThree, "rup 1 x1 1 x2 1 x3 >= 2 ;"),
];

#[test]
fn legal_lines_are_accepted(rt: HostRuntime) -> Result<(), Fail> {
    for (problem, line) in &ACCEPTED {
        let steps = format!(in rt.alloc(); "{line}\n")?;
        proof_answers(&rt, *problem, steps.as_str(), "NONE", "accepted NONE\n")?;
    }
    Ok(())
}

/// Third lines of proofs that are refused, and with what.
const REFUSED: [(Problem, &str, &str); 29] = [
    // the sum is looked at before anything is shown
    (
        Problem::Weighted,
        "rup 1329227995784915872903807060280344576 x1 1 x2 >= 1 ;",
        "13 TooLarge",
    ),
    // half of 2^120, twice
    (
        Problem::NotBoth,
        "pol 1 664613997892457936451903530140172288 * 1 +",
        "13 TooLarge",
    ),
    (Problem::NotBoth, "pol 1 -1 *", "12 BadFactor"),
    (Problem::NotBoth, "pol 1 2", "11 StackShape"),
    // items are judged from left to right, and for one item a dead id comes first, then too few constraints, then a factor
    (Problem::NotBoth, "pol 3 +", "10 DeadId"),
    (Problem::NotBoth, "pol 1 + 3", "11 StackShape"),
    (Problem::NotBoth, "pol 0 *", "11 StackShape"),
    (Problem::NotBoth, "pol 1 0 * 7", "12 BadFactor"),
    (Problem::NotBoth, "pol 1 7 0 *", "10 DeadId"),
    (Problem::NotBoth, "pol -3", "10 DeadId"),
    (Problem::NotBoth, "pol", "11 StackShape"),
    // one constraint alone
    (Problem::Either, "pol 2", "10 DeadId"),
    (Problem::Either, "pol 0", "10 DeadId"),
    (Problem::Either, "pol 1 +", "11 StackShape"),
    (Problem::Either, "pol 1 1", "11 StackShape"),
    (Problem::Either, "pol 1 d", "11 StackShape"),
    (Problem::Either, "pol 1 0 d", "12 BadFactor"),
    (
        Problem::Either,
        "pol 1 664613997892457936451903530140172289 *",
        "13 TooLarge",
    ),
    // lines that are not read
    (
        Problem::Either,
        "pol 1 1329227995784915872903807060280344577 *",
        "8 IntegerTooLarge",
    ),
    (Problem::Either, "pol s d", "5 BadLine"),
    (Problem::Either, "foo 1", "3 UnknownRule"),
    (Problem::Either, "solx x1", "4 RuleLeftOut"),
    (Problem::Either, "f 1", "5 BadLine"),
    // what this profile leaves out
    (Problem::Either, "rup 1 x1 = 1 ;", "4 RuleLeftOut"),
    (Problem::Either, "del range 1 2", "4 RuleLeftOut"),
    (Problem::Either, "output ALL", "4 RuleLeftOut"),
    // nothing is forced by the negation, or what is forced meets all constraints
    (Problem::Weighted, "rup 1 x2 >= 1 ;", "14 NotShown"),
    (Problem::Pigeons, "rup >= 1 ;", "14 NotShown"),
    (
        Problem::Weighted,
        "rup 1329227995784915872903807060280344576 x1 1 x2 >= 0 ;",
        "13 TooLarge",
    ),
];

#[test]
fn wrong_lines_are_refused(rt: HostRuntime) -> Result<(), Fail> {
    for (problem, line, code) in &REFUSED {
        line_is_refused(&rt, *problem, line, code)?;
    }
    Ok(())
}

/// Conclusions, and what is printed.
const CONCLUDED: [Row; 7] = [
    // by propagation alone, behind a blank line
    Row {
        problem: Problem::Chain,
        steps: "\n",
        conclusion: "UNSAT",
        printed: "accepted UNSAT\n",
    },
    Row {
        problem: Problem::Pigeons,
        steps: "\n",
        conclusion: "UNSAT",
        printed: "refused line 5 code 24 LowerNotShown\n",
    },
    // an objective changes nothing for `NONE` and `UNSAT`; what propagation refutes shows every lower bound
    Row {
        problem: Problem::Optimising,
        steps: "",
        conclusion: "UNSAT : 1",
        printed: "accepted UNSAT\n",
    },
    Row {
        problem: Problem::Optimising,
        steps: "",
        conclusion: "NONE",
        printed: "accepted NONE\n",
    },
    Row {
        problem: Problem::Optimising,
        steps: "",
        conclusion: "SAT",
        printed: "refused line 4 code 26 UpperNotLogged\n",
    },
    Row {
        problem: Problem::Optimising,
        steps: "",
        conclusion: "BOUNDS 1 INF",
        printed: "accepted BOUNDS 1 INF\n",
    },
    Row {
        problem: Problem::Optimising,
        steps: "",
        conclusion: "MAYBE",
        printed: "refused line 4 code 5 BadLine\n",
    },
];

#[test]
fn conclusions_are_judged(rt: HostRuntime) -> Result<(), Fail> {
    rows_answer(&rt, &CONCLUDED)
}
