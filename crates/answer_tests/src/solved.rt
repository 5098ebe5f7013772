//! The solver from the bytes of a problem to the printed answer, on cases whose answers are known, with every rule of choice. The proof
//! that is handed out is judged once more as if it came from anybody.

use super::rules::{RULES, Rule};
use super::seen::solve;
use std::process::Abort;
use std::test::Fail;

/// A problem, how many conflicts the search may meet, what the answer ends with, its exit status, and how the verdict about its proof
/// begins.
#[derive(Clone, Copy)]
struct Case {
    opb: &'static str,
    conflicts: u64,
    ends: &'static str,
    status: u8,
    verdict: &'static str,
}

const FOUR_CLAUSES: &str =
    "1 x1 1 x2 >= 1 ; 1 x1 1 ~x2 >= 1 ; 1 ~x1 1 x2 >= 1 ; 1 ~x1 1 ~x2 >= 1 ;";

const PIGEONS: &str =
    "1 x1 1 x2 >= 1 ; 1 x3 1 x4 >= 1 ; 1 x5 1 x6 >= 1 ; -1 x1 -1 x3 -1 x5 >= -1 ; -1 x2 -1 x4 -1 x6 >= -1 ;";

/// eight pigeons in seven holes
const EIGHT_PIGEONS: &str =
    "1 x1 1 x2 1 x3 1 x4 1 x5 1 x6 1 x7 >= 1 ; 1 x8 1 x9 1 x10 1 x11 1 x12 1 x13 1 x14 >= 1 ; 1 x15 1 x16 1 x17 1 x18 1 x19 1 x20 1 x21 >= 1 ; 1 x22 1 x23 1 x24 1 x25 1 x26 1 x27 1 x28 >= 1 ; 1 x29 1 x30 1 x31 1 x32 1 x33 1 x34 1 x35 >= 1 ; 1 x36 1 x37 1 x38 1 x39 1 x40 1 x41 1 x42 >= 1 ; 1 x43 1 x44 1 x45 1 x46 1 x47 1 x48 1 x49 >= 1 ; 1 x50 1 x51 1 x52 1 x53 1 x54 1 x55 1 x56 >= 1 ; -1 x1 -1 x8 -1 x15 -1 x22 -1 x29 -1 x36 -1 x43 -1 x50 >= -1 ; -1 x2 -1 x9 -1 x16 -1 x23 -1 x30 -1 x37 -1 x44 -1 x51 >= -1 ; -1 x3 -1 x10 -1 x17 -1 x24 -1 x31 -1 x38 -1 x45 -1 x52 >= -1 ; -1 x4 -1 x11 -1 x18 -1 x25 -1 x32 -1 x39 -1 x46 -1 x53 >= -1 ; -1 x5 -1 x12 -1 x19 -1 x26 -1 x33 -1 x40 -1 x47 -1 x54 >= -1 ; -1 x6 -1 x13 -1 x20 -1 x27 -1 x34 -1 x41 -1 x48 -1 x55 >= -1 ; -1 x7 -1 x14 -1 x21 -1 x28 -1 x35 -1 x42 -1 x49 -1 x56 >= -1 ;";

const CASES: [Case; 24] = [
    // beyond 2^62, and at the limit of 2^90
    Case {
        opb: "4611686018427387905 x1 >= 0 ;",
        conflicts: 1000000,
        ends: "s SATISFIABLE\nv x1\n",
        status: 10,
        verdict: "accepted SAT\nv x1\n",
    },
    Case {
        opb: "min: 1237940039285380274899124224 x1 1237940039285380274899124224 x2 ; 1 x1 >= 1 ; 1 x2 >= 1 ;",
        conflicts: 1000000,
        ends: "o 2475880078570760549798248448\ns OPTIMUM FOUND\nv x1 x2\n",
        status: 30,
        verdict: "accepted BOUNDS 2475880078570760549798248448 2475880078570760549798248448\nv x1 x2\n",
    },
    Case {
        opb: FOUR_CLAUSES,
        conflicts: 1000000,
        ends: "s UNSATISFIABLE\n",
        status: 20,
        verdict: "accepted UNSAT\n",
    },
    // the first conflict has a decision open, whichever it is
    Case {
        opb: FOUR_CLAUSES,
        conflicts: 1,
        ends: "c limit\ns UNKNOWN\n",
        status: 0,
        verdict: "accepted NONE\n",
    },
    // both values of a variable fail, its literal is learned, the second conflict has no decision open
    Case {
        opb: FOUR_CLAUSES,
        conflicts: 2,
        ends: "s UNSATISFIABLE\n",
        status: 20,
        verdict: "accepted UNSAT\n",
    },
    Case {
        opb: PIGEONS,
        conflicts: 1000000,
        ends: "s UNSATISFIABLE\n",
        status: 20,
        verdict: "accepted UNSAT\n",
    },
    Case {
        opb: PIGEONS,
        conflicts: 100,
        ends: "s UNSATISFIABLE\n",
        status: 20,
        verdict: "accepted UNSAT\n",
    },
    // by resolution alone this takes thousands of conflicts
    Case {
        opb: EIGHT_PIGEONS,
        conflicts: 30,
        ends: "s UNSATISFIABLE\n",
        status: 20,
        verdict: "accepted UNSAT\n",
    },
    // no constraint, and no variable
    Case {
        opb: "",
        conflicts: 1000000,
        ends: "s SATISFIABLE\nv\n",
        status: 10,
        verdict: "accepted SAT\nv\n",
    },
    Case {
        opb: "min: ;",
        conflicts: 1000000,
        ends: "o 0\ns OPTIMUM FOUND\nv\n",
        status: 30,
        verdict: "accepted BOUNDS 0 0\nv\n",
    },
    // a contradiction in the file
    Case {
        opb: "1 x1 >= 2 ;",
        conflicts: 1000000,
        ends: "s UNSATISFIABLE\n",
        status: 20,
        verdict: "accepted UNSAT\n",
    },
    // units alone
    Case {
        opb: "1 x1 >= 1 ; 1 ~x2 >= 1 ;",
        conflicts: 1000000,
        ends: "s SATISFIABLE\nv x1 -x2\n",
        status: 10,
        verdict: "accepted SAT\nv x1 -x2\n",
    },
    // propagation alone, both ways
    Case {
        opb: "1 x1 >= 1 ; 1 ~x1 1 x2 >= 1 ; 2 ~x2 2 x3 >= 1 ;",
        conflicts: 1000000,
        ends: "s SATISFIABLE\nv x1 x2 x3\n",
        status: 10,
        verdict: "accepted SAT\nv x1 x2 x3\n",
    },
    Case {
        opb: "1 x1 >= 1 ; 1 ~x1 1 x2 >= 1 ; 1 ~x2 >= 1 ;",
        conflicts: 1000000,
        ends: "s UNSATISFIABLE\n",
        status: 20,
        verdict: "accepted UNSAT\n",
    },
    // an equality with one solution, one without any
    Case {
        opb: "1 x1 2 x2 4 x3 = 5 ;",
        conflicts: 1000000,
        ends: "s SATISFIABLE\nv x1 -x2 x3\n",
        status: 10,
        verdict: "accepted SAT\nv x1 -x2 x3\n",
    },
    Case {
        opb: "2 x1 2 x2 = 3 ;",
        conflicts: 1000000,
        ends: "s UNSATISFIABLE\n",
        status: 20,
        verdict: "accepted UNSAT\n",
    },
    // objectives
    Case {
        opb: "min: 2 x1 3 x2 ; 1 x1 1 x2 >= 1 ;",
        conflicts: 1000000,
        ends: "o 2\ns OPTIMUM FOUND\nv x1 -x2\n",
        status: 30,
        verdict: "accepted BOUNDS 2 2\nv x1 -x2\n",
    },
    Case {
        opb: "min: 2 x1 3 x2 ; 1 x1 1 x2 >= 1 ;",
        conflicts: 100,
        ends: "o 2\ns OPTIMUM FOUND\nv x1 -x2\n",
        status: 30,
        verdict: "accepted BOUNDS 2 2\nv x1 -x2\n",
    },
    // the first solution has ~x1, and to improve on it there is a conflict under ~x1
    Case {
        opb: "min: 2 x1 3 x2 4 x3 ; 1 x1 1 x2 >= 1 ; 1 x2 1 x3 >= 1 ; 1 x1 1 x3 >= 1 ;",
        conflicts: 1,
        ends: "o 7\ns SATISFIABLE\nv -x1 x2 x3\n",
        status: 10,
        verdict: "accepted BOUNDS -INF 7\nv -x1 x2 x3\n",
    },
    Case {
        opb: "min: -1 x1 ;",
        conflicts: 1000000,
        ends: "o -1\ns OPTIMUM FOUND\nv x1\n",
        status: 30,
        verdict: "accepted BOUNDS -1 -1\nv x1\n",
    },
    Case {
        opb: "min: 4 x1 3 x2 5 x3 ; 3 x1 2 x2 4 x3 >= 5 ;",
        conflicts: 1000000,
        ends: "o 7\ns OPTIMUM FOUND\nv x1 x2 -x3\n",
        status: 30,
        verdict: "accepted BOUNDS 7 7\nv x1 x2 -x3\n",
    },
    Case {
        opb: "min: 1 x1 ; 2 x1 2 x2 = 3 ;",
        conflicts: 1000000,
        ends: "s UNSATISFIABLE\n",
        status: 20,
        verdict: "accepted UNSAT\n",
    },
    // a negative coefficient, and a variable that stands in the objective alone
    Case {
        opb: "min: 1 x1 -2 x2 1 x3 ; -1 x1 -1 x2 >= -1 ;",
        conflicts: 1000000,
        ends: "o -2\ns OPTIMUM FOUND\nv -x1 x2 -x3\n",
        status: 30,
        verdict: "accepted BOUNDS -2 -2\nv -x1 x2 -x3\n",
    },
    // the best cover of a triangle
    Case {
        opb: "min: 2 x1 3 x2 4 x3 ; 1 x1 1 x2 >= 1 ; 1 x2 1 x3 >= 1 ; 1 x1 1 x3 >= 1 ;",
        conflicts: 1000000,
        ends: "o 5\ns OPTIMUM FOUND\nv x1 x2 -x3\n",
        status: 30,
        verdict: "accepted BOUNDS 5 5\nv x1 x2 -x3\n",
    },
];

fn is_answered<R: Abort + AllocGlobal>(rt: &R, case: Case, rule: Rule) -> Result<(), Fail> {
    let seen = solve(rt.alloc(), case.opb.as_bytes(), case.conflicts, rule)?;
    assert!(rt;
        seen.answer.as_slice().ends_with(case.ends.as_bytes()) && seen.status == case.status,
        "for {} with {rule:?}",
        case.opb
    );
    assert_eq!(rt;
        seen.verdict.as_slice(),
        case.verdict.as_bytes(),
        "for {} with {rule:?}",
        case.opb
    );
    Ok(())
}

#[test]
fn problems_are_answered_with_every_rule_of_choice(rt: HostRuntime) -> Result<(), Fail> {
    for case in &CASES {
        for rule in RULES {
            is_answered(&rt, *case, rule)?;
        }
    }
    Ok(())
}

/// A text that is no supported problem, what is printed, and the exit status.
#[derive(Clone, Copy)]
struct Refusal {
    opb: &'static str,
    text: &'static str,
    status: u8,
}

const REFUSALS: [Refusal; 3] = [
    Refusal {
        opb: "1237940039285380274899124225 x1 >= 0 ;",
        text: "c refused line 1 code 7 IntegerTooLarge\ns UNSUPPORTED\n",
        status: 0,
    },
    Refusal {
        opb: "1 x1 x2 >= 1 ;",
        text: "c refused line 1 code 6 UnsupportedForm\ns UNSUPPORTED\n",
        status: 0,
    },
    Refusal {
        opb: "1 x1 >= 1\n",
        text: "c refused line 2 code 3 NoSemicolon\n",
        status: 2,
    },
];

fn is_refused<R: Abort + AllocGlobal>(rt: &R, case: Refusal) -> Result<(), Fail> {
    let seen = solve(rt.alloc(), case.opb.as_bytes(), 1, Rule::First)?;
    assert_eq!(rt;
        seen.answer.as_slice(),
        case.text.as_bytes(),
        "for {}",
        case.opb
    );
    assert!(rt;
        seen.status == case.status && seen.proof.is_empty(),
        "for {}",
        case.opb
    );
    Ok(())
}

#[test]
fn texts_that_are_no_supported_problem_are_refused(rt: HostRuntime) -> Result<(), Fail> {
    for case in &REFUSALS {
        is_refused(&rt, *case)?;
    }
    Ok(())
}
