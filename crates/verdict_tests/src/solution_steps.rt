//! Solutions, deletion and conclusions, from bytes to the printed verdict. What is expected follows from the rules and from
//! the order in which they are judged.

use super::rows::{Problem, Row, rows_answer};
use std::test::Fail;

/// An assignment is completed by propagation over the live constraints; it is judged by those of the file.
const A_LOGGED_SOLUTION_IS_COMPLETED_AND_MEETS_THE_FILE: [Row; 6] = [
    Row {
        problem: Problem::Either,
        steps: "sol ~x1\n",
        conclusion: "SAT",
        printed: "accepted SAT\nv -x1 x2\n",
    },
    Row {
        problem: Problem::Either,
        steps: "sol x1\n",
        conclusion: "NONE",
        printed: "refused line 3 code 19 SolutionPartial\n",
    },
    Row {
        problem: Problem::Either,
        steps: "sol x1 ~x1\n",
        conclusion: "NONE",
        printed: "refused line 3 code 20 SolutionConflict\n",
    },
    Row {
        problem: Problem::SecondAlone,
        steps: "sol x1\n",
        conclusion: "NONE",
        printed: "refused line 3 code 20 SolutionConflict\n",
    },
    Row {
        problem: Problem::Either,
        steps: "sol ~x1 ~x2\n",
        conclusion: "NONE",
        printed: "refused line 3 code 18 SolutionFalse\n",
    },
    Row {
        problem: Problem::Either,
        steps: "sol x1 x2 x1\n",
        conclusion: "SAT",
        printed: "accepted SAT\nv x1 x2\n",
    },
];

#[test]
fn a_logged_solution_is_completed_and_meets_the_file(rt: HostRuntime) -> Result<(), Fail> {
    rows_answer(&rt, &A_LOGGED_SOLUTION_IS_COMPLETED_AND_MEETS_THE_FILE)
}

/// `soli`: an objective first, then as `sol`, then a value below the least one so far.
const AN_IMPROVING_SOLUTION_HAS_AN_OBJECTIVE_AND_IS_BETTER: [Row; 8] = [
    // it meets the file, before it is better
    Row {
        problem: Problem::FourAndOne,
        steps: "soli ~x1 ~x2 ~x3 ~x4 ~x5\nsoli ~x1 ~x2 ~x3 ~x4 x5\n",
        conclusion: "NONE",
        printed: "refused line 4 code 18 SolutionFalse\n",
    },
    Row {
        problem: Problem::Equal,
        steps: "soli x1 ~x2\npol 1 2 +\n",
        conclusion: "BOUNDS 1 : 3 1",
        printed: "accepted BOUNDS 1 1\nv x1 -x2\n",
    },
    Row {
        problem: Problem::Equal,
        steps: "soli ~x1 ~x2\n",
        conclusion: "NONE",
        printed: "refused line 3 code 18 SolutionFalse\n",
    },
    Row {
        problem: Problem::Equal,
        steps: "soli x1 ~x2\nsoli x1 ~x2\n",
        conclusion: "NONE",
        printed: "refused line 4 code 21 NotImproving\n",
    },
    Row {
        problem: Problem::Equal,
        steps: "soli x1 ~x2\nsoli ~x1 ~x2\n",
        conclusion: "NONE",
        printed: "refused line 4 code 18 SolutionFalse\n",
    },
    Row {
        problem: Problem::Either,
        steps: "soli x1 x2\n",
        conclusion: "NONE",
        printed: "refused line 3 code 22 NoObjective\n",
    },
    Row {
        problem: Problem::Either,
        steps: "soli x1 ~x1\n",
        conclusion: "NONE",
        printed: "refused line 3 code 22 NoObjective\n",
    },
    Row {
        problem: Problem::Cheaper,
        steps: "soli ~x1 x2\nsoli x1 ~x2\n",
        conclusion: "BOUNDS 2 2",
        printed: "accepted BOUNDS 2 2\nv x1 -x2\n",
    },
];

#[test]
fn an_improving_solution_has_an_objective_and_is_better(rt: HostRuntime) -> Result<(), Fail> {
    rows_answer(&rt, &AN_IMPROVING_SOLUTION_HAS_AN_OBJECTIVE_AND_IS_BETTER)
}

/// `del id`: each id in its turn, that of any live constraint, also the file's and those of improving solutions.
const WHAT_IS_DELETED_IS_GONE: [Row; 13] = [
    Row {
        problem: Problem::Either,
        steps: "pol 1 2 *\ndel id 2\npol 2 1 +\n",
        conclusion: "NONE",
        printed: "refused line 5 code 10 DeadId\n",
    },
    Row {
        problem: Problem::Either,
        steps: "pol 1\ndel id 2\npol 1\npol 3\n",
        conclusion: "NONE",
        printed: "accepted NONE\n",
    },
    Row {
        problem: Problem::Either,
        steps: "pol 1\npol 1\ndel id 3 -2\n",
        conclusion: "NONE",
        printed: "accepted NONE\n",
    },
    Row {
        problem: Problem::Either,
        steps: "pol 1\ndel id 2 2\n",
        conclusion: "NONE",
        printed: "refused line 4 code 10 DeadId\n",
    },
    Row {
        problem: Problem::Either,
        steps: "pol 1\ndel id 2 -1\n",
        conclusion: "NONE",
        printed: "refused line 4 code 10 DeadId\n",
    },
    Row {
        problem: Problem::Either,
        steps: "del id 1\n",
        conclusion: "NONE",
        printed: "accepted NONE\n",
    },
    Row {
        problem: Problem::Either,
        steps: "del id 1 9\n",
        conclusion: "NONE",
        printed: "refused line 3 code 10 DeadId\n",
    },
    Row {
        problem: Problem::Either,
        steps: "del id 9 1\n",
        conclusion: "NONE",
        printed: "refused line 3 code 10 DeadId\n",
    },
    Row {
        problem: Problem::Either,
        steps: "del id 0\n",
        conclusion: "NONE",
        printed: "refused line 3 code 10 DeadId\n",
    },
    Row {
        problem: Problem::Either,
        steps: "del id\n",
        conclusion: "NONE",
        printed: "accepted NONE\n",
    },
    Row {
        problem: Problem::Cheaper,
        steps: "soli ~x1 x2\nsoli x1 ~x2\ndel id 2\n",
        conclusion: "NONE",
        printed: "accepted NONE\nv x1 -x2\n",
    },
    Row {
        problem: Problem::Pigeons,
        steps: "pol 1 2 + 3 + 4 + 5 +\ndel id 6\n",
        conclusion: "UNSAT",
        printed: "refused line 6 code 24 LowerNotShown\n",
    },
    Row {
        problem: Problem::Pigeons,
        steps: "pol 1 2 + 3 + 4 + 5 +\ndel id 6\nrup >= 1 ;\n",
        conclusion: "NONE",
        printed: "refused line 5 code 14 NotShown\n",
    },
];

#[test]
fn what_is_deleted_is_gone(rt: HostRuntime) -> Result<(), Fail> {
    rows_answer(&rt, &WHAT_IS_DELETED_IS_GONE)
}

/// Whatever is deleted, solutions are judged by the file, and the least improving value stays.
const THE_FILE_JUDGES_WHATEVER_IS_DELETED: [Row; 5] = [
    Row {
        problem: Problem::Either,
        steps: "del id 1\nred 1 ~x1 >= 1 ; x1 -> 0\nred 1 ~x2 >= 1 ; x2 -> 0\nsol ~x1 ~x2\n",
        conclusion: "NONE",
        printed: "refused line 6 code 18 SolutionFalse\n",
    },
    Row {
        problem: Problem::Either,
        steps: "del id 1\nred 1 ~x1 >= 1 ; x1 -> 0\nred 1 ~x2 >= 1 ; x2 -> 0\nsol x1 x2\n",
        conclusion: "SAT",
        printed: "accepted SAT\nv x1 x2\n",
    },
    Row {
        problem: Problem::Either,
        steps: "del id 1\nred 1 ~x1 >= 1 ; x1 -> 0\nred 1 ~x2 >= 1 ; x2 -> 0\n",
        conclusion: "UNSAT",
        printed: "refused line 7 code 24 LowerNotShown\n",
    },
    Row {
        problem: Problem::Equal,
        steps: "soli x1 ~x2\npol 1 2 +\ndel id 1 2\n",
        conclusion: "BOUNDS 1 1",
        printed: "accepted BOUNDS 1 1\nv x1 -x2\n",
    },
    Row {
        problem: Problem::Equal,
        steps: "soli x1 ~x2\ndel id 2\nsoli ~x1 x2\n",
        conclusion: "NONE",
        printed: "refused line 5 code 21 NotImproving\n",
    },
];

#[test]
fn the_file_judges_whatever_is_deleted(rt: HostRuntime) -> Result<(), Fail> {
    rows_answer(&rt, &THE_FILE_JUDGES_WHATEVER_IS_DELETED)
}

/// `SAT` and its hint, which is one more `sol`.
const SATISFIABLE_BY_WHAT_WAS_LOGGED: [Row; 8] = [
    Row {
        problem: Problem::Cheaper,
        steps: "",
        conclusion: "SAT",
        printed: "refused line 4 code 26 UpperNotLogged\n",
    },
    Row {
        problem: Problem::Either,
        steps: "",
        conclusion: "SAT",
        printed: "refused line 4 code 26 UpperNotLogged\n",
    },
    Row {
        problem: Problem::Either,
        steps: "",
        conclusion: "SAT : ~x1",
        printed: "accepted SAT\nv -x1 x2\n",
    },
    Row {
        problem: Problem::Either,
        steps: "",
        conclusion: "SAT : x1",
        printed: "refused line 4 code 19 SolutionPartial\n",
    },
    Row {
        problem: Problem::Either,
        steps: "",
        conclusion: "SAT : x1 ~x1",
        printed: "refused line 4 code 20 SolutionConflict\n",
    },
    Row {
        problem: Problem::Either,
        steps: "",
        conclusion: "SAT : ~x1 ~x2",
        printed: "refused line 4 code 18 SolutionFalse\n",
    },
    Row {
        problem: Problem::Either,
        steps: "sol x1 ~x2\nsol ~x1 x2\n",
        conclusion: "SAT",
        printed: "accepted SAT\nv x1 -x2\n",
    },
    Row {
        problem: Problem::Either,
        steps: "sol x1 ~x2\n",
        conclusion: "SAT : ~x1 x2",
        printed: "accepted SAT\nv x1 -x2\n",
    },
];

#[test]
fn satisfiable_by_what_was_logged(rt: HostRuntime) -> Result<(), Fail> {
    rows_answer(&rt, &SATISFIABLE_BY_WHAT_WAS_LOGGED)
}

/// `UNSAT`: a logged solution first, then what is not shown.
const UNSATISFIABLE_ONLY_WHERE_NOTHING_WAS_LOGGED: [Row; 3] = [
    Row {
        problem: Problem::Equal,
        steps: "soli x1 ~x2\npol 1 2 +\n",
        conclusion: "UNSAT",
        printed: "refused line 6 code 27 SolutionLogged\n",
    },
    Row {
        problem: Problem::Either,
        steps: "sol x1 x2\n",
        conclusion: "UNSAT",
        printed: "refused line 5 code 27 SolutionLogged\n",
    },
    Row {
        problem: Problem::Either,
        steps: "",
        conclusion: "UNSAT",
        printed: "refused line 4 code 24 LowerNotShown\n",
    },
];

#[test]
fn unsatisfiable_only_where_nothing_was_logged(rt: HostRuntime) -> Result<(), Fail> {
    rows_answer(&rt, &UNSATISFIABLE_ONLY_WHERE_NOTHING_WAS_LOGGED)
}

/// The lower bound of `BOUNDS`: an objective, the hint, a bound above the best, its size, then what is not shown.
const LOWER_BOUNDS_ARE_SHOWN: [Row; 14] = [
    Row {
        problem: Problem::Cheaper,
        steps: "",
        conclusion: "BOUNDS 2 INF",
        printed: "accepted BOUNDS 2 INF\n",
    },
    Row {
        problem: Problem::Cheaper,
        steps: "",
        conclusion: "BOUNDS 3 INF",
        printed: "refused line 4 code 24 LowerNotShown\n",
    },
    Row {
        problem: Problem::Cheaper,
        steps: "",
        conclusion: "BOUNDS -INF INF",
        printed: "accepted BOUNDS -INF INF\n",
    },
    Row {
        problem: Problem::Cheaper,
        steps: "soli x1 ~x2\n",
        conclusion: "BOUNDS 3 9",
        printed: "refused line 5 code 25 LowerAboveBest\n",
    },
    Row {
        problem: Problem::Cheaper,
        steps: "soli x1 x2\n",
        conclusion: "BOUNDS 5 5",
        printed: "refused line 5 code 24 LowerNotShown\n",
    },
    Row {
        problem: Problem::Cheaper,
        steps: "soli x1 ~x2\n",
        conclusion: "BOUNDS 1329227995784915872903807060280344576 2",
        printed: "refused line 5 code 25 LowerAboveBest\n",
    },
    Row {
        problem: Problem::Cheaper,
        steps: "",
        conclusion: "BOUNDS 1329227995784915872903807060280344576 2",
        printed: "refused line 4 code 24 LowerNotShown\n",
    },
    Row {
        problem: Problem::Reward,
        steps: "",
        conclusion: "BOUNDS 1329227995784915872903807060280344576 2",
        printed: "refused line 4 code 13 TooLarge\n",
    },
    Row {
        problem: Problem::Cheaper,
        steps: "",
        conclusion: "BOUNDS -1329227995784915872903807060280344576 INF",
        printed: "accepted BOUNDS -1329227995784915872903807060280344576 INF\n",
    },
    Row {
        problem: Problem::Cheaper,
        steps: "",
        conclusion: "BOUNDS INF INF",
        printed: "refused line 4 code 24 LowerNotShown\n",
    },
    Row {
        problem: Problem::Cheaper,
        steps: "",
        conclusion: "BOUNDS INF INF : x1 x2",
        printed: "refused line 4 code 27 SolutionLogged\n",
    },
    Row {
        problem: Problem::Contradiction,
        steps: "",
        conclusion: "BOUNDS INF INF",
        printed: "accepted BOUNDS INF INF\n",
    },
    Row {
        problem: Problem::Contradiction,
        steps: "",
        conclusion: "BOUNDS 7 INF",
        printed: "accepted BOUNDS 7 INF\n",
    },
    Row {
        problem: Problem::Equal,
        steps: "soli x1 ~x2\npol 1 2 +\n",
        conclusion: "BOUNDS 2 1",
        printed: "refused line 6 code 25 LowerAboveBest\n",
    },
];

#[test]
fn lower_bounds_are_shown(rt: HostRuntime) -> Result<(), Fail> {
    rows_answer(&rt, &LOWER_BOUNDS_ARE_SHOWN)
}

/// The upper bound of `BOUNDS`, judged last; the best is of the least value, the earliest among equals.
const UPPER_BOUNDS_ARE_LOGGED: [Row; 13] = [
    // a lower bound above the best is refused before it is shown, and before the upper one is judged
    Row {
        problem: Problem::Reward,
        steps: "soli x1\n",
        conclusion: "BOUNDS 1329227995784915872903807060280344576 2",
        printed: "refused line 5 code 25 LowerAboveBest\n",
    },
    Row {
        problem: Problem::Cheaper,
        steps: "soli x1 ~x2\n",
        conclusion: "BOUNDS 3 1",
        printed: "refused line 5 code 25 LowerAboveBest\n",
    },
    Row {
        problem: Problem::Cheaper,
        steps: "soli ~x1 x2\nsoli x1 ~x2\n",
        conclusion: "BOUNDS 2 1",
        printed: "refused line 6 code 26 UpperNotLogged\n",
    },
    Row {
        problem: Problem::Cheaper,
        steps: "soli x1 ~x2\nsol x1 x2\n",
        conclusion: "BOUNDS 2 2",
        printed: "accepted BOUNDS 2 2\nv x1 -x2\n",
    },
    Row {
        problem: Problem::Cheaper,
        steps: "",
        conclusion: "BOUNDS 0 5 : x1 x2",
        printed: "accepted BOUNDS 0 5\nv x1 x2\n",
    },
    Row {
        problem: Problem::Cheaper,
        steps: "",
        conclusion: "BOUNDS -INF 5 : x1 x2",
        printed: "accepted BOUNDS -INF 5\nv x1 x2\n",
    },
    Row {
        problem: Problem::Cheaper,
        steps: "",
        conclusion: "BOUNDS -INF 4 : x1 x2",
        printed: "refused line 4 code 26 UpperNotLogged\n",
    },
    Row {
        problem: Problem::Cheaper,
        steps: "",
        conclusion: "BOUNDS 3 1",
        printed: "refused line 4 code 24 LowerNotShown\n",
    },
    Row {
        problem: Problem::Equal,
        steps: "sol x1 ~x2\nsol ~x1 x2\n",
        conclusion: "BOUNDS 1 1",
        printed: "accepted BOUNDS 1 1\nv x1 -x2\n",
    },
    Row {
        problem: Problem::Equal,
        steps: "sol x1 x2\nsol ~x1 x2\n",
        conclusion: "BOUNDS 1 7",
        printed: "accepted BOUNDS 1 7\nv -x1 x2\n",
    },
    Row {
        problem: Problem::Either,
        steps: "",
        conclusion: "BOUNDS 0 5",
        printed: "refused line 4 code 22 NoObjective\n",
    },
    Row {
        problem: Problem::Either,
        steps: "",
        conclusion: "BOUNDS 0 5 : x1 ~x1",
        printed: "refused line 4 code 22 NoObjective\n",
    },
    Row {
        problem: Problem::Cheaper,
        steps: "",
        conclusion: "BOUNDS 7 5 : x1 ~x1",
        printed: "refused line 4 code 20 SolutionConflict\n",
    },
];

#[test]
fn upper_bounds_are_logged(rt: HostRuntime) -> Result<(), Fail> {
    rows_answer(&rt, &UPPER_BOUNDS_ARE_LOGGED)
}

/// The corners of a triangle with one on each side, at the least price: every kind of step that is judged.
const AN_OPTIMUM_WITH_ITS_PROOF: [Row; 3] = [
    Row {
        problem: Problem::Triangle,
        steps: "sol x1 ~x2\nsoli x1 x2 ~x3\npol 1 2 + 3 + 2 d\npol 4 5 2 * +\ndel id 5\nrup >= 1 ;\n",
        conclusion: "BOUNDS 5 5",
        printed: "accepted BOUNDS 5 5\nv x1 x2 -x3\n",
    },
    Row {
        problem: Problem::Triangle,
        steps: "sol x1 ~x2\nsoli x1 x2 ~x3\npol 1 2 + 3 + 2 d\ndel id 5\nrup >= 1 ;\n",
        conclusion: "BOUNDS 5 5",
        printed: "refused line 7 code 14 NotShown\n",
    },
    Row {
        problem: Problem::Either,
        steps: "sol x1 ~x2\n",
        conclusion: "NONE",
        printed: "accepted NONE\nv x1 -x2\n",
    },
];

#[test]
fn an_optimum_with_its_proof(rt: HostRuntime) -> Result<(), Fail> {
    rows_answer(&rt, &AN_OPTIMUM_WITH_ITS_PROOF)
}
