//! A few hundred small problems, made by a fixed rule: each answer is compared with the best of all assignments, for each rule of
//! choice, and so is what the checker accepts of the proof.

use super::lines::{fall_to, worth_of_words};
use super::made::{Numbers, some_problem};
use super::plain::PlainProblem;
use super::rules::Rule;
use super::seen::{Seen, solve};
use super::spelled::text_of;
use std::alloc::{AllocError, Global};
use std::test::Fail;

/// So many problems are tried.
const PROBLEMS: u32 = 300;

/// No problem has more variables.
const VARIABLES: usize = 6;

/// Where the numbers begin by which they are made.
const SEED: u64 = 7;

/// More conflicts than any of them meets, and so few that some searches stop.
const LIMITS: [u64; 2] = [1000000, 1];

/// A text as what stands before its `v` line, and the words of that.
fn at_solution(text: &[u8]) -> Option<(&str, &str)> {
    str::from_utf8(text).ok()?.split_once("v")
}

/// Whether a text ends in a `v` line of a solution of this worth.
fn solves(
    alloc: Global,
    problem: &PlainProblem,
    text: &[u8],
    worth: i64,
) -> Result<bool, AllocError> {
    let Some((_, words)) = at_solution(text) else {
        return Ok(false);
    };
    Ok(worth_of_words(alloc, problem, words, VARIABLES)? == Some(worth))
}

/// What stands before the `v` line of a text.
fn before_solution(text: &[u8]) -> &str {
    match at_solution(text) {
        Some((before, _)) => before,
        None => "",
    }
}

/// Whether what stands before the `v` lines of the answer and of the verdict says that there is a solution.
fn affirms(seen: &Seen) -> bool {
    before_solution(seen.answer.as_slice()) == "s SATISFIABLE\n"
        && seen.status == 10
        && before_solution(seen.verdict.as_slice()) == "accepted SAT\n"
}

/// Whether it says that the least worth of a solution is this.
fn bounds(alloc: Global, seen: &Seen, least: i64) -> Result<bool, AllocError> {
    let verdict = format!(in alloc; "accepted BOUNDS {least} {least}\n")?;
    let answer = before_solution(seen.answer.as_slice());
    let Some(values) = answer.strip_suffix("s OPTIMUM FOUND\n") else {
        return Ok(false);
    };
    Ok(
        fall_to(values, least)
            && seen.status == 30
            && before_solution(seen.verdict.as_slice()) == verdict.as_str(),
    )
}

/// Whether an answer, and the verdict about its proof, are those of all assignments, the best of which is this.
fn is_right(
    alloc: Global,
    problem: &PlainProblem,
    best: Option<i64>,
    seen: &Seen,
) -> Result<bool, AllocError> {
    let Some(best) = best else {
        return Ok(seen.is("s UNSATISFIABLE\n", 20, "accepted UNSAT\n"));
    };
    let says = match problem.objective {
        Some(_) => bounds(alloc, seen, best)?,
        None => affirms(seen),
    };
    Ok(
        says && solves(alloc, problem, seen.answer.as_slice(), best)?
            && solves(alloc, problem, seen.verdict.as_slice(), best)?,
    )
}

/// Whether an answer says that the search stopped, and what it says of the solution so far, if there is one, is so.
fn is_stopped(alloc: Global, problem: &PlainProblem, seen: &Seen) -> Result<bool, AllocError> {
    let Some((lines, words)) = at_solution(seen.answer.as_slice()) else {
        return Ok(seen.is("c limit\ns UNKNOWN\n", 0, "accepted NONE\n"));
    };
    let Some(worth) = worth_of_words(alloc, problem, words, VARIABLES)? else {
        return Ok(false);
    };
    let Some(values) = lines.strip_suffix("s SATISFIABLE\n") else {
        return Ok(false);
    };
    let verdict = format!(in alloc; "accepted BOUNDS -INF {worth}\n")?;
    Ok(
        fall_to(values, worth)
            && seen.status == 10
            && before_solution(seen.verdict.as_slice()) == verdict.as_str()
            && solves(alloc, problem, seen.verdict.as_slice(), worth)?,
    )
}

/// The limit under which the answer to a problem is wrong, if there is one.
fn wrong_limit(alloc: Global, problem: &PlainProblem, rule: Rule) -> Result<Option<u64>, Fail> {
    let text = text_of(alloc, problem)?;
    let best = problem.best(alloc, VARIABLES)?;
    for limit in LIMITS {
        let seen = solve(alloc, text.as_bytes(), limit, rule)?;
        let may_stop = limit == 1;
        if !is_right(alloc, problem, best, &seen)?
            && !(may_stop && is_stopped(alloc, problem, &seen)?)
        {
            return Ok(Some(limit));
        }
    }
    Ok(None)
}

/// The first problem whose answer is wrong, and the limit.
fn first_wrong(alloc: Global, rule: Rule) -> Result<Option<(u32, u64)>, Fail> {
    let mut numbers = Numbers::new(SEED);
    for number in 0..PROBLEMS {
        let problem = some_problem(alloc, &mut numbers)?;
        if let Some(limit) = wrong_limit(alloc, &problem, rule)? {
            return Ok(Some((number, limit)));
        }
    }
    Ok(None)
}

#[test]
fn answers_without_a_choice_are_right(rt: HostRuntime) -> Result<(), Fail> {
    let wrong = first_wrong(rt.alloc(), Rule::First)?;
    assert_eq!(rt; wrong, None);
    Ok(())
}

#[test]
fn answers_by_activity_are_right(rt: HostRuntime) -> Result<(), Fail> {
    let wrong = first_wrong(rt.alloc(), Rule::Activity)?;
    assert_eq!(rt; wrong, None);
    Ok(())
}

#[test]
fn answers_by_stubborn_choice_are_right(rt: HostRuntime) -> Result<(), Fail> {
    let wrong = first_wrong(rt.alloc(), Rule::Stubborn)?;
    assert_eq!(rt; wrong, None);
    Ok(())
}

/// How many problems have no solution, are asked for any, and are asked for a best one.
fn kinds(alloc: Global) -> Result<(u32, u32, u32), Fail> {
    let (mut unsolvable, mut solvable, mut bounded) = (0u32, 0u32, 0u32);
    let mut numbers = Numbers::new(SEED);
    for _ in 0..PROBLEMS {
        let problem = some_problem(alloc, &mut numbers)?;
        let best = problem.best(alloc, VARIABLES)?;
        match (best, &problem.objective) {
            (None, _) => unsolvable = unsolvable.saturating_add(1),
            (Some(_), None) => solvable = solvable.saturating_add(1),
            (Some(_), Some(_)) => bounded = bounded.saturating_add(1),
        }
    }
    Ok((unsolvable, solvable, bounded))
}

#[test]
fn problems_are_of_all_kinds(rt: HostRuntime) -> Result<(), Fail> {
    let (unsolvable, solvable, bounded) = kinds(rt.alloc())?;
    assert!(rt;
        unsolvable > 50 && solvable > 50 && bounded > 50,
        "{unsolvable} {solvable} {bounded}"
    );
    Ok(())
}
