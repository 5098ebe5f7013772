//! Each acceptance against all assignments of its problem. That what is accepted is true is the theorem of the checker; here
//! a reader sees it on problems of at most six variables, whose assignments can be listed, by the plain sums of the file's
//! own signed terms.

use kernel::Accepted;
use linear::{Assignment, Problem};
use opb_read::read;
use proof_steps::{Conclusion, Lower, Upper};
use std::alloc::{AllocError, Global};
use std::test::Fail;

/// All values of six variables; fewer variables come round again, which changes nothing.
const ASSIGNMENTS: u32 = 64;

/// Whether what is accepted for a problem of at most six variables is so.
pub(crate) fn is_claim_true(alloc: Global, opb: &[u8], accepted: &Accepted) -> Result<bool, Fail> {
    match read(alloc, opb) {
        Ok(problem) => Ok(is_true_of(alloc, &problem, accepted)?),
        Err(_) => Ok(false),
    }
}

/// The same of a problem that was read.
fn is_true_of(alloc: Global, problem: &Problem, accepted: &Accepted) -> Result<bool, AllocError> {
    if problem.names().len() > 6 {
        return Ok(false);
    }
    let least = least_value(alloc, problem)?;
    let Some(best) = accepted.best() else {
        return Ok(is_so(accepted.conclusion(), least, None));
    };
    let Some(value) = value_of_solution(problem, best) else {
        return Ok(false);
    };
    Ok(is_so(accepted.conclusion(), least, Some(value)))
}

/// Whether a conclusion is so, where the least value of a solution is this one, if there is a solution, and the best
/// solution that is handed out has that value, if there is one.
fn is_so(conclusion: &Conclusion, least: Option<i128>, best: Option<i128>) -> bool {
    match conclusion {
        Conclusion::Nothing => true,
        Conclusion::Sat(_) => best.is_some(),
        Conclusion::Unsat => least.is_none(),
        Conclusion::Bounds(lower, upper, _) => is_below_all(*lower, least) && is_met(*upper, best),
    }
}

/// Whether no solution is worth less than a lower bound.
fn is_below_all(lower: Lower, least: Option<i128>) -> bool {
    match (lower, least) {
        (Lower::MinusInf, _) | (_, None) => true,
        (Lower::At(bound), Some(value)) => bound <= value,
        (Lower::Inf, Some(_)) => false,
    }
}

/// Whether the best solution is worth at most an upper bound.
fn is_met(upper: Upper, best: Option<i128>) -> bool {
    match (upper, best) {
        (Upper::Inf, _) => true,
        (Upper::At(bound), Some(value)) => value <= bound,
        (Upper::At(_), None) => false,
    }
}

/// The least value of a solution of a problem of at most six variables; none where it has no solution.
fn least_value(alloc: Global, problem: &Problem) -> Result<Option<i128>, AllocError> {
    let mut values = Vec::new(alloc);
    for _ in 0..problem.names().len() {
        values.push(false)?;
    }
    let mut least = None;
    for _ in 0..ASSIGNMENTS {
        let assignment = Assignment::from_vec(Vec::from_slice(alloc, values.as_slice())?);
        least = lesser(least, value_of_solution(problem, &assignment));
        count_up(&mut values);
    }
    Ok(least)
}

/// The lesser of two values, of which each may be missing.
fn lesser(one: Option<i128>, other: Option<i128>) -> Option<i128> {
    match (one, other) {
        (Some(one), Some(other)) => Some(one.min(other)),
        (None, value) | (value, None) => value,
    }
}

/// What a solution is worth; none for what is no solution, or is no assignment of the problem's variables.
fn value_of_solution(problem: &Problem, assignment: &Assignment) -> Option<i128> {
    if assignment.len() == problem.names().len() && problem.satisfied(assignment) {
        Some(problem.value(assignment))
    } else {
        None
    }
}

/// The next values in the order of counting: the first false one becomes true, and those before it false.
fn count_up(values: &mut Vec<bool>) {
    for value in values.iter_mut() {
        *value = !*value;
        if *value {
            return;
        }
    }
}
