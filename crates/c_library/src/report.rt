//! What a C caller is told of a verdict.
//!
//! An enum does not cross to C, and neither does an integer of 128 bits. So a verdict is told by small numbers, and a bound by its
//! sign and two halves of its size. The header says what they stand for.

ghost use Rattle.std.specs.Prelude.{◌≡◌};
ghost use Rattle.c_library.specs.Reports.{HasNoConclusion, HasNoFault, IsNumber, Says, SaysBest, SaysConclusion, SaysFault, SaysLower, SaysUpper};

use super::copying::copy_front;
use checker::Verdict;
use kernel::Accepted;
use proof_steps::{Conclusion, Lower, Upper};

/// The statuses of a verdict, those that the command ends with.
const ACCEPTED: u8 = 0;

const REFUSED: u8 = 1;

const BAD_PROBLEM: u8 = 2;

const NO_MEMORY: u8 = 4;

/// The conclusions; 0 is none, where nothing was accepted.
const NONE: u8 = 1;

const SAT: u8 = 2;

const UNSAT: u8 = 3;

const BOUNDS: u8 = 4;

/// The kinds of a bound; 0 is no bound.
const NUMBER: u8 = 1;

const MINUS_INFINITY: u8 = 2;

const INFINITY: u8 = 3;

/// The room for the name of a fault, and the zeros behind it.
pub const NAME_ROOM: usize = 32;

/// A bound of a conclusion: nothing (0), a number (1), below all numbers (2, `-INF`) or above all (3, `INF`). The size of a number is
/// `high * 2^64 + low`.
#[repr(C)]
#[derive(Clone, Copy)]
pub struct Bound {
    pub kind: u8,
    pub negative: bool,
    pub high: u64,
    pub low: u64,
}

/// A verdict, as C sees it.
#[repr(C)]
#[derive(Clone, Copy)]
pub struct Report {
    /// 0 accepted, 1 refused, 2 bad problem, 4 out of memory.
    pub status: u8,
    /// Of what is accepted: 1 `NONE`, 2 `SAT`, 3 `UNSAT`, 4 `BOUNDS`.
    pub conclusion: u8,
    /// Of what is refused, or of a bad problem.
    pub code: u8,
    /// Whether a solution was logged.
    pub has_best: bool,
    /// Of what is refused, or of a bad problem.
    pub line: u64,
    /// The bounds of `BOUNDS`.
    pub lower: Bound,
    pub upper: Bound,
    /// How many values the best solution has.
    pub variables: u64,
    /// The name of the fault, with zeros behind it.
    pub name: [u8; NAME_ROOM],
}

/// A bound that says nothing.
fn no_bound() -> Bound
    ensures { result.kind ≡ 0 }
{
    Bound {
        kind: 0,
        negative: false,
        high: 0,
        low: 0,
    }
}

/// A report that says this status alone.
fn of_status(status: u8) -> Report
    ensures status { result.status ≡ status }
    ensures conclusion { HasNoConclusion result }
    ensures fault { HasNoFault result }
{
    Report {
        status,
        conclusion: 0,
        code: 0,
        has_best: false,
        line: 0,
        lower: no_bound(),
        upper: no_bound(),
        variables: 0,
        name: [0; NAME_ROOM],
    }
}

/// What one half of a number of 128 bits counts.
const HALF: u128 = 1 << 64;

/// A bound that is a number.
fn of_number(number: i128) -> Bound
    ensures { IsNumber number result }
{
    let size = number.unsigned_abs();
    Bound {
        kind: NUMBER,
        negative: number < 0,
        high: (size / HALF) as u64,
        low: (size % HALF) as u64,
    }
}

/// A bound of this kind that is no number.
fn of_kind(kind: u8) -> Bound
    ensures { result.kind ≡ kind }
{
    Bound { kind, ..no_bound() }
}

fn of_lower(lower: Lower) -> Bound
    ensures { SaysLower lower result }
{
    match lower {
        Lower::MinusInf => of_kind(MINUS_INFINITY),
        Lower::At(bound) => of_number(bound),
        Lower::Inf => of_kind(INFINITY),
    }
}

fn of_upper(upper: Upper) -> Bound
    ensures { SaysUpper upper result }
{
    match upper {
        Upper::At(bound) => of_number(bound),
        Upper::Inf => of_kind(INFINITY),
    }
}

/// Of a conclusion, nothing of the best solution yet.
fn of_conclusion(conclusion: &Conclusion) -> Report
    ensures status { result.status ≡ 0 }
    ensures conclusion { SaysConclusion conclusion.now result }
    ensures fault { HasNoFault result }
{
    let mut report = of_status(ACCEPTED);
    match conclusion {
        Conclusion::Nothing => report.conclusion = NONE,
        Conclusion::Sat(_) => report.conclusion = SAT,
        Conclusion::Unsat => report.conclusion = UNSAT,
        Conclusion::Bounds(lower, upper, _) => {
            report.conclusion = BOUNDS;
            report.lower = of_lower(*lower);
            report.upper = of_upper(*upper);
        }
    }
    report
}

/// Of what is accepted.
fn of_accepted(accepted: &Accepted) -> Report
    ensures status { result.status ≡ 0 }
    ensures conclusion { SaysConclusion accepted.now.conclusion result }
    ensures best { SaysBest accepted.now.best result }
    ensures fault { HasNoFault result }
{
    let mut report = of_conclusion(accepted.conclusion());
    match accepted.best() {
        Some(best) => {
            report.has_best = true;
            report.variables = best.len() as u64;
        }
        None => {
            report.has_best = false;
            report.variables = 0;
        }
    }
    report
}

/// A fault at a line.
fn of_fault(status: u8, line: u64, code: u8, name: &str) -> Report
    ensures status { result.status ≡ status }
    ensures fault { SaysFault line code name.now result }
    ensures conclusion { HasNoConclusion result }
{
    let mut report = of_status(status);
    report.line = line;
    report.code = code;
    copy_front(&mut report.name, name.as_bytes());
    report
}

/// What is told of a verdict.
pub(crate) fn report_of(verdict: &Verdict) -> Report
    ensures { Says verdict.now result }
{
    match verdict {
        Verdict::Accepted(accepted) => of_accepted(accepted),
        Verdict::Refused { line, code } => of_fault(REFUSED, *line, code.number(), code.name()),
        Verdict::BadProblem(fault) => of_fault(
            BAD_PROBLEM,
            fault.line,
            fault.code.number(),
            fault.name(),
        ),
        Verdict::NoMemory => of_status(NO_MEMORY),
    }
}
