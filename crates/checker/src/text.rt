//! What is printed for a verdict.

ghost use Rattle.std.specs.Prelude.{◌≡◌, IfOk, OnOk};
ghost use Rattle.checker.specs.Printed.{IsPrinted, IsAcceptedText, IsWithBest};
ghost use Rattle.checker.specs.Printed.{with_conclusion, with_lower, with_upper};

use super::lines::{fault_text, write_value_line};
use super::verdict::Verdict;
use itoa::Buffer;
use kernel::Accepted;
use linear::Assignment;
use opb_read::{OpbCode, read};
use proof_steps::{Conclusion, Lower, Upper};
use std::alloc::{AllocError, Global};

/// The text of a verdict, each line ended by LF: `accepted ..` and the `v` line of the best assignment where there is
/// one, `refused line L code C Name`, `bad problem line L code C Name`, or `no memory`.
pub fn verdict_text(alloc: Global, opb: &[u8], verdict: &Verdict) -> Result<Vec<u8>, AllocError>
    ensures { IfOk result (λ text. IsPrinted opb.now verdict.now text.items) }
{
    match verdict {
        Verdict::Accepted(accepted) => accepted_text(alloc, opb, accepted),
        Verdict::Refused { line, code } => {
            fault_text(alloc, b"refused", *line, code.number(), code.name())
        }
        Verdict::BadProblem(fault) => fault_text(
            alloc,
            b"bad problem",
            fault.line,
            fault.code.number(),
            fault.name(),
        ),
        Verdict::NoMemory => Vec::from_slice(alloc, b"no memory\n"),
    }
}

/// The conclusion, and the `v` line of the best assignment where there is one.
fn accepted_text(alloc: Global, opb: &[u8], accepted: &Accepted) -> Result<Vec<u8>, AllocError>
    ensures { IfOk result (λ text. IsAcceptedText opb.now accepted.now text.items) }
{
    let mut out = Vec::from_slice(alloc, b"accepted ")?;
    write_conclusion(&mut out, accepted.conclusion())?;
    out.extend_from_slice(b"\n")?;
    if let Some(best) = accepted.best() {
        write_best(alloc, &mut out, opb, best)?;
    }
    Ok(out)
}

fn write_conclusion(out: &mut Vec<u8>, conclusion: &Conclusion) -> Result<(), AllocError>
    ensures { OnOk result (out.new.items ≡ with_conclusion out.old.items conclusion.now) }
{
    match conclusion {
        Conclusion::Nothing => out.extend_from_slice(b"NONE"),
        Conclusion::Sat(_) => out.extend_from_slice(b"SAT"),
        Conclusion::Unsat => out.extend_from_slice(b"UNSAT"),
        Conclusion::Bounds(lower, upper, _) => {
            out.extend_from_slice(b"BOUNDS ")?;
            write_lower(out, *lower)?;
            out.extend_from_slice(b" ")?;
            write_upper(out, *upper)
        }
    }
}

fn write_lower(out: &mut Vec<u8>, lower: Lower) -> Result<(), AllocError>
    ensures { OnOk result (out.new.items ≡ with_lower out.old.items lower) }
{
    match lower {
        Lower::MinusInf => out.extend_from_slice(b"-INF"),
        Lower::At(bound) => {
            let mut buffer = Buffer::new();
            out.extend_from_slice(buffer.format(bound).as_bytes())
        }
        Lower::Inf => out.extend_from_slice(b"INF"),
    }
}

fn write_upper(out: &mut Vec<u8>, upper: Upper) -> Result<(), AllocError>
    ensures { OnOk result (out.new.items ≡ with_upper out.old.items upper) }
{
    match upper {
        Upper::At(bound) => {
            let mut buffer = Buffer::new();
            out.extend_from_slice(buffer.format(bound).as_bytes())
        }
        Upper::Inf => out.extend_from_slice(b"INF"),
    }
}

/// The `v` line, by the names that the problem's text gives. Where it spells no problem with as many variables, there
/// is none.
fn write_best(
    alloc: Global,
    out: &mut Vec<u8>,
    opb: &[u8],
    best: &Assignment,
) -> Result<(), AllocError>
    ensures { OnOk result (IsWithBest opb.now out.old.items best.now out.new.items) }
{
    let problem = match read(alloc, opb) {
        Ok(problem) => problem,
        Err(fault) if fault.code == OpbCode::OutOfMemory => return Err(AllocError),
        Err(_) => return Ok(()),
    };
    let names = problem.names();
    if names.len() != best.len() {
        return Ok(());
    }
    write_value_line(out, names, best)
}
