//! What is printed for an outcome, in the words of the pseudo-Boolean competition, and the exit status that stands for it.

ghost use Rattle.std.specs.Prelude.{◌≡◌, IfOk, OnOk};
ghost use Rattle.pb_main.specs.Answer.{answer, reason_text, refusal, solution_text, status_of, with_values};

use super::outcome::{Outcome, Unanswered};
use super::solution::Solution;
use checker::{fault_text, write_value_line};
use itoa::Buffer;
use opb_read::OpbFault;
use std::alloc::{AllocError, Global};

/// One `o` line for each value.
fn write_values(out: &mut Vec<u8>, values: &[i128]) -> Result<(), AllocError>
    ensures { OnOk result (out.new.items ≡ with_values out.old.items values.now) }
{
    for value in values {
        let mut buffer = Buffer::new();
        out.extend_from_slice(b"o ")?;
        out.extend_from_slice(buffer.format(*value).as_bytes())?;
        out.extend_from_slice(b"\n")?;
    }
    Ok(())
}

/// The `o` lines, the `s` line and the `v` line of a solution.
fn solution_lines(alloc: Global, status: &[u8], solution: &Solution) -> Result<Vec<u8>, AllocError>
    ensures { IfOk result (λ text. text.items ≡ solution_text status.now solution.now) }
{
    let mut out = Vec::new(alloc);
    write_values(&mut out, solution.improved())?;
    out.extend_from_slice(status)?;
    write_value_line(&mut out, solution.names(), solution.values())?;
    Ok(out)
}

/// `c refused line L code C Name`.
fn refused(alloc: Global, fault: &OpbFault) -> Result<Vec<u8>, AllocError>
    ensures { IfOk result (λ text. text.items ≡ refusal fault.now) }
{
    fault_text(
        alloc,
        b"c refused",
        fault.line,
        fault.code.number(),
        fault.name(),
    )
}

/// The same, and that the file is not supported.
fn unsupported(alloc: Global, fault: &OpbFault) -> Result<Vec<u8>, AllocError>
    ensures { IfOk result (λ text. text.items ≡ answer (Outcome.Unsupported fault.now)) }
{
    let mut out = refused(alloc, fault)?;
    out.extend_from_slice(b"s UNSUPPORTED\n")?;
    Ok(out)
}

/// Why there is no answer.
fn unknown(alloc: Global, why: Unanswered) -> Result<Vec<u8>, AllocError>
    ensures { IfOk result (λ text. text.items ≡ reason_text why) }
{
    match why {
        Unanswered::Limit => Vec::from_slice(alloc, b"c limit\ns UNKNOWN\n"),
        Unanswered::Memory => Vec::from_slice(alloc, b"c memory\ns UNKNOWN\n"),
    }
}

/// The text of an outcome, each line ended by LF: `o` lines for the improving values, the `s` line, and the `v` line of a
/// solution; or a `c` line with the reason before the `s` line.
pub fn answer_text(alloc: Global, outcome: &Outcome) -> Result<Vec<u8>, AllocError>
    ensures { IfOk result (λ text. text.items ≡ answer outcome.now) }
{
    match outcome {
        Outcome::Optimum { solution, .. } => {
            solution_lines(alloc, b"s OPTIMUM FOUND\n", solution)
        }
        Outcome::Unsatisfiable { .. } => Vec::from_slice(alloc, b"s UNSATISFIABLE\n"),
        Outcome::Satisfiable { solution } => solution_lines(alloc, b"s SATISFIABLE\n", solution),
        Outcome::Unknown(why) => unknown(alloc, *why),
        Outcome::Unsupported(fault) => unsupported(alloc, fault),
        Outcome::NotOpb(fault) => refused(alloc, fault),
    }
}

/// The exit status that stands for an outcome: 30 optimum, 20 unsatisfiable, 10 satisfiable, 0 unknown or unsupported, 2 no
/// problem file.
pub fn status(outcome: &Outcome) -> u8
    ensures { result ≡ status_of outcome.now }
{
    match outcome {
        Outcome::Optimum { .. } => 30,
        Outcome::Unsatisfiable { .. } => 20,
        Outcome::Satisfiable { .. } => 10,
        Outcome::Unknown(_) => 0,
        Outcome::Unsupported(_) => 0,
        Outcome::NotOpb(_) => 2,
    }
}
