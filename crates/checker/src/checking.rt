//! The checker: the problem is read first, then the proof is judged line by line.
//!
//! The problem comes first since every line of a proof speaks of it: its names give literals their variables, and its
//! constraints have the first ids. So a proof of a file that is no problem is never looked at. Which propagator the live constraints are asked
//! by is said here (`LiveConstraints`), and nowhere below.

ghost use Rattle.std.specs.Prelude.{◌≡◌, ℕ, List};
ghost use Rattle.opb_read.specs.Faults.{Denies};
ghost use Rattle.opb_read.specs.FaultLine.{IsFaultAt};
ghost use Rattle.pb_text.specs.Devices.{SourceState};
ghost use Rattle.checker.specs.Streamed.{IsStreamVerdictOf, verdict_of};
ghost use Rattle.checker.specs.Verdicts.{IsVerdictOf};
ghost use Rattle.checker.specs.declared.stream_verdict.StreamVerdict.TheVariants.{Judged};

use super::judge::judge;
use super::stop::Stop;
use super::verdict::Verdict;
use opb_read::{OpbCode, OpbFault, read};
use std::alloc::Global;
use watch::WatchPropagator;

/// What keeps the live constraints.
pub(crate) type LiveConstraints = WatchPropagator;

/// Judges a proof (VeriPB 2.0, this product's profile) of a problem (the linear OPB format).
///
/// `Accepted`, for any two texts and whoever wrote the proof: the problem's text spells exactly one problem, the
/// accepted conclusion is true of that problem's own signed terms (under `UNSAT` no 0-1 assignment satisfies it), and
/// the proof's text spells a legal proof of it. `Refused` at a line: all lines before it are read and legal, and it is
/// not; so the text is no legal proof. `BadProblem` is the fault that `read` finds in the problem's text. Running out
/// of memory is never a refusal, but `NoMemory`.
pub fn check(alloc: Global, opb: &[u8], proof: &[u8]) -> Verdict
    ensures sound { IsVerdictOf opb.now proof.now result }
{
    match read(alloc, opb) {
        Ok(problem) => match judge::<LiveConstraints>(alloc, &problem, proof) {
            Ok(accepted) => Verdict::Accepted(accepted),
            Err(stop) => stopped(stop),
        },
        Err(fault) => bad_problem(fault),
    }
}

/// The verdict where judging stops.
pub(crate) fn stopped(stop: Stop) -> Verdict
    ensures { result ≡ verdict_of stop }
{
    match stop {
        Stop::At(line, code) => Verdict::Refused { line, code },
        Stop::NoMemory => Verdict::NoMemory,
    }
}

/// The verdict where the problem is not read.
pub(crate) fn bad_problem(fault: OpbFault) -> Verdict
    ensures text { (text proof : List ℕ) → Denies fault.code text → IsFaultAt text fault.code fault.line
        → IsVerdictOf text proof result }
    ensures stream { (text : List ℕ) (source : SourceState) → Denies fault.code text → IsFaultAt text fault.code fault.line
        → IsStreamVerdictOf text source source (Judged result) }
{
    match fault.code {
        OpbCode::OutOfMemory => Verdict::NoMemory,
        _ => Verdict::BadProblem(fault),
    }
}
