//! The checker as a library for C and for whatever calls C: `pbcheck.h` says how it is called.
//!
//! What is proved here is that of `check`, told in fields that C can read. What a caller hands in is out of reach of any
//! proof: that each pointer leads to as many bytes as the length behind it says, and that nobody else writes there meanwhile.
#![tactic(auto)]

mod copying;
mod report;

ghost use Rattle.std.specs.Prelude.{◌≡◌};
ghost use Rattle.checker.specs.Verdicts.{IsVerdictOf};
ghost use Rattle.checker.specs.declared.verdict.Verdict.{Verdict};
ghost use Rattle.c_library.specs.Reports.{HasBest, HasText, Says};

use checker::{Verdict, check, verdict_text};
use copying::{copy_front, copy_values};
use report::report_of;
pub use report::{Bound, NAME_ROOM, Report};
use std::alloc::Global;

/// Puts what the command prints of a verdict into a buffer, as much of it as there is room for. The result is its whole length, 0 where there
/// is no memory for it.
fn print(alloc: Global, problem: &[u8], verdict: &Verdict, buffer: &mut [u8]) -> usize
    ensures { HasText problem.now verdict.now result buffer.new }
{
    match verdict_text(alloc, problem, verdict) {
        Ok(text) => {
            copy_front(buffer, text.as_slice());
            text.len()
        }
        Err(_) => 0,
    }
}

/// Puts the values of the best solution into a buffer, as many as there is room for.
fn hand_out_best(verdict: &Verdict, buffer: &mut [u8])
    ensures { HasBest verdict.now buffer.new }
{
    if let Verdict::Accepted(accepted) = verdict {
        if let Some(best) = accepted.best() {
            copy_values(buffer, best.as_slice());
        }
    }
}

/// Judges a proof of a problem, as `check` does. The verdict goes into the report, the values of its best solution and what the command prints
/// into the buffers. The result is how many bytes the command prints, 0 where there is no memory for them.
#[unsafe(no_mangle)]
pub extern "C" fn pbcheck_check(
    alloc: Global,
    problem: &[u8],
    proof: &[u8],
    report: &mut Report,
    values: &mut [u8],
    text: &mut [u8],
) -> usize
    ensures { (verdict : Verdict) × (IsVerdictOf problem.now proof.now verdict × Says verdict report.new × HasBest verdict values.new × HasText problem.now verdict result text.new) }
{
    let verdict = check(alloc, problem, proof);
    *report = report_of(&verdict);
    hand_out_best(&verdict, values);
    print(alloc, problem, &verdict, text)
}
