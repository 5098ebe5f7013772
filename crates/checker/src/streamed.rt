//! The checker over a proof that comes from a source: no proof of a file that is no problem is asked for.

ghost use Rattle.std.specs.Prelude.{◌<◌};
ghost use Rattle.checker.specs.Streamed.{IsStreamVerdictOf};

use super::afterwards::Afterwards;
use super::checking::{LiveConstraints, bad_problem, stopped};
use super::stream::{StreamStop, judge_stream};
use super::stream_verdict::StreamVerdict;
use super::verdict::Verdict;
use opb_read::read;
use pb_text::Source;
use std::alloc::Global;

/// Judges a proof that comes from a source, as `check` judges one in memory: the verdict is that of `check` for every text that
/// begins with the bytes that came, or for just these, where the source was seen to end. No piece is asked for before all whole
/// lines are judged, nor for a bad problem, and no more is held than the line that is judged and what came behind it.
///
/// `ReadFailed` only where the text is a problem's and the source failed, `NoMemory` only where it did not. Its failures must be fewer
/// than the greatest number, so that one more can be counted.
pub fn check_stream<S: Source>(alloc: Global, opb: &[u8], source: &mut S) -> StreamVerdict
    requires { (S.state source.old).failures < u64.MAX }
    ensures { IsStreamVerdictOf opb.now (S.state source.old) (S.state source.new) result }
{
    check_stream_then(alloc, opb, source, Afterwards::GiveBack)
}

/// The same, where it is said what becomes of the memory that the check took.
pub fn check_stream_then<S: Source>(
    alloc: Global,
    opb: &[u8],
    source: &mut S,
    afterwards: Afterwards,
) -> StreamVerdict
    requires { (S.state source.old).failures < u64.MAX }
    ensures { IsStreamVerdictOf opb.now (S.state source.old) (S.state source.new) result }
{
    match read(alloc, opb) {
        Ok(problem) => match judge_stream::<LiveConstraints, S>(
            alloc, &problem, source, afterwards,
        ) {
            Ok(accepted) => {
                afterwards.end(problem);
                StreamVerdict::Judged(Verdict::Accepted(accepted))
            }
            Err(StreamStop::Judging(stop)) => StreamVerdict::Judged(stopped(stop)),
            Err(StreamStop::ReadFailed) => StreamVerdict::ReadFailed,
        },
        Err(fault) => StreamVerdict::Judged(bad_problem(fault)),
    }
}
