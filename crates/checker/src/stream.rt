//! Judging a proof that comes from a source: the same walk, over lines that are handed on as they come. No more is held than the
//! line that is judged and what came behind it.

ghost use Rattle.std.specs.Prelude.{◌≡◌, ◌<◌, IfErr, IfOk};
ghost use Rattle.checker.specs.Streamed.{OfStream, StreamStopsBy};
ghost use Rattle.checker.specs.Verdicts.{IsProved};

use super::afterwards::Afterwards;
use super::stop::Stop;
use super::walk::Walk;
use kernel::Accepted;
use linear::Problem;
use pb_text::Source;
use proof_lines::{LineBuffer, LineFault};
use propagate::Propagator;
use std::alloc::Global;

/// Why judging what comes from a source stops: the source fails, or judging stops as it does for a text in memory.
#[derive(Clone, Copy, Debug)]
pub(crate) enum StreamStop {
    ReadFailed,
    Judging(Stop),
}

impl From<Stop> for StreamStop {
    ghost use Rattle.std.specs.Prelude.{◌≡◌};
    ghost use Rattle.checker.specs.declared.stream.StreamStop.TheVariants.{Judging};

    ghost from_gives = { λ stop e. e ≡ Judging stop };

    fn from(stop: Stop) -> StreamStop {
        StreamStop::Judging(stop)
    }
}

impl From<LineFault> for StreamStop {
    ghost use Rattle.std.specs.Prelude.{◌≡◌};
    ghost use Rattle.checker.specs.StreamStops.{stop_of};

    ghost from_gives = { λ fault e. e ≡ stop_of fault };

    fn from(fault: LineFault) -> StreamStop {
        match fault {
            LineFault::ReadFailed => StreamStop::ReadFailed,
            LineFault::OutOfMemory => StreamStop::Judging(Stop::NoMemory),
        }
    }
}

/// Judges a proof of a problem that comes from a source, over any propagator.
pub(crate) fn judge_stream<'a, P: Propagator, S: Source>(
    alloc: Global,
    problem: &'a Problem,
    source: &mut S,
    afterwards: Afterwards,
) -> Result<Accepted, StreamStop>
    requires { (S.state source.old).failures < u64.MAX }
    ensures proved { IfOk result (λ accepted. OfStream (S.state source.old) (S.state source.new) (λ proof. IsProved problem.now proof accepted)) }
    ensures stop { IfErr result (StreamStopsBy problem.now (S.state source.old) (S.state source.new)) }
{
    // That the lines of what a source gives can be numbered is known by what it says is left; this makes it known here.
    let _ = source.left();
    let mut walk = Walk::<P>::begin(alloc, problem)?;
    let mut lines = LineBuffer::new(alloc);
    while lines.advance(source)? {
        walk.take(lines.line())?;
    }
    Ok(walk.finish(lines.number(), afterwards)?)
}
