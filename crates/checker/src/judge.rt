//! Judging a proof: the walk from its first line to behind its end.
//!
//! A walk that stops shows that no legal proof is spelled, and one that comes to the end is the proof; so both sides of
//! the verdict rest on the one relation that leads from a position to the next, and no line is read twice.

ghost use Rattle.std.specs.Prelude.{IfOk, IfErr};
ghost use Rattle.checker.specs.Verdicts.{IsProved};
ghost use Rattle.checker.specs.Stopped.{IsStopped};
ghost use Rattle.checker.specs.StopsBy.{StopsBy};

use super::afterwards::Afterwards;
use super::stop::Stop;
use super::walk::Walk;
use kernel::Accepted;
use linear::Problem;
use proof_lines::ProofReader;
use propagate::Propagator;
use std::alloc::Global;

/// Judges a proof of a problem, over any propagator. What is accepted is true of the problem, whoever wrote the proof.
pub(crate) fn judge<'a, P: Propagator>(
    alloc: Global,
    problem: &'a Problem,
    proof: &[u8],
) -> Result<Accepted, Stop>
    ensures proved { IfOk result (λ accepted. IsProved problem.now proof.now accepted) }
    ensures stop { IfErr result (StopsBy (IsStopped problem.now proof.now)) }
{
    let mut walk = Walk::<P>::begin(alloc, problem)?;
    let mut lines = ProofReader::new(proof);
    while let Some(line) = lines.next() {
        walk.take(line)?;
    }
    walk.finish(lines.end_number(), Afterwards::GiveBack)
}
