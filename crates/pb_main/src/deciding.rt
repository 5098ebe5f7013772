//! From the bytes of a problem to the outcome and the bytes of its proof.
//!
//! The solver is not believed. Its log is the text of a proof, and the checker judges these very bytes before an
//! optimum or that there is no solution is said, so that either answer carries what the checker accepted. That the
//! checker never refuses what the solver logged is proved: the log's steps are legal by its type, and what is written
//! reads back. The log is given up before the check begins: what is handed out of it is taken first, and its text is the
//! proof, so neither the kernel nor a second copy of the steps stands in memory while the checker works.

ghost use Rattle.std.specs.Prelude.{◌≡◌, ◌≤◌, ℕ, [], List};
ghost use Rattle.linear.specs.Limits.{IsWithin};
ghost use Rattle.opb_read.specs.FaultLine.{IsFaultAt};
ghost use Rattle.opb_read.specs.Faults.{Denies};
ghost use Rattle.opb_read.specs.Spells.{Spells};
ghost use Rattle.proof_log.specs.Log.{Logbook};
ghost use Rattle.search.specs.Solving.{BearsOut};
ghost use Rattle.pb_main.specs.Checked.{IsBorneOut, IsLogOf, IsProofOrNone, IsWritten};
ghost use Rattle.pb_main.specs.Finding.{IsFindingOf};
ghost use Rattle.pb_main.specs.Outcome.{IsOutcomeOf};

use super::finding::{Finding, finding_of};
use super::outcome::{Outcome, Unanswered};
use super::proof::accepted;
use linear::Problem;
use opb_read::{OpbCode, OpbFault, read};
use proof_log::Log;
use propagate::Propagator;
use search::{Brancher, Found, Solved, Solver};
use std::alloc::Global;
use watch::WatchPropagator;

/// An outcome, and the bytes of the proof, of which there are none where there is no log, or its proof is not written.
#[derive(Drop)]
pub struct Decided {
    pub outcome: Outcome,
    pub proof: Vec<u8>,
}

/// Solves a problem: reads it, searches, learning from `limit - 1` conflicts at most, has the proof checked that the search wrote,
/// and says what came of it. Whatever that is, the bytes are a legal proof of some log of the problem, or there are none. `limit`
/// is at least 1; the brancher may be any.
pub fn decide(alloc: Global, opb: &[u8], limit: u64, brancher: Box<dyn Brancher>) -> Decided
    requires { 1 ≤ limit }
    ensures outcome { IsOutcomeOf opb.now result.proof.items limit result.outcome }
    ensures proof { IsProofOrNone opb.now result.proof.items }
{
    match read(alloc, opb) {
        Ok(problem) => solved(alloc, opb, &problem, limit, brancher),
        Err(fault) => without_proof(alloc, unread(fault)),
    }
}

/// An outcome without the bytes of a proof.
fn without_proof(alloc: Global, outcome: Outcome) -> Decided
    ensures outcome { result.outcome ≡ outcome }
    ensures proof { result.proof.items ≡ [] }
{
    Decided {
        outcome,
        proof: Vec::new(alloc),
    }
}

/// What a file that is not read comes to.
fn unread(fault: OpbFault) -> Outcome
    ensures { (opb : List ℕ) → (limit : ℕ) → Denies fault.code opb → IsFaultAt opb fault.code fault.line
        → IsOutcomeOf opb [] limit result }
{
    match fault.code {
        OpbCode::OutOfMemory => Outcome::Unknown(Unanswered::Memory),
        OpbCode::UnsupportedForm => Outcome::Unsupported(fault),
        OpbCode::IntegerTooLarge => Outcome::Unsupported(fault),
        OpbCode::TooMany => Outcome::Unsupported(fault),
        _ => Outcome::NotOpb(fault),
    }
}

/// Searches a problem that was read, and has the proof checked.
fn solved(
    alloc: Global,
    opb: &[u8],
    problem: &Problem,
    limit: u64,
    brancher: Box<dyn Brancher>,
) -> Decided
    requires limit { 1 ≤ limit }
    requires spelled { Spells opb.now problem.now }
    requires within { IsWithin problem.now }
    ensures outcome { IsOutcomeOf opb.now result.proof.items limit result.outcome }
    ensures proof { IsProofOrNone opb.now result.proof.items }
{
    let Solved { found, log } = Solver::solve::<WatchPropagator>(alloc, problem, limit, brancher);
    match log {
        Some(log) => with_proof(alloc, opb, log, found),
        None => without_proof(alloc, Outcome::Unknown(Unanswered::Memory)),
    }
}

/// Takes what was found out of its log, and has the log's text checked.
fn with_proof<'a, P: Propagator>(
    alloc: Global,
    opb: &[u8],
    log: Log<'a, P>,
    found: Found,
) -> Decided
    requires spelled { Spells opb.now log.problem }
    requires within { IsWithin log.problem }
    requires borne_out { IsBorneOut log found }
    ensures outcome { (limit : ℕ) → BearsOut limit log.entry found
        → IsOutcomeOf opb.now result.proof.items limit result.outcome }
    ensures proof { IsProofOrNone opb.now result.proof.items }
{
    // That the log is a legal proof is known by its type; this makes it known here.
    log.reveal();
    let finding = finding_of(alloc, &log, found);
    // The kernel and its memory are gone before the check begins.
    match log.into_proof() {
        Ok(proof) => {
            let outcome = concluded(alloc, opb, finding, proof.as_slice());
            Decided { outcome, proof }
        }
        Err(_) => without_proof(alloc, unproved(finding)),
    }
}

/// What was found, as far as the checker accepts it: an optimum for which it runs out of memory is a solution, and that there
/// is none is no answer without its word.
fn concluded(alloc: Global, opb: &[u8], finding: Finding, proof: &[u8]) -> Outcome
    requires { (l : Logbook) × IsLogOf opb.now l × IsWritten l proof.now }
    ensures { (l : Logbook) → (limit : ℕ) → IsLogOf opb.now l → IsWritten l proof.now → IsFindingOf limit l finding
        → IsOutcomeOf opb.now proof.now limit result }
{
    let checked = accepted(alloc, opb, proof);
    match (finding, checked) {
        (Finding::Optimum(solution), Some(accepted)) => Outcome::Optimum { accepted, solution },
        (Finding::Optimum(solution), None) => Outcome::Satisfiable { solution },
        (Finding::Satisfiable(solution), _) => Outcome::Satisfiable { solution },
        (Finding::Unsatisfiable, Some(accepted)) => Outcome::Unsatisfiable { accepted },
        (Finding::Unsatisfiable, None) => Outcome::Unknown(Unanswered::Memory),
        (Finding::Open, _) => Outcome::Unknown(Unanswered::Limit),
        (Finding::Untold, _) => Outcome::Unknown(Unanswered::Memory),
    }
}

/// What was found, where there is no memory for the whole text of the proof: a solution is one without a proof too, and nothing
/// else is said.
fn unproved(finding: Finding) -> Outcome
    ensures { (opb : List ℕ) → (l : Logbook) → (limit : ℕ) → IsLogOf opb l → IsFindingOf limit l finding → IsOutcomeOf opb [] limit result }
{
    match finding {
        Finding::Optimum(solution) => Outcome::Satisfiable { solution },
        Finding::Satisfiable(solution) => Outcome::Satisfiable { solution },
        Finding::Unsatisfiable => Outcome::Unknown(Unanswered::Memory),
        Finding::Open => Outcome::Unknown(Unanswered::Memory),
        Finding::Untold => Outcome::Unknown(Unanswered::Memory),
    }
}
