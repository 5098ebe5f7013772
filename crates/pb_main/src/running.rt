//! The solver's whole run, to the last byte that it writes: the outcome is decided, and its proof checked; then the proof goes to
//! its sink, and the answer to the other one. So nothing is said before it is known, and nothing without the proof that was
//! asked for.

ghost use Rattle.std.specs.Prelude.{◌≡◌, ◌≤◌, ◌<◌, ℕ, List, IfSome, OnErr, OnOk, option_map};
ghost use Rattle.pb_main.specs.Answer.{answer};
ghost use Rattle.pb_main.specs.Pushed.{HaveGoneToAny, HavePartlyGone};
ghost use Rattle.pb_main.specs.Running.{HasAnswered, HasRun, IsDecided};

use super::answer::answer_text;
use super::deciding::decide;
use super::outcome::{Outcome, Unanswered};
use super::pushing::push_all;
use super::run_fault::RunFault;
use pb_text::{DeviceFault, Sink};
use search::Brancher;
use std::alloc::Global;

/// Pushes a proof, where there is a sink for it.
fn push_proof<T: Sink>(proof_out: &mut Option<T>, proof: &[u8]) -> Result<(), DeviceFault>
    requires { IfSome (option_map T.state proof_out.old) (λ sink. sink.failures < u64.MAX) }
    ensures ok { OnOk result (HaveGoneToAny proof.now (option_map T.state proof_out.old) (option_map T.state proof_out.new)) }
    ensures failed { OnErr result (HavePartlyGone proof.now (option_map T.state proof_out.old) (option_map T.state proof_out.new)) }
{
    match proof_out {
        Some(sink) => push_all(sink, proof),
        None => Ok(()),
    }
}

/// Pushes the text of an outcome.
fn push_text<S: Sink>(outcome: Outcome, text: &[u8], out: &mut S) -> Result<Outcome, RunFault>
    requires failures { (S.state out.old).failures < u64.MAX }
    requires text { text.now ≡ answer outcome }
    ensures { (opb proof : List ℕ) (limit : ℕ) → IsDecided opb proof limit outcome
        → HasAnswered opb proof limit (S.state out.old) (S.state out.new) result }
{
    match push_all(out, text) {
        Ok(()) => Ok(outcome),
        Err(_) => Err(RunFault::AnswerWrite(outcome)),
    }
}

/// Pushes the answer of an outcome; where there is no memory for its text, that memory ran out, whose text is a constant.
fn push_answer<S: Sink>(alloc: Global, outcome: Outcome, out: &mut S) -> Result<Outcome, RunFault>
    requires { (S.state out.old).failures < u64.MAX }
    ensures { (opb proof : List ℕ) (limit : ℕ) → IsDecided opb proof limit outcome
        → HasAnswered opb proof limit (S.state out.old) (S.state out.new) result }
{
    match answer_text(alloc, &outcome) {
        Ok(text) => push_text(outcome, text.as_slice(), out),
        Err(_) => push_text(
            Outcome::Unknown(Unanswered::Memory),
            b"c memory\ns UNKNOWN\n",
            out,
        ),
    }
}

/// Solves a problem (the linear OPB format) and writes the proof (VeriPB 2.0, this product's profile), where there is a sink for
/// it, and then the answer, in the words of the pseudo-Boolean competition. `limit` is at least 1, and the brancher may be any:
/// the search learns from `limit - 1` conflicts at most. Before an optimum is said, or that there is no solution, the
/// checker has accepted the very bytes of the proof.
///
/// The result is the outcome whose answer was pushed, whole. `ProofWrite` where a push of the proof failed; then nothing is pushed
/// as an answer. `AnswerWrite` where a push of the answer failed. Where there is no memory for the answer's text, that is
/// the answer. Each sink must be able to count one failure more.
pub fn run<S: Sink, T: Sink>(
    alloc: Global,
    opb: &[u8],
    limit: u64,
    brancher: Box<dyn Brancher>,
    out: &mut S,
    proof_out: &mut Option<T>,
) -> Result<Outcome, RunFault>
    requires limit { 1 ≤ limit }
    requires out { (S.state out.old).failures < u64.MAX }
    requires proof_out { IfSome (option_map T.state proof_out.old) (λ sink. sink.failures < u64.MAX) }
    ensures { HasRun opb.now limit (S.state out.old) (S.state out.new) (option_map T.state proof_out.old) (option_map T.state proof_out.new) result }
{
    let decided = decide(alloc, opb, limit, brancher);
    match push_proof(proof_out, decided.proof.as_slice()) {
        Ok(()) => push_answer(alloc, decided.outcome, out),
        Err(_) => Err(RunFault::ProofWrite),
    }
}
