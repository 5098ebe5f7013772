//! What is seen of a run of the solver: what it prints, its exit status, and what the checker says of the proof that it hands out,
//! as if that came from anybody.

use super::rules::{Rule, brancher};
use checker::{check, verdict_text};
use pb_main::{Decided, Outcome, answer_text, decide, status};
use std::alloc::{AllocError, Global};
use std::test::Fail;

/// What is printed, the exit status, the verdict about the proof, and the proof itself.
#[derive(Drop)]
pub(crate) struct Seen {
    pub(crate) answer: Vec<u8>,
    pub(crate) status: u8,
    pub(crate) verdict: Vec<u8>,
    pub(crate) proof: Vec<u8>,
}

/// What the checker says of a proof.
fn judge(alloc: Global, opb: &[u8], proof: &[u8]) -> Result<Vec<u8>, AllocError> {
    let verdict = check(alloc, opb, proof);
    verdict_text(alloc, opb, &verdict)
}

/// What is seen of an outcome, with its proof judged once more.
fn see(alloc: Global, opb: &[u8], outcome: &Outcome, proof: Vec<u8>) -> Result<Seen, AllocError> {
    let answer = answer_text(alloc, outcome)?;
    let verdict = judge(alloc, opb, proof.as_slice())?;
    Ok(Seen {
        answer,
        status: status(outcome),
        verdict,
        proof,
    })
}

/// Solves a problem, and has the proof judged once more.
// In three functions, since what each holds may be dropped at each of its ways out, and that is dear to prove.
pub(crate) fn solve(alloc: Global, opb: &[u8], conflicts: u64, rule: Rule) -> Result<Seen, Fail> {
    let brancher = brancher(alloc, rule)?;
    let Decided { outcome, proof } = decide(alloc, opb, conflicts.max(1), brancher);
    Ok(see(alloc, opb, &outcome, proof)?)
}

impl Seen {
    /// Whether just this is printed, with this status, and this is the verdict about the proof.
    pub(crate) fn is(&self, answer: &str, status: u8, verdict: &str) -> bool {
        self.answer.as_slice() == answer.as_bytes()
            && self.status == status
            && self.verdict.as_slice() == verdict.as_bytes()
    }
}
