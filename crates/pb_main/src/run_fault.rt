//! How a run ends that could not write all.

use super::outcome::Outcome;

/// A push that failed, which its sink has counted.
#[derive(Drop)]
pub enum RunFault {
    /// A push of the proof failed, and nothing of an answer was pushed.
    ProofWrite,
    /// A push of this outcome's answer failed. What was taken before is a beginning of the answer.
    AnswerWrite(Outcome),
}
