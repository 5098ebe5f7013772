//! What the solver's program answers.

use super::solution::Solution;
use kernel::Accepted;
use opb_read::OpbFault;

/// Why there is no answer.
#[derive(Clone, Copy, Debug, PartialEq, Eq)]
pub enum Unanswered {
    /// The search has learned from as many conflicts as it may and met another, or has given out all ids.
    Limit,
    /// A growth was refused.
    Memory,
}

/// The answer about a problem file.
#[derive(Drop)]
pub enum Outcome {
    /// A best solution; the proof of it was accepted.
    Optimum {
        accepted: Accepted,
        solution: Solution,
    },
    /// There is no solution; the proof of it was accepted.
    Unsatisfiable {
        accepted: Accepted,
    },
    /// A solution, which satisfies the file; where there is an objective, it may not be the best.
    Satisfiable {
        solution: Solution,
    },
    /// No answer.
    Unknown(Unanswered),
    /// The file has a form or a size that is not supported.
    Unsupported(OpbFault),
    /// The file is no problem in the format.
    NotOpb(OpbFault),
}
