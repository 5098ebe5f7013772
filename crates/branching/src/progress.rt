//! How far a search has come, for whoever looks on.

use linear::Integer;

/// How far a search has come.
#[derive(Clone, Copy, Debug, PartialEq, Eq)]
pub struct Progress {
    /// From how many conflicts it has learned.
    pub conflicts: u64,
    /// How often it began anew.
    pub restarts: u64,
    /// How many of the constraints that it learned it keeps.
    pub kept: u64,
    /// What the best solution is worth; none where there is none yet, or no objective.
    pub best: Option<Integer>,
    /// What a solution is worth at least by the linear relaxation of the problem, if that was solved. It is reckoned roughly, and proved by
    /// nobody.
    pub bound: Option<Integer>,
}
