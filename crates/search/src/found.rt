//! What a search answers.

/// Why a search did not come to an end.
#[derive(Clone, Copy, Debug, PartialEq, Eq)]
pub enum Unfinished {
    /// It has learned from as many conflicts as it may and met another, or has given out all ids.
    Limit,
    /// It ran out of memory.
    Memory,
}

/// What a search has found.
#[derive(Clone, Copy, Debug, PartialEq, Eq)]
pub enum Found {
    /// A solution that no other one is better than.
    Optimum,
    /// That there is no solution.
    Unsat,
    /// A solution; where there is an objective, better ones may be left.
    Sat,
    /// Neither a solution nor that there is none.
    Unknown(Unfinished),
}
