//! What is found of a clause when a literal of a row falls, and how the row is gone on with.

use super::pair::Pair;

/// What became of the clause.
#[derive(Clone, Copy, Debug)]
pub(crate) enum Finding {
    /// It is not watched by the literal that fell.
    Elsewhere,
    /// One of the two literals that watch it is true.
    Satisfied,
    /// All its literals are false, with those that are still to be propagated.
    Falsified,
    /// All its other literals are false but the second one that watches it, which is forced.
    Last,
    /// Another literal that is open watches it from now on, beside the one that stays.
    Moved(Move),
}

/// The two literals that watch a clause from now on, and the index at which the first of them stands in its list until then.
#[derive(Clone, Copy, Debug)]
pub(crate) struct Move {
    pub(crate) index: usize,
    pub(crate) pair: Pair,
}

/// How a row is gone on with.
#[derive(Clone, Copy, Debug)]
pub(crate) enum Progress {
    /// With the entry at an index.
    At(usize),
    /// Not at all, since the clause at a place is falsified.
    Falsified(usize),
}
