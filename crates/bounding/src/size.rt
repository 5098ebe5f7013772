//! How large a problem may be for its relaxation to be asked.
//!
//! With an objective one call may end the search, and so a problem may be far larger than one without: of that the relaxation mostly leads the
//! choice alone, and where it is large says too little for what a call takes.

use linear::Problem;

/// A problem with an objective may be so large.
const PRICED: Size = Size {
    variables: 500_000,
    terms: 1_000_000,
};

/// A problem without an objective may be so large.
const PLAIN: Size = Size {
    variables: 20_000,
    terms: 60_000,
};

/// How large a problem may be.
#[derive(Clone, Copy, Debug)]
pub(crate) struct Size {
    /// How many variables it may have.
    pub(crate) variables: usize,
    /// How many terms its rows may have together.
    pub(crate) terms: usize,
}

/// How large a problem like this may be.
pub(crate) fn largest_size(problem: &Problem) -> Size {
    if problem.objective().is_some() {
        PRICED
    } else {
        PLAIN
    }
}
