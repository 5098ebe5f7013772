//! The conclusions of a proof.

use linear::{Lit, Seq};

/// A lower bound of the objective.
#[derive(Clone, Copy, Debug, PartialEq, Eq)]
pub enum Lower {
    /// `-INF`: no bound.
    MinusInf,
    /// No satisfying assignment is worth less.
    At(i128),
    /// `INF`: no assignment satisfies the problem.
    Inf,
}

/// An upper bound of the objective's least value.
#[derive(Clone, Copy, Debug, PartialEq, Eq)]
pub enum Upper {
    /// Some satisfying assignment is worth no more.
    At(i128),
    /// `INF`: no bound.
    Inf,
}

/// What a proof concludes. The options are hints of literals, each judged as one more solution.
#[derive(Debug, Drop)]
pub enum Conclusion {
    /// `NONE`: nothing.
    Nothing,
    /// `SAT`: some assignment satisfies the problem.
    Sat(Option<Seq<Lit>>),
    /// `UNSAT`: no assignment satisfies the problem.
    Unsat,
    /// `BOUNDS`: bounds of the least value.
    Bounds(Lower, Upper, Option<Seq<Lit>>),
}
