//! What the lines of a proof say, and the sections of a proof in which they may stand.

use proof_steps::{Conclusion, Step};

/// Where in a proof a line stands: the lines that count are, in order, the header, the count, the steps and the output,
/// the conclusion and the end. Among the steps a subproof of `red` has a block, and goals in it.
#[derive(Clone, Copy, Debug, PartialEq, Eq)]
pub enum Section {
    Header,
    Count,
    Step,
    Block,
    Goal,
    Conclusion,
    End,
    After,
}

/// What a line says.
#[derive(Debug, Drop)]
pub enum Line {
    /// `pseudo-Boolean proof version 2.0`
    Header,
    /// `f N`: how many constraints the file has, an equality counted twice.
    Count(i128),
    /// A step.
    Step(Step),
    /// `output NONE`
    Output,
    /// `conclusion ..`
    Conclusion(Conclusion),
    /// `end pseudo-Boolean proof`
    End,
}
