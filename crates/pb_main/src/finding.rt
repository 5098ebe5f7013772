//! What a search found, taken out of its log.
//!
//! A log is given up for its text before that is checked, so that the check has the memory of the kernel. What is handed out
//! of the log beside the text is taken first, and copied: a solution, and the values that were improved to on the way.

ghost use Rattle.std.specs.Prelude.{ℕ};
ghost use Rattle.search.specs.Solving.{BearsOut};
ghost use Rattle.pb_main.specs.Checked.{IsBorneOut};
ghost use Rattle.pb_main.specs.Finding.{IsFindingOf};

use super::best::{best_so_far, optimum};
use super::solution::Solution;
use proof_log::Log;
use propagate::Propagator;
use search::{Found, Unfinished};
use std::alloc::Global;

/// What was found, with the solution that is handed out.
#[derive(Drop)]
pub(crate) enum Finding {
    /// A best solution, which is an optimum.
    Optimum(Solution),
    /// A best solution so far, or one that serves as well as any other.
    Satisfiable(Solution),
    /// That there is no solution.
    Unsatisfiable,
    /// Nothing so far, where the search stopped.
    Open,
    /// A solution, for a copy of which there is no memory.
    Untold,
}

/// What was found, with the best solution of the log of it.
pub(crate) fn finding_of<'a, P: Propagator>(
    alloc: Global,
    log: &Log<'a, P>,
    found: Found,
) -> Finding
    requires { IsBorneOut log.now found }
    ensures { (limit : ℕ) → BearsOut limit log.now found → IsFindingOf limit log.now result }
{
    // That the log is a legal proof is known by its type; this makes it known here.
    log.reveal();
    match found {
        Found::Optimum => optimum(alloc, log),
        Found::Sat => best_so_far(alloc, log),
        Found::Unsat => Finding::Unsatisfiable,
        Found::Unknown(Unfinished::Limit) => Finding::Open,
        Found::Unknown(Unfinished::Memory) => unreachable!(),
    }
}
