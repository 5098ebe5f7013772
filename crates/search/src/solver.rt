//! The search: the log of a problem is presolved, and a run goes on from there until something is found.
//!
//! All that is known stands in one log, which is a legal proof by its type, so that nothing here can make a false answer: a
//! turn may choose badly, and costs time alone.

ghost use Rattle.std.specs.Prelude.{◌≡◌, ◌<◌, ◌≤◌, [], IfOk};
ghost use Rattle.search.specs.Presolving.{BeginsPresolved};
ghost use Rattle.search.specs.Solving.{IsSolved};

use super::advisers::Advisers;
use super::found::{Found, Unfinished};
use super::presolving::presolve;
use super::run::Run;
use super::standing::Standing;
use branching::Brancher;
use linear::Problem;
use proof_log::Log;
use propagate::Propagator;
use std::alloc::{AllocError, Global};

/// What a search has found, and the proof of it.
#[derive(Drop)]
pub struct Solved<'a, P: Propagator> {
    pub found: Found,
    /// None exactly where memory ran out.
    pub log: Option<Log<'a, P>>,
}

/// The log of a problem, presolved.
fn begin<'a, P: Propagator>(alloc: Global, problem: &'a Problem) -> Result<Log<'a, P>, AllocError>
    ensures problem { IfOk result (λ log. log.problem ≡ problem.now) }
    ensures biting { IfOk result (λ log. log.biting ≡ 0) }
    ensures presolved { IfOk result (BeginsPresolved problem.now) }
{
    let mut log = Log::new(alloc, problem)?;
    presolve(alloc, &mut log)?;
    Ok(log)
}

/// Takes a run that begins to its end, and hands out what was found with the log that bears it out.
fn finish<'a, P: Propagator>(run: Run<'a, P>, limit: u64) -> Result<Solved<'a, P>, AllocError>
    requires decisions { run.decisions.items ≡ [] }
    requires within { run.log.biting < limit }
    requires presolved { BeginsPresolved run.log.problem run.log }
    ensures { IfOk result (λ solved. IsSolved run.entry.log.problem limit solved.found solved.log) }
{
    let mut run = run;
    let found = run.finish(limit)?;
    Ok(Solved {
        found,
        log: Some(run.into_log()),
    })
}

/// Searches, and hands out what was found with the log that bears it out.
// In three functions, since what each holds may be dropped at each of its ways out, and that is dear to prove.
fn search<'a, P: Propagator>(
    alloc: Global,
    problem: &'a Problem,
    limit: u64,
    brancher: Box<dyn Brancher>,
) -> Result<Solved<'a, P>, AllocError>
    requires { 1 ≤ limit }
    ensures { IfOk result (λ solved. IsSolved problem.now limit solved.found solved.log) }
{
    let log = begin(alloc, problem)?;
    let standing = Standing::new(alloc, log.names().len())?;
    let advisers = Advisers::new(alloc, &log, brancher)?;
    finish(Run::new(alloc, log, standing, advisers), limit)
}

/// Searches problems.
#[derive(Clone, Copy, Debug, PartialEq, Eq)]
pub struct Solver;

impl Solver {
    /// Searches a problem for a best solution, or for any where there is no objective. It learns from
    /// `limit - 1` conflicts at most: at the next one it stops, unless no decision is open there. It stops, too, where no id
    /// is left.
    pub fn solve<'a, P: Propagator>(
        alloc: Global,
        problem: &'a Problem,
        limit: u64,
        brancher: Box<dyn Brancher>,
    ) -> Solved<'a, P>
        requires { 1 ≤ limit }
        ensures { IsSolved problem.now limit result.found result.log }
    {
        match search(alloc, problem, limit, brancher) {
            Ok(solved) => solved,
            Err(_) => Solved {
                found: Found::Unknown(Unfinished::Memory),
                log: None,
            },
        }
    }
}
