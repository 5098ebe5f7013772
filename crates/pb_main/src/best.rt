//! The best solution of a log, as it is handed out.

ghost use Rattle.std.specs.Prelude.{◌≢◌, ℕ, [], Some, IfOk};
ghost use Rattle.proof_rules.specs.Claim.{IsSolution};
ghost use Rattle.proof_rules.specs.Justified.{IsBest};
ghost use Rattle.proof_log.specs.Log.{IsWorthLeast};
ghost use Rattle.search.specs.Solving.{IsOptimum};
ghost use Rattle.pb_main.specs.Finding.{IsFindingOf};
ghost use Rattle.pb_main.specs.Outcome.{IsBestOf, IsNoOptimum};

use super::finding::Finding;
use super::solution::Solution;
use linear::Assignment;
use proof_log::Log;
use propagate::Propagator;
use std::alloc::{AllocError, Global};

/// The best solution of a log that has one.
fn best_of<'a, P: Propagator>(log: &Log<'a, P>) -> Result<Assignment, AllocError>
    requires { log.now.state.logged ≢ [] }
    ensures least { IfOk result (IsWorthLeast log.now) }
    ensures best { IfOk result (λ best. IsBest log.now.problem log.now.state.logged (Some best)) }
    ensures solution { IfOk result (λ best. IsSolution log.now.problem best) }
{
    match log.best()? {
        Some(best) => Ok(best),
        None => unreachable!(),
    }
}

/// A log's best solution with the names of the problem, and the values of the log's improving steps.
fn best_solution<'a, P: Propagator>(alloc: Global, log: &Log<'a, P>) -> Result<Solution, AllocError>
    requires { log.now.state.logged ≢ [] }
    ensures { IfOk result (IsBestOf log.now) }
{
    let values = best_of(log)?;
    let names = log.names().copy(alloc)?;
    let improved = Vec::from_slice(alloc, log.improved())?;
    Ok(Solution::new(names, values, improved))
}

/// A log's best solution, which is an optimum.
pub(crate) fn optimum<'a, P: Propagator>(alloc: Global, log: &Log<'a, P>) -> Finding
    requires { log.now.state.logged ≢ [] }
    ensures { (limit : ℕ) → IsOptimum log.now → IsFindingOf limit log.now result }
{
    match best_solution(alloc, log) {
        Ok(solution) => Finding::Optimum(solution),
        Err(_) => Finding::Untold,
    }
}

/// A log's best solution, which is not called an optimum, since the search stopped, or was asked for any solution.
pub(crate) fn best_so_far<'a, P: Propagator>(alloc: Global, log: &Log<'a, P>) -> Finding
    requires { log.now.state.logged ≢ [] }
    ensures { (limit : ℕ) → IsNoOptimum limit log.now → IsFindingOf limit log.now result }
{
    match best_solution(alloc, log) {
        Ok(solution) => Finding::Satisfiable(solution),
        Err(_) => Finding::Untold,
    }
}
