//! Chains of forced literals, as long as they go: pass after pass, until a constraint is falsified or a pass lists nothing.
//!
//! A constraint that was quiet may force a literal after a later one has, so one pass is not enough. Each pass but the
//! last lists a variable more, so there are at most as many as variables. In which order literals are listed does not
//! matter for what is reached (`laws::one_end`), so passes in the order of the list are as good as a queue, but for time.

ghost use Rattle.std.specs.Prelude.{◌≡◌, ◌≤◌, ◌++◌, All, IfOk, MatchOption, map};
ghost use Rattle.normal_form.specs.Normal.{variable_bound};
ghost use Rattle.propagate.specs.Chain.{IsFixpoint};
ghost use Rattle.propagate.specs.Walk.{IsFalsifiedAt, IsReasonedChain, literals_of};

use super::forced::Forced;
use super::pass::pass;
use super::trail::Trail;
use normal_form::Normal;
use std::alloc::{AllocError, Global};

/// Where a chain ends: the literals given and forced, the steps, and the place of a falsified constraint, if there is
/// one.
#[derive(Debug, Drop)]
pub(crate) struct Walk {
    pub(crate) trail: Trail,
    pub(crate) steps: Vec<Forced>,
    pub(crate) falsified: Option<usize>,
}

/// Adds forced literals to a trail, pass by pass, until a constraint is falsified or nothing more is forced.
pub(crate) fn complete(
    alloc: Global,
    constraints: &[&Normal],
    start: Trail,
) -> Result<Walk, AllocError>
    requires { All (λ n. variable_bound n.now.terms ≤ start.1) constraints.now }
    ensures chain { IfOk result (λ w. IsReasonedChain (map (λ n. n.now) constraints.now) start.0 w.steps.items) }
    ensures assigned { IfOk result (λ w. w.trail.0 ≡ start.0 ++ literals_of w.steps.items) }
    ensures end { IfOk result (λ w. MatchOption w.falsified
        (IsFixpoint (map (λ n. n.now) constraints.now) w.trail.0)
        (IsFalsifiedAt (map (λ n. n.now) constraints.now) w.trail.0)) }
{
    let mut trail = start;
    let mut steps = Vec::new(alloc);
    loop {
        let before = trail.len();
        let falsified = pass(constraints, &mut trail, &mut steps)?;
        if falsified.is_some() {
            return Ok(Walk {
                trail,
                steps,
                falsified,
            });
        }
        if trail.len() == before {
            return Ok(Walk {
                trail,
                steps,
                falsified: None,
            });
        }
    }
}
