//! What an assignment of literals extends to by propagation. A solution that a VeriPB proof logs may name some of the
//! variables only: the others must follow by propagation, and then the assignment's extension is the solution.

ghost use Rattle.std.specs.Prelude.{◌<◌, ◌≤◌, All, IfOk, map};
ghost use Rattle.normal_form.specs.Normal.{variable_bound};
ghost use Rattle.propagate.specs.Literals.{IsConsistent};

use super::assigned::literal_count;
use super::refutation::variable_count;
use super::trail::Trail;
use super::walk::{Walk, complete};
use linear::{Lit, Seq};
use normal_form::Normal;
use std::alloc::{AllocError, Global};

/// A conflict: the assignment has a literal and its opposite, or a chain from it leads to a constraint with negative
/// slack. Else all literals that are given or forced.
#[derive(Debug, Drop)]
pub enum Reach {
    Conflict,
    Closed(Seq<Lit>),
}

impl Reach {
    ghost use Rattle.propagate.specs.Reach.{IsReach};

    /// What a trail extends to.
    fn from_trail(alloc: Global, constraints: &[&Normal], start: Trail) -> Result<Reach, AllocError>
        requires variables { All (λ n. variable_bound n.now.terms ≤ start.1) constraints.now }
        requires consistent { IsConsistent start.0 }
        ensures { IfOk result (IsReach (map (λ n. n.now) constraints.now) start.0) }
    {
        let Walk {
            trail,
            steps: _,
            falsified,
        } = complete(alloc, constraints, start)?;
        match falsified {
            Some(_) => Ok(Reach::Conflict),
            None => Ok(Reach::Closed(trail.into_assigned())),
        }
    }

    /// What an assignment extends to: `Conflict` exactly where it has a literal and its opposite or a chain from it
    /// leads to negative slack, else `Closed` with exactly the given and forced literals.
    pub(crate) fn of(
        alloc: Global,
        constraints: &[&Normal],
        given: &[Lit],
    ) -> Result<Reach, AllocError>
        ensures { IfOk result (IsReach (map (λ n. n.now) constraints.now) given.now) }
    {
        let count = variable_count(constraints).max(literal_count(given));
        match Trail::of(alloc, count, given)? {
            Some(start) => Reach::from_trail(alloc, constraints, start),
            None => Ok(Reach::Conflict),
        }
    }
}
