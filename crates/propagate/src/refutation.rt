//! Whether constraints are refuted by propagation alone: the test behind a `rup` step of the VeriPB format, with the
//! negation of the step's constraint among them.

ghost use Rattle.std.specs.Prelude.{◌≤◌, ◌↔◌, All, IfOk, IsTrue, map};
ghost use Rattle.normal_form.specs.Normal.{variable_bound};
ghost use Rattle.propagate.specs.Chain.{IsRefuted};

use super::trail::Trail;
use super::walk::complete;
use normal_form::Normal;
use std::alloc::{AllocError, Global};

/// A number above all variables of some constraints.
pub(crate) fn variable_count(constraints: &[&Normal]) -> usize
    ensures { All (λ n. variable_bound n.now.terms ≤ result) constraints.now }
{
    let mut count: usize = 0;
    for constraint in constraints {
        count = count.max(constraint.variable_count());
    }
    count
}

/// Whether constraints are refuted: whether some chain of literals, each forced in one of them, leads from nothing
/// to one with negative slack.
pub(crate) fn refuted(alloc: Global, constraints: &[&Normal]) -> Result<bool, AllocError>
    ensures { IfOk result (λ yes. IsTrue yes ↔ IsRefuted (map (λ n. n.now) constraints.now)) }
{
    let nothing = Trail::with_room(alloc, variable_count(constraints))?;
    let walk = complete(alloc, constraints, nothing)?;
    Ok(walk.falsified.is_some())
}
