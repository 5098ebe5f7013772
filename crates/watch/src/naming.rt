//! Chains told by ids in place of places.
//!
//! A place means nothing outside: it is the id of its constraint that names a reason. Ids are looked up by place, so
//! that a chain is told in its own length.

ghost use Rattle.std.specs.Prelude.{◌≡◌, ◌<◌, All, IfOk, IfSome, length, map};
ghost use Rattle.watch.specs.Steps.{IsTraceOf, step_named};

use super::chain::{Chain, Step};
use linear::{Lit, Seq};
use propagate::{Id, Trace};
use std::alloc::{AllocError, Global};

/// The steps with ids for the places of their reasons.
fn with_ids(alloc: Global, steps: &[Step], ids: &[Id]) -> Result<Vec<(Lit, Id)>, AllocError>
    requires { All (λ s. s.place < length ids.now) steps.now }
    ensures { IfOk result (λ v. v.items ≡ map (step_named ids.now) steps.now) }
{
    let mut forced = Vec::with_capacity(alloc, steps.len())?;
    for step in steps {
        forced.push((step.literal, ids[step.place]))?;
    }
    Ok(forced)
}

/// A chain with ids for the places of its reasons, and of what is falsified at its end.
pub(crate) fn trace_of(alloc: Global, chain: Chain, ids: &[Id]) -> Result<Trace, AllocError>
    requires steps { All (λ s. s.place < length ids.now) chain.steps.items }
    requires falsified { IfSome chain.falsified (λ place. place < length ids.now) }
    ensures { IfOk result (IsTraceOf ids.now chain) }
{
    let Chain { steps, falsified } = chain;
    Ok(Trace {
        forced: Seq::from_vec(with_ids(alloc, steps.as_slice(), ids)?),
        conflict: falsified.map(|place| ids[place]),
    })
}
