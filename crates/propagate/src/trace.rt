//! What an assignment forces, step by step and with reasons: what a solver that learns from conflicts asks for.

ghost use Rattle.std.specs.Prelude.{◌≡◌, ◌<◌, [], ◌∷◌, All, IfOk, IfSome, length, map, slice_index_or};
ghost use Rattle.std.specs.Option.{option_map};
ghost use Rattle.propagate.specs.Literals.{IsConsistent};
ghost use Rattle.propagate.specs.TraceByPlaces.{named};

use super::assigned::literal_count;
use super::forced::Forced;
use super::propagator::Id;
use super::refutation::variable_count;
use super::trail::Trail;
use super::walk::{Walk, complete};
use linear::{Lit, Seq};
use normal_form::Normal;
use std::alloc::{AllocError, Global};

/// Each literal that is forced, with the id of a constraint that forces it under the assignment and the literals before
/// it; and the id of a constraint that then has negative slack, if there is one.
#[derive(Debug, Drop)]
pub struct Trace {
    pub forced: Seq<(Lit, Id)>,
    pub conflict: Option<Id>,
}

/// A literal that is decided, and what it forces behind what was decided before it.
#[derive(Debug, Drop)]
pub struct Decided {
    pub literal: Lit,
    pub trace: Trace,
}

/// One decision, in a list of its own.
pub fn decided_alone(alloc: Global, literal: Lit, trace: Trace) -> Result<Vec<Decided>, AllocError>
    ensures { IfOk result (λ v. v.items ≡ record { literal = literal; trace = trace } ∷ []) }
{
    let mut decided = Vec::new(alloc);
    decided.push(Decided { literal, trace })?;
    Ok(decided)
}

/// The steps with ids for the places of their reasons.
fn with_ids(alloc: Global, steps: &[Forced], ids: &[Id]) -> Result<Vec<(Lit, Id)>, AllocError>
    requires { All (λ s. s.reason < length ids.now) steps.now }
    ensures { IfOk result (λ v. v.items ≡ map (named ids.now) steps.now) }
{
    let mut forced = Vec::with_capacity(alloc, steps.len())?;
    for step in steps {
        forced.push((step.literal, ids[step.reason]))?;
    }
    Ok(forced)
}

impl Trace {
    ghost use Rattle.propagate.specs.TraceByPlaces.{IsTraceByPlaces, named};

    /// What a walk says, with ids for the places of constraints.
    fn from_walk(alloc: Global, walk: Walk, ids: &[Id]) -> Result<Trace, AllocError>
        requires steps { All (λ s. s.reason < length ids.now) walk.steps.items }
        requires falsified { IfSome walk.falsified (λ place. place < length ids.now) }
        ensures forced { IfOk result (λ t. t.forced ≡ map (named ids.now) walk.steps.items) }
        ensures conflict { IfOk result (λ t. t.conflict ≡ option_map (λ place. slice_index_or ids.now place 0) walk.falsified) }
    {
        let Walk {
            trail: _,
            steps,
            falsified,
        } = walk;
        Ok(Trace {
            forced: Seq::from_vec(with_ids(alloc, steps.as_slice(), ids)?),
            conflict: falsified.map(|place| ids[place]),
        })
    }

    /// The trace of an assignment over constraints, which have these ids.
    pub(crate) fn of(
        alloc: Global,
        constraints: &[&Normal],
        ids: &[Id],
        given: &[Lit],
    ) -> Result<Trace, AllocError>
        requires consistent { IsConsistent given.now }
        requires count { length ids.now ≡ length constraints.now }
        ensures { IfOk result (IsTraceByPlaces (map (λ n. n.now) constraints.now) ids.now given.now) }
    {
        let count = variable_count(constraints).max(literal_count(given));
        match Trail::of(alloc, count, given)? {
            Some(start) => Trace::from_walk(alloc, complete(alloc, constraints, start)?, ids),
            None => unreachable!(),
        }
    }
}
