//! What an assignment extends to, told by what is new in it.
//!
//! A search that goes back by some decisions, or learns a constraint, knows nearly all that its decisions extend to. So it hands in what it
//! knows, and is told how many of these literals stay, the first ones, and which stand behind them in place of the others. A propagator that
//! keeps a trail compares it with what is known and tells the end of it, so that the search pays for what has changed. One that keeps
//! nothing tells all.

ghost use Rattle.std.specs.Prelude.{◌≡◌, IfOk, List, map};
ghost use Rattle.linear.specs.declared.term.Lit.{Lit};
ghost use Rattle.normal_form.specs.Normal.{NormalConstraint};
ghost use Rattle.propagate.specs.Reach.{IsReach, IsRetrace};

use super::propagator::Id;
use super::reach::Reach;
use linear::{Lit, Seq};
use std::alloc::{AllocError, Global};

/// How far an assignment extends.
#[derive(Clone, Copy, Debug)]
pub enum Extent {
    /// To all that it forces.
    Closed,
    /// To a conflict: the constraint of this id is said to have negative slack under what is told: no clause says that it has.
    Falsified(Id),
    /// To a conflict of which no constraint is named, as where a literal is given whose opposite is given or forced.
    Clash,
}

/// What an assignment extends to, beside what was known of it.
#[derive(Debug, Drop)]
pub struct Retrace {
    /// How many of the literals that were known stay: the first ones.
    pub kept: usize,
    /// The literals behind them, each with the id of a constraint that is said to force it, where one is named: no clause says that it does, nor
    /// that a given literal has none.
    pub rest: Seq<(Lit, Option<Id>)>,
    pub extent: Extent,
}

/// Literals of which no reason is named.
fn without_reasons(alloc: Global, literals: &[Lit]) -> Result<Vec<(Lit, Option<Id>)>, AllocError>
    ensures { IfOk result (λ v. map (λ p. p.0) v.items ≡ literals.now) }
{
    let mut told = Vec::with_capacity(alloc, literals.len())?;
    for literal in literals {
        told.push((*literal, None))?;
    }
    Ok(told)
}

impl Retrace {
    /// All that an assignment extends to, as if nothing of it was known, with no reason named.
    pub(crate) fn of_reach(alloc: Global, reach: Reach) -> Result<Self, AllocError>
        ensures { (constraints : List NormalConstraint) (given known : List Lit) → IsReach constraints given reach
            → IfOk result (IsRetrace constraints given known) }
    {
        match reach {
            Reach::Conflict => Ok(Retrace {
                kept: 0,
                rest: Seq::from_vec(Vec::new(alloc)),
                extent: Extent::Clash,
            }),
            Reach::Closed(closed) => Ok(Retrace {
                kept: 0,
                rest: Seq::from_vec(without_reasons(alloc, closed.as_slice())?),
                extent: Extent::Closed,
            }),
        }
    }
}
