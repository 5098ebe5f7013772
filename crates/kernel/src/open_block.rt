//! The open block of a `red` step with subproofs: the constraint that its end is to add, the witness of its goals, which of these
//! were opened, and from which ids on the constraints of the block, and of its open goal, stand. These constraints themselves are
//! live beside all others, in the one propagator, so that what `pol` and `rup` do in a block is what they do outside; and an end takes
//! them out by their ids.

ghost use Rattle.std.specs.Prelude.{◌≡◌, ◌<◌, ◌↔◌, true, false, None, IfOk, IsTrue, MatchOption, OnErr, OnOk};
ghost use Rattle.substitution.specs.Under.{IsUnder};
ghost use Rattle.proof_rules.specs.Block.{IsUnopened, new_block, with_goal};
ghost use Rattle.proof_rules.specs.State.{id_limit};
ghost use Rattle.kernel.specs.Place.{IsNameWithin};

use database::id_of;
use normal_form::Normal;
use proof_steps::GoalName;
use propagate::{Id, Ids};
use std::alloc::{AllocError, Global};
use std::marker::Model;
use substitution::{Substitution, apply};

/// Where a step stands.
#[derive(Clone, Copy, Debug)]
pub(crate) enum Place {
    /// Outside blocks.
    Outside,
    /// In a block, where no goal is open.
    Block,
    /// In a goal, whose negation has this id.
    Goal(Id),
}

/// An open block.
#[derive(Drop)]
pub(crate) struct OpenBlock {
    pub(crate) constraint: Normal,
    pub(crate) witness: Substitution,
    /// The id of the constraint's negation.
    pub(crate) first: Id,
    /// The live constraints whose goals were opened.
    pub(crate) opened: Ids,
    /// Whether the goal of the constraint itself was opened, `#1`.
    pub(crate) itself: bool,
    /// Whether the goal of the objective was opened, `#2`.
    pub(crate) objective: bool,
    /// The id of the negation of the open goal.
    goal: Option<Id>,
}

impl Model for OpenBlock {
    ghost use Rattle.proof_rules.specs.Codes.{block_code};
    ghost use Rattle.proof_rules.specs.State.{Block};

    ghost Value = { Block };

    ghost coded = { block_code };

    ghost view = { λ b. record {
      constraint = b.constraint;
      images = b.witness;
      first = b.first;
      opened = b.opened;
      itself = b.itself;
      objective = b.objective;
      goal = b.goal;
    } };
}

impl OpenBlock {
    /// A block for a constraint whose negation takes an id, in which no goal was opened yet.
    pub(crate) fn new(
        alloc: Global,
        constraint: Normal,
        witness: &Substitution,
        first: u64,
    ) -> Result<Self, AllocError>
        requires { first < id_limit }
        ensures { IfOk result (λ block. block ≡ new_block constraint witness.now first) }
    {
        Ok(OpenBlock {
            constraint,
            witness: copied(alloc, witness)?,
            first: first as u32,
            opened: Ids::empty(alloc),
            itself: false,
            objective: false,
            goal: None,
        })
    }

    /// Where a step in the block stands.
    pub(crate) fn place(&self) -> Place
        ensures { MatchOption self.now.goal (result ≡ Place.Block) (λ first. result ≡ Place.Goal first) }
    {
        match self.goal {
            None => Place::Block,
            Some(first) => Place::Goal(first),
        }
    }

    /// Whether a live constraint is from before the block, and its goal was not opened.
    pub(crate) fn is_unopened(&self, id: Id) -> bool
        ensures { IsTrue result ↔ IsUnopened self.now id }
    {
        id < self.first && !self.opened.contains(id)
    }

    /// What the new constraint becomes, unless that goal was opened.
    pub(crate) fn own_goal(&self, alloc: Global) -> Result<Option<Normal>, AllocError>
        ensures { IfOk result (λ goal. MatchOption goal (self.now.itself ≡ true)
            (λ r. (self.now.itself ≡ false) × IsUnder self.now.constraint self.now.images r)) }
    {
        if self.itself {
            return Ok(None);
        }
        Ok(Some(apply(alloc, &self.constraint, &self.witness)?))
    }

    /// Notes that a goal is opened, whose negation takes the next id.
    pub(crate) fn note(&mut self, name: GoalName, next: u64) -> Result<(), AllocError>
        requires room { next < id_limit }
        requires name { IsNameWithin next name }
        ensures ok { OnOk result (self.new ≡ with_goal next name self.old) }
        ensures err { OnErr result (self.new ≡ self.old) }
    {
        match name {
            GoalName::Live(number) => {
                let Some(id) = id_of(next, number) else {
                    unreachable!();
                };
                self.opened.insert(id)?;
            }
            GoalName::Itself => self.itself = true,
            GoalName::Objective => self.objective = true,
        }
        self.goal = Some(next as u32);
        Ok(())
    }

    /// Notes that the open goal is closed.
    pub(crate) fn close_goal(&mut self)
        ensures { self.new ≡ record self.old { goal = None } }
    {
        self.goal = None;
    }
}

/// Another substitution that is the same.
fn copied(alloc: Global, witness: &Substitution) -> Result<Substitution, AllocError>
    ensures { IfOk result (λ copy. copy ≡ witness.now) }
{
    let images = Vec::from_slice(alloc, witness.as_slice())?;
    match Substitution::new(alloc, images)? {
        Some(copy) => Ok(copy),
        None => unreachable!(),
    }
}
