//! What is asked of constraints by propagation, as a value.
//!
//! A solver asks through the layers that hold the constraints: a log, a kernel, a database. None of them need know what is asked, so each hands
//! a question on by one call; a new one is a type here, a method of the propagators, and whoever asks it.

ghost use Rattle.std.specs.Prelude.{◌≡◌, [], ◌∷◌, ◌++◌, ⊤, IfOk};
ghost use Rattle.std.specs.FinMap as map;
ghost use Rattle.std.specs.Ordering.{nat_cmp};
ghost use Rattle.normal_form.specs.Normal.{NormalConstraint};
ghost use Rattle.propagate.specs.Content.{AreDecided, AreTaken, IsTrace};
ghost use Rattle.propagate.specs.Literals.{IsConsistent};
ghost use Rattle.propagate.specs.Reach.{IsReach, IsRetrace};

use super::propagator::Propagator;
use super::reach::Reach;
use super::retrace::Retrace;
use super::trace::{Decided, Trace};
use linear::Lit;
use std::alloc::AllocError;

/// A question about what follows from constraints, which any propagator answers.
pub trait Question: Drop {
    type Answer: Drop;

    /// What has to be so for it to be asked.
    ghost may_ask: { Self → Type 0 };

    /// What an answer says of the constraints by their ids.
    ghost answers: { Self → map.FinMap nat_cmp NormalConstraint → Self.Answer → Type 0 };

    /// The answer of a propagator.
    fn ask<P: Propagator>(self, propagator: &mut P) -> Result<Self::Answer, AllocError>
        requires { may_ask self }
        ensures content { P.content propagator.new ≡ P.content propagator.old }
        ensures answer { IfOk result (answers self (P.content propagator.old)) };
}

/// What an assignment extends to: `Conflict` exactly where it has a literal and its opposite or a chain from it leads to
/// negative slack, else exactly the given and forced literals, each once.
#[derive(Drop)]
pub struct Extending<'a> {
    pub given: &'a [Lit],
}

impl<'a> Question for Extending<'a> {
    type Answer = Reach;

    ghost may_ask = { λ q. ⊤ };

    ghost answers = { λ q live. IsReach (map.values live) q.given.now };

    fn ask<P: Propagator>(self, propagator: &mut P) -> Result<Reach, AllocError> {
        propagator.extend(self.given)
    }
}

/// The same, told by what is new: how many of the literals that are known stay, the first ones, and those that stand behind them, each with the id
/// of a constraint that is said to force it, where one is named: no clause says that it does.
#[derive(Drop)]
pub struct Retracing<'a> {
    pub given: &'a [Lit],
    pub known: &'a [Lit],
}

impl<'a> Question for Retracing<'a> {
    type Answer = Retrace;

    ghost may_ask = { λ q. ⊤ };

    ghost answers = { λ q live. IsRetrace (map.values live) q.given.now q.known.now };

    fn ask<P: Propagator>(self, propagator: &mut P) -> Result<Retrace, AllocError> {
        propagator.retrace(self.given, self.known)
    }
}

/// A chain from an assignment without opposites, with its reasons, to a constraint with negative slack or to the end: a conflict is named
/// exactly where what the assignment extends to is one.
#[derive(Drop)]
pub struct Tracing<'a> {
    pub given: &'a [Lit],
}

impl<'a> Question for Tracing<'a> {
    type Answer = Trace;

    ghost may_ask = { λ q. IsConsistent q.given.now };

    ghost answers = { λ q live. IsTrace live q.given.now };

    fn ask<P: Propagator>(self, propagator: &mut P) -> Result<Trace, AllocError> {
        propagator.trace(self.given)
    }
}

/// The same for literals that are decided one after another behind an assignment, where what follows from the assignment alone may be left
/// out. So whoever asks about some literals after others is told of each what it forces. The first one is decided in any case. Which of the
/// others are is up to the propagator, and whoever asks looks each one up: that they come in their order, free, and none behind a conflict, is
/// in no clause.
#[derive(Drop)]
pub struct Deciding<'a> {
    pub before: &'a [Lit],
    pub first: Lit,
    pub more: &'a [Lit],
}

impl<'a> Question for Deciding<'a> {
    type Answer = Vec<Decided>;

    ghost may_ask = { λ q. IsConsistent (q.before.now ++ q.first ∷ []) };

    ghost answers = { λ q live decided. AreDecided live q.before.now decided.items × AreTaken q.first q.more.now decided.items };

    fn ask<P: Propagator>(self, propagator: &mut P) -> Result<Vec<Decided>, AllocError> {
        propagator.trace_each(self.before, self.first, self.more)
    }
}
