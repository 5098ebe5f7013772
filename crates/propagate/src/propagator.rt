//! What every propagator can do, however it does it.
//!
//! A propagator is a finite map from ids to constraints that can be asked what follows by unit propagation. Its meaning is
//! that map alone (`content`), so that a kernel that is proved over any propagator stays proved when a faster one takes
//! the place of a plain one: counters, queues and trails that an implementation keeps between calls never show. That is
//! also why the questions take `&mut self`: they may change what is kept, and leave the content as it is.
//!
//! The constraints count as a list by rising id, since the definitions of chains and of refutation are about lists; laws
//! say that order and copies in the list do not matter.

ghost use Rattle.std.specs.Prelude.{◌≡◌, [], ◌∷◌, ◌++◌, ◌↔◌, IfOk, IsTrue, OnErr, OnOk, None};
ghost use Rattle.std.specs.Option.{option_copied};
ghost use Rattle.std.specs.FinMap as map;
ghost use Rattle.std.specs.Ordering.{nat_cmp};
ghost use Rattle.normal_form.specs.Normal.{NormalConstraint};
ghost use Rattle.propagate.specs.Chain.{IsRefuted};
ghost use Rattle.propagate.specs.Content.{AddsOccurrences, IsLeastAbove, AreDecided, AreTaken, IsTrace};
ghost use Rattle.propagate.specs.Literals.{IsConsistent};
ghost use Rattle.propagate.specs.Reach.{IsReach, IsRetrace};

use super::ids::Ids;
use super::reach::Reach;
use super::retrace::Retrace;
use super::trace::{Decided, Trace};
use linear::Lit;
use normal_form::Normal;
use std::alloc::{AllocError, Global};

/// The number by which a constraint is named.
pub type Id = u32;

/// A finite map from ids to constraints, with unit propagation over all of them.
pub trait Propagator: Drop {
    /// The constraints by their ids.
    ghost content: { Self → map.FinMap nat_cmp NormalConstraint };

    /// No constraint yet.
    fn empty(alloc: Global) -> Self
        ensures { content result ≡ map.empty };

    /// Puts in a constraint under an id that is not there.
    fn insert(&mut self, id: Id, constraint: Normal) -> Result<(), AllocError>
        requires { map.get (content self.old) id ≡ None }
        ensures ok { OnOk result (content self.new ≡ map.insert (content self.old) id constraint) }
        ensures err { OnErr result (content self.new ≡ content self.old) };

    /// Takes out the constraint of an id, if there is one.
    fn remove(&mut self, id: Id) -> Option<Normal>
        ensures value { result ≡ map.get (content self.old) id }
        ensures removed { content self.new ≡ map.remove (content self.old) id };

    /// The constraint of an id, if there is one.
    fn get(&self, id: Id) -> Option<&Normal>
        ensures { option_copied result ≡ map.get (content self.now) id };

    /// The least id above another that has a constraint.
    fn after(&self, id: Id) -> Option<Id>
        ensures { IsLeastAbove (content self.now) id result };

    /// Adds the ids of the constraints that have a literal to a set. Where memory runs out the set is gone.
    fn with_occurrences(&mut self, literal: Lit, ids: Ids) -> Result<Ids, AllocError>
        ensures content { content self.new ≡ content self.old }
        ensures added { IfOk result (AddsOccurrences (content self.old) literal ids) };

    /// Whether the constraints are refuted together with some extra ones: whether a chain from nothing leads to one of
    /// them with negative slack.
    fn refute(&mut self, extras: &[Normal]) -> Result<bool, AllocError>
        ensures content { content self.new ≡ content self.old }
        ensures value { IfOk result (λ yes. IsTrue yes ↔ IsRefuted (map.values (content self.old) ++ extras.now)) };

    /// What an assignment extends to: `Conflict` exactly where it has a literal and its opposite or a chain from it leads to
    /// negative slack, else exactly the given and forced literals, each once.
    fn extend(&mut self, given: &[Lit]) -> Result<Reach, AllocError>
        ensures content { content self.new ≡ content self.old }
        ensures value { IfOk result (IsReach (map.values (content self.old)) given.now) };

    /// The same, told by what is new: how many of the literals that are known stay, the first ones, and those that stand behind them. No clause
    /// says which ids are named beside them, or with a conflict.
    fn retrace(&mut self, given: &[Lit], known: &[Lit]) -> Result<Retrace, AllocError>
        ensures content { content self.new ≡ content self.old }
        ensures value { IfOk result (IsRetrace (map.values (content self.old)) given.now known.now) };

    /// A chain from an assignment without opposites, with its reasons, to a constraint with negative slack or to the end:
    /// a conflict is named exactly where `extend` answers one.
    fn trace(&mut self, given: &[Lit]) -> Result<Trace, AllocError>
        requires { IsConsistent given.now }
        ensures content { content self.new ≡ content self.old }
        ensures value { IfOk result (IsTrace (content self.old) given.now) };

    /// The same for literals that are decided one after another behind an assignment, where what follows from the assignment alone may be left
    /// out: so where the literals of the assignment were asked about before, a propagator that keeps what it found tells what each decision
    /// forces, and no more. The first one is decided in any case. Which of the others are decided is up to the propagator, and whoever asks
    /// looks each one up: that they come in their order, free, and none behind a conflict, is in no clause. A search that asks about many at a
    /// time has its assignment gone over once for all of them.
    fn trace_each(
        &mut self,
        before: &[Lit],
        first: Lit,
        more: &[Lit],
    ) -> Result<Vec<Decided>, AllocError>
        requires { IsConsistent (before.now ++ first ∷ []) }
        ensures content { content self.new ≡ content self.old }
        ensures decided { IfOk result (λ v. AreDecided (content self.old) before.now v.items) }
        ensures taken { IfOk result (λ v. AreTaken first more.now v.items) };
}
