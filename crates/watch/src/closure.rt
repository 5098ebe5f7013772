//! Constraints by place, with what they force from nothing kept between calls.
//!
//! A closure from nothing only grows as constraints come in, and a question beside extra constraints goes on from it.
//! Above it stand the literals that were given last, with what they force: an assignment that begins as that one goes on
//! from where they part, and a question without given literals takes them back.
//! It is found when something is asked: a constraint that comes in only stands behind the others, so that reading a database costs no
//! walk. A constraint that goes takes with it what was given, and what was found from nothing by way of it and after
//! that, or since a question about the constraints alone (`rest`). Its place stays empty, and its entries in the lists of literals stay and
//! cost a little, until the places are made anew.

ghost use Rattle.std.specs.Prelude.{◌≡◌, ◌↔◌, ◌<◌, ◌++◌, ◌∷◌, [], ℕ, List, IfOk};
ghost use Rattle.std.specs.Prelude.{IsTrue, None, OnErr, OnOk, Some, length, slice_index_or, slice_set};
ghost use Rattle.std.specs.Option.{option_copied};
ghost use Rattle.propagate.specs.Chain.{IsRefuted};
ghost use Rattle.propagate.specs.Content.{AddsOccurrences, AreDecided, AreTaken};
ghost use Rattle.propagate.specs.Literals.{IsConsistent};
ghost use Rattle.propagate.specs.Reach.{IsReach, IsRetrace};
ghost use Rattle.ledger.specs.Ledgers.{constraint_at, shown};
ghost use Rattle.watch.specs.Named.{AreNamed, content_at};
ghost use Rattle.watch.specs.Steps.{IsFound};

use super::arrivals::Arrivals;
use super::chain::Chain;
use super::continuing::traces_of_each;
use super::extension::reach_over;
use super::lending::Occurrences;
use super::levels::Levels;
use super::refutation::refute_from_root;
use super::release::release;
use super::rest::{Rest, backtrack_to_root};
use super::retracing::retrace_over;
use super::tracing::chain_over;
use ledger::{Ledger, Queue};
use linear::Lit;
use normal_form::Normal;
use propagate::{Decided, Id, Ids, Reach, Retrace};
use std::alloc::{AllocError, Global};
use std::marker::Model;

/// Constraints by place. What is kept of them between calls does not show.
#[derive(Drop)]
pub(crate) struct Closure {
    ledger: Ledger,
    queue: Queue,
    levels: Levels,
    /// Where a question about the constraints alone ended last.
    rest: Rest,
    /// What came since something was asked last, at the places behind those of the ledger.
    arrivals: Arrivals,
    alloc: Global,
}

impl Model for Closure {
    ghost use Rattle.std.specs.Prelude.{◌++◌, List, Option};
    ghost use Rattle.normal_form.specs.Normal.{NormalConstraint};
    ghost use Rattle.ledger.specs.Ledgers.{shown};
    ghost use Rattle.watch.specs.Keeping.{IsKept};
    ghost use Rattle.watch.specs.Rests.{IsRest};

    ghost Value = { List (Option NormalConstraint) };

    ghost view = { λ c. c.ledger.slots ++ c.arrivals };

    ghost invariant = { λ c. IsKept c.ledger c.levels c.queue.0 c.queue.1 × IsRest (shown c.ledger.slots) c.ledger.propagated c.rest };
}

impl Closure {
    /// No place.
    pub(crate) fn new(alloc: Global) -> Self
        ensures { result ≡ [] }
    {
        Closure {
            ledger: Ledger::new(alloc),
            queue: Queue::new(alloc),
            levels: Levels::new(alloc),
            rest: Rest::nothing(),
            arrivals: Arrivals::new(alloc),
            alloc,
        }
    }

    /// Adds a constraint at the next place, where it waits until something is asked.
    pub(crate) fn add(&mut self, constraint: Normal) -> Result<(), AllocError>
        ensures ok { OnOk result (self.new ≡ self.old ++ Some constraint ∷ []) }
        ensures err { OnErr result (self.new ≡ self.old) }
    {
        self.arrivals.push(constraint)
    }

    /// The constraint of a place, if there is one.
    pub(crate) fn get(&self, place: usize) -> Option<&Normal>
        requires { place < length self.now }
        ensures { option_copied result ≡ slice_index_or self.now place None }
    {
        let count = self.ledger.count();
        if place < count {
            return self.ledger.get(place);
        }
        self.arrivals.get(place - count)
    }

    /// Adds the ids of the constraints that have a literal to a set, by the ids of places. Where memory runs out the set is gone.
    pub(crate) fn with_occurrences(
        &mut self,
        literal: Lit,
        ids: &[Id],
        gathered: Ids,
    ) -> Result<Ids, AllocError>
        requires { length ids.now ≡ length self.old }
        ensures slots { self.new ≡ self.old }
        ensures added { IfOk result (λ all. (places : List (ℕ × ℕ)) → AreNamed places ids.now self.old
            → AddsOccurrences (content_at self.old places) literal gathered all) }
    {
        self.arrivals
            .attach_to(self.alloc, &mut self.ledger, &mut self.queue)?;
        self.ledger.list_clauses()?;
        let entries = self.ledger.entries(literal);
        Occurrences::of(entries, &self.ledger, ids).add_to(gathered)
    }

    /// How many terms the constraint of a place has, 0 where there is none.
    pub(crate) fn term_count(&self, place: usize) -> usize
        requires { place < length self.now }
        ensures { result ≡ length (constraint_at (shown self.now) place).terms }
    {
        match self.get(place) {
            Some(constraint) => constraint.len(),
            None => 0,
        }
    }

    /// How many entries the constraint of a place leaves behind in the lists of literals when it goes: none where no question has met it. It is
    /// a measure for the order of work, so no clause speaks of it.
    pub(crate) fn entry_count(&self, place: usize) -> usize {
        if place >= self.ledger.count() {
            return 0;
        }
        match self.ledger.get(place) {
            // Two literals watch a clause.
            Some(constraint) if constraint.degree() <= 1 => constraint.len().min(2),
            Some(constraint) => constraint.len(),
            None => 0,
        }
    }

    /// How many variables there is room for.
    pub(crate) fn variable_count(&self) -> usize {
        self.ledger.variable_count()
    }

    /// Whether the constraints are refuted together with some extra ones.
    pub(crate) fn refute(&mut self, extras: &[Normal]) -> Result<bool, AllocError>
        ensures slots { self.new ≡ self.old }
        ensures value { IfOk result (λ yes. IsTrue yes ↔ IsRefuted (shown self.old ++ extras.now)) }
    {
        self.arrivals
            .attach_to(self.alloc, &mut self.ledger, &mut self.queue)?;
        backtrack_to_root(
            &mut self.ledger,
            &mut self.queue,
            &mut self.levels,
            &mut self.rest,
        );
        self.ledger.reveal();
        let answer = refute_from_root(
            self.alloc,
            &mut self.ledger,
            &mut self.queue,
            &mut self.rest,
            extras,
        );
        self.ledger.reveal();
        answer
    }

    /// What an assignment extends to: `Conflict` exactly where it has a literal and its opposite or a chain from it leads
    /// to a falsified constraint, else exactly the given and forced literals, each once.
    pub(crate) fn extend(&mut self, given: &[Lit]) -> Result<Reach, AllocError>
        ensures slots { self.new ≡ self.old }
        ensures value { IfOk result (IsReach (shown self.old) given.now) }
    {
        self.arrivals
            .attach_to(self.alloc, &mut self.ledger, &mut self.queue)?;
        self.rest = Rest::nothing();
        reach_over(
            self.alloc,
            &mut self.ledger,
            &mut self.queue,
            &mut self.levels,
            given,
        )
    }

    /// The same, told by what is new beside literals that are known, and with the ids of places.
    pub(crate) fn retrace(
        &mut self,
        given: &[Lit],
        known: &[Lit],
        ids: &[Id],
    ) -> Result<Retrace, AllocError>
        ensures slots { self.new ≡ self.old }
        ensures value { IfOk result (IsRetrace (shown self.old) given.now known.now) }
    {
        self.arrivals
            .attach_to(self.alloc, &mut self.ledger, &mut self.queue)?;
        self.rest = Rest::nothing();
        retrace_over(
            self.alloc,
            &mut self.ledger,
            &mut self.queue,
            &mut self.levels,
            given,
            known,
            ids,
        )
    }

    /// Takes the constraint of a place out, if there is one. The place stays.
    pub(crate) fn remove(&mut self, place: usize) -> Option<Normal>
        requires { place < length self.old }
        ensures value { result ≡ slice_index_or self.old place None }
        ensures slots { self.new ≡ slice_set self.old place None }
    {
        let count = self.ledger.count();
        if place >= count {
            return self.arrivals.take(place - count);
        }
        backtrack_to_root(
            &mut self.ledger,
            &mut self.queue,
            &mut self.levels,
            &mut self.rest,
        );
        self.ledger.reveal();
        release(&mut self.ledger, &mut self.queue, &mut self.rest, place);
        self.ledger.reveal();
        self.ledger.take_out(place)
    }

    /// A chain from an assignment without opposites, with the places of its reasons, to a falsified constraint or to the end.
    pub(crate) fn trace(&mut self, given: &[Lit]) -> Result<Chain, AllocError>
        requires { IsConsistent given.now }
        ensures slots { self.new ≡ self.old }
        ensures value { IfOk result (IsFound (shown self.old) given.now) }
    {
        self.arrivals
            .attach_to(self.alloc, &mut self.ledger, &mut self.queue)?;
        self.rest = Rest::nothing();
        chain_over(
            self.alloc,
            &mut self.ledger,
            &mut self.queue,
            &mut self.levels,
            given,
        )
    }

    /// Traces of literals that are decided behind an assignment, told by the ids of places, where what follows from the assignment alone may be
    /// left out.
    pub(crate) fn trace_each(
        &mut self,
        before: &[Lit],
        first: Lit,
        more: &[Lit],
        ids: &[Id],
    ) -> Result<Vec<Decided>, AllocError>
        requires consistent { IsConsistent (before.now ++ first ∷ []) }
        requires ids { length ids.now ≡ length self.old }
        ensures slots { self.new ≡ self.old }
        ensures decided { IfOk result (λ v. (places : List (ℕ × ℕ)) → AreNamed places ids.now self.old
            → AreDecided (content_at self.old places) before.now v.items) }
        ensures taken { IfOk result (λ v. AreTaken first more.now v.items) }
    {
        self.arrivals
            .attach_to(self.alloc, &mut self.ledger, &mut self.queue)?;
        self.rest = Rest::nothing();
        traces_of_each(
            self.alloc,
            &mut self.ledger,
            &mut self.queue,
            &mut self.levels,
            before,
            first,
            more,
            ids,
        )
    }
}
