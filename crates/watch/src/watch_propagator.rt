//! The propagator that keeps what it has found: constraints by their ids, over a closure of them by place, which keeps what they
//! force from nothing, and above that the literals that were given last with what they force.
//!
//! What it answers is what the plain propagator answers, since both meet the one contract. What it keeps shows in the time alone: an
//! assignment goes on from where it parts from the last one, and costs the constraints that its literals touch.
//!
//! A place is a number from 0 on, and stays when its constraint goes, so that the lists of literals need no look-up
//! by id; the id of a place names a reason when a chain is told. Where more than twice as much stands empty as not, an insertion makes
//! the places anew: it may fail, as a removal may not, and what it copies is paid for by the removals before it.

ghost use Rattle.std.specs.Prelude.{◌≡◌, ◌↔◌, ◌++◌, ◌∷◌, [], IfOk, IsSome, IsTrue, MatchOption, OnErr, OnOk, None};
ghost use Rattle.std.specs.FinMap as map;
ghost use Rattle.std.specs.Option.{option_copied};
ghost use Rattle.propagate.specs.Chain.{IsRefuted};
ghost use Rattle.propagate.specs.Content.{AddsOccurrences, AreDecided, AreTaken, IsLeastAbove, IsTrace};
ghost use Rattle.propagate.specs.Literals.{IsConsistent};
ghost use Rattle.propagate.specs.Reach.{IsReach, IsRetrace};

use super::closure::Closure;
use super::naming::trace_of;
use linear::Lit;
use normal_form::Normal;
use places::Places;
use propagate::{Decided, Id, Ids, Propagator, Reach, Retrace, Trace};
use std::alloc::{AllocError, Global};
use std::marker::Model;

/// A place takes as much memory as so many terms, and is as dear to copy.
const PLACE: usize = 8;

/// Constraints by their ids, with what they force kept between calls.
#[derive(Drop)]
pub struct WatchPropagator {
    places: Places,
    ids: Vec<Id>,
    closure: Closure,
    /// The terms and places of the constraints that are there.
    occupied: usize,
    /// The places of those that are gone, and the entries that they left behind.
    vacant: usize,
    alloc: Global,
}

impl Model for WatchPropagator {
    ghost use Rattle.std.specs.Coded.{coded_ℕ};
    ghost use Rattle.std.specs.FinMap as map;
    ghost use Rattle.propagate.specs.Content.{Content};
    ghost use Rattle.normal_form.specs.Codes.{constraint_code};
    ghost use Rattle.watch.specs.Named.{AreNamed, content_at};

    ghost Value = { Content };

    ghost coded = { map.code coded_ℕ constraint_code };

    ghost view = { λ d. content_at d.closure d.places };

    ghost invariant = { λ d. AreNamed d.places d.ids.items d.closure };
}

impl WatchPropagator {
    /// Puts in a constraint at the next place.
    fn put(&mut self, id: Id, constraint: Normal) -> Result<(), AllocError>
        requires { map.get self.old id ≡ None }
        ensures ok { OnOk result (self.new ≡ map.insert self.old id constraint) }
        ensures err { OnErr result (self.new ≡ self.old) }
    {
        let size = constraint.len().saturating_add(PLACE);
        self.ids.reserve(1)?;
        let place = self.ids.len();
        self.places.insert(id, place)?;
        match self.closure.add(constraint) {
            Err(_) => {
                self.places.remove(id);
                return Err(AllocError);
            }
            Ok(()) => {}
        }
        self.ids.push_reserved(id);
        self.occupied = self.occupied.saturating_add(size);
        Ok(())
    }

    /// Puts in a copy of a constraint, if there is one.
    fn put_copy(&mut self, id: Id, constraint: Option<&Normal>) -> Result<(), AllocError>
        requires { IsSome constraint → map.get self.old id ≡ None }
        ensures { OnOk result (MatchOption (option_copied constraint.entry) (self.new ≡ self.old) (λ n. self.new ≡ map.insert self.old id n)) }
    {
        let Some(constraint) = constraint else {
            return Ok(());
        };
        self.put(id, constraint.copy(self.alloc)?)
    }

    /// Puts in copies of the constraints of another propagator, place by place, where there is none yet.
    fn fill_from(&mut self, other: &WatchPropagator) -> Result<(), AllocError>
        requires { self.old ≡ map.empty }
        ensures { OnOk result (self.new ≡ other.now) }
    {
        for place in 0..other.ids.len() {
            self.put_copy(other.ids[place], other.closure.get(place))?;
        }
        Ok(())
    }

    /// The same constraints at places without gaps.
    fn made_anew(&self) -> Result<WatchPropagator, AllocError>
        ensures { IfOk result (λ d. d ≡ self.now) }
    {
        let mut anew = WatchPropagator::empty(self.alloc);
        anew.fill_from(self)?;
        Ok(anew)
    }

    /// Makes the places anew where more than twice as much stands empty as not, the lists of literals and the rows of ids counted in.
    fn close_gaps(&mut self) -> Result<(), AllocError>
        ensures { self.new ≡ self.old }
    {
        let lists = self.closure.variable_count().max(self.places.row_count());
        if self.vacant / 2 > self.occupied.max(lists) {
            *self = self.made_anew()?;
        }
        Ok(())
    }
}

impl Propagator for WatchPropagator {
    ghost content = { λ p. p };

    fn empty(alloc: Global) -> Self {
        WatchPropagator {
            places: Places::new(alloc),
            ids: Vec::new(alloc),
            closure: Closure::new(alloc),
            occupied: 0,
            vacant: 0,
            alloc,
        }
    }

    fn insert(&mut self, id: Id, constraint: Normal) -> Result<(), AllocError> {
        self.close_gaps()?;
        self.put(id, constraint)
    }

    fn remove(&mut self, id: Id) -> Option<Normal> {
        let place = self.places.remove(id)?;
        let left_behind = self.closure.entry_count(place).saturating_add(PLACE);
        let size = self.closure.term_count(place).saturating_add(PLACE);
        self.occupied = self.occupied.saturating_sub(size);
        self.vacant = self.vacant.saturating_add(left_behind);
        self.closure.remove(place)
    }

    fn get(&self, id: Id) -> Option<&Normal> {
        let place = self.places.get(id)?;
        self.closure.get(place)
    }

    fn after(&self, id: Id) -> Option<Id> {
        self.places.after(id)
    }

    fn with_occurrences(&mut self, literal: Lit, ids: Ids) -> Result<Ids, AllocError> {
        self.closure
            .with_occurrences(literal, self.ids.as_slice(), ids)
    }

    fn refute(&mut self, extras: &[Normal]) -> Result<bool, AllocError> {
        self.closure.refute(extras)
    }

    fn extend(&mut self, given: &[Lit]) -> Result<Reach, AllocError> {
        self.closure.extend(given)
    }

    fn retrace(&mut self, given: &[Lit], known: &[Lit]) -> Result<Retrace, AllocError> {
        self.closure.retrace(given, known, self.ids.as_slice())
    }

    fn trace(&mut self, given: &[Lit]) -> Result<Trace, AllocError> {
        let chain = self.closure.trace(given)?;
        trace_of(self.alloc, chain, self.ids.as_slice())
    }

    fn trace_each(
        &mut self,
        before: &[Lit],
        first: Lit,
        more: &[Lit],
    ) -> Result<Vec<Decided>, AllocError> {
        self.closure
            .trace_each(before, first, more, self.ids.as_slice())
    }
}
