//! The plain propagator: it keeps nothing but the constraints, and passes over all of them until nothing changes.
//!
//! It is slow where a database is large, since each question begins anew, and short enough to be read at a glance: what a
//! faster one answers is compared with it. For a question it lends all constraints into one list, so that extra ones
//! stand in the list beside them, and no constraint is copied.

ghost use Rattle.std.specs.Prelude.{◌≡◌, ◌<◌, ◌↔◌, ◌++◌, IfOk, IsTrue, OnOk, map};
ghost use Rattle.std.specs.FinMap as fin;
ghost use Rattle.std.specs.FinSet as set;
ghost use Rattle.std.specs.List.Sorted.{IsStrictlySortedBy};
ghost use Rattle.std.specs.Ordering.{nat_cmp};
ghost use Rattle.propagate.specs.Literals.{coefficient_of};

use super::assigned::with_last;
use super::ids::Ids;
use super::propagator::{Id, Propagator};
use super::reach::Reach;
use super::refutation::refuted;
use super::retrace::Retrace;
use super::trace::{Decided, Trace, decided_alone};
use linear::Lit;
use normal_form::Normal;
use std::alloc::{AllocError, Global};
use std::collections::BTreeMap;
use std::ops::Bound;

/// Constraints by their ids.
#[derive(Debug, Drop)]
pub struct ScanPropagator {
    all: BTreeMap<Id, Normal>,
    alloc: Global,
}

/// The constraints of a map, by rising id.
fn lent(alloc: Global, all: &BTreeMap<Id, Normal>) -> Result<Vec<&Normal>, AllocError>
    ensures constraints { IfOk result (λ v. map (λ n. n.now) v.items ≡ fin.values (fin.from_entries {R = nat_cmp} all.now.entries)) }
    ensures rise { OnOk result (IsStrictlySortedBy nat_cmp (map (λ e. e.0) all.now.entries)) }
{
    let mut constraints = Vec::with_capacity(alloc, all.len())?;
    for constraint in all.values() {
        constraints.push(constraint)?;
    }
    Ok(constraints)
}

/// The ids of a map, as they rise.
fn ids(alloc: Global, all: &BTreeMap<Id, Normal>) -> Result<Vec<Id>, AllocError>
    ensures { IfOk result (λ v. v.items ≡ map (λ e. e.0) all.now.entries) }
{
    let mut ids = Vec::with_capacity(alloc, all.len())?;
    for id in all.keys() {
        ids.push(*id)?;
    }
    Ok(ids)
}

/// Whether a constraint has a literal.
fn has_literal(constraint: &Normal, literal: Lit) -> bool
    ensures { IsTrue result ↔ 0 < coefficient_of constraint.now literal }
{
    for place in 0..constraint.len() {
        if constraint.term(place).literal() == literal {
            return true;
        }
    }
    false
}

/// Puts an id into a set if its constraint has a literal.
fn add_if_it_has(ids: &mut Ids, id: Id, constraint: &Normal, literal: Lit) -> Result<(), AllocError>
    ensures there { OnOk result (0 < coefficient_of constraint.now literal → ids.new ≡ set.insert ids.old id) }
    ensures absent { OnOk result ((0 < coefficient_of constraint.now literal → ⊥) → ids.new ≡ ids.old) }
{
    if has_literal(constraint, literal) {
        ids.insert(id)?;
    }
    Ok(())
}

impl ScanPropagator {
    /// The constraints by rising id, and the extra ones behind them.
    fn beside<'a>(&'a self, extras: &'a [Normal]) -> Result<Vec<&'a Normal>, AllocError>
        ensures { IfOk result (λ v. map (λ n. n.now) v.items ≡ fin.values (fin.from_entries {R = nat_cmp} self.now.all.entries) ++ extras.now) }
    {
        let mut constraints = lent(self.alloc, &self.all)?;
        for constraint in extras {
            constraints.push(constraint)?;
        }
        Ok(constraints)
    }
}

impl Propagator for ScanPropagator {
    ghost content = { λ p. fin.from_entries p.all.entries };

    fn empty(alloc: Global) -> Self {
        ScanPropagator {
            all: BTreeMap::new(alloc),
            alloc,
        }
    }

    fn insert(&mut self, id: Id, constraint: Normal) -> Result<(), AllocError> {
        self.all.insert(id, constraint)?;
        Ok(())
    }

    fn remove(&mut self, id: Id) -> Option<Normal> {
        self.all.remove(&id)
    }

    fn get(&self, id: Id) -> Option<&Normal> {
        self.all.get(&id)
    }

    fn after(&self, id: Id) -> Option<Id> {
        match self
            .all
            .range((Bound::Excluded(id), Bound::Unbounded))
            .next()
        {
            Some((next, _)) => Some(*next),
            None => None,
        }
    }

    fn with_occurrences(&mut self, literal: Lit, ids: Ids) -> Result<Ids, AllocError> {
        let mut gathered = ids;
        for (id, constraint) in self.all.iter() {
            add_if_it_has(&mut gathered, *id, constraint, literal)?;
        }
        Ok(gathered)
    }

    fn refute(&mut self, extras: &[Normal]) -> Result<bool, AllocError> {
        let constraints = self.beside(extras)?;
        refuted(self.alloc, constraints.as_slice())
    }

    fn extend(&mut self, given: &[Lit]) -> Result<Reach, AllocError> {
        let constraints = lent(self.alloc, &self.all)?;
        Reach::of(self.alloc, constraints.as_slice(), given)
    }

    /// It keeps nothing, so nothing stays.
    fn retrace(&mut self, given: &[Lit], _known: &[Lit]) -> Result<Retrace, AllocError> {
        let reach = self.extend(given)?;
        Retrace::of_reach(self.alloc, reach)
    }

    fn trace(&mut self, given: &[Lit]) -> Result<Trace, AllocError> {
        let constraints = lent(self.alloc, &self.all)?;
        let ids = ids(self.alloc, &self.all)?;
        Trace::of(self.alloc, constraints.as_slice(), ids.as_slice(), given)
    }

    /// It keeps nothing, so nothing is left out, and a second one would cost as much as the first.
    fn trace_each(
        &mut self,
        before: &[Lit],
        first: Lit,
        _more: &[Lit],
    ) -> Result<Vec<Decided>, AllocError> {
        let given = with_last(self.alloc, before, first)?;
        let trace = self.trace(given.as_slice())?;
        decided_alone(self.alloc, first, trace)
    }
}
