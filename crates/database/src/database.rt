//! The live constraints of a proof by their ids, and the id that the next one takes. That every id is above 0 and below
//! the next one is a fact of the type: so the next one is free, and a number beyond all ids names nothing. What is asked by propagation it hands
//! on to the propagator in which the constraints stand.

ghost use Rattle.std.specs.Prelude.{◌≡◌, ◌≤◌, MatchOption};
ghost use Rattle.proof_rules.specs.State.{id_limit, id_of};

use super::duplicates::Duplicates;
use linear::{Integer, Lit, Var};
use normal_form::Normal;
use propagate::{Id, Ids, Propagator, Question};
use std::alloc::{AllocError, Global};
use std::marker::Model;
use substitution::{Image, Substitution, apply, becomes_beyond, covers};

/// Ids are below this number.
const ID_LIMIT: u64 = 1 << 32;

/// Live constraints by their ids, and the id that the next one takes.
#[derive(Drop)]
pub struct Database<P: Propagator> {
    constraints: P,
    next_id: u64,
    duplicates: Duplicates,
}

impl<P: Propagator> Model for Database<P> {
    ghost use Rattle.std.specs.Coded.{codes};
    ghost use Rattle.proof_rules.specs.State.{AreNumbered, id_of};
    ghost use Rattle.database.specs.Database.{Constraints, constraints_code};

    ghost Value = { Constraints };

    ghost coded = { Prim.hlevel (codes, constraints_code) };

    ghost view = { λ d. record { live = P.content d.constraints; next = d.next_id } };

    ghost invariant = { λ d. AreNumbered (P.content d.constraints) d.next_id };
}

impl<P: Propagator> Database<P> {
    ghost use Rattle.database.specs.Touched.{AddsTouched, IsTouched};
    ghost use Rattle.std.specs.Prelude.{◌≡◌, ◌↔◌, ◌<◌, ◌≤◌, ◌++◌, ℕ, Any, IfOk, IsSome, IsSomeAnd, MatchOption, None, IsTrue, OnErr, OnOk};
    ghost use Rattle.normal_form.specs.Normal.{NormalConstraint};
    ghost use Rattle.propagate.specs.Chain.{IsRefuted};
    ghost use Rattle.propagate.specs.Content.{HasLiteral};
    ghost use Rattle.propagate.specs.Ids.{HasId};
    ghost use Rattle.substitution.specs.Beyond.{BecomesBeyond};
    ghost use Rattle.substitution.specs.Covering.{Covers};
    ghost use Rattle.substitution.specs.Under.{IsUnder};
    ghost use Rattle.std.specs.FinMap as map;
    ghost use Rattle.std.specs.Option.{option_copied};
    ghost use Rattle.proof_rules.specs.State.{AreNumbered, id_limit, id_of};
    ghost use Rattle.database.specs.Database.{pushed, removed, taken_back, without_between, found};

    /// No constraint; the first one takes the id 1.
    pub fn empty(alloc: Global) -> Self
        ensures { result ≡ record { live = map.empty; next = 1 } }
    {
        Database {
            constraints: P::empty(alloc),
            next_id: 1,
            duplicates: Duplicates::new(alloc),
        }
    }

    /// The id that the next constraint takes; it is at most 2^32, and no id then.
    pub fn next_id(&self) -> u64
        ensures value { result ≡ self.now.next }
        ensures numbered { AreNumbered self.now.live self.now.next }
    {
        self.next_id
    }

    /// Whether an id is left for one more constraint.
    pub fn has_room(&self) -> bool
        ensures { IsTrue result ↔ self.now.next < id_limit }
    {
        self.next_id < ID_LIMIT
    }

    /// Adds a constraint under the next id, and gives the id.
    pub fn push(&mut self, constraint: Normal) -> Result<Id, AllocError>
        requires { self.old.next < id_limit }
        ensures ok { OnOk result (self.new ≡ pushed constraint self.old) }
        ensures id { IfOk result (λ id. id ≡ self.old.next) }
        ensures numbered { AreNumbered self.old.live self.old.next }
        ensures err { OnErr result (self.new ≡ self.old) }
    {
        let id = self.next_id as u32;
        self.constraints.insert(id, constraint)?;
        self.next_id += 1;
        Ok(id)
    }

    /// Takes the newest constraint out again, and its id back.
    pub fn take_back(&mut self)
        requires { 1 < self.old.next }
        ensures { self.new ≡ taken_back self.old }
    {
        self.remove_id((self.next_id - 1) as u32);
        self.next_id -= 1;
        self.duplicates.go_back(self.next_id);
    }

    /// Takes out the live constraint that a number in a step means.
    pub fn remove(&mut self, number: Integer)
        requires { IsSome (found self.old number) }
        ensures { self.new ≡ removed (id_of self.old.next number) self.old }
    {
        if let Some(id) = id_of(self.next_id, number) {
            self.remove_id(id);
        }
    }

    /// Takes out the constraints of the ids from one on and below another.
    pub fn remove_between(&mut self, first: u64, end: u64)
        requires order { first ≤ end }
        requires limit { end ≤ id_limit }
        ensures { self.new ≡ without_between first end self.old }
    {
        for id in first..end {
            self.remove_id(id as u32);
        }
    }

    /// Takes out the constraint of an id, if there is one.
    fn remove_id(&mut self, id: Id)
        ensures { self.new ≡ removed id self.old }
    {
        if let Some(constraint) = self.constraints.remove(id) {
            self.duplicates.forget(&constraint, id);
        }
    }

    /// Whether the constraint of an id, if there is one, covers another.
    pub fn is_covering(&self, id: Id, constraint: &Normal) -> bool
        ensures { IsTrue result ↔ IsSomeAnd (map.get self.now.live id) (λ e. Covers e constraint.now) }
    {
        match self.constraints.get(id) {
            Some(live) => covers(live, constraint),
            None => false,
        }
    }

    /// Whether a constraint has as many terms as the live one of an id.
    fn is_as_long(&self, id: Id, constraint: &Normal) -> bool {
        match self.constraints.get(id) {
            Some(live) => live.len() == constraint.len(),
            None => false,
        }
    }

    /// Whether what the live constraint of an id has become is seen to be a live one too. Where it is shorter, since literals are fixed, that
    /// is not looked at.
    pub fn has_become_live(&mut self, id: Id, goal: &Normal) -> Result<bool, AllocError>
        ensures same { self.new ≡ self.old }
        ensures covered { IfOk result (λ yes. IsTrue yes → Any (λ e. Covers e goal.now) (map.values self.old.live)) }
    {
        if !self.is_as_long(id, goal) {
            return Ok(false);
        }
        self.has_duplicate(goal)
    }

    /// Whether the newest live constraint with the fingerprint of another covers it, as a duplicate does.
    pub fn has_duplicate(&mut self, constraint: &Normal) -> Result<bool, AllocError>
        ensures same { self.new ≡ self.old }
        ensures covered { IfOk result (λ yes. IsTrue yes → Any (λ e. Covers e constraint.now) (map.values self.old.live)) }
    {
        self.enter_fingerprints()?;
        match self.duplicates.of(constraint) {
            Some(id) => Ok(self.is_covering(id, constraint)),
            None => Ok(false),
        }
    }

    /// Enters the live constraints that came since that was done last by their fingerprints.
    fn enter_fingerprints(&mut self) -> Result<(), AllocError>
        ensures { self.new ≡ self.old }
    {
        for id in self.duplicates.end()..self.next_id {
            if let Some(constraint) = self.constraints.get(id as u32) {
                self.duplicates.enter(constraint, id as u32)?;
            }
        }
        self.duplicates.pass(self.next_id);
        Ok(())
    }

    /// The ids of the live constraints that have a literal.
    pub fn having(&mut self, alloc: Global, literal: Lit) -> Result<Ids, AllocError>
        ensures same { self.new ≡ self.old }
        ensures having { IfOk result (λ ids. (id : ℕ) → HasId ids id ↔ HasLiteral self.old.live literal id) }
    {
        let none = Ids::empty(alloc);
        let ids = self.constraints.with_occurrences(literal, none)?;
        Ok(ids)
    }

    /// Adds the ids of the live constraints that have a literal of a variable which the variable's image does not make true to a set. Where
    /// memory runs out the set is gone.
    fn with_touched(&mut self, variable: Var, image: Image, ids: Ids) -> Result<Ids, AllocError>
        ensures same { self.new ≡ self.old }
        ensures added { IfOk result (AddsTouched self.old.live variable image ids) }
    {
        let literal = Lit {
            var: variable,
            negated: false,
        };
        match image {
            Image::Zero => self.constraints.with_occurrences(literal, ids),
            Image::One => self.constraints.with_occurrences(literal.opposite(), ids),
            Image::Lit(_) => {
                let middle = self.constraints.with_occurrences(literal, ids)?;
                self.constraints
                    .with_occurrences(literal.opposite(), middle)
            }
        }
    }

    /// The ids of the live constraints that have a literal which a witness changes and does not make true. The others show what they
    /// become.
    pub fn touched(&mut self, alloc: Global, witness: &Substitution) -> Result<Ids, AllocError>
        ensures same { self.new ≡ self.old }
        ensures touched { IfOk result (λ ids. (id : ℕ) → HasId ids id ↔ IsTouched self.old.live witness.now id) }
    {
        let mut ids = Ids::empty(alloc);
        for image in witness.as_slice() {
            ids = self.with_touched(image.0, image.1, ids)?;
        }
        Ok(ids)
    }

    /// What the live constraint of an id becomes under a witness; none where there is no such constraint.
    pub fn becomes(
        &self,
        alloc: Global,
        id: Id,
        witness: &Substitution,
    ) -> Result<Option<Normal>, AllocError>
        ensures { IfOk result (λ goal. MatchOption (map.get self.now.live id) (goal ≡ None) (λ e. IsSomeAnd goal (IsUnder e witness.now))) }
    {
        match self.constraints.get(id) {
            None => Ok(None),
            Some(live) => Ok(Some(apply(alloc, live, witness)?)),
        }
    }

    /// What the live constraint of an id becomes under a witness; none where it shows that itself, as one does of which a literal is
    /// fixed to the value that is good for it. Of a long constraint its terms of the witness' variables alone are looked at for that.
    pub fn becoming(
        &self,
        alloc: Global,
        id: Id,
        witness: &Substitution,
    ) -> Result<Option<Normal>, AllocError>
        ensures { IfOk result (λ goal. (n : NormalConstraint) → map.get self.now.live id ≡ Some n → BecomesBeyond n witness.now goal) }
    {
        let Some(live) = self.constraints.get(id) else {
            return Ok(None);
        };
        becomes_beyond(alloc, live, witness)
    }

    /// Whether the live constraints are refuted with some beside them.
    pub fn refute(&mut self, beside: &[Normal]) -> Result<bool, AllocError>
        ensures same { self.new ≡ self.old }
        ensures refuted { IfOk result (λ yes. IsTrue yes ↔ IsRefuted (map.values self.old.live ++ beside.now)) }
    {
        self.constraints.refute(beside)
    }

    /// What follows from the live constraints by propagation, whatever is asked.
    pub fn ask<Q: Question>(&mut self, question: Q) -> Result<Q::Answer, AllocError>
        requires { Q.may_ask question }
        ensures same { self.new ≡ self.old }
        ensures answer { IfOk result (Q.answers question self.old.live) }
    {
        question.ask(&mut self.constraints)
    }

    /// The live constraint that a number in a step means, if there is one: `-k` is the next id less `k`.
    pub fn find(&self, number: Integer) -> Option<&Normal>
        ensures { option_copied result ≡ found self.now number }
    {
        let id = id_of(self.next_id, number)?;
        self.constraints.get(id)
    }

    /// The live id that a number in a step means, if there is one.
    pub fn live_id(&self, number: Integer) -> Option<Id>
        ensures { MatchOption result (found self.now number ≡ None) (λ id. (id ≡ id_of self.now.next number) × IsSome (found self.now number)) }
    {
        let id = id_of(self.next_id, number)?;
        let _constraint = self.constraints.get(id)?;
        Some(id)
    }
}

/// The id that a number in a step means; `None` where it is beyond all ids.
pub fn id_of(next: u64, number: Integer) -> Option<Id>
    ensures { MatchOption result (id_limit ≤ id_of next number) (λ id. id ≡ id_of next number) }
{
    let size = number.unsigned_abs();
    let id = if number < 0 {
        u128::from(next).saturating_sub(size)
    } else {
        size
    };
    if id < u128::from(ID_LIMIT) {
        Some(id as u32)
    } else {
        None
    }
}
