//! The literals that are taken as true, in the order in which they were, and the values that they give variables.
//!
//! No variable stands in it twice, so it has room for all variables from the start, and a literal is added without
//! memory. Taken off, a literal leaves its variable without a value, since nothing else gave it one.

ghost use Rattle.std.specs.Prelude.{◌≡◌, ◌+◌, ◌<◌, ◌≤◌, ◌++◌, ◌∷◌, ◌⊎◌, []};
ghost use Rattle.std.specs.Prelude.{ℕ, false, true, All, IfOk, OnOk, OnErr, IsTrue, ◌↔◌, None};
ghost use Rattle.std.specs.Prelude.{length, slice_index_or, take, MatchOption, IfSome};
ghost use Rattle.linear.specs.declared.term.Lit.{Lit};
ghost use Rattle.linear.specs.Literal.{opposite};
ghost use Rattle.propagate.specs.Literals.{Contradicts, IsConsistent, IsOnce, SameLiterals, lists};
ghost use Rattle.propagate.specs.Trails.{IsFree};
ghost use Rattle.propagate.specs.Values.{AreValuesUnder};

use super::value::Value;
use linear::{Lit, Seq};
use std::alloc::{AllocError, Global};
use std::marker::Model;

/// An assignment of literals of the variables below a number, no variable twice. It has room for all.
#[derive(Debug, Drop)]
pub struct Trail {
    assigned: Vec<Lit>,
    values: Vec<Value>,
    /// Where the literal of each variable stands, where it has one.
    positions: Vec<usize>,
}

impl Model for Trail {
    ghost use Rattle.std.specs.Prelude.{◌≡◌, ℕ, ◌≤◌, List, length, vec_capacity};
    ghost use Rattle.linear.specs.declared.term.Lit.{Lit};
    ghost use Rattle.propagate.specs.Trails.{ArePositions, IsTrail};

    ghost Value = { List Lit × ℕ };

    ghost view = { λ t. (t.assigned.items, length t.values.items) };

    ghost invariant = { λ t. IsTrail t.assigned.items t.values.items
        × (length t.values.items ≤ vec_capacity t.assigned) × (length t.positions.items ≡ length t.values.items)
        × ArePositions t.assigned.items t.positions.items };
}

impl Trail {
    /// No literal yet, and no variables.
    pub fn new(alloc: Global) -> Self
        ensures { result ≡ ([], 0) }
    {
        Trail {
            assigned: Vec::new(alloc),
            values: Vec::new(alloc),
            positions: Vec::new(alloc),
        }
    }

    /// No literal yet, and room for so many variables.
    pub(crate) fn with_room(alloc: Global, count: usize) -> Result<Self, AllocError>
        ensures { IfOk result (λ t. t ≡ ([], count)) }
    {
        let mut trail = Trail::new(alloc);
        trail.widen(count)?;
        Ok(trail)
    }

    /// What holds of every trail, for a proof that needs it where nothing else of the trail is asked.
    pub fn reveal(&self)
        ensures once { IsOnce self.now.0 }
        ensures consistent { IsConsistent self.now.0 }
        ensures few { length self.now.0 ≤ self.now.1 }
        ensures variables { (l : Lit) → lists self.now.0 l ≡ true → l.var.0 < self.now.1 }
    {
        let _ = &self.assigned;
    }

    /// Makes room for one variable more.
    fn grow(&mut self) -> Result<(), AllocError>
        ensures ok { OnOk result (self.new ≡ (self.old.0, self.old.1 + 1)) }
        ensures err { OnErr result (self.new ≡ self.old) }
    {
        let more = self.values.len() + 1 - self.assigned.len();
        self.assigned.reserve(more)?;
        self.positions.reserve(1)?;
        self.values.push(Value::Free)?;
        self.positions.push_reserved(0);
        Ok(())
    }

    /// How many variables there are.
    pub fn count(&self) -> usize
        ensures { result ≡ self.now.1 }
    {
        self.values.len()
    }

    /// Makes room for the variables below a number.
    ///
    /// `AllocError` comes where a growth was refused: there may be room for some of them then.
    pub fn widen(&mut self, count: usize) -> Result<(), AllocError>
        ensures assigned { self.new.0 ≡ self.old.0 }
        ensures more { self.old.1 ≤ self.new.1 }
        ensures most { (self.new.1 ≡ self.old.1) ⊎ (self.new.1 ≤ count) }
        ensures ok { OnOk result (count ≤ self.new.1) }
    {
        for _ in self.count()..count {
            self.grow()?;
        }
        Ok(())
    }

    /// The literals, in the order in which they were listed: none twice, and none beside its opposite.
    pub fn assigned(&self) -> &[Lit]
        ensures assigned { result.now ≡ self.now.0 }
        ensures once { IsOnce self.now.0 }
        ensures consistent { IsConsistent self.now.0 }
        ensures variables { (l : Lit) → lists self.now.0 l ≡ true → l.var.0 < self.now.1 }
        ensures fresh { (k : ℕ) (d : Lit) → k < length self.now.0 → IsFree (take k self.now.0) (slice_index_or self.now.0 k d) }
    {
        self.assigned.as_slice()
    }

    /// The value of each variable.
    pub fn values(&self) -> &[Value]
        ensures count { length result.now ≡ self.now.1 }
        ensures values { AreValuesUnder self.now.0 result.now }
    {
        self.values.as_slice()
    }

    /// How many literals there are: no more than variables.
    pub fn len(&self) -> usize
        ensures value { result ≡ length self.now.0 }
        ensures few { length self.now.0 ≤ self.now.1 }
    {
        self.assigned.len()
    }

    /// Whether neither a literal nor its opposite is listed.
    pub fn leaves_free(&self, literal: Lit) -> bool
        requires { literal.var.0 < self.now.1 }
        ensures { IsTrue result ↔ (lists self.now.0 literal ≡ false) × (lists self.now.0 (opposite literal) ≡ false) }
    {
        self.values[literal.var.0 as usize].is_free()
    }

    /// Whether a literal is listed.
    pub fn has(&self, literal: Lit) -> bool
        requires { literal.var.0 < self.now.1 }
        ensures { result ≡ lists self.now.0 literal }
    {
        self.values[literal.var.0 as usize].makes_true(literal)
    }

    /// Where the literal of a variable stands, if one is listed.
    pub fn position(&self, variable: usize) -> usize
        requires { variable < self.now.1 }
        ensures { (k : ℕ) (d : Lit) → k < length self.now.0 → (slice_index_or self.now.0 k d).var.0 ≡ variable
            → k ≡ result }
    {
        self.positions[variable]
    }

    /// Lists a literal that is free.
    pub fn push(&mut self, literal: Lit)
        requires variable { literal.var.0 < self.old.1 }
        requires unset { lists self.old.0 literal ≡ false }
        requires opposite_unset { lists self.old.0 (opposite literal) ≡ false }
        ensures value { self.new ≡ (self.old.0 ++ literal ∷ [], self.old.1) }
        ensures room { length self.old.0 < self.old.1 }
    {
        self.positions[literal.var.0 as usize] = self.assigned.len();
        self.assigned.push_reserved(literal);
        self.values[literal.var.0 as usize] = Value::given_by(literal);
    }

    /// Takes the last literal away.
    pub fn pop(&mut self) -> Option<Lit>
        ensures count { self.new.1 ≡ self.old.1 }
        ensures value { MatchOption result ((self.old.0 ≡ []) × (self.new ≡ self.old))
            (λ l. self.old.0 ≡ self.new.0 ++ l ∷ []) }
        ensures unset { IfSome result (λ l. lists self.new.0 l ≡ false) }
        ensures opposite_unset { IfSome result (λ l. lists self.new.0 (opposite l) ≡ false) }
        ensures variable { IfSome result (λ l. l.var.0 < self.old.1) }
    {
        let literal = self.assigned.pop()?;
        self.values[literal.var.0 as usize] = Value::Free;
        Some(literal)
    }

    /// The trail of an assignment, or `None` where the assignment has a literal and its opposite.
    pub(crate) fn of(
        alloc: Global,
        count: usize,
        assigned: &[Lit],
    ) -> Result<Option<Self>, AllocError>
        requires { All (λ l. l.var.0 < count) assigned.now }
        ensures none { IfOk result (λ made. made ≡ None → Contradicts assigned.now) }
        ensures count { IfOk result (λ made. IfSome made (λ t. t.1 ≡ count)) }
        ensures same { IfOk result (λ made. IfSome made (λ t. SameLiterals t.0 assigned.now)) }
        ensures consistent { IfOk result (λ made. IfSome made (λ t. IsConsistent t.0)) }
    {
        let mut trail = Trail::with_room(alloc, count)?;
        for literal in assigned {
            if !trail.admit(*literal) {
                return Ok(None);
            }
        }
        Ok(Some(trail))
    }

    /// Lists a literal unless it is listed; false where its opposite is listed.
    fn admit(&mut self, literal: Lit) -> bool
        requires { literal.var.0 < self.old.1 }
        ensures count { self.new.1 ≡ self.old.1 }
        ensures admitted { IsTrue result → SameLiterals self.new.0 (self.old.0 ++ literal ∷ []) }
        ensures free { IsTrue result → lists self.old.0 (opposite literal) ≡ false }
        ensures refused { result ≡ false → lists self.old.0 (opposite literal) ≡ true }
    {
        if self.leaves_free(literal) {
            self.push(literal);
            return true;
        }
        self.reveal();
        self.has(literal)
    }

    /// The literals, in the order in which they were listed.
    pub(crate) fn into_assigned(self) -> Seq<Lit>
        ensures assigned { result ≡ self.0 }
        ensures once { IsOnce result }
    {
        self.reveal();
        let Trail {
            assigned,
            values: _,
            positions: _,
        } = self;
        Seq::from_vec(assigned)
    }
}
