//! The literals that are assigned, of which the first ones were propagated.
//!
//! All that a constraint forces is assigned at once, and propagated then, one literal after another. What clauses and counters
//! tell is so of the literals that were propagated: each is as if the later ones were not there, so that any of them can be
//! backtracked alone. The later ones are looked at too, but only to see a conflict before others are propagated in vain.

ghost use Rattle.std.specs.Prelude.{◌≡◌, ◌↔◌, ◌<◌, ◌≤◌, ◌++◌, ◌∷◌, ◌⊎◌, [], ℕ, false, true};
ghost use Rattle.std.specs.Prelude.{IfSome, IsTrue, MatchOption, OnOk, drop, length, slice_index_or};
ghost use Rattle.linear.specs.declared.term.Lit.{Lit};
ghost use Rattle.linear.specs.Literal.{opposite};
ghost use Rattle.propagate.specs.Literals.{IsConsistent, IsOnce, lists};
ghost use Rattle.trail.specs.Trails.{on_trail};

use linear::Lit;
use propagate::Trail;
use std::alloc::{AllocError, Global};
use std::marker::Model;

/// A trail, and how many of its literals were propagated.
#[derive(Drop)]
pub struct Assignment {
    trail: Trail,
    propagated: usize,
}

impl Model for Assignment {
    ghost use Rattle.std.specs.Prelude.{◌≤◌, ℕ, List, drop, length, take};
    ghost use Rattle.linear.specs.declared.term.Lit.{Lit};

    ghost Value = { List Lit × ℕ × List Lit };

    ghost view = { λ a. (take a.propagated a.trail.0, a.trail.1, drop a.propagated a.trail.0) };

    ghost invariant = { λ a. a.propagated ≤ length a.trail.0 };
}

impl Assignment {
    /// No literal yet, and no variables.
    pub fn new(alloc: Global) -> Self
        ensures { result ≡ ([], 0, []) }
    {
        Assignment {
            trail: Trail::new(alloc),
            propagated: 0,
        }
    }

    /// What holds of every assignment, for a proof that needs it where nothing else of it is asked.
    pub fn reveal(&self)
        ensures once { IsOnce (on_trail self.now) }
        ensures consistent { IsConsistent self.now.0 }
        ensures all_consistent { IsConsistent (on_trail self.now) }
        ensures few { length (on_trail self.now) ≤ self.now.1 }
        ensures variables { (l : Lit) → lists (on_trail self.now) l ≡ true → l.var.0 < self.now.1 }
    {
        self.trail.reveal();
    }

    /// How many variables there are.
    pub fn count(&self) -> usize
        ensures { result ≡ self.now.1 }
    {
        self.trail.count()
    }

    /// Makes room for the variables below a number.
    ///
    /// `AllocError` comes where a growth was refused: there may be room for some of them then.
    pub fn widen(&mut self, count: usize) -> Result<(), AllocError>
        ensures propagated { self.new.0 ≡ self.old.0 }
        ensures pending { self.new.2 ≡ self.old.2 }
        ensures more { self.old.1 ≤ self.new.1 }
        ensures most { (self.new.1 ≡ self.old.1) ⊎ (self.new.1 ≤ count) }
        ensures ok { OnOk result (count ≤ self.new.1) }
    {
        self.trail.widen(count)
    }

    /// The literals that are assigned, in order: none twice, and none beside its opposite.
    pub fn assigned(&self) -> &[Lit]
        ensures assigned { result.now ≡ on_trail self.now }
        ensures once { IsOnce (on_trail self.now) }
        ensures consistent { IsConsistent (on_trail self.now) }
        ensures variables { (l : Lit) → lists (on_trail self.now) l ≡ true → l.var.0 < self.now.1 }
    {
        self.trail.assigned()
    }

    /// How many literals are assigned: no more than variables.
    pub fn len(&self) -> usize
        ensures value { result ≡ length (on_trail self.now) }
        ensures few { length (on_trail self.now) ≤ self.now.1 }
    {
        self.trail.len()
    }

    /// Whether all literals that are assigned were propagated.
    pub fn is_propagated(&self) -> bool
        ensures { IsTrue result ↔ (self.now.2 ≡ []) }
    {
        self.propagated == self.trail.len()
    }

    /// Whether neither a literal nor its opposite is assigned.
    pub fn leaves_free(&self, literal: Lit) -> bool
        requires { literal.var.0 < self.now.1 }
        ensures { IsTrue result ↔ (lists (on_trail self.now) literal ≡ false)
            × (lists (on_trail self.now) (opposite literal) ≡ false) }
    {
        self.trail.leaves_free(literal)
    }

    /// Whether a literal is assigned.
    pub fn assigns(&self, literal: Lit) -> bool
        requires { literal.var.0 < self.now.1 }
        ensures { result ≡ lists (on_trail self.now) literal }
    {
        self.trail.has(literal)
    }

    /// Whether a literal is among those that were propagated.
    pub fn has_propagated(&self, literal: Lit) -> bool
        requires { literal.var.0 < self.now.1 }
        ensures { result ≡ lists self.now.0 literal }
    {
        self.trail.has(literal) && self.trail.position(literal.var.0 as usize) < self.propagated
    }

    /// Where the literal of a variable stands, if one is assigned.
    pub fn position(&self, variable: usize) -> usize
        requires { variable < self.now.1 }
        ensures { (k : ℕ) (d : Lit) → k < length (on_trail self.now)
            → (slice_index_or (on_trail self.now) k d).var.0 ≡ variable → k ≡ result }
    {
        self.trail.position(variable)
    }

    /// Assigns a literal that is free. It is still to be propagated.
    pub fn push(&mut self, literal: Lit)
        requires variable { literal.var.0 < self.old.1 }
        requires unset { lists (on_trail self.old) literal ≡ false }
        requires opposite_unset { lists (on_trail self.old) (opposite literal) ≡ false }
        ensures value { self.new ≡ (self.old.0, self.old.1, self.old.2 ++ literal ∷ []) }
        ensures room { length (on_trail self.old) < self.old.1 }
    {
        self.trail.push(literal);
    }

    /// Takes the last literal away.
    pub fn pop(&mut self) -> Option<Lit>
        ensures count { self.new.1 ≡ self.old.1 }
        ensures value { MatchOption result ((on_trail self.old ≡ []) × (self.new ≡ self.old))
            (λ l. on_trail self.old ≡ on_trail self.new ++ l ∷ []) }
        ensures pending { (self.old.2 ≡ [] → ⊥) → self.new.0 ≡ self.old.0 }
        ensures last { self.old.2 ≡ [] → self.new.2 ≡ [] }
        ensures unset { IfSome result (λ l. lists (on_trail self.new) l ≡ false) }
        ensures opposite_unset { IfSome result (λ l. lists (on_trail self.new) (opposite l) ≡ false) }
        ensures variable { IfSome result (λ l. l.var.0 < self.old.1) }
    {
        let literal = self.trail.pop()?;
        self.propagated = self.propagated.min(self.trail.len());
        Some(literal)
    }

    /// The literal that is to be propagated next.
    pub fn next(&self) -> Lit
        requires { self.now.2 ≡ [] → ⊥ }
        ensures first { self.now.2 ≡ result ∷ drop 1 self.now.2 }
        ensures unset { lists self.now.0 result ≡ false }
        ensures opposite_unset { lists self.now.0 (opposite result) ≡ false }
        ensures variable { result.var.0 < self.now.1 }
    {
        self.trail.assigned()[self.propagated]
    }

    /// The next literal was propagated.
    pub fn advance(&mut self)
        requires { self.old.2 ≡ [] → ⊥ }
        ensures { (l : Lit) → self.old.2 ≡ l ∷ drop 1 self.old.2
            → self.new ≡ (self.old.0 ++ l ∷ [], self.old.1, drop 1 self.old.2) }
    {
        if self.propagated < self.trail.len() {
            self.propagated += 1;
        }
    }
}
