//! The trail of a search: each literal with its reason and its level.
//!
//! The literals, their values and their places are a trail as a propagator has it (`Trail` of `propagate`), so a variable stands once and is looked up, which is asked for
//! each term of each constraint that the walk comes by. What only a search knows stands beside, literal by literal. The trail is told what comes onto it
//! and what goes, and is never made anew: a search that goes back by some decisions pays for what these brought. A literal whose variable stands
//! already is refused, and levels rise along the trail, so that nobody has to promise either.

ghost use Rattle.std.specs.Prelude.{◌≡◌, ◌<◌, ◌≤◌, ◌↔◌, ◌∷◌, ◌++◌, [], ℕ, Bool, false, length, slice_index_or};
ghost use Rattle.std.specs.Prelude.{IfOk, IsTrue, MatchOption, OnErr, OnOk};
ghost use Rattle.propagate.specs.Literals.{IsConsistent, IsOnce, among, lists};
ghost use Rattle.propagate.specs.Values.{AreValuesUnder};
ghost use Rattle.analysis.specs.Biting.{greatest_level, literals_up_to};
ghost use Rattle.analysis.specs.Spots.{makes_true};
ghost use Rattle.analysis.specs.Trails.{literals_of, raised};

use super::entry::Entry;
use super::note::Note;
use super::spot::Spot;
use linear::{Lit, Var};
use propagate::{Trail, Value};
use std::alloc::{AllocError, Global};
use std::marker::Model;

/// A trail, seen as its entries, with room for the variables below a number.
#[derive(Drop)]
pub struct SearchTrail {
    trail: Trail,
    /// What is noted of each literal, in the order of the trail.
    notes: Vec<Note>,
}

impl Model for SearchTrail {
    ghost use Rattle.std.specs.Prelude.{◌≡◌, length};
    ghost use Rattle.analysis.specs.Trails.{IsTrail, TrailState, entries_of};

    ghost Value = { TrailState };

    ghost view = { λ t. record { entries = entries_of t.trail.0 t.notes.items; variables = t.trail.1 } };

    ghost invariant = { λ t. (length t.notes.items ≡ length t.trail.0) × IsTrail (entries_of t.trail.0 t.notes.items) };
}

impl SearchTrail {
    /// No entry, and room for so many variables; there will be more room where it is needed.
    pub fn new(alloc: Global, count: usize) -> Result<Self, AllocError>
        ensures entries { IfOk result (λ t. t.entries ≡ []) }
        ensures variables { IfOk result (λ t. t.variables ≡ count) }
    {
        let mut trail = Trail::new(alloc);
        trail.widen(count)?;
        Ok(SearchTrail {
            trail,
            notes: Vec::new(alloc),
        })
    }

    /// Makes room for a variable, if there is none.
    fn widen(&mut self, variable: Var) -> Result<(), AllocError>
        ensures entries { self.new.entries ≡ self.old.entries }
        ensures more { self.old.variables ≤ self.new.variables }
        ensures ok { OnOk result (variable.0 < self.new.variables) }
    {
        self.trail.widen(variable.0 as usize + 1)
    }

    /// Whether a variable stands.
    fn has(&self, variable: Var) -> bool
        ensures stands { result ≡ false ↔ ((negated : Bool) → among (literals_of self.now.entries) (variable.0) negated ≡ false) }
        ensures inside { IsTrue result → variable.0 < self.now.variables }
    {
        self.trail.reveal();
        if variable.0 as usize >= self.trail.count() {
            return false;
        }
        let literal = Lit {
            var: variable,
            negated: false,
        };
        !self.trail.leaves_free(literal)
    }

    /// Puts an entry behind the others, unless its variable stands already; whether that was done. Its level is raised to the greatest one.
    pub fn push(&mut self, entry: Entry) -> Result<bool, AllocError>
        ensures pushed { IfOk result (λ yes. IsTrue yes → self.new.entries ≡ self.old.entries ++ raised self.old.entries entry ∷ []) }
        ensures refused { IfOk result (λ yes. yes ≡ false
            → ((negated : Bool) → among (literals_of self.old.entries) (entry.literal.var.0) negated ≡ false) → ⊥) }
        ensures unchanged { IfOk result (λ yes. yes ≡ false → self.new ≡ self.old) }
        ensures err { OnErr result (self.new.entries ≡ self.old.entries) }
        ensures more { self.old.variables ≤ self.new.variables }
    {
        let Entry {
            literal,
            reason,
            level,
        } = entry;
        if self.has(literal.var) {
            return Ok(false);
        }
        let level = level.max(self.open_decisions());
        self.widen(literal.var)?;
        self.notes.push(Note { reason, level })?;
        self.trail.push(literal);
        Ok(true)
    }

    /// Takes the last entry off, if there is one.
    pub fn pop(&mut self) -> Option<Entry>
        ensures last { MatchOption result ((self.old.entries ≡ []) × (self.new ≡ self.old)) (λ e. self.old.entries ≡ self.new.entries ++ e ∷ []) }
        ensures variables { self.new.variables ≡ self.old.variables }
    {
        let literal = self.trail.pop()?;
        let Note { reason, level } = self.notes.pop()?;
        Some(Entry {
            literal,
            reason,
            level,
        })
    }

    /// How many entries there are.
    #[tactic(auto, using(crate::proofs::Trails::as_many))]
    pub fn len(&self) -> usize
        ensures { result ≡ length self.now.entries }
    {
        self.notes.len()
    }

    /// The entry of a place.
    pub fn entry(&self, place: usize) -> Entry
        requires { place < length self.now.entries }
        ensures { result ≡ slice_index_or self.now.entries place result }
    {
        let literal = self.trail.assigned()[place];
        let Note { reason, level } = self.notes[place];
        Entry {
            literal,
            reason,
            level,
        }
    }

    /// The literals, the first one first: none twice, and none beside its opposite.
    #[tactic(auto, using(crate::proofs::Trails::literals_back))]
    pub fn literals(&self) -> &[Lit]
        ensures value { result.now ≡ literals_of self.now.entries }
        ensures once { IsOnce result.now }
        ensures consistent { IsConsistent result.now }
    {
        self.trail.assigned()
    }

    /// The value of each variable.
    #[tactic(auto, using(crate::proofs::Trails::literals_back))]
    pub fn values(&self) -> &[Value]
        ensures count { length result.now ≡ self.now.variables }
        ensures values { AreValuesUnder (literals_of self.now.entries) result.now }
    {
        self.trail.values()
    }

    /// So many decisions are open: the greatest level, which is that of the last entry.
    pub fn open_decisions(&self) -> u32
        ensures { result ≡ greatest_level self.now.entries }
    {
        let count = self.notes.len();
        if count == 0 {
            return 0;
        }
        self.notes[count - 1].level
    }

    /// Where a variable stands, if it does.
    pub(crate) fn spot(&self, variable: Var) -> Option<Spot>
        ensures { (level : ℕ) (negated : Bool) → among (literals_up_to level self.now.entries) (variable.0) negated ≡ makes_true result negated level }
    {
        if !self.has(variable) {
            return None;
        }
        let place = self.trail.position(variable.0 as usize);
        let Entry { literal, level, .. } = self.entry(place);
        Some(Spot {
            negated: literal.negated,
            level,
            place,
        })
    }

    /// Whether a literal is true at a level.
    pub(crate) fn is_true_at(&self, literal: Lit, level: u32) -> bool
        ensures { result ≡ lists (literals_up_to level self.now.entries) literal }
    {
        match self.spot(literal.var) {
            Some(spot) => spot.negated == literal.negated && spot.level <= level,
            None => false,
        }
    }

    /// The place since which a literal is false, if it is.
    pub(crate) fn false_since(&self, literal: Lit) -> Option<usize> {
        match self.spot(literal.var) {
            Some(spot) if spot.negated != literal.negated => Some(spot.place),
            _ => None,
        }
    }

    /// Whether a literal was false before a place.
    pub(crate) fn is_false_before(&self, literal: Lit, place: usize) -> bool {
        match self.false_since(literal) {
            Some(since) => since < place,
            None => false,
        }
    }
}
