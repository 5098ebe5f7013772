//! What stands during a run: the literals that are decided or forced, in the order in which they came, each with its reason and the number of
//! decisions since which it stands, and the value of each variable under them.
//!
//! There is one of it from the first turn to the last, and all of it is the trail that the analysis reads. A decision adds what it forces. Where decisions
//! are undone, or something was learned, the propagator tells which of the literals stay, the first ones, and what stands behind them (`retracing`): the
//! others are taken off one by one. So a turn costs what has changed, and nothing is made anew for a conflict.
//!
//! A variable stands once. A propagator may tell a literal again that stands already, and that is left out; one whose opposite stands it tells only on the
//! way to a conflict, and then nothing is promised of the literals. Of reasons and levels nothing is promised either. They are for the analysis alone: what
//! that comes to is a derivation whatever they are, and whether it bites is asked under the literals.

use super::choice::is_free;
use analysis::{Entry, SearchTrail, bites_under};
use branching::{Brancher, Value};
use linear::{Lit, Seq};
use normal_form::Normal;
use propagate::Id;
use std::alloc::{AllocError, Global};
use std::marker::Model;

/// The number of so many decisions, as a level.
fn level_of(decisions: usize) -> u32 {
    u32::try_from(decisions).unwrap_or(u32::MAX)
}

/// How many entries come before the last ones that are above a level.
fn count_up_to(trail: &SearchTrail, level: u32) -> usize {
    let mut count = trail.len();
    while count > 0 && trail.entry(count - 1).level > level {
        count -= 1;
    }
    count
}

/// Tells a brancher which literals go, all but the first so many, from the last one on.
fn tell_unassigned(literals: &[Lit], kept: usize, brancher: &mut Box<dyn Brancher>) {
    let mut place = literals.len();
    while place > kept {
        place -= 1;
        brancher.unassigned(literals[place]);
    }
}

/// The literals that stand, with the values that they give the first variables.
#[derive(Drop)]
pub(crate) struct Standing {
    trail: SearchTrail,
    count: usize,
    /// How many literals came so far, those among them that were taken off and came back.
    pushed: u64,
}

impl Model for Standing {
    ghost use Rattle.std.specs.Prelude.{◌≤◌};
    ghost use Rattle.analysis.specs.Trails.{literals_of};
    ghost use Rattle.search.specs.Standing.{Assigned};

    ghost Value = { Assigned };

    ghost view = { λ s. record { literals = literals_of s.trail.entries; count = s.count } };

    ghost invariant = { λ s. s.count ≤ s.trail.variables };
}

impl Standing {
    ghost use Rattle.std.specs.Prelude.{◌≡◌, ◌-◌, ◌↔◌, [], ◌∷◌, IfOk, IsTrue, OnOk, length, map, take};
    ghost use Rattle.analysis.specs.Biting.{Bites};
    ghost use Rattle.propagate.specs.Literals.{IsOnce};
    ghost use Rattle.search.specs.Standing.{HasMore};
    ghost use Rattle.propagate.specs.Values.{AreValuesUnder};

    /// No literal, and a number of variables, all free.
    pub(crate) fn new(alloc: Global, count: usize) -> Result<Self, AllocError>
        ensures literals { IfOk result (λ s. s.literals ≡ []) }
        ensures count { IfOk result (λ s. s.count ≡ count) }
    {
        Ok(Standing {
            trail: SearchTrail::new(alloc, count)?,
            count,
            pushed: 0,
        })
    }

    /// Begins anew with so many variables, where it has another number of them.
    pub(crate) fn fit(&mut self, alloc: Global, count: usize) -> Result<(), AllocError>
        ensures { OnOk result (self.new.count ≡ count) }
    {
        if self.count != count {
            *self = Standing::new(alloc, count)?;
        }
        Ok(())
    }

    /// One literal more, unless its variable stands already.
    fn push(&mut self, entry: Entry) -> Result<(), AllocError>
        ensures more { OnOk result (HasMore self.old self.new (entry.literal ∷ [])) }
        ensures count { self.new.count ≡ self.old.count }
    {
        if self.trail.push(entry)? {
            self.pushed = self.pushed.saturating_add(1);
        }
        Ok(())
    }

    /// A literal is decided, the last one of so many.
    pub(crate) fn decide(&mut self, literal: Lit, decisions: usize) -> Result<(), AllocError>
        ensures more { OnOk result (HasMore self.old self.new (literal ∷ [])) }
        ensures count { self.new.count ≡ self.old.count }
    {
        self.push(Entry {
            literal,
            reason: None,
            level: level_of(decisions),
        })
    }

    /// The literals of a chain are forced, where so many are decided.
    pub(crate) fn force(&mut self, forced: &[(Lit, Id)], decisions: usize) -> Result<(), AllocError>
        ensures more { OnOk result (HasMore self.old self.new (map (λ p. p.0) forced.now)) }
        ensures count { self.new.count ≡ self.old.count }
    {
        let level = level_of(decisions);
        for (literal, reason) in forced {
            self.push(Entry {
                literal: *literal,
                reason: Some(*reason),
                level,
            })?;
        }
        Ok(())
    }

    /// The level of a literal that comes without a reason behind one of a level: the number of decisions up to the first one that does not
    /// stand yet, since those before it were forced.
    fn level_behind(&self, decisions: &[Lit], level: u32) -> u32 {
        let first = level as usize;
        for place in first..decisions.len() {
            if is_free(self.values(), decisions[place].var) {
                return level_of(place + 1);
            }
        }
        level
    }

    /// What decisions extend to behind the literals that stand, each literal with its reason, if it has one.
    pub(crate) fn extend(
        &mut self,
        rest: &[(Lit, Option<Id>)],
        decisions: &[Lit],
    ) -> Result<(), AllocError>
        ensures more { OnOk result (HasMore self.old self.new (map (λ p. p.0) rest.now)) }
        ensures count { self.new.count ≡ self.old.count }
    {
        let mut level = self.trail().open_decisions();
        for (literal, reason) in rest {
            if reason.is_none() {
                level = self.level_behind(decisions, level);
            }
            self.push(Entry {
                literal: *literal,
                reason: *reason,
                level,
            })?;
        }
        Ok(())
    }

    /// Takes the last literal off, if there is one. Its variable is free then.
    fn pop(&mut self)
        ensures literals { self.new.literals ≡ take (length self.old.literals - 1) self.old.literals }
        ensures count { self.new.count ≡ self.old.count }
    {
        self.trail.pop();
    }

    /// The first so many literals alone. A brancher is told of the others, from the last one on.
    pub(crate) fn keep(&mut self, count: usize, brancher: &mut Box<dyn Brancher>)
        ensures literals { self.new.literals ≡ take count self.old.literals }
        ensures count { self.new.count ≡ self.old.count }
    {
        tell_unassigned(self.literals(), count, brancher);
        while self.literals().len() > count {
            self.pop();
        }
    }

    /// Takes off what came with more decisions than so many. A brancher is told, from the last literal on.
    pub(crate) fn go_back(&mut self, decisions: usize, brancher: &mut Box<dyn Brancher>)
        ensures { self.new.count ≡ self.old.count }
    {
        let count = count_up_to(&self.trail, level_of(decisions));
        self.keep(count, brancher);
    }

    /// Tells a brancher which of its picks do not stand, so that it may pick them again.
    pub(crate) fn give_back(&self, picks: &[Lit], brancher: &mut Box<dyn Brancher>) {
        for literal in picks {
            if is_free(self.values(), literal.var) {
                brancher.unassigned(*literal);
            }
        }
    }

    /// Whether a constraint has negative slack, or forces a literal, under the literals.
    pub(crate) fn bites(&self, constraint: &Normal) -> bool
        ensures { IsTrue result ↔ Bites self.now.literals constraint.now }
    {
        bites_under(constraint, &self.trail)
    }

    /// The value of each of the first variables.
    pub(crate) fn values(&self) -> &[Value]
        ensures count { length result.now ≡ self.now.count }
        ensures exact { AreValuesUnder self.now.literals result.now }
    {
        &self.trail.values()[..self.count]
    }

    /// The literals, none of them twice.
    pub(crate) fn literals(&self) -> &[Lit]
        ensures value { result.now ≡ self.now.literals }
        ensures once { IsOnce result.now }
    {
        self.trail.literals()
    }

    /// A copy of the literals.
    pub(crate) fn to_literals(&self, alloc: Global) -> Result<Seq<Lit>, AllocError>
        ensures { IfOk result (λ all. all ≡ self.now.literals) }
    {
        let mut all = Vec::with_capacity(alloc, self.literals().len())?;
        all.extend_from_slice(self.literals())?;
        Ok(Seq::from_vec(all))
    }

    /// The trail of the literals, with reasons and levels.
    pub(crate) fn trail(&self) -> &SearchTrail {
        &self.trail
    }

    /// How many literals came so far.
    pub(crate) fn pushed(&self) -> u64 {
        self.pushed
    }
}
