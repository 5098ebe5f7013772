//! Which clauses have a literal, listed as far as that was asked for.
//!
//! Unit propagation has no use for it: a clause is found by the two literals that watch it. Only a step by redundance asks which
//! constraints have a literal that its witness touches. So clauses wait to be listed until then: a proof without such steps pays
//! nothing for the lists, and of clauses that come and go between two such steps none is listed.

ghost use Rattle.std.specs.Prelude.{◌≡◌, ◌+◌, ◌*◌, ◌^◌, ◌<◌, ◌≤◌, ℕ, List, [], OnErr, OnOk, length, min, slice_index_or};
ghost use Rattle.linear.specs.declared.term.Lit.{Lit};
ghost use Rattle.normal_form.specs.Normal.{IsNormal, variable_bound};
ghost use Rattle.occurrences.specs.declared.occurrence.Occurrence.{Occurrence};
ghost use Rattle.occurrences.specs.Occurrences.{HasMore, entries_of};
ghost use Rattle.occurrences.specs.Rows.{all_in};

use super::entry_lists::{enter, leave};
use super::entry_table::EntryTable;
use super::occurrence::Row;
use normal_form::Normal;
use std::alloc::{AllocError, Global};
use std::marker::Model;

/// Lists of entries by literal, and of how many places they are: those behind wait.
#[derive(Drop)]
pub struct ClauseIndex {
    rows: EntryTable,
    count: usize,
}

impl Model for ClauseIndex {
    ghost use Rattle.occurrences.specs.Occurrences.{Listed};

    ghost Value = { Listed };

    ghost view = { λ c. record { count = c.count; rows = c.rows } };
}

impl ClauseIndex {
    /// No lists, and no place.
    pub fn new(alloc: Global) -> Self
        ensures { result ≡ record { count = 0; rows = [] } }
    {
        ClauseIndex {
            rows: EntryTable::new(alloc),
            count: 0,
        }
    }

    /// Empty lists for the numbers below a bound that have none.
    pub fn widen(&mut self, bound: usize) -> Result<(), AllocError>
        ensures count { self.new.count ≡ self.old.count }
        ensures kept { (k : ℕ) → slice_index_or self.new.rows k [] ≡ slice_index_or self.old.rows k [] }
        ensures longer { length self.old.rows ≤ length self.new.rows }
        ensures ok { OnOk result (bound ≤ length self.new.rows) }
    {
        self.rows.widen(bound)
    }

    /// How many places are listed.
    pub fn count(&self) -> usize
        ensures { result ≡ self.now.count }
    {
        self.count
    }

    /// The list of a number, and none above the bound.
    pub fn row(&self, number: usize) -> Row<'_>
        ensures { all_in result ≡ slice_index_or self.now.rows number [] }
    {
        self.rows.row(number)
    }

    /// Lists the clause of the next place.
    pub fn enter(&mut self, clause: &Normal) -> Result<(), AllocError>
        requires table { 2 * variable_bound clause.now.terms ≤ length self.old.rows }
        requires room { self.old.count + 1 < 2 ^ 64 }
        ensures length { length self.new.rows ≡ length self.old.rows }
        ensures ok { OnOk result (HasMore (entries_of self.old.rows) self.new.rows self.old.count clause.now.terms) }
        ensures next { OnOk result (self.new.count ≡ self.old.count + 1) }
        ensures err { OnErr result (HasMore (entries_of self.old.rows) self.new.rows self.old.count []) }
        ensures same { OnErr result (self.new.count ≡ self.old.count) }
    {
        enter(&mut self.rows, self.count, clause)?;
        self.count += 1;
        Ok(())
    }

    /// Lists nothing of the next place.
    pub fn pass_over(&mut self)
        requires { self.old.count + 1 < 2 ^ 64 }
        ensures { self.new ≡ record self.old { count = self.old.count + 1 } }
    {
        self.count += 1;
    }

    /// The last place goes, of which nothing is listed.
    pub fn leave_out(&mut self, place: usize)
        ensures { self.new ≡ record self.old { count = min self.old.count place } }
    {
        self.count = self.count.min(place);
    }

    /// The last place goes, with a clause that is listed unless it waits.
    pub fn leave(&mut self, place: usize, clause: &Normal)
        requires table { 2 * variable_bound clause.now.terms ≤ length self.old.rows }
        requires normal { IsNormal clause.now }
        ensures length { length self.new.rows ≡ length self.old.rows }
        ensures waits { self.old.count ≤ place → self.new ≡ self.old }
        ensures count { place < self.old.count → self.new.count ≡ place }
        ensures left { place < self.old.count → (before : Lit → List Occurrence) → HasMore before self.old.rows place clause.now.terms
            → HasMore before self.new.rows place [] }
    {
        if place < self.count {
            leave(&mut self.rows, clause, clause.len());
            self.count = place;
        }
    }
}
