//! Constraints that no question has met yet.
//!
//! To enter a constraint into the lists of its literals costs more than to read it. A proof by cutting planes alone asks nothing
//! before its conclusion, and many constraints are deleted before anybody asks; so what comes in stands in a row first, behind the
//! constraints of the ledger, and moves there when something is asked. It is never copied: where memory ends midway, some have
//! moved, and the others stand where they stood.

ghost use Rattle.std.specs.Prelude.{◌≡◌, ◌<◌, ◌++◌, ◌∷◌, [], ℕ, List, None, OnErr, OnOk, Some, length, slice_index_or, slice_set};
ghost use Rattle.std.specs.Option.{option_copied};
ghost use Rattle.linear.specs.declared.term.Lit.{Lit};
ghost use Rattle.ledger.specs.Ledgers.{shown};
ghost use Rattle.watch.specs.Keeping.{IsKept};
ghost use Rattle.watch.specs.declared.rest.Rest.{Rest};
ghost use Rattle.watch.specs.Looking.{AreLookedAt};
ghost use Rattle.watch.specs.Rests.{IsRest};

use super::attaching::attach_waiting;
use ledger::{Ledger, Queue};
use normal_form::Normal;
use std::alloc::{AllocError, Global};
use std::collections::VecDeque;
use std::marker::Model;

/// A row of places, each with its constraint or empty.
#[derive(Drop)]
pub(crate) struct Arrivals {
    row: VecDeque<Option<Normal>>,
}

impl Model for Arrivals {
    ghost use Rattle.std.specs.Prelude.{List, Option};
    ghost use Rattle.normal_form.specs.Normal.{NormalConstraint};

    ghost Value = { List (Option NormalConstraint) };

    ghost view = { λ a. a.row.items };
}

/// So many places keep their memory, however few of them are left: a row that is short costs little, and would soon grow again.
const SHORT_ROW: usize = 1024;

/// Gives memory back where half of the room is empty: what moves to the ledger needs as much there.
fn give_back(row: &mut VecDeque<Option<Normal>>)
    ensures { row.new.items ≡ row.old.items }
{
    if row.capacity() > SHORT_ROW.max(row.len().saturating_mul(2)) {
        row.shrink_to_fit();
    }
}

impl Arrivals {
    /// No place.
    pub(crate) fn new(alloc: Global) -> Self
        ensures { result ≡ [] }
    {
        Arrivals {
            row: VecDeque::new(alloc),
        }
    }

    /// One constraint more, at the next place.
    pub(crate) fn push(&mut self, constraint: Normal) -> Result<(), AllocError>
        ensures ok { OnOk result (self.new ≡ self.old ++ Some constraint ∷ []) }
        ensures err { OnErr result (self.new ≡ self.old) }
    {
        match self.row.push_back(Some(constraint)) {
            Err(_) => return Err(AllocError),
            Ok(()) => return Ok(()),
        }
    }

    /// The constraint of a place, if there is one.
    pub(crate) fn get(&self, place: usize) -> Option<&Normal>
        requires { place < length self.now }
        ensures { option_copied result ≡ slice_index_or self.now place None }
    {
        self.row[place].as_ref()
    }

    /// Takes the constraint of a place out, if there is one. The place stays.
    pub(crate) fn take(&mut self, place: usize) -> Option<Normal>
        requires { place < length self.old }
        ensures value { result ≡ slice_index_or self.old place None }
        ensures rest { self.new ≡ slice_set self.old place None }
    {
        self.row[place].take()
    }

    /// Moves all of them to the next places of a ledger, where they wait to be looked at.
    pub(crate) fn attach_to(
        &mut self,
        alloc: Global,
        ledger: &mut Ledger,
        queue: &mut Queue,
    ) -> Result<(), AllocError>
        requires count { queue.old.1 ≡ length ledger.old.slots }
        requires looked_at { AreLookedAt (shown ledger.old.slots) ledger.old.propagated queue.old.0 }
        ensures kept { (levels : List Lit × List ℕ × List ℕ) → IsKept ledger.old levels queue.old.0 queue.old.1
            → IsKept ledger.new levels queue.new.0 queue.new.1 }
        ensures rest { (rest : Rest) → IsRest (shown ledger.old.slots) ledger.old.propagated rest → IsRest (shown ledger.new.slots) ledger.new.propagated rest }
        ensures same { ledger.new.slots ++ self.new ≡ ledger.old.slots ++ self.old }
        ensures none { OnOk result (self.new ≡ []) }
        ensures all { OnOk result (ledger.new.slots ≡ ledger.old.slots ++ self.old) }
    {
        while !self.row.is_empty() {
            attach_waiting(alloc, ledger, queue, &mut self.row[0])?;
            self.row.pop_front();
            give_back(&mut self.row);
        }
        Ok(())
    }
}
