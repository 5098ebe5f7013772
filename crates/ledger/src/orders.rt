//! The orders in which the terms of constraints are passed, by place, and how many of the first ones are passed already.
//!
//! A place behind the last one that has an order has none, so that where all constraints are clauses and cardinality constraints nothing
//! is kept.

ghost use Rattle.std.specs.Prelude.{◌≡◌, ◌≤◌, [], ℕ, OnOk, slice_index_or};
ghost use Rattle.normal_form.specs.Normal.{IsNormal};
ghost use Rattle.ledger.specs.Orders.{IsDecreasing, order_at};

use super::order::order_of;
use super::passed::Passed;
use normal_form::Normal;
use occurrences::Table;
use std::alloc::{AllocError, Global};
use std::marker::Model;

/// An order for each place, none where the coefficients decrease as the terms stand, and how many of its terms are passed.
#[derive(Drop)]
pub(crate) struct Orders {
    rows: Table<u32>,
    passed: Passed,
    alloc: Global,
}

impl Model for Orders {
    ghost use Rattle.ledger.specs.Orders.{Ordering};

    ghost Value = { Ordering };

    ghost view = { λ o. record { orders = o.rows; passed = o.passed } };
}

impl Orders {
    /// No order.
    pub(crate) fn new(alloc: Global) -> Self
        ensures { result ≡ record { orders = []; passed = [] } }
    {
        Orders {
            rows: Table::new(alloc),
            passed: Passed::new(alloc),
            alloc,
        }
    }

    /// The order of a place.
    pub(crate) fn order(&self, place: usize) -> &[u32]
        ensures { result.now ≡ slice_index_or self.now.orders place [] }
    {
        self.rows.row_or_none(place)
    }

    /// How many of the first terms at a place are passed.
    pub(crate) fn passed(&self, place: usize) -> usize
        ensures { result ≡ slice_index_or self.now.passed place 0 }
    {
        self.passed.get(place)
    }

    /// So many terms are passed at a place now.
    pub(crate) fn pass(&mut self, place: usize, count: usize)
        ensures orders { self.new.orders ≡ self.old.orders }
        ensures others { (k : ℕ) → (k ≡ place → ⊥) → slice_index_or self.new.passed k 0 ≡ slice_index_or self.old.passed k 0 }
        ensures most { slice_index_or self.new.passed place 0 ≤ count }
    {
        self.passed.set(place, count);
    }

    /// A literal was backtracked: no term is passed any more.
    pub(crate) fn forget_passed(&mut self)
        ensures orders { self.new.orders ≡ self.old.orders }
        ensures none { (k : ℕ) → slice_index_or self.new.passed k 0 ≡ 0 }
    {
        self.passed.forget();
    }

    /// Gives a place the order of a constraint, of which no term is passed.
    pub(crate) fn give(&mut self, place: usize, constraint: &Normal) -> Result<(), AllocError>
        ensures others { (k : ℕ) → (k ≡ place → ⊥) → order_at self.new k ≡ order_at self.old k }
        ensures ok { OnOk result (IsDecreasing constraint.now.terms (order_at self.new place).places) }
        ensures none { OnOk result ((order_at self.new place).passed ≡ 0) }
        ensures normal { OnOk result (IsNormal constraint.now) }
    {
        let order = order_of(self.alloc, constraint)?;
        self.rows.put(self.alloc, place, order)?;
        // Two literals watch a clause, so its terms are not passed.
        if constraint.degree() > 1 {
            self.passed.widen(place.saturating_add(1))?;
        }
        self.passed.set(place, 0);
        Ok(())
    }

    /// Takes the order of a place away.
    pub(crate) fn take_out(&mut self, place: usize)
        ensures { (k : ℕ) → (k ≡ place → ⊥) → order_at self.new k ≡ order_at self.old k }
    {
        // No memory is asked for to keep nothing.
        let _ = self.rows.put(self.alloc, place, Vec::new(self.alloc));
    }
}
