//! What the walk has: a constraint, summed up in place, and the items of the `pol` line that derives it.
//!
//! A walk adds reason after reason to what it has, and looks at the sum between. The sum stands in an accumulator, so that
//! each addition costs what is added, and is put in order once, when something is learned. Both are kept from one walk to the
//! next for their memory.

ghost use Rattle.std.specs.Prelude.{◌≡◌, pos, Some, IfOk, IfSome, OnOk};
ghost use Rattle.proof_rules.specs.Expression.{Given, IsPostfixOf};
ghost use Rattle.analysis.specs.Lines.{BeginsWith, GoesOnFrom};

use super::derivation::Derivation;
use accumulate::Accumulator;
use linear::Var;
use normal_form::{CutFault, Normal};
use proof_steps::Item;
use propagate::Id;
use std::alloc::{AllocError, Global};

/// A running sum, and the items that write an expression whose value it is.
#[derive(Debug, Drop)]
pub(crate) struct Resolvent {
    pub(crate) items: Vec<Item>,
    pub(crate) sum: Accumulator,
}

/// Whether a coefficient of a sum is above its degree.
fn exceeds_degree(sum: &Accumulator) -> bool {
    for variable in sum.marks() {
        if sum.net(Var(*variable)).unsigned_abs() > sum.degree() {
            return true;
        }
    }
    false
}

impl Resolvent {
    /// Nothing yet.
    pub(crate) fn new(alloc: Global) -> Self {
        Resolvent {
            items: Vec::new(alloc),
            sum: Accumulator::new(alloc),
        }
    }

    /// Becomes the constraint of an id.
    pub(crate) fn begin(&mut self, id: Id, constraint: &Normal) -> Result<(), AllocError>
        ensures begins { OnOk result (BeginsWith id self.new.items.items) }
        ensures derived { (given : Given) → given (pos id) ≡ Some constraint.now → OnOk result (IsPostfixOf given self.new.items.items self.new.sum) }
    {
        self.items.clear();
        self.items.push(Item::Id(i128::from(id)))?;
        self.sum.load(constraint)?;
        Ok(())
    }

    /// Adds the constraint of an id.
    pub(crate) fn add_cited(&mut self, id: Id, constraint: &Normal) -> Result<(), CutFault>
        ensures more { OnOk result (GoesOnFrom self.old.items.items self.new.items.items) }
        ensures derived { (given : Given) → IsPostfixOf given self.old.items.items self.old.sum → given (pos id) ≡ Some constraint.now
            → OnOk result (IsPostfixOf given self.new.items.items self.new.sum) }
    {
        self.items.push(Item::Id(i128::from(id)))?;
        self.items.push(Item::Add)?;
        self.sum.add(constraint)?;
        Ok(())
    }

    /// Adds what was derived beside it.
    pub(crate) fn add(&mut self, other: Derivation) -> Result<(), CutFault>
        ensures more { OnOk result (GoesOnFrom self.old.items.items self.new.items.items) }
        ensures derived { (given : Given) → IsPostfixOf given self.old.items.items self.old.sum → IsPostfixOf given other.items.items other.constraint
            → OnOk result (IsPostfixOf given self.new.items.items self.new.sum) }
    {
        self.items.extend_from_slice(&other.items)?;
        self.items.push(Item::Add)?;
        self.sum.add(&other.constraint)?;
        Ok(())
    }

    /// Saturates it; nothing is written where no coefficient is above the degree.
    pub(crate) fn saturate(&mut self) -> Result<(), AllocError>
        ensures more { OnOk result (GoesOnFrom self.old.items.items self.new.items.items) }
        ensures derived { (given : Given) → IsPostfixOf given self.old.items.items self.old.sum → OnOk result (IsPostfixOf given self.new.items.items self.new.sum) }
    {
        if exceeds_degree(&self.sum) {
            self.items.push(Item::Saturate)?;
            self.sum.saturate();
        }
        Ok(())
    }
}
