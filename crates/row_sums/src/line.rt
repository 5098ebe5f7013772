//! A `pol` line that is written and run at once.
//!
//! Each operation puts its item at the end of the line and does what the item says to a stack as a kernel has it. So whatever is on the stack
//! is what the items write, and no order of operations has to be believed in. What an id stands for is told by a kernel, so citing is an
//! operation by itself; all others are an item that is appended.

ghost use Rattle.std.specs.Prelude.{◌≡◌, [], pos, Some, IfOk, OnOk};
ghost use Rattle.proof_rules.specs.Expression.{Given, IsPostfixOf};
ghost use Rattle.proof_rules.specs.Running.{AppliesItem};

use kernel::Kernel;
use linear::{Lit, Seq, Var};
use normal_form::Normal;
use pol_stack::{Accumulator, Operand, Stack};
use proof_rules::StepFault;
use proof_steps::Item;
use propagate::{Id, Propagator};
use std::alloc::Global;

/// The items so far, and the stack to which they lead. After an error what the line has is not said.
#[derive(Drop)]
pub struct Line<'k> {
    items: Vec<Item>,
    stack: Stack<'k>,
    /// How many constraints are on the stack.
    depth: usize,
}

/// Does to a stack what an item says that is no id; what an id stands for a stack does not know.
fn run_item(alloc: Global, stack: &mut Stack<'_>, item: Item) -> Result<(), StepFault>
    ensures { (given : Given) → OnOk result (AppliesItem given item stack.old stack.new) }
{
    match item {
        Item::Id(_) => Err(StepFault::DeadId),
        Item::Axiom(literal) => Ok(stack.push_axiom(alloc, literal)?),
        Item::Add => stack.add_top_two(alloc),
        Item::Multiply(factor) => stack.multiply_top(alloc, factor),
        Item::Divide(divisor) => stack.divide_top(alloc, divisor),
        Item::Saturate => stack.saturate_top(alloc),
        Item::Weaken(variable) => stack.weaken_top(alloc, variable),
    }
}

/// A number as a line has it.
fn written(number: u128) -> Result<i128, StepFault> {
    match i128::try_from(number) {
        Ok(number) => Ok(number),
        Err(_) => Err(StepFault::TooLarge),
    }
}

impl<'k> Line<'k> {
    ghost use Rattle.std.specs.Prelude.{◌≡◌, [], pos, Some, IfOk, OnOk};
    ghost use Rattle.proof_rules.specs.Expression.{Given, IsPostfixOf};
    ghost use Rattle.proof_rules.specs.State.{constraint_of};
    ghost use Rattle.row_sums.specs.Lines.{LeavesItsStack};

    /// No item yet.
    pub fn new(alloc: Global) -> Self
        ensures items { result.items.items ≡ [] }
        ensures stack { result.stack ≡ [] }
    {
        Line {
            items: Vec::new(alloc),
            stack: Stack::new(alloc, Accumulator::new(alloc)),
            depth: 0,
        }
    }

    /// A line of which the items so far write one constraint.
    ///
    /// `OutOfMemory` comes where a growth was refused.
    pub fn resume(alloc: Global, items: Seq<Item>, value: Normal) -> Result<Self, StepFault>
        ensures { (given : Given) → IsPostfixOf given items value → IfOk result (λ line. LeavesItsStack given line) }
    {
        let mut stack = Stack::new(alloc, Accumulator::new(alloc));
        stack.push(Operand::Sum(value))?;
        Ok(Line {
            items: items.into_vec(),
            stack,
            depth: 1,
        })
    }

    /// How many items there are.
    pub fn len(&self) -> usize {
        self.items.len()
    }

    /// Whether there is no item yet.
    pub fn is_empty(&self) -> bool {
        self.items.is_empty()
    }

    /// Puts the constraint on top that a kernel has under an id, and hands it out.
    ///
    /// `DeadId` comes where there is none, and `OutOfMemory` where a growth was refused.
    pub fn cite_live<'a, P: Propagator>(
        &mut self,
        kernel: &'k Kernel<'a, P>,
        id: Id,
    ) -> Result<&'k Normal, StepFault>
        requires { LeavesItsStack (constraint_of kernel.now.state) self.old }
        ensures { OnOk result (LeavesItsStack (constraint_of kernel.now.state) self.new) }
    {
        let Some(constraint) = kernel.constraint(id) else {
            return Err(StepFault::DeadId);
        };
        self.cite(id, constraint)?;
        Ok(constraint)
    }

    /// Puts the constraint of an id on top.
    fn cite(&mut self, id: Id, constraint: &'k Normal) -> Result<(), StepFault>
        ensures { (given : Given) → given (pos id) ≡ Some constraint.entry.now → LeavesItsStack given self.old
            → OnOk result (LeavesItsStack given self.new) }
    {
        self.items.push(Item::Id(i128::from(id)))?;
        self.stack.push(Operand::Live(constraint))?;
        self.depth = self.depth.saturating_add(1);
        Ok(())
    }

    /// Puts an item at the end that is no id, and does what it says.
    fn append(&mut self, alloc: Global, item: Item) -> Result<(), StepFault>
        ensures { (given : Given) → LeavesItsStack given self.old
            → OnOk result (LeavesItsStack given self.new) }
    {
        self.items.push(item)?;
        run_item(alloc, &mut self.stack, item)?;
        Ok(())
    }

    /// Puts the axiom of a literal on top.
    ///
    /// `OutOfMemory` comes where a growth was refused.
    pub fn axiom(&mut self, alloc: Global, literal: Lit) -> Result<(), StepFault>
        ensures { (given : Given) → LeavesItsStack given self.old
            → OnOk result (LeavesItsStack given self.new) }
    {
        self.append(alloc, Item::Axiom(literal))?;
        self.depth = self.depth.saturating_add(1);
        Ok(())
    }

    /// Weakens the one on top by a variable.
    ///
    /// `StackShape` comes where there is none, and `OutOfMemory` where a growth was refused.
    pub fn weaken(&mut self, alloc: Global, variable: Var) -> Result<(), StepFault>
        ensures { (given : Given) → LeavesItsStack given self.old
            → OnOk result (LeavesItsStack given self.new) }
    {
        self.append(alloc, Item::Weaken(variable))
    }

    /// Adds the two on top.
    ///
    /// `StackShape` comes where there are not two, `TooLarge` where the sum is not within the limits, and `OutOfMemory` where a growth was refused.
    pub fn add(&mut self, alloc: Global) -> Result<(), StepFault>
        ensures { (given : Given) → LeavesItsStack given self.old
            → OnOk result (LeavesItsStack given self.new) }
    {
        self.append(alloc, Item::Add)?;
        self.depth = self.depth.saturating_sub(1);
        Ok(())
    }

    /// Adds the two on top, where there are two.
    ///
    /// `TooLarge` comes where the sum is not within the limits, and `OutOfMemory` where a growth was refused.
    pub fn add_if_two(&mut self, alloc: Global) -> Result<(), StepFault>
        ensures { (given : Given) → LeavesItsStack given self.old
            → OnOk result (LeavesItsStack given self.new) }
    {
        if self.depth < 2 {
            return Ok(());
        }
        self.add(alloc)
    }

    /// Saturates the one on top.
    ///
    /// `StackShape` comes where there is none, and `OutOfMemory` where a growth was refused.
    pub fn saturate(&mut self, alloc: Global) -> Result<(), StepFault>
        ensures { (given : Given) → LeavesItsStack given self.old
            → OnOk result (LeavesItsStack given self.new) }
    {
        self.append(alloc, Item::Saturate)
    }

    /// Multiplies the one on top; nothing is written for the factor 1.
    ///
    /// `StackShape` comes where there is none, `BadFactor` where the factor is 0, `TooLarge` where the product is not within the limits, and
    /// `OutOfMemory` where a growth was refused.
    pub fn multiply(&mut self, alloc: Global, factor: u128) -> Result<(), StepFault>
        ensures { (given : Given) → LeavesItsStack given self.old
            → OnOk result (LeavesItsStack given self.new) }
    {
        if factor == 1 {
            return Ok(());
        }
        self.append(alloc, Item::Multiply(written(factor)?))
    }

    /// Divides the one on top, rounding up; nothing is written for the divisor 1.
    ///
    /// `StackShape` comes where there is none, `BadFactor` where the divisor is 0, `TooLarge` where a line cannot have it, and
    /// `OutOfMemory` where a growth was refused.
    pub fn divide(&mut self, alloc: Global, divisor: u128) -> Result<(), StepFault>
        ensures { (given : Given) → LeavesItsStack given self.old
            → OnOk result (LeavesItsStack given self.new) }
    {
        if divisor == 1 {
            return Ok(());
        }
        self.append(alloc, Item::Divide(written(divisor)?))
    }

    /// Takes the one constraint that is left at the end, and the items that write it.
    ///
    /// `StackShape` comes where there is none or more than one, and `OutOfMemory` where a growth was refused.
    pub fn finish(self, alloc: Global) -> Result<(Seq<Item>, Normal), StepFault>
        ensures { (given : Given) → LeavesItsStack given self.entry → IfOk result (λ p. IsPostfixOf given p.0 p.1) }
    {
        let Line {
            items,
            mut stack,
            ..
        } = self;
        let value = stack.only(alloc)?;
        Ok((Seq::from_vec(items), value))
    }
}
