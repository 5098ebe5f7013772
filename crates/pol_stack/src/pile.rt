//! The operands of a `pol` step that are not in its hands.
//!
//! A sum to which more is added stands in an accumulator: so an addition costs what is added, and not what was summed
//! up before. There is one accumulator, and it holds the sum that is nearest to the top; the other operands stand above
//! and below it. Where two operands above it are to become such a sum themselves, it is read off first. A constraint that is
//! weakened again and again stands in it too, so that each time costs one look and not the whole constraint. A sum that is saturated,
//! multiplied or divided stays there, so that where that comes after each addition nothing is copied. Which of its
//! ways an addition or a weakening takes says nothing of what it gives, and is chosen by what it costs.

ghost use Rattle.std.specs.Prelude.{◌≡◌, ◌∷◌, [], IsTrue, IfErr, OnOk, OnErr, IsErrOf};
ghost use Rattle.proof_rules.specs.Expression.{Given};
ghost use Rattle.proof_rules.specs.Running.{AppliesItem};
ghost use Rattle.proof_rules.specs.Fault.{OrMemory, IsAddFault};
ghost use Rattle.proof_steps.specs.declared.step.Item.TheVariants as items;
ghost use Rattle.pol_stack.specs.Stack.{stack_of, with_sum, stacked};

use super::operand::Operand;
use accumulate::Accumulator;
use linear::Var;
use normal_form::Normal;
use proof_rules::StepFault;
use std::alloc::{AllocError, Global};
use std::marker::Model;

/// What the accumulator of a pile holds.
#[derive(Clone, Copy, Debug)]
pub(crate) enum Held {
    /// Nothing that stands on the pile.
    Nothing,
    /// The sum that stands between the operands above and those below.
    RunningSum,
}

/// Operands one on another.
#[derive(Drop)]
pub(crate) struct Pile<'a> {
    below: Vec<Operand<'a>>,
    held: Held,
    sum: Accumulator,
    above: Vec<Operand<'a>>,
    /// How many terms were added to the running sum, less those of copies made above it since. Only speed depends on it.
    added: usize,
}

impl<'a> Model for Pile<'a> {
    ghost use Rattle.std.specs.Prelude.{List};
    ghost use Rattle.normal_form.specs.Normal.{NormalConstraint};
    ghost use Rattle.pol_stack.specs.Stack.{stacked};

    ghost Value = { List NormalConstraint };

    ghost view = { λ p. stacked p.above.items p.held p.sum p.below.items };
}

/// Whether a running sum stands on top.
fn is_on_top(held: &Held, above: &Vec<Operand<'_>>) -> bool
    ensures yes { IsTrue result → (held.now ≡ Held.RunningSum) × (above.now.items ≡ []) }
{
    above.is_empty() && matches!(held, Held::RunningSum)
}

/// Reads a running sum off, and puts it on the operands below.
fn read_off<'a>(
    alloc: Global,
    held: &mut Held,
    sum: &mut Accumulator,
    below: &mut Vec<Operand<'a>>,
) -> Result<(), AllocError>
    ensures same { with_sum held.new sum.new (stack_of below.new.items) ≡ with_sum held.old sum.old (stack_of below.old.items) }
    ensures held { OnOk result (held.new ≡ Held.Nothing) }
{
    match *held {
        Held::Nothing => Ok(()),
        Held::RunningSum => {
            below.reserve(1)?;
            let taken = sum.take(alloc)?;
            below.push_reserved(Operand::Sum(taken));
            *held = Held::Nothing;
            Ok(())
        }
    }
}

/// Puts a running sum, and what stands above it, on the operands below.
fn put_away<'a>(
    alloc: Global,
    held: &mut Held,
    sum: &mut Accumulator,
    above: &mut Vec<Operand<'a>>,
    below: &mut Vec<Operand<'a>>,
) -> Result<(), AllocError>
    ensures same { stacked above.new.items held.new sum.new below.new.items ≡ stacked above.old.items held.old sum.old below.old.items }
    ensures above { OnOk result (above.new.items ≡ []) }
    ensures held { OnOk result (held.new ≡ Held.Nothing) }
{
    read_off(alloc, held, sum, below)?;
    below.append(above)?;
    Ok(())
}

impl<'a> Pile<'a> {
    ghost use Rattle.std.specs.Prelude.{◌≡◌, ◌∷◌, [], true, false, IsTrue, MatchOption, IfOk, IfErr, OnOk, OnErr, IsErrOf};
    ghost use Rattle.proof_rules.specs.Expression.{Given};
    ghost use Rattle.proof_rules.specs.Running.{AppliesItem};
    ghost use Rattle.proof_rules.specs.Fault.{OrMemory, IsAddFault, IsFactorFault, IsMultiplyFault};
    ghost use Rattle.proof_steps.specs.declared.step.Item.TheVariants as items;
    ghost use Rattle.pol_stack.specs.Stack.{operand_value, IsSumOnTop, IsSumFault, IsWeakeningOnTop, IsAddedOnTop, IsTopSaturated, IsTopSumFault, IsTopWeakened};

    /// No operand, with an accumulator to add up in, whatever that holds.
    pub(crate) fn new(alloc: Global, sum: Accumulator) -> Self
        ensures { result ≡ [] }
    {
        Pile {
            below: Vec::new(alloc),
            held: Held::Nothing,
            sum,
            above: Vec::new(alloc),
            added: 0,
        }
    }

    /// Gives the accumulator back.
    pub(crate) fn into_accumulator(self) -> Accumulator {
        self.sum
    }

    /// Puts an operand on top; where memory runs out, it is given back.
    pub(crate) fn push(&mut self, operand: Operand<'a>) -> Result<(), Operand<'a>>
        ensures ok { OnOk result (self.new ≡ operand_value operand.entry ∷ self.old) }
        ensures err { OnErr result (self.new ≡ self.old) }
        ensures back { IfErr result (λ o. operand_value o ≡ operand_value operand.entry) }
    {
        match self.above.push(operand) {
            Ok(()) => Ok(()),
            Err(refused) => Err(refused.value),
        }
    }

    /// Takes the operand on top. A running sum there is read off, which takes memory.
    pub(crate) fn pop(&mut self, alloc: Global) -> Result<Option<Operand<'a>>, AllocError>
        ensures top { IfOk result (λ top. MatchOption top ((self.old ≡ []) × (self.new ≡ [])) (λ o. self.old ≡ operand_value o ∷ self.new)) }
        ensures err { OnErr result (self.new ≡ self.old) }
    {
        if let Some(operand) = self.above.pop() {
            return Ok(Some(operand));
        }
        match self.held {
            Held::Nothing => Ok(self.below.pop()),
            Held::RunningSum => {
                let taken = self.sum.take(alloc)?;
                self.held = Held::Nothing;
                Ok(Some(Operand::Sum(taken)))
            }
        }
    }

    /// Adds an operand to the running sum, where that is on top; whether it is.
    pub(crate) fn add_to_sum(&mut self, operand: &Operand<'_>) -> Result<bool, StepFault>
        ensures added { IfOk result (λ yes. IsTrue yes → IsAddedOnTop (operand_value operand.now) self.old self.new) }
        ensures left { IfOk result (λ yes. yes ≡ false → self.new ≡ self.old) }
        ensures err { OnErr result (self.new ≡ self.old) }
        ensures fault { IfErr result (λ f. OrMemory f (IsTopSumFault (operand_value operand.now) self.old f)) }
    {
        if !is_on_top(&self.held, &self.above) {
            return Ok(false);
        }
        self.sum.add(operand.constraint())?;
        self.added = self.added.saturating_add(operand.constraint().len());
        Ok(true)
    }

    /// Adds what stands under the running sum to it, where that is on top; whether it is. `StackShape` where nothing stands there.
    pub(crate) fn add_from_below(&mut self) -> Result<bool, StepFault>
        ensures added { (given : Given) → IfOk result (λ yes. IsTrue yes → AppliesItem given items.Add self.old self.new) }
        ensures left { IfOk result (λ yes. yes ≡ false → self.new ≡ self.old) }
        ensures err { OnErr result (self.new ≡ self.old) }
        ensures fault { IfErr result (λ f. OrMemory f (IsAddFault self.old f)) }
    {
        if !is_on_top(&self.held, &self.above) {
            return Ok(false);
        }
        let count = add_last(&mut self.sum, &mut self.below)?;
        self.added = self.added.saturating_add(count);
        Ok(true)
    }

    /// Puts the sum of two constraints on top, as the running one. If there was one, it is read off.
    pub(crate) fn start_sum(
        &mut self,
        alloc: Global,
        left: &Normal,
        right: &Normal,
    ) -> Result<(), StepFault>
        ensures ok { OnOk result (IsSumOnTop left.now right.now self.old self.new) }
        ensures err { OnErr result (self.new ≡ self.old) }
        ensures fault { IfErr result (λ f. OrMemory f (IsSumFault left.now right.now f)) }
    {
        put_away(
            alloc,
            &mut self.held,
            &mut self.sum,
            &mut self.above,
            &mut self.below,
        )?;
        self.sum.load(left)?;
        self.sum.add(right)?;
        self.held = Held::RunningSum;
        self.added = left.len().saturating_add(right.len());
        Ok(())
    }

    /// Puts a constraint on top, weakened by a variable, as the running sum: to weaken that once more is one look. If there was one,
    /// it is read off.
    pub(crate) fn start_weakened(
        &mut self,
        alloc: Global,
        constraint: &Normal,
        var: Var,
    ) -> Result<(), AllocError>
        ensures ok { OnOk result (IsWeakeningOnTop (var.0) constraint.now self.old self.new) }
        ensures err { OnErr result (self.new ≡ self.old) }
    {
        put_away(
            alloc,
            &mut self.held,
            &mut self.sum,
            &mut self.above,
            &mut self.below,
        )?;
        self.sum.load(constraint)?;
        self.sum.weaken(var);
        self.held = Held::RunningSum;
        self.added = constraint.len();
        Ok(())
    }

    /// Weakens the running sum by a variable, where that is on top; whether it is.
    pub(crate) fn weaken_sum(&mut self, var: Var) -> bool
        ensures weakened { IsTrue result → IsTopWeakened (var.0) self.old self.new }
        ensures left { result ≡ false → self.new ≡ self.old }
    {
        let is_there = is_on_top(&self.held, &self.above);
        if is_there {
            self.sum.weaken(var);
        }
        is_there
    }

    /// Multiplies the running sum, where that is on top; whether it is.
    pub(crate) fn multiply_sum(&mut self, factor: i128) -> Result<bool, StepFault>
        ensures multiplied { (given : Given) → IfOk result (λ yes. IsTrue yes → AppliesItem given (items.Multiply factor) self.old self.new) }
        ensures left { IfOk result (λ yes. yes ≡ false → self.new ≡ self.old) }
        ensures err { OnErr result (self.new ≡ self.old) }
        ensures fault { IfErr result (λ f. OrMemory f (IsMultiplyFault factor self.old f)) }
    {
        if !is_on_top(&self.held, &self.above) {
            return Ok(false);
        }
        self.sum.multiply(factor)?;
        Ok(true)
    }

    /// Divides the running sum, where that is on top, rounding up; whether it is.
    pub(crate) fn divide_sum(&mut self, divisor: i128) -> Result<bool, StepFault>
        ensures divided { (given : Given) → IfOk result (λ yes. IsTrue yes → AppliesItem given (items.Divide divisor) self.old self.new) }
        ensures left { IfOk result (λ yes. yes ≡ false → self.new ≡ self.old) }
        ensures err { OnErr result (self.new ≡ self.old) }
        ensures fault { IfErr result (λ f. OrMemory f (IsFactorFault divisor self.old f)) }
    {
        if !is_on_top(&self.held, &self.above) {
            return Ok(false);
        }
        self.sum.divide(divisor)?;
        Ok(true)
    }

    /// Saturates the running sum, where that is on top; whether it is.
    pub(crate) fn saturate_sum(&mut self) -> bool
        ensures saturated { IsTrue result → IsTopSaturated self.old self.new }
        ensures left { result ≡ false → self.new ≡ self.old }
    {
        let is_there = is_on_top(&self.held, &self.above);
        if is_there {
            self.sum.saturate();
        }
        is_there
    }

    /// Whether the sum of two operands is made as a constraint of its own. Two that are no sums themselves may be all
    /// that the line adds, and one copy is cheaper than the accumulator. Above a running sum a copy is cheaper than to
    /// read that off, as long as it has no more terms than were added there.
    pub(crate) fn is_cheap_to_copy(&self, left: &Operand<'a>, right: &Operand<'a>) -> bool {
        match self.held {
            Held::Nothing => !left.is_sum() && !right.is_sum(),
            Held::RunningSum => {
                left.constraint()
                    .len()
                    .saturating_add(right.constraint().len())
                    <= self.added
            }
        }
    }

    /// Whether an operand is weakened by a copy. A live one is, since it would have to be copied in any case; one that was made is
    /// likely to be weakened again. Above a running sum copies are cheaper than to read that off, until they have had as many terms as
    /// were added there.
    pub(crate) fn is_cheap_to_weaken(&self, operand: &Operand<'a>) -> bool {
        match self.held {
            Held::Nothing => operand.is_live(),
            Held::RunningSum => operand.constraint().len() <= self.added,
        }
    }

    /// Counts a copy of so many terms that was made above a running sum.
    pub(crate) fn count_copy(&mut self, terms: usize)
        ensures { self.new ≡ self.old }
    {
        self.added = self.added.saturating_sub(terms);
    }
}

/// Adds the last operand below a running sum to it. How many terms it has.
fn add_last(sum: &mut Accumulator, below: &mut Vec<Operand<'_>>) -> Result<usize, StepFault>
    ensures ok { (given : Given) → OnOk result (AppliesItem given items.Add (sum.old ∷ stack_of below.old.items) (sum.new ∷ stack_of below.new.items)) }
    ensures sum { OnErr result (sum.new ≡ sum.old) }
    ensures below { OnErr result (below.new.items ≡ below.old.items) }
    ensures fault { IfErr result (λ f. OrMemory f (IsAddFault (sum.old ∷ stack_of below.old.items) f)) }
{
    let Some(left) = below.pop() else {
        return Err(StepFault::StackShape);
    };
    match sum.add(left.constraint()) {
        Ok(()) => Ok(left.constraint().len()),
        Err(fault) => {
            below.push_reserved(left);
            Err(StepFault::from(fault))
        }
    }
}
