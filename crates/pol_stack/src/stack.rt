//! The stack of a `pol` step: what each item but an id does to it.
//!
//! The two operands on top are held in hands, and the others stand on a pile. So most lines, which have no more than two at a time, need no
//! memory for their stack, and an operand that a rule refuses goes back into the hand that it came from: a refusal changes nothing.

ghost use Rattle.std.specs.Prelude.{◌≡◌, ◌↔◌, None, ◌∷◌, ◌++◌, [], IsTrue, MatchOption, IfOk, IfErr, IfSome, OnOk, OnErr};
ghost use Rattle.pol_stack.specs.Stack.{operand_value, in_hand, with_hands, IsAddedOnTop, IsSumOnTop, IsSumFault, IsWeakeningOnTop};
ghost use Rattle.proof_rules.specs.Fault.{OrMemory, IsAddFault};

use super::operand::Operand;
use super::pile::Pile;
use accumulate::Accumulator;
use cut_rules::{add, axiom, weaken};
use linear::{Lit, Var};
use normal_form::Normal;
use proof_rules::StepFault;
use std::alloc::{AllocError, Global};
use std::marker::Model;

/// The operands of a `pol` step.
#[derive(Drop)]
pub struct Stack<'a> {
    pile: Pile<'a>,
    under: Option<Operand<'a>>,
    top: Option<Operand<'a>>,
}

impl<'a> Model for Stack<'a> {
    ghost use Rattle.std.specs.Prelude.{List};
    ghost use Rattle.normal_form.specs.Normal.{NormalConstraint};
    ghost use Rattle.pol_stack.specs.Stack.{with_hands};

    ghost Value = { List NormalConstraint };

    ghost view = { λ s. with_hands s.top s.under s.pile };
}

/// Takes the operand on top: out of a hand, or else from the pile. A running sum there is read off, which takes memory.
fn take_top<'a>(
    alloc: Global,
    top: &mut Option<Operand<'a>>,
    under: &mut Option<Operand<'a>>,
    pile: &mut Pile<'a>,
) -> Result<Option<Operand<'a>>, AllocError>
    ensures taken { IfOk result (λ taken. MatchOption
        taken
        ((with_hands top.old under.old pile.old ≡ []) × (with_hands top.new under.new pile.new ≡ []))
        (λ o. with_hands top.old under.old pile.old ≡ operand_value o ∷ (in_hand under.new ++ pile.new))) }
    ensures top { top.new ≡ None }
    ensures under { top.old ≡ None → under.new ≡ None }
    ensures err { OnErr result (with_hands top.new under.new pile.new ≡ with_hands top.old under.old pile.old) }
{
    if let Some(operand) = top.take() {
        return Ok(Some(operand));
    }
    if let Some(operand) = under.take() {
        return Ok(Some(operand));
    }
    pile.pop(alloc)
}

/// The sum of two operands as a constraint of its own, where a copy is cheap.
fn add_copied<'a>(
    alloc: Global,
    pile: &mut Pile<'a>,
    left: &Operand<'a>,
    right: &Operand<'a>,
) -> Result<Option<Operand<'a>>, StepFault>
    ensures same { pile.new ≡ pile.old }
    ensures made { IfOk result (λ made. IfSome made (λ o. IsSumOnTop (operand_value left.now) (operand_value right.now) pile.old (operand_value o ∷ pile.old))) }
    ensures fault { IfErr result (λ f. OrMemory f (IsSumFault (operand_value left.now) (operand_value right.now) f)) }
{
    if !pile.is_cheap_to_copy(left, right) {
        return Ok(None);
    }
    let made = add(alloc, left.constraint(), right.constraint())?;
    pile.count_copy(made.len());
    Ok(Some(Operand::Sum(made)))
}

/// The sum of two operands, to be held; none where it stands on the pile, as the running one.
fn add_apart<'a>(
    alloc: Global,
    pile: &mut Pile<'a>,
    left: &Operand<'a>,
    right: &Operand<'a>,
) -> Result<Option<Operand<'a>>, StepFault>
    ensures ok { IfOk result (λ held. IsSumOnTop (operand_value left.now) (operand_value right.now) pile.old (in_hand held ++ pile.new)) }
    ensures err { OnErr result (pile.new ≡ pile.old) }
    ensures fault { IfErr result (λ f. OrMemory f (IsSumFault (operand_value left.now) (operand_value right.now) f)) }
{
    let copied = add_copied(alloc, pile, left, right)?;
    if copied.is_none() {
        pile.start_sum(alloc, left.constraint(), right.constraint())?;
    }
    Ok(copied)
}

/// The sum of an operand and the one under it, to be held; none where it stands on the pile, as the running one.
fn add_right<'a>(
    alloc: Global,
    under: &mut Option<Operand<'a>>,
    pile: &mut Pile<'a>,
    right: &Operand<'a>,
) -> Result<Option<Operand<'a>>, StepFault>
    ensures ok { IfOk result (λ held. IsAddedOnTop
        (operand_value right.now)
        (in_hand under.old ++ pile.old)
        (in_hand held ++ (in_hand under.new ++ pile.new))) }
    ensures err { OnErr result (in_hand under.new ++ pile.new ≡ in_hand under.old ++ pile.old) }
    ensures fault { IfErr result (λ f. OrMemory f (IsAddFault (operand_value right.now ∷ (in_hand under.old ++ pile.old)) f)) }
{
    if under.is_none() && pile.add_to_sum(right)? {
        return Ok(None);
    }
    let Some(left) = take_under(alloc, under, pile)? else {
        return Err(StepFault::StackShape);
    };
    match add_apart(alloc, pile, &left, right) {
        Ok(held) => Ok(held),
        Err(fault) => {
            *under = Some(left);
            Err(fault)
        }
    }
}

/// Takes the operand under the one on top: out of a hand, or else from the pile.
fn take_under<'a>(
    alloc: Global,
    under: &mut Option<Operand<'a>>,
    pile: &mut Pile<'a>,
) -> Result<Option<Operand<'a>>, AllocError>
    ensures taken { IfOk result (λ taken. MatchOption
        taken
        ((in_hand under.old ++ pile.old ≡ []) × (in_hand under.new ++ pile.new ≡ []))
        (λ o. in_hand under.old ++ pile.old ≡ operand_value o ∷ pile.new)) }
    ensures under { under.new ≡ None }
    ensures err { OnErr result (in_hand under.new ++ pile.new ≡ in_hand under.old ++ pile.old) }
{
    if let Some(operand) = under.take() {
        return Ok(Some(operand));
    }
    pile.pop(alloc)
}

/// Whether nothing stands under the operand on top.
fn is_empty<'a>(
    alloc: Global,
    under: &mut Option<Operand<'a>>,
    pile: &mut Pile<'a>,
) -> Result<bool, AllocError>
    ensures same { in_hand under.new ++ pile.new ≡ in_hand under.old ++ pile.old }
    ensures empty { IfOk result (λ yes. IsTrue yes ↔ (in_hand under.old ++ pile.old ≡ [])) }
{
    match take_under(alloc, under, pile)? {
        None => Ok(true),
        Some(operand) => {
            *under = Some(operand);
            Ok(false)
        }
    }
}

/// What an operand becomes by weakening, to be held; none where it stands on the pile, as the running sum.
fn weaken_apart<'a>(
    alloc: Global,
    under: &mut Option<Operand<'a>>,
    pile: &mut Pile<'a>,
    operand: &Operand<'a>,
    var: Var,
) -> Result<Option<Operand<'a>>, AllocError>
    ensures ok { IfOk result (λ held. IsWeakeningOnTop
        (var.0)
        (operand_value operand.now)
        (in_hand under.old ++ pile.old)
        (in_hand held ++ (in_hand under.new ++ pile.new))) }
    ensures err { OnErr result (in_hand under.new ++ pile.new ≡ in_hand under.old ++ pile.old) }
{
    if !pile.is_cheap_to_weaken(operand) {
        put_down(under, pile)?;
        pile.start_weakened(alloc, operand.constraint(), var)?;
        return Ok(None);
    }
    let made = weaken(alloc, operand.constraint(), var)?;
    pile.count_copy(made.len());
    Ok(Some(operand.becoming(made)))
}

/// Puts what a hand holds on the pile.
fn put_down<'a>(hand: &mut Option<Operand<'a>>, pile: &mut Pile<'a>) -> Result<(), AllocError>
    ensures same { in_hand hand.new ++ pile.new ≡ in_hand hand.old ++ pile.old }
    ensures empty { OnOk result (hand.new ≡ None) }
{
    let Some(operand) = hand.take() else {
        return Ok(());
    };
    match pile.push(operand) {
        Ok(()) => Ok(()),
        Err(operand) => {
            *hand = Some(operand);
            Err(AllocError)
        }
    }
}

impl<'a> Stack<'a> {
    ghost use Rattle.std.specs.Prelude.{◌≡◌, ◌≢◌, ◌∷◌, [], false, length, MatchResult, IfOk, IfErr, IsTrue, OnOk, OnErr};
    ghost use Rattle.pol_stack.specs.Stack.{operand_value};
    ghost use Rattle.proof_rules.specs.Expression.{Given};
    ghost use Rattle.proof_rules.specs.Running.{AppliesItem};
    ghost use Rattle.proof_steps.specs.declared.step.Item.TheVariants as items;
    ghost use Rattle.proof_rules.specs.Fault.{OrMemory, IsAddFault, IsMultiplyFault, IsFactorFault, IsShapeFault};

    /// An empty stack, with an accumulator to add up in, whatever that holds.
    pub fn new(alloc: Global, sum: Accumulator) -> Self
        ensures { result ≡ [] }
    {
        Stack {
            pile: Pile::new(alloc, sum),
            under: None,
            top: None,
        }
    }

    /// Gives the accumulator back. What it holds is of no account, and nothing is said of it.
    pub fn into_accumulator(self) -> Accumulator {
        self.pile.into_accumulator()
    }

    /// Puts an operand on top. After an error all is as before.
    pub fn push(&mut self, operand: Operand<'a>) -> Result<(), AllocError>
        ensures { MatchResult result (λ _. self.new ≡ operand_value operand.entry ∷ self.old) (λ _. self.new ≡ self.old) }
    {
        // A hand that is empty is not moved.
        if self.under.is_some() {
            put_down(&mut self.under, &mut self.pile)?;
        }
        if self.top.is_some() {
            self.under = self.top.take();
        }
        self.top = Some(operand);
        Ok(())
    }

    /// Puts the axiom of a literal on top. After an error all is as before.
    pub fn push_axiom(&mut self, alloc: Global, literal: Lit) -> Result<(), AllocError>
        ensures ok { (given : Given) → OnOk result (AppliesItem given (items.Axiom literal) self.old self.new) }
        ensures err { OnErr result (self.new ≡ self.old) }
    {
        let made = axiom(alloc, literal)?;
        self.push(Operand::Made(made))
    }

    /// Adds the two on top where they stand: what the hands hold, where a copy is cheap, or what one of them holds, or what stands below
    /// the running sum, to that. Whether it did.
    fn add_in_place(&mut self, alloc: Global) -> Result<bool, StepFault>
        ensures added { (given : Given) → IfOk result (λ yes. IsTrue yes → AppliesItem given items.Add self.old self.new) }
        ensures left { IfOk result (λ yes. yes ≡ false → self.new ≡ self.old) }
        ensures err { OnErr result (self.new ≡ self.old) }
        ensures fault { IfErr result (λ f. OrMemory f (IsAddFault self.old f)) }
    {
        if self.top.is_none() && self.under.is_none() {
            let added = self.pile.add_from_below()?;
            return Ok(added);
        }
        let Some(right) = &self.top else {
            return Ok(false);
        };
        let Some(left) = &self.under else {
            let added = self.pile.add_to_sum(right)?;
            if added {
                self.top = None;
            }
            return Ok(added);
        };
        let Some(sum) = add_copied(alloc, &mut self.pile, left, right)? else {
            return Ok(false);
        };
        self.under = None;
        self.top = Some(sum);
        Ok(true)
    }

    /// Adds the two on top: to the running sum, where it is one of them. `StackShape` where there are fewer than two;
    /// else `TooLarge` where the sum is not within the limits. After a fault all is as before.
    pub fn add_top_two(&mut self, alloc: Global) -> Result<(), StepFault>
        ensures ok { (given : Given) → OnOk result (AppliesItem given items.Add self.old self.new) }
        ensures err { OnErr result (self.new ≡ self.old) }
        ensures fault { IfErr result (λ f. OrMemory f (IsAddFault self.old f)) }
    {
        if self.add_in_place(alloc)? {
            return Ok(());
        }
        let Some(right) = take_top(alloc, &mut self.top, &mut self.under, &mut self.pile)? else {
            return Err(StepFault::StackShape);
        };
        match add_right(alloc, &mut self.under, &mut self.pile, &right) {
            Ok(held) => {
                self.top = held;
                Ok(())
            }
            Err(fault) => {
                self.top = Some(right);
                Err(fault)
            }
        }
    }

    /// Multiplies the one on top. `StackShape` where there is none; else `BadFactor` where the factor is below 1; else
    /// `TooLarge` where the product is not within the limits. After a fault all is as before.
    pub fn multiply_top(&mut self, alloc: Global, factor: i128) -> Result<(), StepFault>
        ensures ok { (given : Given) → OnOk result (AppliesItem given (items.Multiply factor) self.old self.new) }
        ensures err { OnErr result (self.new ≡ self.old) }
        ensures fault { IfErr result (λ f. OrMemory f (IsMultiplyFault factor self.old f)) }
    {
        if self.top.is_none() && self.under.is_none() && self.pile.multiply_sum(factor)? {
            return Ok(());
        }
        // What is held is changed where it stands.
        if let Some(top) = &mut self.top {
            top.multiply(alloc, factor)?;
            return Ok(());
        }
        let Some(mut top) = take_top(alloc, &mut self.top, &mut self.under, &mut self.pile)? else {
            return Err(StepFault::StackShape);
        };
        let multiplied = top.multiply(alloc, factor);
        self.top = Some(top);
        Ok(multiplied?)
    }

    /// Divides the one on top, rounding up. `StackShape` where there is none; else `BadFactor` where the divisor is
    /// below 1. After a fault all is as before.
    pub fn divide_top(&mut self, alloc: Global, divisor: i128) -> Result<(), StepFault>
        ensures ok { (given : Given) → OnOk result (AppliesItem given (items.Divide divisor) self.old self.new) }
        ensures err { OnErr result (self.new ≡ self.old) }
        ensures fault { IfErr result (λ f. OrMemory f (IsFactorFault divisor self.old f)) }
    {
        if self.top.is_none() && self.under.is_none() && self.pile.divide_sum(divisor)? {
            return Ok(());
        }
        // What is held is changed where it stands.
        if let Some(top) = &mut self.top {
            top.divide(alloc, divisor)?;
            return Ok(());
        }
        let Some(mut top) = take_top(alloc, &mut self.top, &mut self.under, &mut self.pile)? else {
            return Err(StepFault::StackShape);
        };
        let divided = top.divide(alloc, divisor);
        self.top = Some(top);
        Ok(divided?)
    }

    /// Saturates the one on top. `StackShape` where there is none. After a fault all is as before.
    pub fn saturate_top(&mut self, alloc: Global) -> Result<(), StepFault>
        ensures ok { (given : Given) → OnOk result (AppliesItem given items.Saturate self.old self.new) }
        ensures err { OnErr result (self.new ≡ self.old) }
        ensures fault { IfErr result (λ f. OrMemory f (IsShapeFault self.old f)) }
    {
        if self.top.is_none() && self.under.is_none() && self.pile.saturate_sum() {
            return Ok(());
        }
        // What is held is changed where it stands.
        if let Some(top) = &mut self.top {
            top.saturate(alloc)?;
            return Ok(());
        }
        let Some(mut top) = take_top(alloc, &mut self.top, &mut self.under, &mut self.pile)? else {
            return Err(StepFault::StackShape);
        };
        let saturated = top.saturate(alloc);
        self.top = Some(top);
        Ok(saturated?)
    }

    /// Weakens the one on top by a variable. `StackShape` where there is none. After a fault all is as before.
    pub fn weaken_top(&mut self, alloc: Global, var: Var) -> Result<(), StepFault>
        ensures ok { (given : Given) → OnOk result (AppliesItem given (items.Weaken var) self.old self.new) }
        ensures err { OnErr result (self.new ≡ self.old) }
        ensures fault { IfErr result (λ f. OrMemory f (IsShapeFault self.old f)) }
    {
        if self.top.is_none() && self.under.is_none() && self.pile.weaken_sum(var) {
            return Ok(());
        }
        let Some(top) = take_top(alloc, &mut self.top, &mut self.under, &mut self.pile)? else {
            return Err(StepFault::StackShape);
        };
        match weaken_apart(alloc, &mut self.under, &mut self.pile, &top, var) {
            Ok(held) => {
                self.top = held;
                Ok(())
            }
            Err(fault) => {
                self.top = Some(top);
                Err(StepFault::from(fault))
            }
        }
    }

    /// Takes the one constraint that is left at the end of a line, and leaves none. `StackShape` where there is not exactly one. After a
    /// fault all is as before.
    pub fn only(&mut self, alloc: Global) -> Result<Normal, StepFault>
        ensures one { IfOk result (λ n. self.old ≡ n ∷ []) }
        ensures left { OnOk result (self.new ≡ []) }
        ensures err { OnErr result (self.new ≡ self.old) }
        ensures fault { IfErr result (λ f. OrMemory f ((f ≡ StepFault.StackShape) × (length self.old ≢ 1))) }
    {
        let Some(top) = take_top(alloc, &mut self.top, &mut self.under, &mut self.pile)? else {
            return Err(StepFault::StackShape);
        };
        match is_empty(alloc, &mut self.under, &mut self.pile) {
            Ok(true) => match top.into_constraint(alloc) {
                Ok(value) => Ok(value),
                Err(top) => {
                    self.top = Some(top);
                    Err(StepFault::OutOfMemory)
                }
            },
            Ok(false) => {
                self.top = Some(top);
                Err(StepFault::StackShape)
            }
            Err(fault) => {
                self.top = Some(top);
                Err(StepFault::from(fault))
            }
        }
    }
}
