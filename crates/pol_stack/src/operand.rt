//! An operand of a `pol` step: a live constraint that is lent, or a result that the step made.
//!
//! Citing a constraint copies nothing, and a result is handed over as it is. What the step made belongs to the step alone: where a rule
//! makes no number greater, it is changed where it stands.

use cut_rules::{divide, divide_in_place, multiply, saturate, saturate_in_place};
use normal_form::{CutFault, Normal};
use std::alloc::{AllocError, Global};

/// A constraint on the stack.
#[derive(Debug, Drop)]
pub enum Operand<'a> {
    /// A live constraint.
    Live(&'a Normal),
    /// A result of an earlier item.
    Made(Normal),
    /// A sum that an earlier item made, to which more may be added.
    Sum(Normal),
}

impl<'a> Operand<'a> {
    ghost use Rattle.std.specs.Prelude.{◌≡◌, ◌↔◌, pos, ◌<ℤ◌, unsigned_abs, IfErr, IfOk, OnOk, OnErr, IsErrOf};
    ghost use Rattle.normal_form.specs.Normal.{NormalConstraint, Fits};
    ghost use Rattle.cut_rules.specs.Rules.{IsMultiple, IsQuotient, IsSaturation, IsTooLarge};
    ghost use Rattle.pol_stack.specs.Stack.{operand_value};

    /// The constraint that the operand stands for.
    pub(crate) fn constraint(&self) -> &Normal
        ensures { result.now ≡ operand_value self.now }
    {
        match self {
            Operand::Live(constraint) => constraint,
            Operand::Made(constraint) => constraint,
            Operand::Sum(constraint) => constraint,
        }
    }

    /// Whether more may be added to it.
    pub(crate) fn is_sum(&self) -> bool {
        match self {
            Operand::Sum(_) => true,
            _ => false,
        }
    }

    /// Whether it is lent.
    pub(crate) fn is_live(&self) -> bool {
        match self {
            Operand::Live(_) => true,
            _ => false,
        }
    }

    /// What it becomes by a rule that made this of it: a sum stays one.
    pub(crate) fn becoming(&self, made: Normal) -> Operand<'a>
        ensures { operand_value result ≡ made }
    {
        match self {
            Operand::Sum(_) => Operand::Sum(made),
            _ => Operand::Made(made),
        }
    }

    /// Multiplies it. `BadFactor` comes exactly for a factor below 1, and else `TooLarge` where the product is not within the limits. After
    /// an error it is as before.
    pub(crate) fn multiply(&mut self, alloc: Global, factor: i128) -> Result<(), CutFault>
        ensures multiple { OnOk result (IsMultiple (unsigned_abs factor) (operand_value self.old) (operand_value self.new)) }
        ensures fits { OnOk result (Fits (operand_value self.new)) }
        ensures err { OnErr result (operand_value self.new ≡ operand_value self.old) }
        ensures too_large { IsErrOf result CutFault.TooLarge → (r : NormalConstraint) × IsTooLarge (IsMultiple (unsigned_abs factor) (operand_value self.old)) r }
        ensures factor { factor <ℤ pos 1 ↔ IsErrOf result CutFault.BadFactor }
    {
        let made = multiply(alloc, self.constraint(), factor)?;
        *self = self.becoming(made);
        Ok(())
    }

    /// Divides it, rounding up. `BadFactor` comes exactly for a divisor below 1; after an error it is as before.
    pub(crate) fn divide(&mut self, alloc: Global, divisor: i128) -> Result<(), CutFault>
        ensures quotient { OnOk result (IsQuotient (unsigned_abs divisor) (operand_value self.old) (operand_value self.new)) }
        ensures err { OnErr result (operand_value self.new ≡ operand_value self.old) }
        ensures fits { IsErrOf result CutFault.TooLarge → ⊥ }
        ensures factor { divisor <ℤ pos 1 ↔ IsErrOf result CutFault.BadFactor }
    {
        match self {
            Operand::Live(lent) => {
                let made = divide(alloc, lent, divisor)?;
                *self = Operand::Made(made);
                Ok(())
            }
            Operand::Made(made) => divide_in_place(made, divisor),
            Operand::Sum(made) => divide_in_place(made, divisor),
        }
    }

    /// Saturates it. After an error it is as before.
    pub(crate) fn saturate(&mut self, alloc: Global) -> Result<(), AllocError>
        ensures saturation { OnOk result (IsSaturation (operand_value self.old) (operand_value self.new)) }
        ensures err { OnErr result (operand_value self.new ≡ operand_value self.old) }
    {
        match self {
            Operand::Live(lent) => {
                let made = saturate(alloc, lent)?;
                *self = Operand::Made(made);
            }
            Operand::Made(made) => saturate_in_place(made),
            Operand::Sum(made) => saturate_in_place(made),
        }
        Ok(())
    }

    /// The constraint that the operand stands for, to keep: a live one is copied, and lent once more where there is no memory for that.
    pub(crate) fn into_constraint(self, alloc: Global) -> Result<Normal, Operand<'a>>
        ensures ok { IfOk result (λ n. n ≡ operand_value self.entry) }
        ensures back { IfErr result (λ o. operand_value o ≡ operand_value self.entry) }
    {
        match self {
            Operand::Live(lent) => match lent.copy(alloc) {
                Ok(copied) => Ok(copied),
                Err(_) => Err(Operand::Live(lent)),
            },
            Operand::Made(mut made) => {
                made.trim();
                Ok(made)
            }
            Operand::Sum(mut made) => {
                made.trim();
                Ok(made)
            }
        }
    }
}
