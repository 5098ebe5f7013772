//! A constraint and the items of the `pol` line that derives it, changed by one rule at a time.
//!
//! Each rule puts its item at the end, and so whatever the walk does, it has in its hands a line that derives what it has.
//! Which rules it takes is a matter of use alone.

ghost use Rattle.std.specs.Prelude.{◌≡◌, pos, IfOk};
ghost use Rattle.proof_rules.specs.Expression.{Given, IsPostfixOf};

use accumulate::Accumulator;
use cut_rules::{axiom, divide_in_place, multiply};
use linear::{Lit, Var};
use normal_form::{CutFault, Normal};
use proof_steps::Item;
use propagate::Id;
use std::alloc::{AllocError, Global};

/// A constraint, and the items that write an expression whose value it is.
#[derive(Debug, Drop)]
pub(crate) struct Derivation {
    pub(crate) items: Vec<Item>,
    pub(crate) constraint: Normal,
}

/// A coefficient as a number of a line.
pub(crate) fn written(coef: u128) -> Result<i128, CutFault>
    ensures { IfOk result (λ number. number ≡ pos coef) }
{
    match i128::try_from(coef) {
        Ok(number) => Ok(number),
        Err(_) => Err(CutFault::TooLarge),
    }
}

impl Derivation {
    ghost use Rattle.std.specs.Prelude.{◌≡◌, ◌≢◌, ℕ, Bool, All, Some, IfOk, pos};
    ghost use Rattle.normal_form.specs.Normal.{coefficient};
    ghost use Rattle.cut_rules.specs.Rules.{IsCeiling};
    ghost use Rattle.proof_rules.specs.Expression.{Given, IsPostfixOf};
    ghost use Rattle.analysis.specs.Lines.{BeginsWith};

    /// The constraint of an id.
    pub(crate) fn cited(alloc: Global, id: Id, constraint: &Normal) -> Result<Self, AllocError>
        ensures begins { IfOk result (λ d. BeginsWith id d.items.items) }
        ensures derived { (given : Given) → given (pos id) ≡ Some constraint.now
            → IfOk result (λ d. IsPostfixOf given d.items.items d.constraint) }
    {
        let mut items = Vec::new(alloc);
        items.push(Item::Id(i128::from(id)))?;
        Ok(Derivation {
            items,
            constraint: constraint.copy(alloc)?,
        })
    }

    /// The axiom of a literal.
    pub(crate) fn axiom(alloc: Global, literal: Lit) -> Result<Self, AllocError>
        ensures { (given : Given) → IfOk result (λ d. IsPostfixOf given d.items.items d.constraint) }
    {
        let mut items = Vec::new(alloc);
        items.push(Item::Axiom(literal))?;
        let constraint = axiom(alloc, literal)?;
        Ok(Derivation { items, constraint })
    }

    /// The same without some variables. It is taken apart once and put together once: to make a constraint anew for each
    /// variable would cost the square of its length.
    pub(crate) fn without(
        self,
        alloc: Global,
        sum: &mut Accumulator,
        variables: &[Var],
    ) -> Result<Self, AllocError>
        ensures derived { (given : Given) → IsPostfixOf given self.items.items self.constraint
            → IfOk result (λ d. IsPostfixOf given d.items.items d.constraint) }
        ensures others { (v : ℕ) (s : Bool) → All (λ x. x.0 ≢ v) variables.now
            → IfOk result (λ d. coefficient d.constraint v s ≡ coefficient self.constraint v s) }
    {
        if variables.is_empty() {
            return Ok(self);
        }
        let Derivation {
            mut items,
            constraint,
        } = self;
        sum.load(&constraint)?;
        for variable in variables {
            sum.weaken(*variable);
            items.push(Item::Weaken(*variable))?;
        }
        let constraint = sum.take(alloc)?;
        Ok(Derivation { items, constraint })
    }

    /// Its quotient, rounded up; nothing is written for the divisor 1.
    pub(crate) fn divided(self, divisor: u128) -> Result<Self, CutFault>
        ensures derived { (given : Given) → IsPostfixOf given self.items.items self.constraint
            → IfOk result (λ d. IsPostfixOf given d.items.items d.constraint) }
        ensures quotient { (v : ℕ) (s : Bool) → IfOk result (λ d. IsCeiling divisor (coefficient self.constraint v s) (coefficient d.constraint v s)) }
    {
        if divisor == 1 {
            return Ok(self);
        }
        let written = written(divisor)?;
        let Derivation {
            mut items,
            mut constraint,
        } = self;
        items.push(Item::Divide(written))?;
        divide_in_place(&mut constraint, written)?;
        Ok(Derivation { items, constraint })
    }

    /// Its multiple; nothing is written for the factor 1.
    pub(crate) fn multiplied(self, alloc: Global, factor: u128) -> Result<Self, CutFault>
        ensures { (given : Given) → IsPostfixOf given self.items.items self.constraint
            → IfOk result (λ d. IsPostfixOf given d.items.items d.constraint) }
    {
        if factor == 1 {
            return Ok(self);
        }
        let written = written(factor)?;
        let Derivation {
            mut items,
            constraint,
        } = self;
        items.push(Item::Multiply(written))?;
        let constraint = multiply(alloc, &constraint, written)?;
        Ok(Derivation { items, constraint })
    }
}
