//! Numbers of a walk's sum made smaller, where they have grown large.
//!
//! Each reason is added so many times that a literal cancels, so the numbers of a sum may grow with each step of a walk, up to the limit of the
//! format, where nothing is learned. Before that the sum is divided. Its literals that are not false give up first what the divisor does not
//! divide, by so many times the axiom of the opposite literal: that takes as much off the degree as off what they add up to, and what is rounded
//! up afterwards are coefficients of false literals alone. So the slack, which was negative, is divided too, and stays negative (Elffers and
//! Nordström 2018 divide for the same reason).

ghost use Rattle.std.specs.Prelude.{◌<◌};

use super::derivation::{Derivation, written};
use super::resolvent::Resolvent;
use super::search_trail::SearchTrail;
use super::stop::Stop;
use accumulate::Accumulator;
use linear::{Integer, Lit, Var};
use proof_steps::Item;
use std::alloc::{AllocError, Global};

/// Above this degree a sum is divided.
const LARGE: u128 = 1 << 60;

/// Then its greatest coefficient comes to about `2^20`.
const KEPT_BITS: u32 = 20;

/// The literal to which a net coefficient of a variable belongs.
fn literal_of(var: Var, net: Integer) -> Lit {
    Lit {
        var,
        negated: net < 0,
    }
}

/// The greatest coefficient of a sum.
fn greatest_coefficient(sum: &Accumulator) -> u128 {
    let mut greatest: u128 = 0;
    for number in sum.marks() {
        greatest = greatest.max(sum.net(Var(*number)).unsigned_abs());
    }
    greatest
}

/// By what a sum is divided.
fn divisor_of(sum: &Accumulator) -> u128
    ensures { 0 < result }
{
    greatest_coefficient(sum).unbounded_shr(KEPT_BITS).max(1)
}

/// The variables of a sum whose literals were not false before a place.
fn open_variables(
    alloc: Global,
    sum: &Accumulator,
    trail: &SearchTrail,
    place: usize,
) -> Result<Vec<Var>, AllocError> {
    let mut variables = Vec::new(alloc);
    for number in sum.marks() {
        let variable = Var(*number);
        if !trail.is_false_before(literal_of(variable, sum.net(variable)), place) {
            variables.push(variable)?;
        }
    }
    Ok(variables)
}

impl Resolvent {
    ghost use Rattle.std.specs.Prelude.{◌<◌, OnOk};
    ghost use Rattle.proof_rules.specs.Expression.{Given, IsPostfixOf};
    ghost use Rattle.analysis.specs.Lines.{GoesOnFrom};

    /// Takes off the coefficient of a variable's literal what a divisor leaves of it.
    fn give_up(&mut self, alloc: Global, variable: Var, divisor: u128) -> Result<(), Stop>
        requires { 0 < divisor }
        ensures more { OnOk result (GoesOnFrom self.old.items.items self.new.items.items) }
        ensures derived { (given : Given) → IsPostfixOf given self.old.items.items self.old.sum → OnOk result (IsPostfixOf given self.new.items.items self.new.sum) }
    {
        let net = self.sum.net(variable);
        let amount = net.unsigned_abs() % divisor;
        if amount == 0 {
            return Ok(());
        }
        let axiom = Derivation::axiom(alloc, literal_of(variable, net).opposite())?;
        let several = axiom.multiplied(alloc, amount)?;
        self.add(several)?;
        Ok(())
    }

    /// The same for several variables.
    fn give_up_all(&mut self, alloc: Global, variables: &[Var], divisor: u128) -> Result<(), Stop>
        requires { 0 < divisor }
        ensures more { OnOk result (GoesOnFrom self.old.items.items self.new.items.items) }
        ensures derived { (given : Given) → IsPostfixOf given self.old.items.items self.old.sum → OnOk result (IsPostfixOf given self.new.items.items self.new.sum) }
    {
        for variable in variables {
            self.give_up(alloc, *variable, divisor)?;
        }
        Ok(())
    }

    /// Becomes its quotient, rounded up.
    fn divide(&mut self, divisor: u128) -> Result<(), Stop>
        requires { 0 < divisor }
        ensures more { OnOk result (GoesOnFrom self.old.items.items self.new.items.items) }
        ensures derived { (given : Given) → IsPostfixOf given self.old.items.items self.old.sum → OnOk result (IsPostfixOf given self.new.items.items self.new.sum) }
    {
        let written = written(divisor)?;
        self.items.push(Item::Divide(written))?;
        self.sum.divide(written)?;
        Ok(())
    }

    /// Makes the numbers of a sum smaller where they are large. Where its slack was negative under the literals before a place it stays so.
    pub(crate) fn shrink(
        &mut self,
        alloc: Global,
        trail: &SearchTrail,
        place: usize,
    ) -> Result<(), Stop>
        ensures more { OnOk result (GoesOnFrom self.old.items.items self.new.items.items) }
        ensures derived { (given : Given) → IsPostfixOf given self.old.items.items self.old.sum → OnOk result (IsPostfixOf given self.new.items.items self.new.sum) }
    {
        if self.sum.degree() <= LARGE {
            return Ok(());
        }
        let divisor = divisor_of(&self.sum);
        let open = open_variables(alloc, &self.sum, trail, place)?;
        self.give_up_all(alloc, open.as_slice(), divisor)?;
        self.divide(divisor)
    }
}
