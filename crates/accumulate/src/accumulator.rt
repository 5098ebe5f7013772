//! A sum of constraints, to which another is added at the price of that one alone.
//!
//! The coefficients stand in an array with a cell for each variable. A literal and its opposite share a cell, with
//! coefficients of two signs, so cancelling is an addition of signed numbers. Beside it stand the coefficient sum, by
//! which the degree falls with what cancels, and a list of marks: every variable with a coefficient is in it, so
//! reading the sum off, and putting the array back to 0, costs what was added and not the number of all variables. A
//! variable may be marked twice; that is found out when the marks are tidied, and costs less than to keep it from
//! happening.
//!
//! A constraint is added first, and taken back where the result is too large: so one pass is enough where it is not.

ghost use Rattle.std.specs.Prelude.{◌≡◌, ◌<◌, ◌<ℤ◌, ◌≤◌, ◌*◌, ◌↔◌, ℕ, Bool, false, true, pos, neg_ℤ, unsigned_abs, Contains, IsTrue, IfOk, OnOk, OnErr, IsErrOf};
ghost use Rattle.linear.specs.Valuation.{Valuation};
ghost use Rattle.normal_form.specs.Normal.{NormalConstraint, IsNormal, Fits, Holds, coefficient, largest_sum, total};
ghost use Rattle.normal_form.specs.NormalOf.{at_least_zero};
ghost use Rattle.cut_rules.specs.Rules.{IsMultiple, IsQuotient, IsSaturation, IsSum, IsTooLarge, IsWeakening};
ghost use Rattle.accumulate.specs.Nets.{ScalesWithin, nothing, scaled};

use super::capping::cap_all;
use super::cells::{Change, apply, degree_after, fits, make_room, mark_reserved, note, prepare};
use super::reading::{clear, collect};
use super::scaling::{Scaling, scale_all, scaled, scaled_level};
use super::tidying::tidy;
use cut_rules::product_fits;
use linear::Var;
use normal_form::{CutFault, LARGEST_SUM, Normal};
use std::alloc::{AllocError, Global};
use std::marker::Model;

/// A normal constraint that is kept by variable: the net coefficient of each, above 0 for the variable and below 0
/// for its negation. Its coefficient sum and its degree are at most `2^120`. It takes sixteen bytes for each variable
/// up to the greatest one that was ever in it.
#[derive(Debug, Drop)]
pub struct Accumulator {
    nets: Vec<i128>,
    touched: Vec<u32>,
    sum: u128,
    degree: u128,
    /// No net coefficient is greater, but for variables that were added since it was saturated.
    level: u128,
    recent: Vec<u32>,
}

impl Model for Accumulator {
    ghost use Rattle.normal_form.specs.Normal.{NormalConstraint};
    ghost use Rattle.accumulate.specs.Nets.{constraint_of, IsKept, IsMarkedAbove};

    ghost Value = { NormalConstraint };

    ghost view = { λ a. constraint_of a.nets.items a.degree };

    ghost invariant = { λ a. IsKept a.nets.items a.touched.items a.sum a.degree × IsMarkedAbove a.level a.recent.items a.nets.items };
}

impl Accumulator {
    /// The constraint without terms, of degree 0.
    pub fn new(alloc: Global) -> Self
        ensures { result ≡ nothing }
    {
        Accumulator {
            nets: Vec::new(alloc),
            touched: Vec::new(alloc),
            sum: 0,
            degree: 0,
            level: LARGEST_SUM,
            recent: Vec::new(alloc),
        }
    }

    /// The degree.
    pub fn degree(&self) -> u128
        ensures { result ≡ self.now.degree }
    {
        self.degree
    }

    /// The net coefficient of a variable: above 0 that of the variable itself, below 0 that of its negation.
    pub fn net(&self, var: Var) -> i128
        ensures plain { coefficient self.now (var.0) false ≡ at_least_zero result }
        ensures negated { coefficient self.now (var.0) true ≡ at_least_zero (neg_ℤ result) }
    {
        let place = var.0 as usize;
        if place < self.nets.len() {
            self.nets[place]
        } else {
            0
        }
    }

    /// The numbers of the variables that were in the sum since it was empty: each that has a coefficient is among them, perhaps
    /// more than once.
    pub fn marks(&self) -> &[u32]
        ensures { (v : ℕ) (s : Bool) → 0 < coefficient self.now v s → Contains result.now v }
    {
        self.touched.as_slice()
    }

    /// Becomes the sum with another constraint, by the equations of `cut_rules::add`. `TooLarge` comes exactly where
    /// the coefficient sum or the degree of the result is above `2^120`; what cancels does not count. After an error
    /// it is as before.
    pub fn add(&mut self, other: &Normal) -> Result<(), CutFault>
        ensures sum { OnOk result (IsSum self.old other.now self.new) }
        ensures normal { OnOk result (IsNormal self.new) }
        ensures keeps { OnOk result ((a : Valuation) → Holds a self.old → Holds a other.now → Holds a self.new) }
        ensures unchanged { OnErr result (self.new ≡ self.old) }
        ensures too_large { IsErrOf result CutFault.TooLarge → (r : NormalConstraint) × IsTooLarge (IsSum self.old other.now) r }
        ensures within { OnOk result ((r : NormalConstraint) → IsSum self.old other.now r → Fits r) }
        ensures factor { IsErrOf result CutFault.BadFactor → ⊥ }
    {
        prepare(&mut self.nets, &mut self.touched, other)?;
        note(&mut self.recent, self.level, other)?;
        let sum = apply(&mut self.nets, self.sum, other, Change::Add);
        let degree = degree_after(self.sum, self.degree, other, sum);
        if !fits(sum, degree) {
            apply(&mut self.nets, sum, other, Change::TakeBack);
            return Err(CutFault::TooLarge);
        }
        self.sum = sum;
        self.degree = degree;
        Ok(())
    }

    /// Becomes this constraint, whatever it was. After an error it is as before.
    pub fn load(&mut self, other: &Normal) -> Result<(), AllocError>
        ensures value { OnOk result (self.new ≡ other.now) }
        ensures unchanged { OnErr result (self.new ≡ self.old) }
    {
        make_room(&mut self.nets, &mut self.touched, other)?;
        clear(&mut self.nets, &self.touched);
        self.touched.clear();
        mark_reserved(&mut self.touched, other);
        self.sum = apply(&mut self.nets, 0, other, Change::Add);
        self.degree = other.degree();
        self.level = LARGEST_SUM;
        self.recent.clear();
        Ok(())
    }

    /// The term of a variable goes, and the degree falls by its coefficient, not below 0; a constraint without the
    /// variable stays as it is.
    pub fn weaken(&mut self, var: Var)
        ensures weakening { IsWeakening (var.0) self.old self.new }
        ensures keeps { (a : Valuation) → Holds a self.old → Holds a self.new }
    {
        let place = var.0 as usize;
        if place >= self.nets.len() {
            return;
        }
        let size = self.nets[place].unsigned_abs();
        self.nets[place] = 0;
        self.sum -= size;
        self.degree = self.degree.saturating_sub(size);
    }

    /// No coefficient is above the degree any more. Where the degree has not fallen since the last time, only what was added since is
    /// looked at.
    pub fn saturate(&mut self)
        ensures saturation { IsSaturation self.old self.new }
        ensures keeps { (a : Valuation) → Holds a self.old → Holds a self.new }
    {
        self.sum = cap_all(
            &mut self.nets,
            &mut self.touched,
            &self.recent,
            self.level,
            self.sum,
            self.degree,
        );
        self.level = self.degree;
        self.recent.clear();
    }

    /// Becomes its multiple. `BadFactor` comes exactly for a factor below 1, and else `TooLarge` exactly where the coefficient sum or the
    /// degree of the result is above `2^120`. After an error it is as before.
    pub fn multiply(&mut self, factor: i128) -> Result<(), CutFault>
        ensures multiple { OnOk result (IsMultiple (unsigned_abs factor) self.old self.new) }
        ensures keeps { OnOk result ((a : Valuation) → Holds a self.old → Holds a self.new) }
        ensures unchanged { OnErr result (self.new ≡ self.old) }
        ensures too_large { IsErrOf result CutFault.TooLarge → (r : NormalConstraint) × IsTooLarge (IsMultiple (unsigned_abs factor) self.old) r }
        ensures within { OnOk result ((r : NormalConstraint) → IsMultiple (unsigned_abs factor) self.old r → Fits r) }
        ensures factor { factor <ℤ pos 1 ↔ IsErrOf result CutFault.BadFactor }
    {
        if factor < 1 {
            return Err(CutFault::BadFactor);
        }
        let factor = factor.unsigned_abs();
        if !self.multiple_fits(factor) {
            return Err(CutFault::TooLarge);
        }
        self.scale(Scaling::Times(factor))?;
        Ok(())
    }

    /// Whether a multiple is within the limits.
    fn multiple_fits(&self, factor: u128) -> bool
        ensures fits { IsTrue result ↔ (factor * total self.now.terms ≤ largest_sum) × (factor * self.now.degree ≤ largest_sum) }
        ensures normal { IsNormal self.now }
    {
        product_fits(factor, self.sum) && product_fits(factor, self.degree)
    }

    /// Becomes its quotient, each number rounded up. `BadFactor` comes exactly for a divisor below 1. The result is always within the
    /// limits. After an error it is as before.
    pub fn divide(&mut self, divisor: i128) -> Result<(), CutFault>
        ensures quotient { OnOk result (IsQuotient (unsigned_abs divisor) self.old self.new) }
        ensures keeps { OnOk result ((a : Valuation) → Holds a self.old → Holds a self.new) }
        ensures unchanged { OnErr result (self.new ≡ self.old) }
        ensures fits { IsErrOf result CutFault.TooLarge → ⊥ }
        ensures factor { divisor <ℤ pos 1 ↔ IsErrOf result CutFault.BadFactor }
    {
        if divisor < 1 {
            return Err(CutFault::BadFactor);
        }
        self.scale(Scaling::DividedBy(divisor.unsigned_abs()))?;
        Ok(())
    }

    /// Scales all coefficients and the degree. Where memory runs out it is as before.
    fn scale(&mut self, scaling: Scaling) -> Result<(), AllocError>
        requires sum { ScalesWithin scaling (total self.old.terms) }
        requires degree { ScalesWithin scaling self.old.degree }
        ensures coefficients { OnOk result ((v : ℕ) (s : Bool) → coefficient self.new v s ≡ scaled scaling (coefficient self.old v s)) }
        ensures degree { OnOk result (self.new.degree ≡ scaled scaling self.old.degree) }
        ensures normal { OnOk result (IsNormal self.new) }
        ensures unchanged { OnErr result (self.new ≡ self.old) }
    {
        tidy(&mut self.touched, &self.nets)?;
        self.sum = scale_all(&mut self.nets, &self.touched, scaling);
        self.degree = scaled(self.degree, scaling);
        self.level = scaled_level(self.level, scaling);
        Ok(())
    }

    /// Hands over the constraint, and is empty then: without terms, of degree 0. After an error it is as before.
    pub fn take(&mut self, alloc: Global) -> Result<Normal, AllocError>
        ensures value { IfOk result (λ n. n ≡ self.old) }
        ensures empty { OnOk result (self.new ≡ nothing) }
        ensures unchanged { OnErr result (self.new ≡ self.old) }
    {
        tidy(&mut self.touched, &self.nets)?;
        let terms = collect(alloc, &self.nets, &self.touched)?;
        let taken = terms.finish_fitting(self.degree);
        self.clear();
        Ok(taken)
    }

    /// Becomes empty: without terms, of degree 0. No memory is taken, and none is given back.
    pub fn clear(&mut self)
        ensures { self.new ≡ nothing }
    {
        clear(&mut self.nets, &self.touched);
        self.touched.clear();
        self.recent.clear();
        self.level = LARGEST_SUM;
        self.sum = 0;
        self.degree = 0;
    }
}
