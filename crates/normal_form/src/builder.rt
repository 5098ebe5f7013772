//! Making a normal constraint term by term, in one pass.
//!
//! Every rule gives its terms in rising order of variables, so a constraint is made by putting terms at the end, and
//! is normal by construction. Whoever makes one never sees how terms are kept. The coefficient sum is kept along the
//! way and stops at the largest number of its type: that the limit is exceeded is asked once, at the end, and exactly.

ghost use Rattle.std.specs.Prelude.{◌≡◌, ℕ, Bool, ◌+◌, ◌-◌, ◌^◌, ◌<◌, ◌≤◌, ◌↔◌, ◌++◌, ◌∷◌, [], min, pos, ◌+ℤ◌, unsigned_abs, IfOk, OnOk, OnErr, IsErrOf, if◌then◌else◌};
ghost use Rattle.normal_form.specs.Normal.{variable_bound, total, IsNormal, Rises, Fits};
ghost use Rattle.normal_form.specs.Balance.{rises_of, net_term};

use super::fault::CutFault;
use super::normal::Normal;
use super::term::NormalTerm;
use super::terms::Terms;
use linear::Var;
use std::alloc::{AllocError, Global};
use std::marker::Model;

/// The terms so far of a normal constraint that is being made. The coefficients may add up to any number:
/// only `finish` asks whether the sum is within the limit.
#[derive(Debug, Drop)]
pub struct NormalBuilder {
    terms: Terms,
    capped_sum: u128,
}

impl Model for NormalBuilder {
    ghost use Rattle.std.specs.Prelude.{◌≡◌, ◌-◌, ◌^◌, min, List};
    ghost use Rattle.normal_form.specs.declared.term.NormalTerm.{NormalTerm};
    ghost use Rattle.normal_form.specs.Normal.{Rises, total};

    ghost Value = { List NormalTerm };

    ghost view = { λ b. b.terms };

    ghost invariant = { λ b. Rises 0 b.terms × (b.capped_sum ≡ min (total b.terms) (2 ^ 128 - 1)) };
}

impl NormalBuilder {
    /// No terms yet.
    pub fn new(alloc: Global) -> Self
        ensures { result ≡ [] }
    {
        NormalBuilder {
            terms: Terms::new(alloc),
            capped_sum: 0,
        }
    }

    /// No terms yet, and room for so many.
    pub fn with_capacity(alloc: Global, count: usize) -> Result<Self, AllocError>
        ensures { IfOk result (λ b. b ≡ []) }
    {
        Ok(NormalBuilder {
            terms: Terms::with_capacity(alloc, count)?,
            capped_sum: 0,
        })
    }

    /// Puts a term at the end: its coefficient is above 0, and its variable above all so far.
    #[inline(always)]
    pub fn push(&mut self, term: NormalTerm) -> Result<(), AllocError>
        requires coefficient { 0 < term.coef }
        requires variable { variable_bound self.old ≤ term.var.0 }
        ensures ok { OnOk result (self.new ≡ self.old ++ term ∷ []) }
        ensures bound { OnOk result (variable_bound self.new ≡ term.var.0 + 1) }
        ensures err { OnErr result (self.new ≡ self.old) }
    {
        self.terms.push(term)?;
        self.capped_sum = self.capped_sum.saturating_add(term.coef);
        Ok(())
    }

    /// Puts the term of a variable with a net coefficient at the end, none where that is 0: its literal is the
    /// variable where it is above 0, and the negation where it is below. The variable is above all so far.
    #[inline(always)]
    pub fn push_net(&mut self, var: Var, net: i128) -> Result<(), AllocError>
        requires { variable_bound self.old ≤ var.0 }
        ensures ok { OnOk result (self.new ≡ self.old ++ net_term (var.0) net) }
        ensures gives { OnOk result ((set : ℕ → Bool) → rises_of set self.new ≡ rises_of set self.old +ℤ (if set (var.0) then net else pos 0)) }
        ensures total { OnOk result (total self.new ≡ total self.old + unsigned_abs net) }
        ensures bound { OnOk result (variable_bound self.new ≤ var.0 + 1) }
        ensures rises { OnOk result (Rises 0 self.old → Rises 0 self.new) }
        ensures err { OnErr result (self.new ≡ self.old) }
    {
        if net == 0 {
            return Ok(());
        }
        self.push(NormalTerm {
            coef: net.unsigned_abs(),
            var,
            negated: net < 0,
        })
    }

    /// What the coefficients so far add up to, as far as a number of 128 bits can tell.
    pub fn capped_sum(&self) -> u128
        ensures { result ≡ min (total self.now) (2 ^ 128 - 1) }
    {
        self.capped_sum
    }

    /// The terms so far.
    pub(crate) fn terms(&self) -> &Terms
        ensures value { result.now ≡ self.now }
        ensures rises { Rises 0 self.now }
    {
        &self.terms
    }

    /// The constraint of these terms with this degree. `TooLarge` comes exactly where their sum or the
    /// degree is above `2^120`. No memory is taken.
    pub fn finish(self, degree: u128) -> Result<Normal, CutFault>
        ensures terms { IfOk result (λ n. n.terms ≡ self) }
        ensures degree { IfOk result (λ n. n.degree ≡ degree) }
        ensures normal { IfOk result IsNormal }
        ensures too_large { IsErrOf result CutFault.TooLarge ↔ (Fits (record { terms = self; degree = degree }) → ⊥) }
        ensures others { OnErr result (IsErrOf result CutFault.TooLarge) }
    {
        Normal::from_parts(self.terms, self.capped_sum, degree)
    }

    /// The same where both are within the limits: neither the sum of the terms nor the degree is above `2^120`.
    pub fn finish_fitting(self, degree: u128) -> Normal
        requires { Fits (record { terms = self; degree = degree }) }
        ensures terms { result.terms ≡ self }
        ensures degree { result.degree ≡ degree }
        ensures normal { IsNormal result }
    {
        Normal::from_fitting(self.terms, self.capped_sum, degree)
    }
}
