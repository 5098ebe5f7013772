//! Saturation: a coefficient above the degree says no more than the degree.
//!
//! A true literal with such a coefficient meets the constraint alone, and so it does with the degree as coefficient;
//! a false one counts for nothing in both. Smaller coefficients make the same constraint force more after additions. No number
//! becomes greater, so a constraint that nobody else has is saturated where it stands.

ghost use Rattle.std.specs.Prelude.{◌≡◌, ◌<◌, min, IfOk, length, slice_index_or};
ghost use Rattle.linear.specs.Valuation.{Valuation};
ghost use Rattle.normal_form.specs.declared.term.NormalTerm.{NormalTerm};
ghost use Rattle.normal_form.specs.Normal.{IsNormal, Holds};
ghost use Rattle.normal_form.specs.Terms.{with_coefficient};
ghost use Rattle.cut_rules.specs.Rules.{IsSaturation};
ghost use Rattle.cut_rules.specs.Steps.{changed};

use super::changes::push_kept;
use normal_form::{Normal, NormalBuilder};
use std::alloc::{AllocError, Global};

/// The terms, each coefficient at most the cap.
fn capped(alloc: Global, constraint: &Normal, cap: u128) -> Result<NormalBuilder, AllocError>
    ensures { IfOk result (λ b. b ≡ changed (λ _ c. min c cap) constraint.now.terms) }
{
    let mut terms = NormalBuilder::with_capacity(alloc, constraint.len())?;
    for place in 0..constraint.len() {
        let term = constraint.term(place);
        push_kept(&mut terms, term, term.coef.min(cap))?;
    }
    Ok(terms)
}

/// Each coefficient becomes the less of itself and the degree; terms that become 0 go. The result is always
/// within the limits.
pub fn saturate(alloc: Global, constraint: &Normal) -> Result<Normal, AllocError>
    ensures saturation { IfOk result (IsSaturation constraint.now) }
    ensures normal { IfOk result IsNormal }
    ensures keeps { IfOk result (λ r. (a : Valuation) → Holds a constraint.now → Holds a r) }
{
    let degree = constraint.degree();
    let terms = capped(alloc, constraint, degree)?;
    Ok(terms.finish_fitting(degree))
}

/// Caps the coefficient at a place, which is this one. Most are within the cap, and nothing is written then.
#[inline(always)]
fn cap_term(constraint: &mut Normal, place: usize, coef: u128, cap: u128)
    requires place { place < length constraint.old.terms }
    requires coefficient { (d : NormalTerm) → coef ≡ (slice_index_or constraint.old.terms place d).coef }
    requires cap { 0 < cap }
    ensures terms { constraint.new.terms ≡ with_coefficient constraint.old.terms place (min coef cap) }
    ensures degree { constraint.new.degree ≡ constraint.old.degree }
{
    if coef > cap {
        constraint.lower_coefficient(place, cap);
    }
}

/// Caps each coefficient where it stands.
fn cap_terms(constraint: &mut Normal, cap: u128)
    requires { 0 < cap }
    ensures terms { constraint.new.terms ≡ changed (λ _ c. min c cap) constraint.old.terms }
    ensures degree { constraint.new.degree ≡ constraint.old.degree }
{
    for place in 0..constraint.len() {
        let coef = constraint.term(place).coef;
        cap_term(constraint, place, coef, cap);
    }
}

/// The same where the constraint stands, which takes no memory.
pub fn saturate_in_place(constraint: &mut Normal)
    ensures saturation { IsSaturation constraint.old constraint.new }
    ensures keeps { (a : Valuation) → Holds a constraint.old → Holds a constraint.new }
{
    let degree = constraint.degree();
    if degree == 0 {
        constraint.clear_terms();
        return;
    }
    cap_terms(constraint, degree);
}
