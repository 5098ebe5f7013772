//! Weakening: a variable goes, at the price of its coefficient.
//!
//! It is the sum with the axiom of the opposite literal, as often as the coefficient says: the literals cancel, and
//! each time the degree falls by 1. Whatever the variable is worth, the other literals make up the rest.

ghost use Rattle.std.specs.Prelude.{◌≡◌, ◌+◌, false, true, IfOk};
ghost use Rattle.linear.specs.Valuation.{Valuation};
ghost use Rattle.normal_form.specs.Normal.{IsNormal, Holds, coefficient};
ghost use Rattle.cut_rules.specs.Rules.{IsWeakening};
ghost use Rattle.cut_rules.specs.Steps.{changed, less};

use super::changes::push_kept;
use linear::Var;
use normal_form::{Normal, NormalBuilder, NormalTerm};
use std::alloc::{AllocError, Global};

/// The terms without a variable, and the coefficient that went.
#[derive(Drop)]
struct Weakened {
    terms: NormalBuilder,
    gone: u128,
}

/// The coefficient that a term keeps.
fn kept_coefficient(term: NormalTerm, var: Var) -> u128
    ensures { result ≡ less (var.0) (term.var.0) term.coef }
{
    if term.var.0 == var.0 { 0 } else { term.coef }
}

/// Leaves out the term of a variable.
fn without(alloc: Global, constraint: &Normal, var: Var) -> Result<Weakened, AllocError>
    ensures terms { IfOk result (λ w. w.terms ≡ changed (less (var.0)) constraint.now.terms) }
    ensures gone { IfOk result (λ w. w.gone ≡ coefficient constraint.now (var.0) false + coefficient constraint.now (var.0) true) }
{
    let mut terms = NormalBuilder::with_capacity(alloc, constraint.len())?;
    let mut gone: u128 = 0;
    for place in 0..constraint.len() {
        let term = constraint.term(place);
        let coef = kept_coefficient(term, var);
        push_kept(&mut terms, term, coef)?;
        gone += term.coef - coef;
    }
    Ok(Weakened { terms, gone })
}

/// The term of a variable goes, and the degree falls by its coefficient, not below 0; a constraint without the
/// variable stays as it is. The result is always within the limits.
pub fn weaken(alloc: Global, constraint: &Normal, var: Var) -> Result<Normal, AllocError>
    ensures weakening { IfOk result (IsWeakening (var.0) constraint.now) }
    ensures normal { IfOk result IsNormal }
    ensures keeps { IfOk result (λ r. (a : Valuation) → Holds a constraint.now → Holds a r) }
{
    let weakened = without(alloc, constraint, var)?;
    let degree = constraint.degree().saturating_sub(weakened.gone);
    Ok(weakened.terms.finish_fitting(degree))
}
