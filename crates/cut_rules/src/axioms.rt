//! The axiom of a literal.

ghost use Rattle.std.specs.Prelude.{IfOk};
ghost use Rattle.linear.specs.Valuation.{Valuation};
ghost use Rattle.normal_form.specs.Normal.{IsNormal, Holds};
ghost use Rattle.cut_rules.specs.Rules.{IsAxiom};

use linear::Lit;
use normal_form::{Normal, NormalBuilder, NormalTerm};
use std::alloc::{AllocError, Global};

/// The constraint `1 l >= 0`, which holds everywhere.
pub fn axiom(alloc: Global, literal: Lit) -> Result<Normal, AllocError>
    ensures axiom { IfOk result (IsAxiom literal) }
    ensures normal { IfOk result IsNormal }
    ensures keeps { IfOk result (λ r. (a : Valuation) → Holds a r) }
{
    let mut terms = NormalBuilder::new(alloc);
    terms.push(NormalTerm {
        coef: 1,
        var: literal.var,
        negated: literal.negated,
    })?;
    Ok(terms.finish_fitting(0))
}
