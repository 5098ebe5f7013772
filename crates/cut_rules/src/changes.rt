//! Terms with other coefficients: the rules on one constraint keep its literals in their order, and change numbers.

ghost use Rattle.std.specs.Prelude.{◌≡◌, ◌≤◌, ◌++◌, OnOk};
ghost use Rattle.normal_form.specs.Normal.{variable_bound};
ghost use Rattle.cut_rules.specs.Steps.{kept};

use normal_form::{NormalBuilder, NormalTerm};
use std::alloc::AllocError;

/// Puts a term with another coefficient at the end, unless that is 0.
#[inline(always)]
pub(crate) fn push_kept(
    terms: &mut NormalBuilder,
    term: NormalTerm,
    coef: u128,
) -> Result<(), AllocError>
    requires { variable_bound terms.old ≤ term.var.0 }
    ensures { OnOk result (terms.new ≡ terms.old ++ kept term coef) }
{
    if coef == 0 {
        return Ok(());
    }
    terms.push(NormalTerm {
        coef,
        var: term.var,
        negated: term.negated,
    })
}
