//! The opposite literals of a list of terms: what the negation of a constraint and the second form of an equality
//! have in common.

ghost use Rattle.std.specs.Prelude.{◌≡◌, IfOk};
ghost use Rattle.normal_form.specs.Normal.{Rises};
ghost use Rattle.normal_form.specs.Balance.{flipped};

use super::builder::NormalBuilder;
use super::term::NormalTerm;
use super::terms::Terms;
use std::alloc::{AllocError, Global};

/// The same coefficients at the opposite literals.
pub(crate) fn flip(alloc: Global, terms: &Terms) -> Result<NormalBuilder, AllocError>
    requires { Rises 0 terms.now }
    ensures { IfOk result (λ b. b ≡ flipped terms.now) }
{
    let mut opposite = NormalBuilder::with_capacity(alloc, terms.len())?;
    for place in 0..terms.len() {
        let term = terms.get(place);
        opposite.push(NormalTerm {
            coef: term.coef,
            var: term.var,
            negated: !term.negated,
        })?;
    }
    Ok(opposite)
}
