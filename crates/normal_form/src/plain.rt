//! Terms that are those of a normal constraint as they are written, or in order.
//!
//! Those of most clauses and of most sums are: their coefficients are above 0, and no variable stands twice. Then nothing is to be merged, and
//! the right side is the degree. One look at each term shows it, which costs less than to merge.

ghost use Rattle.std.specs.Prelude.{◌≡◌, map, IfOk, IsTrue};
ghost use Rattle.normal_form.specs.Plain.{ArePlain, plain_term};

use super::builder::NormalBuilder;
use super::term::NormalTerm;
use linear::Term;
use std::alloc::{AllocError, Global};

/// Whether terms stand as a normal constraint has them.
pub(crate) fn are_plain(terms: &[Term]) -> bool
    ensures { IsTrue result → ArePlain 0 terms.now }
{
    let mut next: u64 = 0;
    for place in 0..terms.len() {
        let term = terms[place];
        let var = term.var.0 as u64;
        if term.coef <= 0 || var < next {
            return false;
        }
        next = var + 1;
    }
    true
}

/// The same terms as those of a normal constraint.
pub(crate) fn plain_terms(alloc: Global, terms: &[Term]) -> Result<NormalBuilder, AllocError>
    requires { ArePlain 0 terms.now }
    ensures { IfOk result (λ b. b ≡ map plain_term terms.now) }
{
    let mut made = NormalBuilder::with_capacity(alloc, terms.len())?;
    for place in 0..terms.len() {
        let term = terms[place];
        made.push(NormalTerm {
            coef: term.coef.unsigned_abs(),
            var: term.var,
            negated: term.negated,
        })?;
    }
    Ok(made)
}
