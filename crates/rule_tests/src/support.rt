//! Constraints written shortly, and compared.

ghost use Rattle.std.specs.Prelude.{◌≡◌, IfOk};

use linear::{Lit, Relation, Seq, Signed, Term, Var};
use normal_form::{CutFault, Normal, NormalTerm, normalize};
use std::alloc::{AllocError, Global};

/// 2^120, the limit of coefficient sums and of degrees.
pub(crate) const LIMIT: i128 = 1329227995784915872903807060280344576;

/// 2^119: twice this is the limit.
pub(crate) const HALF: i128 = 664613997892457936451903530140172288;

/// A term of a table: its coefficient, and its literal as its sign and the number of its variable.
pub(crate) type Written = (i128, bool, u32);

/// The sign of a variable in a table.
pub(crate) const X: bool = false;

/// The sign of a negated variable in a table.
pub(crate) const NOT: bool = true;

/// The variable as a literal.
pub(crate) fn x(var: u32) -> Lit {
    Lit {
        var: Var(var),
        negated: false,
    }
}

/// Its negation.
pub(crate) fn not_x(var: u32) -> Lit {
    Lit {
        var: Var(var),
        negated: true,
    }
}

/// The terms of a table's row.
fn terms(alloc: Global, written: &[Written]) -> Result<Vec<Term>, AllocError> {
    let mut terms = Vec::new(alloc);
    for (coef, negated, var) in written {
        terms.push(Term {
            coef: *coef,
            var: Var(*var),
            negated: *negated,
        })?;
    }
    Ok(terms)
}

/// A written constraint.
pub(crate) fn signed(
    alloc: Global,
    written: &[Written],
    relation: Relation,
    right: i128,
) -> Result<Signed, AllocError>
    ensures { IfOk result (λ c. c.relation ≡ relation) }
{
    Ok(Signed {
        terms: Seq::from_vec(terms(alloc, written)?),
        relation,
        right,
    })
}

/// The normal form of a written constraint with `>=`.
pub(crate) fn at_least(
    alloc: Global,
    written: &[Written],
    right: i128,
) -> Result<Normal, CutFault> {
    let constraint = signed(alloc, written, Relation::AtLeast, right)?;
    normalize(alloc, &constraint)
}

/// Whether a term of a normal constraint is this written one, whose coefficient is above 0.
fn is_term(term: NormalTerm, written: Written) -> bool {
    let (coef, negated, var) = written;
    term.literal()
        == (Lit {
            var: Var(var),
            negated,
        })
        && coef > 0
        && term.coef == coef.unsigned_abs()
}

/// Whether a constraint has exactly these terms, in this order, and this degree.
pub(crate) fn is(constraint: &Normal, written: &[Written], degree: u128) -> bool {
    if constraint.len() != written.len() || constraint.degree() != degree {
        return false;
    }
    for place in 0..constraint.len() {
        if place >= written.len() || !is_term(constraint.term(place), written[place]) {
            return false;
        }
    }
    true
}

/// Whether an answer is this fault.
pub(crate) fn is_fault(answer: Result<Normal, CutFault>, fault: CutFault) -> bool {
    answer.is_err_and(|e| e == fault)
}
