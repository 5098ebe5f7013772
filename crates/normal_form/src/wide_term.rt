//! A term of any coefficient up to 2^128, for those that are not small.
//!
//! It takes three words: a coefficient that stands in two halves makes no term wider than it is.

ghost use Rattle.std.specs.Prelude.{◌≡◌};
ghost use Rattle.normal_form.specs.Terms.{widened};

use super::term::NormalTerm;
use linear::Var;

/// A coefficient is the high half so many times, and the low half.
const HALF: u128 = 1 << 64;

/// A term whose coefficient stands in two halves.
#[derive(Clone, Copy, Debug)]
pub(crate) struct WideTerm {
    high: u64,
    low: u64,
    var: Var,
    negated: bool,
}

impl WideTerm {
    /// The wide form of a term.
    pub(crate) fn of(term: NormalTerm) -> WideTerm
        ensures { widened result ≡ term }
    {
        WideTerm {
            high: (term.coef / HALF) as u64,
            low: (term.coef % HALF) as u64,
            var: term.var,
            negated: term.negated,
        }
    }

    /// The term that it stands for.
    pub(crate) fn widened(self) -> NormalTerm
        ensures { result ≡ widened self }
    {
        NormalTerm {
            coef: u128::from(self.high) * HALF + u128::from(self.low),
            var: self.var,
            negated: self.negated,
        }
    }
}
