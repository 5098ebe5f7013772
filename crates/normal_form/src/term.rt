//! Terms of normal constraints.

ghost use Rattle.std.specs.Prelude.{◌≡◌};

use linear::{Lit, Var};

/// A coefficient and the literal that it counts for: the variable `x`, or its negation `~x`.
#[derive(Clone, Copy, Debug, PartialEq, Eq, Hash)]
pub struct NormalTerm {
    pub coef: u128,
    pub var: Var,
    pub negated: bool,
}

impl NormalTerm {
    /// The literal that the coefficient counts for.
    pub fn literal(self) -> Lit
        ensures { result ≡ record { var = self.var; negated = self.negated } }
    {
        Lit {
            var: self.var,
            negated: self.negated,
        }
    }
}
