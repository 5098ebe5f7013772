//! Variables, literals and signed terms.

ghost use Rattle.std.specs.Prelude.{◌≡◌};
ghost use Rattle.linear.specs.Literal.{code, opposite};

/// A variable, by its number. The variables of a problem are numbered from 0 in order of first occurrence.
#[derive(Clone, Copy, Debug, PartialEq, Eq, PartialOrd, Ord, Hash)]
pub struct Var(pub u32);

/// A literal: the variable `x`, worth 1 where it is true, or its negation `~x`, worth `1 - x`.
#[derive(Clone, Copy, Debug, PartialEq, Eq)]
pub struct Lit {
    pub var: Var,
    pub negated: bool,
}

impl Lit {
    /// The other literal of its variable: `~x` for `x`, and `x` for `~x`.
    pub fn opposite(self) -> Lit
        ensures { result ≡ opposite self }
    {
        Lit {
            var: self.var,
            negated: !self.negated,
        }
    }

    /// Its number in tables by literal: twice that of its variable, and one more where it is negated.
    pub fn code(self) -> usize
        ensures { result ≡ code self }
    {
        self.var.0 as usize * 2 + self.negated as usize
    }
}

/// The type of an integer as a file or a proof spells it: a coefficient of either sign, a right side, a value of the objective.
pub type Integer = i128;

/// A coefficient, of either sign or 0, and the literal that it counts for.
#[derive(Clone, Copy, Debug, PartialEq, Eq)]
pub struct Term {
    pub coef: Integer,
    pub var: Var,
    pub negated: bool,
}

impl Term {
    /// A coefficient at a literal.
    pub fn new(coef: Integer, literal: Lit) -> Term
        ensures { result ≡ record { coef = coef; var = literal.var; negated = literal.negated } }
    {
        Term {
            coef,
            var: literal.var,
            negated: literal.negated,
        }
    }

    /// The literal that the coefficient counts for.
    pub fn literal(self) -> Lit
        ensures { result ≡ record { var = self.var; negated = self.negated } }
    {
        Lit {
            var: self.var,
            negated: self.negated,
        }
    }
}
