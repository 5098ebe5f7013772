//! Assignments: one truth value for each variable.

ghost use Rattle.std.specs.Prelude.{◌≡◌, ◌<◌, length};
ghost use Rattle.linear.specs.Valuation.{literal_true, valuation_of};

use super::seq::Seq;
use super::term::Lit;
use std::marker::Model;

/// A truth value for each variable, in order of their numbers.
#[derive(Clone, Debug, Drop)]
pub struct Assignment {
    values: Seq<bool>,
}

impl Model for Assignment {
    ghost use Rattle.std.specs.Prelude.{Bool, List};

    ghost Value = { List Bool };

    ghost view = { λ a. a.values };
}

impl Assignment {
    /// The assignment of these values: the variable of number `n` has the value at place `n`.
    pub fn from_vec(values: Vec<bool>) -> Self
        ensures { result ≡ values.items }
    {
        Assignment {
            values: Seq::from_vec(values),
        }
    }

    /// The values, in order of the variables' numbers.
    pub fn as_slice(&self) -> &[bool]
        ensures { result.now ≡ self.now }
    {
        self.values.as_slice()
    }

    /// How many variables have a value.
    pub fn len(&self) -> usize
        ensures { result ≡ length self.now }
    {
        self.values.len()
    }

    /// Whether a literal is true.
    pub fn is_true(&self, lit: Lit) -> bool
        requires { lit.var.0 < length self.now }
        ensures { result ≡ literal_true (valuation_of self.now) (lit.var.0) lit.negated }
    {
        self.values.as_slice()[lit.var.0 as usize] != lit.negated
    }
}
