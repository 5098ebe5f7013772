//! Problems within the limits, what satisfies them and what an assignment is worth.
//!
//! That a problem is within its limits is a fact of the type: whoever has one may add up its sums, and no reader above has to
//! ask again. What it means is the plain sum over its own signed terms, in which a variable may stand many times; the normal
//! forms of cutting planes come above, and are shown to mean the same.

ghost use Rattle.std.specs.Prelude.{◌≡◌, ◌↔◌, length, IsTrue};
ghost use Rattle.std.specs.Option.{option_copied};

use super::assignment::Assignment;
use super::constraints::Constraints;
use super::names::Names;
use super::seq::Seq;
use super::sums::{meets, sum};
use super::term::{Integer, Term};
use std::marker::Model;

/// A linear 0-1 problem: names, an objective to be minimised or none, and constraints. Its sizes
/// are within the limits (`LARGEST_INTEGER`, `MOST_TERMS`, `MOST_VARIABLES`, `MOST_CONSTRAINTS`) by its type.
#[derive(Drop)]
pub struct Problem {
    names: Names,
    objective: Option<Seq<Term>>,
    constraints: Constraints,
}

impl Model for Problem {
    ghost use Rattle.linear.specs.Opb.{Opb};
    ghost use Rattle.linear.specs.Limits.{IsWithin};

    ghost Value = { Opb };

    ghost view = { λ p. record { names = p.names; objective = p.objective; constraints = p.constraints } };

    ghost invariant = { λ p. IsWithin (record { names = p.names; objective = p.objective; constraints = p.constraints }) };
}

impl Problem {
    ghost use Rattle.linear.specs.Opb.{Opb, Satisfies, value_of};
    ghost use Rattle.linear.specs.Limits.{IsWithin};
    ghost use Rattle.linear.specs.Valuation.{valuation_of};

    /// The problem of these parts, which are within the limits.
    pub fn new(names: Names, objective: Option<Seq<Term>>, constraints: Constraints) -> Self
        requires { IsWithin (record { names = names; objective = objective; constraints = constraints }) }
        ensures { result ≡ record { names = names; objective = objective; constraints = constraints } }
    {
        Problem {
            names,
            objective,
            constraints,
        }
    }

    /// What holds of every problem, for a proof that needs it where nothing else of the problem is asked.
    pub fn reveal(&self)
        ensures { IsWithin self.now }
    {
        let _ = &self.names;
    }

    /// The names, by the numbers of the variables.
    pub fn names(&self) -> &Names
        ensures names { result.now ≡ self.now.names }
        ensures within { IsWithin self.now }
    {
        &self.names
    }

    /// The terms of the objective, if there is one.
    pub fn objective(&self) -> Option<&Seq<Term>>
        ensures { option_copied result ≡ self.now.objective }
    {
        self.objective.as_ref()
    }

    /// The constraints, in order.
    pub fn constraints(&self) -> &Constraints
        ensures constraints { result.now ≡ self.now.constraints }
        ensures within { IsWithin self.now }
    {
        &self.constraints
    }

    /// Whether an assignment, one value for each name, meets every constraint.
    pub fn satisfied(&self, assignment: &Assignment) -> bool
        requires { length assignment.now ≡ length self.now.names }
        ensures { IsTrue result ↔ Satisfies (valuation_of assignment.now) self.now }
    {
        for place in 0..self.constraints.len() {
            if !meets(assignment, &self.constraints.get(place)) {
                return false;
            }
        }
        true
    }

    /// What the objective is worth under an assignment, one value for each name; 0 where there is no objective.
    pub fn value(&self, assignment: &Assignment) -> Integer
        requires { length assignment.now ≡ length self.now.names }
        ensures { result ≡ value_of (valuation_of assignment.now) self.now }
    {
        match &self.objective {
            None => 0,
            Some(terms) => sum(assignment, terms.as_slice()),
        }
    }
}
