//! The steps of a proof.

use linear::{Lit, Seq, Signed, Var};
use substitution::Substitution;

/// One item of a `pol` step, which writes an expression of cutting planes in postfix.
#[derive(Clone, Copy, Debug, PartialEq, Eq)]
pub enum Item {
    /// A constraint by its id; `-k` is the next id less `k`.
    Id(i128),
    /// The axiom `1 l >= 0` of a literal.
    Axiom(Lit),
    /// Addition of the two constraints before.
    Add,
    /// Multiplication of the constraint before.
    Multiply(i128),
    /// Division of the constraint before, rounded up.
    Divide(i128),
    /// Saturation of the constraint before.
    Saturate,
    /// Weakening of the constraint before by a variable.
    Weaken(Var),
}

/// A goal of a subproof, by the name that its line gives.
#[derive(Clone, Copy, Debug, PartialEq, Eq)]
pub enum GoalName {
    /// The live constraint of an id, under the substitution.
    Live(i128),
    /// `#1`: the new constraint, under the substitution.
    Itself,
    /// `#2`: the objective is no greater under the substitution.
    Objective,
}

/// A step: one line of a proof. (The VeriPB proof format, version 2.0.)
#[derive(Debug, Drop)]
pub enum Step {
    /// Adds the value of an expression of cutting planes.
    Pol(Seq<Item>),
    /// Adds a constraint with `>=` that is shown from the live ones.
    Rup(Signed),
    /// Adds a constraint with `>=` that redundance allows, by a witness.
    Red(Signed, Substitution),
    /// Logs a solution.
    Sol(Seq<Lit>),
    /// Logs a solution that is better than those of such steps before, and asks for still better ones.
    Soli(Seq<Lit>),
    /// Removes constraints by their ids.
    Del(Seq<i128>),
    /// Opens the block of a subproof, whose end adds a constraint with `>=` that redundance allows, by a witness.
    RedBegin(Signed, Substitution),
    /// Opens a goal of the open block.
    Goal(GoalName),
    /// Closes what is open: a goal where one is, else the block.
    End,
}
