//! Whether a step can be written as a line of a proof.
//!
//! The format bounds integers by 2^120 and names variables by the file's table, and a step is written only within these
//! bounds. A step of a solver is no text yet, and whoever does not know that its steps are within them asks here first.

ghost use Rattle.std.specs.Prelude.{◌↔◌, ◌<◌, All, IsTrue};
ghost use Rattle.proof_text.specs.Writable.{IsConstraintWritable, IsGoalWritable, IsImageWritable, IsItemWritable};
ghost use Rattle.proof_text.specs.Writable.{IsLitWritable, IsPairWritable, IsStepWritable, IsTermWritable, IsWritable};

use linear::{Lit, Relation, Signed, Term, Var};
use pb_text::LARGEST_NUMBER;
use proof_steps::{GoalName, Item, Step};
use substitution::{Image, Substitution};

fn is_writable(number: i128) -> bool
    ensures { IsTrue result ↔ IsWritable number }
{
    number.unsigned_abs() <= LARGEST_NUMBER
}

fn is_named(count: usize, var: Var) -> bool
    ensures { IsTrue result ↔ (var.0 < count) }
{
    (var.0 as usize) < count
}

fn is_item_writable(count: usize, item: Item) -> bool
    ensures { IsTrue result ↔ IsItemWritable count item }
{
    match item {
        Item::Id(number) => is_writable(number),
        Item::Multiply(factor) => is_writable(factor),
        Item::Divide(factor) => is_writable(factor),
        Item::Axiom(lit) => is_named(count, lit.var),
        Item::Weaken(var) => is_named(count, var),
        Item::Add => true,
        Item::Saturate => true,
    }
}

fn is_term_writable(count: usize, term: Term) -> bool
    ensures { IsTrue result ↔ IsTermWritable count term }
{
    is_writable(term.coef) && is_named(count, term.var)
}

fn is_constraint_writable(count: usize, constraint: &Signed) -> bool
    ensures { IsTrue result ↔ IsConstraintWritable count constraint.now }
{
    constraint.relation == Relation::AtLeast
        && is_writable(constraint.right)
        && constraint
            .terms
            .as_slice()
            .iter()
            .all(|term| is_term_writable(count, *term))
}

fn is_image_writable(count: usize, image: Image) -> bool
    ensures { IsTrue result ↔ IsImageWritable count image }
{
    match image {
        Image::Lit(lit) => is_named(count, lit.var),
        Image::Zero => true,
        Image::One => true,
    }
}

fn is_pair_writable(count: usize, pair: (Var, Image)) -> bool
    ensures { IsTrue result ↔ IsPairWritable count pair }
{
    is_named(count, pair.0) && is_image_writable(count, pair.1)
}

fn are_literals_writable(count: usize, literals: &[Lit]) -> bool
    ensures { IsTrue result ↔ All (IsLitWritable count) literals.now }
{
    literals.iter().all(|lit| is_named(count, lit.var))
}

fn are_images_writable(count: usize, witness: &Substitution) -> bool
    ensures { IsTrue result ↔ All (IsPairWritable count) witness.now }
{
    witness
        .as_slice()
        .iter()
        .all(|pair| is_pair_writable(count, *pair))
}

fn is_goal_writable(goal: GoalName) -> bool
    ensures { IsTrue result ↔ IsGoalWritable goal }
{
    match goal {
        GoalName::Live(id) => is_writable(id),
        GoalName::Itself | GoalName::Objective => true,
    }
}

/// Whether a table of `count` names has all variables of a step, its integers are at most 2^120 in size, and its relation
/// is `>=`.
pub fn is_step_writable(count: usize, step: &Step) -> bool
    ensures { IsTrue result ↔ IsStepWritable count step.now }
{
    match step {
        Step::Pol(items) => items
            .as_slice()
            .iter()
            .all(|item| is_item_writable(count, *item)),
        Step::Rup(constraint) => is_constraint_writable(count, constraint),
        Step::Red(constraint, witness) | Step::RedBegin(constraint, witness) => {
            is_constraint_writable(count, constraint) && are_images_writable(count, witness)
        }
        Step::Sol(literals) => are_literals_writable(count, literals.as_slice()),
        Step::Soli(literals) => are_literals_writable(count, literals.as_slice()),
        Step::Del(ids) => ids.as_slice().iter().all(|id| is_writable(*id)),
        Step::Goal(goal) => is_goal_writable(*goal),
        Step::End => true,
    }
}
