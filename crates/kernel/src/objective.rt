//! Bounds of the objective, as normal constraints.
//!
//! A better solution is one whose objective is at most some number; written as `>=`, the same terms with their signs changed.
//! What an improving solution adds and what a lower bound has to show are both such a constraint, so they are made here.

ghost use Rattle.std.specs.Prelude.{◌≡◌, ◌+◌, ◌-ℤ◌, ◌≤◌, IfErr, IfOk, map, pos, unsigned_abs};
ghost use Rattle.normal_form.specs.Normal.{Fits, IsNormal, largest_sum};
ghost use Rattle.normal_form.specs.NormalOf.{IsNormalOf, sign_changed, size_sum};
ghost use Rattle.linear.specs.Largest.{largest_objective};
ghost use Rattle.proof_rules.specs.Solution.{at_least, at_most};
ghost use Rattle.proof_rules.specs.Fault.{OrMemory};
ghost use Rattle.kernel.specs.Held.{IsUnfit};

use linear::{Integer, Relation, Seq, Signed, Term};
use normal_form::{Normal, normalize, normalize_fitting};
use proof_rules::StepFault;
use std::alloc::{AllocError, Global};

/// `objective <= value - 1`, which asks for what is worth less. It is always within the limits.
pub(crate) fn below(alloc: Global, objective: &[Term], value: Integer) -> Result<Normal, AllocError>
    requires objective { size_sum objective.now ≤ largest_objective }
    requires value { unsigned_abs value ≤ largest_objective }
    ensures { IfOk result (IsNormalOf (at_most objective.now (value -ℤ pos 1))) }
{
    let constraint = Signed {
        terms: Seq::from_vec(negated(alloc, objective)?),
        relation: Relation::AtLeast,
        right: 1 - value,
    };
    small_form(alloc, &constraint)
}

/// `objective >= bound`, where it is within the limits.
pub(crate) fn above(
    alloc: Global,
    objective: &Seq<Term>,
    bound: Integer,
) -> Result<Normal, StepFault>
    requires { size_sum objective.now ≤ largest_objective }
    ensures form { IfOk result (IsNormalOf (at_least objective.now bound)) }
    ensures fits { IfOk result Fits }
    ensures fault { IfErr result (λ f. OrMemory f (IsUnfit (at_least objective.now bound) f)) }
{
    let constraint = Signed {
        terms: objective.clone()?,
        relation: Relation::AtLeast,
        right: bound,
    };
    form(alloc, &constraint)
}

/// The normal form of a constraint, where it is within the limits.
fn form(alloc: Global, constraint: &Signed) -> Result<Normal, StepFault>
    requires relation { constraint.now.relation ≡ Relation.AtLeast }
    requires small { size_sum constraint.now.terms ≤ largest_sum }
    ensures form { IfOk result (IsNormalOf constraint.now) }
    ensures normal { IfOk result IsNormal }
    ensures fault { IfErr result (λ f. OrMemory f (IsUnfit constraint.now f)) }
{
    Ok(normalize(alloc, constraint)?)
}

/// The normal form of a constraint that is small enough to have one within the limits.
fn small_form(alloc: Global, constraint: &Signed) -> Result<Normal, AllocError>
    requires relation { constraint.now.relation ≡ Relation.AtLeast }
    requires small { size_sum constraint.now.terms + unsigned_abs constraint.now.right ≤ largest_sum }
    ensures { IfOk result (IsNormalOf constraint.now) }
{
    normalize_fitting(alloc, constraint)
}

/// Terms with their signs changed.
fn negated(alloc: Global, terms: &[Term]) -> Result<Vec<Term>, AllocError>
    requires { size_sum terms.now ≤ largest_objective }
    ensures { IfOk result (λ negated. negated.items ≡ map sign_changed terms.now) }
{
    let mut negated = Vec::with_capacity(alloc, terms.len())?;
    for term in terms {
        negated.push(Term::new(-term.coef, term.literal()))?;
    }
    Ok(negated)
}
