//! What a substitution must show of an objective: that it does not raise it.
//!
//! A redundance step may take answers away as long as one of least value is left (Bogaerts, Gocht, McCreesh and
//! Nordström, for the VeriPB format): the answer after the substitution must be worth no more than the one before. The
//! difference of the two sums is one constraint over the values before. Only the variables that are given images count in
//! it, each with its net coefficient: so a table of these is made once for each objective, and a goal costs what its
//! substitution names, however long the objective is. The objective's terms come from a file and are within its limits, so
//! the difference always has a normal form.

ghost use Rattle.std.specs.Prelude.{◌≡◌, ◌+◌, ◌<◌, ◌≤◌, ◌++◌, ◌∷◌, ◌+ℤ◌, [], List, None, IfOk, IfSome, IsErrOf, MatchOption, OnErr, length, neg_ℤ, pos, slice_index_or, unsigned_abs};
ghost use Rattle.std.specs.Option.{IsSomeAnd};
ghost use Rattle.linear.specs.Largest.{largest_objective};
ghost use Rattle.linear.specs.Limits.{IsSumWithin};
ghost use Rattle.normal_form.specs.Normal.{IsNormal, largest_sum};
ghost use Rattle.normal_form.specs.NormalOf.{size_sum, slope};
ghost use Rattle.substitution.specs.Images.{Images};
ghost use Rattle.substitution.specs.Objective.{AreNetsOf, IsObjectiveGoal, net_terms, not_raised};

use super::application::Partial;
use super::substitution::Substitution;
use linear::{Integer, Problem, Relation, Seq, Signed, Term, Var};
use normal_form::{Normal, normalize_fitting};
use std::alloc::{AllocError, Global};
use std::marker::Model;

/// The objective of a problem, if it has one, with its net coefficients by variable.
#[derive(Drop)]
pub struct NetObjective<'a> {
    problem: &'a Problem,
    nets: Vec<Integer>,
}

impl<'a> Model for NetObjective<'a> {
    ghost use Rattle.std.specs.Prelude.{IfSome, List, Option};
    ghost use Rattle.linear.specs.declared.term.Term.{Term};
    ghost use Rattle.substitution.specs.Objective.{AreNetsOf};

    ghost Value = { Option (List Term) };

    ghost view = { λ o. o.problem.now.objective };

    ghost invariant = { λ o. IfSome o.problem.now.objective (λ terms. AreNetsOf terms o.nets.items) };
}

impl<'a> NetObjective<'a> {
    ghost use Rattle.std.specs.Prelude.{◌≡◌, None, IfOk, IfSome, IsErrOf, MatchOption, OnErr};
    ghost use Rattle.std.specs.Option.{IsSomeAnd};
    ghost use Rattle.normal_form.specs.Normal.{IsNormal};
    ghost use Rattle.substitution.specs.Objective.{IsObjectiveGoal};

    /// The objective of a problem. It takes sixteen bytes for each variable of the file, and nothing where there is no objective.
    pub fn of(alloc: Global, problem: &'a Problem) -> Result<Self, AllocError>
        ensures { IfOk result (λ objective. objective ≡ problem.now.objective) }
    {
        let count = problem.names().len();
        let nets = match problem.objective() {
            None => Vec::new(alloc),
            Some(objective) => nets_of(alloc, objective.as_slice(), count)?,
        };
        Ok(NetObjective { problem, nets })
    }

    /// The normal form of `objective - (objective under the substitution) >= 0`, which holds exactly where the
    /// substitution does not raise the objective; none where there is no objective. It is always within the limits, and
    /// costs what the substitution names.
    pub fn goal(
        &self,
        alloc: Global,
        substitution: &Substitution,
    ) -> Result<Option<Normal>, AllocError>
        ensures goal { IfOk result (λ goal. MatchOption self.now (goal ≡ None)
            (λ objective. IsSomeAnd goal (IsObjectiveGoal objective substitution.now))) }
        ensures normal { IfOk result (λ goal. IfSome goal IsNormal) }
    {
        // That the objective is within the limits, and that no variable is given two images, is known by the types; this
        // makes it known here.
        self.problem.reveal();
        substitution.reveal();
        let Some(_objective) = self.problem.objective() else {
            return Ok(None);
        };
        let terms = net_terms(alloc, self.nets.as_slice(), substitution)?;
        let signed = difference(alloc, terms.as_slice(), substitution)?;
        Ok(Some(normalize_fitting(alloc, &signed)?))
    }
}

/// A net coefficient with one more term of its variable.
fn with_term(net: Integer, term: Term) -> Integer
    requires { unsigned_abs net + unsigned_abs term.coef ≤ largest_sum }
    ensures { result ≡ net +ℤ slope term }
{
    if term.negated {
        net - term.coef
    } else {
        net + term.coef
    }
}

/// Adds a term to the net coefficient of its variable.
fn add_term(nets: &mut Vec<Integer>, term: Term)
    requires place { term.var.0 < length nets.old.items }
    requires room { unsigned_abs (slice_index_or nets.old.items (term.var.0) (pos 0)) + unsigned_abs term.coef ≤ largest_sum }
    ensures length { length nets.new.items ≡ length nets.old.items }
    ensures added { (before : List Term) → AreNetsOf before nets.old.items → AreNetsOf (before ++ term ∷ []) nets.new.items }
{
    let place = term.var.0 as usize;
    nets[place] = with_term(nets[place], term);
}

/// The net coefficients of an objective over so many variables.
fn nets_of(alloc: Global, objective: &[Term], count: usize) -> Result<Vec<Integer>, AllocError>
    requires { IsSumWithin count objective.now }
    ensures { IfOk result (λ nets. AreNetsOf objective.now nets.items) }
{
    let mut nets = vec![in alloc; 0; count]?;
    for term in objective {
        add_term(&mut nets, *term);
    }
    Ok(nets)
}

/// The net coefficient of a variable; 0 for the names that only a proof has.
fn net_of(nets: &[Integer], variable: Var) -> Integer
    ensures { result ≡ slice_index_or nets.now (variable.0) (pos 0) }
{
    match nets.get(variable.0 as usize) {
        Some(net) => *net,
        None => 0,
    }
}

/// The net terms of the variables of a substitution.
fn net_terms(
    alloc: Global,
    nets: &[Integer],
    substitution: &Substitution,
) -> Result<Vec<Term>, AllocError>
    ensures { IfOk result (λ terms. terms.items ≡ net_terms nets.now substitution.now) }
{
    let images = substitution.as_slice();
    let mut terms = Vec::with_capacity(alloc, images.len())?;
    for image in images {
        terms.push(Term {
            coef: net_of(nets, image.0),
            var: image.0,
            negated: false,
        })?;
    }
    Ok(terms)
}

/// The terms of the objective, and after them those with images put in, with all signs changed.
fn with_images(
    alloc: Global,
    objective: &[Term],
    substitution: &Substitution,
) -> Result<Partial, AllocError>
    requires { size_sum objective.now ≤ largest_objective }
    ensures terms { IfOk result (λ p. p.terms.items ≡ (not_raised objective.now substitution.now).terms) }
    ensures constant { IfOk result (λ p. neg_ℤ p.constant ≡ (not_raised objective.now substitution.now).right) }
{
    let mut partial = Partial {
        terms: Vec::from_slice(alloc, objective)?,
        constant: 0,
    };
    for term in objective {
        let image = substitution.image_of_literal(term.literal());
        partial.put(-term.coef, image)?;
    }
    Ok(partial)
}

/// `objective - (objective under the substitution) >= 0`.
fn difference(
    alloc: Global,
    objective: &[Term],
    substitution: &Substitution,
) -> Result<Signed, AllocError>
    requires { size_sum objective.now ≤ largest_objective }
    ensures value { IfOk result (λ c. c ≡ not_raised objective.now substitution.now) }
    ensures small { IfOk result (λ c. size_sum c.terms + unsigned_abs c.right ≤ largest_sum) }
{
    let partial = with_images(alloc, objective, substitution)?;
    Ok(Signed {
        terms: Seq::from_vec(partial.terms),
        relation: Relation::AtLeast,
        right: -partial.constant,
    })
}

/// The same for one substitution alone, where no table of the objective is kept.
pub fn objective_goal(
    alloc: Global,
    problem: &Problem,
    substitution: &Substitution,
) -> Result<Option<Normal>, AllocError>
    ensures goal { IfOk result (λ goal. MatchOption problem.now.objective (goal ≡ None)
        (λ objective. IsSomeAnd goal (IsObjectiveGoal objective substitution.now))) }
    ensures normal { IfOk result (λ goal. IfSome goal IsNormal) }
{
    NetObjective::of(alloc, problem)?.goal(alloc, substitution)
}
