//! The part of a constraint that a substitution can change: its terms of the variables that the substitution names.
//!
//! A step may fix one literal of a constraint of a hundred thousand terms, and thousands of steps may do so one after another. All
//! other terms stand in the image as they are: neither its degree nor what the constraint has more than it depends on them. So the
//! terms of those few variables are looked up, and no others are read.

ghost use Rattle.std.specs.Prelude.{◌≡◌, ◌+◌, ◌≤◌, ◌++◌, ◌==◌, ℕ, Bool, IfOk, OnOk, if◌then◌else◌};
ghost use Rattle.std.specs.List.Sorted.{IsStrictlyIncreasing};
ghost use Rattle.normal_form.specs.Normal.{IsNormal, coefficient, only, sum_over, variable_bound};
ghost use Rattle.substitution.specs.Part.{AreAmong, IsPart, is_among, names, pair_names};

use super::image::Image;
use super::lookup::term_of;
use super::substitution::Substitution;
use linear::Var;
use normal_form::{Normal, NormalBuilder};
use std::alloc::{AllocError, Global};

/// Puts a variable that is given an image, and that of the image, at the end of a list.
fn push_names(variables: &mut Vec<u32>, pair: (Var, Image)) -> Result<(), AllocError>
    ensures { OnOk result (variables.new.items ≡ variables.old.items ++ pair_names pair) }
{
    variables.push(pair.0.0)?;
    if let Image::Lit(literal) = pair.1 {
        variables.push(literal.var.0)?;
    }
    Ok(())
}

/// The variables that a substitution names, image by image: one that is named twice stands there twice.
fn names(alloc: Global, substitution: &Substitution) -> Result<Vec<u32>, AllocError>
    ensures { IfOk result (λ variables. variables.items ≡ names substitution.now) }
{
    let mut variables = Vec::new(alloc);
    for pair in substitution.as_slice() {
        push_names(&mut variables, *pair)?;
    }
    Ok(variables)
}

/// The variables that a substitution names, each once, in rising order.
pub(crate) fn variables_of(
    alloc: Global,
    substitution: &Substitution,
) -> Result<Vec<u32>, AllocError>
    ensures rising { IfOk result (λ variables. IsStrictlyIncreasing variables.items) }
    ensures among { IfOk result (λ variables. AreAmong variables.items substitution.now) }
{
    let mut variables = names(alloc, substitution)?;
    variables.sort()?;
    variables.dedup();
    Ok(variables)
}

/// Puts the term of a variable, if there is one, at the end of a part.
fn push_term(part: &mut NormalBuilder, constraint: &Normal, variable: u32) -> Result<(), AllocError>
    requires { variable_bound part.old ≤ variable }
    ensures coefficients { OnOk result ((v : ℕ) (s : Bool)
        → sum_over (only v s) part.new ≡ sum_over (only v s) part.old + (if v == variable then coefficient constraint.now v s else 0)) }
    ensures bound { OnOk result (variable_bound part.new ≤ variable + 1) }
{
    if let Some(term) = term_of(constraint, variable) {
        part.push(term)?;
    }
    Ok(())
}

/// The terms of a constraint of some variables.
fn terms_of(
    alloc: Global,
    constraint: &Normal,
    variables: &[u32],
) -> Result<NormalBuilder, AllocError>
    requires { IsStrictlyIncreasing variables.now }
    ensures { IfOk result (λ part. (v : ℕ) (s : Bool)
        → sum_over (only v s) part ≡ (if is_among variables.now v then coefficient constraint.now v s else 0)) }
{
    let mut part = NormalBuilder::new(alloc);
    for variable in variables {
        push_term(&mut part, constraint, *variable)?;
    }
    Ok(part)
}

/// The part of a constraint of some variables: it is no larger, so it fits. It takes the time of a look-up for each variable.
pub(crate) fn part_of(
    alloc: Global,
    constraint: &Normal,
    variables: &[u32],
) -> Result<Normal, AllocError>
    requires { IsStrictlyIncreasing variables.now }
    ensures part { IfOk result (IsPart constraint.now variables.now) }
    ensures normal { IsNormal constraint.now }
{
    let degree = constraint.degree();
    let terms = terms_of(alloc, constraint, variables)?;
    Ok(terms.finish_fitting(degree))
}
