//! What a constraint becomes under a substitution, where it does not show that itself.
//!
//! A step of redundance-based strengthening asks this of each constraint that its witness touches. Most of them cover what they
//! become: a literal is fixed to the value that is good for them, or two variables change places that count alike there. That is
//! told by the terms of the substitution's variables alone, and so is that nothing is asked any more. So a step that names few
//! variables costs little beside a constraint of many.

ghost use Rattle.std.specs.Prelude.{◌↔◌, IfOk, IsTrue};
ghost use Rattle.substitution.specs.Beyond.{BecomesBeyond, Shows, ShowsImage};

use super::application::apply;
use super::covering::covers;
use super::part::{part_of, variables_of};
use super::substitution::Substitution;
use normal_form::Normal;
use std::alloc::{AllocError, Global};

/// A constraint of at least so many terms for each image of a substitution is not looked at as a whole before its part is: of a
/// shorter one the part is not made sooner than the whole.
const TERMS_FOR_EACH_IMAGE: usize = 16;

/// Whether a constraint shows another without more ado: it covers that, or nothing is asked.
fn shows(constraint: &Normal, other: &Normal) -> bool
    ensures { IsTrue result ↔ Shows constraint.now other.now }
{
    other.degree() == 0 || covers(constraint, other)
}

/// Whether a constraint shows what it becomes, by its terms of the variables that the substitution names.
fn shows_by_part(
    alloc: Global,
    constraint: &Normal,
    substitution: &Substitution,
) -> Result<bool, AllocError>
    ensures { IfOk result (λ yes. IsTrue yes ↔ ShowsImage constraint.now substitution.now) }
{
    let variables = variables_of(alloc, substitution)?;
    let part = part_of(alloc, constraint, variables.as_slice())?;
    let image = apply(alloc, &part, substitution)?;
    Ok(shows(&part, &image))
}

/// Whether a constraint is long beside a substitution, and shows what it becomes. Of a short one that is not asked.
fn shows_at_once(
    alloc: Global,
    constraint: &Normal,
    substitution: &Substitution,
) -> Result<bool, AllocError>
    ensures { IfOk result (λ yes. IsTrue yes → ShowsImage constraint.now substitution.now) }
{
    let images = substitution.as_slice().len();
    if constraint.len() / TERMS_FOR_EACH_IMAGE < images {
        return Ok(false);
    }
    shows_by_part(alloc, constraint, substitution)
}

/// What a constraint becomes under a substitution, or none exactly where it shows that itself: it covers it, or nothing is asked of
/// it. That it does is told by its terms of the variables that the substitution names, where those are few beside all.
pub fn becomes_beyond(
    alloc: Global,
    constraint: &Normal,
    substitution: &Substitution,
) -> Result<Option<Normal>, AllocError>
    ensures { IfOk result (BecomesBeyond constraint.now substitution.now) }
{
    if shows_at_once(alloc, constraint, substitution)? {
        return Ok(None);
    }
    let image = apply(alloc, constraint, substitution)?;
    if shows(constraint, &image) {
        return Ok(None);
    }
    Ok(Some(image))
}
