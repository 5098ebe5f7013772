//! Assignments after a substitution. All images are read at the assignment as it was: a substitution that swaps two
//! variables must not read the first one's new value for the second.

ghost use Rattle.std.specs.Prelude.{◌≡◌, ℕ, IfOk, length};
ghost use Rattle.linear.specs.Valuation.{valuation_of};
ghost use Rattle.substitution.specs.Images.{AreBelow, IsImageBelow, NamesOnce, after, image_true};

use super::image::Image;
use super::substitution::Substitution;
use linear::{Assignment, Var};
use std::alloc::{AllocError, Global};

/// Whether an image is worth 1 at an assignment.
fn is_true(assignment: &Assignment, image: Image) -> bool
    requires { IsImageBelow (length assignment.now) image }
    ensures { result ≡ image_true (valuation_of assignment.now) image }
{
    match image {
        Image::Lit(lit) => assignment.is_true(lit),
        Image::Zero => false,
        Image::One => true,
    }
}

/// The values with those of some images written over them, all read at the same assignment.
fn with_images(
    alloc: Global,
    assignment: &Assignment,
    images: &[(Var, Image)],
) -> Result<Vec<bool>, AllocError>
    requires once { NamesOnce images.now }
    requires below { AreBelow (length assignment.now) images.now }
    ensures length { IfOk result (λ v. length v.items ≡ length assignment.now) }
    ensures values { IfOk result (λ b. (v : ℕ) → valuation_of b.items v ≡ after (valuation_of assignment.now) images.now v) }
{
    let mut values = Vec::from_slice(alloc, assignment.as_slice())?;
    for pair in images {
        values[pair.0.0 as usize] = is_true(assignment, pair.1);
    }
    Ok(values)
}

/// The assignment after a substitution: each variable is true where its image is worth 1 at the assignment, which
/// has a value for each variable that has an image and for each that stands in one.
pub fn compose(
    alloc: Global,
    assignment: &Assignment,
    substitution: &Substitution,
) -> Result<Assignment, AllocError>
    requires { AreBelow (length assignment.now) substitution.now }
    ensures length { IfOk result (λ b. length b ≡ length assignment.now) }
    ensures values { IfOk result (λ b. (v : ℕ) → valuation_of b v ≡ after (valuation_of assignment.now) substitution.now v) }
{
    Ok(Assignment::from_vec(with_images(alloc, assignment, substitution.as_slice())?))
}
