//! What a substitution puts in place of a variable.

ghost use Rattle.std.specs.Prelude.{◌≡◌};

use linear::Lit;

/// A literal, or a truth value.
#[derive(Clone, Copy, Debug, PartialEq, Eq)]
pub enum Image {
    Lit(Lit),
    Zero,
    One,
}

impl Image {
    ghost use Rattle.substitution.specs.Images.{opposite_image};

    /// What is worth 1 less this.
    pub fn opposite(self) -> Image
        ensures { result ≡ opposite_image self }
    {
        match self {
            Image::Lit(lit) => Image::Lit(lit.opposite()),
            Image::Zero => Image::One,
            Image::One => Image::Zero,
        }
    }
}
