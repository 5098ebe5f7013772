//! A list of variables and their images: the witness of a redundance step in the VeriPB format.
//!
//! The list is kept in the order in which it was written, since it is written again in that order. A witness may name thousands of
//! variables and is asked for each literal of each constraint, so beside a long one stands a table by variable; most name one or two,
//! and are passed over sooner than a table is made. That both say the same is a fact of the type.

ghost use Rattle.std.specs.Prelude.{◌≡◌, ◌≤◌, ◌↔◌, None, IfOk, IfSome, IsTrue, false, length, map, nat_eq, unwrap_or};
ghost use Rattle.std.specs.HashMap.{IsFromIterResult};
ghost use Rattle.substitution.specs.Images.{NamesOnce, image_of, itself};
ghost use Rattle.substitution.specs.Tables.{StandsNotBefore};

use super::image::Image;
use linear::{Lit, Var};
use std::alloc::{AllocError, Global};
use std::collections::HashMap;
use std::marker::Model;

/// So many images are passed over, and more are looked up in a table.
const FEW: usize = 8;

/// Images of some variables, in the order given; no variable stands twice. The other variables stay.
#[derive(Debug, Drop)]
pub struct Substitution {
    images: Vec<(Var, Image)>,
    /// The images by variable, where there are many. It stands apart, so that a step is short that has none.
    by_variable: Option<Box<HashMap<u32, Image>>>,
}

impl Model for Substitution {
    ghost use Rattle.std.specs.Prelude.{List};
    ghost use Rattle.linear.specs.declared.term.Var.{Var};
    ghost use Rattle.substitution.specs.declared.image.Image.{Image};
    ghost use Rattle.substitution.specs.Images.{NamesOnce};
    ghost use Rattle.substitution.specs.Tables.{IsTableIfSome};

    ghost Value = { List (Var × Image) };

    ghost view = { λ s. s.images.items };

    ghost invariant = { λ s. NamesOnce s.images.items × IsTableIfSome s.images.items s.by_variable };
}

/// The images under the numbers of their variables.
fn numbered(alloc: Global, images: &[(Var, Image)]) -> Result<HashMap<u32, Image>, AllocError>
    ensures { IfOk result (IsFromIterResult nat_eq (map (λ p. (p.0.0, p.1)) images.now)) }
{
    images
        .iter()
        .map(|(var, image)| (var.0, *image))
        .collect(alloc)
}

/// The variable itself, as an image.
fn itself(var: Var) -> Image
    ensures { result ≡ itself (var.0) }
{
    Image::Lit(Lit {
        var,
        negated: false,
    })
}

/// The image that a list gives a variable, if it gives one.
fn listed(images: &[(Var, Image)], var: Var) -> Option<Image>
    ensures { unwrap_or result (itself (var.0)) ≡ image_of images.now (var.0) }
{
    let mut rest = images;
    while let [first, more @ ..] = rest {
        if first.0 == var {
            return Some(first.1);
        }
        rest = more;
    }
    None
}

/// Whether a variable stands among the first so many.
fn stands_before(images: &[(Var, Image)], end: usize, var: Var) -> bool
    requires { end ≤ length images.now }
    ensures once { result ≡ false → StandsNotBefore images.now end (var.0) }
    ensures twice { IsTrue result → StandsNotBefore images.now end (var.0) → ⊥ }
{
    for place in 0..end {
        if images[place].0 == var {
            return true;
        }
    }
    false
}

/// Whether no variable stands twice. It compares each two of them.
fn stand_once(images: &[(Var, Image)]) -> bool
    ensures { IsTrue result ↔ NamesOnce images.now }
{
    for place in 0..images.len() {
        if stands_before(images, place, images[place].0) {
            return false;
        }
    }
    true
}

impl Substitution {
    ghost use Rattle.substitution.specs.Images.{NamesOnce, image_of, image_of_literal};

    /// The substitution of these images, or `None` where a variable stands twice.
    pub fn new(alloc: Global, images: Vec<(Var, Image)>) -> Result<Option<Self>, AllocError>
        ensures some { IfOk result (λ made. IfSome made (λ s. s ≡ images.items)) }
        ensures none { IfOk result (λ made. made ≡ None → NamesOnce images.items → ⊥) }
    {
        if images.len() <= FEW {
            return Ok(if stand_once(images.as_slice()) {
                Some(Substitution {
                    images,
                    by_variable: None,
                })
            } else {
                None
            });
        }
        let by_variable = numbered(alloc, images.as_slice())?;
        if by_variable.len() < images.len() {
            return Ok(None);
        }
        Ok(Some(Substitution {
            images,
            by_variable: Some(Box::new(alloc, by_variable)?),
        }))
    }

    /// The image of a variable: the variable itself where none is given. It takes the time of one look-up.
    pub fn image_of(&self, var: Var) -> Image
        ensures { result ≡ image_of self.now (var.0) }
    {
        let found = match &self.by_variable {
            Some(by_variable) => by_variable.get(&var.0).copied(),
            None => listed(self.images.as_slice(), var),
        };
        match found {
            Some(image) => image,
            None => itself(var),
        }
    }

    /// The image of a literal: of `~x` it is the opposite of the image of `x`.
    pub fn image_of_literal(&self, literal: Lit) -> Image
        ensures { result ≡ image_of_literal self.now (literal.var.0) literal.negated }
    {
        let image = self.image_of(literal.var);
        if literal.negated {
            image.opposite()
        } else {
            image
        }
    }

    /// What holds of every substitution, for a proof that needs it where nothing else of the substitution is asked.
    pub fn reveal(&self)
        ensures { NamesOnce self.now }
    {
        let _ = &self.images;
    }

    /// The variables and their images, in the order given.
    pub fn as_slice(&self) -> &[(Var, Image)]
        ensures images { result.now ≡ self.now }
        ensures once { NamesOnce self.now }
    {
        self.images.as_slice()
    }
}
