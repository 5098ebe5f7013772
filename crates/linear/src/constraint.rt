//! Constraints on signed sums.

ghost use Rattle.std.specs.Prelude.{◌≡◌, [], pos};

use super::seq::Seq;
use super::term::{Integer, Term};
use std::alloc::Global;

/// How a sum stands to its right side.
#[derive(Clone, Copy, Debug, PartialEq, Eq)]
pub enum Relation {
    AtLeast,
    Equal,
}

/// A constraint as it is written: `terms >= right`, or `terms = right`. A variable may stand in several terms.
#[derive(Clone, Debug, Drop)]
pub struct Signed {
    pub terms: Seq<Term>,
    pub relation: Relation,
    pub right: Integer,
}

impl Signed {
    /// `0 >= 0`, to be copied over.
    pub fn new(alloc: Global) -> Self
        ensures { result ≡ record { terms = []; relation = Relation.AtLeast; right = pos 0 } }
    {
        Signed {
            terms: Seq::short_lived(Vec::new(alloc)),
            relation: Relation::AtLeast,
            right: 0,
        }
    }
}
