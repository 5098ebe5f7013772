//! The literals that stand, looked up by their numbers.
//!
//! Whether a literal is false is asked for each term of a sum, so it is looked up. That the table has just the literals that were given is a
//! fact of the type.

ghost use Rattle.std.specs.Prelude.{◌≡◌, true, slice_set};
ghost use Rattle.linear.specs.Literal.{code};

use linear::{Lit, Var};
use propagate::literal_count;
use std::alloc::{AllocError, Global};
use std::marker::Model;

/// Literals, and a table by their numbers.
#[derive(Debug, Drop)]
pub(crate) struct Standing<'a> {
    literals: &'a [Lit],
    stands: Vec<bool>,
}

impl<'a> Model for Standing<'a> {
    ghost use Rattle.std.specs.Prelude.{List};
    ghost use Rattle.linear.specs.declared.term.Lit.{Lit};
    ghost use Rattle.bounding.specs.Standing.{AreJust};

    ghost Value = { List Lit };

    ghost view = { λ s. s.literals.now };

    ghost invariant = { λ s. AreJust s.literals.now s.stands.items };
}

/// Notes that a literal stands, where the table has its number.
fn note(stands: &mut Vec<bool>, literal: Lit)
    ensures { stands.new.items ≡ slice_set stands.old.items (code literal) true }
{
    let place = literal.code();
    if place < stands.len() {
        stands[place] = true;
    }
}

impl<'a> Standing<'a> {
    ghost use Rattle.std.specs.Prelude.{◌≡◌, IfOk};
    ghost use Rattle.propagate.specs.Literals.{lists};

    /// The table of some literals.
    pub(crate) fn of(alloc: Global, literals: &'a [Lit]) -> Result<Self, AllocError>
        ensures { IfOk result (λ s. s ≡ literals.entry.now) }
    {
        let count = literal_count(literals);
        let mut stands = vec![in alloc; false; count * 2]?;
        for literal in literals {
            note(&mut stands, *literal);
        }
        Ok(Standing { literals, stands })
    }

    /// Whether a literal stands.
    pub(crate) fn has(&self, literal: Lit) -> bool
        ensures { result ≡ lists self.now literal }
    {
        let place = literal.code();
        if place < self.stands.len() {
            self.stands[place]
        } else {
            false
        }
    }

    /// Whether neither literal of a variable stands.
    pub(crate) fn leaves_free(&self, variable: Var) -> bool {
        let literal = Lit {
            var: variable,
            negated: false,
        };
        !self.has(literal) && !self.has(literal.opposite())
    }
}
