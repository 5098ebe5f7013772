//! The literals of a clause, in the order in which they are kept: the two that watch it first.
//!
//! What watches a clause and what may watch it next stand side by side then, and a look at a clause reads nothing else of it (Eén and Sörensson:
//! An extensible SAT-solver, 2003).

ghost use Rattle.std.specs.Prelude.{◌≡◌, ◌++◌, ◌∷◌, ◌⊎◌, [], List, OnOk, Some};
ghost use Rattle.linear.specs.declared.term.Lit.{Lit};
ghost use Rattle.ledger.specs.Falls.{IsOneOf};
ghost use Rattle.ledger.specs.Watched.{AreLiteralsOf, IsPairOf, pair_of};

use super::pair::Pair;
use linear::Lit;
use normal_form::Normal;
use std::alloc::AllocError;

/// Puts a literal at the end of a list, unless it is one of two.
fn push_other(literals: &mut Vec<Lit>, literal: Lit, pair: Pair) -> Result<(), AllocError>
    ensures more { (ls : List Lit) × (literals.new.items ≡ literals.old.items ++ ls) }
    ensures ok { OnOk result (((literals.new.items ≡ literals.old.items) × IsOneOf pair literal)
        ⊎ (literals.new.items ≡ literals.old.items ++ literal ∷ [])) }
{
    if pair.first == literal {
        return Ok(());
    }
    if pair.second == literal {
        return Ok(());
    }
    literals.push(literal)?;
    Ok(())
}

/// Puts the literals of a clause at the end of a list, two of them before the others; where memory ends, some of them.
pub(crate) fn append_literals(
    literals: &mut Vec<Lit>,
    clause: &Normal,
    pair: Pair,
) -> Result<(), AllocError>
    requires { IsPairOf clause.now pair }
    ensures more { (ls : List Lit) × (literals.new.items ≡ literals.old.items ++ ls) }
    ensures ok { OnOk result ((ls : List Lit) × (literals.new.items ≡ literals.old.items ++ ls) × (pair_of ls ≡ Some pair) × AreLiteralsOf clause.now ls) }
{
    literals.push(pair.first)?;
    literals.push(pair.second)?;
    for index in 0..clause.len() {
        push_other(literals, clause.term(index).literal(), pair)?;
    }
    Ok(())
}
