//! Whether an assignment has no literal beside its opposite, which is judged before anything follows from it. Of the variables of
//! the file the table of their values tells, since every literal has to agree with it. Of those that only the proof has, which
//! may have any number, those that are listed are kept in sets.

ghost use Rattle.std.specs.Prelude.{◌≡◌, ◌↔◌, ◌≤◌, ◌∷◌, ◌++◌, [], ℕ, List, IfOk, IsTrue, OnOk, length, true};
ghost use Rattle.linear.specs.Literal.{opposite};
ghost use Rattle.linear.specs.declared.term.Lit.{Lit};
ghost use Rattle.propagate.specs.Literals.{IsConsistent, lists};
ghost use Rattle.solutions.specs.Table.{Agrees, AreSidesOf, IsTableOf};

use linear::Lit;
use propagate::Ids;
use std::alloc::{AllocError, Global};

/// The variables beyond a table that an assignment has, by the sign of their literals.
#[derive(Drop)]
struct Beyond {
    plain: Ids,
    negated: Ids,
}

impl Beyond {
    /// Notes a literal, and says whether its opposite has not been noted.
    fn note(&mut self, literal: Lit) -> Result<bool, AllocError>
        ensures sides { (before : List Lit) (from : ℕ) → AreSidesOf before from self.old.plain self.old.negated
            → OnOk result (AreSidesOf (before ++ literal ∷ []) from self.new.plain self.new.negated) }
        ensures apart { (before : List Lit) (from : ℕ) → from ≤ literal.var.0 → AreSidesOf before from self.old.plain self.old.negated
            → IfOk result (λ apart. IsTrue apart ↔ (lists before (opposite literal) ≡ true → ⊥)) }
    {
        let variable = literal.var.0;
        if literal.negated {
            self.negated.insert(variable)?;
            Ok(!self.plain.contains(variable))
        } else {
            self.plain.insert(variable)?;
            Ok(!self.negated.contains(variable))
        }
    }
}

/// Whether a literal agrees with the table, or stands beyond it without its opposite among those before.
fn agrees(table: &[Option<bool>], beyond: &mut Beyond, literal: Lit) -> Result<bool, AllocError>
    ensures sides { (before : List Lit) → AreSidesOf before (length table.now) beyond.old.plain beyond.old.negated
        → OnOk result (AreSidesOf (before ++ literal ∷ []) (length table.now) beyond.new.plain beyond.new.negated) }
    ensures agrees { (before : List Lit) → AreSidesOf before (length table.now) beyond.old.plain beyond.old.negated
        → IfOk result (λ yes. IsTrue yes ↔ Agrees table.now before (literal.var.0) literal.negated) }
{
    let place = literal.var.0 as usize;
    if place < table.len() {
        return Ok(table[place] == Some(!literal.negated));
    }
    beyond.note(literal)
}

/// Whether an assignment has no literal beside its opposite, told by the table of the values that it gives.
pub fn is_consistent(
    alloc: Global,
    table: &[Option<bool>],
    assigned: &[Lit],
) -> Result<bool, AllocError>
    requires { IsTableOf assigned.now table.now }
    ensures { IfOk result (λ yes. IsTrue yes ↔ IsConsistent assigned.now) }
{
    let mut beyond = Beyond {
        plain: Ids::empty(alloc),
        negated: Ids::empty(alloc),
    };
    for literal in assigned {
        if !agrees(table, &mut beyond, *literal)? {
            return Ok(false);
        }
    }
    Ok(true)
}
