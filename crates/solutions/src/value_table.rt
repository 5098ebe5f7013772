//! The values that an assignment of literals gives the variables of a file, looked up by variable, so that a long assignment costs
//! one walk.

ghost use Rattle.std.specs.Prelude.{◌≡◌, ◌∷◌, ◌++◌, [], IfOk, List, MatchOption, Some, length, map};
ghost use Rattle.linear.specs.declared.term.Lit.{Lit};
ghost use Rattle.solutions.specs.Table.{IsTableOf, GivesAll, HasGap, LeavesOut};

use linear::{Assignment, Lit};
use std::alloc::{AllocError, Global};

/// The values that a consistent assignment gives the first `count` variables; `None` where it leaves one of them out.
pub fn values(
    alloc: Global,
    count: usize,
    assigned: &[Lit],
) -> Result<Option<Assignment>, AllocError>
    ensures { IfOk result (λ found. MatchOption found (LeavesOut count assigned.now) (GivesAll count assigned.now)) }
{
    let table = table_of(alloc, count, assigned)?;
    all_values(alloc, table.as_slice())
}

/// The table of the values that an assignment gives the first `count` variables. A variable that has both literals has the value of
/// one of them.
pub fn table_of(
    alloc: Global,
    count: usize,
    assigned: &[Lit],
) -> Result<Vec<Option<bool>>, AllocError>
    ensures length { IfOk result (λ table. length table.items ≡ count) }
    ensures table { IfOk result (λ table. IsTableOf assigned.now table.items) }
{
    let mut table = vec![in alloc; None; count]?;
    for literal in assigned {
        note(&mut table, *literal);
    }
    Ok(table)
}

/// Notes the value of a literal's variable, if the table has room for it.
fn note(table: &mut Vec<Option<bool>>, literal: Lit)
    ensures length { length table.new.items ≡ length table.old.items }
    ensures noted { (before : List Lit) → IsTableOf before table.old.items → IsTableOf (before ++ literal ∷ []) table.new.items }
{
    let place = literal.var.0 as usize;
    if place < table.len() {
        table[place] = Some(!literal.negated);
    }
}

/// The values of a table, if none is missing.
pub fn all_values(alloc: Global, table: &[Option<bool>]) -> Result<Option<Assignment>, AllocError>
    ensures { IfOk result (λ found. MatchOption found (HasGap table.now) (λ g. map Some g ≡ table.now)) }
{
    let mut values = Vec::with_capacity(alloc, table.len())?;
    for value in table {
        let Some(value) = value else {
            return Ok(None);
        };
        values.push(*value)?;
    }
    Ok(Some(Assignment::from_vec(values)))
}
