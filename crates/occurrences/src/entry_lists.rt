//! The entries of one constraint in a table of occurrences: put in at the end of each literal's list, or not at all,
//! and taken off again.
//!
//! Constraints come and go at the end alone, as a stack, so the entries of the last one are the last of their lists,
//! and taking it off looks at nothing else. Where memory ends midway, the entries so far are taken off by the same
//! way.

ghost use Rattle.std.specs.Prelude.{◌≡◌, ◌*◌, ◌<◌, ◌≤◌, ◌++◌, ◌∷◌, ℕ, List, [], OnOk, OnErr, length, slice_index_or, take};
ghost use Rattle.linear.specs.declared.term.Lit.{Lit};
ghost use Rattle.normal_form.specs.Normal.{IsNormal, variable_bound};
ghost use Rattle.occurrences.specs.declared.occurrence.Occurrence.{Occurrence};
ghost use Rattle.occurrences.specs.Occurrences.{HasMore, entries_of};

use super::entry_table::EntryTable;
use super::occurrence::Occurrence;
use normal_form::Normal;
use std::alloc::AllocError;

/// Puts in the entries of the first terms, as many as memory is there for.
fn enter_some(table: &mut EntryTable, place: usize, constraint: &Normal) -> usize
    requires { 2 * variable_bound constraint.now.terms ≤ length table.old }
    ensures length { length table.new ≡ length table.old }
    ensures count { result ≤ length constraint.now.terms }
    ensures more { HasMore (entries_of table.old) table.new place (take result constraint.now.terms) }
{
    let count = constraint.len();
    for index in 0..count {
        let term = constraint.term(index);
        let entry = Occurrence {
            place,
            coef: term.coef,
        };
        match table.push(term.literal().code(), entry) {
            Err(_) => return index,
            Ok(()) => {}
        }
    }
    count
}

/// Puts in the entries of a constraint at a place, or none.
pub fn enter(table: &mut EntryTable, place: usize, constraint: &Normal) -> Result<(), AllocError>
    requires { 2 * variable_bound constraint.now.terms ≤ length table.old }
    ensures length { length table.new ≡ length table.old }
    ensures ok { OnOk result (HasMore (entries_of table.old) table.new place constraint.now.terms) }
    ensures err { OnErr result (HasMore (entries_of table.old) table.new place []) }
{
    let count = enter_some(table, place, constraint);
    if count < constraint.len() {
        leave(table, constraint, count);
        return Err(AllocError);
    }
    Ok(())
}

/// Takes off the entries of a constraint's first terms, which are the last of their lists.
pub fn leave(table: &mut EntryTable, constraint: &Normal, count: usize)
    requires table { 2 * variable_bound constraint.now.terms ≤ length table.old }
    requires count { count ≤ length constraint.now.terms }
    requires normal { IsNormal constraint.now }
    ensures length { length table.new ≡ length table.old }
    ensures fewer { (before : Lit → List Occurrence) (place : ℕ)
        → HasMore before table.old place (take count constraint.now.terms)
        → HasMore before table.new place [] }
{
    for index in 0..count {
        table.pop(constraint.term(index).literal().code());
    }
}
