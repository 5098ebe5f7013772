//! Literals that may be made true at once.
//!
//! Where the opposite of a literal stands in no normal constraint of the file, whatever satisfies the file still does once
//! the literal is true. Where its truth does not raise the objective either, nothing is lost by making it true.

ghost use Rattle.std.specs.Prelude.{◌≡◌, ◌↔◌, ◌<◌, ◌≤◌, ◌++◌, ℕ, Bool, not, false, length, option_to_list, IfOk, OnOk};
ghost use Rattle.linear.specs.Largest.{most_variables};
ghost use Rattle.presolve.specs.Fixing.{AreFixed, CostsNothing};
ghost use Rattle.presolve.specs.Standing.{StandsNowhere};
ghost use Rattle.presolve.specs.Uses.{AreTakenBelow, IsTakenOf, stands};

use super::uses::{Uses, note_file, note_objective};
use linear::{Lit, Problem, Var};
use std::alloc::{AllocError, Global};

/// The literals that must not be false: those that stand in the file, and those whose falsehood would raise the objective.
fn wanted(alloc: Global, problem: &Problem) -> Result<Vec<Uses>, AllocError>
    ensures count { IfOk result (λ table. length table.items ≡ length problem.now.names) }
    ensures few { length problem.now.names ≤ most_variables }
    ensures wanted { IfOk result (λ table. (v : ℕ) (s : Bool) → v < length problem.now.names → (stands table.items v s ≡ false) ↔ (StandsNowhere problem.now.constraints v s × CostsNothing problem.now.objective v (not s))) }
{
    let mut table = vec![in alloc; Uses::NONE; problem.names().len()]?;
    note_file(alloc, table.as_mut_slice(), problem)?;
    if let Some(objective) = problem.objective() {
        note_objective(alloc, table.as_mut_slice(), objective.as_slice())?;
    }
    Ok(table)
}

/// The literal of a variable whose opposite is not wanted, the one without `~` first.
fn taken(var: Var, wanted: Uses) -> Option<Lit>
    ensures { (l : Lit) → (result ≡ Some l) ↔ ((l.var ≡ var) × IsTakenOf wanted l) }
{
    if !wanted.negated {
        return Some(Lit {
            var,
            negated: false,
        });
    }
    if !wanted.plain {
        return Some(Lit { var, negated: true });
    }
    None
}

/// Adds a literal, if there is one.
fn add(literals: &mut Vec<Lit>, found: Option<Lit>) -> Result<(), AllocError>
    ensures { OnOk result (literals.new.items ≡ literals.old.items ++ option_to_list found) }
{
    if let Some(literal) = found {
        literals.push(literal)?;
    }
    Ok(())
}

/// The literals of the first variables whose opposites are not wanted.
fn all_taken(alloc: Global, wanted: &[Uses], count: u32) -> Result<Vec<Lit>, AllocError>
    requires { count ≤ length wanted.now }
    ensures { IfOk result (λ ls. AreTakenBelow wanted.now count ls.items) }
{
    let mut literals = Vec::new(alloc);
    for number in 0..count {
        let found = taken(Var(number), wanted[number as usize]);
        add(&mut literals, found)?;
    }
    Ok(literals)
}

/// The literals that may be made true before any search, by rising variable: the opposite stands in no normal constraint of
/// the file, and the truth does not raise the objective. Of a variable whose literals both may be, the one without `~`. Want
/// of memory is the only fault.
pub fn fixable(alloc: Global, problem: &Problem) -> Result<Vec<Lit>, AllocError>
    ensures { IfOk result (λ ls. AreFixed problem.now ls.items) }
{
    let wanted = wanted(alloc, problem)?;
    let count = problem.names().len() as u32;
    Ok(all_taken(alloc, wanted.as_slice(), count)?)
}
