//! Assignments: one that grows, and room for the variables of one.

ghost use Rattle.std.specs.Prelude.{◌≡◌, ◌<◌, ◌≤◌, [], ◌∷◌, ◌++◌, All, IfOk};
ghost use Rattle.linear.specs.Largest.{most_names};
ghost use Rattle.propagate.specs.Literals.{literal_bound};

use linear::Lit;
use std::alloc::{AllocError, Global};

/// An assignment, and one literal more behind it.
pub fn with_last(alloc: Global, before: &[Lit], last: Lit) -> Result<Vec<Lit>, AllocError>
    ensures { IfOk result (λ v. v.items ≡ before.now ++ last ∷ []) }
{
    let mut assigned = before.to_vec(alloc)?;
    assigned.push(last)?;
    Ok(assigned)
}

/// The least number above all variables of some literals.
pub fn literal_count(literals: &[Lit]) -> usize
    ensures value { result ≡ literal_bound literals.now }
    ensures each { All (λ l. l.var.0 < result) literals.now }
    ensures limit { result ≤ most_names }
{
    let mut count: usize = 0;
    for literal in literals {
        count = count.max(literal.var.0 as usize + 1);
    }
    count
}
