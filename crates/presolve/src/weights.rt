//! What tells most variables apart that may not change places, without a look at a constraint.
//!
//! Where two variables may change places, each constraint that has the one becomes one of the file that has the other, with
//! the same coefficient, sign and degree. So the greatest number that is made of these is the same for both; where it is not,
//! no constraint has to be taken apart, however wide it is.

ghost use Rattle.std.specs.Prelude.{◌≡◌, ◌<◌, ℕ, max, IfOk, length, slice_index_or, if◌then◌else◌, ◌==◌};
ghost use Rattle.presolve.specs.Weights.{greatest, greatest_of, weight};

use super::form::Form;
use linear::Var;
use normal_form::NormalTerm;
use std::alloc::{AllocError, Global};

/// Coefficients and degrees are told apart below this number.
const CUT_OFF: u128 = 2_147_483_648;

/// A coefficient with its sign, above a degree.
fn weight(term: NormalTerm, degree: u128) -> u64
    ensures { result ≡ weight term.coef term.negated degree }
{
    let coef = (term.coef % CUT_OFF) as u64;
    let sign = if term.negated { 1 } else { 0 };
    (2 * coef + sign) * CUT_OFF as u64 + (degree % CUT_OFF) as u64
}

/// Raises the number of a variable to another one, where the table has it.
fn raise(table: &mut [u64], variable: Var, number: u64)
    ensures { (v : ℕ) → v < length table.old
        → slice_index_or table.new v 0 ≡ max (slice_index_or table.old v 0) (if variable.0 == v then number else 0) }
{
    let place = variable.0 as usize;
    if place < table.len() {
        table[place] = table[place].max(number);
    }
}

/// Raises the numbers of the variables of a constraint.
fn weigh(table: &mut [u64], form: &Form)
    ensures { (v : ℕ) → v < length table.old
        → slice_index_or table.new v 0 ≡ max (slice_index_or table.old v 0) (greatest_of form.now.degree form.now.terms.items v) }
{
    for term in form.terms.as_slice() {
        raise(table, term.var, weight(*term, form.degree));
    }
}

/// The greatest weight of each of so many variables.
pub(crate) fn weights_of(alloc: Global, keys: &[Form], count: usize) -> Result<Vec<u64>, AllocError>
    ensures count { IfOk result (λ table. length table.items ≡ count) }
    ensures weights { IfOk result (λ table. (v : ℕ) → v < count → slice_index_or table.items v 0 ≡ greatest keys.now v) }
{
    let mut table = vec![in alloc; 0; count]?;
    for key in keys {
        weigh(table.as_mut_slice(), key);
    }
    Ok(table)
}
