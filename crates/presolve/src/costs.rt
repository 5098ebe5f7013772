//! What each variable costs in an objective: two variables may change places only where they cost the same.

ghost use Rattle.std.specs.Prelude.{◌≡◌, ◌==◌, ◌+◌, ◌<◌, ◌≤◌, ℕ, pos, ◌+ℤ◌, IfOk, length, slice_index_or, unsigned_abs, if◌then◌else◌};
ghost use Rattle.normal_form.specs.Normal.{largest_sum};
ghost use Rattle.normal_form.specs.NormalOf.{net, size_sum, slope};
ghost use Rattle.presolve.specs.Pairs.{AreCostsOf};

use linear::{Problem, Term};
use std::alloc::{AllocError, Global};

/// A net coefficient with one more term of its variable.
fn with_term(net: i128, term: Term) -> i128
    requires { unsigned_abs net + unsigned_abs term.coef ≤ largest_sum }
    ensures { result ≡ net +ℤ slope term }
{
    if term.negated {
        net - term.coef
    } else {
        net + term.coef
    }
}

/// Adds a term to the net coefficient of its variable, where the table has it.
fn note_term(nets: &mut [i128], term: Term)
    requires { term.var.0 < length nets.old → unsigned_abs (slice_index_or nets.old (term.var.0) (pos 0)) + unsigned_abs term.coef ≤ largest_sum }
    ensures { (v : ℕ) → v < length nets.old → slice_index_or nets.new v (pos 0) ≡ slice_index_or nets.old v (pos 0) +ℤ (if term.var.0 == v then slope term else pos 0) }
{
    let number = term.var.0 as usize;
    if number < nets.len() {
        nets[number] = with_term(nets[number], term);
    }
}

/// The net coefficients of so many variables.
fn nets_of(alloc: Global, objective: &[Term], count: usize) -> Result<Vec<i128>, AllocError>
    requires { size_sum objective.now ≤ largest_sum }
    ensures count { IfOk result (λ nets. length nets.items ≡ count) }
    ensures nets { IfOk result (λ nets. (v : ℕ) → v < count → slice_index_or nets.items v (pos 0) ≡ net objective.now v) }
{
    let mut nets = vec![in alloc; 0; count]?;
    for term in objective {
        note_term(nets.as_mut_slice(), *term);
    }
    Ok(nets)
}

/// A number for each variable of a problem, the same for two of them just where they cost the same: the net coefficient in the
/// objective, if there is one.
pub(crate) fn costs_of(alloc: Global, problem: &Problem) -> Result<Vec<i128>, AllocError>
    ensures count { IfOk result (λ costs. length costs.items ≡ length problem.now.names) }
    ensures costs { IfOk result (λ costs. AreCostsOf problem.now costs.items) }
{
    let count = problem.names().len();
    match problem.objective() {
        None => vec![in alloc; 0; count],
        Some(objective) => nets_of(alloc, objective.as_slice(), count),
    }
}
