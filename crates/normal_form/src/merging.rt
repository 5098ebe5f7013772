//! Merging signed terms: the terms of each variable become one with their net coefficient, or none where that is 0.
//!
//! A constraint of the OPB format (Roussel and Manquinho) may name a variable many times, in any order and with any
//! sign, and the rules of cutting planes work on constraints that name it once. The terms are sorted by variable, and
//! each run of one variable is added up in one pass: sorted terms are what every later rule needs too, so that two
//! constraints merge in one pass. Coefficients stay signed until the end of a run, since what cancels must be gone
//! before the sign of the rest decides between a literal and its opposite. That the sizes together are within the
//! limit is asked before anything is added, so no sum on the way can leave its type.

ghost use Rattle.std.specs.Prelude.{◌≡◌, ℕ, Bool, ◌+◌, ◌<◌, ◌≤◌, ◌≢◌, pos, ◌+ℤ◌, ◌↔◌, unsigned_abs, IsTrue, IfOk, OnOk, length, take, slice_index_or, if◌then◌else◌};
ghost use Rattle.std.specs.List.Sorted.{IsNonDecreasingBy, IsPermutation};
ghost use Rattle.normal_form.specs.Normal.{largest_sum};
ghost use Rattle.normal_form.specs.NormalOf.{size_sum, slope};
ghost use Rattle.normal_form.specs.Balance.{Balances, slopes};
ghost use Rattle.linear.specs.declared.term.Term.{Term};

use super::builder::NormalBuilder;
use super::normal::LARGEST_SUM;
use linear::Term;
use std::alloc::{AllocError, Global};

/// Whether the sizes of the coefficients add up to at most the limit of coefficient sums.
pub(crate) fn sizes_fit(terms: &[Term]) -> bool
    ensures { IsTrue result ↔ size_sum terms.now ≤ largest_sum }
{
    let mut sum: u128 = 0;
    for term in terms {
        sum = sum.saturating_add(term.coef.unsigned_abs());
    }
    sum <= LARGEST_SUM
}

/// What a term gives its variable.
fn slope(term: Term) -> i128
    requires { unsigned_abs term.coef ≤ largest_sum }
    ensures { result ≡ slope term }
{
    if term.negated { -term.coef } else { term.coef }
}

/// The terms of one variable that stand together: their net coefficient, and the place after the last.
#[derive(Clone, Copy)]
struct Run {
    net: i128,
    end: usize,
}

/// The run that begins at a place.
#[inline(always)]
fn run_from(sorted: &[Term], start: usize) -> Run
    requires place { start < length sorted.now }
    requires sizes { size_sum sorted.now ≤ largest_sum }
    ensures ahead { start < result.end }
    ensures within { result.end ≤ length sorted.now }
    ensures net { (set : ℕ → Bool) → (d : Term) → slopes set (take result.end sorted.now) ≡ slopes set (take start sorted.now) +ℤ (if set ((slice_index_or sorted.now start d).var.0) then result.net else pos 0) }
    ensures whole { (d : Term) → result.end < length sorted.now → (slice_index_or sorted.now result.end d).var.0 ≢ (slice_index_or sorted.now start d).var.0 }
{
    let mut net = slope(sorted[start]);
    let mut end = start + 1;
    while end < sorted.len() && sorted[end].var.0 == sorted[start].var.0 {
        net += slope(sorted[end]);
        end += 1;
    }
    Run { net, end }
}

/// Merges terms that stand in order of their variables.
pub(crate) fn merge_runs(alloc: Global, sorted: &[Term]) -> Result<NormalBuilder, AllocError>
    requires order { IsNonDecreasingBy (λ t. t.var.0) sorted.now }
    requires sizes { size_sum sorted.now ≤ largest_sum }
    ensures { IfOk result (Balances sorted.now) }
{
    let mut merged = NormalBuilder::with_capacity(alloc, sorted.len())?;
    let mut start = 0;
    while start < sorted.len() {
        let run = run_from(sorted, start);
        merged.push_net(sorted[start].var, run.net)?;
        start = run.end;
    }
    Ok(merged)
}

/// Whether terms stand in order of their variables.
pub(crate) fn are_in_order(terms: &[Term]) -> bool
    ensures { IsTrue result → IsNonDecreasingBy (λ t. t.var.0) terms.now }
{
    for place in 1..terms.len() {
        if terms[place].var.0 < terms[place - 1].var.0 {
            return false;
        }
    }
    true
}

/// Puts terms in order of their variables, in a list for that, whatever it holds.
pub(crate) fn put_in_order(sorted: &mut Vec<Term>, terms: &[Term]) -> Result<(), AllocError>
    ensures order { OnOk result (IsNonDecreasingBy (λ t. t.var.0) sorted.new.items) }
    ensures same { OnOk result (IsPermutation terms.now sorted.new.items) }
{
    sorted.clear();
    sorted.extend_from_slice(terms)?;
    sorted.sort_by_key(|term| term.var.0)?;
    Ok(())
}

/// The merged terms, in order of their variables. Those that stand in order, as most do that are short, are merged where they stand,
/// others in a list for that, whatever it holds.
pub(crate) fn merge(
    alloc: Global,
    sorted: &mut Vec<Term>,
    terms: &[Term],
) -> Result<NormalBuilder, AllocError>
    requires { size_sum terms.now ≤ largest_sum }
    ensures { IfOk result (Balances terms.now) }
{
    if are_in_order(terms) {
        return merge_runs(alloc, terms);
    }
    put_in_order(sorted, terms)?;
    merge_runs(alloc, sorted.as_slice())
}
