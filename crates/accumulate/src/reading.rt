//! Reading a constraint off an array of net coefficients, and putting the array back to 0.
//!
//! The marks stand in order then. Between two of them all cells are 0, so the terms that are read rise and none is
//! missed, and a mark that stands twice is passed over.

ghost use Rattle.std.specs.Prelude.{◌≡◌, ℕ, ◌<◌, ◌≤◌, pos, unsigned_abs, IfOk, [], take, length, slice_index_or};
ghost use Rattle.normal_form.specs.Normal.{largest_sum};
ghost use Rattle.std.specs.List.Sorted.{IsNonDecreasingBy};
ghost use Rattle.accumulate.specs.Nets.{terms_from, sizes, IsMarked};

use linear::Var;
use normal_form::NormalBuilder;
use std::alloc::{AllocError, Global};

/// Puts the term of a marked variable at the end, unless the variable was there before.
fn push_cell(
    terms: &mut NormalBuilder,
    nets: &Vec<i128>,
    next: usize,
    var: u32,
) -> Result<usize, AllocError>
    requires made { terms.old ≡ terms_from 0 (take next nets.now.items) }
    requires room { var < length nets.now.items }
    requires next { next ≤ length nets.now.items }
    requires small { sizes nets.now.items ≤ largest_sum }
    requires gap { (v : ℕ) → next ≤ v → v < var → unsigned_abs (slice_index_or nets.now.items v (pos 0)) ≡ 0 }
    ensures made { IfOk result (λ n. terms.new ≡ terms_from 0 (take n nets.now.items)) }
    ensures room { IfOk result (λ n. n ≤ length nets.now.items) }
    ensures next { IfOk result (λ n. next ≤ n) }
    ensures passed { IfOk result (λ n. var < n) }
{
    let place = var as usize;
    if place < next {
        return Ok(next);
    }
    terms.push_net(Var(var), nets[place])?;
    Ok(place + 1)
}

/// The terms of the marked variables, which stand in order, perhaps some of them twice.
pub(crate) fn collect(
    alloc: Global,
    nets: &Vec<i128>,
    touched: &Vec<u32>,
) -> Result<NormalBuilder, AllocError>
    requires marks { IsMarked touched.now.items nets.now.items }
    requires small { sizes nets.now.items ≤ largest_sum }
    requires order { IsNonDecreasingBy (λ v. v) touched.now.items }
    ensures { IfOk result (λ b. b ≡ terms_from 0 nets.now.items) }
{
    let mut terms = NormalBuilder::with_capacity(alloc, touched.len())?;
    let mut next = 0;
    for var in touched {
        next = push_cell(&mut terms, nets, next, *var)?;
    }
    Ok(terms)
}

/// Sets the cells of the marked variables to 0.
pub(crate) fn clear(nets: &mut Vec<i128>, touched: &Vec<u32>)
    requires marks { IsMarked touched.now.items nets.old.items }
    ensures marks { IsMarked [] nets.new.items }
    ensures sizes { sizes nets.new.items ≡ 0 }
    ensures terms { terms_from 0 nets.new.items ≡ [] }
    ensures same_length { length nets.new.items ≡ length nets.old.items }
{
    for var in touched {
        nets[*var as usize] = 0;
    }
}
