//! An array of net coefficients, one for each variable: how a constraint is added to it.
//!
//! All memory is taken by `prepare`, before any coefficient changes: so nothing fails between, and what was added can
//! be taken back. Coefficients stand in 128 bits with a sign. Every net coefficient is at most the coefficient sum,
//! `2^120`, and a constraint adds at most as much, so no sum leaves its type, and whether a result is too large is
//! asked once, behind.

ghost use Rattle.std.specs.Prelude.{◌≡◌, ℕ, List, Bool, ◌+◌, ◌<◌, ◌≤◌, ◌^◌, ◌-◌, ◌/◌, ◌↔◌, IsTrue, pos, ◌+ℤ◌, unsigned_abs, All, Contains, OnOk, length, vec_len, vec_capacity, if◌then◌else◌};
ghost use Rattle.normal_form.specs.Normal.{total, variable_bound, largest_sum, IsNormal};
ghost use Rattle.normal_form.specs.Balance.{rise_of, rises_of};
ghost use Rattle.accumulate.specs.Nets.{terms_from, nets_of, sizes, turned, IsMarked, IsMarkedAbove, NamesAll};

use linear::Var;
use normal_form::{LARGEST_SUM, Normal, NormalTerm};
use std::alloc::AllocError;

/// Whether terms are added, or what they added is taken back.
#[derive(Clone, Copy, Debug)]
pub(crate) enum Change {
    Add,
    TakeBack,
}

/// What a term gives its variable.
fn rise(term: NormalTerm) -> i128
    requires { term.coef ≤ largest_sum }
    ensures value { result ≡ rise_of term }
    ensures size { unsigned_abs result ≡ term.coef }
{
    if term.negated {
        -(term.coef as i128)
    } else {
        term.coef as i128
    }
}

/// What a term adds to the cell of its variable, or what takes that back.
fn change_of(term: NormalTerm, change: Change) -> i128
    requires { term.coef ≤ largest_sum }
    ensures value { result ≡ turned change (rise_of term) }
    ensures size { unsigned_abs result ≡ term.coef }
{
    match change {
        Change::Add => rise(term),
        Change::TakeBack => -rise(term),
    }
}

/// Makes the array as long as the variables of a constraint want.
pub(crate) fn lengthen(nets: &mut Vec<i128>, wanted: usize) -> Result<(), AllocError>
    ensures terms { terms_from 0 nets.new.items ≡ terms_from 0 nets.old.items }
    ensures marks { (level : ℕ) (marks : List ℕ) → IsMarkedAbove level marks nets.old.items → IsMarkedAbove level marks nets.new.items }
    ensures longer { OnOk result (wanted ≤ length nets.new.items) }
{
    while nets.len() < wanted {
        nets.push(0)?;
    }
    Ok(())
}

/// Adds to the net coefficient of one variable.
fn add_net(nets: &mut Vec<i128>, sum: u128, var: Var, net: i128) -> u128
    requires room { var.0 < length nets.old.items }
    requires sum { sum ≡ sizes nets.old.items }
    requires small { sum ≤ 2 ^ 122 }
    requires size { unsigned_abs net ≤ largest_sum }
    ensures same_length { length nets.new.items ≡ length nets.old.items }
    ensures gives { (set : ℕ → Bool) → nets_of set 0 nets.new.items ≡ nets_of set 0 nets.old.items +ℤ (if set (var.0) then net else pos 0) }
    ensures sum { result ≡ sizes nets.new.items }
    ensures small { result ≤ sum + unsigned_abs net }
    ensures marks { (level : ℕ) (marks : List ℕ) → Contains marks (var.0) → IsMarkedAbove level marks nets.old.items → IsMarkedAbove level marks nets.new.items }
{
    let place = var.0 as usize;
    let before = nets[place];
    let after = before + net;
    nets[place] = after;
    sum - before.unsigned_abs() + after.unsigned_abs()
}

/// Adds the terms of a constraint, or takes them back.
pub(crate) fn apply(nets: &mut Vec<i128>, sum: u128, other: &Normal, change: Change) -> u128
    requires room { variable_bound other.now.terms ≤ length nets.old.items }
    requires sum { sum ≡ sizes nets.old.items }
    requires small { sum ≤ 2 ^ 121 }
    ensures gives { (set : ℕ → Bool) → nets_of set 0 nets.new.items ≡ nets_of set 0 nets.old.items +ℤ turned change (rises_of set other.now.terms) }
    ensures same_length { length nets.new.items ≡ length nets.old.items }
    ensures sum { result ≡ sizes nets.new.items }
    ensures small { result ≤ sum + total other.now.terms }
    ensures marks { (level : ℕ) (marks : List ℕ) → NamesAll marks other.now.terms → IsMarkedAbove level marks nets.old.items → IsMarkedAbove level marks nets.new.items }
{
    let mut all = sum;
    for place in 0..other.len() {
        let term = other.term(place);
        let net = change_of(term, change);
        all = add_net(nets, all, term.var, net);
    }
    all
}

/// Marks a variable, unless it has a net coefficient and so is marked.
fn mark_variable(nets: &Vec<i128>, touched: &mut Vec<u32>, var: Var) -> Result<(), AllocError>
    requires room { var.0 < length nets.now.items }
    requires marks { IsMarked touched.old.items nets.now.items }
    ensures marks { IsMarked touched.new.items nets.now.items }
    ensures kept { (v : ℕ) → Contains touched.old.items v → Contains touched.new.items v }
    ensures named { OnOk result (Contains touched.new.items (var.0)) }
{
    if nets[var.0 as usize] != 0 {
        return Ok(());
    }
    touched.push(var.0)?;
    Ok(())
}

/// Marks the variables of a constraint.
pub(crate) fn mark(
    nets: &Vec<i128>,
    touched: &mut Vec<u32>,
    other: &Normal,
) -> Result<(), AllocError>
    requires room { variable_bound other.now.terms ≤ length nets.now.items }
    requires marks { IsMarked touched.old.items nets.now.items }
    ensures marks { IsMarked touched.new.items nets.now.items }
    ensures names { OnOk result (NamesAll touched.new.items other.now.terms) }
{
    for place in 0..other.len() {
        mark_variable(nets, touched, other.term(place).var)?;
    }
    Ok(())
}

/// Makes room for the variables of a constraint, and marks them. No net coefficient changes.
pub(crate) fn prepare(
    nets: &mut Vec<i128>,
    touched: &mut Vec<u32>,
    other: &Normal,
) -> Result<(), AllocError>
    requires marks { IsMarked touched.old.items nets.old.items }
    ensures terms { terms_from 0 nets.new.items ≡ terms_from 0 nets.old.items }
    ensures marks { IsMarked touched.new.items nets.new.items }
    ensures above { (level : ℕ) (marks : List ℕ) → IsMarkedAbove level marks nets.old.items → IsMarkedAbove level marks nets.new.items }
    ensures room { OnOk result (variable_bound other.now.terms ≤ length nets.new.items) }
    ensures names { OnOk result (NamesAll touched.new.items other.now.terms) }
{
    lengthen(nets, other.variable_count())?;
    mark(nets, touched, other)
}

/// Makes room for the variables of a constraint and for their marks. Nothing else changes.
pub(crate) fn make_room(
    nets: &mut Vec<i128>,
    touched: &mut Vec<u32>,
    other: &Normal,
) -> Result<(), AllocError>
    ensures terms { terms_from 0 nets.new.items ≡ terms_from 0 nets.old.items }
    ensures marks { (level : ℕ) (marks : List ℕ) → IsMarkedAbove level marks nets.old.items → IsMarkedAbove level marks nets.new.items }
    ensures touched { touched.new.items ≡ touched.old.items }
    ensures room { OnOk result (variable_bound other.now.terms ≤ length nets.new.items) }
    ensures reserved { OnOk result (vec_len touched.new + length other.now.terms ≤ vec_capacity touched.new) }
{
    lengthen(nets, other.variable_count())?;
    touched.reserve(other.len())
}

/// Marks the variables of a constraint, for which there is room among the marks.
pub(crate) fn mark_reserved(touched: &mut Vec<u32>, other: &Normal)
    requires { vec_len touched.old + length other.now.terms ≤ vec_capacity touched.old }
    ensures names { NamesAll touched.new.items other.now.terms }
    ensures kept { (v : ℕ) → Contains touched.old.items v → Contains touched.new.items v }
    ensures below { (n : ℕ) → variable_bound other.now.terms ≤ n → All (λ v. v < n) touched.old.items → All (λ v. v < n) touched.new.items }
{
    for place in 0..other.len() {
        touched.push_reserved(other.term(place).var.0);
    }
}

/// Notes the variables of a constraint that is added, unless no coefficient can be above the level.
pub(crate) fn note(recent: &mut Vec<u32>, level: u128, other: &Normal) -> Result<(), AllocError>
    ensures names { OnOk result (level < largest_sum → NamesAll recent.new.items other.now.terms) }
    ensures kept { (v : ℕ) → Contains recent.old.items v → Contains recent.new.items v }
    ensures below { (n : ℕ) → variable_bound other.now.terms ≤ n → All (λ v. v < n) recent.old.items → All (λ v. v < n) recent.new.items }
{
    if level >= LARGEST_SUM {
        return Ok(());
    }
    recent.reserve(other.len())?;
    mark_reserved(recent, other);
    Ok(())
}

/// The degree of a sum, of the coefficient sums before and after: what cancels goes from two coefficients at once.
pub(crate) fn degree_after(before: u128, degree: u128, other: &Normal, after: u128) -> u128
    requires before { before ≤ largest_sum }
    requires degree { degree ≤ largest_sum }
    requires after { after ≤ before + total other.now.terms }
    ensures value { result ≡ (degree + other.now.degree) - (before + total other.now.terms - after) / 2 }
    ensures normal { IsNormal other.now }
{
    let cancelled = (before + other.sum() - after) / 2;
    (degree + other.degree()).saturating_sub(cancelled)
}

/// Whether a coefficient sum and a degree are within the limits.
pub(crate) fn fits(sum: u128, degree: u128) -> bool
    ensures { IsTrue result ↔ (sum ≤ largest_sum) × (degree ≤ largest_sum) }
{
    sum <= LARGEST_SUM && degree <= LARGEST_SUM
}
