//! Pairs of variables that may change places.
//!
//! Many problems are alike in some of their variables: holes, machines, colours. Where two may change places, nothing is lost by
//! asking that the first one is true wherever the second is. Each variable stands in one pair at most, since what is asked of one
//! pair need not survive the exchange of another one that shares a variable. Pairs are tried in rising order, and so many at
//! most that a problem with many variables does not wait for it.

ghost use Rattle.std.specs.Prelude.{◌≡◌, ◌≢◌, ◌↔◌, ◌+◌, ◌-◌, ◌<◌, ◌++◌, ◌∷◌, ℕ, false, List, [], IfOk, IsTrue, MatchOption, OnOk, length, slice_index_or};
ghost use Rattle.linear.specs.declared.term.Lit.{Lit};
ghost use Rattle.presolve.specs.Pairs.{AreTaken, IsChosen, IsPartner, IsReady};
ghost use Rattle.presolve.specs.Swapping.{AreUsed, IsSwappable, IsWithout, most_tried, pairs_before};

use super::costs::costs_of;
use super::file_forms::FileForms;
use linear::{Lit, Problem, Var};
use std::alloc::{AllocError, Global};

/// How many pairs are tried at most.
const MOST_TRIED: u32 = 65_536;

/// Two variables that may change places, the first one below the second.
#[derive(Clone, Copy, Debug, PartialEq, Eq)]
pub struct Swap {
    pub first: Var,
    pub second: Var,
}

/// A problem, its normal constraints, and what each variable costs.
#[derive(Drop)]
struct Symmetries<'a> {
    problem: &'a Problem,
    forms: FileForms,
    costs: Vec<i128>,
}

impl<'a> Symmetries<'a> {
    /// What is kept of a problem.
    fn of(alloc: Global, problem: &'a Problem) -> Result<Self, AllocError>
        ensures problem { IfOk result (λ kept. kept.problem.now ≡ problem.now) }
        ensures ready { IfOk result (λ kept. IsReady kept.problem.now kept.forms kept.costs.items) }
    {
        Ok(Symmetries {
            problem,
            forms: FileForms::of(alloc, problem)?,
            costs: costs_of(alloc, problem)?,
        })
    }

    /// Whether two variables may change places.
    fn is_swappable(&self, alloc: Global, x: Var, y: Var) -> Result<bool, AllocError>
        requires ready { IsReady self.now.problem.now self.now.forms self.now.costs.items }
        requires order { x.0 < y.0 }
        requires variable { y.0 < length self.now.problem.now.names }
        ensures { IfOk result (λ yes. IsTrue yes ↔ IsSwappable self.now.problem.now (x.0) (y.0)) }
    {
        let cost_the_same = self.costs[x.0 as usize] == self.costs[y.0 as usize];
        Ok(cost_the_same && self.forms.is_symmetric(alloc, x, y)?)
    }

    /// The first variable behind another one that is not taken and may change places with it, among so many.
    fn partner(
        &self,
        alloc: Global,
        taken: &[bool],
        x: Var,
        left: u32,
    ) -> Result<Option<Var>, AllocError>
        requires ready { IsReady self.now.problem.now self.now.forms self.now.costs.items }
        requires taken { length taken.now ≡ length self.now.problem.now.names }
        requires variable { x.0 < length self.now.problem.now.names }
        ensures { IfOk result (λ found. MatchOption found
            ((z : ℕ) → IsPartner self.now.problem.now taken.now left (x.0) z → ⊥)
            (λ y. IsPartner self.now.problem.now taken.now left (x.0) (y.0) × ((z : ℕ) → z < y.0 → IsPartner self.now.problem.now taken.now left (x.0) z → ⊥))) }
    {
        let count = self.problem.names().len() as u32;
        let first = x.0 + 1;
        for number in first..count.min(first.saturating_add(left)) {
            let y = Var(number);
            if !taken[number as usize] && self.is_swappable(alloc, x, y)? {
                return Ok(Some(y));
            }
        }
        Ok(None)
    }
}

/// The pairs that are used so far, and the variables that are fixed or in one of them.
#[derive(Drop)]
struct Chosen {
    taken: Vec<bool>,
    swaps: Vec<Swap>,
}

/// Notes that a variable is taken, where the table has it.
fn take(taken: &mut [bool], variable: Var)
    ensures { (v : ℕ) → v < length taken.old → (slice_index_or taken.new v false ≡ false) ↔ ((slice_index_or taken.old v false ≡ false) × (variable.0 ≢ v)) }
{
    let number = variable.0 as usize;
    if number < taken.len() {
        taken[number] = true;
    }
}

/// Of so many variables, those that are fixed.
fn fixed_ones(alloc: Global, count: usize, fixed: &[Lit]) -> Result<Vec<bool>, AllocError>
    ensures count { IfOk result (λ taken. length taken.items ≡ count) }
    ensures taken { IfOk result (λ taken. AreTaken fixed.now [] taken.items) }
{
    let mut taken = vec![in alloc; false; count]?;
    for literal in fixed {
        take(taken.as_mut_slice(), literal.var);
    }
    Ok(taken)
}

impl Chosen {
    /// Uses a pair.
    fn add(&mut self, swap: Swap) -> Result<(), AllocError>
        ensures swaps { OnOk result (self.new.swaps.items ≡ self.old.swaps.items ++ swap ∷ []) }
        ensures count { OnOk result (length self.new.taken.items ≡ length self.old.taken.items) }
        ensures taken { OnOk result ((v : ℕ) → v < length self.old.taken.items → (slice_index_or self.new.taken.items v false ≡ false) ↔ ((slice_index_or self.old.taken.items v false ≡ false) × IsWithout v swap)) }
    {
        self.swaps.push(swap)?;
        take(self.taken.as_mut_slice(), swap.first);
        take(self.taken.as_mut_slice(), swap.second);
        Ok(())
    }

    /// Uses the pair that begins with a variable, if there is one. So many pairs that begin with it are tried.
    fn pair<'a>(
        &mut self,
        alloc: Global,
        symmetries: &Symmetries<'a>,
        x: Var,
        left: u32,
    ) -> Result<(), AllocError>
        requires ready { IsReady symmetries.now.problem.now symmetries.now.forms symmetries.now.costs.items }
        requires taken { length self.old.taken.items ≡ length symmetries.now.problem.now.names }
        requires variable { x.0 < length symmetries.now.problem.now.names }
        requires left { left ≡ most_tried - pairs_before (length symmetries.now.problem.now.names) (x.0) }
        ensures count { OnOk result (length self.new.taken.items ≡ length self.old.taken.items) }
        ensures used { (fixed : List Lit) → OnOk result (IsChosen symmetries.now.problem.now fixed (x.0) self.old.swaps.items self.old.taken.items
            → IsChosen symmetries.now.problem.now fixed (x.0 + 1) self.new.swaps.items self.new.taken.items) }
    {
        if self.taken[x.0 as usize] {
            return Ok(());
        }
        if let Some(second) = symmetries.partner(alloc, self.taken.as_slice(), x, left)? {
            self.add(Swap { first: x, second })?;
        }
        Ok(())
    }
}

/// The pairs of variables that are used: those that may change places, of the first 65,536 pairs in rising order, none of whose
/// variables is fixed or in an earlier pair that is used.
pub fn swappable(alloc: Global, problem: &Problem, fixed: &[Lit]) -> Result<Vec<Swap>, AllocError>
    ensures { IfOk result (λ swaps. AreUsed problem.now fixed.now swaps.items) }
{
    let symmetries = Symmetries::of(alloc, problem)?;
    let count = problem.names().len() as u32;
    let mut chosen = Chosen {
        taken: fixed_ones(alloc, count as usize, fixed)?,
        swaps: Vec::new(alloc),
    };
    let mut left = MOST_TRIED;
    for number in 0..count {
        chosen.pair(alloc, &symmetries, Var(number), left)?;
        left = left.saturating_sub(count - number - 1);
    }
    let Chosen { swaps, .. } = chosen;
    Ok(swaps)
}
