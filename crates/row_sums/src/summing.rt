//! The line of some multipliers: each constraint, saturated or divided as its row was, times its whole number, summed up.
//!
//! Whole numbers with a divisor in common are divided by it first: the sum says the same in smaller numbers, and a line of sums without
//! factors is the shortest.

ghost use Rattle.std.specs.Prelude.{◌<◌, IfOk, OnOk};
ghost use Rattle.proof_rules.specs.State.{constraint_of};
ghost use Rattle.row_sums.specs.Derived.{Derives};
ghost use Rattle.row_sums.specs.Lines.{LeavesItsStack};

use super::line::Line;
use super::sources::{Sources, common_divisor, exceeds_degree};
use kernel::Kernel;
use linear::Seq;
use normal_form::Normal;
use proof_rules::StepFault;
use proof_steps::Item;
use propagate::Propagator;
use relaxation::{Source, WholeMultiplier};
use std::alloc::Global;

/// The greatest number that divides all factors, at least 1.
fn common_factor(multipliers: &[WholeMultiplier]) -> u128
    ensures { 0 < result }
{
    let mut common = 0;
    for multiplier in multipliers {
        common = common_divisor(common, u128::from(multiplier.factor));
    }
    common.max(1)
}

/// Puts the constraint of a multiplier on a line, times a factor.
fn put<'k, 'a, P: Propagator>(
    alloc: Global,
    kernel: &'k Kernel<'a, P>,
    sources: &Sources,
    line: &mut Line<'k>,
    source: Source,
    factor: u128,
) -> Result<(), StepFault>
    requires { LeavesItsStack (constraint_of kernel.now.state) line.old }
    ensures { OnOk result (LeavesItsStack (constraint_of kernel.now.state) line.new) }
{
    let Some(cited) = sources.cited(source) else {
        return Err(StepFault::DeadId);
    };
    let constraint = line.cite_live(kernel, cited.id)?;
    if source != Source::Improving && exceeds_degree(constraint) {
        line.saturate(alloc)?;
    }
    line.divide(alloc, cited.unit)?;
    line.multiply(alloc, factor.saturating_mul(cited.unit))
}

/// The line of some multipliers, divided by what they have in common: its items, and the constraint that they derive.
///
/// `DeadId` comes where a multiplier has no live constraint, `StackShape` where there is no multiplier, `BadFactor` where one is 0, `TooLarge`
/// where the sum is not within the limits, and `OutOfMemory` where a growth was refused.
pub fn line_of<'a, P: Propagator>(
    alloc: Global,
    kernel: &Kernel<'a, P>,
    sources: &Sources,
    multipliers: &[WholeMultiplier],
) -> Result<(Seq<Item>, Normal), StepFault>
    ensures { IfOk result (λ p. Derives kernel.now.state p.0 p.1) }
{
    let common = common_factor(multipliers);
    let line = divided_line(alloc, kernel, sources, multipliers, common)?;
    line.finish(alloc)
}

/// The line of some multipliers, divided by a number.
///
/// The faults are those of `line_of`, but for one that says that there is no multiplier: the line is empty then.
pub fn divided_line<'k, 'a, P: Propagator>(
    alloc: Global,
    kernel: &'k Kernel<'a, P>,
    sources: &Sources,
    multipliers: &[WholeMultiplier],
    common: u128,
) -> Result<Line<'k>, StepFault>
    requires { 0 < common }
    ensures { IfOk result (λ line. LeavesItsStack (constraint_of kernel.now.state) line) }
{
    let mut line = Line::new(alloc);
    for multiplier in multipliers {
        let factor = u128::from(multiplier.factor) / common;
        put(alloc, kernel, sources, &mut line, multiplier.source, factor)?;
        line.add_if_two(alloc)?;
    }
    Ok(line)
}
