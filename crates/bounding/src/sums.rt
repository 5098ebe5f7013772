//! The line of the multipliers of a call, if it says something where the search stands.
//!
//! The relaxation has its multipliers in fixed point; a line sums constraints up by whole numbers. These are small first, since small numbers make
//! sums that an analysis can go on with for long, and larger only where the sum of those says nothing.

ghost use Rattle.std.specs.Prelude.{◌≤◌, IfOk, IfSome};
ghost use Rattle.bounding.specs.Advice.{IsBorneOut};

use super::advice::Advice;
use super::judgement::{Judgement, judge};
use super::standing::Standing;
use cuts::Point;
use kernel::Kernel;
use proof_rules::StepFault;
use propagate::Propagator;
use relaxation::whole_multipliers;
use row_sums::line_of;
use std::alloc::{AllocError, Global};

/// The greatest whole number is `2^10` first.
const FEW_BITS: u32 = 10;

/// Where the sum of those says nothing it is `2^20`.
const BITS: u32 = 20;

/// Where that says nothing either it is `2^32`.
const MORE_BITS: u32 = 32;

/// The line of the multipliers of the last call, if it says something under the literals that stand.
pub(crate) fn sum_up<'a, P: Propagator>(
    alloc: Global,
    kernel: &Kernel<'a, P>,
    point: Point<'_>,
    standing: &Standing<'_>,
) -> Result<Option<Advice>, AllocError>
    ensures { IfOk result (λ found. IfSome found (IsBorneOut kernel.now.state standing.now)) }
{
    if let Some(advice) = try_scale(alloc, kernel, point, standing, FEW_BITS)? {
        return Ok(Some(advice));
    }
    if let Some(advice) = try_scale(alloc, kernel, point, standing, BITS)? {
        return Ok(Some(advice));
    }
    try_scale(alloc, kernel, point, standing, MORE_BITS)
}

/// The same where the greatest multiplier is `2^bits`. Where a number grows too large nothing is found.
fn try_scale<'a, P: Propagator>(
    alloc: Global,
    kernel: &Kernel<'a, P>,
    point: Point<'_>,
    standing: &Standing<'_>,
    bits: u32,
) -> Result<Option<Advice>, AllocError>
    requires { bits ≤ 52 }
    ensures { IfOk result (λ found. IfSome found (IsBorneOut kernel.now.state standing.now)) }
{
    match line_at_scale(alloc, kernel, point, standing, bits) {
        Ok(found) => Ok(found),
        Err(StepFault::OutOfMemory) => Err(AllocError),
        Err(_) => Ok(None),
    }
}

/// The same, or why the line cannot be run.
fn line_at_scale<'a, P: Propagator>(
    alloc: Global,
    kernel: &Kernel<'a, P>,
    point: Point<'_>,
    standing: &Standing<'_>,
    bits: u32,
) -> Result<Option<Advice>, StepFault>
    requires { bits ≤ 52 }
    ensures { IfOk result (λ found. IfSome found (IsBorneOut kernel.now.state standing.now)) }
{
    let whole = whole_multipliers(alloc, point.relaxation.multipliers(), bits)?;
    let (items, constraint) = line_of(alloc, kernel, point.sources, whole.as_slice())?;
    match judge(&constraint, standing) {
        Judgement::False => Ok(Some(Advice::Conflict(items))),
        Judgement::Forces => Ok(Some(Advice::Forcing(items))),
        Judgement::Quiet => Ok(None),
    }
}
