//! What stands, brought in step with the decisions that are open.
//!
//! A turn asks this once, and so does a constraint before it is learned, under the decisions to which the search goes back for it. The propagator
//! is told what stood, and tells what is new.

ghost use Rattle.std.specs.Prelude.{◌≡◌, IfOk, IsTrue, List, false};
ghost use Rattle.linear.specs.declared.term.Lit.{Lit};
ghost use Rattle.propagate.specs.Biting.{Bites};
ghost use Rattle.propagate.specs.Reach.{IsReach, reach_told};
ghost use Rattle.propagate.specs.declared.reach.Reach.{Reach};
ghost use Rattle.proof_rules.specs.State.{constraints};

use super::standing::Standing;
use branching::Brancher;
use linear::Lit;
use normal_form::Normal;
use proof_log::Log;
use propagate::{Extent, Id, Propagator, Retracing};
use std::alloc::AllocError;

/// Whether an assignment extends to no conflict.
pub(crate) fn is_closed(extent: Extent) -> bool
    ensures closed { IsTrue result → extent ≡ Extent.Closed }
    ensures conflict { result ≡ false → (literals : List Lit) → reach_told literals extent ≡ Reach.Conflict }
{
    match extent {
        Extent::Closed => true,
        Extent::Falsified(_) | Extent::Clash => false,
    }
}

/// The id of the constraint with negative slack to which an assignment extends, where one is named.
pub(crate) fn falsified(extent: Extent) -> Option<Id> {
    match extent {
        Extent::Falsified(id) => Some(id),
        Extent::Closed | Extent::Clash => None,
    }
}

/// What stands becomes what the decisions extend to, or the way to a conflict. A brancher is told which literals go.
pub(crate) fn stand<'a, P: Propagator>(
    log: &mut Log<'a, P>,
    decisions: &[Lit],
    standing: &mut Standing,
    brancher: &mut Box<dyn Brancher>,
) -> Result<Extent, AllocError>
    ensures same { log.new ≡ log.old }
    ensures count { standing.new.count ≡ standing.old.count }
    ensures reach { IfOk result (λ extent. IsReach (constraints log.old.state) decisions.now (reach_told standing.new.literals extent)) }
{
    // What came with more decisions goes by its level, since a literal that comes sooner now is to have its new reason.
    standing.go_back(decisions.len(), brancher);
    let retrace = log.ask(Retracing {
        given: decisions,
        known: standing.literals(),
    })?;
    standing.keep(retrace.kept, brancher);
    standing.extend(retrace.rest.as_slice(), decisions)?;
    // That none stands twice is known by the trail's type; this makes it known here.
    let _ = standing.literals();
    Ok(retrace.extent)
}

/// What stands becomes what decisions extend to, or the way to a conflict; whether a constraint says something new there.
pub(crate) fn try_under<'a, P: Propagator>(
    log: &mut Log<'a, P>,
    decisions: &[Lit],
    constraint: &Normal,
    standing: &mut Standing,
    brancher: &mut Box<dyn Brancher>,
) -> Result<bool, AllocError>
    ensures same { log.new ≡ log.old }
    ensures biting { IfOk result (λ yes. IsTrue yes → Bites (constraints log.old.state) constraint.now) }
{
    let extent = stand(log, decisions, standing, brancher)?;
    if !is_closed(extent) {
        return Ok(false);
    }
    Ok(standing.bites(constraint))
}
