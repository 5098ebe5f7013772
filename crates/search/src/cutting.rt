//! What the analysis of a conflict comes to, logged as one `pol` line.
//!
//! The derivation comes with the analysis, and so does what it derives: the log takes that as it is, and nothing is run a second time. That it bites
//! is asked of the constraints as they are now: what stands becomes what the decisions that are left extend to, and the constraint is looked at
//! under it (`retracing`). So a trail that is out of date costs a weaker step, and never a wrong count. Whether the line can be written is asked
//! before, which costs little, since no contract of an analysis says which factors its items have.

ghost use Rattle.std.specs.Prelude.{◌≡◌, ◌+◌, IfOk, IsTrue, OnOk, false};
ghost use Rattle.proof_rules.specs.Expression.{IsPostfixOf};
ghost use Rattle.proof_rules.specs.State.{HasRoom, constraint_of};
ghost use Rattle.proof_log.specs.Log.{GoesOn};
ghost use Rattle.search.specs.Decisions.{AreDecisions};
ghost use Rattle.search.specs.Solving.{TakesId};
ghost use Rattle.search.specs.Undoing.{IsUndone};

use super::retracing::try_under;
use super::standing::Standing;
use analysis::{Analyser, Learned};
use branching::Brancher;
use linear::{Lit, Var};
use normal_form::Normal;
use proof_log::Log;
use proof_steps::Step;
use propagate::{Id, Propagator};
use std::alloc::{AllocError, Global};

/// The variables of a constraint.
pub(crate) fn variables_of(alloc: Global, constraint: &Normal) -> Result<Vec<Var>, AllocError> {
    let mut variables = Vec::with_capacity(alloc, constraint.len())?;
    for place in 0..constraint.len() {
        variables.push(constraint.term(place).var)?;
    }
    Ok(variables)
}

/// Learns a constraint that an analysis came to, and undoes decisions down to the level at which it bites. False where it does not bite, or the
/// line that derives it cannot be written.
fn learn<'a, P: Propagator>(
    alloc: Global,
    log: &mut Log<'a, P>,
    decisions: &mut Vec<Lit>,
    standing: &mut Standing,
    learned: Learned,
    brancher: &mut Box<dyn Brancher>,
) -> Result<bool, AllocError>
    requires decisions { AreDecisions log.old decisions.old.items }
    requires room { HasRoom log.old.state }
    requires derived { IsPostfixOf (constraint_of log.old.state) learned.items learned.constraint }
    ensures goes_on { GoesOn log.old log.new }
    ensures learned { IfOk result (λ yes. IsTrue yes → TakesId log.old.state log.new.state) }
    ensures biting { IfOk result (λ yes. IsTrue yes → log.new.biting ≡ log.old.biting + 1) }
    ensures unchanged { IfOk result (λ yes. yes ≡ false → log.new ≡ log.old) }
    ensures decisions { OnOk result (AreDecisions log.new decisions.new.items) }
    ensures undone { IfOk result (λ yes. IsTrue yes → IsUndone decisions.old.items decisions.new.items) }
    ensures kept { IfOk result (λ yes. yes ≡ false → decisions.new.items ≡ decisions.old.items) }
{
    let Learned {
        items,
        constraint,
        level,
    } = learned;
    let kept = level as usize;
    if kept >= decisions.len() {
        return Ok(false);
    }
    let left = &decisions.as_slice()[..kept];
    let step = Step::Pol(items);
    if !log.can_write(&step) {
        return Ok(false);
    }
    if !try_under(log, left, &constraint, standing, brancher)? {
        return Ok(false);
    }
    let variables = variables_of(alloc, &constraint)?;
    log.learn_derived(step, constraint)?;
    decisions.truncate(kept);
    brancher.conflict(variables.as_slice());
    Ok(true)
}

/// Learns what the analysis of a conflict comes to, and undoes decisions down to the level at which it bites. False where no constraint is named
/// to begin with, and where it comes to nothing that bites and can be written.
pub(crate) fn learn_constraint<'a, P: Propagator>(
    alloc: Global,
    log: &mut Log<'a, P>,
    decisions: &mut Vec<Lit>,
    standing: &mut Standing,
    conflict: Option<Id>,
    analyser: &mut Analyser,
    brancher: &mut Box<dyn Brancher>,
) -> Result<bool, AllocError>
    requires decisions { AreDecisions log.old decisions.old.items }
    requires room { HasRoom log.old.state }
    ensures goes_on { GoesOn log.old log.new }
    ensures learned { IfOk result (λ yes. IsTrue yes → TakesId log.old.state log.new.state) }
    ensures biting { IfOk result (λ yes. IsTrue yes → log.new.biting ≡ log.old.biting + 1) }
    ensures unchanged { IfOk result (λ yes. yes ≡ false → log.new ≡ log.old) }
    ensures decisions { OnOk result (AreDecisions log.new decisions.new.items) }
    ensures undone { IfOk result (λ yes. IsTrue yes → IsUndone decisions.old.items decisions.new.items) }
    ensures kept { IfOk result (λ yes. yes ≡ false → decisions.new.items ≡ decisions.old.items) }
{
    let Some(conflict) = conflict else {
        analyser.met.clear();
        return Ok(false);
    };
    let found = analyser.analyse(alloc, log.kernel(), standing.trail(), conflict)?;
    brancher.met(analyser.met.variables.as_slice());
    let Some(learned) = found else {
        return Ok(false);
    };
    learn(alloc, log, decisions, standing, learned, brancher)
}
