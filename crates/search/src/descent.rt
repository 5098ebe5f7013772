//! Deciding one literal after another, until there is a conflict, or an adviser comes to a line, or every variable has a value.
//!
//! What the open decisions extend to is asked once (`retracing`). From there on each question is about literals behind those that are decided, and its answer, and
//! what is noted of it, are as long as what these force. A question is about one literal at first, and about ever more at a time where many were
//! decided without a conflict: that what was decided before is what was decided last time takes a look at each of those literals, and to look at
//! all of them for each one more would take the square of their number. Where the open decisions lead to a conflict that does not take all of
//! them, those that it does not take are undone, and nothing is decided.

ghost use Rattle.std.specs.FinMap as map;
ghost use Rattle.std.specs.Prelude.{◌≡◌, ◌<◌, [], ◌∷◌, ◌++◌, IfOk, MatchOption, OnOk, length};
ghost use Rattle.propagate.specs.Chain.{LeadsToConflict};
ghost use Rattle.propagate.specs.Content.{Content, IsEnd, IsTraceOfLast};
ghost use Rattle.propagate.specs.Literals.{IsConsistent};
ghost use Rattle.proof_rules.specs.State.{constraints};
ghost use Rattle.search.specs.Conflicts.{LeadsAtLast};
ghost use Rattle.search.specs.Descents.{IfAdvised, IfConflict, IfFixpoint, IfUndone, IsAdvisedUnder, IsSettled};
ghost use Rattle.search.specs.Decisions.{AreDecisions};
ghost use Rattle.search.specs.Values.{IsUnlisted, unlisted_below};

use super::advisers::{Advisers, Line};
use super::choice::{choose, is_free, pick_more};
use super::overtaken::undo_overtaken;
use super::retracing::{falsified, is_closed, stand};
use super::standing::Standing;
use linear::{Lit, Seq};
use proof_log::Log;
use propagate::{Decided, Deciding, Id, Propagator};
use std::alloc::{AllocError, Global};

/// A question is about one literal more for so many that were decided since the last conflict.
const DECISIONS_FOR_ONE_MORE: usize = 64;

/// Where decisions end.
#[derive(Drop)]
pub(crate) enum Descent {
    /// There is a conflict, and it takes the last decision for that. The constraint of this id has negative slack, where one is named.
    Conflict(Option<Id>),
    /// Decisions that a conflict does not take were undone.
    Undone,
    /// This line derives a constraint that says something under what stands.
    Advised(Line),
    /// Every variable has a value, by these literals, and there is no conflict.
    Fixpoint(Seq<Lit>),
}

/// What decisions end in that lead to a conflict: those that it does not take are undone, where there are any.
fn end_in_conflict<'a, P: Propagator>(
    log: &mut Log<'a, P>,
    decisions: &mut Vec<Lit>,
    conflict: Option<Id>,
) -> Result<Descent, AllocError>
    requires decisions { AreDecisions log.old decisions.old.items }
    requires conflict { LeadsToConflict (constraints log.old.state) decisions.old.items }
    ensures same { log.new ≡ log.old }
    ensures decisions { OnOk result (AreDecisions log.new decisions.new.items) }
    ensures conflict { IfOk result (λ end. IfConflict end (LeadsAtLast (constraints log.old.state) decisions.new.items)) }
    ensures undone { IfOk result (λ end. IfUndone end (length decisions.new.items < length decisions.old.items)) }
    ensures advised { IfOk result (λ end. IfAdvised end (IsAdvisedUnder log.old decisions.new.items)) }
    ensures settled { IfOk result (λ end. IfFixpoint end (IsSettled log.old)) }
{
    if undo_overtaken(log, decisions)? {
        return Ok(Descent::Undone);
    }
    Ok(Descent::Conflict(conflict))
}

/// Notes a decision, and what it forces; the id of a constraint with negative slack, if there is one then.
fn note(
    decisions: &mut Vec<Lit>,
    standing: &mut Standing,
    decided: &Decided,
) -> Result<Option<Id>, AllocError>
    ensures count { standing.new.count ≡ standing.old.count }
    ensures decided { OnOk result (decisions.new.items ≡ decisions.old.items ++ decided.now.literal ∷ []) }
    ensures end { IfOk result (λ falsified. (live : Content) → IsConsistent (decisions.old.items ++ decided.now.literal ∷ []) → IsEnd live decisions.old.items standing.old.literals → IsTraceOfLast live decisions.old.items decided.now.literal decided.now.trace
        → MatchOption falsified (IsEnd live decisions.new.items standing.new.literals) (λ id. LeadsToConflict (map.values live) decisions.new.items)) }
{
    decisions.push(decided.literal)?;
    let count = decisions.len();
    standing.decide(decided.literal, count)?;
    standing.force(decided.trace.forced.as_slice(), count)?;
    Ok(decided.trace.conflict)
}

/// Decides a literal that is free, and then others, as long as they are free and there is no conflict, and notes what each forces; the id of a
/// constraint with negative slack, if there is one then.
fn decide<'a, P: Propagator>(
    log: &mut Log<'a, P>,
    decisions: &mut Vec<Lit>,
    standing: &mut Standing,
    first: Lit,
    more: &[Lit],
) -> Result<Option<Id>, AllocError>
    requires decisions { AreDecisions log.old decisions.old.items }
    requires consistent { IsConsistent (decisions.old.items ++ first ∷ []) }
    requires end { IsEnd log.old.state.live decisions.old.items standing.old.literals }
    requires free { IsUnlisted standing.old.literals (first.var.0) }
    requires inside { first.var.0 < standing.old.count }
    requires count { standing.old.count ≡ length log.old.problem.names }
    ensures same { log.new ≡ log.old }
    ensures count { standing.new.count ≡ standing.old.count }
    ensures decisions { OnOk result (AreDecisions log.old decisions.new.items) }
    ensures fewer { OnOk result (unlisted_below (length log.old.problem.names) decisions.new.items < unlisted_below (length log.old.problem.names) decisions.old.items) }
    ensures end { IfOk result (λ falsified. MatchOption falsified (IsEnd log.old.state.live decisions.new.items standing.new.literals)
        (λ id. LeadsAtLast (constraints log.old.state) decisions.new.items)) }
{
    let decided = log.ask(Deciding {
        before: decisions.as_slice(),
        first,
        more,
    })?;
    for one in &decided {
        // What a propagator answers is looked up as what a brancher picks is.
        if !is_free(standing.values(), one.literal.var) {
            return Ok(None);
        }
        let conflict = note(decisions, standing, one)?;
        if conflict.is_some() {
            return Ok(conflict);
        }
    }
    Ok(None)
}

/// Decides until there is a conflict, or an adviser comes to a line, or every variable has a value; or undoes decisions that a conflict does
/// not take.
pub(crate) fn descend<'a, P: Propagator>(
    alloc: Global,
    log: &mut Log<'a, P>,
    decisions: &mut Vec<Lit>,
    standing: &mut Standing,
    count: u32,
    advisers: &mut Advisers,
) -> Result<Descent, AllocError>
    requires decisions { AreDecisions log.old decisions.old.items }
    requires count { count ≡ length log.old.problem.names }
    ensures same { log.new ≡ log.old }
    ensures decisions { OnOk result (AreDecisions log.new decisions.new.items) }
    ensures conflict { IfOk result (λ end. IfConflict end (LeadsAtLast (constraints log.old.state) decisions.new.items)) }
    ensures undone { IfOk result (λ end. IfUndone end (length decisions.new.items < length decisions.old.items)) }
    ensures advised { IfOk result (λ end. IfAdvised end (IsAdvisedUnder log.old decisions.new.items)) }
    ensures settled { IfOk result (λ end. IfFixpoint end (IsSettled log.old)) }
{
    // That what is live is over the file's variables is known by the log's type; this makes it known here.
    log.reveal();
    let begun = decisions.len();
    standing.fit(alloc, count as usize)?;
    let extent = stand(log, decisions.as_slice(), standing, &mut advisers.brancher)?;
    if !is_closed(extent) {
        return end_in_conflict(log, decisions, falsified(extent));
    }
    'decisions: loop {
        let pushed = standing.pushed();
        let found = advisers.ask(log, standing.literals(), decisions.len(), pushed)?;
        if let Some(line) = found {
            return Ok(Descent::Advised(line));
        }
        let picked = advisers.brancher.pick(standing.values());
        let Some(first) = choose(standing.values(), count, picked) else {
            return Ok(Descent::Fixpoint(standing.to_literals(alloc)?));
        };
        let further = decisions.len().saturating_sub(begun) / DECISIONS_FOR_ONE_MORE;
        let more = pick_more(alloc, &mut advisers.brancher, standing.values(), further)?;
        let end = decide(log, decisions, standing, first, more.as_slice())?;
        standing.give_back(more.as_slice(), &mut advisers.brancher);
        if let Some(conflict) = end {
            return Ok(Descent::Conflict(Some(conflict)));
        }
    }
}
