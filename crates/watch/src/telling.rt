//! The trail told as a chain from what is given.
//!
//! What the constraints force from nothing stands below the given literals on the trail, but is told behind them.
//! There each literal is forced still, by the same constraint; or it is given itself, and is left out; or its
//! opposite is given, and then its constraint is falsified, and the chain ends.

ghost use Rattle.std.specs.Prelude.{◌≡◌, ◌+◌, ◌<◌, ◌≤◌, ◌++◌, ◌∷◌, [], All, IfOk, MatchOption, length, take};
ghost use Rattle.propagate.specs.Literals.{IsConsistent, SameLiterals};
ghost use Rattle.ledger.specs.Ledgers.{shown};
ghost use Rattle.watch.specs.Steps.{AreGiven, IsTold, IsToldTo, LeadsTo};

use super::chain::{Chain, Step};
use ledger::Ledger;
use linear::Lit;
use propagate::Trail;
use std::alloc::{AllocError, Global};

/// Lists a literal unless it is listed.
fn mark(marks: &mut Trail, literal: Lit)
    requires variable { literal.var.0 < marks.old.1 }
    requires consistent { IsConsistent (marks.old.0 ++ literal ∷ []) }
    ensures count { marks.new.1 ≡ marks.old.1 }
    ensures same { SameLiterals marks.new.0 (marks.old.0 ++ literal ∷ []) }
{
    if !marks.has(literal) {
        marks.push(literal);
    }
}

/// Given literals, to be looked up, of the variables below a number.
pub(crate) fn marks_of(alloc: Global, count: usize, given: &[Lit]) -> Result<Trail, AllocError>
    requires variables { All (λ l. l.var.0 < count) given.now }
    requires consistent { IsConsistent given.now }
    ensures count { IfOk result (λ marks. count ≤ marks.1) }
    ensures same { IfOk result (λ marks. SameLiterals marks.0 given.now) }
{
    let mut marks = Trail::new(alloc);
    marks.widen(count)?;
    for literal in given {
        mark(&mut marks, *literal);
    }
    Ok(marks)
}

/// Tells one literal of the trail more; the place of its constraint where that is falsified.
fn tell(
    ledger: &Ledger,
    given: &Trail,
    index: usize,
    steps: &mut Vec<Step>,
) -> Result<Option<usize>, AllocError>
    requires index { index < length ledger.now.assigned }
    requires wide { ledger.now.variables ≤ given.now.1 }
    requires given { AreGiven ledger.now.assigned ledger.now.reasons given.now.0 }
    requires told { IsTold (shown ledger.now.slots) given.now.0 (take index ledger.now.assigned) steps.old.items }
    ensures { IfOk result (λ falsified. MatchOption falsified
        (IsTold (shown ledger.now.slots) given.now.0 (take (index + 1) ledger.now.assigned) steps.new.items)
        (LeadsTo (shown ledger.now.slots) given.now.0 steps.new.items)) }
{
    ledger.reveal();
    given.reveal();
    let literal = ledger.literals()[index];
    if given.has(literal) {
        return Ok(None);
    }
    let Some(place) = ledger.reason(index) else {
        unreachable!()
    };
    if given.has(literal.opposite()) {
        return Ok(Some(place));
    }
    steps.push(Step { literal, place })?;
    Ok(None)
}

/// Tells the trail, as far as to a constraint that is falsified.
pub(crate) fn tell_all(alloc: Global, ledger: &Ledger, given: &Trail) -> Result<Chain, AllocError>
    requires wide { ledger.now.variables ≤ given.now.1 }
    requires given { AreGiven ledger.now.assigned ledger.now.reasons given.now.0 }
    ensures { IfOk result (IsToldTo (shown ledger.now.slots) given.now.0 ledger.now.assigned) }
{
    let mut steps = Vec::new(alloc);
    for index in 0..ledger.len() {
        let falsified = tell(ledger, given, index, &mut steps)?;
        if falsified.is_some() {
            return Ok(Chain { steps, falsified });
        }
    }
    Ok(Chain {
        steps,
        falsified: None,
    })
}
