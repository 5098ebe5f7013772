//! Chains from given literals, with reasons, beside what is kept.

ghost use Rattle.std.specs.Prelude.{◌≡◌, IfOk, MatchOption, Some};
ghost use Rattle.propagate.specs.Literals.{IsConsistent};
ghost use Rattle.watch.specs.Keeping.{IsKept, falsified_place};
ghost use Rattle.ledger.specs.Ledgers.{shown};
ghost use Rattle.watch.specs.Steps.{IsFound};

use super::assumed::Assumed;
use super::chain::Chain;
use super::following::follow;
use super::levels::Levels;
use super::telling::{marks_of, tell_all};
use ledger::{Ledger, Queue};
use linear::Lit;
use std::alloc::{AllocError, Global};

/// The chain that is told, and where it is not falsified, what is falsified behind it.
fn with_end(told: Chain, falsified: Option<usize>) -> Chain
    ensures steps { result.steps.items ≡ told.steps.items }
    ensures falsified { MatchOption told.falsified (result.falsified ≡ falsified) (λ place. result.falsified ≡ Some place) }
{
    match told.falsified {
        Some(_) => told,
        None => Chain {
            steps: told.steps,
            falsified,
        },
    }
}

/// The place of what is falsified where literals are assumed.
pub(crate) fn falsified_place(assumed: Assumed) -> Option<usize>
    ensures { result ≡ falsified_place assumed }
{
    match assumed {
        Assumed::Falsified(place) => Some(place),
        Assumed::Whole | Assumed::Clash => None,
    }
}

/// The chain from given literals, to a falsified constraint or to the end, followed from where they part from those
/// before.
pub(crate) fn chain_over(
    alloc: Global,
    ledger: &mut Ledger,
    queue: &mut Queue,
    levels: &mut Levels,
    given: &[Lit],
) -> Result<Chain, AllocError>
    requires kept { IsKept ledger.old levels.old queue.old.0 queue.old.1 }
    requires consistent { IsConsistent given.now }
    ensures slots { ledger.new.slots ≡ ledger.old.slots }
    ensures kept { IsKept ledger.new levels.new queue.new.0 queue.new.1 }
    ensures value { IfOk result (IsFound (shown ledger.old.slots) given.now) }
{
    let assumed = follow(alloc, ledger, queue, levels, given)?;
    let marks = marks_of(alloc, ledger.variable_count(), given)?;
    Ok(with_end(tell_all(alloc, ledger, &marks)?, falsified_place(assumed)))
}
