//! What an assignment of literals extends to.
//!
//! The trail has what is given and what is forced with it, in whatever order they came: each chain from what is given
//! alone reaches what is there, so that the walk ends where a walk from the given literals would.

ghost use Rattle.std.specs.Prelude.{◌≡◌, IfOk};
ghost use Rattle.propagate.specs.Reach.{IsReach};
ghost use Rattle.watch.specs.Keeping.{IsKept};
ghost use Rattle.ledger.specs.Ledgers.{shown};

use super::following::follow;
use super::levels::Levels;
use ledger::{Ledger, Queue};
use linear::{Lit, Seq};
use propagate::Reach;
use std::alloc::{AllocError, Global};

/// What given literals extend to, followed from where they part from those before.
pub(crate) fn reach_over(
    alloc: Global,
    ledger: &mut Ledger,
    queue: &mut Queue,
    levels: &mut Levels,
    given: &[Lit],
) -> Result<Reach, AllocError>
    requires kept { IsKept ledger.old levels.old queue.old.0 queue.old.1 }
    ensures slots { ledger.new.slots ≡ ledger.old.slots }
    ensures kept { IsKept ledger.new levels.new queue.new.0 queue.new.1 }
    ensures value { IfOk result (IsReach (shown ledger.old.slots) given.now) }
{
    let assumed = follow(alloc, ledger, queue, levels, given)?;
    ledger.reveal();
    if !assumed.is_whole() {
        return Ok(Reach::Conflict);
    }
    Ok(Reach::Closed(Seq::from_vec(Vec::from_slice(alloc, ledger.literals())?)))
}
