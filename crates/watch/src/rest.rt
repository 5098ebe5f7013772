//! Where nothing waited: how high the trail stood, and how many constraints there were.
//!
//! A question about the constraints alone, as one that comes before a block of a proof, ends with all of them quiet, and where it does is
//! noted. When what came since goes again, as at the end of the block, the trail is cut there, and those that were there are quiet
//! again: only what came since is looked at, and not each constraint that has a literal which is taken back.

ghost use Rattle.std.specs.Prelude.{◌≡◌, ◌≤◌, length, take};
ghost use Rattle.propagate.specs.Chain.{IsFixpoint};
ghost use Rattle.ledger.specs.Ledgers.{shown};
ghost use Rattle.watch.specs.Keeping.{IsKept};
ghost use Rattle.watch.specs.Looking.{AreLookedAt};
ghost use Rattle.watch.specs.Rests.{IsRest};

use super::following::{backtrack_to_level, queue_from};
use super::levels::Levels;
use super::walk::backtrack;
use ledger::{Ledger, Queue};
use normal_form::Normal;

/// A height of the trail, and how many constraints are quiet under what stands below it.
#[derive(Clone, Copy)]
pub(crate) struct Rest {
    pub(crate) height: usize,
    pub(crate) count: usize,
}

impl Rest {
    /// No constraint is known to be quiet.
    pub(crate) fn nothing() -> Rest
        ensures { result ≡ record { height = 0; count = 0 } }
    {
        Rest {
            height: 0,
            count: 0,
        }
    }
}

/// Notes that all constraints are quiet, where a question is about them alone.
pub(crate) fn note(ledger: &Ledger, rest: &mut Rest, extras: &[Normal])
    requires fixpoint { IsFixpoint (shown ledger.now.slots) ledger.now.assigned }
    requires propagated { ledger.now.propagated ≡ ledger.now.assigned }
    requires rest { IsRest (shown ledger.now.slots) ledger.now.propagated rest.old }
    ensures { IsRest (shown ledger.now.slots) ledger.now.propagated rest.new }
{
    if extras.is_empty() {
        *rest = Rest {
            height: ledger.len(),
            count: ledger.count(),
        };
    }
}

/// Takes back all that was given. Where something was, what was noted is forgotten.
pub(crate) fn backtrack_to_root(
    ledger: &mut Ledger,
    queue: &mut Queue,
    levels: &mut Levels,
    rest: &mut Rest,
)
    requires kept { IsKept ledger.old levels.old queue.old.0 queue.old.1 }
    requires rest { IsRest (shown ledger.old.slots) ledger.old.propagated rest.old }
    ensures slots { ledger.new.slots ≡ ledger.old.slots }
    ensures levels { levels.new ≡ (take 0 levels.old.0, take 0 levels.old.1, take 0 levels.old.2) }
    ensures kept { IsKept ledger.new levels.new queue.new.0 queue.new.1 }
    ensures rest { IsRest (shown ledger.new.slots) ledger.new.propagated rest.new }
{
    if levels.count() == 0 {
        return;
    }
    backtrack_to_level(ledger, queue, levels, 0);
    *rest = Rest::nothing();
}

/// Takes back what stands above a rest. What came since waits.
pub(crate) fn backtrack_to_rest(ledger: &mut Ledger, queue: &mut Queue, rest: Rest)
    requires rest { IsRest (shown ledger.old.slots) ledger.old.propagated rest }
    requires low { rest.height ≤ length ledger.old.assigned }
    requires places { queue.old.1 ≡ length ledger.old.slots }
    ensures slots { ledger.new.slots ≡ ledger.old.slots }
    ensures assigned { ledger.new.assigned ≡ take rest.height ledger.old.assigned }
    ensures reasons { ledger.new.reasons ≡ take rest.height ledger.old.reasons }
    ensures places { queue.new.1 ≡ queue.old.1 }
    ensures looked_at { AreLookedAt (shown ledger.old.slots) ledger.new.propagated queue.new.0 }
    ensures rest { IsRest (shown ledger.old.slots) ledger.new.propagated rest }
{
    backtrack(ledger, rest.height);
    queue.clear(ledger.count());
    queue_from(ledger, queue, rest.count);
}
