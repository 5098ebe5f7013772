//! What an assignment extends to, told by the end of the trail, from where it parts from what is known.
//!
//! To see how much of the trail is known takes a look at each literal of it, but nothing is copied or named for those that stay.

ghost use Rattle.std.specs.Prelude.{◌≡◌, ◌≤◌, ◌++◌, IfOk, List, length, map, take};
ghost use Rattle.linear.specs.declared.term.Lit.{Lit};
ghost use Rattle.propagate.specs.declared.reach.Reach.{Reach};
ghost use Rattle.propagate.specs.Reach.{IsRetrace, reach_told};
ghost use Rattle.ledger.specs.Ledgers.{shown};
ghost use Rattle.watch.specs.Keeping.{IsKept};

use super::assumed::Assumed;
use super::following::follow;
use super::levels::Levels;
use ledger::{Ledger, Queue};
use linear::{Lit, Seq};
use propagate::{Extent, Id, Retrace};
use std::alloc::{AllocError, Global};

/// How many literals at the beginning of a trail are the first ones that are known.
fn known_count(trail: &[Lit], known: &[Lit]) -> usize
    ensures same { take result known.now ≡ take result trail.now }
    ensures short { result ≤ length trail.now }
{
    let end = trail.len().min(known.len());
    for index in 0..end {
        if trail[index] != known[index] {
            return index;
        }
    }
    end
}

/// The trail from an index on, each literal with the id of its reason, if it has one.
fn tell_from(
    alloc: Global,
    ledger: &Ledger,
    first: usize,
    ids: &[Id],
) -> Result<Vec<(Lit, Option<Id>)>, AllocError>
    requires { first ≤ length ledger.now.assigned }
    ensures { IfOk result (λ v. take first ledger.now.assigned ++ map (λ p. p.0) v.items ≡ ledger.now.assigned) }
{
    let literals = ledger.literals();
    let mut told = Vec::with_capacity(alloc, ledger.len() - first)?;
    for index in first..ledger.len() {
        let reason = match ledger.reason(index) {
            Some(place) => ids.get(place).copied(),
            None => None,
        };
        told.push((literals[index], reason))?;
    }
    Ok(told)
}

/// How far an assignment extends, where assuming its literals came to this.
fn extent_of(assumed: Assumed, ids: &[Id]) -> Extent
    ensures whole { assumed ≡ Assumed.Whole → result ≡ Extent.Closed }
    ensures conflict { (literals : List Lit) → (assumed ≡ Assumed.Whole → ⊥) → reach_told literals result ≡ Reach.Conflict }
{
    match assumed {
        Assumed::Whole => Extent::Closed,
        Assumed::Falsified(place) => match ids.get(place) {
            Some(id) => Extent::Falsified(*id),
            None => Extent::Clash,
        },
        Assumed::Clash => Extent::Clash,
    }
}

/// What given literals extend to, followed from where they part from those before, and told from where the trail parts from what is known.
pub(crate) fn retrace_over(
    alloc: Global,
    ledger: &mut Ledger,
    queue: &mut Queue,
    levels: &mut Levels,
    given: &[Lit],
    known: &[Lit],
    ids: &[Id],
) -> Result<Retrace, AllocError>
    requires kept { IsKept ledger.old levels.old queue.old.0 queue.old.1 }
    ensures slots { ledger.new.slots ≡ ledger.old.slots }
    ensures kept { IsKept ledger.new levels.new queue.new.0 queue.new.1 }
    ensures value { IfOk result (IsRetrace (shown ledger.old.slots) given.now known.now) }
{
    let assumed = follow(alloc, ledger, queue, levels, given)?;
    ledger.reveal();
    let kept = known_count(ledger.literals(), known);
    let rest = tell_from(alloc, ledger, kept, ids)?;
    Ok(Retrace {
        kept,
        rest: Seq::from_vec(rest),
        extent: extent_of(assumed, ids),
    })
}
