//! What the two literals that watch a clause tell of it, without a look at its terms.

ghost use Rattle.std.specs.Prelude.{◌<◌};
ghost use Rattle.ledger.specs.Hints.{IsHintOf, IsHintWithin};

use super::pair::Pair;
use linear::Lit;
use trail::Assignment;

/// It is not falsified and forces nothing, or it forces a literal, or they do not tell.
#[derive(Clone, Copy, Debug)]
pub enum Hint {
    Quiet,
    Forces(Lit),
    Unknown,
}

/// What two literals tell: one is true or both are open, or one of them is false and the other one free, or both are false.
pub(crate) fn hint_of(trail: &Assignment, pair: Pair) -> Hint
    requires first { pair.first.var.0 < trail.now.1 }
    requires second { pair.second.var.0 < trail.now.1 }
    ensures value { IsHintOf trail.now.0 pair result }
    ensures within { IsHintWithin trail.now.1 result }
{
    if trail.has_propagated(pair.first) || trail.has_propagated(pair.second) {
        return Hint::Quiet;
    }
    let first_fell = trail.has_propagated(pair.first.opposite());
    let second_fell = trail.has_propagated(pair.second.opposite());
    if first_fell && second_fell {
        Hint::Unknown
    } else if first_fell {
        Hint::Forces(pair.second)
    } else if second_fell {
        Hint::Forces(pair.first)
    } else {
        Hint::Quiet
    }
}
