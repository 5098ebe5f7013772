//! The least level under which a constraint bites.
//!
//! From level to level downwards, the literals of a constraint that came onto the trail at the level are backtracked: what was
//! false counts again, and what was set can be forced again. One pass over the constraint's literals in the order of their levels
//! comes by every level there is. It only finds the level; that the constraint bites there is then computed from the definition.

ghost use Rattle.std.specs.Prelude.{◌<◌, ◌≤◌, IfOk, IfSome, length};
ghost use Rattle.analysis.specs.Biting.{BitesAt};

use super::biting::bites;
use super::search_trail::SearchTrail;
use super::seen::Seen;
use accumulate::Accumulator;
use linear::{Lit, Var};
use normal_form::{Normal, NormalTerm};
use std::alloc::{AllocError, Global};

/// What a literal of a constraint that is set has to do with the trail: the level since which it is set, and whether it is false since
/// then.
#[derive(Clone, Copy, Debug)]
struct Turn {
    level: u32,
    coef: u128,
    is_false: bool,
}

/// The turn of a term's literal, if that is set.
fn turn_of(term: NormalTerm, trail: &SearchTrail) -> Option<Turn> {
    let spot = trail.spot(term.var)?;
    Some(Turn {
        level: spot.level,
        coef: term.coef,
        is_false: spot.negated != term.negated,
    })
}

/// The turns of a constraint's set literals, the one of the greatest level last.
fn turns(alloc: Global, constraint: &Normal, trail: &SearchTrail) -> Result<Vec<Turn>, AllocError> {
    let mut turns = Vec::with_capacity(alloc, constraint.len())?;
    for place in 0..constraint.len() {
        if let Some(turn) = turn_of(constraint.term(place), trail) {
            turns.push(turn)?;
        }
    }
    turns.sort_by_key(|turn: &Turn| turn.level)?;
    Ok(turns)
}

/// What the literals that are not false add up to, and the greatest coefficient of an unset one. Sums are within 2^120, since
/// those of a constraint are.
#[derive(Clone, Copy, Debug)]
struct Sweep {
    sum: u128,
    unset: u128,
}

impl Sweep {
    /// Of no literal.
    fn new() -> Sweep {
        Sweep { sum: 0, unset: 0 }
    }

    /// Of a constraint's literals, under all that stand.
    fn under_all(constraint: &Normal, trail: &SearchTrail) -> Sweep {
        let level = trail.open_decisions();
        let mut sweep = Sweep::new();
        for place in 0..constraint.len() {
            let term = constraint.term(place);
            sweep = sweep.with(term.literal(), term.coef, trail, level);
        }
        sweep
    }

    fn taken_back(self, turn: Turn) -> Sweep {
        Sweep {
            sum: if turn.is_false {
                self.sum.saturating_add(turn.coef)
            } else {
                self.sum
            },
            unset: self.unset.max(turn.coef),
        }
    }

    /// With a literal of this coefficient, under the literals up to a level.
    fn with(self, literal: Lit, coef: u128, trail: &SearchTrail, level: u32) -> Sweep {
        match trail.spot(literal.var) {
            Some(spot) if spot.level <= level => Sweep {
                sum: if spot.negated == literal.negated {
                    self.sum.saturating_add(coef)
                } else {
                    self.sum
                },
                unset: self.unset,
            },
            _ => Sweep {
                sum: self.sum.saturating_add(coef),
                unset: self.unset.max(coef),
            },
        }
    }

    fn bites(self, degree: u128) -> bool {
        self.sum < degree.saturating_add(self.unset)
    }
}

/// The level that the turns before a place come up to.
fn level_before(turns: &[Turn], place: usize) -> u32
    requires { place ≤ length turns.now }
{
    if place == 0 {
        0
    } else {
        turns[place - 1].level
    }
}

/// The least level at which a constraint bites, whose turns come in the order of their levels, and which comes to this sweep under all that
/// stand.
fn least_biting(turns: &[Turn], under_all: Sweep, degree: u128) -> Option<u32> {
    let mut sweep = under_all;
    let mut place = turns.len();
    let mut least = if sweep.bites(degree) {
        Some(level_before(turns, place))
    } else {
        None
    };
    while place > 0 {
        place -= 1;
        sweep = sweep.taken_back(turns[place]);
        let level = level_before(turns, place);
        if level < turns[place].level && sweep.bites(degree) {
            least = Some(level);
        }
    }
    least
}

/// How many levels there are among turns in the order of their levels (the literal block distance: Audemard and Simon, 2009).
fn level_count(turns: &[Turn]) -> u32 {
    let mut count: u32 = 0;
    let mut last = None;
    for turn in turns {
        if last != Some(turn.level) {
            count = count.saturating_add(1);
            last = Some(turn.level);
        }
    }
    count
}

/// Where a constraint bites first.
#[derive(Clone, Copy, Debug, PartialEq, Eq)]
pub(crate) struct LeastLevel {
    /// The least level at which it bites.
    pub(crate) level: u32,
    /// How many levels its set literals are of.
    pub(crate) levels: u32,
}

/// A level below another at which a constraint bites, the least one, if there is any.
pub(crate) fn least_level(
    alloc: Global,
    constraint: &Normal,
    trail: &SearchTrail,
    decisions: u32,
) -> Result<Option<LeastLevel>, AllocError>
    ensures biting { IfOk result (λ found. IfSome found (λ least. BitesAt trail.now.entries least.level constraint.now)) }
    ensures lower { IfOk result (λ found. IfSome found (λ least. least.level < decisions)) }
{
    let turns = turns(alloc, constraint, trail)?;
    let under_all = Sweep::under_all(constraint, trail);
    let Some(level) = least_biting(&turns, under_all, constraint.degree()) else {
        return Ok(None);
    };
    if level < decisions && bites(constraint, trail, level) {
        let levels = level_count(&turns);
        return Ok(Some(LeastLevel { level, levels }));
    }
    Ok(None)
}

/// Whether a sum bites under one decision less than are open: most of what a walk comes by does not, which is seen without its literals in
/// order.
pub(crate) fn bites_before_last(
    sum: &Accumulator,
    trail: &SearchTrail,
    decisions: u32,
    seen: &mut Seen,
) -> Result<bool, AllocError> {
    let Some(level) = decisions.checked_sub(1) else {
        return Ok(false);
    };
    let mut sweep = Sweep::new();
    seen.begin();
    for number in sum.marks() {
        let variable = Var(*number);
        if seen.is_first(variable)? {
            let net = sum.net(variable);
            let literal = Lit {
                var: variable,
                negated: net < 0,
            };
            sweep = sweep.with(literal, net.unsigned_abs(), trail, level);
        }
    }
    Ok(sweep.bites(sum.degree()))
}
