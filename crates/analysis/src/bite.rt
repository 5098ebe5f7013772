//! Where a constraint bites that no analysis came to, but an adviser.
//!
//! A search goes back to the least level at which such a constraint says something, as it does behind an analysis. There it has
//! negative slack, and an analysis begins with it; or it forces a literal, and has taught what a conflict teaches.

ghost use Rattle.std.specs.Prelude.{IfOk, IfSome};
ghost use Rattle.analysis.specs.Biting.{BitesAt};

use super::level::{LeastLevel, least_level};
use super::search_trail::SearchTrail;
use super::slack::slack;
use normal_form::Normal;
use std::alloc::{AllocError, Global};

/// The least level at which a constraint bites: it has negative slack there, or forces a literal.
#[derive(Clone, Copy, Debug, PartialEq, Eq)]
pub struct Bite {
    pub level: u32,
    pub is_falsified: bool,
    /// How many levels its set literals are of.
    pub levels: u32,
}

/// Where a constraint bites on a trail, if it does.
pub fn bite_on(
    alloc: Global,
    constraint: &Normal,
    trail: &SearchTrail,
) -> Result<Option<Bite>, AllocError>
    ensures { IfOk result (λ found. IfSome found (λ bite. BitesAt trail.now.entries bite.level constraint.now)) }
{
    let limit = trail.open_decisions().saturating_add(1);
    let Some(least) = least_level(alloc, constraint, trail, limit)? else {
        return Ok(None);
    };
    let LeastLevel { level, levels } = least;
    Ok(Some(Bite {
        level,
        is_falsified: slack(constraint, trail, level).is_none(),
        levels,
    }))
}
