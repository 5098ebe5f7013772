//! The walk back over the forced literals.
//!
//! What the walk has begins with the conflict, and has negative slack under the literals before the place that it has come to. As
//! long as it says nothing sooner, its latest false literal goes: the reason of the opposite, reduced, is added so often that the
//! two cancel. The walk ends at the first constraint that bites under fewer decisions than are open. To walk on would still
//! derive something; but what it learns then is weaker, and a search that did so needed ten times the conflicts on coverings.

ghost use Rattle.std.specs.Prelude.{ℕ, ◌≡◌, ◌<◌, ◌≤◌, pos, Some, IfOk, IfSome, MatchOption, OnOk, length};
ghost use Rattle.proof_rules.specs.Expression.{Given, IsPostfixOf};
ghost use Rattle.proof_rules.specs.State.{constraint_of};
ghost use Rattle.analysis.specs.Biting.{BitesAt, greatest_level};
ghost use Rattle.analysis.specs.Lines.{BeginsWith, GoesOnFrom};

use super::analysis::Analyser;
use super::derivation::Derivation;
use super::learned::Learned;
use super::level::{LeastLevel, bites_before_last, least_level};
use super::reduction::{coefficient_of, reduced};
use super::search_trail::SearchTrail;
use super::size::Size;
use super::stop::Stop;
use accumulate::Accumulator;
use kernel::Kernel;
use linear::{Lit, Seq};
use normal_form::Normal;
use propagate::{Id, Propagator};
use std::alloc::Global;
use std::mem;

/// A literal of a constraint that is false since a place on the trail, by its coefficient.
#[derive(Clone, Copy, Debug)]
struct Falsified {
    place: usize,
    coef: u128,
}

/// The coefficient of a literal in a sum.
fn coefficient_in(sum: &Accumulator, literal: Lit) -> u128 {
    let net = sum.net(literal.var);
    if (net < 0) == literal.negated {
        net.unsigned_abs()
    } else {
        0
    }
}

/// The literal of a sum that became false last before a place.
fn latest_false(sum: &Accumulator, trail: &SearchTrail, before: usize) -> Option<Falsified>
    requires { before ≤ length trail.now.entries }
    ensures { IfSome result (λ at. at.place < before) }
{
    let mut place = before;
    while place > 0 {
        place -= 1;
        let coef = coefficient_in(sum, trail.entry(place).literal.opposite());
        if coef > 0 {
            return Some(Falsified { place, coef });
        }
    }
    None
}

/// Begins with the conflict.
fn begin<'a, P: Propagator>(
    kernel: &Kernel<'a, P>,
    conflict: Id,
    analyser: &mut Analyser,
) -> Result<(), Stop>
    ensures begins { OnOk result (BeginsWith conflict analyser.new.resolvent.items.items) }
    ensures derived { OnOk result (IsPostfixOf (constraint_of kernel.now.state) analyser.new.resolvent.items.items analyser.new.resolvent.sum) }
{
    let Some(constraint) = kernel.constraint(conflict) else {
        return Err(Stop::NothingLearned);
    };
    analyser.met.note(conflict, constraint)?;
    analyser.resolvent.begin(conflict, constraint)?;
    Ok(())
}

/// Adds the reason of the literal that made one of the sum's literals false, so often that the two cancel.
fn add_reason(
    alloc: Global,
    id: Id,
    reason: &Normal,
    trail: &SearchTrail,
    at: Falsified,
    analyser: &mut Analyser,
) -> Result<(), Stop>
    requires place { at.place < length trail.now.entries }
    ensures more { OnOk result (GoesOnFrom analyser.old.resolvent.items.items analyser.new.resolvent.items.items) }
    ensures derived { (given : Given) → IsPostfixOf given analyser.old.resolvent.items.items analyser.old.resolvent.sum → given (pos id) ≡ Some reason.now
        → OnOk result (IsPostfixOf given analyser.new.resolvent.items.items analyser.new.resolvent.sum) }
{
    let literal = trail.entry(at.place).literal;
    if at.coef == 1 && coefficient_of(reason, literal) == 1 {
        analyser.met.note(id, reason)?;
        return Ok(analyser.resolvent.add_cited(id, reason)?);
    }
    let cited = Derivation::cited(alloc, id, reason)?;
    let even = reduced(alloc, cited, literal, trail, at.place, &mut analyser.aside)?;
    analyser.met.note(id, &even.constraint)?;
    let cancelling = even.multiplied(alloc, at.coef)?;
    Ok(analyser.resolvent.add(cancelling)?)
}

/// Resolves what the walk has with the reason of the literal that made one of its literals false.
fn resolve<'a, P: Propagator>(
    alloc: Global,
    kernel: &Kernel<'a, P>,
    trail: &SearchTrail,
    at: Falsified,
    analyser: &mut Analyser,
) -> Result<(), Stop>
    requires place { at.place < length trail.now.entries }
    requires derived { IsPostfixOf (constraint_of kernel.now.state) analyser.old.resolvent.items.items analyser.old.resolvent.sum }
    ensures more { OnOk result (GoesOnFrom analyser.old.resolvent.items.items analyser.new.resolvent.items.items) }
    ensures derived { OnOk result (IsPostfixOf (constraint_of kernel.now.state) analyser.new.resolvent.items.items analyser.new.resolvent.sum) }
{
    let Some(id) = trail.entry(at.place).reason else {
        return Err(Stop::NothingLearned);
    };
    let Some(reason) = kernel.constraint(id) else {
        return Err(Stop::NothingLearned);
    };
    add_reason(alloc, id, reason, trail, at, analyser)?;
    analyser.resolvent.saturate()?;
    analyser.resolvent.shrink(alloc, trail, at.place)?;
    Ok(())
}

/// What the walk has, where it bites under fewer decisions than are open.
fn learn(
    alloc: Global,
    trail: &SearchTrail,
    decisions: u32,
    analyser: &mut Analyser,
) -> Result<Option<Learned>, Stop>
    ensures begins { (id : ℕ) → BeginsWith id analyser.old.resolvent.items.items
        → IfOk result (λ found. MatchOption found (BeginsWith id analyser.new.resolvent.items.items) (λ l. BeginsWith id l.items)) }
    ensures derived { (given : Given) → IsPostfixOf given analyser.old.resolvent.items.items analyser.old.resolvent.sum
        → IfOk result (λ found. MatchOption found (IsPostfixOf given analyser.new.resolvent.items.items analyser.new.resolvent.sum) (λ l. IsPostfixOf given l.items l.constraint)) }
    ensures biting { IfOk result (λ found. IfSome found (λ l. BitesAt trail.now.entries l.level l.constraint)) }
    ensures lower { IfOk result (λ found. IfSome found (λ l. l.level < decisions)) }
{
    let sum = &analyser.resolvent.sum;
    if !bites_before_last(sum, trail, decisions, &mut analyser.seen)? {
        return Ok(None);
    }
    let constraint = analyser.resolvent.sum.take(alloc)?;
    let Some(least) = least_level(alloc, &constraint, trail, decisions)? else {
        analyser.resolvent.sum.load(&constraint)?;
        return Ok(None);
    };
    let LeastLevel { level, levels } = least;
    let literals = constraint.len();
    analyser.met.note_learned(Size { literals, levels });
    let items = mem::replace(&mut analyser.resolvent.items, Vec::new(alloc));
    Ok(Some(Learned {
        items: Seq::from_vec(items),
        constraint,
        level,
    }))
}

/// What the constraint of an id, which has negative slack under a trail, comes to on the walk.
pub(crate) fn walk<'a, P: Propagator>(
    alloc: Global,
    kernel: &Kernel<'a, P>,
    trail: &SearchTrail,
    conflict: Id,
    analyser: &mut Analyser,
) -> Result<Learned, Stop>
    ensures begins { IfOk result (λ l. BeginsWith conflict l.items) }
    ensures derived { IfOk result (λ l. IsPostfixOf (constraint_of kernel.now.state) l.items l.constraint) }
    ensures biting { IfOk result (λ l. BitesAt trail.now.entries l.level l.constraint) }
    ensures lower { IfOk result (λ l. l.level < greatest_level trail.now.entries) }
{
    let decisions = trail.open_decisions();
    begin(kernel, conflict, analyser)?;
    let mut before = trail.len();
    loop {
        if let Some(learned) = learn(alloc, trail, decisions, analyser)? {
            return Ok(learned);
        }
        let Some(at) = latest_false(&analyser.resolvent.sum, trail, before) else {
            return Err(Stop::NothingLearned);
        };
        before = at.place;
        resolve(alloc, kernel, trail, at, analyser)?;
    }
}
