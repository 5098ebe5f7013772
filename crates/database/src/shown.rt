//! Whether a constraint is shown from the live ones and a few beside them: some constraint covers it, or its negation
//! beside all of them is refuted. A constraint of degree 0 is shown before any negation is made, which might not fit.
//! Propagation is asked before the live constraints are looked at one by one, since it costs what the negation touches and
//! shows most of what is written. What it does not show may be covered, by a constraint that shares literals with the wanted
//! one: those are asked, literal by literal, and no others. The database is asked, and never copied.

ghost use Rattle.std.specs.Prelude.{◌≡◌, ◌↔◌, ◌<◌, ◌++◌, ◌∷◌, [], Any, IfOk, IsTrue};
ghost use Rattle.std.specs.FinMap as map;
ghost use Rattle.propagate.specs.Chain.{IsRefuted};
ghost use Rattle.substitution.specs.Covering.{Covers};
ghost use Rattle.proof_rules.specs.Shown.{IsShown};
ghost use Rattle.database.specs.Covered.{HasContradiction, IsCoveredAt};

use super::database::Database;
use linear::Lit;
use normal_form::{Normal, negate_above_zero};
use propagate::Propagator;
use std::alloc::{AllocError, Global};
use substitution::covers;

/// Whether a constraint is shown from the live constraints and those beside them.
pub fn is_shown<P: Propagator>(
    alloc: Global,
    database: &mut Database<P>,
    beside: &mut Vec<Normal>,
    constraint: &Normal,
) -> Result<bool, AllocError>
    ensures same { database.new ≡ database.old }
    ensures beside { beside.new.items ≡ beside.old.items }
    ensures shown { IfOk result (λ yes. IsTrue yes ↔ IsShown (map.values database.old.live ++ beside.old.items) constraint.now) }
{
    if constraint.degree() == 0 {
        return Ok(true);
    }
    if is_covered_by(beside.as_slice(), constraint) {
        return Ok(true);
    }
    let negation = negate_above_zero(alloc, constraint)?;
    if is_refuted_beside(database, beside, negation)? {
        return Ok(true);
    }
    is_covered(alloc, database, constraint)
}

/// Whether the live constraints are refuted with one more beside them.
fn is_refuted_with<P: Propagator>(
    database: &mut Database<P>,
    last: Normal,
) -> Result<bool, AllocError>
    ensures same { database.new ≡ database.old }
    ensures refuted { IfOk result (λ yes. IsTrue yes ↔ IsRefuted (map.values database.old.live ++ last ∷ [])) }
{
    let alone = [last];
    database.refute(&alone)
}

/// Whether the live constraints are refuted beside some others and one more. Outside blocks there are no others, and then no list
/// is made.
fn is_refuted_beside<P: Propagator>(
    database: &mut Database<P>,
    beside: &mut Vec<Normal>,
    last: Normal,
) -> Result<bool, AllocError>
    ensures same { database.new ≡ database.old }
    ensures beside { beside.new.items ≡ beside.old.items }
    ensures refuted { IfOk result (λ yes. IsTrue yes ↔ IsRefuted ((map.values database.old.live ++ beside.old.items) ++ last ∷ [])) }
{
    if beside.is_empty() {
        return is_refuted_with(database, last);
    }
    beside.push(last)?;
    let refuted = database.refute(beside.as_slice());
    beside.pop();
    Ok(refuted?)
}

/// Whether one of some constraints covers this one.
fn is_covered_by(constraints: &[Normal], constraint: &Normal) -> bool
    ensures { IsTrue result ↔ Any (λ e. Covers e constraint.now) constraints.now }
{
    for other in constraints {
        if covers(other, constraint) {
            return true;
        }
    }
    false
}

/// Whether a live constraint covers this one, where none is a contradiction by itself. One that is the same is found at once.
fn is_covered<P: Propagator>(
    alloc: Global,
    database: &mut Database<P>,
    constraint: &Normal,
) -> Result<bool, AllocError>
    requires degree { 0 < constraint.now.degree }
    requires consistent { HasContradiction (map.values database.old.live) → ⊥ }
    ensures same { database.new ≡ database.old }
    ensures covered { IfOk result (λ yes. IsTrue yes ↔ Any (λ e. Covers e constraint.now) (map.values database.old.live)) }
{
    if database.has_duplicate(constraint)? {
        return Ok(true);
    }
    is_covered_at_literals(alloc, database, constraint)
}

/// The same, by those that share literals with it. What a constraint has in common with one that it covers is worth at least the degree of
/// that one, so a few literals may be passed over: those of the first variables, which stand in most constraints as a rule, while those that
/// the proof itself has brought in come last.
fn is_covered_at_literals<P: Propagator>(
    alloc: Global,
    database: &mut Database<P>,
    constraint: &Normal,
) -> Result<bool, AllocError>
    requires degree { 0 < constraint.now.degree }
    requires consistent { HasContradiction (map.values database.old.live) → ⊥ }
    ensures same { database.new ≡ database.old }
    ensures covered { IfOk result (λ yes. IsTrue yes ↔ Any (λ e. Covers e constraint.now) (map.values database.old.live)) }
{
    let mut place = constraint.len();
    let mut unasked = constraint.sum();
    while unasked >= constraint.degree() {
        place -= 1;
        let term = constraint.term(place);
        if is_covered_at(alloc, database, term.literal(), constraint)? {
            return Ok(true);
        }
        unasked -= term.coef;
    }
    Ok(false)
}

/// Whether a live constraint that has a literal covers this one.
fn is_covered_at<P: Propagator>(
    alloc: Global,
    database: &mut Database<P>,
    literal: Lit,
    constraint: &Normal,
) -> Result<bool, AllocError>
    ensures same { database.new ≡ database.old }
    ensures covered { IfOk result (λ yes. IsTrue yes ↔ IsCoveredAt (map.values database.old.live) literal constraint.now) }
{
    let mut ids = database.having(alloc, literal)?;
    while let Some(id) = ids.pop_first() {
        if database.is_covering(id, constraint) {
            return Ok(true);
        }
    }
    Ok(false)
}
