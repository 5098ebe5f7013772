//! Two literals for a clause to be watched by as it comes: those that are still open, and of those that fell the last ones.

ghost use Rattle.std.specs.Prelude.{◌≡◌, ◌<◌, ◌≤◌, ◌⊎◌, ℕ, false, IfSome, IsTrue, length, slice_index_or, take};
ghost use Rattle.normal_form.specs.declared.term.NormalTerm.{NormalTerm};
ghost use Rattle.normal_form.specs.Normal.{variable_bound};
ghost use Rattle.ledger.specs.Watched.{IsClause, IsPairOf, Outlasts, OutlastsTerm, Tell};

use super::pair::Pair;
use linear::Lit;
use normal_form::Normal;
use trail::Assignment;

/// Whether any one of its literals satisfies a constraint. One that asks for no more than 1 need not be looked through.
fn is_clause(constraint: &Normal) -> bool
    ensures { IsTrue result → IsClause constraint.now }
{
    if constraint.degree() <= 1 {
        return true;
    }
    for index in 0..constraint.len() {
        if constraint.term(index).coef < constraint.degree() {
            return false;
        }
    }
    true
}

/// Whether a literal stays open as long as another one, while the literals that were propagated came.
fn outlasts(trail: &Assignment, literal: Lit, other: Lit) -> bool
    requires literal { literal.var.0 < trail.now.1 }
    requires other { other.var.0 < trail.now.1 }
    ensures yes { IsTrue result → Outlasts trail.now.0 literal other }
    ensures no { result ≡ false → Outlasts trail.now.0 other literal }
{
    if !trail.has_propagated(literal.opposite()) {
        return true;
    }
    if !trail.has_propagated(other.opposite()) {
        return false;
    }
    trail.position(other.var.0 as usize) <= trail.position(literal.var.0 as usize)
}

/// Of two terms the one whose literal stays open longer.
fn later_of(constraint: &Normal, trail: &Assignment, one: usize, other: usize) -> usize
    requires variables { variable_bound constraint.now.terms ≤ trail.now.1 }
    requires one { one < length constraint.now.terms }
    requires other { other < length constraint.now.terms }
    ensures either { (result ≡ one) ⊎ (result ≡ other) }
    ensures one { OutlastsTerm trail.now.0 constraint.now.terms result one }
    ensures other { OutlastsTerm trail.now.0 constraint.now.terms result other }
{
    let first = constraint.term(one).literal();
    let second = constraint.term(other).literal();
    if outlasts(trail, first, second) {
        one
    } else {
        other
    }
}

/// Whether the literal of a term is open: then it stays open as long as any other.
fn is_open_at(constraint: &Normal, trail: &Assignment, index: usize) -> bool
    requires variables { variable_bound constraint.now.terms ≤ trail.now.1 }
    requires index { index < length constraint.now.terms }
    ensures { IsTrue result → (k : ℕ) → OutlastsTerm trail.now.0 constraint.now.terms index k }
{
    !trail.has_propagated(constraint.term(index).literal().opposite())
}

/// Of the terms but for one, that whose literal stays open longest. Where one is open, the others behind it are not looked at.
fn latest_but(constraint: &Normal, trail: &Assignment, excluded: usize) -> usize
    requires variables { variable_bound constraint.now.terms ≤ trail.now.1 }
    requires two { 2 ≤ length constraint.now.terms }
    ensures there { result < length constraint.now.terms }
    ensures apart { result ≡ excluded → ⊥ }
    ensures latest { (k : ℕ) → k < length constraint.now.terms → (k ≡ excluded → ⊥) → OutlastsTerm trail.now.0 constraint.now.terms result k }
{
    let mut latest = if excluded == 0 { 1 } else { 0 };
    for index in 0..constraint.len() {
        if is_open_at(constraint, trail, latest) {
            return latest;
        }
        if index != excluded {
            latest = later_of(constraint, trail, latest, index);
        }
    }
    latest
}

/// Two literals by which a constraint can be watched, if it is a clause of two literals or more that asks for one: those that stay
/// open longest while the literals that were propagated come, so that under each beginning of those the two tell of it.
pub(crate) fn latest_pair(constraint: &Normal, trail: &Assignment) -> Option<Pair>
    requires { variable_bound constraint.now.terms ≤ trail.now.1 }
    ensures { IfSome result (λ p. IsPairOf constraint.now p × ((h : ℕ) → Tell (take h trail.now.0) constraint.now p)) }
{
    if constraint.len() < 2 {
        return None;
    }
    if constraint.degree() == 0 {
        return None;
    }
    if !is_clause(constraint) {
        return None;
    }
    let first = latest_but(constraint, trail, constraint.len());
    let second = latest_but(constraint, trail, first);
    Some(Pair {
        first: constraint.term(first).literal(),
        second: constraint.term(second).literal(),
    })
}
