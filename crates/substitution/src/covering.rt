//! Covering: whether one constraint shows another without more ado.
//!
//! What a proof of the VeriPB format asks to be shown is often there already: a `rup` or a lower bound that repeats or
//! weakens a live constraint, or a goal of a redundance step, under a substitution that does not touch it. It needs no
//! propagation: what the one has more than the other at its literals can be given up by weakening, each coefficient at
//! the price of as much degree. Terms rise by variable on both sides, so one pass over both is enough, and the excess is
//! at most the coefficient sum, so it never leaves its type. Where one of the two is far longer, its coefficients are looked up: else a
//! constraint of all variables would be passed over for each short one that is wanted beside it.

ghost use Rattle.std.specs.Prelude.{◌≡◌, ◌≤◌, ◌↔◌, ℕ, Bool, IsTrue, length, drop};
ghost use Rattle.linear.specs.Valuation.{Valuation};
ghost use Rattle.normal_form.specs.Normal.{Holds, Rises, coefficient, largest_sum, only, sum_over};
ghost use Rattle.substitution.specs.Covering.{Covers, excess};

use super::lookup::place_of;
use linear::Var;
use normal_form::{Normal, NormalTerm};

/// A constraint that has more than so many terms for each of another is not passed over beside that: its coefficients are looked up.
const TERMS_FOR_EACH_LOOK_UP: usize = 16;

/// The first place, from one on, whose variable is not below this one.
fn first_from(constraint: &Normal, from: usize, variable: Var) -> usize
    requires { from ≤ length constraint.now.terms }
    ensures within { result ≤ length constraint.now.terms }
    ensures ahead { Rises (variable.0) (drop result constraint.now.terms) }
    ensures passed { (v : ℕ) (s : Bool) → variable.0 ≤ v
        → sum_over (only v s) (drop from constraint.now.terms) ≡ sum_over (only v s) (drop result constraint.now.terms) }
{
    let mut place = from;
    while place < constraint.len() && constraint.term(place).var.0 < variable.0 {
        place += 1;
    }
    place
}

/// The coefficient of a term's literal among the terms from a place on, none of which has a lower variable.
fn coefficient_from(constraint: &Normal, place: usize, term: NormalTerm) -> u128
    requires { Rises (term.var.0) (drop place constraint.now.terms) }
    ensures { result ≡ sum_over (only (term.var.0) term.negated) (drop place constraint.now.terms) }
{
    if place >= constraint.len() {
        return 0;
    }
    let found = constraint.term(place);
    if found.var.0 != term.var.0 {
        return 0;
    }
    if found.negated != term.negated {
        return 0;
    }
    found.coef
}

/// The coefficient of a term's literal in a constraint, looked up.
fn coefficient_of(constraint: &Normal, term: NormalTerm) -> u128
    ensures { result ≡ coefficient constraint.now (term.var.0) term.negated }
{
    coefficient_from(constraint, place_of(constraint, term.var.0), term)
}

/// What a constraint has at its literals more than another, a look-up for each of its terms.
fn excess_of(constraint: &Normal, other: &Normal) -> u128
    ensures value { result ≡ excess constraint.now other.now }
    ensures small { result ≤ largest_sum }
{
    let mut excess: u128 = 0;
    for index in 0..constraint.len() {
        let term = constraint.term(index);
        excess += term.coef.saturating_sub(coefficient_of(other, term));
    }
    excess
}

/// Whether a constraint covers a longer one, by its own terms.
fn covers_longer(constraint: &Normal, other: &Normal) -> bool
    ensures { IsTrue result ↔ Covers constraint.now other.now }
{
    other.degree() + excess_of(constraint, other) <= constraint.degree()
}

/// Whether a constraint covers a shorter one, by the terms of that: what the one has more than the other, less what the other has more than
/// it, is the difference of their coefficient sums.
fn covers_shorter(constraint: &Normal, other: &Normal) -> bool
    ensures { IsTrue result ↔ Covers constraint.now other.now }
{
    other.degree() + constraint.sum() + excess_of(other, constraint)
        <= constraint.degree() + other.sum()
}

/// Whether a constraint covers another, by one pass over both: it ends where the first literals say no, as they do for most of a
/// database.
fn covers_in_one_pass(constraint: &Normal, other: &Normal) -> bool
    requires { other.now.degree ≤ constraint.now.degree }
    ensures { IsTrue result ↔ Covers constraint.now other.now }
{
    let allowed = constraint.degree() - other.degree();
    let mut excess: u128 = 0;
    let mut place: usize = 0;
    for index in 0..constraint.len() {
        let term = constraint.term(index);
        place = first_from(other, place, term.var);
        excess += term
            .coef
            .saturating_sub(coefficient_from(other, place, term));
        if excess > allowed {
            return false;
        }
    }
    true
}

/// Whether a constraint is so much longer than another that its terms are sooner looked up than passed over.
fn is_far_longer(constraint: &Normal, other: &Normal) -> bool {
    constraint.len() / TERMS_FOR_EACH_LOOK_UP > other.len()
}

/// Whether a constraint covers another of no greater degree, by the way that costs less.
fn covers_by_terms(constraint: &Normal, other: &Normal) -> bool
    requires { other.now.degree ≤ constraint.now.degree }
    ensures { IsTrue result ↔ Covers constraint.now other.now }
{
    if is_far_longer(other, constraint) {
        return covers_longer(constraint, other);
    }
    if is_far_longer(constraint, other) {
        return covers_shorter(constraint, other);
    }
    covers_in_one_pass(constraint, other)
}

/// Whether a constraint covers another: what it has more at its literals adds up to at most its degree less that
/// of the other. It costs what the shorter of the two has, and nothing is allocated; most of a database has too small a degree,
/// or ends at its first literals.
pub fn covers(constraint: &Normal, other: &Normal) -> bool
    ensures exact { IsTrue result ↔ Covers constraint.now other.now }
    ensures holds { IsTrue result → (a : Valuation) → Holds a constraint.now → Holds a other.now }
{
    if constraint.degree() < other.degree() {
        return false;
    }
    covers_by_terms(constraint, other)
}
