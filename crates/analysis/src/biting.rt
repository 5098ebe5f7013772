//! Whether a constraint would have said something sooner.

ghost use Rattle.std.specs.Prelude.{◌≡◌, ◌+◌, ◌↔◌, IsTrue};
ghost use Rattle.linear.specs.declared.term.Lit.{Lit};
ghost use Rattle.normal_form.specs.Normal.{sum_over};
ghost use Rattle.propagate.specs.Slack.{IsForced, not_false};
ghost use Rattle.propagate.specs.Walk.{CanForce};
ghost use Rattle.analysis.specs.Biting.{BitesAt, literals_up_to};

use super::search_trail::SearchTrail;
use super::slack::slack;
use linear::Lit;
use normal_form::Normal;

/// Whether a literal with this coefficient is forced where the slack is this.
fn is_forced(trail: &SearchTrail, level: u32, literal: Lit, coef: u128, slack: u128) -> bool
    ensures { IsTrue result ↔ CanForce (literals_up_to level trail.now.entries) slack coef literal }
{
    coef > slack
        && !trail.is_true_at(literal, level)
        && !trail.is_true_at(literal.opposite(), level)
}

/// Whether a constraint forces a literal where its slack is this.
fn forces(constraint: &Normal, trail: &SearchTrail, level: u32, slack: u128) -> bool
    requires { sum_over (not_false (literals_up_to level trail.now.entries)) constraint.now.terms ≡ constraint.now.degree + slack }
    ensures { IsTrue result ↔ (l : Lit) × IsForced (literals_up_to level trail.now.entries) l constraint.now }
{
    for place in 0..constraint.len() {
        let term = constraint.term(place);
        if is_forced(trail, level, term.literal(), term.coef, slack) {
            return true;
        }
    }
    false
}

/// Whether a constraint has negative slack or forces a literal under the literals up to a level.
pub(crate) fn bites(constraint: &Normal, trail: &SearchTrail, level: u32) -> bool
    ensures { IsTrue result ↔ BitesAt trail.now.entries level constraint.now }
{
    match slack(constraint, trail, level) {
        Some(slack) => forces(constraint, trail, level, slack),
        None => true,
    }
}
