//! Terms looked up by their variables: they stand in order of these, so that no other terms are passed over.

ghost use Rattle.std.specs.Prelude.{◌≡◌, ◌≤◌, Bool, MatchOption, length, drop};
ghost use Rattle.normal_form.specs.Normal.{Rises, coefficient, only, sum_over};
ghost use Rattle.substitution.specs.Part.{IsTermOf};

use normal_form::{Normal, NormalTerm};

/// The first place whose variable is not below this one.
pub(crate) fn place_of(constraint: &Normal, variable: u32) -> usize
    ensures within { result ≤ length constraint.now.terms }
    ensures ahead { Rises variable (drop result constraint.now.terms) }
    ensures passed { (s : Bool) → coefficient constraint.now variable s ≡ sum_over (only variable s) (drop result constraint.now.terms) }
{
    let mut low: usize = 0;
    let mut high = constraint.len();
    while low < high {
        let middle = low + (high - low) / 2;
        if constraint.term(middle).var.0 < variable {
            low = middle + 1;
        } else {
            high = middle;
        }
    }
    low
}

/// The term of a variable, if there is one.
pub(crate) fn term_of(constraint: &Normal, variable: u32) -> Option<NormalTerm>
    ensures { MatchOption result ((s : Bool) → coefficient constraint.now variable s ≡ 0) (IsTermOf constraint.now variable) }
{
    let place = place_of(constraint, variable);
    if place >= constraint.len() {
        return None;
    }
    let term = constraint.term(place);
    if term.var.0 != variable {
        return None;
    }
    Some(term)
}
