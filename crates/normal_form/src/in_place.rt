//! Lowering a constraint where it stands.
//!
//! Division and saturation make coefficients and the degree no greater, and keep the literals. Where nobody else has the constraint,
//! they need no new list: what is less fits where the greater stood, so no memory is taken and nothing can be refused.

ghost use Rattle.std.specs.Prelude.{◌≡◌, ◌<◌, ◌≤◌, [], length, slice_index_or};
ghost use Rattle.normal_form.specs.declared.term.NormalTerm.{NormalTerm};
ghost use Rattle.normal_form.specs.Terms.{with_coefficient};

use super::normal::Normal;

impl Normal {
    /// Gives the term at a place a coefficient above 0 that is no greater than it has.
    pub fn lower_coefficient(&mut self, place: usize, coef: u128)
        requires place { place < length self.old.terms }
        requires positive { 0 < coef }
        requires no_greater { (d : NormalTerm) → coef ≤ (slice_index_or self.old.terms place d).coef }
        ensures terms { self.new.terms ≡ with_coefficient self.old.terms place coef }
        ensures degree { self.new.degree ≡ self.old.degree }
    {
        let before = self.terms.get(place).coef;
        self.terms.lower(place, coef);
        self.coefficient_sum -= before - coef;
    }

    /// Gives it a degree that is no greater than it has.
    pub fn lower_degree(&mut self, degree: u128)
        requires { degree ≤ self.old.degree }
        ensures terms { self.new.terms ≡ self.old.terms }
        ensures degree { self.new.degree ≡ degree }
    {
        self.bound = degree;
    }

    /// Takes all terms away, as saturation does where the degree is 0.
    pub fn clear_terms(&mut self)
        ensures terms { self.new.terms ≡ [] }
        ensures degree { self.new.degree ≡ self.old.degree }
    {
        self.terms.clear();
        self.coefficient_sum = 0;
    }
}
