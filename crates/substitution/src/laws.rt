//! Laws of the definitions, each the contract of a function that does nothing.

ghost use Rattle.std.specs.Prelude.{◌≡◌, ◌<◌, ◌≤◌, ◌↔◌, ◌≤ℤ◌, List, []};
ghost use Rattle.linear.specs.Sum.{sum_of};
ghost use Rattle.linear.specs.Valuation.{Valuation};
ghost use Rattle.linear.specs.declared.term.Term.{Term};
ghost use Rattle.normal_form.specs.Normal.{NormalConstraint, Holds, Rises, total};
ghost use Rattle.substitution.specs.Covering.{Covers};
ghost use Rattle.substitution.specs.Images.{Images, after};
ghost use Rattle.substitution.specs.Objective.{IsObjectiveGoal};
ghost use Rattle.substitution.specs.Under.{IsUnder, IsUntouched};

/// A constraint under a substitution holds exactly where the constraint holds after it, all images read at the
/// same assignment.
pub fn under_meaning()
    ensures { (n r : NormalConstraint) → (images : Images) → IsUnder n images r
        → (a : Valuation) → Holds a r ↔ Holds (after a images) n }
{}

/// With unbounded numbers a constraint has exactly one form under a substitution.
pub fn one_under()
    ensures { (n : NormalConstraint) → (images : Images)
        → (r : NormalConstraint) × IsUnder n images r × ((q : NormalConstraint) → IsUnder n images q → q ≡ r) }
{}

/// A constraint without a variable that is given an image is itself under the substitution, and so covered by itself.
pub fn under_untouched()
    ensures itself { (n : NormalConstraint) → (images : Images) → Rises 0 n.terms → IsUntouched n images → IsUnder n images n }
    ensures covered { (n r : NormalConstraint) → (images : Images) → Rises 0 n.terms → IsUntouched n images → IsUnder n images r
        → Covers n r }
{}

/// Neither the coefficient sum nor the degree grows under a substitution.
pub fn under_no_larger()
    ensures sum { (n r : NormalConstraint) → (images : Images) → IsUnder n images r → total r.terms ≤ total n.terms }
    ensures degree { (n r : NormalConstraint) → (images : Images) → IsUnder n images r → r.degree ≤ n.degree }
{}

/// The objective's goal holds exactly where the substitution does not raise the objective.
pub fn objective_meaning()
    ensures { (objective : List Term) → (goal : NormalConstraint) → (images : Images) → IsObjectiveGoal objective images goal
        → (a : Valuation) → Holds a goal ↔ (sum_of (after a images) objective ≤ℤ sum_of a objective) }
{}

/// What a constraint covers holds wherever it does.
pub fn covered_holds()
    ensures { (e n : NormalConstraint) → Rises 0 e.terms → Covers e n → (a : Valuation) → Holds a e → Holds a n }
{}

/// A constraint covers itself.
pub fn covers_itself()
    ensures { (n : NormalConstraint) → Covers n n }
{}

/// `>= 1` without terms is covered exactly by a constraint whose degree exceeds its coefficient sum.
pub fn covers_falsity()
    ensures { (e n : NormalConstraint) → n.terms ≡ [] → n.degree ≡ 1 → Covers e n ↔ (total e.terms < e.degree) }
{}
