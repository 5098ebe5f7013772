//! The definitions computed on small constraints, each the contract of a function that does nothing.

ghost use Rattle.std.specs.Prelude.{◌^◌, [], ◌∷◌};
ghost use Rattle.proof_rules.specs.Cases.{decision, min_four, fifth_for_first, first_or_second, first_or_not_second, not_first_and_second};
ghost use Rattle.proof_rules.specs.Redundant.{Redundant, IsShownUnder, IsShownNotRaised};
ghost use Rattle.proof_rules.specs.Shown.{IsShown, absurdity};
ghost use Rattle.normal_form.specs.Cases.{plain, negated, normal};
ghost use Rattle.propagate.specs.Cases.{unit, unit_not, four_clauses, pigeons, weighted};
ghost use Rattle.substitution.specs.Cases.{swap, single, to_negated, to_plain, two_of_three, three_of_four_false, min_first};
ghost use Rattle.substitution.specs.Covering.{Covers};
ghost use Rattle.substitution.specs.Objective.{IsObjectiveGoal};
ghost use Rattle.substitution.specs.declared.image.Image.TheVariants.{Zero, One};

/// `1 x1 1 x2 1 x3 >= 2` is shown from itself: it is covered, and its negation forces nothing.
pub fn covered_by_itself()
    ensures { IsShown (two_of_three ∷ []) two_of_three }
{}

/// `1 x2 >= 1` is shown from `1 x1 1 x2 >= 1` and `1 ~x1 1 x2 >= 1`: its negation forces `~x2`, x1, and a conflict.
pub fn cases_of_one_variable_shown()
    ensures { IsShown (first_or_second ∷ normal (negated 1 1 ∷ plain 1 2 ∷ []) 1 ∷ []) (unit 2) }
{}

/// `3 x1 2 x2 1 x3 >= 4` shows `1 x1 >= 1` and not `1 x2 >= 1`.
pub fn weighted_shows_first()
    ensures first { IsShown (weighted ∷ []) (unit 1) }
    ensures second { IsShown (weighted ∷ []) (unit 2) → ⊥ }
{}

/// `1 ~x2 1 x3 >= 1 ; 1 ~x1 1 x2 >= 1 ; 1 x1 >= 1 ; 1 ~x3 >= 1` show `0 >= 1`: x1 is forced, then x2, then x3.
pub fn four_clauses_show_absurdity()
    ensures { IsShown four_clauses absurdity }
{}

/// That three pigeons do not fit into two holes is true, and not shown: nothing is forced.
pub fn pigeons_not_shown()
    ensures { IsShown pigeons absurdity → ⊥ }
{}

/// `2^120 ~x1 >= 0` is shown, though its negation is not within the limits, and `1 x1 1 x2 >= 1` does not cover it.
pub fn degree_zero_of_large_sum()
    ensures shown { IsShown (first_or_second ∷ []) (normal (negated (2 ^ 120) 1 ∷ []) 0) }
    ensures not_covered { Covers first_or_second (normal (negated (2 ^ 120) 1 ∷ []) 0) → ⊥ }
{}

/// `1 x1 1 ~x2 >= 1` is redundant beside `1 x1 1 x2 >= 1`, by the swap of x1 and x2: the one that is there stays as it
/// is, and the new one becomes `1 ~x1 1 x2 >= 1`, which the negation shows.
pub fn swap_is_redundant()
    ensures { Redundant decision (first_or_second ∷ []) swap first_or_not_second not_first_and_second }
{}

/// `1 ~x1 >= 1` with `x1 -> 0` is not redundant beside `1 x1 1 x2 >= 1`: that becomes `1 x2 >= 1`, which is not shown
/// from it and `1 x1 >= 1`.
pub fn live_goal_open()
    ensures { IsShownUnder (first_or_second ∷ unit 1 ∷ []) (single 1 Zero) first_or_second → ⊥ }
{}

/// `1 x1 >= 1` with `x1 -> ~x2` is not redundant beside `1 x1 1 x2 >= 1`: that cancels to degree 0, but the new one becomes
/// `1 ~x2 >= 1`, which is not shown from it and `1 ~x1 >= 1`.
pub fn own_goal_open()
    ensures live { IsShownUnder (first_or_second ∷ unit_not 1 ∷ []) (single 1 (to_negated 2)) first_or_second }
    ensures itself { IsShownUnder (first_or_second ∷ unit_not 1 ∷ []) (single 1 (to_negated 2)) (unit 1) → ⊥ }
{}

/// `1 x1 >= 1` with `x1 -> 1` raises the objective `min: 1 x1`: `1 x1 >= 1` is not shown from `1 ~x1 >= 1`.
pub fn objective_goal_open()
    ensures { IsShownNotRaised (unit_not 1 ∷ []) (single 1 One) min_first → ⊥ }
{}

/// For `min: 1 x1 1 x2 1 x3 1 x4` the substitution `x1 -> x5 x6 -> 1` must show `1 x1 1 ~x5 >= 1`: x2, x3 and x4 stay and
/// cancel, and x6 does not occur.
pub fn objective_goal_of_a_move()
    ensures { IsObjectiveGoal min_four fifth_for_first (normal (plain 1 1 ∷ negated 1 5 ∷ []) 1) }
{}

/// A new variable that is mapped to 1 makes its clause one of degree 0, which is shown.
pub fn new_variable_is_redundant()
    ensures { IsShownUnder (unit 1 ∷ []) (single 2 One) (normal (negated 1 1 ∷ plain 1 2 ∷ []) 1) }
{}

/// `1 ~x1 1 ~x2 1 ~x3 1 ~x4 >= 3` under `x1 -> x5` is not shown from itself, `1 x1 1 ~x5 >= 1` and `1 ~x6 >= 1`.
pub fn improving_goal_open()
    ensures { IsShownUnder (normal (plain 1 1 ∷ negated 1 5 ∷ []) 1 ∷ three_of_four_false ∷ unit_not 6 ∷ []) (single 1 (to_plain 5)) three_of_four_false → ⊥ }
{}
