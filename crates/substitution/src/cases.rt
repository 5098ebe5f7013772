//! The definitions computed on small constraints, each the contract of a function that does nothing.

ghost use Rattle.std.specs.Prelude.{◌≡◌, true, false, [], ◌∷◌};
ghost use Rattle.linear.specs.Valuation.{valuation_of};
ghost use Rattle.normal_form.specs.Normal.{largest_sum};
ghost use Rattle.normal_form.specs.Cases.{plain, negated, normal};
ghost use Rattle.substitution.specs.Cases.{swap, single, to_plain, to_negated, first_or_not_second, one_of_two, two_of_three, last_two, first_or_twice_second, three_of_four_false, min_first};
ghost use Rattle.substitution.specs.Beyond.{Shows};
ghost use Rattle.substitution.specs.Covering.{Covers};
ghost use Rattle.substitution.specs.Images.{after};
ghost use Rattle.substitution.specs.Objective.{IsObjectiveGoal};
ghost use Rattle.substitution.specs.Under.{IsUnder};
ghost use Rattle.substitution.specs.declared.image.Image.TheVariants.{Zero, One};

/// `x1 -> x2 x2 -> x1` turns `1 x1 1 ~x2 >= 1` into `1 ~x1 1 x2 >= 1`, and not into `>= 0`, which putting in one
/// image after the other would give. `1 x1 1 x2 >= 1` stays, and x1 true, x2 false become x1 false, x2 true.
pub fn swapped()
    ensures form { IsUnder first_or_not_second swap (normal (negated 1 1 ∷ plain 1 2 ∷ []) 1) }
    ensures at_once { IsUnder first_or_not_second swap (normal [] 0) → ⊥ }
    ensures stays { IsUnder one_of_two swap one_of_two }
    ensures first { after (valuation_of (false ∷ true ∷ false ∷ [])) swap 1 ≡ false }
    ensures second { after (valuation_of (false ∷ true ∷ false ∷ [])) swap 2 ≡ true }
    ensures others { after (valuation_of (true ∷ true ∷ false ∷ [])) swap 0 ≡ true }
{}

/// `1 x1 1 x2 >= 1` under `x1 -> 0` is `1 x2 >= 1`.
pub fn image_zero()
    ensures { IsUnder one_of_two (single 1 Zero) (normal (plain 1 2 ∷ []) 1) }
{}

/// `1 ~x1 1 x2 >= 1` under `x2 -> 1` has degree 0.
pub fn image_one()
    ensures form { IsUnder (normal (negated 1 1 ∷ plain 1 2 ∷ []) 1) (single 2 One) (normal (negated 1 1 ∷ []) 0) }
    ensures right_side { IsUnder (normal (negated 1 1 ∷ plain 1 2 ∷ []) 1) (single 2 One) (normal (negated 1 1 ∷ []) 1) → ⊥ }
{}

/// `1 ~x1 1 ~x2 1 ~x3 1 ~x4 >= 3` under `x1 -> x5` is `1 ~x2 1 ~x3 1 ~x4 1 ~x5 >= 3`.
pub fn image_of_negated()
    ensures { IsUnder three_of_four_false (single 1 (to_plain 5))
        (normal (negated 1 2 ∷ negated 1 3 ∷ negated 1 4 ∷ negated 1 5 ∷ []) 3) }
{}

/// Under `x1 -> ~x2` the literals of `1 x1 1 x2 >= 1` cancel, and under `x1 -> x2` they add up.
pub fn image_met()
    ensures cancels { IsUnder one_of_two (single 1 (to_negated 2)) (normal [] 0) }
    ensures adds { IsUnder one_of_two (single 1 (to_plain 2)) (normal (plain 2 2 ∷ []) 1) }
{}

/// For `min: 1 x1` the substitution `x1 -> 1` must show `1 x1 >= 1`, and `x1 -> 0` must show nothing.
pub fn objective_raised()
    ensures raised { IsObjectiveGoal min_first (single 1 One) (normal (plain 1 1 ∷ []) 1) }
    ensures constant { IsObjectiveGoal min_first (single 1 One) (normal (plain 1 1 ∷ []) 0) → ⊥ }
    ensures lowered { IsObjectiveGoal min_first (single 1 Zero) (normal (plain 1 1 ∷ []) 0) }
{}

/// `1 x1 1 x2 1 x3 >= 2` covers itself and `1 x1 1 x2 >= 1`; that does not cover it, nor `2 x1 2 x2 >= 2`, nor
/// `2^120 ~x1 >= 0`.
pub fn covering()
    ensures itself { Covers two_of_three two_of_three }
    ensures weaker { Covers two_of_three one_of_two }
    ensures stronger { Covers one_of_two two_of_three → ⊥ }
    ensures multiple { Covers one_of_two (normal (plain 2 1 ∷ plain 2 2 ∷ []) 2) → ⊥ }
    ensures other_literal { Covers one_of_two (normal (negated largest_sum 1 ∷ []) 0) → ⊥ }
{}

/// `1 x1 1 x2 1 x3 >= 2` covers what it becomes under `x1 -> 1`, and not what it becomes under `x1 -> 0`. Nothing is asked of what
/// `1 x1 2 x2 >= 1` becomes under `x2 -> 1`, and it shows that, though it does not cover it.
pub fn shown_itself()
    ensures fixed { IsUnder two_of_three (single 1 One) (last_two 1) }
    ensures covered { Shows two_of_three (last_two 1) }
    ensures fixed_otherwise { IsUnder two_of_three (single 1 Zero) (last_two 2) }
    ensures not_shown { Shows two_of_three (last_two 2) → ⊥ }
    ensures met { IsUnder first_or_twice_second (single 2 One) (normal (plain 1 1 ∷ []) 0) }
    ensures nothing_asked { Shows first_or_twice_second (normal (plain 1 1 ∷ []) 0) }
    ensures not_covered { Covers first_or_twice_second (normal (plain 1 1 ∷ []) 0) → ⊥ }
{}
