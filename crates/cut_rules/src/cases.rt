//! The rules' equations computed on small constraints, each the contract of a function that does nothing. A rule that
//! gives less than it may would be sound all the same, and no law would tell: these cases do.

ghost use Rattle.std.specs.Prelude.{[], ◌∷◌};
ghost use Rattle.normal_form.specs.Cases.{plain, negated, normal};
ghost use Rattle.cut_rules.specs.Rules.{IsSum, IsMultiple, IsQuotient, IsSaturation, IsWeakening, IsAxiom};
ghost use Rattle.cut_rules.specs.Cases.{not_x, three_and_one, two_apart};

/// `3 x1 1 x2 >= 2` and `2 ~x1 1 x2 1 x4 >= 1` add up to `1 x1 2 x2 1 x4 >= 1`: of x1 two cancel, and go from the
/// degree once. Neither the degree without that is a sum, nor the terms side by side.
pub fn sum_of_two()
    ensures sum { IsSum three_and_one two_apart (normal (plain 1 1 ∷ plain 2 2 ∷ plain 1 4 ∷ []) 1) }
    ensures degree_kept { IsSum three_and_one two_apart (normal (plain 1 1 ∷ plain 2 2 ∷ plain 1 4 ∷ []) 3) → ⊥ }
    ensures degree_too_low { IsSum three_and_one two_apart (normal (plain 1 1 ∷ plain 2 2 ∷ plain 1 4 ∷ []) 0) → ⊥ }
    ensures not_cancelled { IsSum three_and_one two_apart (normal (plain 3 1 ∷ plain 2 2 ∷ plain 1 4 ∷ []) 1) → ⊥ }
{}

/// `3 x1 1 x2 >= 2` times 2 is `6 x1 2 x2 >= 4`, and not `6 x1 2 x2 >= 2`.
pub fn twice()
    ensures multiple { IsMultiple 2 three_and_one (normal (plain 6 1 ∷ plain 2 2 ∷ []) 4) }
    ensures degree_kept { IsMultiple 2 three_and_one (normal (plain 6 1 ∷ plain 2 2 ∷ []) 2) → ⊥ }
{}

/// `3 x1 1 x2 >= 2` by 2 is `2 x1 1 x2 >= 1`: each number is rounded up, and no further.
pub fn half()
    ensures quotient { IsQuotient 2 three_and_one (normal (plain 2 1 ∷ plain 1 2 ∷ []) 1) }
    ensures rounded_down { IsQuotient 2 three_and_one (normal (plain 1 1 ∷ []) 1) → ⊥ }
    ensures too_far { IsQuotient 2 three_and_one (normal (plain 2 1 ∷ plain 2 2 ∷ []) 1) → ⊥ }
{}

/// `3 x1 1 x2 >= 2` saturated is `2 x1 1 x2 >= 2`.
pub fn saturated()
    ensures saturation { IsSaturation three_and_one (normal (plain 2 1 ∷ plain 1 2 ∷ []) 2) }
    ensures excess_kept { IsSaturation three_and_one three_and_one → ⊥ }
    ensures one_short { IsSaturation three_and_one (normal (plain 1 1 ∷ plain 1 2 ∷ []) 2) → ⊥ }
{}

/// `2 ~x1 1 x2 1 x4 >= 1` without x2 is `2 ~x1 1 x4 >= 0`, and without x1 `1 x2 1 x4 >= 0`: the degree stops at 0.
pub fn weakened()
    ensures plain_literal { IsWeakening 2 two_apart (normal (negated 2 1 ∷ plain 1 4 ∷ []) 0) }
    ensures negated_literal { IsWeakening 1 two_apart (normal (plain 1 2 ∷ plain 1 4 ∷ []) 0) }
    ensures degree_kept { IsWeakening 2 two_apart (normal (negated 2 1 ∷ plain 1 4 ∷ []) 1) → ⊥ }
    ensures absent { IsWeakening 3 two_apart two_apart }
{}

/// The axiom of `~x7` is `1 ~x7 >= 0`.
pub fn axiom_of_negated()
    ensures axiom { IsAxiom (not_x 7) (normal (negated 1 7 ∷ []) 0) }
    ensures turned { IsAxiom (not_x 7) (normal (plain 1 7 ∷ []) 0) → ⊥ }
    ensures with_degree { IsAxiom (not_x 7) (normal (negated 1 7 ∷ []) 1) → ⊥ }
{}
