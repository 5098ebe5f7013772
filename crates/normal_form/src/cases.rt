//! Normal forms and a negation of small constraints, each the contract of a function that does nothing: laws about a definition
//! would hold of many others; these, with what must not be, hold it in place.

ghost use Rattle.std.specs.Prelude.{[], ◌∷◌};
ghost use Rattle.normal_form.specs.Cases.{repeated, cancelling, equality, plain, negated, normal};
ghost use Rattle.normal_form.specs.Negation.{IsNegation};
ghost use Rattle.normal_form.specs.NormalOf.{IsNormalOf, IsBothOf};

/// `-2 x1 3 x2 -2 x1 >= -1` is `4 ~x1 3 x2 >= 3`: the coefficients of a repeated variable add up, and the
/// negated ones raise the degree. It is neither `2 ~x1 3 x2 >= 3` nor `4 ~x1 3 x2 >= 0`.
pub fn repeated_variable()
    ensures form { IsNormalOf repeated (normal (negated 4 1 ∷ plain 3 2 ∷ []) 3) }
    ensures all { IsNormalOf repeated (normal (negated 2 1 ∷ plain 3 2 ∷ []) 3) → ⊥ }
    ensures raised { IsNormalOf repeated (normal (negated 4 1 ∷ plain 3 2 ∷ []) 0) → ⊥ }
{}

/// `1 x1 1 ~x1 >= 1` has no term and degree 0: it holds everywhere. It does not keep degree 1.
pub fn opposite_literals()
    ensures form { IsNormalOf cancelling (normal [] 0) }
    ensures met { IsNormalOf cancelling (normal [] 1) → ⊥ }
{}

/// `2 x1 2 x2 = 1` is `2 x1 2 x2 >= 1` and `2 ~x1 2 ~x2 >= 3`. Its second form is not the first once more,
/// nor has it degree 1.
pub fn equality_of_two()
    ensures forms { IsBothOf equality (normal (plain 2 1 ∷ plain 2 2 ∷ []) 1) (normal (negated 2 1 ∷ negated 2 2 ∷ []) 3) }
    ensures turned { IsBothOf equality (normal (plain 2 1 ∷ plain 2 2 ∷ []) 1) (normal (plain 2 1 ∷ plain 2 2 ∷ []) 1) → ⊥ }
    ensures raised { IsBothOf equality (normal (plain 2 1 ∷ plain 2 2 ∷ []) 1) (normal (negated 2 1 ∷ negated 2 2 ∷ []) 1) → ⊥ }
{}

/// The negation of `2 x1 2 x2 >= 1` is `2 ~x1 2 ~x2 >= 4`, and not `2 ~x1 2 ~x2 >= 3`.
pub fn negation_of_two()
    ensures form { IsNegation (normal (plain 2 1 ∷ plain 2 2 ∷ []) 1) (normal (negated 2 1 ∷ negated 2 2 ∷ []) 4) }
    ensures above { IsNegation (normal (plain 2 1 ∷ plain 2 2 ∷ []) 1) (normal (negated 2 1 ∷ negated 2 2 ∷ []) 3) → ⊥ }
{}
