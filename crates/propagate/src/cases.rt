//! The definitions computed on small constraints, each the contract of a function that does nothing.

ghost use Rattle.std.specs.Prelude.{◌≡◌, ℕ, Bool, List, All, [], ◌∷◌, ◌++◌, pos, None, Some, false, true};
ghost use Rattle.linear.specs.declared.term.Lit.{Lit};
ghost use Rattle.normal_form.specs.Cases.{plain, negated, normal};
ghost use Rattle.propagate.specs.Cases.{x, not_x, decision, unit, unit_not, four_clauses, one_of_two, weighted, pigeons, two_ids, two_of_three, two_of_three_negated, improving_moved};
ghost use Rattle.propagate.specs.Chain.{IsForcedByOne, IsChain, IsRefuted, IsClosure, IsImpossible, LeadsToConflict};
ghost use Rattle.propagate.specs.declared.trace.Trace.{Trace};
ghost use Rattle.propagate.specs.Content.{AreDecided, AreTaken, IsLeastAbove, IsTrace};
ghost use Rattle.propagate.specs.Literals.{among};
ghost use Rattle.propagate.specs.Slack.{slack, IsFalsified};
ghost use Rattle.propagate.specs.Values.{AreValuesUnder, makes_true};
ghost use Rattle.propagate.specs.declared.value.Value.{Value};
ghost use Rattle.propagate.specs.declared.value.Value.TheVariants as values;

/// `1 ~x2 1 x3 >= 1 ; 1 ~x1 1 x2 >= 1 ; 1 x1 >= 1 ; 1 ~x3 >= 1`: the first two force something only after the
/// third, so one pass over the four in order does not do.
pub fn four_clauses_refuted()
    ensures chain { IsChain four_clauses [] (x 1 ∷ x 2 ∷ x 3 ∷ []) }
    ensures refuted { IsRefuted four_clauses }
{}

/// `3 x1 2 x2 1 x3 >= 4` needs x1 and not x2: under `~x2` it forces the two others, which meet it.
pub fn weighted_needs_first()
    ensures first { IsRefuted (weighted ∷ unit_not 1 ∷ []) }
    ensures second { IsRefuted (weighted ∷ unit_not 2 ∷ []) → ⊥ }
    ensures others { IsClosure (weighted ∷ unit_not 2 ∷ []) [] (x 1 ∷ not_x 2 ∷ x 3 ∷ []) }
{}

/// Three pigeons in two holes: no slack is below 1, so nothing is forced and nothing refuted. `>= 0`, the negation
/// of `>= 1` without terms, adds nothing.
pub fn pigeons_not_refuted()
    ensures slacks { All (λ n. slack n [] ≡ pos 1) pigeons }
    ensures refuted { IsRefuted (pigeons ++ normal [] 0 ∷ []) → ⊥ }
{}

/// `1 x1 1 x2 1 x3 >= 2` beside its own negation `1 ~x1 1 ~x2 1 ~x3 >= 2`: nothing is forced.
pub fn own_negation_forces_nothing()
    ensures forced { (l : Lit) → IsForcedByOne (two_of_three ∷ two_of_three_negated ∷ []) [] l → ⊥ }
    ensures refuted { IsRefuted (two_of_three ∷ two_of_three_negated ∷ []) → ⊥ }
{}

/// `1 x1 1 x2 >= 1` with `1 ~x1 1 x2 >= 1` says `x2`.
pub fn cases_of_one_variable()
    ensures { IsRefuted (one_of_two ∷ normal (negated 1 1 ∷ plain 1 2 ∷ []) 1 ∷ unit_not 2 ∷ []) }
{}

/// `1 x1 1 x2 >= 1` forces x2 under `~x1`, and nothing under `x1`. No assignment has both.
pub fn assigned_continued()
    ensures false_given { IsClosure (one_of_two ∷ []) (not_x 1 ∷ []) (not_x 1 ∷ x 2 ∷ []) }
    ensures true_given { IsClosure (one_of_two ∷ []) (x 1 ∷ []) (x 1 ∷ []) }
    ensures both_given { IsImpossible (one_of_two ∷ []) (x 1 ∷ not_x 1 ∷ []) }
    ensures neither_given { LeadsToConflict (one_of_two ∷ []) (not_x 1 ∷ not_x 2 ∷ []) }
{}

/// `1 x2 >= 1` does not follow from `1 x1 1 x2 >= 1` and `1 x1 >= 1`.
pub fn other_literal_open()
    ensures { IsRefuted (one_of_two ∷ unit 1 ∷ unit_not 2 ∷ []) → ⊥ }
{}

/// `1 ~x1 1 x2 >= 2` beside `1 x1 1 ~x2 >= 2`: both literals are forced, and the other is falsified.
pub fn opposites_refuted()
    ensures { IsRefuted (normal (negated 1 1 ∷ plain 1 2 ∷ []) 2 ∷ normal (plain 1 1 ∷ negated 1 2 ∷ []) 2 ∷ []) }
{}

/// `1 ~x1 >= 2`, the negation of `1 x1 >= 0`, is falsified at once.
pub fn degree_zero_negated()
    ensures { IsFalsified [] (normal (negated 1 1 ∷ []) 2) }
{}

/// `1 ~x2 1 ~x3 1 ~x4 1 ~x5 >= 3` is not shown from `1 x1 1 ~x5 >= 1`, `1 ~x1 1 ~x2 1 ~x3 1 ~x4 >= 3` and
/// `1 ~x6 >= 1`.
pub fn moved_bound_open()
    ensures { IsRefuted improving_moved → ⊥ }
{}

/// `1 x1 1 x2 >= 1` has the id 2 and `1 ~x2 >= 1` the id 5: each is the least above what is below it and not below the other, and
/// nothing is above 5.
pub fn least_above()
    ensures first { IsLeastAbove two_ids 0 (Some 2) }
    ensures second { IsLeastAbove two_ids 2 (Some 5) }
    ensures last { IsLeastAbove two_ids 5 None }
    ensures passed_over { IsLeastAbove two_ids 0 (Some 5) → ⊥ }
    ensures not_above { IsLeastAbove two_ids 2 (Some 2) → ⊥ }
    ensures left { IsLeastAbove two_ids 4 None → ⊥ }
{}

/// Under `x1` the second of these forces `~x2`, and there the chain ends. Under `~x1` the first forces x2, and the second is falsified; or
/// the second forces `~x2`, and the first is falsified.
pub fn traced_by_ids()
    ensures end { IsTrace two_ids (x 1 ∷ []) (record { forced = (not_x 2, 5) ∷ []; conflict = None }) }
    ensures conflict { IsTrace two_ids (not_x 1 ∷ []) (record { forced = (x 2, 2) ∷ []; conflict = Some 5 }) }
    ensures other_conflict { IsTrace two_ids (not_x 1 ∷ []) (record { forced = (not_x 2, 5) ∷ []; conflict = Some 2 }) }
    ensures too_early { IsTrace two_ids (x 1 ∷ []) (record { forced = []; conflict = None }) → ⊥ }
    ensures other_reason { IsTrace two_ids (not_x 1 ∷ []) (record { forced = (x 2, 5) ∷ []; conflict = Some 5 }) → ⊥ }
    ensures not_falsified { IsTrace two_ids (x 1 ∷ []) (record { forced = (not_x 2, 5) ∷ []; conflict = Some 2 }) → ⊥ }
    ensures conflict_left_out { IsTrace two_ids (not_x 1 ∷ []) (record { forced = (x 2, 2) ∷ []; conflict = None }) → ⊥ }
{}

/// `~x2` is forced by the second of these alone, so it is told of the decision of x1, or left out. No decision is made beside its opposite,
/// and none without the conflict that it leads to.
pub fn decided_by_ids()
    ensures told { AreDecided two_ids [] (decision (x 1) ((not_x 2, 5) ∷ []) None ∷ []) }
    ensures left_out { AreDecided two_ids [] (decision (x 1) [] None ∷ []) }
    ensures beside_opposite { (forced : List (Lit × ℕ)) → AreDecided two_ids (x 1 ∷ []) (decision (not_x 1) forced None ∷ []) → ⊥ }
    ensures conflict_left_out { AreDecided two_ids [] (decision (not_x 1) [] None ∷ []) → ⊥ }
{}

/// Asked about x1, and then x2 and x3, a propagator decides x1 in any case.
pub fn taken_in_part()
    ensures first_alone { AreTaken (x 1) (x 2 ∷ x 3 ∷ []) (decision (x 1) [] None ∷ []) }
    ensures one_passed_over { AreTaken (x 1) (x 2 ∷ x 3 ∷ []) (decision (x 1) [] None ∷ decision (x 3) [] None ∷ []) }
    ensures none { AreTaken (x 1) (x 2 ∷ x 3 ∷ []) [] → ⊥ }
    ensures without_first { AreTaken (x 1) (x 2 ∷ x 3 ∷ []) (decision (x 3) [] None ∷ []) → ⊥ }
    ensures not_asked { AreTaken (x 1) (x 3 ∷ []) (decision (x 1) [] None ∷ decision (x 2) [] None ∷ []) → ⊥ }
{}

/// Under x0 and ~x2 the first of three variables is true, the second one free, and the third one false. A value that is turned, or
/// left out, is none; and a variable has one value, so that no literal stands beside its opposite where all have one.
pub fn values_of_an_assignment()
    ensures told { AreValuesUnder (x 0 ∷ not_x 2 ∷ []) (values.True ∷ values.Free ∷ values.False ∷ []) }
    ensures turned { AreValuesUnder (x 0 ∷ not_x 2 ∷ []) (values.False ∷ values.Free ∷ values.True ∷ []) → ⊥ }
    ensures left_out { AreValuesUnder (x 0 ∷ []) (values.Free ∷ []) → ⊥ }
    ensures one_true { (assigned : List Lit) → (v : ℕ) → (value : Value) → among assigned v false ≡ true
        → ((negated : Bool) → among assigned v negated ≡ makes_true value negated) → value ≡ values.True }
    ensures one_false { (assigned : List Lit) → (v : ℕ) → (value : Value) → among assigned v true ≡ true
        → ((negated : Bool) → among assigned v negated ≡ makes_true value negated) → value ≡ values.False }
{}
