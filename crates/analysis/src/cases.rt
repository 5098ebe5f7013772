//! The definitions computed on a small trail, each the contract of a function that does nothing.

ghost use Rattle.std.specs.Prelude.{◌≡◌, [], ◌∷◌, None, pos};
ghost use Rattle.propagate.specs.Cases.{one_of_two, x, not_x};
ghost use Rattle.proof_steps.specs.declared.step.Item.TheVariants.{Add, Id, Saturate};
ghost use Rattle.analysis.specs.Biting.{BitesAt, greatest_level, literals_up_to};
ghost use Rattle.analysis.specs.Cases.{entry, falsified_since_one, forces_since_one, forces_since_two, two_decisions};
ghost use Rattle.analysis.specs.Lines.{BeginsWith, GoesOnFrom};
ghost use Rattle.analysis.specs.Trails.{IsTrail, StandsBehind};

/// x1 was decided, ~x2 forced, and x3 decided next: two decisions are open, and the first two literals stand since the first.
pub fn two_decisions_open()
    ensures none { greatest_level [] ≡ 0 }
    ensures two { greatest_level two_decisions ≡ 2 }
    ensures before { literals_up_to 0 two_decisions ≡ [] }
    ensures first { literals_up_to 1 two_decisions ≡ x 1 ∷ not_x 2 ∷ [] }
    ensures second { literals_up_to 2 two_decisions ≡ x 1 ∷ not_x 2 ∷ x 3 ∷ [] }
{}

/// There `1 x2 1 x4 >= 1` forces x4 and `1 ~x1 1 x2 >= 1` has negative slack since the first decision, and neither says anything
/// before. `1 ~x3 1 x4 >= 1` forces x4 since the second alone, and `1 x1 1 x2 >= 1` is true and never says anything.
pub fn bites_since()
    ensures forces { BitesAt two_decisions 1 forces_since_one }
    ensures forces_nothing { BitesAt two_decisions 0 forces_since_one → ⊥ }
    ensures falsified { BitesAt two_decisions 1 falsified_since_one }
    ensures unfalsified { BitesAt two_decisions 0 falsified_since_one → ⊥ }
    ensures second { BitesAt two_decisions 2 forces_since_two }
    ensures not_first { BitesAt two_decisions 1 forces_since_two → ⊥ }
    ensures satisfied { BitesAt two_decisions 2 one_of_two → ⊥ }
{}

/// On a trail a variable stands once, and levels rise: behind two decisions there is room for x4 at level 2, and not for ~x1, nor for x4 at
/// level 1.
pub fn stands_behind()
    ensures trail { IsTrail two_decisions }
    ensures other { StandsBehind two_decisions (entry (x 4) None 2) }
    ensures same { StandsBehind two_decisions (entry (not_x 1) None 2) → ⊥ }
    ensures lower { StandsBehind two_decisions (entry (x 4) None 1) → ⊥ }
{}

/// The line `3 4 + s` begins with the constraint of id 3, and goes on from `3 4 +`; it neither begins with that of 4 nor goes on
/// from `4`.
pub fn line_of_two()
    ensures begins { BeginsWith 3 (Id (pos 3) ∷ Id (pos 4) ∷ Add ∷ Saturate ∷ []) }
    ensures other { BeginsWith 4 (Id (pos 3) ∷ Id (pos 4) ∷ Add ∷ Saturate ∷ []) → ⊥ }
    ensures empty { BeginsWith 3 [] → ⊥ }
    ensures goes_on { GoesOnFrom (Id (pos 3) ∷ Id (pos 4) ∷ Add ∷ []) (Id (pos 3) ∷ Id (pos 4) ∷ Add ∷ Saturate ∷ []) }
    ensures elsewhere { GoesOnFrom (Id (pos 4) ∷ []) (Id (pos 3) ∷ Id (pos 4) ∷ Add ∷ Saturate ∷ []) → ⊥ }
    ensures shorter { GoesOnFrom (Id (pos 3) ∷ Saturate ∷ []) (Id (pos 3) ∷ []) → ⊥ }
{}
