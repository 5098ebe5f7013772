//! The definitions computed on small problems, each the contract of a function that does nothing.

ghost use Rattle.std.specs.Prelude.{◌≡◌, ◌<◌, [], ◌∷◌, List, Some, false, true, length, neg_ℤ, pos};
ghost use Rattle.linear.specs.Opb.{Opb};
ghost use Rattle.linear.specs.declared.term.Lit.{Lit};
ghost use Rattle.normal_form.specs.Cases.{signed};
ghost use Rattle.presolve.specs.Cases.{alike, each_alone, even, free, literal, lopsided, pair, priced, unlike};
ghost use Rattle.presolve.specs.Fixing.{CostsNothing, IsFixable, IsFixed, price};
ghost use Rattle.presolve.specs.Swapping.{IsSwappable, IsUsed, most_tried, rank};
ghost use Rattle.presolve.specs.declared.swapping.Swap.{Swap};

/// In `min: 1 x1; 1 x0 1 x1 >= 1` x0 is fixed. x1 would cost 1, and the constraint may need x0 and x1.
pub fn fixed_beside_priced()
    ensures free { IsFixed priced (literal 0 false) }
    ensures costs { IsFixable priced (literal 1 false) → ⊥ }
    ensures needed { IsFixable priced (literal 0 true) → ⊥ }
    ensures needed_too { IsFixable priced (literal 1 true) → ⊥ }
{}

/// Both literals of a variable stand in the two forms of `1 x0 1 x1 = 1`.
pub fn none_of_equality()
    ensures plain { IsFixable even (literal 0 false) → ⊥ }
    ensures negated { IsFixable even (literal 0 true) → ⊥ }
{}

/// Where both literals of a variable may be made true the one without `~` is; a variable without a name is none.
pub fn plain_first()
    ensures plain { IsFixed free (literal 0 false) }
    ensures both { IsFixable free (literal 0 true) }
    ensures once { IsFixed free (literal 0 true) → ⊥ }
    ensures named { IsFixable free (literal 2 false) → ⊥ }
{}

/// The variables of `1 x0 1 x1 >= 1` may change places, those of `2 x0 1 x1 >= 2` may not, nor may those of `min: 1 x1; 1 x0 1 x1 >= 1`,
/// of which one has a price. The first one of a pair is the lower.
pub fn alike_and_unlike()
    ensures alike { IsSwappable alike 0 1 }
    ensures turned { IsSwappable alike 1 0 → ⊥ }
    ensures itself { IsSwappable alike 0 0 → ⊥ }
    ensures unlike { IsSwappable unlike 0 1 → ⊥ }
    ensures priced { IsSwappable priced 0 1 → ⊥ }
{}

/// Of pairs that share a variable one alone is used, and none of a variable that is fixed.
pub fn one_pair_of_a_variable()
    ensures used { IsUsed alike [] (pair 0 1 ∷ []) (pair 0 1) }
    ensures second { IsUsed alike [] (pair 0 1 ∷ []) (pair 0 2) → ⊥ }
    ensures third { IsUsed alike [] (pair 0 1 ∷ []) (pair 1 2) → ⊥ }
    ensures fixed { IsUsed alike (literal 1 true ∷ []) [] (pair 0 1) → ⊥ }
{}

/// In `min: 3 x0 -2 x1` the truth of x0 costs 3 and that of ~x0 gains 3; the truth of x1 gains 2, and that of ~x1 costs 2.
pub fn price_by_sign()
    ensures plain { price (signed (pos 3) 0 ∷ signed (neg_ℤ (pos 2)) 1 ∷ []) 0 false ≡ pos 3 }
    ensures opposite { price (signed (pos 3) 0 ∷ signed (neg_ℤ (pos 2)) 1 ∷ []) 0 true ≡ neg_ℤ (pos 3) }
    ensures gain { CostsNothing (Some (signed (neg_ℤ (pos 2)) 1 ∷ [])) 1 false }
    ensures loss { CostsNothing (Some (signed (neg_ℤ (pos 2)) 1 ∷ [])) 1 true → ⊥ }
{}

/// Where x0 and x1 change places `1 x0 >= 1` becomes `1 x1 >= 1`: so they may where both stand in the file, and not where one does.
pub fn constraints_change_places()
    ensures both { IsSwappable each_alone 0 1 }
    ensures one { IsSwappable lopsided 0 1 → ⊥ }
{}

/// Of four variables, five pairs stand before the pair of the last two. Where there are 65,538, the pair of the first and the last one
/// is number 65,536 from 0, and is not tried.
pub fn tried_by_rank()
    ensures first { rank 4 0 1 ≡ 0 }
    ensures last { rank 4 2 3 ≡ 5 }
    ensures within { rank 65538 0 65536 < most_tried }
    ensures beyond { (p : Opb) → (fixed : List Lit) → (used : List Swap) → length p.names ≡ 65538 → IsUsed p fixed used (pair 0 65537) → ⊥ }
{}
