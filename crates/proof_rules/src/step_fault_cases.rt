//! Which fault a step has, computed on small states, each the contract of a function that does nothing.
//!
//! Ids are judged before it is asked whether a constraint is shown, since a kernel that is full need not search; and the
//! ids of a deletion are judged one after another, each with the earlier ones gone. Where two faults could be meant, the
//! contract names the one that is, and says that the other one is not.

ghost use Rattle.std.specs.Prelude.{pos, neg_ℤ, ◌≤◌, ◌-◌, ◌^◌, [], ◌∷◌, Some, None};
ghost use Rattle.normal_form.specs.Normal.{NormalConstraint, Fits, largest_sum};
ghost use Rattle.normal_form.specs.NormalOf.{IsNormalOf, size_sum};
ghost use Rattle.propagate.specs.Cases.{not_x};
ghost use Rattle.proof_rules.specs.Cases.{cover_file, least_cover, cover, cover_written, first_written, large_written, written_twice, written_below_zero, cover_state, cover_start, derived_state, last_state, full_state};
ghost use Rattle.proof_rules.specs.Fault.{IsPolFault, IsRupFault, IsSoliFault, IsDelFault};
ghost use Rattle.proof_rules.specs.Legal.{LegalPol, LegalDel, without};
ghost use Rattle.proof_rules.specs.State.{with_constraint};
ghost use Rattle.proof_rules.specs.declared.fault.StepFault.TheVariants.{TooLarge, StackShape, BadFactor, TooManyIds, NotShown, NotImproving, DeadId, FileConstraint};
ghost use Rattle.proof_steps.specs.declared.step.Item.TheVariants.{Id, Add, Multiply, Divide};

/// On a file of one constraint, with a second one derived: `del id 2 2` asks for an id that is gone by then, and
/// `del id 1 9` for one that never was. That of the file is at no fault.
pub fn deletions_at_fault()
    ensures twice { IsDelFault derived_state (pos 2 ∷ pos 2 ∷ []) DeadId }
    ensures never_given { IsDelFault derived_state (pos 1 ∷ pos 9 ∷ []) DeadId }
    ensures file { IsDelFault derived_state (pos 1 ∷ []) FileConstraint → ⊥ }
    ensures live { IsDelFault derived_state (pos 1 ∷ []) DeadId → ⊥ }
{}

/// `del id 1` removes the file's constraint, `del id 2` the derived one, `del id -1` too, `del id 2 1` both, and `del id`
/// without ids nothing.
pub fn deletions()
    ensures file { LegalDel derived_state (pos 1 ∷ []) (without 1 derived_state) }
    ensures derived { LegalDel derived_state (pos 2 ∷ []) (without 2 derived_state) }
    ensures from_the_end { LegalDel derived_state (neg_ℤ (pos 1) ∷ []) (without 2 derived_state) }
    ensures both { LegalDel derived_state (pos 2 ∷ pos 1 ∷ []) (without 1 (without 2 derived_state)) }
    ensures nothing { LegalDel derived_state [] derived_state }
{}

/// Where all ids are taken, `rup 1 x0 1 x1 >= 1` finds none left though it is shown, `rup 1 x0 >= 1` though it is not, and
/// `pol 1` too. A constraint beyond the limits is refused for that first.
pub fn no_id_left()
    ensures shown { IsRupFault (full_state None) cover_written TooManyIds }
    ensures open { IsRupFault (full_state None) first_written TooManyIds }
    ensures not_open { IsRupFault (full_state None) first_written NotShown → ⊥ }
    ensures large { IsRupFault (full_state None) large_written TooLarge }
    ensures not_large { IsRupFault (full_state None) large_written TooManyIds → ⊥ }
    ensures expression { IsPolFault (full_state None) (Id (pos 1) ∷ []) TooManyIds }
{}

/// There a solution of value 1 that improves finds no id left, and one that does not improve is refused for that.
pub fn no_id_left_to_improve()
    ensures improving { IsSoliFault least_cover (full_state (Some (pos 2))) (not_x 0 ∷ []) TooManyIds }
    ensures not_improving { IsSoliFault least_cover (full_state (Some (pos 1))) (not_x 0 ∷ []) NotImproving }
    ensures not_ids { IsSoliFault least_cover (full_state (Some (pos 1))) (not_x 0 ∷ []) TooManyIds → ⊥ }
{}

/// Expressions: `pol` and `pol 1 1` do not leave one constraint, `pol 9` cites none, and `pol 1 0 d` divides by 0. Items are
/// judged from left to right, and what an item finds before its factor.
pub fn expressions_at_fault()
    ensures nothing { IsPolFault (cover_state None []) [] StackShape }
    ensures two { IsPolFault (cover_state None []) (Id (pos 1) ∷ Id (pos 1) ∷ []) StackShape }
    ensures dead { IsPolFault (cover_state None []) (Id (pos 9) ∷ []) DeadId }
    ensures factor { IsPolFault (cover_state None []) (Id (pos 1) ∷ Divide (pos 0) ∷ []) BadFactor }
    ensures shape_before_factor { IsPolFault (cover_state None []) (Divide (pos 0) ∷ []) StackShape }
    ensures not_factor { IsPolFault (cover_state None []) (Divide (pos 0) ∷ []) BadFactor → ⊥ }
    ensures first_item { IsPolFault (cover_state None []) (Id (pos 1) ∷ Add ∷ Id (pos 9) ∷ []) StackShape }
    ensures not_dead { IsPolFault (cover_state None []) (Id (pos 1) ∷ Add ∷ Id (pos 9) ∷ []) DeadId → ⊥ }
{}

/// Beside `1 x0 1 x1 >= 1`, `rup 1 x0 >= 1` is not shown, and `rup 1 x0 1 x1 >= 1` is. `rup 2^121 x0 >= 1` is beyond
/// the limits, which is judged before whether it is shown.
pub fn constraints_at_fault()
    ensures open { IsRupFault cover_start first_written NotShown }
    ensures not_ids { IsRupFault cover_start first_written TooManyIds → ⊥ }
    ensures shown { IsRupFault cover_start cover_written NotShown → ⊥ }
    ensures large { IsRupFault cover_start large_written TooLarge }
    ensures not_open { IsRupFault cover_start large_written NotShown → ⊥ }
{}

/// The coefficients of `pol 1 2^120 *` add up to 2^121, which is beyond the limits, and those of `pol 1 2^119 *` to
/// 2^120, which is not. `pol 1 2^119 * 1 +` is beyond them by its sum, and `pol 1 2^120 * 9` by its second item, before
/// the 9 is found to cite nothing.
pub fn expressions_beyond_the_limits()
    ensures multiple { IsPolFault cover_start (Id (pos 1) ∷ Multiply (pos (2 ^ 120)) ∷ []) TooLarge }
    ensures at_the_limit { IsPolFault cover_start (Id (pos 1) ∷ Multiply (pos (2 ^ 119)) ∷ []) TooLarge → ⊥ }
    ensures sum { IsPolFault cover_start (Id (pos 1) ∷ Multiply (pos (2 ^ 119)) ∷ Id (pos 1) ∷ Add ∷ []) TooLarge }
    ensures first_item { IsPolFault cover_start (Id (pos 1) ∷ Multiply (pos (2 ^ 120)) ∷ Id (pos 9) ∷ []) TooLarge }
    ensures not_dead { IsPolFault cover_start (Id (pos 1) ∷ Multiply (pos (2 ^ 120)) ∷ Id (pos 9) ∷ []) DeadId → ⊥ }
{}

/// Each limit of a written constraint by itself. The sizes in `rup 2^120 x0 1 ~x0 >= 0` add up to 2^120 + 1, which is beyond
/// the limits, though the normal form `2^120-1 x0 >= 0` is not; with the coefficient 2^120 - 1 neither is. The normal form
/// of `rup -2^120 x0 >= 1` has the degree 2^120 + 1, which is beyond them, though the sizes are not; with the right side 0
/// the degree is 2^120.
pub fn limits_of_a_written_constraint()
    ensures sizes { IsRupFault cover_start (written_twice (2 ^ 120)) TooLarge }
    ensures form_fits { (n : NormalConstraint) × IsNormalOf (written_twice (2 ^ 120)) n × Fits n }
    ensures sizes_at_the_limit { IsRupFault cover_start (written_twice (2 ^ 120 - 1)) TooLarge → ⊥ }
    ensures degree { IsRupFault cover_start (written_below_zero 1) TooLarge }
    ensures sizes_fit { size_sum (written_below_zero 1).terms ≤ largest_sum }
    ensures degree_at_the_limit { IsRupFault cover_start (written_below_zero 0) TooLarge → ⊥ }
{}

/// Where the next id is 2^32 - 1, the last one, `pol 1` takes it, and `rup 1 x0 1 x1 >= 1` finds it left. Then none is.
pub fn last_id()
    ensures legal { LegalPol last_state (Id (pos 1) ∷ []) (with_constraint cover last_state) }
    ensures not_full { IsPolFault last_state (Id (pos 1) ∷ []) TooManyIds → ⊥ }
    ensures left { IsRupFault last_state cover_written TooManyIds → ⊥ }
    ensures none_left { IsRupFault (with_constraint cover last_state) cover_written TooManyIds }
{}

/// Where all ids are taken, `pol 1 1` does not leave one constraint, and `pol 9` cites none: items are judged before ids.
pub fn items_before_ids()
    ensures two { IsPolFault (full_state None) (Id (pos 1) ∷ Id (pos 1) ∷ []) StackShape }
    ensures two_not_ids { IsPolFault (full_state None) (Id (pos 1) ∷ Id (pos 1) ∷ []) TooManyIds → ⊥ }
    ensures dead { IsPolFault (full_state None) (Id (pos 9) ∷ []) DeadId }
    ensures dead_not_ids { IsPolFault (full_state None) (Id (pos 9) ∷ []) TooManyIds → ⊥ }
{}
