//! Which goal of a `red` step is the first that is open, computed on small states, each the contract of a function that
//! does nothing.
//!
//! The goals are judged in order: the live constraints by rising id, the new constraint, the objective. Where two of
//! them are open, the contract says which one the fault names, and that it names no other. The limits and the ids are
//! judged before them.

ghost use Rattle.std.specs.Prelude.{[], None};
ghost use Rattle.propagate.specs.Cases.{unit};
ghost use Rattle.substitution.specs.Cases.{single};
ghost use Rattle.substitution.specs.declared.image.Image.TheVariants.{Zero, One};
ghost use Rattle.proof_rules.specs.Cases.{cover_file, least_cover, first_written, not_first_written, large_written};
ghost use Rattle.proof_rules.specs.Cases.{cover_start, derived_state, full_state};
ghost use Rattle.proof_rules.specs.Fault.{IsRedFault};
ghost use Rattle.proof_rules.specs.Legal.{LegalRed};
ghost use Rattle.proof_rules.specs.State.{with_constraint};
ghost use Rattle.proof_rules.specs.declared.fault.StepFault.TheVariants.{TooLarge, TooManyIds};
ghost use Rattle.proof_rules.specs.declared.fault.StepFault.TheVariants.{GoalOpen, GoalOpenSelf, GoalOpenObjective};

/// `red 1 ~x0 >= 1 ; x0 -> 0` beside `1 x0 1 x1 >= 1` and `1 x0 1 ~x1 >= 1`: these become `1 x1 >= 1` and
/// `1 ~x1 >= 1`, and neither is shown from them and `1 x0 >= 1`. The fault names the least id.
pub fn least_id_of_the_open()
    ensures first { IsRedFault cover_file derived_state not_first_written (single 0 Zero) (GoalOpen 1) }
    ensures not_second { IsRedFault cover_file derived_state not_first_written (single 0 Zero) (GoalOpen 2) → ⊥ }
    ensures not_itself { IsRedFault cover_file derived_state not_first_written (single 0 Zero) GoalOpenSelf → ⊥ }
{}

/// `red 1 ~x0 >= 1 ; x1 -> 1` for `min: 1 x0 1 x1`: the live constraint comes to degree 0. The new one stays as it is
/// and is not shown from `1 x0 >= 1`, and nor is that the objective does not rise, `1 x1 >= 1`. The fault names the new
/// one.
pub fn itself_before_the_objective()
    ensures itself { IsRedFault least_cover cover_start not_first_written (single 1 One) GoalOpenSelf }
    ensures not_objective { IsRedFault least_cover cover_start not_first_written (single 1 One) GoalOpenObjective → ⊥ }
    ensures not_live { IsRedFault least_cover cover_start not_first_written (single 1 One) (GoalOpen 1) → ⊥ }
{}

/// `red 1 x0 >= 1 ; x0 -> 1`: the live constraint and the new one come to degree 0. For `min: 1 x0 1 x1` the objective
/// may rise; without an objective the step is legal.
pub fn objective_alone()
    ensures raised { IsRedFault least_cover cover_start first_written (single 0 One) GoalOpenObjective }
    ensures not_itself { IsRedFault least_cover cover_start first_written (single 0 One) GoalOpenSelf → ⊥ }
    ensures legal { LegalRed cover_file cover_start first_written (single 0 One) (with_constraint (unit 0) cover_start) }
    ensures not_raised { IsRedFault cover_file cover_start first_written (single 0 One) GoalOpenObjective → ⊥ }
{}

/// `red 1 ~x0 >= 1 ; x0 -> 0` leaves the goal of the live constraint open, and `red 1 x0 >= 1 ; x0 -> 1` none without
/// an objective. Where all ids are taken, either is refused for that.
pub fn no_id_left_to_strengthen()
    ensures open { IsRedFault cover_file cover_start not_first_written (single 0 Zero) (GoalOpen 1) }
    ensures not_ids { IsRedFault cover_file cover_start not_first_written (single 0 Zero) TooManyIds → ⊥ }
    ensures full { IsRedFault cover_file (full_state None) not_first_written (single 0 Zero) TooManyIds }
    ensures not_open { IsRedFault cover_file (full_state None) not_first_written (single 0 Zero) (GoalOpen 1) → ⊥ }
    ensures shown { IsRedFault cover_file (full_state None) first_written (single 0 One) TooManyIds }
{}

/// `red 2^121 x0 >= 1` is beyond the limits, which is judged before its goals, and before the ids where all are taken.
pub fn strengthening_beyond_the_limits()
    ensures large { IsRedFault cover_file cover_start large_written [] TooLarge }
    ensures not_itself { IsRedFault cover_file cover_start large_written [] GoalOpenSelf → ⊥ }
    ensures full { IsRedFault cover_file (full_state None) large_written [] TooLarge }
    ensures not_ids { IsRedFault cover_file (full_state None) large_written [] TooManyIds → ⊥ }
{}
