//! What a block of a `red` step may hold, and which fault a step has in it, computed on small states, each the contract of
//! a function that does nothing.
//!
//! Whether a step or a conclusion may stand where it does is judged before all else. Then a goal's name is judged before
//! its negation, that before the ids, and the ids before what is shown. Where two faults could be meant, the contract
//! names the one that is, and says that the other one is not.

ghost use Rattle.std.specs.Prelude.{pos, neg_ℤ, true, false, [], ◌∷◌, None};
ghost use Rattle.std.specs.FinSet as set;
ghost use Rattle.propagate.specs.Cases.{x, unit_not};
ghost use Rattle.proof_rules.specs.BlockCases.{full, exchange, exchanged_written, begun, own_goal, own_closed, ended, begun_later, live_goal, live_closed};
ghost use Rattle.proof_rules.specs.BlockCases.{block_state, falling, rising, absurd_written, absurd_goal, heavy_written, heavy, beside_heavy};
ghost use Rattle.proof_rules.specs.Cases.{cover_file, least_cover, cover, not_second_alone, not_first_written, large_written, cover_start, full_state};
ghost use Rattle.proof_rules.specs.Fault.{IsStepFault, IsConclusionFault};
ghost use Rattle.proof_rules.specs.Justified.{IsJustified};
ghost use Rattle.proof_rules.specs.Legal.{Legal, Leads};
ghost use Rattle.proof_rules.specs.State.{State, with_constraint};
ghost use Rattle.proof_rules.specs.declared.fault.StepFault.TheVariants.{DeadId, TooLarge, NotShown, GoalOpen, GoalOpenSelf, GoalOpenObjective, LowerNotShown, TooManyIds};
ghost use Rattle.proof_rules.specs.declared.fault.StepFault.TheVariants.{BlockOpen, NoBlock, GoalUnknown, GoalNotClosed};
ghost use Rattle.proof_steps.specs.declared.conclusion.Conclusion.TheVariants.{Nothing, Unsat};
ghost use Rattle.proof_steps.specs.declared.step.GoalName.TheVariants.{Live, Itself, Objective};
ghost use Rattle.proof_steps.specs.declared.step.Item.TheVariants.{Id};
ghost use Rattle.proof_steps.specs.declared.step.Step.TheVariants.{Pol, Rup, Red, Sol, Soli, Del, RedBegin, Goal, End};

/// `red 1 x0 1 ~x1 >= 1 ; x0 -> x1 x1 -> x0 ; begin` beside `1 x0 1 x1 >= 1`, `proofgoal #1`, `end`, `end`. The negation of
/// the new constraint takes the id 2 and that of its goal the id 3, and the two contradict each other. With the goal's
/// end the id 3 is dead, and with the block's the id 2; the new constraint takes the id 4, and no block is open.
pub fn goal_and_block_closed()
    ensures begins { Legal cover_file cover_start (RedBegin exchanged_written exchange) begun }
    ensures opens { Legal cover_file begun (Goal Itself) own_goal }
    ensures closes { Legal cover_file own_goal End own_closed }
    ensures ends { Legal cover_file own_closed End ended }
{}

/// The same four steps, one after another; and without the goal, whose ids are then not taken.
pub fn blocks()
    ensures with_goal { Leads cover_file cover_start (RedBegin exchanged_written exchange ∷ Goal Itself ∷ End ∷ End ∷ []) ended }
    ensures without_goals { Leads cover_file cover_start (RedBegin exchanged_written exchange ∷ End ∷ [])
        (block_state ((1, cover) ∷ (3, not_second_alone) ∷ []) 4 None) }
{}

/// `proofgoal 1` opens the goal of the live constraint, and so does `proofgoal -2`. Once it is closed the block may end.
pub fn goal_of_a_live_constraint()
    ensures opens { Legal cover_file begun (Goal (Live (pos 1))) live_goal }
    ensures from_the_end { Legal cover_file begun (Goal (Live (neg_ℤ (pos 2)))) live_goal }
    ensures closes { Legal cover_file live_goal End live_closed }
    ensures ends { Legal cover_file live_closed End ended }
{}

/// In a block no other one may begin, nor a solution be logged or a constraint deleted. This is judged before what else
/// would be at fault: that the constraint is beyond the limits, that the id is dead, that all ids are taken.
pub fn outside_blocks_alone()
    ensures red { IsStepFault cover_file begun (Red exchanged_written exchange) BlockOpen }
    ensures begin { IsStepFault cover_file begun (RedBegin exchanged_written exchange) BlockOpen }
    ensures sol { IsStepFault cover_file begun (Sol (x 0 ∷ x 1 ∷ [])) BlockOpen }
    ensures soli { IsStepFault least_cover begun (Soli (x 0 ∷ x 1 ∷ [])) BlockOpen }
    ensures del { IsStepFault cover_file begun (Del (pos 9 ∷ [])) BlockOpen }
    ensures not_dead { IsStepFault cover_file begun (Del (pos 9 ∷ [])) DeadId → ⊥ }
    ensures large { IsStepFault cover_file (full begun) (RedBegin large_written exchange) BlockOpen }
    ensures not_large { IsStepFault cover_file (full begun) (RedBegin large_written exchange) TooLarge → ⊥ }
    ensures not_ids { IsStepFault cover_file (full begun) (RedBegin large_written exchange) TooManyIds → ⊥ }
{}

/// In a block nothing may be concluded, not even nothing, and also where a goal assumes what contradicts the block.
pub fn nothing_concluded_in_a_block()
    ensures nothing { IsConclusionFault cover_file begun Nothing BlockOpen }
    ensures not_justified { IsJustified cover_file begun Nothing None → ⊥ }
    ensures contradicting { IsConclusionFault cover_file own_goal Unsat BlockOpen }
    ensures not_shown { IsConclusionFault cover_file begun Unsat LowerNotShown → ⊥ }
    ensures not_unsatisfiable { IsJustified cover_file own_goal Unsat None → ⊥ }
{}

/// While a goal is open, no other one may be opened, which is judged before its name.
pub fn one_goal_at_a_time()
    ensures other { IsStepFault cover_file own_goal (Goal (Live (pos 1))) BlockOpen }
    ensures again { IsStepFault cover_file own_goal (Goal Itself) BlockOpen }
    ensures not_unknown { IsStepFault cover_file own_goal (Goal Itself) GoalUnknown → ⊥ }
{}

/// Where no block is open, no goal may be opened and nothing ended, which is judged before the goal's name and the ids.
pub fn inside_blocks_alone()
    ensures goal { IsStepFault cover_file cover_start (Goal Itself) NoBlock }
    ensures end { IsStepFault cover_file cover_start End NoBlock }
    ensures behind { IsStepFault cover_file ended End NoBlock }
    ensures named { IsStepFault cover_file (full_state None) (Goal (Live (pos 9))) NoBlock }
    ensures not_unknown { IsStepFault cover_file (full_state None) (Goal (Live (pos 9))) GoalUnknown → ⊥ }
{}

/// A goal names a live constraint from before the block: no id that was never given, none of the block's own, none that is
/// deleted. `#2` needs an objective. A goal that was closed is not opened again, and the other ones may be.
pub fn goals_unknown()
    ensures never_given { IsStepFault cover_file begun (Goal (Live (pos 9))) GoalUnknown }
    ensures of_the_block { IsStepFault cover_file begun (Goal (Live (pos 2))) GoalUnknown }
    ensures from_the_end { IsStepFault cover_file begun (Goal (Live (neg_ℤ (pos 1)))) GoalUnknown }
    ensures deleted { IsStepFault cover_file begun_later (Goal (Live (pos 1))) GoalUnknown }
    ensures objective { IsStepFault cover_file begun (Goal Objective) GoalUnknown }
    ensures own_again { IsStepFault cover_file own_closed (Goal Itself) GoalUnknown }
    ensures live_again { IsStepFault cover_file live_closed (Goal (Live (pos 1))) GoalUnknown }
    ensures objective_again { IsStepFault least_cover (rising true true) (Goal Objective) GoalUnknown }
    ensures own { IsStepFault cover_file begun (Goal Itself) GoalUnknown → ⊥ }
    ensures objective_there { IsStepFault least_cover begun (Goal Objective) GoalUnknown → ⊥ }
    ensures own_after_live { IsStepFault cover_file live_closed (Goal Itself) GoalUnknown → ⊥ }
{}

/// The name of a goal is judged before the ids. Where all ids are taken, a goal that may be opened finds none left.
pub fn no_id_left_for_a_goal()
    ensures unknown { IsStepFault cover_file (full begun) (Goal (Live (pos 9))) GoalUnknown }
    ensures not_ids { IsStepFault cover_file (full begun) (Goal (Live (pos 9))) TooManyIds → ⊥ }
    ensures full { IsStepFault cover_file (full begun) (Goal Itself) TooManyIds }
    ensures begin { IsStepFault cover_file (full_state None) (RedBegin exchanged_written exchange) TooManyIds }
{}

/// The negation of `2^120 x0 >= 0` is beyond the limits, which is judged before the ids: a block that is to add that
/// constraint does not begin, though `red` adds it without one, and its goal is not opened where it is live.
pub fn negations_beyond_the_limits()
    ensures red { Legal cover_file cover_start (Red heavy_written []) (with_constraint heavy cover_start) }
    ensures begin { IsStepFault cover_file cover_start (RedBegin heavy_written []) TooLarge }
    ensures begin_full { IsStepFault cover_file (full_state None) (RedBegin heavy_written []) TooLarge }
    ensures begin_not_ids { IsStepFault cover_file (full_state None) (RedBegin heavy_written []) TooManyIds → ⊥ }
    ensures large { IsStepFault cover_file (full_state None) (RedBegin large_written []) TooLarge }
    ensures goal { IsStepFault cover_file beside_heavy (Goal (Live (pos 1))) TooLarge }
    ensures goal_full { IsStepFault cover_file (full beside_heavy) (Goal (Live (pos 1))) TooLarge }
    ensures goal_not_ids { IsStepFault cover_file (full beside_heavy) (Goal (Live (pos 1))) TooManyIds → ⊥ }
{}

/// `red >= 1 ; ; begin` and `proofgoal #1` assume nothing, so `0 >= 1` is not shown at the goal's end. An end of a goal
/// takes no id, and leads nowhere else.
pub fn goal_not_closed()
    ensures open { IsStepFault cover_file absurd_goal End GoalNotClosed }
    ensures full { IsStepFault cover_file (full absurd_goal) End GoalNotClosed }
    ensures not_ids { IsStepFault cover_file (full absurd_goal) End TooManyIds → ⊥ }
    ensures not_itself { IsStepFault cover_file absurd_goal End GoalOpenSelf → ⊥ }
    ensures never { (t : State) → Legal cover_file absurd_goal End t → ⊥ }
    ensures closed_when_full { IsStepFault cover_file (full own_goal) End TooManyIds → ⊥ }
{}

/// `red 1 ~x0 >= 1 ; x0 -> 0 ; begin`, `end` beside `1 x0 1 x1 >= 1` and `1 x0 1 ~x1 >= 1`, whose goals are both open: the
/// fault names the least id, and where the goal of that was closed by its own end, the other one. The ids are judged
/// before.
pub fn least_id_of_the_unopened()
    ensures first { IsStepFault cover_file (falling set.empty) End (GoalOpen 1) }
    ensures not_second { IsStepFault cover_file (falling set.empty) End (GoalOpen 2) → ⊥ }
    ensures second { IsStepFault cover_file (falling (set.insert set.empty 1)) End (GoalOpen 2) }
    ensures not_first { IsStepFault cover_file (falling (set.insert set.empty 1)) End (GoalOpen 1) → ⊥ }
    ensures full { IsStepFault cover_file (full (falling set.empty)) End TooManyIds }
    ensures not_open { IsStepFault cover_file (full (falling set.empty)) End (GoalOpen 1) → ⊥ }
{}

/// `red 1 ~x0 >= 1 ; x1 -> 1 ; begin`, `end` for `min: 1 x0 1 x1`: the new constraint's goal is open and the objective's is. The
/// fault names the new one, where `#1` was closed the objective, and where `#2` was too, there is none.
pub fn own_goal_before_the_objective()
    ensures itself { IsStepFault least_cover (rising false false) End GoalOpenSelf }
    ensures not_objective { IsStepFault least_cover (rising false false) End GoalOpenObjective → ⊥ }
    ensures objective { IsStepFault least_cover (rising true false) End GoalOpenObjective }
    ensures legal { Legal least_cover (rising true true) End (block_state ((1, cover) ∷ (3, unit_not 0) ∷ []) 4 None) }
{}

/// What a block assumes is used in it: `rup 1 ~x0 >= 1` is shown behind `begun`, where it is not before, and `rup >= 1` in
/// the goal. Behind the goal's end what came in it is dead: `rup >= 1` is not shown, and `pol 3` cites none. Nor does
/// `pol 2` behind the block's.
pub fn what_is_live_in_a_block()
    ensures before { IsStepFault cover_file cover_start (Rup not_first_written) NotShown }
    ensures in_block { Legal cover_file begun (Rup not_first_written) (with_constraint (unit_not 0) begun) }
    ensures in_goal { IsStepFault cover_file own_goal (Rup absurd_written) NotShown → ⊥ }
    ensures cited_in_goal { IsStepFault cover_file own_goal (Pol (Id (pos 3) ∷ [])) DeadId → ⊥ }
    ensures behind_goal { IsStepFault cover_file own_closed (Rup absurd_written) NotShown }
    ensures cited_behind_goal { IsStepFault cover_file own_closed (Pol (Id (pos 3) ∷ [])) DeadId }
    ensures cited_behind_block { IsStepFault cover_file ended (Pol (Id (pos 2) ∷ [])) DeadId }
{}
