//! What solutions are and do, computed on small problems, each the contract of a function that does nothing.
//!
//! A law such as "every step is judged" holds of a wrong definition too, as long as legal and faulty are wrong together:
//! of a best solution that is the last one logged, say. So the lines that the definitions of `sol`, `soli` and of the best
//! solution draw have cases here on either side of them; that no id is left is a case of `step_fault_cases`.

ghost use Rattle.std.specs.Prelude.{pos, neg_ℤ, [], ◌∷◌, Some, None};
ghost use Rattle.propagate.specs.Cases.{x, not_x};
ghost use Rattle.proof_rules.specs.Cases.{cover_file, least_cover, greatest_cover, least_of_three, both, first_alone, second_alone, cover_state, derived_state, below_one, below_two};
ghost use Rattle.proof_rules.specs.Fault.{IsSolFault, IsSoliFault};
ghost use Rattle.proof_rules.specs.Justified.{IsBest};
ghost use Rattle.proof_rules.specs.Legal.{LegalSol, LegalSoli};
ghost use Rattle.proof_rules.specs.State.{with_constraint};
ghost use Rattle.proof_rules.specs.declared.fault.StepFault.TheVariants.{SolutionConflict, SolutionPartial, SolutionFalse, NotImproving, NoObjective};

/// Of solutions of the values 2, 1 and 1 for `min: 1 x0 1 x1`, in that order, the second is the best: not the first one
/// logged, and not the last one, which is as good. Where nothing is logged there is none.
pub fn earliest_of_the_least_is_best()
    ensures least { IsBest least_cover (both ∷ second_alone ∷ first_alone ∷ []) (Some second_alone) }
    ensures not_the_later { IsBest least_cover (both ∷ second_alone ∷ first_alone ∷ []) (Some first_alone) → ⊥ }
    ensures not_the_first { IsBest least_cover (both ∷ second_alone ∷ first_alone ∷ []) (Some both) → ⊥ }
    ensures not_none { IsBest least_cover (both ∷ []) None → ⊥ }
    ensures nothing { IsBest least_cover [] None }
{}

/// On the file `1 x0 1 x1 >= 1` the assignment `~x0` is completed by x1 and logged. It leaves the value that an improving
/// solution must beat as it is.
pub fn assigned_is_completed()
    ensures logged { LegalSol cover_file (cover_state None []) (not_x 0 ∷ []) (cover_state None (second_alone ∷ [])) }
    ensures least_stays { LegalSol least_cover (cover_state (Some (pos 2)) (both ∷ [])) (not_x 0 ∷ []) (cover_state (Some (pos 2)) (both ∷ second_alone ∷ [])) }
{}

/// There `x0` leaves x1 open, `x0 ~x0` contradicts itself, and `~x0 ~x1` names all variables, so that it is judged as it
/// stands: it does not satisfy the file. With an objective `soli` refuses the first two as `sol` does.
pub fn assigned_at_fault()
    ensures open { IsSolFault cover_file (cover_state None []) (x 0 ∷ []) SolutionPartial }
    ensures contradictory { IsSolFault cover_file (cover_state None []) (x 0 ∷ not_x 0 ∷ []) SolutionConflict }
    ensures breaks { IsSolFault cover_file (cover_state None []) (not_x 0 ∷ not_x 1 ∷ []) SolutionFalse }
    ensures not_conflict { IsSolFault cover_file (cover_state None []) (not_x 0 ∷ not_x 1 ∷ []) SolutionConflict → ⊥ }
    ensures improving_open { IsSoliFault least_cover (cover_state None []) (x 0 ∷ []) SolutionPartial }
    ensures improving_contradictory { IsSoliFault least_cover (cover_state None []) (x 0 ∷ not_x 0 ∷ []) SolutionConflict }
{}

/// A solution is judged by the file and not by the live constraints: `~x0 x1` is legal where `1 x0 1 ~x1 >= 1` was derived.
/// The assignment `~x0` is not, since the chains that complete it lead to a conflict.
pub fn solution_judged_by_the_file()
    ensures named { LegalSol cover_file derived_state (not_x 0 ∷ x 1 ∷ []) (record derived_state { logged = second_alone ∷ [] }) }
    ensures completed { IsSolFault cover_file derived_state (not_x 0 ∷ []) SolutionConflict }
{}

/// A solution of value 1 where 2 was the least: it is logged, 1 becomes the least, and `1 ~x0 1 ~x1 >= 2` is added.
/// Where 1 is the least already it does not improve, and without an objective nothing does.
pub fn improving_solution()
    ensures improves { LegalSoli least_cover (cover_state (Some (pos 2)) (both ∷ [])) (not_x 0 ∷ [])
        (with_constraint below_one (cover_state (Some (pos 1)) (both ∷ second_alone ∷ []))) }
    ensures equal { IsSoliFault least_cover (cover_state (Some (pos 1)) (second_alone ∷ [])) (not_x 0 ∷ []) NotImproving }
    ensures no_objective { IsSoliFault cover_file (cover_state None []) (x 0 ∷ not_x 0 ∷ []) NoObjective }
    ensures not_conflict { IsSoliFault cover_file (cover_state None []) (x 0 ∷ not_x 0 ∷ []) SolutionConflict → ⊥ }
{}

/// For `min: -1 x0 -1 x1`, where a solution of value -1 improves: `~x0 ~x1` is worth 0, which is no better, and it
/// breaks the file, which is judged first. `x0 ~x1` satisfies the file and is no better.
pub fn false_and_not_improving()
    ensures breaks { IsSoliFault greatest_cover (cover_state (Some (neg_ℤ (pos 1))) (second_alone ∷ []))
        (not_x 0 ∷ not_x 1 ∷ []) SolutionFalse }
    ensures breaks_alone { IsSoliFault greatest_cover (cover_state (Some (neg_ℤ (pos 1))) (second_alone ∷ []))
        (not_x 0 ∷ not_x 1 ∷ []) NotImproving → ⊥ }
    ensures equal { IsSoliFault greatest_cover (cover_state (Some (neg_ℤ (pos 1))) (second_alone ∷ []))
        (x 0 ∷ not_x 1 ∷ []) NotImproving }
    ensures not_false { IsSoliFault greatest_cover (cover_state (Some (neg_ℤ (pos 1))) (second_alone ∷ []))
        (x 0 ∷ not_x 1 ∷ []) SolutionFalse → ⊥ }
{}

/// Beside `1 x0 1 x1 >= 1` and `1 x0 1 ~x1 >= 1`, with x2 in the objective alone, the assignment `~x0` leads to a conflict and
/// leaves x2 open: the conflict is judged first. The assignment `~x1` forces x0 and leaves x2 open, without a conflict.
pub fn conflict_before_what_is_open()
    ensures conflict { IsSolFault least_of_three derived_state (not_x 0 ∷ []) SolutionConflict }
    ensures not_open { IsSolFault least_of_three derived_state (not_x 0 ∷ []) SolutionPartial → ⊥ }
    ensures open { IsSolFault least_of_three derived_state (not_x 1 ∷ []) SolutionPartial }
    ensures not_conflict { IsSolFault least_of_three derived_state (not_x 1 ∷ []) SolutionConflict → ⊥ }
{}

/// An assignment may name a variable beyond the file's two, as x5. No value of it is logged, and `x0 x5` leaves x1 open. But a
/// assignment may not contradict itself there either, though it names all variables of the file.
pub fn variable_beyond_the_file()
    ensures named { LegalSol cover_file (cover_state None []) (x 0 ∷ x 1 ∷ x 5 ∷ []) (cover_state None (both ∷ [])) }
    ensures completed { LegalSol cover_file (cover_state None []) (not_x 0 ∷ x 5 ∷ []) (cover_state None (second_alone ∷ [])) }
    ensures contradictory { IsSolFault cover_file (cover_state None []) (x 0 ∷ x 1 ∷ x 5 ∷ not_x 5 ∷ []) SolutionConflict }
    ensures open { IsSolFault cover_file (cover_state None []) (x 0 ∷ x 5 ∷ []) SolutionPartial }
{}

/// Where no solution improves yet, one of value 2 does, also where `sol` logged one of value 1: 2 becomes the least, and
/// `1 ~x0 1 ~x1 >= 1` is added. The best one stays the logged one of value 1.
pub fn first_improving_solution()
    ensures improves { LegalSoli least_cover (cover_state None (second_alone ∷ [])) (x 0 ∷ x 1 ∷ [])
        (with_constraint below_two (cover_state (Some (pos 2)) (second_alone ∷ both ∷ []))) }
    ensures best { IsBest least_cover (second_alone ∷ both ∷ []) (Some second_alone) }
{}
