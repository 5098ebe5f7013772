//! Which conclusions are justified and which fault a conclusion has, computed on small states, each the contract of a
//! function that does nothing.
//!
//! Faults stand in an order of judging: the first one that is met is the verdict, and two checkers agree on a refused
//! proof only where they agree on that order. Where two faults could be meant, the contract names the one that is, and
//! says that the other one is not.

ghost use Rattle.std.specs.Prelude.{pos, ◌^◌, [], ◌∷◌, Some, None};
ghost use Rattle.propagate.specs.Cases.{x, not_x};
ghost use Rattle.proof_rules.specs.Cases.{cover_file, least_cover, both, second_alone, cover_state, contradicting_state};
ghost use Rattle.proof_rules.specs.Fault.{IsConclusionFault};
ghost use Rattle.proof_rules.specs.Justified.{IsJustified};
ghost use Rattle.proof_rules.specs.State.{State, IsOutside};
ghost use Rattle.proof_rules.specs.declared.fault.StepFault.{StepFault};
ghost use Rattle.proof_rules.specs.declared.fault.StepFault.TheVariants.{NoObjective, SolutionConflict, SolutionPartial, TooLarge, SolutionLogged, LowerAboveBest, LowerNotShown, UpperNotLogged};
ghost use Rattle.proof_steps.specs.declared.conclusion.Conclusion.TheVariants.{Nothing, Sat, Unsat, Bounds};
ghost use Rattle.proof_steps.specs.declared.conclusion.Lower.TheVariants as lower;
ghost use Rattle.proof_steps.specs.declared.conclusion.Upper.TheVariants as upper;

/// `BOUNDS 0 0` of a file without an objective has no objective, also where the hint `x0 ~x0` contradicts itself: the
/// hint is judged behind it. With an objective the hint is the fault.
pub fn objective_before_the_hint()
    ensures objective { IsConclusionFault cover_file (cover_state None []) (Bounds (lower.At (pos 0)) (upper.At (pos 0)) (Some (x 0 ∷ not_x 0 ∷ []))) NoObjective }
    ensures not_the_hint { IsConclusionFault cover_file (cover_state None []) (Bounds (lower.At (pos 0)) (upper.At (pos 0)) (Some (x 0 ∷ not_x 0 ∷ []))) SolutionConflict → ⊥ }
    ensures hint { IsConclusionFault least_cover (cover_state None []) (Bounds (lower.At (pos 0)) (upper.At (pos 0)) (Some (x 0 ∷ not_x 0 ∷ []))) SolutionConflict }
{}

/// `BOUNDS 2 2` where a solution of value 1 improves: the bound is above the best value, which is judged before whether
/// the bound is shown.
pub fn bound_above_the_best()
    ensures above { IsConclusionFault least_cover (cover_state (Some (pos 1)) (second_alone ∷ [])) (Bounds (lower.At (pos 2)) (upper.At (pos 2)) None) LowerAboveBest }
    ensures not_shown { IsConclusionFault least_cover (cover_state (Some (pos 1)) (second_alone ∷ [])) (Bounds (lower.At (pos 2)) (upper.At (pos 2)) None) LowerNotShown → ⊥ }
{}

/// `BOUNDS 0 0` there: the bound 0 is shown, and no logged solution is worth 0.
pub fn upper_bound_not_logged()
    ensures { IsConclusionFault least_cover (cover_state (Some (pos 1)) (second_alone ∷ [])) (Bounds (lower.At (pos 0)) (upper.At (pos 0)) None) UpperNotLogged }
{}

/// That nothing satisfies the problem is refused where a solution is logged, and that something does where none is.
pub fn satisfiable_or_not()
    ensures unsatisfiable { IsConclusionFault cover_file (cover_state None (both ∷ [])) Unsat SolutionLogged }
    ensures unsatisfiable_not_shown { IsConclusionFault cover_file (cover_state None (both ∷ [])) Unsat LowerNotShown → ⊥ }
    ensures infinite_bounds { IsConclusionFault least_cover (cover_state None (both ∷ [])) (Bounds lower.Inf upper.Inf None) SolutionLogged }
    ensures satisfiable { IsConclusionFault cover_file (cover_state None []) (Sat None) UpperNotLogged }
    ensures nothing_shown { IsConclusionFault cover_file (cover_state None []) Unsat LowerNotShown }
{}

/// `BOUNDS 0 5` with the hint `x0 x1` is justified where nothing is logged: the hint is the solution of a value of at
/// most 5, and it is the best one.
pub fn hint_is_a_solution()
    ensures { IsJustified least_cover (cover_state None []) (Bounds (lower.At (pos 0)) (upper.At (pos 5)) (Some (x 0 ∷ x 1 ∷ []))) (Some both) }
{}

/// `BOUNDS 1 1` where a solution of value 1 improves: the bound may be the best value, and the file's constraint shows it.
pub fn bound_at_the_best()
    ensures { IsJustified least_cover (cover_state (Some (pos 1)) (second_alone ∷ [])) (Bounds (lower.At (pos 1)) (upper.At (pos 1)) None) (Some second_alone) }
{}

/// `BOUNDS 2^121 INF` is beyond the limits, which is judged before whether it is shown.
pub fn bound_beyond_the_limits()
    ensures limits { IsConclusionFault least_cover (cover_state None []) (Bounds (lower.At (pos (2 ^ 121))) upper.Inf None) TooLarge }
    ensures not_shown { IsConclusionFault least_cover (cover_state None []) (Bounds (lower.At (pos (2 ^ 121))) upper.Inf None) LowerNotShown → ⊥ }
{}

/// Where `1 x0 >= 1` and `1 ~x0 >= 1` are live and nothing is logged, nothing satisfies the problem.
pub fn contradiction_is_unsatisfiable()
    ensures unsatisfiable { IsJustified cover_file contradicting_state Unsat None }
    ensures infinite_bounds { IsJustified least_cover contradicting_state (Bounds lower.Inf upper.Inf None) None }
{}

/// `SAT` is justified by a logged solution; a hint is judged all the same, and `x0` leaves x1 open.
pub fn logged_solution_satisfies()
    ensures logged { IsJustified cover_file (cover_state None (both ∷ [])) (Sat None) (Some both) }
    ensures hint_judged { IsConclusionFault cover_file (cover_state None (both ∷ [])) (Sat (Some (x 0 ∷ []))) SolutionPartial }
{}

/// `BOUNDS INF INF` with the hint `x0 x1` where nothing is logged: the hint is logged for the conclusion, and the lower
/// bound, which claims that nothing satisfies the problem, is refused for that solution, before it is asked whether the
/// bound is shown. So it is refused where it is shown too; without the hint it stands there.
pub fn hint_is_logged_before_infinite_bounds()
    ensures logged { IsConclusionFault least_cover (cover_state None [])
        (Bounds lower.Inf upper.Inf (Some (x 0 ∷ x 1 ∷ []))) SolutionLogged }
    ensures not_shown { IsConclusionFault least_cover (cover_state None [])
        (Bounds lower.Inf upper.Inf (Some (x 0 ∷ x 1 ∷ []))) LowerNotShown → ⊥ }
    ensures though_shown { IsConclusionFault least_cover contradicting_state
        (Bounds lower.Inf upper.Inf (Some (x 0 ∷ x 1 ∷ []))) SolutionLogged }
    ensures without_hint { IsConclusionFault least_cover contradicting_state
        (Bounds lower.Inf upper.Inf None) SolutionLogged → ⊥ }
{}

/// Lower bounds that are within the limits, and not shown: `BOUNDS 2 INF` and `BOUNDS INF INF` on `1 x0 1 x1 >= 1`,
/// where nothing is logged. The bound 1 is shown there.
pub fn lower_bound_not_shown()
    ensures above { IsConclusionFault least_cover (cover_state None [])
        (Bounds (lower.At (pos 2)) upper.Inf None) LowerNotShown }
    ensures not_limits { IsConclusionFault least_cover (cover_state None [])
        (Bounds (lower.At (pos 2)) upper.Inf None) TooLarge → ⊥ }
    ensures covered { IsConclusionFault least_cover (cover_state None [])
        (Bounds (lower.At (pos 1)) upper.Inf None) LowerNotShown → ⊥ }
    ensures infinite { IsConclusionFault least_cover (cover_state None [])
        (Bounds lower.Inf upper.Inf None) LowerNotShown }
    ensures not_logged { IsConclusionFault least_cover (cover_state None [])
        (Bounds lower.Inf upper.Inf None) SolutionLogged → ⊥ }
{}

/// `NONE` has no fault in any state where no block is open. The best solution is handed out with it, and there is none where nothing is logged.
pub fn nothing_concluded()
    ensures unlogged { IsJustified cover_file (cover_state None []) Nothing None }
    ensures logged { IsJustified cover_file (cover_state None (both ∷ [])) Nothing (Some both) }
    ensures not_without_best { IsJustified cover_file (cover_state None (both ∷ [])) Nothing None → ⊥ }
    ensures contradicting { IsJustified cover_file contradicting_state Nothing None }
    ensures no_fault { (s : State) → (f : StepFault) → IsOutside s → IsConclusionFault cover_file s Nothing f → ⊥ }
{}

/// `BOUNDS -INF 2` where `x0 x1` is logged: the lower bound -INF needs nothing to be shown, and the upper one a logged
/// solution that is worth no more. For 1 there is none, and `BOUNDS -INF INF` needs none.
pub fn no_lower_bound()
    ensures upper { IsJustified least_cover (cover_state None (both ∷ []))
        (Bounds lower.MinusInf (upper.At (pos 2)) None) (Some both) }
    ensures below_best { IsConclusionFault least_cover (cover_state None (both ∷ []))
        (Bounds lower.MinusInf (upper.At (pos 1)) None) UpperNotLogged }
    ensures not_lower { IsConclusionFault least_cover (cover_state None (both ∷ []))
        (Bounds lower.MinusInf (upper.At (pos 1)) None) LowerNotShown → ⊥ }
    ensures neither { IsJustified least_cover (cover_state None []) (Bounds lower.MinusInf upper.Inf None) None }
    ensures unlogged { IsConclusionFault least_cover (cover_state None [])
        (Bounds lower.MinusInf (upper.At (pos 2)) None) UpperNotLogged }
    ensures no_objective { IsConclusionFault cover_file (cover_state None [])
        (Bounds lower.MinusInf upper.Inf None) NoObjective }
{}

/// `BOUNDS 3 1` where nothing is logged: the lower bound is not shown, and the upper one is not logged, which is judged
/// behind it. In `BOUNDS INF 1` where a solution of value 2 is logged the lower bound is refused for that solution first.
pub fn lower_bound_before_the_upper()
    ensures not_shown { IsConclusionFault least_cover (cover_state None [])
        (Bounds (lower.At (pos 3)) (upper.At (pos 1)) None) LowerNotShown }
    ensures not_upper { IsConclusionFault least_cover (cover_state None [])
        (Bounds (lower.At (pos 3)) (upper.At (pos 1)) None) UpperNotLogged → ⊥ }
    ensures infinite { IsConclusionFault least_cover (cover_state None (both ∷ []))
        (Bounds lower.Inf (upper.At (pos 1)) None) SolutionLogged }
    ensures infinite_not_upper { IsConclusionFault least_cover (cover_state None (both ∷ []))
        (Bounds lower.Inf (upper.At (pos 1)) None) UpperNotLogged → ⊥ }
{}

/// `BOUNDS 2^121 INF` where a solution of value 1 improves: the bound is beyond the limits, and above the best value,
/// which is judged first.
pub fn best_value_before_the_limits()
    ensures above { IsConclusionFault least_cover (cover_state (Some (pos 1)) (second_alone ∷ []))
        (Bounds (lower.At (pos (2 ^ 121))) upper.Inf None) LowerAboveBest }
    ensures not_limits { IsConclusionFault least_cover (cover_state (Some (pos 1)) (second_alone ∷ []))
        (Bounds (lower.At (pos (2 ^ 121))) upper.Inf None) TooLarge → ⊥ }
{}

/// `BOUNDS 2 INF` where `sol` alone logged a solution of value 1: it is no improving one, so the bound is above no best
/// value. It is not shown.
pub fn bound_above_a_logged_value()
    ensures not_shown { IsConclusionFault least_cover (cover_state None (second_alone ∷ []))
        (Bounds (lower.At (pos 2)) upper.Inf None) LowerNotShown }
    ensures not_above { IsConclusionFault least_cover (cover_state None (second_alone ∷ []))
        (Bounds (lower.At (pos 2)) upper.Inf None) LowerAboveBest → ⊥ }
{}

/// `SAT` and `UNSAT` may be concluded of a file with an objective too, and are at fault there as without one. With `SAT` the
/// best of the logged solutions is handed out.
pub fn satisfiable_or_not_with_objective()
    ensures satisfiable { IsJustified least_cover (cover_state None (both ∷ second_alone ∷ [])) (Sat None) (Some second_alone) }
    ensures not_the_first { IsJustified least_cover (cover_state None (both ∷ second_alone ∷ [])) (Sat None) (Some both) → ⊥ }
    ensures unsatisfiable { IsJustified least_cover contradicting_state Unsat None }
    ensures logged { IsConclusionFault least_cover (cover_state None (both ∷ [])) Unsat SolutionLogged }
    ensures nothing_shown { IsConclusionFault least_cover (cover_state None []) Unsat LowerNotShown }
    ensures unlogged { IsConclusionFault least_cover (cover_state None []) (Sat None) UpperNotLogged }
{}
