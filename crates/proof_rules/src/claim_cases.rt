//! What a conclusion claims of a problem, computed on small files, each the contract of a function that does nothing.
//!
//! All else that is proved of conclusions ends in a claim, and nothing is derived from one. So a definition that claimed too little
//! would be met by every proof, and only these cases, most of which must not hold, refuse it.

ghost use Rattle.std.specs.Prelude.{pos, true, false, [], ◌∷◌, Some, None};
ghost use Rattle.propagate.specs.Cases.{x};
ghost use Rattle.proof_rules.specs.Cases.{cover_file, least_cover, both, second_alone};
ghost use Rattle.proof_rules.specs.Claim.{Claim};
ghost use Rattle.proof_steps.specs.declared.conclusion.Conclusion.TheVariants.{Nothing, Sat, Unsat, Bounds};
ghost use Rattle.proof_steps.specs.declared.conclusion.Lower.TheVariants as lower;
ghost use Rattle.proof_steps.specs.declared.conclusion.Upper.TheVariants as upper;

/// Under `min: 1 x0 1 x1` with `1 x0 1 x1 >= 1` the least value is 1: it is claimed with the assignment that has it. A lower bound of 2 is
/// false of that assignment, and an upper bound of 0 is not shown by it.
pub fn bounds_of_the_least_cover()
    ensures exact { Claim least_cover (Bounds (lower.At (pos 1)) (upper.At (pos 1)) None) (Some second_alone) }
    ensures too_great { Claim least_cover (Bounds (lower.At (pos 2)) upper.Inf None) (Some second_alone) → ⊥ }
    ensures too_great_of_none { Claim least_cover (Bounds (lower.At (pos 2)) upper.Inf None) None → ⊥ }
    ensures too_small { Claim least_cover (Bounds lower.MinusInf (upper.At (pos 0)) None) (Some second_alone) → ⊥ }
{}

/// An upper bound comes with an assignment, whatever it is; that nothing satisfies the file is false of it; no bound at all claims nothing.
pub fn infinite_bounds_of_the_least_cover()
    ensures unnamed { Claim least_cover (Bounds lower.MinusInf (upper.At (pos 5)) None) None → ⊥ }
    ensures unsatisfiable { Claim least_cover (Bounds lower.Inf upper.Inf None) None → ⊥ }
    ensures none { Claim least_cover (Bounds lower.MinusInf upper.Inf None) None }
{}

/// `1 x0 1 x1 >= 1` is satisfiable, which an assignment shows, and not unsatisfiable. A hint is no assignment: what is handed out is.
pub fn satisfiability_of_the_cover()
    ensures satisfiable { Claim cover_file (Sat None) (Some second_alone) }
    ensures unnamed { Claim cover_file (Sat None) None → ⊥ }
    ensures hinted { Claim cover_file (Sat (Some (x 0 ∷ x 1 ∷ []))) None → ⊥ }
    ensures unsatisfiable { Claim cover_file Unsat None → ⊥ }
{}

/// What is handed out satisfies the file and has a value for each variable, also where nothing is concluded.
pub fn assignments_of_the_cover()
    ensures both { Claim cover_file Nothing (Some both) }
    ensures none { Claim cover_file Nothing None }
    ensures falsifies { Claim cover_file Nothing (Some (false ∷ false ∷ [])) → ⊥ }
    ensures too_short { Claim cover_file Nothing (Some (true ∷ [])) → ⊥ }
    ensures too_long { Claim cover_file Nothing (Some (true ∷ true ∷ true ∷ [])) → ⊥ }
{}
