//! Steps and conclusions with the bytes by which they are written, each case a clause of a function that does nothing. The
//! file's names are `x1` and `x2`.
//!
//! The contracts of the writer give its text by the words of a step; these cases hold those words in place. That the text
//! reads back would be true of many others.

ghost use Rattle.std.specs.Prelude.{◌≡◌, pos, None, Some, [], ◌∷◌, ◌++◌, codes};
ghost use Rattle.substitution.specs.declared.image.Image.TheVariants as images;
ghost use Rattle.proof_steps.specs.declared.step.Item.TheVariants.{Id, Axiom, Add, Multiply, Divide, Saturate, Weaken};
ghost use Rattle.proof_steps.specs.declared.step.GoalName.TheVariants as goals;
ghost use Rattle.proof_steps.specs.declared.step.Step.TheVariants as steps;
ghost use Rattle.proof_steps.specs.declared.conclusion.Lower.TheVariants as lowers;
ghost use Rattle.proof_steps.specs.declared.conclusion.Upper.TheVariants as uppers;
ghost use Rattle.proof_steps.specs.declared.conclusion.Conclusion.TheVariants as conclusions;
ghost use Rattle.proof_text.specs.Cases.{file, variable, plain, negated, term, at_least, minus, improving_proof, one_and_one};
ghost use Rattle.proof_write.specs.Writing.{spaced, step_words, conclusion_words, line_text};

/// Steps: integers in plain decimal, literals as a name or `~` and a name, single spaces.
pub fn written_steps()
    ensures pol { line_text (step_words file (steps.Pol (Id (pos 1) ∷ Id (minus 2) ∷ Add ∷ Divide (pos 3) ∷ Saturate ∷ Weaken (variable 1) ∷ Axiom (negated 0) ∷ Multiply (pos 120) ∷ []))) ≡ codes "pol 1 -2 + 3 d s x2 w ~x1 120 *" }
    ensures rup { line_text (step_words file (steps.Rup (at_least (term (pos 1) (plain 0) ∷ term (minus 2) (negated 1) ∷ []) (pos 0)))) ≡ codes "rup 1 x1 -2 ~x2 >= 0 ;" }
    ensures red { line_text (step_words file (steps.Red (at_least (term (pos 3) (plain 0) ∷ term (minus 2) (negated 1) ∷ []) (minus 1)) ((variable 0, images.One) ∷ (variable 1, images.Lit (negated 0)) ∷ []))) ≡ codes "red 3 x1 -2 ~x2 >= -1 ; x1 -> 1 x2 -> ~x1" }
    ensures red_to_zero { line_text (step_words file (steps.Red (at_least (term (pos 1) (negated 0) ∷ []) (pos 1)) ((variable 0, images.Zero) ∷ []))) ≡ codes "red 1 ~x1 >= 1 ; x1 -> 0" }
    ensures solution { line_text (step_words file (steps.Sol (negated 0 ∷ plain 1 ∷ []))) ≡ codes "sol ~x1 x2" }
    ensures improving { line_text (step_words file (steps.Soli (plain 0 ∷ negated 1 ∷ []))) ≡ codes "soli x1 ~x2" }
    ensures deletion { line_text (step_words file (steps.Del (pos 2 ∷ minus 1 ∷ []))) ≡ codes "del id 2 -1" }
{}

/// The lines of subproofs.
pub fn written_subproofs()
    ensures block { line_text (step_words file (steps.RedBegin (at_least (term (pos 1) (plain 0) ∷ []) (pos 1)) ((variable 0, images.One) ∷ []))) ≡ codes "red 1 x1 >= 1 ; x1 -> 1 ; begin" }
    ensures block_without_images { line_text (step_words file (steps.RedBegin (at_least [] (pos 1)) [])) ≡ codes "red >= 1 ; ; begin" }
    ensures goal_of_id { line_text (step_words file (steps.Goal (goals.Live (pos 3)))) ≡ codes "proofgoal 3" }
    ensures goal_of_newest { line_text (step_words file (steps.Goal (goals.Live (minus 1)))) ≡ codes "proofgoal -1" }
    ensures goal_of_itself { line_text (step_words file (steps.Goal goals.Itself)) ≡ codes "proofgoal #1" }
    ensures goal_of_objective { line_text (step_words file (steps.Goal goals.Objective)) ≡ codes "proofgoal #2" }
    ensures ending { line_text (step_words file steps.End) ≡ codes "end" }
{}

/// Conclusions: an infinite bound by its word, a hint behind a colon, and no hint without one.
pub fn written_conclusions()
    ensures bounds { codes "conclusion" ++ spaced (conclusion_words file (conclusions.Bounds (lowers.At (minus 1)) (uppers.At (pos 2)) (Some (negated 0 ∷ [])))) ≡ codes "conclusion BOUNDS -1 2 : ~x1" }
    ensures no_bounds { codes "conclusion" ++ spaced (conclusion_words file (conclusions.Bounds lowers.MinusInf uppers.Inf None)) ≡ codes "conclusion BOUNDS -INF INF" }
    ensures infinite { codes "conclusion" ++ spaced (conclusion_words file (conclusions.Bounds lowers.Inf uppers.Inf None)) ≡ codes "conclusion BOUNDS INF INF" }
    ensures unsatisfiable { codes "conclusion" ++ spaced (conclusion_words file conclusions.Unsat) ≡ codes "conclusion UNSAT" }
    ensures satisfied { codes "conclusion" ++ spaced (conclusion_words file (conclusions.Sat (Some (plain 0 ∷ negated 1 ∷ [])))) ≡ codes "conclusion SAT : x1 ~x2" }
    ensures satisfiable { codes "conclusion" ++ spaced (conclusion_words file (conclusions.Sat None)) ≡ codes "conclusion SAT" }
    ensures nothing { codes "conclusion" ++ spaced (conclusion_words file conclusions.Nothing) ≡ codes "conclusion NONE" }
{}

/// A whole proof: two steps and the lines behind them, below the header and the count.
pub fn written_proof()
    ensures { codes "pseudo-Boolean proof version 2.0\nf 1\n" ++ line_text (step_words file (steps.Soli (plain 0 ∷ negated 1 ∷ []))) ++ 10 ∷ line_text (step_words file (steps.Pol (Id (pos 1) ∷ Id (pos 2) ∷ Add ∷ []))) ++ 10 ∷ codes "output NONE\n" ++ (codes "conclusion" ++ spaced (conclusion_words file one_and_one)) ++ codes "\nend pseudo-Boolean proof\n" ≡ improving_proof }
{}
