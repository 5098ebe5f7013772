//! The definitions of the lines worked by hand, each case a clause of a function that does nothing: what a line says, and what
//! is none. The file's names are `x1` and `x2`.
//!
//! The grammar is that of the VeriPB proof format, version 2.0. Contracts cite its definitions, and the laws about them
//! would hold of many others; these lines, with what the format's description gives for them, hold the definitions in place.

ghost use Rattle.std.specs.Prelude.{◌^◌, pos, None, Some, [], ◌∷◌, codes};
ghost use Rattle.substitution.specs.declared.image.Image.TheVariants as images;
ghost use Rattle.proof_steps.specs.declared.step.Item.TheVariants.{Id, Axiom, Add, Multiply, Divide, Saturate, Weaken};
ghost use Rattle.proof_steps.specs.declared.step.GoalName.TheVariants as goals;
ghost use Rattle.proof_steps.specs.declared.step.Step.TheVariants as steps;
ghost use Rattle.proof_steps.specs.declared.conclusion.Lower.TheVariants as lowers;
ghost use Rattle.proof_steps.specs.declared.conclusion.Upper.TheVariants as uppers;
ghost use Rattle.proof_steps.specs.declared.conclusion.Conclusion.TheVariants as conclusions;
ghost use Rattle.proof_text.specs.declared.line.Line.TheVariants as lines;
ghost use Rattle.proof_text.specs.declared.line.Section.TheVariants as sections;
ghost use Rattle.proof_text.specs.ProofSpells.{SpellsProof};
ghost use Rattle.proof_text.specs.Cases.{file, variable, plain, negated, term, at_least, minus, Spells, SpellsNothing, line_at, AreLines, improving_proof, improving_steps, one_and_one, growing_proof, growing_steps, growing_conclusion, nested_proof, nested_steps, IsNoProof};

/// `pol`: an integer directly before `*` or `d` belongs to it, and a name before `w`. `x3`, `zz` and others are names that the file has not:
/// they are numbered behind its own, in order of first occurrence. An integer may be as large as 2^120.
pub fn expressions()
    ensures all_items { Spells sections.Step (codes "pol 1 2 + 3 d s x3 w ~x1 4 * ;") (lines.Step (steps.Pol (Id (pos 1) ∷ Id (pos 2) ∷ Add ∷ Divide (pos 3) ∷ Saturate ∷ Weaken (variable 2) ∷ Axiom (negated 0) ∷ Multiply (pos 4) ∷ []))) (codes "x1" ∷ codes "x2" ∷ codes "x3" ∷ []) }
    ensures dense { Spells sections.Step (codes "p 007 -1 +;") (lines.Step (steps.Pol (Id (pos 7) ∷ Id (minus 1) ∷ Add ∷ []))) file }
    ensures factor { Spells sections.Step (codes "pol 1 d") (lines.Step (steps.Pol (Divide (pos 1) ∷ []))) file }
    ensures no_items { Spells sections.Step (codes "pol") (lines.Step (steps.Pol [])) file }
    ensures axiom_alone { Spells sections.Step (codes "pol x1 s x2 w") (lines.Step (steps.Pol (Axiom (plain 0) ∷ Saturate ∷ Weaken (variable 1) ∷ []))) file }
    ensures in_order { Spells sections.Step (codes "pol zz ~x2 yy zz ~xx") (lines.Step (steps.Pol (Axiom (plain 2) ∷ Axiom (negated 1) ∷ Axiom (plain 3) ∷ Axiom (plain 2) ∷ Axiom (negated 4) ∷ []))) (codes "x1" ∷ codes "x2" ∷ codes "zz" ∷ codes "yy" ∷ codes "xx" ∷ []) }
    ensures largest { Spells sections.Step (codes "pol 1 -1329227995784915872903807060280344576 *") (lines.Step (steps.Pol (Id (pos 1) ∷ Multiply (minus (2 ^ 120)) ∷ []))) file }
{}

/// No `pol` line: `*` and `d` without an integer directly before them, `w` without a name, a second `;`, a larger integer.
pub fn no_expressions()
    ensures too_large { SpellsNothing sections.Step (codes "pol 1 1329227995784915872903807060280344577 *") }
    ensures d_alone { SpellsNothing sections.Step (codes "pol s d") }
    ensures times_alone { SpellsNothing sections.Step (codes "pol x1 + *") }
    ensures integer_taken { SpellsNothing sections.Step (codes "pol 1 2 * d") }
    ensures w_alone { SpellsNothing sections.Step (codes "pol 1 w") }
    ensures w_negated { SpellsNothing sections.Step (codes "pol ~x1 w") }
    ensures two_semicolons { SpellsNothing sections.Step (codes "pol 1 ; ;") }
{}

/// No step: an unknown rule, one that is left out, a rule's word that goes on; and none where the conclusion is due.
pub fn no_steps()
    ensures no_rule { SpellsNothing sections.Step (codes "foo 1") }
    ensures rule_left_out { SpellsNothing sections.Step (codes "solx x1") }
    ensures rule_joined { SpellsNothing sections.Step (codes "pol+") }
    ensures too_late { SpellsNothing sections.Conclusion (codes "pol 1") }
{}

/// `rup`: terms stay as they are written, and what stands behind the `;` is not judged: it brings no name, and its integers may have any size.
pub fn propagations()
    ensures hints { Spells sections.Step (codes "rup 1 x1 1 x2 >= 1 ; 7 ~ 99") (lines.Step (steps.Rup (at_least (term (pos 1) (plain 0) ∷ term (pos 1) (plain 1) ∷ []) (pos 1)))) file }
    ensures hinted_names { Spells sections.Step (codes "u 1 x1 1 x2 >= 1 ; x3 1329227995784915872903807060280344577") (lines.Step (steps.Rup (at_least (term (pos 1) (plain 0) ∷ term (pos 1) (plain 1) ∷ []) (pos 1)))) file }
    ensures any_terms { Spells sections.Step (codes "rup 0 x2 -2 ~x2 +3 x2 >= -0 ;") (lines.Step (steps.Rup (at_least (term (pos 0) (plain 1) ∷ term (minus 2) (negated 1) ∷ term (pos 3) (plain 1) ∷ []) (pos 0)))) file }
    ensures no_terms { Spells sections.Step (codes "rup >= 1 ;") (lines.Step (steps.Rup (at_least [] (pos 1)))) file }
{}

/// A constraint of a proof has coefficients, `>=`, one integer, and a `;` behind it.
pub fn no_constraints()
    ensures equality { SpellsNothing sections.Step (codes "rup 1 x1 = 1 ;") }
    ensures at_most { SpellsNothing sections.Step (codes "rup 1 x1 <= 1 ;") }
    ensures not_closed { SpellsNothing sections.Step (codes "rup 1 x1 >= 1") }
    ensures no_coefficient { SpellsNothing sections.Step (codes "rup x1 >= 1 ;") }
    ensures no_right_side { SpellsNothing sections.Step (codes "rup 1 x1 >= ;") }
    ensures two_right_sides { SpellsNothing sections.Step (codes "rup 1 x1 >= 1 1 ;") }
{}

/// `red`: an arrow may stand before an image, or none; the substitution may be empty.
pub fn substitutions()
    ensures no_arrow { Spells sections.Step (codes "red 1 x1 >= 1 ; x1 1") (lines.Step (steps.Red (at_least (term (pos 1) (plain 0) ∷ []) (pos 1)) ((variable 0, images.One) ∷ []))) file }
    ensures arrow { Spells sections.Step (codes "red 1 x1 >= 1 ; x1 -> 1") (lines.Step (steps.Red (at_least (term (pos 1) (plain 0) ∷ []) (pos 1)) ((variable 0, images.One) ∷ []))) file }
    ensures every_image { Spells sections.Step (codes "red 1 x1 >= 1 ; x1 -> ~x3 x3 -> x2 x2 0 ;") (lines.Step (steps.Red (at_least (term (pos 1) (plain 0) ∷ []) (pos 1)) ((variable 0, images.Lit (negated 2)) ∷ (variable 2, images.Lit (plain 1)) ∷ (variable 1, images.Zero) ∷ []))) (codes "x1" ∷ codes "x2" ∷ codes "x3" ∷ []) }
    ensures no_images { Spells sections.Step (codes "red 1 x1 >= 1 ;") (lines.Step (steps.Red (at_least (term (pos 1) (plain 0) ∷ []) (pos 1)) [])) file }
{}

/// An image is a literal or the very text `0` or `1`; on the left stands a name, once.
pub fn no_substitutions()
    ensures no_substitution { SpellsNothing sections.Step (codes "red 1 x1 >= 1") }
    ensures image_zeros { SpellsNothing sections.Step (codes "red 1 x1 >= 1 ; x1 00") }
    ensures image_signed { SpellsNothing sections.Step (codes "red 1 x1 >= 1 ; x1 +1") }
    ensures no_image { SpellsNothing sections.Step (codes "red 1 x1 >= 1 ; x1 ->") }
    ensures two_arrows { SpellsNothing sections.Step (codes "red 1 x1 >= 1 ; x1 -> -> 1") }
    ensures left_negated { SpellsNothing sections.Step (codes "red 1 x1 >= 1 ; ~x1 -> 0") }
    ensures name_twice { SpellsNothing sections.Step (codes "red 1 x1 >= 1 ; x1 -> 1 x1 -> 0") }
{}

/// Subproofs. A `red` line opens a block by `; begin`, behind a substitution that may be empty; a goal is an id, `#1` or `#2`; `pol` and `rup`
/// stand in a block and in its goals, and the `end` of a goal may have an id.
pub fn subproofs()
    ensures block { Spells sections.Step (codes "red 1 x1 >= 1 ; x1 -> 1 ; begin") (lines.Step (steps.RedBegin (at_least (term (pos 1) (plain 0) ∷ []) (pos 1)) ((variable 0, images.One) ∷ []))) file }
    ensures block_closed { Spells sections.Step (codes "red >= 1 ; x1 0 ; begin ;") (lines.Step (steps.RedBegin (at_least [] (pos 1)) ((variable 0, images.Zero) ∷ []))) file }
    ensures block_without_images { Spells sections.Step (codes "red >= 1 ; ; begin") (lines.Step (steps.RedBegin (at_least [] (pos 1)) [])) file }
    ensures goal_of_id { Spells sections.Block (codes "proofgoal 3") (lines.Step (steps.Goal (goals.Live (pos 3)))) file }
    ensures goal_of_newest { Spells sections.Block (codes "proofgoal -1 ;") (lines.Step (steps.Goal (goals.Live (minus 1)))) file }
    ensures goal_of_itself { Spells sections.Block (codes "proofgoal #1") (lines.Step (steps.Goal goals.Itself)) file }
    ensures goal_of_objective { Spells sections.Block (codes "proofgoal #2 ;") (lines.Step (steps.Goal goals.Objective)) file }
    ensures derived_in_block { Spells sections.Block (codes "pol 1 2 +") (lines.Step (steps.Pol (Id (pos 1) ∷ Id (pos 2) ∷ Add ∷ []))) file }
    ensures shown_in_goal { Spells sections.Goal (codes "u >= 1 ;") (lines.Step (steps.Rup (at_least [] (pos 1)))) file }
    ensures end_of_goal { Spells sections.Goal (codes "end") (lines.Step steps.End) file }
    ensures end_of_goal_by_id { Spells sections.Goal (codes "end 8 ;") (lines.Step steps.End) file }
    ensures end_of_block { Spells sections.Block (codes "end ;") (lines.Step steps.End) file }
{}

/// No line of a subproof: `begin` without its `;`, or with more behind it; goals and ends outside blocks; other steps inside; an id
/// behind the `end` of a block; a larger integer.
pub fn no_subproofs()
    ensures begin_at_once { SpellsNothing sections.Step (codes "red 1 x1 >= 1 ; begin") }
    ensures more_than_begin { SpellsNothing sections.Step (codes "red 1 x1 >= 1 ; ; begin x1") }
    ensures three_semicolons { SpellsNothing sections.Step (codes "red 1 x1 >= 1 ; ; ; begin") }
    ensures goal_outside { SpellsNothing sections.Step (codes "proofgoal #1") }
    ensures goal_in_goal { SpellsNothing sections.Goal (codes "proofgoal #1") }
    ensures third_goal { SpellsNothing sections.Block (codes "proofgoal #3") }
    ensures no_goal { SpellsNothing sections.Block (codes "proofgoal") }
    ensures two_goals { SpellsNothing sections.Block (codes "proofgoal 1 2") }
    ensures goal_of_name { SpellsNothing sections.Block (codes "proofgoal x1") }
    ensures end_outside { SpellsNothing sections.Step (codes "end") }
    ensures end_of_block_by_id { SpellsNothing sections.Block (codes "end 8") }
    ensures end_by_two_ids { SpellsNothing sections.Goal (codes "end 8 9") }
    ensures end_of_proof_in_block { SpellsNothing sections.Block (codes "end pseudo-Boolean proof") }
    ensures block_in_block { SpellsNothing sections.Block (codes "red >= 1 ; ; begin") }
    ensures solution_in_block { SpellsNothing sections.Block (codes "sol x1") }
    ensures deletion_in_goal { SpellsNothing sections.Goal (codes "del id 1") }
    ensures output_in_block { SpellsNothing sections.Block (codes "output NONE") }
    ensures goal_too_large { SpellsNothing sections.Block (codes "proofgoal 1329227995784915872903807060280344577") }
    ensures end_too_large { SpellsNothing sections.Goal (codes "end -1329227995784915872903807060280344577") }
{}

/// `sol` and `soli`: literals alone.
pub fn solutions()
    ensures improving { Spells sections.Step (codes "soli x1 ~x2") (lines.Step (steps.Soli (plain 0 ∷ negated 1 ∷ []))) file }
    ensures solution { Spells sections.Step (codes "sol ~x3 x1 ;") (lines.Step (steps.Sol (negated 2 ∷ plain 0 ∷ []))) (codes "x1" ∷ codes "x2" ∷ codes "x3" ∷ []) }
    ensures empty_solution { Spells sections.Step (codes "sol") (lines.Step (steps.Sol [])) file }
    ensures solution_of_integers { SpellsNothing sections.Step (codes "sol 1") }
{}

/// `del id` and ids; nothing else is deleted.
pub fn deletions()
    ensures deletion { Spells sections.Step (codes "del id 2 -1") (lines.Step (steps.Del (pos 2 ∷ minus 1 ∷ []))) file }
    ensures empty_deletion { Spells sections.Step (codes "del id ;") (lines.Step (steps.Del [])) file }
    ensures deletion_of_range { SpellsNothing sections.Step (codes "del range 1 2") }
    ensures deletion_of_spec { SpellsNothing sections.Step (codes "del spec 1 x1 >= 1 ;") }
    ensures deletion_without_word { SpellsNothing sections.Step (codes "del 1") }
{}

/// The lines around the steps, each at its own section alone.
pub fn frame_lines()
    ensures header { Spells sections.Header (codes "pseudo-Boolean proof version 2.0") lines.Header file }
    ensures header_closed { Spells sections.Header (codes "pseudo-Boolean proof version 2.0 ;") lines.Header file }
    ensures header_of_other_version { SpellsNothing sections.Header (codes "pseudo-Boolean proof version 1.2") }
    ensures header_cut { SpellsNothing sections.Header (codes "pseudo-Boolean proof version") }
    ensures header_late { SpellsNothing sections.Step (codes "pseudo-Boolean proof version 2.0") }
    ensures count { Spells sections.Count (codes "f 5 ;") (lines.Count (pos 5)) file }
    ensures count_open { Spells sections.Count (codes "f 5") (lines.Count (pos 5)) file }
    ensures no_count { SpellsNothing sections.Count (codes "f") }
    ensures count_of_name { SpellsNothing sections.Count (codes "f x1") }
    ensures second_count { SpellsNothing sections.Step (codes "f 5") }
    ensures output { Spells sections.Step (codes "output NONE") lines.Output file }
    ensures output_closed { Spells sections.Step (codes "output NONE ;") lines.Output file }
    ensures other_output { SpellsNothing sections.Step (codes "output DERIVABLE") }
    ensures no_output { SpellsNothing sections.Step (codes "output") }
    ensures ending { Spells sections.End (codes "end pseudo-Boolean proof") lines.End file }
    ensures ending_closed { Spells sections.End (codes "end pseudo-Boolean proof ;") lines.End file }
    ensures end_alone { SpellsNothing sections.End (codes "end") }
{}

/// Conclusions. `: 7` hints at an id and counts for nothing; a hint without literals is a hint.
pub fn conclusions()
    ensures nothing_concluded { Spells sections.Conclusion (codes "conclusion NONE") (lines.Conclusion (conclusions.Nothing)) file }
    ensures satisfiable { Spells sections.Conclusion (codes "conclusion SAT") (lines.Conclusion (conclusions.Sat None)) file }
    ensures satisfied { Spells sections.Conclusion (codes "conclusion SAT : x1 ~x2") (lines.Conclusion (conclusions.Sat (Some (plain 0 ∷ negated 1 ∷ [])))) file }
    ensures satisfied_by_nothing { Spells sections.Conclusion (codes "conclusion SAT : ;") (lines.Conclusion (conclusions.Sat (Some []))) file }
    ensures satisfied_by_new { Spells sections.Conclusion (codes "conclusion SAT : x3") (lines.Conclusion (conclusions.Sat (Some (plain 2 ∷ [])))) (codes "x1" ∷ codes "x2" ∷ codes "x3" ∷ []) }
    ensures unsatisfiable { Spells sections.Conclusion (codes "conclusion UNSAT") (lines.Conclusion (conclusions.Unsat)) file }
    ensures unsatisfiable_by_id { Spells sections.Conclusion (codes "conclusion UNSAT : 7") (lines.Conclusion (conclusions.Unsat)) file }
    ensures bounds { Spells sections.Conclusion (codes "conclusion BOUNDS 1 1") (lines.Conclusion (conclusions.Bounds (lowers.At (pos 1)) (uppers.At (pos 1)) None)) file }
    ensures bounds_by_id { Spells sections.Conclusion (codes "conclusion BOUNDS 1 : 3 1") (lines.Conclusion (conclusions.Bounds (lowers.At (pos 1)) (uppers.At (pos 1)) None)) file }
    ensures bounds_by_both { Spells sections.Conclusion (codes "conclusion BOUNDS -1 : 3 2 : ~x1 ;") (lines.Conclusion (conclusions.Bounds (lowers.At (minus 1)) (uppers.At (pos 2)) (Some (negated 0 ∷ [])))) file }
    ensures no_bounds { Spells sections.Conclusion (codes "conclusion BOUNDS -INF INF : x1") (lines.Conclusion (conclusions.Bounds lowers.MinusInf uppers.Inf (Some (plain 0 ∷ [])))) file }
    ensures infinite_lower_bound { Spells sections.Conclusion (codes "conclusion BOUNDS INF 2") (lines.Conclusion (conclusions.Bounds lowers.Inf (uppers.At (pos 2)) None)) file }
{}

/// No conclusion: a bound or an id is missing, signed, or one too many; a hint stands without its colon.
pub fn no_conclusions()
    ensures no_upper_bound { SpellsNothing sections.Conclusion (codes "conclusion BOUNDS 1 : 3") }
    ensures no_upper_bound_at_all { SpellsNothing sections.Conclusion (codes "conclusion BOUNDS 1") }
    ensures upper_bound_below_all { SpellsNothing sections.Conclusion (codes "conclusion BOUNDS 1 -INF") }
    ensures lower_bound_signed { SpellsNothing sections.Conclusion (codes "conclusion BOUNDS +INF INF") }
    ensures no_conclusion { SpellsNothing sections.Conclusion (codes "conclusion") }
    ensures other_conclusion { SpellsNothing sections.Conclusion (codes "conclusion OPTIMAL 1") }
    ensures hint_without_colon { SpellsNothing sections.Conclusion (codes "conclusion SAT x1") }
    ensures two_id_hints { SpellsNothing sections.Conclusion (codes "conclusion UNSAT : 7 8") }
    ensures no_id_hint { SpellsNothing sections.Conclusion (codes "conclusion UNSAT :") }
    ensures nothing_hinted { SpellsNothing sections.Conclusion (codes "conclusion NONE : x1") }
{}

/// The lines of a text that count. Comments and blank lines have numbers and do not count; a CR before `*` makes it no
/// comment; a text that ends with LF ends on a line of its own.
pub fn texts()
    ensures empty { AreLines (codes "") [] 1 }
    ensures one { AreLines (codes "pol 1\n") (line_at 1 (codes "pol 1") ∷ []) 2 }
    ensures counted { AreLines (codes "* pol 9\n\npol 1\n \t\r\n\t * x1\n\r* x1\npol 2") (line_at 3 (codes "pol 1") ∷ line_at 6 (codes "\r* x1") ∷ line_at 7 (codes "pol 2") ∷ []) 7 }
{}

/// Whole proofs. Each line's new names are numbered behind those of the lines before it.
pub fn proofs()
    ensures improving { SpellsProof improving_proof file (pos 1) improving_steps one_and_one }
    ensures growing { SpellsProof growing_proof file (pos 3) growing_steps growing_conclusion }
    ensures nested { SpellsProof nested_proof file (pos 5) nested_steps conclusions.Unsat }
{}

/// No proofs: one without an end line, one with a line that counts behind it, one with a step behind the output line, and one
/// whose block is left open.
pub fn no_proofs()
    ensures no_end { IsNoProof (codes "pseudo-Boolean proof version 2.0\nf 1\noutput NONE\nconclusion NONE\n") }
    ensures text_behind { IsNoProof (codes "pseudo-Boolean proof version 2.0\nf 1\noutput NONE\nconclusion NONE\nend pseudo-Boolean proof\npol 1\n") }
    ensures block_open { IsNoProof (codes "pseudo-Boolean proof version 2.0\nf 1\nred >= 1 ; ; begin\noutput NONE\nconclusion NONE\nend pseudo-Boolean proof\n") }
    ensures step_behind { IsNoProof (codes "pseudo-Boolean proof version 2.0\nf 1\noutput NONE\npol 1\nconclusion NONE\nend pseudo-Boolean proof\n") }
{}
