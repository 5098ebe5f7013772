//! Worked cases: the definitions computed on small logs.

ghost use Rattle.std.specs.Prelude.{◌≡◌, ℕ, [], ◌∷◌, ◌++◌, List, None, Some, length, pos, true};
ghost use Rattle.linear.specs.declared.constraint.Relation.TheVariants.{AtLeast};
ghost use Rattle.normal_form.specs.Cases.{negated, normal, plain, signed, signed_not};
ghost use Rattle.propagate.specs.Cases.{one_of_two, x, not_x};
ghost use Rattle.proof_rules.specs.Cases.{cover_file};
ghost use Rattle.proof_rules.specs.State.{HasRoom, constraints};
ghost use Rattle.proof_steps.specs.declared.conclusion.Conclusion.TheVariants as conclusions;
ghost use Rattle.proof_steps.specs.declared.conclusion.Lower.TheVariants as lowers;
ghost use Rattle.proof_steps.specs.declared.conclusion.Upper.TheVariants as uppers;
ghost use Rattle.proof_write.specs.Whole.{first_lines, step_line};
ghost use Rattle.search.specs.Clause.{negated_clause};
ghost use Rattle.search.specs.Conflicts.{LeadsAtLast, MeetsConflict, TakesLast};
ghost use Rattle.proof_log.specs.Log.{Logbook};
ghost use Rattle.search.specs.Presolving.{BeginsPresolved, fixing};
ghost use Rattle.search.specs.Solving.{BearsOut, MayStop};
ghost use Rattle.search.specs.declared.found.Found.TheVariants as founds;
ghost use Rattle.search.specs.declared.found.Unfinished.TheVariants as reasons;
ghost use Rattle.search.specs.Decisions.{AreDecisions};

/// Of no literals the clause says that there is a conflict; of x1 and ~x2 it is 1 ~x1 1 x2 >= 1.
pub fn clause_of_two_literals()
    ensures none { negated_clause [] ≡ record { terms = []; relation = AtLeast; right = pos 1 } }
    ensures two { negated_clause (x 1 ∷ not_x 2 ∷ [])
        ≡ record { terms = signed_not (pos 1) 1 ∷ signed (pos 1) 2 ∷ []; relation = AtLeast; right = pos 1 } }
{}

/// Under `1 x1 1 x2 >= 1 ; 1 x1 1 ~x2 >= 1` a conflict takes ~x1, and nothing that is decided behind it. Under the first alone none takes ~x2
/// behind ~x1, which forces its opposite. Without constraints there is no conflict.
pub fn conflicts_that_take_the_last()
    ensures taken { LeadsAtLast (one_of_two ∷ normal (plain 1 1 ∷ negated 1 2 ∷ []) 1 ∷ []) (not_x 1 ∷ []) }
    ensures behind { TakesLast (one_of_two ∷ normal (plain 1 1 ∷ negated 1 2 ∷ []) 1 ∷ []) (not_x 1 ∷ x 3 ∷ []) → ⊥ }
    ensures overtaken { TakesLast (one_of_two ∷ []) (not_x 1 ∷ not_x 2 ∷ []) → ⊥ }
    ensures nothing { MeetsConflict [] → ⊥ }
{}

/// With two conflicts to meet a search may stop where one taught it something and it meets another one, and neither before nor
/// behind that, while an id is left.
pub fn stops_after_conflicts()
    ensures at_two { (l : Logbook) → l.biting ≡ 1 → MeetsConflict (constraints l.state) → MayStop 2 l }
    ensures without_conflict { (l : Logbook) → (MeetsConflict (constraints l.state) → ⊥) → HasRoom l.state → MayStop 2 l → ⊥ }
    ensures at_once { (l : Logbook) → l.biting ≡ 0 → HasRoom l.state → MayStop 2 l → ⊥ }
    ensures beyond { (l : Logbook) → l.biting ≡ 2 → HasRoom l.state → MayStop 2 l → ⊥ }
{}

/// A log that concludes nothing bears out neither that there is no solution nor an optimum, and one of an optimum of 7 not that
/// there is no solution.
pub fn borne_out()
    ensures no_solution { (l : Logbook) → l.conclusion ≡ conclusions.Nothing → BearsOut 1 l founds.Unsat → ⊥ }
    ensures optimum { (l : Logbook) → l.conclusion ≡ conclusions.Nothing → BearsOut 1 l founds.Optimum → ⊥ }
    ensures best { (l : Logbook) → l.state.least ≡ Some (pos 7) → l.conclusion ≡ conclusions.Bounds (lowers.At (pos 7)) (uppers.At (pos 7)) None → BearsOut 1 l founds.Optimum }
    ensures other_bound { (l : Logbook) → l.state.least ≡ Some (pos 7) → l.conclusion ≡ conclusions.Bounds (lowers.At (pos 6)) (uppers.At (pos 7)) None → BearsOut 1 l founds.Optimum → ⊥ }
    ensures memory { (l : Logbook) → BearsOut 1 l (founds.Unknown reasons.Memory) → ⊥ }
    ensures solved { (l : Logbook) → l.problem.objective ≡ None → l.state.logged ≡ [] → BearsOut 1 l founds.Sat → ⊥ }
{}

/// Of a file with two variables x2 is no decision, nor is a literal beside its opposite.
pub fn decisions_of_a_file()
    ensures other { (l : Logbook) → length l.problem.names ≡ 2 → AreDecisions l (x 2 ∷ []) → ⊥ }
    ensures opposites { (l : Logbook) → AreDecisions l (x 1 ∷ not_x 1 ∷ []) → ⊥ }
{}

/// In `1 x0 1 x1 >= 1` x0 may be made true at no cost, and that is a legal step. So a log of this file that begins with what presolve tries
/// has the line of that step behind its first lines; one that has no step does not begin so, and nor does one that begins with another.
pub fn begun_by_a_fixed_literal()
    ensures fixed { (l : Logbook) → BeginsPresolved cover_file l
        → (rest : List ℕ) × (l.text ≡ (first_lines 1 ++ step_line cover_file.names (fixing (x 0))) ++ rest) }
    ensures no_step { (l : Logbook) → BeginsPresolved cover_file l → l.text ≡ first_lines 1 → ⊥ }
    ensures other { (l : Logbook) → (rest : List ℕ) → BeginsPresolved cover_file l
        → l.text ≡ (first_lines 1 ++ step_line cover_file.names (fixing (not_x 0))) ++ rest → ⊥ }
{}
