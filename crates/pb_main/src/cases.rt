//! Worked cases: what outcomes say, and what is printed for them, each the contract of a function that does nothing.

ghost use Rattle.std.specs.Prelude.{◌≡◌, ℕ, [], ◌∷◌, codes, List, Some, false, pos, true};
ghost use Rattle.kernel.specs.Accepted.{Judgement};
ghost use Rattle.opb_read.specs.declared.fault.OpbCode.TheVariants.{NoSemicolon, UnsupportedForm};
ghost use Rattle.opb_read.specs.declared.fault.OpbFault.{OpbFault};
ghost use Rattle.proof_rules.specs.Cases.{both, cover_file, least_cover};
ghost use Rattle.proof_steps.specs.declared.conclusion.Conclusion.TheVariants as conclusions;
ghost use Rattle.pb_main.specs.Answer.{answer, status_of};
ghost use Rattle.pb_main.specs.Outcome.{AreImprovedTo, IsOutcomeOf};
ghost use Rattle.pb_main.specs.Solution.{NamedValues};
ghost use Rattle.pb_main.specs.declared.outcome.Outcome.TheVariants as outcomes;
ghost use Rattle.pb_main.specs.declared.outcome.Unanswered.TheVariants as reasons;

/// In `min: 1 x0 1 x1` the assignment of two true values is worth 2, and what was improved to falls to that. Without an objective
/// nothing is improved.
pub fn improved_to_the_worth()
    ensures falling { AreImprovedTo least_cover both (pos 5 ∷ pos 2 ∷ []) }
    ensures rising { AreImprovedTo least_cover both (pos 1 ∷ pos 2 ∷ []) → ⊥ }
    ensures not_reached { AreImprovedTo least_cover both (pos 5 ∷ pos 3 ∷ []) → ⊥ }
    ensures none { AreImprovedTo least_cover both [] → ⊥ }
    ensures any_solution { AreImprovedTo cover_file both [] }
    ensures no_objective { AreImprovedTo cover_file both (pos 2 ∷ []) → ⊥ }
{}

/// Whatever was accepted with another conclusion than `UNSAT` is no proof that there is no solution, and what was accepted with that, or
/// with another best assignment, is none of an optimum.
pub fn told_by_what_was_accepted()
    ensures not_denied { (opb proof : List ℕ) → (limit : ℕ) → (accepted : Judgement) → accepted.conclusion ≡ conclusions.Nothing
        → IsOutcomeOf opb proof limit (outcomes.Unsatisfiable accepted) → ⊥ }
    ensures denied { (opb proof : List ℕ) → (limit : ℕ) → (accepted : Judgement) → (s : NamedValues) → accepted.conclusion ≡ conclusions.Unsat
        → IsOutcomeOf opb proof limit (outcomes.Optimum accepted s) → ⊥ }
    ensures other_best { (opb proof : List ℕ) → (limit : ℕ) → (accepted : Judgement) → (s : NamedValues) → accepted.best ≡ Some (true ∷ [])
        → s.values ≡ false ∷ [] → IsOutcomeOf opb proof limit (outcomes.Optimum accepted s) → ⊥ }
{}

/// Where memory ran out there may be no bytes, whatever the text; where the text is no problem, or none that is supported, there are
/// none, and which of the two it is hangs on the fault.
pub fn unanswered()
    ensures memory { (opb : List ℕ) → (limit : ℕ) → IsOutcomeOf opb [] limit (outcomes.Unknown reasons.Memory) }
    ensures bytes { (opb : List ℕ) → (limit : ℕ) → (fault : OpbFault) → IsOutcomeOf opb (10 ∷ []) limit (outcomes.NotOpb fault) → ⊥ }
    ensures supported { (opb : List ℕ) → (limit : ℕ) → (fault : OpbFault) → fault.code ≡ NoSemicolon → IsOutcomeOf opb [] limit (outcomes.Unsupported fault) → ⊥ }
    ensures unsupported { (opb : List ℕ) → (limit : ℕ) → (fault : OpbFault) → fault.code ≡ UnsupportedForm → IsOutcomeOf opb [] limit (outcomes.NotOpb fault) → ⊥ }
{}

/// What is printed for a solution where there is no objective, and where the search stopped; and the exit statuses.
pub fn printed_answers()
    ensures solution { answer (outcomes.Satisfiable (record { names = codes "x" ∷ codes "y" ∷ []; values = true ∷ false ∷ []; improved = [] })) ≡ codes "s SATISFIABLE\nv x -y\n" }
    ensures stopped { answer (outcomes.Unknown reasons.Limit) ≡ codes "c limit\ns UNKNOWN\n" }
    ensures statuses { (accepted : Judgement) → (s : NamedValues) → (status_of (outcomes.Optimum accepted s) ≡ 30) × (status_of (outcomes.Unsatisfiable accepted) ≡ 20) × (status_of (outcomes.Satisfiable s) ≡ 10) }
{}
