//! Worked cases: the definitions computed on small logs.

ghost use Rattle.std.specs.Prelude.{◌≡◌, [], ◌∷◌, None, Some, length, neg_ℤ, pos};
ghost use Rattle.linear.specs.Opb.{Opb};
ghost use Rattle.linear.specs.declared.constraint.Signed.{Signed};
ghost use Rattle.normal_form.specs.Cases.{normal, plain};
ghost use Rattle.propagate.specs.Cases.{x, not_x};
ghost use Rattle.proof_rules.specs.Legal.{Legal};
ghost use Rattle.proof_rules.specs.State.{State};
ghost use Rattle.proof_steps.specs.declared.step.GoalName.TheVariants as goals;
ghost use Rattle.proof_steps.specs.declared.step.Step.TheVariants as steps;
ghost use Rattle.proof_steps.specs.declared.step.Step.TheVariants.{Sol, Soli, Del};
ghost use Rattle.proof_log.specs.Log.{ImprovesNothing, IsFalling, LeadsBiting, LeadsImproving, Logbook, StandsAlone, StepBites, improvement, last_of};
ghost use Rattle.proof_log.specs.Named.{AreNamed, IsOver};

/// No steps count nothing; a logged solution, or a deletion, never bites, so a log of one counts nothing either.
pub fn nothing_counts_without_learning()
    ensures none { (p : Opb) → (s t : State) → LeadsBiting p s [] t 1 → ⊥ }
    ensures solution { (s : State) → StepBites s (Sol (x 1 ∷ [])) → ⊥ }
    ensures deletion { (s : State) → StepBites s (Del (pos 3 ∷ [])) → ⊥ }
    ensures logged { (p : Opb) → (s t : State) → LeadsBiting p s (Sol (x 1 ∷ []) ∷ []) t 1 → ⊥ }
{}

/// What opens a block stands not alone, nor does what needs one that is open; a derivation and a clause do.
pub fn steps_of_blocks()
    ensures begun { (c : Signed) → StandsAlone (steps.RedBegin c []) → ⊥ }
    ensures goal { StandsAlone (steps.Goal goals.Itself) → ⊥ }
    ensures ended { StandsAlone steps.End → ⊥ }
    ensures derived { StandsAlone (steps.Pol []) }
    ensures shown { (c : Signed) → StandsAlone (steps.Rup c) }
{}

/// A `soli` improves to the least value of the state that it leads to; a `sol` improves nothing, and no step no value.
pub fn improved_by_soli_alone()
    ensures better { (s : State) → s.least ≡ Some (pos 7) → improvement (Soli (x 1 ∷ [])) s ≡ pos 7 ∷ [] }
    ensures other { (s : State) → improvement (Sol (x 1 ∷ [])) s ≡ [] }
    ensures none { (p : Opb) → (s t : State) → LeadsImproving p s [] t (pos 7 ∷ []) → ⊥ }
    ensures logged { (p : Opb) → (s t : State) → LeadsImproving p s (Sol (x 1 ∷ []) ∷ []) t (pos 7 ∷ []) → ⊥ }
    ensures leads { (p : Opb) → (s t : State) → Legal p s (Soli (x 1 ∷ [])) t → t.least ≡ Some (pos 7) → LeadsImproving p s (Soli (x 1 ∷ []) ∷ []) t (pos 7 ∷ []) }
    ensures other_value { (p : Opb) → (s t : State) → t.least ≡ Some (pos 7) → LeadsImproving p s (Soli (x 1 ∷ []) ∷ []) t (pos 8 ∷ []) → ⊥ }
    ensures nothing { ImprovesNothing (Soli (x 1 ∷ [])) → ⊥ }
{}

/// Values fall from 5 to 3 and to -1, and not from 3 to 3 or to 5; the last one counts.
pub fn values_that_fall()
    ensures falling { IsFalling (pos 5 ∷ pos 3 ∷ neg_ℤ (pos 1) ∷ []) }
    ensures equal { IsFalling (pos 3 ∷ pos 3 ∷ []) → ⊥ }
    ensures rising { IsFalling (pos 5 ∷ pos 1 ∷ pos 3 ∷ []) → ⊥ }
    ensures last { last_of (pos 5 ∷ pos 3 ∷ []) ≡ Some (pos 3) }
    ensures none { last_of [] ≡ None }
{}

/// `1 x0 1 x2 >= 1` is over three variables and not over two. Of a file with two variables x0 and ~x1 are literals, and x2 is none.
pub fn variables_of_a_file()
    ensures within { IsOver 3 (normal (plain 1 0 ∷ plain 1 2 ∷ []) 1) }
    ensures beyond { IsOver 2 (normal (plain 1 0 ∷ plain 1 2 ∷ []) 1) → ⊥ }
    ensures named { (l : Logbook) → length l.problem.names ≡ 2 → AreNamed l (x 0 ∷ not_x 1 ∷ []) }
    ensures other { (l : Logbook) → length l.problem.names ≡ 2 → AreNamed l (x 2 ∷ []) → ⊥ }
{}
