//! Laws of the definitions, each the contract of a function that does nothing: every legal step preserves an answer to
//! the problem, so what a legal conclusion claims is true; and each step and each conclusion has one verdict.

ghost use Rattle.std.specs.Prelude.{◌≡◌, ◌↔◌, ◌⊎◌, ℤ, Bool, List, Option, All};
ghost use Rattle.linear.specs.Limits.{IsWithin};
ghost use Rattle.linear.specs.Opb.{Opb};
ghost use Rattle.linear.specs.Valuation.{Valuation};
ghost use Rattle.linear.specs.declared.constraint.Signed.{Signed};
ghost use Rattle.linear.specs.declared.term.Lit.{Lit};
ghost use Rattle.normal_form.specs.Normal.{NormalConstraint, Holds, Rises};
ghost use Rattle.substitution.specs.Images.{Images};
ghost use Rattle.proof_rules.specs.Block.{LegalRedBegin, LegalGoal, LegalEnd};
ghost use Rattle.proof_rules.specs.Claim.{Claim};
ghost use Rattle.proof_rules.specs.Deletion.{AreDeletableAtOnce};
ghost use Rattle.proof_rules.specs.Expression.{Given, IsPostfixOf};
ghost use Rattle.proof_rules.specs.Fault.{IsStepFault, IsConclusionFault};
ghost use Rattle.proof_rules.specs.Justified.{IsJustified, IsLegalProof};
ghost use Rattle.proof_rules.specs.Legal.{Legal, LegalPol, LegalRup, LegalRed, LegalSol, LegalSoli, LegalDel, Leads};
ghost use Rattle.proof_rules.specs.Preserved.{IsPreserved, AreNormal};
ghost use Rattle.proof_rules.specs.Shown.{IsShown};
ghost use Rattle.proof_rules.specs.State.{State, AreNumbered, IsOutside, IsStart};
ghost use Rattle.proof_steps.specs.declared.conclusion.Conclusion.{Conclusion};
ghost use Rattle.proof_rules.specs.declared.fault.StepFault.{StepFault};
ghost use Rattle.proof_steps.specs.declared.step.GoalName.{GoalName};
ghost use Rattle.proof_steps.specs.declared.step.Item.{Item};
ghost use Rattle.proof_steps.specs.declared.step.Step.{Step};

/// What is shown from constraints holds wherever all of them do.
pub fn shown_is_true()
    ensures { (live : List NormalConstraint) → (n : NormalConstraint) → All (λ e. Rises 0 e.terms) live → Rises 0 n.terms
        → IsShown live n → (a : Valuation) → All (Holds a) live → Holds a n }
{}

/// A constraint of degree 0 is always shown, also where its negation is not within the limits.
pub fn degree_zero_is_shown()
    ensures { (live : List NormalConstraint) → (n : NormalConstraint) → Rises 0 n.terms → n.degree ≡ 0 → IsShown live n }
{}

/// The state of a file has an answer for its problem: each assignment itself.
pub fn start_is_preserved()
    ensures answer { (p : Opb) → (s : State) → IsStart p s → IsPreserved p s }
    ensures normal { (p : Opb) → (s : State) → IsStart p s → AreNormal s }
{}

/// The value of an expression follows from the live constraints, so answers stay.
pub fn pol_preserves()
    ensures answer { (p : Opb) → (s t : State) → (items : List Item) → IsPreserved p s → LegalPol s items t → IsPreserved p t }
    ensures normal { (s t : State) → (items : List Item) → AreNormal s → LegalPol s items t → AreNormal t }
{}

/// What is shown follows from the live constraints, so answers stay.
pub fn rup_preserves()
    ensures answer { (p : Opb) → (s t : State) → (c : Signed) → IsPreserved p s → AreNormal s → LegalRup s c t → IsPreserved p t }
    ensures normal { (s t : State) → (c : Signed) → AreNormal s → LegalRup s c t → AreNormal t }
{}

/// Redundance: where the new constraint fails at an answer, the answer after the substitution meets it and all live
/// constraints, at no greater value.
pub fn red_preserves()
    ensures answer { (p : Opb) → (s t : State) → (c : Signed) → (images : Images)
        → IsPreserved p s → AreNormal s → IsOutside s → LegalRed p s c images t → IsPreserved p t }
    ensures normal { (p : Opb) → (s t : State) → (c : Signed) → (images : Images) → AreNormal s → LegalRed p s c images t → AreNormal t }
{}

/// A solution is logged only where it satisfies the problem, and changes no live constraint.
pub fn sol_preserves()
    ensures answer { (p : Opb) → (s t : State) → (assigned : List Lit) → IsPreserved p s → IsOutside s → LegalSol p s assigned t → IsPreserved p t }
    ensures normal { (p : Opb) → (s t : State) → (assigned : List Lit) → AreNormal s → LegalSol p s assigned t → AreNormal t }
{}

/// After an improving solution only better assignments are asked for, and these meet what it adds.
pub fn soli_preserves()
    ensures answer { (p : Opb) → (s t : State) → (assigned : List Lit) → IsPreserved p s → IsOutside s → LegalSoli p s assigned t → IsPreserved p t }
    ensures normal { (p : Opb) → (s t : State) → (assigned : List Lit) → AreNormal s → LegalSoli p s assigned t → AreNormal t }
{}

/// An answer meets what is left after a deletion, whatever goes.
pub fn del_preserves()
    ensures answer { (p : Opb) → (s t : State) → (ids : List ℤ) → IsPreserved p s → IsOutside s → LegalDel s ids t → IsPreserved p t }
    ensures normal { (s t : State) → (ids : List ℤ) → AreNormal s → LegalDel s ids t → AreNormal t }
{}

/// What opens a block assumes the negation of its constraint, and keeps what is asked of those from before it.
pub fn begin_preserves()
    ensures answer { (p : Opb) → (s t : State) → (c : Signed) → (images : Images)
        → IsPreserved p s → IsOutside s → LegalRedBegin s c images t → IsPreserved p t }
    ensures normal { (s t : State) → (c : Signed) → (images : Images) → AreNormal s → LegalRedBegin s c images t → AreNormal t }
{}

/// What opens a goal assumes its negation.
pub fn goal_preserves()
    ensures answer { (p : Opb) → (s t : State) → (name : GoalName) → IsPreserved p s → LegalGoal p s name t → IsPreserved p t }
    ensures normal { (p : Opb) → (s t : State) → (name : GoalName) → AreNormal s → LegalGoal p s name t → AreNormal t }
{}

/// The end of a goal drops what it assumed, and that of a block adds the new constraint, which redundance allows by the goals that
/// were closed in it and those that are shown.
pub fn end_preserves()
    ensures answer { (p : Opb) → (s t : State) → IsPreserved p s → AreNormal s → LegalEnd p s t → IsPreserved p t }
    ensures normal { (p : Opb) → (s t : State) → IsPreserved p s → AreNormal s → LegalEnd p s t → AreNormal t }
{}

/// A deletion is legal exactly where its ids differ and each is live in the state before the step, a negative one counted
/// from the end.
pub fn deletion_is_judged_at_once()
    ensures { (s : State) → (ids : List ℤ) → ((t : State) × LegalDel s ids t) ↔ AreDeletableAtOnce s ids }
{}

/// Every list of legal steps preserves an answer to the problem.
pub fn steps_preserve()
    ensures answer { (p : Opb) → (s t : State) → (steps : List Step) → IsPreserved p s → AreNormal s → Leads p s steps t → IsPreserved p t }
    ensures normal { (p : Opb) → (s t : State) → (steps : List Step) → IsPreserved p s → AreNormal s → Leads p s steps t → AreNormal t }
{}

/// What a state that has an answer for the problem entitles to is true of the problem.
pub fn conclusion_is_true()
    ensures { (p : Opb) → (s : State) → (c : Conclusion) → (best : Option (List Bool))
        → IsPreserved p s → AreNormal s → IsJustified p s c best → Claim p c best }
{}

/// The conclusion of a legal proof is true of the problem, whoever wrote the proof.
pub fn legal_proof_is_true()
    ensures { (p : Opb) → (steps : List Step) → (c : Conclusion) → (best : Option (List Bool)) → IsLegalProof p steps c best → Claim p c best }
{}

/// The items of a `pol` step write at most one value, so it leads to at most one state.
pub fn one_value()
    ensures { (given : Given) → (written : List Item) → (n m : NormalConstraint) → IsPostfixOf given written n → IsPostfixOf given written m → n ≡ m }
{}

/// A step that has a fault is not legal.
pub fn faulty_is_not_legal()
    ensures { (p : Opb) → (s t : State) → (step : Step) → (f : StepFault) → IsStepFault p s step f → Legal p s step t → ⊥ }
{}

/// A conclusion that has a fault is not justified.
pub fn faulty_is_not_justified()
    ensures { (p : Opb) → (s : State) → (c : Conclusion) → (f : StepFault) → (best : Option (List Bool))
        → IsConclusionFault p s c f → IsJustified p s c best → ⊥ }
{}

/// Every step is legal or has a fault, where the variables of the live constraints rise, as they do in every state that
/// legal steps lead to. By `faulty_is_not_legal` it is never both.
pub fn every_step_is_judged()
    ensures judged { (p : Opb) → (s : State) → (step : Step) → AreNormal s
        → ((t : State) × Legal p s step t) ⊎ ((f : StepFault) × IsStepFault p s step f) }
    ensures faultless { (p : Opb) → (s : State) → (step : Step) → AreNormal s
        → ((f : StepFault) → IsStepFault p s step f → ⊥) → (t : State) × Legal p s step t }
{}

/// Every conclusion is justified, with the best logged solution, or has a fault. By `faulty_is_not_justified` it is never
/// both.
pub fn every_conclusion_is_judged()
    ensures judged { (p : Opb) → (s : State) → (c : Conclusion)
        → ((best : Option (List Bool)) × IsJustified p s c best) ⊎ ((f : StepFault) × IsConclusionFault p s c f) }
    ensures faultless { (p : Opb) → (s : State) → (c : Conclusion)
        → ((f : StepFault) → IsConclusionFault p s c f → ⊥) → (best : Option (List Bool)) × IsJustified p s c best }
{}

/// A file has one state, a legal step leads to one, and a justified conclusion comes with one best solution.
pub fn one_result()
    ensures start { (p : Opb) → (s t : State) → IsStart p s → IsStart p t → s ≡ t }
    ensures step { (p : Opb) → (s t u : State) → (step : Step) → Legal p s step t → Legal p s step u → t ≡ u }
    ensures conclusion { (p : Opb) → (s : State) → (c : Conclusion) → (best other : Option (List Bool))
        → IsJustified p s c best → IsJustified p s c other → best ≡ other }
{}

/// A step, or a conclusion, has at most one fault: the first in the order of judging.
pub fn one_fault()
    ensures step { (p : Opb) → (s : State) → (step : Step) → (f g : StepFault) → IsStepFault p s step f → IsStepFault p s step g → f ≡ g }
    ensures conclusion { (p : Opb) → (s : State) → (c : Conclusion) → (f g : StepFault)
        → IsConclusionFault p s c f → IsConclusionFault p s c g → f ≡ g }
{}

/// Live ids are above 0 and below the next one: a file begins so, and every legal step keeps it.
pub fn ids_are_numbered()
    ensures start { (p : Opb) → (s : State) → IsWithin p → IsStart p s → AreNumbered s.live s.next }
    ensures step { (p : Opb) → (s t : State) → (step : Step) → AreNumbered s.live s.next → Legal p s step t → AreNumbered t.live t.next }
{}
