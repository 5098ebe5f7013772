//! What holds of every log: laws of the definitions, each the contract of a function that does nothing.
//!
//! The file's constraints and the one that asks for a better solution stay live, every live constraint is over the file's variables, and the text
//! is that of a legal proof of what was concluded.

ghost use Rattle.std.specs.Prelude.{◌≡◌, ◌≤◌, ◌++◌, ℕ, Bool, List, Option, Some, length};
ghost use Rattle.linear.specs.Limits.{IsWithin};
ghost use Rattle.linear.specs.Opb.{Opb};
ghost use Rattle.linear.specs.declared.term.Lit.{Lit};
ghost use Rattle.linear.specs.declared.term.Term.{Term};
ghost use Rattle.proof_rules.specs.Claim.{Claim};
ghost use Rattle.proof_rules.specs.Forms.{problem_ids};
ghost use Rattle.proof_rules.specs.Justified.{IsLegalProof};
ghost use Rattle.proof_rules.specs.Legal.{Leads, Legal, LegalSoli};
ghost use Rattle.proof_rules.specs.State.{State, IsOutside, IsStart, constraints};
ghost use Rattle.proof_steps.specs.declared.step.Step.{Step};
ghost use Rattle.proof_text.specs.Writable.{IsConclusionWritable, IsStepWritable};
ghost use Rattle.proof_write.specs.Whole.{begun_text, last_lines};
ghost use Rattle.proof_log.specs.Kept.{FileIsLive, ImprovementIsLive, KeepsLive, Spares};
ghost use Rattle.proof_log.specs.Log.{Logbook, ImprovesNothing, IsProof, IsSpelledBy, LeadsBiting, StandsAlone};
ghost use Rattle.proof_log.specs.Named.{LiveIsNamed};

/// What every log keeps live: the normal constraints of the file, and, where there is an objective, one that asks for less than the least
/// improving value. A legal step that spares these leaves them live, whatever else it deletes; and a better solution brings
/// the constraint that is asked of from then on.
pub fn kept_stays_live()
    ensures file { (l : Logbook) → KeepsLive l → FileIsLive l.problem (constraints l.state) }
    ensures improvement { (l : Logbook) → (objective : List Term) → KeepsLive l → l.problem.objective ≡ Some objective → ImprovementIsLive objective l.state }
    ensures spared { (l : Logbook) → (step : Step) → (t : State) → KeepsLive l → Spares l step → ImprovesNothing step → Legal l.problem l.state step t
        → KeepsLive (record l { state = t }) }
    ensures improved { (l : Logbook) → (assigned : List Lit) → (t : State) → KeepsLive l → LegalSoli l.problem l.state assigned t
        → KeepsLive (record l { state = t; asking = Some l.state.next }) }
{}

/// Every live constraint is over the variables of the file: so it is where a proof begins; a step that stands by itself and can be written
/// leaves it so, and so does a better solution, since the objective is over them too.
pub fn live_stays_named()
    ensures start { (p : Opb) → (s : State) → IsWithin p → IsStart p s → LiveIsNamed p s }
    ensures step { (p : Opb) → (s t : State) → (step : Step) → LiveIsNamed p s → StandsAlone step → ImprovesNothing step
        → IsStepWritable (length p.names) step → Legal p s step t → LiveIsNamed p t }
    ensures improved { (p : Opb) → (s t : State) → (assigned : List Lit) → IsWithin p → LiveIsNamed p s → LegalSoli p s assigned t → LiveIsNamed p t }
{}

/// The text of a log is that of steps which are a legal proof of its conclusion, and no block is open behind them; with the lines behind
/// the steps it spells them and the conclusion, where that can be written. Its count of biting steps is no more than the steps that bite,
/// and so no more than there are steps.
pub fn log_is_legal_proof()
    ensures legal { (l : Logbook) → IsProof l → (steps : List Step) × (best : Option (List Bool)) × IsLegalProof l.problem steps l.conclusion best
        × (l.text ≡ begun_text l.problem.names (problem_ids l.problem.constraints) steps) }
    ensures outside { (l : Logbook) → IsProof l → IsOutside l.state }
    ensures spelled { (l : Logbook) → IsProof l → IsConclusionWritable (length l.problem.names) l.conclusion
        → IsSpelledBy l (l.text ++ last_lines l.problem.names l.conclusion) }
    ensures spells_proof { (l : Logbook) → (proof : List ℕ) → IsProof l → (spelled : IsSpelledBy l proof)
        → (best : Option (List Bool)) × IsLegalProof l.problem spelled.steps l.conclusion best }
    ensures true_of_problem { (l : Logbook) → IsProof l → (best : Option (List Bool)) × Claim l.problem l.conclusion best }
    ensures leads { (p : Opb) → (s t : State) → (steps : List Step) → (count : ℕ) → LeadsBiting p s steps t count → Leads p s steps t }
    ensures count { (p : Opb) → (s t : State) → (steps : List Step) → (count : ℕ) → LeadsBiting p s steps t count → count ≤ length steps }
{}
