//! Laws of verdicts, as contracts of functions that do nothing.

ghost use Rattle.std.specs.Prelude.{◌≡◌, ℕ, Bool, true, List, [], Some, ◌⊎◌};
ghost use Rattle.linear.specs.Opb.{Opb};
ghost use Rattle.linear.specs.Limits.{IsWithin};
ghost use Rattle.linear.specs.Table.{has_name, place_of};
ghost use Rattle.linear.specs.Valuation.{by_number};
ghost use Rattle.opb_read.specs.Spells.{Spells};
ghost use Rattle.pb_text.specs.Devices.{SourceState};
ghost use Rattle.kernel.specs.Accepted.{Judgement};
ghost use Rattle.proof_rules.specs.Claim.{IsSolution};
ghost use Rattle.proof_rules.specs.declared.fault.StepFault.{StepFault};
ghost use Rattle.proof_rules.specs.declared.fault.StepFault.TheVariants.{BlockOpen, NoBlock};
ghost use Rattle.checker.specs.Verdicts.{IsProved, IsTrueOf, IsVerdictOf};
ghost use Rattle.checker.specs.Stopped.{IsLeftOpen, IsStopped};
ghost use Rattle.checker.specs.Streamed.{IsStreamVerdictOf};
ghost use Rattle.checker.specs.Printed.{IsPrinted, accepted_line, with_assignment};
ghost use Rattle.checker.specs.declared.stream_verdict.StreamVerdict.TheVariants.{Judged};
ghost use Rattle.checker.specs.declared.verdict.Code.TheVariants.{Judging};
ghost use Rattle.checker.specs.declared.verdict.Verdict.TheVariants.{Accepted, NoMemory};

use super::verdict::{Code, Verdict};

/// Where judging stops at a line, the text is no legal proof: so `check` refuses only what it must.
pub fn refused_is_not_proved()
    ensures { (p : Opb) → (proof : List ℕ) → (line : ℕ) → (code : Code) → IsStopped p proof line code
        → (a : Judgement) → IsProved p proof a → ⊥ }
{}

/// Judging a proof stops at one line at most.
pub fn one_line_where_judging_stops()
    ensures { (p : Opb) → (proof : List ℕ) → (line other : ℕ) → (code why : Code)
        → IsStopped p proof line code → IsStopped p proof other why → line ≡ other }
{}

/// Judging a proof stops with one code, but for the codes among which the definitions leave the choice open: those of a
/// line that says nothing. So where a step or a conclusion has a fault, where names are too many, where the text is too
/// short or too long, or the header or the count is wrong, that is the only code with which judging stops.
pub fn one_code_of_judging()
    ensures { (p : Opb) → (proof : List ℕ) → (line other : ℕ) → (code why : Code) → (IsLeftOpen code → ⊥)
        → IsStopped p proof line code → IsStopped p proof other why → why ≡ code }
{}

/// What a text proves of the problem is answered: accepted with just that conclusion and its best solution, or that
/// memory ran out.
pub fn what_is_proved_is_accepted()
    ensures { (opb proof : List ℕ) → (p : Opb) → Spells opb p → IsWithin p → (a : Judgement) → IsProved p proof a
        → (v : Verdict) → IsVerdictOf opb proof v → (v ≡ Accepted a) ⊎ (v ≡ NoMemory) }
{}

/// What is judged of a proof that comes from a source is so of the text that the source has given.
pub fn pieces_are_judged_as_their_text()
    ensures { (opb proof : List ℕ) → (before after : SourceState) → before.given ≡ Some [] → after.given ≡ Some proof
        → (v : Verdict) → IsStreamVerdictOf opb before after (Judged v) → IsVerdictOf opb proof v }
{}

/// A set of names makes true just those names, by the numbers that a table gives them: so what is claimed of all assignments is
/// claimed of all sets of names.
pub fn set_of_names_is_a_valuation()
    ensures { (names : List (List ℕ)) → (members : List ℕ → Bool) → (name : List ℕ) → has_name names name ≡ true
        → by_number names members (place_of names name) ≡ members name }
{}

/// A text is one proof of a problem: its steps, its conclusion and its best solution are those of any reading of it.
pub fn one_proof()
    ensures { (p : Opb) → (proof : List ℕ) → (a b : Judgement) → (x : IsProved p proof a) → (y : IsProved p proof b)
        → (x.steps ≡ y.steps) × (a ≡ b) }
{}

/// The `v` line that is printed for an accepted conclusion names the very assignment that is claimed, by the names of
/// the one problem that the text spells; it satisfies that problem, and nothing else is printed behind the first line.
pub fn printed_assignment_is_claimed()
    ensures { (opb proof : List ℕ) → (a : Judgement) → (t : IsTrueOf opb proof a)
        → (values : List Bool) → (text : List ℕ) → a.best ≡ Some values → IsPrinted opb (Accepted a) text
        → IsSolution t.problem values × (text ≡ with_assignment (accepted_line a.conclusion) t.problem.names values) }
{}

/// Where judging stops, no block is open in which the line may not stand, and none is missing: what stands in the wrong place of a
/// text is no line of it (`BadLine`), so that these two faults come from a caller of the kernel alone.
pub fn steps_stand_in_their_place()
    ensures { (p : Opb) → (proof : List ℕ) → (line : ℕ) → (fault : StepFault) → (fault ≡ BlockOpen) ⊎ (fault ≡ NoBlock)
        → IsStopped p proof line (Judging fault) → ⊥ }
{}
