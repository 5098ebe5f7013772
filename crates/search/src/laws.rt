//! What a search needs is never refused: laws of the definitions, each the contract of a function that does nothing.
//!
//! A log cannot hold a wrong step, so the only way in which a search could fail is that a step which it needs is not legal,
//! or that its conclusion is not accepted. These laws say of each of them that it is.

ghost use Rattle.std.specs.Prelude.{◌≡◌, ◌<◌, ℤ, [], List, None, Some, length};
ghost use Rattle.linear.specs.Limits.{IsWithin};
ghost use Rattle.linear.specs.Opb.{Opb};
ghost use Rattle.linear.specs.declared.term.Lit.{Lit};
ghost use Rattle.linear.specs.declared.term.Term.{Term};
ghost use Rattle.normal_form.specs.Normal.{NormalConstraint, Rises, largest_sum};
ghost use Rattle.normal_form.specs.NormalOf.{IsNormalOf};
ghost use Rattle.propagate.specs.Chain.{IsRefuted, IsFixpoint, LeadsToConflict};
ghost use Rattle.propagate.specs.Literals.{IsConsistent};
ghost use Rattle.proof_rules.specs.Legal.{LegalRup, LegalSol, LegalSoli};
ghost use Rattle.proof_rules.specs.Preserved.{IsPreserved};
ghost use Rattle.proof_rules.specs.Shown.{IsShown};
ghost use Rattle.proof_rules.specs.Solution.{NamesAll};
ghost use Rattle.proof_rules.specs.State.{State, HasRoom, IsOutside, constraints};
ghost use Rattle.proof_steps.specs.declared.conclusion.Conclusion.TheVariants.{Unsat, Bounds};
ghost use Rattle.proof_steps.specs.declared.conclusion.Lower.TheVariants as lowers;
ghost use Rattle.proof_steps.specs.declared.conclusion.Upper.TheVariants as uppers;
ghost use Rattle.search.specs.Clause.{negated_clause};
ghost use Rattle.proof_log.specs.Kept.{FileIsLive, ImprovementIsLive};
ghost use Rattle.proof_log.specs.Log.{IsEntitled};

/// Where literals lead to a conflict, the clause that one of them is false is shown; so it may be logged by `rup`, as long as
/// an id is left.
pub fn clause_is_shown()
    ensures shown { (live : List NormalConstraint) → (assigned : List Lit) → (n : NormalConstraint) → IsConsistent assigned
        → IsNormalOf (negated_clause assigned) n → LeadsToConflict live assigned → IsShown live n }
    ensures legal { (s : State) → (assigned : List Lit) → IsConsistent assigned → length assigned < largest_sum
        → LeadsToConflict (constraints s) assigned → HasRoom s → (t : State) × LegalRup s (negated_clause assigned) t }
{}

/// A conflict with nothing listed shows every constraint. So where no block is open, the problem has no solution if none is logged, and
/// the value of an improving one is the least.
pub fn conflict_ends()
    ensures shown { (live : List NormalConstraint) → (n : NormalConstraint) → Rises 0 n.terms → IsRefuted live → IsShown live n }
    ensures unsatisfiable { (p : Opb) → (s : State) → IsOutside s → s.logged ≡ [] → IsRefuted (constraints s) → IsEntitled p s Unsat }
    ensures optimum { (p : Opb) → (s : State) → (objective : List Term) → (best : ℤ) → IsOutside s → IsWithin p → IsPreserved p s
        → p.objective ≡ Some objective → s.least ≡ Some best → IsRefuted (constraints s)
        → IsEntitled p s (Bounds (lowers.At best) (uppers.At best) None) }
{}

/// An assignment that has no literal beside its opposite, names all variables of the file and is a fixpoint, as the closure of
/// decisions is, satisfies the file as long as the file's constraints are live; so it may be logged by `sol`. Where the
/// constraint that asks for better than the least improving value is live too, it is better, and may be logged by `soli`.
pub fn fixpoint_solves()
    ensures solution { (p : Opb) → (s : State) → (assigned : List Lit) → IsWithin p → IsConsistent assigned
        → NamesAll (length p.names) assigned → FileIsLive p (constraints s) → IsFixpoint (constraints s) assigned
        → (t : State) × LegalSol p s assigned t }
    ensures improving { (p : Opb) → (s : State) → (objective : List Term) → (assigned : List Lit) → IsWithin p
        → p.objective ≡ Some objective → IsConsistent assigned → NamesAll (length p.names) assigned
        → FileIsLive p (constraints s) → ImprovementIsLive objective s → IsFixpoint (constraints s) assigned → HasRoom s
        → (t : State) × LegalSoli p s assigned t }
{}
