//! Laws of the definitions, each the contract of a function that does nothing.

ghost use Rattle.std.specs.Prelude.{◌≡◌, ◌<◌, ◌↔◌, ◌⊎◌, ℕ, true, All, Contains, Some, None, List, [], ◌∷◌, ◌++◌};
ghost use Rattle.std.specs.FinMap as fin;
ghost use Rattle.linear.specs.declared.term.Lit.{Lit};
ghost use Rattle.linear.specs.Valuation.{Valuation};
ghost use Rattle.normal_form.specs.Negation.{IsNegation};
ghost use Rattle.normal_form.specs.Normal.{NormalConstraint, Holds, Rises, total};
ghost use Rattle.propagate.specs.Biting.{Bites};
ghost use Rattle.propagate.specs.Chain.{IsConflict, IsChain, LeadsToConflict, IsRefuted, IsWholeChain, IsFixpoint, IsReached, IsClosure};
ghost use Rattle.propagate.specs.Content.{Content, IsEnd, IsTrace, IsTraceOfLast, traced};
ghost use Rattle.propagate.specs.declared.trace.Trace.{Trace};
ghost use Rattle.propagate.specs.Literals.{coefficient_of, IsConsistent, MakesTrue, lists};
ghost use Rattle.propagate.specs.Passes.{outcome, Conflict, Fixpoint};
ghost use Rattle.propagate.specs.Slack.{IsFalsified};

/// An assignment that meets all constraints and makes the given literals true makes every literal of a chain
/// true.
pub fn chain_holds()
    ensures { (constraints : List NormalConstraint) → (given chain : List Lit) → IsChain constraints given chain
        → (a : Valuation) → All (Holds a) constraints → All (MakesTrue a) given → All (MakesTrue a) chain }
{}

/// No assignment meets all constraints of a refuted list.
pub fn refuted_unsatisfiable()
    ensures { (constraints : List NormalConstraint) → IsRefuted constraints
        → (a : Valuation) → All (Holds a) constraints → ⊥ }
{}

/// A chain over fewer constraints is one over more; more constraints lead to every conflict that fewer lead to, and
/// refute what those refute.
pub fn more_constraints()
    ensures chain { (fewer more : List NormalConstraint) → ((n : NormalConstraint) → Contains fewer n → Contains more n)
        → (given chain : List Lit) → IsChain fewer given chain → IsChain more given chain }
    ensures conflict { (fewer more : List NormalConstraint) → ((n : NormalConstraint) → Contains fewer n → Contains more n)
        → (given : List Lit) → LeadsToConflict fewer given → LeadsToConflict more given }
    ensures refuted { (fewer more : List NormalConstraint) → ((n : NormalConstraint) → Contains fewer n → Contains more n)
        → IsRefuted fewer → IsRefuted more }
{}

/// Which constraints are there matters, and neither their order nor how often they are there.
pub fn same_constraints()
    ensures conflict { (constraints others : List NormalConstraint) → ((n : NormalConstraint) → Contains constraints n ↔ Contains others n)
        → (given : List Lit) → LeadsToConflict constraints given ↔ LeadsToConflict others given }
    ensures reached { (constraints others : List NormalConstraint) → ((n : NormalConstraint) → Contains constraints n ↔ Contains others n)
        → (given : List Lit) → (l : Lit) → IsReached constraints given l ↔ IsReached others given l }
    ensures refuted { (constraints others : List NormalConstraint) → ((n : NormalConstraint) → Contains constraints n ↔ Contains others n)
        → IsRefuted constraints ↔ IsRefuted others }
{}

/// A chain may be kept: what is given with the chain leads to a conflict exactly where what is given does, and without a
/// conflict both reach the same literals.
pub fn chain_kept()
    ensures conflict { (constraints : List NormalConstraint) → (given chain : List Lit) → IsChain constraints given chain
        → LeadsToConflict constraints (given ++ chain) ↔ LeadsToConflict constraints given }
    ensures reached { (constraints : List NormalConstraint) → (given chain : List Lit) → IsChain constraints given chain
        → (LeadsToConflict constraints given → ⊥) → (l : Lit) → IsReached constraints (given ++ chain) l ↔ IsReached constraints given l }
{}

/// Constraints that reach from nothing every literal of an assignment are refuted where fewer lead from it to a conflict. So
/// an assignment that leads to a conflict refutes the constraints with one that asks for all its literals, which is the
/// negation of the clause that one of them is false.
pub fn conflict_refutes()
    ensures reached { (fewer more : List NormalConstraint) → ((n : NormalConstraint) → Contains fewer n → Contains more n)
        → (assigned : List Lit) → ((l : Lit) → lists assigned l ≡ true → IsReached more [] l)
        → LeadsToConflict fewer assigned → IsRefuted more }
    ensures asked { (constraints : List NormalConstraint) → (assigned : List Lit) → (all : NormalConstraint)
        → all.degree ≡ total all.terms → ((l : Lit) → lists assigned l ≡ true → 0 < coefficient_of all l)
        → LeadsToConflict constraints assigned → IsRefuted (constraints ++ all ∷ []) }
{}

/// A trace is a chain; it names a conflict where a chain leads to one and nowhere else, and without a conflict what is
/// given and traced are the literals that are given or forced.
pub fn trace_meaning()
    ensures chain { (content : Content) → (given : List Lit) → (t : Trace) → IsTrace content given t
        → IsChain (fin.values content) given (traced t.forced) }
    ensures conflict { (content : Content) → (given : List Lit) → (t : Trace) → (id : ℕ) → IsTrace content given t
        → t.conflict ≡ Some id → LeadsToConflict (fin.values content) given }
    ensures no_conflict { (content : Content) → (given : List Lit) → (t : Trace) → IsTrace content given t
        → t.conflict ≡ None → LeadsToConflict (fin.values content) given → ⊥ }
    ensures closure { (content : Content) → (given : List Lit) → (t : Trace) → IsTrace content given t
        → t.conflict ≡ None → IsClosure (fin.values content) given (given ++ traced t.forced) }
{}

/// What a trace of an assignment and one literal more leaves out is known to whoever knows what follows from the assignment: it
/// names a conflict where a chain leads to one and nowhere else, and without a conflict what followed from the assignment,
/// with the last literal and those that are traced, is what follows from all.
pub fn last_traced()
    ensures conflict { (content : Content) → (before : List Lit) → (last : Lit) → (t : Trace) → (id : ℕ) → IsTraceOfLast content before last t
        → t.conflict ≡ Some id → LeadsToConflict (fin.values content) (before ++ last ∷ []) }
    ensures end { (content : Content) → (before assigned : List Lit) → (last : Lit) → (t : Trace) → IsEnd content before assigned
        → IsTraceOfLast content before last t → t.conflict ≡ None → IsEnd content (before ++ last ∷ []) (assigned ++ last ∷ traced t.forced) }
{}

/// Two chains that cannot go on lead to a conflict both, or have the same literals with what is given: in which
/// order literals are forced does not matter.
pub fn one_end()
    ensures { (constraints : List NormalConstraint) → (given chain other : List Lit)
        → IsWholeChain constraints given chain → IsWholeChain constraints given other
        → (IsConflict constraints (given ++ chain) × IsConflict constraints (given ++ other))
        ⊎ ((l : Lit) → lists (given ++ chain) l ≡ lists (given ++ other) l) }
{}

/// No chain from literals of a fixpoint leaves the assignment, and none leads to a conflict.
pub fn fixpoint_end()
    ensures stays { (constraints : List NormalConstraint) → (fixpoint given chain : List Lit) → IsFixpoint constraints fixpoint
        → ((l : Lit) → lists given l ≡ true → lists fixpoint l ≡ true) → IsChain constraints given chain
        → (l : Lit) → lists chain l ≡ true → lists fixpoint l ≡ true }
    ensures no_conflict { (constraints : List NormalConstraint) → (fixpoint given : List Lit) → IsFixpoint constraints fixpoint
        → ((l : Lit) → lists given l ≡ true → lists fixpoint l ≡ true) → LeadsToConflict constraints given → ⊥ }
{}

/// A chain from a consistent assignment never has a literal whose opposite is there.
pub fn chain_consistent()
    ensures { (constraints : List NormalConstraint) → (given chain : List Lit) → IsConsistent given
        → IsChain constraints given chain → IsConsistent (given ++ chain) }
{}

/// From each assignment a chain leads to a conflict, or there is an assignment of exactly what is given or forced; the
/// latter is the same set of literals however it is found.
pub fn one_outcome()
    ensures ends { (constraints : List NormalConstraint) → (given : List Lit) → LeadsToConflict constraints given
        ⊎ ((closed : List Lit) × IsClosure constraints given closed × (LeadsToConflict constraints given → ⊥)) }
    ensures one { (constraints : List NormalConstraint) → (given closed other : List Lit) → IsClosure constraints given closed
        → IsClosure constraints given other → (l : Lit) → lists closed l ≡ lists other l }
{}

/// Where no chain leads to a conflict, the assignment of what is given or forced is a fixpoint.
pub fn closure_fixpoint()
    ensures { (constraints : List NormalConstraint) → (given closed : List Lit) → IsClosure constraints given closed
        → (LeadsToConflict constraints given → ⊥) → IsFixpoint constraints closed }
{}

/// More literals lead to every conflict that fewer lead to.
pub fn more_literals()
    ensures { (constraints : List NormalConstraint) → (given more : List Lit)
        → ((l : Lit) → lists given l ≡ true → lists more l ≡ true)
        → LeadsToConflict constraints given → LeadsToConflict constraints more }
{}

/// The negation of a constraint of degree 0 has negative slack at once, so it is refuted whatever stands beside it.
pub fn degree_zero()
    ensures falsified { (n m : NormalConstraint) → Rises 0 n.terms → n.degree ≡ 0 → IsNegation n m → IsFalsified [] m }
    ensures refuted { (n m : NormalConstraint) → Rises 0 n.terms → n.degree ≡ 0 → IsNegation n m
        → (constraints : List NormalConstraint) → Contains constraints m → IsRefuted constraints }
{}

/// A copy of a constraint that is there never bites.
pub fn copy_never_bites()
    ensures { (constraints : List NormalConstraint) → (n : NormalConstraint) → Contains constraints n
        → Bites constraints n → ⊥ }
{}

/// What the slow search comes to is so: a conflict is one that a chain leads to, and a fixpoint is exactly
/// what chains reach, none of which leads to a conflict.
pub fn search_is_right()
    ensures conflict { (steps : ℕ) → (constraints : List NormalConstraint) → (given : List Lit)
        → outcome steps constraints given ≡ Conflict → LeadsToConflict constraints given }
    ensures closure { (steps : ℕ) → (constraints : List NormalConstraint) → (given closed : List Lit)
        → outcome steps constraints given ≡ Fixpoint closed → IsClosure constraints given closed }
    ensures no_conflict { (steps : ℕ) → (constraints : List NormalConstraint) → (given closed : List Lit)
        → outcome steps constraints given ≡ Fixpoint closed → LeadsToConflict constraints given → ⊥ }
{}
