//! Laws of the rules' equations alone: whatever satisfies the operands satisfies the result, and there is one
//! result.

ghost use Rattle.std.specs.Prelude.{◌≡◌, ℕ};
ghost use Rattle.linear.specs.Valuation.{Valuation};
ghost use Rattle.linear.specs.declared.term.Lit.{Lit};
ghost use Rattle.normal_form.specs.Normal.{NormalConstraint, Holds};
ghost use Rattle.cut_rules.specs.Rules.{IsSum, IsMultiple, IsQuotient, IsSaturation, IsWeakening, IsAxiom};

/// The sum of two constraints holds where both do.
pub fn sum_holds()
    ensures { (d e r : NormalConstraint) → IsSum d e r → (a : Valuation) → Holds a d → Holds a e → Holds a r }
{}

/// A multiple holds where the constraint does.
pub fn multiple_holds()
    ensures { (k : ℕ) (d r : NormalConstraint) → IsMultiple k d r → (a : Valuation) → Holds a d → Holds a r }
{}

/// A quotient holds where the constraint does.
pub fn quotient_holds()
    ensures { (k : ℕ) (d r : NormalConstraint) → IsQuotient k d r → (a : Valuation) → Holds a d → Holds a r }
{}

/// The saturation holds where the constraint does.
pub fn saturation_holds()
    ensures { (d r : NormalConstraint) → IsSaturation d r → (a : Valuation) → Holds a d → Holds a r }
{}

/// A weakening holds where the constraint does.
pub fn weakening_holds()
    ensures { (x : ℕ) (d r : NormalConstraint) → IsWeakening x d r → (a : Valuation) → Holds a d → Holds a r }
{}

/// The axiom of a literal holds everywhere.
pub fn axiom_holds()
    ensures { (l : Lit) (r : NormalConstraint) → IsAxiom l r → (a : Valuation) → Holds a r }
{}

/// A rule gives at most one result.
pub fn one_result()
    ensures sum { (d e r q : NormalConstraint) → IsSum d e r → IsSum d e q → r ≡ q }
    ensures multiple { (k : ℕ) (d r q : NormalConstraint) → IsMultiple k d r → IsMultiple k d q → r ≡ q }
    ensures quotient { (k : ℕ) (d r q : NormalConstraint) → IsQuotient k d r → IsQuotient k d q → r ≡ q }
    ensures saturation { (d r q : NormalConstraint) → IsSaturation d r → IsSaturation d q → r ≡ q }
    ensures weakening { (x : ℕ) (d r q : NormalConstraint) → IsWeakening x d r → IsWeakening x d q → r ≡ q }
    ensures axiom { (l : Lit) (r q : NormalConstraint) → IsAxiom l r → IsAxiom l q → r ≡ q }
{}
