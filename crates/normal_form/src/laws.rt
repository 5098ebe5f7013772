//! Laws of the definitions, each the contract of a function that does nothing.

ghost use Rattle.std.specs.Prelude.{◌≡◌, ◌↔◌, ◌⊎◌, ℕ, Bool, true, false};
ghost use Rattle.linear.specs.Sum.{Meets};
ghost use Rattle.linear.specs.Valuation.{Valuation};
ghost use Rattle.linear.specs.declared.constraint.Relation.TheVariants.{AtLeast, Equal};
ghost use Rattle.linear.specs.declared.constraint.Signed.{Signed};
ghost use Rattle.normal_form.specs.Negation.{IsNegation};
ghost use Rattle.normal_form.specs.Normal.{NormalConstraint, coefficient, Holds, Rises};
ghost use Rattle.normal_form.specs.NormalOf.{IsNormalOf, IsBothOf};

/// There is one normal constraint for each function from literals to coefficients and each degree.
pub fn one_constraint()
    ensures { (n m : NormalConstraint) → Rises 0 n.terms → Rises 0 m.terms
        → ((v : ℕ) (s : Bool) → coefficient n v s ≡ coefficient m v s)
        → n.degree ≡ m.degree → n ≡ m }
{}

/// A literal and its opposite never both occur.
pub fn one_sign()
    ensures { (n : NormalConstraint) → Rises 0 n.terms → (v : ℕ)
        → (coefficient n v false ≡ 0) ⊎ (coefficient n v true ≡ 0) }
{}

/// With unbounded numbers every signed constraint has exactly one normal form.
pub fn one_normal_form()
    ensures { (c : Signed) → (n : NormalConstraint) × IsNormalOf c n × ((m : NormalConstraint) → IsNormalOf c m → m ≡ n) }
{}

/// The normal form holds exactly where the signed constraint with `>=` is met.
pub fn normal_form_meaning()
    ensures { (c : Signed) → (n : NormalConstraint) → c.relation ≡ AtLeast → IsNormalOf c n
        → (a : Valuation) → Holds a n ↔ Meets a c }
{}

/// The two normal forms of an equality both hold exactly where the equality is met.
pub fn both_meaning()
    ensures { (c : Signed) → (n m : NormalConstraint) → c.relation ≡ Equal → IsBothOf c n m
        → (a : Valuation) → (Holds a n × Holds a m) ↔ Meets a c }
{}

/// With unbounded numbers every normal constraint has exactly one negation.
pub fn one_negation()
    ensures { (n : NormalConstraint) → Rises 0 n.terms
        → (m : NormalConstraint) × IsNegation n m × ((k : NormalConstraint) → IsNegation n k → k ≡ m) }
{}

/// The negation holds exactly where the constraint does not.
pub fn negation_meaning()
    ensures { (n m : NormalConstraint) → Rises 0 n.terms → IsNegation n m
        → (a : Valuation) → Holds a m ↔ (Holds a n → ⊥) }
{}
