//! The normal form of signed constraints.
//!
//! Cutting planes (Cook, Coullard and Turán) are usually told for `>=` with coefficients above 0 over literals, since
//! then the degree alone tells what a constraint still wants. `c x` with `c` below 0 is `-c ~x + c`, so a coefficient
//! below 0 becomes one above 0 at the opposite literal, and raises the degree. An equality is two such constraints:
//! itself read as `>=`, and the same with all signs changed, which is itself read as `<=`. The second has the first
//! one's merged terms at the opposite literals, so terms are merged once.

ghost use Rattle.std.specs.Prelude.{◌≡◌, ◌+◌, ◌≤◌, ◌↔◌, ◌⊎◌, map, pos, IfOk, IsErrOf, OnOk, OnErr, unsigned_abs};
ghost use Rattle.std.specs.List.Sorted.{IsNonDecreasingBy, IsPermutation};
ghost use Rattle.linear.specs.Valuation.{Valuation};
ghost use Rattle.linear.specs.Sum.{Meets};
ghost use Rattle.normal_form.specs.Normal.{IsNormal, Holds, Rises, largest_sum, sum_over};
ghost use Rattle.normal_form.specs.NormalOf.{IsNormalOf, IsBothOf, IsTooLarge, negated_sum, signs_changed, sign_changed, size_sum};
ghost use Rattle.normal_form.specs.Balance.{Balances};

use super::builder::NormalBuilder;
use super::degrees::{at_least_degree, at_least_zero, at_most_degree};
use super::fault::CutFault;
use super::merging::{are_in_order, merge, merge_runs, put_in_order, sizes_fit};
use super::normal::Normal;
use super::opposites::flip;
use super::plain::{are_plain, plain_terms};
use linear::{Relation, Signed, Term};
use std::alloc::{AllocError, Global};

/// The form of a constraint read as `>=`, of its merged terms.
fn at_least(merged: NormalBuilder, constraint: &Signed) -> Result<Normal, CutFault>
    requires sizes { size_sum constraint.now.terms ≤ largest_sum }
    requires balance { Balances constraint.now.terms merged }
    ensures form { IfOk result (IsNormalOf constraint.now) }
    ensures normal { IfOk result IsNormal }
    ensures within { OnOk result (IsTooLarge constraint.now → ⊥) }
    ensures too_large { OnErr result (IsTooLarge constraint.now × IsErrOf result CutFault.TooLarge) }
{
    let degree = at_least_degree(
        constraint.right,
        constraint.terms.as_slice(),
        merged.terms(),
    );
    merged.finish(degree)
}

/// The form of a constraint with all signs changed read as `>=`, of its merged terms.
fn at_most(merged: NormalBuilder, constraint: &Signed) -> Result<Normal, CutFault>
    requires sizes { size_sum constraint.now.terms ≤ largest_sum }
    requires balance { Balances (map sign_changed constraint.now.terms) merged }
    ensures form { IfOk result (IsNormalOf (signs_changed constraint.now)) }
    ensures normal { IfOk result IsNormal }
    ensures within { OnOk result (IsTooLarge (signs_changed constraint.now) → ⊥) }
    ensures too_large { OnErr result (IsTooLarge (signs_changed constraint.now) × IsErrOf result CutFault.TooLarge) }
{
    let degree = at_most_degree(
        constraint.right,
        constraint.terms.as_slice(),
        merged.terms(),
    );
    merged.finish(degree)
}

/// The form of a constraint read as `>=`, of merged terms that lift no degree: their negated literals count what the negated terms do.
fn unlifted(merged: NormalBuilder, constraint: &Signed) -> Result<Normal, CutFault>
    requires sizes { size_sum constraint.now.terms ≤ largest_sum }
    requires balance { Balances constraint.now.terms merged }
    requires rises { Rises 0 merged }
    requires lift { negated_sum constraint.now.terms ≡ pos (sum_over (λ _ negated. negated) merged) }
    ensures form { IfOk result (IsNormalOf constraint.now) }
    ensures normal { IfOk result IsNormal }
    ensures within { OnOk result (IsTooLarge constraint.now → ⊥) }
    ensures too_large { OnErr result (IsTooLarge constraint.now × IsErrOf result CutFault.TooLarge) }
{
    merged.finish(at_least_zero(constraint.right))
}

/// The normal form of a constraint with `>=` whose sizes add up to no more than the limit, of its terms in order of their variables.
fn form_of(alloc: Global, ordered: &[Term], constraint: &Signed) -> Result<Normal, CutFault>
    requires relation { constraint.now.relation ≡ Relation.AtLeast }
    requires sizes { size_sum constraint.now.terms ≤ largest_sum }
    requires order { IsNonDecreasingBy (λ t. t.var.0) ordered.now }
    requires same { IsPermutation constraint.now.terms ordered.now }
    ensures form { IfOk result (IsNormalOf constraint.now) }
    ensures normal { IfOk result IsNormal }
    ensures same { IfOk result (λ n. (a : Valuation) → Holds a n ↔ Meets a constraint.now) }
    ensures too_large { IsErrOf result CutFault.TooLarge → IsTooLarge constraint.now }
    ensures within { OnOk result (IsTooLarge constraint.now → ⊥) }
    ensures small { size_sum constraint.now.terms + unsigned_abs constraint.now.right ≤ largest_sum → IsErrOf result CutFault.TooLarge → ⊥ }
    ensures factor { IsErrOf result CutFault.BadFactor → ⊥ }
{
    if are_plain(ordered) {
        return unlifted(plain_terms(alloc, ordered)?, constraint);
    }
    at_least(merge_runs(alloc, ordered)?, constraint)
}

/// Makes normal forms. It keeps the list in which terms are put in order from one constraint to the next, so that whoever makes many
/// forms takes memory for what they are made of alone.
#[derive(Drop)]
pub struct Normalizer {
    allocator: Global,
    sorted: Vec<Term>,
}

impl Normalizer {
    ghost use Rattle.std.specs.Prelude.{◌≡◌, ◌+◌, ◌≤◌, ◌↔◌, ◌⊎◌, IfOk, IsErrOf, OnOk, unsigned_abs};
    ghost use Rattle.linear.specs.Valuation.{Valuation};
    ghost use Rattle.linear.specs.Sum.{Meets};
    ghost use Rattle.normal_form.specs.Normal.{IsNormal, Holds, largest_sum};
    ghost use Rattle.normal_form.specs.NormalOf.{IsNormalOf, IsBothOf, IsTooLarge, signs_changed, size_sum};

    /// No list yet.
    pub fn new(alloc: Global) -> Self {
        Normalizer {
            allocator: alloc,
            sorted: Vec::new(alloc),
        }
    }

    /// The normal form of a constraint with `>=`. `TooLarge` comes exactly where the sizes of its coefficients
    /// add up to more than `2^120`, or the form's sum or degree is above `2^120`; so it does not come where the
    /// sizes and that of the right side together are at most `2^120`.
    pub fn normalize(&mut self, constraint: &Signed) -> Result<Normal, CutFault>
        requires { constraint.now.relation ≡ Relation.AtLeast }
        ensures form { IfOk result (IsNormalOf constraint.now) }
        ensures normal { IfOk result IsNormal }
        ensures same { IfOk result (λ n. (a : Valuation) → Holds a n ↔ Meets a constraint.now) }
        ensures too_large { IsErrOf result CutFault.TooLarge → IsTooLarge constraint.now }
        ensures within { OnOk result (IsTooLarge constraint.now → ⊥) }
        ensures small { size_sum constraint.now.terms + unsigned_abs constraint.now.right ≤ largest_sum → IsErrOf result CutFault.TooLarge → ⊥ }
        ensures factor { IsErrOf result CutFault.BadFactor → ⊥ }
    {
        if !sizes_fit(constraint.terms.as_slice()) {
            return Err(CutFault::TooLarge);
        }
        self.merged_form(constraint)
    }

    /// The normal form of a constraint with `>=` whose sizes add up to no more than the limit.
    fn merged_form(&mut self, constraint: &Signed) -> Result<Normal, CutFault>
        requires relation { constraint.now.relation ≡ Relation.AtLeast }
        requires sizes { size_sum constraint.now.terms ≤ largest_sum }
        ensures form { IfOk result (IsNormalOf constraint.now) }
        ensures normal { IfOk result IsNormal }
        ensures same { IfOk result (λ n. (a : Valuation) → Holds a n ↔ Meets a constraint.now) }
        ensures too_large { IsErrOf result CutFault.TooLarge → IsTooLarge constraint.now }
        ensures within { OnOk result (IsTooLarge constraint.now → ⊥) }
        ensures small { size_sum constraint.now.terms + unsigned_abs constraint.now.right ≤ largest_sum → IsErrOf result CutFault.TooLarge → ⊥ }
        ensures factor { IsErrOf result CutFault.BadFactor → ⊥ }
    {
        let terms = constraint.terms.as_slice();
        if are_in_order(terms) {
            return form_of(self.allocator, terms, constraint);
        }
        put_in_order(&mut self.sorted, terms)?;
        form_of(self.allocator, self.sorted.as_slice(), constraint)
    }

    /// The two normal forms of an equality: that of the constraint with `>=`, then that of the same with all
    /// signs changed. `TooLarge` comes exactly where the sizes of its coefficients add up to more than `2^120`,
    /// or the sum or degree of either form is above `2^120`.
    pub fn both(&mut self, constraint: &Signed) -> Result<(Normal, Normal), CutFault>
        requires { constraint.now.relation ≡ Relation.Equal }
        ensures form { IfOk result (λ p. IsBothOf constraint.now p.0 p.1) }
        ensures normal { IfOk result (λ p. IsNormal p.0 × IsNormal p.1) }
        ensures same { IfOk result (λ p. (a : Valuation) → (Holds a p.0 × Holds a p.1) ↔ Meets a constraint.now) }
        ensures too_large { IsErrOf result CutFault.TooLarge → IsTooLarge constraint.now ⊎ IsTooLarge (signs_changed constraint.now) }
        ensures within { OnOk result (IsTooLarge constraint.now ⊎ IsTooLarge (signs_changed constraint.now) → ⊥) }
        ensures small { size_sum constraint.now.terms + unsigned_abs constraint.now.right ≤ largest_sum → IsErrOf result CutFault.TooLarge → ⊥ }
        ensures factor { IsErrOf result CutFault.BadFactor → ⊥ }
    {
        let terms = constraint.terms.as_slice();
        if !sizes_fit(terms) {
            return Err(CutFault::TooLarge);
        }
        let merged = merge(self.allocator, &mut self.sorted, terms)?;
        let turned = flip(self.allocator, merged.terms())?;
        Ok((at_least(merged, constraint)?, at_most(turned, constraint)?))
    }

    /// The normal form of a constraint with `>=` that is within the limits.
    pub fn normalize_fitting(&mut self, constraint: &Signed) -> Result<Normal, AllocError>
        requires relation { constraint.now.relation ≡ Relation.AtLeast }
        requires fits { IsTooLarge constraint.now → ⊥ }
        ensures form { IfOk result (IsNormalOf constraint.now) }
        ensures normal { IfOk result IsNormal }
        ensures same { IfOk result (λ n. (a : Valuation) → Holds a n ↔ Meets a constraint.now) }
    {
        match self.merged_form(constraint) {
            Ok(form) => Ok(form),
            Err(_) => Err(AllocError),
        }
    }

    /// The two normal forms of an equality of which the sizes of the coefficients and of the right side together are at most `2^120`.
    pub fn both_fitting(&mut self, constraint: &Signed) -> Result<(Normal, Normal), AllocError>
        requires relation { constraint.now.relation ≡ Relation.Equal }
        requires small { size_sum constraint.now.terms + unsigned_abs constraint.now.right ≤ largest_sum }
        ensures form { IfOk result (λ p. IsBothOf constraint.now p.0 p.1) }
        ensures normal { IfOk result (λ p. IsNormal p.0 × IsNormal p.1) }
        ensures same { IfOk result (λ p. (a : Valuation) → (Holds a p.0 × Holds a p.1) ↔ Meets a constraint.now) }
    {
        match self.both(constraint) {
            Ok(forms) => Ok(forms),
            Err(_) => Err(AllocError),
        }
    }
}

/// The normal form of a constraint with `>=`, of whoever makes one alone.
pub fn normalize(alloc: Global, constraint: &Signed) -> Result<Normal, CutFault>
    requires { constraint.now.relation ≡ Relation.AtLeast }
    ensures form { IfOk result (IsNormalOf constraint.now) }
    ensures normal { IfOk result IsNormal }
    ensures same { IfOk result (λ n. (a : Valuation) → Holds a n ↔ Meets a constraint.now) }
    ensures too_large { IsErrOf result CutFault.TooLarge → IsTooLarge constraint.now }
    ensures within { OnOk result (IsTooLarge constraint.now → ⊥) }
    ensures small { size_sum constraint.now.terms + unsigned_abs constraint.now.right ≤ largest_sum → IsErrOf result CutFault.TooLarge → ⊥ }
    ensures factor { IsErrOf result CutFault.BadFactor → ⊥ }
{
    let mut normalizer = Normalizer::new(alloc);
    normalizer.normalize(constraint)
}

/// The normal form of a constraint with `>=` that is within the limits, of whoever makes one alone.
pub fn normalize_fitting(alloc: Global, constraint: &Signed) -> Result<Normal, AllocError>
    requires relation { constraint.now.relation ≡ Relation.AtLeast }
    requires fits { IsTooLarge constraint.now → ⊥ }
    ensures form { IfOk result (IsNormalOf constraint.now) }
    ensures normal { IfOk result IsNormal }
    ensures same { IfOk result (λ n. (a : Valuation) → Holds a n ↔ Meets a constraint.now) }
{
    let mut normalizer = Normalizer::new(alloc);
    normalizer.normalize_fitting(constraint)
}

/// The two normal forms of an equality, of whoever makes them alone.
pub fn both(alloc: Global, constraint: &Signed) -> Result<(Normal, Normal), CutFault>
    requires { constraint.now.relation ≡ Relation.Equal }
    ensures form { IfOk result (λ p. IsBothOf constraint.now p.0 p.1) }
    ensures normal { IfOk result (λ p. IsNormal p.0 × IsNormal p.1) }
    ensures same { IfOk result (λ p. (a : Valuation) → (Holds a p.0 × Holds a p.1) ↔ Meets a constraint.now) }
    ensures too_large { IsErrOf result CutFault.TooLarge → IsTooLarge constraint.now ⊎ IsTooLarge (signs_changed constraint.now) }
    ensures within { OnOk result (IsTooLarge constraint.now ⊎ IsTooLarge (signs_changed constraint.now) → ⊥) }
    ensures small { size_sum constraint.now.terms + unsigned_abs constraint.now.right ≤ largest_sum → IsErrOf result CutFault.TooLarge → ⊥ }
    ensures factor { IsErrOf result CutFault.BadFactor → ⊥ }
{
    let mut normalizer = Normalizer::new(alloc);
    normalizer.both(constraint)
}
