//! The constraints of a problem, kept close together.
//!
//! A file may have a million short constraints. In a list of its own each, with a right side of sixteen bytes, one of two terms takes 160 bytes;
//! here the terms of all stand in one list, where most take eight bytes, and each constraint takes two places more: a term that closes it, which
//! has its right side for a coefficient, and a number that says where that stands. So a constraint is lent as a part of the list
//! (`LentConstraint`), and whoever wants it as one of its own copies it.

ghost use Rattle.std.specs.Prelude.{◌≡◌, ◌<◌, ◌≤◌, ◌++◌, ◌∷◌, [], IfOk, OnOk, OnErr, length, slice_index_or, take};
ghost use Rattle.linear.specs.Packed.{closing_term, relation_closed, start_at};

use super::constraint::{Relation, Signed};
use super::packed_terms::PackedTerms;
use super::seq::Seq;
use super::term::{Integer, Term, Var};
use std::alloc::{AllocError, Global};
use std::marker::Model;

/// Constraints, in order.
#[derive(Debug, Drop)]
pub struct Constraints {
    terms: PackedTerms,
    /// For each constraint the place behind the term that closes it, where the next one begins.
    ends: Vec<usize>,
}

impl Model for Constraints {
    ghost use Rattle.std.specs.Prelude.{List, length};
    ghost use Rattle.linear.specs.declared.constraint.Signed.{Signed};
    ghost use Rattle.linear.specs.Packed.{constraints_cut, ArePlaces};

    ghost Value = { List Signed };

    ghost view = { λ c. constraints_cut c.terms 0 c.ends.items };

    ghost invariant = { λ c. ArePlaces 0 c.ends.items (length c.terms) };
}

/// The term that closes a constraint.
fn closing(relation: Relation, right: Integer) -> Term
    ensures { result ≡ closing_term relation right }
{
    Term {
        coef: right,
        var: Var(0),
        negated: relation == Relation::Equal,
    }
}

/// The relation of the constraint that a term closes.
fn relation_closed_by(term: Term) -> Relation
    ensures { result ≡ relation_closed term }
{
    if term.negated {
        Relation::Equal
    } else {
        Relation::AtLeast
    }
}

/// Puts terms at the end of others. Where memory runs out, some of them may stand there.
fn put_all(kept: &mut PackedTerms, terms: &[Term]) -> Result<(), AllocError>
    ensures ok { OnOk result (kept.new ≡ kept.old ++ terms.now) }
    ensures before { take (length kept.old) kept.new ≡ kept.old }
    ensures longer { length kept.old ≤ length kept.new }
{
    for term in terms {
        kept.push(*term)?;
    }
    Ok(())
}

/// Puts terms and what closes them behind the first so many others. What stood there goes: it was put there in vain.
fn put(
    kept: &mut PackedTerms,
    start: usize,
    terms: &[Term],
    closing: Term,
) -> Result<(), AllocError>
    requires { start ≤ length kept.old }
    ensures ok { OnOk result (kept.new ≡ (take start kept.old ++ terms.now) ++ closing ∷ []) }
    ensures before { take start kept.new ≡ take start kept.old }
    ensures longer { start ≤ length kept.new }
{
    kept.truncate(start);
    put_all(kept, terms)?;
    kept.push(closing)?;
    Ok(())
}

/// Copies terms over others, whose memory they take.
fn copy_terms(lent: &LentConstraint<'_>, terms: &mut Seq<Term>) -> Result<(), AllocError>
    ensures { OnOk result (terms.new ≡ lent.now.terms) }
{
    terms.clear();
    for place in 0..lent.len() {
        terms.push(lent.term(place))?;
    }
    Ok(())
}

/// Where the terms of the constraint behind so many begin.
#[inline(always)]
fn start_of(ends: &[usize], count: usize) -> usize
    requires { count ≤ length ends.now }
    ensures { result ≡ start_at 0 ends.now count }
{
    if count == 0 { 0 } else { ends[count - 1] }
}

impl Constraints {
    /// No constraints.
    pub fn new(alloc: Global) -> Self
        ensures { result ≡ [] }
    {
        Constraints {
            terms: PackedTerms::new(alloc),
            ends: Vec::new(alloc),
        }
    }

    /// How many constraints there are.
    pub fn len(&self) -> usize
        ensures { result ≡ length self.now }
    {
        self.ends.len()
    }

    /// How many terms they have together.
    pub fn term_count(&self) -> usize {
        self.terms.len().saturating_sub(self.ends.len())
    }

    /// Puts a constraint at the end. Where memory runs out, there are those before it.
    pub fn push(
        &mut self,
        terms: &[Term],
        relation: Relation,
        right: Integer,
    ) -> Result<(), AllocError>
        ensures ok { OnOk result (self.new ≡ self.old ++ (record { terms = terms.now; relation = relation; right = right }) ∷ []) }
        ensures err { OnErr result (self.new ≡ self.old) }
    {
        self.ends.reserve(1)?;
        let start = start_of(self.ends.as_slice(), self.ends.len());
        put(&mut self.terms, start, terms, closing(relation, right))?;
        self.ends.push_reserved(self.terms.len());
        Ok(())
    }

    /// The constraint at a place.
    #[inline(always)]
    pub fn get(&self, place: usize) -> LentConstraint<'_>
        requires { place < length self.now }
        ensures { result ≡ slice_index_or self.now place result }
    {
        LentConstraint {
            all: &self.terms,
            start: start_of(self.ends.as_slice(), place),
            end: self.ends[place] - 1,
        }
    }

    /// Copies the constraint at a place over another one, whose memory it takes. Where memory runs out, nothing is said of the other.
    pub fn copy_to(&self, place: usize, constraint: &mut Signed) -> Result<(), AllocError>
        requires { place < length self.now }
        ensures { OnOk result (constraint.new ≡ slice_index_or self.now place constraint.new) }
    {
        let lent = self.get(place);
        copy_terms(&lent, &mut constraint.terms)?;
        constraint.relation = lent.relation();
        constraint.right = lent.right();
        Ok(())
    }
}

/// A constraint that stands among others.
#[derive(Debug, Drop)]
pub struct LentConstraint<'a> {
    all: &'a PackedTerms,
    start: usize,
    /// Where the term stands that closes it.
    end: usize,
}

impl<'a> Model for LentConstraint<'a> {
    ghost use Rattle.std.specs.Prelude.{◌<◌, ◌≤◌, length};
    ghost use Rattle.linear.specs.declared.constraint.Signed.{Signed};
    ghost use Rattle.linear.specs.Packed.{constraint_between};

    ghost Value = { Signed };

    ghost view = { λ c. constraint_between c.all.now c.start c.end };

    ghost invariant = { λ c. (c.start ≤ c.end) × (c.end < length c.all.now) };
}

impl<'a> LentConstraint<'a> {
    /// How many terms it has.
    #[inline(always)]
    pub fn len(&self) -> usize
        ensures { result ≡ length self.now.terms }
    {
        self.end - self.start
    }

    /// The term at a place.
    #[inline(always)]
    pub fn term(&self, place: usize) -> Term
        requires { place < length self.now.terms }
        ensures { result ≡ slice_index_or self.now.terms place result }
    {
        // Only differences, since a sum of two places might leave its type.
        self.all.get(self.end - (self.len() - place))
    }

    pub fn relation(&self) -> Relation
        ensures { result ≡ self.now.relation }
    {
        relation_closed_by(self.all.get(self.end))
    }

    pub fn right(&self) -> Integer
        ensures { result ≡ self.now.right }
    {
        self.all.get(self.end).coef
    }
}
