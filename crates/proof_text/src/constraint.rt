//! Written constraints: terms, `>=` and an integer, and the `;` behind them.
//!
//! Terms stay as they are written, signs, zeros and repeated variables included: to bring them into normal form is the kernel's affair.
//! `=` and `<=` would each be one constraint or two of the proof, with ids to match, and are left out where `>=` is due.

ghost use Rattle.std.specs.Prelude.{◌≡◌, ℕ, Bool, List, [], ◌∷◌, Some, is_some, false, ◌&&◌, MatchOption, IfOk, IfErr, OnOk};
ghost use Rattle.pb_text.specs.TokensOf.{texts_of};
ghost use Rattle.proof_text.specs.Words.{AreSmall, begins_integer};
ghost use Rattle.proof_text.specs.Forms.{terms_of, behind_terms, closing_of};
ghost use Rattle.proof_text.specs.Next.{begins_literal, IsFirst, IsMetLit, IsNumber, IsOfKind};
ghost use Rattle.proof_text.specs.PartsRead.{IsConstraintRead, Takes, SoFar};
ghost use Rattle.proof_text.specs.PartsDenied.{Denies};

use super::before_semicolon::BeforeSemicolon;
use super::fault::{ProofFault, Reading};
use super::line_names::LineNames;
use super::values::{lit, number};
use linear::{Lit, Relation, Seq, Signed, Term};
use pb_text::{Kind, Symbol, Tokens};
use std::alloc::Global;

/// The integer that stands next, and none where no integer does.
#[inline(always)]
fn next_number(words: &mut BeforeSemicolon<'_>) -> Reading<Option<i128>>
    ensures next { IfOk result (λ found. MatchOption
        found
        ((begins_integer words.old.front ≡ false) × (words.new.front ≡ words.old.front))
        (λ n. IsFirst (IsNumber n) words.old.front words.new.front)) }
    ensures behind { words.new.behind ≡ words.old.behind }
    ensures denies { (form : Bool) → IfErr result (λ f. Denies f form words.old.front) }
{
    if let Some(number) = words.take_number() {
        return Ok(Some(i128::from(number)));
    }
    if words.begins_symbol() {
        return Ok(None);
    }
    let Some(token) = words.take_integer() else {
        return Ok(None);
    };
    Ok(Some(number(token)?))
}

/// The literal that stands next, its name met.
#[inline(always)]
fn next_lit(words: &mut BeforeSemicolon<'_>, table: &mut LineNames<'_>) -> Reading<Lit>
    ensures next { IfOk result (λ l. IsFirst (IsMetLit table.old l table.new) words.old.front words.new.front) }
    ensures behind { words.new.behind ≡ words.old.behind }
    ensures kept { table.new.before ≡ table.old.before }
    ensures denies { IfErr result (λ f. Denies f (begins_literal words.old.front) words.old.front) }
{
    if let Some(read) = words.take_literal() {
        return Ok(table.lit(read.literal, read.said)?);
    }
    let Some(token) = words.take() else {
        return Err(ProofFault::BadLine);
    };
    lit(token, table)
}

/// The term of a coefficient, whose literal stands next.
#[inline(always)]
fn term(coef: i128, words: &mut BeforeSemicolon<'_>, table: &mut LineNames<'_>) -> Reading<Term>
    ensures takes { (word : List ℕ) →
        IsNumber coef word →
        IfOk result (λ t. Takes behind_terms terms_of table.old (word ∷ words.old.front) t table.new words.new.front) }
    ensures behind { words.new.behind ≡ words.old.behind }
    ensures kept { table.new.before ≡ table.old.before }
    ensures denies { (word : List ℕ) →
        IsNumber coef word →
        IfErr result (λ f. Denies f (is_some (closing_of (behind_terms (word ∷ words.old.front)))) (word ∷ words.old.front)) }
{
    let lit = next_lit(words, table)?;
    Ok(Term {
        coef,
        var: lit.var,
        negated: lit.negated,
    })
}

/// The terms that stand next.
fn terms(
    alloc: Global,
    words: &mut BeforeSemicolon<'_>,
    table: &mut LineNames<'_>,
) -> Reading<Seq<Term>>
    ensures read { IfOk result (λ v. SoFar behind_terms terms_of table.old words.old.front v table.new words.new.front) }
    ensures end { OnOk result (begins_integer words.new.front ≡ false) }
    ensures behind { words.new.behind ≡ words.old.behind }
    ensures kept { table.new.before ≡ table.old.before }
    ensures denies { IfErr result (λ f. Denies f (is_some (closing_of (behind_terms words.old.front))) words.old.front) }
{
    let mut terms = Vec::new(alloc);
    while let Some(coef) = next_number(words)? {
        let term = term(coef, words, table)?;
        terms.push(term)?;
    }
    Ok(Seq::short_lived(terms))
}

/// The kind of the next word, which is passed.
#[inline(always)]
fn next_kind(words: &mut BeforeSemicolon<'_>) -> Option<Kind>
    ensures word { MatchOption result ((words.old.front ≡ []) × (words.new.front ≡ [])) (λ k. IsFirst (IsOfKind k) words.old.front words.new.front) }
    ensures behind { words.new.behind ≡ words.old.behind }
{
    if let Some(symbol) = words.take_symbol() {
        return Some(Kind::Symbol(symbol));
    }
    let token = words.take()?;
    Some(token.kind)
}

/// `>=` and the right side.
fn right_side(words: &mut BeforeSemicolon<'_>) -> Reading<i128>
    ensures closing { IfOk result (λ n. closing_of words.old.front ≡ Some n) }
    ensures small { OnOk result (AreSmall words.old.front) }
    ensures end { OnOk result (words.new.front ≡ []) }
    ensures behind { words.new.behind ≡ words.old.behind }
    ensures denies { IfErr result (λ f. Denies f (is_some (closing_of words.old.front)) words.old.front) }
{
    let Some(kind) = next_kind(words) else {
        return Err(ProofFault::BadLine);
    };
    match kind {
        Kind::Symbol(Symbol::AtLeast) => {}
        Kind::Symbol(Symbol::Equals | Symbol::AtMost) => return Err(ProofFault::RuleLeftOut),
        _ => return Err(ProofFault::BadLine),
    }
    let Some(right) = next_number(words)? else {
        return Err(ProofFault::BadLine);
    };
    if words.is_empty() {
        Ok(right)
    } else {
        Err(ProofFault::BadLine)
    }
}

/// A constraint, and the words behind its `;`.
pub(crate) fn constraint<'a>(
    alloc: Global,
    mut words: BeforeSemicolon<'a>,
    table: &mut LineNames<'_>,
) -> Reading<(Signed, Tokens<'a>)>
    ensures read { IfOk result (λ r. IsConstraintRead table.old words.entry.front r.0 table.new) }
    ensures behind { IfOk result (λ r. words.entry.behind ≡ Some (texts_of r.1)) }
    ensures kept { table.new.before ≡ table.old.before }
    ensures denies { IfErr result (λ f. Denies f (is_some words.entry.behind && is_some (closing_of (behind_terms words.entry.front))) words.entry.front) }
{
    let terms = terms(alloc, &mut words, table)?;
    let right = right_side(&mut words)?;
    let Some(behind) = words.into_behind() else {
        return Err(ProofFault::BadLine);
    };
    let constraint = Signed {
        terms,
        relation: Relation::AtLeast,
        right,
    };
    Ok((constraint, behind))
}
