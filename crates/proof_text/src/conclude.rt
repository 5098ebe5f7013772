//! The conclusion line: its kind, bounds, and the hints that may stand behind a colon.
//!
//! A hint of an id saves a checker a search and counts for nothing here. A hint of literals is a solution that will be judged, so it
//! is kept; one without literals is a solution of no literals, and not the same as none. The lower bound `-INF` is this
//! product's own spelling for "no bound".

ghost use Rattle.std.specs.Prelude.{◌≡◌, [], ◌∷◌, true, is_some, drop, IfOk, IfErr, OnOk};
ghost use Rattle.pb_text.specs.TokensOf.{texts_of};
ghost use Rattle.proof_text.specs.Words.{AreSmall, unclosed};
ghost use Rattle.proof_text.specs.Conclusions as conclusions;
ghost use Rattle.proof_text.specs.ConclusionsRead.{begins_right, IsHintRead, IsConclusionRead, IsConclusionLineRead};
ghost use Rattle.proof_text.specs.PartsDenied.{Denies};
ghost use Rattle.proof_text.specs.Faults.{IsPlain};

use super::fault::{ProofFault, Reading};
use super::keyword::{ConclusionKind, conclusion_kind_of};
use super::line_names::LineNames;
use super::line_words::LineWords;
use super::values::{lits, number};
use linear::{Lit, Seq};
use pb_text::{Kind, Symbol, Token, Tokens};
use proof_steps::{Conclusion, Lower, Upper};
use std::alloc::Global;

/// A hint of literals, if one stands here.
fn hint(
    alloc: Global,
    mut words: LineWords<'_>,
    table: &mut LineNames<'_>,
) -> Reading<Option<Seq<Lit>>>
    ensures read { IfOk result (λ h. IsHintRead table.old words.entry h table.new) }
    ensures kept { table.new.before ≡ table.old.before }
    ensures denies { IfErr result (λ f. Denies f (conclusions.is_hint words.entry) words.entry) }
    ensures plain { IfErr result IsPlain }
{
    let Some(token) = words.take() else {
        return Ok(None);
    };
    let Kind::Symbol(Symbol::Colon) = token.kind else {
        return Err(ProofFault::BadLine);
    };
    Ok(Some(lits(alloc, words, table)?))
}

/// Passes a hint of an id, if one stands here. It is read and not kept.
fn pass_id(words: &mut LineWords<'_>) -> Reading<()>
    ensures left { OnOk result (words.new ≡ conclusions.past_id words.old) }
    ensures small { OnOk result (AreSmall words.new → AreSmall words.old) }
    ensures later { OnOk result (AreSmall words.old → AreSmall words.new) }
    ensures denies { IfErr result (λ f. Denies f (begins_right words.old) words.old) }
    ensures plain { IfErr result IsPlain }
{
    let Some(token) = words.next() else {
        return Ok(());
    };
    let Kind::Symbol(Symbol::Colon) = token.kind else {
        return Ok(());
    };
    words.take();
    let Some(id) = words.take() else {
        return Err(ProofFault::BadLine);
    };
    number(id)?;
    Ok(())
}

/// A lower bound.
fn lower(token: Token<'_>) -> Reading<Lower>
    ensures form { OnOk result (conclusions.is_lower token.entry.text.now ≡ true) }
    ensures value { IfOk result (λ l. l ≡ conclusions.lower_of token.entry.text.now) }
    ensures small { OnOk result (AreSmall (token.entry.text.now ∷ [])) }
    ensures denies { IfErr result (λ f. Denies f (conclusions.is_lower token.entry.text.now) (token.entry.text.now ∷ [])) }
    ensures plain { IfErr result IsPlain }
{
    if token.text == b"INF".as_slice() {
        return Ok(Lower::Inf);
    }
    if token.text == b"-INF".as_slice() {
        return Ok(Lower::MinusInf);
    }
    Ok(Lower::At(number(token)?))
}

/// An upper bound.
fn upper(token: Token<'_>) -> Reading<Upper>
    ensures form { OnOk result (conclusions.is_upper token.entry.text.now ≡ true) }
    ensures value { IfOk result (λ l. l ≡ conclusions.upper_of token.entry.text.now) }
    ensures small { OnOk result (AreSmall (token.entry.text.now ∷ [])) }
    ensures denies { IfErr result (λ f. Denies f (conclusions.is_upper token.entry.text.now) (token.entry.text.now ∷ [])) }
    ensures plain { IfErr result IsPlain }
{
    if token.text == b"INF".as_slice() {
        return Ok(Upper::Inf);
    }
    Ok(Upper::At(number(token)?))
}

/// `BOUNDS`, behind the word.
fn bounds(alloc: Global, mut words: LineWords<'_>, table: &mut LineNames<'_>) -> Reading<Conclusion>
    ensures read { IfOk result (λ c. IsConclusionRead ConclusionKind.Bounds table.old words.entry c table.new) }
    ensures kept { table.new.before ≡ table.old.before }
    ensures denies { IfErr result (λ f. Denies f (conclusions.is_conclusion ConclusionKind.Bounds words.entry) words.entry) }
    ensures plain { IfErr result IsPlain }
{
    let Some(token) = words.take() else {
        return Err(ProofFault::BadLine);
    };
    let lower = lower(token)?;
    pass_id(&mut words)?;
    let Some(token) = words.take() else {
        return Err(ProofFault::BadLine);
    };
    let upper = upper(token)?;
    let hint = hint(alloc, words, table)?;
    Ok(Conclusion::Bounds(lower, upper, hint))
}

/// What stands behind the word of a conclusion of this kind.
fn of_kind(
    alloc: Global,
    kind: ConclusionKind,
    mut words: LineWords<'_>,
    table: &mut LineNames<'_>,
) -> Reading<Conclusion>
    ensures read { IfOk result (λ c. IsConclusionRead kind table.old words.entry c table.new) }
    ensures kept { table.new.before ≡ table.old.before }
    ensures denies { IfErr result (λ f. Denies f (conclusions.is_conclusion kind words.entry) words.entry) }
    ensures plain { IfErr result IsPlain }
{
    match kind {
        ConclusionKind::Nothing if words.is_empty() => Ok(Conclusion::Nothing),
        ConclusionKind::Nothing => Err(ProofFault::BadLine),
        ConclusionKind::Sat => Ok(Conclusion::Sat(hint(alloc, words, table)?)),
        ConclusionKind::Unsat => {
            pass_id(&mut words)?;
            if words.is_empty() {
                Ok(Conclusion::Unsat)
            } else {
                Err(ProofFault::BadLine)
            }
        }
        ConclusionKind::Bounds => bounds(alloc, words, table),
    }
}

/// `conclusion ..`
pub(crate) fn conclusion(
    alloc: Global,
    mut words: Tokens<'_>,
    table: &mut LineNames<'_>,
) -> Reading<Conclusion>
    ensures read { IfOk result (λ c. IsConclusionLineRead table.old (texts_of words.entry) c table.new) }
    ensures kept { table.new.before ≡ table.old.before }
    ensures denies { let ws = texts_of words.entry in
        IfErr result (λ f. Denies f (is_some (conclusions.conclusion_of [] ws)) (drop 1 (unclosed (drop 1 ws)))) }
    ensures plain { IfErr result IsPlain }
{
    let Some(token) = words.next() else {
        return Err(ProofFault::BadLine);
    };
    if token.text != b"conclusion".as_slice() {
        return Err(ProofFault::BadLine);
    }
    let mut words = LineWords::new(words);
    let Some(token) = words.take() else {
        return Err(ProofFault::BadLine);
    };
    let Some(kind) = conclusion_kind_of(token.text) else {
        return Err(ProofFault::BadLine);
    };
    of_kind(alloc, kind, words, table)
}
