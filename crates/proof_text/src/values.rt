//! The values that words write: integers and literals, one of them or all up to the end of a line.
//!
//! An integer in an integer's place that is too large has a fault of its own; everywhere else it is a word that cannot stand. So the
//! size is asked only where an integer may stand.

ghost use Rattle.std.specs.Prelude.{◌≡◌, [], ◌∷◌, true, MatchOption, IfOk, IfErr, OnOk};
ghost use Rattle.pb_text.specs.Lexeme.{kind_of};
ghost use Rattle.pb_text.specs.Number.{integer_value};
ghost use Rattle.pb_text.specs.Word.{name_of};
ghost use Rattle.proof_text.specs.Kinds.{is_integer, is_literal};
ghost use Rattle.proof_text.specs.Words.{IsSmall, AreSmall};
ghost use Rattle.proof_text.specs.Numbering.{lit_of};
ghost use Rattle.proof_text.specs.NamesMet.{met};
ghost use Rattle.proof_text.specs.Forms.{are_literals, literals_of, are_integers, integers_of};
ghost use Rattle.proof_text.specs.Next.{IsFirst, IsMetLit, IsNumber};
ghost use Rattle.proof_text.specs.PartsRead.{IsRead};
ghost use Rattle.proof_text.specs.PartsDenied.{Denies};
ghost use Rattle.proof_text.specs.Faults.{IsPlain};

use super::fault::{ProofFault, Reading};
use super::line_names::LineNames;
use super::line_words::LineWords;
use linear::{Lit, Seq};
use pb_text::{NumFault, Said, Token, as_literal, integer};
use std::alloc::Global;

/// The number of an integer.
#[tactic(auto, using(crate::proofs::WordsByKind::one_large, crate::proofs::WordsByKind::small_value))]
pub(crate) fn number(token: Token<'_>) -> Reading<i128>
    ensures integer { OnOk result (is_integer (kind_of token.entry.text.now) ≡ true) }
    ensures value { IfOk result (λ n. n ≡ integer_value token.entry.text.now) }
    ensures small { OnOk result (IsSmall token.entry.text.now) }
    ensures denies { IfErr result (λ f. Denies f (is_integer (kind_of token.entry.text.now)) (token.entry.text.now ∷ [])) }
    ensures plain { IfErr result IsPlain }
    ensures memory { IfErr result (λ f. f ≡ ProofFault.OutOfMemory → ⊥) }
{
    match integer(token) {
        Ok(number) => Ok(number),
        Err(NumFault::NotNumber) => Err(ProofFault::BadLine),
        Err(NumFault::NumberTooLarge) => Err(ProofFault::IntegerTooLarge),
    }
}

/// The literal of a word, its name met.
pub(crate) fn lit(token: Token<'_>, table: &mut LineNames<'_>) -> Reading<Lit>
    ensures literal { OnOk result (is_literal (kind_of token.entry.text.now) ≡ true) }
    ensures value { IfOk result (λ l. l ≡ lit_of table.new.names token.entry.text.now) }
    ensures met { OnOk result (table.new ≡ met table.old (name_of token.entry.text.now)) }
    ensures kept { table.new.before ≡ table.old.before }
    ensures denies { IfErr result (λ f. Denies f (is_literal (kind_of token.entry.text.now)) (token.entry.text.now ∷ [])) }
    ensures plain { IfErr result IsPlain }
{
    let Some(literal) = as_literal(token) else {
        return Err(ProofFault::BadLine);
    };
    Ok(table.lit(literal, Said::Nothing)?)
}

/// The literal that stands next, its name met; none at the end.
#[inline(always)]
fn next_lit(words: &mut LineWords<'_>, table: &mut LineNames<'_>) -> Reading<Option<Lit>>
    ensures next { IfOk result (λ found. MatchOption
        found
        ((words.old ≡ []) × (table.new ≡ table.old))
        (λ l. IsFirst (IsMetLit table.old l table.new) words.old words.new)) }
    ensures kept { table.new.before ≡ table.old.before }
    ensures denies { IfErr result (λ f. Denies f (are_literals words.old) words.old) }
    ensures plain { IfErr result IsPlain }
{
    if let Some(read) = words.take_literal() {
        return Ok(Some(table.lit(read.literal, read.said)?));
    }
    let Some(token) = words.take() else {
        return Ok(None);
    };
    Ok(Some(lit(token, table)?))
}

/// The integer that stands next; none at the end.
#[inline(always)]
fn next_number(words: &mut LineWords<'_>) -> Reading<Option<i128>>
    ensures next { IfOk result (λ found. MatchOption found (words.old ≡ []) (λ n. IsFirst (IsNumber n) words.old words.new)) }
    ensures denies { IfErr result (λ f. Denies f (are_integers words.old) words.old) }
{
    if let Some(number) = words.take_number() {
        return Ok(Some(i128::from(number)));
    }
    let Some(token) = words.take() else {
        return Ok(None);
    };
    Ok(Some(number(token)?))
}

/// Literals up to the end of a line.
pub(crate) fn lits(
    alloc: Global,
    mut words: LineWords<'_>,
    table: &mut LineNames<'_>,
) -> Reading<Seq<Lit>>
    ensures read { IfOk result (λ v. IsRead are_literals literals_of table.old words.entry v table.new) }
    ensures kept { table.new.before ≡ table.old.before }
    ensures denies { IfErr result (λ f. Denies f (are_literals words.entry) words.entry) }
    ensures plain { IfErr result IsPlain }
{
    let mut lits = Vec::new(alloc);
    while let Some(lit) = next_lit(&mut words, table)? {
        lits.push(lit)?;
    }
    Ok(Seq::short_lived(lits))
}

/// Integers up to the end of a line.
pub(crate) fn numbers(alloc: Global, mut words: LineWords<'_>) -> Reading<Seq<i128>>
    ensures integers { OnOk result (are_integers words.entry ≡ true) }
    ensures values { IfOk result (λ v. v ≡ integers_of words.entry) }
    ensures small { OnOk result (AreSmall words.entry) }
    ensures denies { IfErr result (λ f. Denies f (are_integers words.entry) words.entry) }
{
    let mut numbers = Vec::new(alloc);
    while let Some(number) = next_number(&mut words)? {
        numbers.push(number)?;
    }
    Ok(Seq::short_lived(numbers))
}
