//! The items of a `pol` line. An integer directly before `*` or `d` belongs to it, and so does a name directly before
//! `w`; so each line has one reading.

ghost use Rattle.std.specs.Prelude.{◌≡◌, ℕ, List, [], ◌∷◌, None, MatchOption, IfOk, IfErr, IfSome};
ghost use Rattle.proof_text.specs.NamesMet.{NamesMet};
ghost use Rattle.proof_text.specs.Forms.{are_items, items_of};
ghost use Rattle.proof_text.specs.Next.{IsMetLit, IsNoOperation, IsNumber};
ghost use Rattle.proof_text.specs.PartsRead.{Takes, IsRead};
ghost use Rattle.proof_text.specs.PartsDenied.{Denies};

use super::fault::{ProofFault, Reading};
use super::line_names::LineNames;
use super::line_words::LineWords;
use super::values::{lit, number};
use linear::{Lit, Seq};
use pb_text::{Kind, Token};
use proof_steps::Item;
use std::alloc::Global;

/// An id, or a factor with its operation: what a number begins.
#[inline(always)]
fn number_item(number: i128, words: &mut LineWords<'_>) -> Item
    ensures { (word : List ℕ) (k : NamesMet) → IsNumber number word → Takes are_items items_of k (word ∷ words.old) result k words.new }
{
    if words.takes_byte(b'*') {
        return Item::Multiply(number);
    }
    if words.takes_byte(b'd') {
        return Item::Divide(number);
    }
    Item::Id(number)
}

/// An axiom, or a variable with the weakening by it: what a literal begins.
#[inline(always)]
fn literal_item(lit: Lit, words: &mut LineWords<'_>) -> Item
    ensures { (word : List ℕ) (k new : NamesMet) → IsMetLit k lit new word → Takes are_items items_of k (word ∷ words.old) result new words.new }
{
    if !lit.negated && words.takes_byte(b'w') {
        return Item::Weaken(lit.var);
    }
    Item::Axiom(lit)
}

/// The operation that stands next, if one does: `+` or `s`. (Both begin no name, but `s` begins with a letter, so its kind is that of a
/// misspelt one.)
#[inline(always)]
fn operation(words: &mut LineWords<'_>) -> Option<Item>
    ensures takes { IfSome result (λ i. (k : NamesMet) → Takes are_items items_of k words.old i k words.new) }
    ensures none { result ≡ None → (words.new ≡ words.old) × IsNoOperation words.old }
{
    if words.takes_byte(b'+') {
        return Some(Item::Add);
    }
    if words.takes_byte(b's') {
        return Some(Item::Saturate);
    }
    None
}

/// The item that a word begins which is no operation.
fn item(token: Token<'_>, words: &mut LineWords<'_>, table: &mut LineNames<'_>) -> Reading<Item>
    requires { IsNoOperation (token.text.now ∷ words.old) }
    ensures takes { IfOk result (λ i. Takes are_items items_of table.old (token.entry.text.now ∷ words.old) i table.new words.new) }
    ensures kept { table.new.before ≡ table.old.before }
    ensures denies { IfErr result (λ f. Denies f (are_items (token.entry.text.now ∷ words.old)) (token.entry.text.now ∷ words.old)) }
{
    match token.kind {
        Kind::Integer => Ok(number_item(number(token)?, words)),
        Kind::Literal => {
            let lit = lit(token, table)?;
            Ok(literal_item(lit, words))
        }
        Kind::Symbol(_) | Kind::Stray | Kind::Misspelt | Kind::Other => Err(ProofFault::BadLine),
    }
}

/// The item that a number begins which stands next in plain digits, as most do.
#[inline(always)]
fn plain_number_item(words: &mut LineWords<'_>) -> Option<Item>
    ensures takes { IfSome result (λ i. (k : NamesMet) → Takes are_items items_of k words.old i k words.new) }
    ensures none { result ≡ None → words.new ≡ words.old }
{
    if !words.begins_digit() {
        return None;
    }
    let number = words.take_number()?;
    words.pass_gap();
    Some(number_item(i128::from(number), words))
}

/// The item that stands next; none at the end.
#[inline(always)]
fn next_item(words: &mut LineWords<'_>, table: &mut LineNames<'_>) -> Reading<Option<Item>>
    ensures next { IfOk result (λ found. MatchOption
        found
        ((words.old ≡ []) × (table.new ≡ table.old))
        (λ i. Takes are_items items_of table.old words.old i table.new words.new)) }
    ensures kept { table.new.before ≡ table.old.before }
    ensures denies { IfErr result (λ f. Denies f (are_items words.old) words.old) }
{
    words.pass_gap();
    if let Some(item) = plain_number_item(words) {
        return Ok(Some(item));
    }
    if let Some(item) = operation(words) {
        return Ok(Some(item));
    }
    if let Some(read) = words.take_literal() {
        let lit = table.lit(read.literal, read.said)?;
        return Ok(Some(literal_item(lit, words)));
    }
    let Some(token) = words.take() else {
        return Ok(None);
    };
    Ok(Some(item(token, words, table)?))
}

/// Most lines have no more items.
const FEW_ITEMS: usize = 8;

/// The items up to the end of a line.
pub(crate) fn items(
    alloc: Global,
    mut words: LineWords<'_>,
    table: &mut LineNames<'_>,
) -> Reading<Seq<Item>>
    ensures read { IfOk result (λ v. IsRead are_items items_of table.old words.entry v table.new) }
    ensures kept { table.new.before ≡ table.old.before }
    ensures denies { IfErr result (λ f. Denies f (are_items words.entry) words.entry) }
{
    let mut items = Vec::with_capacity(alloc, FEW_ITEMS)?;
    while let Some(item) = next_item(&mut words, table)? {
        items.push(item)?;
    }
    Ok(Seq::short_lived(items))
}
