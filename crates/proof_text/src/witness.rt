//! Substitutions: names and their images in turn, and whether a block begins behind them.
//!
//! The arrow may be missing and leaves one reading all the same, since names and images alternate. A name stands on the left once:
//! two images would be two substitutions. That is seen from the variables' numbers, or, where names found no number, from the names themselves, so
//! that the second occurrence, which is the first word that cannot stand, is the fault in either case.

ghost use Rattle.std.specs.Prelude.{◌≡◌, [], ◌∷◌, map, None, Some, if◌then◌else◌, IfOk, IfErr, OnOk, OnErr, bytes_eq};
ghost use Rattle.std.specs.List.{list_any};
ghost use Rattle.proof_text.specs.Forms as forms;
ghost use Rattle.proof_text.specs.Steps as steps;
ghost use Rattle.proof_text.specs.PartsRead.{Takes, IsRead, IsImageRead};
ghost use Rattle.proof_text.specs.PartsDenied.{Denies, IsForm};

use super::before_semicolon::BeforeSemicolon;
use super::fault::{ProofFault, Reading};
use super::line_names::LineNames;
use super::line_words::LineWords;
use super::values::lit;
use linear::Var;
use pb_text::{Kind, Token};
use std::alloc::Global;
use substitution::Image;

/// A substitution as it is read.
#[derive(Drop)]
pub(crate) struct Witness<'a> {
    /// The variables on the left, with their images.
    pub(crate) images: Vec<(Var, Image)>,
    /// The names on the left.
    names: Vec<&'a [u8]>,
}

/// Whether a word is among these.
pub(crate) fn is_among(word: &[u8], words: &[&[u8]]) -> bool
    ensures { result ≡ list_any (λ v. bytes_eq v word.now) (map (λ s. s.now) words.now) }
{
    let mut rest = words;
    while let [other, more @ ..] = rest {
        if *other == word {
            return true;
        }
        rest = more;
    }
    false
}

/// Whether a word stands twice among these. It compares each two of them.
fn repeats(words: &[&[u8]]) -> bool
    ensures { result ≡ forms.repeats (map (λ s. s.now) words.now) }
{
    let mut rest = words;
    while let [word, more @ ..] = rest {
        if is_among(word, more) {
            return true;
        }
        rest = more;
    }
    false
}

/// The image that a word writes: a literal, or the very text `0` or `1`.
fn image(token: Token<'_>, table: &mut LineNames<'_>) -> Reading<Image>
    ensures read { IfOk result (λ i. IsImageRead table.old token.entry.text.now i table.new) }
    ensures kept { table.new.before ≡ table.old.before }
    ensures denies { IfErr result (λ f. Denies f (forms.is_image token.entry.text.now) (token.entry.text.now ∷ [])) }
{
    if let Kind::Literal = token.kind {
        return Ok(Image::Lit(lit(token, table)?));
    }
    if token.text == b"0".as_slice() {
        return Ok(Image::Zero);
    }
    if token.text == b"1".as_slice() {
        return Ok(Image::One);
    }
    Err(ProofFault::BadLine)
}

/// This fault, or that of a name that stands twice on the left, which came first.
pub(crate) fn unless_twice(witness: &Witness<'_>, fault: ProofFault) -> ProofFault
    ensures { result ≡ (if forms.repeats (map (λ s. s.now) witness.now.names.items) then ProofFault.BadLine else fault) }
{
    if repeats(witness.names.as_slice()) {
        ProofFault::BadLine
    } else {
        fault
    }
}

/// A name and its image; between the two an arrow may stand.
fn pair(
    token: Token<'_>,
    words: &mut BeforeSemicolon<'_>,
    table: &mut LineNames<'_>,
) -> Reading<(Var, Image)>
    ensures takes { IfOk result (λ p. Takes forms.are_images forms.images_of table.old (token.entry.text.now ∷ words.old.front) p table.new words.new.front) }
    ensures left { OnOk result (forms.lefts (token.entry.text.now ∷ words.old.front) ≡ token.entry.text.now ∷ forms.lefts words.new.front) }
    ensures behind { words.new.behind ≡ words.old.behind }
    ensures kept { table.new.before ≡ table.old.before }
    ensures denies { let ws = token.entry.text.now ∷ words.old.front in IfErr result (λ f. Denies f (forms.are_images ws) ws) }
{
    let Kind::Literal = token.kind else {
        return Err(ProofFault::BadLine);
    };
    let lit = lit(token, table)?;
    if lit.negated {
        return Err(ProofFault::BadLine);
    }
    words.pass_arrow();
    let Some(token) = words.take() else {
        return Err(ProofFault::BadLine);
    };
    let image = image(token, table)?;
    Ok((lit.var, image))
}

/// Names and images up to a `;`, or up to the end of a line.
pub(crate) fn images<'a>(
    alloc: Global,
    words: &mut BeforeSemicolon<'a>,
    table: &mut LineNames<'_>,
) -> Reading<Witness<'a>>
    ensures read { IfOk result (λ w. IsRead forms.are_images forms.images_of table.old words.old.front w.images.items table.new) }
    ensures names { IfOk result (λ w. map (λ s. s.now) w.names.items ≡ forms.lefts words.old.front) }
    ensures end { OnOk result (words.new.front ≡ []) }
    ensures behind { words.new.behind ≡ words.old.behind }
    ensures kept { table.new.before ≡ table.old.before }
    ensures denies { IfErr result (λ f. Denies f (forms.are_images words.old.front) words.old.front) }
{
    let mut images = Vec::new(alloc);
    let mut names = Vec::new(alloc);
    while let Some(token) = words.take() {
        let pair = pair(token, words, table)?;
        images.push(pair)?;
        names.push(token.text)?;
    }
    Ok(Witness { images, names })
}

/// Whether a block begins behind a substitution: nothing stands there, or `;` alone, or `;` and `begin`.
pub(crate) fn begins_block(words: BeforeSemicolon<'_>) -> Reading<bool>
    requires { words.front ≡ [] }
    ensures block { IfOk result (λ block. steps.begins_block words.entry.behind ≡ Some block) }
    ensures form { IfErr result IsForm }
    ensures denies { OnErr result (steps.begins_block words.entry.behind ≡ None) }
{
    let Some(behind) = words.into_behind() else {
        return Ok(false);
    };
    if behind.peek().is_none() {
        return Ok(false);
    }
    let mut behind = LineWords::new(behind);
    if behind.takes(b"begin") && behind.is_empty() {
        Ok(true)
    } else {
        Err(ProofFault::BadLine)
    }
}
