//! Words at the end of a line that is being written, each with a space before it.
//!
//! One space before each word, also before `;`, keeps every word a token of its own whatever its neighbours are: `x1->x2`
//! would read back too, but a sign behind a word would become part of it.

ghost use Rattle.std.specs.Prelude.{◌≡◌, ◌<◌, ◌∷◌, [], ◌++◌, length, All, OnOk};
ghost use Rattle.std.specs.List.{flat_map};
ghost use Rattle.proof_write.specs.Growth.{Extends};
ghost use Rattle.proof_write.specs.Writing as writing;
ghost use Rattle.proof_text.specs.Writable as writable;
ghost use Rattle.proof_write.specs.Writing.{spaced};

use itoa::Buffer;
use linear::{Lit, Names, Term, Var};
use proof_steps::Item;
use std::alloc::AllocError;
use substitution::Image;

/// A word.
pub(crate) fn word(out: &mut Vec<u8>, word: &[u8]) -> Result<(), AllocError>
    ensures ok { OnOk result (out.new.items ≡ out.old.items ++ spaced (word.now ∷ [])) }
    ensures grows { Extends out.old.items out.new.items }
{
    out.push(b' ')?;
    out.extend_from_slice(word)?;
    Ok(())
}

/// An integer in plain decimal.
pub(crate) fn number(out: &mut Vec<u8>, number: i128) -> Result<(), AllocError>
    ensures ok { OnOk result (out.new.items ≡ out.old.items ++ spaced (writing.number_words number)) }
    ensures grows { Extends out.old.items out.new.items }
{
    let mut buffer = Buffer::new();
    word(out, buffer.format(number).as_bytes())
}

/// The name of a variable.
pub(crate) fn variable(out: &mut Vec<u8>, names: &Names, var: Var) -> Result<(), AllocError>
    requires { var.0 < length names.now }
    ensures ok { OnOk result (out.new.items ≡ out.old.items ++ spaced (writing.name_at names.now var ∷ [])) }
    ensures grows { Extends out.old.items out.new.items }
{
    match names.get(var) {
        Some(name) => word(out, name),
        None => Ok(()),
    }
}

/// `~` and the name of a variable.
fn negated(out: &mut Vec<u8>, names: &Names, var: Var) -> Result<(), AllocError>
    requires { var.0 < length names.now }
    ensures ok { OnOk result (out.new.items ≡ out.old.items ++ spaced ((126 ∷ writing.name_at names.now var) ∷ [])) }
    ensures grows { Extends out.old.items out.new.items }
{
    match names.get(var) {
        Some(name) => {
            out.push(b' ')?;
            out.push(b'~')?;
            out.extend_from_slice(name)?;
            Ok(())
        }
        None => Ok(()),
    }
}

/// A literal.
pub(crate) fn literal(out: &mut Vec<u8>, names: &Names, lit: Lit) -> Result<(), AllocError>
    requires { lit.var.0 < length names.now }
    ensures ok { OnOk result (out.new.items ≡ out.old.items ++ spaced (writing.lit_words names.now lit)) }
    ensures grows { Extends out.old.items out.new.items }
{
    if lit.negated {
        negated(out, names, lit.var)
    } else {
        variable(out, names, lit.var)
    }
}

/// An item of a `pol` line.
#[tactic(auto, using(crate::proofs::WordsAppended::two_words))]
fn item(out: &mut Vec<u8>, names: &Names, item: Item) -> Result<(), AllocError>
    requires { writable.IsItemWritable (length names.now) item }
    ensures ok { OnOk result (out.new.items ≡ out.old.items ++ spaced (writing.item_words names.now item)) }
    ensures grows { Extends out.old.items out.new.items }
{
    match item {
        Item::Id(id) => number(out, id),
        Item::Axiom(lit) => literal(out, names, lit),
        Item::Add => word(out, b"+"),
        Item::Multiply(factor) => {
            number(out, factor)?;
            word(out, b"*")
        }
        Item::Divide(factor) => {
            number(out, factor)?;
            word(out, b"d")
        }
        Item::Saturate => word(out, b"s"),
        Item::Weaken(var) => {
            variable(out, names, var)?;
            word(out, b"w")
        }
    }
}

/// A term.
#[tactic(auto, using(crate::proofs::WordsAppended::two_words))]
fn term(out: &mut Vec<u8>, names: &Names, term: Term) -> Result<(), AllocError>
    requires { writable.IsTermWritable (length names.now) term }
    ensures ok { OnOk result (out.new.items ≡ out.old.items ++ spaced (writing.term_words names.now term)) }
    ensures grows { Extends out.old.items out.new.items }
{
    number(out, term.coef)?;
    let lit = Lit {
        var: term.var,
        negated: term.negated,
    };
    literal(out, names, lit)
}

/// An image.
fn image(out: &mut Vec<u8>, names: &Names, image: Image) -> Result<(), AllocError>
    requires { writable.IsImageWritable (length names.now) image }
    ensures ok { OnOk result (out.new.items ≡ out.old.items ++ spaced (writing.image_word names.now image ∷ [])) }
    ensures grows { Extends out.old.items out.new.items }
{
    match image {
        Image::Lit(lit) => literal(out, names, lit),
        Image::Zero => word(out, b"0"),
        Image::One => word(out, b"1"),
    }
}

/// A variable and its image.
#[tactic(auto, using(crate::proofs::WordsAppended::two_words))]
fn pair(out: &mut Vec<u8>, names: &Names, pair: (Var, Image)) -> Result<(), AllocError>
    requires { writable.IsPairWritable (length names.now) pair }
    ensures ok { OnOk result (out.new.items ≡ out.old.items ++ spaced (writing.pair_words names.now pair)) }
    ensures grows { Extends out.old.items out.new.items }
{
    variable(out, names, pair.0)?;
    word(out, b"->")?;
    image(out, names, pair.1)
}

/// The items of a `pol` line.
pub(crate) fn items(out: &mut Vec<u8>, names: &Names, items: &[Item]) -> Result<(), AllocError>
    requires { All (writable.IsItemWritable (length names.now)) items.now }
    ensures ok { OnOk result (out.new.items ≡ out.old.items ++ spaced (flat_map (writing.item_words names.now) items.now)) }
    ensures grows { Extends out.old.items out.new.items }
{
    for next in items {
        item(out, names, *next)?;
    }
    Ok(())
}

/// Terms.
pub(crate) fn terms(out: &mut Vec<u8>, names: &Names, terms: &[Term]) -> Result<(), AllocError>
    requires { All (writable.IsTermWritable (length names.now)) terms.now }
    ensures ok { OnOk result (out.new.items ≡ out.old.items ++ spaced (flat_map (writing.term_words names.now) terms.now)) }
    ensures grows { Extends out.old.items out.new.items }
{
    for next in terms {
        term(out, names, *next)?;
    }
    Ok(())
}

/// Literals.
pub(crate) fn literals(out: &mut Vec<u8>, names: &Names, lits: &[Lit]) -> Result<(), AllocError>
    requires { All (writable.IsLitWritable (length names.now)) lits.now }
    ensures ok { OnOk result (out.new.items ≡ out.old.items ++ spaced (flat_map (writing.lit_words names.now) lits.now)) }
    ensures grows { Extends out.old.items out.new.items }
{
    for next in lits {
        literal(out, names, *next)?;
    }
    Ok(())
}

/// Variables and their images.
pub(crate) fn pairs(
    out: &mut Vec<u8>,
    names: &Names,
    pairs: &[(Var, Image)],
) -> Result<(), AllocError>
    requires { All (writable.IsPairWritable (length names.now)) pairs.now }
    ensures ok { OnOk result (out.new.items ≡ out.old.items ++ spaced (flat_map (writing.pair_words names.now) pairs.now)) }
    ensures grows { Extends out.old.items out.new.items }
{
    for next in pairs {
        pair(out, names, *next)?;
    }
    Ok(())
}

/// Integers.
pub(crate) fn numbers(out: &mut Vec<u8>, numbers: &[i128]) -> Result<(), AllocError>
    ensures ok { OnOk result (out.new.items ≡ out.old.items ++ spaced (flat_map writing.number_words numbers.now)) }
    ensures grows { Extends out.old.items out.new.items }
{
    for next in numbers {
        number(out, *next)?;
    }
    Ok(())
}
