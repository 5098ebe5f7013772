//! Tokens that are read while they are cut.
//!
//! Nearly all tokens of a problem and of a proof are integers of a few digits, names, and a few symbols. One pass over such a token
//! finds its end, its kind and what it says; a token of any other make is cut first and looked at then (`cursor`, `classify`).

ghost use Rattle.std.specs.Prelude.{◌≡◌, ◌↔◌, ◌<◌, ◌≤◌, ◌^◌, pos, neg_ℤ, true, false, [], ◌∷◌, length, drop, IfSome, IsTrue, MatchOption};
ghost use Rattle.pb_text.specs.Cutting.{begins_white, begins_word, behind};
ghost use Rattle.pb_text.specs.Lexeme.{begins, lexemes_from, Position};
ghost use Rattle.pb_text.specs.Scan.{AreDigits, IsFirst, IsIntegerWord, IsLiteralWord, IsReadName};
ghost use Rattle.pb_text.specs.Taken.{is_next, is_plain};

use super::classify::{begins_name, kind_of};
use super::cursor::{past_word_byte, token_length};
use super::kind::{Kind, Symbol};
use super::runs::{digits, name_bytes, short_digits};
use super::said::Said;

/// A token at the front of a text.
#[derive(Clone, Copy)]
pub(crate) struct Scanned {
    /// How many bytes it has.
    pub size: usize,
    pub kind: Kind,
    /// What was read of it on the way.
    pub said: Said,
}

/// A word that is an integer.
#[derive(Clone, Copy)]
pub(crate) struct IntegerWord {
    /// How many bytes it has.
    pub size: usize,
    pub number: i64,
}

/// A word of digits.
#[derive(Clone, Copy)]
struct Unsigned {
    /// How many bytes it has.
    size: usize,
    value: u64,
}

/// A name, or a literal.
#[derive(Clone, Copy)]
pub(crate) struct Named {
    /// How many bytes it has.
    pub size: usize,
    pub said: Said,
}

/// Whether no byte of a word stands at the front of a text.
#[inline(always)]
fn ends_word(text: &[u8]) -> bool
    ensures { IsTrue result ↔ (begins_word text.now ≡ false) }
{
    past_word_byte(text).is_none()
}

// Integers.

/// The word at the front of a text, where it is some digits and no more than a few.
#[inline(always)]
fn digits_word(text: &[u8]) -> Option<Unsigned>
    ensures { IfSome result (λ u. (u.value < 2 ^ 62) × AreDigits u.size u.value text.now) }
{
    let run = digits(text);
    if run.size == 0 || !ends_word(run.rest) {
        return None;
    }
    Some(Unsigned {
        size: run.size,
        value: run.value,
    })
}

/// An integer of so many bytes.
#[inline(always)]
fn plain_integer(size: usize, value: u64) -> IntegerWord
    requires { value < 2 ^ 62 }
    ensures { result ≡ record { size = size; number = pos value } }
{
    IntegerWord {
        size,
        number: value as i64,
    }
}

/// An integer of so many bytes, `-` the first of them.
#[inline(always)]
fn negated_integer(size: usize, value: u64) -> IntegerWord
    requires { value < 2 ^ 62 }
    ensures { result ≡ record { size = size; number = neg_ℤ (pos value) } }
{
    IntegerWord {
        size,
        number: -(value as i64),
    }
}

/// The word at the front of a text, where it is an integer of a few digits.
#[inline(always)]
pub(crate) fn integer_word(text: &[u8]) -> Option<IntegerWord>
    ensures { IfSome result (λ w. IsIntegerWord w.size w.number text.now) }
{
    let Some((first, rest)) = text.split_first() else {
        return None;
    };
    match *first {
        b'-' => {
            let found = digits_word(rest)?;
            Some(negated_integer(found.size + 1, found.value))
        }
        b'+' => {
            let found = digits_word(rest)?;
            Some(plain_integer(found.size + 1, found.value))
        }
        _ => {
            let found = digits_word(text)?;
            Some(plain_integer(found.size, found.value))
        }
    }
}

/// A token that is an integer.
#[inline(always)]
fn integer_token(word: IntegerWord) -> Scanned
    ensures { result ≡ record { size = word.size; kind = Kind.Integer; said = Said.Number word.number } }
{
    Scanned {
        size: word.size,
        kind: Kind::Integer,
        said: Said::Number(word.number),
    }
}

// Literals.

/// The word at the front of a text, where it is a short name.
#[inline(always)]
fn short_word(text: &[u8]) -> Option<Named>
    ensures { IfSome result (λ w. IsReadName w.size w.said text.now) }
{
    let Some((first, rest)) = text.split_first() else {
        return None;
    };
    match *first {
        b'x' => {}
        _ => return None,
    }
    let run = short_digits(rest);
    if run.size == 0 || !ends_word(run.rest) {
        return None;
    }
    Some(Named {
        size: run.size + 1,
        said: Said::Short(run.number),
    })
}

/// The word at the front of a text, where it is a name whose bytes are no `-`.
#[inline(always)]
fn name_word(text: &[u8]) -> Option<Named>
    ensures { IfSome result (λ w. IsReadName w.size w.said text.now) }
{
    let Some((first, rest)) = text.split_first() else {
        return None;
    };
    if !begins_name(*first) {
        return None;
    }
    let run = name_bytes(rest);
    if run.size == 0 || !ends_word(run.rest) {
        return None;
    }
    Some(Named {
        size: run.size + 1,
        said: Said::Nothing,
    })
}

/// The word at the front of a text, where it is one of these names.
#[inline(always)]
fn any_name(text: &[u8]) -> Option<Named>
    ensures { IfSome result (λ w. IsReadName w.size w.said text.now) }
{
    match short_word(text) {
        Some(word) => Some(word),
        None => name_word(text),
    }
}

/// The word at the front of a text, where it is such a name, or `~` and one.
#[inline(always)]
pub(crate) fn literal_word(text: &[u8]) -> Option<Named>
    ensures { IfSome result (λ w. IsLiteralWord w.size w.said text.now) }
{
    let Some((first, rest)) = text.split_first() else {
        return None;
    };
    match *first {
        b'~' => {
            let found = any_name(rest)?;
            Some(Named {
                size: found.size + 1,
                said: found.said,
            })
        }
        _ => any_name(text),
    }
}

// Single bytes.

/// Whether the word at the front of a text is this byte alone, which is one of words.
#[inline(always)]
pub(crate) fn is_lone_byte(text: &[u8], byte: u8) -> bool
    requires white { begins_white text.now ≡ false }
    requires plain { is_plain byte ≡ true }
    ensures within { IsTrue result → 1 ≤ length text.now }
    ensures next { (p : Position) → p.comment ≡ false → result ≡ is_next (byte ∷ []) (lexemes_from p text.now) }
    ensures rest { (p : Position) →
        p.comment ≡ false →
        IsTrue result →
        drop 1 (lexemes_from p text.now) ≡ lexemes_from (behind 1 p) (drop 1 text.now) }
{
    match text.split_first() {
        Some((first, rest)) => *first == byte && ends_word(rest),
        None => false,
    }
}

// Symbols.

/// Whether a text begins with `=`.
#[inline(always)]
fn begins_equals(text: &[u8]) -> bool
    ensures { result ≡ begins 61 text.now }
{
    match text {
        [b, ..] => *b == b'=',
        [] => false,
    }
}

/// A symbol of so many bytes.
#[inline(always)]
fn symbol_of(size: usize, symbol: Symbol) -> Scanned
    ensures { result ≡ record { size = size; kind = Kind.Symbol symbol; said = Said.Nothing } }
{
    Scanned {
        size,
        kind: Kind::Symbol(symbol),
        said: Said::Nothing,
    }
}

/// The symbol at the front of a text, where it is one of those that a problem has in each statement.
#[inline(always)]
pub(crate) fn symbol_word(text: &[u8]) -> Option<Scanned>
    ensures { IfSome result (IsFirst text.now) }
{
    let Some((first, rest)) = text.split_first() else {
        return None;
    };
    match *first {
        b';' => Some(symbol_of(1, Symbol::Semicolon)),
        b'=' => Some(symbol_of(1, Symbol::Equals)),
        b'>' => {
            if begins_equals(rest) {
                Some(symbol_of(2, Symbol::AtLeast))
            } else {
                None
            }
        }
        _ => None,
    }
}

// Tokens.

/// The token at the front of a text, where it is read while it is cut.
#[inline(always)]
fn quick_token(text: &[u8]) -> Option<Scanned>
    ensures { IfSome result (IsFirst text.now) }
{
    let first = text.first()?;
    if *first <= b'9' {
        return Some(integer_token(integer_word(text)?));
    }
    if *first <= b'>' {
        return symbol_word(text);
    }
    let found = literal_word(text)?;
    Some(Scanned {
        size: found.size,
        kind: Kind::Literal,
        said: found.said,
    })
}

/// The token at the front of a text, cut first and looked at then; `None` at its end.
#[inline(never)]
fn any_token(text: &[u8]) -> Option<Scanned>
    requires { begins_white text.now ≡ false }
    ensures { MatchOption result (text.now ≡ []) (IsFirst text.now) }
{
    let size = token_length(text);
    if size == 0 {
        return None;
    }
    Some(Scanned {
        size,
        kind: kind_of(&text[..size]),
        said: Said::Nothing,
    })
}

/// The token at the front of a text; `None` at its end.
#[inline(always)]
pub(crate) fn first_token(text: &[u8]) -> Option<Scanned>
    requires { begins_white text.now ≡ false }
    ensures { MatchOption result (text.now ≡ []) (IsFirst text.now) }
{
    match quick_token(text) {
        Some(word) => Some(word),
        None => any_token(text),
    }
}
