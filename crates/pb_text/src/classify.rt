//! What a token is by its bytes.
//!
//! A word that begins as a literal does and is none (`x`, `~`, `x1+2`) is a kind of its own: a name has two bytes at least, in
//! both formats, so that the words `d`, `s`, `w` and `+` of a proof are no names, and who misspells a name is to be told so.

ghost use Rattle.std.specs.Prelude.{◌≡◌};
ghost use Rattle.std.specs.List.{list_all};
ghost use Rattle.pb_text.specs.Lexeme as kinds;
ghost use Rattle.pb_text.specs.Name as names;
ghost use Rattle.pb_text.specs.Word as words;

use super::kind::{Kind, Symbol};

#[inline(always)]
pub(crate) fn begins_name(b: u8) -> bool
    ensures { result ≡ names.begins_name b }
{
    matches!(b, b'A'..=b'Z' | b'a'..=b'z' | b'_')
}

fn continues_name(b: u8) -> bool
    ensures { result ≡ names.continues_name b }
{
    matches!(b, b'A'..=b'Z' | b'a'..=b'z' | b'0'..=b'9' | b'_' | b'[' | b']' | b'{' | b'}' | b'^' | b'-')
}

fn all_continue_name(text: &[u8]) -> bool
    ensures { result ≡ list_all names.continues_name text.now }
{
    text.iter().all(|b| continues_name(*b))
}

fn is_digit(b: u8) -> bool
    ensures { result ≡ names.is_digit b }
{
    matches!(b, b'0'..=b'9')
}

fn all_digits(text: &[u8]) -> bool
    ensures { result ≡ list_all names.is_digit text.now }
{
    text.iter().all(|b| is_digit(*b))
}

#[tactic(auto, unfolding(crate::specs::Name::is_name))]
fn is_name(text: &[u8]) -> bool
    ensures { result ≡ names.is_name text.now }
{
    match text {
        [first, rest @ ..] => { begins_name(*first) && !rest.is_empty() && all_continue_name(rest) }
        [] => false,
    }
}

#[tactic(auto, unfolding(crate::specs::Word::is_integer))]
fn is_integer(text: &[u8]) -> bool
    ensures { result ≡ words.is_integer text.now }
{
    let digits = match text {
        [b'+' | b'-', digits @ ..] => digits,
        _ => text,
    };
    !digits.is_empty() && all_digits(digits)
}

#[tactic(auto, unfolding(crate::specs::Word::is_literal))]
fn is_literal(text: &[u8]) -> bool
    ensures { result ≡ words.is_literal text.now }
{
    match text {
        [b'~', name @ ..] => is_name(name),
        _ => is_name(text),
    }
}

fn begins_literal(text: &[u8]) -> bool
    ensures { result ≡ words.begins_literal text.now }
{
    match text {
        [first, ..] => begins_name(*first) || *first == b'~',
        [] => false,
    }
}

#[tactic(auto, unfolding(crate::specs::Lexeme::kind_of_word, crate::specs::Word::is_misspelt))]
fn kind_of_word(text: &[u8]) -> Kind
    ensures { result ≡ kinds.kind_of_word text.now }
{
    if is_integer(text) {
        Kind::Integer
    } else if is_literal(text) {
        Kind::Literal
    } else if begins_literal(text) {
        Kind::Misspelt
    } else {
        Kind::Other
    }
}

/// The kind of a token.
#[tactic(auto, unfolding(crate::specs::Lexeme::kind_of))]
pub(crate) fn kind_of(text: &[u8]) -> Kind
    ensures { result ≡ kinds.kind_of text.now }
{
    match text {
        b";" => Kind::Symbol(Symbol::Semicolon),
        b":" => Kind::Symbol(Symbol::Colon),
        b">=" => Kind::Symbol(Symbol::AtLeast),
        b"<=" => Kind::Symbol(Symbol::AtMost),
        b"=" => Kind::Symbol(Symbol::Equals),
        b"->" => Kind::Symbol(Symbol::Arrow),
        b"<" | b">" => Kind::Stray,
        _ => kind_of_word(text),
    }
}
