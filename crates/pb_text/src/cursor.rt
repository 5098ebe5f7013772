//! Cutting a text, one token at a time: passing what stands before a token, and measuring the token.
//!
//! A comment is a line, so a cursor remembers whether only spaces and tabs stand before it on its line; nothing else of what
//! it has passed matters, and the text is read once, without looking back. A symbol is looked for in front of each byte of a
//! word, since words end at symbols and not only at white space (`x1>=1` is three tokens). The format is that of OPB by Roussel
//! and Manquinho, and of VeriPB's proofs, with white space before symbols left free.

ghost use Rattle.std.specs.Prelude.{◌≡◌, ◌+◌, ◌<◌, ◌≤◌, ◌==◌, false, [], ◌∷◌, true, length, take, drop, MatchOption};
ghost use Rattle.std.specs.List.{position_or_len};
ghost use Rattle.pb_text.specs.Cursor.{ahead, comment_at, IsAtToken};
ghost use Rattle.pb_text.specs.Cutting.{begins_white, begins_word, behind};
ghost use Rattle.pb_text.specs.Lexeme as cutting;
ghost use Rattle.pb_text.specs.Lexeme.{Position, cut, lexemes_from, lexeme_at};

use super::spot::{Cursor, Spot};

// White space and comment lines.

/// How many bytes stand before the first LF.
fn line_length(text: &[u8]) -> usize
    ensures line { result ≡ position_or_len (λ b. b == 10) text.now }
    ensures within { result ≤ length text.now }
{
    for (i, b) in text.iter().enumerate() {
        if *b == b'\n' {
            return i;
        }
    }
    text.len()
}

/// Passes the rest of a comment line, up to its LF.
#[tactic(auto, using(crate::proofs::Comment::comment_passed, crate::proofs::Comment::comment_begun))]
fn past_comment(c: Cursor<'_>) -> Cursor<'_>
    requires { comment_at c.spot c.rest.now ≡ true }
    ensures same { ahead result ≡ ahead c.entry }
    ensures less { length result.rest.now < length c.entry.rest.now }
{
    let end = line_length(c.rest);
    let (_, rest) = c.rest.split_at(end);
    Cursor {
        rest,
        start: c.start + end,
        breaks: c.breaks,
        spot: Spot::Within,
    }
}

/// Passes one byte of white space, or the rest of a comment line; `None` at a token and at the end.
#[tactic(auto, unfolding(crate::specs::Lexeme::lexemes_from))]
#[inline(always)]
fn past_gap(c: Cursor<'_>) -> Option<Cursor<'_>>
    ensures { MatchOption
        result
        (IsAtToken c.entry)
        (λ d. (ahead d ≡ ahead c.entry) × (length d.rest.now < length c.entry.rest.now)) }
{
    let [b, tail @ ..] = c.rest else {
        return None;
    };
    // Most bytes that stand here begin a word or are a space, which two looks show.
    if *b > b'*' {
        return None;
    }
    let behind = Cursor {
        rest: tail,
        start: c.start + 1,
        breaks: c.breaks,
        spot: c.spot,
    };
    if *b == b' ' {
        return Some(behind);
    }
    match *b {
        b'\n' => Some(Cursor {
            rest: tail,
            start: c.start + 1,
            breaks: c.breaks + 1,
            spot: Spot::Front,
        }),
        b'\t' => Some(behind),
        b'\r' => Some(Cursor {
            rest: tail,
            start: c.start + 1,
            breaks: c.breaks,
            spot: Spot::Within,
        }),
        b'*' => match c.spot {
            Spot::Front => Some(past_comment(c)),
            Spot::Within => None,
        },
        _ => None,
    }
}

/// Passes all white space and all comment lines before the next token.
#[inline(always)]
pub(crate) fn past_gaps(c: Cursor<'_>) -> Cursor<'_>
    ensures same { ahead result ≡ ahead c.entry }
    ensures at_token { IsAtToken result }
{
    let mut at = c;
    while let Some(next) = past_gap(at) {
        at = next;
    }
    at
}

// Symbols and words.

/// How many bytes the symbol has with which a text begins, a stray `<` or `>` included; 0 where it begins with none.
#[inline(always)]
fn symbol_length(text: &[u8]) -> usize
    ensures symbol { result ≡ cutting.symbol_length text.now }
    ensures within { result ≤ length text.now }
{
    match text {
        [b';' | b':' | b'=', ..] => 1,
        [b'<' | b'>', b'=', ..] => 2,
        [b'<' | b'>', ..] => 1,
        [b'-', b'>', b'=', ..] => 0,
        [b'-', b'>', ..] => 2,
        _ => 0,
    }
}

/// What follows the byte of a word at the front; `None` where white space, a symbol or the end stands there.
#[inline(always)]
pub(crate) fn past_word_byte(text: &[u8]) -> Option<&[u8]>
    ensures { MatchOption
        result
        (begins_word text.now ≡ false)
        (λ rest. (begins_word text.now ≡ true) × (rest.now ≡ drop 1 text.now)) }
{
    match text {
        [] => None,
        [b, rest @ ..] => {
            // Most words end at a space, and most of their bytes are letters and digits.
            if *b == b' ' {
                return None;
            }
            if *b > b'>' || (*b >= b'0' && *b <= b'9') {
                return Some(rest);
            }
            match *b {
                b'\t' | b'\r' | b'\n' | b';' | b':' | b'=' | b'<' | b'>' => None,
                b'-' => {
                    if symbol_length(text) == 0 {
                        Some(rest)
                    } else {
                        None
                    }
                }
                _ => Some(rest),
            }
        }
    }
}

/// How many bytes the word has that stands at the front of a text; 0 where none does.
#[inline(always)]
fn word_length(text: &[u8]) -> usize
    ensures within { result ≤ length text.now }
    ensures word { (p : Position) →
        p.comment ≡ false →
        cut p text.now ≡ record {
          word = take result text.now;
          tokens = lexemes_from (behind result p) (drop result text.now);
        } }
{
    let mut rest = text;
    let mut size = 0;
    while let Some(tail) = past_word_byte(rest) {
        rest = tail;
        size += 1;
    }
    size
}

/// How many bytes the token has that stands at the front of a text; 0 at its end.
#[inline(always)]
pub(crate) fn token_length(text: &[u8]) -> usize
    requires { begins_white text.now ≡ false }
    ensures within { result ≤ length text.now }
    ensures end { result ≡ 0 → text.now ≡ [] }
    ensures token { (p : Position) →
        p.comment ≡ false →
        0 < result →
        lexemes_from p text.now ≡ lexeme_at p (take result text.now) ∷ lexemes_from (behind result p) (drop result text.now) }
{
    // Most tokens are words, and where one begins, no symbol does.
    let size = word_length(text);
    if size > 0 { size } else { symbol_length(text) }
}
