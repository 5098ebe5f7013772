//! The words of a line up to its end, without the `;` that may close it.
//!
//! The format lets nearly every line end with a `;` or without one. That is settled here once, so that the readers of the forms see words
//! alone, and a second `;`, or one with words behind it, is a word like any other and stands in no form.

ghost use Rattle.std.specs.Prelude.{◌≡◌, ℕ, List, [], ◌∷◌, true, ◌&&◌, drop, MatchOption, if◌then◌else◌};
ghost use Rattle.pb_text.specs.Lexeme.{kind_of};
ghost use Rattle.pb_text.specs.Taken.{is_plain};
ghost use Rattle.pb_text.specs.TokensOf.{texts_of};
ghost use Rattle.proof_text.specs.Kinds.{is_semicolon};
ghost use Rattle.proof_text.specs.Next.{IsFirst, IsLiteral, IsNumber};
ghost use Rattle.proof_text.specs.Words as words;

use pb_text::{Found, Kind, ReadLiteral, Symbol, Token, Tokens};
use std::marker::Model;

/// The words that are left, a closing `;` taken away.
#[derive(Drop)]
pub(crate) struct LineWords<'a> {
    left: Tokens<'a>,
}

impl<'a> Model for LineWords<'a> {
    ghost Value = { List (List ℕ) };

    ghost view = { λ b. words.unclosed (texts_of b.left) };
}

impl<'a> LineWords<'a> {
    /// The words that are left of a line.
    pub(crate) fn new(left: Tokens<'a>) -> Self
        ensures { result ≡ words.unclosed (texts_of left.entry) }
    {
        LineWords { left }
    }

    /// The next word, and the tokens behind it; `None` at the end.
    #[inline(always)]
    fn peek(&self) -> Option<Found<'a>>
        ensures { MatchOption result (self.now ≡ []) (λ f. self.now ≡ f.token.text.now ∷ words.unclosed (texts_of f.behind)) }
    {
        let found = self.left.peek()?;
        if is_closing(&found) {
            return None;
        }
        Some(found)
    }

    /// The next word; `None` at the end.
    pub(crate) fn next(&self) -> Option<Token<'a>>
        ensures { MatchOption result (self.now ≡ []) (λ t. self.now ≡ t.text.now ∷ drop 1 self.now) }
    {
        let found = self.peek()?;
        Some(found.token)
    }

    /// Passes the next word, and gives it.
    pub(crate) fn take(&mut self) -> Option<Token<'a>>
        ensures { MatchOption result ((self.old ≡ []) × (self.new ≡ [])) (λ t. self.old ≡ t.text.now ∷ self.new) }
    {
        let found = self.peek()?;
        self.left = found.behind;
        Some(found.token)
    }

    /// Whether a digit stands next. It is a hint on what is to be asked first, so no clause speaks of it.
    #[inline(always)]
    pub(crate) fn begins_digit(&self) -> bool {
        self.left.begins_digit()
    }

    /// Passes what stands before the next word, so that all that is asked of it is asked sooner. The words are the same.
    #[inline(always)]
    pub(crate) fn pass_gap(&mut self)
        ensures { self.new ≡ self.old }
    {
        self.left.pass_gap();
    }

    /// Passes the next word where it is an integer of a few digits, and gives its number; where it gives none, the word can be taken.
    #[inline(always)]
    pub(crate) fn take_number(&mut self) -> Option<i64>
        ensures { MatchOption result (self.new ≡ self.old) (λ n. IsFirst (IsNumber n) self.old self.new) }
    {
        let number = self.left.take_number()?;
        Some(number)
    }

    /// Passes the next word where it is a literal that was read while it was cut, and gives it; where it gives none, the word can be taken.
    #[inline(always)]
    pub(crate) fn take_literal(&mut self) -> Option<ReadLiteral<'a>>
        ensures { MatchOption
            result
            (self.new ≡ self.old)
            (λ r. IsFirst (IsLiteral r.literal.negated r.literal.name.now r.said) self.old self.new) }
    {
        self.left.take_literal()
    }

    /// Passes the next word where it is this one, and says whether it is.
    pub(crate) fn takes(&mut self, word: &[u8]) -> bool
        ensures first { result ≡ words.is_first word.now self.old }
        ensures left { self.new ≡ (if words.is_first word.now self.old then drop 1 self.old else self.old) }
    {
        match self.peek() {
            Some(found) if found.token.text == word => {
                self.left = found.behind;
                true
            }
            _ => false,
        }
    }

    /// Passes the next word where it is this byte alone, and says whether it is. The byte is one of words, and no `-`.
    // The items of `pol` lines ask this of nearly each word.
    #[inline(always)]
    pub(crate) fn takes_byte(&mut self, byte: u8) -> bool
        requires { is_plain byte ≡ true }
        ensures first { result ≡ words.is_first (byte ∷ []) self.old }
        ensures left { self.new ≡ (if words.is_first (byte ∷ []) self.old then drop 1 self.old else self.old) }
    {
        self.left.takes_byte(byte)
    }

    /// Whether no word is left: nothing but a closing `;`, which may be missing.
    pub(crate) fn is_empty(&self) -> bool
        ensures { result ≡ words.is_empty self.now }
    {
        self.peek().is_none()
    }
}

/// Whether a token closes the line: a `;` with nothing behind it.
fn is_closing(found: &Found<'_>) -> bool
    ensures { result ≡ (is_semicolon (kind_of found.now.token.text.now) && words.is_empty (texts_of found.now.behind)) }
{
    matches!(found.token.kind, Kind::Symbol(Symbol::Semicolon)) && found.behind.peek().is_none()
}
