//! The tokens of a text, one after another. A reader is seen as the list of the tokens still to come, so what it gives next
//! and what is left then are one equation.

ghost use Rattle.std.specs.Prelude.{◌≡◌, ◌≤◌, ◌+◌, length, drop};
ghost use Rattle.pb_text.specs.Span.{line_of};

use super::cursor::past_gaps;
use super::kind::{Kind, Symbol};
use super::said::Said;
use super::scan::{first_token, integer_word, is_lone_byte, literal_word, symbol_word};
use super::spot::{Cursor, Spot};
use super::token::{Literal, Token, split_literal};
use std::marker::Model;

/// The tokens of a text that are still to come. One pass over the text gives them all, and nothing is copied.
#[derive(Drop)]
pub struct Tokens<'a> {
    at: Cursor<'a>,
}

impl<'a> Model for Tokens<'a> {
    ghost use Rattle.std.specs.Prelude.{List};
    ghost use Rattle.pb_text.specs.Lexeme.{Lexeme};
    ghost use Rattle.pb_text.specs.Cursor.{ahead};

    ghost Value = { List Lexeme };

    ghost view = { λ t. ahead t.at };
}

impl<'a> Tokens<'a> {
    ghost use Rattle.std.specs.Prelude.{◌≡◌, [], ◌∷◌, drop, IfSome, MatchOption};
    ghost use Rattle.pb_text.specs.Lexeme.{lexemes, kind_of};
    ghost use Rattle.pb_text.specs.Said.{Says};
    ghost use Rattle.pb_text.specs.Token.{lexeme_of};

    /// All tokens of a text.
    ///
    /// White space is space, tab, CR and LF. A line whose first byte other than space and tab is `*` is a comment and
    /// gives no token. `;`, `:`, `>=`, `<=`, `=` and `->` are symbols, `->` only where no `=` follows. A `<` or `>` that
    /// belongs to no symbol is a token by itself. A word is a longest run of other bytes. (The OPB format of Roussel and
    /// Manquinho and the proof format of VeriPB 2.0, with white space before symbols left free.)
    #[tactic(auto, unfolding(crate::specs::Lexeme::lexemes))]
    pub fn new(text: &'a [u8]) -> Self
        ensures { result ≡ lexemes text.now }
    {
        Tokens {
            at: Cursor {
                rest: text,
                start: 0,
                breaks: 0,
                spot: Spot::Front,
            },
        }
    }

    /// The next token, what was read of it on the way, and the tokens behind it; `None` at the end of the text.
    #[tactic(auto, using(crate::proofs::Cutting::end_empty))]
    #[inline(always)]
    pub fn peek(&self) -> Option<Found<'a>>
        ensures tokens { MatchOption result (self.now ≡ []) (λ f. self.now ≡ lexeme_of f.token ∷ drop 1 self.now) }
        ensures behind { IfSome result (λ f. f.behind ≡ drop 1 self.now) }
        ensures says { IfSome result (λ f. Says f.said f.token.text.now) }
    {
        let here = past_gaps(self.at);
        let found = first_token(here.rest)?;
        let (text, rest) = here.rest.split_at(found.size);
        let token = Token {
            kind: found.kind,
            line: here.breaks + 1,
            start: here.start,
            text,
        };
        let at = Cursor {
            rest,
            start: here.start + found.size,
            breaks: here.breaks,
            spot: Spot::Within,
        };
        Some(Found {
            token,
            said: found.said,
            behind: Tokens { at },
        })
    }

    /// The next token, and `None` at the end of the text, then as often as it is asked for.
    ///
    /// Its kind is the kind of its bytes.
    #[inline(always)]
    pub fn next(&mut self) -> Option<Token<'a>>
        ensures tokens { MatchOption result ((self.old ≡ []) × (self.new ≡ [])) (λ t. self.old ≡ lexeme_of t ∷ self.new) }
        ensures kind { MatchOption result (Unit {0}) (λ t. t.kind ≡ kind_of t.text.now) }
    {
        let Found {
            token,
            said: _,
            behind,
        } = self.peek()?;
        *self = behind;
        Some(token)
    }

    /// Whether a digit stands next, in front of which nothing is left to pass. It is a hint on what is to be asked first, so no clause speaks of it.
    #[inline(always)]
    pub fn begins_digit(&self) -> bool {
        match self.at.rest {
            [b, ..] => *b >= b'0' && *b <= b'9',
            [] => false,
        }
    }

    /// Passes what stands before the next token. The tokens are the same; where many things are asked of the next one, each finds it sooner.
    #[inline(always)]
    pub fn pass_gap(&mut self)
        ensures { self.new ≡ self.old }
    {
        self.at = past_gaps(self.at);
    }

    /// Passes the next token, if there is one.
    pub fn pass(&mut self)
        ensures { self.new ≡ drop 1 self.old }
    {
        let _ = self.next();
    }

    /// The same tokens once more.
    pub fn again(&self) -> Tokens<'a>
        ensures { result ≡ self.now }
    {
        Tokens { at: self.at }
    }
}

// What a reader expects next: passed where it is there, without a token being made of it.

impl<'a> Tokens<'a> {
    ghost use Rattle.std.specs.Prelude.{◌≡◌, ◌∷◌, [], true, drop, if◌then◌else◌, MatchOption};
    ghost use Rattle.pb_text.specs.Taken.{is_next, is_plain, IsNumberTaken, IsLiteralTaken, IsSymbolTaken};

    /// Passes the next token where it is an integer of a few digits, and gives its number.
    ///
    /// Which integers have few enough is not said: where it gives none, nothing is passed, and the token can be asked.
    #[inline(always)]
    pub fn take_number(&mut self) -> Option<i64>
        ensures { MatchOption result (self.new ≡ self.old) (λ n. IsNumberTaken n self.old self.new) }
    {
        let here = past_gaps(self.at);
        let found = integer_word(here.rest)?;
        self.at = past_token(here, found.size);
        Some(found.number)
    }

    /// Passes the next token where it is a literal whose name has no `-`, and gives it, with what was read of the name.
    ///
    /// Where it gives none, nothing is passed, and the token can be asked.
    #[inline(always)]
    pub fn take_literal(&mut self) -> Option<ReadLiteral<'a>>
        ensures { MatchOption
            result
            (self.new ≡ self.old)
            (λ r. IsLiteralTaken r.literal.negated r.literal.name.now r.said self.old self.new) }
    {
        let here = past_gaps(self.at);
        let found = literal_word(here.rest)?;
        let (text, _) = here.rest.split_at(found.size);
        self.at = past_token(here, found.size);
        let literal = split_literal(text);
        let said = found.said;
        Some(ReadLiteral { literal, said })
    }

    /// Passes the next token where it is `;`, `=` or `>=`, and gives which it is.
    ///
    /// Where it gives none, nothing is passed, and the token can be asked.
    #[inline(always)]
    pub fn take_symbol(&mut self) -> Option<Symbol>
        ensures { MatchOption result (self.new ≡ self.old) (λ s. IsSymbolTaken s self.old self.new) }
    {
        let here = past_gaps(self.at);
        let found = symbol_word(here.rest)?;
        let Kind::Symbol(symbol) = found.kind else {
            return None;
        };
        self.at = past_token(here, found.size);
        Some(symbol)
    }

    /// Passes the next token where it is this byte alone, and says whether it is. The byte is one of words, and no `-`.
    #[inline(always)]
    pub fn takes_byte(&mut self, byte: u8) -> bool
        requires { is_plain byte ≡ true }
        ensures next { result ≡ is_next (byte ∷ []) self.old }
        ensures left { self.new ≡ (if is_next (byte ∷ []) self.old then drop 1 self.old else self.old) }
    {
        let here = past_gaps(self.at);
        if !is_lone_byte(here.rest, byte) {
            return false;
        }
        self.at = past_token(here, 1);
        true
    }
}

/// The cursor behind a token of so many bytes that stands at a cursor.
#[inline(always)]
fn past_token(here: Cursor<'_>, size: usize) -> Cursor<'_>
    requires { size ≤ length here.rest.now }
    ensures rest { result.rest.now ≡ drop size here.entry.rest.now }
    ensures start { result.start ≡ here.entry.start + size }
    ensures breaks { result.breaks ≡ here.entry.breaks }
    ensures spot { result.spot ≡ Spot.Within }
{
    let (_, rest) = here.rest.split_at(size);
    Cursor {
        rest,
        start: here.start + size,
        breaks: here.breaks,
        spot: Spot::Within,
    }
}

/// A literal that was passed, and what was read of its name on the way.
#[derive(Clone, Copy, Debug)]
pub struct ReadLiteral<'a> {
    pub literal: Literal<'a>,
    pub said: Said,
}

/// The next token of a text.
#[derive(Drop)]
pub struct Found<'a> {
    pub token: Token<'a>,
    /// What was read of it while it was cut.
    pub said: Said,
    /// The tokens behind it.
    pub behind: Tokens<'a>,
}

/// The line of a text's end: 1 and the number of LF bytes in the text.
pub fn end_line(text: &[u8]) -> u64
    ensures { result ≡ line_of text.now (length text.now) }
{
    1 + text.iter().filter(|b| **b == b'\n').count() as u64
}
