//! The tokens that are left of a text, with the next two in sight.
//!
//! A problem is read from left to right, and two tokens decide everywhere: in the OPB format (Roussel and Manquinho) `min`
//! begins an objective only where `:` follows. So nothing is ever read twice, and a reader's contract speaks of one list,
//! the tokens ahead. The two are kept as tokens, so that each is cut and classified once. (The lines of a proof are read
//! from `Tokens`, one at a time.)

ghost use Rattle.std.specs.Prelude.{◌≡◌};

use super::kind::Kind;
use super::token::Token;
use super::tokens::{Tokens, end_line};
use std::marker::Model;

/// The tokens that are left, of which the next two can be seen.
#[derive(Drop)]
pub struct Lookahead<'a> {
    next: Option<Token<'a>>,
    after: Option<Token<'a>>,
    rest: Tokens<'a>,
}

impl<'a> Model for Lookahead<'a> {
    ghost use Rattle.std.specs.Prelude.{◌≡◌, None, List, []};
    ghost use Rattle.pb_text.specs.Lexeme.{Lexeme};
    ghost use Rattle.pb_text.specs.Ahead.{onto};

    ghost Value = { List Lexeme };

    ghost view = { λ l. onto l.next (onto l.after l.rest) };

    ghost invariant = { λ l. (l.next ≡ None → l.after ≡ None) × (l.after ≡ None → l.rest ≡ []) };
}

impl<'a> Lookahead<'a> {
    ghost use Rattle.std.specs.Prelude.{◌≡◌, [], ◌∷◌, drop, MatchOption};
    ghost use Rattle.pb_text.specs.Ahead.{line_of_next, next_kind};
    ghost use Rattle.pb_text.specs.Lexeme.{lexemes};
    ghost use Rattle.pb_text.specs.Token.{lexeme_of};

    /// All tokens of a text.
    pub fn new(text: &'a [u8]) -> Self
        ensures { result ≡ lexemes text.now }
    {
        Lookahead::over(&Tokens::new(text))
    }

    /// The tokens that a reader has before it.
    pub fn over(tokens: &Tokens<'a>) -> Self
        ensures { result ≡ tokens.now }
    {
        let mut rest = tokens.again();
        let next = rest.next();
        let after = rest.next();
        Lookahead { next, after, rest }
    }

    /// The next token; `None` at the end.
    pub fn next(&self) -> Option<Token<'a>>
        ensures { MatchOption result (self.now ≡ []) (λ t. self.now ≡ lexeme_of t ∷ drop 1 self.now) }
    {
        self.next
    }

    /// The token behind the next one.
    pub fn after(&self) -> Option<Token<'a>>
        ensures { MatchOption result (drop 1 self.now ≡ []) (λ t. drop 1 self.now ≡ lexeme_of t ∷ drop 2 self.now) }
    {
        self.after
    }

    /// The kind of the next token; `None` at the end.
    pub fn kind(&self) -> Option<Kind>
        ensures { result ≡ next_kind self.now }
    {
        match self.next() {
            Some(token) => Some(token.kind),
            None => None,
        }
    }

    /// The kind of the token behind the next one; `None` at the end.
    pub fn kind_after(&self) -> Option<Kind>
        ensures { result ≡ next_kind (drop 1 self.now) }
    {
        match self.after() {
            Some(token) => Some(token.kind),
            None => None,
        }
    }

    /// The line of the next token, or of the end, in the text of these tokens.
    pub fn line(&self, text: &[u8]) -> u64
        ensures { result ≡ line_of_next text.now self.now }
    {
        match self.next() {
            Some(token) => token.line,
            None => end_line(text),
        }
    }

    /// Passes the next token.
    // The one place where reading cuts tokens: what it cuts is written where it stays, and copied once.
    #[inline(never)]
    pub fn advance(&mut self)
        ensures { self.new ≡ drop 1 self.old }
    {
        self.next = self.after;
        self.after = self.rest.next();
    }

    /// Passes the next token, and gives it; `None` at the end.
    pub fn take(&mut self) -> Option<Token<'a>>
        ensures { MatchOption result ((self.old ≡ []) × (self.new ≡ [])) (λ t. self.old ≡ lexeme_of t ∷ self.new) }
    {
        let token = self.next;
        self.advance();
        token
    }
}
