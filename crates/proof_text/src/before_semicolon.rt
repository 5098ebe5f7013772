//! The words of a line up to its first `;`.
//!
//! The constraint of `rup` and `red` ends with a `;` that may not be missing, since more stands behind it: hints, which
//! are never judged, or a substitution. So does a substitution behind which a block begins. So the words before a `;` and those behind
//! it are read by different readers.

ghost use Rattle.std.specs.Prelude.{◌≡◌, [], ◌∷◌, None, Some, true, false, IfSome, MatchOption};
ghost use Rattle.pb_text.specs.TokensOf.{texts_of};
ghost use Rattle.proof_text.specs.Next.{IsFirst, IsLiteral, IsNumber, IsSymbol};
ghost use Rattle.proof_text.specs.Words as words;

use pb_text::{Found, Kind, ReadLiteral, Symbol, Token, Tokens};
use std::marker::Model;

/// The words that are left, up to the first `;`.
#[derive(Drop)]
pub(crate) struct BeforeSemicolon<'a> {
    left: Tokens<'a>,
}

impl<'a> Model for BeforeSemicolon<'a> {
    ghost Value = { words.Halves };

    ghost view = { λ f. words.halves (texts_of f.left) };
}

impl<'a> BeforeSemicolon<'a> {
    /// The words that are left of a line.
    pub(crate) fn new(left: Tokens<'a>) -> Self
        ensures { result ≡ words.halves (texts_of left.entry) }
    {
        BeforeSemicolon { left }
    }

    /// The next word before the `;`, and the tokens behind it, if there is one.
    #[tactic(auto, using(crate::proofs::FirstSemicolon::no_front, crate::proofs::FirstSemicolon::front_word))]
    #[inline(always)]
    fn peek(&self) -> Option<Found<'a>>
        ensures word { MatchOption
            result
            (self.now.front ≡ [])
            (λ f. self.now.front ≡ f.token.text.now ∷ (words.halves (texts_of f.behind)).front) }
        ensures behind { IfSome result (λ f. self.now.behind ≡ (words.halves (texts_of f.behind)).behind) }
    {
        let found = self.left.peek()?;
        if let Kind::Symbol(Symbol::Semicolon) = found.token.kind {
            return None;
        }
        Some(found)
    }

    /// Passes the next word before the `;`, and gives it.
    pub(crate) fn take(&mut self) -> Option<Token<'a>>
        ensures word { MatchOption result ((self.old.front ≡ []) × (self.new.front ≡ [])) (λ t. self.old.front ≡ t.text.now ∷ self.new.front) }
        ensures behind { self.new.behind ≡ self.old.behind }
    {
        let found = self.peek()?;
        self.left = found.behind;
        Some(found.token)
    }

    /// Passes the next word before the `;` where it is an integer of a few digits, and gives its number; where it gives none, the word
    /// can be taken.
    #[inline(always)]
    pub(crate) fn take_number(&mut self) -> Option<i64>
        ensures word { MatchOption result (self.new.front ≡ self.old.front) (λ n. IsFirst (IsNumber n) self.old.front self.new.front) }
        ensures behind { self.new.behind ≡ self.old.behind }
    {
        let number = self.left.take_number()?;
        Some(number)
    }

    /// Passes the next word before the `;` where it is a literal that was read while it was cut, and gives it; where it gives none, the word
    /// can be taken.
    #[inline(always)]
    pub(crate) fn take_literal(&mut self) -> Option<ReadLiteral<'a>>
        ensures word { MatchOption
            result
            (self.new.front ≡ self.old.front)
            (λ r. IsFirst (IsLiteral r.literal.negated r.literal.name.now r.said) self.old.front self.new.front) }
        ensures behind { self.new.behind ≡ self.old.behind }
    {
        self.left.take_literal()
    }

    /// Passes the next word before the `;` where it is an integer, and gives it.
    pub(crate) fn take_integer(&mut self) -> Option<Token<'a>>
        ensures word { MatchOption
            result
            ((words.begins_integer self.old.front ≡ false) × (self.new.front ≡ self.old.front))
            (λ t. (t.kind ≡ Kind.Integer) × (self.old.front ≡ t.text.now ∷ self.new.front)) }
        ensures behind { self.new.behind ≡ self.old.behind }
    {
        let found = self.peek()?;
        let Kind::Integer = found.token.kind else {
            return None;
        };
        self.left = found.behind;
        Some(found.token)
    }

    /// Whether a symbol is seen to stand next, which is no integer; where none is seen, the word may be anything.
    #[inline(always)]
    pub(crate) fn begins_symbol(&self) -> bool
        ensures { result ≡ true → words.begins_integer self.now.front ≡ false }
    {
        let mut left = self.left.again();
        left.take_symbol().is_some()
    }

    /// Passes the next word before the `;` where it is `=` or `>=`, and gives which; where it gives none, the word can be taken.
    #[inline(always)]
    pub(crate) fn take_symbol(&mut self) -> Option<Symbol>
        ensures word { MatchOption result (self.new.front ≡ self.old.front) (λ s. IsFirst (IsSymbol s) self.old.front self.new.front) }
        ensures behind { self.new.behind ≡ self.old.behind }
    {
        let mut left = self.left.again();
        match left.take_symbol() {
            Some(Symbol::Semicolon) | None => None,
            Some(symbol) => {
                self.left = left;
                Some(symbol)
            }
        }
    }

    /// Passes an arrow, if one stands next.
    pub(crate) fn pass_arrow(&mut self)
        ensures front { self.new.front ≡ words.past_arrow self.old.front }
        ensures behind { self.new.behind ≡ self.old.behind }
    {
        if let Some(found) = self.peek() {
            if let Kind::Symbol(Symbol::Arrow) = found.token.kind {
                self.left = found.behind;
            }
        }
    }

    /// Whether no word is left before the `;`.
    #[inline(always)]
    pub(crate) fn is_empty(&self) -> bool
        ensures { result ≡ words.is_empty self.now.front }
    {
        let mut left = self.left.again();
        match left.take_symbol() {
            Some(Symbol::Semicolon) => true,
            _ => self.peek().is_none(),
        }
    }

    /// The words behind the `;`, which stands next; `None` where it is missing.
    #[inline(always)]
    pub(crate) fn into_behind(self) -> Option<Tokens<'a>>
        requires { self.front ≡ [] }
        ensures { MatchOption result (self.entry.behind ≡ None) (λ l. self.entry.behind ≡ Some (texts_of l)) }
    {
        let mut left = self.left.again();
        if left.take_symbol().is_some() {
            return Some(left);
        }
        let found = self.left.peek()?;
        Some(found.behind)
    }
}
