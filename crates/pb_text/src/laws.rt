//! Laws about the tokens of a text, for proofs above. Nothing here runs.

ghost use Rattle.std.specs.Prelude.{◌≡◌, ◌↔◌, ℕ, All, List, true};
ghost use Rattle.pb_text.specs.Lexeme.{Lexeme, kind_of, lexemes};
ghost use Rattle.pb_text.specs.Span.{AreInOrder, StandsIn};
ghost use Rattle.pb_text.specs.TokensOf.{AreTokensOf};
ghost use Rattle.pb_text.specs.Word.{is_integer, is_literal, is_misspelt};

use super::kind::Kind;

/// A text has exactly one list of tokens in the words of the formats, and it is the one that `Tokens` gives: slices of the
/// text one behind another; between them white space and comment lines alone, of which no token has a byte; each a symbol
/// or stray byte of its longest length, or a longest word.
pub fn one_list_of_tokens()
    ensures { (text : List ℕ) (ts : List Lexeme) → AreTokensOf text ts ↔ (ts ≡ lexemes text) }
{}

/// Each token of a text is the slice of the text at its start and is not empty; its line is 1 and the number of LF bytes
/// before it, and its kind is the kind of its bytes.
pub fn tokens_stand_in_text()
    ensures { (text : List ℕ) → All (StandsIn text) (lexemes text) }
{}

/// The tokens of a text stand one behind another, and none begins before the one before it ends.
pub fn tokens_in_order()
    ensures { (text : List ℕ) → AreInOrder 0 (lexemes text) }
{}

/// A token has the kind of an integer, a literal or a misspelt name exactly where its bytes pass that test.
pub fn kinds_of_words()
    ensures integer { (text : List ℕ) → (kind_of text ≡ Kind.Integer) ↔ (is_integer text ≡ true) }
    ensures literal { (text : List ℕ) → (kind_of text ≡ Kind.Literal) ↔ (is_literal text ≡ true) }
    ensures misspelt { (text : List ℕ) → (kind_of text ≡ Kind.Misspelt) ↔ (is_misspelt text ≡ true) }
{}
