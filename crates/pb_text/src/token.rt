//! One token of a text, and what a literal word says.

ghost use Rattle.std.specs.Prelude.{◌≡◌, ◌≢◌, true, MatchOption};
ghost use Rattle.pb_text.specs.Lexeme as lexeme;
ghost use Rattle.pb_text.specs.Name as names;
ghost use Rattle.pb_text.specs.Word.{is_literal, is_negated, name_of};

use super::kind::Kind;

/// A word, a symbol or a stray byte of a text.
#[derive(Clone, Copy, Debug)]
pub struct Token<'a> {
    /// What it is: the kind of its bytes.
    pub kind: Kind,
    /// Its line: 1 and the number of LF bytes before its first byte.
    pub line: u64,
    /// How many bytes of the text stand before it.
    pub start: usize,
    /// Its bytes: the slice of the text from `start` on.
    pub text: &'a [u8],
    pub ghost kind_is: { kind ≡ lexeme.kind_of text.now },
}

/// A variable's name, or its opposite.
#[derive(Clone, Copy, Debug)]
pub struct Literal<'a> {
    /// Whether `~` stands before the name.
    pub negated: bool,
    /// The name: a letter or `_`, and then one or more letters, digits and `_ [ ] { } ^ -`.
    pub name: &'a [u8],
    pub ghost name_is: { names.is_name name.now ≡ true },
}

/// The sign and the name of a literal word.
#[tactic(auto, unfolding(crate::specs::Word::is_literal))]
pub(crate) fn split_literal(text: &[u8]) -> Literal<'_>
    requires { is_literal text.now ≡ true }
    ensures negated { result.negated ≡ is_negated text.now }
    ensures name { result.name.now ≡ name_of text.now }
{
    match text {
        [b'~', name @ ..] => Literal {
            negated: true,
            name,
        },
        name => Literal {
            negated: false,
            name,
        },
    }
}

/// What a token says that is a literal's.
#[tactic(auto, using(crate::proofs::KindTests::literal_kind))]
pub fn literal_of(t: Token<'_>) -> Literal<'_>
    requires { t.kind ≡ Kind.Literal }
    ensures negated { result.negated ≡ is_negated t.entry.text.now }
    ensures name { result.name.now ≡ name_of t.entry.text.now }
{
    split_literal(t.text)
}

/// What a literal's token says, and `None` exactly where the token is no literal.
pub fn as_literal(t: Token<'_>) -> Option<Literal<'_>>
    ensures cases { MatchOption result (t.entry.kind ≢ Kind.Literal) (λ l. t.entry.kind ≡ Kind.Literal) }
    ensures negated { MatchOption result (Unit {0}) (λ l. l.negated ≡ is_negated t.entry.text.now) }
    ensures name { MatchOption result (Unit {0}) (λ l. l.name.now ≡ name_of t.entry.text.now) }
{
    let Kind::Literal = t.kind else {
        return None;
    };
    Some(literal_of(t))
}
