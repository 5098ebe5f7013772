//! Whether the mark of an objective stands next, or another word with `:`.

ghost use Rattle.std.specs.Prelude.{◌≡◌};
ghost use Rattle.opb_read.specs.Kinds as kinds;

use pb_text::{Kind, Lookahead, Symbol};

/// Whether this word and `:` stand next.
pub(crate) fn begins_mark(left: &Lookahead<'_>, word: &[u8]) -> bool
    ensures { result ≡ kinds.begins_mark word.now left.now }
{
    let Some(token) = left.next() else {
        return false;
    };
    match left.kind_after() {
        Some(Kind::Symbol(Symbol::Colon)) => token.text == word,
        _ => false,
    }
}

/// Whether `min` and `:` stand next, with which an objective begins.
pub(crate) fn begins_objective(left: &Lookahead<'_>) -> bool
    ensures { result ≡ kinds.begins_objective left.now }
{
    begins_mark(left, b"min")
}
