//! The lines around the steps: header, count, output and end. Each is a fixed list of words, but for the integer of the count.
//!
//! The count says how many constraints the checker must have read from the problem file, so that a proof of another file is
//! refused before its first step. Only the output `NONE` is read: the others promise a file that this product does not write.

ghost use Rattle.std.specs.Prelude.{◌≡◌, ℤ, Some, None, false, true, IfErr, MatchOption, OnOk};
ghost use Rattle.proof_text.specs.Words.{are_words, AreSmall};
ghost use Rattle.proof_text.specs.Frame as frame;
ghost use Rattle.proof_text.specs.PartsDenied.{IsForm};

use super::fault::{ProofFault, Reading};
use super::line_words::LineWords;
use super::values::number;
use pb_text::Kind;

/// Whether the words are `pseudo-Boolean proof version 2.0`.
pub(crate) fn is_header(mut words: LineWords<'_>) -> bool
    ensures { result ≡ are_words frame.header words.entry }
{
    words.takes(b"pseudo-Boolean")
        && words.takes(b"proof")
        && words.takes(b"version")
        && words.takes(b"2.0")
        && words.is_empty()
}

/// The number behind `f`, where the words are these two and the number is within the limit.
pub(crate) fn count(mut words: LineWords<'_>) -> Option<i128>
    ensures { MatchOption
        result
        ((n : ℤ) → frame.count_of words.entry ≡ Some n → AreSmall words.entry → ⊥)
        (λ n. (frame.count_of words.entry ≡ Some n) × AreSmall words.entry) }
{
    if !words.takes(b"f") {
        return None;
    }
    let token = words.take()?;
    match number(token) {
        Ok(number) => { if words.is_empty() { Some(number) } else { None } }
        Err(_) => None,
    }
}

/// The words are `output NONE`; another output is left out.
pub(crate) fn output(mut words: LineWords<'_>) -> Reading<()>
    ensures ok { OnOk result (are_words frame.output words.entry ≡ true) }
    ensures form { IfErr result IsForm }
    ensures denies { IfErr result (λ f. are_words frame.output words.entry ≡ false) }
{
    if !words.takes(b"output") {
        return Err(ProofFault::BadLine);
    }
    if words.takes(b"NONE") {
        return if words.is_empty() {
            Ok(())
        } else {
            Err(ProofFault::BadLine)
        };
    }
    match words.next() {
        Some(token) if !matches!(token.kind, Kind::Symbol(_) | Kind::Stray) => {
            Err(ProofFault::RuleLeftOut)
        }
        _ => Err(ProofFault::BadLine),
    }
}

/// Whether the words are `end pseudo-Boolean proof`.
pub(crate) fn is_end(mut words: LineWords<'_>) -> bool
    ensures { result ≡ are_words frame.ending words.entry }
{
    words.takes(b"end")
        && words.takes(b"pseudo-Boolean")
        && words.takes(b"proof")
        && words.is_empty()
}
