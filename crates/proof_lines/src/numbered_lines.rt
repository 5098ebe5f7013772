//! The lines of a proof that count, with their numbers.
//!
//! Proofs are long, so a line is found by its LF and lent from the text, and nothing is copied. Whether it counts is told by its bytes, without
//! cutting a token, since whoever reads it cuts its words anyway. Comment lines are no part of the format's grammar: a line
//! whose first byte other than space and tab is `*` is passed over, as in the problem files of Roussel and Manquinho's format.

ghost use Rattle.std.specs.Prelude.{◌≡◌, ◌+◌, ◌<◌, ◌^◌, true, length};
ghost use Rattle.std.specs.List.{list_all};
ghost use Rattle.pb_text.specs.Lexeme.{begins_comment, is_white};
ghost use Rattle.proof_lines.specs.Lines as lines;
ghost use Rattle.proof_lines.specs.Lines.{has_no_break};

use memchr::memchr;
use std::marker::Model;

/// A line that counts: it has a token, so it is neither blank nor a comment.
#[derive(Clone, Copy, Debug)]
pub struct NumberedLine<'a> {
    /// Its number: 1 and the number of LF bytes before it.
    pub number: u64,
    /// Its bytes, without the LF.
    pub text: &'a [u8],
}

/// A position at the start of a line.
#[derive(Clone, Copy)]
struct LineCursor<'a> {
    /// The bytes that follow.
    rest: &'a [u8],
    /// The number of the line.
    number: u64,
    ghost fits: { number + length rest.now < 2 ^ 64 },
}

/// Whether a line is a comment: its first byte other than space and tab is `*`.
fn is_comment(line: &[u8]) -> bool
    ensures { result ≡ begins_comment line.now }
{
    let mut rest = line;
    while let [b' ' | b'\t', more @ ..] = rest {
        rest = more;
    }
    matches!(rest, [b'*', ..])
}

/// Whether a line has white space alone.
fn is_blank(line: &[u8]) -> bool
    ensures { result ≡ list_all is_white line.now }
{
    line.iter()
        .all(|b| matches!(*b, b' ' | b'\t' | b'\r' | b'\n'))
}

/// Whether a line counts. No token is cut for that: a line has one where it is neither blank nor a comment.
#[tactic(auto, using(crate::proofs::LinesParted::counts_where))]
pub(crate) fn counts(line: &[u8]) -> bool
    requires { has_no_break line.now ≡ true }
    ensures { result ≡ lines.counts line.now }
{
    !is_blank(line) && !is_comment(line)
}

impl<'a> LineCursor<'a> {
    ghost use Rattle.proof_lines.specs.LinesAhead.{numbered_of, pending};

    /// The line at a position, and the position behind it.
    fn line(self) -> (NumberedLine<'a>, LineCursor<'a>)
        requires { 0 < length self.rest.now }
        ensures lines { (pending self.entry).lines ≡ lines.onto (numbered_of result.0) (pending result.1).lines }
        ensures last { (pending result.1).last ≡ (pending self.entry).last }
        ensures unbroken { has_no_break result.0.text.now ≡ true }
        ensures shorter { length result.1.rest.now < length self.entry.rest.now }
    {
        let number = self.number;
        match memchr(b'\n', self.rest) {
            None => (
                NumberedLine {
                    number,
                    text: self.rest,
                },
                LineCursor { rest: &[], number },
            ),
            Some(end) => (
                NumberedLine {
                    number,
                    text: &self.rest[..end],
                },
                LineCursor {
                    rest: &self.rest[end + 1..],
                    number: number + 1,
                },
            ),
        }
    }
}

/// The lines of a proof that are still to come. Lines are parted by LF; the last one may be empty. Nothing is copied.
#[derive(Drop)]
pub struct ProofReader<'a> {
    at: LineCursor<'a>,
}

impl<'a> Model for ProofReader<'a> {
    ghost use Rattle.proof_lines.specs.Lines.{Pending};
    ghost use Rattle.proof_lines.specs.LinesAhead.{pending};

    ghost Value = { Pending };

    ghost view = { λ r. pending r.at };
}

impl<'a> ProofReader<'a> {
    ghost use Rattle.std.specs.Prelude.{[], ◌∷◌, MatchOption};
    ghost use Rattle.proof_lines.specs.Lines.{lines_of};
    ghost use Rattle.proof_lines.specs.LinesAhead.{numbered_of};

    /// All lines of a proof.
    pub fn new(proof: &'a [u8]) -> Self
        ensures { result ≡ lines_of proof.now }
    {
        ProofReader {
            at: LineCursor {
                rest: proof,
                number: 1,
            },
        }
    }

    /// The next line that counts; `None` where none is left, then as often as it is asked for.
    pub fn next(&mut self) -> Option<NumberedLine<'a>>
        ensures line { MatchOption
            result
            ((self.old.lines ≡ []) × (self.new.lines ≡ []))
            (λ l. self.old.lines ≡ numbered_of l ∷ self.new.lines) }
        ensures last { self.new.last ≡ self.old.last }
    {
        let mut at = self.at;
        while !at.rest.is_empty() {
            let (line, after) = at.line();
            at = after;
            if counts(line.text) {
                self.at = at;
                return Some(line);
            }
        }
        self.at = at;
        None
    }

    /// The number of the line at which the text ends: 1 and the number of its LF bytes.
    pub fn end_number(&self) -> u64
        ensures { result ≡ self.now.last }
    {
        self.at.number + self.at.rest.iter().filter(|b| **b == b'\n').count() as u64
    }
}
