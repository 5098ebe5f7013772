//! Whether a conclusion can be written over a table of names: what a test asks before it has one written, since nobody tells it that the names
//! that a line added are all there are. Of steps the writer answers this itself.

ghost use Rattle.std.specs.Prelude.{◌<◌, All, IsTrue};
ghost use Rattle.proof_text.specs.Writable.{IsConclusionWritable, IsHintWritable, IsLitWritable};
ghost use Rattle.proof_text.specs.Writable.{IsLowerWritable, IsUpperWritable, IsWritable};

use linear::{Lit, Seq};
use proof_steps::{Conclusion, Lower, Upper};

/// The largest size of an integer of a proof.
const LARGEST: u128 = 1 << 120;

fn is_writable(number: i128) -> bool
    ensures { IsTrue result → IsWritable number }
{
    number.unsigned_abs() <= LARGEST
}

fn is_named(count: usize, literal: Lit) -> bool
    ensures { IsTrue result → literal.var.0 < count }
{
    (literal.var.0 as usize) < count
}

fn are_writable(count: usize, literals: &[Lit]) -> bool
    ensures { IsTrue result → All (IsLitWritable count) literals.now }
{
    literals.iter().all(|literal| is_named(count, *literal))
}

fn is_hint_writable(count: usize, hint: &Option<Seq<Lit>>) -> bool
    ensures { IsTrue result → IsHintWritable count hint.now }
{
    match hint {
        None => true,
        Some(literals) => are_writable(count, literals.as_slice()),
    }
}

fn is_lower_writable(bound: Lower) -> bool
    ensures { IsTrue result → IsLowerWritable bound }
{
    match bound {
        Lower::At(number) => is_writable(number),
        Lower::MinusInf | Lower::Inf => true,
    }
}

fn is_upper_writable(bound: Upper) -> bool
    ensures { IsTrue result → IsUpperWritable bound }
{
    match bound {
        Upper::At(number) => is_writable(number),
        Upper::Inf => true,
    }
}

/// Whether a table of so many names has all variables of a conclusion, and its integers are at most 2^120 in size.
pub(crate) fn is_conclusion_writable(count: usize, conclusion: &Conclusion) -> bool
    ensures { IsTrue result → IsConclusionWritable count conclusion.now }
{
    match conclusion {
        Conclusion::Nothing | Conclusion::Unsat => true,
        Conclusion::Sat(hint) => is_hint_writable(count, hint),
        Conclusion::Bounds(lower, upper, hint) => {
            is_lower_writable(*lower) && is_upper_writable(*upper) && is_hint_writable(count, hint)
        }
    }
}
