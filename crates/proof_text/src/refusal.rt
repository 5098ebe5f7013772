//! First words that begin no step, and which fault they are.
//!
//! A user should see apart what is misspelt, what belongs elsewhere, and what is right VeriPB that this profile leaves out
//! (orders, core sets, checked deletions): the last is no reproach to the proof.

ghost use Rattle.proof_text.specs.PartsDenied.{IsForm};

use super::fault::ProofFault;
use super::witness::is_among;
use pb_text::{Kind, Token};

/// The rules of the format that this profile leaves out.
const LEFT_OUT: [&[u8]; 15] = [
    b"dom",
    b"pre_order",
    b"load_order",
    b"obju",
    b"solx",
    b"core",
    b"begin",
    b"e",
    b"ea",
    b"i",
    b"ia",
    b"setlvl",
    b"wiplvl",
    b"delc",
    b"deld",
];

/// The first words of lines that may not stand among the steps. (`end` is one too, and begins a step.)
const FRAME: [&[u8]; 4] = [b"pseudo-Boolean", b"f", b"output", b"conclusion"];

/// The fault of a line among the steps by its first word, which is no rule that is read.
pub(crate) fn rule_fault(token: Token<'_>) -> ProofFault
    ensures { IsForm result }
{
    if let Kind::Symbol(_) | Kind::Stray = token.kind {
        return ProofFault::BadLine;
    }
    if is_among(token.text, &LEFT_OUT) {
        return ProofFault::RuleLeftOut;
    }
    if is_among(token.text, &FRAME) {
        return ProofFault::BadLine;
    }
    ProofFault::UnknownRule
}
