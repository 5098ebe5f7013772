//! The lines of a proof that count, from its whole text or from a source in pieces.
//!
//! A proof is judged line by line, and may be longer than the memory. Which lines count, and with which numbers, is told here (`specs/Lines`);
//! what a line says is the layer above (`proof_text`). `numbered_lines` lends them from a text, `line_buffer` from what a source has given
//! so far; both lend the same lines, however the text was cut.
#![tactic(auto)]

pub mod laws;
mod line_buffer;
mod numbered_lines;

pub use line_buffer::{LineBuffer, LineFault};
pub use numbered_lines::{NumberedLine, ProofReader};
