//! Proofs as they are written: a line for each step, and the lines behind the steps (the VeriPB proof format, version 2.0, in
//! this product's profile).
//!
//! A solver's proof is only worth what its checker reads in it. So what is written is fixed twice: byte for byte, by the
//! words of a step with single spaces between them, and by what the reader's own definition of a line says of these bytes.
//! That the two agree is proved here once, and no writer has to trust that its spaces, signs and symbols are cut again as it
//! meant them. The crate stands apart from the reader, since a checker reads and never writes.
#![tactic(auto)]

mod cases;
mod whole;
mod writable;
mod write;
mod writer;

pub use whole::{write_proof, write_start};
pub use writable::is_step_writable;
pub use write::{write_end, write_step};
