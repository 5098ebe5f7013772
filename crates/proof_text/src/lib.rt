//! What the lines of proofs say (the VeriPB proof format, version 2.0, in this product's profile), each at its section.
//!
//! The format is read line by line (crate `proof_lines`), each line by words. What a line says is defined over its words alone (`specs/`), by a form for
//! each rule, and the code is proved to read exactly that: a line is read where it says something at its section, with its integers
//! and names within the limits, and is refused with a fault where it says nothing. Nothing here knows what a step means, so
//! that a checker's rules and a solver's log stand on the same reading.
#![tactic(auto)]

mod before_semicolon;
mod cases;
mod conclude;
mod constraint;
mod fault;
mod frame;
mod goal;
mod keyword;
pub mod laws;
mod line;
mod line_names;
mod line_words;
mod places;
mod pol;
mod proof_names;
mod read;
mod refusal;
mod section;
mod step;
mod values;
mod witness;

pub use fault::ProofFault;
pub use keyword::{ConclusionKind, Rule};
pub use line::{Line, Section};
pub use proof_names::ProofNames;
pub use read::{read_line, read_step};
