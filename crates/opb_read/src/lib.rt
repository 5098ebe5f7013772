//! Reads linear OPB problem files (Roussel and Manquinho).
//!
//! What a text spells is a function of its tokens, cut at each `;`, so it spells one problem at most. The reader goes from left
//! to right, one token after another, as a person looks for the first thing that is wrong; that it finds the problem that
//! the text spells, and otherwise the first token that cannot stand in its place, is the contract of `read`.
#![tactic(auto)]

pub mod cases;
mod fault;
pub mod laws;
mod mark;
mod plain_tokens;
mod reader;
mod reading;
mod spot;
mod variables;

pub use fault::{OpbCode, OpbFault};
pub use laws::{constraints_as_written, objectives_as_written, one_fault_line, one_problem};
pub use reading::read;
