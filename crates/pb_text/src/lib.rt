//! Tokens of the two formats: where words and symbols stand in a text, and what a word is.
//!
//! The OPB format (Roussel and Manquinho) and VeriPB's proof format have the same words, so one crate cuts both, and what a
//! name is can never differ between a problem and its proof. Nothing is copied and no memory is taken: a token is a slice of
//! its text. What the tokens of a text are is said twice, as a fold that computes and in the words of the formats, and a law
//! says that both are one (`one_list_of_tokens`).
//!
//! Bytes come from sources and go to sinks, piece by piece, so that a proof larger than the memory can be read and written.
#![tactic(auto)]

pub mod cases;
mod classify;
mod cursor;
mod kind;
pub mod laws;
mod lookahead;
mod mem_sink;
mod mem_source;
mod number;
mod runs;
mod said;
mod scan;
mod sink;
mod source;
mod spot;
mod token;
mod tokens;

pub use kind::{Kind, Symbol};
pub use laws::{kinds_of_words, one_list_of_tokens, tokens_in_order, tokens_stand_in_text};
pub use lookahead::Lookahead;
pub use mem_sink::MemSink;
pub use mem_source::{MemSource, Portion};
pub use number::{LARGEST_NUMBER, NumFault, integer};
pub use said::Said;
pub use sink::Sink;
pub use source::{DeviceFault, Source};
pub use token::{Literal, Token, as_literal, literal_of};
pub use tokens::{Found, ReadLiteral, Tokens, end_line};
