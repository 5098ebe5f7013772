//! Tests of the texts of proofs, by public calls alone: what is read, which fault comes where, and what is written.
//!
//! They stand in a crate of their own, above the reader and the writer: a crate with tests is proved once more for them, and
//! a test that needs nothing private need not cost that. What a clause says already is not tested again: here stands what
//! none can say (a call with ample memory succeeds), and the choice among codes that the contracts leave open.
#![tactic(auto)]

#[cfg(test)]
mod asking;
#[cfg(test)]
mod lines;
#[cfg(test)]
mod steps;
#[cfg(test)]
mod subproofs;
#[cfg(test)]
mod writable;
#[cfg(test)]
mod written;
#[cfg(test)]
mod wrong_words;
