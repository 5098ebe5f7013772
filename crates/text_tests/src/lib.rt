//! Tests of `pb_text`, `linear` and `opb_read` by their public calls alone.
//!
//! They stand in a crate of their own, since a crate with tests is proved twice. They show what no clause can say: that calls
//! succeed with ample memory, and that the clauses mean what the format does (the OPB format of Roussel and Manquinho). The
//! expected values were written by hand from the format, none of them by running the code.
#![tactic(auto)]

#[cfg(test)]
mod fault_table;
#[cfg(test)]
mod files;
#[cfg(test)]
mod limits;
#[cfg(test)]
mod problems;
#[cfg(test)]
mod tokens;
