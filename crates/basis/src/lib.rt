//! A linear program in fixed point, and which of its rows and variables a basis has.
//!
//! `rows` has the constraints by rows and by columns, and `basis` says which rows are tight and which variables basic. Nothing is solved here
//! (`factorisation`), and no costs and no bounds of variables are known. No clause says more than that every call returns, that no index is
//! out of range, and that no number overflows or is divided by 0.
#![tactic(auto)]

mod basis;
mod rows;

pub use basis::Basis;
pub use rows::{Rows, at_variable, bit_length};
