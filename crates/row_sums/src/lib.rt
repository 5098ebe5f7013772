//! Lines that sum up the rows of the linear relaxation, each written and run at once.
//!
//! The relaxation answers with multipliers, by which its rows are summed up. Which ones these are is found in fixed point and may be wrong; but a
//! line is run while it is written, by the stack that a kernel runs, so what is handed out derives a constraint: that is the contract
//! of `line_of`. What the sum says where a search stands is judged in the layer above.
//!
//! `sources` keeps which constraint is which row, and `summing` writes the line of some multipliers over `line`, which writes and runs it.
#![tactic(auto)]

mod line;
mod sources;
mod summing;

pub use line::Line;
pub use sources::{Cited, Sources};
pub use summing::{divided_line, line_of};
