//! The live constraints of a proof by their ids, over any propagator: those of the problem's file first, what they show, which of them a witness touches, and
//! which may be the same as another one. Nothing is judged here: that is the business of the layer above (`kernel`).
#![tactic(auto)]

mod database;
mod duplicates;
mod file;
mod shown;

pub use database::{Database, id_of};
pub use file::constraints_of_file;
pub use shown::is_shown;
