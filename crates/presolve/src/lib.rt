//! What may be said of a problem before any search: literals that may be made true at no cost, and pairs of variables that may
//! change places.
//!
//! The answers are found by looking at the problem alone. No solver has to believe them: each is put to the rule of
//! redundance as a step of a proof, and that rule judges it again.
#![tactic(auto)]

pub mod cases;
mod costs;
mod file_forms;
mod fixing;
mod form;
mod swapping;
mod uses;
mod weights;

pub use fixing::fixable;
pub use swapping::{Swap, swappable};
