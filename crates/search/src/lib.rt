//! A solver of pseudo-Boolean problems that writes down why its answer is right: it decides, propagates, learns from
//! conflicts, and logs each thing that it derives as a step of a proof.
//!
//! The solver itself is not believed. What it claims stands in its log, and a log takes a step only where the kernel
//! does; so that the steps are legal, and can be written, is a fact of the log's type, and no proof speaks of the order of the search. What is
//! left to say of the search is that what it needs is never refused: these are the laws of `laws`.
#![tactic(auto)]

mod advice;
mod advisers;
pub mod cases;
mod choice;
mod clause;
mod conflict;
mod cutting;
mod descent;
mod endings;
mod forgetting;
mod found;
pub mod laws;
mod learned;
mod outdone;
mod overtaken;
mod presolving;
mod progress;
mod restarts;
mod retracing;
mod run;
mod searched;
mod solution;
mod solver;
mod standing;

pub use branching::{Activity, Brancher, First, Progress, Value};
pub use found::{Found, Unfinished};
pub use solver::{Solved, Solver};
