//! The equations that a basis of a linear program stands for, and their solutions.
//!
//! The rows of a program that are tight and the variables that are basic make a square matrix, the kernel of the basis. A simplex asks in
//! each step for products with its inverse. This crate keeps the inverse, solves, and counts what that takes; it knows
//! no costs, no bounds of variables and no rule by which a step is chosen.
//!
//! All is in fixed point (crate `fixed_point`), so runs repeat exactly on every machine. Where a pivot is
//! small a solution may be far off: no clause says that one is right, and whoever asks judges what comes of it. What is proved is that
//! every call returns, that no index is out of range, and that no number overflows or is divided by 0.
//!
//! Which rows and variables are in the kernel says the crate `basis`, and `inverse` answers products with it: by the `triangles` that an `elimination` has made of an earlier kernel, and by an `exchange` for each step since.
#![tactic(auto)]

mod elimination;
mod exchange;
mod inverse;
mod triangles;

pub use exchange::Entering;
pub use inverse::{Inverse, Scratch};
