//! Sums of normal constraints, to which another is added at the price of that one alone.
//!
//! `add` of `cut_rules` makes a new constraint, and so copies what was summed up before: a sum of n constraints costs
//! the square of its length. Here a running sum is kept by variable, and is read off once, at the end.
#![tactic(auto)]

mod accumulator;
mod capping;
mod cells;
mod reading;
mod scaling;
mod tidying;

pub use accumulator::Accumulator;
