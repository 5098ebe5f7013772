//! Cuts of the linear relaxation, each as a line of a proof.
//!
//! A cut is a constraint that follows in whole numbers and that the best point of the relaxation violates. It is one `pol` line. Which
//! constraints and which numbers it takes is found in fixed point and may be wrong; but a line is run while it is written (crate `row_sums`),
//! so what is handed out derives a constraint: that is the contract of `Cuts::next`.
//!
//! `cuts` has the cuts of a round, which `gomory` makes of rows of the tableau, `single_rows` of one row alone, and `cliques` of pairs of
//! literals that exclude each other (`conflict_graph`, with their values `valued_graph`, which `clique_search` goes through); `violation` says
//! what one is worth, and `cut_rows` keeps those that became rows.
#![tactic(auto)]

mod clique_search;
mod cliques;
mod conflict_graph;
mod cut_rows;
mod cuts;
mod gomory;
mod single_rows;
mod valued_graph;
mod violation;

pub use cut_rows::CutRows;
pub use cuts::{Cuts, Point};
