//! Bounds from the linear relaxation, as lines of a proof.
//!
//! A search that only propagates sees one constraint at a time. The relaxation sees all of them together: where no point from 0 to
//! 1 satisfies what stands, or none is better than the best solution, some constraints times whole numbers sum up to one that is false
//! there, and that sum is one `pol` line ("Learn to relax", Devriendt, Gleixner and Nordström 2021). A line may also force a literal: where
//! the relaxation loses more by turning it than the best solution leaves (reduced-cost fixing).
//!
//! This crate is an adviser and may be wrong: which constraints and which numbers it takes is found in fixed point. But what it hands out
//! was summed up exactly, by the stack that a kernel runs, and has negative slack or forces a literal, as the answer says, under the literals
//! that it was asked about: that is the contract of `Adviser::ask`. How much it may do is counted beside what the search does, with no clock, so
//! that runs repeat exactly.
//!
//! `adviser` makes the calls. What is called is `relaxed_problem`, of a problem that is not too large for it (`size`); when a call is due, and
//! what it may do, is said by `schedule`: it has a share of the work (`effort`), and stands before each decision of a descent to a first solution
//! (`dives`). It ends with multipliers, of which `sums` makes a line and `judgement` says what that says under the literals of `standing`, or with
//! a point, which leads the search (`leanings`).
//!
//! At the root it also hands out cuts (`root_cuts`): constraints that follow in whole numbers, and that the best point of the relaxation violates.
//! `rounds` says how long. The lines of sums and of cuts are made by the crate `cuts`.
#![tactic(auto)]

mod advice;
mod adviser;
mod dives;
mod effort;
mod judgement;
mod leanings;
mod relaxed_problem;
mod root_cuts;
mod rounds;
mod schedule;
mod size;
mod standing;
mod sums;

pub use advice::{Advice, Figures, Node};
pub use adviser::Adviser;
