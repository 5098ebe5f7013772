//! The rules by which a search chooses the literals that it decides.
//!
//! A rule of choice advises and no more, so that anybody may write one: whatever it answers costs time alone. So the trait has no contract but
//! that its calls return, and what is written here is as clever as it likes.
//!
//! `brancher` has the trait and the rule that leaves all to the search; `activity` follows the conflicts, over the `heap` of its variables.
#![tactic(auto)]

mod activity;
mod brancher;
mod heap;
mod progress;

pub use activity::Activity;
pub use brancher::{Brancher, First};
pub use progress::Progress;
pub use propagate::Value;
