//! What the steps of a proof and its conclusions *are*, and nothing of what they mean: types alone. Whoever reads or writes
//! proofs needs these and no judge of them, so readers, writers and the rules of proofs stand side by side on this crate
//! and none of them on another.
#![tactic(auto)]

mod conclusion;
mod step;

pub use conclusion::{Conclusion, Lower, Upper};
pub use step::{GoalName, Item, Step};
