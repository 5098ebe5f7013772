//! Linear 0-1 problems: variables and their names, signed terms, constraints and objectives, and which
//! assignments satisfy a problem. No normal form stands here: sums are the plain sums over signed terms.
#![tactic(auto)]

mod assignment;
mod constraint;
mod constraints;
mod limits;
mod names;
mod packed_terms;
mod problem;
mod seq;
mod short_names;
mod sums;
mod term;

pub use assignment::Assignment;
pub use constraint::{Relation, Signed};
pub use constraints::{Constraints, LentConstraint};
pub use limits::{LARGEST_INTEGER, MOST_CONSTRAINTS, MOST_NAMES, MOST_TERMS, MOST_VARIABLES};
pub use names::Names;
pub use problem::Problem;
pub use seq::Seq;
pub use term::{Integer, Lit, Term, Var};
