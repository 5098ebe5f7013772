//! What a step of a dual simplex looks at, and how it chooses.
//!
//! The `point` and the `duals` follow from a basis (crate `factorisation`), from the `costs` and from the `domain` of each variable. Where the
//! point violates a row or a domain, `pricing` says what is violated most, by its `norms`; `tableau` has the row of what leaves, and `ratio` what
//! enters for it. Nothing here takes a step: what a step changes is done by the crate above (`relaxation`), which asks these parts in turn.
//!
//! All is advice in fixed point (crate `fixed_point`): no clause says that a choice is a good one; what is proved is that every call returns, that no index is
//! out of range, and that no number overflows or is divided by 0.
#![tactic(auto)]

mod costs;
mod domain;
mod duals;
mod norms;
mod point;
mod pricing;
mod ratio;
mod tableau;

pub use costs::Costs;
pub use domain::{Bound, Domain, domain_of};
pub use duals::Duals;
pub use norms::Norms;
pub use point::Point;
pub use pricing::{Leaving, TOLERANCE, Violation, worst_violation};
pub use ratio::{Candidate, Candidates};
pub use tableau::TableauRow;
