//! Unit propagation over pseudo-Boolean constraints: the literals that constraints force, one after another, and whether
//! they lead to a conflict.
#![tactic(auto)]

mod assigned;
pub mod cases;
mod forced;
mod ids;
pub mod laws;
mod pass;
mod propagator;
mod question;
mod reach;
mod refutation;
mod retrace;
mod scan_propagator;
mod slack;
mod trace;
mod trail;
mod value;
mod walk;

pub use assigned::{literal_count, with_last};
pub use ids::Ids;
pub use propagator::{Id, Propagator};
pub use question::{Deciding, Extending, Question, Retracing, Tracing};
pub use reach::Reach;
pub use retrace::{Extent, Retrace};
pub use scan_propagator::ScanPropagator;
pub use trace::{Decided, Trace, decided_alone};
pub use trail::Trail;
pub use value::Value;
