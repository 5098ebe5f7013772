//! What a propagator has assigned: a trail of which the first literals were propagated and the others wait.
//!
//! Why a literal was assigned is not known here: what forces one is the business of the layer above (`ledger`).
#![tactic(auto)]

mod assignment;

pub use assignment::Assignment;
