//! The judge of steps and conclusions. It keeps the state of a proof, and applies a step whole or not at all: `Ok` where the
//! step is legal by the rules of `proof_rules`, else the first fault in the order of judging. No law is proved here.
#![tactic(auto)]

mod accepted;
mod admission;
mod block;
mod conclusion;
mod deletion;
mod holdings;
mod kernel;
mod objective;
mod open_block;
mod pol;
mod propagation;
mod redundance;
mod rup;
mod solution;

pub use accepted::Accepted;
pub use kernel::{Applied, Kernel};
