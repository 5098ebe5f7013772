//! A propagator that is fast: it keeps what it has found between calls, and a call costs what it touches.
//!
//! Over the single steps of a ledger stand the walks: forced literals are added until nothing waits or a constraint is falsified,
//! given literals are followed from where an assignment parts from the one before, and the trail is told as a chain with reasons.
//! Places of constraints end here: what is asked and answered has their ids.
//!
//! It is a layer of its own since what it says is the one contract of all propagators, about what constraints refute, extend and
//! trace. Whether a place has to be looked at, and how that is found out, is decided below.
#![tactic(auto)]

mod arrivals;
mod assumed;
mod attaching;
mod chain;
mod closure;
mod continuing;
mod cubes;
mod extension;
mod following;
mod giving;
mod lending;
mod levels;
mod naming;
mod refutation;
mod release;
mod rest;
mod retracing;
mod telling;
mod tracing;
mod walk;
mod watch_propagator;

pub use watch_propagator::WatchPropagator;
