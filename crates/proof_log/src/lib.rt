//! A proof that grows: the text of legal steps, and the state of a kernel that they lead to.
//!
//! Whoever solves a problem may be wrong; what it claims stands in a log, and a log takes a step only where the kernel does. So that the steps are
//! legal, and can be written, and that what was concluded follows, are facts of the log's type, whoever fills it.
//!
//! `log` has the log, `laws` what holds of every one, and `cases` its definitions computed on small ones.
#![tactic(auto)]

pub mod cases;
mod fault;
pub mod laws;
mod log;

pub use fault::want_of_memory;
pub use log::Log;
