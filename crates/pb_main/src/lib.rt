//! The solver's whole way from the bytes of a problem to the answer and the bytes of its proof: it reads, searches, has the
//! checker judge the proof that it wrote, and says what came of it. Only the command line and the devices are left to the
//! program.
#![tactic(auto)]

mod answer;
mod best;
pub mod cases;
mod deciding;
mod finding;
mod outcome;
mod proof;
mod pushing;
mod run_fault;
mod running;
mod solution;

pub use answer::{answer_text, status};
pub use deciding::{Decided, decide};
pub use outcome::{Outcome, Unanswered};
pub use run_fault::RunFault;
pub use running::run;
pub use solution::Solution;
