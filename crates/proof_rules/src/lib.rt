//! The theory of proofs, with no algorithm in it: states, the steps that are legal and the faults of those that are not,
//! what is shown from constraints, what a state entitles to conclude, what every legal step preserves, and what a
//! conclusion claims of the problem. The laws stand as contracts of functions that do nothing (`laws`), and so do worked
//! cases, which compute the definitions on small problems (`cases`, `solution_cases`, `step_fault_cases`,
//! `redundance_cases`, `block_cases`, `conclusion_cases`, `claim_cases`). Whoever doubts a verdict reads `specs/` here, beside what a
//! problem's text spells (`linear`, `opb_read`) and the headline of `checker`, and no code.
#![tactic(auto)]

pub mod block_cases;
pub mod cases;
pub mod claim_cases;
pub mod conclusion_cases;
mod fault;
pub mod laws;
pub mod redundance_cases;
pub mod solution_cases;
pub mod step_fault_cases;

pub use fault::StepFault;
