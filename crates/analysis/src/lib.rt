//! What a conflict teaches, by cutting planes.
//!
//! A solver that has decided and propagated into a conflict can learn the clause that its decisions do not go together. A
//! pseudo-Boolean conflict often says more: resolved with the reasons of the forced literals by the rules of cutting planes
//! (Cook, Coullard and Turán) it becomes a constraint that speaks of numbers, and one such constraint can stand for
//! exponentially many clauses. This is the analysis of RoundingSat (Elffers and Nordström, "Divide and conquer: towards faster
//! pseudo-Boolean solving", IJCAI 2018).
//!
//! Nothing here judges. What is handed out comes with the items of the `pol` line that derives it, and with the level under
//! which it bites, and both are contracts: so whoever logs it knows that the line is legal and that it says something new.
#![tactic(auto)]

mod analysis;
mod bite;
mod biting;
pub mod cases;
mod derivation;
mod entry;
mod learned;
mod level;
mod met;
mod note;
mod reduction;
mod resolvent;
mod search_trail;
mod seen;
mod shrinking;
mod size;
mod slack;
mod spot;
mod stop;
mod under;
mod walk;

pub use analysis::Analyser;
pub use bite::{Bite, bite_on};
pub use entry::Entry;
pub use learned::Learned;
pub use met::Met;
pub use search_trail::SearchTrail;
pub use size::Size;
pub use under::bites_under;
