//! Constraints by place, the literals that are taken as true, and what waits to be looked at.
//!
//! This is what a fast propagator keeps, with the single steps that change it: a literal comes or goes (crate `trail`), a constraint comes, is
//! taken off or is taken out. Clauses are watched by two of their literals, all other constraints are counted, and each
//! literal has a list of where it stands; so a step costs what it touches.
//!
//! It is a layer of its own since none of that shows above. A ledger is seen as its constraints, the literals in order and the place
//! of the constraint that forced each, and a step says which places have to be looked at after it. In which order they are, and what
//! follows from the constraints then, is for the walks of the crate above.
#![tactic(auto)]

mod arena;
mod choosing;
mod counting;
mod entries;
mod finding;
mod forcing;
mod hint;
mod ledger;
mod lowering;
mod measures;
mod narrow;
mod order;
mod orders;
mod pair;
mod passed;
mod queue;
mod replacing;
mod starts;
mod watched_first;
mod watchers;

pub use entries::Entries;
pub use hint::Hint;
pub use ledger::Ledger;
pub use queue::Queue;
