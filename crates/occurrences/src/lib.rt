//! Where literals stand: for each literal the places of the constraints that have it, with its coefficients there.
//!
//! It is a layer of its own since what it keeps are lists by number, which know nothing of what is assigned: a constraint's entries come
//! in at the end of the lists of its literals, and are taken off there. The layer above decides which constraints are listed, and what an entry
//! is read for.
#![tactic(auto)]

mod clause_index;
mod entry_lists;
mod entry_table;
mod occurrence;
mod table;

pub use clause_index::ClauseIndex;
pub use entry_lists::{enter, leave};
pub use entry_table::EntryTable;
pub use occurrence::{Occurrence, Row};
pub use table::Table;
