//! Where the constraint of each id stands: a table by id, in rows whose memory goes when all their ids are gone.
//!
//! Whoever keeps constraints at places of its own, numbered from 0 on, finds one by its id here. What stands at a place is not known here.
#![tactic(auto)]

mod places;
mod row;

pub use places::Places;
