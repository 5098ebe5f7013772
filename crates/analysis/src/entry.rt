//! The trail of a search, entry by entry.

use linear::Lit;
use propagate::Id;

/// One literal of a trail: decided, or forced in the constraint of an id. Its level is the number of decisions on the trail up
/// to it, itself among them.
#[derive(Clone, Copy, Debug, PartialEq, Eq)]
pub struct Entry {
    pub literal: Lit,
    pub reason: Option<Id>,
    pub level: u32,
}
