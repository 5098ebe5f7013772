//! What a search notes beside a literal of its trail.

use propagate::Id;

/// Why a literal was assigned, and since when: the id of the constraint that forced it, none where it was decided, and its level.
#[derive(Clone, Copy, Debug, PartialEq, Eq)]
pub(crate) struct Note {
    pub(crate) reason: Option<Id>,
    pub(crate) level: u32,
}
