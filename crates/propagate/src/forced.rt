//! One step of a chain, with its reason.

use linear::Lit;

/// A forced literal, and the place of a constraint that forces it.
#[derive(Clone, Copy, Debug, PartialEq, Eq)]
pub(crate) struct Forced {
    pub(crate) literal: Lit,
    pub(crate) reason: usize,
}
