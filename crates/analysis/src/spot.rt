//! Where a variable stands on a trail.

/// The sign of the literal that the trail has of a variable, its level, and its place on the trail.
#[derive(Clone, Copy, Debug, PartialEq, Eq)]
pub(crate) struct Spot {
    pub(crate) negated: bool,
    pub(crate) level: u32,
    pub(crate) place: usize,
}
