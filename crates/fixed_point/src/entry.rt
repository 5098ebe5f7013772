//! Entries of vectors of which few numbers are not 0.

use super::fixed::Fixed;

/// A number of a vector, and its place: a variable in a row, a row in a column. What has no entry is 0.
#[derive(Clone, Copy, Debug)]
pub struct Entry {
    /// The row or the variable, counted from 0, or where one stands in a basis.
    pub place: usize,
    /// The number.
    pub value: Fixed,
}
