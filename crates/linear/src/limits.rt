//! The limits of a problem file, as numbers of the code.
//!
//! They are chosen so that every sum of a statement fits an `i128` with room to spare, whatever the order of its terms: a
//! sum is at most `MOST_TERMS * LARGEST_INTEGER` in size. The definitions have the same numbers in `specs/Largest`; where a
//! reader compares with one of these, its contract speaks of the other, so that they cannot part.

/// The largest size of an integer.
pub const LARGEST_INTEGER: u128 = 1 << 90;

/// How many terms a statement may have.
pub const MOST_TERMS: usize = 1 << 20;

/// How many variables a problem may have.
pub const MOST_VARIABLES: usize = 1 << 20;

/// How many constraints a problem may have, of which an equality is one.
pub const MOST_CONSTRAINTS: usize = 1 << 20;

/// How many names a table can number.
pub const MOST_NAMES: usize = 1 << 32;
