//! What becomes of the memory that a check took.
//!
//! A check keeps each constraint in blocks of its own, and giving them back one by one takes up to a tenth of its time. A program that ends with
//! the verdict need not do so, since its memory goes with it.

use std::mem;

/// Whether what a check holds is given back once there is a verdict.
#[derive(Clone, Copy, Debug, PartialEq, Eq)]
pub enum Afterwards {
    /// It is given back, as a caller wants it that goes on.
    GiveBack,
    /// Where a proof comes to its end, accepted or too short, it is left to the system, as a program may do that ends then.
    Leave,
}

impl Afterwards {
    /// Gives a thing back, or leaves it.
    pub(crate) fn end<T: Drop>(self, thing: T) {
        match self {
            Afterwards::GiveBack => mem::drop(thing),
            Afterwards::Leave => mem::forget(thing),
        }
    }
}
