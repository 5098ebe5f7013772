//! What is read of a word in the pass that finds its end.

/// What a word says, as far as it was read while it was cut.
#[derive(Clone, Copy, Debug)]
pub enum Said {
    /// Nothing was read, and the token is asked.
    Nothing,
    /// The number of an integer.
    Number(i64),
    /// The number of the name in a literal that is `x` and a few digits: digits to the base 11 in which none is 0, so that
    /// each such name has a number of its own.
    Short(usize),
}
