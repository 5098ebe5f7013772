//! A position in a text from which its tokens are cut. The types stand apart from the code that moves them, since the
//! definitions speak of the types and the code's contracts speak of the definitions.

ghost use Rattle.std.specs.Prelude.{◌+◌, ◌<◌, ◌≤◌, ◌^◌, length};

/// Where on its line a cursor stands.
#[derive(Clone, Copy, Debug)]
pub enum Spot {
    /// Only spaces and tabs stand before it, so a `*` here begins a comment.
    Front,
    /// Another byte stands before it, and the line is no comment.
    Within,
}

/// A position between two tokens.
#[derive(Clone, Copy)]
pub struct Cursor<'a> {
    /// The bytes that follow.
    pub rest: &'a [u8],
    /// How many bytes stand before.
    pub start: usize,
    /// How many of them are LF.
    pub breaks: u64,
    /// Where on its line the position is.
    pub spot: Spot,
    ghost fits: { (start + length rest.now < 2 ^ 64) × (breaks ≤ start) },
}
