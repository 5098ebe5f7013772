//! The kinds of tokens, told by the bytes alone, so that a token means the same wherever it stands. What a word that is no
//! integer and no literal means (`min`, `pol`, `*`) its place in a grammar decides.

/// The symbols of the two formats.
#[derive(Clone, Copy, Debug, PartialEq, Eq)]
pub enum Symbol {
    /// `;`
    Semicolon,
    /// `:`
    Colon,
    /// `>=`
    AtLeast,
    /// `<=`
    AtMost,
    /// `=`
    Equals,
    /// `->`, where no `=` follows
    Arrow,
}

/// What a token is, by its bytes.
#[derive(Clone, Copy, Debug, PartialEq, Eq)]
pub enum Kind {
    /// One of the symbols.
    Symbol(Symbol),
    /// A `<` or `>` that belongs to no symbol; it stands nowhere in either grammar.
    Stray,
    /// A word of digits, with `+`, `-` or no sign before them.
    Integer,
    /// A word that is a name, or `~` and a name.
    Literal,
    /// A word that begins with a letter, `_` or `~`, and is no literal.
    Misspelt,
    /// Any other word.
    Other,
}
