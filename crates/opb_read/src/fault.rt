//! Why a text is refused, and where. The numbers and names of the codes are part of what users and scripts see, so they are
//! fixed by contract.

ghost use Rattle.std.specs.Prelude.{◌≡◌};

use thiserror::Error;

/// What is wrong at the first token that cannot stand in its place. The end of the text counts as a token.
#[derive(Clone, Copy, Debug, PartialEq, Eq, Error)]
pub enum OpbCode {
    /// A token that stands nowhere, or not there.
    #[error("a token that cannot stand here")]
    BadToken,
    /// A constraint is closed before its relation.
    #[error("a constraint without its relation")]
    NoRelation,
    /// A statement is not closed by `;`.
    #[error("a statement that is not closed by `;`")]
    NoSemicolon,
    /// A word that begins as a literal does and is none.
    #[error("a word that is no name")]
    BadName,
    /// An objective behind another statement.
    #[error("an objective behind another statement")]
    ObjectiveLate,
    /// A form of the format's wider family: a product, `<=`, `max:`, `soft:`, a weight in brackets, a constant in the objective.
    #[error("a form that is left out")]
    UnsupportedForm,
    /// An integer above the limit in size (`linear::LARGEST_INTEGER`).
    #[error("an integer above 2^90 in size")]
    IntegerTooLarge,
    /// A term too many in its statement, or a variable or constraint too many in the text (`linear::MOST_TERMS` and beside it).
    #[error("too many terms, variables or constraints")]
    TooMany,
    /// A growth was refused.
    #[error("out of memory")]
    OutOfMemory,
}

/// A fault of a problem file: its line, counted from 1, and what it is.
#[derive(Clone, Copy, Debug, PartialEq, Eq, Error)]
#[error("line {line}: {code}")]
pub struct OpbFault {
    pub line: u64,
    pub code: OpbCode,
}

impl OpbCode {
    ghost use Rattle.opb_read.specs.Faults.{number_of, name_of_code};

    /// The code's number, from 1 to 9.
    pub fn number(self) -> u8
        ensures { result ≡ number_of self }
    {
        match self {
            OpbCode::BadToken => 1,
            OpbCode::NoRelation => 2,
            OpbCode::NoSemicolon => 3,
            OpbCode::BadName => 4,
            OpbCode::ObjectiveLate => 5,
            OpbCode::UnsupportedForm => 6,
            OpbCode::IntegerTooLarge => 7,
            OpbCode::TooMany => 8,
            OpbCode::OutOfMemory => 9,
        }
    }

    /// The code's name.
    pub fn name(self) -> &'static str
        ensures { result.now ≡ name_of_code self }
    {
        match self {
            OpbCode::BadToken => "BadToken",
            OpbCode::NoRelation => "NoRelation",
            OpbCode::NoSemicolon => "NoSemicolon",
            OpbCode::BadName => "BadName",
            OpbCode::ObjectiveLate => "ObjectiveLate",
            OpbCode::UnsupportedForm => "UnsupportedForm",
            OpbCode::IntegerTooLarge => "IntegerTooLarge",
            OpbCode::TooMany => "TooMany",
            OpbCode::OutOfMemory => "OutOfMemory",
        }
    }
}

impl OpbFault {
    ghost use Rattle.opb_read.specs.Faults.{name_of_code};

    /// The code's name.
    pub fn name(&self) -> &'static str
        ensures { result.now ≡ name_of_code self.now.code }
    {
        self.code.name()
    }
}
