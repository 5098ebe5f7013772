//! Why a line of a proof is refused. The numbers are printed and stay: programs compare them.

ghost use Rattle.std.specs.Prelude.{◌≡◌};
ghost use Rattle.proof_text.specs.Faults.{number_of, name_of_fault};
ghost use Rattle.proof_text.specs.declared.fault.ProofFault.TheVariants.{OutOfMemory};

use std::alloc::{AllocError, AllocFailed};
use thiserror::Error;

/// Why a line is not read. Each has a number that programs print.
#[derive(Clone, Copy, Debug, PartialEq, Eq, Error)]
pub enum ProofFault {
    /// The first line that counts is not the header.
    #[error("bad header")]
    BadHeader,
    /// The second line that counts does not give the number of the file's constraints.
    #[error("bad count")]
    BadCount,
    /// The first word of a step's line is no rule of the format.
    #[error("unknown rule")]
    UnknownRule,
    /// A rule, an output or a relation that is left out of this profile.
    #[error("rule left out")]
    RuleLeftOut,
    /// Any other line that is not in the grammar of its section.
    #[error("bad line")]
    BadLine,
    /// The text ends where a further line is due.
    #[error("truncated")]
    Truncated,
    /// A line that counts stands after the end line.
    #[error("text after end")]
    TextAfterEnd,
    /// An integer is above 2^120 in size.
    #[error("integer too large")]
    IntegerTooLarge,
    /// A growth was refused.
    #[error("out of memory")]
    OutOfMemory,
    /// A new name would need the number 2^32.
    #[error("too many ids")]
    TooManyIds,
}

/// What a part of a line says, or the fault of the line.
pub(crate) type Reading<T> = Result<T, ProofFault>;

impl ProofFault {
    /// The number that stands for the fault in printed verdicts.
    pub fn number(self) -> u8
        ensures { result ≡ number_of self }
    {
        match self {
            ProofFault::BadHeader => 1,
            ProofFault::BadCount => 2,
            ProofFault::UnknownRule => 3,
            ProofFault::RuleLeftOut => 4,
            ProofFault::BadLine => 5,
            ProofFault::Truncated => 6,
            ProofFault::TextAfterEnd => 7,
            ProofFault::IntegerTooLarge => 8,
            ProofFault::OutOfMemory => 9,
            ProofFault::TooManyIds => 29,
        }
    }

    /// The name that stands beside the number.
    pub fn name(self) -> &'static str
        ensures { result.now ≡ name_of_fault self }
    {
        match self {
            ProofFault::BadHeader => "BadHeader",
            ProofFault::BadCount => "BadCount",
            ProofFault::UnknownRule => "UnknownRule",
            ProofFault::RuleLeftOut => "RuleLeftOut",
            ProofFault::BadLine => "BadLine",
            ProofFault::Truncated => "Truncated",
            ProofFault::TextAfterEnd => "TextAfterEnd",
            ProofFault::IntegerTooLarge => "IntegerTooLarge",
            ProofFault::OutOfMemory => "OutOfMemory",
            ProofFault::TooManyIds => "TooManyIds",
        }
    }
}

impl From<AllocError> for ProofFault {
    ghost from_gives = { λ _ e. e ≡ OutOfMemory };

    fn from(_e: AllocError) -> ProofFault {
        ProofFault::OutOfMemory
    }
}

impl<T: Drop> From<AllocFailed<T>> for ProofFault {
    ghost from_gives = { λ _ e. e ≡ OutOfMemory };

    fn from(_e: AllocFailed<T>) -> ProofFault {
        ProofFault::OutOfMemory
    }
}
