//! What the checker answers.

ghost use Rattle.std.specs.Prelude.{◌≡◌};
ghost use Rattle.checker.specs.Printed.{status_of};

use kernel::Accepted;
use opb_read::OpbFault;
use proof_rules::StepFault;
use proof_text::ProofFault;

/// Why a line of a proof is refused: it is not read, or its step or conclusion is not accepted.
#[derive(Clone, Copy, Debug, PartialEq, Eq)]
pub enum Code {
    Reading(ProofFault),
    Judging(StepFault),
}

impl Code {
    ghost use Rattle.std.specs.Prelude.{◌≡◌};
    ghost use Rattle.checker.specs.Printed.{number_of, name_of};

    /// The number that is printed.
    pub fn number(self) -> u8
        ensures { result ≡ number_of self }
    {
        match self {
            Code::Reading(fault) => fault.number(),
            Code::Judging(fault) => fault.number(),
        }
    }

    /// The name that is printed.
    pub fn name(self) -> &'static str
        ensures { result.now ≡ name_of self }
    {
        match self {
            Code::Reading(fault) => fault.name(),
            Code::Judging(fault) => fault.name(),
        }
    }
}

/// The verdict about a proof of a problem.
#[derive(Debug, Drop)]
pub enum Verdict {
    /// The proof is accepted, with this conclusion.
    Accepted(Accepted),
    /// The proof is refused at a line.
    Refused { line: u64, code: Code },
    /// The problem is not read.
    BadProblem(OpbFault),
    /// A growth was refused.
    NoMemory,
}

/// The exit status that stands for a verdict: 0 accepted, 1 refused, 2 bad problem, 4 out of memory.
pub fn verdict_status(verdict: &Verdict) -> u8
    ensures { result ≡ status_of verdict.now }
{
    match verdict {
        Verdict::Accepted(_) => 0,
        Verdict::Refused { line: _, code: _ } => 1,
        Verdict::BadProblem(_) => 2,
        Verdict::NoMemory => 4,
    }
}
