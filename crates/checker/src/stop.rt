//! Why judging stops before the end. Running out of memory is no refusal: it is parted from the faults here, once,
//! where a fault becomes a stop, so that nobody has to turn it back later.

ghost use Rattle.std.specs.Prelude.{◌≡◌};
ghost use Rattle.checker.specs.StopsBy.{reading_stop, judging_stop};

use super::verdict::Code;
use proof_rules::StepFault;
use proof_text::ProofFault;
use std::alloc::AllocError;

/// Why judging stops: at a line, or out of memory, apart from any line.
#[derive(Clone, Copy, Debug)]
pub(crate) enum Stop {
    At(u64, Code),
    NoMemory,
}

impl From<AllocError> for Stop {
    ghost use Rattle.std.specs.Prelude.{◌≡◌};
    ghost use Rattle.checker.specs.declared.stop.Stop.TheVariants.{NoMemory};

    ghost from_gives = { λ _ e. e ≡ NoMemory };

    fn from(_e: AllocError) -> Stop {
        Stop::NoMemory
    }
}

/// The stop at a line that is not read.
pub(crate) fn reading(number: u64, fault: ProofFault) -> Stop
    ensures { result ≡ reading_stop number fault }
{
    match fault {
        ProofFault::OutOfMemory => Stop::NoMemory,
        fault => Stop::At(number, Code::Reading(fault)),
    }
}

/// The stop at a line whose step or conclusion has a fault.
pub(crate) fn judging(number: u64, fault: StepFault) -> Stop
    ensures { result ≡ judging_stop number fault }
{
    match fault {
        StepFault::OutOfMemory => Stop::NoMemory,
        fault => Stop::At(number, Code::Judging(fault)),
    }
}
