//! Why a walk ends without a constraint.

use normal_form::CutFault;
use std::alloc::{AllocError, AllocFailed};

/// Why nothing is learned: a growth was refused, or else a number grew too large, the trail is none of a search, or no level is to
/// be had.
#[derive(Debug, Drop)]
pub(crate) enum Stop {
    OutOfMemory,
    NothingLearned,
}

impl From<AllocError> for Stop {
    ghost use Rattle.std.specs.Prelude.{◌≡◌};
    ghost use Rattle.analysis.specs.declared.stop.Stop.TheVariants.{OutOfMemory};

    ghost from_gives = { λ _ stop. stop ≡ OutOfMemory };

    fn from(_e: AllocError) -> Stop {
        Stop::OutOfMemory
    }
}

impl<T: Drop> From<AllocFailed<T>> for Stop {
    ghost use Rattle.std.specs.Prelude.{◌≡◌};
    ghost use Rattle.analysis.specs.declared.stop.Stop.TheVariants.{OutOfMemory};

    ghost from_gives = { λ _ stop. stop ≡ OutOfMemory };

    fn from(_e: AllocFailed<T>) -> Stop {
        Stop::OutOfMemory
    }
}

impl From<CutFault> for Stop {
    fn from(fault: CutFault) -> Stop {
        match fault {
            CutFault::OutOfMemory => Stop::OutOfMemory,
            CutFault::TooLarge | CutFault::BadFactor => Stop::NothingLearned,
        }
    }
}
