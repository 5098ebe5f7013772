//! Why a normal constraint is not made.

use std::alloc::{AllocError, AllocFailed};
use thiserror::Error;

/// Why a rule of cutting planes gives no constraint.
#[derive(Debug, Drop, PartialEq, Eq, Error)]
pub enum CutFault {
    /// The coefficient sum or the degree of the result is above `2^120`, or the sizes of a written
    /// constraint's coefficients add up to more.
    #[error("a coefficient sum or a degree is above 2^120")]
    TooLarge,
    /// A factor is below 1.
    #[error("a factor is below 1")]
    BadFactor,
    /// A growth was refused.
    #[error("out of memory")]
    OutOfMemory,
}

impl From<AllocError> for CutFault {
    ghost use Rattle.std.specs.Prelude.{◌≡◌};
    ghost use Rattle.normal_form.specs.declared.fault.CutFault.TheVariants.{OutOfMemory};

    ghost from_gives = { λ _ e. e ≡ OutOfMemory };

    fn from(_e: AllocError) -> CutFault {
        CutFault::OutOfMemory
    }
}

impl<T: Drop> From<AllocFailed<T>> for CutFault {
    ghost use Rattle.std.specs.Prelude.{◌≡◌};
    ghost use Rattle.normal_form.specs.declared.fault.CutFault.TheVariants.{OutOfMemory};

    ghost from_gives = { λ _ e. e ≡ OutOfMemory };

    fn from(_e: AllocFailed<T>) -> CutFault {
        CutFault::OutOfMemory
    }
}
