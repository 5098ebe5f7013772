//! Numbers in 32 bits.
//!
//! Propagation reads places and the beginnings of lists more than anything else, so they take four bytes each. Where there are more than
//! 2^32 of them memory counts as used up.

ghost use Rattle.std.specs.Prelude.{◌≡◌, IfOk};

use std::alloc::AllocError;

/// A number in 32 bits, where it fits.
#[inline(always)]
pub(crate) fn narrow(number: usize) -> Result<u32, AllocError>
    ensures { IfOk result (λ n. n ≡ number) }
{
    match u32::try_from(number) {
        Ok(number) => Ok(number),
        Err(_) => Err(AllocError),
    }
}
