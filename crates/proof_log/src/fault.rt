//! What a kernel's fault means to whoever logs steps that are known to be legal: memory ran out. Each step that a search takes is legal and can be written, and each of its conclusions is accepted,
//! so the kernel refuses none of them but for want of memory.

ghost use Rattle.std.specs.Prelude.{◌≡◌};

use proof_rules::StepFault;
use std::alloc::AllocError;

/// Want of memory, where the kernel refuses nothing else.
pub fn want_of_memory(fault: StepFault) -> AllocError
    requires { fault ≡ StepFault.OutOfMemory }
{
    match fault {
        StepFault::OutOfMemory => AllocError,
        _ => unreachable!(),
    }
}
