//! Where bytes go, piece by piece.
//!
//! A device may take less than it is offered, so whoever writes to one offers the rest again. What a sink has taken is known
//! where the sink tells it, as one over memory does; of a file it is not.

ghost use Rattle.std.specs.Prelude.{◌≡◌, ◌<◌, ◌≤◌, IfOk, OnErr, length, take};
ghost use Rattle.pb_text.specs.Devices.{FailsToTake, SinkState, Takes};

use super::source::DeviceFault;

/// Something that takes bytes in order.
pub trait Sink {
    /// The bytes that it has taken, and how many pushes have failed.
    ghost state: { Self → SinkState };

    /// Takes bytes from the front of a piece, and says how many: at least 1, where the piece is not empty. A push that
    /// fails takes none, and is counted.
    fn push(&mut self, piece: &[u8]) -> Result<usize, DeviceFault>
        requires { (state self.old).failures < u64.MAX }
        ensures fits { IfOk result (λ count. count ≤ length piece.now) }
        ensures takes { IfOk result (λ count. Takes (state self.old) (state self.new) piece.now (take count piece.now)) }
        ensures fails { OnErr result (FailsToTake (state self.old) (state self.new)) };

    /// How many pushes have failed.
    fn failures(&self) -> u64
        ensures { result ≡ (state self.now).failures };
}
