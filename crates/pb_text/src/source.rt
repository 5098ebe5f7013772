//! Where bytes come from, piece by piece.
//!
//! A proof may be larger than the memory, so it is read from a source and never held as a whole. What a source has given is
//! known where the source tells it, as one over memory does; of a file it is not. A bound on what is still to come is asked
//! of every source, so that whoever reads one to its end comes to an end.

ghost use Rattle.std.specs.Prelude.{◌≡◌, ◌<◌, ◌≤◌, IfOk, OnErr, length, take};
ghost use Rattle.pb_text.specs.Devices.{FailsToGive, Gives, SourceState};

/// A device did not do what it was asked for.
#[derive(Clone, Copy, Debug, PartialEq, Eq)]
pub struct DeviceFault;

/// Bytes in order, from their first one to their last.
pub trait Source {
    /// The bytes that it has given, how many are left at most, whether it is at its end, how many pulls have failed.
    ghost state: { Self → SourceState };

    /// Moves the next bytes to the front of a buffer, and says how many these are: 0 only at the end, or for an empty
    /// buffer. A pull that fails moves none, and is counted.
    fn pull(&mut self, buffer: &mut [u8]) -> Result<usize, DeviceFault>
        requires { (state self.old).failures < u64.MAX }
        ensures fits { IfOk result (λ count. count ≤ length buffer.old) }
        ensures gives { IfOk result (λ count. Gives (state self.old) (state self.new) (length buffer.old) (take count buffer.new)) }
        ensures fails { OnErr result (FailsToGive (state self.old) (state self.new)) };

    /// The most bytes that it still gives: fewer than the greatest number, so that the lines of what it gives can be
    /// numbered from 1.
    fn left(&self) -> u64
        ensures told { result ≡ (state self.now).left }
        ensures numbered { result < u64.MAX };

    /// How many pulls have failed.
    fn failures(&self) -> u64
        ensures { result ≡ (state self.now).failures };
}
