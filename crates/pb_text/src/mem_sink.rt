//! A sink into memory, for tests: it takes pieces as it is told, and fails where it is full, or once when it is told to. Its
//! room is taken when it is made, so that it never asks for memory later.

ghost use Rattle.std.specs.Prelude.{◌≡◌, ◌≤◌};
ghost use Rattle.std.specs.Vec.{vec_len, vec_capacity};

use super::sink::Sink;
use super::source::DeviceFault;
use std::alloc::{AllocError, Global};

/// Room for so many bytes, filled from its front on.
#[derive(Drop)]
pub struct MemSink {
    taken: Vec<u8>,
    room: usize,
    /// The most bytes that it takes at once, at least one.
    portion: usize,
    /// How many pushes come before the one that fails; `None` where none fails.
    before_failure: Option<u64>,
    failures: u64,
    ghost held: { room ≤ vec_capacity taken },
    ghost inside: { vec_len taken ≤ room },
}

impl MemSink {
    ghost use Rattle.std.specs.Prelude.{◌+◌, ◌<◌, ◌≢◌, ◌↔◌, ◌⊎◌, ◌-◌, ◌++◌, [], min, max, take, length, Some, None, IfOk, IsErr, OnErr, OnOk};
    ghost use Rattle.pb_text.specs.Devices.{one_less};

    /// An empty sink with this room; the push of this number fails, counted from 0 on. `AllocError` where there is no
    /// memory for the room.
    pub fn new(
        alloc: Global,
        room: usize,
        portion: usize,
        failing: Option<u64>,
    ) -> Result<Self, AllocError>
        ensures taken { IfOk result (λ sink. sink.taken.items ≡ []) }
        ensures room { IfOk result (λ sink. sink.room ≡ room) }
        ensures portion { IfOk result (λ sink. sink.portion ≡ portion) }
        ensures before_failure { IfOk result (λ sink. sink.before_failure ≡ failing) }
        ensures failures { IfOk result (λ sink. sink.failures ≡ 0) }
    {
        let taken = Vec::with_capacity(alloc, room)?;
        Ok(MemSink {
            taken,
            room,
            portion,
            before_failure: failing,
            failures: 0,
        })
    }

    /// The bytes that it has taken.
    pub fn taken(&self) -> &[u8]
        ensures { result.now ≡ self.now.taken.items }
    {
        self.taken.as_slice()
    }

    /// How many bytes of a piece it takes next.
    fn size(&self, piece: &[u8]) -> usize
        ensures { result ≡ min (min (max self.now.portion 1) (length piece.now)) (self.now.room - vec_len self.now.taken) }
    {
        self.portion
            .max(1)
            .min(piece.len())
            .min(self.room - self.taken.len())
    }

    /// Takes bytes from the front of a piece, and says how many: a portion, or fewer where room or piece ends. It fails
    /// exactly where it is full, and where it was told to, and then not again for that.
    pub fn take_from(&mut self, piece: &[u8]) -> Result<usize, DeviceFault>
        requires { self.old.failures < u64.MAX }
        ensures fails { IsErr result ↔ ((self.old.before_failure ≡ Some 0) ⊎ (0 < length piece.now × self.old.room ≡ vec_len self.old.taken)) }
        ensures count { IfOk result (λ count. count ≡ min (min (max self.old.portion 1) (length piece.now)) (self.old.room - vec_len self.old.taken)) }
        ensures taken { IfOk result (λ count. self.new.taken.items ≡ self.old.taken.items ++ take count piece.now) }
        ensures before_failure { OnOk result (self.new.before_failure ≡ one_less self.old.before_failure) }
        ensures once { OnErr result (self.old.before_failure ≡ Some 0 → self.new.before_failure ≡ None) }
        ensures full { OnErr result (self.old.before_failure ≢ Some 0 → self.new.before_failure ≡ self.old.before_failure) }
        ensures ok { OnOk result (self.new.failures ≡ self.old.failures) }
        ensures failed { OnErr result (self.new.failures ≡ self.old.failures + 1) }
        ensures nothing { OnErr result (self.new.taken ≡ self.old.taken) }
        ensures room { self.new.room ≡ self.old.room }
        ensures portion { self.new.portion ≡ self.old.portion }
    {
        if self.before_failure == Some(0) {
            self.before_failure = None;
            self.failures += 1;
            return Err(DeviceFault);
        }
        let size = self.size(piece);
        if size == 0 && !piece.is_empty() {
            self.failures += 1;
            return Err(DeviceFault);
        }
        self.before_failure = self.before_failure.map(|pushes| pushes - 1);
        match self.taken.extend_from_slice(&piece[..size]) {
            Ok(()) => Ok(size),
            Err(_) => unreachable!(),
        }
    }
}

impl Sink for MemSink {
    ghost use Rattle.std.specs.Prelude.{Some};

    ghost state = { λ sink. record { taken = Some sink.taken.items; failures = sink.failures } };

    fn push(&mut self, piece: &[u8]) -> Result<usize, DeviceFault> {
        self.take_from(piece)
    }

    fn failures(&self) -> u64 {
        self.failures
    }
}
