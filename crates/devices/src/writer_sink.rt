//! A sink over what is written to: a file, or standard output.

ghost use Rattle.std.specs.Prelude.{◌≡◌, ◌<◌, ◌≤◌, IfOk, length};

use pb_text::{DeviceFault, Sink};
use std::io;
use std::io::{Error, ErrorKind, Write};

/// What a writer takes, and what the last failure was.
#[derive(Drop)]
pub struct WriterSink<W: Write + Drop> {
    writer: W,
    failures: u64,
    error: Option<Error>,
}

/// One write of the front of a piece, once more where a signal interrupts it. That nothing of a piece is taken is a failure.
fn write_some<W: Write>(writer: &mut W, piece: &[u8]) -> io::Result<usize>
    ensures fits { IfOk result (λ count. count ≤ length piece.now) }
    ensures some { IfOk result (λ count. 0 < length piece.now → 0 < count) }
{
    for _ in 0..u64::MAX {
        match writer.write(piece) {
            Ok(count) => {
                if count == 0 && !piece.is_empty() {
                    return Err(Error::from(ErrorKind::WriteZero));
                }
                return Ok(count);
            }
            Err(error) => {
                if error.kind() != ErrorKind::Interrupted {
                    return Err(error);
                }
            }
        }
    }
    Err(Error::from(ErrorKind::Interrupted))
}

impl<W: Write + Drop> WriterSink<W> {
    /// All that is pushed goes to a writer.
    pub fn new(writer: W) -> Self
        ensures { result.failures ≡ 0 }
    {
        WriterSink {
            writer,
            failures: 0,
            error: None,
        }
    }

    /// Why the last push that failed did so; none where none has failed.
    pub fn into_error(self) -> Option<Error>
        ensures { result ≡ self.error }
    {
        self.error
    }
}

impl<W: Write + Drop> Sink for WriterSink<W> {
    ghost use Rattle.std.specs.Prelude.{None};

    ghost state = { λ sink. record { taken = None; failures = sink.failures } };

    fn push(&mut self, piece: &[u8]) -> Result<usize, DeviceFault> {
        match write_some(&mut self.writer, piece) {
            Ok(count) => Ok(count),
            Err(error) => {
                self.failures += 1;
                self.error = Some(error);
                Err(DeviceFault)
            }
        }
    }

    fn failures(&self) -> u64 {
        self.failures
    }
}
