//! A source over what is read: a file, or standard input.
//!
//! A reader may give bytes for ever, and a source may not. So there is a most that is read: far more than any proof has, and
//! what gives more fails.

ghost use Rattle.std.specs.Prelude.{◌≡◌, ◌≤◌, ◌^◌, IfOk, length};

use pb_text::{DeviceFault, Source};
use std::io;
use std::io::{Error, ErrorKind, Read};

/// The most bytes that are read from one reader.
pub const LARGEST_INPUT: u64 = 1 << 40;

/// What a reader gives, at most `LARGEST_INPUT` bytes of it, and what the last failure was.
#[derive(Drop)]
pub struct ReaderSource<R: Read + Drop> {
    reader: R,
    left: u64,
    at_end: bool,
    failures: u64,
    error: Option<Error>,
    ghost bounded: { left ≤ 2 ^ 40 },
}

/// One read into a buffer, once more where a signal interrupts it.
fn read_some<R: Read>(reader: &mut R, buffer: &mut [u8]) -> io::Result<usize>
    ensures { IfOk result (λ count. count ≤ length buffer.new) }
{
    for _ in 0..u64::MAX {
        match reader.read(buffer) {
            Ok(count) => return Ok(count),
            Err(error) => {
                if error.kind() != ErrorKind::Interrupted {
                    return Err(error);
                }
            }
        }
    }
    Err(Error::from(ErrorKind::Interrupted))
}

impl<R: Read + Drop> ReaderSource<R> {
    /// All that a reader gives from here on.
    pub fn new(reader: R) -> Self
        ensures left { result.left ≡ LARGEST_INPUT }
        ensures failures { result.failures ≡ 0 }
    {
        ReaderSource {
            reader,
            left: LARGEST_INPUT,
            at_end: false,
            failures: 0,
            error: None,
        }
    }

    /// Why the last pull that failed did so; none where none has failed.
    pub fn into_error(self) -> Option<Error>
        ensures { result ≡ self.error }
    {
        self.error
    }

    /// Reads into the front of a buffer, as many bytes as may still come.
    fn read(&mut self, buffer: &mut [u8]) -> io::Result<usize>
        ensures count { IfOk result (λ count. count ≤ length buffer.old) }
        ensures left { IfOk result (λ count. count ≤ self.old.left) }
        ensures same_left { self.new.left ≡ self.old.left }
        ensures same_failures { self.new.failures ≡ self.old.failures }
    {
        let mut more = [0];
        if self.left == 0 && read_some(&mut self.reader, &mut more)? != 0 {
            return Err(Error::from(ErrorKind::FileTooLarge));
        }
        let room = self.left.min(buffer.len() as u64) as usize;
        read_some(&mut self.reader, &mut buffer[..room])
    }
}

impl<R: Read + Drop> Source for ReaderSource<R> {
    ghost use Rattle.std.specs.Prelude.{None};

    ghost state = { λ source. record { given = None; left = source.left; at_end = source.at_end; failures = source.failures } };

    fn pull(&mut self, buffer: &mut [u8]) -> Result<usize, DeviceFault> {
        match self.read(buffer) {
            Ok(count) => {
                self.left -= count as u64;
                self.at_end = count == 0;
                Ok(count)
            }
            Err(error) => {
                self.failures += 1;
                self.error = Some(error);
                Err(DeviceFault)
            }
        }
    }

    fn left(&self) -> u64 {
        self.left
    }

    fn failures(&self) -> u64 {
        self.failures
    }
}
