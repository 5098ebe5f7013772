//! A source over a text in memory, for tests: it gives the text in pieces as it is told, and fails once when it is told to.

ghost use Rattle.std.specs.Prelude.{◌≡◌, ◌≤◌, length};
ghost use Rattle.pb_text.specs.Devices.{line_length};

use super::source::{DeviceFault, Source};

/// How much a source over memory gives at once, where there is room for it.
#[derive(Clone, Copy, Debug, PartialEq, Eq)]
pub enum Portion {
    /// All that is left.
    All,
    /// So many bytes, at least one.
    Bytes(usize),
    /// A line, its LF included.
    Line,
}

/// A text that is given from its front on.
#[derive(Clone, Copy)]
pub struct MemSource<'a> {
    text: &'a [u8],
    /// How many bytes of the text have been given.
    given: usize,
    portion: Portion,
    /// How many pulls come before the one that fails; `None` where none fails.
    before_failure: Option<u64>,
    failures: u64,
    ghost inside: { given ≤ length text.now },
}

/// How many bytes the first line of a text has, its LF included.
fn first_line(text: &[u8]) -> usize
    ensures { result ≡ line_length text.now }
{
    let mut rest = text;
    while let [byte, more @ ..] = rest {
        if *byte == b'\n' {
            return text.len() - more.len();
        }
        rest = more;
    }
    text.len()
}

impl Portion {
    ghost use Rattle.pb_text.specs.Devices.{portion_of};
    ghost use Rattle.std.specs.Prelude.{min};

    /// How many of the bytes that are left are given at once, where there is room for so many.
    fn size(self, left: &[u8], room: usize) -> usize
        ensures { result ≡ min (min (portion_of self left.now) room) (length left.now) }
    {
        let portion = match self {
            Portion::All => left.len(),
            Portion::Bytes(most) => most.max(1),
            Portion::Line => first_line(left),
        };
        portion.min(room).min(left.len())
    }
}

impl<'a> MemSource<'a> {
    ghost use Rattle.std.specs.Prelude.{◌+◌, ◌<◌, min, drop, take, Some, None, IfOk, IsErr, OnErr, OnOk, ◌↔◌};
    ghost use Rattle.pb_text.specs.Devices.{portion_of, one_less};

    /// The whole of a text, given in portions; the pull of this number fails, counted from 0 on.
    pub fn new(text: &'a [u8], portion: Portion, failing: Option<u64>) -> Self
        ensures text { result.text.now ≡ text.now }
        ensures given { result.given ≡ 0 }
        ensures portion { result.portion ≡ portion }
        ensures before_failure { result.before_failure ≡ failing }
        ensures failures { result.failures ≡ 0 }
    {
        MemSource {
            text,
            given: 0,
            portion,
            before_failure: failing,
            failures: 0,
        }
    }

    /// The bytes that have been given.
    pub fn given(&self) -> &'a [u8]
        ensures { result.now ≡ take self.now.given self.now.text.now }
    {
        &self.text[..self.given]
    }

    /// The next bytes, at most so many: a portion, or fewer where room or text ends. It fails exactly where it was told
    /// to, and then not again.
    pub fn piece(&mut self, room: usize) -> Result<&'a [u8], DeviceFault>
        requires { self.old.failures < u64.MAX }
        ensures fails { IsErr result ↔ self.old.before_failure ≡ Some 0 }
        ensures piece { IfOk result (λ piece. piece.now ≡ take (min (portion_of self.old.portion (drop self.old.given self.old.text.now)) room) (drop self.old.given self.old.text.now)) }
        ensures given { IfOk result (λ piece. self.new.given ≡ self.old.given + length piece.now) }
        ensures before_failure { OnOk result (self.new.before_failure ≡ one_less self.old.before_failure) }
        ensures ok { OnOk result (self.new.failures ≡ self.old.failures) }
        ensures nothing { OnErr result (self.new.given ≡ self.old.given) }
        ensures once { OnErr result (self.new.before_failure ≡ None) }
        ensures failed { OnErr result (self.new.failures ≡ self.old.failures + 1) }
        ensures text { self.new.text ≡ self.old.text }
        ensures portion { self.new.portion ≡ self.old.portion }
    {
        if self.before_failure == Some(0) {
            self.before_failure = None;
            self.failures += 1;
            return Err(DeviceFault);
        }
        let left = &self.text[self.given..];
        let size = self.portion.size(left, room);
        self.given += size;
        self.before_failure = self.before_failure.map(|pulls| pulls - 1);
        Ok(&left[..size])
    }
}

impl<'a> Source for MemSource<'a> {
    ghost use Rattle.std.specs.Prelude.{◌-◌, ◌==◌, Some, length, take};

    ghost state = { λ source. record {
      given = Some (take source.given source.text.now);
      left = length source.text.now - source.given;
      at_end = source.given == length source.text.now;
      failures = source.failures;
    } };

    fn pull(&mut self, buffer: &mut [u8]) -> Result<usize, DeviceFault> {
        let piece = self.piece(buffer.len())?;
        buffer[..piece.len()].copy_from_slice(piece);
        Ok(piece.len())
    }

    fn left(&self) -> u64 {
        (self.text.len() - self.given) as u64
    }

    fn failures(&self) -> u64 {
        self.failures
    }
}
