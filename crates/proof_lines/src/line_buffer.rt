//! The lines of a proof that comes from a source in pieces.
//!
//! Held are the line that is lent and what came behind it, and no more, so a proof may be longer than the memory. A piece is
//! asked for only while no whole line is here, so that a line can be judged as soon as it has come. How much of a line is
//! known to have no LF is kept, and what is held is moved only behind a line that was taken: so a long line is neither
//! searched nor moved again with each piece.

ghost use Rattle.std.specs.Prelude.{◌≡◌, ◌≤◌, true, length, take};
ghost use Rattle.proof_lines.specs.Lines.{has_no_break};
ghost use Rattle.proof_lines.specs.Buffered.{IsFirstLine};

use super::numbered_lines::{NumberedLine, counts};
use memchr::memchr;
use pb_text::{DeviceFault, Source};
use std::alloc::{AllocError, Global};
use std::marker::Model;

/// The most bytes that are asked for at once.
const PIECE: usize = 4096;

/// Why no line comes.
#[derive(Clone, Copy, Debug, PartialEq, Eq)]
pub enum LineFault {
    /// The source failed.
    ReadFailed,
    /// A growth was refused.
    OutOfMemory,
}

impl From<AllocError> for LineFault {
    ghost use Rattle.std.specs.Prelude.{◌≡◌};
    ghost use Rattle.proof_lines.specs.declared.line_buffer.LineFault.TheVariants.{OutOfMemory};

    ghost from_gives = { λ _ e. e ≡ OutOfMemory };

    fn from(_e: AllocError) -> LineFault {
        LineFault::OutOfMemory
    }
}

impl From<DeviceFault> for LineFault {
    ghost use Rattle.std.specs.Prelude.{◌≡◌};
    ghost use Rattle.proof_lines.specs.declared.line_buffer.LineFault.TheVariants.{ReadFailed};

    ghost from_gives = { λ _ e. e ≡ ReadFailed };

    fn from(_e: DeviceFault) -> LineFault {
        LineFault::ReadFailed
    }
}

/// How long the first line of a text is, of which so much is known to have no LF.
fn first_line(text: &[u8], known: usize) -> usize
    requires inside { known ≤ length text.now }
    requires unbroken { has_no_break (take known text.now) ≡ true }
    ensures { IsFirstLine text.now result }
{
    match memchr(b'\n', &text[known..]) {
        None => text.len(),
        Some(more) => known + more,
    }
}

/// What came from a source and is not passed yet.
#[derive(Drop)]
pub struct LineBuffer {
    allocator: Global,
    bytes: Vec<u8>,
    /// Where the line that is lent begins, and how long it is.
    start: usize,
    size: usize,
    line_number: u64,
    /// Where the next line begins, and how much of it is known to have no LF.
    next: usize,
    known: usize,
    number: u64,
    /// Whether the source was seen to end.
    ended: bool,
}

impl Model for LineBuffer {
    ghost use Rattle.std.specs.Prelude.{drop, take};
    ghost use Rattle.proof_lines.specs.Buffered.{Buffered, IsHeld};

    ghost Value = { Buffered };

    ghost view = { λ b. record {
      line_number = b.line_number;
      text = take b.size (drop b.start b.bytes.items);
      number = b.number;
      bytes = drop b.next b.bytes.items;
      ended = b.ended;
    } };

    ghost invariant = { λ b. IsHeld b.bytes.items b.start b.size b.next b.known };
}

impl LineBuffer {
    ghost use Rattle.std.specs.Prelude.{◌≡◌, ◌+◌, ◌<◌, ◌⊎◌, ◌^◌, ◌++◌, [], false, true, IfOk, OnOk, length};
    ghost use Rattle.std.specs.Result.{IsErrOf};
    ghost use Rattle.proof_lines.specs.Buffered.{lent, Comes, Fills, Finds, IsEmptied, IsReady, TakesLine};
    ghost use Rattle.proof_lines.specs.LinesAhead.{numbered_of};

    /// Nothing has come yet; the first line has the number 1.
    pub fn new(alloc: Global) -> Self
        ensures number { result.number ≡ 1 }
        ensures bytes { result.bytes ≡ [] }
        ensures ended { result.ended ≡ false }
    {
        LineBuffer {
            allocator: alloc,
            bytes: Vec::new(alloc),
            start: 0,
            size: 0,
            line_number: 0,
            next: 0,
            known: 0,
            number: 1,
            ended: false,
        }
    }

    /// Moves to the next line that counts, pulling what is needed for it; no such line is left where this is false.
    ///
    /// `ReadFailed` where the source fails, `OutOfMemory` where a growth is refused, and then the source has not failed; behind either
    /// nothing is said of what is held.
    pub fn advance<S: Source>(&mut self, source: &mut S) -> Result<bool, LineFault>
        requires failures { (S.state source.old).failures < u64.MAX }
        requires room { self.old.number + length self.old.bytes + (S.state source.old).left < 2 ^ 64 }
        ensures comes { IfOk result (λ yes. Comes yes self.old self.new (S.state source.old) (S.state source.new)) }
        ensures failed { IsErrOf result LineFault.ReadFailed → (S.state source.new).failures ≡ (S.state source.old).failures + 1 }
        ensures memory { IsErrOf result LineFault.OutOfMemory → (S.state source.new).failures ≡ (S.state source.old).failures }
    {
        while self.find(source)? {
            if counts(self.text()) {
                return Ok(true);
            }
        }
        Ok(false)
    }

    /// The line to which it moved, with its number.
    pub fn line(&self) -> NumberedLine<'_>
        ensures { numbered_of result ≡ lent self.now }
    {
        NumberedLine {
            number: self.line_number,
            text: self.text(),
        }
    }

    /// The number of the line behind that one; where none is left, of the line on which the text ends.
    pub fn number(&self) -> u64
        ensures { result ≡ self.now.number }
    {
        self.number
    }

    /// The bytes of the line that is lent.
    fn text(&self) -> &[u8]
        ensures { result.now ≡ self.now.text }
    {
        &self.bytes[self.start..self.start + self.size]
    }

    /// Moves to the next line, whether it counts or not.
    fn find<S: Source>(&mut self, source: &mut S) -> Result<bool, LineFault>
        requires failures { (S.state source.old).failures < u64.MAX }
        requires room { self.old.number + length self.old.bytes + (S.state source.old).left < 2 ^ 64 }
        ensures finds { IfOk result (λ yes. Finds yes self.old self.new (S.state source.old) (S.state source.new)) }
        ensures failed { IsErrOf result LineFault.ReadFailed → (S.state source.new).failures ≡ (S.state source.old).failures + 1 }
        ensures memory { IsErrOf result LineFault.OutOfMemory → (S.state source.new).failures ≡ (S.state source.old).failures }
    {
        self.complete(source)?;
        Ok(self.take_line())
    }

    /// Pulls until the next line is here with its LF, or the source has ended.
    fn complete<S: Source>(&mut self, source: &mut S) -> Result<(), LineFault>
        requires failures { (S.state source.old).failures < u64.MAX }
        ensures fills { OnOk result (Fills self.old self.new (S.state source.old) (S.state source.new)) }
        ensures ready { OnOk result (IsReady self.new) }
        ensures failed { IsErrOf result LineFault.ReadFailed → (S.state source.new).failures ≡ (S.state source.old).failures + 1 }
        ensures memory { IsErrOf result LineFault.OutOfMemory → (S.state source.new).failures ≡ (S.state source.old).failures }
    {
        while !self.is_ready() {
            self.fill(source)?;
        }
        Ok(())
    }

    /// Whether the next line is here as a whole, or no more of it comes.
    fn is_ready(&self) -> bool
        ensures ready { result ≡ true → IsReady self.now }
        ensures going { result ≡ false → self.now.ended ≡ false }
    {
        self.ended || self.known < self.bytes.len() - self.next
    }

    /// Pulls one piece; where the source gives nothing, it has ended.
    fn fill<S: Source>(&mut self, source: &mut S) -> Result<(), LineFault>
        requires failures { (S.state source.old).failures < u64.MAX }
        requires going { self.old.ended ≡ false }
        ensures fills { OnOk result (Fills self.old self.new (S.state source.old) (S.state source.new)) }
        ensures progress { OnOk result ((self.new.ended ≡ true) ⊎ ((S.state source.new).left < (S.state source.old).left)) }
        ensures failed { IsErrOf result LineFault.ReadFailed → (S.state source.new).failures ≡ (S.state source.old).failures + 1 }
        ensures memory { IsErrOf result LineFault.OutOfMemory → (S.state source.new).failures ≡ (S.state source.old).failures }
    {
        self.drop_passed()?;
        let mut piece = [0; PIECE];
        let count = source.pull(&mut piece)?;
        self.ended = count == 0;
        self.keep(&piece[..count])?;
        Ok(())
    }

    /// Gives back the room of the lines that were passed.
    fn drop_passed(&mut self) -> Result<(), AllocError>
        ensures number { self.new.number ≡ self.old.number }
        ensures bytes { self.new.bytes ≡ self.old.bytes }
        ensures ended { self.new.ended ≡ self.old.ended }
    {
        if self.next == 0 {
            return Ok(());
        }
        self.bytes = Vec::from_slice(self.allocator, &self.bytes[self.next..])?;
        self.start = 0;
        self.size = 0;
        self.next = 0;
        Ok(())
    }

    /// Keeps a piece behind what is held, and looks there for the end of the next line.
    fn keep(&mut self, piece: &[u8]) -> Result<(), AllocError>
        ensures number { self.new.number ≡ self.old.number }
        ensures bytes { OnOk result (self.new.bytes ≡ self.old.bytes ++ piece.now) }
        ensures ended { self.new.ended ≡ self.old.ended }
    {
        self.bytes.extend_from_slice(piece)?;
        self.known = first_line(&self.bytes[self.next..], self.known);
        Ok(())
    }

    /// Takes the next line, if there is one.
    fn take_line(&mut self) -> bool
        requires ready { IsReady self.old }
        requires numbered { self.old.number + length self.old.bytes < 2 ^ 64 }
        ensures taken { result ≡ true → TakesLine self.old self.new }
        ensures none { result ≡ false → self.old.bytes ≡ [] }
        ensures same { result ≡ false → self.new ≡ self.old }
    {
        let left = self.bytes.len() - self.next;
        if left == 0 {
            return false;
        }
        self.start = self.next;
        self.size = self.known;
        self.line_number = self.number;
        if self.known < left {
            self.next += self.known + 1;
            self.number += 1;
        } else {
            self.next += self.known;
        }
        self.known = first_line(&self.bytes[self.next..], 0);
        true
    }
}
