//! The lines of a source, one after another.

ghost use Rattle.std.specs.Prelude.{◌≡◌, ◌≤◌, ◌<◌, [], false, IfOk};
ghost use Rattle.rf_base.specs.Cause.{Rose};
ghost use Rattle.rf_base.specs.Told.{WhereTold};

use crate::byte_reader::{Byte, ByteReader};
use crate::line_buffer::LineBuffer;
use crate::outside::{NoMemory, Source};
use std::alloc::Global;

/// What a reader answers.
#[derive(Clone, Copy, PartialEq, Eq)]
pub enum Next {
    /// The next line is in `line`.
    Line,
    /// The next line is longer than a line may be, and was read past.
    LongLine,
    /// All lines were given.
    End,
    /// The input is too long, and all lines that end before its limit were given.
    TooLong,
    /// The source failed.
    ReadFault,
}

/// Gives the lines of a source one after another.
#[derive(Drop)]
pub struct LineReader {
    bytes: ByteReader,
    line: LineBuffer,
}

impl LineReader {
    ghost use Rattle.rf_base.specs.Input.{Gives, Shrinks};
    ghost use Rattle.rf_base.specs.Reader.{input_of, line_of, limit_of, pending_of, Reads};

    /// A reader that has taken nothing. It makes all its room.
    pub fn new(alloc: Global) -> Result<Self, NoMemory>
        ensures input { IfOk result (λ reader. (left : _) →
            input_of reader left ≡ record { bytes = left; limit = 67108864; ended = false }) }
        ensures reads { IfOk result (λ reader. (left : _) → Reads reader left) }
    {
        let bytes = ByteReader::new(alloc)?;
        let line = LineBuffer::new(alloc)?;
        Ok(LineReader { bytes, line })
    }

    /// The line that was given last.
    pub fn line(&self) -> &[u8]
        ensures { result.now ≡ line_of self.now }
    {
        self.line.as_slice()
    }

    /// Goes on to the next line of the source.
    pub fn next<S: Source>(&mut self, source: &mut S) -> Next
        requires { Reads self.old (S.left source.old) }
        ensures told { WhereTold (S.left source.old) (S.left source.new)
            (λ before after. Gives result (input_of self.old before) (input_of self.new after) (line_of self.new)) }
        ensures reads { Reads self.new (S.left source.new) }
        ensures shrinks { Shrinks result (limit_of self.old) (limit_of self.new) }
        ensures drained { result ≡ Next.ReadFault → pending_of self.new ≡ [] }
        ensures later { S.faults source.old ≤ S.faults source.new }
        ensures fault { result ≡ Next.ReadFault → Rose (S.faults source.old) (S.faults source.new) }
    {
        self.line.clear();
        loop {
            match self.bytes.next_byte(source) {
                Byte::Given(b'\n') => {
                    if self.line.is_too_long() {
                        return Next::LongLine;
                    }
                    self.line.trim_return();
                    return Next::Line;
                }
                Byte::Given(byte) => self.line.push(byte),
                Byte::AtEnd => {
                    if self.line.is_empty() {
                        return Next::End;
                    }
                    if self.line.is_too_long() {
                        return Next::LongLine;
                    }
                    return Next::Line;
                }
                Byte::Beyond => return Next::TooLong,
                Byte::Failed => return Next::ReadFault,
            }
        }
    }
}
