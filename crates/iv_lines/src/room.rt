//! `Room`: bytes that were read ahead, out of which lines are taken up to their newline.
//!
//! The reader is asked for 4,096 bytes at a time, and at most 65,537 times a line. Bytes up to the next newline,
//! which `memchr` finds, are moved at once.
ghost use Rattle.std.specs.Prelude.{◌≡◌, ◌≤◌, ◌<◌, ◌+◌, ◌||◌, ◌==◌, [], true, false, length, position, IfOk, OnOk, OnErr, is_err};
ghost use Rattle.std.specs.Io.KnownBytes.{Keeps, IsAtEnd};
ghost use Rattle.iv_lines.specs.Moments.{IsMoment, ReadsAt};

use crate::ends::{EndFault, Sink, Source};
use memchr::memchr;
use std::alloc::AllocError;

/// How many bytes are read at most at a time.
const ROOM: usize = 4096;

/// The bytes of the longest line, with its newline.
pub const LINE_ROOM: usize = 65_537;

/// Bytes that were read and not taken yet.
#[derive(Drop)]
pub struct Room {
    /// The bytes that were read last.
    bytes: [u8; ROOM],
    /// How many of these were taken.
    at: usize,
    /// How many of these were read.
    filled: usize,
    ghost within: { filled ≤ 4096 },
    ghost behind: { at ≤ filled },
}

impl Room {
    ghost use Rattle.iv_lines.specs.Ahead.{ahead, known, TakesPart};
    ghost use Rattle.iv_lines.specs.Cut.{line_room};

    /// A buffer of bytes read ahead, with none in it yet.
    pub fn new() -> Room
        ensures { ahead result ≡ [] }
    {
        Room {
            bytes: [0; ROOM],
            at: 0,
            filled: 0,
        }
    }

    /// Reads bytes ahead, if all that were ahead have been taken.
    #[tactic(auto, using(crate::proofs::Ahead::ahead_empty))]
    fn refill<R: Source, W: Sink>(&mut self, reader: &mut R, writer: &W) -> Result<(), EndFault>
        requires { self.old.at ≡ self.old.filled }
        ensures ok { OnOk result (Keeps (R.left reader.old) (known self.new (R.left reader.new))) }
        ensures end { OnOk result (ahead self.new ≡ [] → IsAtEnd (R.left reader.new)) }
        ensures err { OnErr result (Keeps (R.left reader.old) (R.left reader.new)) }
        ensures failed { R.has_failed reader.new ≡ (R.has_failed reader.old || is_err result) }
        ensures counted { R.reads reader.new ≤ R.reads reader.old + 1 }
        ensures moment { ReadsAt (IsMoment (R.left reader.old) (W.taken writer.now) (W.is_flushed writer.now))
            (R.moments reader.old) (R.moments reader.new) }
    {
        let count = reader.read(&mut self.bytes, writer)?;
        self.at = 0;
        self.filled = count;
        Ok(())
    }

    /// Reads bytes ahead, unless some are ahead. Nothing is ahead then only if no byte is left.
    pub(crate) fn fill<R: Source, W: Sink>(
        &mut self,
        reader: &mut R,
        writer: &W,
    ) -> Result<(), EndFault>
        ensures ok { OnOk result (Keeps (known self.old (R.left reader.old)) (known self.new (R.left reader.new))) }
        ensures end { OnOk result (ahead self.new ≡ [] → IsAtEnd (R.left reader.new)) }
        ensures err { OnErr result (Keeps (known self.old (R.left reader.old)) (R.left reader.new)) }
        ensures failed { R.has_failed reader.new ≡ (R.has_failed reader.old || is_err result) }
        ensures counted { R.reads reader.new ≤ R.reads reader.old + 1 }
        ensures moment { ReadsAt (IsMoment (known self.old (R.left reader.old)) (W.taken writer.now) (W.is_flushed writer.now))
            (R.moments reader.old) (R.moments reader.new) }
    {
        if self.at < self.filled {
            return Ok(());
        }
        self.refill(reader, writer)
    }

    /// Whether no byte that was read ahead is left to take.
    pub(crate) fn is_empty(&self) -> bool
        ensures empty { result ≡ true → ahead self.now ≡ [] }
        ensures some { result ≡ false → 0 < length (ahead self.now) }
    {
        self.at == self.filled
    }

    /// Moves the bytes ahead to the line, up to a newline, or until the line has 65,537 bytes. Says whether it took a
    /// newline, which is not moved.
    pub(crate) fn take_part(&mut self, line: &mut Vec<u8>) -> Result<bool, AllocError>
        requires room { length line.old.items < line_room }
        requires some { 0 < length (ahead self.old) }
        ensures { IfOk result (λ ended. TakesPart (ahead self.old) (ahead self.new) line.old.items line.new.items ended) }
    {
        let end = self.filled.min(self.at + (LINE_ROOM - line.len()));
        let part = &self.bytes[self.at..end];
        match newline(part) {
            Some(count) => {
                line.extend_from_slice(&part[..count])?;
                self.at += count + 1;
                Ok(true)
            }
            None => {
                line.extend_from_slice(part)?;
                self.at = end;
                Ok(false)
            }
        }
    }
}

/// The place of the first newline among bytes that were read ahead.
fn newline(bytes: &[u8]) -> Option<usize>
    ensures { result ≡ position (λ b. b == 10) bytes.now }
{
    memchr(b'\n', bytes)
}
