//! `FromRead`, `FromWrite`: a reader and a writer of std as a source and a sink.
ghost use Rattle.std.specs.Prelude.{◌≡◌, ◌||◌, [], false};
ghost use Rattle.iv_lines.specs.Calls.{unused};

use crate::ends::{EndFault, Sink, Source};
use crate::watched::Watched;
use std::io::{Read, Write};
use std::marker::Model;

/// A reader of std as a source. Each read is one call of the reader, and an error of the reader is told at once.
#[derive(Drop)]
pub struct FromRead<R: Read> {
    /// The reader, with the count of its calls.
    reader: Watched<R>,
}

impl<R: Read> Model for FromRead<R> {
    ghost use Rattle.iv_lines.specs.Calls.{Watch};

    ghost Value = { Watch R };

    ghost view = { λ s. s.reader };
}

impl<R: Read> FromRead<R> {
    /// A reader of std as a source, before any call.
    pub fn new(reader: R) -> FromRead<R>
        ensures { result ≡ unused reader }
    {
        FromRead {
            reader: Watched::new(reader),
        }
    }
}

impl<R: Read> Source for FromRead<R> {
    ghost left = { λ s. R.remaining s.end };

    ghost has_failed = { λ s. s.failed };

    ghost reads = { λ s. s.calls };

    ghost moments = { λ _. [] };

    /// Reads by one call of std's reader, whose error is a fault of the source.
    fn read<W: Sink>(&mut self, room: &mut [u8], _writer: &W) -> Result<usize, EndFault> {
        match self.reader.read(room) {
            Ok(count) => Ok(count),
            Err(_) => Err(EndFault),
        }
    }
}

/// A writer of std as a sink, at which a write that takes none of some bytes is a fault. Each write and flush is one
/// call of the writer, and an error of the writer is told at once.
#[derive(Drop)]
pub struct FromWrite<W: Write> {
    /// The writer, with the count of its calls.
    writer: Watched<W>,
    /// Whether a write took none of some bytes.
    stuck: bool,
}

impl<W: Write> Model for FromWrite<W> {
    ghost use Rattle.std.specs.Prelude.{Bool};
    ghost use Rattle.iv_lines.specs.Calls.{Watch};

    ghost Value = { Watch W × Bool };

    ghost view = { λ s. (s.writer, s.stuck) };
}

impl<W: Write> FromWrite<W> {
    /// A writer of std as a sink, before any call.
    pub fn new(writer: W) -> FromWrite<W>
        ensures { result ≡ (unused writer, false) }
    {
        FromWrite {
            writer: Watched::new(writer),
            stuck: false,
        }
    }
}

impl<W: Write> Sink for FromWrite<W> {
    ghost taken = { λ s. W.contents s.0.end };

    ghost has_failed = { λ s. s.0.failed || s.1 };

    ghost is_flushed = { λ s. s.0.flushed };

    ghost calls = { λ s. s.0.calls };

    /// Writes by one call of std's writer; an error, and none taken of some bytes, is a fault of the sink.
    fn write(&mut self, bytes: &[u8]) -> Result<usize, EndFault> {
        match self.writer.write(bytes) {
            Ok(0) => {
                if bytes.len() == 0 {
                    return Ok(0);
                }
                self.stuck = true;
                Err(EndFault)
            }
            Ok(count) => Ok(count),
            Err(_) => Err(EndFault),
        }
    }

    /// Flushes by one call of std's writer, whose error is a fault of the sink.
    fn flush(&mut self) -> Result<(), EndFault> {
        match self.writer.flush() {
            Ok(()) => Ok(()),
            Err(_) => Err(EndFault),
        }
    }
}
