//! `next_line`: cuts bytes into lines; `is_blank_line`: which are blank; `End`, `RunFault`: how a run over lines ends.
ghost use Rattle.std.specs.Prelude.{◌≡◌, ◌≤◌, ◌+◌, ◌||◌, ◌⊎◌, [], option_map, IfOk, IfErr, OnOk, IsErrOf};
ghost use Rattle.iv_lines.specs.Cut.{is_blank_line, line_room};
ghost use Rattle.iv_lines.specs.Ahead.{known};
ghost use Rattle.iv_lines.specs.Reads.{IsCut, IsCutShort, is_read};
ghost use Rattle.iv_lines.specs.Moments.{IsWithinLine, ReadsAt};

use crate::ends::{Sink, Source};
use crate::room::{LINE_ROOM, Room};
use std::alloc::{AllocError, AllocFailed};

/// How a run ends.
#[derive(Clone, Copy, Debug, PartialEq, Eq)]
pub enum End {
    /// The input was at its end.
    Input,
    /// As many lines as were asked for were taken.
    Lines,
    /// A line of more than 65,536 bytes was answered.
    TooLong,
}

/// Why a run stops.
#[derive(Clone, Copy, Debug, PartialEq, Eq)]
pub enum RunFault {
    /// The reader failed. All whole lines before are answered.
    Read,
    /// The writer failed. A front of the answers was written.
    Write,
    /// A growth of memory was refused. The engine has failed.
    Memory,
    /// The engine had failed before the run.
    Failed,
}

impl From<AllocError> for RunFault {
    ghost use Rattle.std.specs.Prelude.{◌≡◌};
    ghost use Rattle.iv_lines.specs.declared.lines.RunFault.TheVariants.{Memory};

    ghost from_gives = { λ _ e. e ≡ Memory };

    /// Out of memory, as a fault of a run over lines.
    fn from(_: AllocError) -> Self {
        RunFault::Memory
    }
}

impl<T: Drop> From<AllocFailed<T>> for RunFault {
    ghost use Rattle.std.specs.Prelude.{◌≡◌};
    ghost use Rattle.iv_lines.specs.declared.lines.RunFault.TheVariants.{Memory};

    ghost from_gives = { λ _ e. e ≡ Memory };

    /// A value that could not be stored for want of memory, as a fault of a run over lines.
    fn from(_: AllocFailed<T>) -> Self {
        RunFault::Memory
    }
}

/// What comes next from a source.
#[derive(Drop)]
pub enum Next {
    /// No byte is left.
    Nothing,
    /// A line, without its newline.
    Line(Vec<u8>),
    /// No newline in as many bytes as the longest line has with it.
    Endless,
}

/// The next line, in the memory of a line that was answered. Its answer will go to the writer, which is not touched.
pub fn next_line<R: Source, W: Sink>(
    mut line: Vec<u8>,
    room: &mut Room,
    reader: &mut R,
    writer: &W,
) -> Result<Next, RunFault>
    ensures cut { IfOk result (λ next. IsCut (known room.old (R.left reader.old)) next (known room.new (R.left reader.new))) }
    ensures fault { IfErr result (λ e. (e ≡ RunFault.Read) ⊎ (e ≡ RunFault.Memory)) }
    ensures short { IsErrOf result RunFault.Read → IsCutShort (known room.old (R.left reader.old)) (R.left reader.new) }
    ensures failed { R.has_failed reader.new ≡ (R.has_failed reader.old || is_read result) }
    ensures reads { R.reads reader.new ≤ R.reads reader.old + line_room }
    ensures moments { ReadsAt (IsWithinLine (known room.old (R.left reader.old)) (W.taken writer.now) (W.is_flushed writer.now))
        (R.moments reader.old) (R.moments reader.new) }
{
    line.clear();
    while line.len() < LINE_ROOM {
        if room.fill(reader, writer).is_err() {
            return Err(RunFault::Read);
        }
        if room.is_empty() {
            if line.is_empty() {
                return Ok(Next::Nothing);
            }
            return Ok(Next::Line(line));
        }
        if room.take_part(&mut line)? {
            return Ok(Next::Line(line));
        }
    }
    Ok(Next::Endless)
}

/// Whether the line is of spaces, tabs and carriage returns alone.
pub fn is_blank_line(line: &[u8]) -> bool
    ensures { result ≡ is_blank_line line.now }
{
    line.iter()
        .all(|b| *b == b' ' || *b == b'\t' || *b == b'\r')
}
