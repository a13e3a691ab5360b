//! `answer_connection`: answers the lines of one connection, and hangs up.
//!
//! It is over any reader and writer. If these tell their bytes, its contract names what is read and what is written. A
//! socket tells none.

ghost use Rattle.std.specs.Prelude.{◌≡◌, ◌≤◌, ◌+◌, ◌*◌, ◌||◌, true, false, IsErrOf};
ghost use Rattle.iv_machine.specs.State.{State};
ghost use Rattle.iv_engine.specs.Engine.{IsBehind};
ghost use Rattle.iv_engine.specs.Sound.{IsSoundEngine};
ghost use Rattle.iv_lines.specs.Cut.{line_room};
ghost use Rattle.iv_lines.specs.Moments.{ReadsAt};
ghost use Rattle.iv_lines.specs.Reads.{is_memory, is_read, is_write};
ghost use Rattle.iv_wire.specs.Turns.{IsInTurn};
ghost use Rattle.iv_program.specs.Connection.{IsConnection};
ghost use Rattle.iv_program.specs.Serves.{HasServed, IsClosed};

use iv_engine::Engine;
use iv_lines::{End, RunFault, Sink, Source};
use iv_wire::run;
use std::alloc::Global;

/// Answers at most `lines` lines of a connection, as `run` answers them, and then hangs up: all sessions and subscriptions
/// are closed, and all else is kept.
///
/// # Errors
/// `Read` and `Write` if the connection's reader or writer failed, which ends the connection alone; `Memory` if a
/// growth of memory was refused: the engine has failed then.
pub fn answer_connection<R: Source, W: Sink>(
    alloc: Global,
    engine: &mut Engine,
    reader: &mut R,
    writer: &mut W,
    lines: u32,
) -> Result<End, RunFault>
    requires { engine.old.failed ≡ false }
    ensures answered { (s : State) → IsBehind s engine.old → IsConnection s (record {
      lines = lines;
      given = R.left reader.old;
      left = R.left reader.new;
      taken = W.taken writer.old;
      written = W.taken writer.new;
      now = engine.new;
    }) result }
    ensures served { (is_memory result ≡ false) → (s : State) → IsBehind s engine.old → HasServed lines 1 s engine.new }
    // A sound engine stays sound.
    ensures sound { (is_memory result ≡ false) → IsSoundEngine engine.old → IsSoundEngine engine.new }
    ensures closed { (is_memory result ≡ false) → IsClosed engine.new.frame }
    ensures failed { engine.new.failed ≡ is_memory result }
    ensures fault { IsErrOf result RunFault.Failed → ⊥ }
    ensures read { R.has_failed reader.new ≡ (R.has_failed reader.old || is_read result) }
    ensures write { W.has_failed writer.new ≡ (W.has_failed writer.old || is_write result) }
    ensures flushed { (is_write result ≡ false) → W.is_flushed writer.old ≡ true → W.is_flushed writer.new ≡ true }
    ensures reads { R.reads reader.new ≤ R.reads reader.old + (lines * line_room) }
    ensures turns { W.is_flushed writer.old ≡ true → (s : State) → IsBehind s engine.old
        → ReadsAt (IsInTurn lines s (R.left reader.old) (W.taken writer.old)) (R.moments reader.old) (R.moments reader.new) }
{
    let ended = run(alloc, engine, reader, writer, lines);
    engine.hang_up();
    ended
}
