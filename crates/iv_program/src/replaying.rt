//! `work`: does what the settings ask; `replay`: request lines in, answer lines out, through a new engine.

ghost use Rattle.std.specs.Prelude.{◌≡◌, ℕ, ◌≤◌, ◌+◌, ◌*◌, ◌||◌, OnOk, true, false};
ghost use Rattle.iv_rows.specs.RowLimit.{IsRowLimit};
ghost use Rattle.iv_machine.specs.State.{start};
ghost use Rattle.iv_engine.specs.Engine.{IsBehind};
ghost use Rattle.iv_lines.specs.Cut.{line_room};
ghost use Rattle.iv_arguments.specs.Arguments.{InRange, lines_of};
ghost use Rattle.iv_lines.specs.Moments.{ReadsAt};
ghost use Rattle.iv_program.specs.Does.{LinesAddUp, Does, IsTurnOf};
ghost use Rattle.iv_program.specs.Replays.{is_read, is_write};
ghost use Rattle.iv_arguments.specs.declared.asked.Settings.TheVariants.{Replay};

use crate::serving::serve;
use iv_arguments::{Fault, Settings};
use iv_engine::{Engine, Seed};
use iv_lines::{RunFault, Sink, Source};
use iv_wire::run;
use std::alloc::Global;

/// Answers at most `lines` lines of the reader on the writer, through an engine that has not failed.
///
/// # Errors
/// `Read` and `Write` if the reader or the writer failed; `Memory` if a growth of memory was
/// refused.
fn replay_on<R: Source, W: Sink>(
    alloc: Global,
    engine: &mut Engine,
    reader: &mut R,
    writer: &mut W,
    lines: u32,
) -> Result<(), Fault>
    requires { engine.old.failed ≡ false }
    ensures answers { (cap : ℕ) → IsBehind (start cap) engine.old → Does (Replay lines cap) (record {
      given = R.left reader.old;
      left = R.left reader.new;
      taken = W.taken writer.old;
      written = W.taken writer.new;
    }) result }
    ensures adds_up { (cap : ℕ) → IsBehind (start cap) engine.old → OnOk result (LinesAddUp (Replay lines cap) (record {
      given = R.left reader.old;
      left = R.left reader.new;
      taken = W.taken writer.old;
      written = W.taken writer.new;
    })) }
    ensures read { R.has_failed reader.new ≡ (R.has_failed reader.old || is_read result) }
    ensures write { W.has_failed writer.new ≡ (W.has_failed writer.old || is_write result) }
    ensures flushed { (is_write result ≡ false) → W.is_flushed writer.old ≡ true → W.is_flushed writer.new ≡ true }
    ensures reads { R.reads reader.new ≤ R.reads reader.old + lines * line_room }
    ensures turns { W.is_flushed writer.old ≡ true → (cap : ℕ) → IsBehind (start cap) engine.old
        → ReadsAt (IsTurnOf (Replay lines cap) (R.left reader.old) (W.taken writer.old)) (R.moments reader.old) (R.moments reader.new) }
{
    match run(alloc, engine, reader, writer, lines) {
        Ok(_) => Ok(()),
        Err(RunFault::Read) => Err(Fault::Read),
        Err(RunFault::Write) => Err(Fault::Write),
        Err(RunFault::Memory) => Err(Fault::Memory),
        Err(RunFault::Failed) => unreachable!(),
    }
}

/// Answers at most `lines` lines of the reader on the writer, through a new engine with at most `rows` different rows in
/// each table and node. Rows are hashed under the seed.
///
/// # Errors
/// `Read` and `Write` if the reader or the writer failed; `Memory` if a growth of memory was
/// refused.
fn replay<R: Source, W: Sink>(
    alloc: Global,
    seed: Seed,
    reader: &mut R,
    writer: &mut W,
    lines: u32,
    rows: u32,
) -> Result<(), Fault>
    requires lines { 1 ≤ lines }
    requires rows { IsRowLimit rows }
    ensures answers { Does (Replay lines rows) (record {
      given = R.left reader.old;
      left = R.left reader.new;
      taken = W.taken writer.old;
      written = W.taken writer.new;
    }) result }
    ensures adds_up { OnOk result (LinesAddUp (Replay lines rows) (record {
      given = R.left reader.old;
      left = R.left reader.new;
      taken = W.taken writer.old;
      written = W.taken writer.new;
    })) }
    ensures read { R.has_failed reader.new ≡ (R.has_failed reader.old || is_read result) }
    ensures write { W.has_failed writer.new ≡ (W.has_failed writer.old || is_write result) }
    ensures flushed { (is_write result ≡ false) → W.is_flushed writer.old ≡ true → W.is_flushed writer.new ≡ true }
    ensures reads { R.reads reader.new ≤ R.reads reader.old + lines * line_room }
    ensures turns { W.is_flushed writer.old ≡ true
        → ReadsAt (IsTurnOf (Replay lines rows) (R.left reader.old) (W.taken writer.old)) (R.moments reader.old) (R.moments reader.new) }
{
    let Ok(mut engine) = Engine::with_seed(alloc, seed, rows) else {
        return Err(Fault::Memory);
    };
    let ended = replay_on(alloc, &mut engine, reader, writer, lines);
    drop(engine);
    ended
}

/// Does what the settings ask, with these ends in place of standard input and output. Rows are hashed under the seed.
///
/// # Errors
/// `Read` and `Write` if the reader or the writer failed; `Network` if a port could not be
/// listened on, or a connection not be accepted; `Memory` if a growth of memory was refused.
pub fn work<R: Source, W: Sink>(
    rt: &HostRuntime,
    seed: Seed,
    settings: Settings,
    reader: &mut R,
    writer: &mut W,
) -> Result<(), Fault>
    requires { InRange settings }
    ensures does { Does settings (record {
      given = R.left reader.old;
      left = R.left reader.new;
      taken = W.taken writer.old;
      written = W.taken writer.new;
    }) result }
    // For each subscription that its reader did not close, the lines written add up to what it shows.
    ensures adds_up { OnOk result (LinesAddUp settings (record {
      given = R.left reader.old;
      left = R.left reader.new;
      taken = W.taken writer.old;
      written = W.taken writer.new;
    })) }
    ensures read { R.has_failed reader.new ≡ (R.has_failed reader.old || is_read result) }
    ensures write { W.has_failed writer.new ≡ (W.has_failed writer.old || is_write result) }
    ensures flushed { (is_write result ≡ false) → W.is_flushed writer.old ≡ true → W.is_flushed writer.new ≡ true }
    ensures reads { R.reads reader.new ≤ R.reads reader.old + (lines_of settings * line_room) }
    // Whenever the reader is read, all whole lines that it gave before are answered, and their answers written and flushed.
    ensures turns { W.is_flushed writer.old ≡ true
        → ReadsAt (IsTurnOf settings (R.left reader.old) (W.taken writer.old)) (R.moments reader.old) (R.moments reader.new) }
{
    match settings {
        Settings::Replay { lines, rows } => replay(rt.alloc(), seed, reader, writer, lines, rows),
        Settings::Serve {
            port,
            connections,
            lines,
            rows,
        } => serve(rt, seed, writer, port, connections, lines, rows),
    }
}
