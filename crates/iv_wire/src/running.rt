//! `run`: reads lines, answers each in turn through the engine, and writes and flushes each answer.
//!
//! The answer to bytes folds the machine's `run` over the commands among the lines. That the state is one that the
//! machine reaches is no premise: the engine's invariant gives it. Each read is made in its turn: whole lines that were
//! read before are answered then, and their answers flushed.
//!
//! A line is read, and its answer written, in the memory of the one before: as much as the longest answer took is kept.
ghost use Rattle.std.specs.Prelude.{◌≡◌, ◌≤◌, ◌+◌, ◌*◌, ◌||◌, ◌↔◌, ℕ, take, flat_map, true, false, IfOk, IfErr, IfSome, OnOk, OnErr, IsErrOf};
ghost use Rattle.std.specs.List.{All};
ghost use Rattle.std.specs.Io.KnownBytes.{Appends};
ghost use Rattle.iv_machine.specs.State.{State};
ghost use Rattle.iv_machine.specs.Stored.{IsGiven};
ghost use Rattle.iv_machine.specs.Well.{is_well_command};
ghost use Rattle.iv_engine.specs.Engine.{IsBehind};
ghost use Rattle.iv_engine.specs.Sound.{IsSoundEngine};
ghost use Rattle.iv_command.specs.Views.{command_of};
ghost use Rattle.iv_lines.specs.Answer.{commands_of, told, readings_of};
ghost use Rattle.iv_lines.specs.Cut.{line_room};
ghost use Rattle.iv_lines.specs.Texts.{line_text};
ghost use Rattle.iv_machine.specs.Machine.{step};
ghost use Rattle.iv_lines.specs.Reads.{is_read, is_write, is_memory};
ghost use Rattle.iv_wire.specs.Endings.{IsAnswered};
ghost use Rattle.iv_wire.specs.Ran.{HasRun};
ghost use Rattle.iv_wire.specs.Sums.{HasWritten};
ghost use Rattle.iv_wire.specs.Turns.{IsInTurn};
ghost use Rattle.iv_lines.specs.Moments.{ReadsAt};

use iv_command::Command;
use iv_engine::Engine;
use iv_lines::{
    End, Next, Room, RunFault, Sink, Source, is_blank_line, next_line, write_all, write_fault,
    write_lines,
};
use iv_reading::command_in;
use iv_request::WireFault;
use json::Scratch;
use std::alloc::{AllocError, Global};

/// Answers a command through the engine, by the text of its lines, in the memory of a text that was sent.
fn answer_command(
    alloc: Global,
    engine: &mut Engine,
    command: Command,
    sent: Vec<u8>,
) -> Result<Vec<u8>, AllocError>
    requires { is_well_command (command_of command) ≡ true }
    ensures text { IfOk result (λ text. (s : State) → IsBehind s engine.old → text.items ≡ flat_map line_text (step s (command_of command)).lines) }
    ensures state { OnOk result ((s : State) → IsBehind s engine.old → IsBehind (step s (command_of command)).state engine.new) }
    ensures failed { OnOk result (engine.new.failed ≡ false) }
{
    match engine.apply(command) {
        Err(_) => Err(AllocError),
        Ok(lines) => write_lines(alloc, &lines, sent),
    }
}

/// Answers one line, in the memory of a text that was sent.
fn answer_line(
    alloc: Global,
    engine: &mut Engine,
    line: &[u8],
    scratch: &mut Scratch,
    sent: Vec<u8>,
) -> Result<Vec<u8>, AllocError>
    ensures text { IfOk result (λ text. (s : State) → IsBehind s engine.old → text.items ≡ (told s (readings_of line.now)).text) }
    ensures state { OnOk result ((s : State) → IsBehind s engine.old → IsBehind (told s (readings_of line.now)).state engine.new) }
    ensures given { OnOk result (All IsGiven (commands_of (readings_of line.now))) }
    ensures failed { OnOk result (engine.old.failed ≡ false → engine.new.failed ≡ false) }
{
    if is_blank_line(line) {
        return Ok(Vec::new(alloc));
    }
    match command_in(alloc, line, scratch) {
        Err(WireFault::Memory) => Err(AllocError),
        Err(WireFault::BadJson) => write_fault(alloc, 1),
        Err(WireFault::BadRequest) => write_fault(alloc, 2),
        Ok(command) => answer_command(alloc, engine, command, sent),
    }
}

/// Writes a text whole, and flushes.
fn send_answer<W: Sink>(writer: &mut W, text: &[u8]) -> Result<(), RunFault>
    ensures ok { OnOk result (Appends (W.taken writer.old) (W.taken writer.new) text.now) }
    ensures flushed { OnOk result (W.is_flushed writer.new ≡ true) }
    ensures front { OnErr result ((n : ℕ) × Appends (W.taken writer.old) (W.taken writer.new) (take n text.now)) }
    ensures fault { IfErr result (λ e. e ≡ RunFault.Write) }
    ensures failed { W.has_failed writer.new ≡ (W.has_failed writer.old || is_write result) }
{
    match write_all(writer, text) {
        Err(_) => Err(RunFault::Write),
        Ok(()) => match writer.flush() {
            Err(_) => Err(RunFault::Write),
            Ok(()) => Ok(()),
        },
    }
}

/// Answers up to `lines` lines. On `Memory` the engine is still to be failed.
fn run_lines<R: Source, W: Sink>(
    alloc: Global,
    engine: &mut Engine,
    reader: &mut R,
    writer: &mut W,
    lines: u32,
) -> Result<End, RunFault>
    ensures answered { (s : State) → IsBehind s engine.old → IsAnswered s (record {
      lines = lines;
      given = R.left reader.old;
      left = R.left reader.new;
      taken = W.taken writer.old;
      written = W.taken writer.new;
      now = engine.new;
    }) result }
    ensures ran { (is_memory result ≡ false) → (s : State) → IsBehind s engine.old → HasRun lines s engine.new }
    ensures went_on { (is_memory result ≡ false) → engine.old.failed ≡ false → engine.new.failed ≡ false }
    ensures fault { IsErrOf result RunFault.Failed → ⊥ }
    ensures read { R.has_failed reader.new ≡ (R.has_failed reader.old || is_read result) }
    ensures write { W.has_failed writer.new ≡ (W.has_failed writer.old || is_write result) }
    ensures flushed { (is_write result ≡ false) → W.is_flushed writer.old ≡ true → W.is_flushed writer.new ≡ true }
    ensures reads { R.reads reader.new ≤ R.reads reader.old + (lines * line_room) }
    ensures turns { W.is_flushed writer.old ≡ true → (s : State) → IsBehind s engine.old
        → ReadsAt (IsInTurn lines s (R.left reader.old) (W.taken writer.old)) (R.moments reader.old) (R.moments reader.new) }
{
    let mut room = Room::new();
    let mut scratch = Scratch::new(alloc);
    let mut answered = Vec::new(alloc);
    let mut sent = Vec::new(alloc);
    for _ in 0..lines {
        match next_line(answered, &mut room, reader, writer)? {
            Next::Nothing => return Ok(End::Input),
            Next::Endless => {
                let text = write_fault(alloc, 22)?;
                send_answer(writer, &text)?;
                return Ok(End::TooLong);
            }
            Next::Line(line) => {
                let text = answer_line(alloc, engine, &line, &mut scratch, sent)?;
                send_answer(writer, &text)?;
                answered = line;
                sent = text;
            }
        }
    }
    Ok(End::Lines)
}

/// Answers up to `lines` lines of the reader, skipped ones counted, and no more; each command's answer is written whole
/// and flushed before the next line is read.
///
/// # Errors
/// `Read` and `Write` if the reader or the writer failed; `Memory` if a growth of memory was refused: the engine
/// has failed then; `Failed` exactly if it had failed before.
pub fn run<R: Source, W: Sink>(
    alloc: Global,
    engine: &mut Engine,
    reader: &mut R,
    writer: &mut W,
    lines: u32,
) -> Result<End, RunFault>
    ensures answered { (s : State) → IsBehind s engine.old → IsAnswered s (record {
      lines = lines;
      given = R.left reader.old;
      left = R.left reader.new;
      taken = W.taken writer.old;
      written = W.taken writer.new;
      now = engine.new;
    }) result }
    // For each subscription that its reader did not close, the lines written add up to what it shows more than before.
    ensures adds_up { OnOk result ((s : State) → IsBehind s engine.old
        → IfSome (R.left reader.old) (λ _. HasWritten s (record {
          lines = lines;
          given = R.left reader.old;
          left = R.left reader.new;
          taken = W.taken writer.old;
          written = W.taken writer.new;
          now = engine.new;
        }))) }
    ensures ran { (is_memory result ≡ false) → (s : State) → IsBehind s engine.old → HasRun lines s engine.new }
    // A sound engine stays sound: roles, names, sessions, subscriptions and rows, and the policies, views and rights that are
    // stored.
    ensures sound { (is_memory result ≡ false) → IsSoundEngine engine.old → IsSoundEngine engine.new }
    ensures failed { engine.new.failed ≡ (engine.old.failed || is_memory result) }
    ensures refused { IsErrOf result RunFault.Failed ↔ (engine.old.failed ≡ true) }
    ensures untouched { engine.old.failed ≡ true → (reader.new ≡ reader.old) × (writer.new ≡ writer.old) × (engine.new ≡ engine.old) }
    ensures read { R.has_failed reader.new ≡ (R.has_failed reader.old || is_read result) }
    ensures write { W.has_failed writer.new ≡ (W.has_failed writer.old || is_write result) }
    ensures flushed { (is_write result ≡ false) → W.is_flushed writer.old ≡ true → W.is_flushed writer.new ≡ true }
    ensures reads { R.reads reader.new ≤ R.reads reader.old + (lines * line_room) }
    // Whenever the reader is read, all whole lines that it gave before are answered, and their answers written and flushed.
    ensures turns { W.is_flushed writer.old ≡ true → (s : State) → IsBehind s engine.old
        → ReadsAt (IsInTurn lines s (R.left reader.old) (W.taken writer.old)) (R.moments reader.old) (R.moments reader.new) }
{
    if engine.is_failed() {
        return Err(RunFault::Failed);
    }
    let ended = run_lines(alloc, engine, reader, writer, lines);
    if let Err(RunFault::Memory) = ended {
        engine.fail();
    }
    ended
}
