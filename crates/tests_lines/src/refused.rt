//! Tests that hold whichever request for memory is refused, so that a script can refuse each in turn. Each prints a word for
//! what came of it: `refused` where some request was.
ghost use Rattle.std.specs.Prelude.{◌≡◌, ◌≤◌, ◌<◌, None, true};

use crate::commands::{fault_of, ran_list, texts};
use crate::examples::{
    EXCEPT_UNDER_POLICY, Example, FIRST_CHANGE, GROUPED_SUMS, REVOKE_TAKES_BACK,
    ROW_SECURITY_THEN_POLICY,
};
use crate::replayed::{ANSWERS, Ended, REQUESTS};
use iv_command::{Act, Command, Line};
use iv_embedded::read_line;
use iv_engine::{Engine, EngineFault};
use iv_lines::{End, EndFault, FromRead, RunFault, Sink};
use iv_request::WireFault;
use iv_wire::run;
use std::alloc::{AllocError, Global};
use std::io::Read;
use std::test::Fail;

/// A sink with a buffer of its own, which takes no memory.
#[derive(Drop)]
struct Kept {
    room: [u8; 1024],
    len: usize,
    failed: bool,
    ghost in_room: { len ≤ 1024 },
}

impl Kept {
    fn new() -> Kept {
        Kept {
            room: [0; 1024],
            len: 0,
            failed: false,
        }
    }

    fn bytes(&self) -> &[u8] {
        &self.room[..self.len]
    }
}

impl Sink for Kept {
    ghost taken = { λ _. None };

    ghost has_failed = { λ s. s.failed };

    ghost is_flushed = { λ _. true };

    ghost calls = { λ _. 0 };

    fn write(&mut self, bytes: &[u8]) -> Result<usize, EndFault> {
        let count = bytes.len().min(1024 - self.len);
        let is_full = count == 0 && 0 < bytes.len();
        self.failed = self.failed || is_full;
        if is_full {
            return Err(EndFault);
        }
        self.room[self.len..self.len + count].copy_from_slice(&bytes[..count]);
        self.len += count;
        Ok(count)
    }

    fn flush(&mut self) -> Result<(), EndFault> {
        Ok(())
    }
}

/// What came of a test if a request for memory may have been refused.
type Word = &'static str;

const HELD: Word = "held";

const REFUSED: Word = "refused";

/// Whether these bytes are the whole answers to the first so many commands of the text: what follows begins with a reply, which
/// is the first line of each answer.
fn is_front(written: &[u8], text: &str) -> bool {
    match text.as_bytes().strip_prefix(written) {
        Some(rest) => rest.is_empty() || rest.starts_with(b"{\"ok\":true,"),
        None => false,
    }
}

/// The same of a text in two parts.
fn is_of_whole_commands(written: &[u8], answers: [&str; 2]) -> bool {
    match written.strip_prefix(answers[0].as_bytes()) {
        Some(more) => is_front(more, answers[1]),
        None => is_front(written, answers[0]),
    }
}

/// Whether they are all the answers.
fn is_whole(written: &[u8], answers: [&str; 2]) -> bool {
    match written.strip_prefix(answers[0].as_bytes()) {
        Some(more) => more == answers[1].as_bytes(),
        None => false,
    }
}

fn finish() -> Command {
    Command {
        session: 1,
        act: Act::Finish,
    }
}

/// What a list of one command is answered.
fn fault_of_list(alloc: Global, engine: &mut Engine) -> Option<EngineFault> {
    let commands = Vec::from_array(alloc, [finish()]).ok()?;
    ran_list(engine, commands)?.err()
}

/// How a run of `first_change` ends.
fn ended_again(alloc: Global, engine: &mut Engine, writer: &mut Kept) -> Ended {
    run(
        alloc,
        engine,
        &mut FromRead::new(REQUESTS.as_bytes()),
        writer,
        100,
    )
}

/// Whether the engine answers `Failed` to a command, to a list of one, and to lines, none of which is written.
fn has_failed(alloc: Global, engine: &mut Engine) -> bool {
    let mut writer = Kept::new();
    fault_of(engine, finish()) == Some(EngineFault::Failed)
        && fault_of_list(alloc, engine) == Some(EngineFault::Failed)
        && ended_again(alloc, engine, &mut writer) == Err(RunFault::Failed)
        && writer.bytes().is_empty()
}

/// Whether it has failed for good: hanging up changes nothing of it.
fn has_failed_for_good(alloc: Global, engine: &mut Engine) -> bool {
    if !engine.is_failed() || !has_failed(alloc, engine) {
        return false;
    }
    engine.hang_up();
    engine.is_failed() && has_failed(alloc, engine)
}

/// What comes of an engine that was refused memory.
fn refused_by(alloc: Global, engine: &mut Engine) -> Word {
    if has_failed_for_good(alloc, engine) {
        REFUSED
    } else {
        "the engine goes on"
    }
}

/// How a run of the example ends.
fn ended_of(alloc: Global, engine: &mut Engine, example: Example, writer: &mut Kept) -> Ended {
    let [first, second] = example.requests;
    let reader = first.as_bytes().chain(second.as_bytes());
    run(alloc, engine, &mut FromRead::new(reader), writer, 100)
}

/// What comes of a run of the example.
fn run_through(alloc: Global, engine: &mut Engine, example: Example) -> Word {
    let mut writer = Kept::new();
    match ended_of(alloc, engine, example, &mut writer) {
        Ok(End::Input) if is_whole(writer.bytes(), example.answers) => HELD,
        Err(RunFault::Memory) if !is_of_whole_commands(writer.bytes(), example.answers) => {
            "the answers are not those of whole commands"
        }
        Err(RunFault::Memory) => refused_by(alloc, engine),
        _ => "other answers",
    }
}

/// The same with a new engine.
fn ran(alloc: Global, example: Example) -> Word {
    match Engine::new(alloc, 1_024) {
        Ok(mut engine) => {
            let word = run_through(alloc, &mut engine, example);
            drop(engine);
            word
        }
        Err(_) => REFUSED,
    }
}

fn tell(rt: &HostRuntime, word: Word) -> Result<(), Fail> {
    if word != HELD && word != REFUSED {
        return Err(Fail::new(word));
    }
    println!(rt; "{word}")?;
    Ok(())
}

#[test]
fn first_change(rt: HostRuntime) -> Result<(), Fail> {
    tell(&rt, ran(rt.alloc(), FIRST_CHANGE))
}

#[test]
fn row_security_then_policy(rt: HostRuntime) -> Result<(), Fail> {
    tell(&rt, ran(rt.alloc(), ROW_SECURITY_THEN_POLICY))
}

#[test]
fn grouped_sums(rt: HostRuntime) -> Result<(), Fail> {
    tell(&rt, ran(rt.alloc(), GROUPED_SUMS))
}

#[test]
fn except_under_policy(rt: HostRuntime) -> Result<(), Fail> {
    tell(&rt, ran(rt.alloc(), EXCEPT_UNDER_POLICY))
}

#[test]
fn revoke_takes_back(rt: HostRuntime) -> Result<(), Fail> {
    tell(&rt, ran(rt.alloc(), REVOKE_TAKES_BACK))
}

fn add(commands: &mut Vec<Command>, command: Command) -> Result<(), AllocError> {
    Ok(commands.push(command)?)
}

/// Adds the commands of the lines.
fn read_commands(alloc: Global, lines: &str, commands: &mut Vec<Command>) -> Result<(), WireFault> {
    for line in lines.lines() {
        add(commands, read_line(alloc, line.as_bytes())?)?;
    }
    Ok(())
}

/// What comes of the lines that a list is answered.
fn compared(alloc: Global, lines: &[Line], answers: [&str; 2]) -> Word {
    match texts(alloc, lines) {
        Ok(text) => {
            if is_whole(&text, answers) {
                HELD
            } else {
                "other answers"
            }
        }
        Err(_) => REFUSED,
    }
}

/// What comes of commands as a list, which a new engine is asked.
fn listed(alloc: Global, engine: &mut Engine, commands: Vec<Command>, answers: [&str; 2]) -> Word {
    match ran_list(engine, commands) {
        Some(Ok(lines)) => compared(alloc, &lines, answers),
        Some(Err(EngineFault::Memory)) => refused_by(alloc, engine),
        Some(Err(EngineFault::Failed)) => "the engine had failed",
        None => "the commands break the rules on shape",
    }
}

/// The same with a new engine.
fn listed_by_new(alloc: Global, commands: Vec<Command>, answers: [&str; 2]) -> Word {
    match Engine::new(alloc, 1_024) {
        Ok(mut engine) => {
            let word = listed(alloc, &mut engine, commands, answers);
            drop(engine);
            word
        }
        Err(_) => {
            drop(commands);
            REFUSED
        }
    }
}

/// Adds the commands of both parts of the requests.
fn read_both(
    alloc: Global,
    requests: [&str; 2],
    commands: &mut Vec<Command>,
) -> Result<(), WireFault> {
    read_commands(alloc, requests[0], commands)?;
    read_commands(alloc, requests[1], commands)
}

/// What comes of the example's requests as a list of commands.
fn ran_as_list(alloc: Global, example: Example) -> Word {
    let mut commands = Vec::new(alloc);
    match read_both(alloc, example.requests, &mut commands) {
        Ok(()) => listed_by_new(alloc, commands, example.answers),
        Err(WireFault::Memory) => REFUSED,
        Err(_) => "a line is no command",
    }
}

#[test]
fn first_change_as_a_list(rt: HostRuntime) -> Result<(), Fail> {
    tell(&rt, ran_as_list(rt.alloc(), FIRST_CHANGE))
}

#[test]
fn row_security_then_policy_as_a_list(rt: HostRuntime) -> Result<(), Fail> {
    tell(&rt, ran_as_list(rt.alloc(), ROW_SECURITY_THEN_POLICY))
}

#[test]
fn grouped_sums_as_a_list(rt: HostRuntime) -> Result<(), Fail> {
    tell(&rt, ran_as_list(rt.alloc(), GROUPED_SUMS))
}

#[test]
fn except_under_policy_as_a_list(rt: HostRuntime) -> Result<(), Fail> {
    tell(&rt, ran_as_list(rt.alloc(), EXCEPT_UNDER_POLICY))
}

#[test]
fn revoke_takes_back_as_a_list(rt: HostRuntime) -> Result<(), Fail> {
    tell(&rt, ran_as_list(rt.alloc(), REVOKE_TAKES_BACK))
}
