//! `ended`: how a run of a new engine ends, for the other tests, and a worked example.
use iv_engine::Engine;
use iv_lines::{End, RunFault, Sink, Source};
use iv_wire::run;
use std::alloc::{AllocError, Global};

/// The requests of the worked example `first_change`.
pub const REQUESTS: &str = r#"{"do":"begin","role":"admin","session":1}
{"do":"create_role","name":"ann","session":1}
{"do":"create_table","name":"notes","owner":"admin","columns":[["id","int"],["who","text"]],"session":1}
{"do":"grant","on":"notes","privileges":["select"],"to":"ann","session":1}
{"do":"begin","role":"ann","session":2}
{"do":"subscribe","on":"notes","session":2}
{"do":"write","entries":[{"on":"notes","insert":[1,"ann"]}],"session":1}
"#;

/// What they are answered.
pub const ANSWERS: &str = r#"{"ok":true,"session":1}
{"ok":true,"session":1}
{"ok":true,"session":1}
{"ok":true,"session":1}
{"ok":true,"session":2}
{"ok":true,"session":2,"sub":1}
{"ok":true,"session":1}
{"changes":[[1,[1,"ann"]]],"session":2,"sub":1}
"#;

/// A word for how a run ends.
pub fn word_of(ended: Ended) -> &'static str {
    match ended {
        Ok(End::Input) => "end of input",
        Ok(End::Lines) => "lines taken",
        Ok(End::TooLong) => "too long",
        Err(RunFault::Read) => "read failed",
        Err(RunFault::Write) => "write failed",
        Err(RunFault::Memory) => "out of memory",
        Err(RunFault::Failed) => "failed before",
    }
}

/// How a run ends.
pub type Ended = Result<End, RunFault>;

/// How a run of the engine ends, `Failed` if the engine has failed.
fn ended_by<R: Source, W: Sink>(
    alloc: Global,
    engine: &mut Engine,
    reader: &mut R,
    writer: &mut W,
    lines: u32,
) -> Ended {
    let ended = run(alloc, engine, reader, writer, lines);
    if engine.is_failed() {
        Err(RunFault::Failed)
    } else {
        ended
    }
}

/// The same of a new engine.
pub fn ended<R: Source, W: Sink>(
    alloc: Global,
    reader: &mut R,
    writer: &mut W,
    lines: u32,
) -> Result<Ended, AllocError> {
    let mut engine = Engine::new(alloc, 1_024)?;
    let ended = ended_by(alloc, &mut engine, reader, writer, lines);
    drop(engine);
    Ok(ended)
}
