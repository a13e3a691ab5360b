//! `answers`: what viewd answers to the entries of a journal as lines of its own, and then to a subscribe of the administrator.
//! Each entry runs in a session of its own, which is begun for the entry's role.
use crate::out::Out;
use iv_engine::Engine;
use iv_lines::{FromRead, FromWrite};
use iv_wire::run;
use std::alloc::{AllocError, Global};

/// Adds the lines of an entry, which run in a session. Of what is no entry these are damaged.
fn put_entry(lines: &mut Out, entry: &str, session: usize) {
    let rest = entry.strip_prefix("{\"as\":\"").unwrap_or("");
    let (role, rest) = rest.split_once("\",").unwrap_or(("", ""));
    lines.put("{\"do\":\"begin\",\"role\":\"");
    lines.put(role);
    lines.put("\",\"session\":");
    lines.put_number(session, "}\n{\"session\":");
    lines.put_number(session, ",");
    lines.put(rest);
    lines.put("\n");
}

/// viewd's lines of a journal, and of a subscribe.
fn lines_of(alloc: Global, journal: &str, rel: &str) -> Out {
    let mut lines = Out::new(alloc);
    let mut session = 1;
    for entry in journal.lines() {
        put_entry(&mut lines, entry, session);
        session = if session < 99 { session + 1 } else { 1 };
    }
    lines.put("{\"do\":\"begin\",\"role\":\"admin\",\"session\":100}\n");
    lines.put("{\"do\":\"subscribe\",\"session\":100,\"on\":\"");
    lines.put(rel);
    lines.put("\"}\n");
    lines
}

/// Adds what an engine answers to lines; whether that is done.
fn is_told(alloc: Global, engine: &mut Engine, lines: &str, answers: &mut Vec<u8>) -> bool {
    let mut reader = FromRead::new(lines.as_bytes());
    let mut writer = FromWrite::new(answers);
    run(alloc, engine, &mut reader, &mut writer, 1_000).is_ok()
}

/// What a new engine answers to a journal's entries, and to a subscribe.
pub fn answers(alloc: Global, journal: &str, rel: &str) -> Result<Vec<u8>, AllocError> {
    let lines = lines_of(alloc, journal, rel);
    let mut answers = Vec::new(alloc);
    let mut engine = Engine::new(alloc, 1_024)?;
    let is_told = is_told(alloc, &mut engine, lines.text(), &mut answers);
    drop(engine);
    if is_told {
        Ok(answers)
    } else {
        Err(AllocError)
    }
}
