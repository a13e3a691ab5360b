//! A test of the relations on which roles have something, as an engine tells them without a command.
use crate::commands::told;
use iv_engine::Engine;
use std::alloc::{AllocError, Global};
use std::test::Fail;

/// `ann` may delete from a table, and has what `team` owns; everybody reads the view.
const REQUESTS: &str = r#"{"do":"begin","role":"admin","session":1}
{"do":"create_role","name":"ann","session":1}
{"do":"create_role","name":"bob","session":1}
{"do":"create_role","name":"team","session":1}
{"do":"create_table","name":"notes","owner":"admin","columns":[["id","int"],["who","text"]],"session":1}
{"do":"create_table","name":"tags","owner":"team","columns":[["tag","text"]],"session":1}
{"do":"create_view","name":"ids","owner":"admin","query":"select id from notes","session":1}
{"do":"grant","on":"notes","privileges":["delete"],"to":"ann","session":1}
{"do":"grant","on":"ids","privileges":["select"],"to":"public","session":1}
{"do":"grant_role","role":"team","session":1,"to":"ann"}
"#;

/// Has the engine answer all requests.
fn ask_all(alloc: Global, engine: &mut Engine) {
    for line in REQUESTS.lines() {
        drop(told(alloc, engine, line));
    }
}

/// Writes the names of the relations of a role, on a line.
fn push_relations(
    alloc: Global,
    engine: &Engine,
    role: &str,
    text: &mut Vec<u8>,
) -> Result<(), AllocError> {
    let names = engine.relations_with(alloc, role)?;
    for name in names.iter() {
        text.extend_from_slice(name.as_bytes())?;
        text.push(b' ')?;
    }
    text.push(b'\n')?;
    Ok(())
}

/// The relations of each role, and of a name that no role has.
fn relations_after(alloc: Global, engine: &mut Engine) -> Result<Vec<u8>, AllocError> {
    ask_all(alloc, engine);
    let mut text = Vec::new(alloc);
    for role in ["admin", "ann", "bob", "team", "eve"] {
        push_relations(alloc, engine, role, &mut text)?;
    }
    Ok(text)
}

/// The same of a new engine.
fn relations_anew(alloc: Global) -> Result<Vec<u8>, AllocError> {
    let mut engine = Engine::new(alloc, 1_024)?;
    let text = relations_after(alloc, &mut engine);
    drop(engine);
    text
}

#[test]
fn relations_of_roles_are_told(rt: HostRuntime) -> Result<(), Fail> {
    let wanted = b"notes tags ids \nnotes tags ids \nids \ntags ids \n\n";
    assert_eq!(rt; relations_anew(rt.alloc())?.as_slice(), wanted.as_slice());
    Ok(())
}
