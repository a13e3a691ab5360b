//! `messages_are_told`, `lines_are_told`: tests of iv_message, what clients say and are told, as texts.
use iv_command::{Cause, Reply};
use iv_message::{
    Id, Message, push_alive, push_changed, push_fault, push_granted, push_opened, push_over,
    push_replied, push_settled, push_unasked, push_welcome, read_message,
};
use iv_rows::{Column, Kind};
use json::Scratch;
use std::alloc::{AllocError, Global};
use std::test::Fail;

/// Messages, each with what a client is told of it if its request is done.
const MESSAGES: &str = r#"{"do":"subscribe","on":"notes"} => {"ok":true}
{"do":"subscribe","id":7,"on":"notes"} => {"id":7,"ok":true}
{"do":"grant_role","id":"a","role":"team","to":"ann"} => {"id":"a","ok":true}
{"do":"write","entries":[{"on":"a","insert":[1]}]} => {"ok":true}
subscribe => {"error":1}
[7] => {"error":2}
{} => {"error":2,"key":"do","why":"missing"}
{"do":"finish","id":7} => {"error":2,"id":7,"key":"do","why":"wrong"}
{"do":"subscribe","id":1.5,"on":"notes"} => {"error":2,"key":"id","why":"wrong"}
{"do":"create_view","name":"v"} => {"error":2,"key":"owner","why":"missing"}
{"do":"subscribe","on":"a","z":1,"b":1} => {"error":2,"key":"b","why":"unknown"}
{"do":"subscribe","id":7,"on":"notes","session":1} => {"error":2,"id":7,"key":"session","why":"unknown"}
{"do":"create_table","name":"t","owner":"admin","columns":[]} => {"error":2,"key":"columns","why":"wrong"}
{"do":"grant","on":"a","privileges":["all"],"to":"ann"} => {"error":2,"key":"privileges","why":"wrong"}
{"do":"grant_role","role":"admin","to":"ann"} => {"error":2,"key":"role","why":"wrong"}
{"do":"row_security","on":"a","enable":1,"force":true} => {"error":2,"key":"enable","why":"wrong"}
{"do":"create_policy","on":"a","name":"p","command":"insert","using":"true"} => {"error":2,"key":"using","why":"wrong"}
{"do":"create_policy","on":"a","name":"p","using":"true","to":[]} => {"error":2,"key":"to","why":"wrong"}
{"do":"write","entries":[{"on":"a","insert":[1]},{"on":"a"}]} => {"entry":2,"error":2,"key":"entries","why":"wrong"}
{"do":"unsubscribe","sub":0} => {"error":2,"key":"sub","why":"wrong"}"#;

/// A message of two lines.
const OF_TWO_LINES: &str =
    "{\"id\":-1,\n\"do\":\"unsubscribe\",\"sub\":1} => {\"id\":-1,\"ok\":true}";

/// What else a client is told, by hand.
const LINES: &str = "{\"protocol\":1,\"role\":\"mia\"}
{\"columns\":[[\"id\",\"int\"]],\"id\":\"a\\\"\",\"ok\":true,\"sub\":1}
{\"changes\":[[1,[7]]],\"sub\":1}
{\"settled\":true}
{\"changes\":[],\"ended\":\"limit\",\"on\":\"notes\",\"sub\":1}
{\"granted\":\"notes\"}
{\"alive\":true}
";

/// Adds what is told of a message: why it is no request, or that it is done.
fn tell(
    alloc: Global,
    message: &str,
    scratch: &mut Scratch,
    text: &mut Vec<u8>,
) -> Result<(), AllocError> {
    match read_message(alloc, message.as_bytes(), scratch)? {
        Message::NoJson => push_fault(alloc, text, 1),
        Message::TooLong => push_fault(alloc, text, 22),
        Message::NoObject => push_fault(alloc, text, 2),
        Message::NoRequest { id, why } => push_unasked(alloc, text, &id, &why),
        Message::Request { id, act: _ } => push_replied(alloc, text, &id, &Reply::Ok),
    }
}

/// A column of a table.
fn columns(alloc: Global) -> Result<Vec<Column>, AllocError> {
    let name = String::from_str(alloc, "id")?;
    let kind = Kind::Int;
    Ok(Vec::from_array(alloc, [Column { name, kind }])?)
}

/// Adds that a subscription is opened.
fn tell_opened(alloc: Global, text: &mut Vec<u8>) -> Result<(), AllocError> {
    let columns = columns(alloc)?;
    let id = Some(Id::Text(String::from_str(alloc, "a\"")?));
    push_opened(alloc, text, &id, 1, &columns)
}

/// Adds each of the other lines.
fn tell_lines(alloc: Global, text: &mut Vec<u8>) -> Result<(), AllocError> {
    push_welcome(alloc, text, "mia")?;
    tell_opened(alloc, text)?;
    push_changed(text, 1, b"[[1,[7]]]")?;
    push_settled(text)?;
    push_over(alloc, text, 1, "notes", Cause::Limit, b"[]")?;
    push_granted(alloc, text, "notes")?;
    push_alive(text)
}

/// Whether that is told of a message, with its end of line.
fn is_told(
    alloc: Global,
    message: &str,
    scratch: &mut Scratch,
    told: &str,
) -> Result<bool, AllocError> {
    let mut text = Vec::new(alloc);
    tell(alloc, message, scratch, &mut text)?;
    Ok(text.strip_suffix(b"\n") == Some(told.as_bytes()))
}

/// Whether what the line has is told of its message.
fn is_so(alloc: Global, line: &str, scratch: &mut Scratch) -> Result<bool, AllocError> {
    match line.split_once(" => ") {
        Some((message, told)) => is_told(alloc, message, scratch, told),
        None => Ok(false),
    }
}

/// The first line whose message is told otherwise.
fn first_other(alloc: Global) -> &'static str {
    let mut scratch = Scratch::new(alloc);
    for line in MESSAGES.lines() {
        if is_so(alloc, line, &mut scratch) != Ok(true) {
            return line;
        }
    }
    if is_so(alloc, OF_TWO_LINES, &mut scratch) == Ok(true) {
        "none"
    } else {
        OF_TWO_LINES
    }
}

#[test]
fn messages_are_told(rt: HostRuntime) {
    assert_eq!(rt; first_other(rt.alloc()), "none");
}

/// The other lines.
fn lines(alloc: Global) -> Result<Vec<u8>, AllocError> {
    let mut text = Vec::new(alloc);
    tell_lines(alloc, &mut text)?;
    Ok(text)
}

#[test]
fn lines_are_told(rt: HostRuntime) -> Result<(), Fail> {
    assert_eq!(rt; lines(rt.alloc())?.as_slice(), LINES.as_bytes());
    Ok(())
}

/// `[]`, and blanks after it, of so many bytes.
fn blank(alloc: Global, bytes: usize) -> Result<Vec<u8>, AllocError> {
    let mut message = Vec::new(alloc);
    message.extend_from_slice(b"[]")?;
    message.resize(bytes, b' ')?;
    Ok(message)
}

/// What such a message is.
fn blank_read(alloc: Global, bytes: usize) -> Result<&'static str, AllocError> {
    let message = blank(alloc, bytes)?;
    let mut scratch = Scratch::new(alloc);
    match read_message(alloc, &message, &mut scratch) {
        Ok(Message::NoObject) => Ok("no object"),
        Ok(Message::TooLong) => Ok("too long"),
        Ok(_) => Ok("another message"),
        Err(error) => Err(error),
    }
}

#[test]
fn longest_message_is_read(rt: HostRuntime) {
    assert!(rt; blank_read(rt.alloc(), 65_536) == Ok("no object"));
    assert!(rt; blank_read(rt.alloc(), 65_537) == Ok("too long"));
}
