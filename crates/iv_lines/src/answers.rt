//! `write_lines`: the texts of a command's lines, one after another; `write_line`: the text of one line.
//!
//! `ok`, `subscribed` and changes are fixed parts with numbers and the text of their rows between them, proved to be the text of their
//! value; refusals and faults are written by `serde_json`. The text of rows is written once, if the rows are listed (iv_command), and
//! the part that names a session once for the changes of the session that stand together.
ghost use Rattle.std.specs.Prelude.{◌≡◌, ◌++◌, map, flat_map, decimal, IfOk, OnOk};
ghost use Rattle.iv_machine.specs.Act as machine;
ghost use Rattle.iv_command.specs.Views.{line_of, reply_of};
ghost use Rattle.iv_lines.specs.Parts.{IsPart, cause_part, change_behind, done_text, ended_text, rest_text, session_part, subscribed_text};
ghost use Rattle.iv_lines.specs.Texts.{line_text};

use crate::texts::write_refusal;
use itoa::Buffer;
use iv_command::{Cause, Line, Reply};
use std::alloc::{AllocError, Global};

/// The part of a line that names its session, up to the number of the subscription: that of the last change, and no text
/// before the first.
#[derive(Drop)]
struct SessionPart {
    session: u32,
    text: Vec<u8>,
}

impl SessionPart {
    /// The part of a line's text that names its session, before the first change: it has no text yet.
    fn new(alloc: Global) -> SessionPart
        ensures { IsPart result }
    {
        SessionPart {
            session: 0,
            text: Vec::new(alloc),
        }
    }

    /// Writes the part of a line's text that names its session, unless that session was named last.
    fn name(&mut self, session: u32) -> Result<(), AllocError>
        requires { IsPart self.old }
        ensures text { OnOk result (self.new.text.items ≡ session_part session) }
        ensures part { OnOk result (IsPart self.new) }
    {
        if !self.text.is_empty() && session == self.session {
            return Ok(());
        }
        self.session = session;
        self.text.clear();
        push_number(&mut self.text, b",\"session\":", session as u64)?;
        self.text.extend_from_slice(b",\"sub\":")?;
        Ok(())
    }
}

/// Appends to a line's text a fixed part, and a number after it.
fn push_number(text: &mut Vec<u8>, before: &[u8], number: u64) -> Result<(), AllocError>
    ensures { OnOk result (text.new.items ≡ text.old.items ++ (before.now ++ decimal number)) }
{
    text.extend_from_slice(before)?;
    text.extend_from_slice(Buffer::new().format(number).as_bytes())?;
    Ok(())
}

/// Appends to a line's text its end, which names a subscription.
fn push_rest(text: &mut Vec<u8>, session: u32, sub: u64) -> Result<(), AllocError>
    ensures { OnOk result (text.new.items ≡ text.old.items ++ rest_text session sub) }
{
    push_number(text, b",\"session\":", session as u64)?;
    push_number(text, b",\"sub\":", sub)?;
    text.extend_from_slice(b"}\n")?;
    Ok(())
}

/// Appends the text of a change's line, by the part that names its session and the text of its rows.
fn push_change(text: &mut Vec<u8>, part: &[u8], sub: u64, rows: &[u8]) -> Result<(), AllocError>
    ensures { OnOk result (text.new.items ≡ text.old.items ++ change_behind part.now sub rows.now) }
{
    text.extend_from_slice(b"{\"changes\":")?;
    text.extend_from_slice(rows)?;
    push_number(text, part, sub)?;
    text.extend_from_slice(b"}\n")?;
    Ok(())
}

/// The part of the text of a subscription's last line that tells why it has ended.
fn cause_part(cause: Cause) -> &'static [u8]
    ensures { result.now ≡ cause_part cause }
{
    match cause {
        Cause::Privilege => b",\"ended\":\"privilege\"",
        Cause::Limit => b",\"ended\":\"limit\"",
    }
}

/// Appends the text of a subscription's last line, by the text of its rows.
fn push_ended(
    text: &mut Vec<u8>,
    session: u32,
    sub: u64,
    cause: Cause,
    rows: &[u8],
) -> Result<(), AllocError>
    ensures { OnOk result (text.new.items ≡ text.old.items ++ ended_text session sub cause rows.now) }
{
    text.extend_from_slice(b"{\"changes\":")?;
    text.extend_from_slice(rows)?;
    text.extend_from_slice(cause_part(cause))?;
    push_rest(text, session, sub)
}

/// Appends the text of the line of the reply `ok`, with its session.
fn push_done(text: &mut Vec<u8>, session: u32) -> Result<(), AllocError>
    ensures { OnOk result (text.new.items ≡ text.old.items ++ done_text session) }
{
    push_number(text, b"{\"ok\":true,\"session\":", session as u64)?;
    text.extend_from_slice(b"}\n")?;
    Ok(())
}

/// Appends the text of the reply that a subscription was opened, with its session and number.
fn push_subscribed(text: &mut Vec<u8>, session: u32, sub: u64) -> Result<(), AllocError>
    ensures { OnOk result (text.new.items ≡ text.old.items ++ subscribed_text session sub) }
{
    text.extend_from_slice(b"{\"ok\":true")?;
    push_rest(text, session, sub)
}

/// Appends the text of a reply's line to an answer's bytes.
fn push_reply(
    alloc: Global,
    text: &mut Vec<u8>,
    session: u32,
    reply: &Reply,
) -> Result<(), AllocError>
    ensures { OnOk result (text.new.items ≡ text.old.items ++ line_text (machine.reply session (reply_of reply.now))) }
{
    match reply {
        Reply::Ok => push_done(text, session),
        Reply::Subscribed(sub) => push_subscribed(text, session, *sub),
        Reply::Refused(refusal) => {
            let refused = write_refusal(alloc, session, refusal)?;
            text.extend_from_slice(&refused)?;
            Ok(())
        }
    }
}

/// Appends the text of a line to an answer's bytes.
fn push_line(
    alloc: Global,
    text: &mut Vec<u8>,
    part: &mut SessionPart,
    line: &Line,
) -> Result<(), AllocError>
    requires { IsPart part.old }
    ensures text { OnOk result (text.new.items ≡ text.old.items ++ line_text (line_of line.now)) }
    ensures part { OnOk result (IsPart part.new) }
{
    match line {
        Line::Reply { session, reply } => push_reply(alloc, text, *session, reply),
        Line::Change { session, sub, rows } => {
            part.name(*session)?;
            push_change(text, &part.text, *sub, rows.text())
        }
        Line::Ended {
            session,
            sub,
            cause,
            rows,
        } => push_ended(text, *session, *sub, *cause, rows.text()),
    }
}

/// The texts of the lines of a command, in the memory of a text that was sent.
pub fn write_lines(alloc: Global, lines: &[Line], sent: Vec<u8>) -> Result<Vec<u8>, AllocError>
    ensures { IfOk result (λ text. text.items ≡ flat_map line_text (map line_of lines.now)) }
{
    let mut text = sent;
    text.clear();
    let mut part = SessionPart::new(alloc);
    for line in lines {
        push_line(alloc, &mut text, &mut part, line)?;
    }
    Ok(text)
}

/// The text of one of a command's lines, with its newline.
///
/// # Errors
/// `AllocError` if a growth of memory was refused.
///
/// Source: RFC 8259, compact, keys in the order of their bytes.
pub fn write_line(alloc: Global, line: &Line) -> Result<Vec<u8>, AllocError>
    ensures { IfOk result (λ text. text.items ≡ line_text (line_of line.now)) }
{
    let mut text = Vec::new(alloc);
    push_line(alloc, &mut text, &mut SessionPart::new(alloc), line)?;
    Ok(text)
}
