//! `Entry`: what the journal has at once; `push_step`, `push_accepted` and `push_named` write the lines of one, `read_record` reads them.
ghost use Rattle.std.specs.Prelude.{◌≡◌, ◌≤◌, ◌<◌, ◌++◌, ◌∷◌, [], if◌then◌else◌, IfOk, IfSome, OnOk, List, None, Some, codes, decimal, drop, length, map, option_map, string_bytes, true};
ghost use Rattle.iv_command.specs.Views.{act_of};
ghost use Rattle.iv_message.specs.Seen.{said_of};
ghost use Rattle.iv_journal.specs.Journal.{Line as LineSpec};
ghost use Rattle.iv_rows.specs.Options.{if_some};
ghost use Rattle.iv_records.specs.Journal.{name_text, position_text, record_of, request_text, texts_of};
ghost use Rattle.iv_records.specs.Journal as spec;
ghost use Rattle.iv_records.specs.Parsed.{act_plain, no_entry, part, position_in, record_from, record_in, request_by, request_read, text_in, text_of_request, with_text};
ghost use Rattle.iv_records.specs.Views.{text_of};

use crate::cuts::between;
use crate::journal::{has_newline, is_shared, push_request, request_in};
use crate::names::count_in;
use crate::naming::{name_in, push_name};
use itoa::Buffer;
use iv_command::Act;
use iv_journal::Line;
use iv_message::{Message, read_message};
use iv_once::Named;
use json::Scratch;
use std::alloc::{AllocError, Global};
use std::marker::Model;

/// A request of the journal.
#[derive(Drop)]
pub struct Request {
    /// The role that made it.
    pub role: String,
    /// Its line, without an id and a name.
    pub line: Vec<u8>,
    /// What it asks.
    pub act: Act,
}

impl Model for Request {
    ghost use Rattle.std.specs.Prelude.{string_bytes};
    ghost use Rattle.iv_command.specs.Views.{act_of};
    ghost use Rattle.iv_records.specs.Journal.{Request as RequestSpec};

    ghost Value = { RequestSpec };

    ghost view = { λ q. record { role = string_bytes q.role; line = q.line.items; act = act_of q.act } };
}

/// What the journal has at once.
#[derive(Drop)]
pub struct Entry {
    /// Requests that changed what is shared, in their order.
    pub requests: Vec<Request>,
    /// Names that have an answer by it.
    pub names: Vec<Named>,
    /// The position of a step.
    pub position: Option<u64>,
}

impl Model for Entry {
    ghost use Rattle.iv_records.specs.Journal.{Entry as EntrySpec};

    ghost Value = { EntrySpec };

    ghost view = { λ e. record { requests = e.requests.items; names = e.names.items; position = e.position } };
}

/// A text of the journal, in memory of its own.
#[derive(Drop)]
pub struct OwnedLine {
    /// Whether it is the last of its record.
    pub is_last: bool,
    /// The text.
    pub text: Vec<u8>,
}

impl Model for OwnedLine {
    ghost use Rattle.iv_journal.specs.Journal.{Line as LineSpec};

    ghost Value = { LineSpec };

    ghost view = { λ l. record { is_last = l.is_last; text = l.text.items } };
}

// ---- written

/// Appends the text of a position.
fn push_position(text: &mut Vec<u8>, position: u64) -> Result<(), AllocError>
    ensures { OnOk result (text.new.items ≡ text.old.items ++ position_text position) }
{
    text.extend_from_slice(b"\"step\":")?;
    text.extend_from_slice(Buffer::new().format(position).as_bytes())?;
    text.push(b'}')?;
    Ok(())
}

/// Appends the line of a request.
fn push_request_line(
    alloc: Global,
    lines: &mut Vec<OwnedLine>,
    is_last: bool,
    role: &str,
    line: &[u8],
) -> Result<(), AllocError>
    ensures { OnOk result (lines.new.items ≡ lines.old.items ++ record { is_last = is_last; text = text_of_request role.now line.now } ∷ []) }
{
    let mut text = Vec::new(alloc);
    push_request(&mut text, role, line)?;
    lines.push(OwnedLine { is_last, text })?;
    Ok(())
}

/// Appends the line of a name.
fn push_name_line(
    alloc: Global,
    lines: &mut Vec<OwnedLine>,
    is_last: bool,
    name: &Named,
) -> Result<(), AllocError>
    ensures { OnOk result (lines.new.items ≡ lines.old.items ++ record { is_last = is_last; text = name_text name.now } ∷ []) }
{
    let mut text = Vec::new(alloc);
    push_name(alloc, &mut text, name)?;
    lines.push(OwnedLine { is_last, text })?;
    Ok(())
}

/// Appends the lines of requests, as parts of a record.
fn push_requests(
    alloc: Global,
    lines: &mut Vec<OwnedLine>,
    requests: &[Request],
) -> Result<(), AllocError>
    ensures { OnOk result (lines.new.items ≡ lines.old.items ++ map (λ q. part (request_text q)) requests.now) }
{
    for request in requests {
        push_request_line(alloc, lines, false, &request.role, &request.line)?;
    }
    Ok(())
}

/// Appends the lines of names, as parts of a record.
fn push_names(alloc: Global, lines: &mut Vec<OwnedLine>, names: &[Named]) -> Result<(), AllocError>
    ensures { OnOk result (lines.new.items ≡ lines.old.items ++ map (λ n. part (name_text n)) names.now) }
{
    for name in names {
        push_name_line(alloc, lines, false, name)?;
    }
    Ok(())
}

/// Appends the line of a position, which is the last of its record.
fn push_position_line(
    alloc: Global,
    lines: &mut Vec<OwnedLine>,
    position: u64,
) -> Result<(), AllocError>
    ensures { OnOk result (lines.new.items ≡ lines.old.items ++ record { is_last = true; text = position_text position } ∷ []) }
{
    let mut text = Vec::new(alloc);
    push_position(&mut text, position)?;
    lines.push(OwnedLine {
        is_last: true,
        text,
    })?;
    Ok(())
}

/// Appends the record of a step.
///
/// # Errors
/// `AllocError` where a growth of memory was refused; so it is of each of these functions.
pub fn push_step(
    alloc: Global,
    lines: &mut Vec<OwnedLine>,
    requests: &[Request],
    names: &[Named],
    position: u64,
) -> Result<(), AllocError>
    ensures { OnOk result (lines.new.items ≡ lines.old.items
        ++ record_of (texts_of (record { requests = requests.now; names = names.now; position = Some position }))) }
{
    push_requests(alloc, lines, requests)?;
    push_names(alloc, lines, names)?;
    push_position_line(alloc, lines, position)
}

/// Appends the record of a client's request that is accepted, with its name if it has one.
pub fn push_accepted(
    alloc: Global,
    lines: &mut Vec<OwnedLine>,
    role: &str,
    line: &[u8],
    name: &Option<Named>,
) -> Result<(), AllocError>
    ensures { OnOk result (lines.new.items ≡ lines.old.items ++ record_of (text_of_request role.now line.now ∷ if_some name.now [] (λ n. name_text n ∷ []))) }
{
    match name {
        None => push_request_line(alloc, lines, true, role, line),
        Some(name) => {
            push_request_line(alloc, lines, false, role, line)?;
            push_name_line(alloc, lines, true, name)
        }
    }
}

/// Appends the record of a name alone: of a request that was refused, or of which no more is kept.
pub fn push_named(alloc: Global, lines: &mut Vec<OwnedLine>, name: &Named) -> Result<(), AllocError>
    ensures { OnOk result (lines.new.items ≡ lines.old.items ++ record_of (name_text name.now ∷ [])) }
{
    push_name_line(alloc, lines, true, name)
}

// ---- read

/// What a message asks that is a request without an id.
fn act_plain(message: Message) -> Option<Act>
    ensures { option_map act_of result ≡ act_plain (said_of message) }
{
    match message {
        Message::Request { id: None, act } => Some(act),
        _ => None,
    }
}

/// The request of a role, by its line.
fn request_of(
    alloc: Global,
    role: String,
    line: Vec<u8>,
    scratch: &mut Scratch,
) -> Result<Option<Request>, AllocError>
    ensures { IfOk result (λ o. o ≡ request_by (string_bytes role) line.items) }
{
    let message = read_message(alloc, &line, scratch)?;
    let Some(act) = act_plain(message) else {
        return Ok(None);
    };
    if is_shared(&act) && !has_newline(&line) {
        Ok(Some(Request { role, line, act }))
    } else {
        Ok(None)
    }
}

/// The request of a text that is one.
fn request_read(
    alloc: Global,
    text: &[u8],
    scratch: &mut Scratch,
) -> Result<Option<Request>, AllocError>
    ensures { IfOk result (λ o. o ≡ request_read text.now) }
{
    match request_in(alloc, text)? {
        None => Ok(None),
        Some((role, line)) => {
            let request = request_of(alloc, role, line, scratch)?;
            Ok(request)
        }
    }
}

/// The position of a text that is one.
fn position_in(alloc: Global, text: &[u8], scratch: &mut Scratch) -> Result<Option<u64>, AllocError>
    ensures { IfOk result (λ o. o ≡ position_in text.now) }
{
    let Some((digits, _)) = between(text, b"\"step\":", b'}') else {
        return Ok(None);
    };
    let Some(position) = count_in(alloc, digits, scratch)? else {
        return Ok(None);
    };
    let mut again = Vec::new(alloc);
    push_position(&mut again, position)?;
    if again.as_slice() == text {
        Ok(Some(position))
    } else {
        Ok(None)
    }
}

/// What a text of the journal is.
#[derive(Drop)]
pub(crate) enum Text {
    Request(Request),
    Name(Named),
    Position(u64),
}

/// What a text is, if it is one of the journal.
fn text_in(alloc: Global, text: &[u8], scratch: &mut Scratch) -> Result<Option<Text>, AllocError>
    ensures { IfOk result (λ o. option_map text_of o ≡ text_in text.now) }
{
    match request_read(alloc, text, scratch)? {
        Some(request) => Ok(Some(Text::Request(request))),
        None => match name_in(alloc, text, scratch)? {
            Some(name) => Ok(Some(Text::Name(name))),
            None => match position_in(alloc, text, scratch)? {
                Some(position) => Ok(Some(Text::Position(position))),
                None => Ok(None),
            },
        },
    }
}

impl Entry {
    /// One text more: first come requests, then names, then the position. Whether it may stand there.
    fn add(&mut self, text: Text) -> Result<bool, AllocError>
        ensures { IfOk result (λ is. with_text self.old (text_of text) ≡ (if is then Some self.new else None)) }
    {
        if self.position.is_some() {
            return Ok(false);
        }
        match text {
            Text::Request(request) => {
                if !self.names.is_empty() {
                    return Ok(false);
                }
                self.requests.push(request)?;
            }
            Text::Name(name) => self.names.push(name)?,
            Text::Position(position) => self.position = Some(position),
        }
        Ok(true)
    }

    /// Reads the rest of a record. Answers how many lines that was.
    fn fill(
        &mut self,
        alloc: Global,
        lines: &[Line<'_>],
        scratch: &mut Scratch,
    ) -> Result<Option<usize>, AllocError>
        ensures read { IfOk result (λ o. option_map {U = spec.Entry × List LineSpec} (λ count. (self.new, drop count lines.now)) o
            ≡ record_from self.old lines.now) }
        ensures within { IfOk result (λ o. IfSome o (λ n. n ≤ length lines.now)) }
        ensures some { IfOk result (λ o. IfSome o (λ n. 0 < n)) }
    {
        for at in 0..lines.len() {
            let line = &lines[at];
            let Some(text) = text_in(alloc, line.text, scratch)? else {
                return Ok(None);
            };
            if !self.add(text)? {
                return Ok(None);
            }
            if line.is_last {
                return Ok(Some(at + 1));
            }
        }
        Ok(None)
    }
}

/// The entry of the first record of lines, and how many lines it has.
pub fn read_record(
    alloc: Global,
    lines: &[Line<'_>],
    scratch: &mut Scratch,
) -> Result<Option<(Entry, usize)>, AllocError>
    ensures read { IfOk result (λ o. option_map {U = spec.Entry × List LineSpec} (λ p. (p.0, drop p.1 lines.now)) o ≡ record_in lines.now) }
    ensures within { IfOk result (λ o. IfSome o (λ p. p.1 ≤ length lines.now)) }
    ensures some { IfOk result (λ o. IfSome o (λ p. 0 < p.1)) }
{
    let mut entry = Entry {
        requests: Vec::new(alloc),
        names: Vec::new(alloc),
        position: None,
    };
    match entry.fill(alloc, lines, scratch)? {
        None => Ok(None),
        Some(count) => Ok(Some((entry, count))),
    }
}
