//! `read_said`: what a client says, by which name, and the line that its entry has, which is without its id and its name.
ghost use Rattle.std.specs.Prelude.{◌≡◌, ℕ, List, Option, IfOk, codes, Some, None, true, option_map};
ghost use Rattle.iv_records.specs.Journal.{Parts, begins_object, claim_said, first_id, id_in_front, is_blank, line_said, not_request, parts_of, said_by, said_in, unindented, with_front};
ghost use Rattle.iv_rows.specs.Options.{if_some};
ghost use Rattle.iv_records.specs.Names as spec;
ghost use Rattle.iv_records.specs.Names.{claim_in};
ghost use Rattle.iv_message.specs.Message.{is_well_message, wrong};
ghost use Rattle.iv_message.specs.Seen.{id_data, said_of, why_of};

use crate::cuts::{behind, cut_at};
use crate::journal::with_brace;
use crate::names::{Claim, claim_in};
use iv_message::{Id, Message, Why, on_one_line, read_id, read_message};
use json::Scratch;
use std::alloc::{AllocError, Global};

/// The most bytes of a message.
pub(crate) const MOST_SAID: usize = 65_463;

fn is_blank(byte: u8) -> bool
    ensures { result ≡ is_blank byte }
{
    byte == b' ' || byte == b'\t' || byte == b'\r'
}

/// Without the blanks in front.
fn unindented(text: &[u8]) -> &[u8]
    ensures { result.now ≡ unindented text.now }
{
    for at in 0..text.len() {
        if !is_blank(text[at]) {
            return &text[at..];
        }
    }
    &[]
}

/// Whether the text begins with a brace.
fn begins_object(text: &[u8]) -> bool
    ensures { result ≡ begins_object text.now }
{
    match text {
        [] => false,
        [first, ..] => *first == b'{',
    }
}

/// The id in front of a line, and the line without it.
fn id_in_front(
    alloc: Global,
    line: &[u8],
    scratch: &mut Scratch,
) -> Result<Option<(Id, Vec<u8>)>, AllocError>
    ensures { IfOk result (λ o. option_map {U = Parts} (λ p. (Some (id_data p.0), p.1.items)) o ≡ id_in_front line.now) }
{
    let Some(rest) = behind(line, b"{\"id\":") else {
        return Ok(None);
    };
    let Some((text, rest)) = cut_at(rest, b',') else {
        return Ok(None);
    };
    match read_id(alloc, text, scratch)? {
        None => Ok(None),
        Some(id) => Ok(Some((id, with_brace(alloc, rest)?))),
    }
}

/// The id in front of a line, if there is one, and the line without it.
fn parts_of(
    alloc: Global,
    line: &[u8],
    scratch: &mut Scratch,
) -> Result<(Option<Id>, Vec<u8>), AllocError>
    ensures id { IfOk result (λ p. option_map id_data p.0 ≡ (parts_of line.now).0) }
    ensures line { IfOk result (λ p. p.1.items ≡ (parts_of line.now).1) }
{
    match id_in_front(alloc, line, scratch)? {
        Some((id, rest)) => Ok((Some(id), rest)),
        None => {
            let mut all = Vec::new(alloc);
            all.extend_from_slice(line)?;
            Ok((None, all))
        }
    }
}

/// That an id is not in front.
fn wrong_id(alloc: Global) -> Result<Why, AllocError>
    ensures { IfOk result (λ why. why_of why ≡ wrong (codes "id") None) }
{
    Ok(Why::Wrong(String::from_str(alloc, "id")?, None))
}

/// A message that was read, with the id in front of it.
fn with_front(alloc: Global, front: Option<Id>, message: Message) -> Result<Message, AllocError>
    requires { is_well_message (said_of message) ≡ true }
    ensures message { IfOk result (λ m. said_of m ≡ with_front (option_map id_data front) (said_of message)) }
    ensures well { IfOk result (λ m. is_well_message (said_of m) ≡ true) }
{
    match message {
        Message::Request { id: None, act } => Ok(Message::Request { id: front, act }),
        Message::Request { id: other, .. } => Ok(Message::NoRequest {
            id: first_id(front, other),
            why: wrong_id(alloc)?,
        }),
        Message::NoRequest { id, why } => Ok(Message::NoRequest {
            id: first_id(front, id),
            why,
        }),
        Message::NoJson => Ok(Message::NoJson),
        Message::TooLong => Ok(Message::TooLong),
        Message::NoObject => Ok(Message::NoObject),
    }
}

/// The first of two ids that is there.
fn first_id(front: Option<Id>, id: Option<Id>) -> Option<Id>
    ensures { option_map id_data result ≡ first_id (option_map id_data front) (option_map id_data id) }
{
    match front {
        None => id,
        Some(id) => Some(id),
    }
}

/// A message that was read, if its text begins with no brace.
fn not_request(message: Message) -> Message
    ensures message { said_of result ≡ not_request (said_of message) }
    ensures well { is_well_message (said_of result) ≡ true }
{
    match message {
        Message::NoJson => Message::NoJson,
        _ => Message::NoObject,
    }
}

/// What a client says by a line with this id in front.
fn said_in(
    alloc: Global,
    front: Option<Id>,
    line: &[u8],
    scratch: &mut Scratch,
) -> Result<Message, AllocError>
    ensures message { IfOk result (λ m. said_of m ≡ said_in (option_map id_data front, line.now)) }
    ensures well { IfOk result (λ m. is_well_message (said_of m) ≡ true) }
{
    let message = read_message(alloc, line, scratch)?;
    if begins_object(line) {
        with_front(alloc, front, message)
    } else {
        Ok(not_request(message))
    }
}

/// The name in front of a line, if there is one, and the line without it.
fn named_parts(
    alloc: Global,
    line: Vec<u8>,
    scratch: &mut Scratch,
) -> Result<(Option<Claim>, Vec<u8>), AllocError>
    ensures { IfOk result (λ p. ◌≡◌ {A = Option spec.Claim × List ℕ} (p.0, p.1.items)
        (if_some {B = Option spec.Claim × List ℕ} (claim_in line.items) (None, line.items) (λ q. (Some q.0, q.1)))) }
{
    match claim_in(alloc, &line, scratch)? {
        Some((claim, rest)) => Ok((Some(claim), rest)),
        None => Ok((None, line)),
    }
}

/// What a client says: the message, its name if it has one, and the line that its entry has.
#[derive(Drop)]
pub struct Said {
    /// The message, with its id.
    pub message: Message,
    /// Its name.
    pub claim: Option<Claim>,
    /// The line, without its id and its name.
    pub line: Vec<u8>,
}

/// Reads what a client says.
///
/// # Errors
/// `AllocError` if a growth of memory was refused.
pub fn read_said(alloc: Global, text: &[u8], scratch: &mut Scratch) -> Result<Said, AllocError>
    ensures message { IfOk result (λ s. said_of s.message ≡ said_by text.now) }
    ensures well { IfOk result (λ s. is_well_message (said_of s.message) ≡ true) }
    ensures claim { IfOk result (λ s. s.claim ≡ claim_said text.now) }
    ensures line { IfOk result (λ s. s.line.items ≡ line_said text.now) }
{
    let all = on_one_line(alloc, text)?;
    let (front, rest) = parts_of(alloc, unindented(&all), scratch)?;
    let (claim, line) = named_parts(alloc, rest, scratch)?;
    if text.len() > MOST_SAID {
        return Ok(Said {
            message: Message::TooLong,
            claim,
            line,
        });
    }
    let message = said_in(alloc, front, &line, scratch)?;
    Ok(Said {
        message,
        claim,
        line,
    })
}
