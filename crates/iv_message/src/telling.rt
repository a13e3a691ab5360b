//! `push_replied`, `push_changed` and others: what a client is told, appended to its text as lines of JSON.
//!
//! Changes are most of what is told: their lines are put together here, and the text of their rows is copied; so is the text of a
//! request. The others are written by `serde_json`.
ghost use Rattle.std.specs.Prelude.{◌≡◌, ◌++◌, ℤ, List, false, IfOk, OnOk, codes, option_map, string_bytes};
ghost use Rattle.serde_json.specs.Data.{object, string, member, no_members};
ghost use Rattle.serde_json.specs.View.{members_view};
ghost use Rattle.serde_json.specs.Written.{compact_text, has_float};
ghost use Rattle.iv_rows.specs.Cell.{Cell};
ghost use Rattle.iv_command.specs.RowTexts.{rows_text};
ghost use Rattle.iv_command.specs.Views.{reply_of};
ghost use Rattle.iv_lines.specs.Texts.{reply_members, text_of};
ghost use Rattle.iv_message.specs.Parts.{cause_key, own_text};
ghost use Rattle.iv_message.specs.Seen.{id_data, why_of};
ghost use Rattle.iv_message.specs.Told as told;
ghost use Rattle.iv_request.specs.Values.{natural};
ghost use Rattle.iv_message.specs.Told.{again_text, id_text, most_names, opened_members, protocol, told_text, why_members, with_id};

use crate::members::{id_json, put_id, put_opened, put_reply, put_why};
use crate::message::{Id, Why};
use crate::reading::on_one_line;
use itoa::Buffer;
use iv_command::{Cause, Reply};
use iv_lines::{put_number, put_text, text_of, write_fault};
use iv_rows::Column;
use serde_json::{Map, Value as Json};
use std::alloc::{AllocError, Global};

/// The number of what clients say and are told: another one says that a client has to be changed.
pub const PROTOCOL: u64 = 1;

/// How many names of each holder are kept.
pub const MOST_NAMES: u64 = 64;

/// Appends the text of a JSON object with these members, as a line.
fn push_members(
    alloc: Global,
    text: &mut Vec<u8>,
    members: Map<String, Json>,
) -> Result<(), AllocError>
    ensures { OnOk result (has_float (object (members_view members.entries)) ≡ false
        → text.new.items ≡ text.old.items ++ text_of (object (members_view members.entries))) }
{
    let line = text_of(alloc, members)?;
    text.extend_from_slice(&line)?;
    Ok(())
}

/// Appends a line with one text.
fn push_text(alloc: Global, text: &mut Vec<u8>, key: &str, value: &str) -> Result<(), AllocError>
    ensures { OnOk result (text.new.items ≡ text.old.items ++ text_of (object (member key.now (string value.now) no_members))) }
{
    let mut members = Map::new(alloc);
    match put_text(alloc, &mut members, key, value) {
        Ok(()) => push_members(alloc, text, members),
        Err(error) => {
            drop(members);
            Err(error)
        }
    }
}

/// The members of a welcome.
fn put_welcome(alloc: Global, members: &mut Map<String, Json>, role: &str) -> Result<(), AllocError>
    requires { members_view members.old.entries ≡ no_members }
    ensures { OnOk result (members_view members.new.entries ≡ member (codes "protocol") (natural protocol) (member (codes "role") (string role.now) no_members)) }
{
    put_number(alloc, members, "protocol", PROTOCOL)?;
    put_text(alloc, members, "role", role)
}

/// Appends the first line that a client is told: the number of the protocol, and its role.
///
/// # Errors
/// `AllocError` if a growth of memory was refused; so it is of each of these functions.
pub fn push_welcome(alloc: Global, text: &mut Vec<u8>, role: &str) -> Result<(), AllocError>
    ensures { OnOk result (text.new.items ≡ text.old.items ++ told_text (told.welcome role.now)) }
{
    let mut members = Map::new(alloc);
    match put_welcome(alloc, &mut members, role) {
        Ok(()) => push_members(alloc, text, members),
        Err(error) => {
            drop(members);
            Err(error)
        }
    }
}

/// Appends that the client's role was granted something on a relation.
pub fn push_granted(alloc: Global, text: &mut Vec<u8>, rel: &str) -> Result<(), AllocError>
    ensures { OnOk result (text.new.items ≡ text.old.items ++ told_text (told.granted rel.now)) }
{
    push_text(alloc, text, "granted", rel)
}

/// The members of a reply, with the id.
fn put_replied(
    alloc: Global,
    members: &mut Map<String, Json>,
    id: &Option<Id>,
    reply: &Reply,
) -> Result<(), AllocError>
    requires { members_view members.old.entries ≡ no_members }
    ensures { OnOk result (object (members_view members.new.entries) ≡ with_id (option_map id_data id.now) (reply_members (reply_of reply.now))) }
{
    put_reply(alloc, members, reply)?;
    put_id(alloc, members, id)
}

/// Appends the reply to a request: viewd's, without its session, and with the id of the request.
pub fn push_replied(
    alloc: Global,
    text: &mut Vec<u8>,
    id: &Option<Id>,
    reply: &Reply,
) -> Result<(), AllocError>
    ensures { OnOk result (text.new.items ≡ text.old.items ++ told_text (told.replied (option_map id_data id.now) (reply_of reply.now))) }
{
    let mut members = Map::new(alloc);
    match put_replied(alloc, &mut members, id, reply) {
        Ok(()) => push_members(alloc, text, members),
        Err(error) => {
            drop(members);
            Err(error)
        }
    }
}

/// The members of a subscription that was opened, with the id.
fn put_columns(
    alloc: Global,
    members: &mut Map<String, Json>,
    id: &Option<Id>,
    own: u64,
    columns: &[Column],
) -> Result<(), AllocError>
    requires { members_view members.old.entries ≡ no_members }
    ensures { OnOk result (object (members_view members.new.entries) ≡ with_id (option_map id_data id.now) (opened_members own columns.now)) }
{
    put_opened(alloc, members, own, columns)?;
    put_id(alloc, members, id)
}

/// Appends the reply to a subscribe that was accepted: the columns of the relation, and the client's own number.
pub fn push_opened(
    alloc: Global,
    text: &mut Vec<u8>,
    id: &Option<Id>,
    own: u64,
    columns: &[Column],
) -> Result<(), AllocError>
    ensures { OnOk result (text.new.items ≡ text.old.items ++ told_text (told.opened (option_map id_data id.now) own columns.now)) }
{
    let mut members = Map::new(alloc);
    match put_columns(alloc, &mut members, id, own, columns) {
        Ok(()) => push_members(alloc, text, members),
        Err(error) => {
            drop(members);
            Err(error)
        }
    }
}

/// The members of a reason, with the id.
fn put_unasked(
    alloc: Global,
    members: &mut Map<String, Json>,
    id: &Option<Id>,
    why: &Why,
) -> Result<(), AllocError>
    requires { members_view members.old.entries ≡ no_members }
    ensures { OnOk result (object (members_view members.new.entries) ≡ with_id (option_map id_data id.now) (why_members (why_of why.now))) }
{
    put_why(alloc, members, why)?;
    put_id(alloc, members, id)
}

/// Appends why an object is no request.
pub fn push_unasked(
    alloc: Global,
    text: &mut Vec<u8>,
    id: &Option<Id>,
    why: &Why,
) -> Result<(), AllocError>
    ensures { OnOk result (text.new.items ≡ text.old.items ++ told_text (told.unasked (option_map id_data id.now) (why_of why.now))) }
{
    let mut members = Map::new(alloc);
    match put_unasked(alloc, &mut members, id, why) {
        Ok(()) => push_members(alloc, text, members),
        Err(error) => {
            drop(members);
            Err(error)
        }
    }
}

/// Appends the number of a refusal alone: of a text that is no JSON (1), no object (2), or too long (22).
pub fn push_fault(alloc: Global, text: &mut Vec<u8>, number: u64) -> Result<(), AllocError>
    ensures { OnOk result (text.new.items ≡ text.old.items ++ told_text (told.fault number)) }
{
    let line = write_fault(alloc, number)?;
    text.extend_from_slice(&line)?;
    Ok(())
}

/// Appends the end of a line, which names the client's own number of a subscription.
fn push_own(text: &mut Vec<u8>, own: u64) -> Result<(), AllocError>
    ensures { OnOk result (text.new.items ≡ text.old.items ++ own_text own) }
{
    text.extend_from_slice(b",\"sub\":")?;
    text.extend_from_slice(Buffer::new().format(own).as_bytes())?;
    text.extend_from_slice(b"}\n")?;
    Ok(())
}

/// Appends the changes of a subscription, by the text of their rows.
pub fn push_changed(text: &mut Vec<u8>, own: u64, rows: &[u8]) -> Result<(), AllocError>
    ensures { OnOk result ((es : List (List Cell × ℤ)) → rows.now ≡ rows_text es → text.new.items ≡ text.old.items ++ told_text (told.changed own es)) }
{
    text.extend_from_slice(b"{\"changes\":")?;
    text.extend_from_slice(rows)?;
    push_own(text, own)?;
    Ok(())
}

/// The JSON text of a text.
pub fn quoted(alloc: Global, value: &str) -> Result<String, AllocError>
    ensures { IfOk result (λ text. string_bytes text ≡ compact_text (string value.now)) }
{
    let value = Json::try_from_str(alloc, value)?;
    let text = value.to_string(alloc);
    drop(value);
    text
}

/// The part of a subscription's last line that tells why it has ended, up to its relation.
fn cause_key(cause: Cause) -> &'static [u8]
    ensures { result.now ≡ cause_key cause }
{
    match cause {
        Cause::Privilege => b",\"ended\":\"privilege\",\"on\":",
        Cause::Limit => b",\"ended\":\"limit\",\"on\":",
    }
}

/// Appends why a subscription has ended, and the relation that was asked for.
fn push_cause(alloc: Global, text: &mut Vec<u8>, rel: &str, cause: Cause) -> Result<(), AllocError>
    ensures { OnOk result (text.new.items ≡ text.old.items ++ (cause_key cause ++ compact_text (string rel.now))) }
{
    let rel = quoted(alloc, rel)?;
    text.extend_from_slice(cause_key(cause))?;
    text.extend_from_slice(rel.as_bytes())?;
    Ok(())
}

/// Appends the last line of a subscription: the changes that take back what it showed, why it has ended, and its relation.
pub fn push_over(
    alloc: Global,
    text: &mut Vec<u8>,
    own: u64,
    rel: &str,
    cause: Cause,
    rows: &[u8],
) -> Result<(), AllocError>
    ensures { OnOk result ((es : List (List Cell × ℤ)) → rows.now ≡ rows_text es
        → text.new.items ≡ text.old.items ++ told_text (told.over own rel.now cause es)) }
{
    text.extend_from_slice(b"{\"changes\":")?;
    text.extend_from_slice(rows)?;
    push_cause(alloc, text, rel, cause)?;
    push_own(text, own)?;
    Ok(())
}

/// Appends who made a request, and the request as its client wrote it.
pub fn push_made(
    alloc: Global,
    text: &mut Vec<u8>,
    role: &str,
    line: &[u8],
) -> Result<(), AllocError>
    ensures { OnOk result (text.new.items ≡ text.old.items ++ told_text (told.made role.now line.now)) }
{
    let role = quoted(alloc, role)?;
    let request = on_one_line(alloc, line)?;
    text.extend_from_slice(b"{\"as\":")?;
    text.extend_from_slice(role.as_bytes())?;
    text.extend_from_slice(b",\"made\":")?;
    text.extend_from_slice(&request)?;
    text.extend_from_slice(b"}\n")?;
    Ok(())
}

/// The members of where names stand.
fn put_placed(alloc: Global, members: &mut Map<String, Json>, at: &str) -> Result<(), AllocError>
    requires { members_view members.old.entries ≡ no_members }
    ensures { OnOk result (members_view members.new.entries ≡ member (codes "at") (string at.now) (member (codes "names") (natural most_names) no_members)) }
{
    put_text(alloc, members, "at", at)?;
    put_number(alloc, members, "names", MOST_NAMES)
}

/// Appends where the names of the client's holder stand, and how many of them are kept.
pub fn push_placed(alloc: Global, text: &mut Vec<u8>, at: &str) -> Result<(), AllocError>
    ensures { OnOk result (text.new.items ≡ text.old.items ++ told_text (told.placed at.now)) }
{
    let mut members = Map::new(alloc);
    match put_placed(alloc, &mut members, at) {
        Ok(()) => push_members(alloc, text, members),
        Err(error) => {
            drop(members);
            Err(error)
        }
    }
}

/// What an answer to a request with a name begins with.
fn again_text(again: bool) -> &'static [u8]
    ensures { result.now ≡ again_text again }
{
    if again {
        b"{\"again\":true,\"answer\":"
    } else {
        b"{\"answer\":"
    }
}

/// The JSON text of an id.
fn id_written(alloc: Global, id: &Id) -> Result<String, AllocError>
    ensures { IfOk result (λ text. string_bytes text ≡ compact_text (id_data id.now)) }
{
    let value = id_json(alloc, id)?;
    let text = value.to_string(alloc);
    drop(value);
    text
}

/// Appends the id that the client gave, where it gave one.
fn push_id(alloc: Global, text: &mut Vec<u8>, id: &Option<Id>) -> Result<(), AllocError>
    ensures { OnOk result (text.new.items ≡ text.old.items ++ id_text (option_map id_data id.now)) }
{
    match id {
        None => Ok(()),
        Some(id) => {
            let written = id_written(alloc, id)?;
            text.extend_from_slice(b",\"id\":")?;
            text.extend_from_slice(written.as_bytes())?;
            Ok(())
        }
    }
}

/// Appends the answer to a request with a name, as it was first given, whether it is told again, and where the names of the client's holder
/// stand after it.
pub fn push_answered(
    alloc: Global,
    text: &mut Vec<u8>,
    id: &Option<Id>,
    again: bool,
    at: &str,
    answer: &[u8],
) -> Result<(), AllocError>
    ensures { OnOk result (text.new.items ≡ text.old.items ++ told_text (told.answered (option_map id_data id.now) again at.now answer.now)) }
{
    let answer = on_one_line(alloc, answer)?;
    let at = quoted(alloc, at)?;
    text.extend_from_slice(again_text(again))?;
    text.extend_from_slice(&answer)?;
    text.extend_from_slice(b",\"at\":")?;
    text.extend_from_slice(at.as_bytes())?;
    push_id(alloc, text, id)?;
    text.extend_from_slice(b"}\n")?;
    Ok(())
}

/// The members of a number under a key, with the id.
fn put_numbered(
    alloc: Global,
    members: &mut Map<String, Json>,
    key: &str,
    id: &Option<Id>,
    number: u64,
) -> Result<(), AllocError>
    requires { members_view members.old.entries ≡ no_members }
    ensures { OnOk result (object (members_view members.new.entries) ≡ with_id (option_map id_data id.now) (member key.now (natural number) no_members)) }
{
    put_number(alloc, members, key, number)?;
    put_id(alloc, members, id)
}

/// Appends a number under a key, with the id.
fn push_numbered(
    alloc: Global,
    text: &mut Vec<u8>,
    key: &str,
    id: &Option<Id>,
    number: u64,
) -> Result<(), AllocError>
    ensures { OnOk result (text.new.items ≡ text.old.items ++ text_of (with_id (option_map id_data id.now) (member key.now (natural number) no_members))) }
{
    let mut members = Map::new(alloc);
    match put_numbered(alloc, &mut members, key, id, number) {
        Ok(()) => push_members(alloc, text, members),
        Err(error) => {
            drop(members);
            Err(error)
        }
    }
}

/// Appends by which rule nobody says whether a request with a name was done: 100 to 104.
pub fn push_undecided(
    alloc: Global,
    text: &mut Vec<u8>,
    id: &Option<Id>,
    number: u64,
) -> Result<(), AllocError>
    ensures { OnOk result (text.new.items ≡ text.old.items ++ told_text (told.undecided (option_map id_data id.now) number)) }
{
    push_numbered(alloc, text, "undecided", id, number)
}

/// Appends by which rule of the gateway a request was not done.
pub fn push_denied(
    alloc: Global,
    text: &mut Vec<u8>,
    id: &Option<Id>,
    number: u64,
) -> Result<(), AllocError>
    ensures { OnOk result (text.new.items ≡ text.old.items ++ told_text (told.denied (option_map id_data id.now) number)) }
{
    push_numbered(alloc, text, "error", id, number)
}

/// Appends that all lines of a command are told.
pub fn push_settled(text: &mut Vec<u8>) -> Result<(), AllocError>
    ensures { OnOk result (text.new.items ≡ text.old.items ++ told_text told.settled) }
{
    text.extend_from_slice(b"{\"settled\":true}\n")?;
    Ok(())
}

/// Appends that the connection is alive.
pub fn push_alive(text: &mut Vec<u8>) -> Result<(), AllocError>
    ensures { OnOk result (text.new.items ≡ text.old.items ++ told_text told.alive) }
{
    text.extend_from_slice(b"{\"alive\":true}\n")?;
    Ok(())
}
