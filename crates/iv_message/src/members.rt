//! `id_json`, `put_id`, `put_reply`, `put_why`, `put_opened`: the JSON members of what a client is told.
ghost use Rattle.std.specs.Prelude.{◌≡◌, ◌++◌, [], ◌∷◌, IfOk, OnOk, map, option_map, string_bytes};
ghost use Rattle.serde_json.specs.Data.{object, array, string, item, no_items, no_members, put as with_member};
ghost use Rattle.serde_json.specs.View.{items_of, members_view, view};
ghost use Rattle.iv_command.specs.Views.{reply_of};
ghost use Rattle.iv_request.specs.Asked.{column_data, kind_text};
ghost use Rattle.iv_lines.specs.Texts.{reply_members};
ghost use Rattle.iv_message.specs.Seen.{id_data, why_of};
ghost use Rattle.iv_message.specs.Told.{opened_members, reason_members, why_members, with_id};

use crate::message::{Id, Why};
use iv_command::Reply;
use iv_lines::{put_number, put_refused, put_text};
use iv_rows::{Column, Kind};
use serde_json::{Map, Value as Json, put};
use std::alloc::{AllocError, Global};

/// The JSON value of an id.
pub fn id_json(alloc: Global, id: &Id) -> Result<Json, AllocError>
    ensures { IfOk result (λ value. view value ≡ id_data id.now) }
{
    match id {
        Id::Natural(n) => Ok(Json::from(*n)),
        Id::Whole(n) => Ok(Json::from(*n)),
        Id::Text(text) => Json::try_from_str(alloc, text.as_str()),
    }
}

/// Adds the id that the client gave, if it gave one.
pub fn put_id(
    alloc: Global,
    members: &mut Map<String, Json>,
    id: &Option<Id>,
) -> Result<(), AllocError>
    ensures { OnOk result (object (members_view members.new.entries) ≡ with_id (option_map id_data id.now) (members_view members.old.entries)) }
{
    match id {
        None => Ok(()),
        Some(id) => put(members, alloc, "id", id_json(alloc, id)?),
    }
}

/// Adds the members of a reply.
pub fn put_reply(
    alloc: Global,
    members: &mut Map<String, Json>,
    reply: &Reply,
) -> Result<(), AllocError>
    requires { members_view members.old.entries ≡ no_members }
    ensures { OnOk result (members_view members.new.entries ≡ reply_members (reply_of reply.now)) }
{
    match reply {
        Reply::Ok => put(members, alloc, "ok", Json::from(true)),
        Reply::Subscribed(sub) => {
            put(members, alloc, "ok", Json::from(true))?;
            put_number(alloc, members, "sub", *sub)
        }
        Reply::Refused(refusal) => put_refused(alloc, members, refusal),
    }
}

/// Adds the members of a reason, by its word and its key.
fn put_reason(
    alloc: Global,
    members: &mut Map<String, Json>,
    word: &str,
    key: &str,
) -> Result<(), AllocError>
    requires { members_view members.old.entries ≡ no_members }
    ensures { OnOk result (members_view members.new.entries ≡ reason_members word.now key.now) }
{
    put_number(alloc, members, "error", 2)?;
    put_text(alloc, members, "key", key)?;
    put_text(alloc, members, "why", word)
}

/// Adds the members of why an object is no request.
pub fn put_why(alloc: Global, members: &mut Map<String, Json>, why: &Why) -> Result<(), AllocError>
    requires { members_view members.old.entries ≡ no_members }
    ensures { OnOk result (members_view members.new.entries ≡ why_members (why_of why.now)) }
{
    match why {
        Why::Missing(key) => put_reason(alloc, members, "missing", key.as_str()),
        Why::Unknown(key) => put_reason(alloc, members, "unknown", key.as_str()),
        Why::Wrong(key, None) => put_reason(alloc, members, "wrong", key.as_str()),
        Why::Wrong(key, Some(entry)) => {
            put_reason(alloc, members, "wrong", key.as_str())?;
            put_number(alloc, members, "entry", *entry as u64)
        }
    }
}

/// The word of a kind of columns.
fn kind_text(kind: Kind) -> &'static str
    ensures { result.now ≡ kind_text kind }
{
    match kind {
        Kind::Int => "int",
        Kind::Text => "text",
        Kind::Flag => "flag",
    }
}

/// The JSON value of a column: its name and its kind.
fn column_json(alloc: Global, column: &Column) -> Result<Json, AllocError>
    ensures { IfOk result (λ value. view value ≡ column_data column.now) }
{
    let mut parts = Vec::with_capacity(alloc, 2)?;
    parts.push(Json::try_from_str(alloc, column.name.as_str())?)?;
    parts.push(Json::try_from_str(alloc, kind_text(column.kind))?)?;
    Ok(Json::Array(parts))
}

/// The JSON values of columns.
fn columns_json(alloc: Global, columns: &[Column]) -> Result<Vec<Json>, AllocError>
    ensures { IfOk result (λ values. map view values.items ≡ map column_data columns.now) }
{
    let mut values = Vec::with_capacity(alloc, columns.len())?;
    for column in columns {
        values.push(column_json(alloc, column)?)?;
    }
    Ok(values)
}

/// Adds the members of a subscription that was opened: its columns, and the client's own number.
pub fn put_opened(
    alloc: Global,
    members: &mut Map<String, Json>,
    own: u64,
    columns: &[Column],
) -> Result<(), AllocError>
    requires { members_view members.old.entries ≡ no_members }
    ensures { OnOk result (members_view members.new.entries ≡ opened_members own columns.now) }
{
    put(
        members,
        alloc,
        "columns",
        Json::Array(columns_json(alloc, columns)?),
    )?;
    put(members, alloc, "ok", Json::from(true))?;
    put_number(alloc, members, "sub", own)
}
