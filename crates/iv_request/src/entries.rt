//! `entries_at`: the entries of a write, with their rows and copies, from a JSON value.
ghost use Rattle.std.specs.Prelude.{◌≡◌, IfOk, Some, None, option_map, option_and_then};
ghost use Rattle.serde_json.specs.Find.{at};
ghost use Rattle.iv_rows.specs.Cell as cell;
ghost use Rattle.iv_rows.specs.Texts.{is_well_cell};
ghost use Rattle.iv_rows.specs.View as iv_rows;
ghost use Rattle.iv_command.specs.Entries as entries;
ghost use Rattle.iv_request.specs.Documents.{value_data, items_data};
ghost use Rattle.iv_request.specs.Request.{cell_of, each, passing, row_of, update_of, op_at, positive_of, does_at, entry_of, entries_at};

use crate::forms::has_only;
use crate::parts::{count, get, has, i64_of, item_at, items_at, items_of, positive_of, string_at};
use iv_command::{Entry, Op};
use iv_rows::{Row, Value};
use json::Value as Json;
use std::alloc::{AllocError, Global};

/// The greatest number of entries of a write.
const MOST_ENTRIES: usize = 1000;

/// The value in an entry's row that a text is, if a table may hold it.
///
/// # Errors
/// `AllocError` if a growth of memory was refused.
pub fn text_cell(alloc: Global, text: &str) -> Result<Option<Value>, AllocError>
    ensures { IfOk result (λ found. option_map iv_rows.cell_of found ≡ passing is_well_cell (cell.text text.now)) }
{
    let found = Value::Text(String::from_str(alloc, text)?);
    if found.well() {
        Ok(Some(found))
    } else {
        Ok(None)
    }
}

/// The value in an entry's row that a JSON value is: a flag, a whole number or a text.
fn cell_of(alloc: Global, value: &Json<'_>) -> Result<Option<Value>, AllocError>
    ensures { IfOk result (λ found. option_map iv_rows.cell_of found ≡ cell_of (value_data value.now)) }
{
    match value {
        Json::Bool(flag) => Ok(Some(Value::Flag(*flag))),
        Json::Number(_) => Ok(i64_of(value).map(Value::Int)),
        Json::String(text) => text_cell(alloc, text),
        _ => Ok(None),
    }
}

/// The row of an entry that has these JSON values.
fn cells_of(alloc: Global, items: &[Json<'_>]) -> Result<Option<Row>, AllocError>
    ensures { IfOk result (λ found. found ≡ each cell_of (items_data items.now)) }
{
    let mut values = Vec::with_capacity(alloc, items.len())?;
    for item in items {
        match cell_of(alloc, item)? {
            None => return Ok(None),
            Some(value) => values.push(value)?,
        }
    }
    Ok(Some(Row::new(values)?))
}

/// The row of an entry, from a JSON value.
fn row_of(alloc: Global, value: &Json<'_>) -> Result<Option<Row>, AllocError>
    ensures { IfOk result (λ found. found ≡ row_of (value_data value.now)) }
{
    match items_of(value) {
        None => Ok(None),
        Some(items) => cells_of(alloc, items),
    }
}

/// The row at a place of the JSON list that an update is: the old row, or the new one.
fn row_in(alloc: Global, value: &Json<'_>, place: usize) -> Result<Option<Row>, AllocError>
    ensures { IfOk result (λ found. found ≡ option_and_then row_of (at place (value_data value.now))) }
{
    match item_at(value, place) {
        None => Ok(None),
        Some(row) => row_of(alloc, row),
    }
}

/// The update of an entry, from a JSON value: the old row and the new one.
fn update_of(alloc: Global, value: &Json<'_>) -> Result<Option<Op>, AllocError>
    ensures { IfOk result (λ found. option_map entries.op_of found ≡ update_of (value_data value.now)) }
{
    if count(value) != 2 {
        return Ok(None);
    }
    let Some(old) = row_in(alloc, value, 0)? else {
        return Ok(None);
    };
    match row_in(alloc, value, 1)? {
        None => Ok(None),
        Some(new) => Ok(Some(Op::Update(old, new))),
    }
}

/// What an entry of a write does, from a JSON value: an insert, a delete or an update, with its rows.
fn op_at(alloc: Global, value: &Json<'_>) -> Result<Option<Op>, AllocError>
    ensures { IfOk result (λ found. option_map entries.op_of found ≡ op_at (value_data value.now)) }
{
    if let Some(row) = get(value, "insert") {
        return Ok(row_of(alloc, row)?.map(Op::Insert));
    }
    if let Some(row) = get(value, "delete") {
        return Ok(row_of(alloc, row)?.map(Op::Delete));
    }
    match get(value, "update") {
        None => Ok(None),
        Some(rows) => update_of(alloc, rows),
    }
}

/// The number of copies of an entry, from a JSON value.
fn copies_of(value: &Json<'_>) -> Option<i64>
    ensures { option_map entries.copies_of result ≡ positive_of (value_data value.now) }
{
    match positive_of(value) {
        None => None,
        Some(copies) => Some(copies as i64),
    }
}

/// The JSON key of what an entry of a write does: `insert`, `delete` or `update`.
fn does_at(value: &Json<'_>) -> &'static str
    ensures { result.now ≡ does_at (value_data value.now) }
{
    if has(value, "insert") {
        "insert"
    } else if has(value, "delete") {
        "delete"
    } else {
        "update"
    }
}

/// The entry of a write that a JSON value is.
pub fn entry_of(alloc: Global, value: &Json<'_>) -> Result<Option<Entry>, AllocError>
    ensures { IfOk result (λ found. found ≡ entry_of (value_data value.now)) }
{
    if !has_only(value, &["on"], &[does_at(value)], &["copies"]) {
        return Ok(None);
    }
    let copies = match get(value, "copies") {
        None => Some(1),
        Some(copies) => copies_of(copies),
    };
    let Some(rel) = string_at(alloc, value, "on")? else {
        return Ok(None);
    };
    let Some(op) = op_at(alloc, value)? else {
        return Ok(None);
    };
    match copies {
        None => Ok(None),
        Some(copies) => Ok(Some(Entry { rel, op, copies })),
    }
}

/// The entries of a write that a JSON list is, however many.
fn entries_of(alloc: Global, items: &[Json<'_>]) -> Result<Option<Vec<Entry>>, AllocError>
    ensures { IfOk result (λ found. option_map (λ v. v.items) found ≡ each entry_of (items_data items.now)) }
{
    let mut entries = Vec::with_capacity(alloc, items.len())?;
    for item in items {
        match entry_of(alloc, item)? {
            None => return Ok(None),
            Some(entry) => entries.push(entry)?,
        }
    }
    Ok(Some(entries))
}

/// The 1 to 1,000 entries of a write.
pub fn entries_at(alloc: Global, value: &Json<'_>) -> Result<Option<Vec<Entry>>, AllocError>
    ensures { IfOk result (λ found. option_map (λ v. v.items) found ≡ entries_at (value_data value.now)) }
{
    match items_at(value, "entries") {
        None => Ok(None),
        Some(items) => match entries_of(alloc, items)? {
            None => Ok(None),
            Some(entries) => {
                if 1 <= entries.len() && entries.len() <= MOST_ENTRIES {
                    Ok(Some(entries))
                } else {
                    Ok(None)
                }
            }
        },
    }
}
