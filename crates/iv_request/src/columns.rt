//! `columns_at`: the columns of a new table, from a JSON value.
ghost use Rattle.std.specs.Prelude.{◌≡◌, IfOk, Some, None, option_map, option_and_then};
ghost use Rattle.iv_request.specs.Documents.{value_data, items_data};
ghost use Rattle.serde_json.specs.Find.{at, as_str};
ghost use Rattle.iv_request.specs.Request.{kind_of, column_of, columns_at, each};

use crate::parts::{count, item_at, items_at, text_of};
use iv_rows::{Column, Kind, columns_ok, name_ok};
use json::Value as Json;
use std::alloc::{AllocError, Global};

/// The kind of a column that a word of a request names: `int`, `text` or `flag`.
fn kind_of(text: &str) -> Option<Kind>
    ensures { result ≡ kind_of text.now }
{
    if text == "int" {
        Some(Kind::Int)
    } else if text == "text" {
        Some(Kind::Text)
    } else if text == "flag" {
        Some(Kind::Flag)
    } else {
        None
    }
}

/// The text at a place of the JSON list that a column is: its name, or the word of its kind.
fn text_in<'a>(value: &Json<'a>, place: usize) -> Option<&'a str>
    ensures { option_map (λ s. s.now) result ≡ option_and_then as_str (at place (value_data value.now)) }
{
    text_of(item_at(value, place)?)
}

/// The kind of a new table's column, from the JSON list that the column is.
fn kind_in(value: &Json<'_>) -> Option<Kind>
    ensures { result ≡ option_and_then kind_of (option_and_then as_str (at 1 (value_data value.now))) }
{
    match text_in(value, 1) {
        None => None,
        Some(text) => kind_of(text),
    }
}

/// The column of a new table that a JSON value is.
fn column_of(alloc: Global, value: &Json<'_>) -> Result<Option<Column>, AllocError>
    ensures { IfOk result (λ found. found ≡ column_of (value_data value.now)) }
{
    if count(value) != 2 {
        return Ok(None);
    }
    match text_in(value, 0) {
        None => Ok(None),
        Some(name) => {
            if !name_ok(name) {
                return Ok(None);
            }
            match kind_in(value) {
                None => Ok(None),
                Some(kind) => Ok(Some(Column {
                    name: String::from_str(alloc, name)?,
                    kind,
                })),
            }
        }
    }
}

/// The columns of a new table that a JSON list is, however many.
fn columns_of(alloc: Global, items: &[Json<'_>]) -> Result<Option<Vec<Column>>, AllocError>
    ensures { IfOk result (λ found. option_map (λ v. v.items) found ≡ each column_of (items_data items.now)) }
{
    let mut columns = Vec::new(alloc);
    for item in items {
        match column_of(alloc, item)? {
            None => return Ok(None),
            Some(column) => columns.push(column)?,
        }
    }
    Ok(Some(columns))
}

/// The 1 to 16 columns of a table, with distinct names.
pub fn columns_at(alloc: Global, value: &Json<'_>) -> Result<Option<Vec<Column>>, AllocError>
    ensures { IfOk result (λ found. option_map (λ v. v.items) found ≡ columns_at (value_data value.now)) }
{
    match items_at(value, "columns") {
        None => Ok(None),
        Some(items) => match columns_of(alloc, items)? {
            None => Ok(None),
            Some(columns) => {
                if columns_ok(&columns) {
                    Ok(Some(columns))
                } else {
                    Ok(None)
                }
            }
        },
    }
}
