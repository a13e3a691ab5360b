//! `id_at`: the id of a message, from a JSON value; `has_good_id`: whether what is there is one; `read_id`: the id that a text is.
ghost use Rattle.std.specs.Prelude.{◌≡◌, IfOk, codes, is_some, option_map, option_and_then};
ghost use Rattle.serde_json.specs.Find.{get, as_integer, as_number};
ghost use Rattle.iv_command.specs.RowTexts.{whole};
ghost use Rattle.iv_request.specs.Documents.{value_data};
ghost use Rattle.iv_request.specs.Reading.{value_of};
ghost use Rattle.iv_message.specs.Message.{id_in, is_good_id, id_of};
ghost use Rattle.iv_message.specs.Seen.{id_data};

use crate::message::Id;
use iv_request::{get, i64_of, read_value, u64_of};
use json::{Scratch, Value as Json};
use std::alloc::{AllocError, Global};

/// The greatest number of bytes of an id that is a text.
const MOST_BYTES: usize = 64;

/// Whether a JSON value is an id: a whole number of 64 bits, or a short text.
fn is_id(value: &Json<'_>) -> bool
    ensures { result ≡ is_some (id_in (value_data value.now)) }
{
    match value {
        Json::Number(_) => u64_of(value).is_some() || i64_of(value).is_some(),
        Json::String(text) => text.len() <= MOST_BYTES,
        _ => false,
    }
}

/// Whether what is at `id` is an id, if something does.
pub fn has_good_id(value: &Json<'_>) -> bool
    ensures { result ≡ is_good_id (get (codes "id") (value_data value.now)) }
{
    match get(value, "id") {
        None => true,
        Some(id) => is_id(id),
    }
}

/// The id that a JSON number is: one that is no whole number of 64 bits is none.
fn number_id(value: &Json<'_>) -> Option<Id>
    ensures { option_map id_data result ≡ option_and_then (λ n. option_map whole (as_integer n)) (as_number (value_data value.now)) }
{
    match u64_of(value) {
        Some(n) => Some(Id::Natural(n)),
        None => i64_of(value).map(Id::Whole),
    }
}

/// The id that a JSON value is, in memory of its own.
fn id_in(alloc: Global, value: &Json<'_>) -> Result<Option<Id>, AllocError>
    ensures { IfOk result (λ id. option_map id_data id ≡ id_in (value_data value.now)) }
{
    match value {
        Json::Number(_) => Ok(number_id(value)),
        Json::String(text) => {
            if text.len() <= MOST_BYTES {
                Ok(Some(Id::Text(String::from_str(alloc, text)?)))
            } else {
                Ok(None)
            }
        }
        _ => Ok(None),
    }
}

/// The id that the text of a JSON value is, if it is one.
///
/// # Errors
/// `AllocError` if a growth of memory was refused.
pub fn read_id(alloc: Global, text: &[u8], scratch: &mut Scratch) -> Result<Option<Id>, AllocError>
    ensures { IfOk result (λ id. option_map id_data id ≡ option_and_then id_in (value_of text.now)) }
{
    match read_value(alloc, text, scratch)? {
        None => Ok(None),
        Some(value) => id_in(alloc, &value),
    }
}

/// The id of a message that is this JSON value.
pub fn id_at(alloc: Global, value: &Json<'_>) -> Result<Option<Id>, AllocError>
    ensures { IfOk result (λ id. option_map id_data id ≡ id_of (value_data value.now)) }
{
    match get(value, "id") {
        None => Ok(None),
        Some(id) => id_in(alloc, id),
    }
}
