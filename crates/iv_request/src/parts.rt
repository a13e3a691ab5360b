//! Parts of a JSON value: the text, name, number, truth value or list that it is or has at a key, its items, and whether a key is there.
ghost use Rattle.std.specs.Prelude.{◌≡◌, IfOk, option_map, option_and_then, string_bytes};
ghost use Rattle.serde_json.specs.Find.{get, at, as_array, as_bool, as_number, as_str, as_i64, as_u64};
ghost use Rattle.iv_request.specs.Documents.{value_data, items_data};
ghost use Rattle.iv_request.specs.Forms.{has};
ghost use Rattle.iv_request.specs.Request.{count, text_at, name_at, bool_at, positive_of};

use crate::documents::number_of;
use iv_rows::name_ok;
use json::Value as Json;
use std::alloc::{AllocError, Global};

/// The greatest number that is read: a signed one of 64 bits.
const MOST: u64 = 9_223_372_036_854_775_807;

/// How many items a JSON value has as a list, and 0 if it is none.
pub fn count(value: &Json<'_>) -> usize
    ensures { result ≡ count (value_data value.now) }
{
    match value {
        Json::Array(items) => items.len(),
        _ => 0,
    }
}

/// The part of a JSON value that is at a key.
pub fn get<'v, 'a>(value: &'v Json<'a>, key: &str) -> Option<&'v Json<'a>>
    ensures { option_map (λ v. value_data v.now) result ≡ get key.now (value_data value.now) }
{
    value.get(key)
}

/// The item at a place of a JSON list.
pub fn item_at<'v, 'a>(value: &'v Json<'a>, place: usize) -> Option<&'v Json<'a>>
    ensures { option_map (λ v. value_data v.now) result ≡ at place (value_data value.now) }
{
    value.at(place)
}

/// The text that a JSON value is.
pub fn text_of<'a>(value: &Json<'a>) -> Option<&'a str>
    ensures { option_map (λ s. s.now) result ≡ as_str (value_data value.now) }
{
    value.as_str()
}

/// The truth value that a JSON value is.
pub fn bool_of(value: &Json<'_>) -> Option<bool>
    ensures { result ≡ as_bool (value_data value.now) }
{
    value.as_bool()
}

/// The items of the list that a JSON value is.
pub fn items_of<'v, 'a>(value: &'v Json<'a>) -> Option<&'v Vec<Json<'a>>>
    ensures { option_map (λ v. items_data v.now.items) result ≡ as_array (value_data value.now) }
{
    match value {
        Json::Array(items) => Some(items),
        _ => None,
    }
}

/// The whole number from 0 on that a JSON value is.
pub fn u64_of(value: &Json<'_>) -> Option<u64>
    ensures { result ≡ option_and_then as_u64 (as_number (value_data value.now)) }
{
    match value {
        Json::Number(text) => number_of(text)?.as_u64(),
        _ => None,
    }
}

/// The whole number that a JSON value is.
pub fn i64_of(value: &Json<'_>) -> Option<i64>
    ensures { result ≡ option_and_then as_i64 (as_number (value_data value.now)) }
{
    match value {
        Json::Number(text) => number_of(text)?.as_i64(),
        _ => None,
    }
}

/// The text at a key of a JSON value.
pub fn text_at<'a>(value: &Json<'a>, key: &str) -> Option<&'a str>
    ensures { option_map (λ s. s.now) result ≡ text_at key.now (value_data value.now) }
{
    text_of(get(value, key)?)
}

/// The name at a key of a JSON value.
pub fn name_at<'a>(value: &Json<'a>, key: &str) -> Option<&'a str>
    ensures { option_map (λ s. s.now) result ≡ name_at key.now (value_data value.now) }
{
    match text_at(value, key) {
        None => None,
        Some(text) => { if name_ok(text) { Some(text) } else { None } }
    }
}

/// The items of the list at a key of a JSON value.
pub fn items_at<'v, 'a>(value: &'v Json<'a>, key: &str) -> Option<&'v Vec<Json<'a>>>
    ensures { option_map (λ v. items_data v.now.items) result ≡ option_and_then as_array (get key.now (value_data value.now)) }
{
    items_of(get(value, key)?)
}

/// The name at a key of a JSON value, in memory of its own.
pub fn string_at(alloc: Global, value: &Json<'_>, key: &str) -> Result<Option<String>, AllocError>
    ensures { IfOk result (λ found. option_map string_bytes found ≡ name_at key.now (value_data value.now)) }
{
    match name_at(value, key) {
        None => Ok(None),
        Some(name) => Ok(Some(String::from_str(alloc, name)?)),
    }
}

/// The truth value at a key of a JSON value.
pub fn bool_at(value: &Json<'_>, key: &str) -> Option<bool>
    ensures { result ≡ bool_at key.now (value_data value.now) }
{
    bool_of(get(value, key)?)
}

/// The number from 1 on that a JSON value is.
pub fn positive_of(value: &Json<'_>) -> Option<u64>
    ensures { result ≡ positive_of (value_data value.now) }
{
    match u64_of(value) {
        None => None,
        Some(number) => {
            if 1 <= number && number <= MOST {
                Some(number)
            } else {
                None
            }
        }
    }
}

/// Whether a key is there in a JSON value.
pub fn has(value: &Json<'_>, key: &str) -> bool
    ensures { result ≡ has key.now (value_data value.now) }
{
    get(value, key).is_some()
}
