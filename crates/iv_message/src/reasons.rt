//! `keys_fault`, `do_fault`, `wrong_in`: why a JSON object is no request of a client.
ghost use Rattle.std.specs.Prelude.{◌≡◌, IfOk, Some, codes, find, not, option_map, string_bytes};
ghost use Rattle.serde_json.specs.Data.{Data};
ghost use Rattle.serde_json.specs.View.{members_view, view};
ghost use Rattle.iv_request.specs.Documents.{value_data};
ghost use Rattle.iv_request.specs.Forms.{has, is_among};
ghost use Rattle.iv_request.specs.Names.{form_seen, keys_seen};
ghost use Rattle.iv_request.specs.Reading.{value_of};
ghost use Rattle.iv_message.specs.Message.{do_fault, first_failing, keys_of, keys_fault, missing_in, unknown_in, unknown_key, wrong_in};
ghost use Rattle.iv_message.specs.Seen.{why_of};

use crate::ids::has_good_id;
use crate::message::Why;
use crate::values::{wrong_entry, wrong_key};
use iv_request::{Form, has, has_only, is_in};
use json::Value as Json;
use serde_json::{Map, Value};
use std::alloc::{AllocError, Global};

/// The keys that every message may have.
const EVERY: [&str; 2] = ["do", "id"];

/// Why an object without the word of a client's request at `do` is no request.
pub fn do_fault(alloc: Global, value: &Json<'_>) -> Result<Why, AllocError>
    ensures { IfOk result (λ why. why_of why ≡ do_fault (value_data value.now)) }
{
    let key = String::from_str(alloc, "do")?;
    if has(value, "do") {
        Ok(Why::Wrong(key, None))
    } else {
        Ok(Why::Missing(key))
    }
}

/// The first key that a form requires and a JSON value has not.
fn missing_key(form: &Form, value: &Json<'_>) -> Option<&'static str>
    ensures { option_map (λ k. k.now) result ≡ find (λ key. not (has key (value_data value.now))) (keys_seen form.now.required.now) }
{
    for key in form.required {
        if !has(value, key) {
            return Some(key);
        }
    }
    None
}

/// Why an object lacks a key that the form requires: it is told the first one.
fn missing_in(alloc: Global, form: &Form, value: &Json<'_>) -> Result<Option<Why>, AllocError>
    ensures { IfOk result (λ why. option_map why_of why ≡ missing_in (form_seen form.now) (value_data value.now)) }
{
    match missing_key(form, value) {
        None => Ok(None),
        Some(key) => Ok(Some(Why::Missing(String::from_str(alloc, key)?))),
    }
}

/// The first key of the members, in the order of their bytes, that a message of the form may not have.
fn first_unknown(
    alloc: Global,
    form: &Form,
    members: &Map<String, Value>,
) -> Result<Option<String>, AllocError>
    ensures { IfOk result (λ key. option_map string_bytes key ≡ first_failing (is_among (keys_of (form_seen form.now))) (members_view members.now.entries)) }
{
    for (key, _) in members.iter() {
        if !is_in(&EVERY, form.required, form.optional, key.as_str()) {
            return Ok(Some(key.clone()?));
        }
    }
    Ok(None)
}

/// The first key of an owned JSON value that a message of the form may not have.
fn unknown_key(alloc: Global, form: &Form, value: &Value) -> Result<Option<String>, AllocError>
    ensures { IfOk result (λ key. option_map string_bytes key ≡ unknown_key (form_seen form.now) (view value.now)) }
{
    match value {
        Value::Object(members) => first_unknown(alloc, form, members),
        _ => Ok(None),
    }
}

/// Why an object has a key that the form has not: it is told the first one, in the order of their bytes. Keys are in this
/// order in an owned value, so a line with such a key is read a second time.
fn unknown_in(alloc: Global, form: &Form, line: &[u8]) -> Result<Option<Why>, AllocError>
    ensures { IfOk result (λ why. (d : Data) → value_of line.now ≡ Some d → option_map why_of why ≡ unknown_in (form_seen form.now) d) }
{
    match Value::from_slice(alloc, line) {
        Err(_) => Err(AllocError),
        Ok(value) => match unknown_key(alloc, form, &value)? {
            None => Ok(None),
            Some(key) => Ok(Some(Why::Unknown(key))),
        },
    }
}

/// Why the keys of an object are not those of the form, or its id is none.
pub fn keys_fault(
    alloc: Global,
    form: &Form,
    line: &[u8],
    value: &Json<'_>,
) -> Result<Option<Why>, AllocError>
    requires { value_of line.now ≡ Some (value_data value.now) }
    ensures { IfOk result (λ why. option_map why_of why ≡ keys_fault (form_seen form.now) (value_data value.now)) }
{
    if !has_good_id(value) {
        return Ok(Some(Why::Wrong(String::from_str(alloc, "id")?, None)));
    }
    if let Some(why) = missing_in(alloc, form, value)? {
        return Ok(Some(why));
    }
    if has_only(value, &EVERY, form.required, form.optional) {
        return Ok(None);
    }
    unknown_in(alloc, form, line)
}

/// Why the values of an object with the keys of the form are no request.
pub fn wrong_in(alloc: Global, form: &Form, value: &Json<'_>) -> Result<Why, AllocError>
    ensures { IfOk result (λ why. why_of why ≡ wrong_in (form_seen form.now) (value_data value.now)) }
{
    let key = wrong_key(alloc, form, value)?;
    let entry = wrong_entry(alloc, key, value)?;
    Ok(Why::Wrong(String::from_str(alloc, key)?, entry))
}
