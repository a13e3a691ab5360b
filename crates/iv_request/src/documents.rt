//! `read`: from a text to a JSON value whose texts are borrowed from the line; `number_of`, `fits`: its numbers.
//!
//! What is read has the data that `serde_json` reads of the line: what nests deeper than 127, and a number beyond a
//! float's range, are no JSON, and of a key that comes twice the last value counts. Names, texts and
//! values of rows are copied out once, each into memory of its own.
//!
//! `json`, on which `serde_json` is built, reads a line with buffers that are kept from line to line. The value that `serde_json` builds, which
//! was the first form, took 18 of the 22 requests for memory of an insert of one row. Cost: the proof that both have the same data.
//!
//! Nearly all numbers of requests are short whole ones, and each number of such a value is read twice: by `fits`, and for what it is.
//! `few_digits` takes 9 instructions a digit; `fast_float`, which reads any number, took 115 more for each of one to five digits.
ghost use Rattle.std.specs.Prelude.{◌≡◌, ◌==◌, ◌<◌, ◌≤◌, ◌^◌, false, true, length, slice_index, IfOk, IfSome, IsTrue, is_some, option_map};
ghost use Rattle.std.specs.Option.{SomeIff};
ghost use Rattle.std.specs.Str.Parse.{digits_value, IsNumeral};
ghost use Rattle.fast_float.specs.Text.{scan};
ghost use Rattle.json.specs.Value.{value_view, items_view, members_view};
ghost use Rattle.serde_json.specs.Read as serde_json;
ghost use Rattle.serde_json.specs.Read.{float_of, number_from, number_of};
ghost use Rattle.serde_json.specs.View.{number_view};
ghost use Rattle.iv_request.specs.Documents.{value_data, fits, items_fit, members_fit};

use fast_float::Numeral;
use json::{Error, Reader, Scratch, Value};
use serde_json::Number;
use std::alloc::{AllocError, Global};

/// How deep arrays and objects may nest.
const MOST_DEPTH: usize = 127;

/// How many digits are read one by one: so many that their number is below 2 ^ 63.
const MOST_DIGITS: usize = 18;

/// The number that a JSON text of one to eighteen digits, and nothing else, writes.
#[inline]
fn few_digits(bytes: &[u8]) -> Option<u64>
    ensures number { SomeIff result (IsNumeral 10 bytes.now × (length bytes.now ≤ 18)) (digits_value 10 bytes.now) }
    ensures below { IfSome result (λ n. n < 10 ^ 18) }
{
    if bytes.is_empty() || bytes.len() > MOST_DIGITS {
        return None;
    }
    let mut number = 0;
    for byte in bytes {
        let digit = byte.wrapping_sub(b'0');
        if digit > 9 {
            return None;
        }
        number = number * 10 + digit as u64;
    }
    Some(number)
}

/// The JSON number that is the nearest float to a numeral, if that float is finite.
fn float_of(negative: bool, numeral: &Numeral<'_>) -> Option<Number>
    ensures { option_map number_view result ≡ float_of negative numeral.now }
{
    Number::from_f64(numeral.to_float::<f64>(negative))
}

/// The JSON number that a numeral without a minus is.
fn unsigned_of(numeral: &Numeral<'_>) -> Option<Number>
    ensures { option_map number_view result ≡ number_from false numeral.now }
{
    match numeral.to_u64() {
        Some(n) => Some(Number::from(n)),
        None => float_of(false, numeral),
    }
}

/// The JSON number with a minus, from the text after the minus.
fn negative_of(bytes: &[u8]) -> Option<Number>
    ensures { option_map number_view result ≡ number_from true (scan bytes.now) }
{
    if let Some(n) = few_digits(bytes) {
        if n > 0 {
            return Some(Number::from(-(n as i64)));
        }
    }
    let numeral = Numeral::scan(bytes);
    if let Some(n) = numeral.to_i64(true) {
        if n < 0 {
            return Some(Number::from(n));
        }
    }
    float_of(true, &numeral)
}

/// Whether the text of a JSON number begins with a minus.
fn has_minus(bytes: &[u8]) -> bool
    ensures value { result ≡ (slice_index bytes.now 0 == 45) }
    ensures some { IsTrue result → 0 < length bytes.now }
{
    !bytes.is_empty() && bytes[0] == b'-'
}

/// The JSON number of a text of any form. It is apart, so that its callers take in the short way alone.
#[inline(never)]
fn scanned(bytes: &[u8]) -> Option<Number>
    ensures { option_map number_view result ≡ number_of bytes.now }
{
    if has_minus(bytes) {
        negative_of(&bytes[1..])
    } else {
        unsigned_of(&Numeral::scan(bytes))
    }
}

/// The number that a text of JSON's grammar is: a whole one of 64 bits, or the nearest float if that is finite.
#[tactic(auto, using(crate::proofs::Digits::unsigned_is))]
#[inline]
pub fn number_of(text: &str) -> Option<Number>
    ensures { option_map number_view result ≡ number_of text.now }
{
    let bytes = text.as_bytes();
    match few_digits(bytes) {
        Some(n) => Some(Number::from(n)),
        None => scanned(bytes),
    }
}

/// Whether each number in a JSON value has a value: none is beyond a float's range.
#[cycle(fits)]
fn fits(value: &Value<'_>) -> bool
    ensures { result ≡ fits (value_view value.now) }
{
    match value {
        Value::Number(text) => number_of(text).is_some(),
        Value::Array(items) => items_fit(items),
        Value::Object(members) => members_fit(members),
        _ => true,
    }
}

/// Whether each number in the items of a JSON array has a value.
#[cycle(fits)]
fn items_fit(items: &Vec<Value<'_>>) -> bool
    ensures { result ≡ items_fit (items_view items.now.items) }
{
    for item in items {
        if !fits(item) {
            return false;
        }
    }
    true
}

/// Whether each number in the members of a JSON object has a value.
#[cycle(fits)]
fn members_fit(members: &Vec<(&str, Value<'_>)>) -> bool
    ensures { result ≡ members_fit (members_view members.now.items) }
{
    for member in members {
        if !fits(&member.1) {
            return false;
        }
    }
    true
}

/// The JSON value that a text is, its texts borrowed.
pub fn read<'a>(
    alloc: Global,
    text: &'a str,
    scratch: &'a mut Scratch,
) -> Result<Option<Value<'a>>, AllocError>
    ensures { IfOk result (λ found. option_map value_data found ≡ serde_json.read text.now) }
{
    let mut reader = Reader::new(text, scratch)?;
    match Value::read(alloc, &mut reader, MOST_DEPTH) {
        Ok(value) => match reader.next() {
            Some(_) => Ok(None),
            None => {
                if fits(&value) {
                    Ok(Some(value))
                } else {
                    Ok(None)
                }
            }
        },
        Err(Error::OutOfMemory) => Err(AllocError),
        Err(_) => Ok(None),
    }
}
