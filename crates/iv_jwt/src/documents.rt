//! `json_of`, `text_at`, `seconds_at`: JSON in a token.
ghost use Rattle.std.specs.Prelude.{◌≡◌, IfOk, option_map};
ghost use Rattle.json.specs.Value.{value_view};
ghost use Rattle.iv_jwt.specs.Documents.{digits_from, json_of, seconds_at, seconds_of, text_at};

use json::{Error, Scratch, Value};
use std::alloc::{AllocError, Global};

/// The last second of the year 9999, in seconds since 1970.
const MOST_SECONDS: u64 = 253_402_300_799;

/// The JSON value that bytes are, if they are one.
pub fn json_of<'a>(
    alloc: Global,
    bytes: &'a [u8],
    scratch: &'a mut Scratch,
) -> Result<Option<Value<'a>>, AllocError>
    ensures { IfOk result (λ found. option_map value_view found ≡ json_of bytes.now) }
{
    match str::from_utf8(bytes) {
        Err(_) => Ok(None),
        Ok(text) => match Value::parse(alloc, text, scratch) {
            Ok(value) => Ok(Some(value)),
            Err(Error::Invalid) => Ok(None),
            Err(_) => Err(AllocError),
        },
    }
}

/// The text at a key.
pub fn text_at<'v>(value: &'v Value<'_>, key: &str) -> Option<&'v str>
    ensures { option_map (λ t. t.now) result ≡ text_at key.now (value_view value.now) }
{
    value.get(key)?.as_str()
}

/// The number of digits, up to `MOST_SECONDS`.
fn digits_of(text: &[u8]) -> Option<u64>
    ensures { result ≡ digits_from 0 text.now }
{
    let mut seconds = 0;
    for byte in text {
        if !byte.is_ascii_digit() {
            return None;
        }
        let more = seconds * 10 + (*byte - b'0') as u64;
        if more > MOST_SECONDS {
            return None;
        }
        seconds = more;
    }
    Some(seconds)
}

/// The seconds that digits say.
fn seconds_of(text: &[u8]) -> Option<u64>
    ensures { result ≡ seconds_of text.now }
{
    match text {
        [] => None,
        [_, ..] => digits_of(text),
    }
}

/// The seconds at a key.
pub fn seconds_at(value: &Value<'_>, key: &str) -> Option<u64>
    ensures { result ≡ seconds_at key.now (value_view value.now) }
{
    seconds_of(value.get(key)?.as_number()?.as_bytes())
}
