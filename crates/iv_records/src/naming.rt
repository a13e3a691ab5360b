//! The texts of a journal that are names: `push_name` writes one, `name_in` reads it.
ghost use Rattle.std.specs.Prelude.{◌≡◌, ◌++◌, ◌&&◌, ◌∷◌, [], Bool, is_some, length, nat_le, IfOk, OnOk, List, ℕ, bytes_eq, codes, option_and_then, option_map, string_bytes};
ghost use Rattle.std.specs.Str.{is_utf8};
ghost use Rattle.hex.specs.Hex.{encode_lower};
ghost use Rattle.serde_json.specs.Data.{string};
ghost use Rattle.serde_json.specs.Find.{as_object, as_str};
ghost use Rattle.serde_json.specs.Written.{compact_text};
ghost use Rattle.iv_request.specs.Documents.{value_data};
ghost use Rattle.iv_request.specs.Reading.{value_of};
ghost use Rattle.iv_request.specs.Request.{passing};
ghost use Rattle.iv_records.specs.Journal.{answer_key, most_said, name_text};
ghost use Rattle.iv_records.specs.Names.{place_text};
ghost use Rattle.iv_records.specs.Parsed.{answer_in, answered_in, but_last, digest_of_32, name_in, name_parts, named_by, string_in};

use crate::cuts::{behind, between, cut_quote};
use crate::journal::has_newline;
use crate::names::{Spelled, count_in, epoch_in, random_in, spelled_in};
use crate::said::MOST_SAID;
use hex::{decode_to_slice, encode_to_slice};
use itoa::Buffer;
use iv_message::quoted;
use iv_once::{Ask, Named, Place};
use iv_request::read_value;
use json::{Scratch, Value as Json};
use std::alloc::{AllocError, Global};
use std::marker::Model;

// ---- written

/// Appends where a name stands: `EPOCH.COUNT`.
///
/// # Errors
/// As of `push_name`.
pub fn push_place(text: &mut Vec<u8>, at: &Place) -> Result<(), AllocError>
    ensures { OnOk result (text.new.items ≡ text.old.items ++ place_text at.now) }
{
    text.extend_from_slice(at.epoch.as_bytes())?;
    text.push(b'.')?;
    text.extend_from_slice(Buffer::new().format(at.count).as_bytes())?;
    Ok(())
}

/// Appends a name and its place.
fn push_spelled(text: &mut Vec<u8>, ask: &Ask) -> Result<(), AllocError>
    ensures { OnOk result (text.new.items ≡ text.old.items ++ (codes "\"once\":\"" ++ (ask.now.name ++ (codes "\",\"at\":\"" ++ place_text ask.now.at)))) }
{
    text.extend_from_slice(b"\"once\":\"")?;
    text.extend_from_slice(ask.name.as_bytes())?;
    text.extend_from_slice(b"\",\"at\":\"")?;
    push_place(text, &ask.at)
}

/// Appends whose a name is.
fn push_holder(alloc: Global, text: &mut Vec<u8>, ask: &Ask) -> Result<(), AllocError>
    ensures { OnOk result (text.new.items ≡ text.old.items ++ (codes "\",\"by\":" ++ compact_text (string ask.now.holder))) }
{
    let holder = quoted(alloc, &ask.holder)?;
    text.extend_from_slice(b"\",\"by\":")?;
    text.extend_from_slice(holder.as_bytes())?;
    Ok(())
}

/// The digits of a digest.
fn digits_of(digest: &[u8; 32]) -> [u8; 64]
    ensures { result ≡ encode_lower digest.now }
{
    let mut digits = [0; 64];
    let _ = encode_to_slice(digest, &mut digits);
    digits
}

/// Appends a digest.
fn push_digest(text: &mut Vec<u8>, ask: &Ask) -> Result<(), AllocError>
    ensures { OnOk result (text.new.items ≡ text.old.items ++ (codes ",\"digest\":\"" ++ encode_lower ask.now.digest)) }
{
    text.extend_from_slice(b",\"digest\":\"")?;
    text.extend_from_slice(&digits_of(&ask.digest))?;
    Ok(())
}

/// What stands between a digest and an answer.
fn answer_key(refused: bool) -> &'static [u8]
    ensures { result.now ≡ answer_key refused }
{
    if refused {
        b"\",\"refused\":"
    } else {
        b"\",\"done\":"
    }
}

/// Appends the text of a name.
///
/// # Errors
/// `AllocError` where a growth of memory was refused.
pub fn push_name(alloc: Global, text: &mut Vec<u8>, name: &Named) -> Result<(), AllocError>
    ensures { OnOk result (text.new.items ≡ text.old.items ++ name_text name.now) }
{
    push_spelled(text, &name.ask)?;
    push_holder(alloc, text, &name.ask)?;
    push_digest(text, &name.ask)?;
    text.extend_from_slice(answer_key(name.refused))?;
    text.extend_from_slice(&name.answer)?;
    text.extend_from_slice(b"}")?;
    Ok(())
}

// ---- read

/// The text of a JSON string.
fn str_of(alloc: Global, value: &Json<'_>) -> Result<Option<String>, AllocError>
    ensures { IfOk result (λ o. option_map string_bytes o ≡ option_and_then (passing is_utf8) (as_str (value_data value.now))) }
{
    match value {
        Json::String(text) => Ok(Some(String::from_str(alloc, text)?)),
        _ => Ok(None),
    }
}

/// Bytes between quotation marks.
fn with_quotes(alloc: Global, text: &[u8]) -> Result<Vec<u8>, AllocError>
    ensures { IfOk result (λ quoted. quoted.items ≡ 34 ∷ (text.now ++ 34 ∷ [])) }
{
    let mut quoted = Vec::new(alloc);
    quoted.push(b'"')?;
    quoted.extend_from_slice(text)?;
    quoted.push(b'"')?;
    Ok(quoted)
}

/// The text that a JSON string has between its quotation marks.
///
/// # Errors
/// As of `push_name`.
pub fn string_in(
    alloc: Global,
    text: &[u8],
    scratch: &mut Scratch,
) -> Result<Option<String>, AllocError>
    ensures { IfOk result (λ o. option_map string_bytes o ≡ string_in text.now) }
{
    let quoted = with_quotes(alloc, text)?;
    match read_value(alloc, &quoted, scratch)? {
        None => Ok(None),
        Some(value) => str_of(alloc, &value),
    }
}

/// Whether a value is an object.
fn is_object(value: &Json<'_>) -> bool
    ensures { result ≡ is_some (as_object (value_data value.now)) }
{
    matches!(value, Json::Object(_))
}

/// Whether an answer is a JSON object, and no longer than a message may be: so it is told, and so a step may have it.
///
/// # Errors
/// As of `push_name`.
pub fn is_answer_text(
    alloc: Global,
    answer: &[u8],
    scratch: &mut Scratch,
) -> Result<bool, AllocError>
    ensures { IfOk result (λ is. is ≡ (nat_le (length answer.now) most_said && is_some (option_and_then as_object (value_of answer.now)))) }
{
    if answer.len() > MOST_SAID {
        return Ok(false);
    }
    match read_value(alloc, answer, scratch)? {
        None => Ok(false),
        Some(value) => Ok(is_object(&value)),
    }
}

/// The digest of 64 digits.
fn digest_in(digits: &[u8]) -> Option<[u8; 32]>
    ensures { result ≡ digest_of_32 digits.now }
{
    let mut digest = [0; 32];
    match decode_to_slice(digits, &mut digest) {
        Ok(()) => Some(digest),
        Err(_) => None,
    }
}

/// All but the last byte.
fn but_last(text: &[u8]) -> &[u8]
    ensures { result.now ≡ but_last text.now }
{
    &text[..text.len().saturating_sub(1)]
}

/// An answer on a line, without the brace after it.
fn answer_in(text: &[u8]) -> Option<&[u8]>
    ensures { option_map (λ answer. answer.now) result ≡ answer_in text.now }
{
    let answer = but_last(text);
    if has_newline(answer) {
        None
    } else {
        Some(answer)
    }
}

/// Of a name: whose it is, as JSON has it between quotation marks; the digits of its digest; whether it was refused; and its answer with the
/// brace after it.
#[derive(Drop)]
struct NameParts<'a> {
    holder: &'a [u8],
    digits: &'a [u8],
    refused: bool,
    answer: &'a [u8],
}

impl<'a> Model for NameParts<'a> {
    ghost use Rattle.iv_records.specs.Parsed.{NameParts as NamePartsSpec};

    ghost Value = { NamePartsSpec };

    ghost view = { λ p. record { holder = p.holder.now; digits = p.digits.now; refused = p.refused; answer = p.answer.now } };
}

/// Whether a name was refused, and its answer with the brace after it.
fn answered_in(text: &[u8]) -> Option<(bool, &[u8])>
    ensures { option_map {U = Bool × List ℕ} (λ p. (p.0, p.1.now)) result ≡ answered_in text.now }
{
    match behind(text, b",\"refused\":") {
        Some(rest) => Some((true, rest)),
        None => {
            let rest = behind(text, b",\"done\":")?;
            Some((false, rest))
        }
    }
}

/// What follows a name and its place.
fn name_parts(text: &[u8]) -> Option<NameParts<'_>>
    ensures { result ≡ name_parts text.now }
{
    let rest = behind(text, b"\"by\":\"")?;
    let (holder, rest) = cut_quote(rest)?;
    let (digits, rest) = between(rest, b",\"digest\":\"", b'"')?;
    let (refused, answer) = answered_in(rest)?;
    Some(NameParts {
        holder,
        digits,
        refused,
        answer,
    })
}

/// A request with the name that is spelled.
fn ask_with(
    alloc: Global,
    holder: String,
    name: &str,
    epoch: &str,
    count: u64,
    digest: [u8; 32],
) -> Result<Ask, AllocError>
    ensures { IfOk result (λ a. a ≡ record {
      holder = string_bytes holder;
      name = name.now;
      at = record { epoch = epoch.now; count = count };
      digest = digest;
    }) }
{
    let at = Place {
        epoch: String::from_str(alloc, epoch)?,
        count,
    };
    Ok(Ask {
        holder,
        name: String::from_str(alloc, name)?,
        at,
        digest,
    })
}

/// The name of these parts.
fn named_by(
    alloc: Global,
    spelled: &Spelled<'_>,
    parts: &NameParts<'_>,
    scratch: &mut Scratch,
) -> Result<Option<Named>, AllocError>
    ensures { IfOk result (λ o. o ≡ named_by spelled.now parts.now) }
{
    let Some(name) = random_in(spelled.name) else {
        return Ok(None);
    };
    let Some(epoch) = epoch_in(spelled.epoch) else {
        return Ok(None);
    };
    let Some(answer) = answer_in(parts.answer) else {
        return Ok(None);
    };
    let Some(digest) = digest_in(parts.digits) else {
        return Ok(None);
    };
    let Some(count) = count_in(alloc, spelled.digits, scratch)? else {
        return Ok(None);
    };
    let Some(holder) = string_in(alloc, parts.holder, scratch)? else {
        return Ok(None);
    };
    let mut bytes = Vec::new(alloc);
    bytes.extend_from_slice(answer)?;
    Ok(Some(Named {
        ask: ask_with(alloc, holder, name, epoch, count, digest)?,
        refused: parts.refused,
        answer: bytes,
    }))
}

/// The name, if a text is written as it is.
fn if_written(alloc: Global, name: Named, text: &[u8]) -> Result<Option<Named>, AllocError>
    ensures { IfOk result (λ o. o ≡ passing (λ e. bytes_eq (name_text e) text.now) name) }
{
    let mut again = Vec::new(alloc);
    push_name(alloc, &mut again, &name)?;
    if again.as_slice() == text {
        Ok(Some(name))
    } else {
        Ok(None)
    }
}

/// The name of a text that is one.
///
/// # Errors
/// As of `push_name`.
pub fn name_in(
    alloc: Global,
    text: &[u8],
    scratch: &mut Scratch,
) -> Result<Option<Named>, AllocError>
    ensures { IfOk result (λ o. o ≡ name_in text.now) }
{
    let Some(spelled) = spelled_in(text) else {
        return Ok(None);
    };
    let Some(parts) = name_parts(spelled.rest) else {
        return Ok(None);
    };
    match named_by(alloc, &spelled, &parts, scratch)? {
        None => Ok(None),
        Some(name) => {
            let name = if_written(alloc, name, text)?;
            Ok(name)
        }
    }
}
