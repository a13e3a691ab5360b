//! `Claim`: the name of a request, as a client says it; `claim_in` reads it; `spelled_in`: how a text spells a name and its place.
ghost use Rattle.std.specs.Prelude.{◌≡◌, ◌&&◌, ◌||◌, ℕ, List, IfOk, Some, option_and_then, option_map, string_bytes};
ghost use Rattle.std.specs.List.{list_all};
ghost use Rattle.serde_json.specs.Find.{as_number, as_u64};
ghost use Rattle.iv_message.specs.Seen.{id_data};
ghost use Rattle.iv_records.specs.Names as spec;
ghost use Rattle.iv_request.specs.Request.{passing};
ghost use Rattle.iv_records.specs.Names.{claim_in, claimed, count_in, holder_of, is_between, is_count, is_epoch, is_letter, is_random, spelled_in};

use crate::cuts::{behind, between, cut_at};
use crate::journal::with_brace;
use iv_message::{Id, read_id};
use iv_once::Place;
use json::Scratch;
use std::alloc::{AllocError, Global};
use std::marker::Model;

/// The name of a request, and the place that its client knew when it said it first.
#[derive(Drop)]
pub struct Claim {
    /// 22 letters, digits, `-` and `_`.
    pub name: String,
    /// The epoch, and how many entries with names the client's holder had.
    pub at: Place,
}

impl Model for Claim {
    ghost use Rattle.std.specs.Prelude.{string_bytes};
    ghost use Rattle.iv_records.specs.Names.{Claim};

    ghost Value = { Claim };

    ghost view = { λ c. record { name = string_bytes c.name; at = c.at } };
}

fn is_between(low: u8, high: u8, byte: u8) -> bool
    ensures { result ≡ is_between low high byte }
{
    low <= byte && byte <= high
}

fn is_letter(byte: u8) -> bool
    ensures { result ≡ is_letter byte }
{
    is_between(b'A', b'Z', byte)
        || is_between(b'a', b'z', byte)
        || is_between(b'0', b'9', byte)
        || byte == b'-'
        || byte == b'_'
}

/// Whose names are: a role's and a user's.
///
/// # Errors
/// `AllocError` where a growth of memory was refused.
pub fn holder_of(alloc: Global, role: &str, user: &str) -> Result<String, AllocError>
    ensures { IfOk result (λ holder. string_bytes holder ≡ holder_of role.now user.now) }
{
    let mut holder = String::from_str(alloc, role)?;
    holder.push_str("/")?;
    holder.push_str(user)?;
    Ok(holder)
}

fn are_letters(name: &[u8]) -> bool
    ensures { result ≡ list_all is_letter name.now }
{
    name.iter().all(|byte| is_letter(*byte))
}

/// Whether a text may be a name.
fn is_random(name: &[u8]) -> bool
    ensures { result ≡ is_random name.now }
{
    name.len() == 22 && are_letters(name)
}

/// Whether a byte is a hexadecimal digit.
fn is_digit(byte: u8) -> bool
    ensures { result ≡ (is_between 48 57 byte || is_between 97 102 byte) }
{
    is_between(b'0', b'9', byte) || is_between(b'a', b'f', byte)
}

fn are_digits(text: &[u8]) -> bool
    ensures { result ≡ list_all (λ b. is_between 48 57 b || is_between 97 102 b) text.now }
{
    text.iter().all(|byte| is_digit(*byte))
}

/// Whether a text may be an epoch.
fn is_epoch(text: &[u8]) -> bool
    ensures { result ≡ is_epoch text.now }
{
    text.len() == 32 && are_digits(text)
}

/// The number that an id is, if it is none below 0 and no text.
fn count_of(id: &Id) -> Option<u64>
    ensures { result ≡ option_and_then (passing is_count) (option_and_then as_u64 (as_number (id_data id.now))) }
{
    match id {
        Id::Natural(count) => Some(*count),
        Id::Whole(count) => u64::try_from(*count).ok(),
        Id::Text(_) => None,
    }
}

/// The number of 64 bits of a place or a position.
///
/// # Errors
/// As of `holder_of`.
pub fn count_in(
    alloc: Global,
    text: &[u8],
    scratch: &mut Scratch,
) -> Result<Option<u64>, AllocError>
    ensures { IfOk result (λ o. o ≡ count_in text.now) }
{
    match read_id(alloc, text, scratch)? {
        None => Ok(None),
        Some(id) => Ok(count_of(&id)),
    }
}

/// A name, an epoch and the digits of a count, as they are written, and what follows them.
#[derive(Drop)]
pub(crate) struct Spelled<'a> {
    pub(crate) name: &'a [u8],
    pub(crate) epoch: &'a [u8],
    pub(crate) digits: &'a [u8],
    pub(crate) rest: &'a [u8],
}

impl<'a> Model for Spelled<'a> {
    ghost use Rattle.iv_records.specs.Names.{Spelled as SpelledSpec};

    ghost Value = { SpelledSpec };

    ghost view = { λ s. record { name = s.name.now; epoch = s.epoch.now; digits = s.digits.now; rest = s.rest.now } };
}

/// How a text spells a name and its place.
pub(crate) fn spelled_in(text: &[u8]) -> Option<Spelled<'_>>
    ensures { result ≡ spelled_in text.now }
{
    let (name, rest) = between(text, b"\"once\":\"", b'"')?;
    let (epoch, rest) = between(rest, b",\"at\":\"", b'.')?;
    let (digits, rest) = cut_at(rest, b'"')?;
    let rest = behind(rest, b",")?;
    Some(Spelled {
        name,
        epoch,
        digits,
        rest,
    })
}

/// A name, as text.
pub(crate) fn random_in(name: &[u8]) -> Option<&str>
    ensures { option_map (λ text. text.now) result ≡ passing is_random name.now }
{
    let Ok(text) = str::from_utf8(name) else {
        return None;
    };
    if is_random(name) { Some(text) } else { None }
}

/// An epoch, as text, if bytes are one: 32 hexadecimal digits.
pub fn epoch_in(epoch: &[u8]) -> Option<&str>
    ensures { option_map (λ text. text.now) result ≡ passing is_epoch epoch.now }
{
    let Ok(text) = str::from_utf8(epoch) else {
        return None;
    };
    if is_epoch(epoch) { Some(text) } else { None }
}

/// The name that is spelled, as a client may say one, and the rest of its message.
fn claimed(
    alloc: Global,
    spelled: &Spelled<'_>,
    scratch: &mut Scratch,
) -> Result<Option<(Claim, Vec<u8>)>, AllocError>
    ensures { IfOk result (λ o. option_map {U = spec.Claim × List ℕ} (λ p. (p.0, p.1.items)) o ≡ claimed spelled.now) }
{
    let (Some(name), Some(epoch)) = (random_in(spelled.name), epoch_in(spelled.epoch)) else {
        return Ok(None);
    };
    let Some(count) = count_in(alloc, spelled.digits, scratch)? else {
        return Ok(None);
    };
    let at = Place {
        epoch: String::from_str(alloc, epoch)?,
        count,
    };
    let claim = Claim {
        name: String::from_str(alloc, name)?,
        at,
    };
    Ok(Some((claim, with_brace(alloc, spelled.rest)?)))
}

/// The name in front of a message, and the rest of it.
pub fn claim_in(
    alloc: Global,
    text: &[u8],
    scratch: &mut Scratch,
) -> Result<Option<(Claim, Vec<u8>)>, AllocError>
    ensures { IfOk result (λ o. option_map {U = spec.Claim × List ℕ} (λ p. (p.0, p.1.items)) o ≡ claim_in text.now) }
{
    let Some(text) = behind(text, b"{") else {
        return Ok(None);
    };
    match spelled_in(text) {
        None => Ok(None),
        Some(spelled) => claimed(alloc, &spelled, scratch),
    }
}
