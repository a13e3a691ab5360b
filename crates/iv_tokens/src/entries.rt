//! `entries_of`: the lines of a file as tokens with their holders and ends.
ghost use Rattle.std.specs.Prelude.{◌≡◌, ◌++◌, ◌∷◌, ◌&&◌, [], if◌then◌else◌, ℕ, List, None, Some, Err, IfOk, OnOk, length, nat_le, nat_lt, option_and_then, option_map, string_bytes};
ghost use Rattle.std.specs.List.{list_all};
ghost use Rattle.iv_clients.specs.Tokens.{has_digest, is_no_token, lines_of};
ghost use Rattle.iv_tokens.specs.Entries.{Entry, end_in, entries_of, entry_in, entry_of, holder_in, is_holder, is_plain, maybe_quoted, only_one, parts_in, plain_entry, plain_line, quoted, token_of, tokens_among};
ghost use Rattle.iv_tokens.specs.Lines.{behind_entries, entries_read, parts_by};

use crate::moments::moment_in;
use iv_clients::{Token, TokensFault, read_tokens};
use iv_records::{behind, cut_at};
use std::alloc::{AllocError, Global};
use std::marker::Model;

/// A token, and when it ends.
#[derive(Drop)]
pub struct Entry {
    /// The token. Who holds it has 1 to 64 bytes, if that is said.
    pub token: Token,
    /// When it ends, in seconds since 1970, if it does.
    pub until: Option<u64>,
}

impl Model for Entry {
    ghost use Rattle.iv_tokens.specs.Entries.{Entry};

    ghost Value = { Entry };

    ghost view = { λ e. record { token = e.token; until = e.until } };
}

/// The parts of a line that may say a holder and an end.
#[derive(Clone, Copy)]
struct Parts<'a> {
    digits: &'a [u8],
    role: &'a [u8],
    holder: Option<&'a [u8]>,
    until: Option<&'a [u8]>,
}

/// A text that a quotation mark ends, after a prefix, and what follows it.
fn quoted<'a>(line: &'a [u8], prefix: &[u8]) -> Option<(&'a [u8], &'a [u8])>
    ensures { option_map (λ p. (p.0.now, p.1.now)) result ≡ quoted prefix.now line.now }
{
    cut_at(behind(line, prefix)?, b'"')
}

/// The same, if it may be left out.
fn maybe_quoted<'a>(line: &'a [u8], prefix: &[u8]) -> (Option<&'a [u8]>, &'a [u8])
    ensures text { option_map (λ t. t.now) result.0 ≡ (maybe_quoted prefix.now line.now).0 }
    ensures rest { result.1.now ≡ (maybe_quoted prefix.now line.now).1 }
{
    match quoted(line, prefix) {
        None => (None, line),
        Some((text, rest)) => (Some(text), rest),
    }
}

/// The parts of a line.
fn parts_in(line: &[u8]) -> Option<Parts<'_>>
    ensures { option_map parts_by result ≡ parts_in line.now }
{
    let (digits, rest) = quoted(line, b"\"")?;
    let (role, rest) = quoted(rest, b" = { role = \"")?;
    let (holder, rest) = maybe_quoted(rest, b", holder = \"");
    let (until, rest) = maybe_quoted(rest, b", until = \"");
    if rest == b" }".as_slice() {
        Some(Parts {
            digits,
            role,
            holder,
            until,
        })
    } else {
        None
    }
}

/// The line that says no more than the token.
fn plain_line(alloc: Global, digits: &[u8], role: &[u8]) -> Result<Vec<u8>, AllocError>
    ensures { IfOk result (λ line. line.items ≡ plain_line digits.now role.now) }
{
    let mut line = Vec::new(alloc);
    line.push(b'"')?;
    line.extend_from_slice(digits)?;
    line.extend_from_slice(b"\" = \"")?;
    line.extend_from_slice(role)?;
    line.push(b'"')?;
    Ok(line)
}

/// The one token, if there is one alone.
fn only_one(tokens: Vec<Token>) -> Option<Token>
    ensures { result ≡ only_one tokens.items }
{
    let mut tokens = tokens;
    if tokens.len() != 1 {
        return None;
    }
    tokens.pop()
}

/// The token of a line that says no more.
fn token_of(alloc: Global, line: &[u8]) -> Result<Option<Token>, AllocError>
    ensures { IfOk result (λ o. o ≡ token_of line.now) }
{
    match read_tokens(alloc, line) {
        Ok(tokens) => Ok(only_one(tokens)),
        Err(TokensFault::Memory) => Err(AllocError),
        Err(_) => Ok(None),
    }
}

/// Whether a byte is none of a control character, and none that begins an escape of TOML.
fn is_plain(byte: u8) -> bool
    ensures { result ≡ is_plain byte }
{
    byte >= 32 && byte != 127 && byte != b'\\'
}

/// Whether all bytes are so.
fn are_plain(text: &[u8]) -> bool
    ensures { result ≡ list_all is_plain text.now }
{
    for byte in text {
        if !is_plain(*byte) {
            return false;
        }
    }
    true
}

/// Whether a text has 1 to 64 bytes.
fn is_short(text: &[u8]) -> bool
    ensures { result ≡ (nat_lt 0 (length text.now) && nat_le (length text.now) 64) }
{
    0 < text.len() && text.len() <= 64
}

/// The name of a holder, as text.
fn name_in(name: &[u8]) -> Option<&str>
    ensures { option_map (λ t. t.now) result ≡ (if is_holder name.now then Some name.now else None) }
{
    if !are_plain(name) || !is_short(name) {
        return None;
    }
    match str::from_utf8(name) {
        Ok(text) => Some(text),
        Err(_) => None,
    }
}

/// The holder that a line says, if it says one; none if what it says is no name.
fn holder_in(alloc: Global, name: Option<&[u8]>) -> Result<Option<String>, AllocError>
    ensures { IfOk result (λ o. option_map string_bytes o ≡ holder_in (option_map (λ t. t.now) name.entry)) }
{
    let Some(name) = name else {
        return Ok(Some(String::new(alloc)));
    };
    match name_in(name) {
        None => Ok(None),
        Some(name) => Ok(Some(String::from_str(alloc, name)?)),
    }
}

/// The end that a line says, if it says one; none if what it says is no moment.
fn end_in(alloc: Global, text: Option<&[u8]>) -> Result<Option<Option<u64>>, AllocError>
    ensures { IfOk result (λ o. o ≡ end_in (option_map (λ t. t.now) text.entry)) }
{
    let Some(text) = text else {
        return Ok(Some(None));
    };
    match moment_in(alloc, text)? {
        None => Ok(None),
        Some(end) => Ok(Some(Some(end))),
    }
}

/// The entry of a line with these parts.
fn entry_of(alloc: Global, parts: &Parts<'_>) -> Result<Option<Entry>, AllocError>
    ensures { IfOk result (λ o. o ≡ entry_of (parts_by parts.now)) }
{
    let Some(holder) = holder_in(alloc, parts.holder)? else {
        return Ok(None);
    };
    let Some(until) = end_in(alloc, parts.until)? else {
        return Ok(None);
    };
    let line = plain_line(alloc, parts.digits, parts.role)?;
    match token_of(alloc, &line)? {
        None => Ok(None),
        Some(token) => Ok(Some(Entry {
            token: Token {
                digest: token.digest,
                role: token.role,
                user: holder,
            },
            until,
        })),
    }
}

/// The entry of a line.
fn entry_in(alloc: Global, line: &[u8]) -> Result<Option<Entry>, AllocError>
    ensures { IfOk result (λ o. o ≡ entry_in line.now) }
{
    if let Some(token) = token_of(alloc, line)? {
        return Ok(Some(Entry { token, until: None }));
    }
    match parts_in(line) {
        None => Ok(None),
        Some(parts) => Ok(entry_of(alloc, &parts)?),
    }
}

/// Whether a line names the table, is a remark, or nothing.
fn is_no_token(line: &[u8]) -> bool
    ensures { result ≡ is_no_token line.now }
{
    match line {
        [] => true,
        [first, ..] => *first == b'#' || line == b"[tokens]".as_slice(),
    }
}

/// Whether one of the entries has a digest.
pub fn has_digest(entries: &[Entry], digest: &[u8]) -> bool
    ensures { result ≡ has_digest digest.now (tokens_among entries.now) }
{
    for entry in entries {
        if entry.token.digest.as_slice() == digest {
            return true;
        }
    }
    false
}

/// Appends the entry of a line, if it has one. Whether the file may have the line.
fn push_entry(alloc: Global, entries: &mut Vec<Entry>, line: &[u8]) -> Result<bool, AllocError>
    ensures { IfOk result (λ is. (ls : List (List ℕ)) → behind_entries entries.old.items (entries_of (line.now ∷ ls))
        ≡ (if is then behind_entries entries.new.items (entries_of ls) else None)) }
{
    if is_no_token(line) {
        return Ok(true);
    }
    match entry_in(alloc, line)? {
        None => Ok(false),
        Some(entry) => {
            entries.push(entry)?;
            Ok(true)
        }
    }
}

/// The entries before the last line of a file, and its own; or the line's number, if the file may not have it.
fn last_entry(
    alloc: Global,
    entries: Vec<Entry>,
    line: &[u8],
    number: usize,
) -> Result<Result<Vec<Entry>, usize>, AllocError>
    ensures { IfOk result (λ r. entries_read r ≡ behind_entries entries.items (entries_of (line.now ∷ []))) }
{
    let mut entries = entries;
    if push_entry(alloc, &mut entries, line)? {
        Ok(Ok(entries))
    } else {
        Ok(Err(number))
    }
}

/// The entries of the lines of a file, or the number of the first line that it may not have.
pub fn entries_of(alloc: Global, file: &[u8]) -> Result<Result<Vec<Entry>, usize>, AllocError>
    ensures { IfOk result (λ r. entries_read r ≡ entries_of (lines_of file.now)) }
{
    let mut entries = Vec::new(alloc);
    let mut rest = file;
    for number in 0..file.len() {
        match cut_at(rest, b'\n') {
            None => {
                let read = last_entry(alloc, entries, rest, number + 1)?;
                return Ok(read);
            }
            Some((line, later)) => {
                if !push_entry(alloc, &mut entries, line)? {
                    return Ok(Err(number + 1));
                }
                rest = later;
            }
        }
    }
    match cut_at(rest, b'\n') {
        None => {
            let read = last_entry(alloc, entries, rest, file.len() + 1)?;
            Ok(read)
        }
        Some(_) => Err(AllocError),
    }
}
