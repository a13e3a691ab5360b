//! `Line`: a text of a journal, and what a line of it has before the text.
ghost use Rattle.std.specs.Prelude.{◌≡◌, ◌||◌, ◌==◌, drop, take};
ghost use Rattle.std.specs.List.{list_any};
ghost use Rattle.hex.specs.Hex.{encode_lower};
ghost use Rattle.iv_journal.specs.Journal.{digest_of, is_plain, is_text, mark};

use hex::encode_to_slice;
use sha2::{Digest, Sha256};
use std::marker::Model;

/// Bytes of a text, at most.
pub const MOST_TEXT: usize = 131_072;

/// Bytes of a mark.
pub const MARK: usize = 9;

/// Bytes of a line before its text.
pub const FRONT: usize = 75;

/// What a line has between its digest and its text.
pub const COMMA: &[u8] = b"\",";

/// What the first text of a journal begins with.
pub const FORM: &[u8] = b"\"journal\":1,\"epoch\":\"";

/// A text of a journal.
#[derive(Drop)]
pub struct Line<'a> {
    /// Whether it is the last of its record. Those before it are parts.
    pub is_last: bool,
    /// The text: no newline and no zero byte, and at most `MOST_TEXT` bytes.
    pub text: &'a [u8],
}

impl<'a> Model for Line<'a> {
    ghost use Rattle.iv_journal.specs.Journal.{Line as LineSpec};

    ghost Value = { LineSpec };

    ghost view = { λ l. record { is_last = l.is_last; text = l.text.now } };
}

/// As many bytes of the front, or all.
pub fn front(bytes: &[u8], count: usize) -> &[u8]
    ensures { result.now ≡ take count bytes.now }
{
    if count < bytes.len() {
        &bytes[..count]
    } else {
        bytes
    }
}

/// What follows as many bytes.
pub fn behind(bytes: &[u8], count: usize) -> &[u8]
    ensures { result.now ≡ drop count bytes.now }
{
    if count < bytes.len() {
        &bytes[count..]
    } else {
        &[]
    }
}

/// What a line begins with.
pub fn mark(is_last: bool) -> &'static [u8]
    ensures { result.now ≡ mark is_last }
{
    if is_last {
        b"{\"last\":\""
    } else {
        b"{\"part\":\""
    }
}

/// Whether it is a newline or a zero byte.
fn is_end(byte: u8) -> bool
    ensures { result ≡ ((byte == 10) || (byte == 0)) }
{
    byte == b'\n' || byte == 0
}

/// Whether there is a newline or a zero byte.
fn has_end(bytes: &[u8]) -> bool
    ensures { result ≡ list_any (λ b. (b == 10) || (b == 0)) bytes.now }
{
    bytes.iter().any(|byte| is_end(*byte))
}

/// Whether there is neither a newline nor a zero byte.
pub fn is_plain(bytes: &[u8]) -> bool
    ensures { result ≡ is_plain bytes.now }
{
    !has_end(bytes)
}

/// Whether the bytes may be a text of a journal.
pub fn is_text(bytes: &[u8]) -> bool
    ensures { result ≡ is_text bytes.now }
{
    is_plain(bytes) && bytes.len() <= MOST_TEXT
}

/// The digest of a line after another.
pub fn digest_of(before: &[u8; 32], is_last: bool, text: &[u8]) -> [u8; 32]
    ensures { result ≡ digest_of before.now (record { is_last = is_last; text = text.now }) }
{
    let mut hasher = Sha256::new();
    hasher.update(before);
    hasher.update(mark(is_last));
    hasher.update(text);
    hasher.finalize()
}

/// The digits of a digest.
pub fn digits_of(digest: &[u8; 32]) -> [u8; 64]
    ensures { result ≡ encode_lower digest.now }
{
    let mut digits = [0; 64];
    let _ = encode_to_slice(digest, &mut digits);
    digits
}
