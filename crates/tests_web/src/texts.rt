//! `cell`, `bytes_of`: what a line of a table has, and the bytes that a cell stands for.
ghost use Rattle.std.specs.Prelude.{◌≤◌};

use std::alloc::{AllocError, Global};

/// A cell of a line, between bars; an empty one if there are fewer.
pub fn cell(line: &str, place: usize) -> &str {
    line.split('|').nth(place).unwrap_or("")
}

/// Whether a line of a table has no cells.
pub fn is_comment(line: &str) -> bool {
    line.starts_with("# ")
}

/// What a hexadecimal digit stands for.
fn digit(byte: u8) -> u8
    ensures { result ≤ 15 }
{
    match byte {
        b'0'..=b'9' => byte - b'0',
        b'a'..=b'f' => byte - b'a' + 10,
        _ => 0,
    }
}

/// The byte that is after a backslash, as `r`, `n`, `0`, or `x` with two digits, and what follows it.
fn unescaped(text: &[u8]) -> (Option<u8>, &[u8]) {
    match text {
        [b'r', rest @ ..] => (Some(b'\r'), rest),
        [b'n', rest @ ..] => (Some(b'\n'), rest),
        [b'0', rest @ ..] => (Some(0), rest),
        [b'x', high, low, rest @ ..] => (Some(digit(*high) * 16 + digit(*low)), rest),
        _ => (None, text),
    }
}

/// Adds what follows a backslash.
fn push_escaped(bytes: &mut Vec<u8>, text: &[u8]) -> Result<(), AllocError> {
    let (byte, rest) = unescaped(text);
    if let Some(byte) = byte {
        bytes.push(byte)?;
    }
    bytes.extend_from_slice(rest)
}

/// The bytes of a cell, which is written as a string of Rust is.
pub fn bytes_of(alloc: Global, cell: &str) -> Result<Vec<u8>, AllocError> {
    let mut bytes = Vec::new(alloc);
    let (front, escaped) = cell.split_once('\\').unwrap_or((cell, ""));
    bytes.extend_from_slice(front.as_bytes())?;
    for text in escaped.split('\\') {
        push_escaped(&mut bytes, text.as_bytes())?;
    }
    Ok(bytes)
}
