//! `read_journal`: what bytes are, read as a journal.
ghost use Rattle.std.specs.Prelude.{◌≡◌, ◌==◌, ◌&&◌, ◌+◌, ◌++◌, ◌∷◌, List, ℕ, IfOk, IfSome, None, false, true};
ghost use Rattle.std.specs.Prelude.{bytes_eq, codes, drop, if◌then◌else◌, length, take};
ghost use Rattle.std.specs.List.{list_any};
ghost use Rattle.hex.specs.Hex.{encode_lower};
ghost use Rattle.iv_journal.specs.Journal.{body_of, digest_of, has_head, is_text, journal_of, mark};
ghost use Rattle.iv_journal.specs.Reading.{Begins, BeginsNoLine, IsReading, begins, fault_of, is_torn, whole};
ghost use Rattle.iv_journal.specs.Ends.{AreEnded};

use crate::head::is_head;
use crate::lines::{
    COMMA, FRONT, Line, MARK, MOST_TEXT, behind, digest_of, digits_of, front, is_plain, is_text,
    mark,
};
use std::alloc::{AllocError, Global};

/// Where lines end.
#[derive(Clone, Copy, Drop)]
pub struct End {
    /// How many lines.
    pub lines: usize,
    /// How many bytes.
    pub length: usize,
    /// The digest of the last of them.
    pub digest: [u8; 32],
}

/// What bytes are, read as a journal.
#[derive(Drop)]
pub struct Reading<'a> {
    /// The lines of its whole records.
    pub lines: Vec<Line<'a>>,
    /// Where they end. What follows is cut.
    pub end: End,
    /// The byte where what belongs to no journal begins.
    pub fault: Option<usize>,
}

/// A line, and its digest.
#[derive(Drop)]
struct Found<'a> {
    line: Line<'a>,
    digest: [u8; 32],
}

/// Whether bytes begin as others do, as far as both go.
fn begins(rest: &[u8], other: &[u8]) -> bool
    ensures { result ≡ begins rest.now other.now }
{
    front(rest, other.len()) == front(other, rest.len())
}

/// Whether a line was being written.
fn is_torn(rest: &[u8]) -> bool
    ensures { result ≡ is_torn rest.now }
{
    (begins(rest, mark(true)) || begins(rest, mark(false)))
        && (is_plain(rest) && rest.len() <= FRONT + MOST_TEXT)
}

/// The bytes before the first newline.
fn up_to_newline(bytes: &[u8]) -> Option<&[u8]>
    ensures none { result ≡ None → list_any (λ b. b == 10) bytes.now ≡ false }
    ensures some { IfSome result (λ body. (list_any (λ b. b == 10) body.now ≡ false) × (bytes.now ≡ body.now ++ 10 ∷ drop (length body.now + 1) bytes.now)) }
{
    for end in 0..bytes.len() {
        if bytes[end] == b'\n' {
            return Some(front(bytes, end));
        }
    }
    None
}

/// Whether a line begins with this mark and this digest.
fn has_front(body: &[u8], is_last: bool, digest: &[u8; 32]) -> bool
    ensures { result ≡ (bytes_eq (take 9 body.now) (mark is_last) && (bytes_eq (take 64 (drop 9 body.now)) (encode_lower digest.now)
        && bytes_eq (take 2 (drop 73 body.now)) (codes "\","))) }
{
    front(body, MARK) == mark(is_last)
        && (front(behind(body, MARK), 64) == digits_of(digest).as_slice()
            && front(behind(body, 73), 2) == COMMA)
}

/// Whether a line is the last of its record.
fn is_last(body: &[u8]) -> bool
    ensures { result ≡ bytes_eq (take 9 body.now) (mark true) }
{
    front(body, MARK) == mark(true)
}

/// The line that bytes begin with, after one that has this digest.
fn next_line<'a>(before: &[u8; 32], rest: &'a [u8]) -> Option<Found<'a>>
    ensures none { result ≡ None → BeginsNoLine before.now rest.now }
    ensures text { IfSome result (λ f. is_text f.line.text ≡ true) }
    ensures digest { IfSome result (λ f. f.digest ≡ digest_of before.now f.line) }
    ensures bytes { IfSome result (λ f. rest.now ≡ body_of before.now f.line ++ 10 ∷ drop (76 + length f.line.text) rest.now) }
{
    let body = up_to_newline(rest)?;
    let text = behind(body, FRONT);
    let is_last = is_last(body);
    let digest = digest_of(before, is_last, text);
    if !has_front(body, is_last, &digest) {
        return None;
    }
    if !is_text(text) {
        return None;
    }
    Some(Found {
        line: Line { is_last, text },
        digest,
    })
}

/// Whether the first line has a head, if there is one.
fn has_head(lines: &[Line]) -> bool
    ensures { result ≡ has_head lines.now }
{
    match lines.first() {
        Some(line) => is_head(line.text),
        None => true,
    }
}

/// The byte where what belongs to no journal begins, if lines end at a byte and this is the rest.
fn fault_at(lines: &[Line], rest: &[u8], at: usize) -> Option<usize>
    ensures { at ≡ length (journal_of lines.now) → result ≡ fault_of lines.now rest.now }
{
    if !has_head(lines) {
        Some(0)
    } else if is_torn(rest) {
        None
    } else {
        Some(at)
    }
}

/// The reading of bytes that are lines and a rest.
fn reading_of<'a>(mut lines: Vec<Line<'a>>, rest: &[u8], at: &End, end: &End) -> Reading<'a>
    requires at { AreEnded lines.items at.now }
    requires end { AreEnded (whole lines.items) end.now }
    ensures reading { (bytes : List ℕ) → Begins bytes lines.entry.items rest.now
        → IsReading bytes (record { lines = result.lines.items; fault = result.fault }) }
    ensures end { AreEnded result.lines.items result.end }
{
    let fault = fault_at(&lines, rest, at.length);
    lines.truncate(end.lines);
    Reading {
        lines,
        end: *end,
        fault,
    }
}

/// Reads bytes as a journal.
///
/// # Errors
/// If a growth of memory was refused.
pub fn read_journal(alloc: Global, bytes: &[u8]) -> Result<Reading<'_>, AllocError>
    ensures reading { IfOk result (λ r. IsReading bytes.now (record { lines = r.lines.items; fault = r.fault })) }
    ensures end { IfOk result (λ r. AreEnded r.lines.items r.end) }
{
    let mut lines = Vec::new(alloc);
    let mut rest = bytes;
    let mut at = End {
        lines: 0,
        length: 0,
        digest: [0; 32],
    };
    let mut kept = at;
    for _ in 0..bytes.len() {
        let Some(found) = next_line(&at.digest, rest) else {
            return Ok(reading_of(lines, rest, &at, &kept));
        };
        let length = length_of(&found.line);
        rest = behind(rest, length);
        at = End {
            lines: at.lines + 1,
            length: at.length + length,
            digest: found.digest,
        };
        kept = end_of_whole(&kept, &at, &found.line);
        lines.push(found.line)?;
    }
    Ok(reading_of(lines, rest, &at, &kept))
}

/// Where whole records end after one line more.
fn end_of_whole(end: &End, at: &End, line: &Line) -> End
    ensures { result ≡ (if line.now.is_last then at.now else end.now) }
{
    if line.is_last { *at } else { *end }
}

/// Bytes of a line with its newline.
fn length_of(line: &Line) -> usize
    ensures { result ≡ 76 + length line.now.text }
{
    FRONT + 1 + line.text.len()
}
