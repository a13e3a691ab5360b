//! `read_audit`: which lines of a journal are the gateway's; `read_plain`: those of a journal of the form before.
ghost use Rattle.std.specs.Prelude.{◌≡◌, ◌++◌, ℕ, Err, IfOk, OnOk, bytes_eq, codes, drop, map, option_map, take};
ghost use Rattle.iv_audit.specs.Audit.{version};
ghost use Rattle.iv_audit.specs.Reading.{IsAudit, IsDamaged, IsPlain, behind_first, epoch_of, given_in, is_audit, line_in, plain_text, text_in};

use crate::writing::{VERSION, is_noted};
use iv_journal::laws::{journals_go_on, readings_tell_all_bytes};
use iv_journal::{End, Line, read_journal};
use std::alloc::{AllocError, Global};

/// What of a journal is the gateway's.
#[derive(Drop)]
pub struct Audit<'a> {
    /// The digits that no other journal has: none if it has no head.
    pub epoch: Option<&'a [u8]>,
    /// The lines after the head, as the gateway gave them.
    pub lines: Vec<Line<'a>>,
    /// Where the whole records of the journal end. What follows is cut.
    pub end: End,
}

/// A journal of the form before, in which each line is an object.
#[derive(Drop)]
pub struct Plain<'a> {
    /// Its lines, each a record of its own, without its first brace.
    pub lines: Vec<Line<'a>>,
    /// How many bytes they have. What follows is cut.
    pub length: usize,
}

/// Why a journal is not read.
#[derive(Clone, Copy, Debug, PartialEq, Eq)]
pub enum AuditFault {
    /// A growth of memory was refused.
    Memory,
    /// At this byte begins what belongs to no journal of this form.
    Damaged(usize),
}

/// What follows the first of a byte.
fn behind_first(bytes: &[u8], byte: u8) -> &[u8]
    ensures { result.now ≡ behind_first byte bytes.now }
{
    for at in 0..bytes.len() {
        if bytes[at] == byte {
            return &bytes[at + 1..];
        }
    }
    &[]
}

/// What follows as many bytes.
fn behind(bytes: &[u8], count: usize) -> &[u8]
    ensures { result.now ≡ drop count bytes.now }
{
    if count < bytes.len() {
        &bytes[count..]
    } else {
        &[]
    }
}

/// As many bytes of the front, or all.
fn front(bytes: &[u8], count: usize) -> &[u8]
    ensures { result.now ≡ take count bytes.now }
{
    if count < bytes.len() {
        &bytes[..count]
    } else {
        bytes
    }
}

/// A text without its note.
fn text_in(text: &[u8]) -> &[u8]
    ensures { result.now ≡ text_in text.now }
{
    if !is_noted(text) {
        return text;
    }
    let by = behind_first(behind(text, 5), b'"');
    let rest = behind_first(behind(by, 5), b'"');
    behind(rest, 1)
}

/// A line without its note.
fn line_in<'a>(line: &Line<'a>) -> Line<'a>
    ensures { result ≡ line_in line.now }
{
    Line {
        is_last: line.is_last,
        text: text_in(line.text),
    }
}

/// Lines without their notes.
fn lines_in<'a>(alloc: Global, lines: &[Line<'a>]) -> Result<Vec<Line<'a>>, AllocError>
    ensures { IfOk result (λ out. out.items ≡ map line_in lines.now) }
{
    let mut out = Vec::new(alloc);
    for line in lines {
        out.push(line_in(line))?;
    }
    Ok(out)
}

/// Whether a head says that the texts may have notes.
fn is_version(text: &[u8]) -> bool
    ensures { result ≡ bytes_eq (drop 55 text.now) version }
{
    behind(text, 55) == VERSION
}

/// Whether the head, if there is one, says that the texts may have notes.
fn is_audit(lines: &[Line]) -> bool
    ensures { result ≡ is_audit lines.now }
{
    match lines.first() {
        None => true,
        Some(line) => is_version(line.text),
    }
}

/// The digits of the head, if there is one.
fn epoch_of<'a>(lines: &[Line<'a>]) -> Option<&'a [u8]>
    ensures { option_map (λ e. e.now) result ≡ epoch_of lines.now }
{
    match lines.first() {
        None => None,
        Some(line) => Some(front(behind(line.text, 21), 32)),
    }
}

/// The gateway's lines: those after the head.
fn given_in<'a>(alloc: Global, lines: &[Line<'a>]) -> Result<Vec<Line<'a>>, AllocError>
    ensures { IfOk result (λ out. out.items ≡ given_in lines.now) }
{
    match lines.get(1..) {
        Some(rest) => lines_in(alloc, rest),
        None => Ok(Vec::new(alloc)),
    }
}

/// Reads a journal.
///
/// # Errors
/// `Damaged` with the byte at which what belongs to no journal of this form begins; `Memory` if a growth of memory was refused.
pub fn read_audit(alloc: Global, bytes: &[u8]) -> Result<Audit<'_>, AuditFault>
    ensures read { IfOk result (λ a. IsAudit bytes.now a) }
    ensures damaged { (place : ℕ) → result ≡ Err (AuditFault.Damaged place) → IsDamaged bytes.now place }
{
    readings_tell_all_bytes();
    journals_go_on();
    let Ok(reading) = read_journal(alloc, bytes) else {
        return Err(AuditFault::Memory);
    };
    if let Some(place) = reading.fault {
        return Err(AuditFault::Damaged(place));
    }
    if !is_audit(&reading.lines) {
        return Err(AuditFault::Damaged(0));
    }
    let Ok(lines) = given_in(alloc, &reading.lines) else {
        return Err(AuditFault::Memory);
    };
    Ok(Audit {
        epoch: epoch_of(&reading.lines),
        lines,
        end: reading.end,
    })
}

/// What a line of the form before says: nothing if it begins with no brace.
fn plain_text(line: &[u8]) -> &[u8]
    ensures { result.now ≡ plain_text line.now }
{
    if line.first() == Some(&b'{') {
        behind(line, 1)
    } else {
        &[]
    }
}

/// Reads a journal of the form before. Any bytes are one.
///
/// # Errors
/// `AllocError` if a growth of memory was refused.
pub fn read_plain(alloc: Global, bytes: &[u8]) -> Result<Plain<'_>, AllocError>
    ensures { IfOk result (λ p. IsPlain bytes.now p) }
{
    let mut lines = Vec::new(alloc);
    let mut length = 0;
    for at in 0..bytes.len() {
        if bytes[at] == b'\n' {
            lines.push(Line {
                is_last: true,
                text: plain_text(&bytes[length..at]),
            })?;
            length = at + 1;
        }
    }
    Ok(Plain { lines, length })
}
