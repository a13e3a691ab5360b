//! `push_records`: what a journal has of a gateway's lines; `push_head`: what it begins with; `anew`: all of one, of lines of the form before.
ghost use Rattle.std.specs.Prelude.{◌≡◌, ◌≤◌, ◌++◌, ◌∷◌, [], ℕ, IfOk, OnOk, if◌then◌else◌, None, bytes_eq, codes, false, length, option_map, take};
ghost use Rattle.iv_audit.specs.Audit.{escaped, escaped_byte, head_line, is_noted, is_request, note_text, text_by};
ghost use Rattle.iv_audit.specs.Writing.{GoesOnWith, IsAnew, IsPushed, holder_at, note_by};

use crate::laws::bytes_have_lines;
use hex::encode_to_slice;
use itoa::Buffer;
use iv_journal::{Chain, Line, PushFault, head_text};
use std::alloc::{AllocError, Global};

/// What the head says after the form and the epoch.
pub const VERSION: &[u8] = b"\"audit\":1}";

/// Why nothing is written.
#[derive(Clone, Copy, Debug, PartialEq, Eq)]
pub enum WriteFault {
    /// A line begins as a note does, has a newline or a zero byte, or is too long.
    NotLines,
    /// A growth of memory was refused.
    Memory,
}

impl From<AllocError> for WriteFault {
    fn from(_: AllocError) -> WriteFault {
        WriteFault::Memory
    }
}

/// The lines of a gateway up to an end, after those of an earlier share, were made by one holder of a token.
#[derive(Drop)]
pub struct Share {
    /// How many lines there are up to the end.
    pub end: usize,
    /// The holder's name: none if it has none.
    pub holder: String,
}

/// Appends a byte of a name.
fn push_byte(out: &mut Vec<u8>, byte: u8) -> Result<(), AllocError>
    ensures { OnOk result (out.new.items ≡ out.old.items ++ escaped_byte byte) }
{
    if byte < 32 || (byte == b'"' || byte == b'\\') {
        let mut digits = [0; 2];
        let _ = encode_to_slice(&[byte], &mut digits);
        out.extend_from_slice(b"\\u00")?;
        out.extend_from_slice(&digits)?;
        return Ok(());
    }
    out.push(byte)?;
    Ok(())
}

/// Appends a name, as JSON has it between quotation marks.
fn push_escaped(out: &mut Vec<u8>, name: &[u8]) -> Result<(), AllocError>
    ensures { OnOk result (out.new.items ≡ out.old.items ++ escaped name.now) }
{
    for byte in name {
        push_byte(out, *byte)?;
    }
    Ok(())
}

/// Appends what comes before an entry.
fn push_note(out: &mut Vec<u8>, at: u64, holder: &[u8]) -> Result<(), AllocError>
    ensures { OnOk result (out.new.items ≡ out.old.items ++ note_text (record { at = at; holder = holder.now })) }
{
    let mut digits = Buffer::new();
    out.extend_from_slice(b"\"at\":")?;
    out.extend_from_slice(digits.format(at).as_bytes())?;
    out.extend_from_slice(b",\"by\":\"")?;
    push_escaped(out, holder)?;
    out.extend_from_slice(b"\",")?;
    Ok(())
}

/// The shares that end after a line, and those after them.
fn behind_line(shares: &[Share], at: usize) -> &[Share]
    ensures { (n : ℕ) → at ≤ n → holder_at result.now n ≡ holder_at shares.now n }
{
    for place in 0..shares.len() {
        if at < shares[place].end {
            return &shares[place..];
        }
    }
    &[]
}

/// The holder of a line, which has this number from none on.
fn holder_at(shares: &[Share], at: usize) -> &[u8]
    ensures { result.now ≡ holder_at shares.now at }
{
    for share in shares {
        if at < share.end {
            return share.holder.as_bytes();
        }
    }
    &[]
}

/// Whether a text begins with a prefix.
fn begins(text: &[u8], prefix: &[u8]) -> bool
    ensures { result ≡ bytes_eq (take (length prefix.now) text.now) prefix.now }
{
    match text.get(..prefix.len()) {
        Some(front) => front == prefix,
        None => false,
    }
}

/// Whether a text begins with a note.
pub fn is_noted(text: &[u8]) -> bool
    ensures { result ≡ is_noted text.now }
{
    begins(text, b"\"at\":")
}

/// Whether a text begins as that of a request does.
fn is_request(text: &[u8]) -> bool
    ensures { result ≡ is_request text.now }
{
    begins(text, b"\"as\":\"")
}

/// Appends a line.
fn push_line(chain: &mut Chain, out: &mut Vec<u8>, line: &Line) -> Result<(), WriteFault>
    ensures { OnOk result (IsPushed line.now chain.old chain.new out.old.items out.new.items) }
{
    match chain.push(out, line) {
        Ok(()) => Ok(()),
        Err(PushFault::NotText) => Err(WriteFault::NotLines),
        Err(PushFault::Memory) => Err(WriteFault::Memory),
    }
}

/// Makes the text of a line: that of a request with a note, if a second is given.
fn make_text(
    made: &mut Vec<u8>,
    at: Option<u64>,
    holder: &[u8],
    text: &[u8],
) -> Result<(), AllocError>
    ensures { OnOk result (made.new.items ≡ text_by (note_by at holder.now text.now) text.now) }
{
    made.clear();
    if is_request(text) {
        if let Some(at) = at {
            push_note(made, at, holder)?;
        }
    }
    made.extend_from_slice(text)?;
    Ok(())
}

/// Appends a line, with a note if it is a request and a second is given.
fn push_noted(
    chain: &mut Chain,
    out: &mut Vec<u8>,
    made: &mut Vec<u8>,
    at: Option<u64>,
    holder: &[u8],
    line: &Line,
) -> Result<(), WriteFault>
    ensures line { OnOk result (is_noted line.now.text ≡ false) }
    ensures pushed { OnOk result (IsPushed (record { is_last = line.now.is_last; text = text_by (note_by at holder.now line.now.text) line.now.text })
        chain.old chain.new out.old.items out.new.items) }
{
    if is_noted(line.text) {
        return Err(WriteFault::NotLines);
    }
    make_text(made, at, holder, line.text)?;
    let line = Line {
        is_last: line.is_last,
        text: made.as_slice(),
    };
    push_line(chain, out, &line)
}

/// Appends the lines of a gateway. With a second, in seconds since 1970, each request has a note of it and of who held the token by which it
/// was made, as the shares tell.
///
/// # Errors
/// `NotLines` if one begins as a note does, or is no text of a journal; `Memory` if a growth of memory was refused. Nothing of what was
/// appended is to be used then.
pub fn push_records(
    alloc: Global,
    chain: &mut Chain,
    out: &mut Vec<u8>,
    at: Option<u64>,
    shares: &[Share],
    lines: &[Line],
) -> Result<(), WriteFault>
    ensures { OnOk result (GoesOnWith at shares.now lines.now chain.old chain.new out.old.items out.new.items) }
{
    let mut made = Vec::new(alloc);
    let mut left = shares;
    for place in 0..lines.len() {
        left = behind_line(left, place);
        push_noted(
            chain,
            out,
            &mut made,
            at,
            holder_at(left, place),
            &lines[place],
        )?;
    }
    Ok(())
}

/// Appends the head, by 32 digits that no other journal has.
///
/// # Errors
/// `NotLines` if these are no text; `Memory` if a growth of memory was refused.
pub fn push_head(
    alloc: Global,
    chain: &mut Chain,
    out: &mut Vec<u8>,
    epoch: &[u8; 32],
) -> Result<(), WriteFault>
    ensures { OnOk result (IsPushed (head_line epoch.now) chain.old chain.new out.old.items out.new.items) }
{
    let text = head_text(alloc, epoch, VERSION)?;
    let line = Line {
        is_last: true,
        text: &text,
    };
    push_line(chain, out, &line)
}

/// A journal with these lines, without notes.
///
/// # Errors
/// As of `push_records`.
pub fn anew(alloc: Global, epoch: &[u8; 32], lines: &[Line]) -> Result<Vec<u8>, WriteFault>
    ensures { IfOk result (λ out. IsAnew epoch.now lines.now out.items) }
{
    bytes_have_lines();
    let mut chain = Chain::new();
    let mut out = Vec::new(alloc);
    push_head(alloc, &mut chain, &mut out, epoch)?;
    push_records(alloc, &mut chain, &mut out, None, &[], lines)?;
    Ok(out)
}
