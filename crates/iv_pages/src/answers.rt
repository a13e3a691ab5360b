//! Answers as bytes: `push_page` a file's, `push_refusal` a refusal's; `etag_of` a file's tag.
ghost use Rattle.std.specs.Prelude.{◌≡◌, ◌++◌, codes, decimal, IfOk, OnOk, option_map};
ghost use Rattle.iv_pages.specs.Answer.{allow_line, closing_lines, field_line, has_body, is_known, is_tag, lists_tag, not_modified, ok_head, page_head, refusal_answer, refusal_head, skip_blanks, status_words, strong, tag_line, tag_of};
ghost use Rattle.iv_pages.specs.Seen.{asked_by, served_by};

use crate::asking::Ask;
use crate::cutting::cut_at;
use itoa::Buffer;
use std::alloc::{AllocError, Global};

/// A file that is answered, but for its contents.
#[derive(Clone, Copy)]
pub struct Page<'a> {
    /// Its media type.
    pub kind: &'a str,
    /// Its tag, if it has one.
    pub tag: Option<&'a [u8]>,
    /// The bytes of its contents.
    pub length: usize,
    /// The policy of its content (`content-security-policy`).
    pub policy: &'a str,
}

/// Why a request is refused.
#[derive(Clone, Copy, Debug, PartialEq, Eq)]
pub enum Refusal {
    /// 400: it is no request of HTTP.
    BadRequest,
    /// 404: no page has this name.
    NotFound,
    /// 405: its method is neither `GET` nor `HEAD`.
    MethodNotAllowed,
    /// 414: its first line is too long.
    TargetTooLong,
    /// 431: its head is too long, or has too many fields.
    FieldsTooLarge,
    /// 500: the page could not be read.
    Failed,
    /// 503: too many connections are open.
    Unavailable,
    /// 505: it is in a version of HTTP that is not spoken.
    VersionNotSupported,
}

/// The number and the words of a refusal.
fn status_words(why: Refusal) -> &'static str
    ensures { result.now ≡ status_words why }
{
    match why {
        Refusal::BadRequest => "400 Bad Request",
        Refusal::NotFound => "404 Not Found",
        Refusal::MethodNotAllowed => "405 Method Not Allowed",
        Refusal::TargetTooLong => "414 URI Too Long",
        Refusal::FieldsTooLarge => "431 Request Header Fields Too Large",
        Refusal::Failed => "500 Internal Server Error",
        Refusal::Unavailable => "503 Service Unavailable",
        Refusal::VersionNotSupported => "505 HTTP Version Not Supported",
    }
}

/// The field that names the methods that are allowed.
fn allow_line(why: Refusal) -> &'static [u8]
    ensures { result.now ≡ allow_line why }
{
    match why {
        Refusal::MethodNotAllowed => b"allow: GET, HEAD\r\n",
        _ => b"",
    }
}

/// Appends a number.
fn push_decimal(out: &mut Vec<u8>, number: u64) -> Result<(), AllocError>
    ensures { OnOk result (out.new.items ≡ out.old.items ++ decimal number) }
{
    out.extend_from_slice(Buffer::new().format(number).as_bytes())?;
    Ok(())
}

/// The entity tag of a file of so many bytes that changed last in a nanosecond since 1970. It is a weak one: what changes twice in one tick of
/// the system's clock, and keeps its length, keeps it.
///
/// # Errors
/// `AllocError` if a growth of memory was refused, as of each function that appends; what was appended then is not to be sent.
pub fn etag_of(alloc: Global, size: u64, changed: u64) -> Result<Vec<u8>, AllocError>
    ensures { IfOk result (λ tag. tag.items ≡ tag_of size changed) }
{
    let mut tag = Vec::new(alloc);
    tag.extend_from_slice(b"W/\"")?;
    push_decimal(&mut tag, size)?;
    tag.extend_from_slice(b"-")?;
    push_decimal(&mut tag, changed)?;
    tag.extend_from_slice(b"\"")?;
    Ok(tag)
}

/// Without the blanks in front.
fn skip_blanks(text: &[u8]) -> &[u8]
    ensures { result.now ≡ skip_blanks text.now }
{
    for at in 0..text.len() {
        if text[at] != b' ' && text[at] != b'\t' {
            return &text[at..];
        }
    }
    &[]
}

/// A tag without the mark of a weak one.
fn strong(tag: &[u8]) -> &[u8]
    ensures { result.now ≡ strong tag.now }
{
    match tag {
        [b'W', b'/', rest @ ..] => rest,
        _ => tag,
    }
}

/// Whether a part of a list is the tag, by weak comparison.
fn is_tag(tag: &[u8], part: &[u8]) -> bool
    ensures { result ≡ is_tag tag.now part.now }
{
    strong(skip_blanks(part)) == strong(tag)
}

/// Whether a list has the tag.
fn lists_tag(tag: &[u8], list: &[u8]) -> bool
    ensures { result ≡ lists_tag tag.now list.now }
{
    let mut rest = list;
    while let Some((part, later)) = cut_at(rest, b',') {
        if is_tag(tag, part) {
            return true;
        }
        rest = later;
    }
    is_tag(tag, rest)
}

/// Whether who asks has what has this tag: `If-None-Match` is `*`, or lists it.
fn is_known(tag: Option<&[u8]>, known: Option<&[u8]>) -> bool
    ensures { result ≡ is_known (option_map (λ t. t.now) tag.entry) (option_map (λ k. k.now) known.entry) }
{
    match tag {
        None => false,
        Some(tag) => match known {
            None => false,
            Some(list) => list == b"*".as_slice() || lists_tag(tag, list),
        },
    }
}

/// Appends a field.
fn push_field(out: &mut Vec<u8>, name: &[u8], value: &[u8]) -> Result<(), AllocError>
    ensures { OnOk result (out.new.items ≡ out.old.items ++ field_line name.now value.now) }
{
    out.extend_from_slice(name)?;
    out.extend_from_slice(b": ")?;
    out.extend_from_slice(value)?;
    out.extend_from_slice(b"\r\n")?;
    Ok(())
}

/// Appends the field with a number of bytes.
fn push_length(out: &mut Vec<u8>, length: usize) -> Result<(), AllocError>
    ensures { OnOk result (out.new.items ≡ out.old.items ++ field_line (codes "content-length") (decimal length)) }
{
    push_field(
        out,
        b"content-length",
        Buffer::new().format(length).as_bytes(),
    )
}

/// Appends the field with a tag, if there is one.
fn push_tag(out: &mut Vec<u8>, tag: Option<&[u8]>) -> Result<(), AllocError>
    ensures { OnOk result (out.new.items ≡ out.old.items ++ tag_line (option_map (λ t. t.now) tag.entry)) }
{
    match tag {
        None => Ok(()),
        Some(tag) => push_field(out, b"etag", tag),
    }
}

/// Appends the fields of each answer's end, and the end of its head.
fn push_closing(out: &mut Vec<u8>) -> Result<(), AllocError>
    ensures { OnOk result (out.new.items ≡ out.old.items ++ closing_lines) }
{
    push_field(out, b"cache-control", b"no-cache")?;
    push_field(out, b"x-content-type-options", b"nosniff")?;
    push_field(out, b"connection", b"close")?;
    out.extend_from_slice(b"\r\n")?;
    Ok(())
}

/// Appends the head of the answer that a file is as who asks has it.
fn push_not_modified(out: &mut Vec<u8>, page: &Page<'_>) -> Result<(), AllocError>
    ensures { OnOk result (out.new.items ≡ out.old.items ++ not_modified (served_by page.now)) }
{
    out.extend_from_slice(b"HTTP/1.1 304 Not Modified\r\n")?;
    push_tag(out, page.tag)?;
    push_closing(out)?;
    Ok(())
}

/// Appends the head of an answer with a file.
fn push_ok(out: &mut Vec<u8>, page: &Page<'_>) -> Result<(), AllocError>
    ensures { OnOk result (out.new.items ≡ out.old.items ++ ok_head (served_by page.now)) }
{
    out.extend_from_slice(b"HTTP/1.1 200 OK\r\n")?;
    push_field(out, b"content-type", page.kind.as_bytes())?;
    push_length(out, page.length)?;
    push_tag(out, page.tag)?;
    push_field(out, b"content-security-policy", page.policy.as_bytes())?;
    push_closing(out)?;
    Ok(())
}

/// Appends the head of the answer to a request for a page. Whether the page's contents follow it: they do not behind a `HEAD`, nor if
/// who asks has them, by `If-None-Match`. The caller sends them from where they are, and ends the connection.
///
/// # Errors
/// As of `etag_of`.
pub fn push_page(out: &mut Vec<u8>, page: &Page<'_>, ask: &Ask<'_>) -> Result<bool, AllocError>
    ensures head { OnOk result (out.new.items ≡ out.old.items ++ page_head (served_by page.now) (asked_by ask.now)) }
    ensures body { IfOk result (λ follows. follows ≡ has_body (served_by page.now) (asked_by ask.now)) }
{
    if is_known(page.tag, ask.known) {
        push_not_modified(out, page)?;
        Ok(false)
    } else {
        push_ok(out, page)?;
        Ok(!ask.only_head)
    }
}

/// Appends the head of the answer to what is refused.
fn push_refusal_head(out: &mut Vec<u8>, why: Refusal, words: &[u8]) -> Result<(), AllocError>
    requires { words.now ≡ status_words why }
    ensures { OnOk result (out.new.items ≡ out.old.items ++ refusal_head why) }
{
    out.extend_from_slice(b"HTTP/1.1 ")?;
    out.extend_from_slice(words)?;
    out.extend_from_slice(b"\r\n")?;
    out.extend_from_slice(allow_line(why))?;
    push_field(out, b"content-type", b"text/plain; charset=utf-8")?;
    push_length(out, words.len() + 1)?;
    push_closing(out)?;
    Ok(())
}

/// Appends the answer to what is refused, whose contents are the number and the words of the refusal, unless the head was asked for alone.
/// The caller ends the connection.
///
/// # Errors
/// As of `etag_of`.
pub fn push_refusal(out: &mut Vec<u8>, why: Refusal, only_head: bool) -> Result<(), AllocError>
    ensures { OnOk result (out.new.items ≡ out.old.items ++ refusal_answer why only_head) }
{
    let words = status_words(why).as_bytes();
    push_refusal_head(out, why, words)?;
    if only_head {
        return Ok(());
    }
    out.extend_from_slice(words)?;
    out.push(b'\n')?;
    Ok(())
}
