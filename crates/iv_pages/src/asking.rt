//! `asked`: what the bytes that were read from a connection ask, before any is answered.
ghost use Rattle.std.specs.Prelude.{◌≡◌, ◌==◌, ◌≤◌, All, ℕ, List, IsSome, length, is_some, take, option_map};
ghost use Rattle.std.specs.List.{list_any};
ghost use Rattle.httparse.specs.Grammar.{RequestHead, ReadsRequest};
ghost use Rattle.httparse.specs.Spans.{IsHeaderWithin, IsRequestWithin, span_bytes};
ghost use Rattle.iv_pages.specs.Asking.{Asks, asked_of, begins_other, counted, field_in, has_contents, hosts, most_fields, page_by, same_name, says_other, want_in, window};
ghost use Rattle.iv_pages.specs.Seen.{fields_of, want_of};

use crate::answers::Refusal;
use httparse::spans::{EMPTY_HEADER_SPAN, HeaderSpan, RequestSpans, parse_request};
use httparse::{Error, Status};

/// Bytes of a request's head, at most.
const MOST_HEAD: usize = 8192;

/// A request for a page.
#[derive(Clone, Copy)]
pub struct Ask<'a> {
    /// Whether the answer's head is asked for alone (`HEAD`).
    pub only_head: bool,
    /// The target, as it was sent.
    pub target: &'a [u8],
    /// What `If-None-Match` says.
    pub known: Option<&'a [u8]>,
}

/// What the bytes that were read ask.
#[derive(Clone, Copy)]
pub enum Wish<'a> {
    /// Nothing yet: the head is not whole, and more bytes may be read.
    More,
    /// A page.
    Page(Ask<'a>),
    /// Another protocol on this connection, as a WebSocket does: these bytes are for its own reader.
    Upgrade,
    /// What is refused.
    Refused(Refusal),
}

/// Whether two names of fields are one, in any case.
fn same_name(a: &[u8], b: &[u8]) -> bool
    ensures { result ≡ same_name a.now b.now }
{
    a.eq_ignore_ascii_case(b)
}

/// The value of the first field with a name.
fn field_in<'a>(bytes: &'a [u8], spans: &[HeaderSpan], name: &[u8]) -> Option<&'a [u8]>
    requires { All (IsHeaderWithin (length bytes.now)) spans.now }
    ensures { option_map (λ v. v.now) result ≡ field_in name.now (fields_of bytes.now spans.now) }
{
    for field in spans {
        if same_name(field.name.of(bytes), name) {
            return Some(field.value.of(bytes));
        }
    }
    None
}

/// One more, if it is, up to two.
fn counted(count: u8, is: bool) -> u8
    ensures { result ≡ counted count is }
{
    if !is {
        count
    } else if count == 0 {
        1
    } else {
        2
    }
}

/// How many fields are named `Host`, counted up to two.
fn hosts(bytes: &[u8], spans: &[HeaderSpan]) -> u8
    requires { All (IsHeaderWithin (length bytes.now)) spans.now }
    ensures { result ≡ hosts 0 (fields_of bytes.now spans.now) }
{
    let mut count = 0;
    for field in spans {
        count = counted(count, same_name(field.name.of(bytes), b"host"));
    }
    count
}

/// Whether contents are after the head.
fn has_contents(bytes: &[u8], spans: &[HeaderSpan]) -> bool
    requires { All (IsHeaderWithin (length bytes.now)) spans.now }
    ensures { result ≡ has_contents (fields_of bytes.now spans.now) }
{
    field_in(bytes, spans, b"content-length").is_some()
        || field_in(bytes, spans, b"transfer-encoding").is_some()
}

/// What a head asks that asks for no other protocol.
fn page_in<'a>(method: &[u8], target: &'a [u8], known: Option<&'a [u8]>) -> Wish<'a>
    ensures { want_of result ≡ page_by method.now target.now (option_map (λ k. k.now) known.entry) }
{
    let only_head = method == b"HEAD".as_slice();
    if only_head || method == b"GET".as_slice() {
        Wish::Page(Ask {
            only_head,
            target,
            known,
        })
    } else {
        Wish::Refused(Refusal::MethodNotAllowed)
    }
}

/// What a head asks.
fn want_in<'a>(bytes: &'a [u8], head: &RequestSpans, spans: &[HeaderSpan]) -> Wish<'a>
    requires { IsRequestWithin bytes.now spans.now head.now }
    ensures { want_of result ≡ want_in head.now.version (span_bytes bytes.now head.now.method) (span_bytes bytes.now head.now.path)
        (fields_of bytes.now (take head.now.headers spans.now)) }
{
    let fields = &spans[..head.headers];
    if head.version != 0 && hosts(bytes, fields) != 1 {
        return Wish::Refused(Refusal::BadRequest);
    }
    if head.version != 0 && field_in(bytes, fields, b"upgrade").is_some() {
        if has_contents(bytes, fields) {
            return Wish::Refused(Refusal::BadRequest);
        }
        return Wish::Upgrade;
    }
    let known = field_in(bytes, fields, b"if-none-match");
    page_in(head.method.of(bytes), head.path.of(bytes), known)
}

/// Whether they begin with a space and another major version of HTTP than 1.
fn begins_other(bytes: &[u8]) -> bool
    ensures { result ≡ begins_other bytes.now }
{
    match bytes {
        [b' ', b'H', b'T', b'T', b'P', b'/', major, ..] => major.is_ascii_digit() && *major != b'1',
        _ => false,
    }
}

/// Whether their first line says another major version of HTTP.
fn says_other(bytes: &[u8]) -> bool
    ensures { result ≡ says_other bytes.now }
{
    for at in 0..bytes.len() {
        if bytes[at] == b'\n' {
            return false;
        }
        if begins_other(&bytes[at..]) {
            return true;
        }
    }
    false
}

/// Whether a line ends among them.
fn has_line(bytes: &[u8]) -> bool
    ensures { result ≡ list_any (λ b. b == 10) bytes.now }
{
    bytes.iter().any(|byte| *byte == b'\n')
}

/// The bytes that are looked at.
fn window(bytes: &[u8]) -> &[u8]
    ensures { result.now ≡ window bytes.now }
{
    &bytes[..MOST_HEAD.min(bytes.len())]
}

/// What the bytes ask that were read from a connection so far: a head of at most 8,192 bytes and 64 fields decides, however it was cut,
/// and what follows it is not looked at. `GET` and `HEAD` ask for a page, and a field `Upgrade` of HTTP/1.1 asks for another protocol.
///
/// Refused are: another method (`MethodNotAllowed`); a head that is longer (`FieldsTooLarge`, and `TargetTooLong` if its first line
/// is), or has more fields (`FieldsTooLarge`); a head of HTTP/1.1 that has not one field `Host`, or asks for another protocol and has
/// contents (`BadRequest`); and what can become no head of HTTP/1.0 or HTTP/1.1 (`BadRequest`, and `VersionNotSupported`
/// if the first line says another major version).
pub fn asked(bytes: &[u8]) -> Wish<'_>
    ensures asks { Asks bytes.now (want_of result) }
    ensures head { (h : RequestHead) (rest : List ℕ) → ReadsRequest (window bytes.now) h rest → length h.fields ≤ most_fields
        → want_of result ≡ asked_of h }
{
    let front = window(bytes);
    let mut spans = [EMPTY_HEADER_SPAN; 64];
    match parse_request(front, &mut spans) {
        Ok(Status::Complete(head)) => want_in(front, &head, &spans),
        Ok(Status::Partial) => {
            if bytes.len() <= MOST_HEAD {
                Wish::More
            } else if has_line(front) {
                Wish::Refused(Refusal::FieldsTooLarge)
            } else {
                Wish::Refused(Refusal::TargetTooLong)
            }
        }
        Err(error) => match error {
            Error::TooManyHeaders => Wish::Refused(Refusal::FieldsTooLarge),
            _ => {
                if says_other(front) {
                    Wish::Refused(Refusal::VersionNotSupported)
                } else {
                    Wish::Refused(Refusal::BadRequest)
                }
            }
        },
    }
}
