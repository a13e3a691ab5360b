//! `field_of`: the value of a field in the head of a request, by the grammar by which the request is answered.
ghost use Rattle.std.specs.Prelude.{◌≡◌, ◌≤◌, All, ℕ, List, IfSome, length, map, option_map, take};
ghost use Rattle.httparse.specs.Grammar.{ReadsRequest, RequestHead};
ghost use Rattle.httparse.specs.Spans.{IsHeaderWithin, name_and_value};
ghost use Rattle.iv_pages.specs.Asking.{field_in, most_fields, same_name, window};
ghost use Rattle.iv_pages.specs.Seen.{fields_of};
ghost use Rattle.iv_host.specs.Admins.{HasHead};

use httparse::Status;
use httparse::spans::{EMPTY_HEADER_SPAN, HeaderSpan, parse_request};

/// Bytes of a request's head, at most.
const MOST_HEAD: usize = 8192;

/// Whether two names of fields are one, in any case.
pub fn same_name(a: &[u8], b: &[u8]) -> bool
    ensures { result ≡ same_name a.now b.now }
{
    a.eq_ignore_ascii_case(b)
}

/// The value of the first field with a name.
fn field_in<'a>(bytes: &'a [u8], spans: &[HeaderSpan], name: &[u8]) -> Option<&'a [u8]>
    requires { All (IsHeaderWithin (length bytes.now)) spans.now }
    ensures { option_map (λ v. v.now) result ≡ field_in name.now (fields_of bytes.now spans.now) }
{
    for field in spans {
        if same_name(field.name.of(bytes), name) {
            return Some(field.value.of(bytes));
        }
    }
    None
}

/// The bytes that are looked at.
fn window(bytes: &[u8]) -> &[u8]
    ensures { result.now ≡ window bytes.now }
{
    &bytes[..MOST_HEAD.min(bytes.len())]
}

/// The value of the first field with a name, in any case, if the bytes that were read from a connection so far have a whole head of a
/// request, of at most 8,192 bytes and 64 fields. What follows the head is not looked at.
pub fn field_of<'a>(bytes: &'a [u8], name: &[u8]) -> Option<&'a [u8]>
    ensures field { (h : RequestHead) (rest : List ℕ) → ReadsRequest (window bytes.now) h rest → length h.fields ≤ most_fields
        → option_map (λ v. v.now) result ≡ field_in name.now (map name_and_value h.fields) }
    ensures head { IfSome result (λ _. HasHead bytes.now) }
{
    let front = window(bytes);
    let mut spans = [EMPTY_HEADER_SPAN; 64];
    match parse_request(front, &mut spans) {
        Ok(Status::Complete(head)) => field_in(front, &spans[..head.headers], name),
        Ok(Status::Partial) => None,
        Err(_) => None,
    }
}
