//! `kind_of`: the media type of a file, by the ending of its name.
ghost use Rattle.std.specs.Prelude.{◌≡◌, bytes_eq};
ghost use Rattle.iv_pages.specs.Cut.{parts};
ghost use Rattle.iv_pages.specs.Kind.{drawn_type, ending_in, has_dot, kind_of, last_of, other_type, type_of};

use crate::cutting::cut_at;

/// The media type of figures in Prometheus' text form.
pub const FIGURES_KIND: &str = "text/plain; version=0.0.4; charset=utf-8";

/// What follows the last such byte: all, if there is none.
fn last_part(text: &[u8], byte: u8) -> &[u8]
    ensures { result.now ≡ last_of (parts byte text.now) }
{
    let mut rest = text;
    while let Some((_, later)) = cut_at(rest, byte) {
        rest = later;
    }
    rest
}

fn has_dot(name: &[u8]) -> bool
    ensures { result ≡ has_dot name.now }
{
    name.iter().any(|byte| *byte == b'.')
}

/// What follows the last dot of a name: nothing, if it has none.
fn ending_in(name: &[u8]) -> &[u8]
    ensures { result.now ≡ ending_in name.now }
{
    if has_dot(name) {
        last_part(name, b'.')
    } else {
        &[]
    }
}

/// Whether an ending is this word.
fn is(ending: &[u8], word: &[u8]) -> bool
    ensures { result ≡ bytes_eq ending.now word.now }
{
    ending == word
}

/// The media type of an ending.
fn type_of(ending: &[u8]) -> &'static str
    ensures { result.now ≡ type_of ending.now }
{
    if is(ending, b"html") {
        "text/html; charset=utf-8"
    } else if is(ending, b"js") || is(ending, b"mjs") {
        "text/javascript; charset=utf-8"
    } else if is(ending, b"css") {
        "text/css; charset=utf-8"
    } else if is(ending, b"txt") {
        "text/plain; charset=utf-8"
    } else {
        other_type(ending)
    }
}

/// The media type of an ending, if it is none of text alone.
fn other_type(ending: &[u8]) -> &'static str
    ensures { result.now ≡ other_type ending.now }
{
    if is(ending, b"json") || is(ending, b"map") {
        "application/json"
    } else if is(ending, b"webmanifest") {
        "application/manifest+json"
    } else if is(ending, b"wasm") {
        "application/wasm"
    } else {
        drawn_type(ending)
    }
}

/// The media type of an ending of images and fonts.
fn drawn_type(ending: &[u8]) -> &'static str
    ensures { result.now ≡ drawn_type ending.now }
{
    if is(ending, b"svg") {
        "image/svg+xml"
    } else if is(ending, b"png") {
        "image/png"
    } else if is(ending, b"jpg") || is(ending, b"jpeg") {
        "image/jpeg"
    } else if is(ending, b"ico") {
        "image/vnd.microsoft.icon"
    } else if is(ending, b"woff2") {
        "font/woff2"
    } else {
        "application/octet-stream"
    }
}

/// The media type of a file, by what follows the last dot of its name, in lower case: `application/octet-stream`, if it is
/// none of those that are known.
pub fn kind_of(place: &[u8]) -> &'static str
    ensures { result.now ≡ kind_of place.now }
{
    type_of(ending_in(last_part(place, b'/')))
}
