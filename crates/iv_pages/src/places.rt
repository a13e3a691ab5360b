//! `place_of`: the file, within a folder of pages, that a request's target names.
ghost use Rattle.std.specs.Prelude.{◌≡◌, ◌++◌, if◌then◌else◌, IfOk, OnOk, option_map};
ghost use Rattle.std.specs.List.{list_all};
ghost use Rattle.percent_encoding.specs.Percent.{percent_decode};
ghost use Rattle.iv_pages.specs.Cut.{parts};
ghost use Rattle.iv_pages.specs.Place.{is_plain, is_segment, place_in, place_of, segment_named};
ghost use Rattle.iv_pages.specs.Pushed.{IsNamed};

use crate::cutting::{before, cut_at};
use percent_encoding::percent_decode;
use std::alloc::{AllocError, Global};

/// Whether a name of a file may have a byte: it is printable ASCII, and no slash and no backslash.
fn is_plain(byte: u8) -> bool
    ensures { result ≡ is_plain byte }
{
    b' ' <= byte && byte <= b'~' && byte != b'/' && byte != b'\\'
}

fn all_plain(bytes: &[u8]) -> bool
    ensures { result ≡ list_all is_plain bytes.now }
{
    for at in 0..bytes.len() {
        if !is_plain(bytes[at]) {
            return false;
        }
    }
    true
}

/// Whether it is the name of a file or a folder that may be shown: it is not empty, begins with no dot, and has plain bytes alone.
fn is_segment(name: &[u8]) -> bool
    ensures { result ≡ is_segment name.now }
{
    match name {
        [] => false,
        [first, ..] => *first != b'.' && all_plain(name),
    }
}

/// Appends the name that a segment has once it is decoded. Whether it may be shown; if not, what was appended is not to be used.
fn push_segment(place: &mut Vec<u8>, alloc: Global, segment: &[u8]) -> Result<bool, AllocError>
    ensures { IfOk result (λ shown. IsNamed shown (percent_decode segment.now) place.old.items place.new.items) }
{
    let mut name = Vec::new(alloc);
    percent_decode(segment).append_to(&mut name)?;
    if !is_segment(&name) {
        return Ok(false);
    }
    place.extend_from_slice(&name)?;
    Ok(true)
}

/// Appends the name of a path's last segment: `index.html`, if it is empty.
fn push_last(place: &mut Vec<u8>, alloc: Global, segment: &[u8]) -> Result<bool, AllocError>
    ensures { IfOk result (λ shown. IsNamed shown (segment_named segment.now) place.old.items place.new.items) }
{
    if segment.is_empty() {
        place.extend_from_slice(b"index.html")?;
        return Ok(true);
    }
    push_segment(place, alloc, segment)
}

/// The file that the segments of a path name.
fn place_in(alloc: Global, path: &[u8]) -> Result<Option<Vec<u8>>, AllocError>
    ensures { IfOk result (λ o. option_map (λ p. p.items) o ≡ place_in (parts 47 path.now)) }
{
    let mut place = Vec::new(alloc);
    let mut rest = path;
    while let Some((segment, later)) = cut_at(rest, b'/') {
        if !push_segment(&mut place, alloc, segment)? {
            return Ok(None);
        }
        place.push(b'/')?;
        rest = later;
    }
    if push_last(&mut place, alloc, rest)? {
        Ok(Some(place))
    } else {
        Ok(None)
    }
}

/// The file that a target names, as a path within the folder of pages: its segments, each decoded once, with slashes between them, and
/// `index.html` for a folder; what follows a `?` is not looked at. None if the target begins with no slash, or a segment is
/// empty, begins with a dot, or has a slash, a backslash, a control or a byte beyond ASCII once it is decoded.
///
/// The path is text of ASCII. The caller opens it below the folder, and refuses what is no regular file there: it has to resolve links
/// (`canonicalize`) and see that what it opens is still below the folder, for no name tells of a link.
///
/// # Errors
/// `AllocError` if a growth of memory was refused.
pub fn place_of(alloc: Global, target: &[u8]) -> Result<Option<Vec<u8>>, AllocError>
    ensures { IfOk result (λ o. option_map (λ p. p.items) o ≡ place_of target.now) }
{
    match before(target, b'?') {
        [b'/', path @ ..] => place_in(alloc, path),
        _ => Ok(None),
    }
}
