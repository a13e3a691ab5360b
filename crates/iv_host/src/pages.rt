//! `page_in`: a file of the folder of pages, as the answer to a request.
ghost use Rattle.std.specs.Prelude.{◌≡◌, ◌++◌, [], IfOk, OnOk, Some, if◌then◌else◌, length, option_map};
ghost use Rattle.iv_pages.specs.Answer.{has_body, page_head, refusal_answer};
ghost use Rattle.iv_pages.specs.Seen.{asked_by};
ghost use Rattle.iv_host.specs.Pages.{IsFile, IsPage, answer_of, policy, served};

use crate::files::changed_in;
use iv_pages::{Ask, Page, Refusal, etag_of, kind_of, place_of, push_page, push_refusal};
use std::alloc::AllocError;
use std::fs;
use std::path::PathBuf;

/// What pages may load and do.
#[tactic(auto, unfolding(crate::specs::Pages::policy))]
fn policy() -> &'static str
    ensures { result.now ≡ policy }
{
    "default-src 'none'; script-src 'self'; style-src 'self'; connect-src 'self'; img-src 'self' data:; font-src 'self'; manifest-src 'self'; base-uri 'none'; form-action 'none'; frame-ancestors 'none'"
}

/// Bytes of a page, at most.
const MOST: u64 = 16_777_216;

/// A file of the folder that was looked at, and not read yet.
#[derive(Drop)]
struct Found {
    path: PathBuf,
    size: usize,
    /// The nanosecond since 1970 in which it changed last.
    changed: u64,
}

/// A file of the folder: none if a link leads out of it, or it is no regular file, or a large one.
fn look_in(rt: &HostRuntime, folder: &str, place: &str) -> Option<Found> {
    let Ok(path) = format!(in rt.alloc(); "{folder}/{place}") else {
        return None;
    };
    let (Ok(folder), Ok(path)) = (
        fs::canonicalize(rt, folder),
        fs::canonicalize(rt, path.as_str()),
    ) else {
        return None;
    };
    if !path.as_path().starts_with(folder.as_path()) {
        return None;
    }
    match fs::metadata(rt, path.as_path()) {
        Ok(is) if is.is_file() && is.len() <= MOST => Some(Found {
            path,
            size: is.len() as usize,
            changed: changed_in(&is),
        }),
        _ => None,
    }
}

/// Appends bytes, if they are to follow.
fn push_where(out: &mut Vec<u8>, follows: bool, bytes: &[u8]) -> Result<(), AllocError>
    ensures { OnOk result (out.new.items ≡ out.old.items ++ (if follows then bytes.now else [])) }
{
    if !follows {
        return Ok(());
    }
    out.extend_from_slice(bytes)?;
    Ok(())
}

/// The answer with these contents.
///
/// # Errors
/// `AllocError` if a growth of memory was refused, as of each function here.
pub fn answer<'a>(
    rt: &HostRuntime,
    ask: &Ask<'_>,
    kind: &'a str,
    tag: Option<&'a [u8]>,
    contents: &[u8],
) -> Result<Vec<u8>, AllocError>
    ensures { IfOk result (λ out. out.items
        ≡ answer_of (served kind.now (option_map (λ t. t.now) tag.entry) (length contents.now)) (asked_by ask.now) contents.now) }
{
    let mut out = Vec::new(rt.alloc());
    let page = Page {
        kind,
        tag,
        length: contents.len(),
        policy: policy(),
    };
    let follows = push_page(&mut out, &page, ask)?;
    push_where(&mut out, follows, contents)?;
    Ok(out)
}

/// The answer to what is refused.
pub fn refusal(rt: &HostRuntime, why: Refusal, only_head: bool) -> Result<Vec<u8>, AllocError>
    ensures { IfOk result (λ out. out.items ≡ refusal_answer why only_head) }
{
    let mut out = Vec::new(rt.alloc());
    push_refusal(&mut out, why, only_head)?;
    Ok(out)
}

/// The file of a place, if the folder has it.
fn look_at(rt: &HostRuntime, folder: Option<&str>, place: &[u8]) -> Option<Found> {
    let folder = folder?;
    match str::from_utf8(place) {
        Ok(place) => look_in(rt, folder, place),
        Err(_) => None,
    }
}

/// The head of the answer with a file, and whether its contents follow.
fn head_of<'a>(
    rt: &HostRuntime,
    ask: &Ask<'_>,
    kind: &'a str,
    tag: &'a [u8],
    length: usize,
) -> Result<(Vec<u8>, bool), AllocError>
    ensures head { IfOk result (λ r. r.0.items ≡ page_head (served kind.now (Some tag.now) length) (asked_by ask.now)) }
    ensures follows { IfOk result (λ r. r.1 ≡ has_body (served kind.now (Some tag.now) length) (asked_by ask.now)) }
{
    let mut out = Vec::new(rt.alloc());
    let page = Page {
        kind,
        tag: Some(tag),
        length,
        policy: policy(),
    };
    let follows = push_page(&mut out, &page, ask)?;
    Ok((out, follows))
}

/// The answer with a file, which is read only if its contents are to follow. Its tag is of what it was before it was read: if it changes
/// meanwhile, who asks once more is sent it again.
fn file(rt: &HostRuntime, ask: &Ask<'_>, place: &[u8], found: &Found) -> Result<Vec<u8>, AllocError>
    ensures { IfOk result (λ out. IsFile (asked_by ask.now) place.now found.now.size found.now.changed out.items) }
{
    let tag = etag_of(rt.alloc(), found.size as u64, found.changed)?;
    let kind = kind_of(place);
    let (head, follows) = head_of(rt, ask, kind, &tag, found.size)?;
    if !follows {
        return Ok(head);
    }
    match fs::read(rt, found.path.as_path()) {
        Ok(contents) => {
            let page = answer(rt, ask, kind, Some(&tag), &contents)?;
            Ok(page)
        }
        Err(_) => {
            let missing = refusal(rt, Refusal::NotFound, ask.only_head)?;
            Ok(missing)
        }
    }
}

/// The answer to a request for a file of the folder.
pub fn page_in(rt: &HostRuntime, folder: Option<&str>, ask: &Ask<'_>) -> Result<Vec<u8>, AllocError>
    ensures { IfOk result (λ out. IsPage (asked_by ask.now) out.items) }
{
    let Some(place) = place_of(rt.alloc(), ask.target)? else {
        let missing = refusal(rt, Refusal::NotFound, ask.only_head)?;
        return Ok(missing);
    };
    match look_at(rt, folder, &place) {
        None => {
            let missing = refusal(rt, Refusal::NotFound, ask.only_head)?;
            Ok(missing)
        }
        Some(found) => {
            let page = file(rt, ask, &place, &found)?;
            Ok(page)
        }
    }
}
