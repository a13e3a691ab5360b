//! `shown_in`: what a guest's first line shows, and `secret_of`: the line that it has to show.
ghost use Rattle.std.specs.Prelude.{◌≡◌, IfOk};
ghost use Rattle.iv_following.specs.Guests.{IsShown, secret_line};

use crate::ways::no_way;
use iv_admission::no_secret;
use iv_host::read_secret;
use iv_jwt::is_same;
use iv_records::cut_at;
use iv_running::{UNUSABLE, out_of_memory};
use std::alloc::{AllocError, Global};

/// Bytes of a first line that may be the secret, at most.
const MOST_SHOWN: usize = 4_096;

/// Bytes of a secret, at most.
const MOST_SECRET: usize = 1_024;

/// What the bytes of a first line show.
#[derive(Drop)]
pub(crate) enum Shown {
    /// The line has no end yet.
    Part,
    /// It is another line.
    Other,
    /// It is the line with the secret, which these bytes follow.
    Secret(Vec<u8>),
}

/// What the bytes of a first line show, if this is the line with the secret.
///
/// # Errors
/// `AllocError` if a growth of memory was refused.
pub(crate) fn shown_in(alloc: Global, line: &[u8], bytes: &[u8]) -> Result<Shown, AllocError>
    ensures { IfOk result (λ s. IsShown line.now bytes.now s) }
{
    match cut_at(bytes, b'\n') {
        None => {
            if bytes.len() > MOST_SHOWN {
                Ok(Shown::Other)
            } else {
                Ok(Shown::Part)
            }
        }
        Some((shown, rest)) => {
            if !is_same(shown, line) {
                return Ok(Shown::Other);
            }
            Ok(Shown::Secret(Vec::from_slice(alloc, rest)?))
        }
    }
}

/// The first line of who is a keeper.
fn line_with(alloc: Global, secret: &[u8]) -> Result<Vec<u8>, AllocError>
    ensures { IfOk result (λ line. line.items ≡ secret_line secret.now) }
{
    let mut line = Vec::new(alloc);
    line.extend_from_slice(b"{\"secret\":\"")?;
    line.extend_from_slice(secret)?;
    line.extend_from_slice(b"\"}")?;
    Ok(line)
}

/// Whether a line may show a secret.
fn may_be_shown(secret: &[u8]) -> bool {
    secret.len() <= MOST_SECRET
        && secret
            .iter()
            .all(|byte| *byte != b'\n' && *byte != b'"' && *byte != b'\\')
}

/// The first line of who is a keeper, by the secret in a file.
pub(crate) fn secret_of(rt: &HostRuntime, path: &str) -> Result<Vec<u8>, u8> {
    let secret = match read_secret(rt, path) {
        Err(fault) => return Err(no_secret(rt, path, &fault)),
        Ok(secret) => secret,
    };
    if !may_be_shown(&secret) {
        no_way(
            rt,
            "a secret has no quotation mark, backslash or end of a line, and at most 1,024 bytes",
        );
        return Err(UNUSABLE);
    }
    match line_with(rt.alloc(), &secret) {
        Ok(line) => Ok(line),
        Err(_) => Err(out_of_memory(rt)),
    }
}
