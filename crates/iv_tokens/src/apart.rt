//! `read_entries`: the tokens of a file, no digest twice, by a set of those after, so that as many tokens as there are cost no more than a look each.
ghost use Rattle.std.specs.Prelude.{◌≡◌, ◌⊎◌, ◌||◌, if◌then◌else◌, ℕ, Err, IfOk, List, None, OnOk, Some, bytes_eq, not, option_and_then};
ghost use Rattle.iv_clients.specs.Tokens.{are_apart, lines_of};
ghost use Rattle.iv_tokens.specs.Apart.{has_key};
ghost use Rattle.iv_tokens.specs.Entries.{entries_in, entries_of, tokens_among};
ghost use Rattle.iv_tokens.specs.Lines.{entries_read};

use crate::entries::{Entry, entries_of};
use iv_clients::TokensFault;
use std::alloc::{AllocError, Global};
use std::collections::BTreeSet;

/// A set has a digest from now on. Whether it had it not before.
fn note(alloc: Global, seen: &mut BTreeSet<Vec<u8>>, digest: &[u8]) -> Result<bool, AllocError>
    ensures new { IfOk result (λ is. is ≡ not (has_key seen.old digest.now)) }
    ensures has { OnOk result ((other : List ℕ) → has_key seen.new other ≡ (bytes_eq digest.now other || has_key seen.old other)) }
{
    let mut key = Vec::new(alloc);
    key.extend_from_slice(digest)?;
    Ok(seen.insert(key)?)
}

/// Whether no digest comes twice.
///
/// # Errors
/// `AllocError` if a growth of memory was refused.
fn are_apart(alloc: Global, entries: &[Entry]) -> Result<bool, AllocError>
    ensures { IfOk result (λ is. is ≡ are_apart (tokens_among entries.now)) }
{
    let mut seen = BTreeSet::new(alloc);
    for back in 0..entries.len() {
        let entry = &entries[entries.len() - 1 - back];
        if !note(alloc, &mut seen, &entry.token.digest)? {
            return Ok(false);
        }
    }
    Ok(true)
}

/// The entries of a file, which may have none.
///
/// # Errors
/// `Memory` if a growth of memory was refused; `Line` with the first line that is no token, no remark and not the table's name;
/// `Twice` if a digest comes twice.
pub fn read_entries(alloc: Global, file: &[u8]) -> Result<Vec<Entry>, TokensFault>
    ensures entries { IfOk result (λ es. entries_in file.now ≡ Some es.items) }
    ensures none { (why : TokensFault) → result ≡ Err why → (why ≡ TokensFault.Memory) ⊎ (entries_in file.now ≡ None) }
{
    match entries_of(alloc, file) {
        Err(AllocError) => Err(TokensFault::Memory),
        Ok(Err(number)) => Err(TokensFault::Line(number)),
        Ok(Ok(entries)) => match are_apart(alloc, &entries) {
            Err(AllocError) => Err(TokensFault::Memory),
            Ok(true) => Ok(entries),
            Ok(false) => Err(TokensFault::Twice),
        },
    }
}
