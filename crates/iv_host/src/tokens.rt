//! `TokenFile`: the file of tokens, which is read again if it changes; `second_now`: the second at which they have to be valid.
ghost use Rattle.std.specs.Prelude.{◌≡◌, IfOk, Some};
ghost use Rattle.iv_tokens.specs.Entries.{entries_in};

use crate::files::{changed_in, read_file};
use iv_clients::TokensFault;
use iv_tokens::{Entry, read_entries};
use std::alloc::Global;
use std::time::{SystemTime, UNIX_EPOCH};
use std::{fs, io};

/// Why a file of tokens is not taken.
#[derive(Debug, Drop)]
pub enum TokenFault {
    /// It could not be read.
    System(io::Error),
    /// It is no file of tokens.
    File(TokensFault),
}

impl From<io::Error> for TokenFault {
    fn from(error: io::Error) -> TokenFault {
        TokenFault::System(error)
    }
}

impl From<TokensFault> for TokenFault {
    fn from(fault: TokensFault) -> TokenFault {
        TokenFault::File(fault)
    }
}

/// When a file changed last, and its length, if there is one.
type Stamp = Option<(u64, u64)>;

/// The file of tokens, and what it was when it was read.
#[derive(Drop)]
pub struct TokenFile {
    /// The path of the file.
    path: String,
    /// When it had changed last, and its length.
    stamp: Stamp,
}

/// What the system says of a file.
fn stamp_of(rt: &HostRuntime, path: &str) -> Stamp {
    match fs::metadata(rt, path) {
        Err(_) => None,
        Ok(is) => Some((changed_in(&is), is.len())),
    }
}

/// The entries in the bytes of a file.
fn entries_in(alloc: Global, bytes: &[u8]) -> Result<Vec<Entry>, TokenFault>
    ensures { IfOk result (λ es. entries_in bytes.now ≡ Some es.items) }
{
    Ok(read_entries(alloc, bytes)?)
}

impl TokenFile {
    /// A file of tokens, with its entries.
    ///
    /// # Errors
    /// `System` if it could not be read, `File` if it is no file of tokens, or has none.
    pub fn open(rt: &HostRuntime, path: String) -> Result<(TokenFile, Vec<Entry>), TokenFault> {
        let stamp = stamp_of(rt, path.as_str());
        let bytes = read_file(rt, path.as_str())?;
        let entries = entries_in(rt.alloc(), &bytes)?;
        if entries.is_empty() {
            return Err(TokenFault::File(TokensFault::Empty));
        }
        Ok((TokenFile { path, stamp }, entries))
    }

    /// The entries, if the file is another than when it was last looked at. A file with no token has none, and lets nobody in.
    ///
    /// # Errors
    /// `System` if it could not be read, `File` if it is no file of tokens; it is not looked at again until it changes.
    pub fn changed(&mut self, rt: &HostRuntime) -> Result<Option<Vec<Entry>>, TokenFault> {
        let stamp = stamp_of(rt, self.path.as_str());
        if stamp == self.stamp {
            return Ok(None);
        }
        self.stamp = stamp;
        let bytes = read_file(rt, self.path.as_str())?;
        Ok(Some(entries_in(rt.alloc(), &bytes)?))
    }
}

/// Why a file has no secret.
#[derive(Debug, Drop)]
pub enum SecretFault {
    /// It could not be read.
    System(io::Error),
    /// It has fewer than 32 bytes.
    Short,
}

/// The secret that grants web tokens: the bytes of a file, without a newline at their end.
///
/// # Errors
/// `System` if it could not be read, `Short` if it has fewer than 32 bytes.
pub fn read_secret(rt: &HostRuntime, path: &str) -> Result<Vec<u8>, SecretFault> {
    let mut secret = match read_file(rt, path) {
        Ok(bytes) => bytes,
        Err(error) => return Err(SecretFault::System(error)),
    };
    if secret.as_slice().last() == Some(&b'\n') {
        drop(secret.pop());
    }
    if secret.len() < 32 {
        return Err(SecretFault::Short);
    }
    Ok(secret)
}

/// Seconds since 1970. Without a clock it is after the end of whatever has one.
pub fn second_now(rt: &HostRuntime) -> u64 {
    match SystemTime::now(rt) {
        Ok(now) => match now.duration_since(UNIX_EPOCH) {
            Ok(time) => time.as_secs(),
            Err(_) => u64::MAX,
        },
        Err(_) => u64::MAX,
    }
}
