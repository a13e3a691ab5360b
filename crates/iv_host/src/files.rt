//! `read_file`: the bytes of a regular file. A FIFO, a folder or a device in its place is refused, since it might be read for ever.
use std::fs::Metadata;
use std::io::ErrorKind;
use std::os::unix::fs::MetadataExt;
use std::{fs, io};

/// What a name leads to is no regular file.
fn no_file() -> io::Error {
    io::Error::other("it is no regular file")
}

/// Refuses what a name leads to, if that is there and is no regular file.
///
/// # Errors
/// What the system says, or that it is no regular file.
pub fn check_file(rt: &HostRuntime, path: &str) -> io::Result<()> {
    match fs::metadata(rt, path) {
        Ok(is) if !is.is_file() => Err(no_file()),
        Err(error) if error.kind() != ErrorKind::NotFound => Err(error),
        _ => Ok(()),
    }
}

/// The bytes of a regular file.
///
/// # Errors
/// As of `check_file`.
pub fn read_file(rt: &HostRuntime, path: &str) -> io::Result<Vec<u8>> {
    check_file(rt, path)?;
    fs::read(rt, path)
}

/// The nanosecond since 1970 in which a file changed last: its contents, its name or its rights. No copy sets that back.
pub fn changed_in(is: &Metadata) -> u64 {
    let seconds = u64::try_from(is.ctime()).unwrap_or(0);
    let nanos = u64::try_from(is.ctime_nsec()).unwrap_or(0);
    seconds.saturating_mul(1_000_000_000).saturating_add(nanos)
}
