//! `Disk`: where a journal's bytes lie, as a file does; `put` writes, syncs, and takes back what could not be written whole.
ghost use Rattle.std.specs.Prelude.{◌≡◌, ℕ, List, IfOk, IfSome, None, OnErr, OnOk, Option, length, take};
ghost use Rattle.std.specs.Io.{WritesAtMost};
ghost use Rattle.std.specs.Io.KnownBytes.{Appends, Keeps, WriteAppends};
ghost use Rattle.iv_disk.specs.Disk.{first_known};

use std::fs::File;
use std::io;
use std::io::{ErrorKind, Write};

/// Where a journal's bytes lie, as a file does.
pub trait Disk {
    /// The bytes that it has, if it tells them. One that does not tell them never does.
    ghost held: { Self → Option (List ℕ) };

    /// Those of them that are to survive a crash, for all that it was told.
    ghost synced: { Self → Option (List ℕ) };

    /// How many bytes it has.
    ///
    /// # Errors
    /// If the system refuses, as of each function here.
    fn length(&self) -> io::Result<u64>
        ensures { IfOk result (λ n. IfSome (held self.now) (λ xs. n ≡ length xs)) };

    /// Writes a front of the bytes after those that are there. Answers how many it took.
    fn write(&mut self, bytes: &[u8]) -> io::Result<usize>
        ensures bound { WritesAtMost result bytes.now }
        ensures bytes { WriteAppends (held self.old) (held self.new) result bytes.now }
        ensures silent { held self.old ≡ None → held self.new ≡ None };

    /// Cuts what follows as many bytes, if there is more.
    fn cut(&mut self, length: u64) -> io::Result<()>
        ensures cuts { OnOk result (Keeps (first_known length (held self.old)) (held self.new)) }
        ensures fails { OnErr result (Keeps (held self.old) (held self.new)) }
        ensures silent { held self.old ≡ None → held self.new ≡ None };

    /// All that it has is to survive a crash.
    fn sync(&mut self) -> io::Result<()>
        ensures bytes { Keeps (held self.old) (held self.new) }
        ensures synced { OnOk result (synced self.new ≡ held self.new) }
        ensures silent { held self.old ≡ None → held self.new ≡ None };
}

/// A file that is written at its end. No contract can tell what it has.
impl Disk for File {
    ghost held = { λ _. None };

    ghost synced = { λ _. None };

    fn length(&self) -> io::Result<u64> {
        Ok(self.metadata()?.len())
    }

    fn write(&mut self, bytes: &[u8]) -> io::Result<usize> {
        Write::write(self, bytes)
    }

    fn cut(&mut self, length: u64) -> io::Result<()> {
        if length < self.metadata()?.len() {
            self.set_len(length)
        } else {
            Ok(())
        }
    }

    fn sync(&mut self) -> io::Result<()> {
        self.sync_data()
    }
}

/// Writes a front of the bytes after those that are there: none, if that is interrupted. Answers how many.
fn write_front<D: Disk>(disk: &mut D, bytes: &[u8]) -> io::Result<usize>
    ensures bound { WritesAtMost result bytes.now }
    ensures bytes { WriteAppends (D.held disk.old) (D.held disk.new) result bytes.now }
    ensures silent { D.held disk.old ≡ None → D.held disk.new ≡ None }
{
    match disk.write(bytes) {
        Ok(0) => Err(io::Error::from(ErrorKind::WriteZero)),
        Ok(count) => Ok(count),
        Err(error) => {
            if error.kind() == ErrorKind::Interrupted {
                Ok(0)
            } else {
                Err(error)
            }
        }
    }
}

/// Writes all bytes after those that are there.
fn write_whole<D: Disk>(disk: &mut D, bytes: &[u8]) -> io::Result<()>
    ensures appended { OnOk result (Appends (D.held disk.old) (D.held disk.new) bytes.now) }
    ensures torn { OnErr result ((n : ℕ) × Appends (D.held disk.old) (D.held disk.new) (take n bytes.now)) }
    ensures silent { D.held disk.old ≡ None → D.held disk.new ≡ None }
{
    let mut rest = bytes;
    for _ in 0..u64::MAX {
        if rest.is_empty() {
            return Ok(());
        }
        let count = write_front(disk, rest)?;
        rest = &rest[count..];
    }
    Err(io::Error::from(ErrorKind::TimedOut))
}

/// Writes all bytes after those that are there, and syncs.
fn write_synced<D: Disk>(disk: &mut D, bytes: &[u8]) -> io::Result<()>
    ensures appended { OnOk result (Appends (D.held disk.old) (D.held disk.new) bytes.now) }
    ensures synced { OnOk result (D.synced disk.new ≡ D.held disk.new) }
    ensures torn { OnErr result ((n : ℕ) × Appends (D.held disk.old) (D.held disk.new) (take n bytes.now)) }
    ensures silent { D.held disk.old ≡ None → D.held disk.new ≡ None }
{
    write_whole(disk, bytes)?;
    disk.sync()?;
    Ok(())
}

/// Writes all bytes after those that are there, and syncs. Nothing is to stay of what could not be written whole: if that fails too, a
/// front of the bytes is left.
///
/// # Errors
/// If the system refuses.
pub fn put<D: Disk>(disk: &mut D, bytes: &[u8]) -> io::Result<()>
    ensures appended { OnOk result (Appends (D.held disk.old) (D.held disk.new) bytes.now) }
    ensures synced { OnOk result (D.synced disk.new ≡ D.held disk.new) }
    ensures torn { OnErr result ((n : ℕ) × Appends (D.held disk.old) (D.held disk.new) (take n bytes.now)) }
    ensures silent { D.held disk.old ≡ None → D.held disk.new ≡ None }
{
    let end = disk.length()?;
    match write_synced(disk, bytes) {
        Ok(()) => Ok(()),
        Err(error) => {
            let _ = disk.cut(end);
            Err(error)
        }
    }
}

/// Cuts what follows as many bytes, and syncs what is left.
///
/// # Errors
/// If the system refuses.
pub fn cut_synced<D: Disk>(disk: &mut D, length: u64) -> io::Result<()>
    ensures cuts { OnOk result (Keeps (first_known length (D.held disk.old)) (D.held disk.new)) }
    ensures synced { OnOk result (D.synced disk.new ≡ D.held disk.new) }
    ensures silent { D.held disk.old ≡ None → D.held disk.new ≡ None }
{
    disk.cut(length)?;
    disk.sync()?;
    Ok(())
}
