//! `DiskJournal`: the journal on a disk, and `FileJournal`, that in a file which one process at a time writes; `JournalFile`: that file before.
ghost use Rattle.std.specs.Prelude.{◌≡◌, ◌≤◌, ◌<◌, ◌++◌, ℕ, IfOk, IfSome, List, OnErr, OnOk, Option, count_by, length, option_map, take, true};
ghost use Rattle.iv_audit.specs.Reading.{IsAudit, lines_in};
ghost use Rattle.iv_disk.specs.Kept.{given_to};
ghost use Rattle.iv_host.specs.Counts.{raised};

use crate::counts::{BOUNDS, raise};
use crate::files::{check_file, read_file};
use crate::tokens::second_now;
use hex::encode_to_slice;
use iv_audit::{Audit, Share, WriteFault};
use iv_disk::{Disk, KeepFault, Keeper};
use iv_gateway::{Journal, JournalFault};
use iv_journal::Line;
use iv_records::OwnedLine;
use std::alloc::{AllocError, Global};
use std::fs::{File, OpenOptions, TryLockError};
use std::io::{ErrorKind, Write};
use std::os::unix::fs::OpenOptionsExt;
use std::path::Path;
use std::random::RandomSource;
use std::time::Instant;
use std::{fs, io, mem};

/// Why a journal cannot be used.
#[derive(Debug, Drop)]
pub enum OpenFault {
    /// Another process writes it.
    Taken,
    /// It has a line that cannot be written.
    NotLines,
    /// The system refused.
    System(io::Error),
}

impl From<io::Error> for OpenFault {
    fn from(error: io::Error) -> OpenFault {
        OpenFault::System(error)
    }
}

/// How often the journal was written and synced since the start, and how long that took.
#[derive(Clone, Copy)]
pub struct Syncs {
    /// How often.
    pub count: u64,
    /// How often it took at most so long, for each bound of `BOUNDS`.
    pub within: [u64; 7],
    /// The microseconds of all of that.
    pub time: u64,
}

/// Counts one that took as many microseconds, at each bound that is not less.
fn note_within(within: &mut [u64; 7], micros: u64) {
    for at in 0..7 {
        if micros <= BOUNDS[at].0 {
            raise(&mut within[at], 1);
        }
    }
}

impl Syncs {
    /// None so far.
    fn new() -> Syncs {
        Syncs {
            count: 0,
            within: [0; 7],
            time: 0,
        }
    }

    /// Counts one that took as many microseconds.
    fn note(&mut self, micros: u64)
        ensures count { self.new.count ≡ raised self.old.count 1 }
        ensures time { self.new.time ≡ raised self.old.time micros }
    {
        raise(&mut self.time, micros);
        raise(&mut self.count, 1);
        note_within(&mut self.within, micros);
    }
}

/// The journal on a disk, and the lock that no other process has meanwhile.
#[derive(Drop)]
pub struct DiskJournal<D: Disk> {
    /// The right to ask the system.
    rt: HostRuntime,
    /// The journal and its audit.
    keeper: Keeper<D>,
    /// The file that is locked as long as this lives.
    _lock: File,
    /// How many bytes the file has.
    end: u64,
    /// How many entries the journal has.
    entries: u64,
    /// How often it was synced, and how long that took.
    syncs: Syncs,
    /// Who made the entries that are written next.
    shares: Vec<Share>,
    /// Why it failed, if it did.
    why: Option<KeepFault>,
}

/// The journal in a file.
pub type FileJournal = DiskJournal<File>;

/// How many records end among lines.
fn records_in(lines: &[Line]) -> u64
    ensures { result ≡ count_by (λ l. l.is_last) lines.now }
{
    lines.iter().filter(|line| line.is_last).count() as u64
}

/// Lines, where their texts are.
///
/// # Errors
/// `AllocError` if a growth of memory was refused.
pub fn lines_of<'a>(alloc: Global, lines: &'a [OwnedLine]) -> Result<Vec<Line<'a>>, AllocError>
    ensures { IfOk result (λ out. out.items ≡ lines.now) }
{
    let mut out = Vec::new(alloc);
    for line in lines {
        out.push(Line {
            is_last: line.is_last,
            text: &line.text,
        })?;
    }
    Ok(out)
}

/// A file that belongs to this user alone.
fn own() -> OpenOptions {
    let mut options = OpenOptions::new();
    options.mode(0o600);
    options
}

/// Out of memory, as an error of the system.
fn out_of_memory() -> io::Error {
    io::Error::from(ErrorKind::OutOfMemory)
}

/// The lock of a journal. It is a file of its own, since a compaction puts another file in the journal's place.
fn lock(rt: &HostRuntime, path: &str) -> Result<File, OpenFault> {
    let Ok(name) = format!(in rt.alloc(); "{path}.lock") else {
        return Err(OpenFault::System(out_of_memory()));
    };
    check_file(rt, name.as_str())?;
    let file = own().write(true).create(true).open(rt, name.as_str())?;
    locked(file)
}

/// A file that no other process has locked, by whatever name it opened it.
fn locked(file: File) -> Result<File, OpenFault> {
    match file.try_lock() {
        Ok(()) => Ok(file),
        Err(TryLockError::WouldBlock) => Err(OpenFault::Taken),
        Err(TryLockError::Error(error)) => Err(OpenFault::System(error)),
    }
}

/// Has the folder of a file on disk.
fn sync_folder(rt: &HostRuntime, path: &str) -> io::Result<()> {
    let folder = match Path::new(path).parent() {
        Some(folder) if !folder.as_str().is_empty() => folder.as_str(),
        _ => ".",
    };
    File::open(rt, folder)?.sync_all()
}

/// Puts a file with these bytes if there is none, whole or not at all.
fn sow(rt: &HostRuntime, path: &str, bytes: &[u8]) -> io::Result<()> {
    let Ok(fresh) = format!(in rt.alloc(); "{path}.new") else {
        return Err(out_of_memory());
    };
    check_file(rt, fresh.as_str())?;
    let mut file = own()
        .write(true)
        .create(true)
        .truncate(true)
        .open(rt, fresh.as_str())?;
    file.write_all(bytes)?;
    file.sync_all()?;
    fs::rename(rt, fresh.as_str(), path)
}

/// Whether there is no such file.
fn is_missing(rt: &HostRuntime, path: &str) -> bool {
    match fs::metadata(rt, path) {
        Ok(_) => false,
        Err(error) => error.kind() == ErrorKind::NotFound,
    }
}

/// Puts the bytes of a seed if a journal is missing.
fn sow_seed(rt: &HostRuntime, path: &str, seed: Option<&str>) -> io::Result<()> {
    match seed {
        Some(seed) if is_missing(rt, path) => {
            let bytes = read_file(rt, seed)?;
            sow(rt, path, &bytes)
        }
        _ => Ok(()),
    }
}

/// The microseconds since a moment; none if the system does not tell them.
fn micros_since(rt: &HostRuntime, start: &io::Result<Instant>) -> u64 {
    let Ok(start) = start else {
        return 0;
    };
    match start.elapsed(rt) {
        Ok(time) => time
            .as_secs()
            .saturating_mul(1_000_000)
            .saturating_add(u64::from(time.subsec_micros())),
        Err(_) => 0,
    }
}

/// 32 digits that no other journal has.
///
/// # Errors
/// If the system refuses random bytes.
pub fn random_digits(rt: &HostRuntime) -> io::Result<[u8; 32]> {
    let mut bytes = [0; 16];
    rt.fill_bytes(&mut bytes)?;
    let mut digits = [0; 32];
    let _ = encode_to_slice(&bytes, &mut digits);
    Ok(digits)
}

impl From<WriteFault> for OpenFault {
    fn from(fault: WriteFault) -> OpenFault {
        match fault {
            WriteFault::Memory => OpenFault::System(out_of_memory()),
            WriteFault::NotLines => OpenFault::NotLines,
        }
    }
}

impl From<KeepFault> for OpenFault {
    fn from(fault: KeepFault) -> OpenFault {
        match fault {
            KeepFault::Memory => OpenFault::System(out_of_memory()),
            KeepFault::NotLines | KeepFault::Failed => OpenFault::NotLines,
            KeepFault::System(error) => OpenFault::System(error),
        }
    }
}

/// Whether bytes are a journal of the form before, in which each line is an object that begins with the role.
pub fn is_plain(bytes: &[u8]) -> bool {
    bytes.starts_with(b"{\"a")
}

/// The file of a journal, before anything is written to it, and the lock.
#[derive(Drop)]
pub struct JournalFile {
    /// The right to ask the system.
    rt: HostRuntime,
    /// The file, open to be appended to.
    file: File,
    /// The file that is locked as long as this lives.
    lock: File,
}

impl JournalFile {
    /// Opens the file of a journal, and makes it if it is missing, with the bytes of a seed. Answers what it has, too.
    ///
    /// # Errors
    /// `Taken` if another process writes it; `System` if the system refuses a step.
    pub fn open(
        rt: &HostRuntime,
        path: &str,
        seed: Option<&str>,
    ) -> Result<(JournalFile, Vec<u8>), OpenFault> {
        let lock = lock(rt, path)?;
        sow_seed(rt, path, seed)?;
        check_file(rt, path)?;
        let file = locked(own().append(true).create(true).open(rt, path)?)?;
        let bytes = read_file(rt, path)?;
        sync_folder(rt, path)?;
        let file = JournalFile {
            rt: *rt,
            file,
            lock,
        };
        Ok((file, bytes))
    }

    /// Puts a file with these bytes in its place, whole or not at all.
    ///
    /// # Errors
    /// As of `open`.
    pub fn renew(self, path: &str, bytes: &[u8]) -> Result<JournalFile, OpenFault> {
        let rt = self.rt;
        sow(&rt, path, bytes)?;
        let file = locked(own().append(true).open(&rt, path)?)?;
        sync_folder(&rt, path)?;
        Ok(JournalFile {
            rt,
            file,
            lock: self.lock,
        })
    }

    /// The journal in it, which this was read of, with as many of its lines before the first entry. What follows whole records is cut, a head with
    /// these digits is written if there is none, and all of it is synced.
    ///
    /// # Errors
    /// `System` if the system refuses a step.
    pub fn begin(
        self,
        audit: &Audit<'_>,
        said: usize,
        digits: &[u8; 32],
    ) -> Result<FileJournal, OpenFault> {
        let journal = DiskJournal::begin(&self.rt, self.file, self.lock, audit, said, digits)?;
        Ok(journal)
    }
}

impl<D: Disk + Drop> DiskJournal<D> {
    /// The journal on a disk that this was read of.
    fn begin(
        rt: &HostRuntime,
        disk: D,
        lock: File,
        audit: &Audit<'_>,
        said: usize,
        digits: &[u8; 32],
    ) -> Result<DiskJournal<D>, OpenFault>
        requires { IfSome (D.held disk) (λ bytes. IsAudit bytes audit.now) }
        ensures kept { IfOk result (λ j. IfSome (D.held j.keeper.disk) (λ bytes. lines_in bytes ≡ audit.now.lines.items)) }
        ensures synced { IfOk result (λ j. D.synced j.keeper.disk ≡ D.held j.keeper.disk) }
    {
        let alloc = rt.alloc();
        let keeper = Keeper::begin(alloc, disk, audit, digits)?;
        let end = keeper.length()?;
        Ok(DiskJournal {
            rt: *rt,
            keeper,
            _lock: lock,
            end,
            entries: records_in(audit.lines.get(said..).unwrap_or(&[])),
            syncs: Syncs::new(),
            shares: Vec::new(alloc),
            why: None,
        })
    }

    /// What is appended next was made by these holders of tokens, as far as they tell.
    pub fn note(&mut self, shares: Vec<Share>)
        ensures { self.new ≡ record self.old { shares = shares } }
    {
        self.shares = shares;
    }

    /// The length of the disk in bytes.
    pub fn len(&self) -> u64
        ensures { result ≡ self.now.end }
    {
        self.end
    }

    /// How many entries it has.
    pub fn entries(&self) -> u64
        ensures { result ≡ self.now.entries }
    {
        self.entries
    }

    /// How often it was written and synced since the start, and how long that took.
    pub fn syncs(&self) -> &Syncs
        ensures { result.now ≡ self.now.syncs }
    {
        &self.syncs
    }

    /// Why it could not be written.
    pub fn why(&self) -> &Option<KeepFault> {
        &self.why
    }

    /// Counts what was appended.
    fn count(&mut self, start: &io::Result<Instant>, length: usize, entries: u64)
        ensures { self.new.keeper ≡ self.old.keeper }
    {
        self.syncs.note(micros_since(&self.rt, start));
        raise(&mut self.end, length as u64);
        raise(&mut self.entries, entries);
    }
}

impl<D: Disk + Drop> Journal for DiskJournal<D> {
    ghost kept = { λ j. given_to (D.held j.keeper.disk) };

    /// Each request is written with the second, and with who held the token by which it was made. Nothing is to stay of what could not be
    /// written whole. If that fails too, the next start cuts what is torn.
    fn append(&mut self, lines: &[OwnedLine]) -> Result<(), JournalFault>
        ensures appended { OnOk result (given_to (D.held self.new.keeper.disk) ≡ option_map (λ ls. ls ++ lines.now) (given_to (D.held self.old.keeper.disk))) }
        ensures torn { OnErr result ((n : ℕ) × (n ≤ length lines.now)
            × (given_to (D.held self.new.keeper.disk) ≡ option_map (λ ls. ls ++ take n lines.now) (given_to (D.held self.old.keeper.disk)))) }
        ensures synced { OnOk result (0 < length lines.now → D.synced self.new.keeper.disk ≡ D.held self.new.keeper.disk) }
        ensures over { self.old.keeper.failed ≡ true → self.new.keeper ≡ self.old.keeper }
    {
        if lines.is_empty() {
            return Ok(());
        }
        let start = Instant::now(&self.rt);
        let second = second_now(&self.rt);
        let shares = mem::replace(&mut self.shares, Vec::new(self.rt.alloc()));
        let Ok(lines) = lines_of(self.rt.alloc(), lines) else {
            self.why = Some(KeepFault::Memory);
            return Err(JournalFault);
        };
        match self.keeper.append(self.rt.alloc(), second, &shares, &lines) {
            Ok(length) => {
                self.count(&start, length, records_in(&lines));
                Ok(())
            }
            Err(fault) => {
                self.why = Some(fault);
                Err(JournalFault)
            }
        }
    }
}
