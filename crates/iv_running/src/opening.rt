//! `open_journal`: the journal's file, in the form of today; `come_back`: a desk that is where it leads.
ghost use Rattle.std.specs.Prelude.{◌≡◌, ℕ, IfOk, List, OnOk, drop};
ghost use Rattle.iv_audit.specs.Reading.{IsAudit};
ghost use Rattle.iv_clients.specs.Tokens.{Token as Holder};
ghost use Rattle.iv_gate.specs.Gate as spec;
ghost use Rattle.iv_gateway.specs.Views.{IsHead};
ghost use Rattle.iv_head.specs.Begun.{begun_in};
ghost use Rattle.iv_host.specs.Beginning.{head_with};
ghost use Rattle.iv_host.specs.Settings.{AreValid};
ghost use Rattle.iv_running.specs.Logs.{IsComeBack};
ghost use Rattle.iv_running.specs.Running.{IsBack, IsNew, IsRunning};

use crate::calls::{new_desk, restore};
use crate::said::{damaged_at, damaged_in, no_journal, no_random_bytes, out_of_memory, say_cut};
use iv_audit::{Audit, AuditFault, anew, read_audit, read_plain};
use iv_clients::Token;
use iv_desk::Desk;
use iv_engine::Seed;
use iv_gateway::{Head, RestoreFault};
use iv_head::{Begun, epoch_in, read_begun};
use iv_host::{FileJournal, JournalFile, OpenFault, Settings, head_of, is_plain, random_digits};
use iv_journal::Line;
use json::Scratch;

/// A new desk with these tokens, whose journal says this at its head.
fn desk_of(
    rt: &HostRuntime,
    settings: &Settings,
    tokens: Vec<Token>,
    head: Head,
) -> Result<Desk, u8>
    requires settings { AreValid settings.now }
    requires head { (h : spec.Head) × IsHead h head }
    ensures { IfOk result (λ x. (h : spec.Head) → IsHead h head → IsNew settings.now.rows tokens.items h x) }
{
    let Ok(seed) = Seed::random(rt) else {
        return Err(no_random_bytes(rt));
    };
    match new_desk(
        rt.alloc(),
        seed,
        settings.rows,
        settings.clients,
        tokens,
        head,
    ) {
        Ok(desk) => Ok(desk),
        Err(_) => Err(out_of_memory(rt)),
    }
}

/// What a gateway begins with whose journal has this epoch, and says this before its first entry.
fn begins_with(rt: &HostRuntime, epoch: &str, begun: Begun) -> Result<Head, u8>
    ensures { IfOk result (λ x. IsHead (head_with epoch.now begun) x) }
{
    match head_of(rt.alloc(), epoch, begun) {
        Ok(head) => Ok(head),
        Err(_) => Err(out_of_memory(rt)),
    }
}

/// 32 digits that no other journal has.
pub(crate) fn new_digits(rt: &HostRuntime) -> Result<[u8; 32], u8> {
    match random_digits(rt) {
        Ok(digits) => Ok(digits),
        Err(_) => Err(no_random_bytes(rt)),
    }
}

/// Brings a new desk to where entries lead, which stand after so many lines of the journal.
fn lead(
    rt: &HostRuntime,
    desk: &mut Desk,
    path: &str,
    bytes: &[u8],
    behind: usize,
    entries: &[Line<'_>],
) -> Result<(), u8>
    ensures runs { OnOk result ((cap : ℕ) (tokens : List Holder) (head : spec.Head) → IsNew cap tokens head desk.old → IsRunning cap desk.new) }
    ensures back { OnOk result ((cap : ℕ) (tokens : List Holder) (head : spec.Head) → IsNew cap tokens head desk.old
        → IsBack cap tokens head entries.now desk.new) }
{
    match restore(desk, entries) {
        Ok(()) => Ok(()),
        Err(RestoreFault::Damaged(line)) => Err(damaged_in(
            rt,
            path,
            bytes,
            behind.saturating_add(line),
        )),
        Err(_) => Err(out_of_memory(rt)),
    }
}

// ---- the form before

/// Whether entries lead a desk somewhere.
fn try_entries(
    rt: &HostRuntime,
    settings: &Settings,
    bytes: &[u8],
    entries: &[Line<'_>],
) -> Result<(), u8>
    requires { AreValid settings.now }
{
    let nothing = Begun {
        log: None,
        standings: Vec::new(rt.alloc()),
    };
    let head = begins_with(rt, "", nothing)?;
    let mut desk = desk_of(rt, settings, Vec::new(rt.alloc()), head)?;
    lead(rt, &mut desk, settings.journal.as_str(), bytes, 0, entries)
}

/// The bytes of a journal with the entries of one of the form before, which lead somewhere.
fn modern(rt: &HostRuntime, settings: &Settings, bytes: &[u8]) -> Result<Vec<u8>, u8>
    requires { AreValid settings.now }
{
    let Ok(plain) = read_plain(rt.alloc(), bytes) else {
        return Err(out_of_memory(rt));
    };
    try_entries(rt, settings, bytes, &plain.lines)?;
    if plain.length < bytes.len() {
        say_cut(rt, settings.journal.as_str(), bytes.len() - plain.length);
    }
    let digits = new_digits(rt)?;
    match anew(rt.alloc(), &digits, &plain.lines) {
        Ok(bytes) => Ok(bytes),
        Err(fault) => { Err(no_journal(rt, settings.journal.as_str(), &OpenFault::from(fault))) }
    }
}

/// Puts a journal of the form of today in the place of one of the form before.
fn renew(
    rt: &HostRuntime,
    settings: &Settings,
    file: JournalFile,
    bytes: &[u8],
) -> Result<(JournalFile, Vec<u8>), u8>
    requires { AreValid settings.now }
{
    let path = settings.journal.as_str();
    let bytes = modern(rt, settings, bytes)?;
    match file.renew(path, &bytes) {
        Ok(file) => Ok((file, bytes)),
        Err(fault) => Err(no_journal(rt, path, &fault)),
    }
}

/// The file of the journal, and what it has, in the form of today.
///
/// # Errors
/// The status to exit with, once it was said why.
pub fn open_journal(rt: &HostRuntime, settings: &Settings) -> Result<(JournalFile, Vec<u8>), u8>
    requires { AreValid settings.now }
{
    let path = settings.journal.as_str();
    let seed = match &settings.seed {
        Some(seed) => Some(seed.as_str()),
        None => None,
    };
    match JournalFile::open(rt, path, seed) {
        Err(fault) => Err(no_journal(rt, path, &fault)),
        Ok((file, bytes)) => {
            if is_plain(&bytes) {
                renew(rt, settings, file, &bytes)
            } else {
                Ok((file, bytes))
            }
        }
    }
}

// ---- the form of today

/// Reads a journal, or says why it is not read.
pub(crate) fn read<'a>(rt: &HostRuntime, path: &str, bytes: &'a [u8]) -> Result<Audit<'a>, u8>
    ensures { IfOk result (λ a. IsAudit bytes.now a) }
{
    match read_audit(rt.alloc(), bytes) {
        Ok(audit) => Ok(audit),
        Err(AuditFault::Damaged(place)) => Err(damaged_at(rt, path, bytes, place)),
        Err(AuditFault::Memory) => Err(out_of_memory(rt)),
    }
}

/// The epoch of a journal: these digits, if it has no head.
fn epoch_of(
    rt: &HostRuntime,
    path: &str,
    bytes: &[u8],
    audit: &Audit<'_>,
    digits: &[u8; 32],
) -> Result<String, u8> {
    match epoch_in(rt.alloc(), audit.epoch.unwrap_or(digits.as_slice())) {
        Ok(Some(epoch)) => Ok(epoch),
        Ok(None) => Err(damaged_at(rt, path, bytes, 0)),
        Err(_) => Err(out_of_memory(rt)),
    }
}

/// What a journal says before its first entry, and in how many lines after its head.
pub(crate) fn begun_in(rt: &HostRuntime, lines: &[Line<'_>]) -> Result<(Begun, usize), u8>
    ensures { IfOk result (λ p. (p.0, drop p.1 lines.now) ≡ begun_in lines.now) }
{
    let mut scratch = Scratch::new(rt.alloc());
    match read_begun(rt.alloc(), lines, &mut scratch) {
        Ok(found) => Ok(found),
        Err(_) => Err(out_of_memory(rt)),
    }
}

/// The lines behind so many of them.
fn behind<'l, 'a>(lines: &'l [Line<'a>], count: usize) -> &'l [Line<'a>]
    ensures { result.now ≡ drop count lines.now }
{
    if count > lines.len() {
        return &lines[..0];
    }
    &lines[count..]
}

/// A desk with these tokens that is where a journal leads, and in how many lines after its head that says something before its first entry.
fn led(
    rt: &HostRuntime,
    settings: &Settings,
    tokens: Vec<Token>,
    bytes: &[u8],
    audit: &Audit<'_>,
    digits: &[u8; 32],
) -> Result<(Desk, usize), u8>
    requires { AreValid settings.now }
    ensures runs { IfOk result (λ p. IsRunning settings.now.rows p.0) }
    ensures back { IfOk result (λ p. (epoch : List ℕ) × IsBack settings.now.rows tokens.items
        (head_with epoch (begun_in audit.now.lines.items).0) (begun_in audit.now.lines.items).1 p.0) }
{
    let path = settings.journal.as_str();
    let epoch = epoch_of(rt, path, bytes, audit, digits)?;
    let (begun, said) = begun_in(rt, &audit.lines)?;
    let head = begins_with(rt, epoch.as_str(), begun)?;
    let mut desk = desk_of(rt, settings, tokens, head)?;
    let entries = behind(&audit.lines, said);
    match lead(rt, &mut desk, path, bytes, said.saturating_add(1), entries) {
        Ok(()) => Ok((desk, said)),
        Err(status) => Err(status),
    }
}

/// Begins the journal of a file that this was read of.
fn begin_journal(
    rt: &HostRuntime,
    path: &str,
    file: JournalFile,
    length: usize,
    audit: &Audit<'_>,
    said: usize,
    digits: &[u8; 32],
) -> Result<FileJournal, u8> {
    if audit.end.length < length {
        say_cut(rt, path, length - audit.end.length);
    }
    match file.begin(audit, said, digits) {
        Ok(journal) => Ok(journal),
        Err(fault) => Err(no_journal(rt, path, &fault)),
    }
}

/// A desk with these tokens that is where the journal of a file leads, and that journal, all of it on disk.
///
/// # Errors
/// As of `open_journal`.
pub fn come_back(
    rt: &HostRuntime,
    settings: &Settings,
    tokens: Vec<Token>,
    file: JournalFile,
    bytes: Vec<u8>,
) -> Result<(Desk, FileJournal), u8>
    requires { AreValid settings.now }
    ensures runs { IfOk result (λ p. IsRunning settings.now.rows p.0) }
    ensures back { IfOk result (λ p. IsComeBack settings.now.rows tokens.items bytes.items p.0) }
{
    let path = settings.journal.as_str();
    let digits = new_digits(rt)?;
    let audit = read(rt, path, &bytes)?;
    let (desk, said) = led(rt, settings, tokens, &bytes, &audit, &digits)?;
    let journal = begin_journal(rt, path, file, bytes.len(), &audit, said, &digits)?;
    Ok((desk, journal))
}
