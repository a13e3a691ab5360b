//! `followed_in`: the log that a journal follows; `begin_log`: a new journal follows one; `recalled_in`: the requests that a journal has.
ghost use Rattle.std.specs.Prelude.{◌≡◌, ◌++◌, ℕ, IfOk, List, OnOk, string_bytes, true};
ghost use Rattle.iv_audit.specs.Audit.{is_request};
ghost use Rattle.iv_journal.specs.Journal.{Line as LineSpec};
ghost use Rattle.iv_records.specs.Names.{is_epoch};
ghost use Rattle.iv_running.specs.Logs as spec;
ghost use Rattle.iv_running.specs.Logs.{BeginsLog, HasLines, RecallsRequests, follows_of};

use crate::opening::{begun_in, new_digits, read};
use crate::said::{no_journal, out_of_memory};
use iv_audit::{WriteFault, anew};
use iv_head::laws::what_is_written_is_read_back;
use iv_head::{Begun, Followed, push_begun};
use iv_host::{JournalFile, OpenFault, Settings, lines_of};
use iv_journal::Line;
use std::alloc::{AllocError, Global};

/// What a journal says of the log that it follows.
#[derive(Drop)]
pub enum Follows {
    /// Nothing, and it has nothing.
    Nothing,
    /// It follows this log.
    Log(Followed),
    /// Nothing, and it has entries of its own.
    Itself,
}

/// The log that a journal's lines behind its head follow.
fn follows_of(rt: &HostRuntime, lines: &[Line<'_>]) -> Result<Follows, u8>
    ensures { IfOk result (λ f. f ≡ follows_of lines.now) }
{
    let (begun, _) = begun_in(rt, lines)?;
    let Begun { log, standings } = begun;
    drop(standings);
    match log {
        Some(log) => Ok(Follows::Log(log)),
        None => {
            if lines.is_empty() {
                Ok(Follows::Nothing)
            } else {
                Ok(Follows::Itself)
            }
        }
    }
}

/// The log that a journal follows.
///
/// # Errors
/// The status to exit with, once it was said why.
pub fn followed_in(rt: &HostRuntime, settings: &Settings, bytes: &[u8]) -> Result<Follows, u8>
    ensures { IfOk result (λ f. (given : List LineSpec) × HasLines bytes.now given × (f ≡ follows_of given)) }
{
    let audit = read(rt, settings.journal.as_str(), bytes)?;
    match follows_of(rt, &audit.lines) {
        Ok(follows) => Ok(follows),
        Err(status) => Err(status),
    }
}

/// The bytes of a journal of these digits that follows a log from its beginning on.
fn following(
    alloc: Global,
    digits: &[u8; 32],
    name: String,
    epoch: String,
) -> Result<Vec<u8>, WriteFault>
    requires { is_epoch (string_bytes epoch) ≡ true }
    ensures { IfOk result (λ out. BeginsLog (string_bytes name) (string_bytes epoch) out.items) }
{
    what_is_written_is_read_back();
    let begun = Begun {
        log: Some(Followed {
            name,
            epoch,
            position: 0,
        }),
        standings: Vec::new(alloc),
    };
    let mut lines = Vec::new(alloc);
    push_begun(alloc, &mut lines, &begun)?;
    let given = lines_of(alloc, &lines)?;
    match anew(alloc, digits, &given) {
        Ok(bytes) => Ok(bytes),
        Err(fault) => Err(fault),
    }
}

/// Puts a journal that follows a log in the place of one that has nothing, and its bytes.
///
/// # Errors
/// As of `followed_in`.
pub fn begin_log(
    rt: &HostRuntime,
    settings: &Settings,
    file: JournalFile,
    name: String,
    epoch: String,
) -> Result<(JournalFile, Vec<u8>), u8>
    requires { is_epoch (string_bytes epoch) ≡ true }
    ensures { IfOk result (λ p. BeginsLog (string_bytes name) (string_bytes epoch) p.1.items) }
{
    let path = settings.journal.as_str();
    let digits = new_digits(rt)?;
    match following(rt.alloc(), &digits, name, epoch) {
        Err(WriteFault::Memory) => Err(out_of_memory(rt)),
        Err(fault) => Err(no_journal(rt, path, &OpenFault::from(fault))),
        Ok(bytes) => match file.renew(path, &bytes) {
            Ok(file) => Ok((file, bytes)),
            Err(fault) => Err(no_journal(rt, path, &fault)),
        },
    }
}

// ---- what is recalled

/// Whether a text of a journal is a request.
fn is_request(text: &[u8]) -> bool
    ensures { result ≡ is_request text.now }
{
    text.starts_with(b"\"as\":\"")
}

/// Appends a text of a journal as a line of its own, if it is a request.
fn push_request(out: &mut Vec<u8>, text: &[u8]) -> Result<(), AllocError>
    ensures { OnOk result (out.new.items ≡ out.old.items ++ spec.recalled_by text.now) }
{
    if !is_request(text) {
        return Ok(());
    }
    out.push(b'{')?;
    out.extend_from_slice(text)?;
    out.push(b'\n')?;
    Ok(())
}

/// Appends the requests that lines of a journal have, as objects of JSON, each with a newline.
fn push_requests(out: &mut Vec<u8>, lines: &[Line<'_>]) -> Result<(), AllocError>
    ensures { OnOk result (out.new.items ≡ out.old.items ++ spec.recalled_in lines.now) }
{
    for line in lines {
        push_request(out, line.text)?;
    }
    Ok(())
}

/// The requests that the bytes of a journal have, as objects of JSON, each with a newline.
///
/// # Errors
/// As of `followed_in`.
pub fn recalled_in(rt: &HostRuntime, path: &str, bytes: &[u8]) -> Result<Vec<u8>, u8>
    ensures { IfOk result (λ out. (given : List LineSpec) × HasLines bytes.now given × (out.items ≡ spec.recalled_in given)) }
{
    let audit = read(rt, path, bytes)?;
    let mut out = Vec::new(rt.alloc());
    match push_requests(&mut out, &audit.lines) {
        Ok(()) => Ok(out),
        Err(AllocError) => Err(out_of_memory(rt)),
    }
}

/// What is recalled of a journal are the requests of its entries, all of them and in order, whatever it says before them.
pub fn requests_are_recalled()
    ensures { RecallsRequests }
{}
