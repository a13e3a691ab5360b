//! `Step`: a step of a log, as it comes; `read_step` reads one of the lines of its record.
ghost use Rattle.std.specs.Prelude.{◌≡◌, ◌==◌, ◌&&◌, ◌||◌, IfOk, IfSome, drop, false, length, nat_le, nat_lt};
ghost use Rattle.std.specs.List.{list_all, list_any};
ghost use Rattle.iv_rows.specs.Options.{if_some};
ghost use Rattle.iv_journal.specs.Journal.{is_text};
ghost use Rattle.iv_gate.specs.Arriving.{is_log};
ghost use Rattle.iv_gate.specs.Events.{IsWell, arrived};
ghost use Rattle.iv_arrivals.specs.Reads.{is_answer, step_in, step_of};

use iv_journal::{Line, MOST_TEXT};
use iv_once::Named;
use iv_records::laws::records_are_read_back;
use iv_records::{Entry, Request, is_answer_text, read_record};
use json::Scratch;
use std::alloc::{AllocError, Global};
use std::marker::Model;

/// A log that others keep.
#[derive(Drop)]
pub struct Log {
    /// Its name.
    pub name: String,
    /// 32 digits that no other beginning of it has.
    pub epoch: String,
}

impl Model for Log {
    ghost use Rattle.std.specs.Prelude.{string_bytes};
    ghost use Rattle.iv_gate.specs.Gate.{Log};

    ghost Value = { Log };

    ghost view = { λ l. record { name = string_bytes l.name; epoch = string_bytes l.epoch } };
}

/// A step of a log: what was done there between two positions, and the names that have an answer by it.
#[derive(Drop)]
pub struct Step {
    /// Which log it is of.
    pub log: Log,
    /// The position after which it comes.
    pub from: u64,
    /// The position to which it leads.
    pub to: u64,
    /// What was done.
    pub requests: Vec<Request>,
    /// The names.
    pub names: Vec<Named>,
}

impl Model for Step {
    ghost use Rattle.iv_gate.specs.Arriving.{Step as StepSpec};

    ghost Value = { StepSpec };

    ghost view = { λ s. record { log = s.log; from = s.from; to = s.to; requests = s.requests.items; names = s.names.items } };
}

impl Log {
    /// Whether it is the other: by name and epoch.
    fn is(&self, other: &Log) -> bool
        ensures { result ≡ is_log self.now other.now }
    {
        self.name.as_str() == other.name.as_str() && self.epoch.as_str() == other.epoch.as_str()
    }
}

impl Step {
    /// Whether it is of a log, if that is one.
    pub fn is_of(&self, log: &Option<Log>) -> bool
        ensures { result ≡ if_some log.now false (is_log self.now.log) }
    {
        match log {
            None => false,
            Some(log) => self.log.is(log),
        }
    }

    /// Whether it begins at a position, and leads on.
    pub fn is_next(&self, position: u64) -> bool
        ensures { result ≡ ((self.now.from == position) && nat_lt self.now.from self.now.to) }
    {
        self.from == position && self.from < self.to
    }

    /// Whether it leads no further than a position.
    pub fn is_past(&self, position: u64) -> bool
        ensures { result ≡ nat_le self.now.to position }
    {
        self.to <= position
    }
}

/// Whether it is a newline or a zero byte.
fn is_end(byte: u8) -> bool
    ensures { result ≡ ((byte == 10) || (byte == 0)) }
{
    byte == b'\n' || byte == 0
}

/// Whether there is a newline or a zero byte.
fn has_end(text: &[u8]) -> bool
    ensures { result ≡ list_any (λ b. (b == 10) || (b == 0)) text.now }
{
    text.iter().any(|byte| is_end(*byte))
}

/// Whether a journal holds a text.
fn is_text(text: &[u8]) -> bool
    ensures { result ≡ is_text text.now }
{
    !has_end(text) && text.len() <= MOST_TEXT
}

/// Whether a journal holds the texts of lines.
fn are_texts(lines: &[Line<'_>]) -> bool
    ensures { result ≡ list_all (λ l. is_text l.text) lines.now }
{
    lines.iter().all(|line| is_text(line.text))
}

/// Whether a name has an answer that clients can be told.
fn is_answer(alloc: Global, name: &Named, scratch: &mut Scratch) -> Result<bool, AllocError>
    ensures { IfOk result (λ is. is ≡ is_answer name.now) }
{
    let is = is_answer_text(alloc, &name.answer, scratch)?;
    Ok(is)
}

/// Whether each name has one.
fn are_answers(alloc: Global, names: &[Named], scratch: &mut Scratch) -> Result<bool, AllocError>
    ensures { IfOk result (λ are. are ≡ list_all is_answer names.now) }
{
    for name in names {
        if !is_answer(alloc, name, scratch)? {
            return Ok(false);
        }
    }
    Ok(true)
}

/// Whether there are no more lines than that.
fn are_all(lines: &[Line<'_>], count: usize) -> bool
    ensures { result ≡ (length (drop count lines.now) == 0) }
{
    lines.len() <= count
}

/// The step of an entry that has a position.
fn step_of(log: Log, from: u64, entry: Entry) -> Option<Step>
    ensures { result ≡ step_of log from entry }
{
    let Entry {
        requests,
        names,
        position,
    } = entry;
    match position {
        None => None,
        Some(to) => Some(Step {
            log,
            from,
            to,
            requests,
            names,
        }),
    }
}

/// The step of a log that comes after a position, of the lines of its record. None where they are not one record of a step, or not such as a
/// gateway takes: each text has to be one that a journal holds, and each answer one that clients can be told.
///
/// # Errors
/// `AllocError` if a growth of memory was refused.
pub fn read_step(
    alloc: Global,
    log: Log,
    from: u64,
    lines: &[Line<'_>],
    scratch: &mut Scratch,
) -> Result<Option<Step>, AllocError>
    ensures read { IfOk result (λ o. o ≡ step_in log from lines.now) }
    ensures well { IfOk result (λ o. IfSome o (λ s. IsWell (arrived s))) }
{
    records_are_read_back();
    if !are_texts(lines) {
        return Ok(None);
    }
    match read_record(alloc, lines, scratch)? {
        None => Ok(None),
        Some((entry, count)) => {
            if !are_all(lines, count) {
                return Ok(None);
            }
            if !are_answers(alloc, &entry.names, scratch)? {
                return Ok(None);
            }
            Ok(step_of(log, from, entry))
        }
    }
}
