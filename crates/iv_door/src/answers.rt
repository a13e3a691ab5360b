//! What a gateway answers a keeper: its first line, what is on disk, what was recalled, and `Fault`, why it takes nothing more.
ghost use Rattle.std.specs.Prelude.{◌≡◌, ◌++◌, [], OnOk, codes, decimal, option_map};
ghost use Rattle.iv_rows.specs.Options.{if_some};
ghost use Rattle.iv_records.specs.Journal.{position_text};
ghost use Rattle.iv_door.specs.Answers.{gap, held_text, hello, leads, not_accepted, not_decided, on_disk, other_log, recalled, words_of};
ghost use Rattle.iv_door.specs.Views.{fault_of};

use crate::said::Log;
use itoa::Buffer;
use std::alloc::{AllocError, AllocFailed};

/// Why a gateway takes nothing more of a keeper. Lines of the keeper count from 1, and so do lines, entries and names of a step.
#[derive(Drop)]
pub enum Fault {
    /// This line is too long.
    TooLong(u64),
    /// This line is none that a keeper says.
    NoLine(u64),
    /// This line comes before the log is followed, or after that.
    WrongTime(u64),
    /// No log is followed yet.
    NoLog,
    /// This log is followed, and not the other.
    OtherLog(Log),
    /// A step has too many lines, or bytes of them.
    NoRoom,
    /// A step to the first position is from the second, and the third is reached.
    Gap(u64, u64, u64),
    /// This line of the step to a position is no entry.
    NoEntry(u64, u64),
    /// This entry of the step to a position is refused by a number.
    NotAccepted(u64, u64, u64),
    /// This name of the step to a position may have an answer already.
    NotNew(u64, u64),
    /// The first position is said to be kept, and it is not from the second, which was, to the third, which the keeper was told.
    NotDecided(u64, u64, u64),
    /// The step to a position is brought, and the gateway leads.
    DecidedHere(u64),
    /// A growth of memory was refused.
    Memory,
}

impl From<AllocError> for Fault {
    ghost use Rattle.iv_door.specs.declared.answers.Fault.TheVariants.{Memory};

    ghost from_gives = { λ _ fault. fault ≡ Memory };

    fn from(_error: AllocError) -> Fault {
        Fault::Memory
    }
}

impl<T: Drop> From<AllocFailed<T>> for Fault {
    ghost use Rattle.iv_door.specs.declared.answers.Fault.TheVariants.{Memory};

    ghost from_gives = { λ _ fault. fault ≡ Memory };

    fn from(_error: AllocFailed<T>) -> Fault {
        Fault::Memory
    }
}

/// Appends a number.
fn push_number(out: &mut Vec<u8>, number: u64) -> Result<(), AllocError>
    ensures { OnOk result (out.new.items ≡ out.old.items ++ decimal number) }
{
    out.extend_from_slice(Buffer::new().format(number).as_bytes())?;
    Ok(())
}

/// Appends a text, a number, and a text.
fn push_with(out: &mut Vec<u8>, before: &[u8], number: u64, behind: &[u8]) -> Result<(), AllocError>
    ensures { OnOk result (out.new.items ≡ out.old.items ++ (before.now ++ (decimal number ++ behind.now))) }
{
    out.extend_from_slice(before)?;
    push_number(out, number)?;
    out.extend_from_slice(behind)?;
    Ok(())
}

/// Appends two numbers with texts before them, and a text.
fn push_both(
    out: &mut Vec<u8>,
    before: &[u8],
    number: u64,
    between: &[u8],
    other: u64,
    behind: &[u8],
) -> Result<(), AllocError>
    ensures { OnOk result (out.new.items ≡ out.old.items
        ++ (before.now ++ (decimal number ++ (between.now ++ (decimal other ++ behind.now))))) }
{
    out.extend_from_slice(before)?;
    push_number(out, number)?;
    push_with(out, between, other, behind)
}

/// Appends the text by which a journal ends a step.
pub(crate) fn push_step(out: &mut Vec<u8>, to: u64) -> Result<(), AllocError>
    ensures { OnOk result (out.new.items ≡ out.old.items ++ position_text to) }
{
    push_with(out, b"\"step\":", to, b"}")
}

// ---- words

/// Appends which log is followed.
fn push_other(out: &mut Vec<u8>, log: &Log) -> Result<(), AllocError>
    ensures { OnOk result (out.new.items ≡ out.old.items ++ words_of (other_log log.now)) }
{
    out.extend_from_slice(b"the log ")?;
    out.extend_from_slice(&log.name)?;
    out.extend_from_slice(b" of epoch ")?;
    out.extend_from_slice(&log.epoch)?;
    out.extend_from_slice(b" is followed here: another one needs a new journal file")?;
    Ok(())
}

/// Appends where a step begins, and where it was to.
fn push_gap(out: &mut Vec<u8>, to: u64, from: u64, position: u64) -> Result<(), AllocError>
    ensures { OnOk result (out.new.items ≡ out.old.items ++ words_of (gap to from position)) }
{
    push_both(
        out,
        b"step ",
        to,
        b" is from ",
        from,
        b", and the position is ",
    )?;
    push_number(out, position)
}

/// Appends which entry is refused, and by which number.
fn push_refused(out: &mut Vec<u8>, entry: u64, to: u64, refusal: u64) -> Result<(), AllocError>
    ensures { OnOk result (out.new.items ≡ out.old.items ++ words_of (not_accepted entry to refusal)) }
{
    push_both(out, b"entry ", entry, b" of step ", to, b" is refused by ")?;
    push_number(out, refusal)?;
    Ok(())
}

/// Appends which position is said to be kept, and between which it may be.
fn push_undecided(out: &mut Vec<u8>, kept: u64, from: u64, to: u64) -> Result<(), AllocError>
    ensures { OnOk result (out.new.items ≡ out.old.items ++ words_of (not_decided kept from to)) }
{
    push_both(out, b"kept ", kept, b" is not from ", from, b" to ")?;
    push_number(out, to)?;
    Ok(())
}

/// Appends the words of a fault: none for want of memory.
///
/// # Errors
/// `AllocError` if a growth of memory was refused.
pub fn push_words(out: &mut Vec<u8>, fault: &Fault) -> Result<(), AllocError>
    ensures { OnOk result (out.new.items ≡ out.old.items ++ if_some (fault_of fault.now) [] words_of) }
{
    match fault {
        Fault::TooLong(line) => push_with(out, b"line ", *line, b" is too long"),
        Fault::NoLine(line) => push_with(out, b"line ", *line, b" is none that a keeper says"),
        Fault::WrongTime(line) => push_with(out, b"line ", *line, b" comes at the wrong time"),
        Fault::NoLog => Ok(out.extend_from_slice(b"no log is followed yet: begin one")?),
        Fault::OtherLog(log) => push_other(out, log),
        Fault::NoRoom => Ok(out.extend_from_slice(b"a step is too long")?),
        Fault::Gap(to, from, position) => push_gap(out, *to, *from, *position),
        Fault::NoEntry(line, to) => {
            push_both(out, b"line ", *line, b" of step ", *to, b" is no entry")
        }
        Fault::NotAccepted(entry, to, refusal) => push_refused(out, *entry, *to, *refusal),
        Fault::NotNew(name, to) => push_both(
            out,
            b"name ",
            *name,
            b" of step ",
            *to,
            b" may have an answer already",
        ),
        Fault::NotDecided(kept, from, to) => push_undecided(out, *kept, *from, *to),
        Fault::DecidedHere(to) => push_with(
            out,
            b"step ",
            *to,
            b" is brought, and the gateway leads",
        ),
        Fault::Memory => Ok(()),
    }
}

// ---- lines

/// Appends the line of a fault, without its newline.
///
/// # Errors
/// `AllocError` if a growth of memory was refused.
pub fn push_fault(out: &mut Vec<u8>, fault: &Fault) -> Result<(), AllocError>
    ensures { OnOk result (out.new.items ≡ out.old.items ++ (codes "{\"fault\":\"" ++ (if_some (fault_of fault.now) [] words_of ++ codes "\"}"))) }
{
    out.extend_from_slice(b"{\"fault\":\"")?;
    push_words(out, fault)?;
    out.extend_from_slice(b"\"}")?;
    Ok(())
}

/// Appends the log that is followed, by its name and epoch.
fn push_log(out: &mut Vec<u8>, name: &[u8], epoch: &[u8]) -> Result<(), AllocError>
    ensures { OnOk result (out.new.items ≡ out.old.items ++ (codes ",\"log\":\"" ++ (name.now ++ (codes "\",\"epoch\":\"" ++ epoch.now)))) }
{
    out.extend_from_slice(b",\"log\":\"")?;
    out.extend_from_slice(name)?;
    out.extend_from_slice(b"\",\"epoch\":\"")?;
    out.extend_from_slice(epoch)?;
    Ok(())
}

/// Appends a text and a number.
fn push_after(out: &mut Vec<u8>, before: &[u8], number: u64) -> Result<(), AllocError>
    ensures { OnOk result (out.new.items ≡ out.old.items ++ (before.now ++ decimal number)) }
{
    out.extend_from_slice(before)?;
    push_number(out, number)?;
    Ok(())
}

/// Appends what is held.
fn push_held(out: &mut Vec<u8>, log: &Log, position: u64) -> Result<(), AllocError>
    ensures { OnOk result (out.new.items ≡ out.old.items ++ held_text (record { log = log.now; position = position })) }
{
    push_log(out, &log.name, &log.epoch)?;
    push_after(out, b"\",\"position\":", position)?;
    Ok(())
}

/// Appends the first line, without its newline: how many rows a table may have, and the log that is followed with its position.
///
/// # Errors
/// `AllocError` if a growth of memory was refused.
pub fn push_hello(
    out: &mut Vec<u8>,
    rows: u32,
    log: &Option<Log>,
    position: u64,
) -> Result<(), AllocError>
    ensures { OnOk result (out.new.items ≡ out.old.items ++ hello rows (option_map (λ l. record { log = l; position = position }) log.now)) }
{
    push_with(out, b"{\"door\":1,\"rows\":", u64::from(rows), b"")?;
    if let Some(log) = log {
        push_held(out, log, position)?;
    }
    out.extend_from_slice(b"}")?;
    Ok(())
}

/// Appends the line of what is on disk, without its newline.
///
/// # Errors
/// `AllocError` if a growth of memory was refused.
pub fn push_on_disk(out: &mut Vec<u8>, position: u64) -> Result<(), AllocError>
    ensures { OnOk result (out.new.items ≡ out.old.items ++ on_disk position) }
{
    push_with(out, b"{\"on_disk\":", position, b"}")
}

/// Appends the line at the end of what was recalled, without its newline.
///
/// # Errors
/// `AllocError` if a growth of memory was refused.
pub fn push_recalled(out: &mut Vec<u8>, position: u64) -> Result<(), AllocError>
    ensures { OnOk result (out.new.items ≡ out.old.items ++ recalled position) }
{
    push_with(out, b"{\"recalled\":", position, b"}")
}

/// Appends the line of where it begins to decide, without its newline.
///
/// # Errors
/// `AllocError` if a growth of memory was refused.
pub fn push_leads(out: &mut Vec<u8>, position: u64) -> Result<(), AllocError>
    ensures { OnOk result (out.new.items ≡ out.old.items ++ leads position) }
{
    push_with(out, b"{\"leads\":", position, b"}")
}
