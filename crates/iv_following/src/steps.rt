//! `take_step`: the step of texts that a keeper has brought is taken, or why it is not is told by its place in it.
ghost use Rattle.std.specs.Prelude.{◌≡◌, IfErr, IfOk, IfSome, None, OnOk, Some, false, map};
ghost use Rattle.iv_gate.specs.Arriving.{fault_of};
ghost use Rattle.iv_gate.specs.Gate.{Gate};
ghost use Rattle.iv_gate.specs.Arriving as gate;
ghost use Rattle.iv_gateway.specs.Arriving.{IsFaultOf};
ghost use Rattle.iv_gateway.specs.declared.arriving.StepFault.TheVariants.{Memory as NoMemory};
ghost use Rattle.iv_records.specs.Journal.{record_of};
ghost use Rattle.iv_desk.specs.Desks.{IsDesk};
ghost use Rattle.iv_desk.specs.Front.{Front};
ghost use Rattle.iv_door.specs.Views as door;
ghost use Rattle.iv_running.specs.Running.{IsFollowed, Leads};
ghost use Rattle.iv_following.specs.Following.{IsTold, IsToldOf};

use crate::logs::{copied, said_log};
use iv_arrivals::{Log, number_of, read_step};
use iv_desk::Desk;
use iv_door::Fault;
use iv_gateway::StepFault;
use iv_journal::Line;
use iv_running::calls::follow;
use json::Scratch;
use std::alloc::{AllocError, Global};

/// The lines of the record that has these texts.
fn lines_of<'a>(alloc: Global, texts: &'a [Vec<u8>]) -> Result<Vec<Line<'a>>, AllocError>
    ensures { IfOk result (λ out. out.items ≡ record_of (map (λ v. v.items) texts.now)) }
{
    let mut lines = Vec::new(alloc);
    let last = texts.len().saturating_sub(1);
    for at in 0..texts.len() {
        lines.push(Line {
            is_last: at == last,
            text: &texts[at],
        })?;
    }
    Ok(lines)
}

/// Whether a text is one of a step by itself, whose last text that is.
fn is_text(
    alloc: Global,
    log: &Log,
    text: &[u8],
    last: &[u8],
    scratch: &mut Scratch,
) -> Result<bool, AllocError> {
    let lines = [
        Line {
            is_last: false,
            text,
        },
        Line {
            is_last: true,
            text: last,
        },
    ];
    let step = read_step(alloc, copied(alloc, log)?, 0, &lines, scratch)?;
    Ok(step.is_some())
}

/// The first text, counted from 1, that is none by itself, or a request after a name. The last one is none.
fn first_wrong(
    alloc: Global,
    log: &Log,
    texts: &[Vec<u8>],
    scratch: &mut Scratch,
) -> Result<u64, AllocError> {
    let Some(last) = texts.last() else {
        return Ok(1);
    };
    let mut place: u64 = 0;
    let mut names = false;
    for text in texts {
        place = place.saturating_add(1);
        let is_name = text.starts_with(b"\"once\":");
        let is_late = names && !is_name;
        if is_late || !is_text(alloc, log, text, last, scratch)? {
            return Ok(place);
        }
        names = is_name;
    }
    Ok(place)
}

/// Why a step is not taken, as its keeper is told it.
fn fault_of(alloc: Global, log: &Log, from: u64, to: u64, fault: &StepFault) -> Fault
    ensures told { (s : gate.Step) (g : Gate) → IsFaultOf g s fault.now
        → IfSome (door.fault_of result) (λ f. (why : gate.Fault) × (fault_of g s ≡ Some why) × IsToldOf log.now from to why f) }
    ensures memory { fault.now ≡ NoMemory → door.fault_of result ≡ None }
{
    match fault {
        StepFault::Led => Fault::DecidedHere(to),
        StepFault::Gap(position) => Fault::Gap(to, from, *position),
        StepFault::NotAccepted(entry, refusal) => {
            Fault::NotAccepted(*entry as u64, to, number_of(refusal) as u64)
        }
        StepFault::NotNew(name) => Fault::NotNew(*name as u64, to),
        StepFault::OtherLog => match said_log(alloc, log) {
            Ok(log) => Fault::OtherLog(log),
            Err(_) => Fault::Memory,
        },
        StepFault::Memory | StepFault::Dead => Fault::Memory,
    }
}

/// Takes the step from a position to another, whose record has these texts.
///
/// # Errors
/// Why it is not taken.
pub(crate) fn take_step(
    alloc: Global,
    desk: &mut Desk,
    log: &Log,
    from: u64,
    to: u64,
    texts: &[Vec<u8>],
    scratch: &mut Scratch,
) -> Result<(), Fault>
    ensures leads { Leads desk.old desk.new }
    ensures taken { OnOk result (IsFollowed log.now from (record_of (map (λ v. v.items) texts.now)) desk.old desk.new) }
    ensures fault { IfErr result (λ f. (d : Front) → IsDesk d desk.old → d.gate.dead ≡ false
        → IfSome (door.fault_of f) (IsTold log.now from to (record_of (map (λ v. v.items) texts.now)) d.gate)) }
{
    let lines = lines_of(alloc, texts)?;
    let followed = copied(alloc, log)?;
    match follow(alloc, desk, followed, from, &lines, scratch) {
        Ok(true) => Ok(()),
        Ok(false) => match first_wrong(alloc, log, texts, scratch) {
            Ok(line) => Err(Fault::NoEntry(line, to)),
            Err(_) => Err(Fault::Memory),
        },
        Err(fault) => Err(fault_of(alloc, log, from, to, &fault)),
    }
}
