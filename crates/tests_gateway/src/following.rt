//! Steps of a log, as conversations have them: a gateway that follows the log takes them, or tells why not.
ghost use Rattle.std.specs.Prelude.{IfOk, IfSome};
ghost use Rattle.iv_gate.specs.Events.{IsWell, arrived};

use crate::out::Out;
use iv_arrivals::{Log, Step, read_step};
use iv_command::{Refusal, Reply};
use iv_gateway::{Gateway, StepFault};
use iv_journal::Line;
use iv_message::push_replied;
use json::Scratch;
use std::alloc::{AllocError, Global};

/// The epoch of each log.
const EPOCH: &str = "fedcba9876543210fedcba9876543210";

/// The log of a name.
pub fn log_of(alloc: Global, name: &str) -> Result<Log, AllocError> {
    Ok(Log {
        name: String::from_str(alloc, name)?,
        epoch: String::from_str(alloc, EPOCH)?,
    })
}

/// The step of texts between two positions.
fn step_of(
    alloc: Global,
    name: &str,
    from: u64,
    to: &str,
    texts: &str,
) -> Result<Option<Step>, AllocError>
    ensures { IfOk result (λ o. IfSome o (λ s. IsWell (arrived s))) }
{
    let position = format!(in alloc; "\"step\":{to}}}")?;
    let mut lines = Vec::new(alloc);
    for text in texts.split('|') {
        lines.push(Line {
            is_last: false,
            text: text.as_bytes(),
        })?;
    }
    lines.push(Line {
        is_last: true,
        text: position.as_bytes(),
    })?;
    let log = log_of(alloc, name)?;
    let mut scratch = Scratch::new(alloc);
    let step = read_step(alloc, log, from, &lines, &mut scratch)?;
    Ok(step)
}

/// What a client would be told of a refusal.
fn refusal_text(alloc: Global, refusal: Refusal) -> Result<Vec<u8>, AllocError> {
    let mut text = Vec::new(alloc);
    push_replied(alloc, &mut text, &None, &Reply::Refused(refusal))?;
    Ok(text)
}

/// Adds a refusal, after the place of its request.
fn put_refusal(place: usize, refusal: Refusal, out: &mut Out) {
    out.put("refused at ");
    out.put_number(place, " ");
    match refusal_text(out.alloc(), refusal) {
        Ok(text) => out.put(str::from_utf8(&text).unwrap_or("no text")),
        Err(_) => out.refuse(),
    }
}

/// Adds why a step was not taken.
fn put_fault(fault: StepFault, out: &mut Out) {
    match fault {
        StepFault::Led => out.put("led here\n"),
        StepFault::OtherLog => out.put("another log\n"),
        StepFault::Gap(position) => out.put_place("gap at ", position as usize),
        StepFault::NotAccepted(place, refusal) => put_refusal(place, refusal, out),
        StepFault::NotNew(place) => out.put_place("known name at ", place),
        StepFault::Memory => out.refuse(),
        StepFault::Dead => out.put("dead\n"),
    }
}

/// Has the gateway take a step, and adds what comes of that.
fn take(gateway: &mut Gateway, step: Step, out: &mut Out)
    requires { IsWell (arrived step) }
{
    match gateway.take_step(step) {
        Ok(true) => {}
        Ok(false) => out.put("taken before\n"),
        Err(fault) => put_fault(fault, out),
    }
}

/// The first word of a text, and the rest.
fn word_of(text: &str) -> (&str, &str) {
    text.split_once(' ').unwrap_or((text, ""))
}

/// Has the gateway take the step that a text gives: the log's name, two positions, and the texts of the step, with `|` between them.
pub fn step(gateway: &mut Gateway, text: &str, out: &mut Out) {
    let (name, rest) = word_of(text);
    let (from, rest) = word_of(rest);
    let (to, texts) = word_of(rest);
    match step_of(
        out.alloc(),
        name,
        from.parse::<u64>().unwrap_or(0),
        to,
        texts,
    ) {
        Ok(Some(step)) => take(gateway, step, out),
        Ok(None) => out.put("no step\n"),
        Err(_) => out.refuse(),
    }
}

/// Adds where the log stands, and up to where the journal has it on disk.
pub fn put_position(gateway: &Gateway, out: &mut Out) {
    out.put("at ");
    out.put_number(gateway.position() as usize, ", on disk to ");
    out.put_number(gateway.settled_at() as usize, "\n");
}
