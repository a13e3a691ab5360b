//! The desk's calls as the program makes them: what is behind each goes on from what was before it.
//!
//! So after each of them all holds that `browsers_are_told_their_views` of iv_desk says of runs (`runs_lead_on`).
ghost use Rattle.std.specs.Prelude.{◌≡◌, ◌++◌, ℕ, IfErr, IfOk, List, None, OnOk, drop, false, option_map, true};
ghost use Rattle.iv_rows.specs.RowLimit.{IsRowLimit};
ghost use Rattle.iv_arrivals.specs.Reads.{step_in};
ghost use Rattle.iv_clients.specs.Clients.{is_free};
ghost use Rattle.iv_clients.specs.Tokens.{Token as Holder};
ghost use Rattle.iv_records.specs.Journal.{journal_of};
ghost use Rattle.iv_gate.specs.Arriving.{fault_of};
ghost use Rattle.iv_gate.specs.Events.{IsWell, arrived, forgave, known, synced, ticked};
ghost use Rattle.iv_gate.specs.Gate as spec;
ghost use Rattle.iv_gateway.specs.Arriving.{IsFaultOf};
ghost use Rattle.iv_gateway.specs.Views.{IsHead};
ghost use Rattle.iv_gateway.specs.Waiting.{WaitsWithin};
ghost use Rattle.iv_peer.specs.Socket.{closed, passing, took};
ghost use Rattle.iv_desk.specs.Desks.{IsCalledOut, IsDesk, IsHeard};
ghost use Rattle.iv_desk.specs.Front.{Front, at_socket, begun, by_event, dismissed, left, may_tell, offered};
ghost use Rattle.iv_running.specs.Running.{IsBack, IsFollowed, IsNew, IsRunning, IsUntaken, Keeps, Leads, PassesTime, RunsLeadOn, Serves, most_told};

use crate::fault::Fault;
use iv_arrivals::{Log, Step, read_step};
use iv_clients::Token;
use iv_desk::laws::calls_lead_from_runs_to_runs;
use iv_desk::{Desk, Hearing};
use iv_engine::{Engine, Seed};
use iv_gate::laws::events_leave_their_marks;
use iv_gateway::{Gateway, Head, Journal, RestoreFault, StepFault};
use iv_journal::Line;
use json::Scratch;
use std::alloc::{AllocError, Global};

/// What comes of a desk to which a run has led is one to which a run has led.
pub fn runs_lead_on()
    ensures { RunsLeadOn }
{
    calls_lead_from_runs_to_runs();
}

/// Bytes that wait for the journal, at most, before one more socket is read in a round: 16 MiB.
const MOST_TOLD: u64 = 16_777_216;

/// A desk over an engine with nothing, with places for as many clients, whose journal says this at its head.
///
/// # Errors
/// `AllocError` if a growth of memory was refused.
pub fn new_desk(
    alloc: Global,
    seed: Seed,
    rows: u32,
    clients: u32,
    tokens: Vec<Token>,
    head: Head,
) -> Result<Desk, AllocError>
    requires head { (h : spec.Head) × IsHead h head }
    requires rows { IsRowLimit rows }
    ensures { IfOk result (λ x. (h : spec.Head) → IsHead h head → IsNew rows tokens.items h x) }
{
    let engine = Engine::with_seed(alloc, seed, rows)?;
    let gateway = Gateway::new(alloc, engine, tokens, clients, head)?;
    match Desk::new(alloc, gateway, clients) {
        Ok(desk) => Ok(desk),
        Err(error) => Err(error),
    }
}

/// Brings a new desk to where a journal leads, of which it is given the lines of whole records.
///
/// # Errors
/// As of the desk's `restore`.
pub fn restore(desk: &mut Desk, journal: &[Line<'_>]) -> Result<(), RestoreFault>
    ensures runs { OnOk result ((cap : ℕ) (tokens : List Holder) (head : spec.Head) → IsNew cap tokens head desk.old → IsRunning cap desk.new) }
    ensures back { OnOk result ((cap : ℕ) (tokens : List Holder) (head : spec.Head) → IsNew cap tokens head desk.old
        → IsBack cap tokens head journal.now desk.new) }
{
    calls_lead_from_runs_to_runs();
    match desk.restore(journal) {
        Ok(()) => Ok(()),
        Err(fault) => Err(fault),
    }
}

/// A connection begins at a number, if none has it.
pub fn accept(desk: &mut Desk, at: u32) -> bool
    ensures serves { Serves desk.old desk.new }
    ensures front { (d : Front) → IsDesk d desk.old → IsDesk (begun at d) desk.new }
    ensures answer { (d : Front) → IsDesk d desk.old → d.gate.dead ≡ false → result ≡ is_free at d.sockets }
{
    desk.accept(at)
}

/// Whether one more socket may be read in this round.
pub fn may_read(desk: &Desk) -> bool
    ensures { (d : Front) → IsDesk d desk.now → d.gate.dead ≡ false → result ≡ true → WaitsWithin d.gate most_told }
{
    desk.waiting() <= MOST_TOLD
}

/// Takes in bytes that were read at a number, and hears all that may be heard now.
///
/// # Errors
/// As of the desk's `read`.
pub fn hear(desk: &mut Desk, at: u32, bytes: &[u8]) -> Result<Hearing, Fault>
    ensures serves { Serves desk.old desk.new }
    ensures heard { IfOk result (λ hearing. (d : Front) → IsDesk d desk.old → IsHeard (at_socket at (took bytes.now) d) at hearing desk.new) }
{
    calls_lead_from_runs_to_runs();
    events_leave_their_marks();
    match desk.read(at, bytes) {
        Ok(hearing) => Ok(hearing),
        Err(fault) => Err(Fault::from(fault)),
    }
}

/// Hears on at a number that was held.
///
/// # Errors
/// As of `hear`.
pub fn hear_on(desk: &mut Desk, at: u32) -> Result<Hearing, Fault>
    ensures serves { Serves desk.old desk.new }
    ensures heard { IfOk result (λ hearing. (d : Front) → IsDesk d desk.old → IsHeard d at hearing desk.new) }
{
    calls_lead_from_runs_to_runs();
    events_leave_their_marks();
    match desk.resume(at) {
        Ok(hearing) => Ok(hearing),
        Err(fault) => Err(Fault::from(fault)),
    }
}

/// The connection of a number is gone, and its client with it.
///
/// # Errors
/// As of `hear`.
pub fn leave(desk: &mut Desk, at: u32) -> Result<(), Fault>
    ensures serves { Serves desk.old desk.new }
    ensures front { OnOk result ((d : Front) → IsDesk d desk.old → IsDesk (left at d) desk.new) }
{
    events_leave_their_marks();
    match desk.leave(at) {
        Ok(()) => Ok(()),
        Err(fault) => Err(Fault::from(fault)),
    }
}

/// Takes a step of the log that is followed. Whether it was not taken before.
fn take(desk: &mut Desk, step: Step) -> Result<bool, StepFault>
    requires { IsWell (arrived step) }
    ensures leads { Leads desk.old desk.new }
    ensures front { OnOk result ((d : Front) → IsDesk d desk.old → IsDesk (by_event (arrived step) d) desk.new) }
    ensures taken { OnOk result ((d : Front) → IsDesk d desk.old → d.gate.dead ≡ false → fault_of d.gate step ≡ None) }
    ensures fault { IfErr result (λ f. (d : Front) → IsDesk d desk.old → d.gate.dead ≡ false → IsFaultOf d.gate step f) }
{
    events_leave_their_marks();
    match desk.take_step(step) {
        Ok(is) => Ok(is),
        Err(fault) => Err(fault),
    }
}

/// Takes the step of the log that is followed, from a position, whose record has these lines. Whether they are such a record.
///
/// # Errors
/// As of the desk's `take_step`.
pub fn follow(
    alloc: Global,
    desk: &mut Desk,
    log: Log,
    from: u64,
    lines: &[Line<'_>],
    scratch: &mut Scratch,
) -> Result<bool, StepFault>
    ensures leads { Leads desk.old desk.new }
    ensures taken { IfOk result (λ is. is ≡ true → IsFollowed log from lines.now desk.old desk.new) }
    ensures none { IfOk result (λ is. is ≡ false → (step_in log from lines.now ≡ None) × (desk.new ≡ desk.old)) }
    ensures fault { IfErr result (λ f. (d : Front) → IsDesk d desk.old → d.gate.dead ≡ false → IsUntaken log from lines.now d.gate f) }
{
    match read_step(alloc, log, from, lines, scratch) {
        Err(_) => Err(StepFault::Memory),
        Ok(None) => Ok(false),
        Ok(Some(step)) => match take(desk, step) {
            Ok(_) => Ok(true),
            Err(fault) => Err(fault),
        },
    }
}

/// Has the journal keep what is pending there, and then offers each peer what its client may be sent.
///
/// # Errors
/// `Journal` if the journal fails; else as of `hear`.
pub fn settle<J: Journal>(desk: &mut Desk, journal: &mut J) -> Result<(), Fault>
    ensures keeps { Keeps desk.old desk.new }
    ensures kept { OnOk result ((d : Front) → IsDesk d desk.old → d.gate.dead ≡ false
        → J.kept journal.new ≡ option_map (λ ls. ls ++ journal_of (drop d.gate.kept d.gate.entries)) (J.kept journal.old)) }
    ensures front { OnOk result ((d : Front) → IsDesk d desk.old → IsCalledOut offered (by_event synced d) desk.new) }
{
    calls_lead_from_runs_to_runs();
    events_leave_their_marks();
    match desk.settle(journal) {
        Ok(()) => Ok(()),
        Err(fault) => Err(Fault::from(fault)),
    }
}

/// These tokens are known from now on. Who came by another is closed.
///
/// # Errors
/// As of `hear`.
pub fn know(desk: &mut Desk, tokens: Vec<Token>) -> Result<(), Fault>
    ensures serves { Serves desk.old desk.new }
    ensures front { OnOk result ((d : Front) → IsDesk d desk.old → IsCalledOut dismissed (by_event (known tokens.items) d) desk.new) }
{
    calls_lead_from_runs_to_runs();
    events_leave_their_marks();
    match desk.know(tokens) {
        Ok(()) => Ok(()),
        Err(fault) => Err(Fault::from(fault)),
    }
}

/// Tells all clients that the line is alive.
///
/// # Errors
/// As of `hear`.
pub fn tick(desk: &mut Desk) -> Result<(), Fault>
    ensures passes { PassesTime desk.old desk.new }
    ensures front { OnOk result ((d : Front) → IsDesk d desk.old → IsDesk (by_event ticked d) desk.new) }
{
    events_leave_their_marks();
    match desk.tick() {
        Ok(()) => Ok(()),
        Err(fault) => Err(Fault::from(fault)),
    }
}

/// Forgives names that were refused.
pub fn forgive(desk: &mut Desk)
    ensures passes { PassesTime desk.old desk.new }
    ensures front { (d : Front) → IsDesk d desk.old → IsDesk (by_event forgave d) desk.new }
{
    events_leave_their_marks();
    desk.forgive();
}

/// Closes the connection of a number by a code and words that tell why.
///
/// # Errors
/// As of `hear`.
pub fn close(desk: &mut Desk, at: u32, code: u16, words: &[u8]) -> Result<(), Fault>
    requires { may_tell code words.now ≡ true }
    ensures serves { Serves desk.old desk.new }
    ensures front { OnOk result ((d : Front) → IsDesk d desk.old → IsDesk (at_socket at (closed code words.now) d) desk.new) }
{
    events_leave_their_marks();
    match desk.close(at, code, words) {
        Ok(()) => Ok(()),
        Err(fault) => Err(Fault::from(fault)),
    }
}

/// The first bytes of what was pending at a number were sent, as many as that.
pub fn pass(desk: &mut Desk, at: u32, count: usize)
    ensures serves { Serves desk.old desk.new }
    ensures front { (d : Front) → IsDesk d desk.old → IsDesk (at_socket at (passing count) d) desk.new }
{
    desk.sent(at, count);
}
