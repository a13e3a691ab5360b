//! `hear_listed`: has a line of the machine told to those who follow its feed.
ghost use Rattle.std.specs.Prelude.{◌≡◌, ◌<◌, ◌+◌, ◌*◌, ℕ, Some, length, IfOk, OnOk, option_map, slice_get};
ghost use Rattle.iv_command.specs.Views.{line_of};
ghost use Rattle.iv_clients.specs.Clients.{Sub, at_client};
ghost use Rattle.iv_clients.specs.Kept.{holding, holding_all};
ghost use Rattle.iv_hall.specs.Hearing.{feed_ended, feed_told, hearing_for, text_as, told_for};
ghost use Rattle.iv_hall.specs.Listing.{walked};
ghost use Rattle.iv_hall.specs.Saying.{IsSaying};
ghost use Rattle.iv_hall.specs.Waiting.{AreCounted, CountsOn, bytes_of, bytes_waiting};

use iv_clients::Client;
use iv_command::Line;
use iv_message::{push_changed, push_over};
use std::alloc::{AllocError, Global};

/// The text of a line for one of a client's own numbers, and the bytes that wait for the journal, with those of the line as it was told.
#[derive(Drop)]
struct Said {
    own: u64,
    text: Vec<u8>,
    waiting: u64,
}

/// The bytes that wait for the journal, if as many more of a length are told. It stays the greatest number once it is that.
pub(crate) fn raised(waiting: u64, texts: usize, length: usize) -> u64
    ensures { (bytes : ℕ) → AreCounted bytes waiting → AreCounted (bytes + texts * length) result }
{
    waiting.saturating_add((texts as u64).saturating_mul(length as u64))
}

/// The text of a line for an own number; of a reply none.
fn text_for(alloc: Global, line: &Line, rel: &str, own: u64) -> Result<Vec<u8>, AllocError>
    ensures { IfOk result (λ text. text.items ≡ text_as rel.now (line_of line.now) own) }
{
    let mut text = Vec::new(alloc);
    match line {
        Line::Reply { .. } => {}
        Line::Change { rows, .. } => push_changed(&mut text, own, rows.text())?,
        Line::Ended { cause, rows, .. } => {
            push_over(alloc, &mut text, own, rel, *cause, rows.text())?
        }
    }
    Ok(text)
}

impl Said {
    /// The text of a line, as the number 1 has it.
    fn new(alloc: Global, line: &Line, rel: &str, waiting: u64) -> Result<Said, AllocError>
        ensures saying { IfOk result (IsSaying rel.now (line_of line.now)) }
        ensures counted { IfOk result (λ said. said.waiting ≡ waiting) }
    {
        let text = text_for(alloc, line, rel, 1)?;
        Ok(Said {
            own: 1,
            text,
            waiting,
        })
    }

    /// The text, as a number has it. It is written again only if the number is another.
    fn turn(&mut self, alloc: Global, line: &Line, rel: &str, own: u64) -> Result<(), AllocError>
        requires { IsSaying rel.now (line_of line.now) self.old }
        ensures own { OnOk result (self.new.own ≡ own) }
        ensures saying { OnOk result (IsSaying rel.now (line_of line.now) self.new) }
        ensures counted { OnOk result (self.new.waiting ≡ self.old.waiting) }
    {
        if self.own == own {
            return Ok(());
        }
        self.text = text_for(alloc, line, rel, own)?;
        self.own = own;
        Ok(())
    }

    /// Has a client told the text.
    fn tell(&mut self, client: &mut Client) -> Result<(), AllocError>
        ensures told { OnOk result (client.new ≡ holding self.old.text.items client.old) }
        ensures same { OnOk result ((self.new.own ≡ self.old.own) × (self.new.text.items ≡ self.old.text.items)) }
        ensures counted { OnOk result (CountsOn (length client.old.unsynced) self.old.waiting (length client.new.unsynced) self.new.waiting) }
    {
        client.hold(&self.text)?;
        self.waiting = raised(self.waiting, 1, self.text.len());
        Ok(())
    }
}

/// Has a line told for the client's number at a place, if it follows the feed.
fn hear_at(
    alloc: Global,
    client: &mut Client,
    at: usize,
    feed: u64,
    line: &Line,
    rel: &str,
    said: &mut Said,
) -> Result<(), AllocError>
    requires place { at < length client.old.subs }
    requires saying { IsSaying rel.now (line_of line.now) said.old }
    requires feed { feed_told (line_of line.now) ≡ Some feed }
    ensures told { OnOk result ((s : Sub) → slice_get client.old.subs at ≡ Some s
        → client.new ≡ holding_all (told_for feed rel.now (line_of line.now) s) client.old) }
    ensures saying { OnOk result (IsSaying rel.now (line_of line.now) said.new) }
    ensures counted { OnOk result (CountsOn (length client.old.unsynced) said.old.waiting (length client.new.unsynced) said.new.waiting) }
{
    let sub = &client.subs()[at];
    if feed != sub.feed() {
        return Ok(());
    }
    let own = sub.own();
    said.turn(alloc, line, rel, own)?;
    said.tell(client)?;
    Ok(())
}

/// Has a line told once for each of the client's numbers that follows the feed.
fn hear(
    alloc: Global,
    client: &mut Client,
    feed: u64,
    line: &Line,
    rel: &str,
    said: &mut Said,
) -> Result<(), AllocError>
    requires saying { IsSaying rel.now (line_of line.now) said.old }
    requires feed { feed_told (line_of line.now) ≡ Some feed }
    ensures told { OnOk result (client.new ≡ hearing_for feed rel.now (line_of line.now) client.old) }
    ensures saying { OnOk result (IsSaying rel.now (line_of line.now) said.new) }
    ensures counted { OnOk result (CountsOn (length client.old.unsynced) said.old.waiting (length client.new.unsynced) said.new.waiting) }
{
    for at in 0..client.subs().len() {
        hear_at(alloc, client, at, feed, line, rel, said)?;
    }
    Ok(())
}

fn hear_slot(
    alloc: Global,
    slot: &mut Option<Client>,
    feed: u64,
    line: &Line,
    rel: &str,
    said: &mut Said,
) -> Result<(), AllocError>
    requires saying { IsSaying rel.now (line_of line.now) said.old }
    requires feed { feed_told (line_of line.now) ≡ Some feed }
    ensures told { OnOk result (slot.new ≡ option_map (hearing_for feed rel.now (line_of line.now)) slot.old) }
    ensures saying { OnOk result (IsSaying rel.now (line_of line.now) said.new) }
    ensures counted { OnOk result (CountsOn (bytes_of slot.old) said.old.waiting (bytes_of slot.new) said.new.waiting) }
{
    match slot {
        None => Ok(()),
        Some(client) => {
            hear(alloc, client, feed, line, rel, said)?;
            Ok(())
        }
    }
}

/// Has a client told what is said, if it follows the feed.
fn hear_client(
    alloc: Global,
    clients: &mut Vec<Option<Client>>,
    client: u32,
    feed: u64,
    line: &Line,
    rel: &str,
    said: &mut Said,
) -> Result<(), AllocError>
    requires saying { IsSaying rel.now (line_of line.now) said.old }
    requires feed { feed_told (line_of line.now) ≡ Some feed }
    ensures told { OnOk result (clients.new.items ≡ at_client client (hearing_for feed rel.now (line_of line.now)) clients.old.items) }
    ensures saying { OnOk result (IsSaying rel.now (line_of line.now) said.new) }
    ensures counted { OnOk result (CountsOn (bytes_waiting clients.old.items) said.old.waiting (bytes_waiting clients.new.items) said.new.waiting) }
{
    match clients.get_mut(client as usize) {
        None => Ok(()),
        Some(slot) => {
            hear_slot(alloc, slot, feed, line, rel, said)?;
            Ok(())
        }
    }
}

/// Has those of the list who follow a feed told what is said. What is counted then of the bytes that wait for the journal.
fn hear_said(
    alloc: Global,
    clients: &mut Vec<Option<Client>>,
    numbers: &[u32],
    feed: u64,
    line: &Line,
    rel: &str,
    said: Said,
) -> Result<u64, AllocError>
    requires saying { IsSaying rel.now (line_of line.now) said }
    requires feed { feed_told (line_of line.now) ≡ Some feed }
    ensures told { OnOk result (clients.new.items ≡ walked (hearing_for feed rel.now (line_of line.now)) numbers.now clients.old.items) }
    ensures counted { IfOk result (λ waiting. CountsOn (bytes_waiting clients.old.items) said.waiting (bytes_waiting clients.new.items) waiting) }
{
    let mut said = said;
    for number in numbers {
        hear_client(alloc, clients, *number, feed, line, rel, &mut said)?;
    }
    Ok(said.waiting)
}

/// Has those of the list who follow a line's feed told the line, if it is of this feed, and the feed reads this relation. What is counted
/// then of the bytes that wait for the journal.
///
/// # Errors
/// `AllocError` if a growth of memory was refused.
pub(crate) fn hear_listed(
    alloc: Global,
    clients: &mut Vec<Option<Client>>,
    numbers: &[u32],
    feed: u64,
    line: &Line,
    rel: &str,
    waiting: u64,
) -> Result<u64, AllocError>
    requires feed { feed_told (line_of line.now) ≡ Some feed }
    ensures told { OnOk result (clients.new.items ≡ walked (hearing_for feed rel.now (line_of line.now)) numbers.now clients.old.items) }
    ensures counted { IfOk result (λ counted. CountsOn (bytes_waiting clients.old.items) waiting (bytes_waiting clients.new.items) counted) }
{
    let said = Said::new(alloc, line, rel, waiting)?;
    let counted = hear_said(alloc, clients, numbers, feed, line, rel, said)?;
    Ok(counted)
}

/// The feed that a line is of.
pub(crate) fn feed_told(line: &Line) -> Option<u64>
    ensures { result ≡ feed_told (line_of line.now) }
{
    match line {
        Line::Reply { .. } => None,
        Line::Change { sub, .. } => Some(*sub),
        Line::Ended { sub, .. } => Some(*sub),
    }
}

/// The feed that a line ends.
pub(crate) fn feed_ended(line: &Line) -> Option<u64>
    ensures { result ≡ feed_ended (line_of line.now) }
{
    match line {
        Line::Ended { sub, .. } => Some(*sub),
        _ => None,
    }
}
