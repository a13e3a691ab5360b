//! What a round reads: heads of requests, and what clients say, at most so much of each, until much is told.
ghost use Rattle.std.specs.Prelude.{◌≡◌, ◌++◌, OnOk, false};
ghost use Rattle.iv_desk.specs.Front.{Front};
ghost use Rattle.iv_desk.specs.Desks.{IsDesk};
ghost use Rattle.iv_running.specs.Running.{Serves};
ghost use Rattle.iv_server.specs.Sharing.{IsShared, last_end, user_at, waiting_lines};

use crate::server::{COMING, Kind, Server};
use crate::socket::{Got, Stage, listen_at, read_at, read_head_at};
use iv_audit::Share;
use iv_desk::{Desk, Hearing};
use iv_host::{ADMIN, FileJournal, Why, raise, refusal};
use iv_pages::{Refusal, Wish, asked};
use iv_running::Fault;
use iv_running::calls::{accept, close, hear, hear_on, may_read};
use std::mem;

/// Reads of a socket in a round, at most: 65,536 bytes.
const READS: u32 = 4;

/// Milliseconds for an answer to be taken.
const ANSWERING: u64 = 60_000;

/// Bytes of answers that wait to be sent, at most, before one more is made.
const MOST_UNSENT: u64 = 67_108_864;

/// Bytes of an answer that is made whatever waits, as of `/healthz`.
const SHORT: usize = 4_096;

/// Bytes of who has presented no token that is known, at most, after the head of its request.
const MOST_UNKNOWN: usize = 65_536;

/// Clients by one token, at most.
const MOST_BY_TOKEN: usize = 64;

/// Numbers that are kept for administrators.
const KEPT: usize = 16;

/// The end of the last share.
fn last_end(shares: &[Share]) -> usize
    ensures { result ≡ last_end shares.now }
{
    match shares.last() {
        Some(share) => share.end,
        None => 0,
    }
}

/// Who holds the token by which the client of a number came in: no text if that is not said.
fn user_of<'a>(desk: &'a Desk, at: u32) -> &'a str
    ensures { (d : Front) → IsDesk d desk.now → d.gate.dead ≡ false → result.now ≡ user_at d at }
{
    match desk.user_of(at) {
        Some(user) => user,
        None => "",
    }
}

impl Server {
    /// Reads of the head of a request. Nothing happens to the desk while nobody may come in.
    fn read_head(
        &mut self,
        rt: &HostRuntime,
        desk: &mut Desk,
        journal: &FileJournal,
        at: u32,
    ) -> Result<(), Fault>
        ensures serves { Serves desk.old desk.new }
        ensures shut { self.old.open ≡ false → desk.new ≡ desk.old }
    {
        match read_head_at(&mut self.sockets, at)? {
            Got::Nothing => Ok(()),
            Got::End => self.go(at, Why::Closed),
            Got::Bytes(_) => self.ask(rt, desk, journal, at),
        }
    }

    /// Does what the head of a request asks for, if it is whole. Nothing happens to the desk while nobody may come in.
    fn ask(
        &mut self,
        rt: &HostRuntime,
        desk: &mut Desk,
        journal: &FileJournal,
        at: u32,
    ) -> Result<(), Fault>
        ensures serves { Serves desk.old desk.new }
        ensures shut { self.old.open ≡ false → desk.new ≡ desk.old }
    {
        let may_come = self.open;
        let head = self.head_of(at);
        let only_head = head.starts_with(b"HEAD ");
        match asked(&head) {
            Wish::More => {
                self.keep_head(at, head);
                Ok(())
            }
            Wish::Upgrade => {
                if may_come {
                    return self.upgrade(desk, at, &head);
                }
                let answer = refusal(rt, Refusal::Unavailable, false)?;
                self.answer(rt, at, answer, false)
            }
            Wish::Page(ask) => {
                let answer = self.page(rt, desk, journal, &head, &ask)?;
                self.answer(rt, at, answer, only_head)
            }
            Wish::Refused(why) => {
                let answer = refusal(rt, why, only_head)?;
                self.answer(rt, at, answer, only_head)
            }
        }
    }

    /// What was read of the head at a number, which has it no more.
    fn head_of(&mut self, at: u32) -> Vec<u8> {
        match self.socket(at) {
            Some(socket) => socket.take_head(),
            None => Vec::new(self.alloc),
        }
    }

    /// More is to come of a head.
    fn keep_head(&mut self, at: u32, head: Vec<u8>) {
        if let Some(socket) = self.socket(at) {
            socket.stage = Stage::Head(head);
        }
    }

    /// What is presented at a number may be a web token, if there is a secret.
    fn send_scout(&mut self, at: u32) {
        let scout = self.admission.scout();
        if let Some(socket) = self.socket(at) {
            socket.scout = scout;
        }
    }

    /// The desk has the connection of a number from now on, and hears what it has said so far.
    fn upgrade(&mut self, desk: &mut Desk, at: u32, head: &[u8]) -> Result<(), Fault>
        ensures { Serves desk.old desk.new }
    {
        if !accept(desk, at) {
            return Err(Fault::Desk);
        }
        if let Some(socket) = self.socket(at) {
            socket.stage = Stage::Desk;
        }
        self.send_scout(at);
        listen_at(&mut self.sockets, &mut self.admission, desk, at, head)?;
        let hearing = hear(desk, at, head)?;
        self.heed(desk, at, hearing)?;
        self.note_end(desk, at, false);
        self.asked.push(at)?;
        Ok(())
    }

    /// Bytes of answers that were not sent.
    fn unsent(&self) -> u64 {
        let mut sum: u64 = 0;
        for slot in self.sockets.iter() {
            if let Some(socket) = slot {
                if let Stage::Answer(bytes, sent) = &socket.stage {
                    raise(&mut sum, bytes.len().saturating_sub(*sent) as u64);
                }
            }
        }
        sum
    }

    /// A request is answered by these bytes, or told that too much waits for others, without contents if the head of an answer was asked
    /// for alone.
    fn answer(
        &mut self,
        rt: &HostRuntime,
        at: u32,
        bytes: Vec<u8>,
        only_head: bool,
    ) -> Result<(), Fault> {
        raise(&mut self.counts.asked, 1);
        let answer = if bytes.len() > SHORT && self.unsent() > MOST_UNSENT {
            refusal(rt, Refusal::Unavailable, only_head)?
        } else {
            bytes
        };
        let until = self.now.saturating_add(ANSWERING);
        if let Some(socket) = self.socket(at) {
            socket.stage = Stage::Answer(answer, 0);
            socket.until = Some(until);
        }
        self.asked.push(at)?;
        Ok(())
    }

    /// Whether what a number says is held from now on.
    fn hold(&mut self, at: u32, is_held: bool)
        ensures { self.new.shares ≡ self.old.shares }
    {
        if let Some(Some(socket)) = self.sockets.get_mut(at as usize) {
            socket.unheard = is_held;
        }
    }

    /// What the desk says of bytes that it was given at a number. The entries that these made are of who holds its token.
    fn heed(&mut self, desk: &Desk, at: u32, hearing: Hearing) -> Result<(), Fault>
        ensures { OnOk result ((d : Front) → IsDesk d desk.now → d.gate.dead ≡ false
            → IsShared (waiting_lines d) (user_at d at) self.old.shares.items self.new.shares.items) }
    {
        self.hold(at, hearing == Hearing::Held);
        self.share(desk, at)
    }

    /// Bytes of a number were heard. If it is over now, and was not before, they have ended it.
    fn note_end(&mut self, desk: &Desk, at: u32, was_over: bool) {
        if was_over || !desk.is_over(at) {
            return;
        }
        if let Some(socket) = self.socket(at) {
            socket.ended = true;
        }
    }

    /// The entries that were made since this was last called were made at a number, by who holds its token.
    fn share(&mut self, desk: &Desk, at: u32) -> Result<(), Fault>
        ensures { OnOk result ((d : Front) → IsDesk d desk.now → d.gate.dead ≡ false
            → IsShared (waiting_lines d) (user_at d at) self.old.shares.items self.new.shares.items) }
    {
        let end = desk.entered().len();
        if end == last_end(&self.shares) {
            return Ok(());
        }
        let holder = String::from_str(self.alloc, user_of(desk, at))?;
        self.push_share(end, holder)?;
        Ok(())
    }

    /// Hears on at a number that was held. Whether it may be read.
    fn resume(&mut self, desk: &mut Desk, at: u32) -> Result<bool, Fault>
        ensures { Serves desk.old desk.new }
    {
        let Some(socket) = self.socket(at) else {
            return Ok(false);
        };
        if !socket.unheard {
            return Ok(!desk.is_over(at));
        }
        let was_over = desk.is_over(at);
        let hearing = hear_on(desk, at)?;
        self.heed(desk, at, hearing)?;
        self.note_end(desk, at, was_over);
        Ok(hearing == Hearing::All)
    }

    /// Reads once what a client says. Whether it may be read on.
    fn read_once(&mut self, desk: &mut Desk, at: u32) -> Result<bool, Fault>
        ensures { Serves desk.old desk.new }
    {
        let was_over = desk.is_over(at);
        let (got, hearing) = read_at(&mut self.sockets, &mut self.admission, desk, at)?;
        match got {
            Got::Nothing => {
                if let Some(socket) = self.socket(at) {
                    socket.readable = false;
                }
                Ok(false)
            }
            Got::End => {
                self.go(at, Why::Closed)?;
                Ok(false)
            }
            Got::Bytes(count) => {
                raise(&mut self.counts.read, count as u64);
                self.heed(desk, at, hearing)?;
                self.note_end(desk, at, was_over);
                if self.says_much(at, count) {
                    self.go(at, Why::Late)?;
                    return Ok(false);
                }
                Ok(hearing == Hearing::All)
            }
        }
    }

    /// So many bytes more were read at a number. Whether it has said too much for who has presented no token that is known.
    fn says_much(&mut self, at: u32, count: usize) -> bool {
        match self.socket(at) {
            Some(socket) if !socket.came => {
                socket.said = socket.said.saturating_add(count);
                socket.said > MOST_UNKNOWN
            }
            _ => false,
        }
    }

    /// Reads what a client says, if it is heard.
    fn read_desk(&mut self, desk: &mut Desk, at: u32) -> Result<(), Fault>
        ensures { Serves desk.old desk.new }
    {
        self.asked.push(at)?;
        if !self.resume(desk, at)? {
            return Ok(());
        }
        'reads: for _ in 0..READS {
            if !self.read_once(desk, at)? {
                return Ok(());
            }
        }
        Ok(())
    }

    /// Reads what nobody looks at.
    fn read_ending(&mut self, at: u32) -> Result<(), Fault> {
        let Some(socket) = self.socket(at) else {
            return Ok(());
        };
        match socket.read_nothing() {
            Got::Nothing => socket.readable = false,
            Got::End => self.go(at, Why::Answered)?,
            Got::Bytes(_) => {}
        }
        Ok(())
    }

    /// Who has presented a token that is known has no time limit, if there is space.
    fn come(&mut self, rt: &HostRuntime, desk: &mut Desk, at: u32) -> Result<(), Fault>
        ensures { Serves desk.old desk.new }
    {
        if self.kind(at) != Kind::Desk {
            return Ok(());
        }
        let now = self.now;
        let Some(socket) = self.socket(at) else {
            return Ok(());
        };
        if socket.came {
            return Ok(());
        }
        let address = socket.address;
        let Some(role) = desk.role_of(at) else {
            if desk.is_over(at) {
                self.say_refused(rt, at, address);
            }
            return Ok(());
        };
        socket.came = true;
        socket.until = None;
        raise(&mut self.counts.came, 1);
        self.say_came(rt, desk, at, address, role);
        if self.has_room(desk, at, role)? {
            return Ok(());
        }
        if self.log.may_say(rt, now) {
            let _ = eprintln!(rt; "gateway: {address} goes: too many by this token, or in all");
        }
        close(desk, at, 1013, b"Too many connections.")
    }

    /// One more client is there. Whether it may stay.
    fn has_room(&mut self, desk: &Desk, at: u32, role: &str) -> Result<bool, Fault> {
        self.inside = self.inside.saturating_add(1);
        let Some(digest) = desk.digest_of(at) else {
            return Ok(true);
        };
        let count = self.admission.come(digest)?;
        let most = self.sockets.len();
        if role != ADMIN && most > 4 * KEPT && self.inside.saturating_add(KEPT) > most {
            return Ok(false);
        }
        Ok(count <= MOST_BY_TOKEN)
    }

    /// Whether a number is to be read in the next round, too. One with more to read makes that round come at once; one that is over is
    /// read no more.
    fn goes_on(&mut self, desk: &Desk, at: u32) -> bool {
        let Some(socket) = self.socket(at) else {
            return false;
        };
        let is_read = match &socket.stage {
            Stage::Head(_) | Stage::Ending => true,
            Stage::Desk => !socket.unheard && !desk.is_over(at),
            Stage::Answer(_, _) => false,
        };
        let is_held = socket.unheard;
        let has_more = is_read && socket.readable;
        if has_more {
            self.again = true;
        }
        has_more || is_held
    }

    /// Reads at a number, as far as its connection is.
    fn read_kind(
        &mut self,
        rt: &HostRuntime,
        desk: &mut Desk,
        journal: &FileJournal,
        at: u32,
    ) -> Result<(), Fault>
        ensures { Serves desk.old desk.new }
    {
        match self.kind(at) {
            Kind::Head => self.read_head(rt, desk, journal, at),
            Kind::Desk => self.read_desk(desk, at),
            Kind::Ending => self.read_ending(at),
            Kind::Answer | Kind::Nobody => Ok(()),
        }
    }

    /// Reads at a number that was listed.
    fn read(
        &mut self,
        rt: &HostRuntime,
        desk: &mut Desk,
        journal: &FileJournal,
        at: u32,
    ) -> Result<(), Fault>
        ensures { Serves desk.old desk.new }
    {
        if let Some(socket) = self.socket(at) {
            socket.listed = false;
        }
        self.read_kind(rt, desk, journal, at)?;
        self.come(rt, desk, at)?;
        if self.goes_on(desk, at) {
            return self.list(at);
        }
        Ok(())
    }

    /// A number is not read in this round. Who has to be further by a time has no less of it then than one who has just come.
    fn put_off(&mut self, at: u32) {
        let until = self.now.saturating_add(COMING);
        if let Some(socket) = self.socket(at) {
            socket.until = socket.until.map(|time| time.max(until));
        }
    }

    /// These numbers are the first that are read in the next round, which comes at once.
    fn read_first(&mut self, late: Vec<u32>) -> Result<(), Fault>
        ensures { OnOk result (self.new.to_read.items ≡ late.items ++ self.old.to_read.items) }
    {
        if late.is_empty() {
            return Ok(());
        }
        self.again = true;
        let listed = mem::replace(&mut self.to_read, late);
        self.to_read.extend_from_slice(&listed)?;
        Ok(())
    }

    /// Reads those that are listed, in their order, until too much waits for the journal. The others come first in the next round, so
    /// nobody waits for ever.
    pub(crate) fn read_all(
        &mut self,
        rt: &HostRuntime,
        desk: &mut Desk,
        journal: &FileJournal,
    ) -> Result<(), Fault>
        ensures { Serves desk.old desk.new }
    {
        let listed = mem::replace(&mut self.to_read, Vec::new(self.alloc));
        let mut late = Vec::new(self.alloc);
        for at in listed.iter() {
            if may_read(desk) {
                self.read(rt, desk, journal, *at)?;
            } else {
                self.put_off(*at);
                late.push(*at)?;
            }
        }
        self.read_first(late)
    }
}
