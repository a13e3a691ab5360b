//! What a round sends: first to those who asked in it, then to the others, to so many at most, and at most so often if they are many; and whom
//! it lets go.
ghost use Rattle.iv_running.specs.Running.{Serves};

use crate::server::{Kind, Server};
use crate::socket::{Stage, send_at};
use iv_desk::Desk;
use iv_host::{Why, raise};
use iv_running::Fault;
use iv_running::calls::leave;
use std::mem;

/// Writes to a socket in a round, at most.
const WRITES: u32 = 64;

/// Others who are sent to in a round, at most: those who ask meanwhile wait for no more than these.
const OTHERS: u32 = 512;

/// Milliseconds for the other end to close, at most.
const ENDING: u64 = 2_000;

impl Server {
    /// Nothing is pending at a number any more.
    fn is_sent(&mut self, desk: &mut Desk, at: u32) -> Result<(), Fault>
        ensures { Serves desk.old desk.new }
    {
        let Some(socket) = self.socket(at) else {
            return Ok(());
        };
        if socket.stuck.is_some() || socket.unheard {
            socket.stuck = None;
            self.again = true;
        }
        if desk.is_over(at) {
            return self.end(desk, at);
        }
        Ok(())
    }

    /// The connection of a number is over, and all is sent.
    fn end(&mut self, desk: &mut Desk, at: u32) -> Result<(), Fault>
        ensures { Serves desk.old desk.new }
    {
        let until = self.now.saturating_add(ENDING);
        if let Some(socket) = self.socket(at) {
            let (came, why) = (socket.came, socket.why());
            socket.unheard = false;
            socket.finish(until);
            if came {
                self.counts.end(why);
            } else {
                raise(&mut self.counts.refused, 1);
            }
        }
        self.leave_desk(desk, at)?;
        self.list(at)?;
        self.again = true;
        Ok(())
    }

    /// The client of a number goes, if one is there, and the desk has the connection no more.
    fn leave_desk(&mut self, desk: &mut Desk, at: u32) -> Result<(), Fault>
        ensures { Serves desk.old desk.new }
    {
        if let Some(digest) = desk.digest_of(at) {
            self.admission.go(digest)?;
        }
        leave(desk, at)
    }

    /// Sends what is left of an answer, as far as the system takes it.
    fn send_answer(&mut self, at: u32) -> Result<(), Fault> {
        let now = self.now;
        let Some(socket) = self.socket(at) else {
            return Ok(());
        };
        if !socket.send_answer(now) {
            return self.go(at, Why::Closed);
        }
        let is_sent = match &socket.stage {
            Stage::Answer(bytes, sent) => *sent >= bytes.len(),
            _ => false,
        };
        if is_sent {
            socket.finish(now.saturating_add(ENDING));
            self.list(at)?;
            self.again = true;
        }
        Ok(())
    }

    /// Bytes of a client were taken, or none if the system takes none now.
    fn note_sent(&mut self, at: u32, count: usize) {
        let now = self.now;
        raise(&mut self.counts.sent, count as u64);
        if let Some(socket) = self.socket(at) {
            if count > 0 && socket.stuck.is_some() || count == 0 && socket.stuck.is_none() {
                socket.stuck = Some(now);
            }
        }
    }

    /// Sends to a client what is pending, as far as the system takes it.
    fn send_desk(&mut self, desk: &mut Desk, at: u32) -> Result<(), Fault>
        ensures { Serves desk.old desk.new }
    {
        'writes: for _ in 0..WRITES {
            if desk.pending(at).is_empty() {
                return self.is_sent(desk, at);
            }
            let Some(count) = send_at(&mut self.sockets, desk, at) else {
                return self.go(at, Why::Closed);
            };
            self.note_sent(at, count);
            if count == 0 {
                return Ok(());
            }
        }
        self.again = true;
        Ok(())
    }

    /// Sends to a number what is pending there.
    fn send(&mut self, desk: &mut Desk, at: u32) -> Result<(), Fault>
        ensures { Serves desk.old desk.new }
    {
        match self.kind(at) {
            Kind::Desk => self.send_desk(desk, at),
            Kind::Answer => self.send_answer(at),
            Kind::Nobody | Kind::Head | Kind::Ending => Ok(()),
        }
    }

    /// Whether a number may be sent something now.
    fn is_owed(&self, desk: &Desk, at: u32) -> bool {
        match self.sockets.get(at as usize) {
            Some(Some(socket)) => match &socket.stage {
                Stage::Desk => {
                    socket.writable && (!desk.pending(at).is_empty() || desk.is_over(at))
                }
                Stage::Answer(_, _) => socket.writable,
                Stage::Head(_) | Stage::Ending => false,
            },
            _ => false,
        }
    }

    /// Sends to a number, if it may be sent something now. Whether it may.
    fn send_owed(&mut self, desk: &mut Desk, at: u32) -> Result<bool, Fault>
        ensures { Serves desk.old desk.new }
    {
        if !self.is_owed(desk, at) {
            return Ok(false);
        }
        self.send(desk, at)?;
        Ok(true)
    }

    /// Sends to those who asked in this round what they were offered before. Who has taken that is offered the reply in this round, too.
    pub(crate) fn send_before(&mut self, desk: &mut Desk) -> Result<(), Fault>
        ensures { Serves desk.old desk.new }
    {
        let asked = mem::replace(&mut self.asked, Vec::new(self.alloc));
        for at in asked.iter() {
            self.send_owed(desk, *at)?;
        }
        self.asked = asked;
        Ok(())
    }

    /// Sends to those who asked in this round.
    fn send_asked(&mut self, desk: &mut Desk) -> Result<(), Fault>
        ensures { Serves desk.old desk.new }
    {
        let first = mem::replace(&mut self.asked, Vec::new(self.alloc));
        for at in first.iter() {
            self.send(desk, *at)?;
        }
        Ok(())
    }

    /// Sends to those who may be sent something now, from the number on at which the round before has stopped, until so many were sent to.
    /// Whether anybody was.
    fn sweep(&mut self, desk: &mut Desk) -> Result<bool, Fault>
        ensures { Serves desk.old desk.new }
    {
        let mut count: u32 = 0;
        for at in self.next..self.most {
            if count == OTHERS {
                self.next = at;
                return Ok(true);
            }
            if self.send_owed(desk, at)? {
                count = count.saturating_add(1);
            }
        }
        self.next = 0;
        Ok(count > 0)
    }

    /// Sends first to those who asked in this round, then to a part of the others, if it is time for these; the next round goes on at once
    /// with those who are left. What they are told before is offered to them once they have taken the last message, so it is one message.
    pub(crate) fn send_all(&mut self, desk: &mut Desk) -> Result<(), Fault>
        ensures { Serves desk.old desk.new }
    {
        self.send_asked(desk)?;
        self.send_others(desk)
    }

    /// Sends to a part of those who asked nothing in this round, if it is time for them.
    pub(crate) fn send_others(&mut self, desk: &mut Desk) -> Result<(), Fault>
        ensures { Serves desk.old desk.new }
    {
        let was_left = self.next > 0;
        if !was_left {
            if !self.may_sweep() {
                self.gathering = true;
                return Ok(());
            }
            self.swept = self.now;
        }
        let is_sent = self.sweep(desk)?;
        let is_part = was_left || self.next > 0;
        self.gathering = is_part || self.gathering && is_sent;
        if self.gathering {
            self.again = true;
        }
        Ok(())
    }

    /// Lets go who is gone.
    pub(crate) fn drop_all(&mut self, rt: &HostRuntime, desk: &mut Desk) -> Result<(), Fault>
        ensures { Serves desk.old desk.new }
    {
        let gone = mem::replace(&mut self.gone, Vec::new(self.alloc));
        for (at, why) in gone.iter() {
            self.drop_at(rt, desk, *at, *why)?;
        }
        Ok(())
    }

    /// Counts and tells that a connection goes.
    fn say_gone(&mut self, rt: &HostRuntime, at: u32, why: Why) {
        let now = self.now;
        let Some(socket) = self.socket(at) else {
            return;
        };
        let (address, came) = (socket.address, socket.came);
        self.counts.end(why);
        if (came || why != Why::Closed) && self.log.may_say(rt, now) {
            let words = why.words();
            let _ = eprintln!(rt; "gateway: {address} goes: {words}");
        }
    }

    /// Tells why the connection of a client ended, which was counted then.
    fn say_ended(&mut self, rt: &HostRuntime, at: u32) {
        let now = self.now;
        let Some(socket) = self.socket(at) else {
            return;
        };
        let (address, came, why) = (socket.address, socket.came, socket.why());
        if came && self.log.may_say(rt, now) {
            let words = why.words();
            let _ = eprintln!(rt; "gateway: {address} goes: {words}");
        }
    }

    /// Its client goes, if the desk has the connection of the number.
    fn leave_at(&mut self, desk: &mut Desk, at: u32) -> Result<(), Fault>
        ensures { Serves desk.old desk.new }
    {
        if self.kind(at) != Kind::Desk {
            return Ok(());
        }
        self.leave_desk(desk, at)
    }

    /// The number has no connection any more.
    fn clear(&mut self, at: u32) {
        if let Some(slot) = self.sockets.get_mut(at as usize) {
            if let Some(socket) = slot {
                if socket.came {
                    self.inside = self.inside.saturating_sub(1);
                }
            }
            *slot = None;
        }
    }

    /// Lets go the connection of a number, which is free then.
    pub(crate) fn drop_at(
        &mut self,
        rt: &HostRuntime,
        desk: &mut Desk,
        at: u32,
        why: Why,
    ) -> Result<(), Fault>
        ensures { Serves desk.old desk.new }
    {
        let kind = self.kind(at);
        if kind == Kind::Nobody {
            return Ok(());
        }
        self.leave_at(desk, at)?;
        if kind == Kind::Ending {
            self.say_ended(rt, at);
        } else {
            self.say_gone(rt, at, why);
        }
        self.clear(at);
        self.free.push(at)?;
        Ok(())
    }
}
