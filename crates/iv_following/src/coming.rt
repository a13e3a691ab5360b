//! Who comes as a keeper and goes, and the bytes that it says and is told.
ghost use Rattle.std.specs.Prelude.{◌≡◌, true};
ghost use Rattle.iv_following.specs.Rounds.{has_ended};

use crate::following::Following;
use crate::guest::Guest;
use crate::wire::{COMING, Got, PIECE, SAID, TOLD, Wire};
use iv_running::Fault;
use mio::{Events, Poll};
use std::time::Duration;

/// Reads in a round, at most: 65,536 bytes.
const READS: u32 = 4;

/// Milliseconds in which a keeper shows the secret.
const SHOWING: u64 = 10_000;

/// How often it is looked whether last words are taken, and whether the other end has closed: each time ten milliseconds at most.
const LAST: u32 = 100;

impl Following {
    /// Who waits comes, if nobody is there; who else waits is let go.
    pub(crate) fn accept(&mut self, poll: &Poll) {
        if !self.coming {
            return;
        }
        self.coming = false;
        let until = self.now().saturating_add(SHOWING);
        for _ in 0..u32::MAX {
            let Some(listener) = &self.listener else {
                return;
            };
            let Ok((stream, _)) = listener.accept() else {
                return;
            };
            if self.guest.is_none() {
                if let Ok(wire) = Wire::socket(stream, poll) {
                    self.guest = Some(Guest::unknown(self.means.rt.alloc(), wire, until));
                }
            }
        }
    }

    /// Who has not shown the secret in time is let go.
    pub(crate) fn look_at_clock(&mut self) {
        let now = self.now();
        let is_late = match &self.guest {
            Some(guest) => guest.is_late(now),
            None => false,
        };
        if is_late {
            let _ = eprintln!(self.means.rt; "gateway: the log: a keeper has shown no secret");
            self.guest = None;
        }
    }

    /// What the poll tells.
    pub(crate) fn note(&mut self, events: &Events) {
        for event in events.iter() {
            let number = event.token();
            let is_readable = event.is_readable() || event.is_read_closed() || event.is_error();
            let is_writable = event.is_writable() || event.is_write_closed() || event.is_error();
            if number == COMING {
                self.coming = true;
            }
            if let Some(guest) = &mut self.guest {
                if number == SAID && is_readable {
                    guest.readable = true;
                }
                if (number == SAID || number == TOLD) && is_writable {
                    guest.writable = true;
                }
            }
        }
    }

    // ---- what is said

    /// Takes in bytes. Who shows another secret is let go.
    fn take(&mut self, bytes: &[u8], position: u64) -> Result<(), Fault> {
        let stays = match &mut self.guest {
            None => true,
            Some(guest) => guest.take(&self.means, &self.secret, bytes, position)?,
        };
        if !stays {
            let _ = eprintln!(self.means.rt; "gateway: the log: a keeper has shown another secret");
            self.guest = None;
        }
        Ok(())
    }

    /// Reads once. Whether it may be read on.
    fn read_once(&mut self, poll: &Poll, position: u64) -> Result<bool, Fault> {
        let Some(guest) = &mut self.guest else {
            return Ok(false);
        };
        let mut buffer = [0u8; PIECE];
        let (got, again) = guest.wire.read(poll, &mut buffer);
        guest.readable = again;
        match got {
            Got::Nothing => {}
            Got::End => guest.ended = true,
            Got::Bytes(count) => self.take(buffer.get(..count).unwrap_or(&[]), position)?,
        }
        Ok(again && self.guest.is_some())
    }

    /// Who says no more goes, once all that it has said was heard.
    pub(crate) fn let_go(&mut self) {
        let is_ended = match &self.guest {
            Some(guest) => guest.ended,
            None => false,
        };
        if is_ended {
            self.guest = None;
        }
    }

    /// Whether something may be read of who is there.
    fn is_read(&self) -> bool {
        match &self.guest {
            Some(guest) => guest.is_read(),
            None => false,
        }
    }

    /// Reads what has come, so much at most.
    pub(crate) fn read(&mut self, poll: &Poll, position: u64) -> Result<(), Fault> {
        if !self.is_read() {
            return Ok(());
        }
        'reads: for _ in 0..READS {
            if !self.read_once(poll, position)? {
                return Ok(());
            }
        }
        self.again = true;
        Ok(())
    }

    // ---- what is told

    /// Sends what the system takes, to a guest who goes if the way is broken.
    pub(crate) fn send_out(&mut self, poll: &Poll)
        ensures ended { has_ended self.old ≡ true → has_ended self.new ≡ true }
        ensures means { self.new.means ≡ self.old.means }
    {
        let is_whole = match &mut self.guest {
            None => true,
            Some(guest) => guest.send(poll),
        };
        if !is_whole {
            self.guest = None;
        }
    }

    /// Looks once whether a guest has taken its last words, and, at a port, has closed. Whether there is no more to wait for.
    fn has_heard_all(&mut self, poll: &Poll) -> bool {
        let Some(guest) = &mut self.guest else {
            return true;
        };
        if !guest.is_told() {
            return false;
        }
        if self.listener.is_none() {
            return true;
        }
        guest.wire.finish();
        let mut buffer = [0u8; PIECE];
        let (got, _) = guest.wire.read(poll, &mut buffer);
        got == Got::End
    }

    /// What was not told yet is told, and it is waited a second at most until the other end has closed.
    pub fn last_words(&mut self, poll: &mut Poll) {
        let Ok(mut events) = Events::with_capacity(self.means.rt.alloc(), 16) else {
            return;
        };
        'looks: for _ in 0..LAST {
            self.send_out(poll);
            if self.has_heard_all(poll) {
                return;
            }
            let _ = poll.poll(&mut events, Some(Duration::from_millis(10)));
            self.note(&events);
        }
    }
}
