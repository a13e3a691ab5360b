//! The parts of a round in which the log is led: what its keeper has yet to keep is neither written nor told, and no more is read meanwhile.
ghost use Rattle.std.specs.Prelude.{◌≡◌, [], false, nat_le, true};
ghost use Rattle.iv_gate.specs.Arriving.{position};
ghost use Rattle.iv_desk.specs.Desks.{IsDesk};
ghost use Rattle.iv_desk.specs.Front.{Front};
ghost use Rattle.iv_running.specs.Running.{KeepsTo, Serves};

use crate::server::Server;
use iv_desk::Desk;
use iv_host::FileJournal;
use iv_running::Fault;
use iv_running::leading::settle_kept;
use mio::net::TcpListener;
use mio::{Events, Poll};
use std::mem;

impl Server {
    /// Takes in what the poll tells, and accepts who waits.
    ///
    /// # Errors
    /// `Memory` if a growth of memory was refused; so it is of each of these functions.
    pub fn take_in(
        &mut self,
        rt: &HostRuntime,
        desk: &mut Desk,
        poll: &Poll,
        listener: &TcpListener,
        events: &Events,
    ) -> Result<(), Fault>
        ensures { Serves desk.old desk.new }
    {
        self.again = false;
        self.note_all(events)?;
        self.accept(rt, desk, poll, listener)
    }

    /// Who made what the journal is to keep next is told to it. Nothing that is made from then on is anybody's yet.
    pub(crate) fn note_shares(&mut self, journal: &mut FileJournal)
        ensures none { self.new.shares.items ≡ [] }
        ensures note { journal.new ≡ record journal.old { shares = self.old.shares } }
    {
        journal.note(mem::replace(&mut self.shares, Vec::new(self.alloc)));
    }

    /// Has the journal keep what was decided, if the log has it all, up to a position; then clients are offered what they may be sent.
    ///
    /// # Errors
    /// `Journal` if the journal could not be written.
    pub fn keep(
        &mut self,
        desk: &mut Desk,
        journal: &mut FileJournal,
        kept: u64,
    ) -> Result<(), Fault>
        ensures keeps { KeepsTo kept desk.old desk.new }
        ensures waits { (d : Front) → IsDesk d desk.old → d.gate.dead ≡ false → nat_le (position d.gate) kept ≡ false
            → (desk.new ≡ desk.old) × (journal.new ≡ journal.old) × (self.new.shares ≡ self.old.shares) }
        ensures shares { (d : Front) → IsDesk d desk.old → d.gate.dead ≡ false → nat_le (position d.gate) kept ≡ true → self.new.shares.items ≡ [] }
    {
        if desk.position() > kept {
            return Ok(());
        }
        self.note_shares(journal);
        match settle_kept(desk, journal, kept) {
            Ok(_) => Ok(()),
            Err(fault) => Err(fault),
        }
    }

    /// Reads what clients say. Where the log is led nobody may wait for what was decided.
    pub fn read_on(
        &mut self,
        rt: &HostRuntime,
        desk: &mut Desk,
        journal: &FileJournal,
    ) -> Result<(), Fault>
        ensures { Serves desk.old desk.new }
    {
        self.read_all(rt, desk, journal)?;
        self.send_before(desk)
    }

    /// Sends what may be sent, first to those who asked, once what they asked is kept.
    fn send_kept(&mut self, desk: &mut Desk) -> Result<(), Fault>
        ensures { Serves desk.old desk.new }
    {
        if desk.entered().is_empty() {
            return self.send_all(desk);
        }
        self.send_others(desk)
    }

    /// Sends what may be sent, and lets go who is gone.
    pub fn send_on(&mut self, rt: &HostRuntime, desk: &mut Desk) -> Result<(), Fault>
        ensures { Serves desk.old desk.new }
    {
        self.send_kept(desk)?;
        self.drop_all(rt, desk)
    }
}
