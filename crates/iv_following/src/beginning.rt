//! How a log is followed from the start of the program on: by what the journal says, or by what a keeper begins.
ghost use Rattle.std.specs.Prelude.{◌≡◌, IfOk, IfSome, string_bytes, true};
ghost use Rattle.iv_records.specs.Names.{is_epoch};

use crate::following::Following;
use crate::guest::{Guest, Stage};
use crate::keeper::Keeper;
use crate::logs::copied;
use crate::ways::no_way;
use iv_arrivals::Log;
use iv_desk::Desk;
use iv_head::epoch_in;
use iv_host::{JournalFile, Settings};
use iv_running::{
    Fault, Follows, KEEPER, SYSTEM, begin_log, followed_in, no_log_in, out_of_memory,
};
use mio::{Events, Poll};
use std::alloc::{AllocError, Global};
use std::time::Duration;

/// The name and the epoch of a log that a keeper has begun: none if they are no text, or the epoch has other than 32 digits.
fn begun_by(alloc: Global, log: &iv_door::Log) -> Result<Option<(String, String)>, AllocError>
    ensures { IfOk result (λ o. IfSome o (λ p. is_epoch (string_bytes p.1) ≡ true)) }
{
    let Ok(name) = str::from_utf8(&log.name) else {
        return Ok(None);
    };
    let Some(epoch) = epoch_in(alloc, &log.epoch)? else {
        return Ok(None);
    };
    Ok(Some((String::from_str(alloc, name)?, epoch)))
}

/// Hears the lines that have come of a guest until it begins a log. Whether it has.
fn hear_beginning(rt: &HostRuntime, guest: &mut Guest) -> Result<bool, Fault> {
    let Stage::Known(keeper) = &mut guest.stage else {
        return Ok(false);
    };
    match keeper.talk.hear() {
        Ok(None) => Ok(false),
        Ok(Some(_)) => Ok(keeper.talk.follows()),
        Err(fault) => Err(keeper.told.fail(rt, &fault)),
    }
}

/// The log that a guest has begun, who is to be told when it is kept.
fn begun_with(alloc: Global, guest: &mut Guest) -> Result<Option<(String, String)>, AllocError>
    ensures { IfOk result (λ o. IfSome o (λ p. is_epoch (string_bytes p.1) ≡ true)) }
{
    let Stage::Known(keeper) = &mut guest.stage else {
        return Ok(None);
    };
    keeper.told.owes = true;
    match keeper.talk.log() {
        None => Ok(None),
        Some(log) => begun_by(alloc, log),
    }
}

/// A keeper who is there already is one of the log that is followed.
fn renew(alloc: Global, guest: &mut Guest, log: &Option<Log>) -> Result<(), AllocError> {
    if guest.is_keeper() {
        guest.stage = Stage::Known(Keeper::new(alloc, log)?);
    }
    Ok(())
}

/// A keeper is told what is held up to a position, if it follows no log yet.
fn greet(guest: &mut Guest, rows: u32, position: u64) -> Result<(), AllocError> {
    let Stage::Known(keeper) = &mut guest.stage else {
        return Ok(());
    };
    if keeper.talk.follows() {
        return Ok(());
    }
    keeper.told.greet(rows, keeper.talk.log(), position)
}

impl Following {
    /// The log that a journal follows is followed.
    fn go_on(&mut self, name: String, epoch: String) -> Result<(), AllocError> {
        self.means.log = Some(Log { name, epoch });
        match &mut self.guest {
            None => Ok(()),
            Some(guest) => renew(self.means.rt.alloc(), guest, &self.means.log),
        }
    }

    /// Hears what has come until a log is begun. Whether one is.
    fn hear_begun(&mut self) -> Result<bool, Fault> {
        match &mut self.guest {
            None => Ok(false),
            Some(guest) => hear_beginning(&self.means.rt, guest),
        }
    }

    /// Waits for a keeper until one has begun a log, or the only one has gone.
    fn wait_for_beginning(&mut self, poll: &mut Poll, events: &mut Events) -> Result<bool, Fault> {
        'waits: for _ in 0..u64::MAX {
            self.send_out(poll);
            if poll
                .poll(events, Some(Duration::from_millis(1000)))
                .is_err()
            {
                return Err(Fault::System);
            }
            self.note(events);
            self.look_at_clock();
            self.accept(poll);
            self.read(poll, 0)?;
            if self.hear_begun()? {
                return Ok(true);
            }
            self.let_go();
            if self.has_ended() {
                return Ok(false);
            }
        }
        Ok(false)
    }

    /// The status to exit with, since nothing is begun.
    fn none_begun(&mut self, poll: &mut Poll, fault: Fault) -> u8 {
        match fault {
            Fault::Log => {
                self.last_words(poll);
                KEEPER
            }
            Fault::Memory => out_of_memory(&self.means.rt),
            _ => no_way(&self.means.rt, "the system does not tell of sockets"),
        }
    }

    /// The log that a keeper has begun.
    fn begun(&mut self) -> Result<(String, String), u8>
        ensures { IfOk result (λ p. is_epoch (string_bytes p.1) ≡ true) }
    {
        let rt = self.means.rt;
        let Some(guest) = &mut self.guest else {
            return Err(SYSTEM);
        };
        match begun_with(rt.alloc(), guest) {
            Ok(Some(log)) => Ok(log),
            Ok(None) => Err(SYSTEM),
            Err(_) => Err(out_of_memory(&rt)),
        }
    }

    /// The journal of a log that a keeper has begun, in the place of one that has nothing.
    fn keep_begun(
        &mut self,
        settings: &Settings,
        file: JournalFile,
    ) -> Result<(JournalFile, Vec<u8>), u8> {
        let rt = self.means.rt;
        let (name, epoch) = self.begun()?;
        let log = Log { name, epoch };
        match copied(rt.alloc(), &log) {
            Ok(copy) => self.means.log = Some(copy),
            Err(_) => return Err(out_of_memory(&rt)),
        }
        let Log { name, epoch } = log;
        self.again = true;
        begin_log(&rt, settings, file, name, epoch)
    }

    /// The journal of a log that a keeper begins, in the place of one that has nothing.
    fn begin_anew(
        &mut self,
        poll: &mut Poll,
        settings: &Settings,
        file: JournalFile,
    ) -> Result<(JournalFile, Vec<u8>), u8> {
        let rt = self.means.rt;
        let Ok(mut events) = Events::with_capacity(rt.alloc(), 64) else {
            return Err(out_of_memory(&rt));
        };
        match self.wait_for_beginning(poll, &mut events) {
            Err(fault) => Err(self.none_begun(poll, fault)),
            Ok(false) => Err(0),
            Ok(true) => self.keep_begun(settings, file),
        }
    }

    /// A keeper who is there is told what is held up to a position, if it follows no log yet.
    fn greet(&mut self, position: u64) -> Result<(), Fault>
        ensures { self.new.means ≡ self.old.means }
    {
        match &mut self.guest {
            None => Ok(()),
            Some(guest) => match greet(guest, self.means.rows, position) {
                Ok(()) => Ok(()),
                Err(error) => Err(Fault::from(error)),
            },
        }
    }

    /// The journal of the log that is followed: the same one, if it follows one; and if it has nothing, one that follows what a keeper begins.
    ///
    /// # Errors
    /// The status to exit with, once it was said why.
    pub fn begin(
        &mut self,
        poll: &mut Poll,
        settings: &Settings,
        file: JournalFile,
        bytes: Vec<u8>,
    ) -> Result<(JournalFile, Vec<u8>), u8> {
        let rt = self.means.rt;
        match followed_in(&rt, settings, &bytes)? {
            Follows::Itself => Err(no_log_in(&rt, settings.journal.as_str())),
            Follows::Log(log) => match self.go_on(log.name, log.epoch) {
                Ok(()) => Ok((file, bytes)),
                Err(_) => Err(out_of_memory(&rt)),
            },
            Follows::Nothing => {
                if self.greet(0).is_err() {
                    return Err(out_of_memory(&rt));
                }
                self.begin_anew(poll, settings, file)
            }
        }
    }

    /// A keeper at standard input and output is told what is held, if it was not told so before.
    ///
    /// # Errors
    /// `Memory` if a growth of memory was refused.
    pub fn meet(&mut self, desk: &Desk) -> Result<(), Fault>
        ensures { self.new.means ≡ self.old.means }
    {
        self.greet(desk.settled_at())
    }
}
