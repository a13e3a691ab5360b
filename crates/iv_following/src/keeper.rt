//! `Keeper`: what a keeper says, and what is done with that; `Means`: what that is done with.
ghost use Rattle.std.specs.Prelude.{◌≡◌, [], IfErr, IfOk, None, OnErr, OnOk, Some, false, map, option_map, true};
ghost use Rattle.iv_door.specs.Talk.{at_start, ended};
ghost use Rattle.iv_door.specs.Views.{act_of};
ghost use Rattle.iv_running.specs.Running.{Leads};
ghost use Rattle.iv_following.specs.Failing.{IsBroken, IsUnheard, IsUnheeded, IsUnkept, IsUnled, IsUntaken};
ghost use Rattle.iv_following.specs.Following.{HeedsAll, IsHeard, IsHeeded, IsKept, IsLed, Lead as Leading, house, said_log};

use crate::leading::{Lead, begin_to_lead};
use crate::logs::said_logs;
use crate::steps::take_step;
use crate::telling::Told;
use iv_arrivals::Log;
use iv_desk::Desk;
use iv_door::{Act, Talk};
use iv_running::Fault;
use iv_running::calls::may_read;
use iv_server::Server;
use json::Scratch;
use std::alloc::{AllocError, Global};

/// Bytes that a keeper is to be told, beyond which nothing more is heard of it.
const MOST_OUT: usize = 1_048_576;

/// What a keeper is served with.
#[derive(Drop)]
pub(crate) struct Means {
    /// The right to ask the system.
    pub(crate) rt: HostRuntime,
    /// How many rows a table may have.
    pub(crate) rows: u32,
    /// The file of the journal.
    pub(crate) journal: String,
    /// The log that is followed.
    pub(crate) log: Option<Log>,
    /// How far that is led, if it is.
    pub(crate) lead: Option<Lead>,
    /// What JSON is read with.
    pub(crate) scratch: Scratch,
}

/// The keeper that is there.
#[derive(Drop)]
pub(crate) struct Keeper {
    /// What it says.
    pub(crate) talk: Talk,
    /// What it is told.
    pub(crate) told: Told,
    /// Lines that have come may be unheard: nothing more is read.
    pub(crate) late: bool,
}

/// A step has ended.
fn end_step(
    means: &mut Means,
    desk: &mut Desk,
    server: &mut Server,
    told: &mut Told,
    from: u64,
    to: u64,
    texts: &[Vec<u8>],
) -> Result<(), Fault>
    ensures leads { Leads desk.old desk.new }
    ensures heeded { OnOk result (IsHeeded means.old.log (ended from to (map (λ v. v.items) texts.now))
        (house desk.old server.old.open means.old.lead) (house desk.new server.new.open means.new.lead)) }
    ensures owed { OnOk result (told.new.owes ≡ true) }
    ensures fault { IfErr result (IsUntaken means.old.log from to (map (λ v. v.items) texts.now) desk.old told.old.out.items told.new.out.items) }
    ensures keeps { (server.new.open ≡ server.old.open) × (means.new.lead ≡ means.old.lead) }
    ensures same { means.new.log ≡ means.old.log }
{
    let log = match &means.log {
        None => return Err(Fault::Desk),
        Some(log) => log,
    };
    told.owes = true;
    match take_step(
        means.rt.alloc(),
        desk,
        log,
        from,
        to,
        texts,
        &mut means.scratch,
    ) {
        Ok(()) => server.share_none(desk),
        Err(fault) => Err(told.fail(&means.rt, &fault)),
    }
}

/// The gateway leads the log, if it did not.
fn take_lead(means: &mut Means, desk: &mut Desk, told: &mut Told) -> Result<(), Fault>
    ensures leads { Leads desk.old desk.new }
    ensures owed { OnOk result (told.new.leads ≡ true) }
    ensures led { OnOk result ((means.old.lead ≡ None) × (a : Leading) × IsLed desk.old desk.new a × (means.new.lead ≡ Some a)) }
    ensures fault { IfErr result (IsUnled means.old.lead) }
    ensures fails { OnErr result ((desk.new ≡ desk.old) × (means.new.lead ≡ means.old.lead) × (told.new.out.items ≡ told.old.out.items)) }
    ensures same { means.new.log ≡ means.old.log }
{
    match &means.lead {
        Some(_) => Err(Fault::Desk),
        None => {
            means.lead = Some(begin_to_lead(desk));
            told.leads = true;
            Ok(())
        }
    }
}

/// What was decided is in the log up to a position.
fn keep(means: &mut Means, told: &mut Told, position: u64) -> Result<(), Fault>
    ensures kept { OnOk result ((a : Leading) × (means.old.lead ≡ Some a) × (b : Leading) × IsKept position a b × (means.new.lead ≡ Some b)) }
    ensures fault { IfErr result (IsUnkept position means.old.lead told.old.out.items told.new.out.items) }
    ensures fails { OnErr result (means.new.lead ≡ means.old.lead) }
    ensures owed { OnOk result (told.new.owes ≡ true) }
    ensures same { means.new.log ≡ means.old.log }
{
    let Some(lead) = &mut means.lead else {
        return Err(Fault::Desk);
    };
    told.owe();
    match lead.keep(position) {
        Ok(()) => Ok(()),
        Err(fault) => Err(told.fail(&means.rt, &fault)),
    }
}

/// Does what a line asks.
fn heed(
    means: &mut Means,
    desk: &mut Desk,
    server: &mut Server,
    told: &mut Told,
    act: Act,
) -> Result<(), Fault>
    ensures leads { Leads desk.old desk.new }
    ensures heeded { OnOk result (IsHeeded means.old.log (act_of act)
        (house desk.old server.old.open means.old.lead) (house desk.new server.new.open means.new.lead)) }
    ensures fault { IfErr result (λ f. IsUnheeded means.old.log (act_of act) (house desk.old server.old.open means.old.lead) told.old.out.items
        f (house desk.new server.new.open means.new.lead) told.new.out.items) }
    ensures same { means.new.log ≡ means.old.log }
{
    match act {
        Act::Begun | Act::GoneOn | Act::Brought => Ok(()),
        Act::Recall => told.recall(&means.rt, means.journal.as_str(), desk.settled_at()),
        Act::Ended(from, to, texts) => end_step(means, desk, server, told, from, to, &texts),
        Act::Opened => {
            server.open();
            Ok(())
        }
        Act::Shut => server.shut(desk),
        Act::Led => take_lead(means, desk, told),
        Act::Kept(position) => keep(means, told, position),
    }
}

impl Keeper {
    /// One that has said nothing, to a gateway that follows this log.
    ///
    /// # Errors
    /// `AllocError` if a growth of memory was refused.
    pub(crate) fn new(alloc: Global, log: &Option<Log>) -> Result<Keeper, AllocError>
        ensures talk { IfOk result (λ k. k.talk ≡ at_start (option_map said_log log.now)) }
        ensures told { IfOk result (λ k. (k.told.out.items ≡ []) × (k.told.owes ≡ false)) }
    {
        let log = said_logs(alloc, log)?;
        Ok(Keeper {
            talk: Talk::new(alloc, log),
            told: Told::new(alloc),
            late: false,
        })
    }

    /// Hears a line, if one has come. Whether it has.
    fn hear_line(
        &mut self,
        means: &mut Means,
        desk: &mut Desk,
        server: &mut Server,
    ) -> Result<bool, Fault>
        ensures leads { Leads desk.old desk.new }
        ensures heard { IfOk result (λ is. IsHeard means.old.log is self.old.talk self.new.talk
            (house desk.old server.old.open means.old.lead) (house desk.new server.new.open means.new.lead)) }
        ensures fault { IfErr result (λ f. IsUnheard means.old.log self.old.talk (house desk.old server.old.open means.old.lead) self.old.told.out.items
            f (house desk.new server.new.open means.new.lead) self.new.told.out.items) }
        ensures same { means.new.log ≡ means.old.log }
    {
        match self.talk.hear() {
            Ok(None) => Ok(false),
            Ok(Some(act)) => match heed(means, desk, server, &mut self.told, act) {
                Ok(()) => Ok(true),
                Err(fault) => Err(fault),
            },
            Err(fault) => Err(self.told.fail(&means.rt, &fault)),
        }
    }

    /// Hears the lines that have come, until much waits for the keeper, or for the journal, unless that waits for the keeper. Whether the next
    /// round is to come at once.
    ///
    /// # Errors
    /// `Log` if what is said cannot be, which it is told; `Memory` if a growth of memory was refused.
    pub(crate) fn hear_lines(
        &mut self,
        means: &mut Means,
        desk: &mut Desk,
        server: &mut Server,
    ) -> Result<bool, Fault>
        ensures leads { Leads desk.old desk.new }
        ensures heeds { OnOk result (HeedsAll means.old.log self.old.talk (house desk.old server.old.open means.old.lead)
            self.new.talk (house desk.new server.new.open means.new.lead)) }
        ensures breaks { IfErr result (λ f. IsBroken means.old.log self.old.talk (house desk.old server.old.open means.old.lead)
            f (house desk.new server.new.open means.new.lead) self.new.told.out.items) }
        ensures same { means.new.log ≡ means.old.log }
    {
        self.late = true;
        'lines: for _ in 0..u32::MAX {
            if self.told.out.len() > MOST_OUT {
                return Ok(false);
            }
            if means.lead.is_none() && !may_read(desk) {
                return Ok(true);
            }
            if !self.hear_line(means, desk, server)? {
                self.late = false;
                return Ok(false);
            }
        }
        Ok(false)
    }
}
