//! `Following`: the log that is followed, and who has come as its keeper.
ghost use Rattle.std.specs.Prelude.{◌≡◌, IfErr, IfOk, OnOk, Some, false, is_some, true};
ghost use Rattle.iv_running.specs.Running.{Leads, Serves};
ghost use Rattle.iv_following.specs.Following.{house};
ghost use Rattle.iv_following.specs.Guests.{has_keeper, has_leader, stage_of};
ghost use Rattle.iv_following.specs.Rounds.{IsBrokenOf, IsHeardOf, has_ended};

use crate::guest::{Guest, Stage};
use crate::keeper::{Keeper, Means};
use crate::shown::secret_of;
use crate::ways::{listener_at, no_way};
use crate::wire::Wire;
use iv_desk::Desk;
use iv_host::{KeeperAt, Settings};
use iv_running::{Fault, UNUSABLE, out_of_memory};
use iv_server::Server;
use json::Scratch;
use mio::net::TcpListener;
use mio::{Events, Poll};
use std::time::Instant;

/// The log that is followed, and its keeper.
#[derive(Drop)]
pub struct Following {
    /// What the keeper is served with.
    pub(crate) means: Means,
    /// Since when it is there.
    pub(crate) start: Instant,
    /// Where keepers come in, if they do.
    pub(crate) listener: Option<TcpListener>,
    /// A keeper may wait there.
    pub(crate) coming: bool,
    /// The first line of who is a keeper: nothing if none is needed.
    pub(crate) secret: Vec<u8>,
    /// Who has come.
    pub(crate) guest: Option<Guest>,
    /// The next round is to come at once.
    pub(crate) again: bool,
}

/// The keeper at standard input and output.
fn keeper_by(rt: &HostRuntime, wire: Wire) -> Result<Guest, u8> {
    match Keeper::new(rt.alloc(), &None) {
        Ok(keeper) => Ok(Guest::keeper(wire, keeper)),
        Err(_) => Err(out_of_memory(rt)),
    }
}

/// Hears what a guest has said, if it is the keeper. Whether the next round is to come at once.
fn hear_guest(
    means: &mut Means,
    desk: &mut Desk,
    server: &mut Server,
    guest: &mut Guest,
) -> Result<bool, Fault>
    ensures leads { Leads desk.old desk.new }
    ensures heard { OnOk result (IsHeardOf means.old.log (Some guest.old.stage) (house desk.old server.old.open means.old.lead)
        (Some guest.new.stage) (house desk.new server.new.open means.new.lead)) }
    ensures breaks { IfErr result (λ f. IsBrokenOf means.old.log (Some guest.old.stage) (house desk.old server.old.open means.old.lead) f
        (Some guest.new.stage) (house desk.new server.new.open means.new.lead)) }
    ensures same { means.new.log ≡ means.old.log }
{
    match &mut guest.stage {
        Stage::Unknown(_, _) => Ok(false),
        Stage::Known(keeper) => keeper.hear_lines(means, desk, server),
    }
}

impl Following {
    /// One to which this guest has come.
    fn new(
        rt: &HostRuntime,
        settings: &Settings,
        listener: Option<TcpListener>,
        secret: Vec<u8>,
        guest: Option<Guest>,
    ) -> Result<Following, u8> {
        let Ok(start) = Instant::now(rt) else {
            return Err(no_way(rt, "the system has no clock"));
        };
        let Ok(journal) = settings.journal.clone() else {
            return Err(out_of_memory(rt));
        };
        let means = Means {
            rt: *rt,
            rows: settings.rows,
            journal,
            log: None,
            lead: None,
            scratch: Scratch::new(rt.alloc()),
        };
        Ok(Following {
            means,
            start,
            coming: listener.is_some(),
            listener,
            secret,
            guest,
            again: false,
        })
    }

    /// The one that the settings ask for, with the way by which its keeper comes, of which the poll tells.
    ///
    /// # Errors
    /// The status to exit with, once it was said why.
    pub fn open(
        rt: &HostRuntime,
        settings: &Settings,
        keeper: &KeeperAt,
        poll: &Poll,
    ) -> Result<Following, u8> {
        match keeper {
            KeeperAt::Standard => match Wire::standard(rt, poll) {
                Ok(wire) => {
                    let guest = keeper_by(rt, wire)?;
                    Following::new(rt, settings, None, Vec::new(rt.alloc()), Some(guest))
                }
                Err(_) => {
                    no_way(rt, "standard input is neither a pipe nor a socket");
                    Err(UNUSABLE)
                }
            },
            KeeperAt::Port(port, path) => {
                let secret = secret_of(rt, path.as_str())?;
                match listener_at(rt, poll, *port) {
                    Some(listener) => Following::new(rt, settings, Some(listener), secret, None),
                    None => Err(no_way(rt, "its port cannot be listened on")),
                }
            }
        }
    }

    /// Milliseconds since it is there.
    pub(crate) fn now(&self) -> u64 {
        match self.start.elapsed(&self.means.rt) {
            Ok(time) => time
                .as_secs()
                .saturating_mul(1000)
                .saturating_add(u64::from(time.subsec_millis())),
            Err(_) => 0,
        }
    }

    /// Whether the next round is to come at once.
    pub fn is_hurried(&self) -> bool {
        self.again
    }

    /// Whether it ends with its keeper, who has gone.
    pub(crate) fn has_ended(&self) -> bool
        ensures { result ≡ has_ended self.now }
    {
        self.listener.is_none() && self.guest.is_none()
    }

    /// Whether a keeper is there.
    fn has_keeper(&self) -> bool
        ensures { result ≡ has_keeper self.now.guest }
    {
        match &self.guest {
            Some(guest) => guest.is_keeper(),
            None => false,
        }
    }

    /// While no keeper is there, nobody is let in, and who is there goes.
    fn shut_without(&self, desk: &mut Desk, server: &mut Server) -> Result<(), Fault>
        ensures serves { Serves desk.old desk.new }
        ensures shut { has_keeper self.now.guest ≡ false → server.new.open ≡ false }
    {
        if self.has_keeper() {
            return Ok(());
        }
        server.shut(desk)
    }

    /// Hears what has come of a keeper. Whether the next round is to come at once.
    fn hear_keeper(&mut self, desk: &mut Desk, server: &mut Server) -> Result<bool, Fault>
        ensures leads { Leads desk.old desk.new }
        ensures heard { OnOk result (IsHeardOf self.old.means.log (stage_of self.old.guest) (house desk.old server.old.open self.old.means.lead)
            (stage_of self.new.guest) (house desk.new server.new.open self.new.means.lead)) }
        ensures breaks { IfErr result (λ f. IsBrokenOf self.old.means.log (stage_of self.old.guest) (house desk.old server.old.open self.old.means.lead) f
            (stage_of self.new.guest) (house desk.new server.new.open self.new.means.lead)) }
    {
        match &mut self.guest {
            None => Ok(false),
            Some(guest) => hear_guest(&mut self.means, desk, server, guest),
        }
    }

    /// The next round is to come at once if something may be read now.
    fn hurry(&mut self)
        ensures guest { self.new.guest ≡ self.old.guest }
        ensures means { self.new.means ≡ self.old.means }
    {
        if let Some(guest) = &self.guest {
            if guest.is_read() {
                self.again = true;
            }
        }
    }

    /// Takes in what has come of a keeper, and does what that says. Whether the gateway ends with its keeper, who has gone. With a keeper
    /// who goes all clients go, and none comes in until the next one says so.
    ///
    /// # Errors
    /// `Log` if what is said cannot be, which is told by `last_words`, or if a keeper has gone whose log is led; `Memory` if a growth of memory
    /// was refused.
    pub fn hear(
        &mut self,
        desk: &mut Desk,
        server: &mut Server,
        poll: &Poll,
        events: &Events,
    ) -> Result<bool, Fault>
        ensures leads { Leads desk.old desk.new }
        ensures shut { OnOk result (has_keeper self.new.guest ≡ false → server.new.open ≡ false) }
        ensures over { OnOk result (is_some self.new.means.lead ≡ true → has_leader self.new.guest ≡ true) }
        ensures ended { IfOk result (λ ends. ends ≡ has_ended self.new) }
    {
        self.again = false;
        self.note(events);
        self.look_at_clock();
        self.shut_without(desk, server)?;
        self.accept(poll);
        self.read(poll, desk.settled_at())?;
        if self.hear_keeper(desk, server)? {
            self.again = true;
        } else {
            self.let_go();
        }
        self.is_over()?;
        self.shut_without(desk, server)?;
        self.hurry();
        Ok(self.has_ended())
    }

    /// The keeper is told up to where the journal has the log, if it ended a step since it was told so.
    ///
    /// # Errors
    /// `Memory` if a growth of memory was refused.
    pub fn tell(&mut self, desk: &Desk, poll: &Poll) -> Result<(), Fault>
        ensures ended { has_ended self.old ≡ true → has_ended self.new ≡ true }
        ensures means { self.new.means ≡ self.old.means }
    {
        if let Some(guest) = &mut self.guest {
            guest.settle(desk)?;
        }
        self.send_out(poll);
        Ok(())
    }
}
