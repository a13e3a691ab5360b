//! `Server`: the sockets by their numbers, which are the desk's and the poll's, and what a round does with them.
ghost use Rattle.std.specs.Prelude.{◌≡◌, IfErr, OnOk, [], false, string_bytes, true};
ghost use Rattle.iv_desk.specs.Front.{Front};
ghost use Rattle.iv_desk.specs.Desks.{IsDesk};
ghost use Rattle.iv_running.specs.Running.{PassesTime, Serves};
ghost use Rattle.iv_admission.specs.Admitting.{IsHanded, tokens_of};
ghost use Rattle.iv_server.specs.Shutting.{closed_at, closed_below};
ghost use Rattle.iv_server.specs.Sharing.{HasShare, waiting_lines};

use crate::socket::{Socket, Stage};
use iv_admission::Admission;
use iv_audit::Share;
use iv_desk::Desk;
use iv_host::{Counts, FileJournal, Log, TokenFile, Why, raise};
use iv_running::Fault;
use iv_running::calls::{close, settle};
use mio::event::Event;
use mio::net::{TcpListener, TcpStream};
use mio::{Events, Interest, Poll, Token};
use std::alloc::{AllocError, Global};
use std::io::ErrorKind;
use std::net::SocketAddr;

/// The poll's number of the listener.
const LISTENER: Token = Token(usize::MAX);

/// Connections that are accepted in a round, at most.
const ACCEPTS: u32 = 256;

/// Milliseconds from the first byte to the token, at most.
pub(crate) const COMING: u64 = 10_000;

/// Milliseconds from one message to the next of those who asked nothing, at least, if many are there.
const GATHERING: u64 = 10;

/// So many connections are many.
const MANY: usize = 64;

/// Milliseconds in which a client takes something, if something waits for it.
const TAKING: u64 = 30_000;

/// The sockets by their numbers.
#[derive(Drop)]
pub struct Server {
    /// The allocator of what it makes.
    pub(crate) alloc: Global,
    /// The numbers are below this.
    pub(crate) most: u32,
    /// A place for each number.
    pub(crate) sockets: Vec<Option<Socket>>,
    /// The numbers that no connection has.
    pub(crate) free: Vec<u32>,
    /// Those that are read in the next round.
    pub(crate) to_read: Vec<u32>,
    /// Those that are sent to first in this round.
    pub(crate) asked: Vec<u32>,
    /// Those that are let go at the end of this round.
    pub(crate) gone: Vec<(u32, Why)>,
    /// Who made the entries that wait for the journal.
    pub(crate) shares: Vec<Share>,
    /// How many that have come in are there.
    pub(crate) inside: usize,
    /// Clients may come in.
    pub(crate) open: bool,
    /// Somebody may wait to be accepted.
    pub(crate) accepting: bool,
    /// The next round is to come at once.
    pub(crate) again: bool,
    /// When those who asked nothing were sent to, in milliseconds.
    pub(crate) swept: u64,
    /// Some of those may wait to be sent to.
    pub(crate) gathering: bool,
    /// The number at which the next round goes on to send to them; 0 if no part of them is left.
    pub(crate) next: u32,
    /// Milliseconds since the start.
    pub(crate) now: u64,
    /// The lines on standard error.
    pub(crate) log: Log,
    /// What is counted since the start.
    pub(crate) counts: Counts,
    /// Who may come in.
    pub(crate) admission: Admission,
    /// The folder of pages, if there is one.
    pub(crate) pages: Option<String>,
}

/// How far the connection of a number is.
#[derive(Clone, Copy, PartialEq, Eq)]
pub(crate) enum Kind {
    /// There is none.
    Nobody,
    /// The head of its request is read.
    Head,
    /// The desk has it.
    Desk,
    /// It is sent an answer.
    Answer,
    /// It is to be closed by the other end.
    Ending,
}

/// A listener at an address that the poll tells of, if the system has that.
pub fn listener_at(rt: &HostRuntime, address: SocketAddr, poll: &Poll) -> Option<TcpListener> {
    let mut listener = TcpListener::bind(rt, address).ok()?;
    match poll
        .registry()
        .register(&mut listener, LISTENER, Interest::READABLE)
    {
        Ok(()) => Some(listener),
        Err(_) => None,
    }
}

/// The one of two that has to be further first.
fn elder(found: Option<(u64, u32)>, until: Option<u64>, at: u32) -> Option<(u64, u32)> {
    match (found, until) {
        (_, None) => found,
        (None, Some(until)) => Some((until, at)),
        (Some((first, _)), Some(until)) => {
            if until < first {
                Some((until, at))
            } else {
                found
            }
        }
    }
}

/// A place for each number below this, which no connection has.
fn no_sockets(alloc: Global, most: u32) -> Result<Vec<Option<Socket>>, AllocError> {
    let mut sockets = Vec::new(alloc);
    for _ in 0..most {
        sockets.push(None)?;
    }
    Ok(sockets)
}

/// The numbers below this, from the last to the first.
fn all_numbers(alloc: Global, most: u32) -> Result<Vec<u32>, AllocError> {
    let mut numbers = Vec::new(alloc);
    for at in 0..most {
        numbers.push(most - 1 - at)?;
    }
    Ok(numbers)
}

/// What a server has before it is known who may come in.
#[derive(Drop)]
pub struct Places {
    /// The numbers are below this.
    most: u32,
    /// The folder of pages, if there is one.
    pages: Option<String>,
    /// The numbers that no connection has.
    free: Vec<u32>,
    /// A place for each number.
    sockets: Vec<Option<Socket>>,
}

impl Places {
    /// As many, which no connection has.
    ///
    /// # Errors
    /// `AllocError` if a growth of memory was refused.
    pub fn new(alloc: Global, most: u32, pages: Option<String>) -> Result<Places, AllocError> {
        let free = all_numbers(alloc, most)?;
        match no_sockets(alloc, most) {
            Err(error) => Err(error),
            Ok(sockets) => Ok(Places {
                most,
                pages,
                free,
                sockets,
            }),
        }
    }
}

impl Server {
    /// One with these places, in which nobody is. Whether clients may come in.
    pub fn new(alloc: Global, places: Places, admission: Admission, is_open: bool) -> Server
        ensures opens { result.open ≡ is_open }
        ensures shares { result.shares.items ≡ [] }
        ensures admission { result.admission ≡ admission }
    {
        let Places {
            most,
            pages,
            free,
            sockets,
        } = places;
        Server {
            alloc,
            most,
            sockets,
            free,
            to_read: Vec::new(alloc),
            asked: Vec::new(alloc),
            gone: Vec::new(alloc),
            shares: Vec::new(alloc),
            inside: 0,
            open: is_open,
            accepting: false,
            again: false,
            swept: 0,
            gathering: false,
            next: 0,
            now: 0,
            log: Log::new(),
            counts: Counts::new(),
            admission,
            pages,
        }
    }

    /// Milliseconds to wait for something to come, at most.
    pub fn patience(&self) -> u64 {
        if self.again {
            0
        } else if self.gathering {
            GATHERING.saturating_sub(self.now.saturating_sub(self.swept))
        } else {
            1000
        }
    }

    /// Whether those who asked nothing are sent to in this round: in each if there are few, and else so often that what they are told meanwhile
    /// is one message.
    pub(crate) fn may_sweep(&self) -> bool {
        let there = self.sockets.len().saturating_sub(self.free.len());
        there < MANY || self.now.saturating_sub(self.swept) >= GATHERING
    }

    /// It is so late, in milliseconds since the start.
    pub fn is_at(&mut self, now: u64) {
        self.now = now;
    }

    /// The connection of a number, if there is one.
    pub(crate) fn socket(&mut self, at: u32) -> Option<&mut Socket> {
        match self.sockets.get_mut(at as usize) {
            Some(Some(socket)) => Some(socket),
            _ => None,
        }
    }

    /// How far the connection of a number is.
    pub(crate) fn kind(&self, at: u32) -> Kind {
        match self.sockets.get(at as usize) {
            Some(Some(socket)) => match &socket.stage {
                Stage::Head(_) => Kind::Head,
                Stage::Desk => Kind::Desk,
                Stage::Answer(_, _) => Kind::Answer,
                Stage::Ending => Kind::Ending,
            },
            _ => Kind::Nobody,
        }
    }

    /// The socket of a number is read in this round.
    pub(crate) fn list(&mut self, at: u32) -> Result<(), Fault> {
        if let Some(socket) = self.socket(at) {
            if !socket.listed {
                socket.listed = true;
                self.to_read.push(at)?;
            }
        }
        Ok(())
    }

    /// A connection is to end.
    pub(crate) fn go(&mut self, at: u32, why: Why) -> Result<(), Fault> {
        self.gone.push((at, why))?;
        Ok(())
    }

    /// What the poll tells of a number.
    fn note(&mut self, event: &Event) -> Result<(), Fault> {
        if event.token() == LISTENER {
            self.accepting = true;
            return Ok(());
        }
        let Ok(at) = u32::try_from(event.token().0) else {
            return Ok(());
        };
        let is_readable = event.is_readable() || event.is_read_closed() || event.is_error();
        if let Some(socket) = self.socket(at) {
            if event.is_writable() {
                socket.writable = true;
            }
            if is_readable {
                socket.readable = true;
            }
        }
        if is_readable {
            self.list(at)?;
        }
        Ok(())
    }

    /// What the poll tells.
    pub(crate) fn note_all(&mut self, events: &Events) -> Result<(), Fault> {
        for event in events.iter() {
            self.note(event)?;
        }
        Ok(())
    }

    /// A connection has a number, if one is free.
    fn place(
        &mut self,
        rt: &HostRuntime,
        poll: &Poll,
        stream: TcpStream,
        address: SocketAddr,
    ) -> Result<(), Fault> {
        let Some(at) = self.free.pop() else {
            raise(&mut self.counts.no_room, 1);
            if self.log.may_say(rt, self.now) {
                let _ = eprintln!(rt;
                    "gateway: no room for {address}: all sockets are taken by who has come in. --clients N allows more"
                );
            }
            return Ok(());
        };
        let mut stream = stream;
        let _ = stream.set_nodelay(true);
        let interest = Interest::READABLE | Interest::WRITABLE;
        let is_registered = poll
            .registry()
            .register(&mut stream, Token(at as usize), interest)
            .is_ok();
        if !is_registered {
            self.free.push(at)?;
            return Ok(());
        }
        raise(&mut self.counts.accepted, 1);
        let until = self.now.saturating_add(COMING);
        if let Some(slot) = self.sockets.get_mut(at as usize) {
            *slot = Some(Socket::new(self.alloc, stream, address, until));
        }
        Ok(())
    }

    /// Whether the connection of a number is let go in this round.
    fn goes(&self, at: u32) -> bool {
        for (gone, _) in self.gone.iter() {
            if *gone == at {
                return true;
            }
        }
        false
    }

    /// The number of the connection that has to be further first, if there is one: of those that are no clients the one that came first.
    fn eldest(&self) -> Option<u32> {
        let mut found: Option<(u64, u32)> = None;
        let mut at: u32 = 0;
        for slot in self.sockets.iter() {
            if let Some(socket) = slot {
                if !self.goes(at) {
                    found = elder(found, socket.until, at);
                }
            }
            at = at.saturating_add(1);
        }
        match found {
            Some((_, at)) => Some(at),
            None => None,
        }
    }

    /// If no number is free, the connection that has not come in for the longest goes.
    fn make_room(&mut self, rt: &HostRuntime, desk: &mut Desk) -> Result<(), Fault>
        ensures { Serves desk.old desk.new }
    {
        if !self.free.is_empty() {
            return Ok(());
        }
        match self.eldest() {
            None => Ok(()),
            Some(at) => self.drop_at(rt, desk, at, Why::Late),
        }
    }

    /// Accepts who waits.
    pub(crate) fn accept(
        &mut self,
        rt: &HostRuntime,
        desk: &mut Desk,
        poll: &Poll,
        listener: &TcpListener,
    ) -> Result<(), Fault>
        ensures { Serves desk.old desk.new }
    {
        if !self.accepting {
            return Ok(());
        }
        'accepts: for _ in 0..ACCEPTS {
            match listener.accept() {
                Ok((stream, address)) => {
                    self.make_room(rt, desk)?;
                    self.place(rt, poll, stream, address)?;
                }
                Err(error) => {
                    self.accepting = false;
                    if error.kind() != ErrorKind::WouldBlock && self.log.may_say(rt, self.now) {
                        let _ = eprintln!(rt;
                            "gateway: a connection could not be accepted: {error}"
                        );
                    }
                    return Ok(());
                }
            }
        }
        self.again = true;
        Ok(())
    }

    /// Who is late, or has taken nothing for long, is to go.
    ///
    /// # Errors
    /// `Memory` if a growth of memory was refused.
    pub fn look_at_clock(&mut self) -> Result<(), Fault> {
        let now = self.now;
        let mut at: u32 = 0;
        for slot in self.sockets.iter() {
            if let Some(socket) = slot {
                let is_late = match socket.until {
                    Some(until) => now > until,
                    None => false,
                };
                let is_stuck = match socket.stuck {
                    Some(since) => now > since.saturating_add(TAKING),
                    None => false,
                };
                if is_late {
                    self.gone.push((at, Why::Late))?;
                } else if is_stuck {
                    self.gone.push((at, Why::Stuck))?;
                }
            }
            at = at.saturating_add(1);
        }
        self.accepting = true;
        Ok(())
    }

    /// Has the desk know the tokens that are known now, if these are others than those that it knows. Who came by another is closed.
    ///
    /// # Errors
    /// `Memory` if a growth of memory was refused.
    pub fn look_at_tokens(
        &mut self,
        rt: &HostRuntime,
        desk: &mut Desk,
        file: &mut TokenFile,
    ) -> Result<(), Fault>
        ensures serves { Serves desk.old desk.new }
        ensures handed { OnOk result (IsHanded self.old.admission.known (tokens_of self.new.admission) desk.old desk.new) }
    {
        self.admission.look(rt, desk, file)
    }

    /// Clients may come in.
    pub fn open(&mut self)
        ensures { self.new ≡ record self.old { «open» = true } }
    {
        self.open = true;
    }

    /// The connection of a number is closed, if the desk has it.
    fn close_at(&mut self, desk: &mut Desk, at: u32) -> Result<(), Fault>
        ensures serves { Serves desk.old desk.new }
        ensures closed { OnOk result ((d : Front) → IsDesk d desk.old → IsDesk (closed_at at d) desk.new) }
        ensures same { self.new.open ≡ self.old.open }
    {
        close(desk, at, 1013, b"The log is not followed now.")?;
        if self.kind(at) == Kind::Desk {
            self.asked.push(at)?;
        }
        Ok(())
    }

    /// No client may come in, and who is there is closed.
    ///
    /// # Errors
    /// `Memory` if a growth of memory was refused.
    pub fn shut(&mut self, desk: &mut Desk) -> Result<(), Fault>
        ensures serves { Serves desk.old desk.new }
        ensures shut { self.new.open ≡ false }
        ensures all { self.old.open ≡ true → OnOk result ((d : Front) → IsDesk d desk.old → IsDesk (closed_below self.old.most d) desk.new) }
        ensures none { self.old.open ≡ false → desk.new ≡ desk.old }
    {
        if !self.open {
            return Ok(());
        }
        self.open = false;
        for at in 0..self.most {
            self.close_at(desk, at)?;
        }
        Ok(())
    }

    /// The lines up to this end, but those of shares before, are of a holder.
    pub(crate) fn push_share(&mut self, end: usize, holder: String) -> Result<(), AllocError>
        ensures share { OnOk result (HasShare end (string_bytes holder) self.old.shares.items self.new.shares.items) }
        ensures same { self.new.open ≡ self.old.open }
    {
        self.shares.push(Share { end, holder })?;
        Ok(())
    }

    /// The entries that were made since the last of somebody were made by nobody who is here.
    ///
    /// # Errors
    /// `Memory` if a growth of memory was refused.
    pub fn share_none(&mut self, desk: &Desk) -> Result<(), Fault>
        ensures share { OnOk result ((d : Front) → IsDesk d desk.now → d.gate.dead ≡ false
            → HasShare (waiting_lines d) [] self.old.shares.items self.new.shares.items) }
        ensures memory { IfErr result (λ f. f ≡ Fault.Memory) }
        ensures same { self.new.open ≡ self.old.open }
    {
        let end = desk.entered().len();
        let holder = String::new(self.alloc);
        match self.push_share(end, holder) {
            Ok(()) => Ok(()),
            Err(_) => Err(Fault::Memory),
        }
    }

    /// Takes in what the events bring, has the journal keep it, and then sends what may be sent.
    ///
    /// # Errors
    /// `Memory` if a growth of memory was refused, `Journal` if the journal could not be written.
    pub fn round(
        &mut self,
        rt: &HostRuntime,
        desk: &mut Desk,
        journal: &mut FileJournal,
        poll: &Poll,
        listener: &TcpListener,
        events: &Events,
    ) -> Result<(), Fault>
        ensures { PassesTime desk.old desk.new }
    {
        self.take_in(rt, desk, poll, listener, events)?;
        self.read_on(rt, desk, journal)?;
        self.note_shares(journal);
        settle(desk, journal)?;
        self.send_all(desk)?;
        self.drop_all(rt, desk)
    }
}
