//! `Gateway`: the engine, sessions by role, feeds that clients share, clients, and the journal that is ahead of what they are told.
ghost use Rattle.std.specs.Prelude.{◌≡◌, ℕ, IfOk, Some, [], drop, false, option_map, true};
ghost use Rattle.std.specs.List.{Contains, IsDistinct};
ghost use Rattle.std.proofs.Common.{eqb};
ghost use Rattle.iv_rows.specs.Options.{if_some};
ghost use Rattle.iv_machine.specs.State.{start};
ghost use Rattle.iv_store.specs.Engine.{IsBehind};
ghost use Rattle.iv_clients.specs.Clients as spec;
ghost use Rattle.iv_clients.specs.Clients.{client_at};
ghost use Rattle.iv_records.specs.Journal.{journal_of};
ghost use Rattle.iv_clients.specs.Kept.{is_due, is_told, kept};
ghost use Rattle.iv_gate.specs.Arriving.{position, settled_at};
ghost use Rattle.iv_gate.specs.Gate as spec_gate;
ghost use Rattle.iv_gate.specs.Gate.{Gate, is_heard};
ghost use Rattle.iv_gate.specs.Restoring.{gate_at_start};
ghost use Rattle.iv_gateway.specs.Views.{IsGate, IsHead};
ghost use Rattle.iv_gateway.specs.Waiting.{WaitsWithin};

use iv_arrivals::{Log, Tally};
use iv_clients::{Feed, Seat, Token};
use iv_engine::Engine;
use iv_hall::Hall;
use iv_once::Names;
use iv_records::OwnedLine;
use json::Scratch;
use std::alloc::{AllocError, Global};

/// What a journal says before its first entry.
#[derive(Drop)]
pub struct Head {
    /// What is known of names: the epoch, and how many names of each holder came before.
    pub names: Names,
    /// The log that is followed, if one is.
    pub log: Option<Log>,
    /// Where that stands.
    pub position: u64,
}

/// Why the gateway does no more. Nobody was told what the journal does not have.
#[derive(Clone, Copy, Debug, PartialEq, Eq)]
pub enum GatewayFault {
    /// A growth of memory was refused. The gateway is dead.
    Memory,
    /// The journal could not be written. The gateway is dead.
    Journal,
    /// The gateway was dead before.
    Dead,
}

/// A gateway with the engine in it. After a fault it is dead: it does nothing any more.
#[derive(Drop)]
pub struct Gateway {
    /// The allocator of what it makes.
    pub(crate) alloc: Global,
    /// The engine that answers commands.
    pub(crate) engine: Engine,
    /// The sessions of the engine, by role.
    pub(crate) seats: Vec<Seat>,
    /// The subscriptions of the engine that clients share.
    pub(crate) feeds: Vec<Feed>,
    /// The clients by their numbers.
    pub(crate) clients: Hall,
    /// The names of requests that have an answer, and how many of each holder were refused.
    pub(crate) names: Names,
    /// The log that it follows, if it follows one.
    pub(crate) log: Option<Log>,
    /// Whether it leads that.
    pub(crate) leads: bool,
    /// The place of the last step that it took or made.
    pub(crate) position: u64,
    /// The place of the last step that the journal keeps.
    pub(crate) settled: u64,
    /// The lines that the journal is to have before anyone is told.
    pub(crate) pending: Vec<OwnedLine>,
    /// What administrators are told of the shape: the lines that make it.
    pub(crate) shape: Vec<u8>,
    /// The tokens that open roles.
    pub(crate) tokens: Vec<Token>,
    /// What JSON is read with.
    pub(crate) scratch: Scratch,
    /// What is counted of messages.
    pub(crate) tally: Tally,
    /// Whether there was a fault.
    pub(crate) dead: bool,
}

impl Gateway {
    /// A gateway with no client, and places for as many, over an engine with nothing.
    ///
    /// # Errors
    /// `AllocError` if a growth of memory was refused.
    pub fn new(
        alloc: Global,
        engine: Engine,
        tokens: Vec<Token>,
        most: u32,
        head: Head,
    ) -> Result<Gateway, AllocError>
        ensures { IfOk result (λ x. (cap : ℕ) (h : spec_gate.Head) → IsBehind (start cap) engine → IsHead h head
            → IsGate (gate_at_start cap tokens.items most h []) x) }
    {
        let clients = Hall::new(alloc, most)?;
        Ok(Gateway {
            alloc,
            engine,
            seats: Vec::new(alloc),
            feeds: Vec::new(alloc),
            clients,
            names: head.names,
            log: head.log,
            leads: false,
            position: head.position,
            settled: head.position,
            pending: Vec::new(alloc),
            shape: Vec::new(alloc),
            tokens,
            scratch: Scratch::new(alloc),
            tally: Tally::new(),
            dead: false,
        })
    }

    /// Whether a message of the client would be done now. Who reads a socket leaves it unread while that is not so.
    pub fn is_heard(&self, client: u32) -> bool
        ensures { (g : Gate) → IsGate g self.now → g.dead ≡ false → result ≡ is_heard g client }
    {
        match self.clients.places().get(client as usize) {
            Some(Some(it)) => it.may_ask(),
            _ => false,
        }
    }

    /// The role of a client, if the number has one.
    pub fn role_of(&self, client: u32) -> Option<&str>
        ensures { (g : Gate) → IsGate g self.now → g.dead ≡ false
            → option_map (λ r. r.now) result ≡ option_map (λ c. c.role) (client_at g.clients client) }
    {
        match self.clients.places().get(client as usize) {
            Some(Some(it)) => Some(it.role()),
            _ => None,
        }
    }

    /// The SHA-256 of the token by which a client came, if the number has one.
    pub fn digest_of(&self, client: u32) -> Option<&[u8]>
        ensures { (g : Gate) → IsGate g self.now → g.dead ≡ false
            → option_map (λ d. d.now) result ≡ option_map (λ c. c.digest) (client_at g.clients client) }
    {
        match self.clients.places().get(client as usize) {
            Some(Some(it)) => Some(it.digest()),
            _ => None,
        }
    }

    /// Who holds the token by which a client came, if the number has one: no text where that is not said.
    pub fn user_of(&self, client: u32) -> Option<&str>
        ensures { (g : Gate) → IsGate g self.now → g.dead ≡ false
            → option_map (λ u. u.now) result ≡ option_map (λ c. c.user) (client_at g.clients client) }
    {
        match self.clients.places().get(client as usize) {
            Some(Some(it)) => Some(it.user()),
            _ => None,
        }
    }

    /// Where the log stands that is followed.
    pub fn position(&self) -> u64
        ensures { (g : Gate) → IsGate g self.now → g.dead ≡ false → result ≡ position g }
    {
        self.position
    }

    /// Up to where the journal has the log on disk: what its source is to be told, and nothing beyond it.
    pub fn settled_at(&self) -> u64
        ensures { (g : Gate) → IsGate g self.now → g.dead ≡ false → result ≡ settled_at g }
    {
        self.settled
    }

    /// Whether the client is to go: its text is gone, and its socket is to be closed.
    pub fn is_dropped(&self, client: u32) -> bool
        ensures { (g : Gate) → IsGate g self.now → g.dead ≡ false → result ≡ if_some (client_at g.clients client) false (λ c. c.dropped) }
    {
        match self.clients.places().get(client as usize) {
            Some(Some(it)) => it.is_dropped(),
            _ => false,
        }
    }

    /// What waits for the journal has no more bytes than that, unless it is the greatest number. What clients are told raises it by its
    /// bytes, and `settle` makes it 0.
    pub fn waiting(&self) -> u64
        ensures { (g : Gate) → IsGate g self.now → g.dead ≡ false → WaitsWithin g result }
    {
        self.clients.waiting()
    }

    /// What is counted of messages since the start.
    pub fn tally(&self) -> &Tally {
        &self.tally
    }

    /// The lines of the entries that wait for the journal.
    pub fn entered(&self) -> &[OwnedLine]
        ensures { (g : Gate) → IsGate g self.now → g.dead ≡ false → result.now ≡ journal_of (drop g.kept g.entries) }
    {
        &self.pending
    }

    /// The numbers of those who were told something that they have not taken, or who are to go: all to whom something may be sent, each
    /// once, and nobody else. A number leaves when its text is taken, unless something waits for the journal or its client is to go, and
    /// when its client goes. The last number takes its place, so who takes as it goes over them begins at the last.
    pub fn told(&self) -> &[u32]
        ensures listed { (g : Gate) (m : ℕ) (c : spec.Client) → IsGate g self.now → g.dead ≡ false → client_at g.clients m ≡ Some c → is_due (kept c) ≡ true
            → Contains result.now m }
        ensures only { (g : Gate) (m : ℕ) → IsGate g self.now → g.dead ≡ false → Contains result.now m
            → if_some (client_at g.clients m) false (λ c. is_told (kept c)) ≡ true }
        ensures once { IsDistinct eqb result.now }
    {
        self.clients.told()
    }
}
