//! `Desk`: the peers by their numbers, and the gateway whose clients have the same numbers.
ghost use Rattle.std.specs.Prelude.{◌≡◌, ◌++◌, ℕ, [], Err, IfErr, IfOk, OnErr, OnOk, drop, false, option_map, take, true};
ghost use Rattle.iv_clients.specs.Clients.{client_at, is_free};
ghost use Rattle.iv_records.specs.Journal.{journal_of};
ghost use Rattle.iv_gate.specs.Arriving.{position, settled_at};
ghost use Rattle.iv_gate.specs.Events.{IsWell, arrived, failed, forgave, known, led, synced, ticked};
ghost use Rattle.iv_gate.specs.Gate.{Gate};
ghost use Rattle.iv_gate.specs.Restoring.{IsDamagedAt};
ghost use Rattle.iv_gateway.specs.Arriving.{IsFaultOf, IsTakenBy};
ghost use Rattle.iv_gateway.specs.Replays.{IsNew};
ghost use Rattle.iv_gateway.specs.Views.{IsGate};
ghost use Rattle.iv_gateway.specs.Waiting.{WaitsWithin};
ghost use Rattle.iv_peer.specs.Socket.{closed, passing, took};
ghost use Rattle.iv_desk.specs.Front.{Front, at_socket, begun, by_event, dismissed, front_at_start, left, may_tell, offered};
ghost use Rattle.iv_desk.specs.Desks.{IsCalledOut, IsDesk, IsHeard, IsRestored, is_over_at, pending_at};

use crate::place::{Hearing, Place};
use crate::places::{
    close_at, dismiss_told, empty_places, hear_at, is_free, offer_told, pass_at, put_at, read_at,
};
use iv_arrivals::{Step, Tally};
use iv_clients::Token;
use iv_gate::laws::events_leave_their_marks;
use iv_gateway::{Gateway, GatewayFault, Journal, RestoreFault, StepFault};
use iv_journal::Line;
use iv_records::OwnedLine;
use std::alloc::{AllocError, Global};

/// Peers by their numbers, and the gateway whose clients have the same numbers. After a fault it is dead: it hears, tells and offers nothing
/// any more, and nothing is pending.
#[derive(Drop)]
pub struct Desk {
    /// The allocator of what it makes.
    alloc: Global,
    /// The gateway that answers the clients.
    gateway: Gateway,
    /// The peer of each number, if there is one.
    places: Vec<Option<Place>>,
    /// Whether there was a fault.
    dead: bool,
}

impl Desk {
    /// A desk at which nobody is, with places for as many, before a gateway that has no client and was no fault of.
    ///
    /// # Errors
    /// `AllocError` if a growth of memory was refused.
    pub fn new(alloc: Global, gateway: Gateway, most: u32) -> Result<Desk, AllocError>
        ensures { IfOk result (λ x. (g : Gate) → IsGate g gateway → g.dead ≡ false → IsDesk (front_at_start g most) x) }
    {
        let places = empty_places(alloc, most)?;
        Ok(Desk {
            alloc,
            gateway,
            places,
            dead: false,
        })
    }

    /// Brings the gateway to where a journal leads, of which it is given the lines of whole records.
    ///
    /// # Errors
    /// Those of the gateway's `restore`. The desk is dead then.
    pub fn restore(&mut self, journal: &[Line<'_>]) -> Result<(), RestoreFault>
        ensures restored { OnOk result ((d : Front) → IsNew d.gate → IsDesk d self.old → IsRestored d journal.now self.new) }
        ensures damaged { (place : ℕ) → result ≡ Err (RestoreFault.Damaged place) → (d : Front) → IsNew d.gate → IsDesk d self.old
            → IsDamagedAt d.gate journal.now place }
        ensures fails { OnErr result ((d : Front) → IsDesk d self.old → IsDesk (by_event failed d) self.new) }
    {
        if self.dead {
            return Err(RestoreFault::Late);
        }
        match self.gateway.restore(journal) {
            Ok(()) => Ok(()),
            Err(fault) => {
                self.dead = true;
                Err(fault)
            }
        }
    }

    /// A connection begins at a number that none has. Whether it does.
    pub fn accept(&mut self, at: u32) -> bool
        ensures begins { (d : Front) → IsDesk d self.old → IsDesk (begun at d) self.new }
        ensures answer { (d : Front) → IsDesk d self.old → d.gate.dead ≡ false → result ≡ is_free at d.sockets }
        ensures dead { (d : Front) → IsDesk d self.old → d.gate.dead ≡ true → result ≡ false }
    {
        if self.dead {
            return false;
        }
        if !is_free(&self.places, at) {
            return false;
        }
        let place = Place::new(self.alloc);
        put_at(&mut self.places, at, Some(place));
        true
    }

    /// Takes in bytes that were read at a number, and hears all that may be heard now. What is left.
    ///
    /// # Errors
    /// `Memory` if a growth of memory was refused; `Dead` if there was a fault before. The desk is dead then.
    pub fn read(&mut self, at: u32, bytes: &[u8]) -> Result<Hearing, GatewayFault>
        ensures heard { IfOk result (λ hearing. (d : Front) → IsDesk d self.old → IsHeard (at_socket at (took bytes.now) d) at hearing self.new) }
        ensures fails { OnErr result ((d : Front) → IsDesk d self.old → IsDesk (by_event failed d) self.new) }
        ensures dead { (d : Front) → IsDesk d self.old → d.gate.dead ≡ true → result ≡ Err GatewayFault.Dead }
    {
        if self.dead {
            return Err(GatewayFault::Dead);
        }
        match read_at(&mut self.gateway, at, &mut self.places, bytes) {
            Ok(hearing) => Ok(hearing),
            Err(fault) => {
                self.dead = true;
                Err(fault)
            }
        }
    }

    /// Hears on at a number that was held, after a `settle`. What is left.
    ///
    /// # Errors
    /// As of `read`.
    pub fn resume(&mut self, at: u32) -> Result<Hearing, GatewayFault>
        ensures heard { IfOk result (λ hearing. (d : Front) → IsDesk d self.old → IsHeard d at hearing self.new) }
        ensures fails { OnErr result ((d : Front) → IsDesk d self.old → IsDesk (by_event failed d) self.new) }
        ensures dead { (d : Front) → IsDesk d self.old → d.gate.dead ≡ true → result ≡ Err GatewayFault.Dead }
    {
        if self.dead {
            return Err(GatewayFault::Dead);
        }
        match hear_at(&mut self.gateway, at, &mut self.places) {
            Ok(hearing) => Ok(hearing),
            Err(fault) => {
                self.dead = true;
                Err(fault)
            }
        }
    }

    /// The connection of a number is gone, and its client with it. The number is free.
    ///
    /// # Errors
    /// As of `read`.
    pub fn leave(&mut self, at: u32) -> Result<(), GatewayFault>
        ensures front { OnOk result ((d : Front) → IsDesk d self.old → IsDesk (left at d) self.new) }
        ensures fails { OnErr result ((d : Front) → IsDesk d self.old → IsDesk (by_event failed d) self.new) }
        ensures dead { (d : Front) → IsDesk d self.old → d.gate.dead ≡ true → result ≡ Err GatewayFault.Dead }
    {
        if self.dead {
            return Err(GatewayFault::Dead);
        }
        events_leave_their_marks();
        put_at(&mut self.places, at, None);
        match self.gateway.left(at) {
            Ok(()) => Ok(()),
            Err(fault) => {
                self.dead = true;
                Err(fault)
            }
        }
    }

    /// Has the journal keep what is pending there, and only then offers each peer what its client may be sent, in one message, if all that
    /// it was offered before was sent. One whose client is to go is closed.
    ///
    /// # Errors
    /// `Journal` if the journal fails; else as of `read`. The journal has a front of the lines that were pending then, after what it had; a dead
    /// desk gives it nothing.
    pub fn settle<J: Journal>(&mut self, journal: &mut J) -> Result<(), GatewayFault>
        ensures kept { OnOk result ((d : Front) → IsDesk d self.old → d.gate.dead ≡ false
            → J.kept journal.new ≡ option_map (λ ls. ls ++ journal_of (drop d.gate.kept d.gate.entries)) (J.kept journal.old)) }
        ensures torn { OnErr result ((d : Front) → IsDesk d self.old → d.gate.dead ≡ false
            → (n : ℕ) × (J.kept journal.new ≡ option_map (λ ls. ls ++ take n (journal_of (drop d.gate.kept d.gate.entries))) (J.kept journal.old))) }
        ensures unwritten { (d : Front) → IsDesk d self.old → d.gate.dead ≡ true → journal.new ≡ journal.old }
        ensures front { OnOk result ((d : Front) → IsDesk d self.old → IsCalledOut offered (by_event synced d) self.new) }
        ensures fails { OnErr result ((d : Front) → IsDesk d self.old → IsDesk (by_event failed d) self.new) }
        ensures dead { (d : Front) → IsDesk d self.old → d.gate.dead ≡ true → result ≡ Err GatewayFault.Dead }
    {
        if self.dead {
            return Err(GatewayFault::Dead);
        }
        events_leave_their_marks();
        match self.gateway.settle(journal) {
            Ok(()) => {}
            Err(fault) => {
                self.dead = true;
                return Err(fault);
            }
        }
        match offer_told(self.alloc, &mut self.gateway, &mut self.places) {
            Ok(()) => Ok(()),
            Err(_) => {
                self.dead = true;
                Err(GatewayFault::Memory)
            }
        }
    }

    /// These tokens are known from now on. Who came by another is closed.
    ///
    /// # Errors
    /// As of `read`.
    pub fn know(&mut self, tokens: Vec<Token>) -> Result<(), GatewayFault>
        ensures front { OnOk result ((d : Front) → IsDesk d self.old → IsCalledOut dismissed (by_event (known tokens.items) d) self.new) }
        ensures fails { OnErr result ((d : Front) → IsDesk d self.old → IsDesk (by_event failed d) self.new) }
        ensures dead { (d : Front) → IsDesk d self.old → d.gate.dead ≡ true → result ≡ Err GatewayFault.Dead }
    {
        if self.dead {
            return Err(GatewayFault::Dead);
        }
        events_leave_their_marks();
        self.gateway.know(tokens);
        match dismiss_told(&self.gateway, &mut self.places) {
            Ok(()) => Ok(()),
            Err(_) => {
                self.dead = true;
                Err(GatewayFault::Memory)
            }
        }
    }

    /// Takes a step of the log that is followed, of which its clients are told once what differs. Whether it was not taken before.
    ///
    /// # Errors
    /// Why it is not taken. The desk is dead then.
    pub fn take_step(&mut self, step: Step) -> Result<bool, StepFault>
        requires { IsWell (arrived step) }
        ensures front { OnOk result ((d : Front) → IsDesk d self.old → IsDesk (by_event (arrived step) d) self.new) }
        ensures taken { IfOk result (λ is. (d : Front) → IsDesk d self.old → d.gate.dead ≡ false → IsTakenBy d.gate step is) }
        ensures fault { IfErr result (λ f. (d : Front) → IsDesk d self.old → d.gate.dead ≡ false → IsFaultOf d.gate step f) }
        ensures fails { OnErr result ((d : Front) → IsDesk d self.old → IsDesk (by_event failed d) self.new) }
        ensures dead { (d : Front) → IsDesk d self.old → d.gate.dead ≡ true → result ≡ Err StepFault.Dead }
    {
        if self.dead {
            drop(step);
            return Err(StepFault::Dead);
        }
        events_leave_their_marks();
        match self.gateway.take_step(step) {
            Ok(is) => Ok(is),
            Err(fault) => {
                self.dead = true;
                Err(fault)
            }
        }
    }

    /// Tells all clients that the line is alive.
    ///
    /// # Errors
    /// As of `read`.
    pub fn tick(&mut self) -> Result<(), GatewayFault>
        ensures front { OnOk result ((d : Front) → IsDesk d self.old → IsDesk (by_event ticked d) self.new) }
        ensures fails { OnErr result ((d : Front) → IsDesk d self.old → IsDesk (by_event failed d) self.new) }
        ensures dead { (d : Front) → IsDesk d self.old → d.gate.dead ≡ true → result ≡ Err GatewayFault.Dead }
    {
        if self.dead {
            return Err(GatewayFault::Dead);
        }
        events_leave_their_marks();
        match self.gateway.tick() {
            Ok(()) => Ok(()),
            Err(fault) => {
                self.dead = true;
                Err(fault)
            }
        }
    }

    /// The log that is followed is led from now on, if one is: requests with names are decided here. A dead desk does nothing.
    pub fn lead(&mut self)
        ensures { (d : Front) → IsDesk d self.old → IsDesk (by_event led d) self.new }
    {
        events_leave_their_marks();
        if self.dead {
            return;
        }
        self.gateway.lead();
    }

    /// Forgives names that were refused: once a minute. A dead desk does nothing.
    pub fn forgive(&mut self)
        ensures { (d : Front) → IsDesk d self.old → IsDesk (by_event forgave d) self.new }
    {
        events_leave_their_marks();
        if self.dead {
            return;
        }
        self.gateway.forgive();
    }

    /// Closes the connection of a number by a code and words that tell why, if it is open. Nothing more is heard or told at it. The code is
    /// one that may be sent (1000 to 1003, 1007 to 1014, 3000 to 4999), and the words have at most 123 bytes.
    ///
    /// # Errors
    /// As of `read`.
    pub fn close(&mut self, at: u32, code: u16, words: &[u8]) -> Result<(), GatewayFault>
        requires told { may_tell code words.now ≡ true }
        ensures front { OnOk result ((d : Front) → IsDesk d self.old → IsDesk (at_socket at (closed code words.now) d) self.new) }
        ensures fails { OnErr result ((d : Front) → IsDesk d self.old → IsDesk (by_event failed d) self.new) }
        ensures dead { (d : Front) → IsDesk d self.old → d.gate.dead ≡ true → result ≡ Err GatewayFault.Dead }
    {
        if self.dead {
            return Err(GatewayFault::Dead);
        }
        match close_at(&mut self.places, at, code, words) {
            Ok(()) => Ok(()),
            Err(_) => {
                self.dead = true;
                Err(GatewayFault::Memory)
            }
        }
    }

    /// The role of the client of a number, if one has come in there.
    pub fn role_of(&self, at: u32) -> Option<&str>
        ensures { (d : Front) → IsDesk d self.now → d.gate.dead ≡ false
            → option_map (λ r. r.now) result ≡ option_map (λ c. c.role) (client_at d.gate.clients at) }
    {
        self.gateway.role_of(at)
    }

    /// The SHA-256 of the token by which the client of a number came in.
    pub fn digest_of(&self, at: u32) -> Option<&[u8]>
        ensures { (d : Front) → IsDesk d self.now → d.gate.dead ≡ false
            → option_map (λ b. b.now) result ≡ option_map (λ c. c.digest) (client_at d.gate.clients at) }
    {
        self.gateway.digest_of(at)
    }

    /// Who holds the token by which the client of a number came in: no text if that is not said.
    pub fn user_of(&self, at: u32) -> Option<&str>
        ensures { (d : Front) → IsDesk d self.now → d.gate.dead ≡ false
            → option_map (λ u. u.now) result ≡ option_map (λ c. c.user) (client_at d.gate.clients at) }
    {
        self.gateway.user_of(at)
    }

    /// What waits for the journal has no more bytes than that, unless it is the greatest number. What clients are told raises it by its
    /// bytes, and `settle` makes it 0.
    pub fn waiting(&self) -> u64
        ensures { (d : Front) → IsDesk d self.now → d.gate.dead ≡ false → WaitsWithin d.gate result }
    {
        self.gateway.waiting()
    }

    /// Where the log stands that is followed, or led.
    pub fn position(&self) -> u64
        ensures { (d : Front) → IsDesk d self.now → d.gate.dead ≡ false → result ≡ position d.gate }
    {
        self.gateway.position()
    }

    /// Up to where the log that is followed is on disk: what its source is to be told, and nothing beyond it.
    pub fn settled_at(&self) -> u64
        ensures { (d : Front) → IsDesk d self.now → d.gate.dead ≡ false → result ≡ settled_at d.gate }
    {
        self.gateway.settled_at()
    }

    /// What is counted of messages since the start.
    pub fn tally(&self) -> &Tally {
        self.gateway.tally()
    }

    /// The lines of the entries that wait for the journal. A dead desk has none.
    pub fn entered(&self) -> &[OwnedLine]
        ensures lines { (d : Front) → IsDesk d self.now → d.gate.dead ≡ false → result.now ≡ journal_of (drop d.gate.kept d.gate.entries) }
        ensures dead { (d : Front) → IsDesk d self.now → d.gate.dead ≡ true → result.now ≡ [] }
    {
        if self.dead {
            &[]
        } else {
            self.gateway.entered()
        }
    }

    /// What is to be sent at a number.
    pub fn pending(&self, at: u32) -> &[u8]
        ensures { (d : Front) → IsDesk d self.now → result.now ≡ pending_at d at }
    {
        if self.dead {
            return &[];
        }
        match self.places.get(at as usize) {
            Some(Some(place)) => place.peer.pending(),
            _ => &[],
        }
    }

    /// The first bytes of what was pending at a number were sent, as many as that, if as many were pending.
    pub fn sent(&mut self, at: u32, count: usize)
        ensures { (d : Front) → IsDesk d self.old → IsDesk (at_socket at (passing count) d) self.new }
    {
        pass_at(&mut self.places, at, count);
    }

    /// Whether nothing more is heard or told at a number.
    pub fn is_over(&self, at: u32) -> bool
        ensures { (d : Front) → IsDesk d self.now → result ≡ is_over_at d at }
    {
        if self.dead {
            return true;
        }
        match self.places.get(at as usize) {
            Some(Some(place)) => place.peer.is_over(),
            _ => true,
        }
    }
}
