//! What happens to a gateway: clients come and go, tokens change, all are told that the line is alive, the journal is synced. After a
//! fault the gateway is dead.
ghost use Rattle.std.specs.Prelude.{◌≡◌, ◌++◌, option_map, [], ℕ, IfOk, OnErr, OnOk, false, is_some, take, true};
ghost use Rattle.iv_rows.specs.Options.{if_some};
ghost use Rattle.iv_clients.specs.Clients.{client_at, text_shown};
ghost use Rattle.iv_gate.specs.Events.{failed, forgave, gone, handed, known, led, next, on_disk, presented, synced, ticked, ticking};
ghost use Rattle.iv_gate.specs.Gate.{Gate, token_for};
ghost use Rattle.iv_gateway.specs.Views.{IsAlive, IsGate};

use crate::gateway::{Gateway, GatewayFault};
use crate::journal::Journal;
use iv_clients::Token;
use iv_message::laws::told_texts_are_lines;
use iv_message::push_alive;
use std::alloc::AllocError;

impl Gateway {
    /// A client goes; what only it needed is closed and finished.
    ///
    /// # Errors
    /// `Memory` if a growth of memory was refused; `Dead` if there was a fault before. The gateway is dead then.
    pub fn left(&mut self, client: u32) -> Result<(), GatewayFault>
        ensures gate { OnOk result ((g : Gate) → IsGate g self.old → IsGate (next g (gone client)) self.new) }
        ensures fails { OnErr result ((g : Gate) → IsGate g self.old → IsGate (next g failed) self.new) }
    {
        if self.dead {
            return Err(GatewayFault::Dead);
        }
        match self.go(client) {
            Ok(()) => {
                self.dead = false;
                Ok(())
            }
            Err(_) => {
                self.dead = true;
                Err(GatewayFault::Memory)
            }
        }
    }

    /// These tokens are known from now on. Who came by another is to go.
    pub fn know(&mut self, tokens: Vec<Token>)
        ensures { (g : Gate) → IsGate g self.old → IsGate (next g (known tokens.items)) self.new }
    {
        if !self.dead {
            self.clients.check(&tokens);
            self.tokens = tokens;
        }
    }

    fn beat(&mut self) -> Result<(), AllocError>
        ensures { OnOk result ((g : Gate) → IsAlive g self.old → IsAlive (ticking g) self.new) }
    {
        let mut text = Vec::new(self.alloc);
        push_alive(&mut text)?;
        self.clients.beat(&text)?;
        Ok(())
    }

    /// Tells all that the line is alive.
    ///
    /// # Errors
    /// As of `left`.
    pub fn tick(&mut self) -> Result<(), GatewayFault>
        ensures gate { OnOk result ((g : Gate) → IsGate g self.old → IsGate (next g ticked) self.new) }
        ensures fails { OnErr result ((g : Gate) → IsGate g self.old → IsGate (next g failed) self.new) }
    {
        if self.dead {
            return Err(GatewayFault::Dead);
        }
        match self.beat() {
            Ok(()) => {
                self.dead = false;
                Ok(())
            }
            Err(_) => {
                self.dead = true;
                Err(GatewayFault::Memory)
            }
        }
    }

    /// The journal has all entries: what waits for it may be sent.
    fn release(&mut self) -> Result<(), AllocError>
        ensures { OnOk result ((g : Gate) → IsAlive g self.old → IsAlive (on_disk g) self.new) }
    {
        self.pending.clear();
        self.settled = self.position;
        self.clients.release()?;
        Ok(())
    }

    /// Has the journal keep what is pending, and only then lets be sent what waits for it.
    ///
    /// # Errors
    /// `Journal` if the journal fails; `Memory` and `Dead` as of `left`. The journal has a front of the lines that were pending then, after what it
    /// had; a dead gateway gives it nothing.
    pub fn settle<J: Journal>(&mut self, journal: &mut J) -> Result<(), GatewayFault>
        ensures gate { OnOk result ((g : Gate) → IsGate g self.old → IsGate (next g synced) self.new) }
        ensures kept { OnOk result (J.kept journal.new ≡ option_map (λ ls. ls ++ self.old.pending.items) (J.kept journal.old)) }
        ensures torn { OnErr result ((n : ℕ) × (J.kept journal.new ≡ option_map (λ ls. ls ++ take n self.old.pending.items) (J.kept journal.old))) }
        ensures unwritten { self.old.dead ≡ true → journal.new ≡ journal.old }
        ensures fails { OnErr result ((g : Gate) → IsGate g self.old → IsGate (next g failed) self.new) }
    {
        if self.dead {
            return Err(GatewayFault::Dead);
        }
        match journal.append(&self.pending) {
            Ok(()) => {}
            Err(_) => {
                self.dead = true;
                return Err(GatewayFault::Journal);
            }
        }
        match self.release() {
            Ok(()) => {
                self.dead = false;
                Ok(())
            }
            Err(_) => {
                self.dead = true;
                Err(GatewayFault::Memory)
            }
        }
    }

    /// The log that is followed is led from now on, if one is: requests with names are decided here, each as its next step. Who keeps the log
    /// has to have each of them, before `settle` lets anyone be told.
    pub fn lead(&mut self)
        ensures { (g : Gate) → IsGate g self.old → IsGate (next g led) self.new }
    {
        if !self.dead {
            self.leads = self.log.is_some();
        }
    }

    /// Forgives names that were refused: once a minute.
    pub fn forgive(&mut self)
        ensures { (g : Gate) → IsGate g self.old → IsGate (next g forgave) self.new }
    {
        if !self.dead {
            self.names.forgive();
        }
    }

    /// Takes what a client may be sent, which the gateway has no more. A dead one gives nothing.
    pub fn take(&mut self, client: u32) -> Vec<u8>
        ensures bytes { (g : Gate) → IsGate g self.old → g.dead ≡ false → result.items ≡ if_some (client_at g.clients client) [] (λ c. text_shown c.sendable) }
        ensures dead { self.old.dead ≡ true → result.items ≡ [] }
        ensures gate { (g : Gate) → IsGate g self.old → IsGate (next g (handed client)) self.new }
    {
        if self.dead {
            return Vec::new(self.alloc);
        }
        told_texts_are_lines();
        self.clients.take(self.alloc, client)
    }

    /// Lets in who presents a token, as the client of a number that nobody has, in the role that the token opens. Whether it came in.
    ///
    /// # Errors
    /// As of `left`.
    pub fn admit(&mut self, client: u32, token: &[u8]) -> Result<bool, GatewayFault>
        ensures gate { OnOk result ((g : Gate) → IsGate g self.old → IsGate (next g (presented client token.now)) self.new) }
        ensures came { IfOk result (λ is. (g : Gate) → IsGate g self.old → is ≡ is_some (token_for g client token.now)) }
        ensures fails { OnErr result ((g : Gate) → IsGate g self.old → IsGate (next g failed) self.new) }
    {
        if self.dead {
            return Err(GatewayFault::Dead);
        }
        match self.come(client, token) {
            Ok(is_in) => {
                self.dead = false;
                Ok(is_in)
            }
            Err(_) => {
                self.dead = true;
                Err(GatewayFault::Memory)
            }
        }
    }
}
