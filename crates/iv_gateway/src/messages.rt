//! `said`: a client sends a message, which is done if it is heard. Its client is told the reply before what it changes.
ghost use Rattle.std.specs.Prelude.{◌≡◌, ℕ, List, IfOk, OnErr, OnOk, Some, codes, false, option_map, true};
ghost use Rattle.iv_command.specs.Views.{act_of};
ghost use Rattle.iv_machine.specs.Well.{is_well_act};
ghost use Rattle.iv_message.specs.Message.{is_well_message, request, unknown};
ghost use Rattle.iv_message.specs.Seen.{id_data, said_of, why_of};
ghost use Rattle.iv_message.specs.Told.{unasked};
ghost use Rattle.iv_clients.specs.Clients as spec;
ghost use Rattle.iv_clients.specs.Clients.{client_at, saying};
ghost use Rattle.iv_records.specs.Journal.{claim_said, is_shared, line_said};
ghost use Rattle.iv_clients.specs.Kept.{kept};
ghost use Rattle.iv_gate.specs.Events.{failed, message, next};
ghost use Rattle.iv_gate.specs.Gate.{Gate, acts, done_for, hears, is_heard, said, tells};
ghost use Rattle.iv_arrivals.specs.Speaking.{speaking};
ghost use Rattle.iv_gateway.specs.Views.{IsAlive, IsGate};

use crate::gateway::{Gateway, GatewayFault};
use iv_arrivals::{Asked, Speaker, speaker_at};
use iv_clients::Client;
use iv_command::Act;
use iv_gate::laws::events_leave_their_marks;
use iv_message::{Id, Message, Why, push_unasked};
use iv_records::{Claim, Said, is_shared, read_said};
use std::alloc::AllocError;

impl Gateway {
    /// A client sends a message, which is done if it is heard. Whether it is; what is not heard is to be sent again once it is.
    ///
    /// # Errors
    /// As of `left`.
    pub fn said(&mut self, client: u32, text: &[u8]) -> Result<bool, GatewayFault>
        ensures gate { OnOk result ((g : Gate) → IsGate g self.old → IsGate (next g (message client text.now)) self.new) }
        ensures heard { IfOk result (λ is. (g : Gate) → IsGate g self.old → is ≡ is_heard g client) }
        ensures fails { OnErr result ((g : Gate) → IsGate g self.old → IsGate (next g failed) self.new) }
    {
        if self.dead {
            return Err(GatewayFault::Dead);
        }
        events_leave_their_marks();
        match self.listen(client, text) {
            Ok(is_heard) => {
                self.dead = false;
                Ok(is_heard)
            }
            Err(_) => {
                self.dead = true;
                Err(GatewayFault::Memory)
            }
        }
    }

    /// Has a message of a client done, if it is heard. Whether it is.
    fn listen(&mut self, client: u32, text: &[u8]) -> Result<bool, AllocError>
        ensures { IfOk result (λ is. (g : Gate) → IsAlive g self.old → (is ≡ is_heard g client) × IsAlive (said g client text.now) self.new) }
    {
        match speaker_at(self.alloc, self.clients.places(), client)? {
            None => Ok(false),
            Some(speaker) => {
                self.hear_message(client, &speaker, text)?;
                Ok(true)
            }
        }
    }

    /// Has a message done that is heard.
    fn hear_message(
        &mut self,
        client: u32,
        speaker: &Speaker,
        text: &[u8],
    ) -> Result<(), AllocError>
        ensures { OnOk result ((g : Gate) (c : spec.Client) → IsAlive g self.old → client_at g.clients client ≡ Some c → speaker.now ≡ speaking (kept c)
            → IsAlive (hears g client c text.now) self.new) }
    {
        self.clients.ask(client)?;
        let said = read_said(self.alloc, text, &mut self.scratch)?;
        self.tally.hear(&said.message);
        self.answer(client, speaker, said)?;
        self.settle_told()?;
        self.clients.answered(client, speaker.brought);
        Ok(())
    }

    /// Has done what a client says.
    fn answer(&mut self, client: u32, speaker: &Speaker, said: Said) -> Result<(), AllocError>
        requires { is_well_message (said_of said.message) ≡ true }
        ensures { OnOk result ((g : Gate) (c : spec.Client) (text : List ℕ) → IsAlive g self.old → client_at g.clients client ≡ Some (saying text c)
            → speaker.now ≡ speaking (kept c) → line_said text ≡ said.line.items → claim_said text ≡ said.claim
            → IsAlive (done_for g client c text (said_of said.message)) self.new) }
    {
        let Said {
            message,
            claim,
            line,
        } = said;
        match message {
            Message::NoJson => {
                self.refuse(client, 1)?;
                Ok(())
            }
            Message::TooLong => {
                self.refuse(client, 22)?;
                Ok(())
            }
            Message::NoObject => {
                self.refuse(client, 2)?;
                Ok(())
            }
            Message::NoRequest { id, why } => {
                self.refuse_object(client, &id, &why)?;
                Ok(())
            }
            Message::Request { id, act } => {
                self.act(client, speaker, &id, act, claim, &line)?;
                Ok(())
            }
        }
    }

    /// Has a client told why its object is no request.
    fn refuse_object(&mut self, client: u32, id: &Option<Id>, why: &Why) -> Result<(), AllocError>
        ensures { OnOk result ((g : Gate) → IsAlive g self.old → IsAlive (tells g client (unasked (option_map id_data id.now) (why_of why.now))) self.new) }
    {
        let mut text = Vec::new(self.alloc);
        push_unasked(self.alloc, &mut text, id, why)?;
        self.tally.refuse(2);
        self.tell(client, &text)?;
        Ok(())
    }

    /// Has a client told that what it asks has no name.
    fn refuse_name(&mut self, client: u32, id: &Option<Id>) -> Result<(), AllocError>
        ensures { OnOk result ((g : Gate) → IsAlive g self.old
            → IsAlive (tells g client (unasked (option_map id_data id.now) (unknown (codes "once")))) self.new) }
    {
        let why = Why::Unknown(String::from_str(self.alloc, "once")?);
        self.refuse_object(client, id, &why)?;
        Ok(())
    }

    /// Has done what a client asks, by its name if it has one. No message asks to begin a session or to finish one.
    fn act(
        &mut self,
        client: u32,
        speaker: &Speaker,
        id: &Option<Id>,
        act: Act,
        claim: Option<Claim>,
        line: &[u8],
    ) -> Result<(), AllocError>
        requires { is_well_act (act_of act) ≡ true }
        ensures { OnOk result ((g : Gate) (c : spec.Client) (text : List ℕ) → IsAlive g self.old → client_at g.clients client ≡ Some (saying text c)
            → speaker.now ≡ speaking (kept c) → line_said text ≡ line.now → claim_said text ≡ claim
            → IsAlive (done_for g client c text (request (option_map id_data id.now) (act_of act))) self.new) }
    {
        if is_shared(&act) {
            let asked = Asked {
                client,
                id,
                role: speaker.role.as_str(),
                line,
            };
            self.share(&asked, speaker.user.as_str(), act, claim)?;
            Ok(())
        } else if claim.is_some() {
            self.refuse_name(client, id)?;
            Ok(())
        } else {
            self.ask(client, speaker, id, &act)?;
            Ok(())
        }
    }

    /// Has done what a client asks for itself: it follows what its role reads, or closes its own number.
    fn ask(
        &mut self,
        client: u32,
        speaker: &Speaker,
        id: &Option<Id>,
        act: &Act,
    ) -> Result<(), AllocError>
        requires well { is_well_act (act_of act.now) ≡ true }
        requires own { is_shared (act_of act.now) ≡ false }
        ensures { OnOk result ((g : Gate) (c : spec.Client) (text : List ℕ) → IsAlive g self.old → client_at g.clients client ≡ Some (saying text c)
            → speaker.now ≡ speaking (kept c) → IsAlive (acts g client c (option_map id_data id.now) text (act_of act.now)) self.new) }
    {
        match act {
            Act::Subscribe { rel } => {
                let role = speaker.role.clone()?;
                let name = rel.clone()?;
                self.read(client, id, role, speaker.subs, name)?;
                Ok(())
            }
            Act::Unsubscribe { sub } => {
                self.close(client, id, *sub)?;
                Ok(())
            }
            _ => {
                self.refuse(client, 2)?;
                Ok(())
            }
        }
    }
}
