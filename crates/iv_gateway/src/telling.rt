//! What clients are told: one thing, the lines of a command and what it grants, and that this is all.
ghost use Rattle.std.specs.Prelude.{◌≡◌, [], OnOk, map, option_map};
ghost use Rattle.iv_access.specs.Rights.{Name};
ghost use Rattle.iv_command.specs.Views.{line_of, reply_of};
ghost use Rattle.iv_machine.specs.Act.{Command};
ghost use Rattle.iv_machine.specs.State.{Frame};
ghost use Rattle.iv_message.specs.Seen.{id_data};
ghost use Rattle.iv_message.specs.Told.{Told, fault, replied, told_text};
ghost use Rattle.iv_gate.specs.Gate.{Gate, granted_by, ran, reply_in, settles, tells};
ghost use Rattle.iv_notices.specs.Granting.{IsGranting};
ghost use Rattle.iv_gateway.specs.Views.{IsAlive, IsRun};

use crate::gateway::Gateway;
use iv_clients::drop_ended;
use iv_command::{Line, Refusal, Reply};
use iv_message::{Id, push_fault, push_replied, push_settled};
use iv_notices::{Grants, hear_grants};
use std::alloc::AllocError;

impl Gateway {
    /// Has a text told to a client.
    pub(crate) fn tell(&mut self, client: u32, text: &[u8]) -> Result<(), AllocError>
        ensures { OnOk result ((g : Gate) (t : Told) → IsAlive g self.old → told_text t ≡ text.now → IsAlive (tells g client t) self.new) }
    {
        self.clients.hold(client, text)?;
        Ok(())
    }

    /// Has a reply told to a client.
    pub(crate) fn reply(
        &mut self,
        client: u32,
        id: &Option<Id>,
        reply: &Reply,
    ) -> Result<(), AllocError>
        ensures { OnOk result ((g : Gate) → IsAlive g self.old
            → IsAlive (tells g client (replied (option_map id_data id.now) (reply_of reply.now))) self.new) }
    {
        let mut text = Vec::new(self.alloc);
        push_replied(self.alloc, &mut text, id, reply)?;
        self.tally.reply(reply);
        self.tell(client, &text)?;
        Ok(())
    }

    /// Has the reply told to a client that the lines of a command begin with.
    pub(crate) fn reply_first(
        &mut self,
        client: u32,
        id: &Option<Id>,
        lines: &[Line],
    ) -> Result<(), AllocError>
        ensures { OnOk result ((g : Gate) → IsAlive g self.old
            → IsAlive (tells g client (replied (option_map id_data id.now) (reply_in (map line_of lines.now)))) self.new) }
    {
        match lines.first() {
            Some(Line::Reply { reply, .. }) => {
                self.reply(client, id, reply)?;
                Ok(())
            }
            _ => {
                let reply = Reply::Refused(Refusal::NoSession);
                self.reply(client, id, &reply)?;
                Ok(())
            }
        }
    }

    /// Has the number of a refusal alone told to a client.
    pub(crate) fn refuse(&mut self, client: u32, number: u64) -> Result<(), AllocError>
        ensures { OnOk result ((g : Gate) → IsAlive g self.old → IsAlive (tells g client (fault number)) self.new) }
    {
        let mut text = Vec::new(self.alloc);
        push_fault(self.alloc, &mut text, number)?;
        self.tally.refuse(number as usize);
        self.tell(client, &text)?;
        Ok(())
    }

    /// Has the lines of a command told that grants nothing. What ended is shared no more.
    pub(crate) fn hear_plain(&mut self, lines: &[Line]) -> Result<(), AllocError>
        ensures { OnOk result ((g : Gate) (k : Command) → IsRun g k (map line_of lines.now) self.old
            → ((f : Frame) (role : Name) → granted_by f k.act role ≡ []) → IsAlive (ran g k) self.new) }
    {
        self.clients.hear(self.alloc, &self.feeds, lines)?;
        self.clients.stay(lines);
        drop_ended(&mut self.feeds, lines);
        Ok(())
    }

    /// Has the lines of a command told, and what it grants. What ended is shared no more.
    pub(crate) fn hear(&mut self, lines: &[Line], grants: &Grants) -> Result<(), AllocError>
        ensures { OnOk result ((g : Gate) (k : Command) → IsRun g k (map line_of lines.now) self.old → IsGranting k.act grants.now
            → IsAlive (ran g k) self.new) }
    {
        self.clients.hear(self.alloc, &self.feeds, lines)?;
        hear_grants(self.alloc, &mut self.clients, &self.engine, lines, grants)?;
        self.clients.stay(lines);
        drop_ended(&mut self.feeds, lines);
        Ok(())
    }

    /// Tells all to whom something was told that this is all.
    pub(crate) fn settle_told(&mut self) -> Result<(), AllocError>
        ensures { OnOk result ((g : Gate) → IsAlive g self.old → IsAlive (settles g) self.new) }
    {
        let mut text = Vec::new(self.alloc);
        push_settled(&mut text)?;
        self.clients.settle(&text)?;
        Ok(())
    }
}
