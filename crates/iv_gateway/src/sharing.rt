//! What changes what is shared: a request is done once by its name, if it has one, and its client is told the reply before what it changes.
ghost use Rattle.std.specs.Prelude.{◌≡◌, ℕ, OnOk, None, Some, Option, if◌then◌else◌, map, not, option_map, true, unwrap_or};
ghost use Rattle.iv_command.specs.Views.{act_of, line_of, refusal_of, reply_of};
ghost use Rattle.iv_machine.specs.Act.{Act as ActSpec, Reply as ReplySpec, refused};
ghost use Rattle.iv_machine.specs.Well.{is_well_act};
ghost use Rattle.iv_message.specs.Told.{answered, denied, undecided};
ghost use Rattle.iv_records.specs.Journal.{is_shared};
ghost use Rattle.iv_clients.specs.Clients as spec;
ghost use Rattle.iv_records.specs.Names.{place_text};
ghost use Rattle.iv_once.specs.Names.{Ask, verdict};
ghost use Rattle.iv_gate.specs.Gate.{Gate, answer_text, by_verdict, carries, decides, done_in, entered, entries_of, in_session, is_accepted};
ghost use Rattle.iv_gate.specs.Gate.{is_elsewhere, is_follower, names_of, next_position, number_here, place_of, replies_to, reply_in, shares, tells};
ghost use Rattle.iv_notices.specs.Granting.{IsGranting};
ghost use Rattle.iv_arrivals.specs.Speaking.{asked_id, request_of};
ghost use Rattle.iv_arrivals.specs.Entering.{made_of};
ghost use Rattle.iv_gateway.specs.Views.{IsAlive, IsRun};

use crate::gateway::Gateway;
use iv_arrivals::{
    Asked, answer_text, ask_of, first_reply, is_done, is_entered, place_text, push_entry,
    push_name, push_shape,
};
use iv_clients::seat_of;
use iv_command::{Act, Command, Line, Refusal, Reply};
use iv_message::{push_answered, push_denied, push_undecided};
use iv_notices::{Grants, clear_refused};
use iv_once::{Ask, Named, Verdict};
use iv_records::Claim;
use std::alloc::AllocError;

impl Gateway {
    /// Has a request told by which rule of the gateway it was not done.
    fn deny(&mut self, asked: &Asked<'_>, number: u64) -> Result<(), AllocError>
        ensures { OnOk result ((g : Gate) → IsAlive g self.old → IsAlive (tells g asked.now.client (denied (asked_id asked.now) number)) self.new) }
    {
        let mut text = Vec::new(self.alloc);
        push_denied(self.alloc, &mut text, asked.id, number)?;
        self.tell(asked.client, &text)?;
        Ok(())
    }

    /// Has a request told that it stays undecided whether it was done.
    fn leave(&mut self, asked: &Asked<'_>, number: u64) -> Result<(), AllocError>
        ensures { OnOk result ((g : Gate) → IsAlive g self.old → IsAlive (tells g asked.now.client (undecided (asked_id asked.now) number)) self.new) }
    {
        let mut text = Vec::new(self.alloc);
        push_undecided(self.alloc, &mut text, asked.id, number)?;
        self.tell(asked.client, &text)?;
        Ok(())
    }

    /// Has a request with a name told its answer, and where its holder's names stand.
    fn tell_answer(
        &mut self,
        asked: &Asked<'_>,
        holder: &str,
        again: bool,
        answer: &[u8],
    ) -> Result<(), AllocError>
        ensures { OnOk result ((g : Gate) → IsAlive g self.old
            → IsAlive (tells g asked.now.client (answered (asked_id asked.now) again (place_text (place_of g holder.now)) answer.now)) self.new) }
    {
        let at = place_text(self.alloc, &self.names, holder)?;
        let mut text = Vec::new(self.alloc);
        push_answered(self.alloc, &mut text, asked.id, again, at.as_str(), answer)?;
        self.tell(asked.client, &text)?;
        Ok(())
    }

    /// Where the log stands after the next entry, if it is led here.
    fn next_position(&self) -> Option<u64>
        ensures { (g : Gate) → IsAlive g self.now → result ≡ next_position g }
    {
        if !self.leads {
            return None;
        }
        self.position.checked_add(1)
    }

    /// Where it stands after an entry, if there is one.
    fn position_with(&self, is_entered: bool, next: Option<u64>) -> u64
        ensures { result ≡ (if is_entered then unwrap_or next self.now.position else self.now.position) }
    {
        if !is_entered {
            return self.position;
        }
        match next {
            None => self.position,
            Some(position) => position,
        }
    }

    /// The journal is to have a request that is accepted, and its name, if it has one. If the log is led here, that is its next step.
    fn enter_request(
        &mut self,
        asked: &Asked<'_>,
        name: Option<Named>,
        accepted: bool,
        made: &[u8],
    ) -> Result<(), AllocError>
        ensures { OnOk result ((g : Gate) (act : ActSpec) (by : Option Ask) (r : ReplySpec) → IsAlive g self.old → is_shared act ≡ true
            → accepted ≡ is_accepted r → name ≡ option_map (λ a. record { ask = a; refused = not (is_accepted r); answer = answer_text r }) by
            → made.now ≡ made_of asked.now act by r → IsAlive (entered g (entries_of (next_position g) (request_of asked.now act) by r)) self.new) }
    {
        let next = self.next_position();
        let position = self.position_with(is_entered(accepted, &name), next);
        push_entry(self.alloc, &mut self.pending, asked, &name, accepted, next)?;
        self.shape.extend_from_slice(made)?;
        push_name(&mut self.names, name)?;
        self.position = position;
        Ok(())
    }

    /// Has a request without a name told its reply, and the journal get it, if it is accepted.
    fn answer_plain(
        &mut self,
        asked: &Asked<'_>,
        reply: &Reply,
        made: &[u8],
    ) -> Result<(), AllocError>
        ensures { OnOk result ((g : Gate) (act : ActSpec) → IsAlive g self.old → is_shared act ≡ true
            → made.now ≡ made_of asked.now act None (reply_of reply.now)
            → IsAlive (replies_to g asked.now.client (asked_id asked.now) (request_of asked.now act) None (reply_of reply.now)) self.new) }
    {
        self.enter_request(asked, None, is_done(reply), made)?;
        self.reply(asked.client, asked.id, reply)?;
        Ok(())
    }

    /// Has a request with a name told its answer, and the journal get what it is to have of it.
    fn answer_named(
        &mut self,
        asked: &Asked<'_>,
        ask: Ask,
        reply: &Reply,
        made: &[u8],
    ) -> Result<(), AllocError>
        ensures { OnOk result ((g : Gate) (act : ActSpec) → IsAlive g self.old → is_shared act ≡ true
            → made.now ≡ made_of asked.now act (Some ask) (reply_of reply.now)
            → IsAlive (replies_to g asked.now.client (asked_id asked.now) (request_of asked.now act) (Some ask) (reply_of reply.now)) self.new) }
    {
        let is_accepted = is_done(reply);
        let holder = ask.holder.clone()?;
        let text = answer_text(self.alloc, reply)?;
        let answer = answer_text(self.alloc, reply)?;
        let named = Named {
            ask,
            refused: !is_accepted,
            answer,
        };
        self.enter_request(asked, Some(named), is_accepted, made)?;
        self.tell_answer(asked, holder.as_str(), false, &text)?;
        Ok(())
    }

    /// Has a request told its reply, and the journal get what it is to have of it.
    fn answer_request(
        &mut self,
        asked: &Asked<'_>,
        name: Option<Ask>,
        reply: &Reply,
        made: &[u8],
    ) -> Result<(), AllocError>
        ensures { OnOk result ((g : Gate) (act : ActSpec) → IsAlive g self.old → is_shared act ≡ true
            → made.now ≡ made_of asked.now act name (reply_of reply.now)
            → IsAlive (replies_to g asked.now.client (asked_id asked.now) (request_of asked.now act) name (reply_of reply.now)) self.new) }
    {
        match name {
            None => {
                self.answer_plain(asked, reply, made)?;
                Ok(())
            }
            Some(ask) => {
                self.answer_named(asked, ask, reply, made)?;
                Ok(())
            }
        }
    }

    /// Has a request told the reply that the engine's lines begin with, and the journal get what it is to have of it.
    fn answer_first(
        &mut self,
        asked: &Asked<'_>,
        name: Option<Ask>,
        lines: &[Line],
        made: &[u8],
    ) -> Result<(), AllocError>
        ensures { OnOk result ((g : Gate) (act : ActSpec) → IsAlive g self.old → is_shared act ≡ true
            → made.now ≡ made_of asked.now act name (reply_in (map line_of lines.now))
            → IsAlive (replies_to g asked.now.client (asked_id asked.now) (request_of asked.now act) name (reply_in (map line_of lines.now))) self.new) }
    {
        match first_reply(lines) {
            Some(reply) => {
                self.answer_request(asked, name, reply, made)?;
                Ok(())
            }
            None => {
                let reply = Reply::Refused(Refusal::NoSession);
                self.answer_request(asked, name, &reply, made)?;
                Ok(())
            }
        }
    }

    /// Has told what the engine answered a request, by what it makes of the shape if it is accepted, and what it grants. Its client is told
    /// the reply, then everybody what changed, and then administrators the request.
    fn tell_request(
        &mut self,
        asked: &Asked<'_>,
        name: Option<Ask>,
        made: &[u8],
        lines: &[Line],
        grants: &Grants,
    ) -> Result<(), AllocError>
        ensures { OnOk result ((g : Gate) (act : ActSpec) (n : ℕ) → IsRun g (in_session n act) (map line_of lines.now) self.old → is_shared act ≡ true
            → made.now ≡ made_of asked.now act name (reply_in (map line_of lines.now)) → IsGranting act grants.now
            → IsAlive (done_in g asked.now.client (asked_id asked.now) (request_of asked.now act) name n) self.new) }
    {
        self.answer_first(asked, name, lines, made)?;
        self.hear(lines, grants)?;
        self.inform(made)?;
        Ok(())
    }

    /// The engine answers a request in a session, and what it answers is told.
    fn request_in(
        &mut self,
        session: u32,
        asked: &Asked<'_>,
        name: Option<Ask>,
        act: Act,
    ) -> Result<(), AllocError>
        requires well { is_well_act (act_of act) ≡ true }
        requires shared { is_shared (act_of act) ≡ true }
        ensures { OnOk result ((g : Gate) → IsAlive g self.old
            → IsAlive (done_in g asked.now.client (asked_id asked.now) (request_of asked.now (act_of act)) name session) self.new) }
    {
        if session == 0 {
            return Err(AllocError);
        }
        let grants = Grants::of(&act)?;
        let mut made = Vec::new(self.alloc);
        push_shape(self.alloc, &mut made, asked.role, asked.line, &act)?;
        let lines = self.run(Command { session, act })?;
        clear_refused(&mut made, &lines);
        self.tell_request(asked, name, &made, &lines, &grants)?;
        Ok(())
    }

    /// Has a request told that it is refused.
    fn refuse_request(
        &mut self,
        asked: &Asked<'_>,
        name: Option<Ask>,
        refusal: Refusal,
    ) -> Result<(), AllocError>
        ensures { OnOk result ((g : Gate) (act : ActSpec) → IsAlive g self.old → is_shared act ≡ true
            → IsAlive (replies_to g asked.now.client (asked_id asked.now) (request_of asked.now act) name (refused (refusal_of refusal))) self.new) }
    {
        let reply = Reply::Refused(refusal);
        self.answer_request(asked, name, &reply, &[])?;
        Ok(())
    }

    /// Has a request done in a session of its client's role, where the shape has room for what it makes of it.
    fn carry(&mut self, asked: &Asked<'_>, name: Option<Ask>, act: Act) -> Result<(), AllocError>
        requires well { is_well_act (act_of act) ≡ true }
        requires shared { is_shared (act_of act) ≡ true }
        ensures { OnOk result ((g : Gate) → IsAlive g self.old
            → IsAlive (carries g asked.now.client (asked_id asked.now) (request_of asked.now (act_of act)) name) self.new) }
    {
        if !self.has_shape_room(&act) {
            self.refuse_request(asked, name, Refusal::Limit)?;
            return Ok(());
        }
        match seat_of(&self.seats, asked.role) {
            None => {
                self.refuse_request(asked, name, Refusal::NoSession)?;
                Ok(())
            }
            Some(session) => {
                self.request_in(session, asked, name, act)?;
                Ok(())
            }
        }
    }

    /// Whether a log is followed that others lead.
    fn is_follower(&self) -> bool
        ensures { (g : Gate) → IsAlive g self.now → result ≡ is_follower g }
    {
        if self.log.is_none() {
            return false;
        }
        self.next_position().is_none()
    }

    /// Whether what has this name, or none, is decided elsewhere.
    fn is_elsewhere(&self, name: &Option<Ask>) -> bool
        ensures { (g : Gate) → IsAlive g self.now → result ≡ is_elsewhere g name.now }
    {
        match name {
            None => self.log.is_some(),
            Some(_) => self.is_follower(),
        }
    }

    /// Has a request done, if it is decided here: else it is told that others decide.
    fn decide(&mut self, asked: &Asked<'_>, name: Option<Ask>, act: Act) -> Result<(), AllocError>
        requires well { is_well_act (act_of act) ≡ true }
        requires shared { is_shared (act_of act) ≡ true }
        ensures { OnOk result ((g : Gate) → IsAlive g self.old
            → IsAlive (decides g asked.now.client (asked_id asked.now) (request_of asked.now (act_of act)) name) self.new) }
    {
        if !self.is_elsewhere(&name) {
            self.carry(asked, name, act)?;
            return Ok(());
        }
        match name {
            None => {
                self.deny(asked, 100)?;
                Ok(())
            }
            Some(_) => {
                self.leave(asked, 100)?;
                Ok(())
            }
        }
    }

    /// By which number a name without an answer here is left: while others lead the log, that they decide it.
    fn number_here(&self, number: u64) -> u64
        ensures { (g : Gate) → IsAlive g self.now → result ≡ number_here g number }
    {
        if !self.is_follower() {
            return number;
        }
        100
    }

    /// Has done what a client asks by a name, once.
    fn ask_named(&mut self, asked: &Asked<'_>, ask: Ask, act: Act) -> Result<(), AllocError>
        requires well { is_well_act (act_of act) ≡ true }
        requires shared { is_shared (act_of act) ≡ true }
        ensures { OnOk result ((g : Gate) → IsAlive g self.old
            → IsAlive (by_verdict g asked.now.client (asked_id asked.now) (request_of asked.now (act_of act)) ask (verdict (names_of g) ask)) self.new) }
    {
        let verdict = self.names.verdict(&ask)?;
        match verdict {
            Verdict::Carry => {
                self.decide(asked, Some(ask), act)?;
                Ok(())
            }
            Verdict::Again(answer) => {
                self.tell_answer(asked, ask.holder.as_str(), true, &answer)?;
                Ok(())
            }
            Verdict::Another => {
                self.leave(asked, 101)?;
                Ok(())
            }
            Verdict::Late => {
                self.leave(asked, 102)?;
                Ok(())
            }
            Verdict::Foreign => {
                let number = self.number_here(103);
                self.leave(asked, number)?;
                Ok(())
            }
            Verdict::Ahead => {
                let number = self.number_here(104);
                self.leave(asked, number)?;
                Ok(())
            }
            Verdict::Over => {
                let number = self.number_here(104);
                self.leave(asked, number)?;
                Ok(())
            }
        }
    }

    /// Has done what changes what is shared, by its name if it has one.
    pub(crate) fn share(
        &mut self,
        asked: &Asked<'_>,
        user: &str,
        act: Act,
        claim: Option<Claim>,
    ) -> Result<(), AllocError>
        requires well { is_well_act (act_of act) ≡ true }
        requires shared { is_shared (act_of act) ≡ true }
        ensures { OnOk result ((g : Gate) (c : spec.Client) → IsAlive g self.old → asked.now.role ≡ c.role → user.now ≡ c.user
            → IsAlive (shares g asked.now.client c (asked_id asked.now) (request_of asked.now (act_of act)) claim) self.new) }
    {
        match claim {
            None => {
                self.decide(asked, None, act)?;
                Ok(())
            }
            Some(claim) => {
                let ask = ask_of(self.alloc, asked, user, claim)?;
                self.ask_named(asked, ask, act)?;
                Ok(())
            }
        }
    }
}
