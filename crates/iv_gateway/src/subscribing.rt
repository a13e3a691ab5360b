//! A client subscribes: it is told the contents of a relation, and follows the subscription that its role shares.
ghost use Rattle.std.specs.Prelude.{◌≡◌, IfOk, OnOk, length, map, nat_lt, option_map, string_bytes, true};
ghost use Rattle.iv_rows.specs.Names.{is_name};
ghost use Rattle.iv_command.specs.Views.{line_of};
ghost use Rattle.iv_engine.specs.Known.{columns_named};
ghost use Rattle.iv_machine.specs.Act as machine;
ghost use Rattle.iv_message.specs.Seen.{id_data};
ghost use Rattle.iv_message.specs.Told.{opened, replied, told_text};
ghost use Rattle.iv_clients.specs.Bounds.{most_subs};
ghost use Rattle.iv_clients.specs.Clients as spec;
ghost use Rattle.iv_clients.specs.Feeds.{feed_for, feed_of};
ghost use Rattle.iv_gate.specs.Gate.{Gate, feed_begun, in_session, joined, joined_by, reads, reads_first, reply_in, reply_to, subscribes, tells};
ghost use Rattle.iv_gateway.specs.Reading.{doubled, follows_new, own_next, reads_further};
ghost use Rattle.iv_gateway.specs.Views.{IsAlive, opening_of};

use crate::gateway::Gateway;
use iv_clients::{Client, Feed, feed_for, feed_of, room_for};
use iv_command::{Act, Command, Line, Refusal, Reply};
use iv_engine::Engine;
use iv_message::{Id, push_opened};
use std::alloc::{AllocError, Global};

/// What the first line replies to a request.
#[derive(Clone, Copy)]
pub enum Opening {
    /// It is done.
    Done,
    /// A subscription was opened.
    Subscribed(u64),
    /// It was refused.
    Refused,
}

/// What the lines of a command begin with.
pub fn opening_in(lines: &[Line]) -> Opening
    ensures { result ≡ opening_of (reply_in (map line_of lines.now)) }
{
    match lines.first() {
        Some(Line::Reply { reply, .. }) => match reply {
            Reply::Ok => Opening::Done,
            Reply::Subscribed(sub) => Opening::Subscribed(*sub),
            Reply::Refused(_) => Opening::Refused,
        },
        _ => Opening::Refused,
    }
}

/// The most numbers of a client that are open at a time.
const MOST_SUBS: usize = 16;

/// Whether who has as many numbers open may open one more.
fn has_place(subs: usize) -> bool
    ensures { result ≡ nat_lt subs most_subs }
{
    subs < MOST_SUBS
}

/// The number that a client gives next.
fn next_own(clients: &[Option<Client>], client: u32) -> Result<u64, AllocError>
    ensures { IfOk result (λ own. own ≡ own_next clients.now client) }
{
    match clients.get(client as usize) {
        Some(Some(it)) => match it.given().checked_add(1) {
            None => Err(AllocError),
            Some(own) => Ok(own),
        },
        _ => Ok(0),
    }
}

/// The session and the number of what a role reads of a relation.
fn shared_for(feeds: &[Feed], role: &str, rel: &str) -> Option<(u32, u64)>
    ensures { result ≡ option_map (λ f. (f.session, f.number)) (feed_for feeds.now role.now rel.now) }
{
    match feed_for(feeds, role, rel) {
        None => None,
        Some(feed) => Some((feed.session, feed.number)),
    }
}

/// Of two feeds that show the same: the session and the number of the newer one, and the number of the older one.
fn doubled(feeds: &[Feed], new: u64, older: u64) -> Option<(u32, u64, u64)>
    ensures { result ≡ doubled (feed_of feeds.now new) (feed_of feeds.now older) }
{
    match (feed_of(feeds, new), feed_of(feeds, older)) {
        (Some(new), Some(older)) => {
            if older.is_reading(new.role.as_str(), new.rel.as_str()) && new.number != older.number {
                Some((new.session, new.number, older.number))
            } else {
                None
            }
        }
        _ => None,
    }
}

/// What a client is told of a subscription that was opened for it.
fn text_opened(
    alloc: Global,
    engine: &Engine,
    clients: &[Option<Client>],
    client: u32,
    id: &Option<Id>,
    rel: &str,
) -> Result<Vec<u8>, AllocError>
    ensures { IfOk result (λ text. text.items
        ≡ told_text (opened (option_map id_data id.now) (own_next clients.now client) (columns_named engine.now.frame rel.now))) }
{
    if engine.is_failed() {
        return Err(AllocError);
    }
    let own = next_own(clients, client)?;
    let mut text = Vec::new(alloc);
    push_opened(alloc, &mut text, id, own, engine.columns(rel))?;
    Ok(text)
}

impl Gateway {
    /// Has a client follow what its role reads of a relation.
    pub(crate) fn read(
        &mut self,
        client: u32,
        id: &Option<Id>,
        role: String,
        subs: usize,
        rel: String,
    ) -> Result<(), AllocError>
        requires rel { is_name (string_bytes rel) ≡ true }
        ensures { OnOk result ((g : Gate) (c : spec.Client) → IsAlive g self.old → c.role ≡ string_bytes role → length c.subs ≡ subs
            → IsAlive (reads g client c (option_map id_data id.now) (string_bytes rel)) self.new) }
    {
        if !has_place(subs) {
            self.reply_full(client, id)?;
            return Ok(());
        }
        match shared_for(&self.feeds, role.as_str(), rel.as_str()) {
            Some((session, number)) => {
                self.join_shared(client, id, role, session, rel, number)?;
                Ok(())
            }
            None => {
                self.read_first(client, id, role, rel)?;
                Ok(())
            }
        }
    }

    /// Has a client told that there is no place for a further subscription.
    fn reply_full(&mut self, client: u32, id: &Option<Id>) -> Result<(), AllocError>
        ensures { OnOk result ((g : Gate) → IsAlive g self.old
            → IsAlive (tells g client (replied (option_map id_data id.now) (machine.refused machine.too_many))) self.new) }
    {
        let reply = Reply::Refused(Refusal::TooMany);
        self.reply(client, id, &reply)?;
        Ok(())
    }

    /// What is shared is subscribed to once more, for its contents, and then followed.
    fn join_shared(
        &mut self,
        client: u32,
        id: &Option<Id>,
        role: String,
        session: u32,
        rel: String,
        older: u64,
    ) -> Result<(), AllocError>
        requires rel { is_name (string_bytes rel) ≡ true }
        ensures { OnOk result ((g : Gate) → IsAlive g self.old
            → IsAlive (joined_by
            (subscribes g client (option_map id_data id.now) session (string_bytes role) (string_bytes rel)) client older
            (reply_to g (in_session session (machine.subscribe (string_bytes rel))))) self.new) }
    {
        let opening = self.subscribe(client, id, role, session, rel)?;
        self.join_opened(client, opening, older)?;
        Ok(())
    }

    /// Of what was opened, a client follows the older feed.
    fn join_opened(&mut self, client: u32, opening: Opening, older: u64) -> Result<(), AllocError>
        ensures { OnOk result ((g : Gate) (r : machine.Reply) → IsAlive g self.old → opening ≡ opening_of r
            → IsAlive (joined_by g client older r) self.new) }
    {
        match opening {
            Opening::Subscribed(new) => {
                self.join(client, new, older)?;
                Ok(())
            }
            Opening::Done => Ok(()),
            Opening::Refused => Ok(()),
        }
    }

    /// Has a client follow an older feed that shows the same, and closes the newer one.
    fn join(&mut self, client: u32, new: u64, older: u64) -> Result<(), AllocError>
        ensures { OnOk result ((g : Gate) → IsAlive g self.old
            → IsAlive (joined g client (feed_of g.feeds new) (feed_of g.feeds older)) self.new) }
    {
        match doubled(&self.feeds, new, older) {
            None => Ok(()),
            Some((session, new, older)) => {
                self.clients.redirect(self.alloc, client, new, older)?;
                self.shut(session, new)?;
                Ok(())
            }
        }
    }

    /// What the role does not read yet.
    fn read_first(
        &mut self,
        client: u32,
        id: &Option<Id>,
        role: String,
        rel: String,
    ) -> Result<(), AllocError>
        requires rel { is_name (string_bytes rel) ≡ true }
        ensures { OnOk result ((g : Gate) → IsAlive g self.old
            → IsAlive (reads_first g client (option_map id_data id.now) (string_bytes role) (string_bytes rel)) self.new) }
    {
        match room_for(&self.seats, &self.feeds, role.as_str()) {
            Some(session) => {
                let _ = self.subscribe(client, id, role, session, rel)?;
                Ok(())
            }
            None => {
                self.read_further(client, id, role, rel)?;
                Ok(())
            }
        }
    }

    /// In a further session, if one can be begun.
    fn read_further(
        &mut self,
        client: u32,
        id: &Option<Id>,
        role: String,
        rel: String,
    ) -> Result<(), AllocError>
        requires rel { is_name (string_bytes rel) ≡ true }
        ensures { OnOk result ((g : Gate) → IsAlive g self.old
            → IsAlive (reads_further g client (option_map id_data id.now) (string_bytes role) (string_bytes rel)) self.new) }
    {
        let name = role.clone()?;
        match self.sit(name)? {
            None => {
                self.reply_full(client, id)?;
                Ok(())
            }
            Some(session) => {
                let _ = self.subscribe(client, id, role, session, rel)?;
                Ok(())
            }
        }
    }

    /// Opens a subscription for a client in a session of its role. How it was answered.
    fn subscribe(
        &mut self,
        client: u32,
        id: &Option<Id>,
        role: String,
        session: u32,
        rel: String,
    ) -> Result<Opening, AllocError>
        requires rel { is_name (string_bytes rel) ≡ true }
        ensures gate { OnOk result ((g : Gate) → IsAlive g self.old
            → IsAlive (subscribes g client (option_map id_data id.now) session (string_bytes role) (string_bytes rel)) self.new) }
        ensures opening { IfOk result (λ o. (g : Gate) → IsAlive g self.old
            → o ≡ opening_of (reply_to g (in_session session (machine.subscribe (string_bytes rel))))) }
    {
        if session == 0 {
            return Err(AllocError);
        }
        let name = rel.clone()?;
        let lines = self.run(Command {
            session,
            act: Act::Subscribe { rel: name },
        })?;
        let opening = opening_in(&lines);
        self.begin_feed(client, id, role, session, rel, &lines)?;
        self.hear_plain(&lines)?;
        Ok(opening)
    }

    /// Has a client follow the subscription that was opened, or tells it the reply.
    fn begin_feed(
        &mut self,
        client: u32,
        id: &Option<Id>,
        role: String,
        session: u32,
        rel: String,
        lines: &[Line],
    ) -> Result<(), AllocError>
        ensures { OnOk result ((g : Gate) (r : machine.Reply) → IsAlive g self.old → r ≡ reply_in (map line_of lines.now)
            → IsAlive (feed_begun g client (option_map id_data id.now) session (string_bytes role) (string_bytes rel) r) self.new) }
    {
        match opening_in(lines) {
            Opening::Subscribed(number) => {
                self.follow(client, id, rel.as_str(), number)?;
                self.feeds.insert(
                    0,
                    Feed {
                        number,
                        session,
                        role,
                        rel,
                    },
                )?;
                Ok(())
            }
            _ => {
                self.reply_first(client, id, lines)?;
                Ok(())
            }
        }
    }

    /// Has a client told that a subscription was opened, which it follows.
    fn follow(
        &mut self,
        client: u32,
        id: &Option<Id>,
        rel: &str,
        number: u64,
    ) -> Result<(), AllocError>
        ensures { OnOk result ((g : Gate) → IsAlive g self.old
            → IsAlive (follows_new g client (option_map id_data id.now) rel.now number) self.new) }
    {
        let text = text_opened(
            self.alloc,
            &self.engine,
            self.clients.places(),
            client,
            id,
            rel,
        )?;
        self.tell(client, &text)?;
        self.clients.follow(self.alloc, client, number)?;
        Ok(())
    }
}
