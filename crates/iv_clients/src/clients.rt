//! `Client`: what the gateway keeps of a client: its subscriptions, its text, and what it has under way.
ghost use Rattle.std.specs.Prelude.{◌≡◌, ◌==◌, ◌∷◌, ◌++◌, filter, not, ◌+◌, ◌<◌, ◌^◌, [], true, is_some, map, IfOk, OnOk, Some, option_map, string_bytes};
ghost use Rattle.iv_command.specs.Views.{line_of};
ghost use Rattle.iv_clients.specs.Clients.{followed_by, moved_sub};
ghost use Rattle.iv_clients.specs.Feeds.{ends_in};
ghost use Rattle.iv_clients.specs.Kept.{asking, checking, coming, emptied, holding, holding_beat, holding_owed, is_following, is_told, keeping_closed, keeping_moved, keeping_new, keeping_on, letting_go, may_ask, releasing, answering};

use crate::feeds::ends_in;
use crate::tokens::{Token, token_of};
use iv_command::Line;
use std::alloc::{AllocError, Global};
use std::marker::Model;
use std::mem;

/// The most requests of a client since text was last handed to it.
const MOST_REQUESTS: u32 = 32;

/// A client is heard while fewer bytes than these wait for it.
const MOST_WAITING: u64 = 262_144;

/// The most bytes that others brought a client, that were offered to it, and that it has not taken.
const MOST_PILED: u64 = 4_194_304;

/// A client's own number, and the number of the feed that it follows.
#[derive(Drop)]
pub struct Sub {
    /// The client's own number.
    own: u64,
    /// The machine's number of the feed.
    feed: u64,
}

impl Model for Sub {
    ghost use Rattle.iv_clients.specs.Clients.{Sub};

    ghost Value = { Sub };

    ghost view = { λ s. record { own = s.own; feed = s.feed } };
}

impl Sub {
    /// The client's own number.
    pub fn own(&self) -> u64
        ensures { result ≡ self.now.own }
    {
        self.own
    }

    /// The machine's number of the feed.
    pub fn feed(&self) -> u64
        ensures { result ≡ self.now.feed }
    {
        self.feed
    }

    /// What followed one feed follows another.
    fn redirect(&mut self, from: u64, to: u64)
        ensures { self.new ≡ moved_sub from to self.old }
    {
        if from == self.feed {
            self.feed = to;
        }
    }
}

/// What a gateway keeps of a client.
#[derive(Drop)]
pub struct Client {
    /// The role that its token opens.
    role: String,
    /// Whom its token says, if it says anyone: else no text.
    user: String,
    /// The SHA-256 digest of its token, in bytes.
    digest: Vec<u8>,
    /// The last number of a subscription that it was given.
    given: u64,
    /// The subscriptions that are open.
    subs: Vec<Sub>,
    /// Text that waits for the journal.
    unsynced: Vec<u8>,
    /// Text that may be sent.
    sendable: Vec<u8>,
    /// How many messages came since text was last handed to it.
    asked: u32,
    /// The bytes of `unsynced` that others brought it.
    brought: u64,
    /// The bytes of `sendable` that others brought it.
    piled: u64,
    /// Whether it is to be told that this is all.
    owed: bool,
    /// Whether it is to go.
    dropped: bool,
}

impl Model for Client {
    ghost use Rattle.std.specs.Prelude.{string_bytes};
    ghost use Rattle.iv_clients.specs.Kept.{Kept};

    ghost Value = { Kept };

    ghost view = { λ c. record {
      role = string_bytes c.role;
      user = string_bytes c.user;
      digest = c.digest.items;
      given = c.given;
      subs = c.subs.items;
      unsynced = c.unsynced.items;
      sendable = c.sendable.items;
      asked = c.asked;
      brought = c.brought;
      piled = c.piled;
      owed = c.owed;
      dropped = c.dropped;
    } };
}

/// What followed one feed follows another.
fn redirect_all(subs: &mut Vec<Sub>, from: u64, to: u64)
    ensures { subs.new.items ≡ map (moved_sub from to) subs.old.items }
{
    for sub in subs.iter_mut() {
        sub.redirect(from, to);
    }
}

/// Without a client's own number.
fn close_in(subs: &mut Vec<Sub>, own: u64)
    ensures { subs.new.items ≡ filter (λ s. not (own == s.own)) subs.old.items }
{
    subs.retain(|sub| own != sub.own);
}

/// Without those whose feed a line ends.
fn drop_ended_in(subs: &mut Vec<Sub>, lines: &[Line])
    ensures { subs.new.items ≡ filter (λ s. not (ends_in (map line_of lines.now) s.feed)) subs.old.items }
{
    subs.retain(|sub| !ends_in(lines, sub.feed));
}

impl Client {
    /// A client who comes in, and the text that it is told of its token.
    pub fn new(alloc: Global, role: String, user: String, digest: Vec<u8>, text: Vec<u8>) -> Client
        ensures { result ≡ coming (string_bytes role) (string_bytes user) digest.items text.items }
    {
        Client {
            role,
            user,
            digest,
            given: 0,
            subs: Vec::new(alloc),
            unsynced: text,
            sendable: Vec::new(alloc),
            asked: 0,
            brought: 0,
            piled: 0,
            owed: false,
            dropped: false,
        }
    }

    /// The role of its token.
    pub fn role(&self) -> &str
        ensures { result.now ≡ self.now.role }
    {
        self.role.as_str()
    }

    /// Who holds its token: no text where that is not said.
    pub fn user(&self) -> &str
        ensures { result.now ≡ self.now.user }
    {
        self.user.as_str()
    }

    /// The SHA-256 of its token.
    pub fn digest(&self) -> &[u8]
        ensures { result.now ≡ self.now.digest }
    {
        &self.digest
    }

    /// Its own numbers that are open.
    pub fn subs(&self) -> &[Sub]
        ensures { result.now ≡ self.now.subs }
    {
        &self.subs
    }

    /// The last number that it was given.
    pub fn given(&self) -> u64
        ensures { result ≡ self.now.given }
    {
        self.given
    }

    /// Whether it is to go.
    pub fn is_dropped(&self) -> bool
        ensures { result ≡ self.now.dropped }
    {
        self.dropped
    }

    /// Whether something may be sent to it or waits for the journal, or it is to go.
    pub fn is_told(&self) -> bool
        ensures { result ≡ is_told self.now }
    {
        self.dropped
            || !self.sendable.is_empty()
            || !self.unsynced.is_empty()
            || self.brought != 0
            || self.piled != 0
    }

    /// The bytes that others brought it since the journal was synced.
    pub fn brought(&self) -> u64
        ensures { result ≡ self.now.brought }
    {
        self.brought
    }

    /// Has a text sent, once the journal has what it shows.
    ///
    /// # Errors
    /// `AllocError` if a growth of memory was refused.
    pub fn hold(&mut self, text: &[u8]) -> Result<(), AllocError>
        ensures { OnOk result (self.new ≡ holding text.now self.old) }
    {
        let Some(brought) = self.brought.checked_add(text.len() as u64) else {
            return Err(AllocError);
        };
        self.unsynced.extend_from_slice(text)?;
        self.brought = brought;
        self.owed = true;
        Ok(())
    }

    /// Has the text sent that says that this is all, if something was told.
    pub fn settle(&mut self, text: &[u8]) -> Result<(), AllocError>
        ensures { OnOk result (self.new ≡ holding_owed text.now self.old) }
    {
        if !self.owed {
            return Ok(());
        }
        self.hold(text)?;
        self.owed = false;
        Ok(())
    }

    /// Has a text sent that nothing has to settle.
    pub fn beat(&mut self, text: &[u8]) -> Result<(), AllocError>
        ensures { OnOk result (self.new ≡ holding_beat text.now self.old) }
    {
        let owed = self.owed;
        self.hold(text)?;
        self.owed = owed;
        Ok(())
    }

    /// Follows a feed, under the next number.
    pub fn follow(&mut self, feed: u64) -> Result<(), AllocError>
        ensures { OnOk result (self.new ≡ keeping_new feed self.old) }
    {
        let Some(own) = self.given.checked_add(1) else {
            return Err(AllocError);
        };
        self.subs.push(Sub { own, feed })?;
        self.given = own;
        Ok(())
    }

    /// What followed one feed follows another.
    pub fn redirect(&mut self, from: u64, to: u64)
        ensures { self.new ≡ keeping_moved from to self.old }
    {
        redirect_all(&mut self.subs, from, to);
    }

    /// Follows nothing under its own number any more.
    pub fn close(&mut self, own: u64)
        ensures { self.new ≡ keeping_closed own self.old }
    {
        close_in(&mut self.subs, own);
    }

    /// Follows nothing any more that the lines end.
    pub fn stay(&mut self, lines: &[Line])
        ensures { self.new ≡ keeping_on (map line_of lines.now) self.old }
    {
        drop_ended_in(&mut self.subs, lines);
    }

    /// The feed that its own number follows.
    pub fn followed(&self, own: u64) -> Option<u64>
        ensures { result ≡ followed_by self.now.subs own }
    {
        self.subs
            .iter()
            .find(|sub| own == sub.own)
            .map(|sub| sub.feed)
    }

    /// Whether it follows a feed.
    pub fn follows(&self, feed: u64) -> bool
        ensures { result ≡ is_following feed self.now }
    {
        self.subs.iter().any(|sub| feed == sub.feed)
    }

    /// Whether a message of it is heard now.
    pub fn may_ask(&self) -> bool
        ensures { result ≡ may_ask self.now }
    {
        !self.dropped
            && self.asked < MOST_REQUESTS
            && (self.sendable.len() as u64).saturating_add(self.unsynced.len() as u64)
                < MOST_WAITING
    }

    /// Counts a message.
    pub fn ask(&mut self) -> Result<(), AllocError>
        ensures { OnOk result (self.new ≡ asking self.old) }
    {
        let Some(asked) = self.asked.checked_add(1) else {
            return Err(AllocError);
        };
        self.asked = asked;
        Ok(())
    }

    /// What it was told since others had brought this much comes of its own message.
    pub fn answered(&mut self, brought: u64)
        ensures { self.new ≡ answering brought self.old }
    {
        self.brought = brought;
    }

    /// It is to go, and its text is gone.
    fn let_go(&mut self)
        ensures { self.new ≡ letting_go self.old }
    {
        self.unsynced.clear();
        self.sendable.clear();
        self.brought = 0;
        self.piled = 0;
        self.dropped = true;
    }

    /// Lets be sent what waits for the journal, unless it does not take what it is told.
    pub fn release(&mut self) -> Result<(), AllocError>
        ensures { OnOk result (self.new ≡ releasing self.old) }
    {
        if self.dropped || self.piled > MOST_PILED {
            self.let_go();
            return Ok(());
        }
        let Some(piled) = self.piled.checked_add(self.brought) else {
            return Err(AllocError);
        };
        if self.sendable.is_empty() {
            mem::swap(&mut self.sendable, &mut self.unsynced);
        } else {
            self.sendable.extend_from_slice(&self.unsynced)?;
        }
        self.unsynced.clear();
        self.piled = piled;
        self.brought = 0;
        Ok(())
    }

    /// Hands on what may be sent.
    pub fn take(&mut self, alloc: Global) -> Vec<u8>
        ensures bytes { result.items ≡ self.old.sendable }
        ensures left { self.new ≡ emptied self.old }
    {
        if self.sendable.is_empty() {
            return Vec::new(alloc);
        }
        self.asked = 0;
        self.piled = 0;
        mem::replace(&mut self.sendable, Vec::new(alloc))
    }

    /// It is to go if its token does not open its role any more.
    pub fn check(&mut self, tokens: &[Token])
        ensures { self.new ≡ checking tokens.now self.old }
    {
        let opens = match token_of(tokens, &self.digest) {
            None => false,
            Some(token) => self.role.as_str() == token.role.as_str()
                && self.user.as_str() == token.user.as_str(),
        };
        if !opens {
            self.let_go();
        }
    }
}
