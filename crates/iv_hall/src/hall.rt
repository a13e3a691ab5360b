//! `Hall`: the clients by their numbers, with lists of those who were told something, and of those who follow each feed.
ghost use Rattle.std.specs.Prelude.{◌≡◌, ◌≤◌, ◌<◌, ◌∷◌, ℕ, [], true, length, map, IfOk, OnOk, None, Some, if◌then◌else◌, replicate, slice_set, string_bytes};
ghost use Rattle.std.specs.List.{Contains, IsDistinct};
ghost use Rattle.std.proofs.Common.{eqb};
ghost use Rattle.iv_rows.specs.Options.{if_some};
ghost use Rattle.iv_command.specs.Views.{line_of};
ghost use Rattle.iv_clients.specs.Clients.{at_all, at_client, client_at, is_free};
ghost use Rattle.iv_clients.specs.Kept.{Kept, answering, asking, checking, coming, emptied, has_role_in, holding, holding_beat, holding_owed, is_due};
ghost use Rattle.iv_clients.specs.Kept.{is_followed_by, keeping_closed, keeping_moved, keeping_new, keeping_on, releasing};
ghost use Rattle.iv_hall.specs.Hall.{is_told_at};
ghost use Rattle.iv_hall.specs.Numbers.{AreSet};
ghost use Rattle.iv_hall.specs.Readers.{IsReader};
ghost use Rattle.iv_hall.specs.Hearing.{feed_told, hearing_for, hearing_line, hearing_lines};
ghost use Rattle.iv_hall.specs.Waiting.{AreCounted, bytes_waiting};

use crate::hearing::{feed_ended, feed_told, hear_listed, raised};
use crate::numbers::Numbers;
use crate::readers::{Readers, disband, list_reader, quit_all, quit_unfollowed, readers_of};
use crate::slots::{
    answered_at, ask_at, beat_all, check_all, close_at, empty_slots, follow_at, followed_at,
    has_role, hold_at, is_followed_in, is_free, is_there, is_told_at, put_at, redirect_at,
    release_listed, settle_listed, stay_listed, subs_at, take_at,
};
use iv_clients::{Client, Feed, Token, rel_read};
use iv_command::Line;
use std::alloc::{AllocError, Global};
use std::marker::Model;
use std::slice;

/// The clients by their numbers. `told` has those who were told something that they have not taken, or who are to go; `owed` those who are
/// owed that this is all; `readers` those who follow each feed; and each of them nobody else. `waiting` counts the bytes that wait for the
/// journal, with those of clients who have gone since it was synced. After an error nobody is left.
#[derive(Drop)]
pub struct Hall {
    /// The clients' numbers are below this.
    most: u32,
    /// The client of each number, if there is one.
    slots: Vec<Option<Client>>,
    /// The numbers of those who are owed that this is all.
    owed: Numbers,
    /// The numbers of those who have something to take, or are to go.
    told: Numbers,
    /// Who follows each feed.
    readers: Vec<Readers>,
    /// The bytes that wait for the journal.
    waiting: u64,
}

impl Model for Hall {
    ghost use Rattle.iv_clients.specs.Kept.{Places};
    ghost use Rattle.iv_hall.specs.Hall.{IsHall};
    ghost use Rattle.iv_hall.specs.Waiting.{AreCounted, bytes_waiting};

    ghost Value = { Places };

    ghost view = { λ h. h.slots.items };

    ghost invariant = { λ h. IsHall h.most h.slots.items h.owed h.told h.readers.items × AreCounted (bytes_waiting h.slots.items) h.waiting };
}

impl Hall {
    /// As many places with nobody.
    ///
    /// # Errors
    /// `AllocError` if a growth of memory was refused, here and below.
    pub fn new(alloc: Global, most: u32) -> Result<Hall, AllocError>
        ensures { IfOk result (λ hall. hall ≡ replicate most None) }
    {
        let slots = empty_slots(alloc, most)?;
        let owed = Numbers::new(alloc, most)?;
        let told = Numbers::new(alloc, most)?;
        Ok(Hall {
            most,
            slots,
            owed,
            told,
            readers: Vec::new(alloc),
            waiting: 0,
        })
    }

    /// No client has this number, and none a higher one.
    pub fn most(&self) -> u32
        ensures { length self.now ≤ result }
    {
        self.most
    }

    /// The clients by their numbers.
    pub fn places(&self) -> &[Option<Client>]
        ensures { result.now ≡ self.now }
    {
        &self.slots
    }

    /// The numbers of those who were told something that they have not taken, or who are to go: all of them, each once, and no others.
    pub fn told(&self) -> &[u32]
        ensures listed { (m : ℕ) (k : Kept) → client_at self.now m ≡ Some k → is_due k ≡ true → Contains result.now m }
        ensures only { (m : ℕ) → Contains result.now m → is_told_at self.now m ≡ true }
        ensures once { IsDistinct eqb result.now }
    {
        self.told.list()
    }

    /// The bytes that wait for the journal are no more than that, unless it is the greatest number. `release` makes it 0, and what is told
    /// raises it by its bytes.
    pub fn waiting(&self) -> u64
        ensures { AreCounted (bytes_waiting self.now) result }
    {
        self.waiting
    }

    /// Whether the number is there, and nobody has it.
    pub fn is_free(&self, client: u32) -> bool
        ensures { result ≡ is_free client self.now }
    {
        is_free(&self.slots, client)
    }

    /// Whether some client follows the feed.
    pub fn is_followed(&self, feed: u64) -> bool
        ensures { result ≡ is_followed_by feed self.now }
    {
        is_followed_in(&self.slots, readers_of(&self.readers, feed), feed)
    }

    /// Whether some client is of the role.
    pub fn has_role(&self, role: &str) -> bool
        ensures { result ≡ has_role_in role.now self.now }
    {
        has_role(&self.slots, role)
    }

    /// A client comes in, and is told a text.
    pub fn enter(
        &mut self,
        alloc: Global,
        client: u32,
        role: String,
        user: String,
        digest: Vec<u8>,
        text: Vec<u8>,
    )
        ensures { self.new ≡ slice_set self.old client (Some (coming (string_bytes role) (string_bytes user) digest.items text.items)) }
    {
        quit_all(&mut self.readers, subs_at(&self.slots, client), client);
        self.owed.remove(client);
        self.waiting = raised(self.waiting, 1, text.len());
        put_at(
            &mut self.slots,
            client,
            Some(Client::new(alloc, role, user, digest, text)),
        );
        list_one(&mut self.told, &self.slots, client);
    }

    /// A client goes.
    pub fn leave(&mut self, client: u32)
        ensures { self.new ≡ slice_set self.old client None }
    {
        quit_all(&mut self.readers, subs_at(&self.slots, client), client);
        self.owed.remove(client);
        self.told.remove(client);
        put_at(&mut self.slots, client, None);
    }

    /// Hands on what a client may be sent.
    pub fn take(&mut self, alloc: Global, client: u32) -> Vec<u8>
        ensures bytes { result.items ≡ if_some (client_at self.old client) [] (λ k. k.sendable) }
        ensures hall { self.new ≡ at_client client emptied self.old }
    {
        let text = take_at(alloc, &mut self.slots, client);
        list_one(&mut self.told, &self.slots, client);
        text
    }

    /// Has a text sent to a client, once the journal has what it shows.
    pub fn hold(&mut self, client: u32, text: &[u8]) -> Result<(), AllocError>
        ensures { OnOk result (self.new ≡ at_client client (holding text.now) self.old) }
    {
        self.owed.set(client, is_there(&self.slots, client));
        self.waiting = raised(self.waiting, 1, text.len());
        match hold_at(&mut self.slots, client, text) {
            Ok(()) => {
                list_one(&mut self.told, &self.slots, client);
                Ok(())
            }
            Err(error) => {
                lose(
                    &mut self.slots,
                    &mut self.owed,
                    &mut self.told,
                    &mut self.readers,
                );
                Err(error)
            }
        }
    }

    /// Counts a message of a client.
    pub fn ask(&mut self, client: u32) -> Result<(), AllocError>
        ensures { OnOk result (self.new ≡ at_client client (asking) self.old) }
    {
        match ask_at(&mut self.slots, client) {
            Ok(()) => Ok(()),
            Err(error) => {
                lose(
                    &mut self.slots,
                    &mut self.owed,
                    &mut self.told,
                    &mut self.readers,
                );
                Err(error)
            }
        }
    }

    /// What a client was told since others had brought it this much comes of its own message.
    pub fn answered(&mut self, client: u32, brought: u64)
        ensures { self.new ≡ at_client client (answering brought) self.old }
    {
        answered_at(&mut self.slots, client, brought);
        list_one(&mut self.told, &self.slots, client);
    }

    /// A client follows a feed, under its next number.
    pub fn follow(&mut self, alloc: Global, client: u32, feed: u64) -> Result<(), AllocError>
        ensures { OnOk result (self.new ≡ at_client client (keeping_new feed) self.old) }
    {
        match follow_in(alloc, &mut self.slots, &mut self.readers, client, feed) {
            Ok(()) => Ok(()),
            Err(error) => {
                lose(
                    &mut self.slots,
                    &mut self.owed,
                    &mut self.told,
                    &mut self.readers,
                );
                Err(error)
            }
        }
    }

    /// What a client followed by one feed it follows by another.
    pub fn redirect(
        &mut self,
        alloc: Global,
        client: u32,
        from: u64,
        to: u64,
    ) -> Result<(), AllocError>
        ensures { OnOk result (self.new ≡ at_client client (keeping_moved from to) self.old) }
    {
        redirect_at(&mut self.slots, client, from, to);
        match list_reader(alloc, &mut self.readers, &self.slots, client, to) {
            Ok(()) => {
                quit_unfollowed(&mut self.readers, &self.slots, client, Some(from));
                Ok(())
            }
            Err(error) => {
                lose(
                    &mut self.slots,
                    &mut self.owed,
                    &mut self.told,
                    &mut self.readers,
                );
                Err(error)
            }
        }
    }

    /// A client follows nothing under its own number any more.
    pub fn close(&mut self, client: u32, own: u64)
        ensures { self.new ≡ at_client client (keeping_closed own) self.old }
    {
        let feed = followed_at(&self.slots, client, own);
        close_at(&mut self.slots, client, own);
        quit_unfollowed(&mut self.readers, &self.slots, client, feed);
    }

    /// Tells all to whom something was told that this is all.
    pub fn settle(&mut self, text: &[u8]) -> Result<(), AllocError>
        ensures { OnOk result (self.new ≡ at_all (holding_owed text.now) self.old) }
    {
        match settle_listed(&mut self.slots, self.owed.list(), text) {
            Ok(()) => {
                let owed = self.owed.list();
                list_some(&mut self.told, &self.slots, owed);
                self.waiting = raised(self.waiting, owed.len(), text.len());
                self.owed.clear();
                Ok(())
            }
            Err(error) => {
                lose(
                    &mut self.slots,
                    &mut self.owed,
                    &mut self.told,
                    &mut self.readers,
                );
                Err(error)
            }
        }
    }

    /// Has a text sent to all that nothing has to settle.
    pub fn beat(&mut self, text: &[u8]) -> Result<(), AllocError>
        ensures { OnOk result (self.new ≡ at_all (holding_beat text.now) self.old) }
    {
        self.waiting = raised(self.waiting, self.slots.len(), text.len());
        match beat_all(&mut self.slots, text) {
            Ok(()) => {
                list_all(&mut self.told, &self.slots, self.most);
                Ok(())
            }
            Err(error) => {
                lose(
                    &mut self.slots,
                    &mut self.owed,
                    &mut self.told,
                    &mut self.readers,
                );
                Err(error)
            }
        }
    }

    /// Lets be sent what waits for the journal, to all who take what they are told.
    pub fn release(&mut self) -> Result<(), AllocError>
        ensures { OnOk result (self.new ≡ at_all releasing self.old) }
    {
        match release_listed(&mut self.slots, self.told.list()) {
            Ok(()) => {
                self.waiting = 0;
                Ok(())
            }
            Err(error) => {
                lose(
                    &mut self.slots,
                    &mut self.owed,
                    &mut self.told,
                    &mut self.readers,
                );
                Err(error)
            }
        }
    }

    /// All are to go whose tokens do not open their roles any more.
    pub fn check(&mut self, tokens: &[Token])
        ensures { self.new ≡ at_all (checking tokens.now) self.old }
    {
        check_all(&mut self.slots, tokens);
        list_all(&mut self.told, &self.slots, self.most);
    }

    /// Has all who follow a feed told a line of it.
    fn hear_feed(
        &mut self,
        alloc: Global,
        feed: u64,
        line: &Line,
        rel: &str,
    ) -> Result<(), AllocError>
        requires { feed_told (line_of line.now) ≡ Some feed }
        ensures { OnOk result (self.new ≡ at_all (hearing_for feed rel.now (line_of line.now)) self.old) }
    {
        let numbers = readers_of(&self.readers, feed);
        self.owed.insert_all(numbers);
        match hear_listed(
            alloc,
            &mut self.slots,
            numbers,
            feed,
            line,
            rel,
            self.waiting,
        ) {
            Ok(waiting) => {
                self.waiting = waiting;
                list_some(&mut self.told, &self.slots, numbers);
                Ok(())
            }
            Err(error) => {
                lose(
                    &mut self.slots,
                    &mut self.owed,
                    &mut self.told,
                    &mut self.readers,
                );
                Err(error)
            }
        }
    }

    /// Has a line told to all who follow its feed.
    fn hear_line(&mut self, alloc: Global, feeds: &[Feed], line: &Line) -> Result<(), AllocError>
        ensures { OnOk result (self.new ≡ at_all (hearing_line feeds.now (line_of line.now)) self.old) }
    {
        match feed_told(line) {
            None => Ok(()),
            Some(feed) => {
                self.hear_feed(alloc, feed, line, rel_read(feeds, feed))?;
                Ok(())
            }
        }
    }

    /// Has lines told to all who follow their feeds.
    pub fn hear(&mut self, alloc: Global, feeds: &[Feed], lines: &[Line]) -> Result<(), AllocError>
        ensures { OnOk result (self.new ≡ at_all (hearing_lines feeds.now (map line_of lines.now)) self.old) }
    {
        for line in lines {
            self.hear_line(alloc, feeds, line)?;
        }
        Ok(())
    }

    /// All follow nothing any more that the line ends.
    fn stay_behind(&mut self, line: &Line)
        ensures { self.new ≡ at_all (keeping_on (line_of line.now ∷ [])) self.old }
    {
        match feed_ended(line) {
            None => {}
            Some(feed) => {
                let numbers = readers_of(&self.readers, feed);
                stay_listed(&mut self.slots, numbers, slice::from_ref(line));
                disband(&mut self.readers, feed);
            }
        }
    }

    /// All follow nothing any more that the lines end.
    pub fn stay(&mut self, lines: &[Line])
        ensures { self.new ≡ at_all (keeping_on (map line_of lines.now)) self.old }
    {
        for line in lines {
            self.stay_behind(line);
        }
    }
}

/// A client follows a feed, under its next number, and its number is among the feed's.
fn follow_in(
    alloc: Global,
    clients: &mut Vec<Option<Client>>,
    readers: &mut Vec<Readers>,
    client: u32,
    feed: u64,
) -> Result<(), AllocError>
    ensures clients { OnOk result (clients.new.items ≡ at_client client (keeping_new feed) clients.old.items) }
    ensures readers { OnOk result (IsReader client feed clients.new.items readers.old.items readers.new.items) }
{
    follow_at(clients, client, feed)?;
    list_reader(alloc, readers, clients, client, feed)?;
    Ok(())
}

/// Lists a client if it was told something or is to go, and else takes it out.
fn list_one(told: &mut Numbers, clients: &[Option<Client>], client: u32)
    ensures { AreSet (λ m. m ≡ client) (is_told_at clients.now) told.old told.new }
{
    told.set(client, is_told_at(clients, client));
}

/// Lists those of some numbers who were told something or are to go, and takes the others of them out.
fn list_some(told: &mut Numbers, clients: &[Option<Client>], numbers: &[u32])
    ensures { AreSet (Contains numbers.now) (is_told_at clients.now) told.old told.new }
{
    for number in numbers {
        list_one(told, clients, *number);
    }
}

/// Lists all who were told something or are to go, and takes all others out.
fn list_all(told: &mut Numbers, clients: &[Option<Client>], most: u32)
    ensures { AreSet (λ m. m < most) (is_told_at clients.now) told.old told.new }
{
    for number in 0..most {
        list_one(told, clients, number);
    }
}

/// Nobody is left.
fn lose(
    clients: &mut Vec<Option<Client>>,
    owed: &mut Numbers,
    told: &mut Numbers,
    readers: &mut Vec<Readers>,
)
    ensures clients { clients.new.items ≡ [] }
    ensures owed { owed.new ≡ record { list = []; size = owed.old.size } }
    ensures told { told.new ≡ record { list = []; size = told.old.size } }
    ensures readers { readers.new.items ≡ [] }
{
    clients.clear();
    owed.clear();
    told.clear();
    readers.clear();
}
