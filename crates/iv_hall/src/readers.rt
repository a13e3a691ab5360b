//! `Readers`: the numbers of those who follow a feed; who comes to it, and who goes.
ghost use Rattle.std.specs.Prelude.{◌≡◌, ◌==◌, ◌++◌, ◌∷◌, [], OnOk, filter, find, option_map, if◌then◌else◌, not};
ghost use Rattle.std.specs.List.{IsDistinct, list_any, position};
ghost use Rattle.std.proofs.Common.{eqb};
ghost use Rattle.iv_hall.specs.Readers.{HasAll, HasJoined, HasKept, HasLeft, HasQuit, IsReader, readers_of};

use crate::slots::follows_at;
use iv_clients::{Client, Sub};
use std::alloc::{AllocError, Global};
use std::marker::Model;

/// The numbers of those who follow a feed, each once.
#[derive(Drop)]
pub(crate) struct Readers {
    feed: u64,
    numbers: Vec<u32>,
}

impl Model for Readers {
    ghost use Rattle.std.specs.List.{IsDistinct};
    ghost use Rattle.std.proofs.Common.{eqb};
    ghost use Rattle.iv_hall.specs.Readers.{Readers};

    ghost Value = { Readers };

    ghost view = { λ r. record { feed = r.feed; numbers = r.numbers.items } };

    ghost invariant = { λ r. IsDistinct eqb r.numbers.items };
}

/// Whether a number is among others.
fn has_number(numbers: &[u32], number: u32) -> bool
    ensures { result ≡ list_any (eqb number) numbers.now }
{
    numbers.iter().any(|other| number == *other)
}

impl Readers {
    /// Of whom the numbers are.
    fn feed(&self) -> u64
        ensures { result ≡ self.now.feed }
    {
        self.feed
    }

    /// The numbers.
    fn numbers(&self) -> &[u32]
        ensures numbers { result.now ≡ self.now.numbers }
        ensures once { IsDistinct eqb result.now }
    {
        &self.numbers
    }

    /// One number more.
    fn insert(&mut self, number: u32) -> Result<(), AllocError>
        ensures { OnOk result (self.new ≡ record {
          feed = self.old.feed;
          numbers = if list_any (eqb number) self.old.numbers then self.old.numbers else self.old.numbers ++ number ∷ [];
        }) }
    {
        if !has_number(&self.numbers, number) {
            self.numbers.push(number)?;
        }
        Ok(())
    }

    /// Without a number.
    fn remove(&mut self, number: u32)
        ensures { self.new ≡ record { feed = self.old.feed; numbers = filter (λ m. not (number == m)) self.old.numbers } }
    {
        self.numbers.retain(|other| number != *other);
    }
}

/// Those who follow a feed.
fn those_of(readers: &[Readers], feed: u64) -> Option<&Readers>
    ensures { option_map (λ r. r.now) result ≡ find (λ r. feed == r.feed) readers.now }
{
    readers.iter().find(|those| feed == those.feed())
}

/// The place of those who follow a feed.
fn place_of(readers: &[Readers], feed: u64) -> Option<usize>
    ensures { result ≡ position (λ r. feed == r.feed) readers.now }
{
    readers.iter().position(|those| feed == those.feed())
}

/// The numbers of those who follow a feed.
pub(crate) fn readers_of(readers: &[Readers], feed: u64) -> &[u32]
    ensures numbers { result.now ≡ readers_of readers.now feed }
    ensures once { IsDistinct eqb result.now }
{
    match those_of(readers, feed) {
        None => &[],
        Some(those) => those.numbers(),
    }
}

/// A number comes to those who follow a feed.
pub(crate) fn join(
    alloc: Global,
    readers: &mut Vec<Readers>,
    feed: u64,
    number: u32,
) -> Result<(), AllocError>
    ensures { OnOk result (HasJoined feed number readers.old.items readers.new.items) }
{
    match place_of(readers, feed) {
        Some(at) => {
            readers[at].insert(number)?;
            Ok(())
        }
        None => {
            let mut those = Readers {
                feed,
                numbers: Vec::new(alloc),
            };
            those.insert(number)?;
            readers.insert(0, those)?;
            Ok(())
        }
    }
}

/// Nobody follows a feed any more.
pub(crate) fn disband(readers: &mut Vec<Readers>, feed: u64)
    ensures { readers.new.items ≡ filter (λ r. not (feed == r.feed)) readers.old.items }
{
    readers.retain(|those| feed != those.feed());
}

/// The list of a feed goes, if nobody is on it.
fn drop_empty(readers: &mut Vec<Readers>, feed: u64)
    ensures { HasAll readers.old.items readers.new.items }
{
    if readers_of(readers, feed).is_empty() {
        disband(readers, feed);
    }
}

/// A number goes from those who follow a feed.
pub(crate) fn quit(readers: &mut Vec<Readers>, feed: u64, number: u32)
    ensures { HasQuit feed number readers.old.items readers.new.items }
{
    match place_of(readers, feed) {
        None => {}
        Some(at) => {
            readers[at].remove(number);
            drop_empty(readers, feed);
        }
    }
}

/// A client is among those who follow a feed if it follows it, and else it is not.
pub(crate) fn list_reader(
    alloc: Global,
    readers: &mut Vec<Readers>,
    clients: &[Option<Client>],
    client: u32,
    feed: u64,
) -> Result<(), AllocError>
    ensures { OnOk result (IsReader client feed clients.now readers.old.items readers.new.items) }
{
    if follows_at(clients, client, feed) {
        join(alloc, readers, feed, client)?;
    } else {
        quit(readers, feed, client);
    }
    Ok(())
}

/// A client goes from those who follow a feed, unless it follows it.
pub(crate) fn quit_unfollowed(
    readers: &mut Vec<Readers>,
    clients: &[Option<Client>],
    client: u32,
    feed: Option<u64>,
)
    ensures { HasKept client feed clients.now readers.old.items readers.new.items }
{
    if let Some(feed) = feed {
        if !follows_at(clients, client, feed) {
            quit(readers, feed, client);
        }
    }
}

/// A number goes from those who follow the feeds of subscriptions.
pub(crate) fn quit_all(readers: &mut Vec<Readers>, subs: &[Sub], number: u32)
    ensures { HasLeft number (λ k. list_any (λ s. k == s.feed) subs.now) readers.old.items readers.new.items }
{
    for sub in subs {
        quit(readers, sub.feed(), number);
    }
}
