//! What nobody follows is closed; who goes leaves nothing behind.
ghost use Rattle.std.specs.Prelude.{◌≡◌, ℕ, List, IfOk, OnOk, filter, map, option_map, string_bytes};
ghost use Rattle.iv_access.specs.Rights.{Name};
ghost use Rattle.iv_clients.specs.Clients.{client_at};
ghost use Rattle.iv_clients.specs.Feeds.{Feed, feed_of, is_of_role};
ghost use Rattle.iv_gate.specs.Gate.{Gate, all_swept, shut, swept, went};
ghost use Rattle.iv_gateway.specs.Views.{IsAlive};

use crate::gateway::Gateway;
use iv_clients::{Client, Feed, Seat, Sub, drop_feed, feed_of};
use iv_command::{Act, Command};
use std::alloc::{AllocError, Global};

/// The greatest number of a subscription, and 1.
const PAST_SUBS: u64 = 9_223_372_036_854_775_808;

/// The session and the number of the feed of a number.
fn place_of(feeds: &[Feed], number: u64) -> Option<(u32, u64)>
    ensures { result ≡ option_map (λ f. (f.session, f.number)) (feed_of feeds.now number) }
{
    match feed_of(feeds, number) {
        None => None,
        Some(feed) => Some((feed.session, feed.number)),
    }
}

/// The feeds that numbers of a client follow.
fn feeds_followed(alloc: Global, subs: &[Sub]) -> Result<Vec<u64>, AllocError>
    ensures { IfOk result (λ feeds. feeds.items ≡ map (λ s. s.feed) subs.now) }
{
    let mut feeds = Vec::new(alloc);
    for sub in subs {
        feeds.push(sub.feed())?;
    }
    Ok(feeds)
}

/// The sessions of a role.
fn seats_for(alloc: Global, seats: &[Seat], role: &str) -> Result<Vec<Seat>, AllocError>
    ensures { IfOk result (λ found. found.items ≡ filter (is_of_role role.now) seats.now) }
{
    let mut found = Vec::new(alloc);
    for seat in seats {
        if seat.is_of_role(role) {
            found.push(Seat {
                session: seat.session,
                role: seat.role.clone()?,
            })?;
        }
    }
    Ok(found)
}

impl Gateway {
    /// Closes a feed.
    pub(crate) fn shut(&mut self, session: u32, number: u64) -> Result<(), AllocError>
        ensures { OnOk result ((g : Gate) (f : Feed) → IsAlive g self.old → f.session ≡ session → f.number ≡ number → IsAlive (shut g f) self.new) }
    {
        if session == 0 || number == 0 || number >= PAST_SUBS {
            return Err(AllocError);
        }
        drop_feed(&mut self.feeds, number);
        let lines = self.run(Command {
            session,
            act: Act::Unsubscribe { sub: number },
        })?;
        self.hear_plain(&lines)?;
        Ok(())
    }

    /// Closes a feed that nobody follows.
    pub(crate) fn sweep(&mut self, number: u64) -> Result<(), AllocError>
        ensures { OnOk result ((g : Gate) → IsAlive g self.old → IsAlive (swept g number) self.new) }
    {
        if self.clients.is_followed(number) {
            return Ok(());
        }
        match place_of(&self.feeds, number) {
            None => Ok(()),
            Some((session, number)) => {
                self.shut(session, number)?;
                Ok(())
            }
        }
    }

    /// Closes those feeds that nobody follows.
    pub(crate) fn sweep_all(&mut self, numbers: &[u64]) -> Result<(), AllocError>
        ensures { OnOk result ((g : Gate) → IsAlive g self.old → IsAlive (all_swept g numbers.now) self.new) }
    {
        for number in numbers {
            self.sweep(*number)?;
        }
        Ok(())
    }
}

/// The role of a client, and the feeds that it follows.
fn leaver(
    alloc: Global,
    clients: &[Option<Client>],
    client: u32,
) -> Result<Option<(String, Vec<u64>)>, AllocError>
    ensures { IfOk result (λ o. option_map {U = Name × List ℕ} (λ p. (string_bytes p.0, p.1.items)) o
        ≡ option_map {U = Name × List ℕ} (λ k. (k.role, map (λ s. s.feed) k.subs)) (client_at clients.now client)) }
{
    match clients.get(client as usize) {
        Some(Some(it)) => {
            let feeds = feeds_followed(alloc, it.subs())?;
            let role = String::from_str(alloc, it.role())?;
            Ok(Some((role, feeds)))
        }
        _ => Ok(None),
    }
}

impl Gateway {
    /// A client goes; what only it needed is closed and finished.
    pub(crate) fn go(&mut self, client: u32) -> Result<(), AllocError>
        ensures { OnOk result ((g : Gate) → IsAlive g self.old → IsAlive (went g client) self.new) }
    {
        match leaver(self.alloc, self.clients.places(), client)? {
            None => Ok(()),
            Some((role, feeds)) => {
                self.clients.leave(client);
                self.sweep_all(&feeds)?;
                let seats = seats_for(self.alloc, &self.seats, role.as_str())?;
                self.rest_all(&seats)?;
                self.settle_told()?;
                Ok(())
            }
        }
    }
}
