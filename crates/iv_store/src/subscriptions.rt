//! `Subscription`: their order; `subscribe`, `unsubscribe`, `finish`, which closes a session, and `close_all`.
//!
//! Nothing is sent for what these close.
ghost use Rattle.std.specs.Prelude.{◌≡◌, [], ◌==◌, ◌≤◌, map, length, IfOk, OnOk, None, count_by, ◌<◌, true, ◌||◌, ◌+◌, ◌^◌, nat_le, string_bytes};
ghost use Rattle.std.specs.List.{insert};
ghost use Rattle.iv_machine.specs.Changing.{insert_subscription};
ghost use Rattle.iv_machine.specs.State as state;
ghost use Rattle.iv_command.specs.Views.{line_of};
ghost use Rattle.iv_machine.specs.State.{actor, is_open};
ghost use Rattle.iv_store.specs.Store.{IsStored, frame_of, IsSoundStore};
ghost use Rattle.iv_machine.specs.Act as machine;
ghost use Rattle.iv_store.specs.Answering.{IsStep};
ghost use Rattle.iv_store.specs.Found.{total_at};
ghost use Rattle.iv_store.specs.Openable.{AreFirstLines, MayOpen, with_subscription};
ghost use Rattle.iv_machine.specs.Refusing.{has_subscription};
ghost use Rattle.iv_store.specs.Finished.{without_session, without_subscription};

use crate::lines::push_rows;
use crate::store::Store;
use iv_access::{Privilege, RoleId};
use iv_command::{Answer, LAST_NUMBER, Line, Refusal, Reply, Stop};
use iv_readers::{ReaderId, Readers};
use iv_rows::RelId;
use std::alloc::AllocError;
use std::marker::Model;

/// A subscription of a session to a relation.
#[derive(Drop)]
pub struct Subscription {
    /// The session that opened it.
    pub session: u32,
    /// Its number, which no other one ever has.
    pub number: u64,
    /// The table or view that it is to.
    pub rel: RelId,
}

impl Model for Subscription {
    ghost use Rattle.iv_machine.specs.State.{Subscription};

    ghost Value = { Subscription };

    ghost view = { λ s. record { session = s.session; number = s.number; rel = s.rel.0 } };
}

impl Subscription {
    /// The same subscription.
    pub(crate) fn copy(&self) -> Subscription
        ensures { result ≡ self.now }
    {
        Subscription {
            session: self.session,
            number: self.number,
            rel: self.rel,
        }
    }
}

/// The place after each subscription of the same session or one before it.
fn place_of(subscriptions: &[Subscription], session: u32) -> usize
    ensures within { result ≤ length subscriptions.now }
    ensures place { (e : state.Subscription) → e.session ≡ session → insert_subscription e subscriptions.now ≡ insert subscriptions.now result e }
{
    for (place, subscription) in subscriptions.iter().enumerate() {
        if session < subscription.session {
            return place;
        }
    }
    subscriptions.len()
}

/// Inserts a subscription at its place.
pub(crate) fn insert(
    subscriptions: &mut Vec<Subscription>,
    subscription: Subscription,
) -> Result<(), AllocError>
    ensures { OnOk result (subscriptions.new.items ≡ insert_subscription subscription subscriptions.old.items) }
{
    let place = place_of(subscriptions, subscription.session);
    subscriptions.insert(place, subscription)?;
    Ok(())
}

/// How many subscriptions a session has.
pub(crate) fn count_of(subscriptions: &[Subscription], session: u32) -> usize
    ensures { result ≡ count_by (λ e. session == e.session) subscriptions.now }
{
    subscriptions
        .iter()
        .filter(|subscription| subscription.session == session)
        .count()
}

impl Store {
    /// The role that reads a subscription: the one that acts in its session.
    pub(crate) fn role_of(&self, subscription: &Subscription) -> RoleId
        requires { is_open (frame_of self.now) subscription.now.session ≡ true }
        ensures { result.0 ≡ actor (frame_of self.now) subscription.now.session }
    {
        match self.database.actor(subscription.session) {
            Some(role) => role,
            None => unreachable!(),
        }
    }
}

/// The most subscriptions that a session has open.
const MOST_SUBSCRIPTIONS: usize = 16;

impl Store {
    /// Whether the session can open no further subscription.
    fn is_full(&self, session: u32) -> bool
        ensures { result ≡ (nat_le 16 (count_by (λ e. session == e.session) self.now.subscriptions) || nat_le (2 ^ 63) (self.now.last + 1)) }
    {
        count_of(&self.subscriptions, session) >= MOST_SUBSCRIPTIONS || self.last >= LAST_NUMBER
    }

    /// The relation of the name, if all tests of a subscription to it pass that look at no row.
    fn check_subscribe(&self, session: u32, rel: &str) -> Result<RelId, Stop>
        requires { IsStored self.now }
        ensures { MayOpen self.now session rel.now result }
    {
        let (acting, number) = self.database.acting_on(session, rel)?;
        if let Some(missing) = self.missing_for(acting, number) {
            let rel = self.database.name_of(missing)?;
            return Err(Stop::Refused(Refusal::MissingPrivilege {
                privilege: Privilege::Select,
                rel,
            }));
        }
        if self.is_full(session) {
            return Err(Stop::Refused(Refusal::TooMany));
        }
        Ok(number)
    }

    /// Adds a subscription of the reader to the open ones, and says what it shows.
    fn open(
        &mut self,
        subscription: Subscription,
        reader: ReaderId,
    ) -> Result<Vec<Line>, AllocError>
        requires { reader.0 < length self.old.circuits }
        ensures lines { IfOk result (λ lines. AreFirstLines subscription (total_at self.old reader.0) (map line_of lines.items)) }
        ensures state { OnOk result (self.new ≡ with_subscription subscription reader.0 self.old) }
    {
        self.found.clear();
        let rows = self.circuits.rows(self.alloc, reader)?;
        let mut lines = Vec::new(self.alloc);
        push_rows(&mut lines, &subscription, &rows)?;
        self.circuits.open(reader, subscription.number);
        self.last = subscription.number;
        insert(&mut self.subscriptions, subscription)?;
        Ok(lines)
    }

    /// Opens a subscription to a table or a view.
    pub fn subscribe(&mut self, session: u32, rel: String) -> Result<Answer, Stop>
        requires { IsSoundStore self.old }
        ensures { IsStep self.old session (machine.subscribe (string_bytes rel)) result self.new }
    {
        let rel = self.check_subscribe(session, rel.as_str())?;
        let number = self.last + 1;
        let subscription = Subscription {
            session,
            number,
            rel,
        };
        let role = self.role_of(&subscription);
        let Some(reader) = self.reader_for(role, rel)? else {
            return Err(Stop::Refused(Refusal::Limit));
        };
        let changes = self.open(subscription, reader)?;
        let reply = Reply::Subscribed(number);
        Ok(Answer { reply, changes })
    }

    /// Takes out the session of the number and its subscriptions.
    fn close_session(&mut self, session: u32)
        ensures { self.new ≡ without_session session self.old }
    {
        self.found.clear();
        self.database.end_session(session);
        self.subscriptions.retain(|open| session != open.session);
    }

    /// Takes out the subscription of the number.
    fn close(&mut self, number: u64)
        ensures { self.new ≡ without_subscription number self.old }
    {
        self.found.clear();
        self.subscriptions.retain(|open| number != open.number);
    }

    /// Closes the session with its subscriptions.
    pub fn finish(&mut self, session: u32) -> Result<Answer, Stop>
        requires { IsSoundStore self.old }
        ensures { IsStep self.old session machine.finish result self.new }
    {
        if self.database.actor(session).is_none() {
            return Err(Stop::Refused(Refusal::NoSession));
        }
        self.close_session(session);
        self.drop_unread()?;
        Ok(Answer {
            reply: Reply::Ok,
            changes: Vec::new(self.alloc),
        })
    }

    /// Whether the subscription is open in the session.
    fn has_subscription(&self, session: u32, number: u64) -> bool
        ensures { result ≡ has_subscription (frame_of self.now) session number }
    {
        self.subscriptions
            .iter()
            .any(|open| session == open.session && number == open.number)
    }

    /// Closes a subscription of the session.
    pub fn unsubscribe(&mut self, session: u32, number: u64) -> Result<Answer, Stop>
        requires { IsSoundStore self.old }
        ensures { IsStep self.old session (machine.unsubscribe number) result self.new }
    {
        if self.database.actor(session).is_none() {
            return Err(Stop::Refused(Refusal::NoSession));
        }
        if !self.has_subscription(session, number) {
            return Err(Stop::Refused(Refusal::UnknownSubscription));
        }
        self.close(number);
        self.drop_unread()?;
        Ok(Answer {
            reply: Reply::Ok,
            changes: Vec::new(self.alloc),
        })
    }

    /// Closes all sessions and subscriptions. All else is kept, the last number given too.
    pub fn close_all(&mut self)
        ensures closed { self.new ≡ record self.old { sessions = []; subscriptions = []; circuits = [] } }
        ensures sound { IsSoundStore self.old → IsSoundStore self.new }
    {
        self.database.end_sessions();
        self.subscriptions.clear();
        self.circuits = Readers::new(self.alloc);
        self.found.clear();
    }
}
