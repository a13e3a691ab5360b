//! Who reads what, found once for a request: the reader of each subscription (`index`), and what roles still read (`still_read`).
ghost use Rattle.std.specs.Prelude.{◌≡◌, ◌==◌, ◌&&◌, ◌||◌, ℕ, IfOk, OnOk, Some, false, is_some, true};
ghost use Rattle.std.specs.List.{AllByRecursion};
ghost use Rattle.iv_store.specs.Found.{IsFoundBy};
ghost use Rattle.iv_store.specs.Reading.{reads};
ghost use Rattle.iv_store.specs.Store.{IsOpen, frame_of, is_read_by, is_read_through, place_of};

use crate::store::Store;
use crate::subscriptions::Subscription;
use iv_access::RoleId;
use iv_readers::{ReaderId, ReaderIndex};
use iv_rows::RelId;
use std::alloc::{AllocError, Global};
use std::collections::BTreeSet;

/// The roles of open subscriptions, each with the relation that it reads, in rising order.
#[derive(Drop)]
pub struct Read {
    /// The numbers of the role and of the relation.
    pairs: BTreeSet<(u32, u32)>,
}

impl Read {
    /// Nothing is read yet.
    fn new(alloc: Global) -> Read
        ensures { (role rel : ℕ) → reads result role rel ≡ false }
    {
        let pairs = BTreeSet::new(alloc);
        Read { pairs }
    }

    /// Whether the role reads the relation.
    pub(crate) fn has(&self, role: RoleId, rel: RelId) -> bool
        ensures { result ≡ reads self.now role.0 rel.0 }
    {
        self.pairs.contains(&(role.0, rel.0))
    }

    /// Adds that the role reads the relation.
    fn add(&mut self, role: RoleId, rel: RelId) -> Result<(), AllocError>
        ensures { OnOk result ((a b : ℕ) → reads self.new a b ≡ (reads self.old a b || ((role.0 == a) && (rel.0 == b)))) }
    {
        self.pairs.insert((role.0, rel.0))?;
        Ok(())
    }
}

impl Store {
    /// The index by which the reader of each open subscription is found.
    pub(crate) fn index(&self) -> Result<ReaderIndex, AllocError>
        requires open { AllByRecursion (IsOpen self.now) self.now.subscriptions }
        requires there { AllByRecursion (λ s. is_some (place_of self.now s) ≡ true) self.now.subscriptions }
        ensures { IfOk result (λ index. AllByRecursion (IsFoundBy self.now index) self.now.subscriptions) }
    {
        self.circuits.index(self.alloc)
    }

    /// The reader of a subscription.
    pub(crate) fn reader_in(&self, index: &ReaderIndex, subscription: &Subscription) -> ReaderId
        requires { IsFoundBy self.now index.now subscription.now }
        ensures { place_of self.now subscription.now ≡ Some result.0 }
    {
        let role = self.role_of(subscription);
        match index.find(role, subscription.rel) {
            Some(reader) => reader,
            None => unreachable!(),
        }
    }

    /// Adds what the role of a subscription reads, if its session is open.
    fn add_read(&self, read: &mut Read, subscription: &Subscription) -> Result<(), AllocError>
        ensures { OnOk result ((role rel : ℕ) → reads read.new role rel ≡ (reads read.old role rel || is_read_through (frame_of self.now) role rel subscription.now)) }
    {
        match self.database.actor(subscription.session) {
            Some(role) => read.add(role, subscription.rel),
            None => Ok(()),
        }
    }

    /// Which role reads which relation through an open subscription.
    pub(crate) fn still_read(&self) -> Result<Read, AllocError>
        ensures { IfOk result (λ read. (role rel : ℕ) → reads read role rel ≡ is_read_by (frame_of self.now) role rel) }
    {
        let mut read = Read::new(self.alloc);
        for subscription in &self.subscriptions {
            self.add_read(&mut read, subscription)?;
        }
        Ok(read)
    }
}
