//! `set_aside`, `bring_back`, `look`: who is there is taken out while facts of others are carried out, put back, and told what differs.
ghost use Rattle.std.specs.Prelude.{◌≡◌, IfOk};
ghost use Rattle.iv_command.specs.declared.command.Reply.TheVariants.{Ok as Done};
ghost use Rattle.iv_store.specs.Aside.{AreBack, IsAsideOf, all_concerned, nobody_in};
ghost use Rattle.iv_store.specs.Store.{IsSoundStore};
ghost use Rattle.iv_store.specs.Turned.{AreReaders};

use crate::store::Store;
use crate::subscriptions::Subscription;
use iv_command::Line;
use iv_database::Sessions;
use iv_readers::Readers;
use std::alloc::AllocError;
use std::mem;

/// Sessions and subscriptions, with the circuits that these read and the last number given.
#[derive(Drop)]
pub struct Aside {
    /// The sessions that are open, and their roles.
    pub sessions: Sessions,
    /// Their subscriptions, by session and number.
    pub subscriptions: Vec<Subscription>,
    /// The readers, with the circuits that they read.
    pub circuits: Readers,
    /// The number that was given last to a subscription.
    pub last: u64,
}

impl Store {
    /// Takes out who is there: what is left is what is shared.
    pub fn set_aside(&mut self) -> Aside
        ensures aside { IsAsideOf self.old result }
        ensures left { self.new ≡ nobody_in self.old }
        ensures sound { IsSoundStore self.old → IsSoundStore self.new }
    {
        self.found.clear();
        let sessions = self.database.take_sessions();
        let subscriptions = mem::replace(&mut self.subscriptions, Vec::new(self.alloc));
        let circuits = mem::replace(&mut self.circuits, Readers::new(self.alloc));
        let last = mem::replace(&mut self.last, 0);
        Aside {
            sessions,
            subscriptions,
            circuits,
            last,
        }
    }

    /// Puts back who was there, in the place of who is.
    pub fn bring_back(&mut self, aside: Aside)
        ensures { self.new ≡ record self.old {
          sessions = aside.sessions;
          subscriptions = aside.subscriptions.items;
          circuits = aside.circuits;
          last = aside.last;
        } }
    {
        self.found.clear();
        self.database.put_sessions(aside.sessions);
        self.subscriptions = aside.subscriptions;
        self.circuits = aside.circuits;
        self.last = aside.last;
    }

    /// Of each circuit, that a change of rights and rows concerns it.
    fn all_concerned(&self) -> Result<Vec<bool>, AllocError>
        ensures { IfOk result (λ flags. flags.items ≡ all_concerned self.now) }
    {
        let mut flags = Vec::new(self.alloc);
        flags.resize(self.circuits.len(), true)?;
        Ok(flags)
    }

    /// Looks at each reader once rights and rows have changed in any way: tells what it sees more and less than its circuit showed, and ends the
    /// subscriptions whose readers may not read any more, or that are beyond the limits.
    pub fn look(&mut self) -> Result<Vec<Line>, AllocError>
        requires { AreBack self.old }
        ensures { IfOk result (λ lines. AreReaders self.old (all_concerned self.old) Done lines.items self.new) }
    {
        let concerned = self.all_concerned()?;
        self.tell(&concerned, true, false, None)
    }
}
