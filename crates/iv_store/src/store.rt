//! `Store`: all that the engine stores: the database, subscriptions, circuits, and what was found for written tables.
//!
//! The invariant of requests says that the database is one, that each open subscription may be read and is within the
//! limits (so what it showed can always be taken back), and that the circuits are those of open subscriptions and no others.
ghost use Rattle.std.specs.Prelude.{IfOk};
ghost use Rattle.iv_rows.specs.RowLimit.{IsRowLimit};
ghost use Rattle.iv_machine.specs.State.{start};
ghost use Rattle.iv_store.specs.Answering.{seen};
ghost use Rattle.iv_store.specs.Store.{IsSoundStore};
ghost use Rattle.iv_store.specs.Engine.{IsBehind};

use crate::subscriptions::Subscription;
use crate::touching::Touched;
use iv_database::Database;
use iv_readers::Readers;
use iv_zset::Seed;
use std::alloc::{AllocError, Global};
use std::marker::Model;
use std::rc::Rc;

/// The database, subscriptions and the circuits that they read. Subscriptions are in the order of their lines. For tables
/// that were written it is kept which circuits scan them, and who reads these.
#[derive(Drop)]
pub struct Store {
    /// Rights, relations, the rows of tables, and sessions.
    pub database: Database,
    /// The open subscriptions, in the order of their lines.
    pub subscriptions: Vec<Subscription>,
    /// The circuits that subscriptions read.
    pub circuits: Readers,
    /// For tables that were written, which circuits scan them, and who reads these.
    pub found: Vec<Rc<Touched>>,
    /// The last number that a subscription was given.
    pub last: u64,
    /// The allocator of what it makes.
    pub alloc: Global,
}

impl Model for Store {
    ghost use Rattle.iv_store.specs.Codes.{kept_code};
    ghost use Rattle.iv_store.specs.Store.{Store, store_of};
    ghost use Rattle.iv_store.specs.Touching.{AreFoundAmong};

    ghost Value = { Store };

    ghost coded = { kept_code };

    ghost view = { λ s. store_of s.database s.subscriptions.items s.circuits s.last };

    ghost invariant = { λ s. AreFoundAmong s.database.sessions s.subscriptions.items s.circuits s.found.items };
}

impl Store {
    /// The store of a new engine: one role, `admin`, and nothing else. Rows will be hashed under the seed.
    pub fn new(alloc: Global, seed: Seed, cap: usize) -> Result<Store, AllocError>
        requires { IsRowLimit cap }
        ensures start { IfOk result (λ store. IsBehind (start cap) (seen store)) }
        ensures sound { IfOk result (λ store. IsSoundStore store) }
    {
        Ok(Store {
            database: Database::new(alloc, seed, cap)?,
            subscriptions: Vec::new(alloc),
            circuits: Readers::new(alloc),
            last: 0,
            found: Vec::new(alloc),
            alloc,
        })
    }
}
