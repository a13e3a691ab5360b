//! `Database`: rights, the catalog, the rows of tables and the sessions, and the row limit.
//!
//! `tables` has an entry for each table alone. A table's columns are in the catalog and, copied once when it is
//! created, with its rows.
ghost use Rattle.std.specs.Prelude.{◌≡◌, ◌<◌, IfOk};
ghost use Rattle.iv_database.specs.Database.{at_start};

use crate::sessions::Session;
use iv_access::Access;
use iv_algebra::Tables;
use iv_bind::Catalog;
use iv_zset::Seed;
use std::alloc::{AllocError, Global};
use std::marker::Model;

/// Rights, relations, the rows of tables, and sessions. `cap` is the greatest number of different rows of a table, and of a
/// node of a circuit over them.
#[derive(Drop)]
pub struct Database {
    /// The greatest number of different rows of a table or a node.
    pub(crate) cap: usize,
    /// Roles, grants, row security and policies.
    pub(crate) access: Access,
    /// The names and columns of tables and views.
    pub(crate) catalog: Catalog,
    /// The sessions that were begun.
    pub(crate) sessions: Vec<Session>,
    /// The rows of tables.
    pub(crate) tables: Tables,
    /// The allocator of what it makes.
    pub(crate) alloc: Global,
}

impl Model for Database {
    ghost use Rattle.iv_database.specs.Codes.{database_code};
    ghost use Rattle.iv_database.specs.Database.{Database};

    ghost Value = { Database };

    ghost coded = { database_code };

    ghost view = { λ d. record {
      cap = d.cap;
      known = d.access;
      catalog = d.catalog;
      sessions = d.sessions.items;
      tables = d.tables;
    } };
}

impl Database {
    /// A database of one role, `admin`, and nothing else. Rows will be hashed under the seed.
    ///
    /// # Errors
    /// `AllocError` if a growth of memory was refused.
    pub fn new(alloc: Global, seed: Seed, cap: usize) -> Result<Database, AllocError>
        ensures { IfOk result (λ database. database ≡ at_start cap) }
    {
        Ok(Database {
            cap,
            access: Access::with_seed(alloc, seed)?,
            catalog: Catalog::new(alloc),
            sessions: Vec::new(alloc),
            tables: Tables::with_seed(alloc, seed),
            alloc,
        })
    }

    /// The row limit of the database: the greatest number of different rows of a table.
    pub fn cap(&self) -> usize
        ensures { result ≡ self.now.cap }
    {
        self.cap
    }

    /// The rights of the database.
    pub fn access(&self) -> &Access
        ensures { result.now ≡ self.now.known }
    {
        &self.access
    }

    /// The tables of the database with their rows.
    pub fn tables(&self) -> &Tables
        ensures { result.now ≡ self.now.tables }
    {
        &self.tables
    }

    /// The catalog of the database: its relations.
    pub fn catalog(&self) -> &Catalog
        ensures { result.now ≡ self.now.catalog }
    {
        &self.catalog
    }
}
