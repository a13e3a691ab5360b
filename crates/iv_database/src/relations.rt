//! `create_table`, `create_view`: tests and effects; relations by name, and who acts on one (`acting_on`).
ghost use Rattle.std.specs.Prelude.{◌≡◌, ◌<◌, IfOk, IfSome, is_some, length, string_bytes, true, Some, ◌&&◌, None};
ghost use Rattle.iv_bind.specs.Catalogs.{named, schema_of, AreAmong, bound_of};
ghost use Rattle.iv_machine.specs.State.{name_of, rel_of, table_columns};
ghost use Rattle.iv_database.specs.Database.{IsDatabase, frame_of};
ghost use Rattle.iv_database.specs.Target.{IsActingOn};
ghost use Rattle.iv_rows.specs.Columns.{has_columns, has_distinct_names, kinds_of};
ghost use Rattle.iv_machine.specs.Act as machine;
ghost use Rattle.iv_database.specs.Next.{IsDone};
ghost use Rattle.iv_database.specs.Telling.{IsAdded};
ghost use Rattle.iv_roles.specs.Roles.{is_admin};
ghost use Rattle.iv_access.specs.Privileges.{role_of};
ghost use Rattle.iv_algebra.specs.Shapes.{scans};
ghost use Rattle.iv_bind.specs.BoundTexts.{bound_query};
ghost use Rattle.iv_bind.specs.Sound.{IsTyped};
ghost use Rattle.iv_database.specs.Defined.{IsBoundView, IsCreator, IsViewAdded};

use crate::database::Database;
use crate::privileges::stop_of;
use iv_access::{AccessFault, RoleId};
use iv_bind::{Bound, Catalog, bind};
use iv_command::{Refusal, Stop};
use iv_query::read_query;
use iv_rows::{Column, Kind, RelId, Schema};
use std::alloc::{AllocError, Global};

impl Database {
    /// The relation of the database that has the name; none if there is none.
    pub(crate) fn relation(&self, name: &str) -> Option<RelId>
        requires { IsDatabase self.now }
        ensures known { is_some result ≡ is_some (named (frame_of self.now).catalog name.now) }
        ensures number { IfSome result (λ rel. rel_of (frame_of self.now).catalog name.now ≡ rel.0) }
        ensures name { IfSome result (λ rel. name_of (frame_of self.now).catalog rel.0 ≡ name.now) }
        ensures columns { IfSome result (λ rel. table_columns self.now.catalog name.now ≡ schema_of self.now.catalog rel.0) }
        ensures below { IfSome result (λ rel. rel.0 < length self.now.catalog) }
    {
        self.access.relation(name)
    }

    /// The role that acts in the session, and the relation of the name.
    ///
    /// # Errors
    /// `Refused` with the first of these two tests that fails.
    pub fn acting_on(&self, session: u32, name: &str) -> Result<(RoleId, RelId), Stop>
        requires { IsDatabase self.now }
        ensures { IsActingOn self.now session name.now result }
    {
        let Some(acting) = self.actor(session) else {
            return Err(Stop::Refused(Refusal::NoSession));
        };
        let Some(rel) = self.relation(name) else {
            return Err(Stop::Refused(Refusal::UnknownRelation));
        };
        Ok((acting, rel))
    }

    /// The name of a relation of the database, in memory of its own.
    ///
    /// # Errors
    /// `AllocError` if a growth of memory was refused.
    pub fn name_of(&self, rel: RelId) -> Result<String, AllocError>
        requires { IsDatabase self.now }
        ensures { IfOk result (λ name. string_bytes name ≡ name_of self.now.catalog rel.0) }
    {
        String::from_str(self.alloc, self.access.relation_name(rel).unwrap_or(""))
    }

    /// The columns of a table that the database has.
    pub(crate) fn schema(&self, table: RelId) -> &Schema
        requires { is_some (schema_of self.now.catalog table.0) ≡ true }
        ensures { Some result.now ≡ schema_of self.now.catalog table.0 }
    {
        match self.catalog.schema(table) {
            Some(schema) => schema,
            None => unreachable!(),
        }
    }
}

/// The kinds of the columns of a table that is to be added.
fn kinds(alloc: Global, columns: &[Column]) -> Result<Vec<Kind>, AllocError>
    ensures { IfOk result (λ kinds. kinds.items ≡ kinds_of columns.now) }
{
    let mut kinds = Vec::with_capacity(alloc, columns.len())?;
    for column in columns {
        kinds.push(column.kind)?;
    }
    Ok(kinds)
}

impl Database {
    /// Tests a session's request for a new table, and adds it, with each privilege for its owner.
    ///
    /// # Errors
    /// `Refused` with the first test that fails; `Memory` if a growth of memory was refused.
    pub fn create_table(
        &mut self,
        session: u32,
        name: String,
        owner: &str,
        columns: Vec<Column>,
    ) -> Result<(), Stop>
        requires columns { (has_columns columns.items && has_distinct_names columns.items) ≡ true }
        requires stored { IsDatabase self.old }
        ensures done { IsDone self.old session (machine.create_table (string_bytes name) owner.now columns.items) result self.new }
        ensures sessions { self.new.sessions ≡ self.old.sessions }
    {
        let Some(acting) = self.actor(session) else {
            return Err(Stop::Refused(Refusal::NoSession));
        };
        self.add_table(acting, name, owner, columns)
    }

    /// Adds a table without rows to the database, if the rights admit it.
    fn add_table(
        &mut self,
        acting: RoleId,
        name: String,
        owner: &str,
        columns: Vec<Column>,
    ) -> Result<(), Stop>
        requires columns { (has_columns columns.items && has_distinct_names columns.items) ≡ true }
        requires stored { IsDatabase self.old }
        ensures added { IsAdded self.old acting.0 (string_bytes name) owner.now columns.items result self.new }
        ensures sessions { self.new.sessions ≡ self.old.sessions }
    {
        let kinds = kinds(self.alloc, &columns)?;
        let added = self
            .access
            .add_relation(acting, name.as_str(), owner, Some(kinds));
        let rel = match added {
            Ok(rel) => rel,
            Err(fault) => return Err(stop_of(fault, name)),
        };
        let schema = Schema::new(columns);
        let columns = schema.copy(self.alloc)?;
        self.catalog.add_table(name.as_str(), rel, schema)?;
        self.tables.add_table(rel, columns)?;
        Ok(())
    }
}

/// Reads the text of a view that is to be added, and binds it over the database's catalog.
fn bound_view(alloc: Global, catalog: &Catalog, query: &str) -> Result<Bound, Stop>
    ensures bound { IsBoundView (bound_query catalog.now query.now) result }
    ensures typed { IfOk result (λ b. IsTyped catalog.now (bound_of b)) }
    ensures scanned { IfOk result (λ b. AreAmong (scans (bound_of b).plan) (bound_of b).needs) }
{
    let tree = read_query(alloc, query)?;
    let bound = bind(alloc, &tree, catalog);
    drop(tree);
    Ok(bound?)
}

impl Database {
    /// The acting role, if it may add a relation of the name and the owner; else the first test that fails.
    fn creator(&self, session: u32, name: &str, owner: &str) -> Result<RoleId, Stop>
        requires { IsDatabase self.now }
        ensures { IsCreator self.now session name.now owner.now result }
    {
        let Some(acting) = self.actor(session) else {
            return Err(Stop::Refused(Refusal::NoSession));
        };
        if !acting.is_admin() {
            return Err(Stop::Refused(Refusal::NotAdministrator));
        }
        if self.access.role(owner).is_none() {
            return Err(Stop::Refused(Refusal::UnknownRole));
        }
        if self.access.relation(name).is_some() {
            return Err(Stop::Refused(Refusal::NameTaken));
        }
        Ok(acting)
    }

    /// Adds a view to the database, unless there are as many as there may be.
    fn add_view(
        &mut self,
        acting: RoleId,
        name: String,
        owner: &str,
        bound: Bound,
    ) -> Result<(), Stop>
        requires stored { IsDatabase self.old }
        requires admin { is_admin acting.0 ≡ true }
        requires owner { is_some (role_of self.old.known.rights owner.now) ≡ true }
        requires free { named self.old.catalog (string_bytes name) ≡ None }
        requires typed { IsTyped self.old.catalog (bound_of bound) }
        requires scanned { AreAmong (scans (bound_of bound).plan) (bound_of bound).needs }
        ensures added { IsViewAdded self.old (string_bytes name) owner.now (bound_of bound) result self.new }
        ensures sessions { self.new.sessions ≡ self.old.sessions }
    {
        let added = self.access.add_relation(acting, name.as_str(), owner, None);
        let rel = match added {
            Ok(rel) => rel,
            Err(fault) => {
                drop(bound);
                return Err(stop_of(fault, name));
            }
        };
        self.catalog.add_view(name.as_str(), rel, bound)?;
        Ok(())
    }

    /// Tests a session's request for a new view, and adds it, with each privilege for its owner.
    ///
    /// # Errors
    /// `Refused` with the first test that fails; `Memory` if a growth of memory was refused.
    pub fn create_view(
        &mut self,
        session: u32,
        name: String,
        owner: &str,
        query: &str,
    ) -> Result<(), Stop>
        requires { IsDatabase self.old }
        ensures done { IsDone self.old session (machine.create_view (string_bytes name) owner.now query.now) result self.new }
        ensures sessions { self.new.sessions ≡ self.old.sessions }
    {
        let acting = self.creator(session, name.as_str(), owner)?;
        let bound = bound_view(self.alloc, &self.catalog, query)?;
        self.add_view(acting, name, owner, bound)
    }
}
