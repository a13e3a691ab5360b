//! What an `Engine` tells without a command: columns of relations, roles that are known, and on which relations a role has a privilege.
//!
//! Code that holds an engine asks them between commands. Names are looked up in the rights, which number relations as the catalog does.
//! A command that ran out of memory may have added a relation to one of both: of an engine that has failed, nothing is said of relations.
ghost use Rattle.std.specs.Prelude.{◌≡◌, [], IfOk, false, filter, is_some, map};
ghost use Rattle.iv_access.specs.Privileges.{role_of};
ghost use Rattle.iv_bind.specs.Catalogs.{columns_of, numbered};
ghost use Rattle.iv_rows.specs.Options.{if_some};
ghost use Rattle.iv_engine.specs.Known.{columns_named, has_any, has_on, has_some, is_member, relations_with};
ghost use Rattle.iv_engine.specs.Looked.{has_named, has_one};

use crate::engine::Engine;
use iv_access::{Access, Privilege, RoleId};
use iv_bind::Catalog;
use iv_rows::{Column, RelId};
use std::alloc::{AllocError, Global};

/// The columns of the catalog's relation of a number; none if there is no such relation.
fn columns_at(catalog: &Catalog, rel: RelId) -> &[Column]
    ensures { result.now ≡ if_some (numbered catalog.now rel.0) [] (λ e. columns_of e.held) }
{
    match catalog.schema(rel) {
        Some(schema) => schema.columns(),
        None => match catalog.view(rel) {
            Some(bound) => bound.schema.columns(),
            None => &[],
        },
    }
}

/// Whether the role has some privilege on the relation of a number.
fn has_any(access: &Access, role: RoleId, rel: RelId) -> bool
    ensures { result ≡ has_any access.now.rights role.0 rel.0 }
{
    access.has(role, Privilege::Select, rel)
        || access.has(role, Privilege::Insert, rel)
        || access.has(role, Privilege::Update, rel)
        || access.has(role, Privilege::Delete, rel)
}

/// Whether the role has some privilege on the relation of a name.
fn has_named(access: &Access, role: RoleId, rel: &str) -> bool
    ensures { result ≡ has_named access.now role.0 rel.now }
{
    match access.relation(rel) {
        Some(rel) => has_any(access, role, rel),
        None => false,
    }
}

/// Whether the role has the privilege on the relation of a name.
fn has_one(access: &Access, role: RoleId, privilege: Privilege, rel: &str) -> bool
    ensures { result ≡ has_one access.now role.0 privilege rel.now }
{
    match access.relation(rel) {
        Some(rel) => access.has(role, privilege, rel),
        None => false,
    }
}

/// The names of the relations on which the role has some privilege, in the order of their numbers. Of these there are far
/// more than an engine has relations; if they ended first, that would be an error too.
fn names_with(alloc: Global, access: &Access, role: RoleId) -> Result<Vec<&str>, AllocError>
    ensures { IfOk result (λ names. map (λ n. n.now) names.items ≡ filter (has_named access.now role.0) (map (λ r. r.name) access.now.relations)) }
{
    let mut names = Vec::new(alloc);
    for number in 0..u32::MAX {
        match access.relation_name(RelId(number)) {
            Some(name) => {
                if has_named(access, role, name) {
                    names.push(name)?;
                }
            }
            None => return Ok(names),
        }
    }
    Err(AllocError)
}

impl Engine {
    /// The columns of the relation of a name, from the left; none if there is no such relation. It takes no memory.
    pub fn columns(&self, rel: &str) -> &[Column]
        ensures { self.now.failed ≡ false → result.now ≡ columns_named self.now.frame rel.now }
    {
        match self.store.database.access().relation(rel) {
            Some(rel) => columns_at(self.store.database.catalog(), rel),
            None => &[],
        }
    }

    /// Whether there is a role of the name. It takes no memory.
    pub fn is_role(&self, name: &str) -> bool
        ensures { result ≡ is_some (role_of self.now.frame.rights name.now) }
    {
        self.store.database.access().role(name).is_some()
    }

    /// Whether the role is the other, or a member of it, directly or through others; neither holds of a name that no role has.
    /// It takes no memory.
    ///
    /// Source: PostgreSQL 16, Role Membership.
    pub fn is_member(&self, role: &str, other: &str) -> bool
        ensures { result ≡ is_member self.now.frame role.now other.now }
    {
        let access = self.store.database.access();
        match (access.role(role), access.role(other)) {
            (Some(role), Some(other)) => access.reaches(role, other),
            _ => false,
        }
    }

    /// Whether the role has some privilege on the relation: `admin` has each. It takes no memory.
    ///
    /// Source: PostgreSQL 16, Privileges.
    pub fn has_some(&self, role: &str, rel: &str) -> bool
        ensures { self.now.failed ≡ false → result ≡ has_some self.now.frame role.now rel.now }
    {
        let access = self.store.database.access();
        match access.role(role) {
            Some(role) => has_named(access, role, rel),
            None => false,
        }
    }

    /// Whether the role has the privilege on the relation: `admin` has each. It takes no memory.
    ///
    /// Source: PostgreSQL 16, Privileges.
    pub fn has(&self, role: &str, privilege: Privilege, rel: &str) -> bool
        ensures { self.now.failed ≡ false → result ≡ has_on self.now.frame role.now privilege rel.now }
    {
        let access = self.store.database.access();
        match access.role(role) {
            Some(role) => has_one(access, role, privilege, rel),
            None => false,
        }
    }

    /// The names of the relations on which the role has some privilege, in the order of their creation.
    ///
    /// # Errors
    /// `AllocError` if a growth of memory was refused. The engine is the same.
    pub fn relations_with(&self, alloc: Global, role: &str) -> Result<Vec<&str>, AllocError>
        ensures { IfOk result (λ names. self.now.failed ≡ false → map (λ n. n.now) names.items ≡ relations_with self.now.frame role.now) }
    {
        let access = self.store.database.access();
        match access.role(role) {
            Some(role) => names_with(alloc, access, role),
            None => Ok(Vec::new(alloc)),
        }
    }
}
