//! `Grants`: all grants, in the order of granting and as flags by relation, privilege and role; `give` and `take`.
//!
//! Contracts see the list: the grants in the order of granting, each once. The finite sets of std's definitions do not
//! compute, and worked examples have to. Look-ups ask the flags, which are there for the relations up to the highest that
//! a grant ever named: of each privilege one for all roles, and one at the place of each role.
//!
//! A grant that is held is not added again, so to grant it changes nothing at all. `reserve` makes space in the list and
//! flags for the relation. No grant after it can fail, so want of memory changes no right; a revoke takes no memory.
ghost use Rattle.std.specs.Prelude.{◌≡◌, ℕ, ◌+◌, ◌<◌, ◌≤◌, ◌||◌, [], false, get_or, length, OnOk};
ghost use Rattle.iv_access.specs.Changing.{for_each, granted, revoked};
ghost use Rattle.iv_access.specs.Given.{grant_to, is_among};
ghost use Rattle.iv_access.specs.Grants.{FlagsStay, flag_of, grantees_of, HasPlace, IsClear, IsSet, IsSetIn, seen};
ghost use Rattle.iv_access.specs.Rights.{Public, Role};

use crate::grant::{Grant, Grantee};
use crate::privilege::Privilege;
use iv_roles::{RoleId, flag_at};
use iv_rows::RelId;
use std::alloc::{AllocError, Global};
use std::marker::Model;

/// To whom a privilege on a relation was granted: a flag for all roles, and one at the place of each role.
#[derive(Clone, Copy)]
struct Grantees {
    all: bool,
    roles: [bool; 256],
}

/// Of one relation, to whom each privilege was granted.
#[derive(Clone, Copy)]
struct RelationGrants {
    select: Grantees,
    insert: Grantees,
    update: Grantees,
    delete: Grantees,
}

/// All grants. Each flag says whether the grant is in the list.
#[derive(Drop)]
pub(crate) struct Grants {
    list: Vec<Grant>,
    flags: Vec<RelationGrants>,
}

impl Model for Grants {
    ghost use Rattle.std.specs.Prelude.{◌-◌, vec_capacity, vec_len};
    ghost use Rattle.iv_access.specs.Codes.{held_code};
    ghost use Rattle.iv_access.specs.Grants.{AreFlags, HeldGrants};

    ghost Value = { HeldGrants };

    ghost coded = { held_code };

    ghost view = { λ g. record { list = g.list.items; spare = vec_capacity g.list - vec_len g.list; relations = vec_len g.flags } };

    ghost invariant = { λ g. AreFlags g.list.items g.flags.items };
}

impl Grantees {
    /// The flag of the grantee, of those for one privilege on a relation.
    fn flag(&self, grantee: Grantee) -> bool
        ensures { result ≡ flag_of self.now (seen grantee) }
    {
        match grantee {
            Grantee::Public => self.all,
            Grantee::Role(role) => flag_at(&self.roles, role.0 as usize),
        }
    }

    /// Sets the flag of the grantee, or clears it, of those for one privilege on a relation.
    fn set(&mut self, grantee: Grantee, held: bool)
        requires { HasPlace (seen grantee) }
        ensures { IsSet (seen grantee) held self.old self.new }
    {
        match grantee {
            Grantee::Public => self.all = held,
            Grantee::Role(role) => self.roles[role.0 as usize] = held,
        }
    }
}

impl RelationGrants {
    /// The flags of a relation on which nothing was granted.
    fn new() -> RelationGrants
        ensures { IsClear result }
    {
        let nobody = Grantees {
            all: false,
            roles: [false; 256],
        };
        RelationGrants {
            select: nobody,
            insert: nobody,
            update: nobody,
            delete: nobody,
        }
    }

    /// The flags of the privilege on the relation: to whom it was granted.
    fn grantees(&self, privilege: Privilege) -> &Grantees
        ensures { result.now ≡ grantees_of self.now privilege }
    {
        match privilege {
            Privilege::Select => &self.select,
            Privilege::Insert => &self.insert,
            Privilege::Update => &self.update,
            Privilege::Delete => &self.delete,
        }
    }

    /// Sets the flag of the privilege and the grantee, or clears it.
    fn set(&mut self, privilege: Privilege, grantee: Grantee, held: bool)
        requires { HasPlace (seen grantee) }
        ensures { IsSetIn privilege (seen grantee) held self.old self.new }
    {
        match privilege {
            Privilege::Select => self.select.set(grantee, held),
            Privilege::Insert => self.insert.set(grantee, held),
            Privilege::Update => self.update.set(grantee, held),
            Privilege::Delete => self.delete.set(grantee, held),
        }
    }
}

/// Adds flags of relations without grants, up to a number of relations. After an error nothing has changed.
fn grow(flags: &mut Vec<RelationGrants>, count: usize) -> Result<(), AllocError>
    ensures flags { FlagsStay flags.old.items flags.new.items }
    ensures ok { OnOk result (count ≤ length flags.new.items) }
{
    if flags.len() < count {
        flags.resize(count, RelationGrants::new())?;
    }
    Ok(())
}

impl Grants {
    /// No grant in the list, and no flag. It takes no memory.
    pub(crate) fn new(alloc: Global) -> Grants
        ensures { result.list ≡ [] }
    {
        Grants {
            list: Vec::new(alloc),
            flags: Vec::new(alloc),
        }
    }

    /// Whether by the flags the privilege was granted to the grantee.
    fn is_granted_to(&self, grantee: Grantee, privilege: Privilege, rel: RelId) -> bool
        ensures { result ≡ is_among self.now.list (grant_to (seen grantee) privilege rel.0) }
    {
        match self.flags.get(rel.0 as usize) {
            Some(grants) => grants.grantees(privilege).flag(grantee),
            None => false,
        }
    }

    /// Whether by the flags the privilege was granted to all roles or to the role.
    pub(crate) fn is_granted(&self, role: RoleId, privilege: Privilege, rel: RelId) -> bool
        ensures { result ≡ (is_among self.now.list (grant_to Public privilege rel.0) || is_among self.now.list (grant_to (Role role.0) privilege rel.0)) }
    {
        self.is_granted_to(Grantee::Public, privilege, rel)
            || self.is_granted_to(Grantee::Role(role), privilege, rel)
    }

    /// The flags of the roles to which the privilege was granted.
    pub(crate) fn roles(&self, privilege: Privilege, rel: RelId) -> &[bool]
        ensures { (role : ℕ) → get_or result.now role false ≡ is_among self.now.list (grant_to (Role role) privilege rel.0) }
    {
        match self.flags.get(rel.0 as usize) {
            Some(grants) => &grants.grantees(privilege).roles,
            None => &[],
        }
    }

    /// Makes space for a number of further grants on the relation. After an error the grants are the same.
    pub(crate) fn reserve(&mut self, rel: RelId, count: usize) -> Result<(), AllocError>
        ensures list { self.new.list ≡ self.old.list }
        ensures relation { OnOk result (rel.0 < self.new.relations) }
        ensures spare { OnOk result (count ≤ self.new.spare) }
    {
        grow(&mut self.flags, rel.0 as usize + 1)?;
        self.list.reserve(count)?;
        Ok(())
    }

    /// Grants the privilege, for which there is space.
    fn give_one(&mut self, rel: RelId, privilege: Privilege, grantee: Grantee)
        requires place { HasPlace (seen grantee) }
        requires relation { rel.0 < self.old.relations }
        requires spare { 0 < self.old.spare }
        ensures list { self.new.list ≡ granted (grant_to (seen grantee) privilege rel.0) self.old.list }
        ensures relations { self.new.relations ≡ self.old.relations }
        ensures spare { self.old.spare ≤ self.new.spare + 1 }
    {
        if self.is_granted_to(grantee, privilege, rel) {
            return;
        }
        let grant = Grant {
            grantee,
            privilege,
            rel,
        };
        self.list.push(grant).unwrap();
        self.flags[rel.0 as usize].set(privilege, grantee, true);
    }

    /// Grants each of the privileges, for which there is space.
    pub(crate) fn give(&mut self, rel: RelId, privileges: &[Privilege], grantee: Grantee)
        requires place { HasPlace (seen grantee) }
        requires relation { rel.0 < self.old.relations }
        requires spare { length privileges.now ≤ self.old.spare }
        ensures { self.new.list ≡ for_each granted rel.0 privileges.now (seen grantee) self.old.list }
    {
        for privilege in privileges {
            self.give_one(rel, *privilege, grantee);
        }
    }

    /// Revokes the privilege. It takes no memory.
    fn take_one(&mut self, rel: RelId, privilege: Privilege, grantee: Grantee)
        requires { HasPlace (seen grantee) }
        ensures { self.new.list ≡ revoked (grant_to (seen grantee) privilege rel.0) self.old.list }
    {
        if !self.is_granted_to(grantee, privilege, rel) {
            return;
        }
        self.list.retain(|grant| !grant.is(grantee, privilege, rel));
        self.flags[rel.0 as usize].set(privilege, grantee, false);
    }

    /// Revokes each of the privileges. It takes no memory.
    pub(crate) fn take(&mut self, rel: RelId, privileges: &[Privilege], grantee: Grantee)
        requires { HasPlace (seen grantee) }
        ensures { self.new.list ≡ for_each revoked rel.0 privileges.now (seen grantee) self.old.list }
    {
        for privilege in privileges {
            self.take_one(rel, *privilege, grantee);
        }
    }
}
