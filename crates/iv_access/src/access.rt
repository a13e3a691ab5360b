//! `Access`, the rights: roles, relations, grants, policies; looks up roles and relations; `has`, `owns`, `reaches`, `first_missing`, `first_unread`.
//!
//! Roles and relations are numbers inside; requests and calls name roles and policies. Role 0 is `admin`. Names and
//! kinds of relations are known here for look-ups and counts; the rights of the definitions have neither. `has` asks
//! for grants to all roles and to the role itself first. If neither was granted, it walks two rows of flags side by
//! side: of the roles that the role reaches, and of those that were granted the privilege.
ghost use Rattle.std.specs.Prelude.{◌≡◌, ◌&&◌, true, false, IfOk, map, option_map};
ghost use Rattle.iv_access.specs.Given.{IsInherited, IsNotInherited};
ghost use Rattle.iv_access.specs.Access.{access_at_start, relation_of, relation_name};
ghost use Rattle.iv_access.specs.Privileges.{acts_as, has, first_missing, owns, role_of, select_from};

use crate::grants::Grants;
use crate::guard::Guard;
use crate::privilege::{Missing, Privilege};
use crate::relations::Relations;
use iv_roles::{Memberships, RoleId, Roles, flag_at};
use iv_rows::RelId;
use iv_seed::Seed;
use std::alloc::{AllocError, Global};
use std::marker::Model;

/// Roles and their members, relations with their owners, and grants; row security and policies of tables. Roles and relations are numbered
/// as they come.
///
/// Source: PostgreSQL 16, Role Membership, Privileges, and Row Security Policies.
#[derive(Drop)]
pub struct Access {
    /// The roles by their numbers.
    pub(crate) roles: Roles,
    /// Which roles are members of which.
    pub(crate) members: Memberships,
    /// The tables and views by their numbers, each with its owner.
    pub(crate) relations: Relations,
    /// Row security and policies of each table.
    pub(crate) guards: Vec<Guard>,
    /// Which role may do what with which relation.
    pub(crate) grants: Grants,
}

impl Model for Access {
    ghost use Rattle.iv_access.specs.Access.{Access};
    ghost use Rattle.iv_access.specs.Codes.{known_code};

    ghost Value = { Access };

    ghost coded = { known_code };

    ghost view = { λ a. record { relations = a.relations; rights = record { roles = a.roles; members = a.members; guards = a.guards.items; grants = a.grants.list } } };

    ghost use Rattle.std.specs.Prelude.{◌≡◌, length};

    ghost invariant = { λ a. length a.guards.items ≡ length a.relations };
}

impl Access {
    /// Rights with one role, `admin`, and no relation. Names are hashed under the known seed.
    ///
    /// # Errors
    /// `AllocError` if a growth of memory was refused.
    pub fn new(alloc: Global) -> Result<Access, AllocError>
        ensures { IfOk result (λ access. access ≡ access_at_start) }
    {
        Access::with_seed(alloc, Seed::known())
    }

    /// Rights with `admin` alone, if names are hashed under a seed. No answer depends on it.
    ///
    /// # Errors
    /// `AllocError` if a growth of memory was refused.
    pub fn with_seed(alloc: Global, seed: Seed) -> Result<Access, AllocError>
        ensures { IfOk result (λ access. access ≡ access_at_start) }
    {
        let mut roles = Roles::with_seed(alloc, seed);
        roles.push("admin")?;
        Ok(Access {
            roles,
            members: Memberships::new(alloc),
            relations: Relations::with_seed(alloc, seed),
            guards: Vec::new(alloc),
            grants: Grants::new(alloc),
        })
    }

    /// Looks up a role of the rights by its name. It takes no memory.
    pub fn role(&self, name: &str) -> Option<RoleId>
        ensures { option_map (λ r. r.0) result ≡ role_of self.now.rights name.now }
    {
        self.roles.number(name)
    }

    /// Looks up a relation of the rights by its name. It takes no memory.
    pub fn relation(&self, name: &str) -> Option<RelId>
        ensures { option_map (λ r. r.0) result ≡ relation_of self.now.relations name.now }
    {
        self.relations.number(name)
    }

    /// Looks up the name of a relation in the rights. It takes no memory.
    pub fn relation_name(&self, rel: RelId) -> Option<&str>
        ensures { option_map (λ n. n.now) result ≡ relation_name self.now.relations rel.0 }
    {
        self.relations.name(rel)
    }

    /// Whether by the rights the role has what the other has: it is the other, or a member of it, directly or
    /// through others. It takes no memory.
    pub fn reaches(&self, role: RoleId, other: RoleId) -> bool
        ensures { result ≡ acts_as self.now.rights role.0 other.0 }
    {
        self.members.reaches(role, other)
    }

    /// Whether the role is `admin`, or the owner of the relation, or a member of the owner, directly or through others. It
    /// takes no memory.
    pub fn owns(&self, role: RoleId, rel: RelId) -> bool
        ensures { result ≡ owns self.now.rights role.0 rel.0 }
    {
        if role.is_admin() {
            return true;
        }
        match self.guards.get(rel.0 as usize) {
            Some(guard) => self.reaches(role, guard.owner),
            None => false,
        }
    }

    /// Whether the role has the privilege on the relation as a member, directly or through others, of a role
    /// to which it was granted.
    fn is_inherited(&self, role: RoleId, privilege: Privilege, rel: RelId) -> bool
        ensures yes { result ≡ true → IsInherited self.now.rights role.0 privilege rel.0 }
        ensures no { result ≡ false → IsNotInherited self.now.rights role.0 privilege rel.0 }
    {
        let granted = self.grants.roles(privilege, rel);
        let row = self.members.reached(role);
        for (place, reached) in row.iter().enumerate() {
            if *reached && flag_at(granted, place) {
                return true;
            }
        }
        false
    }

    /// Whether the role is `admin`, or the privilege on the relation was granted to all roles, to it, or to a role of which
    /// it is a member, directly or through others. It takes no memory.
    pub fn has(&self, role: RoleId, privilege: Privilege, rel: RelId) -> bool
        ensures { result ≡ has self.now.rights role.0 privilege rel.0 }
    {
        role.is_admin()
            || (self.grants.is_granted(role, privilege, rel)
                || self.is_inherited(role, privilege, rel))
    }

    /// The first of the needs that the role has not. It takes no memory.
    pub fn first_missing(&self, role: RoleId, needs: &[(Privilege, RelId)]) -> Option<Missing>
        ensures { option_map (λ m. (m.privilege, m.rel.0)) result ≡ first_missing self.now.rights role.0 (map (λ n. (n.0, n.1.0)) needs.now) }
    {
        for need in needs {
            let (privilege, rel) = *need;
            if !self.has(role, privilege, rel) {
                return Some(Missing { privilege, rel });
            }
        }
        None
    }

    /// The first of the relations that the role may not select from: a view is read if there is none among the
    /// relations that it needs, whoever made it. It takes no memory.
    ///
    /// Source: PostgreSQL 16, CREATE VIEW, `security_invoker`.
    pub fn first_unread(&self, role: RoleId, rels: &[RelId]) -> Option<RelId>
        ensures { option_map select_from result ≡ first_missing self.now.rights role.0 (map select_from rels.now) }
    {
        for rel in rels {
            if !self.has(role, Privilege::Select, *rel) {
                return Some(*rel);
            }
        }
        None
    }
}
