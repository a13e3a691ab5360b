//! Changes of rights: `create_role`, `grant_role`, `revoke_role`, `add_relation`, `grant`, `revoke`.
ghost use Rattle.std.specs.Prelude.{◌≡◌, ◌⊎◌, ◌<◌, ◌∷◌, [], ◌++◌, None, Some, IfOk, IfErr, OnOk, OnErr, is_some, length, option_map};
ghost use Rattle.iv_access.specs.declared.fault.AccessFault.TheVariants.{Memory};
ghost use Rattle.iv_access.specs.Changing.{with_role, with_member, without_member, with_relation, with_grants, without_grants};
ghost use Rattle.iv_access.specs.Faults.{count_like, create_role_fault, grant_role_fault, revoke_role_fault, add_relation_fault, grant_fault};
ghost use Rattle.iv_access.specs.Grants.{HasPlace, seen};
ghost use Rattle.iv_access.specs.Access.{relation_of, relation_with, role_number, grantee_of, name_given};

use crate::access::Access;
use crate::fault::AccessFault;
use crate::grant::Grantee;
use crate::guard::Guard;
use crate::privilege::Privilege;
use crate::relations::MOST_RELATIONS;
use iv_roles::{MOST_ROLES, RoleId};
use iv_rows::{Kind, RelId};

impl Access {
    /// Changes rights: adds a role. After an error nothing has changed.
    ///
    /// # Errors
    /// In this order: `NotAdmin`, `Taken`, `TooMany`; `Memory` if a growth was refused.
    pub fn create_role(&mut self, acting: RoleId, name: &str) -> Result<(), AccessFault>
        ensures ok { OnOk result (self.new.rights ≡ with_role name.now self.old.rights) }
        ensures relations { self.new.relations ≡ self.old.relations }
        ensures ok_when { OnOk result (create_role_fault self.old.rights acting.0 name.now ≡ None) }
        ensures err_when { IfErr result (λ e. (e ≡ Memory) ⊎ (create_role_fault self.old.rights acting.0 name.now ≡ Some e)) }
        ensures unchanged { OnErr result (self.new ≡ self.old) }
    {
        if !acting.is_admin() {
            return Err(AccessFault::NotAdmin);
        }
        if self.role(name).is_some() {
            return Err(AccessFault::Taken);
        }
        if self.roles.len() >= MOST_ROLES {
            return Err(AccessFault::TooMany);
        }
        self.roles.push(name)?;
        Ok(())
    }

    /// The role and the member that a change of memberships names, or why the change of rights is refused.
    fn named_roles(
        &self,
        acting: RoleId,
        role: &str,
        to: &str,
    ) -> Result<(RoleId, RoleId), AccessFault>
        ensures role { IfOk result (λ p. p.0.0 ≡ role_number self.now.rights role.now) }
        ensures member { IfOk result (λ p. p.1.0 ≡ role_number self.now.rights to.now) }
        ensures wide { IfOk result (λ p. (p.0.0 < 256) × (p.1.0 < 256)) }
        ensures ok_when { OnOk result (revoke_role_fault self.now.rights acting.0 role.now to.now ≡ None) }
        ensures err_when { IfErr result (λ e. revoke_role_fault self.now.rights acting.0 role.now to.now ≡ Some e) }
    {
        if !acting.is_admin() {
            return Err(AccessFault::NotAdmin);
        }
        let Some(role) = self.roles.number(role) else {
            return Err(AccessFault::Role);
        };
        let Some(member) = self.roles.number(to) else {
            return Err(AccessFault::Role);
        };
        Ok((role, member))
    }

    /// Changes rights: makes the role of the name `to` a member of that of the name `role`, so that it has
    /// what that role has. After an error nothing has changed.
    ///
    /// # Errors
    /// In this order: `NotAdmin`, `Role` (the role, then the member), `Loop`; `Memory` if a growth was refused.
    pub fn grant_role(&mut self, acting: RoleId, role: &str, to: &str) -> Result<(), AccessFault>
        ensures ok { OnOk result (self.new.rights ≡ with_member (role_number self.old.rights role.now) (role_number self.old.rights to.now) self.old.rights) }
        ensures relations { self.new.relations ≡ self.old.relations }
        ensures ok_when { OnOk result (grant_role_fault self.old.rights acting.0 role.now to.now ≡ None) }
        ensures err_when { IfErr result (λ e. (e ≡ Memory) ⊎ (grant_role_fault self.old.rights acting.0 role.now to.now ≡ Some e)) }
        ensures unchanged { OnErr result (self.new ≡ self.old) }
    {
        let (role, member) = self.named_roles(acting, role, to)?;
        if self.reaches(role, member) {
            return Err(AccessFault::Loop);
        }
        self.members.add(role, member)?;
        Ok(())
    }

    /// Changes rights: takes the role of the name `to` out of the direct members of that of the name `role`.
    /// It takes no memory. After an error nothing has changed.
    ///
    /// # Errors
    /// In this order: `NotAdmin`, `Role` (the role, then the member).
    pub fn revoke_role(&mut self, acting: RoleId, role: &str, to: &str) -> Result<(), AccessFault>
        ensures ok { OnOk result (self.new.rights ≡ without_member (role_number self.old.rights role.now) (role_number self.old.rights to.now) self.old.rights) }
        ensures relations { self.new.relations ≡ self.old.relations }
        ensures ok_when { OnOk result (revoke_role_fault self.old.rights acting.0 role.now to.now ≡ None) }
        ensures err_when { IfErr result (λ e. revoke_role_fault self.old.rights acting.0 role.now to.now ≡ Some e) }
        ensures unchanged { OnErr result (self.new ≡ self.old) }
    {
        let (role, member) = self.named_roles(acting, role, to)?;
        self.members.remove(role, member);
        Ok(())
    }

    /// The owner of a table or a view that is to be added, or why the change of rights is refused.
    fn owner_of_new(
        &self,
        acting: RoleId,
        name: &str,
        owner: &str,
        table: bool,
    ) -> Result<RoleId, AccessFault>
        ensures owner { IfOk result (λ role. role.0 ≡ role_number self.now.rights owner.now) }
        ensures wide { IfOk result (λ role. role.0 < 256) }
        ensures new { OnOk result (relation_of self.now.relations name.now ≡ None) }
        ensures room { OnOk result (count_like table self.now.relations < 64) }
        ensures ok_when { OnOk result (add_relation_fault self.now acting.0 name.now owner.now table ≡ None) }
        ensures err_when { IfErr result (λ e. add_relation_fault self.now acting.0 name.now owner.now table ≡ Some e) }
    {
        if !acting.is_admin() {
            return Err(AccessFault::NotAdmin);
        }
        let Some(role) = self.roles.number(owner) else {
            return Err(AccessFault::Role);
        };
        if self.relation(name).is_some() {
            return Err(AccessFault::Taken);
        }
        if self.relations.count_like(table) >= MOST_RELATIONS {
            return Err(AccessFault::TooMany);
        }
        Ok(role)
    }

    /// Adds a table, which has the kinds of its columns, or a view, which has none, and answers its number. It has no
    /// row security, and its owner is granted everything. After an error nothing has changed.
    ///
    /// # Errors
    /// In this order: `NotAdmin`, `Role` (the owner), `Taken`, `TooMany`; `Memory` if a growth was refused.
    pub fn add_relation(
        &mut self,
        acting: RoleId,
        name: &str,
        owner: &str,
        kinds: Option<Vec<Kind>>,
    ) -> Result<RelId, AccessFault>
        ensures ok { OnOk result (self.new.rights ≡ with_relation (role_number self.old.rights owner.now) self.old.rights) }
        ensures relations { OnOk result (self.new.relations ≡ self.old.relations ++ relation_with name.now kinds ∷ []) }
        ensures number { IfOk result (λ rel. rel.0 ≡ length self.old.relations) }
        ensures ok_when { OnOk result (add_relation_fault self.old acting.0 name.now owner.now (is_some kinds) ≡ None) }
        ensures err_when { IfErr result (λ e. (e ≡ Memory) ⊎ (add_relation_fault self.old acting.0 name.now owner.now (is_some kinds) ≡ Some e)) }
        ensures unchanged { OnErr result (self.new ≡ self.old) }
    {
        let owner = self.owner_of_new(acting, name, owner, kinds.is_some())?;
        let all = [
            Privilege::Select,
            Privilege::Insert,
            Privilege::Update,
            Privilege::Delete,
        ];
        let rel = self.relations.next();
        self.guards.reserve(1)?;
        self.grants.reserve(rel, all.len())?;
        self.relations.push(name, kinds)?;
        let guard = Guard::new(*self.guards.allocator(), owner);
        self.guards.push(guard).unwrap();
        self.grants.give(rel, &all, Grantee::Role(owner));
        Ok(rel)
    }

    /// To whom a grant or a revoke on the relation goes, or why the change of rights is refused: all roles
    /// if there is no name.
    fn grantee(&self, acting: RoleId, rel: RelId, to: Option<&str>) -> Result<Grantee, AccessFault>
        ensures grantee { IfOk result (λ g. seen g ≡ grantee_of self.now.rights (name_given to.entry)) }
        ensures place { IfOk result (λ g. HasPlace (seen g)) }
        ensures ok_when { OnOk result (grant_fault self.now.rights acting.0 rel.0 (name_given to.entry) ≡ None) }
        ensures err_when { IfErr result (λ e. grant_fault self.now.rights acting.0 rel.0 (name_given to.entry) ≡ Some e) }
    {
        if !self.owns(acting, rel) {
            return Err(AccessFault::NotOwner);
        }
        match to {
            Some(name) => match self.roles.number(name) {
                Some(role) => Ok(Grantee::Role(role)),
                None => Err(AccessFault::Role),
            },
            None => Ok(Grantee::Public),
        }
    }

    /// Changes rights: grants privileges to a role by name, or to all. After an error nothing has changed.
    ///
    /// # Errors
    /// In this order: `NotOwner`, `Role`; `Memory` if a growth was refused.
    pub fn grant(
        &mut self,
        acting: RoleId,
        rel: RelId,
        privileges: &[Privilege],
        to: Option<&str>,
    ) -> Result<(), AccessFault>
        ensures ok { OnOk result (self.new.rights ≡ with_grants rel.0 privileges.now (grantee_of self.old.rights (name_given to.entry)) self.old.rights) }
        ensures relations { self.new.relations ≡ self.old.relations }
        ensures ok_when { OnOk result (grant_fault self.old.rights acting.0 rel.0 (name_given to.entry) ≡ None) }
        ensures err_when { IfErr result (λ e. (e ≡ Memory) ⊎ (grant_fault self.old.rights acting.0 rel.0 (name_given to.entry) ≡ Some e)) }
        ensures unchanged { OnErr result (self.new ≡ self.old) }
    {
        let grantee = self.grantee(acting, rel, to)?;
        self.grants.reserve(rel, privileges.len())?;
        self.grants.give(rel, privileges, grantee);
        Ok(())
    }

    /// Changes rights: revokes privileges from a role by name, or from all roles. It takes no memory. After
    /// an error nothing has changed.
    ///
    /// # Errors
    /// In this order: `NotOwner`, `Role`.
    pub fn revoke(
        &mut self,
        acting: RoleId,
        rel: RelId,
        privileges: &[Privilege],
        to: Option<&str>,
    ) -> Result<(), AccessFault>
        ensures ok { OnOk result (self.new.rights ≡ without_grants rel.0 privileges.now (grantee_of self.old.rights (name_given to.entry)) self.old.rights) }
        ensures relations { self.new.relations ≡ self.old.relations }
        ensures ok_when { OnOk result (grant_fault self.old.rights acting.0 rel.0 (name_given to.entry) ≡ None) }
        ensures err_when { IfErr result (λ e. grant_fault self.old.rights acting.0 rel.0 (name_given to.entry) ≡ Some e) }
        ensures unchanged { OnErr result (self.new ≡ self.old) }
    {
        let grantee = self.grantee(acting, rel, to)?;
        self.grants.take(rel, privileges, grantee);
        Ok(())
    }
}
