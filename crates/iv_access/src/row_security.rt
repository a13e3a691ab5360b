//! Changes of row security and policies: `row_security`, `create_policy`, `drop_policy`, and the tests before them: `are_grantees`, `policies`.
ghost use Rattle.std.specs.Prelude.{◌≡◌, ◌<◌, true, IfOk, OnOk, OnErr, length, map, slice_get, option_map, string_bytes};
ghost use Rattle.std.specs.List.{list_all};
ghost use Rattle.iv_access.specs.NewPolicies.{policy_from};
ghost use Rattle.iv_access.specs.Changing.{with_security, with_policy, without_policy};
ghost use Rattle.iv_access.specs.Faults.{is_grantee, takes_policy};
ghost use Rattle.iv_access.specs.Grants.{seen};
ghost use Rattle.iv_access.specs.Access.{grantee_of};
ghost use Rattle.iv_access.specs.Policies.{policies_of};

use crate::access::Access;
use crate::grant::Grantee;
use crate::policy::{NewPolicy, Policy};
use iv_roles::RoleId;
use iv_rows::RelId;
use std::alloc::AllocError;

/// How many policies a table may have.
pub const MOST_POLICIES: usize = 32;

impl Access {
    /// Changes rights: switches row security of a table (PostgreSQL 16, ALTER TABLE: ENABLE and FORCE ROW
    /// LEVEL SECURITY). Whoever asks for it has to own the table (`owns`). It takes no memory.
    pub fn row_security(&mut self, table: RelId, enabled: bool, forced: bool)
        requires { table.0 < length self.old.rights.guards }
        ensures rights { self.new.rights ≡ with_security table.0 enabled forced self.old.rights }
        ensures relations { self.new.relations ≡ self.old.relations }
        ensures guards { length self.new.rights.guards ≡ length self.old.rights.guards }
    {
        let guard = &mut self.guards[table.0 as usize];
        guard.switch(enabled, forced);
    }

    /// How many policies a relation has. It takes no memory.
    pub fn policies(&self, rel: RelId) -> usize
        ensures { result ≡ length (policies_of (slice_get self.now.rights.guards rel.0)) }
    {
        match self.guard(rel) {
            Some(guard) => guard.policies.len(),
            None => 0,
        }
    }

    /// Whether a grantee of a new policy is there: the name is a role's, or stands for all roles.
    fn is_grantee(&self, to: &Option<String>) -> bool
        ensures { result ≡ is_grantee self.now.rights (option_map string_bytes to.now) }
    {
        match to {
            Some(name) => self.role(name).is_some(),
            None => true,
        }
    }

    /// Whether each name is a role's, or stands for all roles. It takes no memory.
    pub fn are_grantees(&self, to: &[Option<String>]) -> bool
        ensures { result ≡ list_all (is_grantee self.now.rights) (map (option_map string_bytes) to.now) }
    {
        for name in to {
            if !self.is_grantee(name) {
                return false;
            }
        }
        true
    }

    /// A grantee of a new policy, by number, or all roles. Nothing asks for a name that no role has.
    fn grantee_of(&self, to: &Option<String>) -> Grantee
        ensures { seen result ≡ grantee_of self.now.rights (option_map string_bytes to.now) }
    {
        match to {
            Some(name) => match self.role(name) {
                Some(role) => Grantee::Role(role),
                None => Grantee::Role(self.roles.next()),
            },
            None => Grantee::Public,
        }
    }

    /// To whom a new policy goes, with its roles by number.
    fn grantees(&self, to: &[Option<String>]) -> Result<Vec<Grantee>, AllocError>
        ensures { IfOk result (λ gs. map seen gs.items ≡ map (λ t. grantee_of self.now.rights (option_map string_bytes t)) to.now) }
    {
        let mut grantees = Vec::new(*self.guards.allocator());
        for name in to {
            grantees.push(self.grantee_of(name))?;
        }
        Ok(grantees)
    }

    /// The policy to create as a table will keep it, with its roles by number.
    fn stored(&self, policy: NewPolicy) -> Result<Policy, AllocError>
        ensures { IfOk result (λ p. p ≡ policy_from self.now.rights policy) }
    {
        match self.grantees(&policy.to) {
            Ok(to) => Ok(Policy {
                name: policy.name,
                restrictive: policy.restrictive,
                command: policy.command,
                to,
                using: policy.using,
                check: policy.check,
            }),
            Err(fault) => {
                drop(policy);
                Err(fault)
            }
        }
    }

    /// Adds a policy to a table: each of its roles is there (`are_grantees`), none of the table's has its name (`policy`), and there are fewer
    /// than `MOST_POLICIES` (`policies`). Whoever asks for it has to own the table (`owns`). After an error nothing has changed.
    ///
    /// # Errors
    /// `AllocError` if a growth of memory was refused.
    pub fn create_policy(&mut self, table: RelId, policy: NewPolicy) -> Result<(), AllocError>
        requires table { table.0 < length self.old.rights.guards }
        requires tested { takes_policy self.old.rights table.0 policy.name policy.to ≡ true }
        ensures ok { OnOk result (self.new.rights ≡ with_policy table.0 (policy_from self.old.rights policy) self.old.rights) }
        ensures relations { self.new.relations ≡ self.old.relations }
        ensures guards { length self.new.rights.guards ≡ length self.old.rights.guards }
        ensures unchanged { OnErr result (self.new ≡ self.old) }
    {
        let stored = self.stored(policy)?;
        let guard = &mut self.guards[table.0 as usize];
        guard.insert(stored)?;
        Ok(())
    }

    /// Changes rights: takes the policy of that name out of a table, if it has one (`policy`). Whoever asks
    /// for it has to own the table (`owns`). It takes no memory.
    pub fn drop_policy(&mut self, table: RelId, name: &str)
        requires { table.0 < length self.old.rights.guards }
        ensures rights { self.new.rights ≡ without_policy table.0 name.now self.old.rights }
        ensures relations { self.new.relations ≡ self.old.relations }
        ensures guards { length self.new.rights.guards ≡ length self.old.rights.guards }
    {
        let guard = &mut self.guards[table.0 as usize];
        guard.remove(name);
    }
}
