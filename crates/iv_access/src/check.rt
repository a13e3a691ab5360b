//! What policies say of a row (`Access::check`): which of them apply (`applies`), permit and forbid; looks up policies by name (`policy`, `restriction`).
ghost use Rattle.std.specs.Prelude.{◌≡◌, IfSome, Some, option_map, position, slice_get};
ghost use Rattle.std.specs.List.{AllByRecursion, count_by, find, list_any};
ghost use Rattle.iv_algebra.specs.Shapes.{condition_of};
ghost use Rattle.iv_access.specs.Grants.{seen};
ghost use Rattle.iv_access.specs.Policies.{applies, permits, forbids, is_exempt, by_policies, verdict, is_named, IsRestriction, policies_of, policy_of, policy_name};
ghost use Rattle.iv_access.specs.Privileges.{is_for, role_name};

use crate::access::Access;
use crate::grant::Grantee;
use crate::guard::Guard;
use crate::policy::{Check, Policy, Verdict, covers};
use iv_algebra::Pred;
use iv_roles::RoleId;
use iv_rows::{RelId, Row};

/// Looks up by name the first of a table's policies.
fn named<'a>(policies: &'a [Policy], name: &str) -> Option<&'a Policy>
    ensures { option_map (λ p. p.now) result ≡ find (is_named name.now) policies.now }
{
    policies.iter().find(|policy| policy.is_named(name))
}

/// How many policies have the name, to look up one that alone has it.
fn count_of(policies: &[Policy], name: &str) -> usize
    ensures { result ≡ count_by (is_named name.now) policies.now }
{
    policies
        .iter()
        .filter(|policy| policy.is_named(name))
        .count()
}

impl Access {
    /// The name of a role, which policies see as the user when they say whether a row passes.
    pub(crate) fn user(&self, role: RoleId) -> &str
        ensures { result.now ≡ role_name self.now.rights role.0 }
    {
        match self.roles.name(role) {
            Some(name) => name,
            None => "",
        }
    }

    /// Whether a policy that goes to the grantee applies to the role.
    fn is_for(&self, role: RoleId, to: Grantee) -> bool
        ensures { result ≡ is_for self.now.rights role.0 (seen to) }
    {
        match to {
            Grantee::Public => true,
            Grantee::Role(other) => self.reaches(role, other),
        }
    }

    /// Whether a policy that goes to the grantees applies to the role.
    fn goes_to(&self, to: &[Grantee], role: RoleId) -> bool
        ensures { result ≡ list_any (λ t. is_for self.now.rights role.0 (seen t)) to.now }
    {
        to.iter().any(|to| self.is_for(role, *to))
    }

    /// Whether the policy applies to the role and the test.
    pub(crate) fn applies(&self, role: RoleId, test: Check, policy: &Policy) -> bool
        ensures { result ≡ applies self.now.rights role.0 test policy.now }
    {
        covers(policy.command, test) && self.goes_to(&policy.to, role)
    }

    /// Whether the policy permits the row: it is permissive, applies and passes.
    fn permits(&self, role: RoleId, test: Check, row: &Row, policy: &Policy) -> bool
        ensures { result ≡ permits self.now.rights role.0 test row.now policy.now }
    {
        !policy.restrictive
            && (self.applies(role, test, policy) && policy.passes(self.user(role), test, row))
    }

    /// Whether the policy forbids the row: it is restrictive, applies and fails.
    fn forbids(&self, role: RoleId, test: Check, row: &Row, policy: &Policy) -> bool
        ensures { result ≡ forbids self.now.rights role.0 test row.now policy.now }
    {
        policy.restrictive
            && (self.applies(role, test, policy) && !policy.passes(self.user(role), test, row))
    }

    /// Whether some policy permits the row: a permissive one applies and passes.
    fn is_permitted(&self, role: RoleId, test: Check, row: &Row, policies: &[Policy]) -> bool
        ensures { result ≡ list_any (permits self.now.rights role.0 test row.now) policies.now }
    {
        policies
            .iter()
            .any(|policy| self.permits(role, test, row, policy))
    }

    /// The place of the first policy that forbids the row: a restrictive one that applies and fails.
    fn first_forbids(
        &self,
        role: RoleId,
        test: Check,
        row: &Row,
        policies: &[Policy],
    ) -> Option<usize>
        ensures { result ≡ position (forbids self.now.rights role.0 test row.now) policies.now }
    {
        policies
            .iter()
            .position(|policy| self.forbids(role, test, row, policy))
    }

    /// What the policies say of the row: some permissive one has to pass, and then each restrictive one.
    fn by_policies(&self, role: RoleId, test: Check, row: &Row, policies: &[Policy]) -> Verdict
        ensures { result ≡ by_policies self.now.rights role.0 test row.now policies.now }
    {
        if !self.is_permitted(role, test, row, policies) {
            return Verdict::NoPermissive;
        }
        match self.first_forbids(role, test, row, policies) {
            Some(place) => Verdict::Restrictive(place),
            None => Verdict::Pass,
        }
    }

    /// Whether policies have no effect on the role: then each row passes the check.
    pub(crate) fn is_exempt(&self, role: RoleId, guard: &Guard) -> bool
        ensures { result ≡ is_exempt self.now.rights role.0 (Some guard.now) }
    {
        !guard.enabled || (role.is_admin() || (self.reaches(role, guard.owner) && !guard.forced))
    }

    /// Looks up the guard of a relation, with the policies that say whether a row passes.
    pub(crate) fn guard(&self, rel: RelId) -> Option<&Guard>
        ensures { option_map (λ g. g.now) result ≡ slice_get self.now.rights.guards rel.0 }
    {
        self.guards.get(rel.0 as usize)
    }

    /// What row security says of the row. It takes no memory.
    pub fn check(&self, role: RoleId, table: RelId, test: Check, row: &Row) -> Verdict
        ensures { result ≡ verdict self.now.rights role.0 table.0 test row.now }
    {
        match self.guard(table) {
            Some(guard) => {
                if self.is_exempt(role, guard) {
                    Verdict::Pass
                } else {
                    self.by_policies(role, test, row, &guard.policies)
                }
            }
            None => Verdict::NoPermissive,
        }
    }

    /// Looks up the predicate of rows that are there, if one policy alone of the table has that name, and
    /// it is restrictive. It takes no memory.
    pub fn restriction(&self, table: RelId, name: &str) -> Option<&Pred>
        ensures { IfSome result (λ pred. AllByRecursion (IsRestriction name.now (condition_of pred.now))
            (policies_of (slice_get self.now.rights.guards table.0))) }
    {
        let policies = &self.guard(table)?.policies;
        let policy = named(policies, name)?;
        if policy.restrictive && count_of(policies, name) == 1 {
            policy.using.as_ref()
        } else {
            None
        }
    }

    /// Looks up the place of the table's policy of that name. It takes no memory.
    pub fn policy(&self, table: RelId, name: &str) -> Option<usize>
        ensures { result ≡ policy_of self.now.rights table.0 name.now }
    {
        match self.guard(table) {
            Some(guard) => guard
                .policies
                .iter()
                .position(|policy| policy.is_named(name)),
            None => None,
        }
    }

    /// Looks up the name of the table's policy at a place. It takes no memory.
    pub fn policy_name(&self, table: RelId, place: usize) -> Option<&str>
        ensures { option_map (λ n. n.now) result ≡ policy_name self.now.rights table.0 place }
    {
        match self.guard(table) {
            Some(guard) => match guard.policies.get(place) {
                Some(policy) => Some(policy.name.as_str()),
                None => None,
            },
            None => None,
        }
    }
}
