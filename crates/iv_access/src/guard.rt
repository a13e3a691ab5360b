//! `Guard`: a relation's owner, its row security, and its policies in the order of their names.
//!
//! Policies are in the byte order of their names, so that the first restrictive one that fails is the one that is
//! named, and no call sorts.
ghost use Rattle.std.specs.Prelude.{◌≡◌, ◌≤◌, false, [], OnOk, OnErr, position, length};
ghost use Rattle.std.specs.List.{position_or_len};
ghost use Rattle.iv_access.specs.Changing.{insert_policy, remove_policy};
ghost use Rattle.iv_access.specs.Stored.{is_before};

use crate::policy::Policy;
use iv_roles::RoleId;
use std::alloc::{AllocError, Global};
use std::marker::Model;

/// A relation's owner, its row security, and its policies in the byte order of their names.
#[derive(Drop)]
pub(crate) struct Guard {
    pub(crate) owner: RoleId,
    pub(crate) enabled: bool,
    pub(crate) forced: bool,
    pub(crate) policies: Vec<Policy>,
}

impl Model for Guard {
    ghost use Rattle.iv_access.specs.Rights.{Guard};
    ghost use Rattle.iv_access.specs.Codes.{guard_code};

    ghost Value = { Guard };

    ghost coded = { guard_code };

    ghost view = { λ g. record { owner = g.owner.0; enabled = g.enabled; forced = g.forced; policies = g.policies.items } };
}

impl Guard {
    /// The guard of a relation with this owner, without row security. It takes no memory.
    pub(crate) fn new(alloc: Global, owner: RoleId) -> Guard
        ensures { result ≡ record { owner = owner.0; enabled = false; forced = false; policies = [] } }
    {
        Guard {
            owner,
            enabled: false,
            forced: false,
            policies: Vec::new(alloc),
        }
    }

    /// Switches row security in the guard of a relation.
    pub(crate) fn switch(&mut self, enabled: bool, forced: bool)
        ensures { self.new ≡ record self.old { enabled = enabled; forced = forced } }
    {
        self.enabled = enabled;
        self.forced = forced;
    }

    /// Adds a policy, before the first whose name comes later. After an error nothing has changed.
    pub(crate) fn insert(&mut self, policy: Policy) -> Result<(), AllocError>
        ensures ok { OnOk result (self.new ≡ record self.old { policies = insert_policy policy self.old.policies }) }
        ensures err { OnErr result (self.new ≡ self.old) }
    {
        let place = place_for(&self.policies, policy.name.as_str());
        self.policies.insert(place, policy)?;
        Ok(())
    }

    /// Takes the policy of that name out of a guard. It takes no memory.
    pub(crate) fn remove(&mut self, name: &str)
        ensures { self.new ≡ record self.old { policies = remove_policy name.now self.old.policies } }
    {
        self.policies.retain(|policy| !policy.is_named(name));
    }
}

/// Whether the name comes before the policy's in the order of a guard's policies.
fn is_before(name: &str, policy: &Policy) -> bool
    ensures { result ≡ is_before name.now policy.now }
{
    name.cmp(policy.name.as_str()).is_lt()
}

/// The place of the first of a guard's policies before whose name the name comes.
fn first_after(policies: &[Policy], name: &str) -> Option<usize>
    ensures { result ≡ position (is_before name.now) policies.now }
{
    policies.iter().position(|policy| is_before(name, policy))
}

/// The place at which a policy of the name goes among those of a guard.
#[tactic(auto, using(crate::proofs::Lists::place_none, crate::proofs::Lists::place_some, crate::proofs::Lists::prefix_short))]
fn place_for(policies: &[Policy], name: &str) -> usize
    ensures place { result ≡ position_or_len (is_before name.now) policies.now }
    ensures within { result ≤ length policies.now }
{
    match first_after(policies, name) {
        Some(place) => place,
        None => policies.len(),
    }
}
