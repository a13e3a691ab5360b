//! `Memberships`: which roles are direct members of which, and which roles each reaches, as rows of flags (`flag_at`).
//!
//! There are rows for the roles up to the highest that a membership ever named, and none if there was no
//! membership. `grant_role` sets flags once there is space for them, so want of memory changes no right; `revoke_role`
//! clears the flags, sets those of the memberships that are left, and takes no memory.
//!
//! That `admin` has no members is a rule on requests. The rights would allow it, and a member of `admin` would still
//! be no superuser.
ghost use Rattle.std.specs.Prelude.{◌≡◌, ℕ, ◌<◌, ◌≤◌, ◌==◌, ◌&&◌, ◌||◌, [], false, length, get_or, OnOk, OnErr};
ghost use Rattle.std.specs.List.{All};
ghost use Rattle.iv_roles.specs.Memberships.{further, is_direct, with_membership, member_of, membership_eq, without_membership, reaches};
ghost use Rattle.iv_roles.specs.Rows.{IsWithin, leads};

use crate::role::RoleId;
use std::alloc::{AllocError, Global};
use std::marker::Model;

/// A role and its direct member.
#[derive(Drop)]
struct Membership {
    role: RoleId,
    member: RoleId,
}

impl Model for Membership {
    ghost use Rattle.iv_roles.specs.Memberships.{Membership};
    ghost use Rattle.iv_roles.specs.Codes.{membership_code};

    ghost Value = { Membership };

    ghost coded = { membership_code };

    ghost view = { λ m. record { role = m.role.0; member = m.member.0 } };
}

impl Membership {
    /// Whether it is the direct membership of the member in the role.
    fn is(&self, role: RoleId, member: RoleId) -> bool
        ensures { result ≡ membership_eq (member_of role.0 member.0) self.now }
    {
        role == self.role && member == self.member
    }
}

/// The direct memberships in the order of granting, and for each role a row of the roles that it reaches by them: a flag
/// at the place of each. A role that none names has no row.
///
/// Source: PostgreSQL 16, Role Membership.
#[derive(Drop)]
pub struct Memberships {
    /// The memberships that were granted, in their order.
    direct: Vec<Membership>,
    /// For each role that a membership names, which roles it reaches.
    rows: Vec<[bool; 256]>,
}

impl Model for Memberships {
    ghost use Rattle.std.specs.Prelude.{◌≡◌, ℕ, ◌==◌, ◌||◌, List};
    ghost use Rattle.std.specs.Coded.{coded_list};
    ghost use Rattle.std.specs.List.{All};
    ghost use Rattle.iv_roles.specs.Codes.{membership_code};
    ghost use Rattle.iv_roles.specs.Memberships.{reaches};
    ghost use Rattle.iv_roles.specs.Memberships.{Membership};
    ghost use Rattle.iv_roles.specs.Rows.{AreRows};

    ghost Value = { List Membership };

    ghost coded = { coded_list membership_code };

    ghost view = { λ m. m.direct.items };

    ghost invariant = { λ m. AreRows m.direct.items m.rows.items };
}

/// The row of a role that reaches no other: no flag is set.
fn no_flags() -> [bool; 256]
    ensures { (k : ℕ) → get_or result k false ≡ false }
{
    [false; 256]
}

/// The flag of a role in a row of roles, such as those that another reaches; false after the row's end.
pub fn flag_at(row: &[bool], place: usize) -> bool
    ensures { result ≡ get_or row.now place false }
{
    match row.get(place) {
        Some(flag) => *flag,
        None => false,
    }
}

/// Sets in a role's row the flags of another role's row, and the flag of that other role.
fn join(row: &mut [bool; 256], other: &[bool; 256], role: usize)
    requires { role < 256 }
    ensures { (k : ℕ) → get_or row.new k false ≡ (get_or row.old k false || (role == k || get_or other.now k false)) }
{
    for place in 0..256 {
        row[place] |= other[place];
    }
    row[role] = true;
}

/// If the row is that of the member, or of a role that reaches it, joins the role's row to it.
fn pass_on(row: &mut [bool; 256], place: usize, member: usize, other: &[bool; 256], role: usize)
    requires { role < 256 }
    ensures { (k : ℕ) → get_or row.new k false ≡ (get_or row.old k false || ((place == member || get_or row.old member false) && (role == k || get_or other.now k false))) }
{
    if place == member || flag_at(row, member) {
        join(row, other, role);
    }
}

/// Sets in all rows what a membership gives: what reaches the member also reaches what the role reaches.
fn lead(rows: &mut [[bool; 256]], role: usize, member: usize)
    requires wide { role < 256 }
    requires role { role < length rows.old }
    requires member { member < length rows.old }
    ensures flags { (a b : ℕ) → leads rows.new a b ≡ further (leads rows.old) (member_of role member) a b }
    ensures length { length rows.new ≡ length rows.old }
{
    let other = rows[role];
    for (place, row) in rows.iter_mut().enumerate() {
        pass_on(row, place, member, &other, role);
    }
}

/// Takes the flags out of all rows: each role reaches itself alone.
fn clear(rows: &mut [[bool; 256]])
    ensures flags { (a b : ℕ) → leads rows.new a b ≡ (a == b) }
    ensures length { length rows.new ≡ length rows.old }
{
    for place in 0..rows.len() {
        rows[place] = no_flags();
    }
}

/// Makes the row of each role anew from the direct memberships: the flags of the roles that it reaches.
fn follow(rows: &mut [[bool; 256]], direct: &[Membership])
    requires { All (IsWithin (length rows.old)) direct.now }
    ensures flags { (a b : ℕ) → leads rows.new a b ≡ reaches direct.now a b }
    ensures length { length rows.new ≡ length rows.old }
{
    clear(rows);
    for membership in direct {
        lead(
            rows,
            membership.role.0 as usize,
            membership.member.0 as usize,
        );
    }
}

/// Adds rows of roles that reach no other, up to a number of rows. After an error there may be some more.
fn grow(rows: &mut Vec<[bool; 256]>, count: usize) -> Result<(), AllocError>
    ensures flags { (a b : ℕ) → leads rows.new.items a b ≡ leads rows.old.items a b }
    ensures length { length rows.old.items ≤ length rows.new.items }
    ensures ok { OnOk result (count ≤ length rows.new.items) }
{
    for place in rows.len()..count {
        rows.push(no_flags())?;
    }
    Ok(())
}

impl Memberships {
    /// No membership. It takes no memory.
    pub fn new(alloc: Global) -> Memberships
        ensures { result ≡ [] }
    {
        Memberships {
            direct: Vec::new(alloc),
            rows: Vec::new(alloc),
        }
    }

    /// The flags of the roles that the role reaches; its own may not be set. It takes no memory.
    pub fn reached(&self, role: RoleId) -> &[bool]
        ensures flags { (other : ℕ) → (role.0 == other || get_or result.now other false) ≡ reaches self.now role.0 other }
        ensures length { length result.now ≤ 256 }
    {
        match self.rows.get(role.0 as usize) {
            Some(row) => row,
            None => &[],
        }
    }

    /// Whether the role reaches the other by memberships, through any number of steps, or is the other. It takes no memory.
    pub fn reaches(&self, role: RoleId, other: RoleId) -> bool
        ensures { result ≡ reaches self.now role.0 other.0 }
    {
        flag_at(self.reached(role), other.0 as usize) || role == other
    }

    /// Whether the member is a direct member of the role.
    fn is_direct(&self, role: RoleId, member: RoleId) -> bool
        ensures { result ≡ is_direct self.now (member_of role.0 member.0) }
    {
        self.direct
            .iter()
            .any(|membership| membership.is(role, member))
    }

    /// Makes the member a direct member of the role. After an error nothing has changed.
    ///
    /// # Errors
    /// `AllocError` if a growth of memory was refused.
    pub fn add(&mut self, role: RoleId, member: RoleId) -> Result<(), AllocError>
        requires role { role.0 < 256 }
        requires member { member.0 < 256 }
        ensures ok { OnOk result (self.new ≡ with_membership (member_of role.0 member.0) self.old) }
        ensures err { OnErr result (self.new ≡ self.old) }
    {
        if self.is_direct(role, member) {
            return Ok(());
        }
        let count = role.0.max(member.0) as usize + 1;
        grow(&mut self.rows, count)?;
        self.direct.push(Membership { role, member })?;
        lead(&mut self.rows, role.0 as usize, member.0 as usize);
        Ok(())
    }

    /// The member ceases to be a direct member of the role. It takes no memory.
    pub fn remove(&mut self, role: RoleId, member: RoleId)
        ensures { self.new ≡ without_membership (member_of role.0 member.0) self.old }
    {
        self.direct
            .retain(|membership| !membership.is(role, member));
        follow(&mut self.rows, &self.direct);
    }
}
