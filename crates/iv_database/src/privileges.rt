//! `grant`, `revoke`; the refusal for a fault of rights (`stop_of`, `outcome`); what a reader lacks (`missing_for`).
ghost use Rattle.std.specs.Prelude.{◌≡◌, ◌<◌, length, map, option_map, string_bytes};
ghost use Rattle.iv_access.specs.Access.{name_given};
ghost use Rattle.iv_machine.specs.Act as machine;
ghost use Rattle.iv_database.specs.Database.{IsDatabase, frame_of};
ghost use Rattle.iv_database.specs.Next.{IsDone};
ghost use Rattle.iv_database.specs.Telling.{IsStopOf, IsTold};
ghost use Rattle.iv_access.specs.Privileges.{select_from};
ghost use Rattle.iv_machine.specs.State.{missing_for};

use crate::database::Database;
use iv_access::{AccessFault, Privilege, RoleId};
use iv_command::{Refusal, Stop};
use iv_rows::RelId;

/// Why a change of rights is not done: `rel` is the relation that the request names.
pub(crate) fn stop_of(fault: AccessFault, rel: String) -> Stop
    ensures { IsStopOf fault (string_bytes rel) result }
{
    match fault {
        AccessFault::Role => Stop::Refused(Refusal::UnknownRole),
        AccessFault::Taken => Stop::Refused(Refusal::NameTaken),
        AccessFault::NotAdmin => Stop::Refused(Refusal::NotAdministrator),
        AccessFault::NotOwner => Stop::Refused(Refusal::NotOwner { rel }),
        AccessFault::TooMany => Stop::Refused(Refusal::TooMany),
        AccessFault::Loop => Stop::Refused(Refusal::MembershipLoop),
        AccessFault::Memory => Stop::Memory,
    }
}

/// What a change of rights is answered: `rel` is the relation that the request names.
pub(crate) fn outcome(change: Result<(), AccessFault>, rel: String) -> Result<(), Stop>
    ensures { IsTold change (string_bytes rel) result }
{
    match change {
        Ok(()) => Ok(()),
        Err(fault) => Err(stop_of(fault, rel)),
    }
}

impl Database {
    /// Tests a session's request to grant privileges on a relation to a role or to PUBLIC, and grants them.
    ///
    /// # Errors
    /// `Refused` with the first test that fails; `Memory` if a growth of memory was refused.
    pub fn grant(
        &mut self,
        session: u32,
        rel: String,
        privileges: &[Privilege],
        grantee: Option<&str>,
    ) -> Result<(), Stop>
        requires { IsDatabase self.old }
        ensures done { IsDone self.old session (machine.grant (string_bytes rel) privileges.now (name_given grantee.entry)) result self.new }
        ensures sessions { self.new.sessions ≡ self.old.sessions }
    {
        let (acting, number) = self.acting_on(session, rel.as_str())?;
        let change = self.access.grant(acting, number, privileges, grantee);
        outcome(change, rel)
    }

    /// Tests a session's request to revoke privileges on a relation, and takes them back.
    ///
    /// # Errors
    /// `Refused` with the first test that fails; `Memory` if a growth of memory was refused.
    pub fn revoke(
        &mut self,
        session: u32,
        rel: String,
        privileges: &[Privilege],
        grantee: Option<&str>,
    ) -> Result<(), Stop>
        requires { IsDatabase self.old }
        ensures done { IsDone self.old session (machine.revoke (string_bytes rel) privileges.now (name_given grantee.entry)) result self.new }
        ensures sessions { self.new.sessions ≡ self.old.sessions }
    {
        let (acting, number) = self.acting_on(session, rel.as_str())?;
        let change = self.access.revoke(acting, number, privileges, grantee);
        outcome(change, rel)
    }

    /// The first relation that the role may not select from, of those that it needs to read the relation: the relation,
    /// and all that it reaches.
    ///
    /// Source: PostgreSQL 16, CREATE VIEW, `security_invoker`.
    pub fn missing_for(&self, role: RoleId, rel: RelId) -> Option<RelId>
        requires stored { IsDatabase self.now }
        requires below { rel.0 < length self.now.catalog }
        ensures { option_map select_from result ≡ missing_for (frame_of self.now) role.0 rel.0 }
    {
        if !self.access.has(role, Privilege::Select, rel) {
            return Some(rel);
        }
        match self.catalog.view(rel) {
            Some(query) => self.access.first_unread(role, &query.needs),
            None => None,
        }
    }
}
