//! `create_role`, `grant_role`, `revoke_role`: their tests, and what they change of rights.
ghost use Rattle.std.specs.Prelude.{◌≡◌, string_bytes};
ghost use Rattle.iv_machine.specs.Act as machine;
ghost use Rattle.iv_database.specs.Next.{IsDone};

use crate::database::Database;
use crate::privileges::outcome;
use iv_command::{Refusal, Stop};

impl Database {
    /// Tests a session's request for a new role, and adds it.
    ///
    /// # Errors
    /// `Refused` with the first test that fails; `Memory` if a growth of memory was refused.
    pub fn create_role(&mut self, session: u32, name: String) -> Result<(), Stop>
        ensures done { IsDone self.old session (machine.create_role (string_bytes name)) result self.new }
        ensures sessions { self.new.sessions ≡ self.old.sessions }
    {
        let Some(acting) = self.actor(session) else {
            return Err(Stop::Refused(Refusal::NoSession));
        };
        let change = self.access.create_role(acting, name.as_str());
        outcome(change, name)
    }

    /// Tests a session's request to make the role `to` a member of a role, and makes it one.
    ///
    /// # Errors
    /// `Refused` with the first test that fails; `Memory` if a growth of memory was refused.
    pub fn grant_role(&mut self, session: u32, role: String, to: &str) -> Result<(), Stop>
        ensures done { IsDone self.old session (machine.grant_role (string_bytes role) to.now) result self.new }
        ensures sessions { self.new.sessions ≡ self.old.sessions }
    {
        let Some(acting) = self.actor(session) else {
            return Err(Stop::Refused(Refusal::NoSession));
        };
        let change = self.access.grant_role(acting, role.as_str(), to);
        outcome(change, role)
    }

    /// Tests a session's request to take the role `to` out of the direct members of a role, and takes it out.
    ///
    /// # Errors
    /// `Refused` with the first test that fails; `Memory` if a growth of memory was refused.
    pub fn revoke_role(&mut self, session: u32, role: String, to: &str) -> Result<(), Stop>
        ensures done { IsDone self.old session (machine.revoke_role (string_bytes role) to.now) result self.new }
        ensures sessions { self.new.sessions ≡ self.old.sessions }
    {
        let Some(acting) = self.actor(session) else {
            return Err(Stop::Refused(Refusal::NoSession));
        };
        let change = self.access.revoke_role(acting, role.as_str(), to);
        outcome(change, role)
    }
}
