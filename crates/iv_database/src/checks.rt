//! `check_privileges`, `check_policies`: the tests of a write's entries by grants and by policies.
ghost use Rattle.std.specs.Prelude.{◌≡◌, ◌+◌, map, option_map};
ghost use Rattle.std.specs.List.{AllByRecursion};
ghost use Rattle.iv_access.specs.Privileges.{first_missing};
ghost use Rattle.iv_machine.specs.Refusing.{each_entry, entry_check, entry_policies, entry_privileges};
ghost use Rattle.iv_database.specs.Database.{frame_of};
ghost use Rattle.iv_database.specs.Placed.{IsPlaced, entry_of, first_of, needs_of};
ghost use Rattle.iv_command.specs.Stops.{IsTested};

use crate::database::Database;
use crate::entries::Placement;
use iv_access::{Check, Missing, Privilege, RoleId, Verdict, update_tests};
use iv_command::{Op, Refusal, Stop};
use iv_rows::Row;

impl Database {
    /// The first privilege that an entry needs and the role has not.
    fn missing(&self, acting: RoleId, entry: &Placement) -> Option<Missing>
        ensures { option_map (λ m. (m.privilege, m.rel.0)) result ≡ first_missing self.now.known.rights acting.0 (needs_of entry.now) }
    {
        let rel = entry.rel;
        match entry.op {
            Op::Insert(_) => self
                .access
                .first_missing(acting, &[(Privilege::Insert, rel)]),
            Op::Delete(_) => self.access.first_missing(
                acting,
                &[(Privilege::Delete, rel), (Privilege::Select, rel)],
            ),
            Op::Update(_, _) => self.access.first_missing(
                acting,
                &[(Privilege::Update, rel), (Privilege::Select, rel)],
            ),
        }
    }

    /// Whether the role has the privileges that the entries need.
    ///
    /// # Errors
    /// `Refused` with the first that is missing; `Memory` if a growth of memory was refused.
    pub(crate) fn check_privileges(&self, acting: RoleId, entries: &[Placement]) -> Result<(), Stop>
        requires { AllByRecursion (IsPlaced (frame_of self.now)) entries.now }
        ensures { IsTested (each_entry (entry_privileges (frame_of self.now) acting.0) 1 (map entry_of entries.now)) result }
    {
        for entry in entries {
            if let Some(missing) = self.missing(acting, entry) {
                let rel = String::from_str(self.alloc, entry.name.as_str())?;
                return Err(Stop::Refused(Refusal::MissingPrivilege {
                    privilege: missing.privilege,
                    rel,
                }));
            }
        }
        Ok(())
    }

    /// Whether a row of an entry passes the test by policies.
    fn check_row(
        &self,
        acting: RoleId,
        number: usize,
        entry: &Placement,
        test: Check,
        row: &Row,
    ) -> Result<(), Stop>
        requires { IsPlaced (frame_of self.now) entry.now }
        ensures { IsTested (entry_check (frame_of self.now) acting.0 number entry.now.name (test, row.now)) result }
    {
        let place = match self.access.check(acting, entry.rel, test, row) {
            Verdict::Pass => return Ok(()),
            Verdict::NoPermissive => None,
            Verdict::Restrictive(place) => Some(place),
        };
        let rel = String::from_str(self.alloc, entry.name.as_str())?;
        let Some(place) = place else {
            return Err(Stop::Refused(Refusal::NoPermissive {
                rel,
                check: test,
                entry: number,
            }));
        };
        let name = self.access.policy_name(entry.rel, place).unwrap_or("");
        let policy = String::from_str(self.alloc, name)?;
        Err(Stop::Refused(Refusal::RestrictiveFailed {
            policy,
            rel,
            check: test,
            entry: number,
        }))
    }

    /// Whether the rows of an entry pass the tests by policies.
    fn check_rows(
        &self,
        acting: RoleId,
        number: usize,
        entry: &Placement,
        tests: &[(Check, &Row)],
    ) -> Result<(), Stop>
        requires { IsPlaced (frame_of self.now) entry.now }
        ensures { IsTested (first_of (entry_check (frame_of self.now) acting.0 number entry.now.name) tests.now) result }
    {
        for (test, row) in tests {
            self.check_row(acting, number, entry, *test, row)?;
        }
        Ok(())
    }

    /// Whether the policies of its table let an entry through (PostgreSQL 16, CREATE POLICY, Policies Applied by Command
    /// Type).
    fn check_entry(&self, acting: RoleId, number: usize, entry: &Placement) -> Result<(), Stop>
        requires { IsPlaced (frame_of self.now) entry.now }
        ensures { IsTested (entry_policies (frame_of self.now) acting.0 number (entry_of entry.now)) result }
    {
        match &entry.op {
            Op::Insert(new) => self.check_rows(acting, number, entry, &[(Check::Insert, new)]),
            Op::Delete(old) => self.check_rows(
                acting,
                number,
                entry,
                &[(Check::Select, old), (Check::Delete, old)],
            ),
            Op::Update(old, new) => {
                self.check_rows(acting, number, entry, &update_tests(old, new))
            }
        }
    }

    /// Whether the policies of their tables let the entries through.
    ///
    /// # Errors
    /// `Refused` with the first test that fails; `Memory` if a growth of memory was refused.
    pub(crate) fn check_policies(&self, acting: RoleId, entries: &[Placement]) -> Result<(), Stop>
        requires { AllByRecursion (IsPlaced (frame_of self.now)) entries.now }
        ensures { IsTested (each_entry (entry_policies (frame_of self.now) acting.0) 1 (map entry_of entries.now)) result }
    {
        for (place, entry) in entries.iter().enumerate() {
            self.check_entry(acting, place + 1, entry)?;
        }
        Ok(())
    }
}
