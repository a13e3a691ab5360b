//! `NewPolicy`, as asked for, and `Policy`, as kept; `PolicyCommand`, `Check`, `Verdict`; whether a row passes one policy; the tests
//! of an update (`update_tests`).
ghost use Rattle.std.specs.Prelude.{◌≡◌, map, option_map};
ghost use Rattle.iv_algebra.specs.Shapes.{condition_of};
ghost use Rattle.iv_access.specs.Policies.{covers, is_met, is_named, or_later, passes, update_tests};

use crate::grant::Grantee;
use iv_algebra::Pred;
use iv_rows::Row;
use std::marker::Model;

/// What a policy is for (PostgreSQL 16, CREATE POLICY: FOR).
#[derive(Clone, Copy, Debug, PartialEq, Eq)]
pub enum PolicyCommand {
    /// Each of the others.
    All,
    /// Rows that are read.
    Select,
    /// Rows that are added.
    Insert,
    /// Rows that are replaced, and those in their place.
    Update,
    /// Rows that are removed.
    Delete,
}

/// What a row is tested for (PostgreSQL 16, CREATE POLICY, Policies Applied by Command Type).
#[derive(Clone, Copy, Debug, PartialEq, Eq)]
pub enum Check {
    /// It is read.
    Select,
    /// It is added.
    Insert,
    /// It is replaced.
    UpdateOld,
    /// It takes a replaced row's place.
    UpdateNew,
    /// It is removed.
    Delete,
}

/// The tests of an update in their order, each with its row: what a reader may not see is not replaced, and what comes in
/// its place is seen by who wrote it (PostgreSQL 16, CREATE POLICY, Policies Applied by Command Type).
pub fn update_tests<'a>(old: &'a Row, new: &'a Row) -> [(Check, &'a Row); 4]
    ensures { map (λ t. (t.0, t.1.now)) result ≡ update_tests old.now new.now }
{
    [
        (Check::Select, old),
        (Check::UpdateOld, old),
        (Check::UpdateNew, new),
        (Check::Select, new),
    ]
}

/// What the policies of a table say of a row (PostgreSQL 16, Row Security Policies).
#[derive(Clone, Copy, Debug, PartialEq, Eq)]
pub enum Verdict {
    /// It passes.
    Pass,
    /// No permissive policy passes.
    NoPermissive,
    /// The restrictive policy at this place fails, the first in the order of the table's policies.
    Restrictive(usize),
}

/// A policy as it is asked for (PostgreSQL 16, CREATE POLICY).
#[derive(Drop)]
pub struct NewPolicy {
    /// Its name, unique on its table.
    pub name: String,
    /// Whether it is restrictive, and not permissive.
    pub restrictive: bool,
    /// What it is for.
    pub command: PolicyCommand,
    /// The names of the roles that it is for; none stands for all roles.
    pub to: Vec<Option<String>>,
    /// The predicate of rows that are there.
    pub using: Option<Pred>,
    /// The predicate of rows that are added.
    pub check: Option<Pred>,
}

impl Model for NewPolicy {
    ghost use Rattle.iv_access.specs.NewPolicies.{NewPolicy};
    ghost use Rattle.iv_access.specs.Codes.{asked_code};

    ghost Value = { NewPolicy };

    ghost coded = { asked_code };

    ghost use Rattle.iv_access.specs.Views.{asked_of};

    ghost view = { asked_of };
}

/// A policy as a table keeps it, with its roles by number.
#[derive(Drop)]
pub(crate) struct Policy {
    pub(crate) name: String,
    pub(crate) restrictive: bool,
    pub(crate) command: PolicyCommand,
    pub(crate) to: Vec<Grantee>,
    pub(crate) using: Option<Pred>,
    pub(crate) check: Option<Pred>,
}

impl Model for Policy {
    ghost use Rattle.iv_access.specs.Rights.{Policy};
    ghost use Rattle.iv_access.specs.Codes.{policy_code};

    ghost Value = { Policy };

    ghost coded = { policy_code };

    ghost use Rattle.iv_access.specs.Views.{policy_kept};

    ghost view = { policy_kept };
}

/// Whether a policy of this `PolicyCommand` is for this `Check`.
pub(crate) fn covers(command: PolicyCommand, test: Check) -> bool
    ensures { result ≡ covers command test }
{
    match command {
        PolicyCommand::All => true,
        PolicyCommand::Select => matches!(test, Check::Select),
        PolicyCommand::Insert => matches!(test, Check::Insert),
        PolicyCommand::Update => matches!(test, Check::UpdateOld | Check::UpdateNew),
        PolicyCommand::Delete => matches!(test, Check::Delete),
    }
}

/// Whether a predicate of one policy is there and holds of the row.
fn is_met(pred: &Option<Pred>, user: &str, row: &Row) -> bool
    ensures { result ≡ is_met (option_map condition_of pred.now) user.now row.now }
{
    match pred {
        Some(pred) => pred.holds(row, user),
        None => false,
    }
}

/// Whether the row passes the check of one policy, or its other predicate if it has no check.
fn is_checked(check: &Option<Pred>, otherwise: &Option<Pred>, user: &str, row: &Row) -> bool
    ensures { result ≡ is_met (or_later (option_map condition_of check.now) (option_map condition_of otherwise.now)) user.now row.now }
{
    match check {
        Some(check) => check.holds(row, user),
        None => is_met(otherwise, user, row),
    }
}

impl Policy {
    /// Whether the policy, as it is kept, has the name.
    pub(crate) fn is_named(&self, name: &str) -> bool
        ensures { result ≡ is_named name.now self.now }
    {
        name == self.name.as_str()
    }

    /// Whether the row passes the one policy, by its predicate for the test.
    pub(crate) fn passes(&self, user: &str, test: Check, row: &Row) -> bool
        ensures { result ≡ passes user.now test row.now self.now }
    {
        match test {
            Check::Insert | Check::UpdateNew => is_checked(&self.check, &self.using, user, row),
            _ => is_met(&self.using, user, row),
        }
    }
}
