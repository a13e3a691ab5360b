//! `row_security`, `create_policy`, `drop_policy`: their tests, what they change of rights, and how the texts of policies are read and bound.
ghost use Rattle.std.specs.Prelude.{◌≡◌, option_map, string_bytes};
ghost use Rattle.iv_machine.specs.Act as machine;
ghost use Rattle.iv_command.specs.Stops.{IsTested};
ghost use Rattle.iv_database.specs.Database.{IsDatabase};
ghost use Rattle.iv_database.specs.Owned.{IsChecked, IsGuarded, IsOwned, asked, name_tests, AreBound, IsBound, IsBoundText};
ghost use Rattle.iv_bind.specs.BoundTexts.{bound_policy};

use crate::database::Database;
use iv_access::{MOST_POLICIES, NewPolicy};
use iv_algebra::Pred;
use iv_bind::bind_pred;
use iv_command::{PolicyText, Refusal, Stop};
use iv_query::read_pred;
use iv_rows::{RelId, Schema};
use std::alloc::Global;

/// The new policy that a request asks for, with the predicates that its texts are bound to.
fn asked(policy: PolicyText, predicates: Predicates) -> NewPolicy
    ensures { result ≡ asked policy predicates }
{
    NewPolicy {
        name: policy.name,
        restrictive: policy.restrictive,
        command: policy.command,
        to: policy.grantee,
        using: predicates.using,
        check: predicates.check,
    }
}

impl Database {
    /// The table of a name, if the role of the session may change the table's policies.
    fn owned(&self, session: u32, rel: &str) -> Result<RelId, Stop>
        requires { IsDatabase self.now }
        ensures { IsOwned self.now session rel.now result }
    {
        let (acting, table) = self.acting_on(session, rel)?;
        if self.catalog.schema(table).is_none() {
            return Err(Stop::Refused(Refusal::NotATable));
        }
        if !self.access.owns(acting, table) {
            let rel = String::from_str(self.alloc, rel)?;
            return Err(Stop::Refused(Refusal::NotOwner { rel }));
        }
        Ok(table)
    }

    /// Tests the names of a new policy: its roles are there, and no policy of the table has its own name.
    fn check_names(&self, table: RelId, policy: &PolicyText) -> Result<(), Stop>
        ensures { IsTested (name_tests self.now.known.rights table.0 policy.now) result }
    {
        if !self.access.are_grantees(&policy.grantee) {
            return Err(Stop::Refused(Refusal::UnknownRole));
        }
        if self.access.policy(table, policy.name.as_str()).is_some() {
            return Err(Stop::Refused(Refusal::NameTaken));
        }
        Ok(())
    }

    /// The table of a policy and its predicates, if all tests pass but that of the number of policies.
    fn check_policy(&self, session: u32, policy: &PolicyText) -> Result<(RelId, Predicates), Stop>
        requires { IsDatabase self.now }
        ensures { IsChecked self.now session policy.now result }
    {
        let table = self.owned(session, policy.rel.as_str())?;
        self.check_names(table, policy)?;
        let schema = self.schema(table);
        let predicates = bound_texts(self.alloc, schema, policy)?;
        Ok((table, predicates))
    }

    /// Switches row security of a table, and says which; else the first test that fails, and nothing has changed.
    ///
    /// # Errors
    /// `Refused` with the test; `Memory` if a growth of memory was refused.
    pub fn row_security(
        &mut self,
        session: u32,
        rel: &str,
        enable: bool,
        force: bool,
    ) -> Result<RelId, Stop>
        requires { IsDatabase self.old }
        ensures guarded { IsGuarded self.old session (machine.row_security rel.now enable force) rel.now result self.new }
        ensures sessions { self.new.sessions ≡ self.old.sessions }
    {
        let table = self.owned(session, rel)?;
        self.access.row_security(table, enable, force);
        Ok(table)
    }

    /// Adds a policy to a table, and says to which; else the first test that fails, and nothing has changed.
    ///
    /// # Errors
    /// `Refused` with the test; `Memory` if a growth of memory was refused.
    pub fn create_policy(&mut self, session: u32, policy: PolicyText) -> Result<RelId, Stop>
        requires { IsDatabase self.old }
        ensures guarded { IsGuarded self.old session (machine.create_policy policy) policy.rel result self.new }
        ensures sessions { self.new.sessions ≡ self.old.sessions }
    {
        let (table, predicates) = self.check_policy(session, &policy)?;
        if self.access.policies(table) >= MOST_POLICIES {
            drop(policy);
            drop(predicates);
            return Err(Stop::Refused(Refusal::TooMany));
        }
        self.access.create_policy(table, asked(policy, predicates))?;
        Ok(table)
    }

    /// Takes a policy of a table away, and says which table's; else the first test that fails, and nothing has changed.
    ///
    /// # Errors
    /// `Refused` with the test; `Memory` if a growth of memory was refused.
    pub fn drop_policy(&mut self, session: u32, rel: &str, name: &str) -> Result<RelId, Stop>
        requires { IsDatabase self.old }
        ensures guarded { IsGuarded self.old session (machine.drop_policy rel.now name.now) rel.now result self.new }
        ensures sessions { self.new.sessions ≡ self.old.sessions }
    {
        let table = self.owned(session, rel)?;
        if self.access.policy(table, name).is_none() {
            return Err(Stop::Refused(Refusal::UnknownPolicy));
        }
        self.access.drop_policy(table, name);
        Ok(table)
    }
}

/// The predicates of a policy.
#[derive(Drop)]
pub(crate) struct Predicates {
    pub using: Option<Pred>,
    pub check: Option<Pred>,
}

/// Reads the text of a policy, and binds it to a predicate over the columns of its table.
fn predicate(alloc: Global, schema: &Schema, text: &str) -> Result<Pred, Stop>
    ensures { IsBound (bound_policy schema.now text.now) result }
{
    let tree = read_pred(alloc, text)?;
    let pred = bind_pred(alloc, &tree, schema);
    drop(tree);
    Ok(pred?)
}

/// Reads and binds a text of a policy, if there is one.
fn predicate_of(alloc: Global, schema: &Schema, text: &Option<String>) -> Result<Option<Pred>, Stop>
    ensures { IsBoundText schema.now (option_map string_bytes text.now) result }
{
    match text {
        Some(text) => {
            let pred = predicate(alloc, schema, text.as_str())?;
            Ok(Some(pred))
        }
        None => Ok(None),
    }
}

/// Reads and binds the texts of a policy over the columns of its table, of which `using` is the first.
pub(crate) fn bound_texts(
    alloc: Global,
    schema: &Schema,
    policy: &PolicyText,
) -> Result<Predicates, Stop>
    ensures { AreBound schema.now policy.now result }
{
    let using = predicate_of(alloc, schema, &policy.using_text)?;
    match predicate_of(alloc, schema, &policy.check_text) {
        Ok(check) => Ok(Predicates { using, check }),
        Err(stop) => {
            drop(using);
            Err(stop)
        }
    }
}
