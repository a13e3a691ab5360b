//! `step`: from a command to its lines; `act` calls the function of each request.
ghost use Rattle.std.specs.Prelude.{◌≡◌, IfOk, OnOk, map, option_map, string_bytes, true};
ghost use Rattle.iv_machine.specs.Act as machine;
ghost use Rattle.iv_machine.specs.Well.{is_well_act, is_well_command};
ghost use Rattle.iv_store.specs.Answering.{IsCountedBy, IsNext, IsPlain, IsSaid, IsStep};
ghost use Rattle.iv_store.specs.Store.{IsSoundStore};
ghost use Rattle.iv_store.specs.Engine.{ChangesWhereAccepted};
ghost use Rattle.iv_command.specs.Views.{act_of, command_of, line_of};

use crate::memberships::{grant_role, revoke_role};
use crate::policies::{create_policy, drop_policy, row_security};
use crate::privileges::revoke;
use crate::write::write;
use iv_command::{Act, Answer, Command, Line, Reply, Stop, lines_of};
use iv_store::Store;
use std::alloc::{AllocError, Global};

/// For `act`, the answer of a request that shows no reader anything: `ok` alone, or why it is not done.
fn plain(alloc: Global, done: Result<(), Stop>) -> Result<Answer, Stop>
    ensures { IsPlain done result }
{
    match done {
        Ok(()) => Ok(Answer {
            reply: Reply::Ok,
            changes: Vec::new(alloc),
        }),
        Err(stop) => Err(stop),
    }
}

/// For `act`, the text of the grantee that a grant or a revoke names, if there is one.
fn text_of(name: &Option<String>) -> Option<&str>
    ensures { option_map (λ n. n.now) result ≡ option_map string_bytes name.now }
{
    match name {
        None => None,
        Some(name) => Some(name.as_str()),
    }
}

/// Makes the tests of a request, and the change if all pass.
pub(crate) fn act(store: &mut Store, session: u32, act: Act) -> Result<Answer, Stop>
    requires well { is_well_act (act_of act) ≡ true }
    requires sound { IsSoundStore store.old }
    ensures { IsStep store.old session (act_of act) result store.new }
{
    match act {
        Act::Begin { role } => {
            store.found.clear();
            let done = store.database.begin(session, role.as_str());
            plain(store.alloc, done)
        }
        Act::Finish => store.finish(session),
        Act::CreateRole { name } => {
            let done = store.database.create_role(session, name);
            plain(store.alloc, done)
        }
        Act::CreateTable {
            name,
            owner,
            columns,
        } => {
            let done = store
                .database
                .create_table(session, name, owner.as_str(), columns);
            plain(store.alloc, done)
        }
        Act::CreateView { name, owner, query } => {
            let done = store
                .database
                .create_view(session, name, owner.as_str(), query.as_str());
            plain(store.alloc, done)
        }
        Act::Grant {
            rel,
            privileges,
            grantee,
        } => {
            let done = store
                .database
                .grant(session, rel, &privileges, text_of(&grantee));
            plain(store.alloc, done)
        }
        Act::Revoke {
            rel,
            privileges,
            grantee,
        } => revoke(store, session, rel, &privileges, text_of(&grantee)),
        Act::GrantRole { role, to } => grant_role(store, session, role, to.as_str()),
        Act::RevokeRole { role, to } => revoke_role(store, session, role, to.as_str()),
        Act::RowSecurity { rel, enable, force } => {
            row_security(store, session, rel.as_str(), enable, force)
        }
        Act::CreatePolicy(policy) => create_policy(store, session, policy),
        Act::DropPolicy { rel, name } => {
            drop_policy(store, session, rel.as_str(), name.as_str())
        }
        Act::Write { entries } => write(store, session, entries),
        Act::Subscribe { rel } => store.subscribe(session, rel),
        Act::Unsubscribe { sub } => store.unsubscribe(session, sub),
    }
}

/// One step of the machine.
pub fn step(store: &mut Store, command: Command) -> Result<Vec<Line>, AllocError>
    requires well { is_well_command (command_of command) ≡ true }
    requires sound { IsSoundStore store.old }
    ensures lines { IfOk result (λ lines. IsSaid store.old (command_of command) (map line_of lines.items)) }
    ensures state { OnOk result (IsNext store.old (command_of command) store.new) }
    ensures refused { IfOk result (λ lines. ChangesWhereAccepted store.old (map line_of lines.items) store.new) }
    ensures rounds { IfOk result (λ lines. IsCountedBy store.old (command_of command) (map line_of lines.items) store.new) }
    ensures sound { OnOk result (IsSoundStore store.new) }
{
    let session = command.session;
    let answer = act(store, session, command.act);
    let lines = lines_of(store.alloc, session, answer)?;
    Ok(lines)
}
