//! `Grants`: what a command grants, and `hear_grants`, which has it told to all clients of whose roles it grants it.
ghost use Rattle.std.specs.Prelude.{◌≡◌, ◌++◌, IfOk, OnOk, false, map, option_map, string_bytes, true};
ghost use Rattle.iv_rows.specs.Options.{if_some};
ghost use Rattle.iv_command.specs.Views.{act_of, line_of};
ghost use Rattle.iv_engine.specs.Known.{relations_with};
ghost use Rattle.iv_clients.specs.Clients.{at_all, at_client, client_at};
ghost use Rattle.iv_clients.specs.Kept.{Kept};
ghost use Rattle.iv_gate.specs.Gate.{is_accepted, reply_in};
ghost use Rattle.iv_notices.specs.Granting.{IsGranting, hearing_granted, holding_for, is_granted, names_granted, text_granted};

use iv_clients::Client;
use iv_command::{Act, Line, Reply};
use iv_engine::Engine;
use iv_hall::Hall;
use iv_message::laws::told_texts_are_lines;
use iv_message::push_granted;
use std::alloc::{AllocError, Global};

/// What a request grants, if it is accepted.
#[derive(Drop)]
pub enum Grants {
    /// Nothing.
    Nothing,
    /// Privileges on a relation, to a role, or to all if none is named.
    Privileges {
        /// The relation.
        rel: String,
        /// The role.
        to: Option<String>,
    },
    /// A new relation, to those who have a privilege on it.
    Relation {
        /// The relation.
        rel: String,
    },
    /// What a role has, to a role and its members.
    Membership {
        /// The role that has it.
        group: String,
        /// The role that becomes a member of it.
        to: String,
    },
}

/// Whether the lines of a command say that it was accepted.
pub fn is_accepted(lines: &[Line]) -> bool
    ensures { result ≡ is_accepted (reply_in (map line_of lines.now)) }
{
    match lines.first() {
        Some(Line::Reply { reply, .. }) => !matches!(reply, Reply::Refused(_)),
        _ => false,
    }
}

/// A name, or none.
fn name_in(name: &Option<String>) -> Result<Option<String>, AllocError>
    ensures { IfOk result (λ o. option_map string_bytes o ≡ option_map string_bytes name.now) }
{
    match name {
        None => Ok(None),
        Some(name) => Ok(Some(name.clone()?)),
    }
}

impl Grants {
    /// What an act grants.
    ///
    /// # Errors
    /// `AllocError` if a growth of memory was refused.
    pub fn of(act: &Act) -> Result<Grants, AllocError>
        ensures { IfOk result (IsGranting (act_of act.now)) }
    {
        match act {
            Act::Grant { rel, grantee, .. } => Ok(Grants::Privileges {
                rel: rel.clone()?,
                to: name_in(grantee)?,
            }),
            Act::CreateTable { name, .. } => Ok(Grants::Relation { rel: name.clone()? }),
            Act::CreateView { name, .. } => Ok(Grants::Relation { rel: name.clone()? }),
            Act::GrantRole { role, to } => Ok(Grants::Membership {
                group: role.clone()?,
                to: to.clone()?,
            }),
            _ => Ok(Grants::Nothing),
        }
    }
}

/// Whether it is granted to a role.
fn is_granted(engine: &Engine, grants: &Grants, role: &str) -> bool
    requires { engine.now.failed ≡ false }
    ensures { result ≡ is_granted engine.now.frame grants.now role.now }
{
    match grants {
        Grants::Nothing => false,
        Grants::Privileges { to: None, .. } => true,
        Grants::Privileges { to: Some(to), .. } => engine.is_member(role, to.as_str()),
        Grants::Relation { rel } => engine.has_some(role, rel.as_str()),
        Grants::Membership { to, .. } => engine.is_member(role, to.as_str()),
    }
}

/// Appends that something is granted on each of the relations.
fn push_names(alloc: Global, text: &mut Vec<u8>, names: &[&str]) -> Result<(), AllocError>
    ensures { OnOk result (text.new.items ≡ text.old.items ++ text_granted (map (λ n. n.now) names.now)) }
{
    for name in names {
        push_granted(alloc, text, name)?;
    }
    Ok(())
}

/// Appends that something is granted on each of the relations that a role has something on.
fn push_relations(
    alloc: Global,
    text: &mut Vec<u8>,
    engine: &Engine,
    role: &str,
) -> Result<(), AllocError>
    requires { engine.now.failed ≡ false }
    ensures { OnOk result (text.new.items ≡ text.old.items ++ text_granted (relations_with engine.now.frame role.now)) }
{
    match engine.relations_with(alloc, role) {
        Err(error) => Err(error),
        Ok(names) => {
            push_names(alloc, text, &names)?;
            Ok(())
        }
    }
}

/// The texts that tell what is granted.
fn text_granted(alloc: Global, engine: &Engine, grants: &Grants) -> Result<Vec<u8>, AllocError>
    requires { engine.now.failed ≡ false }
    ensures { IfOk result (λ text. text.items ≡ text_granted (names_granted engine.now.frame grants.now)) }
{
    let mut text = Vec::new(alloc);
    match grants {
        Grants::Nothing => {}
        Grants::Privileges { rel, .. } => push_granted(alloc, &mut text, rel.as_str())?,
        Grants::Relation { rel } => push_granted(alloc, &mut text, rel.as_str())?,
        Grants::Membership { group, .. } => {
            push_relations(alloc, &mut text, engine, group.as_str())?
        }
    }
    Ok(text)
}

/// Whether something is granted to the role of a client.
fn is_granted_at(clients: &[Option<Client>], client: u32, engine: &Engine, grants: &Grants) -> bool
    requires { engine.now.failed ≡ false }
    ensures { result ≡ if_some (client_at clients.now client) false (λ (k : Kept). is_granted engine.now.frame grants.now k.role) }
{
    match clients.get(client as usize) {
        Some(Some(it)) => is_granted(engine, grants, it.role()),
        _ => false,
    }
}

/// Has a text told to a client if it is granted to its role.
fn grant(
    clients: &mut Hall,
    client: u32,
    engine: &Engine,
    grants: &Grants,
    text: &[u8],
) -> Result<(), AllocError>
    requires { engine.now.failed ≡ false }
    ensures { OnOk result (clients.new ≡ at_client client (holding_for (is_granted engine.now.frame grants.now) text.now) clients.old) }
{
    if !is_granted_at(clients.places(), client, engine, grants) {
        return Ok(());
    }
    clients.hold(client, text)?;
    Ok(())
}

/// Has a text told to all of whose roles it is granted.
fn grant_all(
    clients: &mut Hall,
    engine: &Engine,
    grants: &Grants,
    text: &[u8],
) -> Result<(), AllocError>
    requires { engine.now.failed ≡ false }
    ensures { OnOk result (clients.new ≡ at_all (holding_for (is_granted engine.now.frame grants.now) text.now) clients.old) }
{
    for client in 0..clients.most() {
        grant(clients, client, engine, grants, text)?;
    }
    Ok(())
}

/// Has what an accepted command grants told to all of whose roles it is granted.
fn hear_granted(
    alloc: Global,
    clients: &mut Hall,
    engine: &Engine,
    grants: &Grants,
) -> Result<(), AllocError>
    ensures { OnOk result (clients.new ≡ at_all (hearing_granted true engine.now.frame grants.now) clients.old) }
{
    if engine.is_failed() {
        return Err(AllocError);
    }
    told_texts_are_lines();
    let text = text_granted(alloc, engine, grants)?;
    if text.is_empty() {
        return Ok(());
    }
    grant_all(clients, engine, grants, &text)?;
    Ok(())
}

/// Has what a command grants told to all clients of whose roles it grants it, if its lines say that it was accepted. If it grants nothing nobody
/// is looked at.
///
/// # Errors
/// `AllocError` if a growth of memory was refused, or the engine has failed.
pub fn hear_grants(
    alloc: Global,
    clients: &mut Hall,
    engine: &Engine,
    lines: &[Line],
    grants: &Grants,
) -> Result<(), AllocError>
    ensures { OnOk result (clients.new
        ≡ at_all (hearing_granted (is_accepted (reply_in (map line_of lines.now))) engine.now.frame grants.now) clients.old) }
{
    if !is_accepted(lines) {
        return Ok(());
    }
    hear_granted(alloc, clients, engine, grants)?;
    Ok(())
}
