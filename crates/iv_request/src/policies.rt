//! `row_security_of`, `create_policy_of`, `drop_policy_of`: the requests on policies, from a JSON value.
ghost use Rattle.std.specs.Prelude.{◌≡◌, IfOk, option_map, string_bytes};
ghost use Rattle.iv_request.specs.Documents.{value_data, items_data};
ghost use Rattle.iv_command.specs.Views.{act_of};
ghost use Rattle.iv_request.specs.Names.{names_of};
ghost use Rattle.iv_request.specs.Request.{each, everyone, grantee_of, grantees_of, grantees_at, policy_command_named, policy_command_of, policy_command_at};
ghost use Rattle.iv_request.specs.Request.{restrictive_at, text_if_at, scope_at, policy_at, policy_of, row_security_of, create_policy_of, drop_policy_of};

use crate::grants::grantee_named;
use crate::parts::{bool_at, bool_of, get, items_of, string_at, text_of};
use iv_command::{Act, PolicyCommand, PolicyText, has_texts};
use json::Value as Json;
use std::alloc::{AllocError, Global};
use std::marker::Model;

/// The greatest number of grantees of a policy.
const MOST_GRANTEES: usize = 16;

/// The request that puts policies into effect or out of it.
pub fn row_security_of(alloc: Global, value: &Json<'_>) -> Result<Option<Act>, AllocError>
    ensures { IfOk result (λ act. option_map act_of act ≡ row_security_of (value_data value.now)) }
{
    let Some(rel) = string_at(alloc, value, "on")? else {
        return Ok(None);
    };
    let Some(enable) = bool_at(value, "enable") else {
        return Ok(None);
    };
    match bool_at(value, "force") {
        None => Ok(None),
        Some(force) => Ok(Some(Act::RowSecurity { rel, enable, force })),
    }
}

/// What a policy is for, by a word of a request: `all`, `select`, `insert`, `update` or `delete`.
fn policy_command_named(word: &str) -> Option<PolicyCommand>
    ensures { result ≡ policy_command_named word.now }
{
    if word == "all" {
        Some(PolicyCommand::All)
    } else if word == "select" {
        Some(PolicyCommand::Select)
    } else if word == "insert" {
        Some(PolicyCommand::Insert)
    } else if word == "update" {
        Some(PolicyCommand::Update)
    } else if word == "delete" {
        Some(PolicyCommand::Delete)
    } else {
        None
    }
}

/// What a policy is for, by the JSON value at `command`.
fn policy_command_of(value: &Json<'_>) -> Option<PolicyCommand>
    ensures { result ≡ policy_command_of (value_data value.now) }
{
    match text_of(value) {
        None => None,
        Some(word) => policy_command_named(word),
    }
}

/// What the policy of a request is for, from a JSON value: all if it does not say it.
pub fn command_at(value: &Json<'_>) -> Option<PolicyCommand>
    ensures { result ≡ policy_command_at (value_data value.now) }
{
    match get(value, "command") {
        None => Some(PolicyCommand::All),
        Some(command) => policy_command_of(command),
    }
}

/// Whether the policy of a request is restrictive, from a JSON value: not if it does not say it.
pub fn restrictive_at(value: &Json<'_>) -> Option<bool>
    ensures { result ≡ restrictive_at (value_data value.now) }
{
    match get(value, "restrictive") {
        None => Some(false),
        Some(restrictive) => bool_of(restrictive),
    }
}

/// The grantee of a policy that a JSON value is: a role, or none if it is PUBLIC.
fn grantee_of(alloc: Global, value: &Json<'_>) -> Result<Option<Option<String>>, AllocError>
    ensures { IfOk result (λ found. option_map (λ to. option_map string_bytes to) found ≡ grantee_of (value_data value.now)) }
{
    match text_of(value) {
        None => Ok(None),
        Some(word) => grantee_named(alloc, word),
    }
}

/// The grantees of a policy that a JSON list is, however many.
fn each_grantee(
    alloc: Global,
    items: &[Json<'_>],
) -> Result<Option<Vec<Option<String>>>, AllocError>
    ensures { IfOk result (λ found. option_map names_of found ≡ each grantee_of (items_data items.now)) }
{
    let mut grantees = Vec::new(alloc);
    for item in items {
        match grantee_of(alloc, item)? {
            None => return Ok(None),
            Some(grantee) => grantees.push(grantee)?,
        }
    }
    Ok(Some(grantees))
}

/// The 1 to 16 grantees of a policy that a JSON value is.
fn grantees_of(alloc: Global, value: &Json<'_>) -> Result<Option<Vec<Option<String>>>, AllocError>
    ensures { IfOk result (λ found. option_map names_of found ≡ grantees_of (value_data value.now)) }
{
    match items_of(value) {
        None => Ok(None),
        Some(items) => match each_grantee(alloc, items)? {
            None => Ok(None),
            Some(grantees) => {
                if 1 <= grantees.len() && grantees.len() <= MOST_GRANTEES {
                    Ok(Some(grantees))
                } else {
                    Ok(None)
                }
            }
        },
    }
}

/// PUBLIC alone, as the grantees of a policy whose request names none.
fn everyone(alloc: Global) -> Result<Vec<Option<String>>, AllocError>
    ensures { IfOk result (λ v. names_of v ≡ everyone) }
{
    let mut everyone = Vec::new(alloc);
    everyone.push(None)?;
    Ok(everyone)
}

/// The grantees of the policy of a request, from a JSON value: PUBLIC if it names none.
pub fn grantees_at(
    alloc: Global,
    value: &Json<'_>,
) -> Result<Option<Vec<Option<String>>>, AllocError>
    ensures { IfOk result (λ found. option_map names_of found ≡ grantees_at (value_data value.now)) }
{
    match get(value, "to") {
        None => Ok(Some(everyone(alloc)?)),
        Some(grantees) => grantees_of(alloc, grantees),
    }
}

/// How a policy is applied.
#[derive(Drop)]
struct Scope {
    restrictive: bool,
    command: PolicyCommand,
    grantee: Vec<Option<String>>,
}

impl Model for Scope {
    ghost use Rattle.std.specs.Prelude.{map, option_map, string_bytes};
    ghost use Rattle.iv_request.specs.Request.{Scope};

    ghost Value = { Scope };

    ghost view = { λ s. record { restrictive = s.restrictive; command = s.command; to = map (option_map string_bytes) s.grantee.items } };
}

/// How the policy of a request is applied: whether it is restrictive, its command and its grantees.
fn scope_at(alloc: Global, value: &Json<'_>) -> Result<Option<Scope>, AllocError>
    ensures { IfOk result (λ found. found ≡ scope_at (value_data value.now)) }
{
    let Some(restrictive) = restrictive_at(value) else {
        return Ok(None);
    };
    let Some(command) = command_at(value) else {
        return Ok(None);
    };
    match grantees_at(alloc, value)? {
        None => Ok(None),
        Some(grantee) => Ok(Some(Scope {
            restrictive,
            command,
            grantee,
        })),
    }
}

/// The text of a policy at a key of a JSON value, none if the key is not there.
pub fn text_if_at(
    alloc: Global,
    value: &Json<'_>,
    key: &str,
) -> Result<Option<Option<String>>, AllocError>
    ensures { IfOk result (λ found. option_map (λ text. option_map string_bytes text) found ≡ text_if_at key.now (value_data value.now)) }
{
    match get(value, key) {
        None => Ok(Some(None)),
        Some(found) => match text_of(found) {
            None => Ok(None),
            Some(text) => Ok(Some(Some(String::from_str(alloc, text)?))),
        },
    }
}

/// The policy of this scope that a JSON value is, whichever texts it has.
fn policy_at(
    alloc: Global,
    scope: Scope,
    value: &Json<'_>,
) -> Result<Option<PolicyText>, AllocError>
    ensures { IfOk result (λ found. found ≡ policy_at scope (value_data value.now)) }
{
    let Some(rel) = string_at(alloc, value, "on")? else {
        return Ok(None);
    };
    let Some(name) = string_at(alloc, value, "name")? else {
        return Ok(None);
    };
    let Some(using_text) = text_if_at(alloc, value, "using")? else {
        return Ok(None);
    };
    let Some(check_text) = text_if_at(alloc, value, "check")? else {
        return Ok(None);
    };
    let Scope {
        restrictive,
        command,
        grantee,
    } = scope;
    Ok(Some(PolicyText {
        rel,
        name,
        restrictive,
        command,
        grantee,
        using_text,
        check_text,
    }))
}

/// The policy that a JSON value is, whichever texts it has.
fn policy_of(alloc: Global, value: &Json<'_>) -> Result<Option<PolicyText>, AllocError>
    ensures { IfOk result (λ found. found ≡ policy_of (value_data value.now)) }
{
    match scope_at(alloc, value)? {
        None => Ok(None),
        Some(scope) => policy_at(alloc, scope, value),
    }
}

/// The request that adds a policy.
pub fn create_policy_of(alloc: Global, value: &Json<'_>) -> Result<Option<Act>, AllocError>
    ensures { IfOk result (λ act. option_map act_of act ≡ create_policy_of (value_data value.now)) }
{
    match policy_of(alloc, value)? {
        None => Ok(None),
        Some(policy) => {
            if has_texts(policy.command, &policy.using_text, &policy.check_text) {
                Ok(Some(Act::CreatePolicy(policy)))
            } else {
                Ok(None)
            }
        }
    }
}

/// The request that takes a policy away.
pub fn drop_policy_of(alloc: Global, value: &Json<'_>) -> Result<Option<Act>, AllocError>
    ensures { IfOk result (λ act. option_map act_of act ≡ drop_policy_of (value_data value.now)) }
{
    let Some(rel) = string_at(alloc, value, "on")? else {
        return Ok(None);
    };
    match string_at(alloc, value, "name")? {
        None => Ok(None),
        Some(name) => Ok(Some(Act::DropPolicy { rel, name })),
    }
}
