//! `granting_of`: what a grant or a revoke names, from a JSON value: privileges, relation and grantee.
ghost use Rattle.std.specs.Prelude.{◌≡◌, IfOk, option_map, string_bytes};
ghost use Rattle.iv_request.specs.Documents.{value_data, items_data};
ghost use Rattle.iv_command.specs.Views.{act_of};
ghost use Rattle.iv_request.specs.Request.{each, privilege_named, privilege_of, privileges_at, grantee_named, grantee_at, granting_of, grant_by, revoke_by};

use crate::parts::{items_at, string_at, text_at, text_of};
use iv_command::{Act, Privilege};
use iv_rows::name_ok;
use json::Value as Json;
use std::alloc::{AllocError, Global};
use std::marker::Model;

/// The greatest number of privileges of a grant.
const MOST_PRIVILEGES: usize = 4;

/// The privilege that a word of a grant or a revoke names.
fn privilege_named(text: &str) -> Option<Privilege>
    ensures { result ≡ privilege_named text.now }
{
    if text == "select" {
        Some(Privilege::Select)
    } else if text == "insert" {
        Some(Privilege::Insert)
    } else if text == "update" {
        Some(Privilege::Update)
    } else if text == "delete" {
        Some(Privilege::Delete)
    } else {
        None
    }
}

/// The privilege that a JSON value is, in the list of a grant or a revoke.
fn privilege_of(value: &Json<'_>) -> Option<Privilege>
    ensures { result ≡ privilege_of (value_data value.now) }
{
    match text_of(value) {
        None => None,
        Some(text) => privilege_named(text),
    }
}

/// The privileges of a grant or a revoke that a JSON list is, however many.
fn privileges_of(alloc: Global, items: &[Json<'_>]) -> Result<Option<Vec<Privilege>>, AllocError>
    ensures { IfOk result (λ found. option_map (λ v. v.items) found ≡ each privilege_of (items_data items.now)) }
{
    let mut privileges = Vec::new(alloc);
    for item in items {
        match privilege_of(item) {
            None => return Ok(None),
            Some(privilege) => privileges.push(privilege)?,
        }
    }
    Ok(Some(privileges))
}

/// The 1 to 4 privileges of a grant or a revoke, from a JSON value.
pub fn privileges_at(alloc: Global, value: &Json<'_>) -> Result<Option<Vec<Privilege>>, AllocError>
    ensures { IfOk result (λ found. option_map (λ v. v.items) found ≡ privileges_at (value_data value.now)) }
{
    match items_at(value, "privileges") {
        None => Ok(None),
        Some(items) => match privileges_of(alloc, items)? {
            None => Ok(None),
            Some(privileges) => {
                if 1 <= privileges.len() && privileges.len() <= MOST_PRIVILEGES {
                    Ok(Some(privileges))
                } else {
                    Ok(None)
                }
            }
        },
    }
}

/// The grantee that a word of a request names: a role, or none if it stands for PUBLIC.
pub fn grantee_named(alloc: Global, word: &str) -> Result<Option<Option<String>>, AllocError>
    ensures { IfOk result (λ found. option_map (λ to. option_map string_bytes to) found ≡ grantee_named word.now) }
{
    if word == "public" {
        return Ok(Some(None));
    }
    if !name_ok(word) {
        return Ok(None);
    }
    Ok(Some(Some(String::from_str(alloc, word)?)))
}

/// The grantee of a grant or a revoke, from a JSON value: a role, or none if it is PUBLIC.
pub fn grantee_at(alloc: Global, value: &Json<'_>) -> Result<Option<Option<String>>, AllocError>
    ensures { IfOk result (λ found. option_map (λ to. option_map string_bytes to) found ≡ grantee_at (value_data value.now)) }
{
    match text_at(value, "to") {
        None => Ok(None),
        Some(word) => grantee_named(alloc, word),
    }
}

/// What a grant and a revoke name.
#[derive(Drop)]
pub struct Granting {
    /// The name of the table or view.
    rel: String,
    /// What may be done with it.
    privileges: Vec<Privilege>,
    /// The name of the role; none for all roles.
    grantee: Option<String>,
}

impl Model for Granting {
    ghost use Rattle.std.specs.Prelude.{option_map, string_bytes};
    ghost use Rattle.iv_request.specs.Request.{Granting};

    ghost Value = { Granting };

    ghost view = { λ g. record { rel = string_bytes g.rel; privileges = g.privileges.items; to = option_map string_bytes g.grantee } };
}

impl Granting {
    /// The request that grants the privileges on the relation to the grantee.
    pub fn grant(self) -> Act
        ensures { act_of result ≡ grant_by self }
    {
        let Granting {
            rel,
            privileges,
            grantee,
        } = self;
        Act::Grant {
            rel,
            privileges,
            grantee,
        }
    }

    /// The request that revokes the privileges on the relation from the grantee.
    pub fn revoke(self) -> Act
        ensures { act_of result ≡ revoke_by self }
    {
        let Granting {
            rel,
            privileges,
            grantee,
        } = self;
        Act::Revoke {
            rel,
            privileges,
            grantee,
        }
    }
}

/// What a grant or a revoke names, from a JSON value.
pub fn granting_of(alloc: Global, value: &Json<'_>) -> Result<Option<Granting>, AllocError>
    ensures { IfOk result (λ found. found ≡ granting_of (value_data value.now)) }
{
    match string_at(alloc, value, "on")? {
        None => Ok(None),
        Some(rel) => match grantee_at(alloc, value)? {
            None => Ok(None),
            Some(grantee) => match privileges_at(alloc, value)? {
                None => Ok(None),
                Some(privileges) => Ok(Some(Granting {
                    rel,
                    privileges,
                    grantee,
                })),
            },
        },
    }
}
