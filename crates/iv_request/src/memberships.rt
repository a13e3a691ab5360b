//! `membership_of`: the role and the member that are named to grant or revoke a role, from a JSON value.
ghost use Rattle.std.specs.Prelude.{◌≡◌, IfOk, option_map, string_bytes};
ghost use Rattle.iv_machine.specs.Parts.{is_group};
ghost use Rattle.iv_request.specs.Documents.{value_data};
ghost use Rattle.iv_command.specs.Views.{act_of};
ghost use Rattle.iv_request.specs.Request.{group_at, membership_of, grant_role_by, revoke_role_by};

use crate::parts::{string_at, text_at};
use iv_command::Act;
use iv_rows::name_ok;
use json::Value as Json;
use std::alloc::{AllocError, Global};
use std::marker::Model;

/// Whether a request may grant or revoke the role of this name: it is a name, and not the superuser's.
fn is_group(name: &str) -> bool
    ensures { result ≡ is_group name.now }
{
    name_ok(name) && name != "admin"
}

/// The name at a key of the role that a request grants or revokes, in memory of its own.
pub fn group_at(alloc: Global, value: &Json<'_>, key: &str) -> Result<Option<String>, AllocError>
    ensures { IfOk result (λ found. option_map string_bytes found ≡ group_at key.now (value_data value.now)) }
{
    match text_at(value, key) {
        None => Ok(None),
        Some(name) => {
            if is_group(name) {
                Ok(Some(String::from_str(alloc, name)?))
            } else {
                Ok(None)
            }
        }
    }
}

/// What a grant and a revoke of a role name.
#[derive(Drop)]
pub struct Membership {
    /// The name of the role that is granted.
    role: String,
    /// The name of the role that it is granted to.
    member: String,
}

impl Model for Membership {
    ghost use Rattle.std.specs.Prelude.{string_bytes};
    ghost use Rattle.iv_request.specs.Request.{MembershipNames};

    ghost Value = { MembershipNames };

    ghost view = { λ m. record { role = string_bytes m.role; to = string_bytes m.member } };
}

impl Membership {
    /// The request that grants the role to the member.
    pub fn grant(self) -> Act
        ensures { act_of result ≡ grant_role_by self }
    {
        let Membership { role, member } = self;
        Act::GrantRole { role, to: member }
    }

    /// The request that revokes the role from the member.
    pub fn revoke(self) -> Act
        ensures { act_of result ≡ revoke_role_by self }
    {
        let Membership { role, member } = self;
        Act::RevokeRole { role, to: member }
    }
}

/// The role and the member that a request to grant or revoke a role names, from a JSON value.
pub fn membership_of(alloc: Global, value: &Json<'_>) -> Result<Option<Membership>, AllocError>
    ensures { IfOk result (λ found. found ≡ membership_of (value_data value.now)) }
{
    let Some(role) = group_at(alloc, value, "role")? else {
        return Ok(None);
    };
    match string_at(alloc, value, "to")? {
        None => Ok(None),
        Some(member) => Ok(Some(Membership { role, member })),
    }
}
