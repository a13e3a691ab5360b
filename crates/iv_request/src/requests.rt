//! `command_by_value`: from a text to its command, by the shape rules: which request a JSON value is; `WireFault`: why there is none.
ghost use Rattle.std.specs.Prelude.{◌≡◌, IfOk, IfSome, IsErrOf, option_map, true};
ghost use Rattle.iv_machine.specs.Well.{is_well_act};
ghost use Rattle.iv_command.specs.Views.{act_of, command_of};
ghost use Rattle.iv_request.specs.Request.{session_of, begin_of, create_role_of, create_table_of, create_view_of, write_of, subscribe_of, unsubscribe_of, act_for, asked_act, request};
ghost use Rattle.iv_request.specs.Documents.{value_data};
ghost use Rattle.iv_request.specs.Reading.{bad_json, bad_request, asked, reading_by, value_of};
ghost use Rattle.serde_json.specs.Read as serde_json;

use crate::columns::columns_at;
use crate::documents::read;
use crate::entries::entries_at;
use crate::forms::{Word, form_of, has_its_keys};
use crate::grants::{Granting, granting_of};
use crate::memberships::{Membership, membership_of};
use crate::parts::{get, positive_of, string_at, text_at, u64_of};
use crate::policies::{create_policy_of, drop_policy_of, row_security_of};
use iv_command::{Act, Command};
use json::{Scratch, Value as Json};
use std::alloc::{AllocError, Global};

/// Why a line is no command.
#[derive(Clone, Copy, Debug, PartialEq, Eq)]
pub enum WireFault {
    /// The line is no JSON value.
    BadJson,
    /// The JSON value is no request.
    BadRequest,
    /// A growth of memory was refused.
    Memory,
}

impl From<AllocError> for WireFault {
    ghost use Rattle.iv_request.specs.declared.requests.WireFault.TheVariants.{Memory};

    ghost from_gives = { λ _ fault. fault ≡ Memory };

    /// Out of memory, as why no command is read from a line of JSON.
    fn from(_error: AllocError) -> WireFault {
        WireFault::Memory
    }
}

/// The number of a request's session, from a JSON value.
fn session_of(value: &Json<'_>) -> Option<u32>
    ensures { result ≡ session_of (value_data value.now) }
{
    match get(value, "session").and_then(u64_of) {
        None => None,
        Some(n) => {
            if 1 <= n && n < 4294967296 {
                Some(n as u32)
            } else {
                None
            }
        }
    }
}

/// The request that opens a session for a role, from a JSON value.
fn begin_of(alloc: Global, value: &Json<'_>) -> Result<Option<Act>, AllocError>
    ensures { IfOk result (λ act. option_map act_of act ≡ begin_of (value_data value.now)) }
{
    match string_at(alloc, value, "role")? {
        None => Ok(None),
        Some(role) => Ok(Some(Act::Begin { role })),
    }
}

/// The request that adds a role, from a JSON value.
fn create_role_of(alloc: Global, value: &Json<'_>) -> Result<Option<Act>, AllocError>
    ensures { IfOk result (λ act. option_map act_of act ≡ create_role_of (value_data value.now)) }
{
    match string_at(alloc, value, "name")? {
        None => Ok(None),
        Some(name) => Ok(Some(Act::CreateRole { name })),
    }
}

/// The request that adds a table with an owner and columns, from a JSON value.
fn create_table_of(alloc: Global, value: &Json<'_>) -> Result<Option<Act>, AllocError>
    ensures { IfOk result (λ act. option_map act_of act ≡ create_table_of (value_data value.now)) }
{
    match string_at(alloc, value, "name")? {
        None => Ok(None),
        Some(name) => match string_at(alloc, value, "owner")? {
            None => Ok(None),
            Some(owner) => match columns_at(alloc, value)? {
                None => Ok(None),
                Some(columns) => Ok(Some(Act::CreateTable {
                    name,
                    owner,
                    columns,
                })),
            },
        },
    }
}

/// The request that adds a view with an owner and a query, from a JSON value.
fn create_view_of(alloc: Global, value: &Json<'_>) -> Result<Option<Act>, AllocError>
    ensures { IfOk result (λ act. option_map act_of act ≡ create_view_of (value_data value.now)) }
{
    let Some(name) = string_at(alloc, value, "name")? else {
        return Ok(None);
    };
    let Some(owner) = string_at(alloc, value, "owner")? else {
        return Ok(None);
    };
    match text_at(value, "query") {
        None => Ok(None),
        Some(query) => Ok(Some(Act::CreateView {
            name,
            owner,
            query: String::from_str(alloc, query)?,
        })),
    }
}

/// The request that writes entries, from a JSON value.
fn write_of(alloc: Global, value: &Json<'_>) -> Result<Option<Act>, AllocError>
    ensures { IfOk result (λ act. option_map act_of act ≡ write_of (value_data value.now)) }
{
    match entries_at(alloc, value)? {
        None => Ok(None),
        Some(entries) => Ok(Some(Act::Write { entries })),
    }
}

/// The request that opens a subscription to a relation, from a JSON value.
fn subscribe_of(alloc: Global, value: &Json<'_>) -> Result<Option<Act>, AllocError>
    ensures { IfOk result (λ act. option_map act_of act ≡ subscribe_of (value_data value.now)) }
{
    match string_at(alloc, value, "on")? {
        None => Ok(None),
        Some(rel) => Ok(Some(Act::Subscribe { rel })),
    }
}

/// The request that closes a subscription of the session, from a JSON value.
fn unsubscribe_of(value: &Json<'_>) -> Option<Act>
    ensures { option_map act_of result ≡ unsubscribe_of (value_data value.now) }
{
    match get(value, "sub").and_then(positive_of) {
        None => None,
        Some(sub) => Some(Act::Unsubscribe { sub }),
    }
}

/// The request of this word that a JSON value is, once its keys are tested.
fn act_for(alloc: Global, word: Word, value: &Json<'_>) -> Result<Option<Act>, AllocError>
    ensures { IfOk result (λ act. option_map act_of act ≡ act_for word (value_data value.now)) }
{
    match word {
        Word::Begin => begin_of(alloc, value),
        Word::Finish => Ok(Some(Act::Finish)),
        Word::CreateRole => create_role_of(alloc, value),
        Word::CreateTable => create_table_of(alloc, value),
        Word::CreateView => create_view_of(alloc, value),
        Word::Grant => Ok(granting_of(alloc, value)?.map(Granting::grant)),
        Word::Revoke => Ok(granting_of(alloc, value)?.map(Granting::revoke)),
        Word::GrantRole => Ok(membership_of(alloc, value)?.map(Membership::grant)),
        Word::RevokeRole => Ok(membership_of(alloc, value)?.map(Membership::revoke)),
        Word::RowSecurity => row_security_of(alloc, value),
        Word::CreatePolicy => create_policy_of(alloc, value),
        Word::DropPolicy => drop_policy_of(alloc, value),
        Word::Write => write_of(alloc, value),
        Word::Subscribe => subscribe_of(alloc, value),
        Word::Unsubscribe => Ok(unsubscribe_of(value)),
    }
}

/// The request of this word that a JSON value is, whichever further keys it has.
///
/// # Errors
/// `AllocError` if a growth of memory was refused.
pub fn act_of_word(alloc: Global, word: Word, value: &Json<'_>) -> Result<Option<Act>, AllocError>
    ensures act { IfOk result (λ act. option_map act_of act ≡ act_for word (value_data value.now)) }
    ensures well { IfOk result (λ act. IfSome act (λ a. is_well_act (act_of a) ≡ true)) }
{
    let act = act_for(alloc, word, value)?;
    Ok(act)
}

/// Which request a JSON value is, by its word at `do` and its keys.
fn asked_act(alloc: Global, value: &Json<'_>) -> Result<Option<Act>, AllocError>
    ensures { IfOk result (λ act. option_map act_of act ≡ asked_act (value_data value.now)) }
{
    match text_at(value, "do").and_then(form_of) {
        None => Ok(None),
        Some(form) => {
            if has_its_keys(form, value) {
                act_for(alloc, form.word, value)
            } else {
                Ok(None)
            }
        }
    }
}

/// The command that a JSON value is: its session, and which request it is.
fn request_of(alloc: Global, value: &Json<'_>) -> Result<Option<Command>, AllocError>
    ensures { IfOk result (λ found. option_map command_of found ≡ request (value_data value.now)) }
{
    match session_of(value) {
        None => Ok(None),
        Some(session) => match asked_act(alloc, value)? {
            None => Ok(None),
            Some(act) => Ok(Some(Command { session, act })),
        },
    }
}

/// The JSON value that a line is, from which its command is made. A line that is no UTF-8 is none.
pub fn read_value<'a>(
    alloc: Global,
    line: &'a [u8],
    scratch: &'a mut Scratch,
) -> Result<Option<Json<'a>>, AllocError>
    ensures { IfOk result (λ found. option_map value_data found ≡ value_of line.now) }
{
    match str::from_utf8(line) {
        Err(_) => Ok(None),
        Ok(text) => read(alloc, text, scratch),
    }
}

/// The command that the JSON value of a text asks for, read by means of a buffer that is kept from line to line.
///
/// # Errors
/// `BadJson` if the text is no JSON value; `BadRequest` if the value is no request; `Memory` if a growth of
/// memory was refused, which may come in place of the others.
///
/// Source: RFC 8259; docs/PROTOCOL.md, Requests.
pub fn command_by_value(
    alloc: Global,
    text: &str,
    scratch: &mut Scratch,
) -> Result<Command, WireFault>
    ensures command { IfOk result (λ command. reading_by (serde_json.read text.now) ≡ asked (command_of command)) }
    ensures bad_json { IsErrOf result WireFault.BadJson → reading_by (serde_json.read text.now) ≡ bad_json }
    ensures bad_request { IsErrOf result WireFault.BadRequest → reading_by (serde_json.read text.now) ≡ bad_request }
{
    match read(alloc, text, scratch)? {
        None => Err(WireFault::BadJson),
        Some(value) => match request_of(alloc, &value)? {
            None => Err(WireFault::BadRequest),
            Some(command) => Ok(command),
        },
    }
}
