//! `write_refusal`, `write_fault`: the JSON texts of refusals, and of faults of lines that are no request.
ghost use Rattle.std.specs.Prelude.{◌≡◌, false, IfOk, OnOk};
ghost use Rattle.serde_json.specs.Data.{string, object, no_members, put as with_member};
ghost use Rattle.serde_json.specs.View.{members_view};
ghost use Rattle.serde_json.specs.Written.{has_float};
ghost use Rattle.iv_machine.specs.Act as machine;
ghost use Rattle.iv_command.specs.Views.{reason_of, refusal_of};
ghost use Rattle.iv_request.specs.Values.{natural, privilege_text};
ghost use Rattle.iv_lines.specs.Texts as texts;
ghost use Rattle.iv_lines.specs.Texts.{check_text, reading_text, binding_text, reason_text, line_text, text_of, fault_text};

use iv_command::{BindWhy, Check, Privilege, Reason, Refusal, Why};
use serde_json::{Map, Value as Json, put};
use std::alloc::{AllocError, Global};

/// The text at `privilege` in a refusal: which privilege the role lacks.
fn privilege_text(privilege: Privilege) -> &'static str
    ensures { result.now ≡ privilege_text privilege }
{
    match privilege {
        Privilege::Select => "select",
        Privilege::Insert => "insert",
        Privilege::Update => "update",
        Privilege::Delete => "delete",
    }
}

/// The text at `check` in a refusal: what a row of an entry was tested for by policies.
fn check_text(check: Check) -> &'static str
    ensures { result.now ≡ check_text check }
{
    match check {
        Check::Select => "select",
        Check::Insert => "insert",
        Check::UpdateOld => "update old",
        Check::UpdateNew => "update new",
        Check::Delete => "delete",
    }
}

/// The words of a refusal for why a text is not in the grammar.
fn reading_text(why: Why) -> &'static str
    ensures { result.now ≡ reading_text why }
{
    match why {
        Why::Token => "token",
        Why::Unexpected => "unexpected",
        Why::TooDeep => "too deep",
        Why::TooLong => "too long",
    }
}

/// The words of a refusal for why a text cannot be bound to a plan or a predicate.
fn binding_text(why: BindWhy) -> &'static str
    ensures { result.now ≡ binding_text why }
{
    match why {
        BindWhy::UnknownRelation => "unknown relation",
        BindWhy::DuplicateName => "duplicate name",
        BindWhy::UnknownColumn => "unknown column",
        BindWhy::AmbiguousColumn => "ambiguous column",
        BindWhy::KindMismatch => "kind mismatch",
        BindWhy::NotGrouped => "not grouped",
        BindWhy::TooManyColumns => "too many columns",
        BindWhy::ColumnsDiffer => "columns differ",
        BindWhy::TooManyNodes => "too many nodes",
    }
}

/// The text at `why` in a refusal: what is wrong with the text of a query or a policy.
fn reason_text(why: Reason) -> &'static str
    ensures { result.now ≡ reason_text (reason_of why) }
{
    match why {
        Reason::Reading(why) => reading_text(why),
        Reason::Binding(why) => binding_text(why),
    }
}

/// Adds a JSON member of a refusal or a fault that is a number.
pub fn put_number(
    alloc: Global,
    members: &mut Map<String, Json>,
    key: &str,
    number: u64,
) -> Result<(), AllocError>
    ensures { OnOk result (members_view members.new.entries ≡ with_member key.now (natural number) (members_view members.old.entries)) }
{
    put(members, alloc, key, Json::from(number))
}

/// Adds a JSON member of a refusal that is a text.
pub fn put_text(
    alloc: Global,
    members: &mut Map<String, Json>,
    key: &str,
    text: &str,
) -> Result<(), AllocError>
    ensures { OnOk result (members_view members.new.entries ≡ with_member key.now (string text.now) (members_view members.old.entries)) }
{
    put(members, alloc, key, Json::try_from_str(alloc, text)?)
}

/// Adds the JSON members of a refusal without further keys.
fn put_plain(alloc: Global, members: &mut Map<String, Json>, number: u64) -> Result<(), AllocError>
    requires { members_view members.old.entries ≡ no_members }
    ensures { OnOk result (members_view members.new.entries ≡ texts.plain_members number) }
{
    put_number(alloc, members, "error", number)
}

/// Adds the JSON members of the refusal that the role is neither the relation's owner nor `admin`.
fn put_not_owner(
    alloc: Global,
    members: &mut Map<String, Json>,
    rel: &str,
) -> Result<(), AllocError>
    requires { members_view members.old.entries ≡ no_members }
    ensures { OnOk result (members_view members.new.entries ≡ texts.refused_members (machine.not_owner rel.now)) }
{
    put_number(alloc, members, "error", 12)?;
    put_text(alloc, members, "on", rel)
}

/// Adds the JSON members of the refusal that the role lacks a privilege on a relation.
fn put_missing(
    alloc: Global,
    members: &mut Map<String, Json>,
    privilege: Privilege,
    rel: &str,
) -> Result<(), AllocError>
    requires { members_view members.old.entries ≡ no_members }
    ensures { OnOk result (members_view members.new.entries ≡ texts.refused_members (machine.missing_privilege privilege rel.now)) }
{
    put_number(alloc, members, "error", 13)?;
    put_text(alloc, members, "on", rel)?;
    put_text(alloc, members, "privilege", privilege_text(privilege))
}

/// Adds the JSON members of a refusal of an entry.
fn put_entry_refused(
    alloc: Global,
    members: &mut Map<String, Json>,
    number: u64,
    entry: usize,
) -> Result<(), AllocError>
    requires { members_view members.old.entries ≡ no_members }
    ensures { OnOk result (members_view members.new.entries ≡ texts.entry_refused number entry) }
{
    put_number(alloc, members, "entry", entry as u64)?;
    put_number(alloc, members, "error", number)
}

/// Adds the JSON members of the refusal that a text has a fault: its place and why.
fn put_bad_query(
    alloc: Global,
    members: &mut Map<String, Json>,
    place: usize,
    why: Reason,
) -> Result<(), AllocError>
    requires { members_view members.old.entries ≡ no_members }
    ensures { OnOk result (members_view members.new.entries ≡ texts.refused_members (machine.bad_query place (reason_of why))) }
{
    put_number(alloc, members, "error", 10)?;
    put_number(alloc, members, "place", place as u64)?;
    put_text(alloc, members, "why", reason_text(why))
}

/// Adds the JSON members of the refusal that no permissive policy lets a row of an entry through.
fn put_no_permissive(
    alloc: Global,
    members: &mut Map<String, Json>,
    rel: &str,
    check: Check,
    entry: usize,
) -> Result<(), AllocError>
    requires { members_view members.old.entries ≡ no_members }
    ensures { OnOk result (members_view members.new.entries ≡ texts.refused_members (machine.no_permissive rel.now check entry)) }
{
    put_text(alloc, members, "check", check_text(check))?;
    put_number(alloc, members, "entry", entry as u64)?;
    put_number(alloc, members, "error", 14)?;
    put_text(alloc, members, "on", rel)
}

/// Adds the JSON members of the refusal that a restrictive policy does not let a row of an entry through.
fn put_restrictive(
    alloc: Global,
    members: &mut Map<String, Json>,
    policy: &str,
    rel: &str,
    check: Check,
    entry: usize,
) -> Result<(), AllocError>
    requires { members_view members.old.entries ≡ no_members }
    ensures { OnOk result (members_view members.new.entries ≡ texts.refused_members (machine.restrictive_failed policy.now rel.now check entry)) }
{
    put_text(alloc, members, "check", check_text(check))?;
    put_number(alloc, members, "entry", entry as u64)?;
    put_number(alloc, members, "error", 15)?;
    put_text(alloc, members, "on", rel)?;
    put_text(alloc, members, "policy", policy)
}

/// Adds the members of a refusal, whichever it is, to a JSON object.
pub fn put_refused(
    alloc: Global,
    members: &mut Map<String, Json>,
    refusal: &Refusal,
) -> Result<(), AllocError>
    requires { members_view members.old.entries ≡ no_members }
    ensures { OnOk result (members_view members.new.entries ≡ texts.refused_members (refusal_of refusal.now)) }
{
    match refusal {
        Refusal::NoSession => put_plain(alloc, members, 3),
        Refusal::SessionInUse => put_plain(alloc, members, 4),
        Refusal::UnknownRole => put_plain(alloc, members, 5),
        Refusal::NameTaken => put_plain(alloc, members, 6),
        Refusal::UnknownRelation => put_plain(alloc, members, 7),
        Refusal::NotATable => put_plain(alloc, members, 8),
        Refusal::BadRow { entry } => put_entry_refused(alloc, members, 9, *entry),
        Refusal::BadQuery { place, why } => put_bad_query(alloc, members, *place, *why),
        Refusal::NotAdministrator => put_plain(alloc, members, 11),
        Refusal::NotOwner { rel } => put_not_owner(alloc, members, rel.as_str()),
        Refusal::MissingPrivilege { privilege, rel } => {
            put_missing(alloc, members, *privilege, rel.as_str())
        }
        Refusal::NoPermissive { rel, check, entry } => {
            put_no_permissive(alloc, members, rel.as_str(), *check, *entry)
        }
        Refusal::RestrictiveFailed {
            policy,
            rel,
            check,
            entry,
        } => put_restrictive(
            alloc,
            members,
            policy.as_str(),
            rel.as_str(),
            *check,
            *entry,
        ),
        Refusal::NoSuchRow { entry } => put_entry_refused(alloc, members, 16, *entry),
        Refusal::Limit => put_plain(alloc, members, 17),
        Refusal::UnknownPolicy => put_plain(alloc, members, 18),
        Refusal::UnknownSubscription => put_plain(alloc, members, 19),
        Refusal::TooMany => put_plain(alloc, members, 20),
        Refusal::MembershipLoop => put_plain(alloc, members, 23),
    }
}

/// The compact JSON text of a refusal or a fault with these members, with a newline.
pub fn text_of(alloc: Global, members: Map<String, Json>) -> Result<Vec<u8>, AllocError>
    ensures { IfOk result (λ text. has_float (object (members_view members.entries)) ≡ false → text.items ≡ text_of (object (members_view members.entries))) }
{
    let value = Json::Object(members);
    let text = value.to_string(alloc);
    drop(value);
    let mut text = text?.into_bytes();
    text.push(b'\n')?;
    Ok(text)
}

/// Adds the members of a refusal, and the session, to a JSON object.
fn put_reply(
    alloc: Global,
    members: &mut Map<String, Json>,
    session: u32,
    refusal: &Refusal,
) -> Result<(), AllocError>
    requires { members_view members.old.entries ≡ no_members }
    ensures { OnOk result (object (members_view members.new.entries) ≡ texts.reply_data session (machine.refused (refusal_of refusal.now))) }
{
    put_refused(alloc, members, refusal)?;
    put_number(alloc, members, "session", session as u64)
}

/// The text of a refusal, with its newline.
pub fn write_refusal(alloc: Global, session: u32, refusal: &Refusal) -> Result<Vec<u8>, AllocError>
    ensures { IfOk result (λ text. text.items ≡ line_text (machine.reply session (machine.refused (refusal_of refusal.now)))) }
{
    let mut members = Map::new(alloc);
    match put_reply(alloc, &mut members, session, refusal) {
        Ok(()) => text_of(alloc, members),
        Err(error) => {
            drop(members);
            Err(error)
        }
    }
}

/// What a line that is no request is answered.
pub fn write_fault(alloc: Global, number: u64) -> Result<Vec<u8>, AllocError>
    ensures { IfOk result (λ text. text.items ≡ fault_text number) }
{
    let mut members = Map::new(alloc);
    match put_number(alloc, &mut members, "error", number) {
        Ok(()) => text_of(alloc, members),
        Err(error) => {
            drop(members);
            Err(error)
        }
    }
}
