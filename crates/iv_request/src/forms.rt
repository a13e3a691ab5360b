//! `form_of`: the forms of requests, each a word and the keys of its requests; `has_its_keys`, `has_only`: the test of keys.
//!
//! A key that comes twice is one key, so the keys are tested one by one and not counted.
ghost use Rattle.std.specs.Prelude.{◌≡◌, ◌++◌, bytes_eq, find, map, option_map};
ghost use Rattle.std.specs.List.{list_all, list_any};
ghost use Rattle.iv_request.specs.Documents.{value_data};
ghost use Rattle.iv_request.specs.Names.{form_seen, keys_seen};
ghost use Rattle.iv_request.specs.Forms.{form_of, has, is_among, has_only, has_its_keys};

use crate::parts::has;
use json::Value as Json;

/// The words of requests.
#[derive(Clone, Copy)]
pub enum Word {
    /// `write`
    Write,
    /// `begin`
    Begin,
    /// `finish`
    Finish,
    /// `create_role`
    CreateRole,
    /// `create_table`
    CreateTable,
    /// `create_view`
    CreateView,
    /// `grant`
    Grant,
    /// `revoke`
    Revoke,
    /// `grant_role`
    GrantRole,
    /// `revoke_role`
    RevokeRole,
    /// `row_security`
    RowSecurity,
    /// `create_policy`
    CreatePolicy,
    /// `drop_policy`
    DropPolicy,
    /// `subscribe`
    Subscribe,
    /// `unsubscribe`
    Unsubscribe,
}

/// A word, as it is at `do`, the further keys that must be there, and those that may be.
pub struct Form {
    /// Which request it is.
    pub word: Word,
    /// The word as it is at `do`.
    text: &'static str,
    /// The further keys that must be there.
    pub required: &'static [&'static str],
    /// The keys that may be there.
    pub optional: &'static [&'static str],
}

/// The forms: of writes first, since most requests are writes, and of the others in the order of docs/PROTOCOL.md.
static FORMS: [Form; 15] = [
    Form {
        word: Word::Write,
        text: "write",
        required: &["entries"],
        optional: &[],
    },
    Form {
        word: Word::Begin,
        text: "begin",
        required: &["role"],
        optional: &[],
    },
    Form {
        word: Word::Finish,
        text: "finish",
        required: &[],
        optional: &[],
    },
    Form {
        word: Word::CreateRole,
        text: "create_role",
        required: &["name"],
        optional: &[],
    },
    Form {
        word: Word::CreateTable,
        text: "create_table",
        required: &["name", "owner", "columns"],
        optional: &[],
    },
    Form {
        word: Word::CreateView,
        text: "create_view",
        required: &["name", "owner", "query"],
        optional: &[],
    },
    Form {
        word: Word::Grant,
        text: "grant",
        required: &["on", "privileges", "to"],
        optional: &[],
    },
    Form {
        word: Word::Revoke,
        text: "revoke",
        required: &["on", "privileges", "to"],
        optional: &[],
    },
    Form {
        word: Word::GrantRole,
        text: "grant_role",
        required: &["role", "to"],
        optional: &[],
    },
    Form {
        word: Word::RevokeRole,
        text: "revoke_role",
        required: &["role", "to"],
        optional: &[],
    },
    Form {
        word: Word::RowSecurity,
        text: "row_security",
        required: &["on", "enable", "force"],
        optional: &[],
    },
    Form {
        word: Word::CreatePolicy,
        text: "create_policy",
        required: &["on", "name"],
        optional: &["restrictive", "command", "to", "using", "check"],
    },
    Form {
        word: Word::DropPolicy,
        text: "drop_policy",
        required: &["on", "name"],
        optional: &[],
    },
    Form {
        word: Word::Subscribe,
        text: "subscribe",
        required: &["on"],
        optional: &[],
    },
    Form {
        word: Word::Unsubscribe,
        text: "unsubscribe",
        required: &["sub"],
        optional: &[],
    },
];

/// The keys of every request.
const EVERY: [&str; 2] = ["do", "session"];

/// The first of these forms of requests whose word is this text.
fn find_form<'a>(forms: &'a [Form], text: &str) -> Option<&'a Form>
    ensures { option_map (λ f. form_seen f.now) result ≡ find (λ f. bytes_eq f.text text.now) (map form_seen forms.now) }
{
    forms.iter().find(|form| form.text == text)
}

/// The form of the requests that have this text at `do`.
pub fn form_of(text: &str) -> Option<&'static Form>
    ensures { option_map (λ f. form_seen f.now) result ≡ form_of text.now }
{
    find_form(&FORMS, text)
}

/// Whether a key is in one list of keys, of those that a request or an entry may have.
fn is_among(keys: &[&str], key: &str) -> bool
    ensures { result ≡ list_any (λ k. bytes_eq k.now key.now) keys.now }
{
    keys.iter().any(|k| *k == key)
}

/// Whether a key is in one of three lists of keys, of those that a request or an entry may have.
#[tactic(auto, using(crate::proofs::Keys::in_three))]
pub fn is_in(first: &[&str], second: &[&str], third: &[&str], key: &str) -> bool
    ensures { result ≡ is_among (keys_seen first.now ++ (keys_seen second.now ++ keys_seen third.now)) key.now }
{
    is_among(first, key) || is_among(second, key) || is_among(third, key)
}

/// Whether each key of a JSON object is in one of three lists of keys.
fn are_in(members: &Vec<(&str, Json<'_>)>, first: &[&str], second: &[&str], third: &[&str]) -> bool
    ensures { result ≡ list_all (λ m. is_among (keys_seen first.now ++ (keys_seen second.now ++ keys_seen third.now)) m.0.now) members.now.items }
{
    members
        .iter()
        .all(|member| is_in(first, second, third, member.0))
}

/// Whether a JSON value has no key but those of three lists.
pub fn has_only(value: &Json<'_>, first: &[&str], second: &[&str], third: &[&str]) -> bool
    ensures { result ≡ has_only (keys_seen first.now ++ (keys_seen second.now ++ keys_seen third.now)) (value_data value.now) }
{
    match value {
        Json::Object(members) => are_in(members, first, second, third),
        _ => true,
    }
}

/// Whether a JSON value has each of these keys, which its form requires.
fn has_all(value: &Json<'_>, keys: &[&str]) -> bool
    ensures { result ≡ list_all (λ key. has key.now (value_data value.now)) keys.now }
{
    keys.iter().all(|key| has(value, key))
}

/// Whether each key that the form requires is there, and no key but those of the form.
#[tactic(auto, using(crate::proofs::Keys::all_there))]
pub fn has_its_keys(form: &Form, value: &Json<'_>) -> bool
    ensures { result ≡ has_its_keys (form_seen form.now) (value_data value.now) }
{
    has_all(value, form.required) && has_only(value, &EVERY, form.required, form.optional)
}
