//! `Tally`: what is counted of messages since the start: how many of each kind were heard, and how many were refused by each number.
ghost use Rattle.std.specs.Prelude.{◌≡◌, ℕ, None, Some, codes, nat_lt, option_map, slice_get, true};
ghost use Rattle.serde_json.specs.Data.{object, string};
ghost use Rattle.serde_json.specs.Find.{get};
ghost use Rattle.iv_command.specs.Views.{act_of, refusal_of, reply_of};
ghost use Rattle.iv_request.specs.Asked.{act_data};
ghost use Rattle.iv_request.specs.Values.{natural};
ghost use Rattle.iv_lines.specs.Texts.{refused_members, reply_members};
ghost use Rattle.iv_arrivals.specs.Tallied.{one_more};

use iv_command::{Act, Refusal, Reply};
use iv_message::Message;

/// The kinds of messages: `none`, for what is no request, and the words at `do` of requests that a client may make.
pub const KINDS: [&str; 14] = [
    "none",
    "create_role",
    "create_table",
    "create_view",
    "grant",
    "revoke",
    "grant_role",
    "revoke_role",
    "row_security",
    "create_policy",
    "drop_policy",
    "write",
    "subscribe",
    "unsubscribe",
];

/// What is counted of messages since the start. A count stops at the greatest number.
#[derive(Clone, Copy)]
pub struct Tally {
    /// How many messages of each kind were heard, in the order of `KINDS`.
    pub heard: [u64; 14],
    /// How many messages were refused, by the number of the refusal.
    pub refused: [u64; 24],
}

/// The place among `KINDS` of what a request asks: that of its word at `do`.
fn kind_of(act: &Act) -> usize
    ensures kind { nat_lt result 14 ≡ true }
    ensures word { (n : ℕ) → nat_lt 0 result ≡ true
        → option_map (λ w. string w.now) (slice_get KINDS result) ≡ get (codes "do") (act_data n (act_of act.now)) }
{
    match act {
        Act::Begin { .. } | Act::Finish => 0,
        Act::CreateRole { .. } => 1,
        Act::CreateTable { .. } => 2,
        Act::CreateView { .. } => 3,
        Act::Grant { .. } => 4,
        Act::Revoke { .. } => 5,
        Act::GrantRole { .. } => 6,
        Act::RevokeRole { .. } => 7,
        Act::RowSecurity { .. } => 8,
        Act::CreatePolicy(_) => 9,
        Act::DropPolicy { .. } => 10,
        Act::Write { .. } => 11,
        Act::Subscribe { .. } => 12,
        Act::Unsubscribe { .. } => 13,
    }
}

/// The number by which a refusal is told.
pub fn number_of(refusal: &Refusal) -> usize
    ensures { get (codes "error") (object (refused_members (refusal_of refusal.now))) ≡ Some (natural result) }
{
    match refusal {
        Refusal::NoSession => 3,
        Refusal::SessionInUse => 4,
        Refusal::UnknownRole => 5,
        Refusal::NameTaken => 6,
        Refusal::UnknownRelation => 7,
        Refusal::NotATable => 8,
        Refusal::BadRow { .. } => 9,
        Refusal::BadQuery { .. } => 10,
        Refusal::NotAdministrator => 11,
        Refusal::NotOwner { .. } => 12,
        Refusal::MissingPrivilege { .. } => 13,
        Refusal::NoPermissive { .. } => 14,
        Refusal::RestrictiveFailed { .. } => 15,
        Refusal::NoSuchRow { .. } => 16,
        Refusal::Limit => 17,
        Refusal::UnknownPolicy => 18,
        Refusal::UnknownSubscription => 19,
        Refusal::TooMany => 20,
        Refusal::MembershipLoop => 23,
    }
}

/// The number that a reply has at `error`, if it is a refusal.
fn number_in(reply: &Reply) -> Option<usize>
    ensures { option_map natural result ≡ get (codes "error") (object (reply_members (reply_of reply.now))) }
{
    match reply {
        Reply::Ok | Reply::Subscribed(_) => None,
        Reply::Refused(refusal) => Some(number_of(refusal)),
    }
}

/// Counts one more at a place.
fn raise(counts: &mut [u64], at: usize)
    ensures { counts.new ≡ one_more at counts.old }
{
    if at < counts.len() {
        counts[at] = counts[at].saturating_add(1);
    }
}

impl Tally {
    /// Nothing was counted yet.
    pub fn new() -> Tally {
        Tally {
            heard: [0; 14],
            refused: [0; 24],
        }
    }

    /// Counts a message that is heard, once, under its kind.
    pub fn hear(&mut self, message: &Message)
        ensures { (k : ℕ) × (nat_lt k 14 ≡ true) × (self.new ≡ record self.old { heard = one_more k self.old.heard }) }
    {
        let kind = match message {
            Message::Request { act, .. } => kind_of(act),
            _ => 0,
        };
        raise(&mut self.heard, kind);
    }

    /// Counts a message that is refused, under the number of the refusal.
    pub fn refuse(&mut self, number: usize)
        ensures { self.new ≡ record self.old { refused = one_more number self.old.refused } }
    {
        raise(&mut self.refused, number);
    }

    /// Counts a message by its reply, if that refuses it.
    pub fn reply(&mut self, reply: &Reply)
        ensures refused { (n : ℕ) → get (codes "error") (object (reply_members (reply_of reply.now))) ≡ Some (natural n)
            → self.new ≡ record self.old { refused = one_more n self.old.refused } }
        ensures accepted { get (codes "error") (object (reply_members (reply_of reply.now))) ≡ None → self.new ≡ self.old }
    {
        match number_in(reply) {
            None => {}
            Some(number) => self.refuse(number),
        }
    }
}
