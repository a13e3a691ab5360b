//! `Command`, `Act`, `Entry`: what a session asks; `Refusal`, `Reply`, `Line`: what it is answered.

use crate::rows::SentRows;
use iv_access::{Check, PolicyCommand, Privilege};
use iv_bind::BindWhy;
use iv_machine::Cause;
use iv_query::Why;
use iv_rows::{Column, Row};
use std::marker::Model;
use std::rc::Rc;

/// A request of a session.
#[derive(Drop)]
pub struct Command {
    /// The session's number, from 1 on.
    pub session: u32,
    /// What it asks.
    pub act: Act,
}

/// What a session asks.
///
/// Source: docs/PROTOCOL.md, Requests; PostgreSQL 16, CREATE ROLE, CREATE VIEW (security_invoker), GRANT, REVOKE, Privileges,
/// ALTER TABLE and CREATE POLICY.
#[derive(Drop)]
pub enum Act {
    /// Opens the session for a role.
    Begin {
        role: String,
    },
    /// Closes the session and its subscriptions, for which nothing is sent any more.
    Finish,
    /// Adds a role. Only `admin` may.
    CreateRole {
        name: String,
    },
    /// Adds a table of an owner, who is granted all four privileges on it. Only `admin` may.
    CreateTable {
        name: String,
        owner: String,
        columns: Vec<Column>,
    },
    /// Adds a view of an owner, who is granted all four privileges on it. It shows its readers what they may see of its
    /// tables. Only `admin` may.
    CreateView {
        name: String,
        owner: String,
        query: String,
    },
    /// Gives a role, or PUBLIC if none is named, privileges on a relation. Only its owner and `admin` may.
    Grant {
        rel: String,
        privileges: Vec<Privilege>,
        grantee: Option<String>,
    },
    /// Takes privileges on a relation from a role, or from PUBLIC if none is named. Only its owner and `admin` may.
    Revoke {
        rel: String,
        privileges: Vec<Privilege>,
        grantee: Option<String>,
    },
    /// Makes the role `to` a member of the role: it holds what the role holds. Only `admin` may.
    GrantRole {
        role: String,
        to: String,
    },
    /// Takes the role `to` out of the direct members of the role. Only `admin` may.
    RevokeRole {
        role: String,
        to: String,
    },
    /// Puts the policies of a table into effect or out of it, and forces them on its owner or not. Only its owner and
    /// `admin` may.
    RowSecurity {
        rel: String,
        enable: bool,
        force: bool,
    },
    /// Adds a policy to a table. Only its owner and `admin` may.
    CreatePolicy(PolicyText),
    /// Takes a policy of a table away. Only its owner and `admin` may.
    DropPolicy {
        rel: String,
        name: String,
    },
    /// Writes all the entries, in their order, or none.
    Write {
        entries: Vec<Entry>,
    },
    /// Opens a subscription to a relation.
    Subscribe {
        rel: String,
    },
    /// Closes a subscription of the session: nothing is sent for it any more.
    Unsubscribe {
        sub: u64,
    },
}

/// A policy as its texts (PostgreSQL 16, CREATE POLICY).
#[derive(Drop)]
pub struct PolicyText {
    /// The table.
    pub rel: String,
    /// Its name, unique on its table.
    pub name: String,
    /// Whether it is restrictive, and not permissive.
    pub restrictive: bool,
    /// What it is for.
    pub command: PolicyCommand,
    /// The roles that it is for; none stands for all roles.
    pub grantee: Vec<Option<String>>,
    /// The predicate of rows that are there.
    pub using_text: Option<String>,
    /// The predicate of rows that are added.
    pub check_text: Option<String>,
}

impl Model for PolicyText {
    ghost use Rattle.std.specs.Prelude.{map, option_map, string_bytes};
    ghost use Rattle.iv_machine.specs.Act.{PolicyText};

    ghost Value = { PolicyText };

    ghost view = { λ p. record {
      rel = string_bytes p.rel;
      name = string_bytes p.name;
      restrictive = p.restrictive;
      command = p.command;
      to = map (option_map string_bytes) p.grantee.items;
      using_text = option_map string_bytes p.using_text;
      check_text = option_map string_bytes p.check_text;
    } };
}

/// One entry of a write.
#[derive(Drop)]
pub struct Entry {
    /// The table.
    pub rel: String,
    /// What is done.
    pub op: Op,
    /// How often, from 1 on.
    pub copies: i64,
}

impl Model for Entry {
    ghost use Rattle.std.specs.Prelude.{string_bytes};
    ghost use Rattle.iv_machine.specs.Act.{Entry};
    ghost use Rattle.iv_command.specs.Entries.{op_of, copies_of};

    ghost Value = { Entry };

    ghost view = { λ e. record { rel = string_bytes e.rel; op = op_of e.op; copies = copies_of e.copies } };
}

/// What an entry does.
#[derive(Drop)]
pub enum Op {
    /// Adds copies of a row.
    Insert(Row),
    /// Removes copies of a row.
    Delete(Row),
    /// Removes copies of the first row, and adds as many of the second.
    Update(Row, Row),
}

/// What is wrong with a text.
#[derive(Clone, Copy, Debug, PartialEq, Eq)]
pub enum Reason {
    /// It is not in the grammar.
    Reading(Why),
    /// It does not go with the columns.
    Binding(BindWhy),
}

/// The first test of a request that failed, with its number in docs/PROTOCOL.md.
#[derive(Drop)]
pub enum Refusal {
    /// 3: the session is not open.
    NoSession,
    /// 4: the session is open already.
    SessionInUse,
    /// 5: no role has the name.
    UnknownRole,
    /// 6: the name is taken.
    NameTaken,
    /// 7: no relation has the name.
    UnknownRelation,
    /// 8: the relation is a view.
    NotATable,
    /// 9: the number or the kinds of an entry's values are not those of the table. Entries count from 1.
    BadRow {
        entry: usize,
    },
    /// 10: a text has a fault. The place is in bytes from 0.
    BadQuery {
        place: usize,
        why: Reason,
    },
    /// 11: the role is not `admin`.
    NotAdministrator,
    /// 12: the role is neither the relation's owner nor `admin`.
    NotOwner {
        rel: String,
    },
    /// 13: the role lacks a privilege on a relation.
    MissingPrivilege {
        privilege: Privilege,
        rel: String,
    },
    /// 14: no permissive policy lets a row of an entry through.
    NoPermissive {
        rel: String,
        check: Check,
        entry: usize,
    },
    /// 15: a restrictive policy does not let a row of an entry through: of such policies the first by name.
    RestrictiveFailed {
        policy: String,
        rel: String,
        check: Check,
        entry: usize,
    },
    /// 16: an entry removes copies of a row that are not there.
    NoSuchRow {
        entry: usize,
    },
    /// 17: a table, or the view of a subscription, would not be within the limits of rows and copies.
    Limit,
    /// 18: no policy of the table has the name.
    UnknownPolicy,
    /// 19: the session has no open subscription of the number.
    UnknownSubscription,
    /// 20: there are as many of them as there may be.
    TooMany,
    /// 23: a role would become a member of itself, directly or through others.
    MembershipLoop,
}

/// What a request is answered.
#[derive(Drop)]
pub enum Reply {
    /// It is done.
    Ok,
    /// A subscription with this number was opened.
    Subscribed(u64),
    /// It is refused, and nothing has changed.
    Refused(Refusal),
}

/// Rows with their weights, which several lines may share.
pub type SharedRows = Rc<SentRows>;

/// A line of the answer.
#[derive(Drop)]
pub enum Line {
    /// The reply to the session's request.
    Reply {
        session: u32,
        reply: Reply,
    },
    /// What the view of a subscription has more than before: each row once, in rising order, with its weight, which is
    /// not 0.
    Change {
        session: u32,
        sub: u64,
        rows: SharedRows,
    },
    /// The subscription is ended, and nothing is sent for it again: what its view showed, each row once, in rising
    /// order, with its weight below 0; perhaps no row.
    Ended {
        session: u32,
        sub: u64,
        cause: Cause,
        rows: SentRows,
    },
}
