//! `well`, `well_fact`: whether a command, or a fact, keeps the rules on shape: numbers, names, texts, columns, entries.
ghost use Rattle.std.specs.Prelude.{◌≡◌, ◌&&◌, ◌^◌, map, nat_le, nat_lt, option_map, string_bytes};
ghost use Rattle.std.specs.List.{list_all};
ghost use Rattle.iv_rows.specs.Texts.{is_well};
ghost use Rattle.iv_machine.specs.Refusing.{rows_in};
ghost use Rattle.iv_machine.specs.Parts.{is_between, is_group, is_positive};
ghost use Rattle.iv_machine.specs.Well.{is_grantee, is_well_act, is_well_command, is_well_entry, is_well_policy};
ghost use Rattle.iv_command.specs.Entries.{copies_of, op_of};
ghost use Rattle.iv_command.specs.Views.{act_of, command_of};
ghost use Rattle.iv_steps.specs.Steps.{is_shared, is_well_fact};

use iv_command::{Act, Command, Entry, LAST_NUMBER, Op, PolicyText, has_texts};
use iv_engine::Fact;
use iv_rows::{columns_ok, name_ok};

/// Whether the command keeps the rules on shape: numbers in their ranges, names that are names, texts that a table
/// may hold, 1 to 16 columns with distinct names, 1 to 4 privileges, 1 to 1,000 entries.
pub fn well(command: &Command) -> bool
    ensures { result ≡ is_well_command (command_of command.now) }
{
    if !is_session(command.session) {
        return false;
    }
    is_well_act(&command.act)
}

/// Whether the fact keeps the rules on shape: its role has a name, and it is a request that changes what is shared and keeps them.
pub fn well_fact(fact: &Fact) -> bool
    ensures { result ≡ is_well_fact fact.now }
{
    name_ok(fact.role.as_str()) && (is_shared(&fact.act) && is_well_act(&fact.act))
}

/// Whether the request changes what is shared: roles, relations, rights, policies and rows.
fn is_shared(act: &Act) -> bool
    ensures { result ≡ is_shared (act_of act.now) }
{
    !matches!(
        act,
        Act::Begin { .. } | Act::Finish | Act::Subscribe { .. } | Act::Unsubscribe { .. }
    )
}

/// Whether the number of a command's session keeps the rules on shape: 1 to 2^32 - 1.
fn is_session(number: u32) -> bool
    ensures { result ≡ (nat_le 1 number && nat_lt number (2 ^ 32)) }
{
    1 <= number
}

/// Whether the request keeps the rules on shape.
fn is_well_act(act: &Act) -> bool
    ensures { result ≡ is_well_act (act_of act.now) }
{
    match act {
        Act::Begin { role } => name_ok(role.as_str()),
        Act::Finish => true,
        Act::CreateRole { name } => name_ok(name.as_str()),
        Act::CreateTable {
            name,
            owner,
            columns,
        } => name_ok(name.as_str()) && (name_ok(owner.as_str()) && columns_ok(columns)),
        Act::CreateView {
            name,
            owner,
            query: _,
        } => name_ok(name.as_str()) && name_ok(owner.as_str()),
        Act::Grant {
            rel,
            privileges,
            grantee,
        } => name_ok(rel.as_str()) && (is_between(1, 4, privileges.len()) && is_grantee(grantee)),
        Act::Revoke {
            rel,
            privileges,
            grantee,
        } => name_ok(rel.as_str()) && (is_between(1, 4, privileges.len()) && is_grantee(grantee)),
        Act::GrantRole { role, to } => is_group(role) && name_ok(to.as_str()),
        Act::RevokeRole { role, to } => is_group(role) && name_ok(to.as_str()),
        Act::RowSecurity {
            rel,
            enable: _,
            force: _,
        } => name_ok(rel.as_str()),
        Act::CreatePolicy(policy) => is_well_policy(policy),
        Act::DropPolicy { rel, name } => name_ok(rel.as_str()) && name_ok(name.as_str()),
        Act::Write { entries } => is_between(1, 1000, entries.len()) && are_well(entries),
        Act::Subscribe { rel } => name_ok(rel.as_str()),
        Act::Unsubscribe { sub } => is_number(*sub),
    }
}

/// Whether a command may name the role as one with members, by the rules on shape: `admin` has none.
fn is_group(role: &String) -> bool
    ensures { result ≡ is_group (string_bytes role.now) }
{
    name_ok(role.as_str()) && role.as_str() != "admin"
}

/// Whether a grantee keeps the rules on shape: it is no name, which stands for PUBLIC, or a name.
fn is_grantee(grantee: &Option<String>) -> bool
    ensures { result ≡ is_grantee (option_map string_bytes grantee.now) }
{
    match grantee {
        None => true,
        Some(name) => name_ok(name.as_str()),
    }
}

/// Whether the length of a list in a command keeps the rules on shape: from `low` to `high`.
fn is_between(low: usize, high: usize, number: usize) -> bool
    ensures { result ≡ is_between low high number }
{
    low <= number && number <= high
}

/// Whether the number of a subscription keeps the rules on shape: 1 to 2^63 - 1.
fn is_number(sub: u64) -> bool
    ensures { result ≡ is_positive sub }
{
    1 <= sub && sub <= LAST_NUMBER
}

/// Whether the policy keeps the rules on shape.
fn is_well_policy(policy: &PolicyText) -> bool
    ensures { result ≡ is_well_policy policy.now }
{
    name_ok(policy.rel.as_str())
        && (name_ok(policy.name.as_str())
            && (is_between(1, 16, policy.grantee.len())
                && (are_grantees(&policy.grantee)
                    && has_texts(policy.command, &policy.using_text, &policy.check_text))))
}

/// Whether each grantee keeps the rules on shape: it is no name, which stands for PUBLIC, or a name.
fn are_grantees(grantees: &[Option<String>]) -> bool
    ensures { result ≡ list_all is_grantee (map (option_map string_bytes) grantees.now) }
{
    for grantee in grantees {
        if !is_grantee(grantee) {
            return false;
        }
    }
    true
}

/// Whether all entries keep the rules on shape.
fn are_well(entries: &[Entry]) -> bool
    ensures { result ≡ list_all is_well_entry entries.now }
{
    entries.iter().all(|entry| is_well_entry(entry))
}

/// Whether the entry keeps the rules on shape.
fn is_well_entry(entry: &Entry) -> bool
    ensures { result ≡ is_well_entry entry.now }
{
    name_ok(entry.rel.as_str()) && (is_well_op(&entry.op) && are_copies(entry.copies))
}

/// Whether the rows of an entry keep the rules on shape: a table may hold their texts.
fn is_well_op(op: &Op) -> bool
    ensures { result ≡ list_all is_well (rows_in (op_of op.now)) }
{
    match op {
        Op::Insert(row) => row.well(),
        Op::Delete(row) => row.well(),
        Op::Update(old, new) => old.well() && new.well(),
    }
}

/// Whether the copies of an entry keep the rules on shape: 1 to 2^63 - 1.
fn are_copies(number: i64) -> bool
    ensures { result ≡ is_positive (copies_of number) }
{
    number >= 1
}
