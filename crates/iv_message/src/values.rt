//! `wrong_key`: the first key of a request at which a value is not as its form has it; `wrong_entry`: which entry of a write that is.
ghost use Rattle.std.specs.Prelude.{◌≡◌, ◌++◌, IfOk, codes, find, not, option_map, unwrap_or, string_bytes};
ghost use Rattle.iv_request.specs.Documents.{value_data, items_data};
ghost use Rattle.iv_request.specs.Names.{form_seen, keys_seen};
ghost use Rattle.iv_message.specs.Message.{using_fits, check_fits, granting_passes, membership_passes, policy_passes, passes};
ghost use Rattle.iv_message.specs.Message.{first_wrong, wrong_entry, wrong_key};

use iv_command::{PolicyCommand, has_texts};
use iv_request::{
    Form, Word, bool_at, columns_at, command_at, entries_at, entry_of, get, grantee_at,
    grantees_at, group_at, items_at, name_at, positive_of, privileges_at, restrictive_at, text_at,
    text_if_at,
};
use json::Value as Json;
use std::alloc::{AllocError, Global};

/// Whether a policy for a command may have this `using`.
fn using_fits(alloc: Global, command: PolicyCommand, using_text: &Option<String>) -> bool
    ensures { result ≡ using_fits command (option_map string_bytes using_text.now) }
{
    has_texts(command, using_text, &None)
        || has_texts(command, using_text, &Some(String::new(alloc)))
}

/// Whether a policy for a command may have this `check`.
fn check_fits(alloc: Global, command: PolicyCommand, check_text: &Option<String>) -> bool
    ensures { result ≡ check_fits command (option_map string_bytes check_text.now) }
{
    has_texts(command, &None, check_text)
        || has_texts(command, &Some(String::new(alloc)), check_text)
}

/// Whether what is at `using` goes with the command of the policy.
fn using_passes(alloc: Global, value: &Json<'_>) -> Result<bool, AllocError>
    ensures { IfOk result (λ b. b ≡ policy_passes (codes "using") (value_data value.now)) }
{
    match text_if_at(alloc, value, "using")? {
        None => Ok(false),
        Some(text) => match command_at(value) {
            None => Ok(true),
            Some(command) => Ok(using_fits(alloc, command, &text)),
        },
    }
}

/// Whether what is at `check` goes with the command of the policy.
fn check_passes(alloc: Global, value: &Json<'_>) -> Result<bool, AllocError>
    ensures { IfOk result (λ b. b ≡ policy_passes (codes "check") (value_data value.now)) }
{
    match text_if_at(alloc, value, "check")? {
        None => Ok(false),
        Some(text) => match command_at(value) {
            None => Ok(true),
            Some(command) => Ok(check_fits(alloc, command, &text)),
        },
    }
}

/// Whether the value at a key is as a grant or a revoke has it.
fn granting_passes(alloc: Global, key: &str, value: &Json<'_>) -> Result<bool, AllocError>
    ensures { IfOk result (λ b. b ≡ granting_passes key.now (value_data value.now)) }
{
    if key == "privileges" {
        Ok(privileges_at(alloc, value)?.is_some())
    } else if key == "to" {
        Ok(grantee_at(alloc, value)?.is_some())
    } else {
        Ok(name_at(value, key).is_some())
    }
}

/// Whether the value at a key is as a grant or a revoke of a role has it.
fn membership_passes(alloc: Global, key: &str, value: &Json<'_>) -> Result<bool, AllocError>
    ensures { IfOk result (λ b. b ≡ membership_passes key.now (value_data value.now)) }
{
    if key == "role" {
        Ok(group_at(alloc, value, key)?.is_some())
    } else {
        Ok(name_at(value, key).is_some())
    }
}

/// Whether the value at a key, or that none is there, is as a new policy has it.
fn policy_passes(alloc: Global, key: &str, value: &Json<'_>) -> Result<bool, AllocError>
    ensures { IfOk result (λ b. b ≡ policy_passes key.now (value_data value.now)) }
{
    if key == "restrictive" {
        Ok(restrictive_at(value).is_some())
    } else if key == "command" {
        Ok(command_at(value).is_some())
    } else if key == "to" {
        Ok(grantees_at(alloc, value)?.is_some())
    } else if key == "using" {
        using_passes(alloc, value)
    } else if key == "check" {
        check_passes(alloc, value)
    } else {
        Ok(name_at(value, key).is_some())
    }
}

/// Whether the value at a key is as a new table has it.
fn table_passes(alloc: Global, key: &str, value: &Json<'_>) -> Result<bool, AllocError>
    ensures { IfOk result (λ b. b ≡ passes Word.CreateTable key.now (value_data value.now)) }
{
    if key == "columns" {
        Ok(columns_at(alloc, value)?.is_some())
    } else {
        Ok(name_at(value, key).is_some())
    }
}

/// Whether the value at a key is as a new view has it.
fn view_passes(key: &str, value: &Json<'_>) -> bool
    ensures { result ≡ passes Word.CreateView key.now (value_data value.now) }
{
    if key == "query" {
        text_at(value, key).is_some()
    } else {
        name_at(value, key).is_some()
    }
}

/// Whether the value at a key is as row security has it.
fn row_security_passes(key: &str, value: &Json<'_>) -> bool
    ensures { result ≡ passes Word.RowSecurity key.now (value_data value.now) }
{
    if key == "on" {
        name_at(value, key).is_some()
    } else {
        bool_at(value, key).is_some()
    }
}

/// Whether the value at a key is the number of a subscription.
fn unsubscribe_passes(key: &str, value: &Json<'_>) -> bool
    ensures { result ≡ passes Word.Unsubscribe key.now (value_data value.now) }
{
    match get(value, key) {
        None => false,
        Some(number) => positive_of(number).is_some(),
    }
}

/// Whether the value at a key of the form, or that none is there, is as a request of the word has it.
fn passes(alloc: Global, word: Word, key: &str, value: &Json<'_>) -> Result<bool, AllocError>
    ensures { IfOk result (λ b. b ≡ passes word key.now (value_data value.now)) }
{
    match word {
        Word::CreateTable => table_passes(alloc, key, value),
        Word::CreateView => Ok(view_passes(key, value)),
        Word::Grant => granting_passes(alloc, key, value),
        Word::Revoke => granting_passes(alloc, key, value),
        Word::GrantRole => membership_passes(alloc, key, value),
        Word::RevokeRole => membership_passes(alloc, key, value),
        Word::RowSecurity => Ok(row_security_passes(key, value)),
        Word::CreatePolicy => policy_passes(alloc, key, value),
        Word::Write => Ok(entries_at(alloc, value)?.is_some()),
        Word::Unsubscribe => Ok(unsubscribe_passes(key, value)),
        _ => Ok(name_at(value, key).is_some()),
    }
}

/// The first of the keys at which the value does not pass.
fn first_wrong_key(
    alloc: Global,
    word: Word,
    keys: &'static [&'static str],
    value: &Json<'_>,
) -> Result<Option<&'static str>, AllocError>
    ensures { IfOk result (λ found. option_map (λ k. k.now) found ≡ find (λ key. not (passes word key (value_data value.now))) (keys_seen keys.now)) }
{
    for key in keys {
        if !passes(alloc, word, key, value)? {
            return Ok(Some(key));
        }
    }
    Ok(None)
}

/// The first key of the form, in its order, at which the value does not pass.
pub fn wrong_key(alloc: Global, form: &Form, value: &Json<'_>) -> Result<&'static str, AllocError>
    ensures { IfOk result (λ key. key.now ≡ wrong_key (form_seen form.now) (value_data value.now)) }
{
    if let Some(key) = first_wrong_key(alloc, form.word, form.required, value)? {
        return Ok(key);
    }
    match first_wrong_key(alloc, form.word, form.optional, value)? {
        Some(key) => Ok(key),
        None => Ok("do"),
    }
}

/// The number of the first of these JSON values that is no entry of a write, from 1.
fn first_wrong(alloc: Global, items: &[Json<'_>]) -> Result<Option<usize>, AllocError>
    ensures { IfOk result (λ found. found ≡ first_wrong 1 (items_data items.now)) }
{
    let mut number = 0;
    for item in items {
        number += 1;
        if entry_of(alloc, item)?.is_none() {
            return Ok(Some(number));
        }
    }
    Ok(None)
}

/// The number of the first entry that is none, if the value at `entries` is wrong.
pub fn wrong_entry(alloc: Global, key: &str, value: &Json<'_>) -> Result<Option<usize>, AllocError>
    ensures { IfOk result (λ found. found ≡ wrong_entry key.now (value_data value.now)) }
{
    if key != "entries" {
        return Ok(None);
    }
    match items_at(value, key) {
        None => Ok(None),
        Some(items) => first_wrong(alloc, items),
    }
}
