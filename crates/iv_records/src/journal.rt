//! The texts of a journal: `push_request` writes a request, `request_in` reads it.
ghost use Rattle.std.specs.Prelude.{◌≡◌, ◌++◌, ◌∷◌, IfOk, IfSome, OnOk, option_map, string_bytes, true};
ghost use Rattle.iv_rows.specs.Names.{is_name};
ghost use Rattle.iv_command.specs.Views.{act_of};
ghost use Rattle.iv_records.specs.Journal.{has_newline, is_shape, is_shared};
ghost use Rattle.iv_records.specs.Parsed.{request_in, request_parts, text_of_request};

use crate::cuts::{behind, cut_at};
use iv_command::Act;
use iv_rows::name_ok;
use std::alloc::{AllocError, Global};

/// Whether it changes what is shared: roles, relations, rights, policies and rows.
pub fn is_shared(act: &Act) -> bool
    ensures { result ≡ is_shared (act_of act.now) }
{
    !matches!(
        act,
        Act::Begin { .. } | Act::Finish | Act::Subscribe { .. } | Act::Unsubscribe { .. }
    )
}

/// Whether it makes the shape of what is shared: it changes that, and writes no rows.
pub fn is_shape(act: &Act) -> bool
    ensures { result ≡ is_shape (act_of act.now) }
{
    is_shared(act) && !matches!(act, Act::Write { .. })
}

/// Whether there is a newline.
pub(crate) fn has_newline(text: &[u8]) -> bool
    ensures { result ≡ has_newline text.now }
{
    text.iter().any(|byte| *byte == b'\n')
}

/// Appends the text of a request.
pub fn push_request(text: &mut Vec<u8>, role: &str, line: &[u8]) -> Result<(), AllocError>
    ensures { OnOk result (text.new.items ≡ text.old.items ++ text_of_request role.now line.now) }
{
    text.extend_from_slice(b"\"as\":\"")?;
    text.extend_from_slice(role.as_bytes())?;
    text.extend_from_slice(b"\",")?;
    text.extend_from_slice(line.get(1..).unwrap_or(&[]))?;
    Ok(())
}

/// A text after a brace.
pub(crate) fn with_brace(alloc: Global, rest: &[u8]) -> Result<Vec<u8>, AllocError>
    ensures { IfOk result (λ line. line.items ≡ 123 ∷ rest.now) }
{
    let mut line = Vec::new(alloc);
    line.push(b'{')?;
    line.extend_from_slice(rest)?;
    Ok(line)
}

/// The role of a text, and the message after it without its brace.
fn request_parts(line: &[u8]) -> Option<(&[u8], &[u8])>
    ensures { option_map (λ p. (p.0.now, p.1.now)) result ≡ request_parts line.now }
{
    let rest = behind(line, b"\"as\":\"")?;
    let (role, rest) = cut_at(rest, b'"')?;
    let rest = behind(rest, b",")?;
    Some((role, rest))
}

/// The role and the message of a text that is a request.
pub fn request_in(alloc: Global, line: &[u8]) -> Result<Option<(String, Vec<u8>)>, AllocError>
    ensures entry { IfOk result (λ o. option_map (λ p. (string_bytes p.0, p.1.items)) o ≡ request_in line.now) }
    ensures name { IfOk result (λ o. IfSome o (λ p. is_name (string_bytes p.0) ≡ true)) }
{
    let Some((role, rest)) = request_parts(line) else {
        return Ok(None);
    };
    let Ok(role) = str::from_utf8(role) else {
        return Ok(None);
    };
    if !name_ok(role) {
        return Ok(None);
    }
    let mut text = Vec::new(alloc);
    text.push(b'{')?;
    text.extend_from_slice(rest)?;
    Ok(Some((String::from_str(alloc, role)?, text)))
}
