//! What a request adds: the lines of its entry, its name, and what it makes of the shape; and where the names of a holder stand.
ghost use Rattle.std.specs.Prelude.{◌≡◌, ◌++◌, ◌∷◌, ◌||◌, [], if◌then◌else◌, IfOk, None, OnOk, Some, is_some, string_bytes, true};
ghost use Rattle.iv_rows.specs.Options.{if_some};
ghost use Rattle.iv_command.specs.Views.{act_of};
ghost use Rattle.iv_records.specs.Journal.{name_text, position_text};
ghost use Rattle.iv_records.specs.Names.{place_text};
ghost use Rattle.iv_records.specs.Parsed.{part, text_of_request};
ghost use Rattle.iv_once.specs.Names.{named, own_of, pushed};
ghost use Rattle.iv_once.specs.Views.{names_of};
ghost use Rattle.iv_arrivals.specs.Entering.{lines_entered, shape_in};

use crate::asking::Asked;
use itoa::Buffer;
use iv_command::Act;
use iv_message::push_made;
use iv_once::{Named, Names};
use iv_records::{
    OwnedLine, is_shape, push_accepted, push_name as push_name_text, push_named, push_request,
};
use std::alloc::{AllocError, Global};

/// Where the names of a holder stand.
///
/// # Errors
/// `AllocError` if a growth of memory was refused; so it is of each of these functions.
pub fn place_text(alloc: Global, names: &Names, holder: &str) -> Result<String, AllocError>
    ensures { let o = own_of (names_of names.now).known holder.now in
        IfOk result (λ at. string_bytes at ≡ place_text (record { epoch = o.epoch; count = o.count })) }
{
    let mut at = String::from_str(alloc, names.epoch(holder))?;
    at.push_str(".")?;
    at.push_str(Buffer::new().format(names.count(holder)))?;
    Ok(at)
}

/// Appends the lines of what the journal is to have of a request that is no step.
fn push_plain(
    alloc: Global,
    lines: &mut Vec<OwnedLine>,
    asked: &Asked<'_>,
    name: &Option<Named>,
    accepted: bool,
) -> Result<(), AllocError>
    ensures { OnOk result (lines.new.items ≡ lines.old.items ++ lines_entered asked.now accepted name.now None) }
{
    if accepted {
        push_accepted(alloc, lines, asked.role, asked.line, name)?;
        return Ok(());
    }
    match name {
        None => Ok(()),
        Some(named) => {
            push_named(alloc, lines, named)?;
            Ok(())
        }
    }
}

/// Whether a request that is accepted or not has an entry.
pub fn is_entered(accepted: bool, name: &Option<Named>) -> bool
    ensures { result ≡ (accepted || is_some name.now) }
{
    accepted || name.is_some()
}

/// Appends a text as a part of a record.
fn push_part(lines: &mut Vec<OwnedLine>, text: Vec<u8>) -> Result<(), AllocError>
    ensures { OnOk result (lines.new.items ≡ lines.old.items ++ part text.items ∷ []) }
{
    lines.push(OwnedLine {
        is_last: false,
        text,
    })?;
    Ok(())
}

/// Appends a request as a part of a record, if it is accepted.
fn push_request_part(
    alloc: Global,
    lines: &mut Vec<OwnedLine>,
    asked: &Asked<'_>,
    accepted: bool,
) -> Result<(), AllocError>
    ensures { OnOk result (lines.new.items ≡ lines.old.items
        ++ (if accepted then part (text_of_request asked.now.role asked.now.line) ∷ [] else [])) }
{
    if !accepted {
        return Ok(());
    }
    let mut text = Vec::new(alloc);
    push_request(&mut text, asked.role, asked.line)?;
    push_part(lines, text)
}

/// Appends a name as a part of a record, if there is one.
fn push_name_part(
    alloc: Global,
    lines: &mut Vec<OwnedLine>,
    name: &Option<Named>,
) -> Result<(), AllocError>
    ensures { OnOk result (lines.new.items ≡ lines.old.items ++ if_some name.now [] (λ n. part (name_text n) ∷ [])) }
{
    match name {
        None => Ok(()),
        Some(name) => {
            let mut text = Vec::new(alloc);
            push_name_text(alloc, &mut text, name)?;
            push_part(lines, text)
        }
    }
}

/// Appends a position, which is the last line of its record.
fn push_position(alloc: Global, lines: &mut Vec<OwnedLine>, position: u64) -> Result<(), AllocError>
    ensures { OnOk result (lines.new.items ≡ lines.old.items ++ record { is_last = true; text = position_text position } ∷ []) }
{
    let mut text = Vec::from_slice(alloc, b"\"step\":")?;
    text.extend_from_slice(Buffer::new().format(position).as_bytes())?;
    text.extend_from_slice(b"}")?;
    lines.push(OwnedLine {
        is_last: true,
        text,
    })?;
    Ok(())
}

/// Appends the lines of what the journal is to have of a request that is a step.
fn push_step(
    alloc: Global,
    lines: &mut Vec<OwnedLine>,
    asked: &Asked<'_>,
    name: &Option<Named>,
    accepted: bool,
    position: u64,
) -> Result<(), AllocError>
    ensures { OnOk result (lines.new.items ≡ lines.old.items ++ lines_entered asked.now accepted name.now (Some position)) }
{
    if !is_entered(accepted, name) {
        return Ok(());
    }
    push_request_part(alloc, lines, asked, accepted)?;
    push_name_part(alloc, lines, name)?;
    push_position(alloc, lines, position)?;
    Ok(())
}

/// Appends the lines of what the journal is to have of a request, which is a step if it has a position.
pub fn push_entry(
    alloc: Global,
    lines: &mut Vec<OwnedLine>,
    asked: &Asked<'_>,
    name: &Option<Named>,
    accepted: bool,
    position: Option<u64>,
) -> Result<(), AllocError>
    ensures { OnOk result (lines.new.items ≡ lines.old.items ++ lines_entered asked.now accepted name.now position) }
{
    match position {
        None => push_plain(alloc, lines, asked, name, accepted),
        Some(position) => push_step(alloc, lines, asked, name, accepted, position),
    }
}

/// One name more is known, if there is one.
pub fn push_name(names: &mut Names, name: Option<Named>) -> Result<(), AllocError>
    ensures { OnOk result (names_of names.new ≡ if_some name (names_of names.old) (λ n. pushed (names_of names.old) (named n))) }
{
    match name {
        None => Ok(()),
        Some(named) => {
            names.push(named)?;
            Ok(())
        }
    }
}

/// Appends what tells of a request, if it makes the shape.
pub fn push_shape(
    alloc: Global,
    text: &mut Vec<u8>,
    role: &str,
    line: &[u8],
    act: &Act,
) -> Result<(), AllocError>
    ensures { OnOk result (text.new.items ≡ text.old.items ++ shape_in (record { role = role.now; line = line.now; act = act_of act.now })) }
{
    if !is_shape(act) {
        return Ok(());
    }
    push_made(alloc, text, role, line)?;
    Ok(())
}
