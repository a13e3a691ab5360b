//! `push_steps`: what a gateway that leads tells its keeper of the records that it decides.
ghost use Rattle.std.specs.Prelude.{◌≡◌, ◌++◌, ◌+◌, if◌then◌else◌, IfOk, OnOk, false, true};
ghost use Rattle.iv_door.specs.Leading.{line_from, lines_from};

use itoa::Buffer;
use iv_records::OwnedLine;
use std::alloc::AllocError;

/// Appends the line that ends a step from a position on, which has its last text.
fn push_end(out: &mut Vec<u8>, from: u64, text: &[u8]) -> Result<(), AllocError>
    ensures { OnOk result (out.new.items ≡ out.old.items ++ line_from from (record { is_last = true; text = text.now })) }
{
    out.extend_from_slice(b"{\"from\":")?;
    out.extend_from_slice(Buffer::new().format(from).as_bytes())?;
    out.push(b',')?;
    out.extend_from_slice(text)?;
    out.push(b'\n')?;
    Ok(())
}

/// Appends the line that brings a text.
fn push_text(out: &mut Vec<u8>, from: u64, text: &[u8]) -> Result<(), AllocError>
    ensures { OnOk result (out.new.items ≡ out.old.items ++ line_from from (record { is_last = false; text = text.now })) }
{
    out.push(b'{')?;
    out.extend_from_slice(text)?;
    out.push(b'\n')?;
    Ok(())
}

/// Appends a line of a record; its last one ends a step from a position on. Where the log stands after it.
fn push_line(out: &mut Vec<u8>, from: u64, line: &OwnedLine) -> Result<u64, AllocError>
    ensures line { OnOk result (out.new.items ≡ out.old.items ++ line_from from line.now) }
    ensures position { IfOk result (λ n. n ≡ (if line.now.is_last then from + 1 else from)) }
{
    if !line.is_last {
        push_text(out, from, &line.text)?;
        return Ok(from);
    }
    push_end(out, from, &line.text)?;
    match from.checked_add(1) {
        None => Err(AllocError),
        Some(next) => Ok(next),
    }
}

/// Appends the lines of records that were decided from a position on, each with its newline.
///
/// # Errors
/// `AllocError` if a growth of memory was refused.
pub fn push_steps(out: &mut Vec<u8>, from: u64, lines: &[OwnedLine]) -> Result<(), AllocError>
    ensures { OnOk result (out.new.items ≡ out.old.items ++ lines_from from lines.now) }
{
    let mut position = from;
    for line in lines {
        position = push_line(out, position, line)?;
    }
    Ok(())
}
