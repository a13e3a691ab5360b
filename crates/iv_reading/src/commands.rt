//! `command_in`: from a line to its command.
ghost use Rattle.std.specs.Prelude.{◌≡◌, IfOk, IsErrOf, true};
ghost use Rattle.serde_json.specs.Read as serde_json;
ghost use Rattle.iv_machine.specs.Stored.{IsGiven};
ghost use Rattle.iv_machine.specs.Well.{is_well_command};
ghost use Rattle.iv_command.specs.Views.{command_of};
ghost use Rattle.iv_request.specs.Reading.{bad_json, bad_request, asked, reading_by, reading_of};

use crate::writes::write_in;
use iv_command::Command;
use iv_request::{WireFault, command_by_value};
use json::Scratch;
use std::alloc::Global;

/// The command that a text asks for: a write token by token, and every other text by its JSON value.
fn command_of_text(alloc: Global, text: &str, scratch: &mut Scratch) -> Result<Command, WireFault>
    ensures command { IfOk result (λ command. reading_by (serde_json.read text.now) ≡ asked (command_of command)) }
    ensures bad_json { IsErrOf result WireFault.BadJson → reading_by (serde_json.read text.now) ≡ bad_json }
    ensures bad_request { IsErrOf result WireFault.BadRequest → reading_by (serde_json.read text.now) ≡ bad_request }
{
    match write_in(alloc, text, scratch)? {
        Some(command) => Ok(command),
        None => command_by_value(alloc, text, scratch),
    }
}

/// The command that a line asks for, without its newline, read with buffers that are kept from line to line.
///
/// # Errors
/// `BadJson` if the line is no JSON value; `BadRequest` if the value is no request; `Memory` if a growth of
/// memory was refused, which may come in place of the others.
///
/// Source: RFC 8259; docs/PROTOCOL.md, Requests.
pub fn command_in(alloc: Global, line: &[u8], scratch: &mut Scratch) -> Result<Command, WireFault>
    ensures command { IfOk result (λ command. reading_of line.now ≡ asked (command_of command)) }
    ensures well { IfOk result (λ command. is_well_command (command_of command) ≡ true) }
    ensures given { IfOk result (λ command. IsGiven (command_of command)) }
    ensures bad_json { IsErrOf result WireFault.BadJson → reading_of line.now ≡ bad_json }
    ensures bad_request { IsErrOf result WireFault.BadRequest → reading_of line.now ≡ bad_request }
{
    match str::from_utf8(line) {
        Err(_) => Err(WireFault::BadJson),
        Ok(text) => {
            let command = command_of_text(alloc, text, scratch)?;
            command.texts();
            Ok(command)
        }
    }
}
