//! `read_line`: the command that one line asks for.
ghost use Rattle.std.specs.Prelude.{◌≡◌, IfOk, IsErrOf, true};
ghost use Rattle.iv_machine.specs.Stored.{IsGiven};
ghost use Rattle.iv_machine.specs.Well.{is_well_command};
ghost use Rattle.iv_command.specs.Views.{command_of};
ghost use Rattle.iv_request.specs.Reading.{bad_json, bad_request, asked, reading_of};

use iv_command::Command;
use iv_reading::command_in;
use iv_request::WireFault;
use json::Scratch;
use std::alloc::Global;

/// The command that a line asks for, without its newline.
///
/// # Errors
/// `BadJson` if the line is no JSON value; `BadRequest` if the value is no request; `Memory` if a growth of
/// memory was refused, which may come in place of the others.
///
/// Source: RFC 8259; docs/PROTOCOL.md, Requests.
pub fn read_line(alloc: Global, line: &[u8]) -> Result<Command, WireFault>
    ensures command { IfOk result (λ command. reading_of line.now ≡ asked (command_of command)) }
    ensures well { IfOk result (λ command. is_well_command (command_of command) ≡ true) }
    ensures given { IfOk result (λ command. IsGiven (command_of command)) }
    ensures bad_json { IsErrOf result WireFault.BadJson → reading_of line.now ≡ bad_json }
    ensures bad_request { IsErrOf result WireFault.BadRequest → reading_of line.now ≡ bad_request }
{
    command_in(alloc, line, &mut Scratch::new(alloc))
}
