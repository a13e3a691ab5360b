//! `run_list`: commands in turn, on an engine; its contract says what the lines of many commands add up to.
ghost use Rattle.std.specs.Prelude.{◌≡◌, ◌↔◌, IfOk, OnOk, OnErr, map, true, false};
ghost use Rattle.std.specs.List.{All, list_all};
ghost use Rattle.iv_machine.specs.Stored.{IsGiven};
ghost use Rattle.iv_machine.specs.Well.{is_well_command};
ghost use Rattle.iv_store.specs.Engine.{AreLinesOfAll, IsLeftByAll, LinesAddUpBehind};
ghost use Rattle.iv_command.specs.Views.{command_of, line_of};
ghost use Rattle.iv_engine.specs.Sound.{IsSoundEngine};
ghost use Rattle.iv_embedded.specs.Applied.{AreApplied};

use iv_command::{Command, Line};
use iv_engine::{Engine, EngineFault};

/// Answers commands in their order, and stops at the first fault; then no line is handed out.
///
/// # Errors
/// `Failed` exactly if the engine had failed; `Memory` if a growth of memory was refused. The engine has
/// failed after either.
pub fn run_list(engine: &mut Engine, commands: Vec<Command>) -> Result<Vec<Line>, EngineFault>
    requires { list_all is_well_command (map command_of commands.items) ≡ true }
    ensures lines { IfOk result (λ lines. AreLinesOfAll engine.old (map command_of commands.items) (map line_of lines.items)) }
    ensures state { OnOk result (IsLeftByAll engine.old (map command_of commands.items) engine.new) }
    ensures sound { OnOk result (All IsGiven (map command_of commands.items) → IsSoundEngine engine.old → IsSoundEngine engine.new) }
    // Each command is answered as `apply` answers it: known rows, nothing changed if it is refused, and rounds counted.
    ensures each { IfOk result (λ lines. AreApplied engine.old (map command_of commands.items) (map line_of lines.items) engine.new) }
    // For each subscription that its reader did not close, what is sent adds up to what it shows more than before.
    ensures held { IfOk result (λ lines. LinesAddUpBehind engine.old (map command_of commands.items) (map line_of lines.items)) }
    ensures went_on { OnOk result (engine.new.failed ≡ false) }
    ensures fails { OnErr result (engine.new.failed ≡ true) }
    ensures failed { result ≡ Err EngineFault.Failed ↔ (engine.old.failed ≡ true) }
    ensures failed_unchanged { engine.old.failed ≡ true → engine.new ≡ engine.old }
{
    if engine.is_failed() {
        return Err(EngineFault::Failed);
    }
    let mut lines = Vec::new(*commands.allocator());
    for command in commands {
        let mut said = engine.apply(command)?;
        if lines.append(&mut said).is_err() {
            engine.fail();
            return Err(EngineFault::Memory);
        }
    }
    Ok(lines)
}
