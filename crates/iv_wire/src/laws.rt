//! Laws of an answer: it is the text of the machine's lines, and tells a role of no row that it may not see. Each is the
//! contract of a function that does nothing.
ghost use Rattle.std.specs.Prelude.{ℕ, List};
ghost use Rattle.iv_machine.specs.Machine.{run};
ghost use Rattle.iv_machine.specs.State.{State};
ghost use Rattle.iv_request.specs.Reading as iv_request;
ghost use Rattle.iv_lines.specs.Answer.{commands_of, text_answered};
ghost use Rattle.iv_wire.specs.Learned.{BytesTellNothingElse};
ghost use Rattle.iv_wire.specs.Sums.{IsTextOf};

use iv_machine::laws::readers_learn_nothing_else;

/// The text of an answer is that of the lines of the machine's run, with faults of lines that are no request between them.
pub fn answers_are_texts()
    ensures { (s : State) (rs : List iv_request.Reading) → IsTextOf (run s (commands_of rs)).lines (text_answered s rs) }
{}

/// Two runs over the same bytes send a role's sessions the same bytes, if they begin in states that look alike to it, of which the
/// first is sound, each command among the bytes is answered alike, and after one that may change rights, tables or views the role
/// sees the same rows.
pub fn bytes_tell_roles_nothing_else()
    ensures { (role : ℕ) (s t : State) (n : ℕ) (bytes : List ℕ) → BytesTellNothingElse role s t n bytes }
{
    readers_learn_nothing_else();
}
