//! Worked examples of a keeper's lines. Each is the contract of a function that does nothing.
ghost use Rattle.std.specs.Prelude.{◌≡◌, map};
ghost use Rattle.iv_door.specs.Leading.{LeadsAsAKeeper};
ghost use Rattle.iv_door.specs.Said.{line_of};
ghost use Rattle.iv_door.specs.Worked.{said, said_lines, told, told_lines};

/// What is said in a conversation has these lines.
pub fn said_lines_are_these()
    ensures { map line_of said ≡ said_lines }
{}

/// What is answered in it has these lines.
pub fn told_lines_are_these()
    ensures { told ≡ told_lines }
{}

/// What a gateway that leads says of entries whose positions go on by one is what a keeper says to bring them as steps.
pub fn leaders_speak_as_keepers()
    ensures { LeadsAsAKeeper }
{}
