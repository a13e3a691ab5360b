//! Laws of journals with an audit. Each is the contract of a function that does nothing.
ghost use Rattle.iv_audit.specs.Laws.{BytesHaveLines, CutsAreFronts, GoOn, TextsKeepLines};

use iv_journal::laws::{cuts_leave_whole_records, lines_have_their_texts};

/// What is read of a line with its note is the line, whatever the name of the holder is.
pub fn texts_keep_lines()
    ensures { TextsKeepLines }
{}

/// Of a journal that was cut after any of its bytes the gateway is given its first lines, of whole records, and of all records that were whole
/// within what is left.
pub fn cuts_leave_records()
    ensures { CutsAreFronts }
{
    cuts_leave_whole_records();
}

/// The gateway's lines among those of a journal are those after its head, without notes.
pub fn bytes_have_lines()
    ensures { BytesHaveLines }
{
    lines_have_their_texts();
}

/// What is written of a gateway's lines makes a journal the longer one, in which the gateway's lines go on by these. Of what was written in
/// part the gateway has the first of them.
pub fn journals_go_on_by_lines()
    ensures { GoOn }
{
    lines_have_their_texts();
}
