//! Laws of the journal and the disk. Each is the contract of a function that does nothing.
ghost use Rattle.std.specs.Prelude.{ℕ, List};
ghost use Rattle.iv_gate.specs.Events.{Event, IsWell, message};
ghost use Rattle.iv_gate.specs.Gate.{Gate};
ghost use Rattle.iv_gate.specs.Implied.{AddsNext, DecidesNext, PositionsLast, PositionsRise};
ghost use Rattle.iv_gate.specs.Laws.{AreShown, CrashesAreSafe, LeadsBack, SentIsKept};
ghost use Rattle.iv_gate.specs.Replies.{added_by};
ghost use Rattle.iv_gate.specs.Restoring.{IsDecided};
ghost use Rattle.iv_gate.specs.Runs.{Runs};
ghost use Rattle.iv_journal.specs.Journal.{Line};

use iv_machine::laws::{
    ends_are_told, lines_add_up, requests_open_what_they_name, steps_keep_sound, what_stands_lasts,
};
use iv_message::laws::told_texts_are_lines;
use iv_records::laws::{names_are_texts, records_are_read_back};
use iv_steps::laws::steps_are_told;

/// By an event a client is told what shows the entries that are accepted after it, and what comes of its own message if the event
/// is that.
pub fn told_text_shows_its_entries()
    ensures { (g : Gate) (e : Event) → AreShown g e }
{}

/// In whatever runs, over restarts: nothing was handed on, in whichever life, and nothing may be handed on, that shows more than is on
/// disk.
pub fn what_is_sent_is_on_disk()
    ensures { (cap : ℕ) (g : Gate) → Runs cap g → SentIsKept g }
{
    records_are_read_back();
    names_are_texts();
    told_texts_are_lines();
}

/// In whatever runs, over restarts: the entries lead a machine with nothing to the same tables, roles, memberships, rights, policies and
/// rows, and none is refused; and whatever a crash leaves on disk leads a gateway to a front of them, with all that were kept.
pub fn the_journal_leads_back()
    ensures back { (cap : ℕ) (g : Gate) → Runs cap g → LeadsBack cap g }
    ensures safe { (cap : ℕ) (g : Gate) → Runs cap g → CrashesAreSafe cap g }
{
    lines_add_up();
    steps_keep_sound();
    what_stands_lasts();
    ends_are_told();
    requests_open_what_they_name();
    steps_are_told();
    records_are_read_back();
    names_are_texts();
    told_texts_are_lines();
}

/// In whatever runs, over restarts, the log goes on, in memory and on disk; what its source was told to be on disk is there after a crash.
pub fn positions_rise()
    ensures rise { (cap : ℕ) (g : Gate) (e : Event) → Runs cap g → IsWell e → PositionsRise g e }
    ensures last { (cap : ℕ) (g : Gate) → Runs cap g → PositionsLast cap g }
{
    records_are_read_back();
    names_are_texts();
    told_texts_are_lines();
}

/// A client's message adds nothing, or one entry: if the log is led, its next step, one position further; if others lead it, nothing. From where
/// a gateway leads and has all on disk, whatever happens, what is not on disk yet is the log's next steps.
pub fn messages_are_next_steps()
    ensures one { (g : Gate) (m : ℕ) (text : List ℕ) → AddsNext g (added_by g (message m text)) }
    ensures led { (g : Gate) (es : List Event) → DecidesNext g es }
{}

/// Each journal either restores, to one gateway, or is damaged, at one place.
pub fn journals_are_decided()
    ensures { (g : Gate) (lines : List Line) → IsDecided g lines }
{
    records_are_read_back();
}
