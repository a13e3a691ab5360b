//! Laws of names of requests. Each is the contract of a function that does nothing.
ghost use Rattle.std.specs.Prelude.{◌≡◌, ◌≤◌, ℕ, List, None};
ghost use Rattle.iv_records.specs.Names.{limits};
ghost use Rattle.iv_gate.specs.Events.{Event};
ghost use Rattle.iv_gate.specs.Gate.{Gate};
ghost use Rattle.iv_gate.specs.Implied.{StaysPast};
ghost use Rattle.iv_gate.specs.Laws.{NamesAreOnce};
ghost use Rattle.iv_gate.specs.Replies.{refused_by};
ghost use Rattle.iv_gate.specs.Runs.{Runs};

use iv_message::laws::told_texts_are_lines;
use iv_records::laws::{names_are_texts, records_are_read_back};

/// In whatever runs, over restarts, at most one entry of a holder's bears a name with its place, in the whole journal.
pub fn names_are_once()
    ensures { (cap : ℕ) (g : Gate) → Runs cap g → NamesAreOnce g }
{
    records_are_read_back();
    names_are_texts();
    told_texts_are_lines();
}

/// In whatever runs, over restarts, where no log is followed, no more names of a holder's were refused and are not forgiven than it may add.
pub fn refusals_are_few()
    ensures { (cap : ℕ) (g : Gate) → Runs cap g → g.head.log ≡ None → (holder : List ℕ) → refused_by g holder ≤ limits.refusals }
{}

/// What is barred for ever, since its place is too old or of another epoch, stays so, whatever happens.
pub fn what_is_past_stays_past()
    ensures { (g : Gate) (e : Event) → StaysPast g e }
{}
