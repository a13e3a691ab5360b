//! `lead`: the desk leads the log that it follows; `settle_kept`: its journal keeps what that log has, and nothing else.
ghost use Rattle.std.specs.Prelude.{◌≡◌, ◌++◌, IfOk, drop, false, nat_le, option_map, true};
ghost use Rattle.iv_records.specs.Journal.{journal_of};
ghost use Rattle.iv_gate.specs.Arriving.{position};
ghost use Rattle.iv_gate.specs.Events.{led, synced};
ghost use Rattle.iv_desk.specs.Desks.{IsCalledOut, IsDesk};
ghost use Rattle.iv_desk.specs.Front.{Front, by_event, offered};
ghost use Rattle.iv_running.specs.Running.{KeepsTo, Leads};

use crate::calls::settle;
use crate::fault::Fault;
use iv_desk::Desk;
use iv_gate::laws::events_leave_their_marks;
use iv_gateway::Journal;

/// The log that is followed is led from now on: requests with names are decided here.
pub fn lead(desk: &mut Desk)
    ensures leads { Leads desk.old desk.new }
    ensures front { (d : Front) → IsDesk d desk.old → IsDesk (by_event led d) desk.new }
{
    events_leave_their_marks();
    desk.lead();
}

/// Has the journal keep what is pending there, and then offers each peer what its client may be sent, if all that was decided is in the log,
/// which has it up to a position. Whether it is: else nothing is written, and nobody is told anything.
///
/// # Errors
/// As of `settle`.
pub fn settle_kept<J: Journal>(desk: &mut Desk, journal: &mut J, kept: u64) -> Result<bool, Fault>
    ensures keeps { KeepsTo kept desk.old desk.new }
    ensures answer { IfOk result (λ is. (d : Front) → IsDesk d desk.old → d.gate.dead ≡ false → is ≡ nat_le (position d.gate) kept) }
    ensures written { IfOk result (λ is. is ≡ true → (d : Front) → IsDesk d desk.old → d.gate.dead ≡ false
        → J.kept journal.new ≡ option_map (λ ls. ls ++ journal_of (drop d.gate.kept d.gate.entries)) (J.kept journal.old)) }
    ensures front { IfOk result (λ is. is ≡ true → (d : Front) → IsDesk d desk.old → IsCalledOut offered (by_event synced d) desk.new) }
    ensures waits { IfOk result (λ is. is ≡ false → desk.new ≡ desk.old) }
    ensures unkept { (d : Front) → IsDesk d desk.old → d.gate.dead ≡ false → nat_le (position d.gate) kept ≡ false → journal.new ≡ journal.old }
{
    if desk.position() > kept {
        return Ok(false);
    }
    match settle(desk, journal) {
        Ok(()) => Ok(true),
        Err(fault) => Err(fault),
    }
}
