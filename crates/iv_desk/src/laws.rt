//! Laws of the sockets before a gateway. Each is the contract of a function that does nothing.
ghost use Rattle.std.specs.Prelude.{◌≡◌, ℕ, Bool, List, false};
ghost use Rattle.iv_clients.specs.Clients.{Shown};
ghost use Rattle.iv_clients.specs.Tokens.{Token};
ghost use Rattle.iv_gate.specs.Events.{Event};
ghost use Rattle.iv_gate.specs.Gate.{Gate, Head};
ghost use Rattle.iv_gate.specs.Restoring.{Restores, gate_at_start};
ghost use Rattle.iv_gate.specs.Runs.{Runs};
ghost use Rattle.iv_journal.specs.Journal.{Line};
ghost use Rattle.iv_desk.specs.Front.{Front, FrontRuns, GoesOn, dismissed, front_at_start, offered, socket_at};
ghost use Rattle.iv_desk.specs.Served.{BrowsersAreTold};
ghost use Rattle.iv_desk.specs.Progress.{HeldAreFreed};
ghost use Rattle.iv_desk.specs.Causes.{ClosesForCause};
ghost use Rattle.iv_desk.specs.Desks.{IsHeardBy, at_each};
ghost use Rattle.iv_desk.specs.declared.place.Hearing.{Hearing};

use iv_gate::laws::{events_leave_their_marks, gateways_hold_always};
use iv_message::laws::told_texts_are_lines;
use iv_peer::laws::sockets_carry_what_is_told;

/// In whatever runs, over restarts, each socket carries what its own client says and is told, all of it and in order: the texts that its
/// bytes decode to are the token that the client presented and then its messages, and it is offered what was handed to the client, each
/// time in one frame. Where no client is, a socket is offered an answer to its handshake, pongs and a close. And all holds that holds
/// always of the gateway: what clients are told adds up to their views.
pub fn browsers_are_told_their_views()
    ensures { BrowsersAreTold }
{
    gateways_hold_always();
    sockets_carry_what_is_told();
    told_texts_are_lines();
}

/// In whatever runs, over restarts: who takes all that it is offered, and then what the next sync of the journal lets it be sent, was
/// handed all that its client was told, and what it says is heard again; or it is over.
pub fn held_numbers_are_freed()
    ensures { HeldAreFreed }
{
    gateways_hold_always();
    sockets_carry_what_is_told();
    told_texts_are_lines();
    events_leave_their_marks();
}

/// In whatever runs, over restarts: nothing that happens to a front of its own ends a socket but for a cause. What was read of it asks for
/// no WebSocket, ends by a close or a binary message, or is no frame; all that it said is a token by which nobody comes in; or its client
/// is to go.
pub fn sockets_are_closed_for_cause()
    ensures { ClosesForCause }
{
    gateways_hold_always();
    sockets_carry_what_is_told();
    told_texts_are_lines();
}

/// What the contracts of a desk's calls name goes on from a front that is alive: to hear all that a number says, to offer to each of some
/// numbers what it may be sent, and to close each of some whose token opens its role no more. The other calls are steps themselves. And
/// what goes on from a run is one; a gateway that was restored begins one.
pub fn calls_lead_from_runs_to_runs()
    ensures restores { (cap most places : ℕ) (tokens : List Token) (head : Head) (sent : List Shown) (journal : List Line) (g : Gate)
        → Restores (gate_at_start cap tokens most head sent) journal g → Runs cap g → FrontRuns cap (front_at_start g places) }
    ensures runs { (may : Front → Event → Bool) (cap : ℕ) (d e : Front) → FrontRuns cap d → GoesOn may d e → FrontRuns cap e }
    ensures hears { (may : Front → Event → Bool) (m : ℕ) (d e : Front) (hearing : Hearing) → d.gate.dead ≡ false
        → IsHeardBy d m (socket_at d m) hearing e → GoesOn may d e }
    ensures offers { (may : Front → Event → Bool) (ms : List ℕ) (d : Front) → d.gate.dead ≡ false → GoesOn may d (at_each offered ms d) }
    ensures dismisses { (may : Front → Event → Bool) (ms : List ℕ) (d : Front) → d.gate.dead ≡ false → GoesOn may d (at_each dismissed ms d) }
{
    events_leave_their_marks();
}
