//! Laws of what is heard, by whom, and how much of it waits. Each is the contract of a function that does nothing.
ghost use Rattle.std.specs.Prelude.{◌≡◌, ◌≤◌, ◌+◌, ℕ, false, length, Some};
ghost use Rattle.iv_clients.specs.Clients.{Client, client_at};
ghost use Rattle.iv_gate.specs.Arriving.{Step};
ghost use Rattle.iv_gate.specs.Events.{Event, next};
ghost use Rattle.iv_gate.specs.Gate.{Gate};
ghost use Rattle.iv_gate.specs.Implied.{EndsForCause, GrantsAreTrue, HearsFollowed, NewRightsAreTold, ShapeIsBounded};
ghost use Rattle.iv_gate.specs.Laws.{GrantsAreTold, IsBounded, MakesShape, ShapeIsTold};
ghost use Rattle.iv_gate.specs.Replies.{ByClient, IsClient};
ghost use Rattle.iv_gate.specs.Runs.{Runs};
ghost use Rattle.iv_gate.specs.Seen.{TellsDifference};
ghost use Rattle.iv_gate.specs.Touched.{ActsByToken, LetsIn};

use iv_access::laws::grants_give_what_they_name;
use iv_machine::laws::{
    differences_are_exact, ends_are_told, lines_add_up, requests_open_what_they_name,
    steps_keep_sound, what_stands_lasts,
};
use iv_request::laws::requests_are_well;
use iv_steps::laws::steps_are_told;

/// In whatever runs, over restarts: the token that a client presented opens its role now, and its role has a session. Who presents a token
/// that opens a known role comes in, if the number is free and a session is there or can be begun.
pub fn tokens_open_roles()
    ensures acts { (cap : ℕ) (g : Gate) (m : ℕ) (c : Client) → Runs cap g → IsClient g m c → ActsByToken g c }
    ensures comes { (cap : ℕ) (g : Gate) → Runs cap g → g.dead ≡ false → LetsIn g }
{
    lines_add_up();
    steps_keep_sound();
    what_stands_lasts();
    ends_are_told();
    requests_open_what_they_name();
    steps_are_told();
}

/// In whatever runs, over restarts, an event tells a client of numbers alone that it follows, or that it is given now, and of an end for
/// its cause. Of a number that goes on it tells the difference of what it shows, in one text; of one that does not, nothing, or its end,
/// which takes back all that it showed.
pub fn news_are_of_what_is_followed()
    ensures hears { (cap : ℕ) (g : Gate) (e : Event) → Runs cap g → HearsFollowed g e }
    ensures ends { (cap : ℕ) (g : Gate) (e : Event) → Runs cap g → EndsForCause g e }
    ensures changes { (cap : ℕ) (g : Gate) (e : Event) → Runs cap g → ByClient g e (λ m c d. (own : ℕ) → TellsDifference g e c d own) }
{
    lines_add_up();
    steps_keep_sound();
    what_stands_lasts();
    ends_are_told();
    requests_open_what_they_name();
    steps_are_told();
    differences_are_exact();
}

/// In whatever runs, over restarts, what a client takes is bounded; an event keeps the number of places, and opens one subscription of
/// the machine at most.
pub fn clients_are_bounded()
    ensures bounded { (cap : ℕ) (g : Gate) → Runs cap g → (m : ℕ) (c : Client) → client_at g.clients m ≡ Some c → IsBounded g m c }
    ensures places { (g : Gate) (e : Event) → length (next g e).clients ≡ length g.clients }
    ensures last { (cap : ℕ) (g : Gate) (e : Event) → Runs cap g → (next g e).machine.frame.last ≤ 1 + g.machine.frame.last }
{
    lines_add_up();
    steps_keep_sound();
    what_stands_lasts();
    ends_are_told();
    requests_open_what_they_name();
    steps_are_told();
}

/// In whatever runs, over restarts: what an event tells a client to be granted its role has then, and it is what the accepted request
/// of the event granted its role, in order. What a role may do by a step, and might not before it, is told.
pub fn grants_are_told()
    ensures has { (cap : ℕ) (g : Gate) (e : Event) → Runs cap g → GrantsAreTrue g e }
    ensures exact { (cap : ℕ) (g : Gate) (e : Event) → Runs cap g → g.dead ≡ false → GrantsAreTold g e }
    ensures new { (cap : ℕ) (g : Gate) (s : Step) → Runs cap g → NewRightsAreTold g s }
{
    lines_add_up();
    steps_keep_sound();
    what_stands_lasts();
    ends_are_told();
    requests_open_what_they_name();
    steps_are_told();
    grants_give_what_they_name();
    requests_are_well();
}

/// In whatever runs, over restarts: what a client was told of the shape is all that is for its role: to an administrator each entry that
/// makes it, once and in order, and nothing to anyone else. These entries lead, without the others, to the same roles, memberships, rights,
/// relations and policies. If the shape's text is beyond its bound, an event adds nothing to it.
pub fn the_shape_is_told()
    ensures told { (cap : ℕ) (g : Gate) → Runs cap g → ShapeIsTold g }
    ensures makes { (cap : ℕ) (g : Gate) → Runs cap g → MakesShape cap g }
    ensures bounded { (g : Gate) (e : Event) → ShapeIsBounded g e }
{
    lines_add_up();
    steps_keep_sound();
    what_stands_lasts();
    ends_are_told();
    requests_open_what_they_name();
    steps_are_told();
}
