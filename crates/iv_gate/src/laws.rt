//! Laws of the gateway. Each is the contract of a function that does nothing.
ghost use Rattle.std.specs.Prelude.{◌≡◌, ℕ, false, true, Some};
ghost use Rattle.iv_access.specs.Rights.{Name};
ghost use Rattle.iv_clients.specs.Clients.{Client};
ghost use Rattle.iv_clients.specs.Feeds.{seat_of};
ghost use Rattle.iv_gate.specs.Events.{Event, IsWell, next};
ghost use Rattle.iv_gate.specs.Gate.{Gate};
ghost use Rattle.iv_gate.specs.Laws.{HoldAlways, IsSettledBy, LeavesMarks};
ghost use Rattle.iv_gate.specs.Implied.{ReadsForClients};
ghost use Rattle.iv_gate.specs.Needed.{AreSeatsAfter, KnowsMachine};
ghost use Rattle.iv_gate.specs.Replies.{ActsAs, AreReplied, ByClient, IsAnswered, IsClient, told_by};
ghost use Rattle.iv_gate.specs.Runs.{Runs};
ghost use Rattle.iv_gate.specs.Seen.{AreOver, SeesViews, StaysClosed};
ghost use Rattle.iv_gate.specs.Touched.{AreTouched};

pub mod examples;
pub mod journal;

use iv_machine::laws::{
    ends_are_told, lines_add_up, requests_open_what_they_name, steps_keep_sound, what_stands_lasts,
};
use iv_message::laws::told_texts_are_lines;
use iv_records::laws::{names_are_texts, records_are_read_back};
use iv_steps::laws::{refusals_are_found, steps_are_told};

pub mod hearing;
pub mod names;

/// Nothing happens to a gateway that is dead; else each event makes of the tokens, of what is on disk, of what was sent and of the
/// entries what is told of it.
pub fn events_leave_their_marks()
    ensures rests { (g : Gate) (e : Event) → g.dead ≡ true → next g e ≡ g }
    ensures marks { (g : Gate) (e : Event) → IsWell e → g.dead ≡ false → LeavesMarks g e }
{
    refusals_are_found();
}

/// By an event a client stays as it is, but for its own message, what is handed to it, its leaving, and what drops it; who comes has
/// presented a token that opens its role.
pub fn events_touch_their_clients()
    ensures { (g : Gate) (e : Event) → g.dead ≡ false → AreTouched g e }
{}

/// In whatever runs, over restarts: what each client that is not to go was told for an own number that follows a feed adds up to
/// what its role sees now of the relation that it asked by that number, which it may read, and has no end. A number that was given
/// and follows nothing was closed by the client or was told its end, and what was told of one that ended adds up to nothing.
pub fn clients_see_their_views()
    ensures views { (cap : ℕ) (g : Gate) → Runs cap g → SeesViews g }
    ensures over { (cap : ℕ) (g : Gate) → Runs cap g → AreOver g }
{
    lines_add_up();
    steps_keep_sound();
    what_stands_lasts();
    ends_are_told();
    requests_open_what_they_name();
    steps_are_told();
}

/// In whatever runs, over restarts: the machine reads what clients follow, and nothing for nobody.
pub fn nothing_is_read_for_nobody()
    ensures { (cap : ℕ) (g : Gate) → Runs cap g → ReadsForClients g }
{
    lines_add_up();
    steps_keep_sound();
    what_stands_lasts();
    ends_are_told();
    requests_open_what_they_name();
    steps_are_told();
}

/// In whatever runs, over restarts: the machine's sessions are those that the gateway has begun, each in its role, of which some client
/// is. Each feed is open in the machine, in a session of its role, to its relation, and a role reads a relation by one feed.
pub fn sessions_and_feeds_are_the_machines()
    ensures { (cap : ℕ) (g : Gate) → Runs cap g → KnowsMachine g }
{
    lines_add_up();
    steps_keep_sound();
    what_stands_lasts();
    ends_are_told();
    requests_open_what_they_name();
    steps_are_told();
}

/// In whatever runs, over restarts, the session of a role acts in that role.
pub fn sessions_act_in_their_roles()
    ensures { (cap : ℕ) (g : Gate) (role : Name) (n : ℕ) → Runs cap g → seat_of g.seats role ≡ Some n → ActsAs g.machine n role }
{
    lines_add_up();
    steps_keep_sound();
    what_stands_lasts();
    ends_are_told();
    requests_open_what_they_name();
    steps_are_told();
}

/// By an event no more than one session is begun, for a role that has none with a place.
pub fn sessions_are_begun_by_need()
    ensures { (g : Gate) (e : Event) → AreSeatsAfter g (next g e).seats }
{}

// ---- replies

/// In whatever runs, over restarts, a client that sends a message that is heard is told first the reply to it: what the machine
/// replies to its act in a session of its role, or the refusal that is said. It is told no other reply, and nobody else is told one.
pub fn messages_are_replied()
    ensures { (cap : ℕ) (g : Gate) (e : Event) → Runs cap g → g.dead ≡ false → AreReplied g e }
{
    lines_add_up();
    steps_keep_sound();
    what_stands_lasts();
    ends_are_told();
    requests_open_what_they_name();
    steps_are_told();
    records_are_read_back();
    names_are_texts();
    told_texts_are_lines();
}

/// In whatever runs, over restarts, each client that is not to go was told a welcome and its place first, and as many replies after
/// them as messages of it were heard; and the last of its own numbers is how many subscriptions were opened for it.
pub fn clients_are_answered()
    ensures { (cap : ℕ) (g : Gate) (m : ℕ) (c : Client) → Runs cap g → IsClient g m c → IsAnswered c }
{}

/// In whatever runs, over restarts, what a client closed by a message that was done it follows no more.
pub fn closed_numbers_follow_nothing()
    ensures { (cap : ℕ) (g : Gate) → Runs cap g → StaysClosed g }
{}

/// In whatever runs, over restarts, a message, its own or another's, tells a client nothing, or something and then by one word that this
/// is all. A tick tells it one word, that the line is alive. No other event tells anything to a client that is there.
pub fn events_settle_what_they_tell()
    ensures { (cap : ℕ) (g : Gate) (e : Event) → Runs cap g → g.dead ≡ false → ByClient g e (λ m c d. IsSettledBy e (told_by c d)) }
{
    lines_add_up();
    steps_keep_sound();
    what_stands_lasts();
    ends_are_told();
    requests_open_what_they_name();
    steps_are_told();
}

// ---- all of them

/// In whatever runs, over restarts, all of this holds of the gateway, and by each event.
pub fn gateways_hold_always()
    ensures { HoldAlways }
{
    clients_see_their_views();
    clients_are_answered();
    messages_are_replied();
    closed_numbers_follow_nothing();
    events_settle_what_they_tell();
    hearing::tokens_open_roles();
    hearing::news_are_of_what_is_followed();
    hearing::grants_are_told();
    hearing::clients_are_bounded();
    hearing::the_shape_is_told();
    journal::what_is_sent_is_on_disk();
    journal::the_journal_leads_back();
    journal::told_text_shows_its_entries();
    events_leave_their_marks();
    events_touch_their_clients();
    sessions_and_feeds_are_the_machines();
    sessions_are_begun_by_need();
    names::names_are_once();
    names::refusals_are_few();
}
