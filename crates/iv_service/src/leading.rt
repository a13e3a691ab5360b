//! `serve_round`: a round of the sockets, also where the log is led.
ghost use Rattle.std.specs.Prelude.{◌≡◌, ◌<◌, IfSome, false, is_some, true};
ghost use Rattle.iv_desk.specs.Desks.{IsDesk};
ghost use Rattle.iv_desk.specs.Front.{Front};
ghost use Rattle.iv_running.specs.Running.{KeepsTo, PassesTime};
ghost use Rattle.iv_server.specs.Sharing.{waiting_lines};
ghost use Rattle.iv_following.specs.Rounds.{has_ended, kept_of};
ghost use Rattle.iv_service.specs.Serving.{is_over};

use iv_desk::Desk;
use iv_following::Following;
use iv_host::FileJournal;
use iv_running::Fault;
use iv_server::Server;
use mio::net::TcpListener;
use mio::{Events, Poll};

/// What clients say is decided, and the keeper is told it, if it has all that was decided before.
fn decide(
    rt: &HostRuntime,
    desk: &mut Desk,
    server: &mut Server,
    journal: &mut FileJournal,
    following: &mut Following,
) -> Result<(), Fault>
    ensures keeps { KeepsTo (kept_of following.old) desk.old desk.new }
    ensures ended { has_ended following.old ≡ true → has_ended following.new ≡ true }
    ensures waits { (d : Front) → IsDesk d desk.old → d.gate.dead ≡ false → 0 < waiting_lines d
        → (desk.new ≡ desk.old) × (journal.new ≡ journal.old) × (following.new ≡ following.old) }
{
    if !desk.entered().is_empty() {
        return Ok(());
    }
    following.say_lead(desk)?;
    server.read_on(rt, desk, journal)?;
    following.say_steps(desk)?;
    server.keep(desk, journal, following.kept())
}

/// A round in which the log is led: what the log has is written and told, then clients are read, and what they decide is told to the keeper.
fn lead_round(
    rt: &HostRuntime,
    desk: &mut Desk,
    server: &mut Server,
    journal: &mut FileJournal,
    following: &mut Following,
    poll: &Poll,
    listener: &TcpListener,
    events: &Events,
) -> Result<(), Fault>
    ensures keeps { KeepsTo (kept_of following.old) desk.old desk.new }
    ensures ended { has_ended following.old ≡ true → has_ended following.new ≡ true }
{
    server.take_in(rt, desk, poll, listener, events)?;
    server.keep(desk, journal, following.kept())?;
    decide(rt, desk, server, journal, following)?;
    server.send_on(rt, desk)
}

/// A round of the sockets.
///
/// # Errors
/// `Memory` if a growth of memory was refused, `Journal` if the journal could not be written.
pub(crate) fn serve_round(
    rt: &HostRuntime,
    desk: &mut Desk,
    server: &mut Server,
    journal: &mut FileJournal,
    following: &mut Option<Following>,
    poll: &Poll,
    listener: &TcpListener,
    events: &Events,
) -> Result<(), Fault>
    ensures passes { PassesTime desk.old desk.new }
    ensures keeps { IfSome following.old (λ f. is_some f.means.lead ≡ true → KeepsTo (kept_of f) desk.old desk.new) }
    ensures over { is_over following.old ≡ true → is_over following.new ≡ true }
{
    if let Some(following) = following {
        if following.leads() {
            return lead_round(rt, desk, server, journal, following, poll, listener, events);
        }
    }
    server.round(rt, desk, journal, poll, listener, events)
}
