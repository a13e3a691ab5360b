//! `work`: opens all that the settings name, brings the desk to where the journal leads, and serves.
ghost use Rattle.std.specs.Prelude.{◌≡◌, IfOk, OnOk, true};
ghost use Rattle.iv_host.specs.Settings.{AreValid};
ghost use Rattle.iv_running.specs.Running.{Leads, PassesTime, Serves};
ghost use Rattle.iv_service.specs.Serving.{is_over};

use crate::leading::serve_round;
use iv_admission::{Admission, open_tokens};
use iv_clients::Token;
use iv_desk::Desk;
use iv_following::Following;
use iv_host::{FileJournal, JournalFile, Settings, TokenFile};
use iv_running::calls::{forgive, tick};
use iv_running::{Fault, SYSTEM, come_back, failed, open_journal, out_of_memory};
use iv_server::{Places, Server, listener_at};
use iv_tokens::Entry;
use mio::net::TcpListener;
use mio::{Events, Poll};
use std::alloc::{AllocError, Global};
use std::net::SocketAddr;
use std::time::{Duration, Instant};

/// Milliseconds between two lines that say that the gateway is there.
const ALIVE: u64 = 20_000;

/// Milliseconds after which names that were refused are forgiven.
const FORGIVING: u64 = 60_000;

/// The milliseconds since a moment.
fn since(rt: &HostRuntime, start: &Instant) -> u64 {
    match start.elapsed(rt) {
        Ok(time) => time
            .as_secs()
            .saturating_mul(1000)
            .saturating_add(u64::from(time.subsec_millis())),
        Err(_) => 0,
    }
}

/// Since when the program serves, and what of that time was seen.
#[derive(Drop)]
struct Clock {
    start: Instant,
    /// The second that was looked at.
    second: u64,
    /// How often clients were told that the line is alive.
    alive: u64,
    /// How often names that were refused were forgiven.
    forgiven: u64,
}

/// Looks at the tokens and at who is late, once a second.
fn each_second(
    rt: &HostRuntime,
    desk: &mut Desk,
    server: &mut Server,
    tokens: &mut TokenFile,
    clock: &mut Clock,
    now: u64,
) -> Result<(), Fault>
    ensures { Serves desk.old desk.new }
{
    let second = now / 1000;
    if second == clock.second {
        return Ok(());
    }
    clock.second = second;
    server.look_at_tokens(rt, desk, tokens)?;
    server.look_at_clock()
}

/// Tells all clients that the line is alive, when it is time.
fn each_tick(desk: &mut Desk, clock: &mut Clock, now: u64) -> Result<(), Fault>
    ensures { PassesTime desk.old desk.new }
{
    let alive = now / ALIVE;
    if alive == clock.alive {
        return Ok(());
    }
    clock.alive = alive;
    tick(desk)
}

/// Forgives names that were refused, when it is time.
fn each_minute(desk: &mut Desk, clock: &mut Clock, now: u64)
    ensures { PassesTime desk.old desk.new }
{
    let forgiven = now / FORGIVING;
    if forgiven == clock.forgiven {
        return;
    }
    clock.forgiven = forgiven;
    forgive(desk);
}

/// Milliseconds to wait for something to come, at most.
fn patience(server: &Server, following: &Option<Following>) -> u64 {
    match following {
        Some(following) if following.is_hurried() => 0,
        _ => server.patience(),
    }
}

/// Waits until something comes, a second at most.
fn wait(patience: u64, poll: &mut Poll, events: &mut Events) -> Result<(), Fault> {
    match poll.poll(events, Some(Duration::from_millis(patience))) {
        Ok(()) => Ok(()),
        Err(_) => Err(Fault::System),
    }
}

/// Hears the keeper of a log, if one is followed. Whether that ends the program.
fn hear_keeper(
    desk: &mut Desk,
    server: &mut Server,
    following: &mut Option<Following>,
    poll: &Poll,
    events: &Events,
) -> Result<bool, Fault>
    ensures leads { Leads desk.old desk.new }
    ensures ends { IfOk result (λ ends. ends ≡ is_over following.new) }
{
    match following {
        None => Ok(false),
        Some(following) => following.hear(desk, server, poll, events),
    }
}

/// Tells the keeper of a log up to where that is on disk, if one is followed.
fn tell_keeper(desk: &Desk, following: &mut Option<Following>, poll: &Poll) -> Result<(), Fault>
    ensures { is_over following.old ≡ true → is_over following.new ≡ true }
{
    match following {
        None => Ok(()),
        Some(following) => following.tell(desk, poll),
    }
}

/// Serves until the journal or memory fails, or the only keeper of a log has gone.
fn serve(
    rt: &HostRuntime,
    desk: &mut Desk,
    server: &mut Server,
    journal: &mut FileJournal,
    tokens: &mut TokenFile,
    following: &mut Option<Following>,
    poll: &mut Poll,
    listener: &TcpListener,
) -> Result<(), Fault>
    ensures leads { Leads desk.old desk.new }
    ensures over { OnOk result (is_over following.new ≡ true) }
{
    let Ok(start) = Instant::now(rt) else {
        return Err(Fault::System);
    };
    let mut clock = Clock {
        start,
        second: u64::MAX,
        alive: 0,
        forgiven: 0,
    };
    let mut events = Events::with_capacity(rt.alloc(), 1024)?;
    'rounds: for _ in 0..u64::MAX {
        wait(patience(server, following), poll, &mut events)?;
        let now = since(rt, &clock.start);
        server.is_at(now);
        each_second(rt, desk, server, tokens, &mut clock, now)?;
        each_tick(desk, &mut clock, now)?;
        each_minute(desk, &mut clock, now);
        let ends = hear_keeper(desk, server, following, poll, &events)?;
        serve_round(
            rt, desk, server, journal, following, poll, listener, &events,
        )?;
        tell_keeper(desk, following, poll)?;
        if ends {
            return Ok(());
        }
    }
    Err(Fault::System)
}

/// Says that the address cannot be listened on.
fn no_address(rt: &HostRuntime, address: SocketAddr) -> u8 {
    let _ = eprintln!(rt; "gateway: {address} cannot be listened on");
    SYSTEM
}

/// A keeper who is there is told what is held.
fn meet(desk: &Desk, following: &mut Option<Following>) -> Result<(), Fault> {
    match following {
        None => Ok(()),
        Some(following) => following.meet(desk),
    }
}

/// Says why the desk is served no more, and tells a keeper what it was not told.
fn end(
    rt: &HostRuntime,
    journal: &FileJournal,
    following: &mut Option<Following>,
    poll: &mut Poll,
    fault: Fault,
) -> u8 {
    if let Some(following) = following {
        if fault == Fault::Log {
            following.last_words(poll);
        }
    }
    failed(rt, journal, fault)
}

/// Listens, and serves.
fn open(
    rt: &HostRuntime,
    desk: &mut Desk,
    server: &mut Server,
    settings: &Settings,
    journal: &mut FileJournal,
    tokens: &mut TokenFile,
    following: &mut Option<Following>,
    poll: &mut Poll,
) -> Result<(), u8>
    ensures leads { Leads desk.old desk.new }
    ensures over { OnOk result (is_over following.new ≡ true) }
{
    let address = SocketAddr::from((settings.host, settings.port));
    if meet(desk, following).is_err() {
        return Err(out_of_memory(rt));
    }
    let Some(listener) = listener_at(rt, address, poll) else {
        return Err(no_address(rt, address));
    };
    let _ = eprintln!(rt; "gateway: listening on {address}");
    match serve(
        rt, desk, server, journal, tokens, following, poll, &listener,
    ) {
        Ok(()) => Ok(()),
        Err(fault) => Err(end(rt, journal, following, poll, fault)),
    }
}

/// A copy of a text, if there is one.
fn copied(text: &Option<String>) -> Result<Option<String>, AllocError> {
    match text {
        None => Ok(None),
        Some(text) => Ok(Some(text.clone()?)),
    }
}

/// The log that the settings ask for.
fn new_following(
    rt: &HostRuntime,
    settings: &Settings,
    poll: &Poll,
) -> Result<Option<Following>, u8> {
    match &settings.keeper {
        None => Ok(None),
        Some(keeper) => Ok(Some(Following::open(rt, settings, keeper, poll)?)),
    }
}

/// The journal of the log that is followed, or the same one if none is.
fn followed(
    settings: &Settings,
    following: &mut Option<Following>,
    poll: &mut Poll,
    file: JournalFile,
    bytes: Vec<u8>,
) -> Result<(JournalFile, Vec<u8>), u8> {
    match following {
        None => Ok((file, bytes)),
        Some(following) => following.begin(poll, settings, file, bytes),
    }
}

/// Brings a new desk that knows these tokens to where the journal leads, and serves.
fn serve_anew(
    rt: &HostRuntime,
    settings: &Settings,
    file: &mut TokenFile,
    server: &mut Server,
    tokens: Vec<Token>,
) -> Result<(), u8>
    requires { AreValid settings.now }
{
    let Ok(mut poll) = Poll::new(rt) else {
        return Err(no_address(rt, SocketAddr::from((settings.host, settings.port))));
    };
    let mut following = new_following(rt, settings, &poll)?;
    let (found, bytes) = open_journal(rt, settings)?;
    let (found, bytes) = followed(settings, &mut following, &mut poll, found, bytes)?;
    let (mut desk, mut journal) = come_back(rt, settings, tokens, found, bytes)?;
    open(
        rt,
        &mut desk,
        server,
        settings,
        &mut journal,
        file,
        &mut following,
        &mut poll,
    )
}

/// The places that the settings ask for.
fn new_places(alloc: Global, settings: &Settings) -> Result<Places, AllocError> {
    let pages = copied(&settings.pages)?;
    Places::new(alloc, settings.clients, pages)
}

/// Serves those who may come in, over a new desk that knows these tokens.
fn serve_those(
    rt: &HostRuntime,
    settings: &Settings,
    file: &mut TokenFile,
    admission: Admission,
    tokens: Vec<Token>,
) -> Result<(), u8>
    requires { AreValid settings.now }
{
    match new_places(rt.alloc(), settings) {
        Err(_) => Err(out_of_memory(rt)),
        Ok(places) => {
            let mut server = Server::new(rt.alloc(), places, admission, settings.keeper.is_none());
            serve_anew(rt, settings, file, &mut server, tokens)
        }
    }
}

/// Serves by the tokens of these entries.
fn serve_by(
    rt: &HostRuntime,
    settings: &Settings,
    file: &mut TokenFile,
    entries: Vec<Entry>,
) -> Result<(), u8>
    requires { AreValid settings.now }
{
    match Admission::by(rt, settings, entries) {
        Err(status) => Err(status),
        Ok((admission, tokens)) => serve_those(rt, settings, file, admission, tokens),
    }
}

/// Serves as the settings say.
///
/// # Errors
/// The status to exit with, once it was said why.
pub fn work(rt: &HostRuntime, settings: &Settings) -> Result<(), u8>
    requires { AreValid settings.now }
{
    let Ok(path) = settings.tokens.clone() else {
        return Err(out_of_memory(rt));
    };
    let (mut file, entries) = open_tokens(rt, path)?;
    serve_by(rt, settings, &mut file, entries)
}
