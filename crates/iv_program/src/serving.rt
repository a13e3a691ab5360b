//! `serve`, `serve_on`: listens on a port, and answers connections one after another through one engine.
//!
//! A failed engine is answered before an accept, which a test shows: no contract of a listener tells its accepts, nor
//! where it listens. What is done with a connection has its contract in `answer_connection`. After it the engine is asked
//! whether it failed: a read or a write that fails ends the connection alone, so a network fault comes from an accept. An
//! accept that fails ends the program, even if another try might do; std's accept tries again after a signal.
//!
//! Each answer is one write, so `TCP_NODELAY` is set; if it can't be, answers may come later and are the same. Tests
//! (`.ci/socket`) have connections of which no option can be set, one that is reset before it is accepted, and one to
//! another address of the host, which is refused. The engine is made before the port is taken, so want of memory there
//! leaves no line `listening on ..`, which is written by the same kind of end as answers: its text and its faults are in a
//! contract. A network fault is told on standard error here, where its cause is known.

ghost use Rattle.std.specs.Prelude.{◌≡◌, ◌≤◌, ◌||◌, ◌↔◌, ◌∷◌, [], true, false, IsErrOf, OnOk};
ghost use Rattle.std.specs.Net.Addr.{ipv4_octets};
ghost use Rattle.std.specs.Net.Socket.{v4_ip, v4_port};
ghost use Rattle.iv_rows.specs.RowLimit.{IsRowLimit};
ghost use Rattle.iv_machine.specs.Reached.{AreNumbersUnique};
ghost use Rattle.iv_machine.specs.State.{State};
ghost use Rattle.iv_engine.specs.Engine.{IsBehind};
ghost use Rattle.iv_engine.specs.Sound.{IsSoundEngine};
ghost use Rattle.iv_program.specs.Does.{Listens};
ghost use Rattle.iv_program.specs.Replays.{is_write};
ghost use Rattle.iv_program.specs.Serves.{HasServed, IsClosed, Serves, is_memory};

use crate::connection::answer_connection;
use iv_arguments::Fault;
use iv_engine::{Engine, Seed};
use iv_lines::{EndFault, FromRead, FromWrite, Sink, write_all};
use std::alloc::Global;
use std::io::{Error, ErrorKind};
use std::net::{Ipv4Addr, SocketAddrV4, TcpListener};

/// Why no more connections are served.
#[derive(Clone, Copy, Debug, PartialEq, Eq)]
pub enum ServeFault {
    /// A connection could not be accepted.
    Network,
    /// A growth of memory was refused. The engine has failed.
    Memory,
    /// The engine had failed before.
    Failed,
}

/// Serves so many connections of the listener, one after another on the one engine, with at most `lines` lines of each.
/// After each connection all sessions and subscriptions are closed; all else is kept. A connection whose read or write
/// fails ends, and the next one is served.
///
/// # Errors
/// `Failed` exactly if the engine had failed: no connection is accepted then. `Network` if a connection could not
/// be accepted; `Memory` if a growth of memory was refused: the engine has failed then.
pub fn serve_on(
    alloc: Global,
    engine: &mut Engine,
    listener: &TcpListener,
    connections: u32,
    lines: u32,
) -> Result<(), ServeFault>
    ensures served { (s : State) → IsBehind s engine.old → Serves lines connections s engine.new result }
    // A sound engine stays sound.
    ensures sound { (is_memory result ≡ false) → IsSoundEngine engine.old → IsSoundEngine engine.new }
    ensures closed { OnOk result (1 ≤ connections → IsClosed engine.new.frame) }
    ensures numbers { engine.new.failed ≡ false → AreNumbersUnique engine.new.frame }
    ensures failed { engine.new.failed ≡ (engine.old.failed || is_memory result) }
    ensures refused { IsErrOf result ServeFault.Failed ↔ (engine.old.failed ≡ true) }
    ensures untouched { engine.old.failed ≡ true → engine.new ≡ engine.old }
{
    if engine.is_failed() {
        return Err(ServeFault::Failed);
    }
    for _ in 0..connections {
        let Ok((stream, _)) = listener.accept() else {
            return Err(ServeFault::Network);
        };
        // an answer need not wait for the next one
        let _ = stream.set_nodelay(true);
        let mut reader = FromRead::new(&stream);
        let mut writer = FromWrite::new(&stream);
        // if its read or write fails, the connection ends, and the next one is served
        let _ = answer_connection(alloc, engine, &mut reader, &mut writer, lines);
        if engine.is_failed() {
            return Err(ServeFault::Memory);
        }
    }
    Ok(())
}

/// The address that is listened on: 127.0.0.1, which no other machine reaches, and the port.
pub fn address_of(port: u16) -> SocketAddrV4
    ensures octets { ipv4_octets (v4_ip result) ≡ 127 ∷ 0 ∷ 0 ∷ 1 ∷ [] }
    ensures port { v4_port result ≡ port }
{
    SocketAddrV4::new(Ipv4Addr::new(127, 0, 0, 1), port)
}

/// Tells on the writer where the program listens.
fn tell_port<W: Sink>(alloc: Global, writer: &mut W, port: u16) -> Result<(), Fault>
    ensures listens { Listens port (W.taken writer.old) (W.taken writer.new) result }
    ensures write { W.has_failed writer.new ≡ (W.has_failed writer.old || is_write result) }
    ensures flushed { (is_write result ≡ false) → W.is_flushed writer.old ≡ true → W.is_flushed writer.new ≡ true }
{
    let Ok(text) = format!(in alloc; "listening on 127.0.0.1:{port}\n") else {
        return Err(Fault::Memory);
    };
    match write_all(writer, text.as_bytes()) {
        Err(EndFault) => Err(Fault::Write),
        Ok(()) => match writer.flush() {
            Err(EndFault) => Err(Fault::Write),
            Ok(()) => Ok(()),
        },
    }
}

/// Tells on standard error that a port cannot be listened on, why, and what may help.
fn tell_unbound(rt: &HostRuntime, port: u16, error: &Error) {
    let fault = Fault::Network;
    let hint = match error.kind() {
        ErrorKind::AddrInUse => "Does another program listen there? --port takes another one.",
        ErrorKind::PermissionDenied =>
            "Ports below 1024 may need an administrator; --port takes another one.",
        _ => "Does this machine have 127.0.0.1?",
    };
    let _ = eprintln!(rt; "{fault}\nviewd: could not listen on 127.0.0.1:{port}: {error}. {hint}");
}

/// Tells on standard error that a connection cannot be accepted, and what may help.
fn tell_unaccepted(rt: &HostRuntime, port: u16) {
    let fault = Fault::Network;
    let hint = "May it open more files? ulimit -n tells how many.";
    let _ = eprintln!(rt;
        "{fault}\nviewd: could not accept a connection on 127.0.0.1:{port}. {hint}"
    );
}

/// Listens on a port of 127.0.0.1, tells so on the writer, and serves so many connections through an engine that has not
/// failed, with at most `lines` lines of each.
///
/// # Errors
/// `Network` if the port could not be listened on, or a connection not be accepted; `Write` if the writer failed;
/// `Memory` if a growth of memory was refused.
fn serve_through<W: Sink>(
    rt: &HostRuntime,
    engine: &mut Engine,
    writer: &mut W,
    port: u16,
    connections: u32,
    lines: u32,
) -> Result<(), Fault>
    requires { engine.old.failed ≡ false }
    ensures listens { Listens port (W.taken writer.old) (W.taken writer.new) result }
    ensures write { W.has_failed writer.new ≡ (W.has_failed writer.old || is_write result) }
    ensures flushed { (is_write result ≡ false) → W.is_flushed writer.old ≡ true → W.is_flushed writer.new ≡ true }
{
    let alloc = rt.alloc();
    let listener = match TcpListener::bind(rt, address_of(port)) {
        Ok(listener) => listener,
        Err(error) => {
            tell_unbound(rt, port, &error);
            return Err(Fault::Network);
        }
    };
    tell_port(alloc, writer, port)?;
    match serve_on(alloc, engine, &listener, connections, lines) {
        Ok(()) => Ok(()),
        Err(ServeFault::Network) => {
            tell_unaccepted(rt, port);
            Err(Fault::Network)
        }
        Err(ServeFault::Memory) => Err(Fault::Memory),
        Err(ServeFault::Failed) => unreachable!(),
    }
}

/// Listens on a port of 127.0.0.1, tells so on the writer, and serves so many connections through a new engine, with at
/// most `lines` lines of each, and at most `rows` different rows in each table and node. Rows are hashed under the seed.
///
/// # Errors
/// `Network` if the port could not be listened on, or a connection not be accepted; `Write` if the writer failed;
/// `Memory` if a growth of memory was refused.
pub fn serve<W: Sink>(
    rt: &HostRuntime,
    seed: Seed,
    writer: &mut W,
    port: u16,
    connections: u32,
    lines: u32,
    rows: u32,
) -> Result<(), Fault>
    requires { IsRowLimit rows }
    ensures listens { Listens port (W.taken writer.old) (W.taken writer.new) result }
    ensures write { W.has_failed writer.new ≡ (W.has_failed writer.old || is_write result) }
    ensures flushed { (is_write result ≡ false) → W.is_flushed writer.old ≡ true → W.is_flushed writer.new ≡ true }
{
    let Ok(mut engine) = Engine::with_seed(rt.alloc(), seed, rows) else {
        return Err(Fault::Memory);
    };
    let ended = serve_through(rt, &mut engine, writer, port, connections, lines);
    drop(engine);
    ended
}
