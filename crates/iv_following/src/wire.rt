//! `Wire`: the ways by which bytes pass between a keeper and the gateway, and what the poll tells of them.
use mio::net::TcpStream;
use mio::unix::SourceFd;
use mio::{Interest, Poll, Token};
use std::io;
use std::io::{ErrorKind, Read, Write};
use std::net::Shutdown;

/// The poll's number of what a keeper says.
pub(crate) const SAID: Token = Token(usize::MAX - 1);

/// The poll's number of what a keeper is told, if that has one of its own.
pub(crate) const TOLD: Token = Token(usize::MAX - 2);

/// The poll's number of the listener for keepers.
pub(crate) const COMING: Token = Token(usize::MAX - 3);

/// Bytes that are read at a time.
pub(crate) const PIECE: usize = 16_384;

/// Bytes that a pipe takes without a wait, if it takes any.
const PIPED: usize = 4_096;

/// The descriptors of standard input and output.
const INPUT: i32 = 0;

const OUTPUT: i32 = 1;

/// What a read brought.
#[derive(Clone, Copy, PartialEq, Eq)]
pub(crate) enum Got {
    /// As many bytes.
    Bytes(usize),
    /// Nothing now.
    Nothing,
    /// The other end says no more.
    End,
}

/// A way to a keeper.
#[derive(Drop)]
pub(crate) enum Wire {
    /// Standard input and output. Whether the poll tells when that takes bytes.
    Standard(HostRuntime, bool),
    /// A connection.
    Socket(TcpStream),
}

/// The poll tells once of a descriptor.
fn rearm(poll: &Poll, descriptor: i32, number: Token, interest: Interest) -> bool {
    poll.registry()
        .reregister(&mut SourceFd(&descriptor), number, interest)
        .is_ok()
}

/// What an error of a read means.
fn nothing_or_end(kind: ErrorKind) -> Got {
    match kind {
        ErrorKind::WouldBlock | ErrorKind::Interrupted => Got::Nothing,
        _ => Got::End,
    }
}

impl Wire {
    /// Standard input and output, of which the poll tells.
    ///
    /// # Errors
    /// If it cannot, as of a file.
    pub(crate) fn standard(rt: &HostRuntime, poll: &Poll) -> io::Result<Wire> {
        let registry = poll.registry();
        registry.register(&mut SourceFd(&INPUT), SAID, Interest::READABLE)?;
        let waits = registry
            .register(&mut SourceFd(&OUTPUT), TOLD, Interest::WRITABLE)
            .is_ok();
        Ok(Wire::Standard(*rt, waits))
    }

    /// A connection, of which the poll tells.
    ///
    /// # Errors
    /// If it cannot.
    pub(crate) fn socket(stream: TcpStream, poll: &Poll) -> io::Result<Wire> {
        let mut stream = stream;
        let _ = stream.set_nodelay(true);
        poll.registry()
            .register(&mut stream, SAID, Interest::READABLE | Interest::WRITABLE)?;
        Ok(Wire::Socket(stream))
    }

    /// Reads once, of which the poll has told. Whether more may be there of which it will not tell.
    pub(crate) fn read(&mut self, poll: &Poll, buffer: &mut [u8]) -> (Got, bool) {
        match self {
            Wire::Standard(rt, _) => {
                let got = match rt.stdin().read(buffer) {
                    Ok(0) => Got::End,
                    Ok(count) => Got::Bytes(count),
                    Err(error) => nothing_or_end(error.kind()),
                };
                if rearm(poll, INPUT, SAID, Interest::READABLE) {
                    (got, false)
                } else {
                    (Got::End, false)
                }
            }
            Wire::Socket(stream) => match stream.read(buffer) {
                Ok(0) => (Got::End, false),
                Ok(count) => (Got::Bytes(count), true),
                Err(error) => {
                    let kind = error.kind();
                    (nothing_or_end(kind), kind == ErrorKind::Interrupted)
                }
            },
        }
    }

    /// Writes once, if the poll has told that bytes are taken. How many were, none if the way is broken; and whether more may be.
    pub(crate) fn write(&mut self, poll: &Poll, bytes: &[u8]) -> (Option<usize>, bool) {
        match self {
            Wire::Standard(rt, waits) => {
                let piece = if *waits {
                    bytes.get(..PIPED).unwrap_or(bytes)
                } else {
                    bytes
                };
                let taken = match rt.stdout().write(piece) {
                    Ok(0) => None,
                    Ok(count) => Some(count),
                    Err(error) => match error.kind() {
                        ErrorKind::WouldBlock | ErrorKind::Interrupted => Some(0),
                        _ => None,
                    },
                };
                let again = !*waits || !rearm(poll, OUTPUT, TOLD, Interest::WRITABLE);
                (taken, again)
            }
            Wire::Socket(stream) => match stream.write(bytes) {
                Ok(0) => (None, false),
                Ok(count) => (Some(count), true),
                Err(error) => match error.kind() {
                    ErrorKind::WouldBlock => (Some(0), false),
                    ErrorKind::Interrupted => (Some(0), true),
                    _ => (None, false),
                },
            },
        }
    }

    /// Tells the other end that nothing more is told.
    pub(crate) fn finish(&mut self) {
        if let Wire::Socket(stream) = self {
            let _ = stream.shutdown(Shutdown::Write);
        }
    }
}
