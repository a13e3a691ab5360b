//! `Socket`: a connection at a number, how far it is, and the two functions by which its bytes come to the desk and go from it.
ghost use Rattle.iv_running.specs.Running.{Serves};

use iv_admission::{Admission, Found, Scout};
use iv_desk::{Desk, Hearing};
use iv_host::Why;
use iv_running::Fault;
use iv_running::calls::{hear, pass};
use iv_tokens::Judged;
use mio::net::TcpStream;
use std::alloc::Global;
use std::io::{ErrorKind, Read, Write};
use std::mem;
use std::net::{Shutdown, SocketAddr};

/// Bytes that are read at a time.
const PIECE: usize = 16_384;

/// How far a connection is.
#[derive(Drop)]
pub(crate) enum Stage {
    /// The head of a request is read.
    Head(Vec<u8>),
    /// It is a WebSocket, which the desk has at this number.
    Desk,
    /// These bytes are the answer, of which as many were sent.
    Answer(Vec<u8>, usize),
    /// Nothing more is sent. What comes is not looked at, until the other end closes.
    Ending,
}

/// A connection.
#[derive(Drop)]
pub(crate) struct Socket {
    /// The allocator of what it makes.
    alloc: Global,
    /// The connection of the system.
    stream: TcpStream,
    /// How far it is.
    pub(crate) stage: Stage,
    /// The address of the other end.
    pub(crate) address: SocketAddr,
    /// There may be bytes to read.
    pub(crate) readable: bool,
    /// The system may take bytes.
    pub(crate) writable: bool,
    /// It is in the list of those that are to be read.
    pub(crate) listed: bool,
    /// Bytes of it lie at the desk that are not heard now.
    pub(crate) unheard: bool,
    /// What it presents is heard, if that may be a web token, and nothing was presented yet.
    pub(crate) scout: Option<Scout>,
    /// What became of the text that it presented, if that was judged.
    pub(crate) judged: Option<Judged>,
    /// Bytes that were read after its head before it presented a token that is known.
    pub(crate) said: usize,
    /// It has presented a token that is known.
    pub(crate) came: bool,
    /// What it said has ended it: a close, say.
    pub(crate) ended: bool,
    /// Since when bytes wait for it and none were taken, in milliseconds.
    pub(crate) stuck: Option<u64>,
    /// When it has to be further, in milliseconds.
    pub(crate) until: Option<u64>,
}

/// What a read brought.
#[derive(Clone, Copy, PartialEq, Eq)]
pub(crate) enum Got {
    /// As many bytes; there may be more.
    Bytes(usize),
    /// Nothing now.
    Nothing,
    /// The other end sends no more, or the connection is broken.
    End,
}

impl Socket {
    /// A connection that has to be a client by a time.
    pub(crate) fn new(alloc: Global, stream: TcpStream, address: SocketAddr, until: u64) -> Socket {
        Socket {
            alloc,
            stream,
            stage: Stage::Head(Vec::new(alloc)),
            address,
            readable: false,
            writable: true,
            listed: false,
            unheard: false,
            scout: None,
            judged: None,
            said: 0,
            came: false,
            ended: false,
            stuck: None,
            until: Some(until),
        }
    }

    /// Reads bytes of the head.
    fn read_head(&mut self) -> Result<Got, Fault> {
        let Stage::Head(head) = &mut self.stage else {
            return Ok(Got::Nothing);
        };
        let mut buffer = [0u8; PIECE];
        match self.stream.read(&mut buffer) {
            Ok(0) => Ok(Got::End),
            Ok(count) => match head.extend_from_slice(&buffer[..count]) {
                Ok(()) => Ok(Got::Bytes(count)),
                Err(_) => Err(Fault::Memory),
            },
            Err(error) => Ok(nothing_or_end(error.kind())),
        }
    }

    /// The bytes of the head, which the socket has no more.
    pub(crate) fn take_head(&mut self) -> Vec<u8> {
        match &mut self.stage {
            Stage::Head(head) => mem::replace(head, Vec::new(self.alloc)),
            _ => Vec::new(self.alloc),
        }
    }

    /// Hears bytes before the desk does. The first text, if it ends in them.
    pub(crate) fn listen(&mut self, bytes: &[u8]) -> Result<Option<String>, Fault> {
        let Some(scout) = &mut self.scout else {
            return Ok(None);
        };
        let text = match scout.hear(bytes)? {
            Found::More => return Ok(None),
            Found::Text(text) => Some(text),
            Found::Nothing => None,
        };
        drop(self.scout.take());
        Ok(text)
    }

    /// Reads bytes and forgets them.
    pub(crate) fn read_nothing(&mut self) -> Got {
        let mut buffer = [0u8; PIECE];
        match self.stream.read(&mut buffer) {
            Ok(0) => Got::End,
            Ok(count) => Got::Bytes(count),
            Err(error) => nothing_or_end(error.kind()),
        }
    }

    /// Sends more of the answer. Whether the connection is whole.
    pub(crate) fn send_answer(&mut self, now: u64) -> bool {
        for _ in 0..u32::MAX {
            let Stage::Answer(bytes, sent) = &mut self.stage else {
                return true;
            };
            if *sent >= bytes.len() {
                return true;
            }
            match self.stream.write(&bytes[*sent..]) {
                Ok(0) => return false,
                Ok(count) => {
                    *sent = sent.saturating_add(count);
                    self.stuck = None;
                }
                Err(error) => {
                    if self.stuck.is_none() {
                        self.stuck = Some(now);
                    }
                    self.writable = error.kind() != ErrorKind::WouldBlock;
                    return !self.writable || error.kind() == ErrorKind::Interrupted;
                }
            }
        }
        true
    }

    /// Writes bytes. How many the system took; none if the connection is broken.
    fn put(&mut self, bytes: &[u8]) -> Option<usize> {
        match self.stream.write(bytes) {
            Ok(0) => None,
            Ok(count) => Some(count),
            Err(error) => match error.kind() {
                ErrorKind::WouldBlock => {
                    self.writable = false;
                    Some(0)
                }
                ErrorKind::Interrupted => Some(0),
                _ => None,
            },
        }
    }

    /// Why the desk's end of it is over.
    pub(crate) fn why(&self) -> Why {
        if self.ended { Why::Closed } else { Why::Told }
    }

    /// Tells the other end that nothing more comes.
    pub(crate) fn finish(&mut self, until: u64) {
        let _ = self.stream.shutdown(Shutdown::Write);
        self.stage = Stage::Ending;
        self.until = Some(until);
        self.readable = true;
        self.stuck = None;
    }
}

/// What an error of a read means.
fn nothing_or_end(kind: ErrorKind) -> Got {
    match kind {
        ErrorKind::WouldBlock => Got::Nothing,
        ErrorKind::Interrupted => Got::Bytes(0),
        _ => Got::End,
    }
}

/// Reads bytes of the head at a number.
pub(crate) fn read_head_at(sockets: &mut [Option<Socket>], at: u32) -> Result<Got, Fault> {
    let Some(Some(socket)) = sockets.get_mut(at as usize) else {
        return Ok(Got::Nothing);
    };
    let got = socket.read_head()?;
    if got == Got::Nothing {
        socket.readable = false;
    }
    Ok(got)
}

/// Judges what is presented at a number, before the desk hears these bytes.
pub(crate) fn listen_at(
    sockets: &mut [Option<Socket>],
    admission: &mut Admission,
    desk: &mut Desk,
    at: u32,
    bytes: &[u8],
) -> Result<(), Fault>
    ensures { Serves desk.old desk.new }
{
    let Some(Some(socket)) = sockets.get_mut(at as usize) else {
        return Ok(());
    };
    let Some(text) = socket.listen(bytes)? else {
        return Ok(());
    };
    let judged = admission.present(desk, text.as_bytes())?;
    socket.judged = Some(judged);
    Ok(())
}

/// Reads once at a number. What comes is heard there, and nowhere else.
pub(crate) fn read_at(
    sockets: &mut [Option<Socket>],
    admission: &mut Admission,
    desk: &mut Desk,
    at: u32,
) -> Result<(Got, Hearing), Fault>
    ensures { Serves desk.old desk.new }
{
    let Some(Some(socket)) = sockets.get_mut(at as usize) else {
        return Ok((Got::Nothing, Hearing::All));
    };
    let mut buffer = [0u8; PIECE];
    match socket.stream.read(&mut buffer) {
        Ok(0) => Ok((Got::End, Hearing::All)),
        Ok(count) => {
            listen_at(sockets, admission, desk, at, &buffer[..count])?;
            let hearing = hear(desk, at, &buffer[..count])?;
            Ok((Got::Bytes(count), hearing))
        }
        Err(error) => Ok((nothing_or_end(error.kind()), Hearing::All)),
    }
}

/// Sends once at a number what is pending there, and nothing else. How many bytes the system took; none if the connection is broken.
pub(crate) fn send_at(sockets: &mut [Option<Socket>], desk: &mut Desk, at: u32) -> Option<usize>
    ensures { Serves desk.old desk.new }
{
    let Some(Some(socket)) = sockets.get_mut(at as usize) else {
        return None;
    };
    let count = socket.put(desk.pending(at))?;
    pass(desk, at, count);
    Some(count)
}
