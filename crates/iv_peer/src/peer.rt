//! `Peer`: the opening handshake of a WebSocket at a server, and then its frames, with no socket (RFC 6455).
ghost use Rattle.std.specs.Prelude.{◌≡◌, ◌≤◌, [], drop, length, IfOk, IfSome, OnOk, Option, option_map, None, Some, false};
ghost use Rattle.websocket.specs.Connection.{Connection, read_step};
ghost use Rattle.websocket.specs.Content.{Content, received_content, HasValidText, IsReceivedInside};
ghost use Rattle.iv_peer.specs.Socket.{accepted, answer, bad_request, close_of, closed, ended, fault_code, forget, fresh, is_open, limits, passing, refused, telling, told_text, took, upgrade_required};
ghost use Rattle.iv_peer.specs.Hearing.{IsHeard, IsServer};
ghost use Rattle.iv_peer.specs.Reading.{IsEnded, IsRead, IsSaidAs};

use httparse::Status;
use httparse::spans::{EMPTY_HEADER_SPAN, parse_request};
use std::alloc::{AllocError, Global};
use std::marker::Model;
use websocket::error::Error;
use websocket::handshake::server::{check_request, write_response};
use websocket::protocol::frame::coding::{Control, Data, OpCode};
use websocket::protocol::frame::{FrameHeader, write_frame};
use websocket::protocol::{
    FrameStatus, Message, NoMask, Role, Step, WebSocketConfig, WebSocketContext,
};

/// Bytes of a message, and of a frame, at most.
const LONGEST: usize = 131_072;

/// Bytes of a request's head that is not whole yet, at most.
const MOST_HEAD: usize = 8192;

/// Bytes of an empty buffer that are kept.
const KEPT: usize = 1024;

/// What the bytes that were read say next.
#[derive(Drop)]
pub enum Heard {
    /// They say no more: more bytes are needed.
    Nothing,
    /// Nothing more is heard. The connection ends when what is pending was sent.
    Over,
    /// A message.
    Text(String),
    /// The handshake, a frame that brings no text, or what ends the connection.
    Other,
}

/// What the message of a frame is.
#[derive(Drop)]
enum Said {
    /// A text.
    Text(String),
    /// A binary message, which nobody expects.
    Binary,
    /// A close.
    Close,
    /// A ping, a pong or a fragment.
    Other,
}

/// What a read of a frame leads to.
#[derive(Drop)]
enum Read {
    /// No whole frame is there.
    Nothing,
    /// A frame.
    Frame(Said),
    /// What is there is no frame.
    Fault(Error),
}

/// Messages of at most `LONGEST` bytes, in masked frames.
fn limits() -> WebSocketConfig
    ensures { result ≡ limits }
{
    WebSocketConfig::default()
        .max_message_size(Some(LONGEST))
        .max_frame_size(Some(LONGEST))
}

/// The message of a frame.
fn said_in(alloc: Global, step: &Step, input: &[u8]) -> Result<Said, AllocError>
    requires inside { IfSome step.now.message (IsReceivedInside input.now) }
    requires text { IfSome step.now.message (λ m. HasValidText (received_content input.now m)) }
    ensures { IfOk result (IsSaidAs (option_map (received_content input.now) step.now.message)) }
{
    match &step.message {
        None => Ok(Said::Other),
        Some(received) => match received.message(input) {
            Message::Text(text) => Ok(Said::Text(String::from_str(alloc, text)?)),
            Message::Binary(_) => Ok(Said::Binary),
            Message::Close(_) => Ok(Said::Close),
            Message::Ping(_) | Message::Pong(_) => Ok(Said::Other),
        },
    }
}

/// The answer to what is no head of a request.
fn bad_request() -> &'static [u8]
    ensures { result.now ≡ bad_request }
{
    b"HTTP/1.1 400 Bad Request\r\nconnection: close\r\ncontent-length: 0\r\n\r\n"
}

/// The answer to a request that asks for no WebSocket.
fn upgrade_required() -> &'static [u8]
    ensures { result.now ≡ upgrade_required }
{
    b"HTTP/1.1 426 Upgrade Required\r\nupgrade: websocket\r\nsec-websocket-version: 13\r\nconnection: close\r\ncontent-length: 0\r\n\r\n"
}

/// The code of a close that tells of an error.
fn fault_code(error: &Error) -> u16
    ensures { result ≡ fault_code error.now }
{
    match error {
        Error::ConnectionClosed => 1000,
        Error::AlreadyClosed | Error::Protocol(_) => 1002,
        Error::Capacity(_) => 1009,
        Error::Utf8 => 1007,
        Error::OutOfMemory => 1011,
    }
}

/// One end of a WebSocket, at a server. It has no socket: its caller reads bytes, and sends what is pending.
#[derive(Drop)]
pub struct Peer {
    /// The allocator of what it makes.
    alloc: Global,
    /// The WebSocket, once the head of the request was read.
    protocol: Option<WebSocketContext>,
    /// Whether nothing is heard any more.
    over: bool,
    /// The bytes that were read and not heard yet.
    input: Vec<u8>,
    /// The bytes that are to be sent.
    output: Vec<u8>,
}

impl Model for Peer {
    ghost use Rattle.std.specs.Prelude.{[]};
    ghost use Rattle.iv_peer.specs.Socket.{Socket};

    ghost Value = { Socket };

    ghost view = { λ p. record { protocol = p.protocol; over = p.over; input = p.input.items; output = p.output.items; read = []; offered = []; sent = []; effects = []; items = [] } };
}

impl Peer {
    /// A connection at which nothing was read or told.
    pub fn new(alloc: Global) -> Peer
        ensures { result ≡ fresh }
    {
        Peer {
            alloc,
            protocol: None,
            over: false,
            input: Vec::new(alloc),
            output: Vec::new(alloc),
        }
    }

    /// Takes in bytes that were read.
    ///
    /// # Errors
    /// `AllocError` if a growth of memory was refused. The peer is not to be used any more, as after each of its errors.
    pub fn take(&mut self, bytes: &[u8]) -> Result<(), AllocError>
        ensures { OnOk result (self.new ≡ forget (took bytes.now self.old)) }
    {
        self.input.extend_from_slice(bytes)?;
        Ok(())
    }

    /// What the bytes say next. The caller asks until that is `Nothing` or `Over`.
    ///
    /// # Errors
    /// As of `take`.
    pub fn hear(&mut self) -> Result<Heard, AllocError>
        ensures { IsServer self.old → IfOk result (λ h. IsHeard h self.old self.new) }
    {
        if self.over {
            return Ok(Heard::Over);
        }
        let heard = match self.protocol {
            None => self.shake()?,
            Some(_) => self.frame()?,
        };
        Ok(heard)
    }

    /// The handshake.
    fn shake(&mut self) -> Result<Heard, AllocError>
        requires protocol { self.old.protocol ≡ None }
        requires lives { self.old.over ≡ false }
        ensures { IfOk result (λ h. IsHeard h self.old self.new) }
    {
        let mut spans = [EMPTY_HEADER_SPAN; 64];
        match parse_request(&self.input, &mut spans) {
            Ok(Status::Complete(head)) => match check_request(&self.input, &head, &spans) {
                Ok(key) => {
                    self.accept(head.len, &key)?;
                    Ok(Heard::Other)
                }
                Err(_) => {
                    self.refuse(upgrade_required())?;
                    Ok(Heard::Other)
                }
            },
            Ok(Status::Partial) => {
                if self.input.len() > MOST_HEAD {
                    self.refuse(bad_request())?;
                    return Ok(Heard::Other);
                }
                Ok(Heard::Nothing)
            }
            Err(_) => {
                self.refuse(bad_request())?;
                Ok(Heard::Other)
            }
        }
    }

    /// Answers a request of as many bytes by a 101.
    fn accept(&mut self, len: usize, key: &[u8; 28]) -> Result<(), AllocError>
        requires { len ≤ length self.old.input }
        ensures { OnOk result (self.new ≡ forget (accepted key.now (drop len self.old.input) self.old)) }
    {
        if write_response(key, &[], &mut self.output).is_err() {
            return Err(AllocError);
        }
        self.drop_front(len);
        self.protocol = Some(WebSocketContext::new(self.alloc, Role::Server, limits()));
        Ok(())
    }

    /// Answers what was read by these bytes, and hears nothing more.
    fn refuse(&mut self, bytes: &[u8]) -> Result<(), AllocError>
        ensures { OnOk result (self.new ≡ forget (refused bytes.now self.old)) }
    {
        self.output.extend_from_slice(bytes)?;
        self.over = true;
        self.input = Vec::new(self.alloc);
        Ok(())
    }

    /// Without the first bytes of the input.
    fn drop_front(&mut self, len: usize)
        requires { len ≤ length self.old.input }
        ensures { self.new ≡ record self.old { input = drop len self.old.input } }
    {
        let _ = self.input.drain(..len);
        self.shrink();
    }

    /// Keeps no large buffer for an input that was used up.
    fn shrink(&mut self)
        ensures { self.new ≡ self.old }
    {
        if self.input.is_empty() {
            self.input = Vec::new(self.alloc);
        }
    }

    /// What a frame brings, if one is there.
    fn read_frame(&mut self) -> Result<Read, AllocError>
        ensures { (conn : Connection) → self.old.protocol ≡ Some conn → conn.role ≡ Role.Server
            → IfOk result (λ r. IsRead (read_step conn self.old.input) r self.old self.new) }
    {
        let Some(socket) = &mut self.protocol else {
            return Ok(Read::Nothing);
        };
        match socket.read(&mut self.input, &mut self.output, &mut NoMask) {
            Ok(FrameStatus::Partial(_)) => Ok(Read::Nothing),
            Ok(FrameStatus::Complete(step)) => {
                let said = said_in(self.alloc, &step, &self.input)?;
                self.drop_front(step.consumed);
                Ok(Read::Frame(said))
            }
            Err(Error::OutOfMemory) => Err(AllocError),
            Err(error) => {
                self.input = Vec::new(self.alloc);
                Ok(Read::Fault(error))
            }
        }
    }

    /// A frame is heard, if one is there.
    fn frame(&mut self) -> Result<Heard, AllocError>
        requires lives { self.old.over ≡ false }
        ensures { (conn : Connection) → self.old.protocol ≡ Some conn → conn.role ≡ Role.Server → IfOk result (λ h. IsHeard h self.old self.new) }
    {
        match self.read_frame()? {
            Read::Nothing => Ok(Heard::Nothing),
            Read::Frame(said) => {
                let heard = self.end_behind(said)?;
                Ok(heard)
            }
            Read::Fault(error) => {
                self.close_by(fault_code(&error))?;
                Ok(Heard::Other)
            }
        }
    }

    /// Nothing more is heard after a close, or a binary message, which is refused.
    fn end_behind(&mut self, said: Said) -> Result<Heard, AllocError>
        ensures { (m : Option Content) → IsSaidAs m said → IfOk result (λ h. IsEnded m h self.old self.new) }
    {
        match said {
            Said::Text(text) => Ok(Heard::Text(text)),
            Said::Binary => {
                self.close_by(1003)?;
                Ok(Heard::Other)
            }
            Said::Close => {
                self.over = true;
                Ok(Heard::Other)
            }
            Said::Other => Ok(Heard::Other),
        }
    }

    /// Closes by a code, and hears nothing more.
    fn close_by(&mut self, code: u16) -> Result<(), AllocError>
        ensures { OnOk result (self.new ≡ forget (telling (answer (close_of code [])) (ended self.old))) }
    {
        write_frame(
            &FrameHeader::new(OpCode::Control(Control::Close), None),
            &code.to_be_bytes(),
            &mut self.output,
        )?;
        self.over = true;
        Ok(())
    }

    /// Whether texts may be told: the handshake is done, and the connection is not over.
    pub fn is_open(&self) -> bool
        ensures { result ≡ is_open self.now }
    {
        self.protocol.is_some() && !self.over
    }

    /// Whether nothing more is heard or told.
    pub fn is_over(&self) -> bool
        ensures { result ≡ self.now.over }
    {
        self.over
    }

    /// Tells a text in one frame, if the connection is open; else nothing.
    ///
    /// # Errors
    /// As of `take`.
    pub fn tell(&mut self, text: &[u8]) -> Result<(), AllocError>
        ensures { OnOk result (self.new ≡ forget (told_text text.now self.old)) }
    {
        if !self.is_open() {
            return Ok(());
        }
        write_frame(
            &FrameHeader::new(OpCode::Data(Data::Text), None),
            text,
            &mut self.output,
        )?;
        Ok(())
    }

    /// Closes the connection by a code and words that tell why, if it is open. Nothing more is heard or told.
    ///
    /// # Errors
    /// As of `take`.
    pub fn close(&mut self, code: u16, words: &[u8]) -> Result<(), AllocError>
        ensures { OnOk result (self.new ≡ forget (closed code words.now self.old)) }
    {
        if self.is_open() {
            let mut payload = Vec::from_array(self.alloc, code.to_be_bytes())?;
            payload.extend_from_slice(words)?;
            write_frame(
                &FrameHeader::new(OpCode::Control(Control::Close), None),
                &payload,
                &mut self.output,
            )?;
        }
        self.over = true;
        Ok(())
    }

    /// Hears and tells nothing more.
    pub fn end(&mut self)
        ensures { self.new ≡ ended self.old }
    {
        self.over = true;
    }

    /// What is to be sent.
    pub fn pending(&self) -> &[u8]
        ensures { result.now ≡ self.now.output }
    {
        &self.output
    }

    /// The first bytes of what was pending were sent, if as many were pending.
    pub fn pass(&mut self, count: usize)
        ensures { self.new ≡ forget (passing count self.old) }
    {
        if count > self.output.len() {
            return;
        }
        if count < self.output.len() {
            let _ = self.output.drain(..count);
        } else if self.output.capacity() > KEPT {
            self.output = Vec::new(self.alloc);
        } else {
            self.output.clear();
        }
    }
}
