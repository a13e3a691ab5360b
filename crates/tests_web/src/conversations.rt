//! `conversations_are_answered`, `heads_are_refused`, `texts_are_told`: what a browser's bytes are to a server, and what it is answered.
ghost use Rattle.std.specs.Prelude.{◌<◌};

use crate::texts::{bytes_of, cell, is_comment};
use iv_peer::{Heard, Peer};
use std::alloc::{AllocError, Global};

/// The request of RFC 6455, section 1.2, with the key of section 1.3.
const REQUEST: &[u8] =
    b"GET /chat HTTP/1.1\r\nHost: server.example.com\r\nUpgrade: websocket\r\nConnection: Upgrade\r\nSec-WebSocket-Key: dGhlIHNhbXBsZSBub25jZQ==\r\nOrigin: http://example.com\r\nSec-WebSocket-Version: 13\r\n\r\n";

/// Its answer, with the key of section 1.3.
const ANSWER: &[u8] =
    b"HTTP/1.1 101 Switching Protocols\r\nconnection: Upgrade\r\nupgrade: websocket\r\nsec-websocket-accept: s3pPLMBiTxaQ9kYGzzhZRbK+xOo=\r\n\r\n";

const UPGRADE: &[u8] =
    b"HTTP/1.1 426 Upgrade Required\r\nupgrade: websocket\r\nsec-websocket-version: 13\r\nconnection: close\r\ncontent-length: 0\r\n\r\n";

const BAD: &[u8] = b"HTTP/1.1 400 Bad Request\r\nconnection: close\r\ncontent-length: 0\r\n\r\n";

/// Frames after the handshake, what is heard of them, and what is answered. Of what is heard `<..>` is a text, `-` another thing, and `.`
/// that nothing more is. A mask of zeros changes nothing.
const FRAMES: &str = r#"||
# section 5.7: a masked text; a ping, and its pong
\x81\x85\x37\xfa\x21\x3d\x7f\x9f\x4d\x51\x58|<Hello>|
\x89\x85\x37\xfa\x21\x3d\x7f\x9f\x4d\x51\x58|-|\x8a\x05Hello
\x81\x82\0\0\0\0{}\x81\x82\0\0\0\0[]|<{}><[]>|
\x81\x80\0\0\0\0|<>|
# a text in two fragments, with a ping between them; a pong that nobody asked for
\x01\x83\0\0\0\0Hel\x89\x81\0\0\0\0p\x80\x82\0\0\0\0lo|--<Hello>|\x8a\x01p
\x8a\x80\0\0\0\0|-|
# a letter of two bytes in two fragments
\x01\x81\0\0\0\0\xc3\x80\x81\0\0\0\0\xa9|-<é>|
# a close is answered by the same, and nothing more is heard
\x88\x82\0\0\0\0\x03\xe8\x81\x80\0\0\0\0|-.|\x88\x02\x03\xe8
\x88\x80\0\0\0\0|-.|\x88\0
# a close with a code that may not be sent, with half a code, with words that are no UTF-8
\x88\x82\0\0\0\0\x03\xed|-.|\x88\x14\x03\xeaProtocol violation
\x88\x81\0\0\0\0\x03|-.|\x88\x02\x03\xea
\x88\x83\0\0\0\0\x03\xe8\xff|-.|\x88\x02\x03\xef
# a binary message
\x82\x81\0\0\0\0x|-.|\x88\x02\x03\xeb
# faults: no mask, a reserved bit, a reserved opcode, a continuation of nothing, a text within a text
\x81\x05Hello|-.|\x88\x02\x03\xea
\xc1\x80\0\0\0\0|-.|\x88\x02\x03\xea
\x83\x80\0\0\0\0|-.|\x88\x02\x03\xea
\x8b\x80\0\0\0\0|-.|\x88\x02\x03\xea
\x80\x80\0\0\0\0|-.|\x88\x02\x03\xea
\x01\x81\0\0\0\0a\x81\x81\0\0\0\0b|--.|\x88\x02\x03\xea
# a ping in fragments, and one that is too long
\x09\x80\0\0\0\0|-.|\x88\x02\x03\xea
\x89\xfe\0\x7e\0\0\0\0xxxxxxxxxxxxxxxxxxxxxxxxxxxxxxxxxxxxxxxxxxxxxxxxxxxxxxxxxxxxxxxxxxxxxxxxxxxxxxxxxxxxxxxxxxxxxxxxxxxxxxxxxxxxxxxxxxxxxxxxxxxxxx|-.|\x88\x02\x03\xea
# a length that is not in its shortest form
\x81\xfe\0\x05\0\0\0\0Hello|-.|\x88\x02\x03\xea
# texts that are no UTF-8, one of them in a fragment that nothing can mend
\x81\x81\0\0\0\0\xff|-.|\x88\x02\x03\xef
\x01\x81\0\0\0\0\xff|-.|\x88\x02\x03\xef
# a frame of 131,073 bytes
\x81\xff\0\0\0\0\0\x02\0\x01\0\0\0\0|-.|\x88\x02\x03\xf1
# what is no whole frame is waited for
\x81\x85\0\0\0\0Hel||"#;

/// Heads that are refused, or waited for, and the answers: UPGRADE, BAD, or none.
const HEADS: &str = r#"GET / HTTP/1.1\r\nHost: a\r\n\r\n|upgrade
POST /chat HTTP/1.1\r\nUpgrade: websocket\r\nConnection: Upgrade\r\nSec-WebSocket-Key: dGhlIHNhbXBsZSBub25jZQ==\r\nSec-WebSocket-Version: 13\r\n\r\n|upgrade
GET /chat HTTP/1.1\r\nUpgrade: websocket\r\nConnection: Upgrade\r\nSec-WebSocket-Key: dGhlIHNhbXBsZSBub25jZQ==\r\nSec-WebSocket-Version: 8\r\n\r\n|upgrade
GET /chat HTTP/1.1\r\nUpgrade: websocket\r\nConnection: Upgrade\r\nSec-WebSocket-Key: AQID\r\nSec-WebSocket-Version: 13\r\n\r\n|upgrade
\x16\x03\x01\x02\0|bad
GET /\0 HTTP/1.1\r\n\r\n|bad
GET / HTTP/2.0\r\n\r\n|bad
GET /chat HTTP/1.1\r\nUpgrade: websocket\r\n|"#;

/// Adds what is heard next, until nothing is. Whether there was memory for it.
fn hear_all(peer: &mut Peer, heard: &mut String) -> bool {
    for _ in 0..100 {
        let is_added = match peer.hear() {
            Ok(Heard::Nothing) => return true,
            Ok(Heard::Over) => return heard.push_str(".").is_ok(),
            Ok(Heard::Text(text)) => push_text(heard, text.as_str()).is_ok(),
            Ok(Heard::Other) => heard.push_str("-").is_ok(),
            Err(_) => false,
        };
        if !is_added {
            return false;
        }
    }
    false
}

fn push_text(heard: &mut String, text: &str) -> Result<(), AllocError> {
    heard.push_str("<")?;
    heard.push_str(text)?;
    heard.push_str(">")
}

/// Has the peer take bytes in pieces of this length, until nothing more is heard, and adds what is heard. Whether there was memory for it.
fn play(peer: &mut Peer, bytes: &[u8], piece: usize, heard: &mut String) -> bool
    requires { 0 < piece }
{
    for part in bytes.chunks(piece) {
        if !peer.is_over() && !(peer.take(part).is_ok() && hear_all(peer, heard)) {
            return false;
        }
    }
    true
}

/// Whether the handshake is answered, and that passes.
fn opens(peer: &mut Peer, piece: usize, heard: &mut String) -> bool
    requires { 0 < piece }
{
    let is_played = play(peer, REQUEST, piece, heard);
    let is_open = is_played && peer.is_open() && heard.as_str() == "-" && peer.pending() == ANSWER;
    peer.pass(ANSWER.len());
    heard.clear();
    is_open
}

/// Whether frames after the handshake are heard so, and answered so.
fn answers(
    peer: &mut Peer,
    frames: &[u8],
    says: &str,
    answer: &[u8],
    piece: usize,
    heard: &mut String,
) -> bool
    requires { 0 < piece }
{
    let is_played = opens(peer, piece, heard) && play(peer, frames, piece, heard);
    is_played && heard.as_str() == says && peer.pending() == answer
}

/// The same of a new peer and the line.
fn is_answered(alloc: Global, line: &str, piece: usize) -> Result<bool, AllocError>
    requires { 0 < piece }
{
    let frames = bytes_of(alloc, cell(line, 0))?;
    let answer = bytes_of(alloc, cell(line, 2))?;
    let mut heard = String::new(alloc);
    let mut peer = Peer::new(alloc);
    let is = answers(
        &mut peer,
        &frames,
        cell(line, 1),
        &answer,
        piece,
        &mut heard,
    );
    drop(peer);
    Ok(is)
}

/// The first line that is not answered so if its bytes come in pieces of this length.
fn first_other(alloc: Global, piece: usize) -> &'static str
    requires { 0 < piece }
{
    for line in FRAMES.lines() {
        if !is_comment(line) && is_answered(alloc, line, piece) != Ok(true) {
            return line;
        }
    }
    "none"
}

/// The handshake and the frames come at once, and one byte after another.
#[test]
fn conversations_are_answered(rt: HostRuntime) {
    let others = [first_other(rt.alloc(), 4096), first_other(rt.alloc(), 1)];
    assert_eq!(rt; others, ["none", "none"]);
}

/// What a word for an answer stands for.
fn refusal(word: &str) -> &'static [u8] {
    match word {
        "upgrade" => UPGRADE,
        "bad" => BAD,
        _ => b"",
    }
}

/// Whether the head is answered so, and the connection is over then. Nothing is told before the handshake, nor after its refusal.
fn refuses(peer: &mut Peer, head: &[u8], wanted: &[u8], heard: &mut String) -> bool {
    let is_played = play(peer, head, 1000, heard);
    let is = is_played && peer.pending() == wanted && peer.is_over() != wanted.is_empty();
    let is_told = peer.tell(b"secret").is_ok() && peer.close(1000, b"").is_ok();
    is && is_told && peer.pending() == wanted
}

/// The same of a new peer.
fn is_refused(alloc: Global, head: &[u8], wanted: &[u8]) -> bool {
    let mut heard = String::new(alloc);
    let mut peer = Peer::new(alloc);
    let is = refuses(&mut peer, head, wanted, &mut heard);
    drop(peer);
    is
}

/// The same of a line.
fn is_so(alloc: Global, line: &str) -> Result<bool, AllocError> {
    let head = bytes_of(alloc, cell(line, 0))?;
    Ok(is_refused(alloc, &head, refusal(cell(line, 1))))
}

/// The first line that is not refused so.
fn first_unlike(alloc: Global) -> &'static str {
    for line in HEADS.lines() {
        if is_so(alloc, line) != Ok(true) {
            return line;
        }
    }
    "none"
}

/// Whether a head without an end, of so many bytes, is answered so.
fn is_endless(alloc: Global, length: usize, wanted: &[u8]) -> Result<bool, AllocError> {
    let mut head = Vec::new(alloc);
    head.extend_from_slice(b"GET / HTTP/1.1\r\na: ")?;
    head.resize(length, b'x')?;
    Ok(is_refused(alloc, &head, wanted))
}

/// Whether such a head is waited for, and, once it is too long, refused.
fn are_endless(alloc: Global) -> Result<[bool; 2], AllocError> {
    let waited = is_endless(alloc, 8_019, b"")?;
    Ok([waited, is_endless(alloc, 9_019, BAD)?])
}

#[test]
fn heads_are_refused(rt: HostRuntime) {
    let seen = (first_unlike(rt.alloc()), are_endless(rt.alloc()));
    assert_eq!(rt; seen, ("none", Ok([true, true])));
}

/// Whether two texts are told, and then as much of them as is not passed.
fn tells(peer: &mut Peer) -> bool {
    let are_told = peer.tell(b"Hello").is_ok() && peer.tell(b"{}").is_ok();
    let told = are_told && peer.pending() == b"\x81\x05Hello\x81\x02{}".as_slice();
    peer.pass(3);
    peer.pass(100);
    told && peer.pending() == b"ello\x81\x02{}".as_slice()
}

/// Whether a close is told after these, and nothing after it, nor is anything heard.
fn closes(peer: &mut Peer, heard: &mut String) -> bool {
    let is_closed = peer.close(4401, b"no such token").is_ok() && peer.tell(b"more").is_ok();
    let is_over = is_closed && peer.close(1000, b"").is_ok();
    let told = b"ello\x81\x02{}\x88\x0f\x11\x31no such token".as_slice();
    let is_told = is_over && peer.pending() == told;
    let is_taken = is_told && peer.take(b"\x81\x80\0\0\0\0").is_ok() && hear_all(peer, heard);
    is_taken && heard.as_str() == "."
}

/// Whether a new peer does both after its handshake.
fn are_told(alloc: Global) -> bool {
    let mut heard = String::new(alloc);
    let mut peer = Peer::new(alloc);
    let are = opens(&mut peer, 4096, &mut heard)
        && tells(&mut peer)
        && closes(&mut peer, &mut heard);
    drop(peer);
    are
}

#[test]
fn texts_are_told(rt: HostRuntime) {
    assert!(rt; are_told(rt.alloc()));
}
