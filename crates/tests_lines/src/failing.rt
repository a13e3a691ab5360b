//! Tests with readers and writers of std that fail after each byte and at each call, and that give or take a byte a call.
//! A run is over at the failure, and each of its reads, writes and flushes is one call. No clause sees how often an end of
//! std is called; these tests count the calls.
ghost use Rattle.std.specs.Prelude.{◌<◌};

use crate::replayed::{ANSWERS, Ended, REQUESTS, ended, word_of};
use iv_lines::{FromRead, FromWrite};
use std::alloc::{AllocError, Global};
use std::io;
use std::io::{Read, Write};

/// A reader that gives at most `step` bytes a call, fails at the call of the number `fails_at`, and counts the calls.
#[derive(Drop)]
struct Giver<'a> {
    bytes: &'a [u8],
    step: usize,
    fails_at: usize,
    calls: usize,
}

impl Read for Giver<'_> {
    fn read(&mut self, room: &mut [u8]) -> io::Result<usize> {
        self.calls = self.calls.saturating_add(1);
        if self.calls == self.fails_at {
            return Err(io::Error::from(io::ErrorKind::Interrupted));
        }
        let count = self.bytes.len().min(room.len()).min(self.step);
        room[..count].copy_from_slice(&self.bytes[..count]);
        self.bytes = &self.bytes[count..];
        Ok(count)
    }
}

/// A writer that keeps `step` bytes of a write, and no more than it has space for. After these it fails, or takes none. It fails at the
/// call of the number `fails_at`, too, a write or a flush, and records of each call how many bytes it was given, 0 of a flush.
#[derive(Drop)]
struct Taker {
    kept: Vec<u8>,
    calls: Vec<usize>,
    room: Room,
    fails_at: usize,
}

/// How many bytes a writer takes, how many of them a write, and whether it takes none after these, in place of a failure.
#[derive(Clone, Copy)]
struct Room {
    bytes: usize,
    step: usize,
    takes_none: bool,
}

impl Taker {
    fn call(&mut self, bytes: usize) -> io::Result<()> {
        self.calls.push(bytes)?;
        if self.calls.len() == self.fails_at {
            return Err(io::Error::from(io::ErrorKind::Interrupted));
        }
        Ok(())
    }
}

impl Write for Taker {
    fn write(&mut self, bytes: &[u8]) -> io::Result<usize> {
        self.call(bytes.len())?;
        let count = bytes.len().min(self.room.bytes).min(self.room.step);
        if count == 0 && 0 < bytes.len() && !self.room.takes_none {
            return Err(io::Error::from(io::ErrorKind::StorageFull));
        }
        self.kept.extend_from_slice(&bytes[..count])?;
        self.room.bytes -= count;
        Ok(count)
    }

    fn flush(&mut self) -> io::Result<()> {
        self.call(0)
    }
}

/// What a run is given, by how many bytes a read, which read fails, and which call of the writer; none if it is 0.
#[derive(Clone, Copy)]
struct Given<'a> {
    requests: &'a [u8],
    step: usize,
    read: usize,
    call: usize,
}

/// What a run comes to: how many bytes of the answers are written, and how it ends.
#[derive(Clone, Copy)]
struct Wanted {
    bytes: usize,
    end: &'static str,
}

/// How a run from the one to the other ends.
fn ended_between(
    alloc: Global,
    giver: &mut Giver<'_>,
    taker: &mut Taker,
) -> Result<Ended, AllocError> {
    let mut reader = FromRead::new(giver);
    let mut writer = FromWrite::new(taker);
    ended(alloc, &mut reader, &mut writer, 100)
}

/// Runs what is given into the writer, adds how the run ended, and tells the number of the reader's calls.
fn take(alloc: Global, taker: &mut Taker, given: Given<'_>) -> Result<usize, AllocError> {
    let mut giver = Giver {
        bytes: given.requests,
        step: given.step,
        fails_at: given.read,
        calls: 0,
    };
    let ended = ended_between(alloc, &mut giver, taker)?;
    taker.kept.extend_from_slice(word_of(ended).as_bytes())?;
    Ok(giver.calls)
}

/// A new writer after the run, and the number of the reader's calls.
fn taken(alloc: Global, given: Given<'_>, room: Room) -> Result<(Taker, usize), AllocError> {
    let mut taker = Taker {
        kept: Vec::new(alloc),
        calls: Vec::new(alloc),
        room,
        fails_at: given.call,
    };
    let reads = take(alloc, &mut taker, given)?;
    Ok((taker, reads))
}

/// The bytes of the answers to the first so many requests; the seventh has two lines.
fn front(requests: usize) -> usize {
    let lines = if requests < 7 { requests } else { 8 };
    let mut bytes = 0usize;
    for line in ANSWERS.split_inclusive('\n').take(lines) {
        bytes = bytes.saturating_add(line.len());
    }
    bytes
}

/// What the call of this place is given in a run in which no call fails: for each answer one write of all of it, and one flush.
fn call_at(place: usize) -> usize {
    if place % 2 == 0 {
        front(place / 2 + 1).saturating_sub(front(place / 2))
    } else {
        0
    }
}

/// Whether the calls are the first so many.
fn are_first_calls(calls: &[usize], count: usize) -> bool {
    for place in 0..calls.len() {
        if calls[place] != call_at(place) {
            return false;
        }
    }
    calls.len() == count
}

/// Whether that is written, and then how the run ends.
fn is_written(written: &[u8], wanted: Wanted) -> bool {
    match ANSWERS.as_bytes().get(..wanted.bytes) {
        Some(front) => written.strip_prefix(front) == Some(wanted.end.as_bytes()),
        None => false,
    }
}

/// Space for all.
const ROOM: Room = Room {
    bytes: 4_096,
    step: 4_096,
    takes_none: false,
};

/// Whether a run writes that, whether the calls of the writer are the first so many, and how many the reader has.
fn comes_to(
    alloc: Global,
    given: Given<'_>,
    wanted: Wanted,
    calls: usize,
) -> Result<(bool, bool, usize), AllocError> {
    let (taker, reads) = taken(alloc, given, ROOM)?;
    Ok((
        is_written(&taker.kept, wanted),
        are_first_calls(&taker.calls, calls),
        reads,
    ))
}

/// `first_change`, from a reader of `step` bytes a call.
fn first_change(step: usize, call: usize) -> Given<'static> {
    Given {
        requests: REQUESTS.as_bytes(),
        step,
        read: 0,
        call,
    }
}

/// The first number of bytes a read with which a run has other calls. The 425 bytes of the requests come in one read of up to 4,096, and
/// the next read tells their end.
fn first_step_of_other_calls(alloc: Global) -> Option<usize> {
    let wanted = Wanted {
        bytes: ANSWERS.len(),
        end: "end of input",
    };
    for (step, reads) in [(4096usize, 2usize), (425, 2), (424, 3), (85, 6), (1, 426)] {
        if comes_to(alloc, first_change(step, 0), wanted, 14) != Ok((true, true, reads)) {
            return Some(step);
        }
    }
    None
}

#[test]
fn each_call_is_made_once(rt: HostRuntime) {
    assert_eq!(rt; first_step_of_other_calls(rt.alloc()), None);
}

/// The first call of the writer after whose failure another call is made, or what it was given is taken.
fn first_call_that_goes_on(alloc: Global) -> Option<usize> {
    for call in 1..15usize {
        let wanted = Wanted {
            bytes: front(call / 2),
            end: "write failed",
        };
        if comes_to(alloc, first_change(4096, call), wanted, call) != Ok((true, true, 1)) {
            return Some(call);
        }
    }
    None
}

#[test]
fn a_writer_fails_once(rt: HostRuntime) {
    assert_eq!(rt; first_call_that_goes_on(rt.alloc()), None);
}

/// How many of the bytes are newlines.
fn newlines(bytes: &[u8]) -> usize {
    bytes.iter().filter(|byte| **byte == b'\n').count()
}

/// Whether a run to which a reader of `step` bytes a call gives these, and then fails, answers the whole lines, and makes no call after
/// that.
fn breaks_off(alloc: Global, requests: &[u8], step: usize) -> bool
    requires { 0 < step }
{
    let read = requests.len().div_ceil(step).saturating_add(1);
    let given = Given {
        requests,
        step,
        read,
        call: 0,
    };
    let lines = newlines(requests);
    let wanted = Wanted {
        bytes: front(lines),
        end: "read failed",
    };
    comes_to(alloc, given, wanted, lines.saturating_mul(2)) == Ok((true, true, read))
}

/// The first number of bytes after which a reader fails and the run goes on.
fn first_read_that_goes_on(alloc: Global) -> Option<usize> {
    let bytes = REQUESTS.as_bytes();
    for k in 0..bytes.len() + 1 {
        let (front, _) = bytes.split_at(k);
        for step in [1usize, 7, 4096] {
            if !breaks_off(alloc, front, step) {
                return Some(k);
            }
        }
    }
    None
}

#[test]
fn readers_break_off(rt: HostRuntime) {
    assert_eq!(rt; first_read_that_goes_on(rt.alloc()), None);
}

/// Whether a writer of this space has just the bytes that it takes, and the run fails after them, if there is no space for all.
fn is_filled(alloc: Global, room: Room) -> bool {
    let wanted = Wanted {
        bytes: room.bytes,
        end: if room.bytes < ANSWERS.len() {
            "write failed"
        } else {
            "end of input"
        },
    };
    match taken(alloc, first_change(4096, 0), room) {
        Ok((taker, _)) => is_written(&taker.kept, wanted),
        Err(_) => false,
    }
}

/// The first number of bytes with space for which a writer has others.
fn first_unfilled(alloc: Global) -> Option<usize> {
    for bytes in 0..ANSWERS.len() + 1 {
        for (step, takes_none) in [(1usize, false), (4096, false), (4096, true)] {
            let room = Room {
                bytes,
                step,
                takes_none,
            };
            if !is_filled(alloc, room) {
                return Some(bytes);
            }
        }
    }
    None
}

#[test]
fn writers_break_off(rt: HostRuntime) {
    assert_eq!(rt; first_unfilled(rt.alloc()), None);
}
