//! `Watched`: an end of std, each read, write and flush of which is counted.
//!
//! The bound on reads speaks of a source that counts its reads. std's clauses do not say how often a reader or a
//! writer is called, so no contract over `Read` and `Write` can: a body that calls twice meets what one that calls once meets. Of the
//! three one-line calls here tests show it, by ends that count their calls and fail once at each in turn (a write or a
//! flush tried again, a flush that does nothing, a read of no bytes before each read fail there). Everything above them
//! is refused by the prover if it calls twice, swallows an error or leaves a flush out. A token that each call uses
//! up would change nothing: whoever holds it can call twice after it.
ghost use Rattle.std.specs.Prelude.{◌≡◌, ◌≤◌, ◌+◌, ◌||◌, true, false, length, IfOk, OnOk, is_err};
ghost use Rattle.std.specs.Io.KnownBytes.{Keeps, ReadConsumes, WriteAppends};
ghost use Rattle.iv_lines.specs.Calls.{unused};

use crate::calls::Calls;
use std::io;
use std::io::{Read, Write};
use std::marker::Model;

/// An end of std. Contracts see it, how many calls were made of it, whether one has failed, and whether it is flushed.
#[derive(Drop)]
pub struct Watched<E> {
    /// The end of std.
    end: E,
    /// How many calls were made of it.
    calls: Calls,
    /// Whether a call has failed.
    failed: bool,
    /// Whether nothing was written since the last flush.
    flushed: bool,
}

impl<E> Model for Watched<E> {
    ghost use Rattle.iv_lines.specs.Calls.{Watch};

    ghost Value = { Watch E };

    ghost view = { λ w. record { end = w.end; calls = w.calls; failed = w.failed; flushed = w.flushed } };
}

impl<E> Watched<E> {
    /// An end of std before any call: each is counted from now on.
    pub fn new(end: E) -> Watched<E>
        ensures { result ≡ unused end }
    {
        Watched {
            end,
            calls: Calls::none(),
            failed: false,
            flushed: true,
        }
    }
}

impl<R: Read> Watched<R> {
    /// One read of std's reader, which is counted.
    pub fn read(&mut self, room: &mut [u8]) -> io::Result<usize>
        ensures bound { IfOk result (λ n. n ≤ length room.new) }
        ensures bytes { ReadConsumes (R.remaining self.old.end) (R.remaining self.new.end) result room.new }
        ensures called { self.new.calls ≡ self.old.calls + 1 }
        ensures failed { self.new.failed ≡ (self.old.failed || is_err result) }
    {
        let count = self.end.read(room);
        self.calls.add_one();
        self.failed = self.failed || count.is_err();
        count
    }
}

impl<W: Write> Watched<W> {
    /// One write of std's writer, which is counted.
    pub fn write(&mut self, bytes: &[u8]) -> io::Result<usize>
        ensures bound { IfOk result (λ n. n ≤ length bytes.now) }
        ensures bytes { WriteAppends (W.contents self.old.end) (W.contents self.new.end) result bytes.now }
        ensures called { self.new.calls ≡ self.old.calls + 1 }
        ensures failed { self.new.failed ≡ (self.old.failed || is_err result) }
        ensures flushed { self.new.flushed ≡ false }
    {
        let count = self.end.write(bytes);
        self.calls.add_one();
        self.failed = self.failed || count.is_err();
        self.flushed = false;
        count
    }

    /// One flush of std's writer, which is counted.
    pub fn flush(&mut self) -> io::Result<()>
        ensures bytes { Keeps (W.contents self.old.end) (W.contents self.new.end) }
        ensures called { self.new.calls ≡ self.old.calls + 1 }
        ensures failed { self.new.failed ≡ (self.old.failed || is_err result) }
        ensures flushed { OnOk result (self.new.flushed ≡ true) }
    {
        let done = self.end.flush();
        self.calls.add_one();
        self.failed = self.failed || done.is_err();
        self.flushed = done.is_ok();
        done
    }
}
