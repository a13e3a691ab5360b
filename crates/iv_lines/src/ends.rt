//! `Source` and `Sink`: what bytes are read from and written to; `write_all`.
ghost use Rattle.std.specs.Prelude.{◌≡◌, ◌≤◌, ◌<◌, ◌+◌, ◌||◌, ℕ, List, Bool, Option, true, length, take, IfOk, OnOk, OnErr, is_err};
ghost use Rattle.std.specs.Io.KnownBytes.{Appends, Keeps, ReadConsumes, WriteAppends};
ghost use Rattle.iv_lines.specs.Moments.{Moment, IsMoment, ReadsAt};

/// A read, a write or a flush has failed.
#[derive(Clone, Copy, Debug, PartialEq, Eq)]
pub struct EndFault;

/// What bytes are read from.
pub trait Source {
    /// The bytes that are left, if the end tells them.
    ghost left: { Self → Option (List ℕ) };

    /// Whether it has failed.
    ghost has_failed: { Self → Bool };

    /// How many reads were made, if the end counts them.
    ghost reads: { Self → ℕ };

    /// At which moments it was read, if the end tells them.
    ghost moments: { Self → List Moment };

    /// Reads some bytes from the source, whose answers go to the writer. It answers 0 only if there is no space or no byte
    /// is left. The writer is not touched: contracts see what it had taken when the source was read.
    ///
    /// # Errors
    /// If the end fails. What is left is as it was.
    fn read<W: Sink>(&mut self, room: &mut [u8], writer: &W) -> Result<usize, EndFault>
        ensures bound { IfOk result (λ n. n ≤ length room.new) }
        ensures bytes { ReadConsumes (left self.old) (left self.new) result room.new }
        ensures failed { has_failed self.new ≡ (has_failed self.old || is_err result) }
        ensures counted { reads self.new ≤ reads self.old + 1 }
        ensures moment { ReadsAt (IsMoment (left self.old) (W.taken writer.now) (W.is_flushed writer.now))
            (moments self.old) (moments self.new) };
}

/// What bytes are written to.
pub trait Sink {
    /// The bytes that were taken, if the end tells them.
    ghost taken: { Self → Option (List ℕ) };

    /// Whether it has failed.
    ghost has_failed: { Self → Bool };

    /// Whether all that was taken is flushed.
    ghost is_flushed: { Self → Bool };

    /// How many writes and flushes were made, if the end counts them.
    ghost calls: { Self → ℕ };

    /// Takes a front of the bytes into the sink, at least one if there is one.
    ///
    /// # Errors
    /// If the end fails. What was taken is as it was.
    fn write(&mut self, bytes: &[u8]) -> Result<usize, EndFault>
        ensures bound { IfOk result (λ n. n ≤ length bytes.now) }
        ensures some { IfOk result (λ n. 0 < length bytes.now → 0 < n) }
        ensures bytes { WriteAppends (taken self.old) (taken self.new) result bytes.now }
        ensures failed { has_failed self.new ≡ (has_failed self.old || is_err result) }
        ensures counted { calls self.new ≤ calls self.old + 1 };

    /// Passes on all that the sink has taken.
    ///
    /// # Errors
    /// If the end fails.
    fn flush(&mut self) -> Result<(), EndFault>
        ensures bytes { Keeps (taken self.old) (taken self.new) }
        ensures flushed { OnOk result (is_flushed self.new ≡ true) }
        ensures failed { has_failed self.new ≡ (has_failed self.old || is_err result) }
        ensures counted { calls self.new ≤ calls self.old + 1 };
}

/// Writes all the bytes to a sink.
///
/// # Errors
/// If the end fails. A front of the bytes was taken then.
pub fn write_all<W: Sink>(writer: &mut W, bytes: &[u8]) -> Result<(), EndFault>
    ensures ok { OnOk result (Appends (W.taken writer.old) (W.taken writer.new) bytes.now) }
    ensures err { OnErr result ((n : ℕ) × Appends (W.taken writer.old) (W.taken writer.new) (take n bytes.now)) }
    ensures failed { W.has_failed writer.new ≡ (W.has_failed writer.old || is_err result) }
{
    let mut at = 0;
    while at < bytes.len() {
        at += writer.write(&bytes[at..])?;
    }
    Ok(())
}
