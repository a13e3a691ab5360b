//! `Journal`: where accepted requests are kept.
ghost use Rattle.std.specs.Prelude.{◌≡◌, ◌≤◌, ◌++◌, ℕ, List, OnErr, OnOk, Option, length, option_map, take};
ghost use Rattle.iv_journal.specs.Journal.{Line};

use iv_records::OwnedLine;

/// The journal could not be written.
#[derive(Clone, Copy, Debug, PartialEq, Eq)]
pub struct JournalFault;

/// Where accepted requests are kept.
pub trait Journal {
    /// The lines that it was given, if it tells them.
    ghost kept: { Self → Option (List Line) };

    /// Appends lines, whole records. They are on disk when it returns.
    ///
    /// # Errors
    /// If the system fails. A front of the lines may be there then, of which whole records are read, and nobody may be told of them.
    fn append(&mut self, lines: &[OwnedLine]) -> Result<(), JournalFault>
        ensures appended { OnOk result (kept self.new ≡ option_map (λ ls. ls ++ lines.now) (kept self.old)) }
        ensures torn { OnErr result ((n : ℕ) × (n ≤ length lines.now) × (kept self.new ≡ option_map (λ ls. ls ++ take n lines.now) (kept self.old))) };
}
