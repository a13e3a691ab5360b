//! `Keeper`: a journal with its audit on a disk. After a failure it writes nothing more.
//!
//! What `append` promises is proved over any disk that tells its bytes. A real file tells none, so of one it is shown by kills and a full disk.
ghost use Rattle.std.specs.Prelude.{◌≡◌, ◌≤◌, ◌<◌, ◌++◌, ℕ, [], IfOk, IfSome, List, None, OnErr, OnOk, false, length, option_map, take, true};
ghost use Rattle.iv_audit.specs.Reading.{IsAudit, lines_in};
ghost use Rattle.iv_disk.specs.Kept.{GoesOnNoted, IsJournalTo, given_to, is_whole};

use crate::disk::{Disk, cut_synced, put};
use iv_audit::laws::{bytes_have_lines, journals_go_on_by_lines};
use iv_audit::{Audit, Share, WriteFault, push_head, push_records};
use iv_journal::{Chain, Line};
use std::alloc::{AllocError, Global};
use std::io;

/// Why a journal is not kept.
#[derive(Debug, Drop)]
pub enum KeepFault {
    /// A growth of memory was refused.
    Memory,
    /// A line that was given begins as a note does, has a newline or a zero byte, or is too long.
    NotLines,
    /// It failed before.
    Failed,
    /// The system refused.
    System(io::Error),
}

impl From<io::Error> for KeepFault {
    fn from(error: io::Error) -> KeepFault {
        KeepFault::System(error)
    }
}

impl From<AllocError> for KeepFault {
    fn from(_: AllocError) -> KeepFault {
        KeepFault::Memory
    }
}

impl From<WriteFault> for KeepFault {
    fn from(fault: WriteFault) -> KeepFault {
        match fault {
            WriteFault::Memory => KeepFault::Memory,
            WriteFault::NotLines => KeepFault::NotLines,
        }
    }
}

/// A journal with its audit on a disk.
#[derive(Drop)]
pub struct Keeper<D: Disk> {
    /// The disk with the journal.
    disk: D,
    /// Where the journal ends.
    chain: Chain,
    /// Whether a step failed, after which nothing more is written.
    failed: bool,
    ghost whole: { failed ≡ false → is_whole (D.held disk) ≡ true },
}

/// Writes a head to a disk that has nothing. Answers where it ends.
fn begin_anew<D: Disk>(alloc: Global, disk: &mut D, epoch: &[u8; 32]) -> Result<Chain, KeepFault>
    requires { IfSome (D.held disk.old) (λ bytes. bytes ≡ []) }
    ensures stands { IfOk result (λ chain. IfSome (D.held disk.new) (IsJournalTo chain)) }
    ensures none { OnOk result (IfSome (D.held disk.new) (λ bytes. lines_in bytes ≡ [])) }
    ensures synced { OnOk result (D.synced disk.new ≡ D.held disk.new) }
    ensures silent { D.held disk.old ≡ None → D.held disk.new ≡ None }
{
    bytes_have_lines();
    let mut chain = Chain::new();
    let mut out = Vec::new(alloc);
    push_head(alloc, &mut chain, &mut out, epoch)?;
    put(disk, &out)?;
    Ok(chain)
}

/// Cuts a disk after whole records. Answers where they end, or writes a head if there are none.
fn begin<D: Disk>(
    alloc: Global,
    disk: &mut D,
    audit: &Audit<'_>,
    epoch: &[u8; 32],
) -> Result<Chain, KeepFault>
    requires { IfSome (D.held disk.old) (λ bytes. IsAudit bytes audit.now) }
    ensures stands { IfOk result (λ chain. IfSome (D.held disk.new) (IsJournalTo chain)) }
    ensures kept { OnOk result (IfSome (D.held disk.new) (λ bytes. lines_in bytes ≡ audit.now.lines.items)) }
    ensures whole { OnOk result (is_whole (D.held disk.new) ≡ true) }
    ensures synced { OnOk result (D.synced disk.new ≡ D.held disk.new) }
    ensures silent { D.held disk.old ≡ None → D.held disk.new ≡ None }
{
    bytes_have_lines();
    journals_go_on_by_lines();
    cut_synced(disk, audit.end.length as u64)?;
    if audit.end.lines == 0 {
        let chain = begin_anew(alloc, disk, epoch)?;
        return Ok(chain);
    }
    Ok(Chain::behind(audit.end.digest))
}

impl<D: Disk + Drop> Keeper<D> {
    /// The journal on a disk that this was read of: what follows whole records is cut, a head of 32 digits that no other journal has is
    /// written if there is none, and all of it is synced.
    ///
    /// # Errors
    /// `Memory` if a growth of memory was refused; `NotLines` if the digits are no text; `System` if the system refuses.
    pub fn begin(
        alloc: Global,
        disk: D,
        audit: &Audit<'_>,
        epoch: &[u8; 32],
    ) -> Result<Keeper<D>, KeepFault>
        requires { IfSome (D.held disk) (λ bytes. IsAudit bytes audit.now) }
        ensures kept { IfOk result (λ k. IfSome (D.held k.disk) (λ bytes. lines_in bytes ≡ audit.now.lines.items)) }
        ensures synced { IfOk result (λ k. D.synced k.disk ≡ D.held k.disk) }
        ensures stands { IfOk result (λ k. IfSome (D.held k.disk) (IsJournalTo k.chain)) }
        ensures sound { IfOk result (λ k. k.failed ≡ false) }
    {
        let mut disk = disk;
        let chain = begin(alloc, &mut disk, audit, epoch)?;
        Ok(Keeper {
            disk,
            chain,
            failed: false,
        })
    }

    /// How many bytes the disk has.
    ///
    /// # Errors
    /// If the system refuses.
    pub fn length(&self) -> io::Result<u64>
        ensures { IfOk result (λ n. IfSome (D.held self.now.disk) (λ bytes. n ≡ length bytes)) }
    {
        let length = self.disk.length()?;
        Ok(length)
    }

    /// Appends the lines of a gateway, each request with a note of the second, in seconds since 1970, and of who held the token by which it was
    /// made, as the shares tell, and syncs. Answers how many bytes the disk has more.
    ///
    /// # Errors
    /// As of `begin`; `Failed` if it failed before. Nothing is to stay of what could not be written whole; if that fails too, the next start
    /// cuts what is torn. Nothing more is written then.
    pub fn append(
        &mut self,
        alloc: Global,
        second: u64,
        shares: &[Share],
        lines: &[Line<'_>],
    ) -> Result<usize, KeepFault>
        ensures appended { OnOk result (given_to (D.held self.new.disk) ≡ option_map (λ ls. ls ++ lines.now) (given_to (D.held self.old.disk))) }
        ensures torn { OnErr result ((n : ℕ) × (n ≤ length lines.now)
            × (given_to (D.held self.new.disk) ≡ option_map (λ ls. ls ++ take n lines.now) (given_to (D.held self.old.disk)))) }
        ensures noted { OnOk result (GoesOnNoted second shares.now lines.now self.old.chain self.new.chain (D.held self.old.disk) (D.held self.new.disk)) }
        ensures stands { OnOk result (IfSome (D.held self.old.disk) (IsJournalTo self.old.chain) → IfSome (D.held self.new.disk) (IsJournalTo self.new.chain)) }
        ensures synced { OnOk result (D.synced self.new.disk ≡ D.held self.new.disk) }
        ensures fails { OnErr result (self.new.failed ≡ true) }
        ensures over { self.old.failed ≡ true → self.new ≡ self.old }
    {
        if self.failed {
            return Err(KeepFault::Failed);
        }
        journals_go_on_by_lines();
        self.failed = true;
        let mut out = Vec::new(alloc);
        push_records(
            alloc,
            &mut self.chain,
            &mut out,
            Some(second),
            shares,
            lines,
        )?;
        put(&mut self.disk, &out)?;
        self.failed = false;
        Ok(out.len())
    }
}
