//! `Names`: what is kept of requests with names, and what becomes of one more; `Limits`, what bounds them, and the usual `LIMITS`.
ghost use Rattle.std.specs.Prelude.{◌≡◌, ◌+◌, ◌||◌, ◌&&◌, ℕ, List, [], IfOk, OnOk, IfNone, IfSome, Option, None, Some, nat_le, nat_lt, not, option_map, slice_get};
ghost use Rattle.iv_once.specs.Names.{begun, by_found, by_place, find_named, is_new, is_over, named, own_of, pushed, renewed, verdict, with_own};
ghost use Rattle.iv_once.specs.Runs.{nothing_known, unspent};
ghost use Rattle.iv_once.specs.Views.{limits_of, names_of, verdict_of};

use crate::asks::{Ask, Named, Verdict};
use crate::owns::{Own, blame, own_put, push_own, renew_own, spent_by};
use std::alloc::{AllocError, Global};
use std::collections::BTreeMap;

/// What bounds the names.
#[derive(Clone, Copy)]
pub struct Limits {
    /// How many entries of each holder are kept, the latest.
    pub names: usize,
    /// How many entries of refused requests, or of new epochs, each holder may add until refusals are forgiven.
    pub refusals: u64,
    /// How many holders may have names.
    pub holders: usize,
}

/// 64 entries of each holder, 64 refusals until they are forgiven, and 4,096 holders.
pub const LIMITS: Limits = Limits {
    names: 64,
    refusals: 64,
    holders: 4096,
};

/// What is kept of requests with names.
#[derive(Drop)]
pub struct Names {
    /// The allocator of what it makes.
    alloc: Global,
    /// How much is kept.
    limits: Limits,
    /// The epoch of holders who come now.
    epoch: String,
    /// What is kept of each holder.
    owns: BTreeMap<String, Own>,
    /// How many entries each holder has added that count as refusals.
    spent: BTreeMap<String, u64>,
}

impl Names {
    /// The names of a journal with no entry, in an epoch: 128 random bits that nobody drew before.
    ///
    /// # Errors
    /// `AllocError` if a growth of memory was refused.
    pub fn new(alloc: Global, limits: Limits, epoch: &str) -> Result<Names, AllocError>
        ensures { IfOk result (λ n. names_of n ≡ record { limits = limits_of limits; known = nothing_known epoch.now; spent = unspent }) }
    {
        Ok(Names {
            alloc,
            limits,
            epoch: String::from_str(alloc, epoch)?,
            owns: BTreeMap::new(alloc),
            spent: BTreeMap::new(alloc),
        })
    }

    /// The epoch of the holder: with `count` its place, which clients are told, and send with a name.
    pub fn epoch(&self, holder: &str) -> &str
        ensures { result.now ≡ (own_of (names_of self.now).known holder.now).epoch }
    {
        match self.owns.get(holder) {
            Some(own) => &own.epoch,
            None => &self.epoch,
        }
    }

    /// How many entries with names the holder has.
    pub fn count(&self, holder: &str) -> u64
        ensures { result ≡ (own_of (names_of self.now).known holder.now).count }
    {
        match self.owns.get(holder) {
            Some(own) => own.count,
            None => 0,
        }
    }

    /// The latest entry of the holder is at place 0, that before it at 1, and so on as far as they are kept.
    pub fn entry(&self, holder: &str, place: usize) -> Option<&Named>
        ensures { option_map (λ e. e.now) result ≡ slice_get (own_of (names_of self.now).known holder.now).recent place }
    {
        match self.owns.get(holder) {
            Some(own) => own.recent.get(place),
            None => None,
        }
    }

    /// How many holders have names.
    pub fn len(&self) -> usize
        ensures { result ≡ (names_of self.now).known.holders }
    {
        self.owns.len()
    }

    fn is_over(&self, holder: &str) -> bool
        ensures { result ≡ is_over (names_of self.now) holder.now }
    {
        let spent = spent_by(&self.spent, holder);
        self.limits.refusals <= spent
            || (self.limits.holders <= self.owns.len() && !self.owns.contains_key(holder))
    }

    /// What becomes of a request whose name is not found.
    fn by_place(&self, own: &Own, ask: &Ask) -> Verdict
        ensures { verdict_of result ≡ by_place (names_of self.now) own.now ask.now }
    {
        if ask.at.epoch.as_str() != own.epoch.as_str() {
            return Verdict::Foreign;
        }
        if own.count.saturating_sub(ask.at.count) > self.limits.names as u64 {
            return Verdict::Late;
        }
        if self.is_over(&ask.holder) {
            return Verdict::Over;
        }
        if own.count < ask.at.count {
            return Verdict::Ahead;
        }
        Verdict::Carry
    }

    /// What becomes of a request of a holder for whom that is kept.
    fn by_own(&self, own: &Own, ask: &Ask) -> Result<Verdict, AllocError>
        ensures { IfOk result (λ v. verdict_of v ≡ by_found (names_of self.now) own.now ask.now (find_named ask.now.name own.now.recent)) }
    {
        match own.find(&ask.name) {
            Some(entry) => {
                let verdict = entry.answer_to(self.alloc, ask)?;
                Ok(verdict)
            }
            None => Ok(self.by_place(own, ask)),
        }
    }

    /// What becomes of a request with a name. It takes time by how many entries of a holder are kept, and by the logarithm of how many
    /// holders there are.
    ///
    /// # Errors
    /// `AllocError` if a growth of memory was refused.
    pub fn verdict(&self, ask: &Ask) -> Result<Verdict, AllocError>
        ensures { IfOk result (λ v. verdict_of v ≡ verdict (names_of self.now) ask.now) }
    {
        match self.owns.get(ask.holder.as_str()) {
            Some(own) => {
                let verdict = self.by_own(own, ask)?;
                Ok(verdict)
            }
            None => {
                let own = Own::begun(self.alloc, &self.epoch, 0)?;
                let verdict = self.by_own(&own, ask)?;
                Ok(verdict)
            }
        }
    }

    /// Whether a name that comes with its answer, from elsewhere, has none here yet.
    pub fn is_new(&self, ask: &Ask) -> bool
        ensures { result ≡ is_new (names_of self.now).limits (names_of self.now).known ask.now }
    {
        match self.owns.get(ask.holder.as_str()) {
            Some(own) => self.is_new_to(own.find(&ask.name).is_some(), own.count, ask),
            None => self.is_new_to(false, 0, ask),
        }
    }

    /// Whether a name has no answer yet, of a holder with as many entries.
    fn is_new_to(&self, is_found: bool, count: u64, ask: &Ask) -> bool
        ensures { result ≡ (not is_found && (nat_le ask.now.at.count count && nat_le count (ask.now.at.count + (names_of self.now).limits.names))) }
    {
        !is_found
            && ask.at.count <= count
            && count.saturating_sub(ask.at.count) <= self.limits.names as u64
    }

    /// The entry of a request with a name joins the journal, or is read from it.
    ///
    /// # Errors
    /// `AllocError` if a growth of memory was refused: the names are to be let go then.
    pub fn push(&mut self, entry: Named) -> Result<(), AllocError>
        ensures { OnOk result (names_of self.new ≡ pushed (names_of self.old) (named entry)) }
    {
        let alloc = self.alloc;
        blame(alloc, &mut self.spent, entry.refused, &entry.ask.holder)?;
        push_own(alloc, &mut self.owns, &self.epoch, entry, self.limits.names)?;
        Ok(())
    }

    /// The entry that gives the holder a new epoch joins the journal, or is read from it.
    ///
    /// # Errors
    /// As `push`.
    pub fn renew(&mut self, holder: &str, epoch: &str) -> Result<(), AllocError>
        ensures { OnOk result (names_of self.new ≡ pushed (names_of self.old) (renewed holder.now epoch.now)) }
    {
        let alloc = self.alloc;
        blame(alloc, &mut self.spent, true, holder)?;
        renew_own(alloc, &mut self.owns, &self.epoch, holder, epoch)?;
        Ok(())
    }

    /// What the first record of a journal says of a holder: its epoch, and how many entries came before those that follow.
    ///
    /// # Errors
    /// As `push`.
    pub fn begin(&mut self, holder: &str, epoch: &str, count: u64) -> Result<(), AllocError>
        ensures { OnOk result (names_of self.new ≡ record (names_of self.old) { known = begun (names_of self.old).known holder.now epoch.now count }) }
    {
        let key = String::from_str(self.alloc, holder)?;
        let own = Own::begun(self.alloc, epoch, count)?;
        own_put(&mut self.owns, key, own)?;
        Ok(())
    }

    /// Refusals are forgiven: once a minute, and after a restart.
    pub fn forgive(&mut self)
        ensures { names_of self.new ≡ record (names_of self.old) { spent = unspent } }
    {
        self.spent = BTreeMap::new(self.alloc);
    }
}
