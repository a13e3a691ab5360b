//! `ByToken`: how many clients are there by each token, so that one who comes costs a look and no walk over all.
ghost use Rattle.std.specs.Prelude.{◌≡◌, ◌+◌, ◌-◌, ℕ, IfOk, OnOk, nat_lt};
ghost use Rattle.std.specs.Global.{Vec};
ghost use Rattle.iv_admission.specs.ByToken.{are_by, are_of, with_count};

use std::alloc::{AllocError, Global};
use std::collections::BTreeMap;

/// How many clients are there by each token.
#[derive(Drop)]
pub(crate) struct ByToken {
    /// The allocator of what it makes.
    alloc: Global,
    /// How many, by the SHA-256 of their token.
    counts: BTreeMap<Vec<u8>, usize>,
}

impl ByToken {
    /// Nobody.
    pub(crate) fn new(alloc: Global) -> ByToken
        ensures { (q : Vec ℕ) → are_of result.counts q ≡ 0 }
    {
        ByToken {
            alloc,
            counts: BTreeMap::new(alloc),
        }
    }

    /// How many are there by a token.
    fn by(&self, digest: &[u8]) -> usize
        ensures are { result ≡ are_by self.now.counts digest.now }
        ensures same { (q : Vec ℕ) → q.items ≡ digest.now → result ≡ are_of self.now.counts q }
    {
        match self.counts.get(digest) {
            Some(count) => *count,
            None => 0,
        }
    }

    /// Whether one is there by a token.
    pub(crate) fn has(&self, digest: &[u8]) -> bool
        ensures { result ≡ nat_lt 0 (are_by self.now.counts digest.now) }
    {
        self.by(digest) > 0
    }

    /// So many are there by a token from now on.
    fn put(&mut self, digest: &[u8], count: usize) -> Result<(), AllocError>
        ensures { OnOk result ((q : Vec ℕ) → are_of self.new.counts q ≡ with_count digest.now count self.old.counts q) }
    {
        if count == 0 {
            drop(self.counts.remove(digest));
            return Ok(());
        }
        let mut key = Vec::new(self.alloc);
        key.extend_from_slice(digest)?;
        drop(self.counts.insert(key, count)?);
        Ok(())
    }

    /// One more is there by a token. How many these are.
    ///
    /// # Errors
    /// `AllocError` if a growth of memory was refused.
    pub(crate) fn come(&mut self, digest: &[u8]) -> Result<usize, AllocError>
        ensures count { IfOk result (λ n. (q : Vec ℕ) → are_of self.new.counts q ≡ with_count digest.now n self.old.counts q) }
        ensures more { IfOk result (λ n. n ≡ are_by self.old.counts digest.now + 1) }
    {
        let Some(count) = self.by(digest).checked_add(1) else {
            return Err(AllocError);
        };
        self.put(digest, count)?;
        Ok(count)
    }

    /// One is there no more by a token.
    ///
    /// # Errors
    /// As of `come`.
    pub(crate) fn go(&mut self, digest: &[u8]) -> Result<(), AllocError>
        ensures { OnOk result ((q : Vec ℕ) → are_of self.new.counts q ≡ with_count digest.now (are_of self.old.counts q - 1) self.old.counts q) }
    {
        let count = self.by(digest).saturating_sub(1);
        self.put(digest, count)
    }
}
