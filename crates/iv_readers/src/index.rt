//! `ReaderIndex`: finds the reader that is for a role and a relation, without a walk over all readers.
ghost use Rattle.std.specs.Prelude.{◌≡◌, ℕ, IfOk, OnOk, option_map};
ghost use Rattle.iv_readers.specs.Index.{IsIndexOf, found_in, with_reader};

use crate::ids::ReaderId;
use crate::readers::Readers;
use iv_access::RoleId;
use iv_rows::RelId;
use std::alloc::{AllocError, Global};
use std::collections::BTreeMap;

/// The readers by their roles and relations, in rising order.
#[derive(Drop)]
pub struct ReaderIndex {
    /// The first reader that is for the role and the relation of these numbers.
    first: BTreeMap<(u32, u32), ReaderId>,
}

impl ReaderIndex {
    /// The first reader that is for the role and the relation, if there is one.
    pub fn find(&self, role: RoleId, rel: RelId) -> Option<ReaderId>
        ensures { option_map (λ r. r.0) result ≡ found_in self.now role.0 rel.0 }
    {
        match self.first.get(&(role.0, rel.0)) {
            Some(reader) => Some(*reader),
            None => None,
        }
    }

    /// Adds the next reader, which is for the role and the relation.
    fn add(&mut self, role: RoleId, rel: RelId, reader: ReaderId) -> Result<(), AllocError>
        ensures { OnOk result ((a b : ℕ) → found_in self.new a b ≡ with_reader role.0 rel.0 reader.0 (found_in self.old) a b) }
    {
        let key = (role.0, rel.0);
        if self.first.contains_key(&key) {
            return Ok(());
        }
        self.first.insert(key, reader)?;
        Ok(())
    }
}

impl Readers {
    /// The index of all readers.
    pub fn index(&self, alloc: Global) -> Result<ReaderIndex, AllocError>
        ensures { IfOk result (λ index. IsIndexOf self.now index) }
    {
        let first = BTreeMap::new(alloc);
        let mut index = ReaderIndex { first };
        for place in 0..self.len() {
            let reader = ReaderId(place);
            index.add(self.role(reader), self.rel(reader), reader)?;
        }
        Ok(index)
    }
}
