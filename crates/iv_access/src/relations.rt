//! `Relations` of the rights: adds tables and views (`push`), finds them by name and number; how many there may be.
ghost use Rattle.std.specs.Prelude.{◌≡◌, ◌<◌, ◌≤◌, ◌∷◌, [], ◌++◌, None, OnOk, OnErr, is_some, count_by, length, option_map};
ghost use Rattle.std.specs.Bool.{beq};
ghost use Rattle.indexmap.specs.IndexMap.{values};
ghost use Rattle.iv_access.specs.Access.{relation_of, relation_name, relation_with};
ghost use Rattle.iv_access.specs.Faults.{count_like};
ghost use Rattle.iv_access.specs.Stored.{relation_at};

use indexmap::IndexMap;
use iv_rows::{Kind, RelId};
use iv_seed::Seed;
use std::alloc::{AllocError, Global};
use std::marker::Model;

/// How many tables there may be, and how many views.
pub(crate) const MOST_RELATIONS: usize = 64;

/// The relations, each with the number of its place: a table has the kinds of its columns, and a view has none.
#[derive(Drop)]
pub(crate) struct Relations {
    kinds: IndexMap<String, Option<Vec<Kind>>, Seed>,
}

impl Model for Relations {
    ghost use Rattle.std.specs.Prelude.{◌≤◌, List, map, true, false};
    ghost use Rattle.std.specs.Coded.{coded_list};
    ghost use Rattle.iv_access.specs.Access.{Relation};
    ghost use Rattle.iv_access.specs.Codes.{relation_code};

    ghost Value = { List Relation };

    ghost coded = { coded_list relation_code };

    ghost use Rattle.iv_access.specs.Faults.{count_like};
    ghost use Rattle.iv_access.specs.Stored.{relation_at};

    ghost view = { λ r. map relation_at r.kinds.entries };

    ghost invariant = { λ r. (count_like true (map relation_at r.kinds.entries) ≤ 64) × (count_like false (map relation_at r.kinds.entries) ≤ 64) };
}

/// How many of the rights' relations are tables, or how many are views.
fn count_like(kinds: &IndexMap<String, Option<Vec<Kind>>, Seed>, table: bool) -> usize
    ensures { result ≡ count_by (λ ks. beq table (is_some ks)) (values kinds.now) }
{
    kinds
        .values()
        .filter(|kinds| kinds.is_some() == table)
        .count()
}

impl Relations {
    /// No relation of the rights, if names are hashed under a seed. It takes no memory.
    pub(crate) fn with_seed(alloc: Global, seed: Seed) -> Relations
        ensures { result ≡ [] }
    {
        Relations {
            kinds: IndexMap::with_hasher(alloc, seed),
        }
    }

    /// Finds a table or a view of the rights by its name.
    pub(crate) fn number(&self, name: &str) -> Option<RelId>
        ensures { option_map (λ r. r.0) result ≡ relation_of self.now name.now }
    {
        match self.kinds.get_index_of(name) {
            Some(place) => Some(RelId(place as u32)),
            None => None,
        }
    }

    /// Finds the name of a table or a view of the rights by its number.
    pub(crate) fn name(&self, rel: RelId) -> Option<&str>
        ensures { option_map (λ n. n.now) result ≡ relation_name self.now rel.0 }
    {
        match self.kinds.get_index(rel.0 as usize) {
            Some((name, _)) => Some(name.as_str()),
            None => None,
        }
    }

    /// How many tables there are among the rights' relations, or how many views.
    pub(crate) fn count_like(&self, table: bool) -> usize
        ensures { result ≡ count_like table self.now }
    {
        count_like(&self.kinds, table)
    }

    /// The number of the next table or view that is added to the rights.
    pub(crate) fn next(&self) -> RelId
        ensures { result.0 ≡ length self.now }
    {
        RelId(self.kinds.len() as u32)
    }

    /// Adds a relation whose name is not there yet, and for which there is space. After an error nothing has changed.
    pub(crate) fn push(&mut self, name: &str, kinds: Option<Vec<Kind>>) -> Result<(), AllocError>
        requires new { relation_of self.old name.now ≡ None }
        requires room { count_like (is_some kinds) self.old < 64 }
        ensures ok { OnOk result (self.new ≡ self.old ++ relation_with name.now kinds ∷ []) }
        ensures err { OnErr result (self.new ≡ self.old) }
    {
        let text = String::from_str(*self.kinds.allocator(), name)?;
        self.kinds.insert(text, kinds)?;
        Ok(())
    }
}
