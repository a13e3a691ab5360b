//! `Roles`: adds roles (`push`), finds them by name and number; how many there may be.
ghost use Rattle.std.specs.Prelude.{◌≡◌, ◌<◌, ◌≤◌, ◌∷◌, [], ◌++◌, None, OnOk, OnErr, IfSome, bytes_eq, length, position, slice_get, option_map};

use crate::role::RoleId;
use indexmap::IndexSet;
use iv_seed::Seed;
use std::alloc::{AllocError, Global};
use std::marker::Model;

/// How many roles there may be.
pub const MOST_ROLES: usize = 256;

/// The names of the roles, each with the number of its place.
#[derive(Drop)]
pub struct Roles {
    /// The names, each at the place of its number.
    names: IndexSet<String, Seed>,
}

impl Model for Roles {
    ghost use Rattle.std.specs.Prelude.{ℕ, ◌≤◌, List, map, length, string_bytes};

    ghost Value = { List (List ℕ) };

    ghost view = { λ r. map string_bytes r.names.keys };

    ghost invariant = { λ r. length r.names.keys ≤ 256 };
}

impl Roles {
    /// No role. It takes no memory.
    pub fn with_seed(alloc: Global, seed: Seed) -> Roles
        ensures { result ≡ [] }
    {
        Roles {
            names: IndexSet::with_hasher(alloc, seed),
        }
    }

    /// How many roles there are.
    pub fn len(&self) -> usize
        ensures { result ≡ length self.now }
    {
        self.names.len()
    }

    /// The number of the role that is added next.
    pub fn next(&self) -> RoleId
        ensures { result.0 ≡ length self.now }
    {
        RoleId(self.names.len() as u32)
    }

    /// The number of the role of a name, if there is one. It takes no memory.
    pub fn number(&self, name: &str) -> Option<RoleId>
        ensures place { option_map (λ r. r.0) result ≡ position (bytes_eq name.now) self.now }
        ensures within { IfSome result (λ r. r.0 < 256) }
    {
        match self.names.get_index_of(name) {
            Some(place) => Some(RoleId(place as u32)),
            None => None,
        }
    }

    /// The name of the role of a number, if there is one. It takes no memory.
    pub fn name(&self, role: RoleId) -> Option<&str>
        ensures { option_map (λ n. n.now) result ≡ slice_get self.now role.0 }
    {
        match self.names.get_index(role.0 as usize) {
            Some(name) => Some(name.as_str()),
            None => None,
        }
    }

    /// Adds a role whose name is not there yet, if there are fewer than `MOST_ROLES`. After an error nothing has changed.
    ///
    /// # Errors
    /// `AllocError` if a growth of memory was refused.
    pub fn push(&mut self, name: &str) -> Result<(), AllocError>
        requires new { position (bytes_eq name.now) self.old ≡ None }
        requires room { length self.old < 256 }
        ensures ok { OnOk result (self.new ≡ self.old ++ name.now ∷ []) }
        ensures err { OnErr result (self.new ≡ self.old) }
    {
        let text = String::from_str(*self.names.allocator(), name)?;
        self.names.insert(text)?;
        Ok(())
    }
}
