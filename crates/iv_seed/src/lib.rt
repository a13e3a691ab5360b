//! The seed of a run: the keys of the hash of rows and names, and the hasher that they make.
#![tactic(auto)]

mod hasher;
mod seed;

pub use hasher::WordHasher;
pub use seed::Seed;
