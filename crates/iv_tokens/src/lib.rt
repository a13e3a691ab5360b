//! Tokens of a gateway second by second: a file that says holders and ends, and web tokens that a secret grants.
#![tactic(auto)]

mod apart;
mod entries;
mod known_tokens;
pub mod laws;
mod moments;
mod web;

pub use apart::read_entries;
pub use entries::Entry;
pub use known_tokens::{KnownTokens, copied};
pub use web::{Judged, Web};
