//! A browser's end of a connection at a server, as bytes: what was read is heard, what is told is offered, and nothing else (RFC 6455).
#![tactic(auto)]

pub mod laws;
mod peer;

pub use peer::{Heard, Peer};
