//! Who may come in at a gateway's sockets: the tokens that its desk knows, second by second, and web tokens that are presented there.
#![tactic(auto)]

mod admission;
mod by_token;
mod scout;
mod tokens;

pub use admission::Admission;
pub use scout::{Found, Scout};
pub use tokens::{no_secret, open_tokens};
