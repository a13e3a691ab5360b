//! Tokens that say who a client is: JSON web tokens (RFC 7519) signed by HMAC-SHA256.
#![tactic(auto)]

mod comparing;
mod documents;
mod hashing;
pub mod laws;
mod opening;
mod tokens;

pub use comparing::is_same;
pub use hashing::hmac_sha256;
pub use tokens::{Claims, Fault, role_of};
