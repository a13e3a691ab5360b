//! The sockets of a gateway as bytes: at each number a peer, which is the client of that number once it has presented a token.
//!
//! A program has one number for a socket, its peer and its client. It begins with `new` and `restore`, and cuts the journal where that
//! ends. For a new socket it takes a number at which `accept` answers `true`. Its round: `read` for each socket that brings bytes, and
//! `resume` for each that was held; `leave` for each that is gone; then `settle`; then it writes what is `pending` to the socket of the
//! same number, says how much by `sent`, and closes a socket that `is_over` once nothing is pending. Each error ends the program.
#![tactic(auto)]

mod desk;
pub mod laws;
mod place;
mod places;

pub use desk::Desk;
pub use place::Hearing;
