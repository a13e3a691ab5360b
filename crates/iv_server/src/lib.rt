//! A gateway's sockets, served by one thread: in each round what comes is read, the journal keeps it, and then what may be sent is sent.
#![tactic(auto)]

mod answering;
pub mod laws;
mod leading;
mod reading;
mod sending;
mod server;
mod socket;
mod telling;

pub use server::{Places, Server, listener_at};
