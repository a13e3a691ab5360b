//! What the program does: a replay of standard input, connections one after another.
#![tactic(auto)]

mod connection;
mod replaying;
mod serving;

pub use connection::answer_connection;
pub use replaying::work;
pub use serving::{ServeFault, address_of, serve, serve_on};
