//! A line as a command: a write is read token by token, every other line by its JSON value.
#![tactic(auto)]

mod commands;
mod writes;

pub use commands::command_in;
