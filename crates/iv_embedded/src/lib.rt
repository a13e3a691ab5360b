//! Calls for code that holds an engine itself: a line read as a command, a command's shape, and commands in turn.
//!
//! The program reads a stream of lines and makes none of them: `command_in` of iv_reading answers commands that keep the rules on
//! shape, and `apply` of iv_engine answers one at a time.
#![tactic(auto)]

mod listing;
mod reading;
mod shape;

pub use listing::run_list;
pub use reading::read_line;
pub use shape::{well, well_fact};
