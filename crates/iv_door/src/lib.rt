//! The door for a log that others keep: what its keeper says, line by line, and what a gateway answers, also one that leads the log.
//!
//! A program begins a `Talk` with the log that the gateway follows, if it follows one. It gives it the bytes that come by `take`, and then
//! asks `hear` until that answers nothing; what a line asks is an `Act`. Behind a fault nothing more is heard: its words are told, and the
//! program ends.
#![tactic(auto)]

mod answers;
pub mod laws;
mod leading;
mod said;
mod talk;

pub use answers::{
    Fault, push_fault, push_hello, push_leads, push_on_disk, push_recalled, push_words,
};
pub use leading::push_steps;
pub use said::{Log, Said, read_said};
pub use talk::{Act, Talk};
