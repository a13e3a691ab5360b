//! The log that a gateway follows, as its program has it: the keeper's bytes, and what is done with what they say.
//!
//! `Following::open` opens the way by which the keeper comes. A journal that follows no log yet does so from `begin` on. In each round `hear` takes
//! in what the keeper says, before the journal is synced, and `tell` tells it up to where that has the log. Behind a fault `last_words` are told.
#![tactic(auto)]

mod beginning;
mod coming;
mod following;
mod guest;
mod keeper;
mod leading;
mod led;
mod logs;
mod shown;
mod steps;
mod telling;
mod ways;
mod wire;

pub use following::Following;
