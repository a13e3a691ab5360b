//! A gateway's desk that runs: it is brought back to where a journal's file leads, and each call leads it from a run to a run.
//!
//! `open_journal` and `come_back` make it, the functions of `calls` and `leading` are all that is done with it, and `Fault` says why it does no more.
#![tactic(auto)]

pub mod calls;
mod fault;
pub mod leading;
mod logs;
mod opening;
mod said;

pub use fault::Fault;
pub use logs::{Follows, begin_log, followed_in, recalled_in, requests_are_recalled};
pub use opening::{come_back, open_journal};
pub use said::{KEEPER, SYSTEM, UNUSABLE, failed, no_log_in, out_of_memory};
