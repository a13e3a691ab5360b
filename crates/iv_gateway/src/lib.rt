//! A gateway: the engine, its sessions by role, clients who share subscriptions, and the journal that is ahead of what they are told.
//!
//! A program has one number for a socket and its client. It begins with `new`, and with `restore` by the lines of the journal's whole
//! records, behind which it has cut what stood there. Its round: `left` for each socket that is gone; for each text that a socket brings
//! `admit` if it is the first, and else `said`, in their order, as long as `is_heard`; then `settle`; then for each number of `told`, from
//! the last to the first, `take`, whose text goes to its socket, and `is_dropped`, whose socket is closed. What `said` answers `false` to is
//! said again later. Each error ends the program. So nobody is told what the journal does not have, and a round's requests share one sync.
//!
//! If it follows a log, it takes each step of that by iv_arrivals' `read_step` and `take_step` before `settle`, and tells the log's source
//! `settled_at` after it.
#![tactic(auto)]

mod arriving;
mod closing;
mod coming;
mod events;
mod gateway;
mod journal;
mod messages;
mod opening;
mod restoring;
mod seats;
mod shaping;
mod sharing;
mod subscribing;
mod sweeping;
mod telling;

pub use arriving::StepFault;
pub use gateway::{Gateway, GatewayFault, Head};
pub use journal::{Journal, JournalFault};
pub use restoring::RestoreFault;
