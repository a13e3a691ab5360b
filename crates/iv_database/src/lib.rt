//! The database: rights, relations, the rows of tables, and the sessions that act.
//!
//! All requests but those on subscriptions are tested here, and change what is theirs to change. Who reads, and what
//! readers are sent, is the crate above: iv_store. Vectors grow by `with_capacity` and `push`: `collect` and `extend` ask for a
//! smaller size after a refusal, which would hide it from tests that refuse memory.
//!
//! Contracts see the machine's frame with no subscription, so a clause here is the machine's own test. Subscriptions add to the tests of
//! a write alone. Sessions are here, since each test begins with who acts.
#![tactic(auto)]

mod changes;
mod checks;
mod database;
mod entries;
mod limits;
mod policies;
mod privileges;
mod relations;
mod roles;
mod row_sums;
mod sessions;
mod summing;
mod write;

pub use changes::TableChange;
pub use database::Database;
pub use sessions::Sessions;
pub use summing::sorted;
