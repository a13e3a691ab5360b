//! What the engine stores, who reads what of it, and what readers are sent as rows or rights change.
//!
//! Vectors grow by `with_capacity` and `push`: `collect` and `extend` ask for a smaller size after a refusal, which would hide it from tests
//! that refuse memory.
#![tactic(auto)]

mod aside;
mod changes;
mod circuits;
mod concerned;
mod following;
mod lines;
mod reading;
mod store;
mod subscriptions;
mod touching;
mod turns;

pub use aside::Aside;
pub use changes::add_changes;
pub use lines::lines_of;
pub use store::Store;
pub use subscriptions::Subscription;
pub use touching::{Reader, Touched};
