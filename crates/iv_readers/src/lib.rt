//! Which role reads which circuit of a relation: circuits that roles share, what a change makes of them, and readers that turn.
//!
//! Nothing here knows of subscriptions, sessions or the database: that is the crate above, iv_store. Lemmas that both need
//! are here. Vectors grow by `with_capacity` and `push`: `collect` and `extend` ask for a smaller size after a refusal, which
//! would hide it from tests that refuse memory.
#![tactic(auto)]

mod changes;
mod flags;
mod ids;
mod index;
mod readers;
mod rows;
mod shown;
mod touching;
mod turns;

pub use changes::{Prepared, add_delta, prepared_of};
pub use flags::differing;
pub use ids::{CircuitId, ReaderId};
pub use index::ReaderIndex;
pub use readers::Readers;
pub use rows::{in_order, more_rows};
pub use touching::scanning;
pub use turns::{Outcome, anew};
