//! What a journal of a gateway says between its head and its first entry: the log that is followed, and where names of holders stand; written and read.
//!
//! Who writes a journal anew gives holders their places, and writes the names that are kept as entries after them. A journal that began with
//! nothing says nothing there.
#![tactic(auto)]

mod begun;
pub mod laws;
mod places;

pub use begun::{Begun, Followed, Standing, epoch_in, push_begun, read_begun};
pub use places::names_in;
