//! What the gateway's program does: it opens all that the settings name, brings the desk to where the journal leads, and serves.
#![tactic(auto)]

mod leading;
mod serving;

pub use serving::work;
