//! A gateway's journal on a disk: written, synced and taken back as a file is, with its audit.
#![tactic(auto)]

mod disk;
mod keeper;

pub use disk::{Disk, put};
pub use keeper::{KeepFault, Keeper};
