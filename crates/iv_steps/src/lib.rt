//! Steps: what others decided is taken at once, and each reader is told once what differs.
#![tactic(auto)]

pub mod laws;
