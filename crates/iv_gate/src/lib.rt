//! The gateway as a machine: clients by their tokens' roles, subscriptions that they share, and a journal ahead of what they are told; and its laws.
#![tactic(auto)]

pub mod laws;
