//! Worked examples of the access machine, which compute: commands, with their texts, and their lines.
#![tactic(auto)]

pub mod examples;
