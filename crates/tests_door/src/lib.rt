//! Tests of iv_door by its public calls.
#![tactic(auto)]

#[cfg(test)]
mod talks;
