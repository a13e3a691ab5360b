//! Tests of iv_once by its public calls.
#![tactic(auto)]

#[cfg(test)]
mod runs;
