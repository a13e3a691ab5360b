//! The access machine: what a list of commands means. Definitions, and laws over them.
//!
//! The definitions are in `specs/`. The actor of a session that is not open is a number that no role has. No edit
//! is tried here: the functions are laws without a body, and an edit of a definition shows nothing. Worked examples are in
//! `crates/tests_machine`.
#![tactic(auto)]

pub use iv_access::Privilege;

/// Why a subscription is ended.
#[derive(Clone, Copy, Debug, PartialEq, Eq)]
pub enum Cause {
    /// Its reader may no longer select from a relation that it needs.
    Privilege,
    /// Its view is no longer within the limits.
    Limit,
}

pub mod laws;
