//! Tests of iv_journal and iv_audit by their public calls.
#![tactic(auto)]

#[cfg(test)]
mod audits;
#[cfg(test)]
mod journals;
