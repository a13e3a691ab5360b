//! A gateway's journal with an audit: each request with when it was written and who held the token, in lines with digests; written and read.
//!
//! A gateway knows nothing of it: `push_records` wraps the lines that it gives its journal, and `read_audit` gives them back.
#![tactic(auto)]

pub mod laws;
mod reading;
mod writing;

pub use reading::{Audit, AuditFault, Plain, read_audit, read_plain};
pub use writing::{Share, WriteFault, anew, push_head, push_records};
