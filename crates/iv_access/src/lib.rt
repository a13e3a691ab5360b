//! Rights: who may do what with a relation, and which rows a reader sees.
#![tactic(auto)]

mod access;
mod changes;
mod check;
mod fault;
mod filter;
mod grant;
mod grants;
mod guard;
pub mod laws;
pub mod policy;
pub mod privilege;
mod relations;
mod row_security;

pub use access::Access;
pub use fault::AccessFault;
pub use filter::ReaderFilter;
pub use iv_roles::{ADMIN, RoleId};
pub use policy::{Check, NewPolicy, PolicyCommand, Verdict, update_tests};
pub use privilege::{Missing, Privilege};
pub use row_security::MOST_POLICIES;
