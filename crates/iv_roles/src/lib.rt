//! Roles by number and by name, and which roles a role reaches by memberships.
#![tactic(auto)]

pub mod laws;
mod memberships;
mod role;
mod roles;

pub use memberships::{Memberships, flag_at};
pub use role::{ADMIN, RoleId};
pub use roles::{MOST_ROLES, Roles};
