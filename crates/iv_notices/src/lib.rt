//! What clients are told beside the lines of a command: what it grants to their roles, the shape, and on which relations they may do more after a step.
#![tactic(auto)]

mod granting;
mod newly;
mod shaping;

pub use granting::{Grants, hear_grants, is_accepted};
pub use newly::{Readable, all_readable, hear_newly};
pub use shaping::{clear_refused, greeting, inform_all};
