//! The engine: commands to lines, as the access machine says.
#![tactic(auto)]

mod engine;
mod facts;
mod known;
mod memberships;
mod policies;
mod privileges;
mod step;
mod sums;
mod write;

pub use engine::{Engine, EngineFault};
pub use facts::{Fact, StepFault};
pub use iv_zset::Seed;
