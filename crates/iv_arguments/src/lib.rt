//! What the program is asked for: the words after its name as settings, its seed, and the faults with which it gives up.
#![tactic(auto)]

mod arguments;
mod asked;
mod fault;
mod seeding;

pub use arguments::{asked_for, settings};
pub use asked::Settings;
pub use fault::Fault;
pub use seeding::random_seed;
