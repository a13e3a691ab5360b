//! Commands and lines: what a session asks, the shape that it has, and what it is answered.
//!
//! They are below the engine and the crates that read and write them, so reading is proved beside the engine and not behind it.
#![tactic(auto)]

mod answer;
mod command;
mod rows;
mod shape;
mod stop;

pub use answer::{Answer, lines_of};
pub use command::{Act, Command, Entry, Line, Op, PolicyText, Reason, Refusal, Reply, SharedRows};
pub use iv_access::{Check, PolicyCommand, Privilege};
pub use iv_bind::BindWhy;
pub use iv_machine::Cause;
pub use iv_query::Why;
pub use rows::SentRows;
pub use shape::{LAST_NUMBER, has_texts};
pub use stop::Stop;
