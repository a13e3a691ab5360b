//! What arrives at a gateway, a message of a client or a step of a log: who says it, by which name, and what the journal, the names and the shape
//! get of it.
#![tactic(auto)]

mod asking;
mod entering;
mod learning;
mod steps;
mod tally;

pub use asking::{Asked, Speaker, answer_text, ask_of, first_reply, is_done, speaker_at};
pub use entering::{is_entered, place_text, push_entry, push_name, push_shape};
pub use learning::{are_writes, facts_of, learn};
pub use steps::{Log, Step, read_step};
pub use tally::{KINDS, Tally, number_of};
