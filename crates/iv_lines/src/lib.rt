//! Lines as bytes: bytes cut into lines, answers as lines, and what they are read from and written to.
#![tactic(auto)]

mod answers;
mod calls;
mod ends;
pub mod laws;
mod lines;
mod room;
mod std_ends;
mod texts;
mod watched;

pub use answers::{write_line, write_lines};
pub use ends::{EndFault, Sink, Source, write_all};
pub use lines::{End, Next, RunFault, is_blank_line, next_line};
pub use room::Room;
pub use std_ends::{FromRead, FromWrite};
pub use texts::{put_number, put_refused, put_text, text_of, write_fault};
