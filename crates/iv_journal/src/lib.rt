//! A journal as bytes: records of texts, each line with a digest of all lines up to it; a writer and a reader.
//!
//! A record is one text, or parts and a last text; what a text says is its owner's. A gateway's entry is a record of one text, the line of the entry
//! without its first brace; a step is a record with a part for each entry. The first record begins with a head: a gateway makes it of 128 random bits
//! and of what it keeps of names, and in further parts if that is long. At its start a gateway reads the file, refuses it at the byte of a fault,
//! cuts it at `end.length`, and writes on by `Chain::behind(end.digest)`; if `lines` is empty it writes a head. A file that begins with
//! `{"as":` has the form before: it is read by the reader of that form, and its lines are written anew after a head, into a file that takes its place.
#![tactic(auto)]

mod chain;
mod head;
pub mod laws;
mod lines;
mod reading;

pub use chain::{Chain, PushFault};
pub use head::{Head, head_in, head_text};
pub use lines::{Line, MOST_TEXT};
pub use reading::{End, Reading, read_journal};
