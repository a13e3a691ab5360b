//! What a journal's records are: the texts of requests, names and steps, written and read; and what a client says, of which they are made.
#![tactic(auto)]

mod cuts;
mod journal;
pub mod laws;
mod names;
mod naming;
mod records;
mod said;

pub use cuts::{behind, between, cut_at, cut_quote};
pub use journal::{is_shape, is_shared, push_request, request_in};
pub use names::{Claim, count_in, epoch_in, holder_of};
pub use naming::{is_answer_text, name_in, push_name, push_place, string_in};
pub use records::{Entry, OwnedLine, Request, push_accepted, push_named, push_step, read_record};
pub use said::{Said, read_said};
