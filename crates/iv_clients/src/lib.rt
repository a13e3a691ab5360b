//! What a gateway keeps of its clients: tokens, what they follow, and what they are told.
#![tactic(auto)]

mod clients;
mod feeds;
mod tokens;

pub use clients::{Client, Sub};
pub use feeds::{
    Feed, Seat, drop_ended, drop_feed, drop_seat, ends_in, feed_for, feed_of, has_feed, load,
    next_seat, rel_read, room_for, seat_of,
};
pub use tokens::{Token, TokensFault, read_tokens, role_opened, token_of};
