//! What a gateway has of its host: its words, its journal and tokens as files, pages, what it logs and counts.
#![tactic(auto)]

mod admins;
mod arguments;
mod beginning;
mod counts;
mod figures;
mod files;
mod heads;
mod journal;
pub mod laws;
mod log;
mod pages;
mod tokens;

pub use admins::{ADMIN, Admins, presented_in};
pub use arguments::{KeeperAt, Settings, asked_for};
pub use beginning::head_of;
pub use counts::{BOUNDS, Counts, Why, raise};
pub use figures::{Now, figures_now, state_now};
pub use journal::{
    DiskJournal, FileJournal, JournalFile, OpenFault, Syncs, is_plain, lines_of, random_digits,
};
pub use log::Log;
pub use pages::{answer, page_in, refusal};
pub use tokens::{SecretFault, TokenFault, TokenFile, read_secret, second_now};
