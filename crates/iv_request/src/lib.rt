//! Requests: a JSON value as a command.
#![tactic(auto)]

mod columns;
mod documents;
mod entries;
mod forms;
mod grants;
pub mod laws;
mod memberships;
mod parts;
mod policies;
mod requests;

pub use columns::columns_at;
pub use documents::number_of;
pub use entries::{entries_at, entry_of, text_cell};
pub use forms::{Form, Word, form_of, has_only, is_in};
pub use grants::{grantee_at, privileges_at};
pub use memberships::group_at;
pub use parts::{bool_at, get, has, i64_of, items_at, name_at, positive_of, text_at, u64_of};
pub use policies::{command_at, grantees_at, restrictive_at, text_if_at};
pub use requests::{WireFault, act_of_word, command_by_value, read_value};
