//! Values, rows with their order, names, and the schemas of tables; values in memory of their own.
#![tactic(auto)]

mod boxes;
mod name;
mod row;
mod schema;
mod value;

pub use boxes::{boxed, boxed_both, boxed_two};
pub use name::name_ok;
pub use row::{Row, copy_values};
pub use schema::{Column, RelId, Schema, columns_ok};
pub use value::{Kind, Value, is_well_text};
