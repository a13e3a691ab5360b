//! Predicates, plans, what a row adds to a group, and the rows of tables.
//!
//! What a plan gives over tables is a definition here, as lists of rows: the program keeps circuits, and evaluates no plan.
#![tactic(auto)]

mod aggregate;
mod laws;
mod plan;
mod pred;
mod rows;
mod tables;

pub use aggregate::{share_of, small_of, value_in};
pub use laws::{copies_are_counted, operators_count_rows, results_depend_on_counts};
pub use plan::{Agg, Plan};
pub use pred::{Comparison, Operand, Pred, kind_of};
pub use rows::{joined_row, picked, rows_match};
pub use tables::Tables;
