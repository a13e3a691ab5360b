//! Binds the trees of queries and policies to plans and predicates, over a catalog of tables and views.
#![tactic(auto)]

mod binding;
mod bound;
mod catalog;
mod copy;
mod fault;
mod items;
mod laws;
mod predicate;
mod scope;
mod select;
mod sources;

pub use binding::{bind, bind_pred};
pub use bound::Bound;
pub use catalog::Catalog;
pub use fault::{BindFault, BindWhy};
pub use laws::{bound_queries_are_sound, examples_are_bound, sound_catalogs_grow};
