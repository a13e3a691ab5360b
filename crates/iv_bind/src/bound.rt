//! `Bound`: what a query is bound to: its plan, its columns, and the relations that it reaches.

use iv_algebra::Plan;
use iv_rows::{RelId, Schema};

/// A query that is bound over a catalog.
#[derive(Drop)]
pub struct Bound {
    /// Its plan, in which views are expanded.
    pub plan: Plan,
    /// The columns of its rows.
    pub schema: Schema,
    /// The relations that it reaches, depth first from the left: a view comes before what it reaches, and each comes
    /// once, at its first place.
    pub needs: Vec<RelId>,
}
