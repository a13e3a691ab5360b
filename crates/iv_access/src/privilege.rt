//! `Privilege`: what a role may do with a relation; `Missing`: a privilege that a role lacks.
use iv_rows::RelId;

/// What a role may do with a relation (PostgreSQL 16, Privileges).
#[derive(Clone, Copy, Debug, PartialEq, Eq, Hash)]
pub enum Privilege {
    /// Read rows.
    Select,
    /// Add rows.
    Insert,
    /// Replace rows.
    Update,
    /// Remove rows.
    Delete,
}

/// A privilege that a role has not.
#[derive(Clone, Copy, Debug, PartialEq, Eq)]
pub struct Missing {
    /// What the role may not do.
    pub privilege: Privilege,
    /// With which relation.
    pub rel: RelId,
}
