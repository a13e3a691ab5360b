//! `QueryFault`, `Why`: why the text of a view or a policy has no tree, and at which place.

ghost use Rattle.std.specs.Prelude.{◌≡◌};
ghost use Rattle.iv_query.specs.declared.fault.QueryFault.TheVariants.{Memory};

use std::alloc::{AllocError, AllocFailed};

/// The reason of a fault.
#[derive(Clone, Copy, Debug, PartialEq, Eq)]
pub enum Why {
    /// No token is there.
    Token,
    /// The token there, or the end of the text, is not one that is needed.
    Unexpected,
    /// A `not` or `(` would be the 33rd that is open at once.
    TooDeep,
    /// The text has more than 4,096 bytes, or a ninth source is named.
    TooLong,
}

/// A fault as the rules give it: its place in bytes from 0, and its reason.
#[derive(Clone, Copy, PartialEq, Eq)]
pub struct Fault {
    /// Its place, in bytes from 0.
    pub place: usize,
    /// Which rule the text breaks.
    pub why: Why,
}

/// Why a text was not read.
#[derive(Debug, Drop, PartialEq, Eq)]
pub enum QueryFault {
    /// The text has no tree; `place` is in bytes from 0.
    At { place: usize, why: Why },
    /// Memory ran out.
    Memory,
}

impl From<AllocError> for QueryFault {
    ghost from_gives = { λ _ fault. fault ≡ Memory };

    /// Out of memory, as the reason why the text of a view or a policy was not read.
    fn from(_error: AllocError) -> QueryFault {
        QueryFault::Memory
    }
}

impl<T: Drop> From<AllocFailed<T>> for QueryFault {
    ghost from_gives = { λ _ fault. fault ≡ Memory };

    /// Out of memory for a part of a tree, as the reason why a text was not read.
    fn from(_error: AllocFailed<T>) -> QueryFault {
        QueryFault::Memory
    }
}
