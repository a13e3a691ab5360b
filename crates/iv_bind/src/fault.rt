//! `BindFault`, `BindWhy`: why a text with a tree has no plan or predicate, and at which place.

ghost use Rattle.std.specs.Prelude.{◌≡◌};
ghost use Rattle.iv_bind.specs.declared.fault.BindFault.TheVariants.{Memory};

use std::alloc::{AllocError, AllocFailed};

/// The reason of a fault.
#[derive(Clone, Copy, Debug, PartialEq, Eq)]
pub enum BindWhy {
    /// No relation has the name.
    UnknownRelation,
    /// Another source of the select, or another column of its output, has the name.
    DuplicateName,
    /// No source of the select has the column, or a pair of a join is not between the new source and an earlier one.
    UnknownColumn,
    /// Two sources of the select have the column.
    AmbiguousColumn,
    /// Values of two kinds are compared, or the sum is over a column that has no whole numbers.
    KindMismatch,
    /// A column outside the group, an aggregate without a group, or a star beside one.
    NotGrouped,
    /// A select gives more than 16 columns.
    TooManyColumns,
    /// The two sides of a set operation have columns of other number or kinds.
    ColumnsDiffer,
    /// The plan has more than 256 nodes.
    TooManyNodes,
}

/// Why a tree was not bound.
#[derive(Debug, Drop, PartialEq, Eq)]
pub enum BindFault {
    /// The tree has no plan over the catalog; `place` is in bytes from 0.
    At { place: usize, why: BindWhy },
    /// Memory ran out.
    Memory,
}

impl From<AllocError> for BindFault {
    ghost from_gives = { λ _ fault. fault ≡ Memory };

    /// Out of memory, as a fault of binding.
    fn from(_error: AllocError) -> BindFault {
        BindFault::Memory
    }
}

impl<T: Drop> From<AllocFailed<T>> for BindFault {
    ghost from_gives = { λ _ fault. fault ≡ Memory };

    /// A value that could not be stored for want of memory, as a fault of binding.
    fn from(_error: AllocFailed<T>) -> BindFault {
        BindFault::Memory
    }
}
