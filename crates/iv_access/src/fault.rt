//! `AccessFault`: why a change of rights is refused.
use std::alloc::AllocError;

/// Why a change of rights is refused.
#[derive(Clone, Copy, Debug, PartialEq, Eq)]
pub enum AccessFault {
    /// There is no role of that name.
    Role,
    /// The name is taken.
    Taken,
    /// The acting role is not `admin`.
    NotAdmin,
    /// The acting role is neither the relation's owner nor `admin`.
    NotOwner,
    /// There are as many as there may be: 256 roles, 64 tables, 64 views.
    TooMany,
    /// The role is the member, or a member of it, directly or through others.
    Loop,
    /// A growth of memory was refused.
    Memory,
}

impl From<AllocError> for AccessFault {
    ghost use Rattle.std.specs.Prelude.{◌≡◌};
    ghost use Rattle.iv_access.specs.declared.fault.AccessFault.TheVariants.{Memory};

    ghost from_gives = { λ _ fault. fault ≡ Memory };

    /// Out of memory, as the reason why a change of rights is refused.
    fn from(_error: AllocError) -> AccessFault {
        AccessFault::Memory
    }
}
