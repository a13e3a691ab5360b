//! `Stop`: why a request is not done: a refusal, or want of memory; which fault of a text is which refusal.
ghost use Rattle.std.specs.Prelude.{◌≡◌};

use crate::command::{Reason, Refusal};
use iv_bind::BindFault;
use iv_query::QueryFault;
use std::alloc::{AllocError, AllocFailed};

/// Why a request is not done.
#[derive(Drop)]
pub enum Stop {
    /// The test fails.
    Refused(Refusal),
    /// A growth of memory was refused.
    Memory,
}

impl From<AllocError> for Stop {
    ghost use Rattle.std.specs.Prelude.{◌≡◌};
    ghost use Rattle.iv_command.specs.declared.stop.Stop.TheVariants.{Memory};

    ghost from_gives = { λ _ stop. stop ≡ Memory };

    /// Out of memory, as why a request is not done.
    fn from(_error: AllocError) -> Stop {
        Stop::Memory
    }
}

impl<T: Drop> From<AllocFailed<T>> for Stop {
    ghost use Rattle.std.specs.Prelude.{◌≡◌};
    ghost use Rattle.iv_command.specs.declared.stop.Stop.TheVariants.{Memory};

    ghost from_gives = { λ _ stop. stop ≡ Memory };

    /// A value that could not be stored for want of memory, as why a request is not done.
    fn from(_failed: AllocFailed<T>) -> Stop {
        Stop::Memory
    }
}

impl From<QueryFault> for Stop {
    ghost use Rattle.std.specs.Prelude.{◌≡◌};
    ghost use Rattle.iv_command.specs.Stops.{read_stop};

    ghost from_gives = { λ fault stop. stop ≡ read_stop fault };

    /// A fault of reading a text, as the refusal `BadQuery` of its request, or as want of memory.
    fn from(fault: QueryFault) -> Stop {
        match fault {
            QueryFault::At { place, why } => Stop::Refused(Refusal::BadQuery {
                place,
                why: Reason::Reading(why),
            }),
            QueryFault::Memory => Stop::Memory,
        }
    }
}

impl From<BindFault> for Stop {
    ghost use Rattle.std.specs.Prelude.{◌≡◌};
    ghost use Rattle.iv_command.specs.Stops.{bind_stop};

    ghost from_gives = { λ fault stop. stop ≡ bind_stop fault };

    /// A fault of binding a text, as the refusal `BadQuery` of its request, or as want of memory.
    fn from(fault: BindFault) -> Stop {
        match fault {
            BindFault::At { place, why } => Stop::Refused(Refusal::BadQuery {
                place,
                why: Reason::Binding(why),
            }),
            BindFault::Memory => Stop::Memory,
        }
    }
}
