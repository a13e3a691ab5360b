//! `Fault`: why the program serves no more.
use iv_gateway::GatewayFault;
use std::alloc::{AllocError, AllocFailed};

/// Why the program serves no more.
#[derive(Clone, Copy, Debug, PartialEq, Eq)]
pub enum Fault {
    /// A growth of memory was refused.
    Memory,
    /// The journal could not be written.
    Journal,
    /// The desk is not what the program takes it for.
    Desk,
    /// The system has no clock, or does not tell of sockets.
    System,
    /// What the keeper of a log said cannot be, which was told.
    Log,
}

impl From<AllocError> for Fault {
    fn from(_: AllocError) -> Fault {
        Fault::Memory
    }
}

impl<T: Drop> From<AllocFailed<T>> for Fault {
    fn from(_: AllocFailed<T>) -> Fault {
        Fault::Memory
    }
}

impl From<GatewayFault> for Fault {
    fn from(fault: GatewayFault) -> Fault {
        match fault {
            GatewayFault::Memory => Fault::Memory,
            GatewayFault::Journal => Fault::Journal,
            GatewayFault::Dead => Fault::Desk,
        }
    }
}
