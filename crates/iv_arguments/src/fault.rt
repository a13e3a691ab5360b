//! `Fault`: why the program gives up once its arguments are read, and its exit status.

ghost use Rattle.std.specs.Prelude.{◌≡◌};
ghost use Rattle.iv_arguments.specs.Statuses.{status_of};

use thiserror::Error;

/// Why the program gives up once its arguments are read. Its text goes to standard error.
#[derive(Clone, Copy, Debug, PartialEq, Eq, Error)]
pub enum Fault {
    /// Standard input could not be read.
    #[error("viewd: read failed")]
    Read,
    /// Standard output could not be written.
    #[error("viewd: write failed")]
    Write,
    /// The system gave no random bytes.
    #[error("viewd: no random bytes")]
    Random,
    /// The port could not be listened on, or a connection not be accepted. A second line tells the address, the cause and what may help.
    #[error("viewd: network failed")]
    Network,
    /// Memory ran out.
    #[error("viewd: out of memory")]
    Memory,
}

impl Fault {
    /// The status with which the program exits when it gives up for this fault.
    pub fn status(self) -> u8
        ensures { result ≡ status_of self }
    {
        match self {
            Fault::Read | Fault::Write | Fault::Random | Fault::Network => 2,
            Fault::Memory => 3,
        }
    }
}
