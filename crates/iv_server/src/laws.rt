//! Laws of a server's sockets. Each is the contract of a function that does nothing.
ghost use Rattle.iv_server.specs.Shutting.{ClosedAreOver};

/// When nobody may come in any more, nothing more is heard or told at any number.
pub fn shut_sockets_are_over()
    ensures { ClosedAreOver }
{}
