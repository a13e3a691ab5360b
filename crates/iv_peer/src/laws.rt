//! Laws of a socket. Each is the contract of a function that does nothing.
ghost use Rattle.std.specs.Prelude.{◌≡◌, List, ℕ};
ghost use Rattle.iv_peer.specs.Socket.{Socket};
ghost use Rattle.iv_peer.specs.Hearing.{IsServer};
ghost use Rattle.iv_peer.specs.Lives.{Carries, Lives};

/// Whatever happens at a socket: what was heard is what its bytes decode to, however they were cut, and what was offered is the answer to
/// its handshake, and then one frame for each text that was told, in order, among the replies of the protocol.
pub fn sockets_carry_what_is_told()
    ensures carries { (hs ts : List (List ℕ)) (s : Socket) → Lives hs ts s → Carries hs ts s }
    ensures serves { (hs ts : List (List ℕ)) (s : Socket) → Lives hs ts s → IsServer s }
{}
