//! `Scout`: hears what a client presents before the desk does, so that the desk knows a web token that is granted when it hears it.
//!
//! It hears the same bytes by the same definition as the desk's end of the connection.
ghost use Rattle.std.specs.Prelude.{◌≡◌, IfOk};
ghost use Rattle.iv_peer.specs.Socket.{fresh};
ghost use Rattle.iv_peer.specs.Hearing.{IsServer};
ghost use Rattle.iv_admission.specs.Scouting.{IsFound, IsFoundIn};

use iv_peer::{Heard, Peer};
use iv_running::Fault;
use std::alloc::Global;

/// Bytes that are heard, at most, with the head of the request: a web token is to be whole within them.
const MOST: usize = 32_768;

/// An end of a connection at which nothing was presented yet.
#[derive(Drop)]
pub struct Scout {
    /// Its own end of the connection, which hears the same bytes as the desk's.
    peer: Peer,
    /// How many bytes it has heard.
    taken: usize,
}

/// What a scout has heard.
#[derive(Drop)]
pub enum Found {
    /// Nothing yet.
    More,
    /// The first text.
    Text(String),
    /// There is no text within as many bytes.
    Nothing,
}

impl Scout {
    /// Nothing was heard yet.
    pub(crate) fn new(alloc: Global) -> Scout
        ensures { (result.peer ≡ fresh) × (result.taken ≡ 0) }
    {
        Scout {
            peer: Peer::new(alloc),
            taken: 0,
        }
    }

    /// Hears on until a text, or until the bytes say no more.
    fn find(&mut self) -> Result<Found, Fault>
        ensures found { IsServer self.old.peer → IfOk result (λ f. IsFoundIn f self.old.peer self.new.peer) }
        ensures taken { self.new.taken ≡ self.old.taken }
    {
        for _ in 0..u64::MAX {
            match self.peer.hear()? {
                Heard::Text(text) => return Ok(Found::Text(text)),
                Heard::Nothing => return Ok(Found::More),
                Heard::Over => return Ok(Found::Nothing),
                Heard::Other => {}
            }
        }
        Err(Fault::Memory)
    }

    /// Hears further bytes.
    ///
    /// # Errors
    /// `Memory` if a growth of memory was refused.
    pub fn hear(&mut self, bytes: &[u8]) -> Result<Found, Fault>
        ensures { IsServer self.old.peer → IfOk result (λ f. IsFound f self.old.taken bytes.now self.old.peer self.new) }
    {
        self.taken = self.taken.saturating_add(bytes.len());
        if self.taken > MOST {
            return Ok(Found::Nothing);
        }
        self.peer.take(bytes)?;
        let found = self.find()?;
        Ok(found)
    }
}
