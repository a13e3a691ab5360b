//! `Ask`, a request with a name; `Named`, its entry in a journal; `Verdict`, what becomes of it.
ghost use Rattle.std.specs.Prelude.{◌≡◌, ◌&&◌, IfOk, bytes_eq};
ghost use Rattle.iv_once.specs.Names.{by_entry, is_place};
ghost use Rattle.iv_once.specs.Views.{verdict_of};

use std::alloc::{AllocError, Global};
use std::marker::Model;

/// When a client first sent a request.
#[derive(Drop)]
pub struct Place {
    /// The epoch that the client was told.
    pub epoch: String,
    /// How many entries with names its holder had, as far as the client knew.
    pub count: u64,
}

impl Model for Place {
    ghost use Rattle.std.specs.Prelude.{string_bytes};
    ghost use Rattle.iv_once.specs.Names.{Place};

    ghost Value = { Place };

    ghost view = { λ p. record { epoch = string_bytes p.epoch; count = p.count } };
}

/// A request with a name.
#[derive(Drop)]
pub struct Ask {
    /// Whose it is: a role and a user, never a token or a socket.
    pub holder: String,
    /// Its name, of the client's choosing: 128 random bits.
    pub name: String,
    /// When the client first sent it.
    pub at: Place,
    /// The SHA-256 of its bytes without its id and its name.
    pub digest: [u8; 32],
}

impl Model for Ask {
    ghost use Rattle.std.specs.Prelude.{string_bytes};
    ghost use Rattle.iv_once.specs.Names.{Ask};

    ghost Value = { Ask };

    ghost view = { λ a. record { holder = string_bytes a.holder; name = string_bytes a.name; at = a.at; digest = a.digest } };
}

/// An entry of a request with a name.
#[derive(Drop)]
pub struct Named {
    /// The request.
    pub ask: Ask,
    /// Whether the machine refused it.
    pub refused: bool,
    /// What the machine answered, as bytes.
    pub answer: Vec<u8>,
}

impl Model for Named {
    ghost use Rattle.iv_once.specs.Names.{Named};

    ghost Value = { Named };

    ghost view = { λ e. record { ask = e.ask; refused = e.refused; answer = e.answer.items } };
}

/// What becomes of a request with a name. After all but the first two it is undecided whether the request was ever carried out.
#[derive(Drop)]
pub enum Verdict {
    /// The machine is asked, and the entry joins the journal with its answer.
    Carry,
    /// It is told the first answer again.
    Again(Vec<u8>),
    /// 101: its name is that of another request.
    Another,
    /// 102, final: more entries of its holder are after its place than are kept.
    Late,
    /// 103, final: its place is of another epoch.
    Foreign,
    /// 103, final once an entry gives its holder a new epoch: its place is ahead. Who only follows a journal waits instead.
    Ahead,
    /// 104: its holder has to wait until refusals are forgiven, or no more holders may have names.
    Over,
}

impl Place {
    fn is(&self, other: &Place) -> bool
        ensures { result ≡ is_place self.now other.now }
    {
        self.count == other.count && self.epoch.as_str() == other.epoch.as_str()
    }
}

impl Named {
    /// What a request is told whose name the entry bears.
    pub(crate) fn answer_to(&self, alloc: Global, ask: &Ask) -> Result<Verdict, AllocError>
        ensures { IfOk result (λ v. verdict_of v ≡ by_entry ask.now self.now) }
    {
        if self.ask.at.is(&ask.at) && self.ask.digest == ask.digest {
            let mut answer = Vec::new(alloc);
            answer.extend_from_slice(&self.answer)?;
            Ok(Verdict::Again(answer))
        } else {
            Ok(Verdict::Another)
        }
    }
}
