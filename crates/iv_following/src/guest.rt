//! `Guest`: who has come by a way: the keeper, or somebody who has yet to show the secret. What is a keeper's goes with it.
ghost use Rattle.std.specs.Prelude.{◌≡◌, ◌++◌, IfOk, OnOk, Some, false, option_map, true};
ghost use Rattle.iv_desk.specs.Desks.{IsDesk};
ghost use Rattle.iv_desk.specs.Front.{Front};
ghost use Rattle.iv_door.specs.Talk.{at_start};
ghost use Rattle.iv_following.specs.Following.{AreTold, said_log};
ghost use Rattle.iv_following.specs.Guests.{IsGuest, has_led, is_known, out_of};

use crate::keeper::{Keeper, Means};
use crate::leading::Lead;
use crate::shown::{Shown, shown_in};
use crate::wire::Wire;
use iv_desk::Desk;
use mio::Poll;
use std::alloc::{AllocError, Global};

/// Whether a guest is the keeper.
#[derive(Drop)]
pub(crate) enum Stage {
    /// It has said these bytes of its first line, and has to show the secret until then, in milliseconds.
    Unknown(Vec<u8>, u64),
    /// It is.
    Known(Keeper),
}

/// Who has come by a way.
#[derive(Drop)]
pub(crate) struct Guest {
    /// The way.
    pub(crate) wire: Wire,
    /// It may have said something.
    pub(crate) readable: bool,
    /// The system may take bytes for it.
    pub(crate) writable: bool,
    /// It says no more, and takes no more: what it has said is still to be heard.
    pub(crate) ended: bool,
    /// Whether it is the keeper.
    pub(crate) stage: Stage,
}

/// The keeper that has shown the secret, and has said these bytes since. It is told what is held.
fn welcomed(means: &Means, rest: &[u8], position: u64) -> Result<Keeper, AllocError>
    ensures { IfOk result (λ k. k.talk ≡ record (at_start (option_map said_log means.now.log)) { unread = rest.now }) }
{
    let mut keeper = Keeper::new(means.rt.alloc(), &means.log)?;
    keeper.told.greet(means.rows, keeper.talk.log(), position)?;
    keeper.talk.take(rest)?;
    Ok(keeper)
}

impl Stage {
    /// Takes in bytes. Whether the guest may stay.
    ///
    /// # Errors
    /// `AllocError` if a growth of memory was refused.
    fn take(
        &mut self,
        means: &Means,
        secret: &[u8],
        bytes: &[u8],
        position: u64,
    ) -> Result<bool, AllocError>
        ensures { IfOk result (λ stays. IsGuest means.now.log secret.now bytes.now self.old stays self.new) }
    {
        let shown = match self {
            Stage::Known(keeper) => {
                keeper.talk.take(bytes)?;
                return Ok(true);
            }
            Stage::Unknown(said, _) => {
                said.extend_from_slice(bytes)?;
                shown_in(means.rt.alloc(), secret, said)?
            }
        };
        match shown {
            Shown::Part => Ok(true),
            Shown::Other => Ok(false),
            Shown::Secret(rest) => {
                *self = Stage::Known(welcomed(means, &rest, position)?);
                Ok(true)
            }
        }
    }
}

impl Guest {
    /// Somebody who has come by a way, and has to show the secret until then.
    pub(crate) fn unknown(alloc: Global, wire: Wire, until: u64) -> Guest {
        Guest {
            wire,
            readable: false,
            writable: true,
            ended: false,
            stage: Stage::Unknown(Vec::new(alloc), until),
        }
    }

    /// The keeper, who is there by itself.
    pub(crate) fn keeper(wire: Wire, keeper: Keeper) -> Guest {
        Guest {
            wire,
            readable: false,
            writable: true,
            ended: false,
            stage: Stage::Known(keeper),
        }
    }

    /// Whether it is the keeper.
    pub(crate) fn is_keeper(&self) -> bool
        ensures { result ≡ is_known self.now.stage }
    {
        match &self.stage {
            Stage::Known(_) => true,
            Stage::Unknown(_, _) => false,
        }
    }

    /// Whether it is the keeper, and has said that the gateway leads.
    pub(crate) fn has_led(&self) -> bool
        ensures { result ≡ has_led self.now.stage }
    {
        match &self.stage {
            Stage::Known(keeper) => keeper.talk.leads(),
            Stage::Unknown(_, _) => false,
        }
    }

    /// Whether it had to show the secret before now.
    pub(crate) fn is_late(&self, now: u64) -> bool {
        match &self.stage {
            Stage::Known(_) => false,
            Stage::Unknown(_, until) => now > *until,
        }
    }

    /// Whether something may be read of it now.
    pub(crate) fn is_read(&self) -> bool {
        match &self.stage {
            Stage::Known(keeper) => self.readable && !keeper.late,
            Stage::Unknown(_, _) => self.readable,
        }
    }

    /// Takes in bytes. Whether it may stay.
    ///
    /// # Errors
    /// As of a stage's `take`.
    pub(crate) fn take(
        &mut self,
        means: &Means,
        secret: &[u8],
        bytes: &[u8],
        position: u64,
    ) -> Result<bool, AllocError>
        ensures { IfOk result (λ stays. IsGuest means.now.log secret.now bytes.now self.old.stage stays self.new.stage) }
    {
        self.stage.take(means, secret, bytes, position)
    }

    /// A keeper is told up to where the journal has the log, if that is owed.
    ///
    /// # Errors
    /// `AllocError` if a growth of memory was refused.
    pub(crate) fn settle(&mut self, desk: &Desk) -> Result<(), AllocError> {
        match &mut self.stage {
            Stage::Known(keeper) => keeper.told.settle(desk),
            Stage::Unknown(_, _) => Ok(()),
        }
    }

    /// A keeper is told from where the gateway leads, if that is owed.
    ///
    /// # Errors
    /// `AllocError` if a growth of memory was refused.
    pub(crate) fn lead(&mut self, desk: &Desk) -> Result<(), AllocError> {
        match &mut self.stage {
            Stage::Known(keeper) => keeper.told.lead(desk),
            Stage::Unknown(_, _) => Ok(()),
        }
    }

    /// A keeper is told what the gateway has decided, if it was not.
    ///
    /// # Errors
    /// `AllocError` if a growth of memory was refused.
    pub(crate) fn decide(&mut self, lead: &mut Lead, desk: &Desk) -> Result<(), AllocError>
        ensures told { OnOk result ((d : Front) → IsDesk d desk.now → d.gate.dead ≡ false → is_known self.old.stage ≡ true
            → AreTold d.gate lead.old (out_of self.old.stage) lead.new (out_of self.new.stage)) }
        ensures kept { lead.new.kept ≡ lead.old.kept }
    {
        match &mut self.stage {
            Stage::Known(keeper) => keeper.told.decide(lead, desk),
            Stage::Unknown(_, _) => Ok(()),
        }
    }

    /// Sends what the system takes. Whether the way is whole.
    pub(crate) fn send(&mut self, poll: &Poll) -> bool {
        let Stage::Known(keeper) = &mut self.stage else {
            return true;
        };
        let told = &mut keeper.told;
        if self.ended {
            told.sent = told.out.len();
        }
        for _ in 0..u32::MAX {
            if told.sent >= told.out.len() {
                told.sent = 0;
                told.out.truncate(0);
                return true;
            }
            if !self.writable {
                return true;
            }
            let (count, again) = self
                .wire
                .write(poll, told.out.get(told.sent..).unwrap_or(&[]));
            self.writable = again;
            match count {
                None => return false,
                Some(count) => told.sent = told.sent.saturating_add(count),
            }
        }
        true
    }

    /// Whether all that it is to be told was sent.
    pub(crate) fn is_told(&self) -> bool {
        match &self.stage {
            Stage::Known(keeper) => keeper.told.out.is_empty(),
            Stage::Unknown(_, _) => true,
        }
    }
}
