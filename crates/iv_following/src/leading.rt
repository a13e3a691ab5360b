//! `Lead`: how far a log is led, and what its keeper is told of that.
ghost use Rattle.std.specs.Prelude.{◌≡◌, ◌++◌, ◌∷◌, [], IfErr, OnErr, OnOk, Some, false, if◌then◌else◌};
ghost use Rattle.iv_gate.specs.Arriving.{position, settled_at};
ghost use Rattle.iv_desk.specs.Desks.{IsDesk};
ghost use Rattle.iv_desk.specs.Front.{Front};
ghost use Rattle.iv_door.specs.Answers as answer;
ghost use Rattle.iv_door.specs.Answers.{not_decided, on_disk};
ghost use Rattle.iv_door.specs.Views.{fault_of};
ghost use Rattle.iv_running.specs.Running.{Leads};
ghost use Rattle.iv_following.specs.Following.{IsKept, IsLed, steps_told};

use crate::telling::Told;
use iv_desk::Desk;
use iv_door::{push_leads, push_steps};
use iv_running::leading::lead;
use std::alloc::AllocError;
use std::marker::Model;

/// How far a log is led.
#[derive(Drop)]
pub(crate) struct Lead {
    /// Up to where its keeper was told what the gateway has decided.
    pub(crate) told: u64,
    /// Up to where that is in the log.
    pub(crate) kept: u64,
}

impl Model for Lead {
    ghost use Rattle.iv_following.specs.Following.{Lead as Leading};

    ghost Value = { Leading };

    ghost view = { λ a. record { told = a.told; kept = a.kept } };
}

impl Lead {
    /// What was decided is in the log up to a position.
    ///
    /// # Errors
    /// If less was before, or the keeper was not told as much.
    pub(crate) fn keep(&mut self, position: u64) -> Result<(), iv_door::Fault>
        ensures kept { OnOk result (IsKept position self.old self.new) }
        ensures fault { IfErr result (λ f. fault_of f ≡ Some (not_decided position self.old.kept self.old.told)) }
        ensures fails { OnErr result (self.new ≡ self.old) }
    {
        if position < self.kept || self.told < position {
            return Err(iv_door::Fault::NotDecided(position, self.kept, self.told));
        }
        self.kept = position;
        Ok(())
    }
}

/// The desk leads from where it is: its keeper has brought all up to there.
pub(crate) fn begin_to_lead(desk: &mut Desk) -> Lead
    ensures leads { Leads desk.old desk.new }
    ensures led { IsLed desk.old desk.new result }
{
    let position = desk.position();
    lead(desk);
    Lead {
        told: position,
        kept: position,
    }
}

impl Told {
    /// Appends from where the gateway leads, if that is owed, behind what is on disk.
    ///
    /// # Errors
    /// `AllocError` if a growth of memory was refused.
    pub(crate) fn lead(&mut self, desk: &Desk) -> Result<(), AllocError>
        ensures told { OnOk result ((d : Front) → IsDesk d desk.now → d.gate.dead ≡ false → self.new.out.items ≡ self.old.out.items ++ (if self.old.leads
            then (if self.old.owes then on_disk (settled_at d.gate) ++ 10 ∷ [] else []) ++ (answer.leads (settled_at d.gate) ++ 10 ∷ []) else [])) }
        ensures once { OnOk result (self.new.leads ≡ false) }
    {
        if !self.leads {
            return Ok(());
        }
        self.settle(desk)?;
        push_leads(&mut self.out, desk.settled_at())?;
        self.out.push(b'\n')?;
        self.leads = false;
        Ok(())
    }

    /// Appends what the gateway has decided and the journal has not, as steps, if the keeper was not told that.
    ///
    /// # Errors
    /// `AllocError` if a growth of memory was refused.
    pub(crate) fn decide(&mut self, lead: &mut Lead, desk: &Desk) -> Result<(), AllocError>
        ensures told { OnOk result ((d : Front) → IsDesk d desk.now → d.gate.dead ≡ false
            → self.new.out.items ≡ self.old.out.items ++ steps_told d.gate lead.old) }
        ensures lead { OnOk result ((d : Front) → IsDesk d desk.now → d.gate.dead ≡ false → lead.new ≡ record lead.old { told = position d.gate }) }
        ensures kept { lead.new.kept ≡ lead.old.kept }
    {
        let position = desk.position();
        if lead.told == position {
            return Ok(());
        }
        push_steps(&mut self.out, desk.settled_at(), desk.entered())?;
        lead.told = position;
        Ok(())
    }
}
