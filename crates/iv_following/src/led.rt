//! What the keeper of a log that is led is told in a round, and that the gateway is over once that keeper has gone.
ghost use Rattle.std.specs.Prelude.{◌≡◌, IfSome, OnOk, false, is_some, true};
ghost use Rattle.iv_desk.specs.Desks.{IsDesk};
ghost use Rattle.iv_desk.specs.Front.{Front};
ghost use Rattle.iv_following.specs.Following.{AreTold};
ghost use Rattle.iv_following.specs.Guests.{has_keeper, has_leader, out_to, stage_of};
ghost use Rattle.iv_following.specs.Rounds.{has_ended, kept_of};

use crate::following::Following;
use iv_desk::Desk;
use iv_running::Fault;

impl Following {
    /// Whether the log is led.
    pub fn leads(&self) -> bool
        ensures { result ≡ is_some self.now.means.lead }
    {
        self.means.lead.is_some()
    }

    /// Up to where what the gateway has decided is in the log: the greatest number if it leads none.
    pub fn kept(&self) -> u64
        ensures { result ≡ kept_of self.now }
    {
        match &self.means.lead {
            None => u64::MAX,
            Some(lead) => lead.kept,
        }
    }

    /// The keeper is told from where the gateway leads, if it was not. All up to there is on disk by then.
    ///
    /// # Errors
    /// `Memory` if a growth of memory was refused.
    pub fn say_lead(&mut self, desk: &Desk) -> Result<(), Fault>
        ensures ended { has_ended self.old ≡ true → has_ended self.new ≡ true }
        ensures kept { self.new.means ≡ self.old.means }
    {
        if let Some(guest) = &mut self.guest {
            guest.lead(desk)?;
        }
        Ok(())
    }

    /// The keeper is told what the gateway has decided, if it was not.
    ///
    /// # Errors
    /// `Memory` if a growth of memory was refused.
    pub fn say_steps(&mut self, desk: &Desk) -> Result<(), Fault>
        ensures ended { has_ended self.old ≡ true → has_ended self.new ≡ true }
        ensures kept { kept_of self.new ≡ kept_of self.old }
        ensures leads { is_some self.new.means.lead ≡ is_some self.old.means.lead }
        ensures told { OnOk result ((d : Front) → IsDesk d desk.now → d.gate.dead ≡ false → has_keeper self.old.guest ≡ true
            → IfSome self.old.means.lead (λ a. IfSome self.new.means.lead (λ b.
            AreTold d.gate a (out_to (stage_of self.old.guest)) b (out_to (stage_of self.new.guest))))) }
    {
        let Some(lead) = &mut self.means.lead else {
            return Ok(());
        };
        match &mut self.guest {
            None => Ok(()),
            Some(guest) => match guest.decide(lead, desk) {
                Ok(()) => Ok(()),
                Err(error) => Err(Fault::from(error)),
            },
        }
    }

    /// Whether the keeper is there that has said that the gateway leads.
    fn has_leader(&self) -> bool
        ensures { result ≡ has_leader self.now.guest }
    {
        match &self.guest {
            Some(guest) => guest.has_led(),
            None => false,
        }
    }

    /// Who leads is over once the keeper has gone that said so: what was decided and not kept is in no file, and nobody was told. Another one
    /// has not said it.
    pub(crate) fn is_over(&self) -> Result<(), Fault>
        ensures { OnOk result (is_some self.now.means.lead ≡ true → has_leader self.now.guest ≡ true) }
    {
        if !self.leads() || self.has_leader() {
            return Ok(());
        }
        let _ = eprintln!(self.means.rt;
            "gateway: the log: its keeper has gone, and the gateway led it: start again, and follow"
        );
        Err(Fault::Log)
    }
}
