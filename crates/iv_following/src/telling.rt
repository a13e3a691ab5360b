//! `Told`: what a keeper is told: what is held, what is on disk, what was recalled, and why nothing more is taken.
ghost use Rattle.std.specs.Prelude.{◌≡◌, ◌≢◌, ◌++◌, ◌∷◌, [], IfErr, None, OnOk, Some, false, if◌then◌else◌, option_map, true};
ghost use Rattle.iv_gate.specs.Arriving.{settled_at};
ghost use Rattle.iv_desk.specs.Desks.{IsDesk};
ghost use Rattle.iv_desk.specs.Front.{Front};
ghost use Rattle.iv_door.specs.Answers as answer;
ghost use Rattle.iv_door.specs.Answers.{hello, on_disk};
ghost use Rattle.iv_door.specs.Views.{fault_of};
ghost use Rattle.iv_following.specs.Failing.{IsFailed, IsLineTold, IsUnread};
ghost use Rattle.iv_following.specs.Following.{IsRecalled};

use iv_desk::Desk;
use iv_door::{Log, push_fault, push_hello, push_on_disk, push_recalled, push_words};
use iv_running::{Fault, recalled_in};
use std::alloc::{AllocError, Global};
use std::fs;

/// What a keeper is to be told.
#[derive(Drop)]
pub(crate) struct Told {
    /// The bytes, of which so many were sent.
    pub(crate) out: Vec<u8>,
    pub(crate) sent: usize,
    /// It is to be told what is on disk.
    pub(crate) owes: bool,
    /// It is to be told that the gateway leads.
    pub(crate) leads: bool,
}

/// Says why nothing more is taken.
fn say(rt: &HostRuntime, fault: &iv_door::Fault) -> Result<(), AllocError> {
    let mut words = Vec::new(rt.alloc());
    push_words(&mut words, fault)?;
    if let Ok(words) = str::from_utf8(&words) {
        let _ = eprintln!(rt; "gateway: the log: {words}");
    }
    Ok(())
}

impl Told {
    /// Nothing.
    pub(crate) fn new(alloc: Global) -> Told
        ensures { (result.out.items ≡ []) × (result.owes ≡ false) }
    {
        Told {
            out: Vec::new(alloc),
            sent: 0,
            owes: false,
            leads: false,
        }
    }

    /// The keeper is to be told what is on disk.
    pub(crate) fn owe(&mut self)
        ensures { self.new ≡ record self.old { owes = true } }
    {
        self.owes = true;
    }

    /// Appends what is held: the log that is followed, up to a position.
    ///
    /// # Errors
    /// `AllocError` if a growth of memory was refused.
    pub(crate) fn greet(
        &mut self,
        rows: u32,
        log: &Option<Log>,
        position: u64,
    ) -> Result<(), AllocError>
        ensures { OnOk result (self.new.out.items
            ≡ self.old.out.items ++ (hello rows (option_map (λ l. record { log = l; position = position }) log.now) ++ 10 ∷ [])) }
    {
        push_hello(&mut self.out, rows, log, position)?;
        self.out.push(b'\n')?;
        Ok(())
    }

    /// Appends the line at the end of what was recalled.
    fn end_recall(&mut self, position: u64) -> Result<(), AllocError>
        ensures { OnOk result (self.new.out.items ≡ self.old.out.items ++ (answer.recalled position ++ 10 ∷ [])) }
    {
        push_recalled(&mut self.out, position)?;
        self.out.push(b'\n')?;
        Ok(())
    }

    /// Appends requests, and the line at their end.
    fn push_recall(&mut self, requests: &[u8], position: u64) -> Result<(), AllocError>
        ensures { OnOk result (self.new.out.items ≡ self.old.out.items ++ (requests.now ++ (answer.recalled position ++ 10 ∷ []))) }
    {
        self.out.extend_from_slice(requests)?;
        self.end_recall(position)?;
        Ok(())
    }

    /// Appends what the journal has, which is all on disk, up to a position.
    ///
    /// # Errors
    /// `Journal` if the journal cannot be read, `Memory` if a growth of memory was refused.
    pub(crate) fn recall(
        &mut self,
        rt: &HostRuntime,
        path: &str,
        position: u64,
    ) -> Result<(), Fault>
        ensures recalled { OnOk result (IsRecalled position self.old.out.items self.new.out.items) }
        ensures fault { IfErr result IsUnread }
    {
        let Ok(bytes) = fs::read(rt, path) else {
            return Err(Fault::Journal);
        };
        let Ok(requests) = recalled_in(rt, path, &bytes) else {
            return Err(Fault::Journal);
        };
        match self.push_recall(&requests, position) {
            Ok(()) => Ok(()),
            Err(_) => Err(Fault::Memory),
        }
    }

    /// Appends up to where the journal has the log, if that is owed.
    ///
    /// # Errors
    /// `AllocError` if a growth of memory was refused.
    pub(crate) fn settle(&mut self, desk: &Desk) -> Result<(), AllocError>
        ensures told { OnOk result ((d : Front) → IsDesk d desk.now → d.gate.dead ≡ false
            → self.new.out.items ≡ self.old.out.items ++ (if self.old.owes then on_disk (settled_at d.gate) ++ 10 ∷ [] else [])) }
        ensures owes { OnOk result (self.new.owes ≡ false) }
    {
        if !self.owes {
            return Ok(());
        }
        self.owes = false;
        push_on_disk(&mut self.out, desk.settled_at())?;
        self.out.push(b'\n')?;
        Ok(())
    }

    /// Appends the line of a fault.
    fn push_fault(&mut self, fault: &iv_door::Fault) -> Result<(), AllocError>
        ensures { OnOk result ((f : answer.Fault) → fault_of fault.now ≡ Some f → IsLineTold f self.old.out.items self.new.out.items) }
    {
        push_fault(&mut self.out, fault)?;
        self.out.push(b'\n')?;
        Ok(())
    }

    /// Why nothing more is taken: the keeper is to be told, and it is said.
    pub(crate) fn fail(&mut self, rt: &HostRuntime, fault: &iv_door::Fault) -> Fault
        ensures { IsFailed result (fault_of fault.now) self.old.out.items self.new.out.items }
    {
        let iv_door::Fault::Memory = fault else {
            return self.fail_told(rt, fault);
        };
        Fault::Memory
    }

    /// The same, of what is not want of memory.
    fn fail_told(&mut self, rt: &HostRuntime, fault: &iv_door::Fault) -> Fault
        requires { fault_of fault.now ≢ None }
        ensures { IsFailed result (fault_of fault.now) self.old.out.items self.new.out.items }
    {
        let Ok(()) = self.push_fault(fault) else {
            return Fault::Memory;
        };
        match say(rt, fault) {
            Ok(()) => Fault::Log,
            Err(_) => Fault::Memory,
        }
    }
}
