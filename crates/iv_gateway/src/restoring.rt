//! `restore`: brings a gateway to where the lines of a journal lead.
ghost use Rattle.std.specs.Prelude.{◌≡◌, ◌<◌, ◌≤◌, ◌++◌, ◌∷◌, [], ℕ, List, Option, Err, IfOk, IfSome, OnErr, length, map, true};
ghost use Rattle.std.specs.List.{AllByRecursion};
ghost use Rattle.iv_command.specs.Views.{act_of};
ghost use Rattle.iv_machine.specs.Well.{is_well_act};
ghost use Rattle.iv_machine.specs.State.{State};
ghost use Rattle.iv_records.specs.Journal.{Entry, IsEntry, IsRequest, Request as RequestSpec};
ghost use Rattle.iv_gate.specs.Arriving.{fact_of};
ghost use Rattle.iv_gate.specs.Events.{failed, next};
ghost use Rattle.iv_gate.specs.Gate.{Gate};
ghost use Rattle.iv_gate.specs.Restoring.{IsDamagedAt};
ghost use Rattle.iv_steps.specs.Steps.{all_carried, carried, passed};
ghost use Rattle.iv_gateway.specs.Replays.{AreNamesReplayed, HasReplayed, IsNameReplayed, IsNew, IsPassed, IsRecordReplayed, IsReplayed, IsReplaying};
ghost use Rattle.iv_gateway.specs.Replays.{IsRestored, IsStepReplayed, behind, part, with_request};
ghost use Rattle.iv_gateway.specs.Views.{IsAlive, IsGate};

use crate::gateway::Gateway;
use iv_arrivals::push_shape;
use iv_command::{Act, Command};
use iv_journal::Line;
use iv_notices::is_accepted;
use iv_once::Named;
use iv_records::laws::records_are_read_back;
use iv_records::{Entry, Request, read_record};
use iv_request::laws::requests_are_well;
use std::alloc::AllocError;

/// The session in which entries run: nobody is there yet.
const ENTRY_SESSION: u32 = 1;

/// Why a journal restores nothing.
#[derive(Clone, Copy, Debug, PartialEq, Eq)]
pub enum RestoreFault {
    /// A growth of memory was refused.
    Memory,
    /// At this line of the journal, counted from none, begins no record of an entry that is accepted again, of names that are new, at a position
    /// after the last.
    Damaged(usize),
    /// The gateway has entries that wait for the journal, or is dead: only a new one is restored.
    Late,
}

impl Gateway {
    /// Brings a new gateway to where a journal leads, of which it is given the lines of whole records. What came after them is to be cut
    /// off, and the journal synced, before anything happens.
    ///
    /// # Errors
    /// `Damaged` with the line where the journal is no journal of this gateway; `Memory` if a growth of memory was refused; `Late`
    /// if something waits for the journal, or the gateway was dead. The gateway is dead then.
    pub fn restore(&mut self, journal: &[Line<'_>]) -> Result<(), RestoreFault>
        ensures restored { IfOk result (λ _. (g : Gate) → IsNew g → IsGate g self.old → IsRestored g journal.now self.new) }
        ensures damaged { (place : ℕ) → result ≡ Err (RestoreFault.Damaged place)
            → (g : Gate) → IsNew g → IsGate g self.old → IsDamagedAt g journal.now place }
        ensures fails { OnErr result ((g : Gate) → IsGate g self.old → IsGate (next g failed) self.new) }
    {
        if self.dead || !self.pending.is_empty() {
            self.dead = true;
            return Err(RestoreFault::Late);
        }
        match self.replay(journal) {
            Ok(()) => {
                self.dead = false;
                Ok(())
            }
            Err(fault) => {
                self.dead = true;
                Err(fault)
            }
        }
    }

    /// Runs the entries of a journal. What was refused is forgiven.
    fn replay(&mut self, journal: &[Line<'_>]) -> Result<(), RestoreFault>
        ensures replayed { IfOk result (λ _. (g : Gate) → IsNew g → IsAlive g self.old → HasReplayed g journal.now self.new) }
        ensures damaged { (place : ℕ) → result ≡ Err (RestoreFault.Damaged place)
            → (g : Gate) → IsNew g → IsAlive g self.old → IsDamagedAt g journal.now place }
    {
        let mut at = 0usize;
        'lines: while at < journal.len() {
            match self.replay_record(&journal[at..]) {
                Err(_) => return Err(RestoreFault::Memory),
                Ok(None) => return Err(RestoreFault::Damaged(at)),
                Ok(Some(count)) => at += count,
            }
        }
        self.names.forgive();
        Ok(())
    }

    /// Runs the entry of the first record. Answers how many lines that has, where its entry is one that may stand there.
    fn replay_record(&mut self, lines: &[Line<'_>]) -> Result<Option<usize>, AllocError>
        ensures replayed { IfOk result (λ o. (g : Gate) (es : List Entry) → IsReplaying g es self.old → IsRecordReplayed g es lines.now o self.new) }
        ensures within { IfOk result (λ o. IfSome o (λ n. n ≤ length lines.now)) }
        ensures some { IfOk result (λ o. IfSome o (λ n. 0 < n)) }
    {
        records_are_read_back();
        match read_record(self.alloc, lines, &mut self.scratch)? {
            None => Ok(None),
            Some((entry, count)) => {
                if self.replay_entry(entry)? {
                    Ok(Some(count))
                } else {
                    Ok(None)
                }
            }
        }
    }

    /// Runs an entry. Whether it may stand there: it is accepted, its names are new, and its position is after the last.
    fn replay_entry(&mut self, entry: Entry) -> Result<bool, AllocError>
        requires { IsEntry entry }
        ensures { IfOk result (λ is. (g : Gate) (es : List Entry) → IsReplaying g es self.old → IsReplayed g es entry is self.new) }
    {
        let Entry {
            requests,
            names,
            position,
        } = entry;
        if !self.replay_position(position) {
            return Ok(false);
        }
        if !self.replay_requests(requests)? {
            return Ok(false);
        }
        let are_new = self.replay_names(names)?;
        Ok(are_new)
    }

    /// Goes on to the position of an entry, if it is a step's. Whether that is behind the last.
    fn replay_position(&mut self, position: Option<u64>) -> bool
        ensures { (g : Gate) (s : State) (es : List Entry) → IsAlive (behind g s es) self.old → IsStepReplayed g s es position result self.new }
    {
        match position {
            None => true,
            Some(place) => {
                if place <= self.position {
                    return false;
                }
                self.position = place;
                self.settled = place;
                true
            }
        }
    }

    /// Runs the requests of an entry. Whether all are accepted.
    fn replay_requests(&mut self, requests: Vec<Request>) -> Result<bool, AllocError>
        requires { AllByRecursion IsRequest requests.items }
        ensures { IfOk result (λ is. (g : Gate) (s : State) (es : List Entry) (p : Option ℕ) → IsAlive (behind g s (es ++ part [] [] p ∷ [])) self.old
            → IsPassed (behind g s (es ++ part requests.items [] p ∷ [])) (all_carried (map fact_of requests.items) s) is self.new) }
    {
        for request in requests {
            if !self.replay_request(request)? {
                return Ok(false);
            }
        }
        Ok(true)
    }

    /// Learns the names of an entry, which have their answers. Whether they had none.
    fn replay_names(&mut self, names: Vec<Named>) -> Result<bool, AllocError>
        ensures { IfOk result (λ is. (g : Gate) (s : State) (es : List Entry) (qs : List RequestSpec) (p : Option ℕ)
            → IsAlive (behind g s (es ++ part qs [] p ∷ [])) self.old → AreNamesReplayed g s es qs names.items p is self.new) }
    {
        for name in names {
            if !self.replay_name(name)? {
                return Ok(false);
            }
        }
        Ok(true)
    }

    /// Learns a name that has its answer. Whether it had none.
    fn replay_name(&mut self, name: Named) -> Result<bool, AllocError>
        ensures { IfOk result (λ is. (g : Gate) (s : State) (es : List Entry) (e : Entry) → IsAlive (behind g s (es ++ e ∷ [])) self.old
            → IsNameReplayed g s es e name is self.new) }
    {
        if !self.names.is_new(&name.ask) {
            return Ok(false);
        }
        self.names.push(name)?;
        Ok(true)
    }

    /// Runs a request of an entry, and appends what it makes of the shape. Whether it is accepted.
    fn replay_request(&mut self, request: Request) -> Result<bool, AllocError>
        requires { IsRequest request }
        ensures { IfOk result (λ is. (g : Gate) (s : State) (es : List Entry) (e : Entry) → IsAlive (behind g s (es ++ e ∷ [])) self.old
            → IsPassed (behind g s (es ++ with_request e request ∷ [])) (carried (fact_of request) s) is self.new) }
    {
        requests_are_well();
        let Request { role, line, act } = request;
        push_shape(self.alloc, &mut self.shape, role.as_str(), &line, &act)?;
        if !self.pass(Act::Begin { role })? {
            return Ok(false);
        }
        if !self.pass(act)? {
            return Ok(false);
        }
        let is_finished = self.pass(Act::Finish)?;
        Ok(is_finished)
    }

    /// Runs an act in the session of entries. Whether it is accepted.
    fn pass(&mut self, act: Act) -> Result<bool, AllocError>
        requires { is_well_act (act_of act) ≡ true }
        ensures { IfOk result (λ is. (g : Gate) → IsAlive g self.old → IsPassed g (passed (act_of act) g.machine) is self.new) }
    {
        let lines = self.run(Command {
            session: ENTRY_SESSION,
            act,
        })?;
        Ok(is_accepted(&lines))
    }
}
