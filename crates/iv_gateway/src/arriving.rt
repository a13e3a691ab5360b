//! `take_step`: a step of the log that is followed is taken whole, or the gateway is dead. Each client is told once what differs after it.
ghost use Rattle.std.specs.Prelude.{◌≡◌, ◌++◌, ◌∷◌, [], IfErr, IfOk, OnErr, OnOk, false, map, true};
ghost use Rattle.std.specs.List.{list_all};
ghost use Rattle.iv_command.specs.Views.{line_of};
ghost use Rattle.iv_machine.specs.Machine.{Outcome};
ghost use Rattle.iv_clients.specs.Clients.{own_lines};
ghost use Rattle.iv_records.specs.Journal.{Entry};
ghost use Rattle.iv_clients.specs.Kept.{kept_slots};
ghost use Rattle.iv_steps.specs.Steps.{is_well_fact};
ghost use Rattle.iv_engine.specs.Stepped.{is_write};
ghost use Rattle.iv_message.specs.Told.{granted};
ghost use Rattle.iv_gate.specs.Arriving.{fact_of, newly, takes};
ghost use Rattle.iv_gate.specs.Events.{IsWell, arrived, failed, next};
ghost use Rattle.iv_gate.specs.Gate.{Gate, informs, settles, shape_text, went_on};
ghost use Rattle.iv_gateway.specs.Arriving.{IsCarried, IsEntered, IsFaultOf, IsLanded, IsNotLanded, IsRefusedBy, IsTakenBy};
ghost use Rattle.iv_notices.specs.Newly.{AreBefore, AreNewly};
ghost use Rattle.iv_gateway.specs.Views.{IsAlive, IsGate};

use crate::gateway::Gateway;
use iv_arrivals::{Step, are_writes, facts_of, learn};
use iv_clients::drop_ended;
use iv_command::{Line, Refusal};
use iv_engine::{Fact, StepFault as EngineFault};
use iv_message::laws::told_texts_are_lines;
use iv_notices::{Readable, all_readable, hear_newly};
use iv_records::{Request, push_step};
use iv_request::laws::requests_are_well;
use iv_steps::laws::refusals_are_found;
use std::alloc::AllocError;

/// Why a step is not taken. The gateway is dead then.
#[derive(Drop)]
pub enum StepFault {
    /// The gateway decides the log itself.
    Led,
    /// It is of another log, or none is followed.
    OtherLog,
    /// It does not begin at the position, which is told, or leads nowhere.
    Gap(u64),
    /// This request of it, counted from 1, is the first that is refused, and why.
    NotAccepted(usize, Refusal),
    /// This name of it, counted from 1, is the first that may have an answer already.
    NotNew(usize),
    /// A growth of memory was refused.
    Memory,
    /// The gateway was dead.
    Dead,
}

impl From<AllocError> for StepFault {
    ghost use Rattle.iv_gateway.specs.declared.arriving.StepFault.TheVariants.{Memory};

    ghost from_gives = { λ _ fault. fault ≡ Memory };

    /// Out of memory, as why a step is not taken.
    fn from(_error: AllocError) -> StepFault {
        StepFault::Memory
    }
}

impl Gateway {
    /// Takes a step of the log that is followed: all of it is done, and each client is told once what differs after it; where it was taken
    /// before nothing happens. Whether it was not.
    ///
    /// Its requests and names have to be as a journal has them, and their texts such as a journal holds: `read_step` reads such steps.
    ///
    /// A step that writes rows alone costs what it writes, and the clients who are told of it. Where it has other requests, all clients are
    /// looked at: once before it for their roles, of which is asked what each may do, and once after it if a role may do more.
    ///
    /// # Errors
    /// Why it is not taken. The gateway is dead then.
    pub fn take_step(&mut self, step: Step) -> Result<bool, StepFault>
        requires { IsWell (arrived step) }
        ensures gate { OnOk result ((g : Gate) → IsGate g self.old → IsGate (next g (arrived step)) self.new) }
        ensures taken { IfOk result (λ is. (g : Gate) → IsGate g self.old → IsTakenBy g step is) }
        ensures fault { IfErr result (λ f. (g : Gate) → IsGate g self.old → g.dead ≡ false → IsFaultOf g step f) }
        ensures fails { OnErr result ((g : Gate) → IsGate g self.old → IsGate (next g failed) self.new) }
    {
        if self.dead {
            drop(step);
            return Err(StepFault::Dead);
        }
        match self.follow_step(step) {
            Ok(is) => {
                self.dead = false;
                Ok(is)
            }
            Err(fault) => {
                self.dead = true;
                Err(fault)
            }
        }
    }

    /// Takes a step where it is the next one, or was taken before. Whether it was not.
    fn follow_step(&mut self, step: Step) -> Result<bool, StepFault>
        requires { IsWell (arrived step) }
        ensures gate { IfOk result (λ is. (g : Gate) → IsAlive g self.old → IsTakenBy g step is × IsAlive (takes g step) self.new) }
        ensures fault { IfErr result (λ f. (g : Gate) → IsAlive g self.old → IsFaultOf g step f) }
    {
        if self.leads {
            drop(step);
            return Err(StepFault::Led);
        }
        if !step.is_of(&self.log) {
            drop(step);
            return Err(StepFault::OtherLog);
        }
        if step.is_past(self.position) {
            drop(step);
            return Ok(false);
        }
        if !step.is_next(self.position) {
            drop(step);
            return Err(StepFault::Gap(self.position));
        }
        self.land(step)?;
        Ok(true)
    }

    /// Carries the next step out whole, and has it told.
    fn land(&mut self, step: Step) -> Result<(), StepFault>
        requires { IsWell (arrived step) }
        ensures landed { OnOk result ((g : Gate) → IsAlive g self.old → IsLanded g step self.new) }
        ensures fault { IfErr result (λ f. (g : Gate) → IsAlive g self.old → IsNotLanded g step f) }
    {
        requests_are_well();
        refusals_are_found();
        let before = self.readable_before(&step.requests)?;
        let mut made = Vec::new(self.alloc);
        let facts = self.enter_step(step, &mut made)?;
        let lines = self.carry_step(facts)?;
        self.tell_step(&lines, &before, &made)?;
        Ok(())
    }

    /// What the roles of clients may do, unless requests write rows alone: by these nobody may do more.
    fn readable_before(&self, requests: &[Request]) -> Result<Vec<Readable>, AllocError>
        ensures { IfOk result (λ before. (g : Gate) → IsAlive g self.now
            → AreBefore g.machine.frame (list_all (λ q. is_write q.act) requests.now) before.items (kept_slots g.clients)) }
    {
        if are_writes(requests) {
            return Ok(Vec::new(self.alloc));
        }
        let all = all_readable(self.alloc, &self.engine, &self.clients)?;
        Ok(all)
    }

    /// The journal is to have a step, whose names are learned. Its facts; what it makes of the shape is appended.
    fn enter_step(&mut self, step: Step, made: &mut Vec<u8>) -> Result<Vec<Fact>, StepFault>
        requires { made.old.items ≡ [] }
        ensures facts { IfOk result (λ facts. facts.items ≡ map fact_of step.requests) }
        ensures entered { OnOk result ((g : Gate) → IsAlive g self.old → IsEntered g step made.new.items self.new) }
        ensures fault { IfErr result (λ f. (g : Gate) → IsAlive g self.old → IsNotLanded g step f) }
    {
        push_step(
            self.alloc,
            &mut self.pending,
            &step.requests,
            &step.names,
            step.to,
        )?;
        let Step {
            log,
            to,
            requests,
            names,
            ..
        } = step;
        drop(log);
        match learn(&mut self.names, names)? {
            None => {}
            Some(place) => {
                drop(requests);
                return Err(StepFault::NotNew(place));
            }
        }
        self.position = to;
        let facts = facts_of(self.alloc, made, requests)?;
        self.shape.extend_from_slice(made)?;
        Ok(facts)
    }

    /// Has the engine take facts as one step. Nobody is told yet.
    fn carry_step(&mut self, facts: Vec<Fact>) -> Result<Vec<Line>, StepFault>
        requires { list_all is_well_fact facts.items ≡ true }
        ensures carried { IfOk result (λ lines. (g : Gate) → IsAlive g self.old → IsCarried g facts.items (map line_of lines.items) self.new) }
        ensures refused { IfErr result (λ f. (g : Gate) → IsAlive g self.old → IsRefusedBy g facts.items f) }
    {
        match self.engine.step(facts) {
            Ok(lines) => Ok(lines),
            Err(EngineFault::Refused { fact, refusal }) => {
                Err(StepFault::NotAccepted(fact, refusal))
            }
            Err(_) => Err(StepFault::Memory),
        }
    }

    /// Has the lines of a step told, and then on which relations roles may do more. What ended is shared no more.
    fn hear_step(&mut self, lines: &[Line], before: &[Readable]) -> Result<(), AllocError>
        ensures { OnOk result ((g : Gate) (o : Outcome) → IsAlive (record g { machine = o.state }) self.old → map line_of lines.now ≡ o.lines
            → AreNewly g.machine.frame o.state.frame before.now (kept_slots g.clients)
            → IsAlive (went_on g o (λ c. own_lines g.feeds o.lines c.subs ++ map granted (newly g.machine.frame o.state.frame c.role))) self.new) }
    {
        told_texts_are_lines();
        self.clients.hear(self.alloc, &self.feeds, lines)?;
        hear_newly(self.alloc, &mut self.clients, &self.engine, before)?;
        self.clients.stay(lines);
        drop_ended(&mut self.feeds, lines);
        Ok(())
    }

    /// Has a step told: its lines, on which relations roles may do more, to administrators what it makes of the shape, and that this is all.
    fn tell_step(
        &mut self,
        lines: &[Line],
        before: &[Readable],
        made: &[u8],
    ) -> Result<(), AllocError>
        ensures { OnOk result ((g : Gate) (o : Outcome) (e : Entry) → IsAlive (record g { machine = o.state }) self.old → map line_of lines.now ≡ o.lines
            → AreNewly g.machine.frame o.state.frame before.now (kept_slots g.clients) → made.now ≡ shape_text (e ∷ [])
            → IsAlive (settles (informs (went_on g o
            (λ c. own_lines g.feeds o.lines c.subs ++ map granted (newly g.machine.frame o.state.frame c.role))) (e ∷ []))) self.new) }
    {
        self.hear_step(lines, before)?;
        self.inform(made)?;
        self.settle_told()?;
        Ok(())
    }
}
