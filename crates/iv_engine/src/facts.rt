//! `Engine::step`: facts that others decided are taken at once, and each reader is told once what differs.
//!
//! Who is there is set aside first, so no reader's limit can refuse a fact and nothing is told of a state between. Then the facts are carried
//! out, each in a session of its role; and when all are, each reader is looked at. Where they were writes, its circuit takes in what they changed
//! together, unless it would be beyond the limits; else it is built anew.
ghost use Rattle.std.specs.Prelude.{◌≡◌, ◌==◌, ◌↔◌, [], IfErr, IfOk, OnErr, OnOk, map, true, false, ℕ};
ghost use Rattle.std.specs.List.{All, list_all, list_any};
ghost use Rattle.iv_circuit.specs.Deltas.{change_in};
ghost use Rattle.iv_database.specs.Database.{IsDatabase};
ghost use Rattle.iv_command.specs.Views.{line_of};
ghost use Rattle.iv_engine.specs.Sound.{IsSoundEngine};
ghost use Rattle.iv_engine.specs.Carried.{AreCarried, IsCarried, IsEmpty, IsTakenIn};
ghost use Rattle.iv_engine.specs.Stepped.{AreCountedOnce, AreWrites, IsGivenFact, RefusesStep, TakesStep, is_write};
ghost use Rattle.iv_store.specs.Answering.{seen};
ghost use Rattle.iv_steps.specs.Steps.{is_well_fact};
ghost use Rattle.iv_engine.specs.Summed.{AreSumsOf, AreSumsSince, AreTold};
ghost use Rattle.iv_store.specs.Aside.{AreBack};
ghost use Rattle.iv_store.specs.Followed.{AreReady};
ghost use Rattle.iv_store.specs.Store.{IsSoundStore, Store, database_of};

use crate::engine::Engine;
use crate::step::act;
use crate::sums::{Sums, carry_out};
use iv_command::{Act, Line, Refusal, Stop};
use iv_store::Store;
use std::alloc::AllocError;
use std::marker::Model;

/// What was done elsewhere, and in which role.
#[derive(Drop)]
pub struct Fact {
    /// The role in which it was done.
    pub role: String,
    /// What was done: a request that changes what is shared.
    pub act: Act,
}

impl Model for Fact {
    ghost use Rattle.std.specs.Prelude.{string_bytes};
    ghost use Rattle.iv_command.specs.Views.{act_of};
    ghost use Rattle.iv_steps.specs.Steps.{Fact};

    ghost Value = { Fact };

    ghost view = { λ f. record { role = string_bytes f.role; act = act_of f.act } };
}

/// Why a step is not taken.
#[derive(Drop)]
pub enum StepFault {
    /// A growth of memory was refused.
    Memory,
    /// The engine had failed before.
    Failed,
    /// A fact is refused.
    Refused {
        /// The place of the first such fact, counted from 1.
        fact: usize,
        /// Why it is refused.
        refusal: Refusal,
    },
}

impl From<AllocError> for StepFault {
    ghost use Rattle.iv_engine.specs.declared.facts.StepFault.TheVariants.{Memory};

    ghost from_gives = { λ _ fault. fault ≡ Memory };

    /// Out of memory, as why a step is not taken.
    fn from(_error: AllocError) -> StepFault {
        StepFault::Memory
    }
}

/// The session in which a fact is carried out.
const SESSION: u32 = 1;

/// Carries a fact out in a session of its role, the only one, which is closed after it, and adds what a write changes of tables. After an
/// error nothing is promised.
fn carry(store: &mut Store, fact: Fact, sums: &mut Sums) -> Result<(), Stop>
    requires well { is_well_fact fact ≡ true }
    requires sound { IsSoundStore store.old }
    requires empty { IsEmpty store.old }
    requires sums { AreSumsSince sums.old store.old }
    ensures carried { IsCarried store.old fact result store.new }
    ensures others { OnOk result (is_write fact.act ≡ true → sums.new.others ≡ sums.old.others) }
    ensures sums { OnOk result ((before : Store) → IsDatabase (database_of before) → AreSumsOf before sums.old store.old → AreSumsOf before sums.new store.new) }
{
    let Fact { role, act: done } = fact;
    let begun = act(store, SESSION, Act::Begin { role })?;
    drop(begun);
    let acted = carry_out(store, SESSION, done, sums)?;
    drop(acted);
    let finished = act(store, SESSION, Act::Finish)?;
    drop(finished);
    Ok(())
}

/// Carries facts out in their order, each in the only session, and adds what writes change of tables. After an error nothing is promised.
fn carry_all(store: &mut Store, facts: Vec<Fact>, sums: &mut Sums) -> Result<(), StepFault>
    requires well { list_all is_well_fact facts.items ≡ true }
    requires sound { IsSoundStore store.old }
    requires empty { IsEmpty store.old }
    requires sums { AreSumsOf store.old sums.old store.old }
    ensures carried { AreCarried store.old facts.items result store.new }
    ensures others { OnOk result (AreWrites facts.items → sums.new.others ≡ sums.old.others) }
    ensures sums { OnOk result (AreSumsOf store.old sums.new store.new) }
{
    let mut place = 0usize;
    for fact in facts {
        place += 1;
        match carry(store, fact, sums) {
            Ok(()) => {}
            Err(Stop::Refused(refusal)) => {
                return Err(StepFault::Refused {
                    fact: place,
                    refusal,
                });
            }
            Err(Stop::Memory) => return Err(StepFault::Memory),
        }
    }
    Ok(())
}

/// Says what readers see more and less, once facts were carried out: if these were writes their circuits take the changes in, unless one
/// would be beyond the limits; else each is built anew.
fn told(store: &mut Store, sums: Sums) -> Result<Vec<Line>, AllocError>
    requires back { AreBack store.old }
    requires ready { sums.others ≡ false → AreReady store.old (change_in sums.deltas) }
    requires tables { sums.others ≡ false → (t : ℕ) → list_any (λ s. t == s) sums.tables.items ≡ false → change_in sums.deltas t ≡ [] }
    ensures { IfOk result (λ lines. AreTold store.old sums lines.items store.new) }
{
    if sums.others {
        drop(sums);
        return store.look();
    }
    let Sums { deltas, tables, .. } = sums;
    match store.follow(&deltas, tables)? {
        Some(lines) => Ok(lines),
        None => store.look(),
    }
}

/// Takes a step, and says what readers are told. After an error nothing is promised.
fn take(store: &mut Store, facts: Vec<Fact>) -> Result<Vec<Line>, StepFault>
    requires well { list_all is_well_fact facts.items ≡ true }
    requires sound { IsSoundStore store.old }
    ensures taken { IsTakenIn store.old facts.items result store.new }
    ensures rounds { OnOk result (AreWrites facts.items → store.new.subscriptions ≡ store.old.subscriptions → AreCountedOnce (seen store.old) (seen store.new)) }
{
    let aside = store.set_aside();
    let mut sums = Sums::new(store);
    match carry_all(store, facts, &mut sums) {
        Ok(()) => {}
        Err(fault) => {
            drop(aside);
            drop(sums);
            return Err(fault);
        }
    }
    store.bring_back(aside);
    let lines = told(store, sums)?;
    Ok(lines)
}

impl Engine {
    /// Takes facts that others decided as one step: all are carried out, or none is. Each reader is told at most once, what it sees more and
    /// less after the step than before it; who may read no more, or is beyond the limits then, its end. No limit of a reader refuses a fact.
    ///
    /// # Errors
    /// `Failed` exactly if the engine had failed; `Memory` if a growth of memory was refused; `Refused` with the first fact that is
    /// refused in the only session. The engine has failed after each of them.
    pub fn step(&mut self, facts: Vec<Fact>) -> Result<Vec<Line>, StepFault>
        requires { list_all is_well_fact facts.items ≡ true }
        ensures taken { IfOk result (λ lines. TakesStep self.old facts.items (map line_of lines.items) self.new) }
        ensures refused { IfErr result (RefusesStep self.old facts.items) }
        // What facts whose texts are in UTF-8 leave of rights, catalog, policies and rows is sound.
        ensures sound { OnOk result (All IsGivenFact facts.items → IsSoundEngine self.old → IsSoundEngine self.new) }
        // If all facts are writes, and nobody is ended, no circuit is built anew: however many they are, each subscription that scans a table whose
        // counts differ after them counts one round more, and all others are as before.
        ensures rounds { OnOk result (AreWrites facts.items → self.new.frame.subscriptions ≡ self.old.frame.subscriptions → AreCountedOnce self.old self.new) }
        ensures went_on { OnOk result (self.new.failed ≡ false) }
        ensures fails { OnErr result (self.new.failed ≡ true) }
        ensures failed { result ≡ Err StepFault.Failed ↔ (self.old.failed ≡ true) }
        ensures failed_unchanged { self.old.failed ≡ true → self.new ≡ self.old }
    {
        if self.is_failed() {
            drop(facts);
            return Err(StepFault::Failed);
        }
        match take(&mut self.store, facts) {
            Ok(lines) => Ok(lines),
            Err(fault) => {
                self.failed = true;
                Err(fault)
            }
        }
    }
}
