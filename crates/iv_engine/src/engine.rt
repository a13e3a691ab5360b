//! `Engine`: `apply` answers a command, `hang_up` ends all sessions; one that failed answers none.
//!
//! The clause `known_rows` of `apply` follows from `lines`. It is said all the same: a leak is the worst fault. Of a
//! change it speaks if the subscription is to a table, since the rows of a view are in no table; of a last line
//! it says that it takes back all that was shown.
ghost use Rattle.std.specs.Prelude.{◌≡◌, ◌↔◌, [], IfOk, OnOk, OnErr, map, true, false};
ghost use Rattle.iv_rows.specs.RowLimit.{IsRowLimit};
ghost use Rattle.iv_machine.specs.Machine.{hung};
ghost use Rattle.iv_machine.specs.Reached.{AreNumbersUnique};
ghost use Rattle.iv_machine.specs.State.{State, start};
ghost use Rattle.iv_machine.specs.Stored.{IsGiven};
ghost use Rattle.iv_machine.specs.Well.{is_well_command};
ghost use Rattle.iv_engine.specs.Sound.{IsSoundEngine};
ghost use Rattle.iv_store.specs.Counting.{AreCountedWhereAccepted};
ghost use Rattle.iv_store.specs.Engine.{AreLinesOf, ChangesWhereAccepted, HasKnownRows, HasRoundsOfOpen, IsBehind, IsLeftBy, hung_up};
ghost use Rattle.iv_command.specs.Views.{command_of, line_of};

use crate::step::step;
use iv_command::{Command, Line};
use iv_store::Store;
use iv_zset::Seed;
use std::alloc::{AllocError, Global};
use std::marker::Model;

/// Why the engine gives no answer.
#[derive(Clone, Copy, Debug, PartialEq, Eq)]
pub enum EngineFault {
    /// A growth of memory was refused. The engine has failed.
    Memory,
    /// The engine had failed before.
    Failed,
}

impl From<AllocError> for EngineFault {
    ghost use Rattle.iv_engine.specs.declared.engine.EngineFault.TheVariants.{Memory};

    ghost from_gives = { λ _ fault. fault ≡ Memory };

    /// Out of memory, as the reason why the engine gives no answer.
    fn from(_error: AllocError) -> EngineFault {
        EngineFault::Memory
    }
}

/// Rights, tables with their rows, sessions and subscriptions. It answers commands as the
/// access machine does, and after a refused growth of memory none any more.
#[derive(Drop)]
pub struct Engine {
    /// Rights, tables, sessions and subscriptions.
    pub(crate) store: Store,
    /// Whether a growth of memory was refused, after which no command is answered.
    pub(crate) failed: bool,
}

impl Model for Engine {
    ghost use Rattle.std.specs.Prelude.{◌≡◌, false};
    ghost use Rattle.iv_store.specs.Codes.{seen_code};
    ghost use Rattle.iv_store.specs.Store.{IsSoundStore, frame_of};
    ghost use Rattle.iv_store.specs.Rounds.{rounds};
    ghost use Rattle.iv_store.specs.Engine.{Engine};

    ghost Value = { Engine };

    ghost coded = { seen_code };

    ghost view = { λ e. record { frame = frame_of e.store; tables = e.store.tables; rounds = rounds e.store; failed = e.failed } };

    ghost invariant = { λ e. e.failed ≡ false → IsSoundStore e.store };
}

impl Engine {
    /// An engine with the role `admin`, no table and no session. A table, and each node of a plan that is read, has at most
    /// `cap` different rows; that stays so. It hashes rows under the known seed: who writes rows can choose them so that they
    /// fall together.
    ///
    /// # Errors
    /// `AllocError` if a growth of memory was refused.
    pub fn new(alloc: Global, cap: u32) -> Result<Engine, AllocError>
        requires { IsRowLimit cap }
        ensures start { IfOk result (λ engine. IsBehind (start cap) engine) }
        ensures sound { IfOk result (λ engine. IsSoundEngine engine) }
        ensures rounds { IfOk result (λ engine. engine.rounds ≡ []) }
        ensures failed { IfOk result (λ engine. engine.failed ≡ false) }
    {
        Engine::with_seed(alloc, Seed::known(), cap)
    }

    /// The same engine, which hashes rows under a seed. The answers do not depend on it.
    ///
    /// # Errors
    /// `AllocError` if a growth of memory was refused.
    pub fn with_seed(alloc: Global, seed: Seed, cap: u32) -> Result<Engine, AllocError>
        requires { IsRowLimit cap }
        ensures start { IfOk result (λ engine. IsBehind (start cap) engine) }
        ensures sound { IfOk result (λ engine. IsSoundEngine engine) }
        ensures rounds { IfOk result (λ engine. engine.rounds ≡ []) }
        ensures failed { IfOk result (λ engine. engine.failed ≡ false) }
    {
        let store = Store::new(alloc, seed, cap as usize)?;
        Ok(Engine {
            store,
            failed: false,
        })
    }

    /// Whether the engine has failed: then no command is answered any more. Until then no two open subscriptions have one number
    /// or one that was not given, and it tells the rounds of its open subscriptions and of no others.
    pub fn is_failed(&self) -> bool
        ensures failed { result ≡ self.now.failed }
        ensures numbers { result ≡ false → AreNumbersUnique self.now.frame }
        ensures rounds { result ≡ false → HasRoundsOfOpen self.now }
    {
        self.failed
    }

    /// The engine has failed from now on.
    pub fn fail(&mut self)
        ensures { self.new ≡ record self.old { failed = true } }
    {
        self.failed = true;
    }

    /// Closes all sessions and subscriptions, without a line. All else is kept, so that no number of a subscription is
    /// given again. An engine that has failed stays as it was.
    pub fn hang_up(&mut self)
        ensures hung { self.old.failed ≡ false → (s : State) → IsBehind s self.old → IsBehind (hung s) self.new }
        ensures closed { self.old.failed ≡ false → self.new ≡ hung_up self.old }
        ensures sound { IsSoundEngine self.old → IsSoundEngine self.new }
        ensures failed_unchanged { self.old.failed ≡ true → self.new ≡ self.old }
    {
        if !self.failed {
            self.store.close_all();
        }
    }

    /// Answers a command: one step of the access machine. A change of a subscription to a table has rows alone that it
    /// showed before or that its reader may see now, and a last line takes back all that was shown (PostgreSQL 16, Row
    /// Security Policies).
    ///
    /// # Errors
    /// `Failed` exactly if the engine had failed; `Memory` if a growth of memory was refused. The engine has
    /// failed after either.
    pub fn apply(&mut self, command: Command) -> Result<Vec<Line>, EngineFault>
        requires { is_well_command (command_of command) ≡ true }
        ensures lines { IfOk result (λ lines. AreLinesOf self.old (command_of command) (map line_of lines.items)) }
        ensures state { OnOk result (IsLeftBy self.old (command_of command) self.new) }
        // What a command whose texts are in UTF-8 leaves of rights, catalog, policies and rows is sound.
        ensures sound { OnOk result (IsGiven (command_of command) → IsSoundEngine self.old → IsSoundEngine self.new) }
        ensures known_rows { IfOk result (λ lines. HasKnownRows self.old (command_of command) (map line_of lines.items)) }
        ensures refused { IfOk result (λ lines. ChangesWhereAccepted self.old (map line_of lines.items) self.new) }
        // An accepted write counts one round more for exactly the subscriptions that scan a table whose counts changed; a
        // change of a table's policies counts anew for those that scan it. All others are as before.
        ensures rounds { IfOk result (λ lines. AreCountedWhereAccepted self.old (command_of command) (map line_of lines.items) self.new) }
        ensures went_on { OnOk result (self.new.failed ≡ false) }
        ensures fails { OnErr result (self.new.failed ≡ true) }
        ensures failed { result ≡ Err EngineFault.Failed ↔ (self.old.failed ≡ true) }
        ensures failed_unchanged { self.old.failed ≡ true → self.new ≡ self.old }
    {
        if self.is_failed() {
            drop(command);
            return Err(EngineFault::Failed);
        }
        match step(&mut self.store, command) {
            Ok(lines) => Ok(lines),
            Err(_) => {
                self.failed = true;
                Err(EngineFault::Memory)
            }
        }
    }
}
