//! Sessions of roles: they are begun by need, and finished when nobody needs them.
ghost use Rattle.std.specs.Prelude.{◌≡◌, IfOk, OnOk, map, string_bytes, true};
ghost use Rattle.iv_command.specs.Views.{command_of, line_of};
ghost use Rattle.iv_machine.specs.Well.{is_well_command};
ghost use Rattle.iv_gate.specs.Gate.{Gate, all_rested, has_session, is_needed, rested, with_session};
ghost use Rattle.iv_gateway.specs.Views.{IsAlive, IsRun, IsSeated};

use crate::gateway::Gateway;
use iv_clients::{Seat, drop_seat, has_feed, next_seat, seat_of};
use iv_command::{Act, Command, Line};
use iv_notices::is_accepted;
use iv_rows::name_ok;
use std::alloc::AllocError;

impl Gateway {
    /// Has the engine answer a command. Nobody is told yet.
    pub(crate) fn run(&mut self, command: Command) -> Result<Vec<Line>, AllocError>
        requires { is_well_command (command_of command) ≡ true }
        ensures { IfOk result (λ lines. (g : Gate) → IsAlive g self.old → IsRun g (command_of command) (map line_of lines.items) self.new) }
    {
        match self.engine.apply(command) {
            Ok(lines) => Ok(lines),
            Err(_) => Err(AllocError),
        }
    }

    /// The next session, begun for a role.
    pub(crate) fn sit(&mut self, role: String) -> Result<Option<u32>, AllocError>
        ensures { IfOk result (λ o. (g : Gate) → IsAlive g self.old → IsSeated g (string_bytes role) o self.new) }
    {
        if !name_ok(role.as_str()) {
            return Err(AllocError);
        }
        let Some(session) = next_seat(&self.seats) else {
            return Ok(None);
        };
        if session == 0 {
            return Err(AllocError);
        }
        let name = role.clone()?;
        let lines = self.run(Command {
            session,
            act: Act::Begin { role: name },
        })?;
        if !is_accepted(&lines) {
            return Ok(None);
        }
        self.seats.push(Seat { session, role })?;
        self.hear_plain(&lines)?;
        Ok(Some(session))
    }

    /// Whether a role has a session, if one is begun for it that has none.
    pub(crate) fn with_session(&mut self, role: &str) -> Result<bool, AllocError>
        ensures { IfOk result (λ has. (g : Gate) → IsAlive g self.old
            → (has ≡ has_session g role.now) × IsAlive (with_session g role.now) self.new) }
    {
        if seat_of(&self.seats, role).is_some() {
            return Ok(true);
        }
        let name = String::from_str(self.alloc, role)?;
        match self.sit(name)? {
            None => Ok(false),
            Some(_) => Ok(true),
        }
    }

    /// Whether a client is of the session's role, or something is read in it.
    fn is_needed(&self, seat: &Seat) -> bool
        ensures { (g : Gate) → IsAlive g self.now → result ≡ is_needed g seat.now }
    {
        self.clients.has_role(seat.role.as_str()) || has_feed(&self.feeds, seat.session)
    }

    /// Finishes a session that is not needed.
    fn rest(&mut self, seat: &Seat) -> Result<(), AllocError>
        ensures { OnOk result ((g : Gate) → IsAlive g self.old → IsAlive (rested g seat.now) self.new) }
    {
        if self.is_needed(seat) {
            return Ok(());
        }
        let session = seat.session;
        if session == 0 {
            return Err(AllocError);
        }
        drop_seat(&mut self.seats, session);
        let lines = self.run(Command {
            session,
            act: Act::Finish,
        })?;
        self.hear_plain(&lines)?;
        Ok(())
    }

    pub(crate) fn rest_all(&mut self, seats: &[Seat]) -> Result<(), AllocError>
        ensures { OnOk result ((g : Gate) → IsAlive g self.old → IsAlive (all_rested g seats.now) self.new) }
    {
        for seat in seats {
            self.rest(seat)?;
        }
        Ok(())
    }
}
