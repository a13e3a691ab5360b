//! Sessions and the roles that act in them: `begin`, `actor`, `end_session`; all of them taken out (`take_sessions`), and put back.
ghost use Rattle.std.specs.Prelude.{◌≡◌, option_map, []};
ghost use Rattle.iv_machine.specs.State.{session_of};
ghost use Rattle.iv_database.specs.Database.{session_acts_as, frame_of, without_session};
ghost use Rattle.iv_machine.specs.Act as machine;
ghost use Rattle.iv_database.specs.Next.{IsDone};

use crate::database::Database;
use iv_access::RoleId;
use iv_command::{Refusal, Stop};
use std::marker::Model;
use std::mem;

/// A session and its role.
#[derive(Drop)]
pub(crate) struct Session {
    pub(crate) number: u32,
    pub(crate) role: RoleId,
}

impl Model for Session {
    ghost use Rattle.iv_machine.specs.State.{Session};

    ghost Value = { Session };

    ghost view = { λ s. record { number = s.number; role = s.role.0 } };
}

/// Sessions that were taken out of a database, to be put back.
#[derive(Drop)]
pub struct Sessions {
    /// In the order in which they began.
    open: Vec<Session>,
}

impl Model for Sessions {
    ghost use Rattle.std.specs.Prelude.{List};
    ghost use Rattle.iv_database.specs.Codes.{sessions_code};
    ghost use Rattle.iv_machine.specs.State.{Session};

    ghost Value = { List Session };

    ghost coded = { sessions_code };

    ghost view = { λ s. s.open.items };
}

/// The session of that number.
pub(crate) fn find_session(sessions: &[Session], number: u32) -> Option<&Session>
    ensures { option_map (λ s. s.now) result ≡ session_of sessions.now number }
{
    sessions.iter().find(|session| session.number == number)
}

impl Database {
    /// The role that acts in the session; none if it is not open.
    pub fn actor(&self, session: u32) -> Option<RoleId>
        ensures { option_map (λ r. r.0) result ≡ option_map (λ s. s.role) (session_of self.now.sessions session) }
    {
        match find_session(&self.sessions, session) {
            Some(found) => Some(found.role),
            None => None,
        }
    }

    /// Whether the session acts for the role.
    pub fn acts_as(&self, session: u32, role: RoleId) -> bool
        ensures { result ≡ session_acts_as (frame_of self.now) session role.0 }
    {
        match find_session(&self.sessions, session) {
            Some(found) => found.role == role,
            None => false,
        }
    }

    /// Closes the session, if it is open.
    pub fn end_session(&mut self, session: u32)
        ensures { self.new ≡ without_session session self.old }
    {
        self.sessions.retain(|open| session != open.number);
    }

    /// Closes all sessions.
    pub fn end_sessions(&mut self)
        ensures { self.new ≡ record self.old { sessions = [] } }
    {
        self.sessions.clear();
    }

    /// Takes all sessions out: nobody is there until they are put back.
    pub fn take_sessions(&mut self) -> Sessions
        ensures taken { result ≡ self.old.sessions }
        ensures left { self.new ≡ record self.old { sessions = [] } }
    {
        let open = mem::replace(&mut self.sessions, Vec::new(self.alloc));
        Sessions { open }
    }

    /// Puts sessions back, in the place of those that are there.
    pub fn put_sessions(&mut self, sessions: Sessions)
        ensures { self.new ≡ record self.old { sessions = sessions } }
    {
        self.sessions = sessions.open;
    }
}

/// The most sessions that are open at once.
const MOST_SESSIONS: usize = 256;

impl Database {
    /// Opens a session.
    ///
    /// # Errors
    /// `Refused` with the first test that fails; `Memory` if a growth of memory was refused.
    pub fn begin(&mut self, session: u32, role: &str) -> Result<(), Stop>
        ensures { IsDone self.old session (machine.begin role.now) result self.new }
    {
        if self.actor(session).is_some() {
            return Err(Stop::Refused(Refusal::SessionInUse));
        }
        let Some(role) = self.access.role(role) else {
            return Err(Stop::Refused(Refusal::UnknownRole));
        };
        if self.sessions.len() >= MOST_SESSIONS {
            return Err(Stop::Refused(Refusal::TooMany));
        }
        self.sessions.push(Session {
            number: session,
            role,
        })?;
        Ok(())
    }
}
