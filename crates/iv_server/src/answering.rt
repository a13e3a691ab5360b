//! What is answered to requests that ask for no WebSocket.
use crate::server::{Kind, Server};
use iv_arrivals::Tally;
use iv_desk::Desk;
use iv_host::{FileJournal, Now, answer, figures_now, page_in, raise, refusal, state_now};
use iv_pages::{Ask, FIGURES_KIND, Refusal};
use iv_running::Fault;

/// The media type of a text.
const TEXT: &str = "text/plain; charset=utf-8";

/// The answer to who has no administrator's token.
const UNAUTHORIZED: &[u8] =
    b"HTTP/1.1 401 Unauthorized\r\nwww-authenticate: Bearer\r\ncontent-length: 0\r\nconnection: close\r\n\r\n";

/// Whether a request asks for this.
fn is(ask: &Ask<'_>, target: &[u8]) -> bool {
    ask.target == target
}

impl Server {
    /// The answer to a request for a page.
    pub(crate) fn page(
        &self,
        rt: &HostRuntime,
        desk: &Desk,
        journal: &FileJournal,
        head: &[u8],
        ask: &Ask<'_>,
    ) -> Result<Vec<u8>, Fault> {
        let is_of_health = is(ask, b"/healthz") || is(ask, b"/readyz");
        if is(ask, b"/readyz") && !self.open {
            return Ok(refusal(rt, Refusal::Unavailable, ask.only_head)?);
        }
        if is_of_health {
            return Ok(answer(rt, ask, TEXT, None, b"ok\n")?);
        }
        let is_told_of_itself = is(ask, b"/state") || is(ask, b"/metrics");
        if !is_told_of_itself {
            return self.page_of_folder(rt, ask);
        }
        if !self.admission.is_admin(head)? {
            let mut out = Vec::new(self.alloc);
            out.extend_from_slice(UNAUTHORIZED)?;
            return Ok(out);
        }
        let now = self.stands(desk)?;
        self.figures(rt, desk.tally(), journal, ask, &now)
    }

    /// The answer to a request for a file of the folder of pages.
    fn page_of_folder(&self, rt: &HostRuntime, ask: &Ask<'_>) -> Result<Vec<u8>, Fault> {
        match &self.pages {
            Some(folder) => Ok(page_in(rt, Some(folder.as_str()), ask)?),
            None => Ok(page_in(rt, None, ask)?),
        }
    }

    /// The answer of what the program tells of itself.
    fn figures(
        &self,
        rt: &HostRuntime,
        tally: &Tally,
        journal: &FileJournal,
        ask: &Ask<'_>,
        now: &Now,
    ) -> Result<Vec<u8>, Fault> {
        if is(ask, b"/state") {
            let text = state_now(rt, &self.counts, journal, now)?;
            return Ok(answer(rt, ask, "application/json", None, text.as_bytes())?);
        }
        let text = figures_now(rt, &self.counts, tally, journal, now)?;
        Ok(answer(rt, ask, FIGURES_KIND, None, &text)?)
    }

    /// Counts the connection of a number, if there is one.
    fn look_at(&self, desk: &Desk, at: u32, now: &mut Now) -> Result<(), Fault> {
        let kind = self.kind(at);
        if kind != Kind::Nobody {
            raise(&mut now.sockets, 1);
        }
        if kind != Kind::Desk {
            return Ok(());
        }
        raise(&mut now.pending, desk.pending(at).len() as u64);
        if let Some(role) = desk.role_of(at) {
            now.count(role)?;
        }
        Ok(())
    }

    /// What there is now.
    fn stands(&self, desk: &Desk) -> Result<Now, Fault> {
        let mut now = Now {
            sockets: 0,
            roles: Vec::new(self.alloc),
            pending: 0,
            time: self.now,
        };
        for at in 0..self.most {
            self.look_at(desk, at, &mut now)?;
        }
        Ok(now)
    }
}
