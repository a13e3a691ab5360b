//! What the log tells of who comes in.
use crate::server::Server;
use iv_desk::Desk;
use std::net::SocketAddr;

impl Server {
    /// Tells that a client was not let in, and why, if it presented a web token.
    pub(crate) fn say_refused(&mut self, rt: &HostRuntime, at: u32, address: SocketAddr) {
        if !self.log.may_say(rt, self.now) {
            return;
        }
        let words = match self.socket(at) {
            Some(socket) => match socket.judged {
                Some(judged) => judged.words(),
                None => None,
            },
            None => None,
        };
        let _ = match words {
            Some(words) => eprintln!(rt; "gateway: {address} did not come in: {words}"),
            None => eprintln!(rt; "gateway: {address} did not come in"),
        };
    }

    /// Tells that a client came in, and who holds its token, if that is said.
    pub(crate) fn say_came(
        &mut self,
        rt: &HostRuntime,
        desk: &Desk,
        at: u32,
        address: SocketAddr,
        role: &str,
    ) {
        if !self.log.may_say(rt, self.now) {
            return;
        }
        let _ = match desk.user_of(at) {
            Some(user) if !user.is_empty() => {
                eprintln!(rt; "gateway: {address} came in as {role}, held by {user:?}")
            }
            _ => eprintln!(rt; "gateway: {address} came in as {role}"),
        };
    }
}
