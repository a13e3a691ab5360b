//! Who presents a token comes in.
ghost use Rattle.std.specs.Prelude.{◌≡◌, ◌&&◌, if◌then◌else◌, Some, None, IfOk, OnOk, is_some, option_and_then, option_map, slice_set, string_bytes};
ghost use Rattle.iv_rows.specs.Names.{is_name};
ghost use Rattle.iv_clients.specs.Clients.{fresh, is_free};
ghost use Rattle.iv_clients.specs.Tokens.{Token as TokenSpec, token_of};
ghost use Rattle.iv_gate.specs.Gate.{Gate, at_text, came, token_for};
ghost use Rattle.iv_gateway.specs.Views.{IsAlive};

use crate::gateway::Gateway;
use iv_arrivals::place_text;
use iv_clients::{Token, token_of};
use iv_hall::Hall;
use iv_notices::greeting;
use iv_records::holder_of;
use iv_rows::name_ok;
use sha2::{Digest, Sha256};
use std::alloc::{AllocError, Global};

/// The role that a token opens, and who holds it.
type Opened = (String, String);

/// What the token of a digest opens for a number that nobody has.
fn presented(
    alloc: Global,
    tokens: &[Token],
    clients: &Hall,
    client: u32,
    digest: &[u8],
) -> Result<Option<Opened>, AllocError>
    ensures { IfOk result (λ o. option_map (λ p. record { digest = digest.now; role = string_bytes p.0; user = string_bytes p.1 }) o
        ≡ option_map (λ (t : TokenSpec). record t { digest = digest.now })
        (option_and_then (λ (t : TokenSpec). if is_name t.role && is_free client clients.now then Some t else None) (token_of tokens.now digest.now))) }
{
    match token_of(tokens, digest) {
        None => Ok(None),
        Some(token) => {
            if name_ok(token.role.as_str()) && clients.is_free(client) {
                let role = String::from_str(alloc, token.role.as_str())?;
                let user = String::from_str(alloc, token.user.as_str())?;
                Ok(Some((role, user)))
            } else {
                Ok(None)
            }
        }
    }
}

impl Gateway {
    /// A client comes in by its token, and is told what it is to know.
    pub(crate) fn enter(
        &mut self,
        client: u32,
        role: String,
        user: String,
        digest: Vec<u8>,
    ) -> Result<(), AllocError>
        ensures { let t : TokenSpec = record { digest = digest.items; role = string_bytes role; user = string_bytes user } in
            OnOk result ((g : Gate) → IsAlive g self.old
            → IsAlive (record g { clients = slice_set g.clients client (Some (fresh g.entries t (at_text g t))) }) self.new) }
    {
        let holder = holder_of(self.alloc, role.as_str(), user.as_str())?;
        let at = place_text(self.alloc, &self.names, holder.as_str())?;
        let text = greeting(self.alloc, role.as_str(), at.as_str(), &self.shape)?;
        self.clients
            .enter(self.alloc, client, role, user, digest, text);
        Ok(())
    }

    /// Lets in who presents a token, in the role that it opens. Whether it came in.
    pub(crate) fn come(&mut self, client: u32, token: &[u8]) -> Result<bool, AllocError>
        ensures { IfOk result (λ is. (g : Gate) → IsAlive g self.old
            → (is ≡ is_some (token_for g client token.now)) × IsAlive (came g client token.now) self.new) }
    {
        let digest = Vec::from_array(self.alloc, Sha256::digest(token))?;
        match presented(self.alloc, &self.tokens, &self.clients, client, &digest)? {
            None => Ok(false),
            Some((role, user)) => {
                if !self.with_session(role.as_str())? {
                    return Ok(false);
                }
                self.enter(client, role, user, digest)?;
                Ok(true)
            }
        }
    }
}
