//! A client closes its own number.
ghost use Rattle.std.specs.Prelude.{◌≡◌, Some, OnOk, option_and_then, option_map};
ghost use Rattle.iv_clients.specs.Clients as spec;
ghost use Rattle.iv_clients.specs.Clients.{client_at, followed_by};
ghost use Rattle.iv_message.specs.Seen.{id_data};
ghost use Rattle.iv_gate.specs.Gate.{Gate, closes};
ghost use Rattle.iv_gateway.specs.Views.{IsAlive};

use crate::gateway::Gateway;
use iv_clients::Client;
use iv_command::{Refusal, Reply};
use iv_message::Id;
use std::alloc::AllocError;

/// The feed that a client's own number follows.
fn followed_at(clients: &[Option<Client>], client: u32, own: u64) -> Option<u64>
    ensures { result ≡ option_and_then (λ k. followed_by k.subs own) (client_at clients.now client) }
{
    match clients.get(client as usize) {
        Some(Some(it)) => it.followed(own),
        _ => None,
    }
}

impl Gateway {
    /// A client closes its own number.
    pub(crate) fn close(&mut self, client: u32, id: &Option<Id>, own: u64) -> Result<(), AllocError>
        ensures { OnOk result ((g : Gate) (c : spec.Client) → IsAlive g self.old → client_at g.clients client ≡ Some c
            → IsAlive (closes g client c (option_map id_data id.now) own) self.new) }
    {
        match followed_at(self.clients.places(), client, own) {
            None => {
                let reply = Reply::Refused(Refusal::UnknownSubscription);
                self.reply(client, id, &reply)?;
                Ok(())
            }
            Some(number) => {
                self.clients.close(client, own);
                self.reply(client, id, &Reply::Ok)?;
                self.sweep(number)?;
                Ok(())
            }
        }
    }
}
