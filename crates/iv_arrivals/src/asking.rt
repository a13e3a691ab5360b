//! A message that is heard: who says it, what is asked by which name, and what is answered.
ghost use Rattle.std.specs.Prelude.{◌≡◌, IfOk, map};
ghost use Rattle.sha2.specs.Sha256.{sha256};
ghost use Rattle.iv_rows.specs.Options.{if_some};
ghost use Rattle.iv_command.specs.Views.{line_of, reply_of};
ghost use Rattle.iv_machine.specs.Act.{no_session, refused};
ghost use Rattle.iv_clients.specs.Clients.{client_at};
ghost use Rattle.iv_records.specs.Names.{holder_of};
ghost use Rattle.iv_gate.specs.Gate.{answer_text, is_accepted, reply_in};
ghost use Rattle.iv_arrivals.specs.Speaking.{speaker_in};

use iv_clients::Client;
use iv_command::{Line, Reply};
use iv_message::{Id, push_replied};
use iv_once::Ask;
use iv_records::{Claim, holder_of};
use sha2::{Digest, Sha256};
use std::alloc::{AllocError, Global};
use std::marker::Model;

/// A client whose message is heard.
#[derive(Drop)]
pub struct Speaker {
    /// Its role.
    pub role: String,
    /// Who holds its token: no text if that is not said.
    pub user: String,
    /// How many of its numbers are open.
    pub subs: usize,
    /// The bytes that others have brought it.
    pub brought: u64,
}

impl Model for Speaker {
    ghost use Rattle.std.specs.Prelude.{string_bytes};
    ghost use Rattle.iv_arrivals.specs.Speaking.{Speaking};

    ghost Value = { Speaking };

    ghost view = { λ s. record { role = string_bytes s.role; user = string_bytes s.user; subs = s.subs; brought = s.brought } };
}

/// The client of a number, if a message of it is heard now.
///
/// # Errors
/// `AllocError` if a growth of memory was refused; so it is of each of these functions.
pub fn speaker_at(
    alloc: Global,
    clients: &[Option<Client>],
    client: u32,
) -> Result<Option<Speaker>, AllocError>
    ensures { IfOk result (λ o. o ≡ speaker_in (client_at clients.now client)) }
{
    match clients.get(client as usize) {
        Some(Some(it)) => {
            if !it.may_ask() {
                return Ok(None);
            }
            Ok(Some(Speaker {
                role: String::from_str(alloc, it.role())?,
                user: String::from_str(alloc, it.user())?,
                subs: it.subs().len(),
                brought: it.brought(),
            }))
        }
        _ => Ok(None),
    }
}

/// Who asks by which id and line.
#[derive(Drop)]
pub struct Asked<'a> {
    /// The number of the client.
    pub client: u32,
    /// The id, if it has one.
    pub id: &'a Option<Id>,
    /// The role of the client.
    pub role: &'a str,
    /// The line, as the journal has it.
    pub line: &'a [u8],
}

impl<'a> Model for Asked<'a> {
    ghost use Rattle.iv_arrivals.specs.Speaking.{Asking};

    ghost Value = { Asking };

    ghost view = { λ a. record { client = a.client; id = a.id.now; role = a.role.now; line = a.line.now } };
}

/// What a client asks by a name.
pub fn ask_of(alloc: Global, asked: &Asked<'_>, user: &str, claim: Claim) -> Result<Ask, AllocError>
    ensures { IfOk result (λ ask. ask
        ≡ record { holder = holder_of asked.now.role user.now; name = claim.name; at = claim.at; digest = sha256 asked.now.line }) }
{
    let Claim { name, at } = claim;
    Ok(Ask {
        holder: holder_of(alloc, asked.role, user)?,
        name,
        at,
        digest: Sha256::digest(asked.line),
    })
}

/// Whether a reply says that what was asked is done.
pub fn is_done(reply: &Reply) -> bool
    ensures { result ≡ is_accepted (reply_of reply.now) }
{
    !matches!(reply, Reply::Refused(_))
}

/// The reply that lines of the engine begin with, if they do.
pub fn first_reply(lines: &[Line]) -> Option<&Reply>
    ensures { if_some result (refused no_session) (λ r. reply_of r.now) ≡ reply_in (map line_of lines.now) }
{
    match lines.first() {
        Some(Line::Reply { reply, .. }) => Some(reply),
        _ => None,
    }
}

/// An answer as it is kept.
pub fn answer_text(alloc: Global, reply: &Reply) -> Result<Vec<u8>, AllocError>
    ensures { IfOk result (λ text. text.items ≡ answer_text (reply_of reply.now)) }
{
    let mut text = Vec::new(alloc);
    push_replied(alloc, &mut text, &None, reply)?;
    text.pop();
    Ok(text)
}
