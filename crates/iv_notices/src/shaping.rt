//! What administrators are told of the shape: all so far to one that comes in, and then what each request adds.
ghost use Rattle.std.specs.Prelude.{◌≡◌, ◌++◌, if◌then◌else◌, [], IfOk, OnOk, false, map};
ghost use Rattle.iv_rows.specs.Options.{if_some};
ghost use Rattle.iv_command.specs.Views.{line_of};
ghost use Rattle.iv_clients.specs.Clients.{at_all, at_client, client_at};
ghost use Rattle.iv_clients.specs.Kept.{Kept};
ghost use Rattle.iv_gate.specs.Gate.{is_accepted, reply_in};
ghost use Rattle.iv_notices.specs.Granting.{holding_for};
ghost use Rattle.iv_notices.specs.Shaping.{greeting_text, is_admin};

use crate::granting::is_accepted;
use iv_clients::Client;
use iv_command::Line;
use iv_hall::Hall;
use iv_message::{push_placed, push_settled, push_welcome};
use std::alloc::{AllocError, Global};

/// Whether a role is the administrators'.
fn is_admin(role: &str) -> bool
    ensures { result ≡ is_admin role.now }
{
    role == "admin"
}

/// Appends the shape for a role, by its text.
fn push_shape_for(text: &mut Vec<u8>, role: &str, shape: &[u8]) -> Result<(), AllocError>
    ensures { OnOk result (text.new.items ≡ text.old.items ++ (if is_admin role.now then shape.now else [])) }
{
    if !is_admin(role) {
        return Ok(());
    }
    text.extend_from_slice(shape)?;
    Ok(())
}

/// What a client of a role is told as it comes in, by where its holder's names stand and the text of the shape.
///
/// # Errors
/// `AllocError` if a growth of memory was refused; so it is of each of these functions.
pub fn greeting(alloc: Global, role: &str, at: &str, shape: &[u8]) -> Result<Vec<u8>, AllocError>
    ensures { IfOk result (λ text. text.items ≡ greeting_text role.now at.now shape.now) }
{
    let mut text = Vec::new(alloc);
    push_welcome(alloc, &mut text, role)?;
    push_placed(alloc, &mut text, at)?;
    push_shape_for(&mut text, role, shape)?;
    push_settled(&mut text)?;
    Ok(text)
}

/// Whether a client is an administrator.
fn is_admin_at(clients: &[Option<Client>], client: u32) -> bool
    ensures { result ≡ if_some (client_at clients.now client) false (λ (k : Kept). is_admin k.role) }
{
    match clients.get(client as usize) {
        Some(Some(it)) => is_admin(it.role()),
        _ => false,
    }
}

/// Has a text told to a client, if it is an administrator.
fn inform(clients: &mut Hall, client: u32, text: &[u8]) -> Result<(), AllocError>
    ensures { OnOk result (clients.new ≡ at_client client (holding_for is_admin text.now) clients.old) }
{
    if !is_admin_at(clients.places(), client) {
        return Ok(());
    }
    clients.hold(client, text)?;
    Ok(())
}

/// Has a text told to all administrators.
pub fn inform_all(clients: &mut Hall, text: &[u8]) -> Result<(), AllocError>
    ensures { OnOk result (clients.new ≡ at_all (holding_for is_admin text.now) clients.old) }
{
    for client in 0..clients.most() {
        inform(clients, client, text)?;
    }
    Ok(())
}

/// Of what was refused nothing makes the shape.
pub fn clear_refused(made: &mut Vec<u8>, lines: &[Line])
    ensures { made.new.items ≡ (if is_accepted (reply_in (map line_of lines.now)) then made.old.items else []) }
{
    if !is_accepted(lines) {
        made.clear();
    }
}
