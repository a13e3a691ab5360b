//! Clients by their numbers: what is done to one of them, to those of a list, and to all.
ghost use Rattle.std.specs.Prelude.{◌≡◌, [], map, bytes_eq, false, IfOk, OnOk, Some, None, is_some, option_and_then, option_map, replicate, slice_set};
ghost use Rattle.std.specs.List.{list_any};
ghost use Rattle.iv_rows.specs.Options.{if_some};
ghost use Rattle.iv_command.specs.Views.{line_of};
ghost use Rattle.iv_clients.specs.Clients.{at_all, at_client, client_at, followed_by, is_free};
ghost use Rattle.iv_hall.specs.Listing.{walked};
ghost use Rattle.iv_clients.specs.Kept.{Kept, answering, asking, checking, emptied, has_role_in, holding, holding_beat, holding_owed, is_following, is_told};
ghost use Rattle.iv_clients.specs.Kept.{keeping_closed, keeping_moved, keeping_new, keeping_on, releasing};

use iv_clients::{Client, Sub, Token};
use iv_command::Line;
use std::alloc::{AllocError, Global};

/// As many places with nobody.
pub(crate) fn empty_slots(alloc: Global, most: u32) -> Result<Vec<Option<Client>>, AllocError>
    ensures { IfOk result (λ slots. slots.items ≡ replicate most None) }
{
    let mut slots = Vec::new(alloc);
    for _ in 0..most {
        slots.push(None)?;
    }
    Ok(slots)
}

/// Whether the number is there, and nobody has it.
pub(crate) fn is_free(clients: &[Option<Client>], client: u32) -> bool
    ensures { result ≡ is_free client clients.now }
{
    match clients.get(client as usize) {
        Some(None) => true,
        _ => false,
    }
}

/// Whether somebody has the number.
pub(crate) fn is_there(clients: &[Option<Client>], client: u32) -> bool
    ensures { result ≡ is_some (client_at clients.now client) }
{
    match clients.get(client as usize) {
        Some(Some(_)) => true,
        _ => false,
    }
}

/// What a client follows; of nobody nothing.
pub(crate) fn subs_at(clients: &[Option<Client>], client: u32) -> &[Sub]
    ensures { result.now ≡ if_some (client_at clients.now client) [] (λ (k : Kept). k.subs) }
{
    match clients.get(client as usize) {
        Some(Some(it)) => it.subs(),
        _ => &[],
    }
}

fn follows_in(slot: &Option<Client>, feed: u64) -> bool
    ensures { result ≡ if_some slot.now false (is_following feed) }
{
    match slot {
        None => false,
        Some(client) => client.follows(feed),
    }
}

/// Whether a client follows the feed.
pub(crate) fn follows_at(clients: &[Option<Client>], client: u32, feed: u64) -> bool
    ensures { result ≡ if_some (client_at clients.now client) false (is_following feed) }
{
    match clients.get(client as usize) {
        None => false,
        Some(slot) => follows_in(slot, feed),
    }
}

/// Whether some client of the list follows the feed.
pub(crate) fn is_followed_in(clients: &[Option<Client>], numbers: &[u32], feed: u64) -> bool
    ensures { result ≡ list_any (λ n. if_some (client_at clients.now n) false (is_following feed)) numbers.now }
{
    numbers
        .iter()
        .any(|number| follows_at(clients, *number, feed))
}

/// The feed that a client's own number follows.
pub(crate) fn followed_at(clients: &[Option<Client>], client: u32, own: u64) -> Option<u64>
    ensures { result ≡ option_and_then (λ k. followed_by k.subs own) (client_at clients.now client) }
{
    match clients.get(client as usize) {
        Some(Some(it)) => it.followed(own),
        _ => None,
    }
}

fn is_told_in(slot: &Option<Client>) -> bool
    ensures { result ≡ if_some slot.now false is_told }
{
    match slot {
        None => false,
        Some(client) => client.is_told(),
    }
}

/// Whether something may be sent to a client or waits for the journal, or it is to go.
pub(crate) fn is_told_at(clients: &[Option<Client>], client: u32) -> bool
    ensures { result ≡ if_some (client_at clients.now client) false is_told }
{
    match clients.get(client as usize) {
        None => false,
        Some(slot) => is_told_in(slot),
    }
}

fn is_of_role(slot: &Option<Client>, role: &str) -> bool
    ensures { result ≡ if_some slot.now false (λ (k : Kept). bytes_eq k.role role.now) }
{
    match slot {
        None => false,
        Some(client) => client.role() == role,
    }
}

/// Whether some client is of the role.
pub(crate) fn has_role(clients: &[Option<Client>], role: &str) -> bool
    ensures { result ≡ has_role_in role.now clients.now }
{
    clients.iter().any(|slot| is_of_role(slot, role))
}

/// The number has this client from now on, or nobody.
pub(crate) fn put_at(clients: &mut Vec<Option<Client>>, at: u32, client: Option<Client>)
    ensures { clients.new.items ≡ slice_set clients.old.items at client }
{
    if (at as usize) < clients.len() {
        clients[at as usize] = client;
    }
}

/// Hands on what the client of a slot may be sent.
fn take_slot(alloc: Global, slot: &mut Option<Client>) -> Vec<u8>
    ensures bytes { result.items ≡ if_some slot.old [] (λ k. k.sendable) }
    ensures slot { slot.new ≡ option_map emptied slot.old }
{
    match slot {
        None => Vec::new(alloc),
        Some(client) => client.take(alloc),
    }
}

/// Hands on what a client may be sent.
pub(crate) fn take_at(alloc: Global, clients: &mut Vec<Option<Client>>, client: u32) -> Vec<u8>
    ensures bytes { result.items ≡ if_some (client_at clients.old.items client) [] (λ k. k.sendable) }
    ensures slots { clients.new.items ≡ at_client client emptied clients.old.items }
{
    match clients.get_mut(client as usize) {
        None => Vec::new(alloc),
        Some(slot) => take_slot(alloc, slot),
    }
}

fn hold_slot(slot: &mut Option<Client>, text: &[u8]) -> Result<(), AllocError>
    ensures { OnOk result (slot.new ≡ option_map (holding text.now) slot.old) }
{
    match slot {
        None => Ok(()),
        Some(client) => client.hold(text),
    }
}

fn follow_slot(slot: &mut Option<Client>, feed: u64) -> Result<(), AllocError>
    ensures { OnOk result (slot.new ≡ option_map (keeping_new feed) slot.old) }
{
    match slot {
        None => Ok(()),
        Some(client) => client.follow(feed),
    }
}

fn ask_slot(slot: &mut Option<Client>) -> Result<(), AllocError>
    ensures { OnOk result (slot.new ≡ option_map (asking) slot.old) }
{
    match slot {
        None => Ok(()),
        Some(client) => client.ask(),
    }
}

fn redirect_slot(slot: &mut Option<Client>, from: u64, to: u64)
    ensures { slot.new ≡ option_map (keeping_moved from to) slot.old }
{
    if let Some(client) = slot {
        client.redirect(from, to);
    }
}

fn close_slot(slot: &mut Option<Client>, own: u64)
    ensures { slot.new ≡ option_map (keeping_closed own) slot.old }
{
    if let Some(client) = slot {
        client.close(own);
    }
}

fn answered_slot(slot: &mut Option<Client>, brought: u64)
    ensures { slot.new ≡ option_map (answering brought) slot.old }
{
    if let Some(client) = slot {
        client.answered(brought);
    }
}

fn settle_slot(slot: &mut Option<Client>, text: &[u8]) -> Result<(), AllocError>
    ensures { OnOk result (slot.new ≡ option_map (holding_owed text.now) slot.old) }
{
    match slot {
        None => Ok(()),
        Some(client) => client.settle(text),
    }
}

fn beat_slot(slot: &mut Option<Client>, text: &[u8]) -> Result<(), AllocError>
    ensures { OnOk result (slot.new ≡ option_map (holding_beat text.now) slot.old) }
{
    match slot {
        None => Ok(()),
        Some(client) => client.beat(text),
    }
}

fn release_slot(slot: &mut Option<Client>) -> Result<(), AllocError>
    ensures { OnOk result (slot.new ≡ option_map (releasing) slot.old) }
{
    match slot {
        None => Ok(()),
        Some(client) => client.release(),
    }
}

fn stay_slot(slot: &mut Option<Client>, lines: &[Line])
    ensures { slot.new ≡ option_map (keeping_on (map line_of lines.now)) slot.old }
{
    if let Some(client) = slot {
        client.stay(lines);
    }
}

fn check_slot(slot: &mut Option<Client>, tokens: &[Token])
    ensures { slot.new ≡ option_map (checking tokens.now) slot.old }
{
    if let Some(client) = slot {
        client.check(tokens);
    }
}

/// Has a text sent to a client, once the journal has what it shows.
pub(crate) fn hold_at(
    clients: &mut Vec<Option<Client>>,
    client: u32,
    text: &[u8],
) -> Result<(), AllocError>
    ensures { OnOk result (clients.new.items ≡ at_client client (holding text.now) clients.old.items) }
{
    match clients.get_mut(client as usize) {
        None => Ok(()),
        Some(slot) => {
            hold_slot(slot, text)?;
            Ok(())
        }
    }
}

/// A client follows a feed, under its next number.
pub(crate) fn follow_at(
    clients: &mut Vec<Option<Client>>,
    client: u32,
    feed: u64,
) -> Result<(), AllocError>
    ensures { OnOk result (clients.new.items ≡ at_client client (keeping_new feed) clients.old.items) }
{
    match clients.get_mut(client as usize) {
        None => Ok(()),
        Some(slot) => {
            follow_slot(slot, feed)?;
            Ok(())
        }
    }
}

/// Counts a message of a client.
pub(crate) fn ask_at(clients: &mut Vec<Option<Client>>, client: u32) -> Result<(), AllocError>
    ensures { OnOk result (clients.new.items ≡ at_client client (asking) clients.old.items) }
{
    match clients.get_mut(client as usize) {
        None => Ok(()),
        Some(slot) => {
            ask_slot(slot)?;
            Ok(())
        }
    }
}

/// What a client followed by one feed it follows by another.
pub(crate) fn redirect_at(clients: &mut Vec<Option<Client>>, client: u32, from: u64, to: u64)
    ensures { clients.new.items ≡ at_client client (keeping_moved from to) clients.old.items }
{
    if let Some(slot) = clients.get_mut(client as usize) {
        redirect_slot(slot, from, to);
    }
}

/// A client follows nothing under its own number any more.
pub(crate) fn close_at(clients: &mut Vec<Option<Client>>, client: u32, own: u64)
    ensures { clients.new.items ≡ at_client client (keeping_closed own) clients.old.items }
{
    if let Some(slot) = clients.get_mut(client as usize) {
        close_slot(slot, own);
    }
}

/// What a client was told since others had brought it this much comes of its own message.
pub(crate) fn answered_at(clients: &mut Vec<Option<Client>>, client: u32, brought: u64)
    ensures { clients.new.items ≡ at_client client (answering brought) clients.old.items }
{
    if let Some(slot) = clients.get_mut(client as usize) {
        answered_slot(slot, brought);
    }
}

/// Tells a client to whom something was told that this is all.
fn settle_at(clients: &mut Vec<Option<Client>>, client: u32, text: &[u8]) -> Result<(), AllocError>
    ensures { OnOk result (clients.new.items ≡ at_client client (holding_owed text.now) clients.old.items) }
{
    match clients.get_mut(client as usize) {
        None => Ok(()),
        Some(slot) => {
            settle_slot(slot, text)?;
            Ok(())
        }
    }
}

/// Tells those of the list to whom something was told that this is all.
pub(crate) fn settle_listed(
    clients: &mut Vec<Option<Client>>,
    numbers: &[u32],
    text: &[u8],
) -> Result<(), AllocError>
    ensures { OnOk result (clients.new.items ≡ walked (holding_owed text.now) numbers.now clients.old.items) }
{
    for number in numbers {
        settle_at(clients, *number, text)?;
    }
    Ok(())
}

/// Has a text sent to all that nothing has to settle.
pub(crate) fn beat_all(clients: &mut Vec<Option<Client>>, text: &[u8]) -> Result<(), AllocError>
    ensures { OnOk result (clients.new.items ≡ at_all (holding_beat text.now) clients.old.items) }
{
    for slot in clients.iter_mut() {
        beat_slot(slot, text)?;
    }
    Ok(())
}

/// Lets be sent to a client what waits for the journal, if it takes what it is told.
fn release_at(clients: &mut Vec<Option<Client>>, client: u32) -> Result<(), AllocError>
    ensures { OnOk result (clients.new.items ≡ at_client client (releasing) clients.old.items) }
{
    match clients.get_mut(client as usize) {
        None => Ok(()),
        Some(slot) => {
            release_slot(slot)?;
            Ok(())
        }
    }
}

/// Lets be sent what waits for the journal, to those of the list who take what they are told.
pub(crate) fn release_listed(
    clients: &mut Vec<Option<Client>>,
    numbers: &[u32],
) -> Result<(), AllocError>
    ensures { OnOk result (clients.new.items ≡ walked releasing numbers.now clients.old.items) }
{
    for number in numbers {
        release_at(clients, *number)?;
    }
    Ok(())
}

/// A client follows nothing any more that the lines end.
fn stay_at(clients: &mut Vec<Option<Client>>, client: u32, lines: &[Line])
    ensures { clients.new.items ≡ at_client client (keeping_on (map line_of lines.now)) clients.old.items }
{
    if let Some(slot) = clients.get_mut(client as usize) {
        stay_slot(slot, lines);
    }
}

/// Those of the list follow nothing any more that the lines end.
pub(crate) fn stay_listed(clients: &mut Vec<Option<Client>>, numbers: &[u32], lines: &[Line])
    ensures { clients.new.items ≡ walked (keeping_on (map line_of lines.now)) numbers.now clients.old.items }
{
    for number in numbers {
        stay_at(clients, *number, lines);
    }
}

/// All are to go whose tokens do not open their roles any more.
pub(crate) fn check_all(clients: &mut Vec<Option<Client>>, tokens: &[Token])
    ensures { clients.new.items ≡ at_all (checking tokens.now) clients.old.items }
{
    for slot in clients.iter_mut() {
        check_slot(slot, tokens);
    }
}
