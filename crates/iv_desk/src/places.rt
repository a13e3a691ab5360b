//! Peers by their numbers: what is done to one of them, and to all.
ghost use Rattle.std.specs.Prelude.{◌≡◌, IfOk, None, OnOk, Option, false, option_map, replicate, slice_set};
ghost use Rattle.iv_clients.specs.Clients.{at_client, is_free};
ghost use Rattle.iv_gate.specs.Gate.{Gate};
ghost use Rattle.iv_gateway.specs.Views.{IsGate};
ghost use Rattle.iv_peer.specs.Socket.{Socket, closed, passing, took};
ghost use Rattle.iv_desk.specs.Front.{Front, at_socket, dismissed, offered};
ghost use Rattle.iv_desk.specs.Desks.{AreLived, IsBehind, IsCalledBehind, IsHeardAt, IsHeardBehind, IsOfferedAt, at_each, place_of, with_peer};

use crate::place::{Hearing, NO_ROLE, Place, hear, no_role, offer};
use iv_gate::laws::events_leave_their_marks;
use iv_gateway::{Gateway, GatewayFault};
use iv_message::laws::told_texts_are_lines;
use std::alloc::{AllocError, Global};

/// As many places with nobody.
pub(crate) fn empty_places(alloc: Global, most: u32) -> Result<Vec<Option<Place>>, AllocError>
    ensures { IfOk result (λ places. places.items ≡ replicate most None) }
{
    let mut places = Vec::new(alloc);
    for _ in 0..most {
        places.push(None)?;
    }
    Ok(places)
}

/// Whether the number is there, and no connection has it.
pub(crate) fn is_free(places: &[Option<Place>], at: u32) -> bool
    ensures { result ≡ is_free at places.now }
{
    match places.get(at as usize) {
        Some(None) => true,
        _ => false,
    }
}

/// The number has this connection from now on, or none.
pub(crate) fn put_at(places: &mut Vec<Option<Place>>, at: u32, place: Option<Place>)
    ensures { places.new.items ≡ slice_set places.old.items at place }
{
    if (at as usize) < places.len() {
        places[at as usize] = place;
    }
}

// ---- one socket

fn take_slot(slot: &mut Option<Place>, bytes: &[u8]) -> Result<(), AllocError>
    ensures { OnOk result (slot.new ≡ option_map (with_peer (took bytes.now)) slot.old) }
{
    match slot {
        None => Ok(()),
        Some(place) => place.peer.take(bytes),
    }
}

/// Takes in bytes that were read at a number.
fn take_at(places: &mut Vec<Option<Place>>, at: u32, bytes: &[u8]) -> Result<(), AllocError>
    ensures { OnOk result (places.new.items ≡ at_client at (with_peer (took bytes.now)) places.old.items) }
{
    match places.get_mut(at as usize) {
        None => Ok(()),
        Some(slot) => {
            take_slot(slot, bytes)?;
            Ok(())
        }
    }
}

fn close_slot(slot: &mut Option<Place>, code: u16, words: &[u8]) -> Result<(), AllocError>
    ensures { OnOk result (slot.new ≡ option_map (with_peer (closed code words.now)) slot.old) }
{
    match slot {
        None => Ok(()),
        Some(place) => place.peer.close(code, words),
    }
}

/// Closes the connection of a number.
pub(crate) fn close_at(
    places: &mut Vec<Option<Place>>,
    at: u32,
    code: u16,
    words: &[u8],
) -> Result<(), AllocError>
    ensures { OnOk result (places.new.items ≡ at_client at (with_peer (closed code words.now)) places.old.items) }
{
    match places.get_mut(at as usize) {
        None => Ok(()),
        Some(slot) => {
            close_slot(slot, code, words)?;
            Ok(())
        }
    }
}

fn pass_slot(slot: &mut Option<Place>, count: usize)
    ensures { slot.new ≡ option_map (with_peer (passing count)) slot.old }
{
    if let Some(place) = slot {
        place.peer.pass(count);
    }
}

/// As many bytes were sent that were pending at a number.
pub(crate) fn pass_at(places: &mut Vec<Option<Place>>, at: u32, count: usize)
    ensures { places.new.items ≡ at_client at (with_peer (passing count)) places.old.items }
{
    if let Some(slot) = places.get_mut(at as usize) {
        pass_slot(slot, count);
    }
}

// ---- a socket and its client

fn hear_slot(
    gateway: &mut Gateway,
    at: u32,
    slot: &mut Option<Place>,
) -> Result<Hearing, GatewayFault>
    ensures { IfOk result (λ hearing. (g : Gate) (o : Option Socket) → IsGate g gateway.old → g.dead ≡ false → slot.old ≡ option_map place_of o → AreLived o
        → IsHeardAt g at o hearing gateway.new slot.new) }
{
    match slot {
        None => Ok(Hearing::Over),
        Some(place) => {
            let hearing = hear(gateway, at, place)?;
            Ok(hearing)
        }
    }
}

/// All is heard that may be heard now at a number. What is left.
pub(crate) fn hear_at(
    gateway: &mut Gateway,
    at: u32,
    places: &mut Vec<Option<Place>>,
) -> Result<Hearing, GatewayFault>
    ensures { IfOk result (λ hearing. (d : Front) → IsBehind d gateway.old places.old.items → IsHeardBehind d at hearing gateway.new places.new.items) }
{
    match places.get_mut(at as usize) {
        None => Ok(Hearing::Over),
        Some(slot) => {
            let hearing = hear_slot(gateway, at, slot)?;
            Ok(hearing)
        }
    }
}

/// Takes in bytes that were read at a number, and hears all that may be heard now. What is left.
pub(crate) fn read_at(
    gateway: &mut Gateway,
    at: u32,
    places: &mut Vec<Option<Place>>,
    bytes: &[u8],
) -> Result<Hearing, GatewayFault>
    ensures { IfOk result (λ hearing. (d : Front) → IsBehind d gateway.old places.old.items
        → IsHeardBehind (at_socket at (took bytes.now) d) at hearing gateway.new places.new.items) }
{
    match take_at(places, at, bytes) {
        Err(_) => Err(GatewayFault::Memory),
        Ok(()) => {
            let hearing = hear_at(gateway, at, places)?;
            Ok(hearing)
        }
    }
}

fn offer_slot(gateway: &mut Gateway, at: u32, slot: &mut Option<Place>) -> Result<(), AllocError>
    ensures { OnOk result ((g : Gate) (o : Option Socket) → IsGate g gateway.old → g.dead ≡ false → slot.old ≡ option_map place_of o → AreLived o
        → IsOfferedAt g at o gateway.new slot.new) }
{
    match slot {
        None => Ok(()),
        Some(place) => {
            offer(gateway, at, place)?;
            Ok(())
        }
    }
}

/// Offers a number what its client may be sent.
fn offer_at(
    gateway: &mut Gateway,
    at: u32,
    places: &mut Vec<Option<Place>>,
) -> Result<(), AllocError>
    ensures { OnOk result ((d : Front) → IsBehind d gateway.old places.old.items → IsBehind (offered at d) gateway.new places.new.items) }
{
    events_leave_their_marks();
    match places.get_mut(at as usize) {
        None => Ok(()),
        Some(slot) => {
            offer_slot(gateway, at, slot)?;
            Ok(())
        }
    }
}

/// Offers each of these numbers what its client may be sent.
fn offer_each(
    gateway: &mut Gateway,
    numbers: &[u32],
    places: &mut Vec<Option<Place>>,
) -> Result<(), AllocError>
    ensures { OnOk result ((d : Front) → IsBehind d gateway.old places.old.items → IsBehind (at_each offered numbers.now d) gateway.new places.new.items) }
{
    for at in numbers {
        offer_at(gateway, *at, places)?;
    }
    Ok(())
}

/// Offers each number that is called what its client may be sent.
pub(crate) fn offer_told(
    alloc: Global,
    gateway: &mut Gateway,
    places: &mut Vec<Option<Place>>,
) -> Result<(), AllocError>
    ensures { OnOk result ((d : Front) → IsBehind d gateway.old places.old.items → IsCalledBehind offered d gateway.new places.new.items) }
{
    told_texts_are_lines();
    let numbers = Vec::from_slice(alloc, gateway.told())?;
    offer_each(gateway, &numbers, places)?;
    Ok(())
}

/// Closes a number whose client is to go, since its token opens its role no more.
fn dismiss_at(gateway: &Gateway, at: u32, places: &mut Vec<Option<Place>>) -> Result<(), AllocError>
    ensures { OnOk result ((d : Front) → IsBehind d gateway.now places.old.items → IsBehind (dismissed at d) gateway.now places.new.items) }
{
    if gateway.is_dropped(at) {
        close_at(places, at, NO_ROLE, no_role())?;
    }
    Ok(())
}

fn dismiss_each(
    gateway: &Gateway,
    numbers: &[u32],
    places: &mut Vec<Option<Place>>,
) -> Result<(), AllocError>
    ensures { OnOk result ((d : Front) → IsBehind d gateway.now places.old.items → IsBehind (at_each dismissed numbers.now d) gateway.now places.new.items) }
{
    for at in numbers {
        dismiss_at(gateway, *at, places)?;
    }
    Ok(())
}

/// Closes each number whose client is to go.
pub(crate) fn dismiss_told(
    gateway: &Gateway,
    places: &mut Vec<Option<Place>>,
) -> Result<(), AllocError>
    ensures { OnOk result ((d : Front) → IsBehind d gateway.now places.old.items → IsCalledBehind dismissed d gateway.now places.new.items) }
{
    told_texts_are_lines();
    dismiss_each(gateway, gateway.told(), places)?;
    Ok(())
}
