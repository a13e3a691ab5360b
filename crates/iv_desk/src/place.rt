//! `Place`: the peer of a number, before the gateway whose client has the same number.
ghost use Rattle.std.specs.Prelude.{◌≡◌, IfOk, OnOk, codes, false, if◌then◌else◌};
ghost use Rattle.iv_gate.specs.Gate.{Gate};
ghost use Rattle.iv_gateway.specs.Views.{IsGate};
ghost use Rattle.iv_peer.specs.Socket.{Socket, forget, fresh};
ghost use Rattle.iv_desk.specs.Front.{is_held, let_go, offered_to, put_off, turned_away};
ghost use Rattle.iv_desk.specs.Desks.{IsHeardNext, IsHeardOut, IsHearing, IsTextNext, place_of};

use iv_gate::laws::events_leave_their_marks;
use iv_gateway::{Gateway, GatewayFault};
use iv_peer::laws::sockets_carry_what_is_told;
use iv_peer::{Heard, Peer};
use std::alloc::{AllocError, Global};

/// Bytes that wait at a number which is heard, at most.
const MOST_PENDING: usize = 262_144;

/// The code of a close if the token opens no role.
pub(crate) const NO_ROLE: u16 = 4401;

/// What is left at a number of the bytes that were read.
#[derive(Clone, Copy, Debug, PartialEq, Eq)]
pub enum Hearing {
    /// All that they say is heard: more may be read.
    All,
    /// Some may be left that is not heard now: nothing is to be read until `resume` answers otherwise.
    Held,
    /// Nothing more is heard or told: the socket is to be closed once nothing is pending.
    Over,
}

/// The peer of a number, and whether it has presented its token.
#[derive(Drop)]
pub(crate) struct Place {
    pub(crate) peer: Peer,
    pub(crate) presented: bool,
}

impl Place {
    /// A connection at which nothing was read or told.
    pub(crate) fn new(alloc: Global) -> Place
        ensures { result ≡ place_of fresh }
    {
        Place {
            peer: Peer::new(alloc),
            presented: false,
        }
    }
}

/// The words of a close by `NO_ROLE`.
pub(crate) fn no_role() -> &'static [u8]
    ensures { result.now ≡ codes "This token opens no role." }
{
    b"This token opens no role."
}

/// Closes a peer that does not come in by its token, which opens a role or none.
fn turn_away(peer: &mut Peer, opens: bool) -> Result<(), AllocError>
    ensures { OnOk result (peer.new ≡ forget (if opens then put_off peer.old else turned_away peer.old)) }
{
    if opens {
        peer.close(1013, b"No place is free, or the role is not there.")?;
        return Ok(());
    }
    peer.close(NO_ROLE, no_role())?;
    Ok(())
}

/// Closes a peer whose client is to go.
fn let_go(peer: &mut Peer) -> Result<(), AllocError>
    ensures { OnOk result (peer.new ≡ forget (let_go peer.old)) }
{
    peer.close(1013, b"What was told was not taken.")?;
    Ok(())
}

/// Whether what was read is not heard now: too much waits at the number, or its client is not heard.
fn is_held(gateway: &Gateway, at: u32, place: &Place) -> bool
    ensures { (g : Gate) (s : Socket) → IsGate g gateway.now → g.dead ≡ false → place.now ≡ place_of s → result ≡ is_held g at s }
{
    place.peer.pending().len() > MOST_PENDING || place.presented && !gateway.is_heard(at)
}

/// A token is presented at a number. If nobody comes in by it, the peer is closed.
fn present(
    gateway: &mut Gateway,
    at: u32,
    place: &mut Place,
    token: &[u8],
) -> Result<(), GatewayFault>
    ensures { OnOk result ((g : Gate) (s : Socket) → IsTextNext g at s token.now gateway.old place.old → place.old.presented ≡ false
        → IsHearing g at s gateway.new place.new) }
{
    events_leave_their_marks();
    sockets_carry_what_is_told();
    place.presented = true;
    match gateway.admit(at, token) {
        Err(fault) => Err(fault),
        Ok(true) => Ok(()),
        Ok(false) => match turn_away(&mut place.peer, gateway.opens(token)) {
            Err(_) => Err(GatewayFault::Memory),
            Ok(()) => Ok(()),
        },
    }
}

/// A text is heard: a token if none was presented, and else a message of the client.
fn hear_text(
    gateway: &mut Gateway,
    at: u32,
    place: &mut Place,
    text: &[u8],
) -> Result<(), GatewayFault>
    ensures { OnOk result ((g : Gate) (s : Socket) → IsTextNext g at s text.now gateway.old place.old → IsHearing g at s gateway.new place.new) }
{
    if !place.presented {
        present(gateway, at, place, text)?;
        return Ok(());
    }
    events_leave_their_marks();
    sockets_carry_what_is_told();
    match gateway.said(at, text) {
        Err(fault) => Err(fault),
        Ok(_) => Ok(()),
    }
}

/// The next thing is heard that the bytes say, if that may be now. Else what is left.
fn hear_next(
    gateway: &mut Gateway,
    at: u32,
    place: &mut Place,
) -> Result<Option<Hearing>, GatewayFault>
    ensures { IfOk result (λ o. (g : Gate) (s : Socket) → IsHearing g at s gateway.old place.old → IsHeardNext g at s o gateway.new place.new) }
{
    sockets_carry_what_is_told();
    if place.peer.is_over() {
        return Ok(Some(Hearing::Over));
    }
    if is_held(gateway, at, place) {
        return Ok(Some(Hearing::Held));
    }
    match place.peer.hear() {
        Err(_) => Err(GatewayFault::Memory),
        Ok(Heard::Nothing) => Ok(Some(Hearing::All)),
        Ok(Heard::Over) => Ok(Some(Hearing::Over)),
        Ok(Heard::Other) => Ok(None),
        Ok(Heard::Text(text)) => match hear_text(gateway, at, place, text.as_bytes()) {
            Err(fault) => Err(fault),
            Ok(()) => Ok(None),
        },
    }
}

/// All is heard that the bytes say and that may be heard now. What is left.
pub(crate) fn hear(
    gateway: &mut Gateway,
    at: u32,
    place: &mut Place,
) -> Result<Hearing, GatewayFault>
    ensures { IfOk result (λ hearing. (g : Gate) (s : Socket) → IsHearing g at s gateway.old place.old → IsHeardOut g at s hearing gateway.new place.new) }
{
    for _ in 0..u64::MAX {
        if let Some(hearing) = hear_next(gateway, at, place)? {
            return Ok(hearing);
        }
    }
    Err(GatewayFault::Memory)
}

/// Offers a peer what its client may be sent, once it has sent all that it was offered. One whose client is to go is closed.
pub(crate) fn offer(gateway: &mut Gateway, at: u32, place: &mut Place) -> Result<(), AllocError>
    ensures { OnOk result ((g : Gate) (s : Socket) → IsGate g gateway.old → g.dead ≡ false → place.old ≡ place_of s
        → IsGate (offered_to at g s).0 gateway.new × (place.new ≡ place_of (offered_to at g s).1)) }
{
    if !place.peer.is_open() {
        return Ok(());
    }
    if gateway.is_dropped(at) {
        let_go(&mut place.peer)?;
        return Ok(());
    }
    if place.peer.pending().is_empty() {
        let text = gateway.take(at);
        if !text.is_empty() {
            place.peer.tell(&text)?;
        }
    }
    Ok(())
}
