//! `Feed`: a subscription that clients of a role share; `Seat`: a session, and its role; look-ups among them.
ghost use Rattle.std.specs.Prelude.{◌≡◌, ◌==◌, Option, IfOk, IfSome, option_map, is_some, map, filter, not};
ghost use Rattle.std.specs.List.{list_any};
ghost use Rattle.iv_command.specs.Views.{line_of};
ghost use Rattle.iv_clients.specs.Feeds.{ends_in, feed_for, feed_of, feeds_left, has_room, is_begun, is_end, is_of_role, is_reading, load, next_seat, rel_read, room_for, seat_of, without_feed, without_seat};

use iv_command::Line;
use std::marker::Model;

/// The most sessions that roles have at a time.
const MOST_SEATS: u32 = 255;

/// The most feeds of a session.
const MOST_FEEDS: usize = 15;

/// A subscription of the machine, in a session of a role, to a relation.
#[derive(Drop)]
pub struct Feed {
    /// The machine's number.
    pub number: u64,
    /// The session.
    pub session: u32,
    /// The session's role.
    pub role: String,
    /// The relation.
    pub rel: String,
}

impl Model for Feed {
    ghost use Rattle.std.specs.Prelude.{string_bytes};
    ghost use Rattle.iv_clients.specs.Feeds.{Feed};

    ghost Value = { Feed };

    ghost view = { λ f. record { number = f.number; session = f.session; role = string_bytes f.role; rel = string_bytes f.rel } };
}

/// A session of the machine, and its role.
#[derive(Drop)]
pub struct Seat {
    /// The session.
    pub session: u32,
    /// Its role.
    pub role: String,
}

impl Model for Seat {
    ghost use Rattle.std.specs.Prelude.{string_bytes};
    ghost use Rattle.iv_clients.specs.Feeds.{Seat};

    ghost Value = { Seat };

    ghost view = { λ s. record { session = s.session; role = string_bytes s.role } };
}

impl Feed {
    /// Whether the role reads the relation by it.
    pub fn is_reading(&self, role: &str, rel: &str) -> bool
        ensures { result ≡ is_reading role.now rel.now self.now }
    {
        self.role.as_str() == role && self.rel.as_str() == rel
    }
}

/// What a role reads of a relation.
pub fn feed_for<'a>(feeds: &'a [Feed], role: &str, rel: &str) -> Option<&'a Feed>
    ensures { option_map (λ f. f.now) result ≡ feed_for feeds.now role.now rel.now }
{
    feeds.iter().find(|feed| feed.is_reading(role, rel))
}

/// The feed of a number.
pub fn feed_of(feeds: &[Feed], number: u64) -> Option<&Feed>
    ensures { option_map (λ f. f.now) result ≡ feed_of feeds.now number }
{
    feeds.iter().find(|feed| number == feed.number)
}

/// The relation of a subscription; of none no name.
pub fn rel_read(feeds: &[Feed], number: u64) -> &str
    ensures { result.now ≡ rel_read feeds.now number }
{
    match feed_of(feeds, number) {
        None => "",
        Some(feed) => feed.rel.as_str(),
    }
}

/// How many feeds a session has.
pub fn load(feeds: &[Feed], session: u32) -> usize
    ensures { result ≡ load feeds.now session }
{
    feeds.iter().filter(|feed| session == feed.session).count()
}

/// Whether a session has a feed.
pub fn has_feed(feeds: &[Feed], session: u32) -> bool
    ensures { result ≡ list_any (λ f. session == f.session) feeds.now }
{
    feeds.iter().any(|feed| session == feed.session)
}

impl Seat {
    /// Whether it is of the role.
    pub fn is_of_role(&self, role: &str) -> bool
        ensures { result ≡ is_of_role role.now self.now }
    {
        self.role.as_str() == role
    }

    fn has_room(&self, feeds: &[Feed], role: &str) -> bool
        ensures { result ≡ has_room feeds.now role.now self.now }
    {
        self.is_of_role(role) && load(feeds, self.session) < MOST_FEEDS
    }
}

/// The first session of a role.
pub fn seat_of(seats: &[Seat], role: &str) -> Option<u32>
    ensures { result ≡ seat_of seats.now role.now }
{
    seats
        .iter()
        .find(|seat| seat.is_of_role(role))
        .map(|seat| seat.session)
}

/// The first session of a role that has a place for a feed.
pub fn room_for(seats: &[Seat], feeds: &[Feed], role: &str) -> Option<u32>
    ensures { result ≡ room_for seats.now feeds.now role.now }
{
    seats
        .iter()
        .find(|seat| seat.has_room(feeds, role))
        .map(|seat| seat.session)
}

/// Whether a session is begun.
fn is_begun(seats: &[Seat], session: u32) -> bool
    ensures { result ≡ is_begun seats.now session }
{
    seats.iter().any(|seat| session == seat.session)
}

/// The first session that is not begun.
pub fn next_seat(seats: &[Seat]) -> Option<u32>
    ensures { result ≡ next_seat seats.now }
{
    for place in 0..MOST_SEATS {
        if !is_begun(seats, place + 1) {
            return Some(place + 1);
        }
    }
    None
}

/// Whether a line ends a subscription.
fn is_end(line: &Line, number: u64) -> bool
    ensures { result ≡ is_end number (line_of line.now) }
{
    match line {
        Line::Ended { sub, .. } => number == *sub,
        _ => false,
    }
}

/// Whether one of the lines does.
pub fn ends_in(lines: &[Line], number: u64) -> bool
    ensures { result ≡ ends_in (map line_of lines.now) number }
{
    for line in lines {
        if is_end(line, number) {
            return true;
        }
    }
    false
}

/// Without the feeds that the lines end.
pub fn drop_ended(feeds: &mut Vec<Feed>, lines: &[Line])
    ensures { feeds.new.items ≡ feeds_left (map line_of lines.now) feeds.old.items }
{
    feeds.retain(|feed| !ends_in(lines, feed.number));
}

/// Without the feed of a number.
pub fn drop_feed(feeds: &mut Vec<Feed>, number: u64)
    ensures { feeds.new.items ≡ without_feed number feeds.old.items }
{
    feeds.retain(|feed| number != feed.number);
}

/// Without a session.
pub fn drop_seat(seats: &mut Vec<Seat>, session: u32)
    ensures { seats.new.items ≡ without_seat session seats.old.items }
{
    seats.retain(|seat| session != seat.session);
}
