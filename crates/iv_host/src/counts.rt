//! `Counts`: what the program counts of its connections since its start.
ghost use Rattle.std.specs.Prelude.{◌≡◌};
ghost use Rattle.iv_host.specs.Counts.{ended, raised};

/// Why a connection ends.
#[derive(Clone, Copy, Debug, PartialEq, Eq)]
pub enum Why {
    /// The other end closed it, or it broke.
    Closed,
    /// It was no client in time.
    Late,
    /// It took nothing for a long time.
    Stuck,
    /// The gateway closed it, and said by a code why.
    Told,
    /// A request was answered.
    Answered,
}

impl Why {
    /// Why, in words.
    pub fn words(self) -> &'static str {
        match self {
            Why::Closed => "it closed, or broke",
            Why::Late => "it was no client in time",
            Why::Stuck => "it takes nothing",
            Why::Told => "it was told why",
            Why::Answered => "it was answered",
        }
    }
}

/// Bounds of the time of a sync, in microseconds, and the same in seconds.
pub const BOUNDS: [(u64, &str); 7] = [
    (300, "0.0003"),
    (1_000, "0.001"),
    (3_000, "0.003"),
    (10_000, "0.01"),
    (30_000, "0.03"),
    (100_000, "0.1"),
    (1_000_000, "1"),
];

/// What the program counts since its start.
#[derive(Clone, Copy)]
pub struct Counts {
    /// Connections that were accepted.
    pub accepted: u64,
    /// Connections for which there was no room.
    pub no_room: u64,
    /// Clients who came in.
    pub came: u64,
    /// Connections at which no token was known.
    pub refused: u64,
    /// Requests that asked for no WebSocket.
    pub asked: u64,
    /// Bytes that were read of clients.
    pub read: u64,
    /// Bytes that clients' sockets took.
    pub sent: u64,
    /// Connections that the other end closed, or that broke.
    pub closed: u64,
    /// Those that were no client in time.
    pub late: u64,
    /// Those that took nothing for a long time.
    pub stuck: u64,
    /// Those that the gateway closed by a code.
    pub told: u64,
}

/// Counts a thing. A count stops at the greatest number.
pub fn raise(count: &mut u64, by: u64)
    ensures { count.new ≡ raised count.old by }
{
    *count = count.saturating_add(by);
}

impl Counts {
    /// Nothing was counted yet.
    pub fn new() -> Counts {
        Counts {
            accepted: 0,
            no_room: 0,
            came: 0,
            refused: 0,
            asked: 0,
            read: 0,
            sent: 0,
            closed: 0,
            late: 0,
            stuck: 0,
            told: 0,
        }
    }

    /// Counts the end of a connection, by its cause; not that of an answer.
    pub fn end(&mut self, why: Why)
        ensures { self.new ≡ ended why self.old }
    {
        match why {
            Why::Closed => raise(&mut self.closed, 1),
            Why::Late => raise(&mut self.late, 1),
            Why::Stuck => raise(&mut self.stuck, 1),
            Why::Told => raise(&mut self.told, 1),
            Why::Answered => {}
        }
    }
}
