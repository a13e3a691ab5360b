//! `Log`: lines on standard error, so many a second at most.
ghost use Rattle.std.specs.Prelude.{◌≡◌, ◌+◌, ◌/◌, if◌then◌else◌, nat_lt};
ghost use Rattle.iv_host.specs.Counts.{lines_at, most_lines};

/// Lines a second at most.
const MOST: u32 = 20;

/// Which second it is, how many lines it had, and how many were left out.
#[derive(Drop)]
pub struct Log {
    /// The second of the last line, since 1970.
    second: u64,
    /// How many lines were written in that second.
    lines: u32,
    /// How many lines were left out and not told of yet.
    left_out: u64,
}

impl Log {
    /// Nothing was written yet.
    pub fn new() -> Log {
        Log {
            second: 0,
            lines: 0,
            left_out: 0,
        }
    }

    /// Says how many lines were left out before a second that has begun, if there were any.
    fn go_on(&mut self, rt: &HostRuntime, second: u64)
        ensures second { self.new.second ≡ second }
        ensures lines { self.new.lines ≡ lines_at second self.old.second self.old.lines }
    {
        if second != self.second {
            self.second = second;
            self.lines = 0;
            if self.left_out > 0 {
                let count = self.left_out;
                let _ = eprintln!(rt; "gateway: {count} lines were left out");
                self.left_out = 0;
            }
        }
    }

    /// Whether a line may be written at this time, in milliseconds: 20 a second, and no more. Says how many were left out before.
    pub fn may_say(&mut self, rt: &HostRuntime, now: u64) -> bool
        ensures answer { result ≡ nat_lt (lines_at (now / 1000) self.old.second self.old.lines) most_lines }
        ensures second { self.new.second ≡ now / 1000 }
        ensures lines { self.new.lines ≡ lines_at (now / 1000) self.old.second self.old.lines + (if result then 1 else 0) }
    {
        self.go_on(rt, now / 1000);
        if self.lines >= MOST {
            self.left_out = self.left_out.saturating_add(1);
            return false;
        }
        self.lines += 1;
        true
    }
}
