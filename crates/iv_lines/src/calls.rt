//! `Calls`: how many calls were made of an end of std, for contracts alone: it takes no bytes.
ghost use Rattle.std.specs.Prelude.{◌≡◌, ◌+◌};

use std::marker::Model;
use std::snapshot::Snapshot;

/// A number, by a snapshot of the one before it.
#[derive(Drop)]
struct Number {
    before: Option<Snapshot<Snapshot<Number>>>,
}

impl Model for Number {
    ghost use Rattle.std.specs.Prelude.{ℕ};

    ghost Value = { ℕ };

    ghost use Rattle.iv_lines.specs.Calls.{one_more};

    ghost view = { λ n. one_more n.before };

    ghost size = { λ n. n };

    ghost use Rattle.std.proofs.Common.{arith};

    ghost size_decreases = { λ a h. Prim.grind (arith) };
}

/// How many calls were made, which contracts alone read.
#[derive(Drop)]
pub struct Calls {
    /// How many calls were made.
    made: Snapshot<Number>,
}

impl Model for Calls {
    ghost use Rattle.std.specs.Prelude.{ℕ};

    ghost Value = { ℕ };

    ghost view = { λ c. c.made.value };
}

impl Calls {
    /// The count of calls with which an end of std begins: none.
    pub fn none() -> Calls
        ensures { result ≡ 0 }
    {
        Calls {
            made: Snapshot::of(&Number { before: None }),
        }
    }

    /// Adds one to how many calls were made of an end of std.
    pub fn add_one(&mut self)
        ensures { self.new ≡ self.old + 1 }
    {
        let before = Some(Snapshot::of(&self.made));
        self.made = Snapshot::of(&Number { before });
    }
}
