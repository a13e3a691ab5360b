//! Laws of names. Each is the contract of a function that does nothing.
ghost use Rattle.std.specs.Prelude.{◌≡◌, ◌∷◌, ◌++◌, [], ◌+◌, ◌*◌, ◌≤◌, ℕ, List, codes};
ghost use Rattle.std.specs.List.{AllByRecursion};
ghost use Rattle.iv_once.specs.Names.{Ask, Known, Limits, own_of, verdict};
ghost use Rattle.iv_once.specs.Runs.{Event, acts_of, after, history, journal, kept, known, names, run, says, undecided};
ghost use Rattle.iv_once.specs.Laws.{AreAlike, AreFinal, AreKept, AreOnce, AreRemembered, HasAnswer, HasReason, HasToWait, IsReadBack, StaysReached, blames, forgiveness};
ghost use Rattle.iv_once.specs.Worked.{from_a_copy, from_ahead, lost, old, other, refused, third, told_in, twice};

/// What clients are told in small runs.
pub fn examples_are_worked_out()
    ensures twice { told_in twice ≡ says (codes "1") ∷ says (codes "1") ∷ [] }
    ensures lost { told_in lost ≡ says (codes "2") ∷ [] }
    ensures other { told_in other ≡ undecided 101 ∷ says (codes "1") ∷ [] }
    ensures old { told_in old ≡ undecided 102 ∷ says (codes "3") ∷ says (codes "2") ∷ says (codes "1") ∷ [] }
    ensures copied { told_in from_a_copy ≡ undecided 103 ∷ says (codes "1") ∷ [] }
    ensures ahead { told_in from_ahead ≡ undecided 103 ∷ undecided 103 ∷ [] }
    ensures refused { told_in refused ≡ says (codes "4") ∷ undecided 104 ∷ says (codes "no") ∷ says (codes "no") ∷ [] }
    ensures third { told_in third ≡ undecided 104 ∷ says (codes "2") ∷ says (codes "1") ∷ [] }
{}

/// Whatever happens: of all entries that ever were on disk, or wait for it, at most one bears a holder's name and place. The
/// machine has done what the entries say, each once, and nothing else.
pub fn names_are_carried_out_once()
    ensures once { (l : Limits) (epoch : List ℕ) (es : List Event) → AreOnce (history (run l epoch es)) }
    ensures acts { (l : Limits) (epoch : List ℕ) (es : List Event) → (run l epoch es).acts ≡ acts_of (journal (run l epoch es)) }
{}

/// Whatever happens: each answer of the machine that was told is that of an entry that the disk had. Two that were told to one holder, name and
/// place are the same, and are to the same request. While no more entries of its holder are after its place than are kept, what was carried
/// out gets that answer.
pub fn repetitions_are_told_the_same()
    ensures kept { (l : Limits) (epoch : List ℕ) (es : List Event) → let d = run l epoch es in AllByRecursion (HasAnswer (kept d ++ d.gone)) d.told }
    ensures alike { (l : Limits) (epoch : List ℕ) (es : List Event) → AreAlike (run l epoch es).told }
    ensures remembered { (l : Limits) (epoch : List ℕ) (es : List Event) → AreRemembered l (run l epoch es) }
{}

/// Whatever happens: after a 102 or a 103 that was told, of that request nothing is carried out. No verdict is given without its reason: a
/// 102, only if more entries of the holder than are kept are after the request's place.
pub fn undecided_are_final()
    ensures settled { (l : Limits) (epoch : List ℕ) (es : List Event) → AreFinal l (run l epoch es) }
    ensures reasons { (l : Limits) (epoch : List ℕ) (es : List Event) (a : Ask) → let d = run l epoch es in HasReason l d a (verdict (names l d) a) }
{}

/// Whatever happens: what is kept in memory is what all entries say, over restarts, compaction and copies. A place that the disk had is not
/// ahead later, while its holder is in its epoch. What a new first record says of a holder is read as what was kept.
pub fn what_is_kept_survives()
    ensures kept { (l : Limits) (epoch : List ℕ) (es : List Event) → AreKept l (run l epoch es) }
    ensures reached { (l : Limits) (epoch : List ℕ) (es : List Event) → StaysReached l (run l epoch es) }
    ensures read { (l : Limits) (epoch : List ℕ) (es : List Event) (holder : List ℕ) (k : Known) → IsReadBack l k holder (own_of (known l (run l epoch es)) holder) }
{}

/// Whatever happens: entries that were refused, and new epochs, are no more of a holder than are allowed until they are forgiven; and no more
/// holders have names than may. Only who is to blame for as many as are allowed is told 104, or if as many holders have names as may.
pub fn names_are_bounded()
    ensures refusals { (l : Limits) (epoch : List ℕ) (es : List Event) (holder : List ℕ) → blames holder (history (run l epoch es)) ≤ l.refusals * (1 + forgiveness es) }
    ensures holders { (l : Limits) (epoch : List ℕ) (es : List Event) → (known l (run l epoch es)).holders ≤ l.holders }
    ensures waits { (l : Limits) (epoch : List ℕ) (es : List Event) (a : Ask) → HasToWait l (run l epoch es) a }
{}
