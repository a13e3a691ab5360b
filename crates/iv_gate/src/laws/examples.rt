//! Worked examples: what a client is told in small runs. Each is the contract of a function that does nothing.
ghost use Rattle.std.specs.Prelude.{◌≡◌, ◌∷◌, [], None, Some, codes, true};
ghost use Rattle.iv_machine.specs.Act.{not_administrator};
ghost use Rattle.iv_machine.specs.declared.Cause.TheVariants as cause;
ghost use Rattle.iv_message.specs.Told.{denied, granted, over, settled, undecided};
ghost use Rattle.iv_gate.specs.Arriving.{decided_here, fault_of, gap, not_accepted, other_log, position, takes};
ghost use Rattle.iv_gate.specs.Gate.{decides};
ghost use Rattle.iv_gate.specs.Worked.{ahead_ask, asks, both_rows, by_ann, done_and_told, foreign_ask, foreign_step, given_again, is_done, later};
ghost use Rattle.iv_gate.specs.Worked.{leads, led_on, led_twice, notes, put, puts, reads_notes, reads_of, steps_in, sums_made, taken};
ghost use Rattle.iv_gate.specs.Worked.{taken_and_given, taken_before, told_more, too_large, total, without_right, writes, wrote};

/// By a step that takes a right, brings rows and gives it again, who reads is told the rows, once, and no end; where the right is not given
/// again, the end, and no row. If a later step gives it, that is told, though ann had the right to write.
pub fn steps_are_told_once()
    ensures given { told_more reads_notes (takes reads_notes taken_and_given) ≡ both_rows }
    ensures taken { told_more reads_notes (takes reads_notes taken) ≡ over 1 notes cause.Privilege [] ∷ settled ∷ [] }
    ensures given_again { told_more (takes reads_notes taken) (takes (takes reads_notes taken) given_again) ≡ granted notes ∷ settled ∷ [] }
{}

/// A view beyond the limits ends, and refuses nothing.
pub fn limits_refuse_no_step()
    ensures { told_more (reads_of total sums_made) (takes (reads_of total sums_made) too_large) ≡ over 1 total cause.Limit [] ∷ settled ∷ [] }
{}

/// What was taken already changes nothing; what begins elsewhere, is of another log, or is refused, ends the gateway, in words. A client's
/// request that changes what is shared is refused.
pub fn steps_follow_their_log()
    ensures again { takes reads_notes taken_before ≡ reads_notes }
    ensures gap { fault_of reads_notes later ≡ Some (gap 1) }
    ensures foreign { fault_of reads_notes foreign_step ≡ Some other_log }
    ensures refused { fault_of reads_notes without_right ≡ Some (not_accepted 2 not_administrator) }
    ensures dead { (takes reads_notes later).dead ≡ true }
    ensures position { position (takes reads_notes taken) ≡ 7 }
    ensures denied { told_more reads_notes (decides reads_notes 0 None (by_ann (put 1)) None) ≡ denied None 100 ∷ [] }
{}

/// A request with a name is answered once: the same again gets the same answer, another by its name 101.
pub fn names_are_answered_once()
    ensures first { told_more writes wrote ≡ done_and_told }
    ensures again { told_more wrote (puts wrote (asks 0 (codes "d")) 7) ≡ is_done true ∷ [] }
    ensures another { told_more wrote (puts wrote (asks 0 (codes "x")) 8) ≡ undecided None 101 ∷ [] }
    ensures place { told_more wrote (puts wrote (asks 1 (codes "d")) 7) ≡ undecided None 101 ∷ [] }
{}

/// A name without an answer here, of another epoch's place or of one that is ahead, is decided elsewhere while a log is followed, and else 103, 104.
pub fn names_are_decided_where_the_log_is()
    ensures foreign { told_more reads_notes (puts reads_notes foreign_ask 7) ≡ undecided None 100 ∷ [] }
    ensures ahead { told_more reads_notes (puts reads_notes ahead_ask 7) ≡ undecided None 100 ∷ [] }
    ensures foreign_here { told_more writes (puts writes foreign_ask 7) ≡ undecided None 103 ∷ [] }
    ensures ahead_here { told_more writes (puts writes ahead_ask 7) ≡ undecided None 104 ∷ [] }
{}

/// Who leads a log decides what has a name, also a refusal: each is a step, one position further. What has no name is not decided, no step is
/// taken that others bring, and a name of another epoch, or ahead, is told so.
pub fn leaders_decide_by_steps()
    ensures done { told_more leads led_on ≡ done_and_told }
    ensures steps { steps_in led_twice ≡ (Some 1, 4) ∷ (Some 2, 1) ∷ (Some 3, 0) ∷ [] }
    ensures position { position led_twice ≡ 3 }
    ensures unnamed { told_more leads (decides leads 0 None (by_ann (put 7)) None) ≡ denied None 100 ∷ [] }
    ensures foreign { told_more leads (puts leads foreign_ask 7) ≡ undecided None 103 ∷ [] }
    ensures ahead { told_more leads (puts leads ahead_ask 7) ≡ undecided None 104 ∷ [] }
    ensures brought { fault_of leads taken ≡ Some decided_here }
{}
