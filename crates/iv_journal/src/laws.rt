//! Laws of journals as bytes. Each is the contract of a function that does nothing.
ghost use Rattle.std.specs.Prelude.{◌≡◌, List, ℕ};
ghost use Rattle.iv_journal.specs.Journal.{Line, journal_of};
ghost use Rattle.iv_journal.specs.Reading.{IsReading, Reading};
ghost use Rattle.iv_journal.specs.Worked.{two_lines, two_lines_text};
ghost use Rattle.iv_journal.specs.Laws.{CutsAreFronts, DigestsTell, GoesOn, HasItsText, HasOneReading, IsTold};

/// Any bytes have one reading: what is read is decided by them, and all of them are read as something.
pub fn bytes_have_one_reading()
    ensures { (bytes : List ℕ) → HasOneReading bytes }
{}

/// A reading tells all bytes: these are its lines, parts of a record that has no last line, and a rest. Without a fault the rest is a torn line;
/// else the fault is at the byte where, after these lines and parts, neither a line nor a torn one begins, or at 0 if the first line has no head.
pub fn readings_tell_all_bytes()
    ensures { (bytes : List ℕ) (r : Reading) → IsReading bytes r → IsTold bytes r }
{}

/// Of a journal that was cut after any of its bytes all records are read that are whole, nothing else, and no fault is told.
pub fn cuts_leave_whole_records()
    ensures { CutsAreFronts }
{}

/// A line's digest tells all lines up to it: two journals with one last digest are the same, or SHA-256 collides on what theirs are of.
pub fn digests_tell_all_lines()
    ensures { DigestsTell }
{}

/// A record of two lines has the bytes that another program made of it.
pub fn two_lines_are_written()
    ensures { journal_of two_lines ≡ two_lines_text }
{}

/// What is written after a journal, from its last digest on, makes it the longer journal.
pub fn journals_go_on()
    ensures { (ls ms : List Line) → GoesOn ls ms }
{}

/// A line has its text after its mark, its digest and a comma, and is one line if that is a text.
pub fn lines_have_their_texts()
    ensures { (before : List ℕ) (l : Line) → HasItsText before l }
{}
